//! A header: a magic number, a version, and a length.
ghost use Rattle.std.specs.Prelude.{codes};

use speedy::magic::{Constant, Magic};
use speedy::varint::VarInt64;
use speedy::{Context, ItemByItem, Layout, LendingReader, ReadFrom, Writable, Writer};
use std::convert::AsSlice;

/// What stands in front of a body: a magic number, the version of its layout, and the number of its bytes.
#[derive(Debug, PartialEq, Drop)]
pub struct Header {
    pub version: u16,
    pub length: usize,
}

/// What a header begins with.
#[derive(Drop)]
pub struct Start {}

impl Constant for Start {
    ghost bytes = { codes "REC1" };

    fn bytes() -> &'static [u8] {
        b"REC1"
    }
}

type Parts = (Magic<Start>, u16, VarInt64);

impl Layout for Header {
    ghost Seen = { ⟦<Parts as Layout>⟧.Seen };

    ghost seen = { λ it. (codes "REC1", (it.version, it.length)) };

    ghost layout = { ⟦<Parts as Layout>⟧.layout };
}

impl<L: AsSlice<u8> + Drop, C: Context> ReadFrom<L, C> for Header {
    type Strategy = ItemByItem<C>;

    fn read_from<R: LendingReader<L, C>>(reader: &mut R) -> Result<Header, C::Error> {
        let (_, version, length): Parts = reader.read_value()?;
        Ok(Header {
            version,
            length: length.get() as usize,
        })
    }

    fn minimum_bytes_needed() -> usize {
        <Parts as ReadFrom<L, C>>::minimum_bytes_needed()
    }
}

impl<C: Context> Writable<C> for Header {
    fn write_to<W: Writer<C>>(&self, writer: &mut W) -> Result<(), C::Error> {
        let length = VarInt64::from(self.length as u64);
        writer.write_value(&(Magic::<Start>::new(), self.version, length))
    }
}
