//! A number as a type of one's own, which is read and written item by item.
//!
//! Reads and writes in bulk are compared with it.
ghost use Rattle.std.specs.Prelude.{ℕ};

use speedy::{Context, ItemByItem, Layout, LendingReader, ReadFrom, Writable, Writer};
use std::convert::AsSlice;

/// A number that lies as a `u16` does.
#[derive(Clone, Copy, Debug, PartialEq, Drop)]
pub struct Plain16(pub u16);

impl Layout for Plain16 {
    ghost Seen = { ℕ };

    ghost seen = { λ x. x.0 };

    ghost layout = { ⟦<u16 as Layout>⟧.layout };
}

impl<L: AsSlice<u8> + Drop, C: Context> ReadFrom<L, C> for Plain16 {
    type Strategy = ItemByItem<C>;

    fn read_from<R: LendingReader<L, C>>(reader: &mut R) -> Result<Plain16, C::Error> {
        Ok(Plain16(reader.read_u16()?))
    }

    fn minimum_bytes_needed() -> usize {
        2
    }
}

impl<C: Context> Writable<C> for Plain16 {
    fn write_to<W: Writer<C>>(&self, writer: &mut W) -> Result<(), C::Error> {
        writer.write_u16(self.0)
    }
}
