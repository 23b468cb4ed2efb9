//! A frame: a constant, counted parts and a short note, behind lengths of other widths than the listed types have.
//!
//! It is proved with no answer.
ghost use Rattle.std.specs.Prelude.{codes};

use speedy::magic::{Constant, Magic};
use speedy::prefixed::Prefixed;
use speedy::varint::VarInt64;
use speedy::{Context, ItemByItem, Layout, LendingReader, Part, ReadFrom, Writable, Writer};
use std::convert::AsSlice;

/// Parts and a note: the constant `SP`, the number of parts as an integer of variable length, the parts, and the note
/// behind its number of bytes, one byte. A longer note has no encoding.
#[derive(Debug, PartialEq, Drop)]
pub struct Frame {
    pub parts: Vec<VarInt64>,
    pub note: String,
}

/// What a frame begins with.
#[derive(Drop)]
pub struct Start {}

impl Constant for Start {
    ghost bytes = { codes "SP" };

    fn bytes() -> &'static [u8] {
        b"SP"
    }
}

type Parts = (
    Magic<Start>,
    Prefixed<VarInt64, Vec<VarInt64>>,
    Prefixed<u8, String>,
);

impl Layout for Frame {
    ghost Seen = { ⟦<Parts as Layout>⟧.Seen };

    ghost seen = { λ it. (codes "SP", (⟦<Vec<VarInt64> as Layout>⟧.seen it.parts, ⟦<String as Layout>⟧.seen it.note)) };

    ghost layout = { ⟦<Parts as Layout>⟧.layout };
}

impl<L: AsSlice<u8> + Drop, C: Context> ReadFrom<L, C> for Frame {
    type Strategy = ItemByItem<C>;

    fn read_from<R: LendingReader<L, C>>(reader: &mut R) -> Result<Frame, C::Error> {
        let (_, parts, note): Parts = reader.read_value()?;
        Ok(Frame {
            parts: parts.value,
            note: note.value,
        })
    }

    fn minimum_bytes_needed() -> usize {
        <Parts as ReadFrom<L, C>>::minimum_bytes_needed()
    }
}

impl<C: Context> Writable<C> for Frame {
    fn write_to<W: Writer<C>>(&self, writer: &mut W) -> Result<(), C::Error> {
        let parts: Prefixed<VarInt64, _> = Prefixed::new(Part(&self.parts));
        let note: Prefixed<u8, _> = Prefixed::new(Part(&self.note));
        writer.write_value(&(Magic::<Start>::new(), parts, note))
    }
}
