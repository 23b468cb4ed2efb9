//! Structs of named parts and of one.
//!
//! Made from `structs.rs` by `tools/derive`: change that, and make this again.
use speedy::{Context, ItemByItem, Layout, LendingReader, ReadFrom, Writable, Writer};
use std::convert::AsSlice;

/// Named parts.
#[derive(Drop)]
pub struct Numbers {
    /// It has one byte.
    pub a: u8,
    pub b: u16,
    pub c: u32,
}

/// What [`Numbers`] is read and written as.
type NumbersParts = (u8, u16, u32);

impl Layout for Numbers {
    ghost Seen = { ⟦<NumbersParts as Layout>⟧.Seen };

    ghost seen = { λ it. ⟦<NumbersParts as Layout>⟧.seen (it.a, it.b, it.c) };

    ghost layout = { ⟦<NumbersParts as Layout>⟧.layout };
}

impl<L: AsSlice<u8> + Drop, C: Context> ReadFrom<L, C> for Numbers {
    type Strategy = ItemByItem<C>;

    #[inline(always)]
    fn read_from<R: LendingReader<L, C>>(reader: &mut R) -> Result<Numbers, C::Error> {
        match reader.read_value() {
            Ok((a, b, c)) => Ok(Numbers { a, b, c }),
            Err(error) => Err(error),
        }
    }

    fn minimum_bytes_needed() -> usize {
        7
    }
}

impl<C: Context> Writable<C> for Numbers {
    fn write_to<W: Writer<C>>(&self, writer: &mut W) -> Result<(), C::Error> {
        writer.write_value(&(self.a, self.b, self.c))
    }
}

/// A single part.
#[derive(Clone, Debug, PartialEq, Drop)]
pub struct Newtype(pub u16);

impl Layout for Newtype {
    ghost Seen = { ⟦<u16 as Layout>⟧.Seen };

    ghost seen = { λ it. ⟦<u16 as Layout>⟧.seen it.0 };

    ghost layout = { ⟦<u16 as Layout>⟧.layout };
}

impl<L: AsSlice<u8> + Drop, C: Context> ReadFrom<L, C> for Newtype {
    type Strategy = ItemByItem<C>;

    #[inline(always)]
    fn read_from<R: LendingReader<L, C>>(reader: &mut R) -> Result<Newtype, C::Error> {
        match reader.read_value() {
            Ok(t0) => Ok(Newtype(t0)),
            Err(error) => Err(error),
        }
    }

    fn minimum_bytes_needed() -> usize {
        2
    }
}

impl<C: Context> Writable<C> for Newtype {
    fn write_to<W: Writer<C>>(&self, writer: &mut W) -> Result<(), C::Error> {
        writer.write_value(&self.0)
    }
}
