//! What a sensor measures.
//!
//! Made from `sensor.rs` by `tools/derive`: change that, and make this again.
use speedy::{Context, ItemByItem, Layout, LendingReader, Part, ReadFrom, Writable, Writer};
use std::convert::AsSlice;

/// What a sensor measured.
#[derive(Debug, PartialEq, Drop)]
pub struct Reading {
    pub second: u32,
    pub value: i32,
}

/// What [`Reading`] is read and written as.
type ReadingParts = (u32, i32);

impl Layout for Reading {
    ghost Seen = { ⟦<ReadingParts as Layout>⟧.Seen };

    ghost seen = { λ it. ⟦<ReadingParts as Layout>⟧.seen (it.second, it.value) };

    ghost layout = { ⟦<ReadingParts as Layout>⟧.layout };
}

impl<L: AsSlice<u8> + Drop, C: Context> ReadFrom<L, C> for Reading {
    type Strategy = ItemByItem<C>;

    #[inline(always)]
    fn read_from<R: LendingReader<L, C>>(reader: &mut R) -> Result<Reading, C::Error> {
        match reader.read_value() {
            Ok((second, value)) => Ok(Reading { second, value }),
            Err(error) => Err(error),
        }
    }

    fn minimum_bytes_needed() -> usize {
        8
    }
}

impl<C: Context> Writable<C> for Reading {
    fn write_to<W: Writer<C>>(&self, writer: &mut W) -> Result<(), C::Error> {
        writer.write_value(&(self.second, Part(&self.value)))
    }
}
