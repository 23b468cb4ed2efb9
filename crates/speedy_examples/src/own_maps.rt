//! A struct of your own with a map and a set.
use speedy::{Context, ItemByItem, Layout, LendingReader, Part, ReadFrom, Writable, Writer};
use std::collections::{BTreeMap, HashSet};
use std::convert::AsSlice;

/// Numbers by name, and numbers that are marked.
#[derive(Drop)]
pub struct Directory {
    pub numbers: BTreeMap<String, u32>,
    pub marked: HashSet<u32>,
}

/// What a [`Directory`] is read as.
type Parts = (BTreeMap<String, u32>, HashSet<u32>);

impl Layout for Directory {
    ghost Seen = { ⟦<Parts as Layout>⟧.Seen };

    ghost seen = { λ it. ⟦<Parts as Layout>⟧.seen (it.numbers, it.marked) };

    ghost layout = { ⟦<Parts as Layout>⟧.layout };
}

impl<L: AsSlice<u8> + Drop, C: Context> ReadFrom<L, C> for Directory {
    type Strategy = ItemByItem<C>;

    fn read_from<R: LendingReader<L, C>>(reader: &mut R) -> Result<Directory, C::Error> {
        let (numbers, marked) = reader.read_value()?;
        Ok(Directory { numbers, marked })
    }

    fn minimum_bytes_needed() -> usize {
        <Parts as ReadFrom<L, C>>::minimum_bytes_needed()
    }
}

impl<C: Context> Writable<C> for Directory {
    fn write_to<W: Writer<C>>(&self, writer: &mut W) -> Result<(), C::Error> {
        writer.write_value(&(Part(&self.numbers), Part(&self.marked)))
    }
}
