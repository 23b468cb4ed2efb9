//! A struct of your own that borrows.
ghost use Rattle.std.specs.Prelude.{◌≡◌};

use speedy::{Context, ItemByItem, Layout, LendingReader, Part, ReadFrom, Writable, Writer};
use std::borrow::CowSlice;

/// A name and what it stands for, which point into what they are read from.
#[derive(Drop)]
pub struct Entry<'a> {
    pub name: &'a str,
    pub content: CowSlice<'a, u8>,
}

/// What an [`Entry`] is read as.
type Parts<'a> = (&'a str, CowSlice<'a, u8>);

impl<'a> Layout for Entry<'a> {
    ghost Seen = { ⟦<Parts<'a> as Layout>⟧.Seen };

    ghost seen = { λ entry. ⟦<Parts<'a> as Layout>⟧.seen (entry.name, entry.content) };

    ghost layout = { ⟦<Parts<'a> as Layout>⟧.layout };
}

impl<'a, C: Context> ReadFrom<&'a [u8], C> for Entry<'a> {
    type Strategy = ItemByItem<C>;

    fn read_from<R: LendingReader<&'a [u8], C>>(reader: &mut R) -> Result<Entry<'a>, C::Error> {
        let (name, content) = reader.read_value()?;
        Ok(Entry { name, content })
    }

    fn minimum_bytes_needed() -> usize
        ensures { result ≡ 8 }
    {
        8
    }
}

impl<'a, C: Context> Writable<C> for Entry<'a> {
    fn write_to<W: Writer<C>>(&self, writer: &mut W) -> Result<(), C::Error> {
        writer.write_value(&(self.name, Part(&self.content)))
    }
}
