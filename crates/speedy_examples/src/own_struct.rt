//! A struct of your own: a tuple of its parts, which is proved with no answer.
use speedy::{Context, ItemByItem, Layout, LendingReader, Part, ReadFrom, Writable, Writer};
use std::convert::AsSlice;

/// A person of an address book.
#[derive(Debug, PartialEq, Drop)]
pub struct Contact {
    pub name: String,
    pub mail: String,
    pub groups: Vec<u16>,
}

/// What a [`Contact`] is read as.
type Parts = (String, String, Vec<u16>);

impl Layout for Contact {
    ghost Seen = { ⟦<Parts as Layout>⟧.Seen };

    ghost seen = { λ it. ⟦<Parts as Layout>⟧.seen (it.name, it.mail, it.groups) };

    ghost layout = { ⟦<Parts as Layout>⟧.layout };
}

impl<L: AsSlice<u8> + Drop, C: Context> ReadFrom<L, C> for Contact {
    type Strategy = ItemByItem<C>;

    fn read_from<R: LendingReader<L, C>>(reader: &mut R) -> Result<Contact, C::Error> {
        match reader.read_value() {
            Ok((name, mail, groups)) => Ok(Contact { name, mail, groups }),
            Err(error) => Err(error),
        }
    }

    fn minimum_bytes_needed() -> usize {
        <Parts as ReadFrom<L, C>>::minimum_bytes_needed()
    }
}

impl<C: Context> Writable<C> for Contact {
    fn write_to<W: Writer<C>>(&self, writer: &mut W) -> Result<(), C::Error> {
        writer.write_value(&(Part(&self.name), Part(&self.mail), Part(&self.groups)))
    }
}
