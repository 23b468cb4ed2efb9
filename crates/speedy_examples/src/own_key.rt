//! A key of your own.
ghost use Rattle.std.specs.Cmp.{unsigned_Decides};
ghost use Rattle.speedy.specs.Equality.{first_part, last_part};

use speedy::{Context, ItemByItem, Layout, LendingReader, ReadFrom, SameKey, Writable, Writer};
use std::convert::AsSlice;

/// Where a piece stands, a key of a map.
#[derive(Debug, Clone, Copy, PartialEq, Eq, PartialOrd, Ord, Hash)]
pub struct Place {
    pub row: u16,
    pub column: u32,
}

/// What a [`Place`] is read and written as.
type Parts = (u16, u32);

impl Layout for Place {
    ghost Seen = { ⟦<Parts as Layout>⟧.Seen };

    ghost seen = { λ it. ⟦<Parts as Layout>⟧.seen (it.row, it.column) };

    ghost layout = { ⟦<Parts as Layout>⟧.layout };
}

impl SameKey for Place {
    ghost same_key = { λ x y. first_part (unsigned_Decides x.row y.row)
        (last_part (unsigned_Decides x.column y.column)) };
}

impl<L: AsSlice<u8> + Drop, C: Context> ReadFrom<L, C> for Place {
    type Strategy = ItemByItem<C>;

    fn read_from<R: LendingReader<L, C>>(reader: &mut R) -> Result<Place, C::Error> {
        let (row, column) = reader.read_value()?;
        Ok(Place { row, column })
    }

    fn minimum_bytes_needed() -> usize {
        <Parts as ReadFrom<L, C>>::minimum_bytes_needed()
    }
}

impl<C: Context> Writable<C> for Place {
    fn write_to<W: Writer<C>>(&self, writer: &mut W) -> Result<(), C::Error> {
        writer.write_value(&(self.row, self.column))
    }
}
