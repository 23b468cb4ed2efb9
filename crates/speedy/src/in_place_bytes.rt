//! Bytes by value in values that a list may show where it lies (`InPlaceBytes`).
ghost use Rattle.std.specs.Prelude.{List, ℕ};
ghost use Rattle.speedy_layout.specs.Codecs.{raw_bytes_codec};
ghost use Rattle.speedy.specs.InPlace.{raw_bytes_in_place};

use crate::in_place::InPlace;
use speedy_base::context::Context;
use speedy_layout::Layout;
use speedy_read::many::ItemByItem;
use speedy_read::readable::ReadFrom;
use speedy_read::reader::LendingReader;
use speedy_write::{Writable, Writer};
use std::convert::AsSlice;

/// `N` bytes, as a `[u8; N]`, which take no memory where they are read.
///
/// An array's layout asks for memory, as that of a vector does, since its items may be of any type. So no value that a
/// list shows where it lies holds an array; it may hold these bytes.
#[derive(Clone, Copy, Debug, PartialEq, Eq, PartialOrd, Ord, Hash, Drop)]
pub struct InPlaceBytes<const N: usize>(pub [u8; N]);

impl<const N: usize> Layout for InPlaceBytes<N> {
    ghost Seen = { List ℕ };

    ghost seen = { λ it. it.0 };

    ghost layout = { raw_bytes_codec N };
}

impl<L: AsSlice<u8> + Drop, C: Context, const N: usize> ReadFrom<L, C> for InPlaceBytes<N> {
    type Strategy = ItemByItem<C>;

    #[inline]
    fn read_from<R: LendingReader<L, C>>(reader: &mut R) -> Result<InPlaceBytes<N>, C::Error> {
        let mut bytes = [0; N];
        reader.read_bytes(&mut bytes)?;
        Ok(InPlaceBytes(bytes))
    }

    #[inline]
    fn minimum_bytes_needed() -> usize {
        N
    }
}

impl<C: Context, const N: usize> Writable<C> for InPlaceBytes<N> {
    #[inline]
    fn write_to<W: Writer<C>>(&self, writer: &mut W) -> Result<(), C::Error> {
        let bytes = self.0;
        writer.write_bytes(&bytes)
    }
}

impl<const N: usize> InPlace for InPlaceBytes<N> {
    ghost Seen = { List ℕ };

    ghost in_place = { raw_bytes_in_place N };
}
