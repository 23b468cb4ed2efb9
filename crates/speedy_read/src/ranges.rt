//! How ranges are read.
ghost use Rattle.std.specs.Prelude.{◌≡◌, ◌+◌, false, IfOk};
ghost use Rattle.std.specs.Range.{range_inclusive_exhausted};
ghost use Rattle.speedy_read.specs.Reading.{ReadsValue};

use crate::many::ItemByItem;
use crate::readable::ReadFrom;
use crate::reader::LendingReader;
use speedy_base::context::Context;
use speedy_layout::layout::Layout;
use std::convert::AsSlice;
use std::ops::{Range, RangeInclusive};

impl<L: AsSlice<u8> + Drop, C: Context, T: ReadFrom<L, C>> ReadFrom<L, C> for Range<T> {
    type Strategy = ItemByItem<C>;

    #[inline]
    fn read_from<R: LendingReader<L, C>>(reader: &mut R) -> Result<Range<T>, C::Error> {
        let (start, end) = reader.read_value::<(T, T)>()?;
        Ok(start..end)
    }

    #[inline]
    fn minimum_bytes_needed() -> usize {
        T::minimum_bytes_needed().saturating_mul(2)
    }
}

impl<L: AsSlice<u8> + Drop, C: Context, T: ReadFrom<L, C>> ReadFrom<L, C> for RangeInclusive<T> {
    type Strategy = ItemByItem<C>;

    #[inline]
    fn read_from<R: LendingReader<L, C>>(reader: &mut R) -> Result<RangeInclusive<T>, C::Error>
        ensures reads { ReadsValue C.Error.IsEof R.state ⟦<RangeInclusive<T> as Layout>⟧.seen
            ⟦<RangeInclusive<T> as Layout>⟧.layout result reader.old reader.new }
        ensures not_walked { IfOk result (λ range. range_inclusive_exhausted range ≡ false) }
    {
        let (start, end) = reader.read_value::<(T, T)>()?;
        Ok(start..=end)
    }

    #[inline]
    fn minimum_bytes_needed() -> usize {
        T::minimum_bytes_needed().saturating_mul(2)
    }
}
