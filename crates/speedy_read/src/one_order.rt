//! How numbers of one byte order are read: as numbers of their width, which are decoded in their own order.
use crate::bulk::Numbers;
use crate::digits::read_number;
use crate::readable::ReadFrom;
use crate::reader::LendingReader;
use speedy_base::context::Context;
use speedy_layout::fixed_numbers::FixedNumber;
use speedy_layout::view_items::FixedSize;
use speedy_layout::{Big, Little};
use std::convert::AsSlice;

impl<L: AsSlice<u8> + Drop, C: Context, T: FixedNumber> ReadFrom<L, C> for Big<T> {
    type Strategy = Numbers;

    #[inline(always)]
    fn read_from<R: LendingReader<L, C>>(reader: &mut R) -> Result<Big<T>, C::Error> {
        read_number::<Big<T>, L, C, R>(reader)
    }

    #[inline]
    fn minimum_bytes_needed() -> usize {
        T::SIZE
    }
}

impl<L: AsSlice<u8> + Drop, C: Context, T: FixedNumber> ReadFrom<L, C> for Little<T> {
    type Strategy = Numbers;

    #[inline(always)]
    fn read_from<R: LendingReader<L, C>>(reader: &mut R) -> Result<Little<T>, C::Error> {
        read_number::<Little<T>, L, C, R>(reader)
    }

    #[inline]
    fn minimum_bytes_needed() -> usize {
        T::SIZE
    }
}
