//! How numbers are read: what all widths share is in `digits`.
ghost use Rattle.speedy_read.specs.Decoding.{coded};

use crate::bulk::{Bytes, Numbers};
use crate::codes::FromCode;
use crate::digits::read_number;
use crate::many::ItemByItem;
use crate::readable::ReadFrom;
use crate::reader::LendingReader;
use speedy_base::context::Context;
use speedy_base::error::error_too_big_usize_for_this_architecture;
use speedy_layout::U24;
use std::convert::AsSlice;

impl<L: AsSlice<u8> + Drop, C: Context> ReadFrom<L, C> for u8 {
    type Strategy = Bytes;

    #[inline(always)]
    fn read_from<R: LendingReader<L, C>>(reader: &mut R) -> Result<u8, C::Error> {
        reader.read_u8()
    }

    fn minimum_bytes_needed() -> usize {
        1
    }
}

impl<L: AsSlice<u8> + Drop, C: Context> ReadFrom<L, C> for u16 {
    type Strategy = Numbers;

    #[inline(always)]
    fn read_from<R: LendingReader<L, C>>(reader: &mut R) -> Result<u16, C::Error> {
        reader.read_u16()
    }

    fn minimum_bytes_needed() -> usize {
        2
    }
}

impl<L: AsSlice<u8> + Drop, C: Context> ReadFrom<L, C> for U24 {
    type Strategy = Numbers;

    #[inline(always)]
    fn read_from<R: LendingReader<L, C>>(reader: &mut R) -> Result<U24, C::Error> {
        read_number::<U24, L, C, R>(reader)
    }

    fn minimum_bytes_needed() -> usize {
        3
    }
}

impl<L: AsSlice<u8> + Drop, C: Context> ReadFrom<L, C> for u32 {
    type Strategy = Numbers;

    #[inline(always)]
    fn read_from<R: LendingReader<L, C>>(reader: &mut R) -> Result<u32, C::Error> {
        reader.read_u32()
    }

    fn minimum_bytes_needed() -> usize {
        4
    }
}

impl<L: AsSlice<u8> + Drop, C: Context> ReadFrom<L, C> for u64 {
    type Strategy = Numbers;

    #[inline(always)]
    fn read_from<R: LendingReader<L, C>>(reader: &mut R) -> Result<u64, C::Error> {
        reader.read_u64()
    }

    fn minimum_bytes_needed() -> usize {
        8
    }
}

impl<L: AsSlice<u8> + Drop, C: Context> ReadFrom<L, C> for u128 {
    type Strategy = Numbers;

    #[inline(always)]
    fn read_from<R: LendingReader<L, C>>(reader: &mut R) -> Result<u128, C::Error> {
        reader.read_u128()
    }

    fn minimum_bytes_needed() -> usize {
        16
    }
}

impl<L: AsSlice<u8> + Drop, C: Context> ReadFrom<L, C> for i8 {
    type Strategy = Numbers;

    #[inline(always)]
    fn read_from<R: LendingReader<L, C>>(reader: &mut R) -> Result<i8, C::Error> {
        reader.read_i8()
    }

    fn minimum_bytes_needed() -> usize {
        1
    }
}

impl<L: AsSlice<u8> + Drop, C: Context> ReadFrom<L, C> for i16 {
    type Strategy = Numbers;

    #[inline(always)]
    fn read_from<R: LendingReader<L, C>>(reader: &mut R) -> Result<i16, C::Error> {
        reader.read_i16()
    }

    fn minimum_bytes_needed() -> usize {
        2
    }
}

impl<L: AsSlice<u8> + Drop, C: Context> ReadFrom<L, C> for i32 {
    type Strategy = Numbers;

    #[inline(always)]
    fn read_from<R: LendingReader<L, C>>(reader: &mut R) -> Result<i32, C::Error> {
        reader.read_i32()
    }

    fn minimum_bytes_needed() -> usize {
        4
    }
}

impl<L: AsSlice<u8> + Drop, C: Context> ReadFrom<L, C> for i64 {
    type Strategy = Numbers;

    #[inline(always)]
    fn read_from<R: LendingReader<L, C>>(reader: &mut R) -> Result<i64, C::Error> {
        reader.read_i64()
    }

    fn minimum_bytes_needed() -> usize {
        8
    }
}

impl<L: AsSlice<u8> + Drop, C: Context> ReadFrom<L, C> for i128 {
    type Strategy = Numbers;

    #[inline(always)]
    fn read_from<R: LendingReader<L, C>>(reader: &mut R) -> Result<i128, C::Error> {
        reader.read_i128()
    }

    fn minimum_bytes_needed() -> usize {
        16
    }
}

#[tactic(auto, using(crate::specs::Decoding::decoded))]
impl FromCode for usize {
    type Strategy = ItemByItem<()>;

    #[inline(always)]
    fn decode<C: Context>(code: u64, _: bool) -> Result<usize, C::Error> {
        match usize::try_from(code) {
            Ok(number) => Ok(number),
            Err(_) => Err(error_too_big_usize_for_this_architecture()),
        }
    }

    ghost is_coded = { coded _ _ _ };
}
