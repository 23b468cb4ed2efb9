//! How floats are read: as their bits.
use crate::bulk::Numbers;
use crate::readable::ReadFrom;
use crate::reader::LendingReader;
use speedy_base::context::Context;
use speedy_layout::{F32, F64};
use std::convert::AsSlice;

impl<L: AsSlice<u8> + Drop, C: Context> ReadFrom<L, C> for F32 {
    type Strategy = Numbers;

    #[inline(always)]
    fn read_from<R: LendingReader<L, C>>(reader: &mut R) -> Result<F32, C::Error> {
        Ok(F32::from_bits(reader.read_u32()?))
    }

    fn minimum_bytes_needed() -> usize {
        4
    }
}

impl<L: AsSlice<u8> + Drop, C: Context> ReadFrom<L, C> for F64 {
    type Strategy = Numbers;

    #[inline(always)]
    fn read_from<R: LendingReader<L, C>>(reader: &mut R) -> Result<F64, C::Error> {
        Ok(F64::from_bits(reader.read_u64()?))
    }

    fn minimum_bytes_needed() -> usize {
        8
    }
}
