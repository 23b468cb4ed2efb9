//! How integers of variable length are read: byte by byte, by `read_u64_varint` of `reader`.
use crate::many::ItemByItem;
use crate::readable::ReadFrom;
use crate::reader::LendingReader;
use speedy_base::context::Context;
use speedy_layout::VarInt64;
use std::convert::AsSlice;

impl<L: AsSlice<u8> + Drop, C: Context> ReadFrom<L, C> for VarInt64 {
    type Strategy = ItemByItem<C>;

    #[inline]
    fn read_from<R: LendingReader<L, C>>(reader: &mut R) -> Result<VarInt64, C::Error> {
        Ok(VarInt64::from(reader.read_u64_varint()?))
    }

    #[inline]
    fn minimum_bytes_needed() -> usize {
        1
    }
}
