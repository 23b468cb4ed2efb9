//! How `Box` is read: as its content.
use crate::many::ItemByItem;
use crate::readable::ReadFrom;
use crate::reader::LendingReader;
use speedy_base::context::Context;
use speedy_base::error::error_out_of_memory;
use std::convert::AsSlice;

impl<L: AsSlice<u8> + Drop, C: Context, T: ReadFrom<L, C>> ReadFrom<L, C> for Box<T> {
    type Strategy = ItemByItem<C>;

    #[inline]
    fn read_from<R: LendingReader<L, C>>(reader: &mut R) -> Result<Box<T>, C::Error> {
        let value = T::read_from(reader)?;
        match Box::new(reader.alloc(), value) {
            Ok(boxed) => Ok(boxed),
            Err(_) => Err(error_out_of_memory()),
        }
    }

    #[inline]
    fn minimum_bytes_needed() -> usize {
        T::minimum_bytes_needed()
    }
}
