//! How lists are read that end with a mark.
use crate::many::ItemByItem;
use crate::prefixed::ReadPrefix;
use crate::readable::ReadFrom;
use crate::reader::LendingReader;
use crate::room::{STEP, push_in_steps};
use speedy_base::context::Context;
use speedy_base::error::error_out_of_memory;
use speedy_layout::until::ListUntil;
use std::convert::AsSlice;

impl<
    L: AsSlice<u8> + Drop,
    C: Context,
    N: ReadPrefix + Drop,
    T: ReadFrom<L, C>,
    const MARK: usize,
> ReadFrom<L, C> for ListUntil<N, T, MARK> {
    type Strategy = ItemByItem<C>;

    // No count bounds the entries, so room is asked for in steps.
    fn read_from<R: LendingReader<L, C>>(
        reader: &mut R,
    ) -> Result<ListUntil<N, T, MARK>, C::Error> {
        let mut entries = Vec::new(reader.alloc());
        let mut number = N::read_number(reader)?;
        while number != MARK {
            let value = T::read_from(reader)?;
            entries = match push_in_steps(entries, (number, value), STEP) {
                Ok(more) => more,
                Err(_) => return Err(error_out_of_memory()),
            };
            number = N::read_number(reader)?;
        }
        Ok(ListUntil::new(entries))
    }

    #[inline]
    fn minimum_bytes_needed() -> usize {
        N::least_size()
    }
}
