//! Items that are read until the bytes end.
ghost use Rattle.speedy_read.specs.UntilEnd.{ReadsUnlessEnd, ReadsValuesUntilEnd};

use crate::collections::FromItems;
use crate::readable::ReadFrom;
use crate::reader::LendingReader;
use speedy_base::context::Context;
use speedy_base::error::{IsEof, error_out_of_memory, error_out_of_range_length};
use std::convert::AsSlice;

// The next value, or `None` where the bytes end before it does: where its error says that the input ended.
#[inline]
fn read_unless_end<T: ReadFrom<L, C>, L: AsSlice<u8> + Drop, C: Context, R: LendingReader<L, C>>(
    reader: &mut R,
) -> Result<Option<T>, C::Error>
    ensures { ReadsUnlessEnd C.Error.IsEof R.state T.seen T.layout result reader.old reader.new }
{
    match T::read_from(reader) {
        Ok(item) => Ok(Some(item)),
        Err(error) => {
            if error.is_eof() {
                return Ok(None);
            }
            Err(error)
        }
    }
}

// Reads items until the bytes end, of which at most `greatest` are allowed, and gathers them one by one.
pub(crate) fn collect_until_end<
    F: FromItems<T>,
    T: ReadFrom<L, C>,
    L: AsSlice<u8> + Drop,
    C: Context,
    R: LendingReader<L, C>,
>(reader: &mut R, greatest: usize) -> Result<F, C::Error>
    ensures { ReadsValuesUntilEnd C.Error.IsEof R.state T.seen F.gathers T.layout greatest
        result reader.old reader.new }
{
    let mut whole = F::empty(reader.alloc());
    let mut left = greatest;
    while let Some(item) = read_unless_end::<T, L, C, R>(reader)? {
        if left == 0 {
            return Err(error_out_of_range_length());
        }
        left -= 1;
        if whole.add(item).is_err() {
            return Err(error_out_of_memory());
        }
    }
    Ok(whole)
}
