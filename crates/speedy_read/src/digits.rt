//! How a number of any fixed size is read and peeked: its digits, in the order of the context.
ghost use Rattle.speedy_read.specs.Reading.{ReadsValue, PeeksValue};

use crate::reader::LendingReader;
use speedy_base::context::Context;
use speedy_layout::fixed_numbers::{FixedNumber, MOST_DIGITS, number_of};
use speedy_layout::view_items::FixedSize;
use std::convert::AsSlice;

// The next number.
#[inline(always)]
pub(crate) fn read_number<
    T: FixedNumber,
    L: AsSlice<u8> + Drop,
    C: Context,
    R: LendingReader<L, C>,
>(reader: &mut R) -> Result<T, C::Error>
    ensures { ReadsValue C.Error.IsEof R.state T.seen T.layout result reader.old reader.new }
{
    let mut bytes = [0; MOST_DIGITS];
    let digits = &mut bytes[..T::SIZE];
    reader.read_bytes(digits)?;
    Ok(number_of(reader.endianness(), digits))
}

// The next number, which is not taken.
#[inline(always)]
pub(crate) fn peek_number<
    T: FixedNumber,
    L: AsSlice<u8> + Drop,
    C: Context,
    R: LendingReader<L, C>,
>(reader: &mut R) -> Result<T, C::Error>
    ensures { PeeksValue C.Error.IsEof R.state T.seen T.layout result reader.old reader.new }
{
    let mut bytes = [0; MOST_DIGITS];
    let digits = &mut bytes[..T::SIZE];
    reader.peek_bytes(digits)?;
    Ok(number_of(reader.endianness(), digits))
}
