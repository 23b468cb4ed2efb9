//! How cases are read: a tag, and the value of the case that has it. The enum itself refuses a tag that no case has.
ghost use Rattle.speedy_layout.specs.Choices.{tagged};
ghost use Rattle.speedy_read.specs.Cases.{ReadsCase};
ghost use Rattle.speedy_read.specs.Reading.{ReadsAs};

use crate::prefixed::ReadPrefix;
use crate::reader::LendingReader;
use speedy_base::context::Context;
use speedy_layout::cases::Cases;
use std::convert::AsSlice;

/// How the values of an enum are read, where `L` is what the reader lends.
pub trait ReadCases<L: AsSlice<u8> + Drop, C: Context>: Cases + Sized + Drop {
    /// Reads a value of the case with this tag. A tag that no case has is the error `InvalidEnumVariant`.
    fn read_case<R: LendingReader<L, C>>(tag: usize, reader: &mut R) -> Result<Self, C::Error>
        ensures { ReadsCase C.Error.IsEof R.state Self.seen (Self.choices.case_of tag) result
            reader.old reader.new };
}

/// Reads a tag, as a number of the type `N`, and the value of the case that has it.
#[inline]
pub fn read_tagged<
    N: ReadPrefix,
    T: ReadCases<L, C>,
    L: AsSlice<u8> + Drop,
    C: Context,
    R: LendingReader<L, C>,
>(reader: &mut R) -> Result<T, C::Error>
    ensures { ReadsAs C.Error.IsEof R.state T.seen (tagged N.numbers.codec.format T.choices) result
        reader.old reader.new }
{
    let tag = N::read_number(reader)?;
    T::read_case(tag, reader)
}
