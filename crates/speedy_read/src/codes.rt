//! Values that are read as codes (`FromCode`), each of which means a value or is refused.
ghost use Rattle.std.specs.Prelude.{◌≡◌};
ghost use Rattle.speedy_read.specs.Decoding.{Decodes, IsCoded};

use crate::readable::ReadFrom;
use crate::reader::LendingReader;
use speedy_base::context::Context;
pub use speedy_layout::codes::ToCode;
use speedy_layout::layout::Layout;
use std::convert::AsSlice;

/// Types of which each code, a value of the type that [`ToCode`] names, means a value or is refused.
///
/// It takes the place of an impl of [`ReadFrom`]: what is decoded is read where its codes are.
pub trait FromCode: ToCode + Sized + Drop {
    /// How several of its values are read, as in [`ReadFrom`]: `ItemByItem<()>` for a type of one's own.
    type Strategy;

    /// The value that the code means. A code that means none is an error, and so is one that is not written, where the
    /// context reads only canonical encodings (`demands_written_form`).
    ///
    /// A value has each encoding of the code. An error says that none of these begins an encoding of any value.
    fn decode<C: Context>(code: Self::Code, demands_written_form: bool) -> Result<Self, C::Error>
        ensures { Decodes C.Error.IsEof demands_written_form Self.Code.layout Self.layout
            (Self.Code.seen code) Self.seen result };

    /// Each encoding of a value is one of a code, and both have one least size.
    ghost is_coded: { IsCoded Self.Code.layout Self.layout };
}

impl<L: AsSlice<u8> + Drop, C: Context, T: FromCode> ReadFrom<L, C> for T
where
    T::Code: ReadFrom<L, C>,
{
    type Strategy = T::Strategy;

    #[inline]
    fn read_from<R: LendingReader<L, C>>(reader: &mut R) -> Result<T, C::Error> {
        let code = reader.read_value::<T::Code>()?;
        T::decode::<C>(code, reader.demands_written_form())
    }

    #[inline]
    fn minimum_bytes_needed() -> usize {
        <T::Code as ReadFrom<L, C>>::minimum_bytes_needed()
    }
}
