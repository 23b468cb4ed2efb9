//! Decoding of a prefix of bytes in memory (`Buffer`): each way of reading that lends from a buffer goes through it.
ghost use Rattle.std.specs.Prelude.{ℕ};
ghost use Rattle.speedy_read.specs.WaysOfReading.{AnswersBuffer};

use crate::buffer_reader::BufferReader;
use crate::readable::ReadFrom;
use speedy_base::context::Context;
use speedy_base::error::error_input_buffer_is_too_small;
use std::alloc::Global;
use std::convert::AsSlice;

/// Bytes that lend parts of themselves: `&'a [u8]`.
///
/// A function that is generic in what it reads names its bytes by a type parameter, as `L: Buffer<C>` and
/// `T: ReadFrom<L, C>`, and no lifetime.
pub trait Buffer<C: Context>: AsSlice<u8> + Drop + Sized {
    /// Decodes a value from a prefix of the bytes, under the context, and says how many bytes that prefix has.
    ///
    /// Fewer bytes than the type's least size are the error `InputBufferIsTooSmall`, with the count 0. Beside another
    /// error the count is how many bytes were taken before it, at most all, and tells of no value.
    fn read_with_length<T: ReadFrom<Self, C>>(
        self,
        alloc: Global,
        context: C,
    ) -> (Result<T, C::Error>, usize)
        ensures { AnswersBuffer C.Error.IsEof T.seen T.layout (C.mode context)
            result.0 result.1 (Self.items self) };

    /// Decodes a value from a prefix of the bytes, under the context.
    ///
    /// Fewer bytes than the type's least size are the error `InputBufferIsTooSmall`.
    final fn read_prefix<T: ReadFrom<Self, C>>(
        self,
        alloc: Global,
        context: C,
    ) -> Result<T, C::Error>
        ensures { (count : ℕ) × AnswersBuffer C.Error.IsEof T.seen T.layout (C.mode context)
            result count (Self.items self) }
    {
        self.read_with_length::<T>(alloc, context).0
    }
}

impl<'a, C: Context> Buffer<C> for &'a [u8] {
    fn read_with_length<T: ReadFrom<&'a [u8], C>>(
        self,
        alloc: Global,
        context: C,
    ) -> (Result<T, C::Error>, usize) {
        let least = T::minimum_bytes_needed();
        if self.len() < least {
            return (Err(error_input_buffer_is_too_small(self.len(), least)), 0);
        }
        let mut reader = BufferReader::new(alloc, context, self);
        let result = T::read_from(&mut reader);
        (result, self.len() - reader.len())
    }
}
