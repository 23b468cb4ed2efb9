//! Types that can be read (`ReadFrom`, `Readable`), and the ways of reading them.
ghost use Rattle.std.specs.Prelude.{◌≡◌, ℕ, true, false};
ghost use Rattle.speedy_base.specs.Mode.{plain_mode};
ghost use Rattle.speedy_read.specs.Reading.{ReadsValue};
ghost use Rattle.speedy_read.specs.WaysOfReading.{AnswersBuffer, AnswersCopied, AnswersStream, AnswersFile};

use crate::buffer::Buffer;
pub use crate::buffer_reader::BufferReader;
pub use crate::bytes_reader::CopyingBufferReader;
use crate::lent::NothingLent;
pub use crate::many::ReadMany;
pub use crate::owned_reader::OwnedReader;
use crate::reader::LendingReader;
pub use crate::stream_reader::StreamReader;
use crate::stream_reader::read_stream;
use speedy_base::context::{Context, PlainContext};
use speedy_base::device::{Counted, Source};
use speedy_base::endianness::Endianness;
use speedy_base::error::{error_input_buffer_is_too_small, error_of_failed_call};
use speedy_layout::layout::Layout;
use std::alloc::Global;
use std::convert::AsSlice;
use std::fs::{File, Files};
use std::path::AsPath;

/// Types that can be read. `L` is what the reader lends.
///
/// Most types are read whatever is lent; types that borrow are read where `L` is `&'a [u8]`. Types implement this
/// trait, and users name them by [`Readable`].
pub trait ReadFrom<L: AsSlice<u8> + Drop, C: Context>: Layout + Sized + Drop {
    /// How several of its values are read: [`ItemByItem`](crate::many::ItemByItem) for a type of one's own.
    type Strategy;

    /// Reads a value.
    ///
    /// A value that is answered is encoded by a prefix of the remaining bytes, and just that prefix is taken. An error
    /// that is neither out of memory nor of a failed call means that no prefix encodes any value.
    fn read_from<R: LendingReader<L, C>>(reader: &mut R) -> Result<Self, C::Error>
        ensures { ReadsValue C.Error.IsEof R.state Self.seen Self.layout
            result reader.old reader.new };

    /// The least size: no value is encoded in fewer bytes.
    fn minimum_bytes_needed() -> usize
        ensures { result ≡ Self.layout.least };
}

/// Types that can be read from a buffer, a source or a file, with the ways of doing so. They may borrow for `'a`.
///
/// Only the forms over a buffer that do not copy lend its bytes. By the others a `&str` is the error `Unsized`, and an
/// `Option<&str>` is where it is not `None`, which has nothing to borrow.
pub trait Readable<'a, C: Context>: ReadMany<&'a [u8], C> {
    /// Decodes a value from a prefix of the buffer, in little endian.
    ///
    /// A buffer that is shorter than the type's least size is the error `InputBufferIsTooSmall`.
    fn read_from_buffer(alloc: Global, buffer: &'a [u8]) -> Result<Self, C::Error>
    where
        C: PlainContext,
        ensures { (count : ℕ) × AnswersBuffer C.Error.IsEof Self.seen Self.layout
            (plain_mode Endianness.LittleEndian) result count buffer.now };

    /// Decodes a value from a prefix of the buffer, in little endian, and says how many bytes that prefix has.
    ///
    /// A buffer that is shorter than the type's least size is the error `InputBufferIsTooSmall`, with the count 0.
    /// Beside another error the count is how many bytes were taken before it, at most all, and tells of no value.
    fn read_with_length_from_buffer(
        alloc: Global,
        buffer: &'a [u8],
    ) -> (Result<Self, C::Error>, usize)
    where
        C: PlainContext,
        ensures { AnswersBuffer C.Error.IsEof Self.seen Self.layout
            (plain_mode Endianness.LittleEndian) result.0 result.1 buffer.now };

    /// Decodes a value from a prefix of the buffer, under the context.
    ///
    /// A buffer that is shorter than the type's least size is the error `InputBufferIsTooSmall`.
    fn read_from_buffer_with_ctx(
        alloc: Global,
        context: C,
        buffer: &'a [u8],
    ) -> Result<Self, C::Error>
        ensures { (count : ℕ) × AnswersBuffer C.Error.IsEof Self.seen Self.layout
            (C.mode context) result count buffer.now };

    /// Decodes a value from a prefix of the buffer, under the context, and says how many bytes that prefix has.
    ///
    /// A buffer that is shorter than the type's least size is the error `InputBufferIsTooSmall`, with the count 0.
    /// Beside another error the count is how many bytes were taken before it, at most all, and tells of no value.
    fn read_with_length_from_buffer_with_ctx(
        alloc: Global,
        context: C,
        buffer: &'a [u8],
    ) -> (Result<Self, C::Error>, usize)
        ensures { AnswersBuffer C.Error.IsEof Self.seen Self.layout (C.mode context)
            result.0 result.1 buffer.now };

    /// As [`read_from_buffer`](Self::read_from_buffer), but nothing of the buffer is borrowed: a value that has to
    /// borrow is the error `Unsized`.
    fn read_from_buffer_copying_data(alloc: Global, buffer: &[u8]) -> Result<Self, C::Error>
    where
        C: PlainContext,
        ensures { (count : ℕ) × AnswersCopied C.Error.IsEof Self.seen Self.layout
            (plain_mode Endianness.LittleEndian) result count buffer.now };

    /// As [`read_with_length_from_buffer`](Self::read_with_length_from_buffer), but nothing of the buffer is
    /// borrowed: a value that has to borrow is the error `Unsized`.
    ///
    /// Beside an error the count says what it says there, and is at most the number of bytes of the buffer.
    fn read_with_length_from_buffer_copying_data(
        alloc: Global,
        buffer: &[u8],
    ) -> (Result<Self, C::Error>, usize)
    where
        C: PlainContext,
        ensures { AnswersCopied C.Error.IsEof Self.seen Self.layout
            (plain_mode Endianness.LittleEndian) result.0 result.1 buffer.now };

    /// As [`read_from_buffer_with_ctx`](Self::read_from_buffer_with_ctx), but nothing of the buffer is
    /// borrowed: a value that has to borrow is the error `Unsized`.
    fn read_from_buffer_copying_data_with_ctx(
        alloc: Global,
        context: C,
        buffer: &[u8],
    ) -> Result<Self, C::Error>
        ensures { (count : ℕ) × AnswersCopied C.Error.IsEof Self.seen Self.layout
            (C.mode context) result count buffer.now };

    /// As [`read_with_length_from_buffer_with_ctx`](Self::read_with_length_from_buffer_with_ctx), but nothing
    /// of the buffer is borrowed: a value that has to borrow is the error `Unsized`.
    ///
    /// Beside an error the count says what it says there, and is at most the number of bytes of the buffer.
    fn read_with_length_from_buffer_copying_data_with_ctx(
        alloc: Global,
        context: C,
        buffer: &[u8],
    ) -> (Result<Self, C::Error>, usize)
        ensures { AnswersCopied C.Error.IsEof Self.seen Self.layout (C.mode context)
            result.0 result.1 buffer.now };

    /// Decodes a value from a prefix of the buffer, under the context, and says how many bytes that prefix has. Nothing
    /// is borrowed: a value that has to borrow is the error `Unsized`.
    ///
    /// A buffer that is shorter than the type's least size is the error `InputBufferIsTooSmall`, with the count 0.
    /// Beside another error the count is how many bytes were taken before it, at most all, and tells of no value.
    fn read_with_length_from_buffer_copying_data_with_ctx_mut(
        alloc: Global,
        context: &mut C,
        buffer: &[u8],
    ) -> (Result<Self, C::Error>, usize)
        ensures mode { C.mode context.new ≡ C.mode context.old }
        ensures answers { AnswersCopied C.Error.IsEof Self.seen Self.layout (C.mode context.old)
            result.0 result.1 buffer.now };

    /// Decodes a value from the next bytes of the source, in little endian, and takes just these.
    ///
    /// Nothing is borrowed: a value that has to borrow is the error `Unsized`. An end of the source is an `IoError` of
    /// kind `UnexpectedEof`.
    fn read_from_stream_unbuffered<S: Source>(
        alloc: Global,
        source: &mut S,
    ) -> Result<Self, C::Error>
    where
        C: PlainContext,
        ensures { AnswersStream C.Error.IsEof S.source Self.seen Self.layout
            (plain_mode Endianness.LittleEndian) false result source.old source.new };

    /// As [`read_from_stream_unbuffered`](Self::read_from_stream_unbuffered), under the context.
    fn read_from_stream_unbuffered_with_ctx<S: Source>(
        alloc: Global,
        context: C,
        source: &mut S,
    ) -> Result<Self, C::Error>
        ensures { AnswersStream C.Error.IsEof S.source Self.seen Self.layout
            (C.mode context) false result source.old source.new };

    /// Decodes a value from the next bytes of the source, in little endian. It takes at most 8,191 bytes more, which
    /// are lost: it is for sources of one value.
    ///
    /// Nothing is borrowed: a value that has to borrow is the error `Unsized`. An end of the source is
    /// `UnexpectedEndOfInput` or, in a read of 8,192 bytes and more, an `IoError` of kind `UnexpectedEof`.
    fn read_from_stream_buffered<S: Source>(alloc: Global, source: &mut S) -> Result<Self, C::Error>
    where
        C: PlainContext,
        ensures { AnswersStream C.Error.IsEof S.source Self.seen Self.layout
            (plain_mode Endianness.LittleEndian) true result source.old source.new };

    /// As [`read_from_stream_buffered`](Self::read_from_stream_buffered), under the context.
    fn read_from_stream_buffered_with_ctx<S: Source>(
        alloc: Global,
        context: C,
        source: &mut S,
    ) -> Result<Self, C::Error>
        ensures { AnswersStream C.Error.IsEof S.source Self.seen Self.layout
            (C.mode context) true result source.old source.new };

    /// Decodes a value from the first bytes of the file, in little endian.
    ///
    /// A file that cannot be opened is an `IoError`, and one that is too short an end of input, as of a stream.
    fn read_from_file<R: Files, P: AsPath>(rt: &R, alloc: Global, path: P) -> Result<Self, C::Error>
    where
        C: PlainContext,
        ensures { AnswersFile C.Error.IsEof Self.seen Self.layout
            (plain_mode Endianness.LittleEndian) result };

    /// As [`read_from_file`](Self::read_from_file), under the context.
    fn read_from_file_with_ctx<R: Files, P: AsPath>(
        rt: &R,
        alloc: Global,
        context: C,
        path: P,
    ) -> Result<Self, C::Error>
        ensures { AnswersFile C.Error.IsEof Self.seen Self.layout (C.mode context) result };
}

// The bodies stand here and not in the trait: a call of a body of the trait names the trait at the type too, with all
// that the type is read by once more, and takes twice as long to prove.
impl<'a, C: Context, T: ReadMany<&'a [u8], C>> Readable<'a, C> for T {
    fn read_from_buffer(alloc: Global, buffer: &'a [u8]) -> Result<Self, C::Error>
    where
        C: PlainContext,
    {
        Self::read_from_buffer_with_ctx(alloc, C::plain(), buffer)
    }

    fn read_with_length_from_buffer(
        alloc: Global,
        buffer: &'a [u8],
    ) -> (Result<Self, C::Error>, usize)
    where
        C: PlainContext,
    {
        Self::read_with_length_from_buffer_with_ctx(alloc, C::plain(), buffer)
    }

    fn read_from_buffer_with_ctx(
        alloc: Global,
        context: C,
        buffer: &'a [u8],
    ) -> Result<Self, C::Error> {
        Self::read_with_length_from_buffer_with_ctx(alloc, context, buffer).0
    }

    fn read_with_length_from_buffer_with_ctx(
        alloc: Global,
        context: C,
        buffer: &'a [u8],
    ) -> (Result<Self, C::Error>, usize) {
        buffer.read_with_length(alloc, context)
    }

    fn read_from_buffer_copying_data(alloc: Global, buffer: &[u8]) -> Result<Self, C::Error>
    where
        C: PlainContext,
    {
        Self::read_from_buffer_copying_data_with_ctx(alloc, C::plain(), buffer)
    }

    fn read_with_length_from_buffer_copying_data(
        alloc: Global,
        buffer: &[u8],
    ) -> (Result<Self, C::Error>, usize)
    where
        C: PlainContext,
    {
        Self::read_with_length_from_buffer_copying_data_with_ctx(alloc, C::plain(), buffer)
    }

    fn read_from_buffer_copying_data_with_ctx(
        alloc: Global,
        context: C,
        buffer: &[u8],
    ) -> Result<Self, C::Error> {
        Self::read_with_length_from_buffer_copying_data_with_ctx(alloc, context, buffer).0
    }

    fn read_with_length_from_buffer_copying_data_with_ctx(
        alloc: Global,
        context: C,
        buffer: &[u8],
    ) -> (Result<Self, C::Error>, usize) {
        let mut context = context;
        Self::read_with_length_from_buffer_copying_data_with_ctx_mut(alloc, &mut context, buffer)
    }

    fn read_with_length_from_buffer_copying_data_with_ctx_mut(
        alloc: Global,
        context: &mut C,
        buffer: &[u8],
    ) -> (Result<Self, C::Error>, usize) {
        let least = Self::minimum_bytes_needed();
        let length = buffer.len();
        if length < least {
            return (Err(error_input_buffer_is_too_small(length, least)), 0);
        }
        let mut reader = CopyingBufferReader::new(alloc, context, buffer);
        let result = Self::read_from(&mut reader);
        let left = reader.finish();
        (result, length - left)
    }

    fn read_from_stream_unbuffered<S: Source>(
        alloc: Global,
        source: &mut S,
    ) -> Result<Self, C::Error>
    where
        C: PlainContext,
    {
        Self::read_from_stream_unbuffered_with_ctx(alloc, C::plain(), source)
    }

    fn read_from_stream_unbuffered_with_ctx<S: Source>(
        alloc: Global,
        context: C,
        source: &mut S,
    ) -> Result<Self, C::Error> {
        read_stream(alloc, context, source, false)
    }

    fn read_from_stream_buffered<S: Source>(alloc: Global, source: &mut S) -> Result<Self, C::Error>
    where
        C: PlainContext,
    {
        Self::read_from_stream_buffered_with_ctx(alloc, C::plain(), source)
    }

    fn read_from_stream_buffered_with_ctx<S: Source>(
        alloc: Global,
        context: C,
        source: &mut S,
    ) -> Result<Self, C::Error> {
        read_stream(alloc, context, source, true)
    }

    fn read_from_file<R: Files, P: AsPath>(rt: &R, alloc: Global, path: P) -> Result<Self, C::Error>
    where
        C: PlainContext,
    {
        Self::read_from_file_with_ctx(rt, alloc, C::plain(), path)
    }

    fn read_from_file_with_ctx<R: Files, P: AsPath>(
        rt: &R,
        alloc: Global,
        context: C,
        path: P,
    ) -> Result<Self, C::Error> {
        match File::open(rt, path) {
            Ok(file) => {
                let mut source = Counted::new(file);
                Self::read_from_stream_buffered_with_ctx(alloc, context, &mut source)
            }
            Err(error) => Err(error_of_failed_call(alloc, error)),
        }
    }
}

/// Types that borrow nothing, so they can be read where nothing is lent and are never the error `Unsized`: what Rust
/// says by `for<'a> Readable<'a, C>`.
///
/// A generic function that makes its own buffer reads from it by these calls.
pub trait ReadableOwned<C: Context>: ReadMany<NothingLent, C> {
    /// Decodes a value from a prefix of the buffer, in little endian.
    ///
    /// A buffer that is shorter than the type's least size is the error `InputBufferIsTooSmall`.
    fn read_owned(alloc: Global, buffer: &[u8]) -> Result<Self, C::Error>
    where
        C: PlainContext,
        ensures { (count : ℕ) × AnswersBuffer C.Error.IsEof Self.seen Self.layout
            (plain_mode Endianness.LittleEndian) result count buffer.now };

    /// Decodes a value from a prefix of the buffer, under the context.
    ///
    /// A buffer that is shorter than the type's least size is the error `InputBufferIsTooSmall`.
    fn read_owned_with_ctx(alloc: Global, context: C, buffer: &[u8]) -> Result<Self, C::Error>
        ensures { (count : ℕ) × AnswersBuffer C.Error.IsEof Self.seen Self.layout
            (C.mode context) result count buffer.now };

    /// Decodes a value from a prefix of the buffer, under the context, and says how many bytes that prefix has.
    ///
    /// A buffer that is shorter than the type's least size is the error `InputBufferIsTooSmall`, with the count 0.
    /// Beside another error the count is how many bytes were taken before it, at most all, and tells of no value.
    fn read_owned_with_length_with_ctx(
        alloc: Global,
        context: C,
        buffer: &[u8],
    ) -> (Result<Self, C::Error>, usize)
        ensures { AnswersBuffer C.Error.IsEof Self.seen Self.layout (C.mode context)
            result.0 result.1 buffer.now };
}

impl<C: Context, T: ReadMany<NothingLent, C>> ReadableOwned<C> for T {
    fn read_owned(alloc: Global, buffer: &[u8]) -> Result<Self, C::Error>
    where
        C: PlainContext,
    {
        Self::read_owned_with_ctx(alloc, C::plain(), buffer)
    }

    fn read_owned_with_ctx(alloc: Global, context: C, buffer: &[u8]) -> Result<Self, C::Error> {
        Self::read_owned_with_length_with_ctx(alloc, context, buffer).0
    }

    fn read_owned_with_length_with_ctx(
        alloc: Global,
        context: C,
        buffer: &[u8],
    ) -> (Result<Self, C::Error>, usize) {
        let least = Self::minimum_bytes_needed();
        let length = buffer.len();
        if length < least {
            return (Err(error_input_buffer_is_too_small(length, least)), 0);
        }
        let mut reader = BufferReader::new(alloc, context, buffer);
        let result = reader.read_owned_value();
        (result, length - reader.len())
    }
}
