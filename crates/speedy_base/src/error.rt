//! Errors: their kinds, which of them are ends of input, their texts, and the functions that make them.
ghost use Rattle.std.specs.Prelude.{◌≡◌, Bool, true};
ghost use Rattle.std.specs.IoError.{error_kind};
ghost use Rattle.speedy_base.specs.ErrorKind.{text_of, BecomesIo, EndsInput};
ghost use Rattle.speedy_base.specs.Error.{kind_of, error_of, is_eof_error, IsCustomOf, IsIoErrorOf, IsNamed};
ghost use Rattle.speedy_base.specs.FailedCalls.{IsErrorOf};
ghost use Rattle.speedy_base.specs.declared.error.ErrorKind.TheVariants.{OutOfMemory};

use std::alloc::{AllocError, AllocFailed, Global};
use std::fmt::InlineText;
use std::mem::size_of;
use std::{fmt, io};

/// The kind of an error: what went wrong in reading or writing.
#[derive(Debug, Drop)]
pub enum ErrorKind {
    /// A number that should be a character is no Unicode scalar value.
    InvalidChar,
    /// A tag that no variant of an enum has.
    InvalidEnumVariant,
    /// Bytes that should be a text are not UTF-8.
    InvalidUtf8,
    /// A time whose seconds pass 64 bits.
    InvalidSystemTime,
    /// A number that must not be zero is zero.
    ZeroNonZero,
    /// A length or a size that does not fit.
    OutOfRangeLength,
    /// A number past `usize::MAX` where a `usize` is read. A `usize` has 64 bits here, so this never comes.
    OutOfRangeUsize,
    /// The bytes to read ended too soon.
    UnexpectedEndOfInput,
    /// The buffer to write to ended too soon.
    UnexpectedEndOfOutputBuffer,
    /// A buffer to read from is shorter than the type's least size.
    InputBufferIsTooSmall {
        /// The length of the buffer, in bytes.
        actual_size: usize,
        /// The type's least size, in bytes.
        expected_size: usize,
    },
    /// A buffer to write to is shorter than what is written.
    OutputBufferIsTooSmall {
        /// The length of the buffer, in bytes.
        actual_size: usize,
        /// How many bytes are written.
        expected_size: usize,
    },
    /// A field has another length than a second field says.
    LengthIsNotTheSameAsLengthAttribute {
        /// The name of the field.
        field_name: &'static str,
    },
    /// Other bytes stand where a constant should.
    ExpectedConstant {
        /// The constant.
        constant: &'static [u8],
    },
    /// A value that borrows is read from a reader that lends nothing.
    Unsized,
    /// Numbers lie in another byte order than a view of them needs.
    EndiannessMismatch,
    /// The encoding is not canonical, and the context reads only canonical ones.
    NotWrittenForm,
    /// A call of a source or a sink failed, or a source ended too soon.
    IoError(Box<io::Error>),
    /// Out of memory.
    OutOfMemory,
    /// An error of the user's own, with its text.
    Custom(String),
}

/// The error of reading and writing. It is small, since it travels in the result of each read.
#[derive(Debug, Drop)]
pub struct Error {
    kind: ErrorKind,
}

/// Errors that an [`Error`] becomes, and that may say that the bytes ended too soon.
///
/// In a clause `E.IsEof` names both: which error becomes which (`from_gives`), and which say so (`eof`).
pub trait IsEof: From<Error> {
    /// Whether the error says so.
    ghost eof: { Self → Bool };

    /// Whether the bytes ended too soon.
    fn is_eof(&self) -> bool
        ensures { result ≡ eof self.now };
}

impl Error {
    fn new(kind: ErrorKind) -> Error
        ensures { result ≡ error_of kind }
    {
        Error { kind }
    }

    /// An error of the user's own, of kind `Custom` with its text; `OutOfMemory` where the text found no memory.
    pub fn custom(alloc: Global, message: &str) -> Error
        ensures { IsCustomOf message.now (kind_of result) }
    {
        match String::from_str(alloc, message) {
            Ok(text) => Error::new(ErrorKind::Custom(text)),
            Err(_) => Error::new(ErrorKind::OutOfMemory),
        }
    }

    /// The `IoError` of a failed call of a source or a sink; `OutOfMemory` where its box found no memory.
    pub fn from_io_error(alloc: Global, error: io::Error) -> Error
        ensures { IsIoErrorOf error (kind_of result) }
    {
        match Box::new(alloc, error) {
            Ok(boxed) => Error::new(ErrorKind::IoError(boxed)),
            Err(_) => Error::new(ErrorKind::OutOfMemory),
        }
    }
}

impl IsEof for Error {
    ghost eof = { is_eof_error };

    fn is_eof(&self) -> bool {
        match &self.kind {
            ErrorKind::UnexpectedEndOfInput | ErrorKind::UnexpectedEndOfOutputBuffer => true,
            ErrorKind::IoError(error) => error.kind() == io::ErrorKind::UnexpectedEof,
            _ => false,
        }
    }
}

/// The kind of an error.
#[inline]
pub fn get_error_kind(error: &Error) -> &ErrorKind
    ensures { result.now ≡ kind_of error.now }
{
    &error.kind
}

impl fmt::Display for Error {
    ghost output = { λ e. text_of (kind_of e) };

    fn fmt<W: fmt::Write>(&self, f: &mut fmt::Formatter<W>) -> fmt::Result {
        match &self.kind {
            ErrorKind::InvalidChar => write!(f, "out of range char"),
            ErrorKind::InvalidEnumVariant => write!(f, "invalid enum variant"),
            ErrorKind::InvalidUtf8 => write!(f, "encountered invalid utf-8"),
            ErrorKind::InvalidSystemTime => write!(f, "encountered invalid system time object"),
            ErrorKind::ZeroNonZero => {
                write!(f, "a field which is supposed to be non-zero is zero")
            }
            ErrorKind::OutOfRangeLength => write!(f, "out of range length"),
            ErrorKind::OutOfRangeUsize => {
                write!(f, "value cannot fit into an usize on this architecture")
            }
            ErrorKind::UnexpectedEndOfInput => write!(f, "unexpected end of input"),
            ErrorKind::UnexpectedEndOfOutputBuffer => write!(f, "unexpected end of output buffer"),
            ErrorKind::InputBufferIsTooSmall {
                actual_size,
                expected_size,
            } => write!(
                f,
                "input buffer is too small; expected at least {expected_size} bytes, got {actual_size}"
            ),
            ErrorKind::OutputBufferIsTooSmall {
                actual_size,
                expected_size,
            } => write!(
                f,
                "output buffer is too small; expected at least {expected_size} bytes, got {actual_size}"
            ),
            ErrorKind::LengthIsNotTheSameAsLengthAttribute { field_name } => write!(
                f,
                "the length of '{field_name}' is not the same as its 'length' attribute"
            ),
            ErrorKind::ExpectedConstant { constant } => write!(
                f,
                "expected a predefined {} bytes(s) long constant",
                constant.len()
            ),
            ErrorKind::Unsized => write!(
                f,
                "type is unsized hence requires zero-copy deserialization; \
                 use `read_from_buffer` or similar to deserialize it"
            ),
            ErrorKind::EndiannessMismatch => write!(f, "endianness mismatch"),
            ErrorKind::NotWrittenForm => write!(f, "spelling is not the written one"),
            ErrorKind::IoError(error) => write!(f, "{error}"),
            ErrorKind::OutOfMemory => write!(f, "out of memory"),
            ErrorKind::Custom(text) => write!(f, "{text}"),
        }
    }
}

impl std::error::Error for Error {}

impl From<AllocError> for Error {
    ghost from_gives = { λ _ e. e ≡ error_of OutOfMemory };

    #[cold]
    fn from(_error: AllocError) -> Error {
        Error::new(ErrorKind::OutOfMemory)
    }
}

impl<T: Drop> From<AllocFailed<T>> for Error {
    ghost from_gives = { λ _ e. e ≡ error_of OutOfMemory };

    #[cold]
    fn from(_error: AllocFailed<T>) -> Error {
        Error::new(ErrorKind::OutOfMemory)
    }
}

impl From<Error> for io::Error {
    ghost from_gives = { λ e x. BecomesIo (kind_of e) x };

    fn from(error: Error) -> io::Error {
        let kind = match &error.kind {
            ErrorKind::IoError(inner) => return **inner,
            ErrorKind::UnexpectedEndOfInput | ErrorKind::UnexpectedEndOfOutputBuffer => {
                io::ErrorKind::UnexpectedEof
            }
            ErrorKind::OutOfMemory | ErrorKind::Custom(_) => io::ErrorKind::Other,
            _ => io::ErrorKind::InvalidData,
        };
        io_error_with_text(kind, &error)
    }
}

/// A text that is not UTF-8.
#[cold]
pub fn error_invalid_string_utf8<T: From<Error>>() -> T
    ensures { T.from_gives (error_of ErrorKind.InvalidUtf8) result }
{
    T::from(Error::new(ErrorKind::InvalidUtf8))
}

/// A borrowed text that is not UTF-8.
#[cold]
pub fn error_invalid_str_utf8<T: From<Error>>() -> T
    ensures { T.from_gives (error_of ErrorKind.InvalidUtf8) result }
{
    T::from(Error::new(ErrorKind::InvalidUtf8))
}

/// A field whose length is not what another field says.
#[cold]
pub fn error_length_is_not_the_same_as_length_attribute<T: From<Error>>(
    field_name: &'static str,
) -> T
    ensures { let kind = ErrorKind.LengthIsNotTheSameAsLengthAttribute field_name.entry in
        T.from_gives (error_of kind) result }
{
    T::from(Error::new(ErrorKind::LengthIsNotTheSameAsLengthAttribute { field_name }))
}

/// A length that does not fit.
#[cold]
pub fn error_out_of_range_length<T: From<Error>>() -> T
    ensures { T.from_gives (error_of ErrorKind.OutOfRangeLength) result }
{
    T::from(Error::new(ErrorKind::OutOfRangeLength))
}

/// A tag that no variant has.
#[cold]
pub fn error_invalid_enum_variant<T: From<Error>>() -> T
    ensures { T.from_gives (error_of ErrorKind.InvalidEnumVariant) result }
{
    T::from(Error::new(ErrorKind::InvalidEnumVariant))
}

/// A number that is no character.
#[cold]
pub fn error_out_of_range_char<T: From<Error>>() -> T
    ensures { T.from_gives (error_of ErrorKind.InvalidChar) result }
{
    T::from(Error::new(ErrorKind::InvalidChar))
}

/// A number past `usize::MAX`.
#[cold]
pub fn error_too_big_usize_for_this_architecture<T: From<Error>>() -> T
    ensures { T.from_gives (error_of ErrorKind.OutOfRangeUsize) result }
{
    T::from(Error::new(ErrorKind::OutOfRangeUsize))
}

/// Bytes to read that ended too soon.
#[cold]
pub fn error_end_of_input<T: From<Error>>() -> T
    ensures { T.from_gives (error_of ErrorKind.UnexpectedEndOfInput) result }
{
    T::from(Error::new(ErrorKind::UnexpectedEndOfInput))
}

/// A call of a source or a sink that failed: an `IoError` of its error, or `OutOfMemory` where the box for that found
/// no memory.
#[cold]
#[inline(never)]
pub fn error_of_failed_call<T: From<Error>>(alloc: Global, error: io::Error) -> T
    ensures { IsErrorOf T.from_gives error result }
{
    T::from(Error::from_io_error(alloc, error))
}

/// A source that ended too soon: an `IoError` of kind `UnexpectedEof`, or `UnexpectedEndOfInput` where its box found
/// no memory.
#[cold]
pub fn error_end_of_stream<T: From<Error>>(alloc: Global) -> T
    ensures { IsNamed T.from_gives (EndsInput true) result }
{
    let error = io::Error::new(io::ErrorKind::UnexpectedEof, "unexpected end of the source");
    match Box::new(alloc, error) {
        Ok(boxed) => T::from(Error::new(ErrorKind::IoError(boxed))),
        Err(_) => error_end_of_input(),
    }
}

/// A buffer to write to that ended too soon.
#[cold]
pub fn error_end_of_output_buffer<T: From<Error>>() -> T
    ensures { T.from_gives (error_of ErrorKind.UnexpectedEndOfOutputBuffer) result }
{
    T::from(Error::new(ErrorKind::UnexpectedEndOfOutputBuffer))
}

/// A buffer to read from that is shorter than the type's least size, with both sizes in bytes.
#[cold]
pub fn error_input_buffer_is_too_small<T: From<Error>>(
    actual_size: usize,
    expected_size: usize,
) -> T
    ensures { let kind = ErrorKind.InputBufferIsTooSmall actual_size expected_size in
        T.from_gives (error_of kind) result }
{
    T::from(Error::new(ErrorKind::InputBufferIsTooSmall {
        actual_size,
        expected_size,
    }))
}

/// A buffer to write to that is too short, with both sizes in bytes.
#[cold]
pub fn error_output_buffer_is_too_small<T: From<Error>>(
    actual_size: usize,
    expected_size: usize,
) -> T
    ensures { let kind = ErrorKind.OutputBufferIsTooSmall actual_size expected_size in
        T.from_gives (error_of kind) result }
{
    T::from(Error::new(ErrorKind::OutputBufferIsTooSmall {
        actual_size,
        expected_size,
    }))
}

/// A zero where none may stand.
#[cold]
pub fn error_zero_non_zero<T: From<Error>>() -> T
    ensures { T.from_gives (error_of ErrorKind.ZeroNonZero) result }
{
    T::from(Error::new(ErrorKind::ZeroNonZero))
}

/// A time whose seconds pass 64 bits.
#[cold]
pub fn error_invalid_system_time<T: From<Error>>() -> T
    ensures { T.from_gives (error_of ErrorKind.InvalidSystemTime) result }
{
    T::from(Error::new(ErrorKind::InvalidSystemTime))
}

/// Other bytes than a constant.
#[cold]
pub fn error_expected_constant<T: From<Error>>(constant: &'static [u8]) -> T
    ensures { T.from_gives (error_of (ErrorKind.ExpectedConstant constant.entry)) result }
{
    T::from(Error::new(ErrorKind::ExpectedConstant { constant }))
}

/// A value that borrows, from a reader that lends nothing.
#[cold]
pub fn error_unsized<T: From<Error>>() -> T
    ensures { T.from_gives (error_of ErrorKind.Unsized) result }
{
    T::from(Error::new(ErrorKind::Unsized))
}

/// Numbers in another byte order than a view needs.
#[cold]
pub fn error_endianness_mismatch<T: From<Error>>() -> T
    ensures { T.from_gives (error_of ErrorKind.EndiannessMismatch) result }
{
    T::from(Error::new(ErrorKind::EndiannessMismatch))
}

/// An encoding that is not canonical, where the context reads only canonical ones.
#[cold]
pub fn error_not_written_form<T: From<Error>>() -> T
    ensures { T.from_gives (error_of ErrorKind.NotWrittenForm) result }
{
    T::from(Error::new(ErrorKind::NotWrittenForm))
}

/// Out of memory.
#[cold]
pub fn error_out_of_memory<T: From<Error>>() -> T
    ensures { T.from_gives (error_of ErrorKind.OutOfMemory) result }
{
    T::from(Error::new(ErrorKind::OutOfMemory))
}

// The text of an `io::Error` is not promised: std cuts it at 80 bytes.
fn io_error_with_text(kind: io::ErrorKind, error: &Error) -> io::Error
    ensures { error_kind result ≡ kind }
{
    let text: InlineText<128> = InlineText::of(error);
    io::Error::new(kind, text.as_str())
}

// Each read answers a result, so its error has to stay small.
const _: () = prove!(size_of::<Error>() <= 32);
