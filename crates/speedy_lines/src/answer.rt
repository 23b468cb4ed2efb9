//! Answers of the program: the value that bytes encode, written again.
ghost use Rattle.std.specs.Prelude.{◌≡◌, ◌++◌, IfOk, MatchResult};
ghost use Rattle.std.specs.String.{string_bytes};
ghost use Rattle.speedy.specs.Error.{error_of};
ghost use Rattle.speedy_lines.specs.Answer.{hex_of, kind_name, sizes_text, ok_text, refused_text, AnswersAs};
ghost use Rattle.speedy_lines.specs.Answer.{AnswersBytes, AnswersLine};
ghost use Rattle.speedy_lines.specs.Line.{mode_of};
ghost use Rattle.speedy_lines.specs.Names.{named};

use crate::by_name::answer_by_name;
use crate::line::{Line, LineOrder, parse_line};
use speedy::private::{ErrorKind, get_error_kind};
use speedy::{
    BigEndian, Buffer, Context, Error, LittleEndian, ReadFrom, StrictBigEndian, StrictLittleEndian,
    Writable,
};
use std::alloc::{AllocError, Global};

/// The answer to a line, with its line feed. The line comes without one.
///
/// The only error is out of memory.
pub fn answer_line(alloc: Global, line: &[u8]) -> Result<Vec<u8>, Error>
    ensures { MatchResult result (λ answer. AnswersLine line.now answer.items)
        (λ e. e ≡ error_of ErrorKind.OutOfMemory) }
{
    match parse_line(alloc, line)? {
        Some(line) => Ok(answer_good_line(alloc, &line)?),
        None => Ok(b"bad line\n".to_vec(alloc)?),
    }
}

// The answer to a line that is of the form, by its order.
fn answer_good_line(alloc: Global, line: &Line) -> Result<Vec<u8>, AllocError>
    ensures { let asked = mode_of line.now.order in
        IfOk result (λ answer. AnswersAs (named line.now.name) asked line.now.bytes.items answer.items) }
{
    let (name, bytes) = (line.name, line.bytes.as_slice());
    match line.order {
        LineOrder::LittleEndian => answer_by_name(alloc, LittleEndian {}, name, bytes),
        LineOrder::BigEndian => answer_by_name(alloc, BigEndian {}, name, bytes),
        LineOrder::StrictLittleEndian => answer_by_name(alloc, StrictLittleEndian {}, name, bytes),
        LineOrder::StrictBigEndian => answer_by_name(alloc, StrictBigEndian {}, name, bytes),
    }
}

// Bytes in hexadecimal digits, `-` for none.
fn hex_text(alloc: Global, bytes: &[u8]) -> Result<String, AllocError>
    ensures { IfOk result (λ text. string_bytes text ≡ hex_of bytes.now) }
{
    if bytes.is_empty() {
        return String::from_str(alloc, "-");
    }
    hex::encode(alloc, bytes)
}

/// A kind of error, as the program names it: a word, and the two sizes that it may have.
pub(crate) fn named_kind(kind: &ErrorKind) -> (&'static str, Option<(usize, usize)>)
    ensures { kind_name kind.now ≡ result.0.now ++ sizes_text result.1 }
{
    match kind {
        ErrorKind::InvalidChar => ("InvalidChar", None),
        ErrorKind::InvalidEnumVariant => ("InvalidEnumVariant", None),
        ErrorKind::InvalidUtf8 => ("InvalidUtf8", None),
        ErrorKind::InvalidSystemTime => ("InvalidSystemTime", None),
        ErrorKind::ZeroNonZero => ("ZeroNonZero", None),
        ErrorKind::OutOfRangeLength => ("OutOfRangeLength", None),
        ErrorKind::OutOfRangeUsize => ("OutOfRangeUsize", None),
        ErrorKind::UnexpectedEndOfInput => ("UnexpectedEndOfInput", None),
        ErrorKind::UnexpectedEndOfOutputBuffer => ("UnexpectedEndOfOutputBuffer", None),
        ErrorKind::InputBufferIsTooSmall {
            actual_size,
            expected_size,
        } => (
            "InputBufferIsTooSmall",
            Some((*actual_size, *expected_size)),
        ),
        ErrorKind::OutputBufferIsTooSmall {
            actual_size,
            expected_size,
        } => (
            "OutputBufferIsTooSmall",
            Some((*actual_size, *expected_size)),
        ),
        ErrorKind::LengthIsNotTheSameAsLengthAttribute { .. } => (
            "LengthIsNotTheSameAsLengthAttribute",
            None,
        ),
        ErrorKind::ExpectedConstant { .. } => ("ExpectedConstant", None),
        ErrorKind::Unsized => ("Unsized", None),
        ErrorKind::EndiannessMismatch => ("EndiannessMismatch", None),
        ErrorKind::NotWrittenForm => ("NotWrittenForm", None),
        ErrorKind::IoError(_) => ("IoError", None),
        ErrorKind::OutOfMemory => ("OutOfMemory", None),
        ErrorKind::Custom(_) => ("Custom", None),
    }
}

// The answer to bytes of which a prefix encodes a value.
fn ok_answer(alloc: Global, count: usize, written: &[u8]) -> Result<Vec<u8>, AllocError>
    ensures { IfOk result (λ text. text.items ≡ ok_text count written.now) }
{
    let hex = hex_text(alloc, written)?;
    Ok(format!(in alloc; "ok {count} {hex}\n")?.into_bytes())
}

// The answer to bytes that are refused.
fn refused_answer(alloc: Global, kind: &ErrorKind) -> Result<Vec<u8>, AllocError>
    ensures { IfOk result (λ text. text.items ≡ refused_text kind.now) }
{
    let (word, sizes) = named_kind(kind);
    let text = match sizes {
        Some((actual_size, expected_size)) => {
            format!(in alloc; "refused {word} {actual_size} {expected_size}\n")?
        }
        None => format!(in alloc; "refused {word}\n")?,
    };
    Ok(text.into_bytes())
}

/// What bytes are answered, read as values of a type. Its only error is out of memory.
pub(crate) fn answer_as<
    'a,
    T: ReadFrom<&'a [u8], C> + Writable<C>,
    C: Context<Error = Error> + Copy,
>(alloc: Global, context: C, bytes: &'a [u8]) -> Result<Vec<u8>, AllocError>
    ensures { let format = T.layout.format (C.mode context) in
        IfOk result (λ text. AnswersBytes T.layout.least format bytes.now text.items) }
{
    let (result, count) = bytes.read_with_length::<T>(alloc, context);
    match result {
        Ok(value) => match value.write_to_vec_with_ctx(alloc, context) {
            Ok(written) => ok_answer(alloc, count, &written),
            // What was read can be written: only memory was wanting.
            Err(_) => Err(AllocError),
        },
        Err(error) => match get_error_kind(&error) {
            ErrorKind::OutOfMemory => Err(AllocError),
            kind => refused_answer(alloc, kind),
        },
    }
}
