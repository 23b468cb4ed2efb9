//! What the README says a contract promises: a round trip, proved, and messages that are parsed.
ghost use Rattle.std.specs.Prelude.{◌≡◌, ◌<◌, ◌^◌, ℕ, length, false, IfOk, IsOkUnless};
ghost use Rattle.speedy.specs.Error.{error_of};
ghost use Rattle.speedy.specs.declared.error.ErrorKind.TheVariants.{OutOfMemory};
ghost use Rattle.std.specs.Prelude.{◌⊎◌, IfErr};
ghost use Rattle.speedy.specs.declared.error.ErrorKind.TheVariants as kinds;
ghost use Rattle.speedy.specs.Mode.{plain_mode};
ghost use Rattle.speedy.specs.WaysOfReading.{AnswersBuffer, AnswersStream};

use speedy::device::Source;
use speedy::laws::written_is_answered;
use speedy::{Endianness, Error, IsEof, Layout, LittleEndian, Readable, Writable};
use std::alloc::Global;

/// Writes numbers in the big byte order, and reads them again.
pub fn round_trip(alloc: Global, numbers: &Vec<u16>) -> Result<Vec<u16>, Error>
    ensures same { IfOk result (λ again. again.items ≡ numbers.now.items) }
    ensures refused { length numbers.now.items < 2 ^ 32 → IsOkUnless result (error_of OutOfMemory) }
{
    written_is_answered::<Vec<u16>, Endianness>();
    let order = Endianness::BigEndian;
    let bytes = numbers.write_to_vec_with_ctx(alloc, order)?;
    <Vec<u16> as Readable<Endianness>>::read_from_buffer_with_ctx(alloc, order, &bytes)
}

/// A message's number and text, which a prefix of the bytes encodes, or an error exactly where none does. The text is
/// that of the bytes, where it lies.
pub fn parse_message<'a>(alloc: Global, bytes: &'a [u8]) -> Result<(u16, &'a str), Error>
    ensures answers { let it = ⟦<(u16, &'a str) as Layout>⟧ in
        (size : ℕ) × AnswersBuffer ⟦<Error as IsEof>⟧ it.seen it.layout
        (plain_mode Endianness.LittleEndian) result size bytes.now }
    // The text is no UTF-8, or the bytes are too few.
    ensures kind { IfErr result (λ e. (e ≡ error_of kinds.InvalidUtf8)
        ⊎ ((e ≡ error_of kinds.UnexpectedEndOfInput)
        ⊎ (e ≡ error_of (kinds.InputBufferIsTooSmall (length bytes.now) 6)))) }
{
    <(u16, &'a str) as Readable<LittleEndian>>::read_from_buffer(alloc, bytes)
}

/// The next message: a number and a text. The source has lost just the bytes that encode it. An error is out of memory,
/// that of a failed call of the source, or means that no prefix of its bytes encodes a message.
pub fn next_message<S: Source>(alloc: Global, source: &mut S) -> Result<(u16, String), Error>
    ensures { let it = ⟦<(u16, String) as Layout>⟧ in
        AnswersStream ⟦<Error as IsEof>⟧ S.source it.seen it.layout
        (plain_mode Endianness.LittleEndian) false result source.old source.new }
{
    <(u16, String) as Readable<LittleEndian>>::read_from_stream_unbuffered(alloc, source)
}
