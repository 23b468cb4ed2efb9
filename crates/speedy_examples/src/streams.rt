//! Values that go through sinks and come from sources.
ghost use Rattle.std.specs.Prelude.{◌≡◌, ◌⊎◌, ◌-◌, ◌^◌, ◌<◌, [], ◌++◌, ℕ, List, length as count, map, false, IsTrue};
ghost use Rattle.std.specs.Prelude.{IfOk, OnOk, IfErr, IsOkUnless, MatchOption};
ghost use Rattle.speedy.specs.Digits.{AreBytes};
ghost use Rattle.speedy.specs.Mode.{plain_mode};
ghost use Rattle.speedy.specs.Error.{error_of, is_eof_error};
ghost use Rattle.speedy.specs.Format.{Each};
ghost use Rattle.speedy.specs.Prefixes.{HasEncoding};
ghost use Rattle.speedy.specs.Reading.{Excused, IsTold, PeekWants, Refused};
ghost use Rattle.speedy.specs.WaysOfReading.{AnswersStream};
ghost use Rattle.speedy_examples.specs.Callers.{IsFailure, IsRefusal};

use speedy::device::{Source, VecSink};
use speedy::laws::{written_is_answered, written_is_streamed};
use speedy::private::{ErrorKind, error_out_of_range_length, get_error_kind};
use speedy::readable::StreamReader;
use speedy::{Endianness, Error, IsEof, Layout, LendingReader, LittleEndian, Readable, Writable};
use std::alloc::Global;
use std::convert::AsSlice;

/// Writes a value to a sink that keeps it in memory, and reads it back from there. If it has an encoding, the only
/// errors are out of memory and that of a failed push.
pub fn again_through_a_sink(
    alloc: Global,
    order: Endianness,
    value: &Option<String>,
) -> Result<Option<String>, Error>
    ensures same { let seen = ⟦<Option<String> as Layout>⟧.seen in
        IfOk result (λ x. seen x ≡ seen value.now) }
    ensures refused { let it = ⟦<Option<String> as Layout>⟧ in
        HasEncoding (it.layout.format (plain_mode order)) (it.seen value.now)
        → IfErr result IsFailure }
{
    written_is_answered::<Option<String>, Endianness>();
    let mut sink = VecSink::new(alloc);
    value.write_to_stream_with_ctx(alloc, order, &mut sink)?;
    let bytes = sink.bytes();
    <Option<String> as Readable<Endianness>>::read_from_buffer_with_ctx(alloc, order, bytes)
}

/// The next message: a number and a text. The source has lost just the bytes that encode it. An error is out of memory,
/// that of a failed call of the source, or means that no prefix of its bytes encodes a message.
pub fn next_message<S: Source>(alloc: Global, source: &mut S) -> Result<(u16, String), Error>
    ensures { let it = ⟦<(u16, String) as Layout>⟧ in
        AnswersStream ⟦<Error as IsEof>⟧ S.source it.seen it.layout
        (plain_mode Endianness.LittleEndian) false result source.old source.new }
{
    <(u16, String) as Readable<LittleEndian>>::read_from_stream_unbuffered(alloc, source)
}

/// Reads a value of no bytes. The source is then as it was, though this form reads ahead.
pub fn read_nothing<S: Source>(alloc: Global, source: &mut S) -> Result<(), Error>
    ensures { OnOk result (S.source source.new ≡ S.source source.old) }
{
    <() as Readable<LittleEndian>>::read_from_stream_buffered(alloc, source)
}

/// Two messages that were written one after the other. The only error is then out of memory.
pub fn two_messages(alloc: Global, bytes: &[u8]) -> Result<((u16, String), (u16, String)), Error>
    ensures same { let it = ⟦<(u16, String) as Layout>⟧ in
        let format = it.layout.format (plain_mode Endianness.LittleEndian) in
        (first second : it.Seen) (prefix suffix : List ℕ) →
        format.writes first prefix → format.writes second suffix → bytes.now ≡ prefix ++ suffix
        → IfOk result (λ both. (it.seen both.0 ≡ first) × (it.seen both.1 ≡ second)) }
    ensures refused { let it = ⟦<(u16, String) as Layout>⟧ in
        let format = it.layout.format (plain_mode Endianness.LittleEndian) in
        (first second : it.Seen) (prefix suffix : List ℕ) →
        format.writes first prefix → format.writes second suffix → bytes.now ≡ prefix ++ suffix
        → IsOkUnless result (error_of ErrorKind.OutOfMemory) }
{
    written_is_streamed::<(u16, String), LittleEndian>();
    let mut source = bytes;
    let first = next_message(alloc, &mut source)?;
    let second = next_message(alloc, &mut source)?;
    Ok((first, second))
}

/// Writes two messages to a sink, and reads both back from what it took. If they have encodings, the only errors are
/// out of memory and that of a failed push.
pub fn two_messages_again(
    alloc: Global,
    first: &(u16, String),
    second: &(u16, String),
) -> Result<((u16, String), (u16, String)), Error>
    ensures same { let seen = ⟦<(u16, String) as Layout>⟧.seen in
        IfOk result (λ again. (seen again.0 ≡ seen first.now) × (seen again.1 ≡ seen second.now)) }
    ensures refused { let it = ⟦<(u16, String) as Layout>⟧ in
        let format = it.layout.format (plain_mode Endianness.LittleEndian) in
        HasEncoding format (it.seen first.now) → HasEncoding format (it.seen second.now)
        → IfErr result IsFailure }
{
    let mut sink = VecSink::new(alloc);
    Writable::<LittleEndian>::write_to_stream(first, alloc, &mut sink)?;
    Writable::<LittleEndian>::write_to_stream(second, alloc, &mut sink)?;
    two_messages(alloc, sink.bytes())
}

/// The next message of a reader, or `None` where no byte is left. A clean error means that the bytes begin with no
/// message: an end within one is an error.
pub fn next_or_end<L: AsSlice<u8> + Drop, R: LendingReader<L, LittleEndian>>(
    reader: &mut R,
) -> Result<Option<(u16, String)>, Error>
    ensures kept { let before = R.state reader.old in
        let after = R.state reader.new in
        (after.fixed ≡ before.fixed) × (after.mode ≡ before.mode) }
    ensures next { let it = ⟦<(u16, String) as Layout>⟧ in
        let before = R.state reader.old in
        let after = R.state reader.new in
        let format = it.layout.format before.mode in
        IfOk result (λ next. MatchOption next
        (IsTold format before → IsTrue before.fixed.tells_faults → before.remaining ≡ [])
        (λ message. (prefix : List ℕ) × format.encodes (it.seen message) prefix
        × (IsTrue before.fixed.tells → before.remaining ≡ prefix ++ after.remaining)
        × (after.faults ≡ before.faults))) }
    ensures refused { let before = R.state reader.old in
        let after = R.state reader.new in
        let itself = ⟦<Error as From<Error>>⟧.from_gives in
        let format = ⟦<(u16, String) as Layout>⟧.layout.format before.mode in
        IfErr result (λ e. PeekWants itself e before after
        ⊎ (Excused itself format.asks.memory e before after
        ⊎ Refused itself is_eof_error format e before after)) }
    // Where no byte is left, only memory or the device is at fault.
    ensures ended { let before = R.state reader.old in
        IsTold (⟦<(u16, String) as Layout>⟧.layout.format before.mode) before
        → IsTrue before.fixed.tells_faults → before.remaining ≡ [] → IfErr result IsFailure }
{
    match reader.peek_u8() {
        Ok(_) => Ok(Some(reader.read_value()?)),
        Err(error) => match get_error_kind(&error) {
            ErrorKind::UnexpectedEndOfInput => Ok(None),
            _ => Err(error),
        },
    }
}

/// All messages of a source, until it ends. If its bytes are messages and nothing else, the only errors are out of
/// memory and that of the source.
pub fn all_messages<S: Source>(alloc: Global, source: &mut S) -> Result<Vec<(u16, String)>, Error>
    ensures all { let it = ⟦<(u16, String) as Layout>⟧ in
        let format = it.layout.format (plain_mode Endianness.LittleEndian) in
        let before = S.source source.old in
        IfOk result (λ messages. (bytes : List ℕ)
        × Each format.encodes (map it.seen messages.items) bytes
        × (IsTrue before.tells → AreBytes before.remaining → count before.remaining < 2 ^ 64 - 1
        → before.remaining ≡ bytes)) }
    ensures refused { let it = ⟦<(u16, String) as Layout>⟧ in
        let format = it.layout.format (plain_mode Endianness.LittleEndian) in
        let before = S.source source.old in
        (messages : List it.Seen) → Each format.encodes messages before.remaining
        → IsTrue before.tells → AreBytes before.remaining → count before.remaining < 2 ^ 64 - 1
        → IfErr result IsFailure }
    ensures kind { let format = ⟦<(u16, String) as Layout>⟧.layout.format (plain_mode Endianness.LittleEndian) in
        IfErr result (λ e. IsFailure e ⊎ IsRefusal format e) }
{
    let mut messages = Vec::new(alloc);
    let mut reader = StreamReader::new(alloc, LittleEndian {}, source, true)?;
    for _i in 0..u64::MAX {
        match next_or_end(&mut reader)? {
            Some(message) => messages.push(message)?,
            None => return Ok(messages),
        }
    }
    Err(error_out_of_range_length())
}
