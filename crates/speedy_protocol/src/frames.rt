//! Messages in frames, each after the number of its bytes: written, taken from a buffer and from a stream.
ghost use Rattle.std.specs.Prelude.{◌≡◌, ◌∷◌, ◌⊎◌, List, ℕ, IfOk, IfErr};
ghost use Rattle.std.specs.Option.{option_map};
ghost use Rattle.speedy.specs.Error.{error_of};
ghost use Rattle.speedy.specs.Mode.{plain_mode};
ghost use Rattle.speedy.specs.Prefixes.{BeginsWith};
ghost use Rattle.speedy.specs.WaysOfWriting.{WritesToStream, WritesToVec};
ghost use Rattle.speedy_protocol.specs.NextFrame.{TakesNext, RefusesNext};
ghost use Rattle.speedy_protocol.specs.Refusals.{HasNone, RefusesWhy};

use crate::messages::Message;
use speedy::cases::Cases;
use speedy::device::Sink;
use speedy::error::{ErrorKind, get_error_kind};
use speedy::laws::{no_encoding_is_below_least, one_prefix, written_is_shortest};
use speedy::prefixed::{Framed, Prefixed};
use speedy::{Buffer, Endianness, Error, Layout, LendingReader, LittleEndian, Part, Writable};
use std::alloc::Global;
use std::convert::AsSlice;

/// A message after the number of its bytes, which are at most 65,535.
pub type Frame<'a> = Prefixed<u16, Framed<Message<'a>>>;

/// The most bytes of a message that are taken from a stream.
pub const LIMIT: usize = 1024;

/// The bytes of a message in its frame. One of more bytes than a frame holds is the error `OutOfRangeLength`.
pub fn encode<'a>(alloc: Global, message: &Message<'a>) -> Result<Vec<u8>, Error>
    ensures { WritesToVec ⟦<Error as From<Error>>⟧.from_gives ⟦<Message<'a> as Layout>⟧.seen
        ⟦<Frame<'a> as Layout>⟧.layout (plain_mode Endianness.LittleEndian) message.now (λ bytes. bytes.items) result }
{
    let frame: Prefixed<u16, _> = Prefixed::new(Framed(Part(message)));
    Writable::<LittleEndian>::write_to_vec(&frame, alloc)
}

/// Writes a message in its frame to a sink.
pub fn send<'a, S: Sink>(alloc: Global, message: &Message<'a>, sink: &mut S) -> Result<(), Error>
    ensures { WritesToStream ⟦<Error as From<Error>>⟧.from_gives S.sink ⟦<Message<'a> as Layout>⟧.seen
        ⟦<Frame<'a> as Layout>⟧.layout (plain_mode Endianness.LittleEndian) message.now result sink.old sink.new }
{
    let frame: Prefixed<u16, _> = Prefixed::new(Framed(Part(message)));
    Writable::<LittleEndian>::write_to_stream(&frame, alloc, sink)
}

/// The message at the front of the bytes, and the bytes after its frame. Where the front is no message, the error says
/// whether more bytes could make it one.
pub fn decode<'a>(alloc: Global, bytes: &'a [u8]) -> Result<(Message<'a>, &'a [u8]), Error>
    ensures message { let format = ⟦<Frame<'a> as Layout>⟧.layout.format (plain_mode Endianness.LittleEndian) in
        IfOk result (λ it. BeginsWith format (⟦<Message<'a> as Layout>⟧.seen it.0) bytes.now it.1.now) }
    ensures refused { RefusesWhy ⟦<Frame<'a> as Layout>⟧.layout (plain_mode Endianness.LittleEndian) bytes.now result }
{
    no_encoding_is_below_least::<Frame<'a>>();
    let (outcome, size) = bytes.read_with_length::<Frame<'a>>(alloc, LittleEndian {});
    match outcome {
        Ok(frame) => Ok((frame.value.0, bytes.split_at(size).1)),
        Err(error) => Err(error),
    }
}

/// The tag of a message stands after the two bytes of its frame's length.
pub fn tag_is_third<'a>()
    ensures { (v : ⟦<Message<'a> as Layout>⟧.Seen) (bytes rest : List ℕ) →
        BeginsWith (⟦<Frame<'a> as Layout>⟧.layout.format (plain_mode Endianness.LittleEndian)) v bytes rest →
        (low high : ℕ) × (more : List ℕ)
        × (bytes ≡ low ∷ high ∷ ⟦<Message<'a> as Cases>⟧.choices.tag v ∷ more) }
{}

/// Encodes a message into the vector, and decodes it from there. That fails only where memory lacks, or where the
/// message has no frame.
pub fn again<'a, 'b>(
    alloc: Global,
    message: &Message<'b>,
    bytes: &'a mut Vec<u8>,
) -> Result<Message<'a>, Error>
    ensures same { IfOk result (λ it. ⟦<Message<'a> as Layout>⟧.seen it ≡ ⟦<Message<'b> as Layout>⟧.seen message.now) }
    ensures refused { let format = ⟦<Frame<'b> as Layout>⟧.layout.format (plain_mode Endianness.LittleEndian) in
        IfErr result (λ e. (e ≡ error_of ErrorKind.OutOfMemory)
        ⊎ HasNone format (⟦<Message<'b> as Layout>⟧.seen message.now)) }
{
    written_is_shortest::<Frame<'a>>();
    one_prefix::<Frame<'a>>();
    match encode(alloc, message) {
        Ok(written) => *bytes = written,
        Err(error) => return Err(error),
    }
    match decode(alloc, bytes) {
        Ok((message, _)) => Ok(message),
        Err(error) => Err(error),
    }
}

/// A frame with whatever stands in it.
pub type AnyFrame<'a> = Prefixed<u16, &'a [u8]>;

/// The bytes after the first frame, whatever stands in it.
pub fn skip<'a>(alloc: Global, bytes: &'a [u8]) -> Result<&'a [u8], Error>
    ensures content { let format = ⟦<AnyFrame<'a> as Layout>⟧.layout.format (plain_mode Endianness.LittleEndian) in
        IfOk result (λ rest. (content : List ℕ) × BeginsWith format content bytes.now rest.now) }
    ensures refused { let it = ⟦<AnyFrame<'a> as Layout>⟧ in
        RefusesWhy it.layout (plain_mode Endianness.LittleEndian) bytes.now result }
{
    no_encoding_is_below_least::<AnyFrame<'a>>();
    let (outcome, size) = bytes.read_with_length::<AnyFrame<'a>>(alloc, LittleEndian {});
    match outcome {
        Ok(_) => Ok(bytes.split_at(size).1),
        Err(error) => Err(error),
    }
}

/// The next frame of a stream, or `None` where it ends before one. A message of more bytes than the limit is refused
/// before memory is asked for.
pub fn next_frame<L: AsSlice<u8> + Drop, R: LendingReader<L, LittleEndian>>(
    reader: &mut R,
) -> Result<Option<Vec<u8>>, Error>
    ensures next { let format = ⟦<AnyFrame<'static> as Layout>⟧.layout.format (R.state reader.old).mode in
        IfOk result (λ next. TakesNext format 1024 (option_map (λ frame. frame.items) next)
        (R.state reader.old) (R.state reader.new)) }
    ensures refused { let format = ⟦<AnyFrame<'static> as Layout>⟧.layout.format (R.state reader.old).mode in
        IfErr result (λ e. RefusesNext format 1024 e (R.state reader.old) (R.state reader.new)) }
{
    match reader.peek_u8() {
        Ok(_) => {}
        Err(error) => match get_error_kind(&error) {
            ErrorKind::UnexpectedEndOfInput => return Ok(None),
            _ => return Err(error),
        },
    }
    let length = match reader.peek_u16() {
        Ok(length) => length as usize,
        Err(error) => return Err(error),
    };
    if length > LIMIT {
        return Err(Error::custom(reader.alloc(), "a message past the limit"));
    }
    match reader.read_vec(2 + length) {
        Ok(frame) => Ok(Some(frame)),
        Err(error) => Err(error),
    }
}
