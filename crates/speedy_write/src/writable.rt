//! Types that can be written (`Writable`), the ways of writing them, and `bytes_needed`.
ghost use Rattle.std.specs.Prelude.{◌≡◌, ◌≤◌, ℕ, List, length, MatchResult, IsOk};
ghost use Rattle.speedy_base.specs.Error.{error_of};
ghost use Rattle.speedy_base.specs.Mode.{plain_mode};
ghost use Rattle.speedy_write.specs.Writing.{WritesIfSome, WritesValue, WritesValues};
ghost use Rattle.speedy_write.specs.WaysOfWriting.{Needs, IsShortest, Stands, WritesToBuffer, WritesToVec};
ghost use Rattle.speedy_write.specs.WaysOfWriting.{WritesToStream, WritesAndFlushes, WritesToFile};

use crate::buffering::BufferingCollector;
use crate::collectors::{VecCollector, push_all};
pub use crate::collectors::{BufferCollector, SizeCalculatorCollector, WritingCollector};
use crate::counting::CountingCollector;
use crate::each::write_items;
use crate::filling::fill_prefix;
use crate::writer::Writer;
use speedy_base::context::{Context, PlainContext};
use speedy_base::device::{Counted, Sink};
use speedy_base::endianness::Endianness;
use speedy_base::error::{
    Error, ErrorKind, error_of_failed_call, error_out_of_memory, error_out_of_range_length,
    error_output_buffer_is_too_small,
};
use speedy_layout::Layout;
use std::alloc::Global;
use std::fs;
use std::path::AsPath;
use std::rt::Files;

/// Types that can be written, with the ways of doing so.
///
/// A type of your own gives `write_to` alone, from the writing of its parts.
pub trait Writable<C: Context>: Layout {
    /// Writes the value. It takes no memory of its own; a writer to a sink takes some for the error of a failed push.
    ///
    /// After an error the first bytes of an encoding may have been written, and of a value that has none some bytes.
    fn write_to<W: Writer<C>>(&self, writer: &mut W) -> Result<(), C::Error>
        ensures { WritesValue C.Error.from_gives W.state W.appends Self.seen Self.layout self.now
            result writer.old writer.new };

    /// Writes the values, one after the other and with no count.
    final fn write_many<W: Writer<C>>(items: &[Self], writer: &mut W) -> Result<(), C::Error>
    where
        Self: Sized,
        ensures { WritesValues C.Error.from_gives W.state W.appends Self.seen Self.layout items.now
            result writer.old writer.new }
    {
        if let Some(written) = Self::write_in_bulk(items, writer) {
            return written;
        }
        write_items(items, writer)
    }

    /// Writes the values together, where that is faster than one by one. This body says `None`, and does nothing.
    #[inline(always)]
    fn write_in_bulk<W: Writer<C>>(_items: &[Self], _writer: &mut W) -> Option<Result<(), C::Error>>
    where
        Self: Sized,
        ensures { WritesIfSome C.Error.from_gives W.state W.appends Self.seen Self.layout _items.now
            result _writer.old _writer.new }
    {
        None
    }

    /// The number of bytes that the value is written in. `usize::MAX` bytes and more are the error `OutOfRangeLength`.
    #[tactic(auto, using(crate::proofs::CountLemmas::counted))]
    final fn bytes_needed(&self, context: &mut C) -> Result<usize, C::Error>
        ensures mode { C.mode context.new ≡ C.mode context.old }
        ensures needs { Needs C.Error.from_gives Self.seen Self.layout (C.mode context.old)
            self.now result }
    {
        let mut counter = CountingCollector::new(context);
        let outcome = self.write_to(&mut counter);
        let size = counter.finish();
        outcome?;
        if size == usize::MAX {
            return Err(error_out_of_range_length());
        }
        Ok(size)
    }

    /// Encodes the value into the beginning of a buffer, in little endian.
    ///
    /// A buffer that is too short is the error `OutputBufferIsTooSmall`, with both sizes in bytes.
    #[inline]
    final fn write_to_buffer(&self, buffer: &mut [u8]) -> Result<(), C::Error>
    where
        C: PlainContext,
        ensures { WritesToBuffer C.Error.from_gives Self.seen Self.layout
            (plain_mode Endianness.LittleEndian) self.now result buffer.old buffer.new }
    {
        self.write_to_buffer_with_ctx(C::plain(), buffer)
    }

    /// Encodes the value into the beginning of a buffer, under the context.
    ///
    /// A buffer that is too short is the error `OutputBufferIsTooSmall`, with both sizes in bytes.
    #[inline]
    final fn write_to_buffer_with_ctx(&self, context: C, buffer: &mut [u8]) -> Result<(), C::Error>
        ensures { WritesToBuffer C.Error.from_gives Self.seen Self.layout (C.mode context)
            self.now result buffer.old buffer.new }
    {
        let mut context = context;
        self.write_to_buffer_with_ctx_mut(&mut context, buffer)
    }

    /// Encodes the value into the beginning of a buffer, under the context.
    ///
    /// A buffer that is too short is the error `OutputBufferIsTooSmall`, with both sizes in bytes.
    final fn write_to_buffer_with_ctx_mut(
        &self,
        context: &mut C,
        buffer: &mut [u8],
    ) -> Result<(), C::Error>
        ensures mode { C.mode context.new ≡ C.mode context.old }
        ensures writes { WritesToBuffer C.Error.from_gives Self.seen Self.layout
            (C.mode context.old) self.now result buffer.old buffer.new }
    {
        let needed = self.bytes_needed(context)?;
        let length = buffer.len();
        if length < needed {
            return Err(error_output_buffer_is_too_small(length, needed));
        }
        fill::<C, Self, ()>(self, context, buffer)
    }

    /// Encodes the value into a vector, in little endian.
    #[inline]
    final fn write_to_vec(&self, alloc: Global) -> Result<Vec<u8>, C::Error>
    where
        C: PlainContext,
        ensures { WritesToVec C.Error.from_gives Self.seen Self.layout
            (plain_mode Endianness.LittleEndian) self.now (λ vec. vec.items) result }
    {
        self.write_to_vec_with_ctx(alloc, C::plain())
    }

    /// Encodes the value into a vector, under the context.
    #[inline]
    final fn write_to_vec_with_ctx(&self, alloc: Global, context: C) -> Result<Vec<u8>, C::Error>
        ensures { WritesToVec C.Error.from_gives Self.seen Self.layout (C.mode context) self.now
            (λ vec. vec.items) result }
    {
        let mut context = context;
        self.write_to_vec_with_ctx_mut(alloc, &mut context)
    }

    /// Encodes the value into a vector, under the context. The vector is requested once, at its length.
    final fn write_to_vec_with_ctx_mut(
        &self,
        alloc: Global,
        context: &mut C,
    ) -> Result<Vec<u8>, C::Error>
        ensures mode { C.mode context.new ≡ C.mode context.old }
        ensures writes { WritesToVec C.Error.from_gives Self.seen Self.layout
            (C.mode context.old) self.now (λ vec. vec.items) result }
    {
        let needed = self.bytes_needed(context)?;
        fill_vec(self, alloc, context, needed)
    }

    /// Encodes the value to a sink, in little endian. The sink is not flushed.
    #[inline]
    final fn write_to_stream<S: Sink>(&self, alloc: Global, sink: &mut S) -> Result<(), C::Error>
    where
        C: PlainContext,
        ensures { WritesToStream C.Error.from_gives S.sink Self.seen Self.layout
            (plain_mode Endianness.LittleEndian) self.now result sink.old sink.new }
    {
        self.write_to_stream_with_ctx(alloc, C::plain(), sink)
    }

    /// Encodes the value to a sink, under the context. The sink is not flushed.
    ///
    /// A value of up to 256 bytes is pushed at once. Of a longer one short parts are gathered, and pushed up to 2,048
    /// bytes at a time; longer parts are pushed as they are. Memory is asked for where a push fails, for its error.
    final fn write_to_stream_with_ctx<S: Sink>(
        &self,
        alloc: Global,
        context: C,
        sink: &mut S,
    ) -> Result<(), C::Error>
        ensures { WritesToStream C.Error.from_gives S.sink Self.seen Self.layout
            (C.mode context) self.now result sink.old sink.new }
    {
        let mut context = context;
        let mut room = [0; SHORT_ROOM];
        match fill_prefix::<C, Self, ShortRoom>(self, &mut context, &mut room) {
            Some(end) => push_all(alloc, &room[..end], sink),
            None => write_long(self, alloc, context, sink),
        }
    }

    /// Encodes the value to a file, in little endian. The file is made or emptied, and flushed at the end.
    #[inline]
    final fn write_to_file<R: Files, P: AsPath>(
        &self,
        rt: &R,
        alloc: Global,
        path: P,
    ) -> Result<(), C::Error>
    where
        C: PlainContext,
        ensures { WritesToFile C.Error.from_gives Self.seen Self.layout
            (plain_mode Endianness.LittleEndian) self.now result }
    {
        self.write_to_file_with_ctx(rt, alloc, C::plain(), path)
    }

    /// Encodes the value to a file, under the context. The file is made or emptied, and flushed at the end.
    ///
    /// Short parts of the value are gathered, and written 8,192 bytes at a time. A failed call of the file is answered,
    /// that of the flush too, and no call is tried again, an interrupted one neither. After an error the file may hold
    /// a part of the value. Memory is asked for where a call fails, for its error.
    #[tactic(auto, using(crate::proofs::StreamLemmas::file_written))]
    final fn write_to_file_with_ctx<R: Files, P: AsPath>(
        &self,
        rt: &R,
        alloc: Global,
        context: C,
        path: P,
    ) -> Result<(), C::Error>
        ensures { WritesToFile C.Error.from_gives Self.seen Self.layout (C.mode context)
            self.now result }
    {
        let file = match fs::create(rt, path) {
            Ok(file) => file,
            Err(error) => return Err(error_of_failed_call(alloc, error)),
        };
        let mut sink = Counted::new(file);
        write_and_flush(self, alloc, context, &mut sink, &mut [0; FILE_ROOM])
    }
}

// The most bytes of a value that is pushed to a sink at once.
const SHORT_ROOM: usize = 256;

// How many bytes of a longer one are gathered for a sink, and for a file, before they are pushed.
const SINK_ROOM: usize = 2_048;

const FILE_ROOM: usize = 8_192;

// The use of a buffer as the room of a short value.
struct ShortRoom {}

// Writes a value to a sink. Its short parts are gathered. It stands apart, so that a short value makes no such room.
#[inline(never)]
fn write_long<C: Context, T: Writable<C>, S: Sink>(
    value: &T,
    alloc: Global,
    context: C,
    sink: &mut S,
) -> Result<(), C::Error>
    ensures { WritesToStream C.Error.from_gives S.sink T.seen T.layout (C.mode context)
        value.now result sink.old sink.new }
{
    write_gathered(value, alloc, context, sink, &mut [0; SINK_ROOM])
}

// Writes a value to a sink. Its short parts are gathered in the room.
fn write_gathered<C: Context, T: Writable<C>, S: Sink>(
    value: &T,
    alloc: Global,
    context: C,
    sink: &mut S,
    room: &mut [u8],
) -> Result<(), C::Error>
    ensures { WritesToStream C.Error.from_gives S.sink T.seen T.layout (C.mode context)
        value.now result sink.old sink.new }
{
    let mut collector = BufferingCollector::new(alloc, context, sink, room);
    match value.write_to(&mut collector) {
        Ok(()) => {
            let outcome = collector.push_waiting();
            collector.into_sink();
            outcome
        }
        Err(error) => {
            collector.into_sink();
            Err(error)
        }
    }
}

// Writes a value to a sink, and flushes the sink behind it. Short parts of the value are gathered in the room.
fn write_and_flush<C: Context, T: Writable<C>, S: Sink>(
    value: &T,
    alloc: Global,
    context: C,
    sink: &mut S,
    room: &mut [u8],
) -> Result<(), C::Error>
    ensures { WritesAndFlushes C.Error.from_gives S.sink T.seen T.layout (C.mode context)
        value.now result sink.old sink.new }
{
    write_gathered(value, alloc, context, sink, room)?;
    match sink.flush() {
        Ok(()) => Ok(()),
        Err(error) => Err(error_of_failed_call(alloc, error)),
    }
}

/// Writes a value to a sink, as [`Writable::write_to_stream_with_ctx`] does, and flushes the sink.
///
/// Where it succeeds, the sink took the value, all of it was passed on, and no call failed. The error of a failed flush
/// is answered as that of a failed push is, and no call is tried again. After an earlier error there is no flush.
pub fn write_to_stream_and_flush_with_ctx<C: Context, T: Writable<C>, S: Sink>(
    value: &T,
    alloc: Global,
    context: C,
    sink: &mut S,
) -> Result<(), C::Error>
    ensures { WritesAndFlushes C.Error.from_gives S.sink T.seen T.layout (C.mode context)
        value.now result sink.old sink.new }
{
    write_and_flush(value, alloc, context, sink, &mut [0; SINK_ROOM])
}

// Writes a value to the front of a buffer in which it fits. It always succeeds: the result is that of the write. `U`
// says what the buffer is used for.
fn fill<C: Context, T: Writable<C>, U>(
    value: &T,
    context: &mut C,
    buffer: &mut [u8],
) -> Result<(), C::Error>
    requires { let format = T.layout.format (C.mode context.old) in
        ((bytes : List ℕ) × format.writes (T.seen value.now) bytes
        × (length bytes ≤ length buffer.old)) }
    ensures mode { C.mode context.new ≡ C.mode context.old }
    ensures succeeds { IsOk result }
    ensures stands { let format = T.layout.format (C.mode context.old) in
        Stands format (T.seen value.now) buffer.old buffer.new }
{
    let mut collector: BufferCollector<C, (U, T)> = BufferCollector::for_use(context, buffer);
    let outcome = value.write_to(&mut collector);
    collector.finish();
    outcome
}

// The use of a buffer as the room of a vector.
struct VecRoom {}

// The most bytes of a vector that is filled as buffers are, over zeros: these are still in the processor's cache.
pub(crate) const MOST_ZEROED: usize = 8_192;

// Writes a value to a vector that is requested once, with room for the bytes that the value takes.
fn fill_vec<C: Context, T: Writable<C>>(
    value: &T,
    alloc: Global,
    context: &mut C,
    room: usize,
) -> Result<Vec<u8>, C::Error>
    requires { let format = T.layout.format (C.mode context.old) in
        ((bytes : List ℕ) × format.writes (T.seen value.now) bytes × (length bytes ≡ room)) }
    ensures mode { C.mode context.new ≡ C.mode context.old }
    ensures fills { let format = T.layout.format (C.mode context.old) in
        MatchResult result (λ vec. IsShortest format (T.seen value.now) vec.items)
        (C.Error.from_gives (error_of ErrorKind.OutOfMemory)) }
{
    let Ok(mut bytes) = Vec::with_capacity(alloc, room) else {
        return Err(error_out_of_memory());
    };
    if room <= MOST_ZEROED {
        if bytes.resize(room, 0).is_err() {
            unreachable!();
        }
        return match fill::<C, T, VecRoom>(value, context, bytes.as_mut_slice()) {
            Ok(()) => Ok(bytes),
            Err(_) => unreachable!(),
        };
    }
    let mut collector = VecCollector::new(context, &mut bytes, room);
    let outcome = value.write_to(&mut collector);
    collector.finish();
    match outcome {
        Ok(()) => Ok(bytes),
        Err(_) => unreachable!(),
    }
}
