//! The writers of the ways of writing: into a buffer, into a vector, into a sink, and one that only counts.
ghost use Rattle.std.specs.Prelude.{◌≡◌, ◌+◌, ◌-◌, ◌*◌, ◌^◌, ◌≤◌, ℕ, [], ◌∷◌, ◌++◌, length, vec_len, vec_capacity};
ghost use Rattle.std.specs.Prelude.{Ok, Some, None, IsOk, IfErr, OnErr, IsSome, List, take, slice_get, nat_le, refl};
ghost use Rattle.std.specs.Prelude.{true, false};
ghost use Rattle.std.specs.Iterator.{IsFinite};
ghost use Rattle.speedy_base.specs.FailedCalls.{IsOfFailedCall};
ghost use Rattle.speedy_write.specs.Writing.{RefusesFull, WritesIfSome, WritesValues, WritesSlice};
ghost use Rattle.speedy_write.specs.Pushing.{PushesAll};
ghost use Rattle.speedy_write.specs.Collectors.{buffer_state, BufferAppends, size_state, SizeAppends, sink_state};
ghost use Rattle.speedy_write.specs.Collectors.{SinkTakes, NextHasNoRoom, value_size};
ghost use Rattle.speedy_write.specs.Collections.{TakesSome};
ghost use Rattle.speedy_write.specs.CollectorLemmas.{buffer_nothing, buffer_additive, vec_nothing, vec_additive};
ghost use Rattle.speedy_write.specs.CollectorLemmas.{size_nothing, size_additive, sink_nothing, sink_additive};

use crate::filling::FillsFront;
use crate::fixed::{FixedBytes, put_values_at};
use crate::writer::Writer;
use speedy_base::context::Context;
use speedy_base::device::Sink;
use speedy_base::error::{
    Error, error_end_of_output_buffer, error_of_failed_call, error_out_of_range_length,
};
use speedy_layout::Layout;
use std::alloc::Global;
use std::marker::PhantomData;

/// A writer to the beginning of a buffer. Bytes that do not fit are the error `UnexpectedEndOfOutputBuffer`.
///
/// `U` says what it is used for, and for which type. Code for each use is compiled apart, so that it can stand inline
/// where it is used.
#[derive(Drop)]
pub struct BufferCollector<'a, C, U = ()> {
    context: &'a mut C,
    buffer: &'a mut [u8],
    position: usize,
    usage: PhantomData<U>,
    ghost in_range: { position ≤ length buffer.now },
}

impl<'a, C> BufferCollector<'a, C> {
    ghost use Rattle.speedy_write.specs.CollectorModels.{buffer_model};

    /// A writer at the beginning of the buffer.
    #[inline]
    pub fn new(context: &'a mut C, buffer: &'a mut [u8]) -> BufferCollector<'a, C>
        ensures same_context { (buffer_model result).context_name ≡ context.entry.ghost_name }
        ensures context { (buffer_model result).context ≡ context.old }
        ensures same_buffer { (buffer_model result).buffer_name ≡ buffer.entry.ghost_name }
        ensures buffer { (buffer_model result).buffer ≡ buffer.old }
        ensures position { (buffer_model result).position ≡ 0 }
    {
        BufferCollector::for_use(context, buffer)
    }
}

impl<'a, C, U> BufferCollector<'a, C, U> {
    ghost use Rattle.speedy_write.specs.CollectorModels.{buffer_model};

    /// A writer at the beginning of the buffer, for the use.
    #[inline]
    pub(crate) fn for_use(context: &'a mut C, buffer: &'a mut [u8]) -> BufferCollector<'a, C, U>
        ensures same_context { (buffer_model result).context_name ≡ context.entry.ghost_name }
        ensures context { (buffer_model result).context ≡ context.old }
        ensures same_buffer { (buffer_model result).buffer_name ≡ buffer.entry.ghost_name }
        ensures buffer { (buffer_model result).buffer ≡ buffer.old }
        ensures position { (buffer_model result).position ≡ 0 }
    {
        BufferCollector {
            context,
            buffer,
            position: 0,
            usage: PhantomData,
        }
    }

    /// Gives the context and the buffer back, and says how many bytes were written.
    #[inline]
    pub fn finish(self) -> usize
        ensures position { result ≡ (buffer_model self.entry).position }
        ensures context { self.exit.0.now ≡ (buffer_model self.entry).context }
        ensures buffer { self.exit.1.0.now ≡ (buffer_model self.entry).buffer }
    {
        self.position
    }
}

impl<'a, C: Context, U> Writer<C> for BufferCollector<'a, C, U> {
    ghost is_counter = { false };

    ghost at = { λ w. w.context.now };

    ghost with_context = { λ w c. record w { context = record w.context { now = c } } };

    ghost state = { λ w. buffer_state (C.mode w.context.now)
        (w.context.ghost_name ∷ w.buffer.ghost_name ∷ []) (length w.buffer.now - w.position) };

    ghost appends = { λ a s b. BufferAppends a.position a.buffer.now s b.position b.buffer.now };

    ghost can_write = { λ w n. Some (nat_le n (length w.buffer.now - w.position)) };

    ghost mode_at = { λ w. refl };

    ghost state_with = { λ w c. refl };

    ghost nothing = { λ w. buffer_nothing w.position w.buffer.now w.in_range };

    ghost additive = { λ a b c s t h k. buffer_additive h k };

    ghost appends_with = { λ a b s c h. (h, h) };

    /// Writes all the bytes, or none where they do not fit, which is the error `UnexpectedEndOfOutputBuffer`.
    #[inline]
    fn write_bytes(&mut self, slice: &[u8]) -> Result<(), C::Error>
        ensures writes { let writer = ⟦<BufferCollector<'a, C, U> as Writer<C>>⟧ in
            WritesSlice C.Error.from_gives writer.state writer.appends slice.now
            result self.old self.new }
        ensures full { let writer = ⟦<BufferCollector<'a, C, U> as Writer<C>>⟧ in
            RefusesFull C.Error.from_gives writer.state result self.old self.new }
        ensures unchanged { OnErr result (self.new ≡ self.old) }
    {
        let room = self.buffer.len() - self.position;
        if slice.len() > room {
            return Err(error_end_of_output_buffer());
        }
        let end = self.position + slice.len();
        self.buffer[self.position..end].copy_from_slice(slice);
        self.position = end;
        Ok(())
    }

    /// Puts the values where they are to stand, or none where they do not fit, which is the error
    /// `UnexpectedEndOfOutputBuffer`.
    #[inline]
    fn put_fixed<T: Layout, P: FixedBytes<T>>(
        &mut self,
        values: &[T],
    ) -> Option<Result<(), C::Error>>
        ensures puts { let writer = ⟦<BufferCollector<'a, C, U> as Writer<C>>⟧ in
            WritesIfSome C.Error.from_gives writer.state writer.appends T.seen T.layout values.now
            result self.old self.new }
        ensures answers { IsSome result }
    {
        P::has_few_bytes();
        let room = self.buffer.len() - self.position;
        if values.len() > room / P::BYTES {
            return Some(Err(error_end_of_output_buffer()));
        }
        let order = self.context.endianness();
        self.position = put_values_at::<T, P>(values, order, &mut *self.buffer, self.position);
        Some(Ok(()))
    }

    #[inline(always)]
    fn counts() -> bool {
        false
    }

    #[inline(always)]
    fn count_bytes(&mut self, _size: usize) -> Option<Result<(), C::Error>> {
        None
    }

    #[inline(always)]
    fn context(&self) -> &C {
        &*self.context
    }

    #[inline(always)]
    fn context_mut(&mut self) -> &mut C {
        &mut *self.context
    }

    #[inline(always)]
    fn can_write_at_least(&self, size: usize) -> Option<bool> {
        Some(size <= self.buffer.len() - self.position)
    }
}

/// A writer behind the bytes of a vector, into room that it has.
#[derive(Drop)]
pub struct VecCollector<'a, C> {
    context: &'a mut C,
    // What is written ends at `position`. Behind it lie zeros, which short writes overwrite.
    bytes: &'a mut Vec<u8>,
    position: usize,
    // How long the vector may become.
    most: usize,
    ghost has_room: { (position ≤ vec_len bytes.now) × (vec_len bytes.now ≤ most)
        × (most ≤ vec_capacity bytes.now) },
}

impl<'a, C> VecCollector<'a, C> {
    ghost use Rattle.speedy_write.specs.CollectorModels.{vec_model};

    /// A writer into this much room of the vector.
    #[inline]
    pub fn new(context: &'a mut C, bytes: &'a mut Vec<u8>, room: usize) -> VecCollector<'a, C>
        requires { vec_len bytes.old + room ≤ vec_capacity bytes.old }
        ensures same_context { (vec_model result).context_name ≡ context.entry.ghost_name }
        ensures context { (vec_model result).context ≡ context.old }
        ensures same_bytes { (vec_model result).bytes_name ≡ bytes.entry.ghost_name }
        ensures bytes { (vec_model result).bytes ≡ bytes.old.items }
        ensures room { (vec_model result).room ≡ room }
    {
        let position = bytes.len();
        append(&mut *bytes, &ZEROS[..room.min(ZEROS.len())]);
        VecCollector {
            context,
            bytes,
            position,
            most: position + room,
        }
    }

    /// Gives the context and the vector back, and says how much room is left.
    #[inline]
    pub fn finish(self) -> usize
        ensures room { result ≡ (vec_model self.entry).room }
        ensures context { self.exit.0.now ≡ (vec_model self.entry).context }
        ensures bytes { self.exit.1.0.now.items ≡ (vec_model self.entry).bytes }
    {
        let written = self.position;
        let room = self.most - written;
        self.bytes.truncate(written);
        room
    }
}

// The use of a buffer as the zeros behind a vector.
struct Zeros {}

impl<'a, C: Context> Writer<C> for VecCollector<'a, C> {
    const PUTS: bool = true;

    ghost is_counter = { false };

    ghost use Rattle.speedy_write.specs.CollectorModels.{vec_model};

    ghost at = { λ w. w.context.now };

    ghost with_context = { λ w c. record w { context = record w.context { now = c } } };

    ghost state = { λ w. buffer_state (C.mode w.context.now)
        (w.context.ghost_name ∷ w.bytes.ghost_name ∷ []) (vec_model w).room };

    ghost appends = { λ a s b. (vec_model b).bytes ≡ (vec_model a).bytes ++ s };

    ghost can_write = { λ w n. Some (nat_le n (vec_model w).room) };

    ghost mode_at = { λ w. refl };

    ghost state_with = { λ w c. refl };

    ghost nothing = { λ w. vec_nothing (vec_model w).bytes };

    ghost additive = { λ a b c s t h k. vec_additive (vec_model a).bytes s t h k };

    ghost appends_with = { λ a b s c h. (h, h) };

    #[inline]
    fn write_bytes(&mut self, slice: &[u8]) -> Result<(), C::Error> {
        if slice.len() <= self.bytes.len() - self.position {
            let next = self.position + slice.len();
            self.bytes.as_mut_slice()[self.position..next].copy_from_slice(slice);
        } else if slice.len() <= self.most - self.position {
            append_past(&mut *self.bytes, self.position, slice, self.most);
        } else {
            return Err(error_end_of_output_buffer());
        }
        self.position += slice.len();
        Ok(())
    }

    /// Writes the items over the zeros, as many as fit there.
    #[inline]
    fn put_from<T: Layout + Drop, P: FillsFront<T, C>, I: Iterator<Item = T>>(
        &mut self,
        items: &mut I,
    ) -> Option<T>
        requires { I.can_next items.old × IsFinite (I.remaining items.old) }
        ensures puts { let writer = ⟦<VecCollector<'a, C> as Writer<C>>⟧ in (put : List T)
            × TakesSome I.can_next I.remaining I.next_gives put result items.old items.new
            × WritesValues C.Error.from_gives writer.state writer.appends T.seen T.layout put (Ok tt)
            self.old self.new }
        ensures stops { let format = T.layout.format (C.mode self.old.context.now) in
            NextHasNoRoom (value_size T.row) format.writes T.seen result
            (vec_len self.new.bytes.now - self.new.position) }
    {
        let start = self.position;
        let zeros = &mut self.bytes.as_mut_slice()[start..];
        let (end, next) = P::fill_from::<Zeros, I>(items, &mut *self.context, zeros);
        self.position = start + end;
        next
    }

    /// Writes the items over the zeros, as many as fit there.
    #[inline]
    fn put_each<T: Layout, P: FillsFront<T, C>>(&mut self, items: &[T]) -> usize
        ensures some { result ≤ length items.now }
        ensures puts { let writer = ⟦<VecCollector<'a, C> as Writer<C>>⟧ in
            WritesValues C.Error.from_gives writer.state writer.appends T.seen T.layout
            (take result items.now) (Ok tt) self.old self.new }
        ensures stops { let format = T.layout.format (C.mode self.old.context.now) in
            NextHasNoRoom (value_size T.row) format.writes T.seen (slice_get items.now result)
            (vec_len self.new.bytes.now - self.new.position) }
    {
        let start = self.position;
        let zeros = &mut self.bytes.as_mut_slice()[start..];
        let (count, end) = P::fill_each::<Zeros>(items, &mut *self.context, zeros);
        self.position = start + end;
        count
    }

    /// Puts the values where they are to stand, or none where they do not fit, which is the error
    /// `UnexpectedEndOfOutputBuffer`. It says `None` of those that fit and are too many to lay zeros for first: more
    /// than 16 KiB.
    #[inline]
    fn put_fixed<T: Layout, P: FixedBytes<T>>(
        &mut self,
        values: &[T],
    ) -> Option<Result<(), C::Error>>
        ensures puts { let writer = ⟦<VecCollector<'a, C> as Writer<C>>⟧ in
            WritesIfSome C.Error.from_gives writer.state writer.appends T.seen T.layout values.now
            result self.old self.new }
        ensures answers { length values.now * P.BYTES ≤ 16384 → IsSome result }
    {
        P::has_few_bytes();
        let room = self.most - self.position;
        if values.len() > room / P::BYTES {
            return Some(Err(error_end_of_output_buffer()));
        }
        if values.len() > MOST_ZEROS / P::BYTES {
            return None;
        }
        let next = self.position + values.len() * P::BYTES;
        reach(&mut *self.bytes, next, self.most);
        let order = self.context.endianness();
        self.position = put_values_at::<T, P>(
            values,
            order,
            self.bytes.as_mut_slice(),
            self.position,
        );
        Some(Ok(()))
    }

    #[inline(always)]
    fn counts() -> bool {
        false
    }

    #[inline(always)]
    fn count_bytes(&mut self, _size: usize) -> Option<Result<(), C::Error>> {
        None
    }

    #[inline(always)]
    fn context(&self) -> &C {
        &*self.context
    }

    #[inline(always)]
    fn context_mut(&mut self) -> &mut C {
        &mut *self.context
    }

    #[inline(always)]
    fn can_write_at_least(&self, size: usize) -> Option<bool> {
        Some(size <= self.most - self.position)
    }
}

static ZEROS: [u8; 512] = [0; 512];

// How many zeros are laid ahead: more would be lost too often, where what is written next is long.
const AHEAD: usize = 4_096;

// The most zeros that are laid for values to be put there: more would leave the processor's cache before they are.
const MOST_ZEROS: usize = 16_384;

// Lays zeros behind a vector where it ends before `least`. It may become `most` long.
#[inline(always)]
fn reach(bytes: &mut Vec<u8>, least: usize, most: usize)
    requires within { (least ≤ most) × (vec_len bytes.old ≤ most) }
    requires room { most ≤ vec_capacity bytes.old }
    ensures bytes { (n : ℕ) → n ≤ vec_len bytes.old → take n bytes.new.items ≡ take n bytes.old.items }
    ensures length { (least ≤ vec_len bytes.new) × (vec_len bytes.new ≤ most) }
    ensures capacity { vec_capacity bytes.old ≤ vec_capacity bytes.new }
{
    if bytes.len() < least {
        lay_zeros(bytes, least, most);
    }
}

// Lays zeros behind a vector up to `least`, and some ahead. It may become `most` long.
#[inline(never)]
fn lay_zeros(bytes: &mut Vec<u8>, least: usize, most: usize)
    requires within { (vec_len bytes.old ≤ least) × (least ≤ most) }
    requires room { most ≤ vec_capacity bytes.old }
    ensures bytes { (n : ℕ) → n ≤ vec_len bytes.old → take n bytes.new.items ≡ take n bytes.old.items }
    ensures length { (least ≤ vec_len bytes.new) × (vec_len bytes.new ≤ most) }
    ensures capacity { vec_capacity bytes.old ≤ vec_capacity bytes.new }
{
    let ahead = (most - least).min(AHEAD);
    if bytes.resize(least + ahead, 0).is_err() {
        unreachable!();
    }
}

// Puts a slice at a position of a vector that may become so long, past which it ends. Behind a short slice zeros are
// laid, as further ones may come.
#[inline(never)]
fn append_past(bytes: &mut Vec<u8>, position: usize, slice: &[u8], most: usize)
    requires within { position ≤ vec_len bytes.old }
    requires fits { position + length slice.now ≤ most }
    requires room { most ≤ vec_capacity bytes.old }
    ensures bytes { take (position + length slice.now) bytes.new.items ≡ take position bytes.old.items ++ slice.now }
    ensures length { (position + length slice.now ≤ vec_len bytes.new) × (vec_len bytes.new ≤ most) }
    ensures capacity { vec_capacity bytes.old ≤ vec_capacity bytes.new }
{
    bytes.truncate(position);
    append(bytes, slice);
    if slice.len() < ZEROS.len() {
        let end = bytes.len();
        lay_zeros(bytes, end, most);
    }
}

// Appends a slice to a vector that has the room.
fn append(bytes: &mut Vec<u8>, slice: &[u8])
    requires { vec_len bytes.old + length slice.now ≤ vec_capacity bytes.old }
    ensures bytes { bytes.new.items ≡ bytes.old.items ++ slice.now }
    ensures capacity { vec_capacity bytes.old ≤ vec_capacity bytes.new }
{
    if bytes.extend_from_slice(slice).is_err() {
        unreachable!();
    }
}

/// A writer to a sink, which pushes each piece as it comes. For fewer pushes put a buffer in front of the sink.
#[derive(Drop)]
pub struct WritingCollector<'s, S, C> {
    alloc: Global,
    context: C,
    sink: &'s mut S,
}

impl<'s, S, C: Drop> WritingCollector<'s, S, C> {
    ghost use Rattle.speedy_write.specs.CollectorModels.{writing_model};

    /// A writer behind what the sink took. Memory is asked for where a push fails, for its error.
    #[inline]
    pub fn new(alloc: Global, context: C, sink: &'s mut S) -> WritingCollector<'s, S, C>
        ensures context { (writing_model result).context ≡ context }
        ensures same_sink { (writing_model result).sink_name ≡ sink.entry.ghost_name }
        ensures sink { (writing_model result).sink ≡ sink.old }
    {
        WritingCollector {
            alloc,
            context,
            sink,
        }
    }

    /// The sink, which took all that was written. It was not flushed.
    #[inline]
    pub fn into_sink(self) -> &'s mut S
        ensures same_sink { result.ghost_name ≡ (writing_model self.entry).sink_name }
        ensures sink { result.now ≡ (writing_model self.entry).sink }
    {
        self.sink
    }
}

impl<'s, S: Sink, C: Context> Writer<C> for WritingCollector<'s, S, C> {
    ghost is_counter = { false };

    ghost at = { λ w. w.context };

    ghost with_context = { λ w c. record w { context = c } };

    ghost state = { λ w. sink_state (C.mode w.context) w.sink.ghost_name (S.sink w.sink.now) };

    ghost appends = { λ a s b. SinkTakes (S.sink a.sink.now) s (S.sink b.sink.now) };

    ghost can_write = { λ w n. None };

    ghost mode_at = { λ w. refl };

    ghost state_with = { λ w c. refl };

    ghost nothing = { λ w. sink_nothing (S.sink w.sink.now) };

    ghost additive = { λ a b c s t h k. sink_additive h k };

    ghost appends_with = { λ a b s c h. (h, h) };

    /// Pushes the bytes until all are taken. Of no bytes nothing is pushed.
    ///
    /// The error is that of a push that failed, which is not tried again, an interrupted one too. The sink has then
    /// taken a beginning of the bytes.
    #[inline]
    fn write_bytes(&mut self, slice: &[u8]) -> Result<(), C::Error>
        ensures writes { let writer = ⟦<WritingCollector<'s, S, C> as Writer<C>>⟧ in
            WritesSlice C.Error.from_gives writer.state writer.appends slice.now
            result self.old self.new }
        ensures full { let writer = ⟦<WritingCollector<'s, S, C> as Writer<C>>⟧ in
            RefusesFull C.Error.from_gives writer.state result self.old self.new }
        ensures nothing { slice.now ≡ [] → IsOk result × (self.new ≡ self.old) }
        ensures error { let writer = ⟦<WritingCollector<'s, S, C> as Writer<C>>⟧ in
            IfErr result (λ e. IsOfFailedCall C.Error.from_gives e
            (writer.state self.old).faults (writer.state self.new).faults) }
    {
        push_all(self.alloc, slice, &mut *self.sink)
    }

    /// Tells the sink of these bytes and of those that follow.
    #[inline]
    fn write_bytes_before(&mut self, slice: &[u8], following: usize) -> Result<(), C::Error> {
        if following == 0 {
            return self.write_bytes(slice);
        }
        self.sink.reserve(following.saturating_add(slice.len()));
        self.write_bytes(slice)
    }

    #[inline(always)]
    fn counts() -> bool {
        false
    }

    #[inline(always)]
    fn count_bytes(&mut self, _size: usize) -> Option<Result<(), C::Error>> {
        None
    }

    #[inline(always)]
    fn context(&self) -> &C {
        &self.context
    }

    #[inline(always)]
    fn context_mut(&mut self) -> &mut C {
        &mut self.context
    }

    #[inline(always)]
    fn can_write_at_least(&self, _size: usize) -> Option<bool> {
        None
    }
}

// Pushes all the bytes, in as many calls as it takes.
#[inline]
pub(crate) fn push_all<S: Sink, E: From<Error>>(
    alloc: Global,
    bytes: &[u8],
    sink: &mut S,
) -> Result<(), E>
    ensures pushes { PushesAll E.from_gives bytes.now result (S.sink sink.old) (S.sink sink.new) }
    ensures nothing { bytes.now ≡ [] → IsOk result × (sink.new ≡ sink.old) }
{
    let mut rest = bytes;
    while !rest.is_empty() {
        match sink.push(rest) {
            Ok(count) => rest = &rest[count..],
            Err(error) => return Err(error_of_failed_call(alloc, error)),
        }
    }
    Ok(())
}

/// A writer that only counts bytes. A sum past `usize::MAX` is the error `OutOfRangeLength`.
#[derive(Drop)]
pub struct SizeCalculatorCollector<'a, C> {
    context: &'a mut C,
    size: usize,
}

impl<'a, C> SizeCalculatorCollector<'a, C> {
    ghost use Rattle.speedy_write.specs.CollectorModels.{size_model};

    /// A writer that has counted nothing yet.
    #[inline]
    pub fn new(context: &'a mut C) -> SizeCalculatorCollector<'a, C>
        ensures same_context { (size_model result).context_name ≡ context.entry.ghost_name }
        ensures context { (size_model result).context ≡ context.old }
        ensures size { (size_model result).size ≡ 0 }
    {
        SizeCalculatorCollector { context, size: 0 }
    }

    /// Gives the context back, and says how many bytes were counted.
    #[inline]
    pub fn finish(self) -> usize
        ensures context { self.exit.0.now ≡ (size_model self.entry).context }
        ensures size { result ≡ (size_model self.entry).size }
    {
        self.size
    }
}

impl<'a, C: Context> Writer<C> for SizeCalculatorCollector<'a, C> {
    ghost is_counter = { true };

    ghost at = { λ w. w.context.now };

    ghost with_context = { λ w c. record w { context = record w.context { now = c } } };

    ghost state = { λ w. size_state (C.mode w.context.now) (w.context.ghost_name ∷ []) w.size };

    ghost appends = { λ a s b. SizeAppends a.size s b.size };

    ghost can_write = { λ w n. Some (nat_le n (2 ^ 64 - 1 - w.size)) };

    ghost mode_at = { λ w. refl };

    ghost state_with = { λ w c. refl };

    ghost nothing = { λ w. size_nothing w.size };

    ghost additive = { λ a b c s t h k. size_additive a.size b.size c.size s t h k };

    ghost appends_with = { λ a b s c h. (h, h) };

    #[inline]
    fn write_bytes(&mut self, slice: &[u8]) -> Result<(), C::Error> {
        if slice.len() > usize::MAX - self.size {
            return Err(error_out_of_range_length());
        }
        self.size += slice.len();
        Ok(())
    }

    #[inline(always)]
    fn counts() -> bool {
        true
    }

    /// Adds `size` bytes at once.
    #[inline]
    fn count_bytes(&mut self, size: usize) -> Option<Result<(), C::Error>> {
        if size > usize::MAX - self.size {
            return Some(Err(error_out_of_range_length()));
        }
        self.size += size;
        Some(Ok(()))
    }

    #[inline(always)]
    fn context(&self) -> &C {
        &*self.context
    }

    #[inline(always)]
    fn context_mut(&mut self) -> &mut C {
        &mut *self.context
    }

    #[inline(always)]
    fn can_write_at_least(&self, size: usize) -> Option<bool> {
        Some(size <= usize::MAX - self.size)
    }
}
