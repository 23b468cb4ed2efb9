//! A writer to a sink that buffers short writes and pushes them together.
#![tactic(auto, using(crate::proofs::BufferingLemmas::pushes))]

ghost use Rattle.std.specs.Borrow.{GName};
ghost use Rattle.std.specs.Iterator.{IsFinite};
ghost use Rattle.std.specs.Prelude.{◌≡◌, ◌+◌, ◌-◌, ◌*◌, ◌≤◌, ◌↔◌, List, [], ◌++◌, length, map, take, drop, None};
ghost use Rattle.std.specs.Prelude.{IsTrue, Ok, OnOk, IsSome, slice_get, refl, false};
ghost use Rattle.speedy_base.specs.Mode.{Mode};
ghost use Rattle.speedy_write.specs.Collectors.{sink_state, NextHasNoRoom, value_size};
ghost use Rattle.speedy_write.specs.FixedBytes.{PutsBehind};
ghost use Rattle.speedy_write.specs.Writing.{WritesBytes, RefusesFull, WritesIfSome, WritesValues, WritesSlice};
ghost use Rattle.speedy_write.specs.Collections.{TakesSome};
ghost use Rattle.speedy_write.specs.Buffering.{Buffers, PushesWaiting, WaitsBehind, buffers_nothing};
ghost use Rattle.speedy_write.specs.Buffering.{buffers_additive};
ghost use Rattle.speedy_layout.specs.Format.{Each};

use crate::collectors::push_all;
use crate::filling::FillsFront;
use crate::fixed::{FixedBytes, put_values_at};
use crate::writer::Writer;
use speedy_base::context::Context;
use speedy_base::device::Sink;
use speedy_base::endianness::Endianness;
use speedy_base::error::{Error, error_of_failed_call};
use speedy_layout::Layout;
use std::alloc::Global;

// The use of a buffer as the room of what waits.
struct Room {}

/// Bytes that wait to be pushed, in room that is lent.
#[derive(Drop)]
pub struct Waiting<'b> {
    // What waits lies from `start` to `end`.
    room: &'b mut [u8],
    start: usize,
    end: usize,
    ghost ordered: { start ≤ end },
    ghost within: { end ≤ length room.now },
}

impl<'b> Waiting<'b> {
    ghost use Rattle.speedy_write.specs.CollectorModels.{waiting};

    // Nothing waits, and all room is free.
    #[inline]
    fn none(room: &'b mut [u8]) -> Waiting<'b>
        ensures waits { waiting result ≡ [] }
        ensures room { (result.end ≡ 0) × (length result.room.now ≡ length room.old) }
    {
        Waiting {
            room,
            start: 0,
            end: 0,
        }
    }

    // Whether `count` bytes more have room.
    #[inline(always)]
    fn has_room(&self, count: usize) -> bool
        ensures { IsTrue result ↔ (self.now.end + count ≤ length self.now.room.now) }
    {
        count <= self.room.len() - self.end
    }

    // Appends the bytes to those that wait to be pushed.
    #[inline(always)]
    fn add(&mut self, slice: &[u8])
        requires { self.old.end + length slice.now ≤ length self.old.room.now }
        ensures { waiting self.new ≡ waiting self.old ++ slice.now }
    {
        let end = self.end + slice.len();
        self.room[self.end..end].copy_from_slice(slice);
        self.end = end;
    }

    // Appends the bytes of these values to those that wait.
    #[inline(always)]
    fn add_values<T: Layout, P: FixedBytes<T>>(&mut self, values: &[T], order: Endianness)
        requires { self.old.end + length values.now * P.BYTES ≤ length self.old.room.now }
        ensures { PutsBehind T.layout.format T.seen values.now order (waiting self.old) (waiting self.new) }
    {
        self.end = put_values_at::<T, P>(values, order, &mut *self.room, self.end);
    }

    // Has the first of the items that an iterator gives wait too, as many as have room, and returns the next one, or
    // `None` where none is left.
    #[inline(always)]
    fn add_from<C: Context, T: Layout + Drop, P: FillsFront<T, C>, I: Iterator<Item = T>>(
        &mut self,
        items: &mut I,
        context: &mut C,
    ) -> Option<T>
        requires { I.can_next items.old × IsFinite (I.remaining items.old) }
        ensures mode { C.mode context.new ≡ C.mode context.old }
        ensures adds { let format = T.layout.format (C.mode context.old) in (put : List T)
            × TakesSome I.can_next I.remaining I.next_gives put result items.old items.new
            × WaitsBehind (Each format.writes) (map T.seen put) (waiting self.old) (waiting self.new) }
        ensures stops { let format = T.layout.format (C.mode context.old) in
            NextHasNoRoom (value_size T.row) format.writes T.seen result
            (length self.new.room.now - self.new.end) }
    {
        let start = self.end;
        let (end, next) = P::fill_from::<Room, I>(items, context, &mut self.room[start..]);
        self.end = start + end;
        next
    }

    // Has the first of these items wait too, as many as have room, and says how many.
    #[inline(always)]
    fn add_each<C: Context, T: Layout, P: FillsFront<T, C>>(
        &mut self,
        items: &[T],
        context: &mut C,
    ) -> usize
        ensures mode { C.mode context.new ≡ C.mode context.old }
        ensures some { result ≤ length items.now }
        ensures adds { let format = T.layout.format (C.mode context.old) in
            WaitsBehind (Each format.writes) (map T.seen (take result items.now)) (waiting self.old)
            (waiting self.new) }
        ensures stops { let format = T.layout.format (C.mode context.old) in
            NextHasNoRoom (value_size T.row) format.writes T.seen (slice_get items.now result)
            (length self.new.room.now - self.new.end) }
    {
        let start = self.end;
        let (count, end) = P::fill_each::<Room>(items, context, &mut self.room[start..]);
        self.end = start + end;
        count
    }

    // All the room.
    #[inline(always)]
    fn all_room(&self) -> &[u8]
        ensures { result.now ≡ self.now.room.now }
    {
        &*self.room
    }

    // Pushes what waits. Where that succeeds, all room is free.
    #[inline(always)]
    fn push_to<S: Sink, E: From<Error>>(&mut self, alloc: Global, sink: &mut S) -> Result<(), E>
        ensures pushes { PushesWaiting E.from_gives result (waiting self.old) (waiting self.new)
            (S.sink sink.old) (S.sink sink.new) }
        ensures room { OnOk result (self.new.end ≡ 0) }
        ensures same_room { length self.new.room.now ≡ length self.old.room.now }
    {
        let (from, to) = (self.start, self.end);
        let (start, outcome) = push_range(alloc, self.all_room(), from, to, sink);
        match outcome {
            Ok(()) => {
                self.start = 0;
                self.end = 0;
                Ok(())
            }
            Err(error) => {
                self.start = start;
                Err(error)
            }
        }
    }

    // Writes bytes for which there is no room where others wait: these are pushed first.
    #[inline(always)]
    fn write_past<S: Sink, E: From<Error>>(
        &mut self,
        alloc: Global,
        slice: &[u8],
        sink: &mut S,
    ) -> Result<(), E>
        ensures { (mode : Mode) (name : GName) → WritesBytes E.from_gives slice.now result
            (sink_state mode name (S.sink sink.old)) (sink_state mode name (S.sink sink.new))
            (λ b. Buffers (S.sink sink.old) (waiting self.old) b (S.sink sink.new) (waiting self.new)) }
    {
        let (start, end, outcome) = push_past(
            alloc,
            &mut *self.room,
            self.start,
            self.end,
            slice,
            sink,
        );
        self.start = start;
        self.end = end;
        outcome
    }
}

// What waits in a range of a room.
#[inline(always)]
fn waiting_in(room: &[u8], start: usize, end: usize) -> &[u8]
    requires { (start ≤ end) × (end ≤ length room.now) }
    ensures { result.now ≡ drop start (take end room.now) }
{
    &room[start..end]
}

// Pushes what waits in a range of a room, and says where the rest of it begins.
//
// The range goes in and out by value, here and below: a writer that lent its own could not be kept in registers.
#[inline(never)]
fn push_range<S: Sink, E: From<Error>>(
    alloc: Global,
    room: &[u8],
    start: usize,
    end: usize,
    sink: &mut S,
) -> (usize, Result<(), E>)
    requires { (start ≤ end) × (end ≤ length room.now) }
    ensures pushes { PushesWaiting E.from_gives result.1 (drop start (take end room.now))
        (drop result.0 (take end room.now)) (S.sink sink.old) (S.sink sink.new) }
    ensures range { result.0 ≤ end }
{
    let mut at = start;
    while at < end {
        match sink.push(waiting_in(room, at, end)) {
            Ok(count) => at += count,
            Err(error) => return (at, Err(error_of_failed_call(alloc, error))),
        }
    }
    (at, Ok(()))
}

// Pushes what waits in a range of a room. Then it has other bytes wait, or pushes them where they would take more than
// half of the room. It says which range waits.
#[inline(never)]
fn push_past<S: Sink, E: From<Error>>(
    alloc: Global,
    room: &mut [u8],
    start: usize,
    end: usize,
    slice: &[u8],
    sink: &mut S,
) -> (usize, usize, Result<(), E>)
    requires { (start ≤ end) × (end ≤ length room.old) }
    ensures writes { (mode : Mode) (name : GName) → WritesBytes E.from_gives slice.now result.2
        (sink_state mode name (S.sink sink.old)) (sink_state mode name (S.sink sink.new))
        (λ b. Buffers (S.sink sink.old) (drop start (take end room.old)) b
        (S.sink sink.new) (drop result.0 (take result.1 room.new))) }
    ensures range { (result.0 ≤ result.1) × (result.0 ≤ end) × (result.1 ≤ length room.new) }
    ensures waits { length slice.now * 2 ≤ length room.old → OnOk result.2 (drop result.0 (take result.1 room.new)
        ≡ slice.now) }
{
    let count = slice.len();
    let (rest, outcome) = push_range::<S, E>(alloc, &*room, start, end, &mut *sink);
    match outcome {
        Ok(()) => {
            if count > room.len() / 2 {
                return (0, 0, push_all(alloc, slice, sink));
            }
            room[..count].copy_from_slice(slice);
            (0, count, Ok(()))
        }
        Err(error) => (rest, end, Err(error)),
    }
}

/// A writer to a sink, which buffers short writes and pushes them together. What is longer is pushed as it is.
///
/// What was written last waits until [`push_waiting`](Self::push_waiting).
#[derive(Drop)]
pub struct BufferingCollector<'s, S, C> {
    alloc: Global,
    context: C,
    sink: &'s mut S,
    waiting: Waiting<'s>,
}

impl<'s, S, C: Drop> BufferingCollector<'s, S, C> {
    ghost use Rattle.speedy_write.specs.CollectorModels.{buffering_model};

    /// A writer behind what the sink took, which buffers in the room. Memory is asked for where a push fails, for its
    /// error.
    #[inline]
    pub fn new(
        alloc: Global,
        context: C,
        sink: &'s mut S,
        room: &'s mut [u8],
    ) -> BufferingCollector<'s, S, C>
        ensures context { (buffering_model result).context ≡ context }
        ensures same_sink { (buffering_model result).sink_name ≡ sink.entry.ghost_name }
        ensures sink { (buffering_model result).sink ≡ sink.old }
        ensures nothing_waits { (buffering_model result).waits ≡ [] }
        ensures free { (result.waiting.end ≡ 0) × (length result.waiting.room.now ≡ length room.old) }
    {
        BufferingCollector {
            alloc,
            context,
            sink,
            waiting: Waiting::none(room),
        }
    }

    /// The sink, which took all that was pushed.
    #[inline]
    pub fn into_sink(self) -> &'s mut S
        ensures same_sink { result.ghost_name ≡ (buffering_model self.entry).sink_name }
        ensures sink { result.now ≡ (buffering_model self.entry).sink }
    {
        self.sink
    }
}

impl<'s, S: Sink, C: Context> BufferingCollector<'s, S, C> {
    ghost use Rattle.speedy_write.specs.CollectorModels.{buffering_model};

    /// Pushes what waits. The error is that of a push that failed, which is not tried again.
    #[inline(always)]
    pub fn push_waiting(&mut self) -> Result<(), C::Error>
        ensures pushes { PushesWaiting C.Error.from_gives result
            (buffering_model self.old).waits (buffering_model self.new).waits
            (S.sink (buffering_model self.old).sink) (S.sink (buffering_model self.new).sink) }
        ensures same_sink { (buffering_model self.new).sink_name ≡ (buffering_model self.old).sink_name }
    {
        self.waiting.push_to(self.alloc, &mut *self.sink)
    }

    // Writes bytes for which there is no room where others wait.
    #[inline(always)]
    fn write_past(&mut self, slice: &[u8]) -> Result<(), C::Error>
        ensures { let writer = ⟦<BufferingCollector<'s, S, C> as Writer<C>>⟧ in
            WritesSlice C.Error.from_gives writer.state writer.appends slice.now
            result self.old self.new }
    {
        self.waiting.write_past(self.alloc, slice, &mut *self.sink)
    }
}

impl<'s, S: Sink, C: Context> Writer<C> for BufferingCollector<'s, S, C> {
    const PUTS: bool = true;

    ghost is_counter = { false };

    ghost use Rattle.speedy_write.specs.CollectorModels.{buffering_model, waiting};

    ghost at = { λ w. w.context };

    ghost with_context = { λ w c. record w { context = c } };

    // The room is not given back, so its name is not told.
    ghost state = { λ w. sink_state (C.mode w.context) w.sink.ghost_name (S.sink w.sink.now) };

    ghost appends = { λ a s b.
        Buffers (S.sink a.sink.now) (waiting a.waiting) s (S.sink b.sink.now) (waiting b.waiting) };

    ghost can_write = { λ w n. None };

    ghost mode_at = { λ w. refl };

    ghost state_with = { λ w c. refl };

    ghost nothing = { λ w. buffers_nothing (S.sink w.sink.now) (waiting w.waiting) };

    ghost additive = { λ a b c s t h k. buffers_additive h k };

    ghost appends_with = { λ a b s c h. (h, h) };

    #[inline(always)]
    fn write_bytes(&mut self, slice: &[u8]) -> Result<(), C::Error>
        ensures writes { let writer = ⟦<BufferingCollector<'s, S, C> as Writer<C>>⟧ in
            WritesSlice C.Error.from_gives writer.state writer.appends slice.now
            result self.old self.new }
        ensures full { let writer = ⟦<BufferingCollector<'s, S, C> as Writer<C>>⟧ in
            RefusesFull C.Error.from_gives writer.state result self.old self.new }
        ensures waits { let held = self.old.waiting in
            length slice.now ≤ length held.room.now - held.end → S.sink self.new.sink.now ≡ S.sink self.old.sink.now }
    {
        if self.waiting.has_room(slice.len()) {
            self.waiting.add(slice);
            return Ok(());
        }
        self.write_past(slice)
    }

    /// Writes the items where others wait, as many as have room there.
    #[inline]
    fn put_from<T: Layout + Drop, P: FillsFront<T, C>, I: Iterator<Item = T>>(
        &mut self,
        items: &mut I,
    ) -> Option<T>
        requires { I.can_next items.old × IsFinite (I.remaining items.old) }
        ensures puts { let writer = ⟦<BufferingCollector<'s, S, C> as Writer<C>>⟧ in (put : List T)
            × TakesSome I.can_next I.remaining I.next_gives put result items.old items.new
            × WritesValues C.Error.from_gives writer.state writer.appends T.seen T.layout put (Ok tt)
            self.old self.new }
        ensures stops { let format = T.layout.format (C.mode self.old.context) in
            let held = self.new.waiting in
            NextHasNoRoom (value_size T.row) format.writes T.seen result (length held.room.now - held.end) }
    {
        self.waiting
            .add_from::<C, T, P, I>(items, &mut self.context)
    }

    /// Writes the items where others wait, as many as have room there.
    #[inline]
    fn put_each<T: Layout, P: FillsFront<T, C>>(&mut self, items: &[T]) -> usize
        ensures some { result ≤ length items.now }
        ensures puts { let writer = ⟦<BufferingCollector<'s, S, C> as Writer<C>>⟧ in
            WritesValues C.Error.from_gives writer.state writer.appends T.seen T.layout
            (take result items.now) (Ok tt) self.old self.new }
        ensures stops { let format = T.layout.format (C.mode self.old.context) in
            let held = self.new.waiting in
            NextHasNoRoom (value_size T.row) format.writes T.seen (slice_get items.now result)
            (length held.room.now - held.end) }
    {
        self.waiting.add_each::<C, T, P>(items, &mut self.context)
    }

    /// Puts the values where others wait, if they have room there.
    #[inline]
    fn put_fixed<T: Layout, P: FixedBytes<T>>(
        &mut self,
        values: &[T],
    ) -> Option<Result<(), C::Error>>
        ensures puts { let writer = ⟦<BufferingCollector<'s, S, C> as Writer<C>>⟧ in
            WritesIfSome C.Error.from_gives writer.state writer.appends T.seen T.layout values.now
            result self.old self.new }
        ensures fits { let held = self.old.waiting in
            length values.now * P.BYTES ≤ length held.room.now - held.end → IsSome result }
    {
        P::has_few_bytes();
        let room = self.waiting.room.len() - self.waiting.end;
        if values.len() > room / P::BYTES {
            return None;
        }
        self.waiting
            .add_values::<T, P>(values, self.context.endianness());
        Some(Ok(()))
    }

    /// Tells the sink of these bytes, of those that follow, and of those that wait.
    #[inline]
    fn write_bytes_before(&mut self, slice: &[u8], following: usize) -> Result<(), C::Error> {
        if following == 0 {
            return self.write_bytes(slice);
        }
        let waiting = self.waiting.end - self.waiting.start;
        let further = following.saturating_add(slice.len());
        self.sink.reserve(further.saturating_add(waiting));
        self.write_bytes(slice)
    }

    #[inline(always)]
    fn counts() -> bool {
        false
    }

    #[inline(always)]
    fn count_bytes(&mut self, _size: usize) -> Option<Result<(), C::Error>> {
        None
    }

    #[inline(always)]
    fn context(&self) -> &C {
        &self.context
    }

    #[inline(always)]
    fn context_mut(&mut self) -> &mut C {
        &mut self.context
    }

    #[inline(always)]
    fn can_write_at_least(&self, _size: usize) -> Option<bool> {
        None
    }
}
