//! The ring (`CircularBuffer`): bytes that wait between a device and its readers, of a buffered reader 8,191 at most
//! after each read.
ghost use Rattle.std.specs.Prelude.{◌≡◌, ◌+◌, ◌-◌, ◌≤◌, ◌↔◌, min, [], ◌++◌, length, take, drop, None, IsOk, IfOk, OnOk};
ghost use Rattle.std.specs.Prelude.{OnErr, IsTrue, max, slice_range, vec_len, vec_capacity};
ghost use Rattle.std.specs.Borrow.{Array, Lends, sem, u8};
ghost use Rattle.std.specs.Io.BufRead.{Rests};
ghost use Rattle.speedy_base.specs.Ring.{with_room};
ghost use Rattle.speedy_base.specs.contracts.circular_buffer.CircularBuffer.{the_row};

use std::alloc::{AllocError, Global};
use std::marker::Model;

/// Bytes that wait, in the order in which they came. They lie in one stretch of memory, and nothing wraps around.
///
/// A device fills the stretch that [`free`](Self::free) lends, [`appended`](Self::appended) keeps what came, and bytes
/// are taken from the front. What stands in a stretch is forgotten once another call changes the buffer.
#[derive(Drop)]
pub struct CircularBuffer {
    // It has room for the capacity, and is as long as what was lent of it reached.
    memory: Vec<u8>,
    capacity: usize,
    // The kept bytes lie from `start` to `end`, and right behind them as many as were lent last.
    start: usize,
    end: usize,
    lent: usize,
}

impl Model for CircularBuffer {
    ghost use Rattle.std.specs.Prelude.{◌+◌, ◌≤◌, length, take, drop, slice_range, vec_capacity};
    ghost use Rattle.speedy_base.specs.Ring.{Ring};

    ghost Value = { Ring };

    ghost view = { λ b. record {
      bytes = slice_range b.memory.items b.start b.end;
      capacity = b.capacity;
      room = take b.lent (drop b.end b.memory.items);
    } };

    ghost invariant = { λ b. (b.start ≤ b.end) × (b.end + b.lent ≤ length b.memory.items)
        × (length b.memory.items ≤ b.capacity) × (b.capacity ≤ vec_capacity b.memory) };
}

// Makes room for `count` bytes behind those from `start` to `end`, and says where these begin then. They are moved to
// the front where the room behind them is too short. The room is zeroed here, and not before, as long as it is.
fn make_room(memory: &mut Vec<u8>, start: usize, end: usize, count: usize, capacity: usize) -> usize
    requires held { (start ≤ end) × (end ≤ vec_len memory.old) }
    requires within { (vec_len memory.old ≤ capacity) × (capacity ≤ vec_capacity memory.old) }
    requires fits { end - start + count ≤ capacity }
    ensures bytes { slice_range memory.new.items result (result + (end - start))
        ≡ slice_range memory.old.items start end }
    ensures room { result + (end - start) + count ≤ vec_len memory.new }
    ensures within { (vec_len memory.new ≤ capacity) × (capacity ≤ vec_capacity memory.new) }
{
    if capacity - end >= count {
        lay_zeros(memory, end + count);
        return start;
    }
    memory.copy_within(start..end, 0);
    lay_zeros(memory, end - start + count);
    0
}

// Lays zeros behind the bytes of a vector that has room for them, where it is shorter than `least`.
fn lay_zeros(memory: &mut Vec<u8>, least: usize)
    requires { least ≤ vec_capacity memory.old }
    ensures bytes { take (vec_len memory.old) memory.new.items ≡ memory.old.items }
    ensures length { vec_len memory.new ≡ max least (vec_len memory.old) }
    ensures capacity { vec_capacity memory.old ≤ vec_capacity memory.new }
{
    if memory.len() < least && memory.resize(least, 0).is_err() {
        unreachable!();
    }
}

impl CircularBuffer {
    /// An empty buffer of this capacity. One of capacity 0 takes no memory.
    pub fn with_capacity(alloc: Global, capacity: usize) -> Result<CircularBuffer, AllocError>
        ensures empty { IfOk result
            (λ b. b ≡ record { bytes = []; capacity = capacity; room = [] }) }
        ensures zero { capacity ≡ 0 → IsOk result }
    {
        let memory = Vec::with_capacity(alloc, capacity)?;
        Ok(CircularBuffer {
            memory,
            capacity,
            start: 0,
            end: 0,
            lent: 0,
        })
    }

    /// The number of bytes that are kept.
    #[inline]
    pub fn len(&self) -> usize
        ensures value { result ≡ length self.now.bytes }
        ensures fits { length self.now.bytes ≤ self.now.capacity }
    {
        self.end - self.start
    }

    /// Whether no bytes are kept.
    #[inline]
    pub fn is_empty(&self) -> bool
        ensures { IsTrue result ↔ (self.now.bytes ≡ []) }
    {
        self.start == self.end
    }

    /// The number of bytes that can be kept.
    #[inline]
    pub fn capacity(&self) -> usize
        ensures value { result ≡ self.now.capacity }
        ensures fits { length self.now.bytes ≤ self.now.capacity }
    {
        self.capacity
    }

    /// Makes room for `additional` more bytes. It takes no memory if they fit already. Out of memory changes nothing.
    pub fn reserve(&mut self, additional: usize) -> Result<(), AllocError>
        ensures bytes { OnOk result (self.new.bytes ≡ self.old.bytes) }
        ensures fits { OnOk result (length self.old.bytes + additional ≤ self.new.capacity) }
        ensures grows { OnOk result (self.old.capacity ≤ self.new.capacity) }
        ensures room { OnOk result (self.new.room ≡ []) }
        ensures refused { OnErr result (self.new ≡ self.old) }
        ensures fit_already { length self.old.bytes + additional ≤ self.old.capacity
            → IsOk result × (self.new ≡ record self.old { room = [] }) }
    {
        if self.capacity() - self.len() < additional {
            self.memory.reserve(additional)?;
            self.capacity = self.memory.len() + additional;
        }
        self.lent = 0;
        Ok(())
    }

    /// Lends a stretch to be filled: of `max` bytes, or of as many as still fit.
    ///
    /// The kept bytes are moved to the front of the memory where the room behind them is too short.
    pub fn free(&mut self, max: usize) -> &mut [u8]
        ensures* lends { sem 𝓛 (Lends the_row (Array u8 0) self.entry result
            (with_room self.old result.now)) }
        ensures count { length result.now ≡ min max (self.old.capacity - length self.old.bytes) }
    {
        let length = self.len();
        let count = max.min(self.capacity - length);
        self.start = make_room(&mut self.memory, self.start, self.end, count, self.capacity);
        self.end = self.start + length;
        self.lent = count;
        let end = self.end;
        self.memory.slice_mut(end..end + count)
    }

    /// Keeps the first `count` bytes of the stretch that was lent last, behind those that are kept.
    #[inline]
    pub fn appended(&mut self, count: usize)
        requires { count ≤ length self.old.room }
        ensures { self.new ≡ record self.old {
          bytes = self.old.bytes ++ take count self.old.room;
          room = [];
        } }
    {
        self.end += count;
        self.lent = 0;
    }

    /// The kept bytes. They lie in one stretch, so the second slice is always `None`.
    #[inline]
    pub fn as_slices(&self) -> (&[u8], Option<&[u8]>)
        ensures bytes { result.0.now ≡ self.now.bytes }
        ensures one { result.1 ≡ None }
    {
        (&self.memory[self.start..self.end], None)
    }

    /// The first `count` bytes. They lie in one stretch, so the second slice is always `None`.
    #[inline]
    pub fn as_slices_of_length(&self, count: usize) -> (&[u8], Option<&[u8]>)
        requires { count ≤ length self.now.bytes }
        ensures bytes { result.0.now ≡ take count self.now.bytes }
        ensures one { result.1 ≡ None }
    {
        (&self.memory[self.start..self.start + count], None)
    }

    /// Takes `count` bytes from the front.
    #[inline]
    pub fn consume(&mut self, count: usize)
        requires { count ≤ length self.old.bytes }
        ensures { self.new ≡ record self.old { bytes = drop count self.old.bytes; room = [] } }
    {
        self.start += count;
        self.lent = 0;
    }

    /// Takes `count` bytes from the front, and lends them until the buffer is used again.
    #[inline]
    pub fn consume_lent(&mut self, count: usize) -> &[u8]
        requires { count ≤ length self.old.bytes }
        ensures* rest { sem 𝓛 (Rests the_row self.entry (λ new.
            new ≡ record self.old { bytes = drop count self.old.bytes; room = [] })) }
        ensures bytes { result.now ≡ take count self.old.bytes }
    {
        let start = self.start;
        self.start += count;
        self.lent = 0;
        &self.memory[start..start + count]
    }

    /// Takes bytes from the front, until the output is full.
    #[inline]
    pub fn consume_into(&mut self, output: &mut [u8])
        requires { length output.old ≤ length self.old.bytes }
        ensures output { output.new ≡ take (length output.old) self.old.bytes }
        ensures rest { self.new
            ≡ record self.old { bytes = drop (length output.old) self.old.bytes; room = [] } }
    {
        let count = output.len();
        output.copy_from_slice(self.as_slices_of_length(count).0);
        self.consume(count);
    }
}
