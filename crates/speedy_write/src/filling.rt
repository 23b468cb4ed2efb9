//! How items are written whole where a writer has room: to the front of a buffer, as many as fit (`FillsFront`).
ghost use Rattle.std.specs.Iterator.{IsFinite};
ghost use Rattle.std.specs.Prelude.{◌≡◌, ◌-◌, ◌≤◌, List, length, map, take, slice_get, IfSome, IfNone};
ghost use Rattle.speedy_layout.specs.Format.{Each};
ghost use Rattle.speedy_write.specs.Collections.{TakesSome};
ghost use Rattle.speedy_write.specs.Collectors.{IsAtFront, DoesNotFit, NextHasNoRoom, value_size};

use crate::collectors::BufferCollector;
use crate::writable::Writable;
use speedy_base::context::Context;
use speedy_layout::Layout;
use std::mem;

/// How values of a type are written to a buffer.
///
/// `Writer` comes before `Writable`, and cannot name it. So a writer that lends its room takes the way of writing to it
/// as a type.
pub trait FillsFront<T: Layout, C: Context> {
    /// Writes the first of the items to the front of a buffer, and says how many, and where they end. It stops before
    /// the first that does not fit, or for which what is left of the buffer is shorter than a value of the type in
    /// memory. `U` says what the buffer is used for.
    fn fill_each<U>(items: &[T], context: &mut C, buffer: &mut [u8]) -> (usize, usize)
        ensures mode { C.mode context.new ≡ C.mode context.old }
        ensures some { result.0 ≤ length items.now }
        ensures fills { let format = T.layout.format (C.mode context.old) in
            IsAtFront (Each format.writes) (map T.seen (take result.0 items.now)) buffer.new result.1 }
        ensures stops { let format = T.layout.format (C.mode context.old) in
            NextHasNoRoom (value_size T.row) format.writes T.seen (slice_get items.now result.0)
            (length buffer.new - result.1) };

    /// Writes the first of the items that an iterator gives to the front of a buffer. It says where they end, and
    /// returns the next item, or `None` where none is left. It stops before the same items as `fill_each`.
    fn fill_from<U, I: Iterator<Item = T>>(
        items: &mut I,
        context: &mut C,
        buffer: &mut [u8],
    ) -> (usize, Option<T>)
    where
        T: Drop,
        requires { I.can_next items.old × IsFinite (I.remaining items.old) }
        ensures mode { C.mode context.new ≡ C.mode context.old }
        ensures fills { let format = T.layout.format (C.mode context.old) in (put : List T)
            × TakesSome I.can_next I.remaining I.next_gives put result.1 items.old items.new
            × IsAtFront (Each format.writes) (map T.seen put) buffer.new result.0 }
        ensures stops { let format = T.layout.format (C.mode context.old) in
            NextHasNoRoom (value_size T.row) format.writes T.seen result.1 (length buffer.new - result.0) };
}

/// The way of `Writable`: each value is written whole, or not at all.
///
/// The room is compared with a value's size in memory first, for speed alone: of parts of one size a compiler then
/// leaves out the tests.
pub(crate) struct Whole {}

impl<C: Context, T: Writable<C>> FillsFront<T, C> for Whole {
    #[inline]
    fn fill_each<U>(items: &[T], context: &mut C, buffer: &mut [u8]) -> (usize, usize) {
        let mut count = 0;
        let mut end = 0;
        for item in items {
            if buffer.len() - end < mem::size_of_val(item) {
                return (count, end);
            }
            let Some(more) = fill_prefix::<C, T, U>(item, context, &mut buffer[end..]) else {
                return (count, end);
            };
            count += 1;
            end += more;
        }
        (count, end)
    }

    #[inline]
    fn fill_from<U, I: Iterator<Item = T>>(
        items: &mut I,
        context: &mut C,
        buffer: &mut [u8],
    ) -> (usize, Option<T>)
    where
        T: Drop,
    {
        let mut end = 0;
        while let Some(item) = items.next() {
            if buffer.len() - end < mem::size_of_val(&item) {
                return (end, Some(item));
            }
            let Some(more) = fill_prefix::<C, T, U>(&item, context, &mut buffer[end..]) else {
                return (end, Some(item));
            };
            end += more;
        }
        (end, None)
    }
}

// Writes a value to the front of a buffer, and says where it ends. Where it does not fit, or has no encoding, this is
// `None`. `U` says what the buffer is used for. The collector names the type too, so that what several types share, as
// the write of a text, stands inline in each.
#[inline]
pub(crate) fn fill_prefix<C: Context, T: Writable<C>, U>(
    value: &T,
    context: &mut C,
    buffer: &mut [u8],
) -> Option<usize>
    ensures mode { C.mode context.new ≡ C.mode context.old }
    ensures fills { let format = T.layout.format (C.mode context.old) in
        IfSome result (λ end. IsAtFront format.writes (T.seen value.now) buffer.new end) }
    ensures refuses { let format = T.layout.format (C.mode context.old) in
        IfNone result (DoesNotFit format.writes (T.seen value.now) (length buffer.old)) }
{
    let mut collector: BufferCollector<C, (U, T)> = BufferCollector::for_use(context, buffer);
    let outcome = value.write_to(&mut collector);
    let end = collector.finish();
    match outcome {
        Ok(()) => Some(end),
        Err(_) => None,
    }
}
