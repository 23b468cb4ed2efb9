//! Items that are written one after another, or counted together.
ghost use Rattle.std.specs.Prelude.{◌≡◌, ◌≤◌, ◌<◌, ◌*◌, ◌⊎◌, Any, length, map, MatchOption, IsTrue, IsSome, IfSome};
ghost use Rattle.speedy_base.specs.Mode.{Mode};
ghost use Rattle.speedy_write.specs.Collectors.{DoesNotFit};
ghost use Rattle.speedy_write.specs.Counting.{CountsEach, HasSize};
ghost use Rattle.speedy_write.specs.Writing.{WritesIfSome, WritesValue, WritesValues};

use crate::filling::Whole;
use crate::writable::Writable;
use crate::writer::Writer;
use speedy_base::context::Context;
use speedy_layout::Layout;

// Writes the items, one after the other. A writer that counts is told of all at once.
pub(crate) fn write_items<C: Context, T: Writable<C>, W: Writer<C>>(
    items: &[T],
    writer: &mut W,
) -> Result<(), C::Error>
    ensures { WritesValues C.Error.from_gives W.state W.appends T.seen T.layout items.now
        result writer.old writer.new }
{
    if W::counts() {
        if let Some(size) = count_each(items, writer.context_mut()) {
            if let Some(counted) = writer.count_bytes(size) {
                return counted;
            }
        }
    }
    write_each(items, writer)
}

// Writes the items, one after the other: whole those that the writer has room for, by their parts the others.
#[inline]
fn write_each<C: Context, T: Writable<C>, W: Writer<C>>(
    items: &[T],
    writer: &mut W,
) -> Result<(), C::Error>
    ensures { WritesValues C.Error.from_gives W.state W.appends T.seen T.layout items.now
        result writer.old writer.new }
{
    let mut rest = items;
    while !rest.is_empty() {
        let (_, more) = rest.split_at(writer.put_each::<T, Whole>(rest));
        let Some((item, others)) = more.split_first() else {
            return Ok(());
        };
        item.write_to(writer)?;
        rest = others;
    }
    Ok(())
}

// Writes an item of a collection by its parts. A writer that only counts gets its size in one call.
#[inline]
pub(crate) fn write_item<C: Context, T: Writable<C>, W: Writer<C>>(
    item: &T,
    writer: &mut W,
) -> Result<(), C::Error>
    ensures { WritesValue C.Error.from_gives W.state W.appends T.seen T.layout item.now
        result writer.old writer.new }
{
    if W::counts() {
        if let Ok(bytes) = item.bytes_needed(writer.context_mut()) {
            if let Some(outcome) = writer.count_bytes(bytes) {
                return outcome;
            }
        }
    }
    by_parts(item, writer)
}

// Writes an item by its parts. It stands apart where those that have room are put whole.
#[inline]
fn by_parts<C: Context, T: Writable<C>, W: Writer<C>>(
    item: &T,
    writer: &mut W,
) -> Result<(), C::Error>
    ensures { WritesValue C.Error.from_gives W.state W.appends T.seen T.layout item.now
        result writer.old writer.new }
{
    if W::PUTS {
        return write_by_parts(item, writer);
    }
    item.write_to(writer)
}

// Writes an item that had no room. It stands apart, so that the loop over items has little in it.
#[inline(never)]
fn write_by_parts<C: Context, T: Writable<C>, W: Writer<C>>(
    item: &T,
    writer: &mut W,
) -> Result<(), C::Error>
    ensures { WritesValue C.Error.from_gives W.state W.appends T.seen T.layout item.now
        result writer.old writer.new }
{
    item.write_to(writer)
}

// The most items that are counted together. With as many bytes of each as are counted the sum cannot wrap.
//
// It is the greatest length in four bytes, so a compiler compares the length of a list with both at once.
pub(crate) const MOST_ITEMS: usize = 4_294_967_295;

// The most bytes of an item that is counted with others. A processor compares with it in one instruction.
const MOST_BYTES: usize = 2_147_483_647;

// How many bytes the items take, where there are not too many of them and none is too long.
//
// Each is counted from zero, so that a compiler sees where each takes as many, and multiplies.
fn count_each<C: Context, T: Writable<C>>(items: &[T], context: &mut C) -> Option<usize>
    ensures mode { C.mode context.new ≡ C.mode context.old }
    ensures counts { let writes = (T.layout.format (C.mode context.old)).writes in
        MatchOption result
        ((4294967295 < length items.now)
        ⊎ Any (λ x. DoesNotFit writes (T.seen x) 2147483647) items.now)
        (λ size. CountsEach writes (map T.seen items.now) size) }
{
    if items.len() > MOST_ITEMS {
        return None;
    }
    let mut sum = 0;
    for item in items {
        match item.bytes_needed(context) {
            Ok(size) if size <= MOST_BYTES => sum += size,
            _ => return None,
        }
    }
    Some(sum)
}

// Values that take few bytes each, and can all be written.
pub(crate) trait Short: Layout {
    // How many bytes the value takes.
    fn size(&self) -> usize
        ensures few { result ≤ 31 }
        ensures takes { (mode : Mode) →
            HasSize (Self.layout.format mode).writes (Self.seen self.now) result };
}

// Tells a writer that counts how many bytes the values take together, unless they are too many. On another writer it
// does nothing.
#[inline]
pub(crate) fn count_short<C: Context, T: Short, W: Writer<C>>(
    values: &[T],
    writer: &mut W,
) -> Option<Result<(), C::Error>>
    ensures counts { WritesIfSome C.Error.from_gives W.state W.appends T.seen T.layout values.now
        result writer.old writer.new }
    ensures answers { IsTrue W.is_counter → length values.now ≤ 4294967295 → IsSome result }
{
    if !W::counts() {
        return None;
    }
    writer.count_bytes(size_of_short(values)?)
}

// So many short values are counted in sixteen bits, of which a processor adds eight at a time.
const BLOCK: usize = 2_048;

// How many bytes the values take, where there are not too many of them.
fn size_of_short<T: Short>(values: &[T]) -> Option<usize>
    ensures answers { length values.now ≤ 4294967295 → IsSome result }
    ensures counts { (mode : Mode) → let format = T.layout.format mode in
        IfSome result (λ size. CountsEach format.writes (map T.seen values.now) size) }
{
    if values.len() > MOST_ITEMS {
        return None;
    }
    let mut sum = 0;
    let mut rest = values;
    while !rest.is_empty() {
        let (some, more) = rest.split_at(rest.len().min(BLOCK));
        sum += size_of_block(some) as usize;
        rest = more;
    }
    Some(sum)
}

// How many bytes the values of a block take.
#[inline]
fn size_of_block<T: Short>(values: &[T]) -> u16
    requires { length values.now ≤ 2048 }
    ensures few { result ≤ length values.now * 31 }
    ensures counts { (mode : Mode) → let format = T.layout.format mode in
        CountsEach format.writes (map T.seen values.now) result }
{
    let mut sum = 0;
    for value in values {
        sum += value.size() as u16;
    }
    sum
}
