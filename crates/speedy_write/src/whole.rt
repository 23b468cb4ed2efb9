//! How values are written that have all of the bytes, and how a text or a list is that is the rest of them.
ghost use Rattle.std.specs.Prelude.{◌≡◌, ◌≤◌, ℕ, List, [], length, map, IsTrue, IsOk, MatchResult, false};
ghost use Rattle.speedy_base.specs.Error.{error_of};
ghost use Rattle.speedy_base.specs.Mode.{Mode, plain_mode};
ghost use Rattle.speedy_layout.specs.Growing.{some_bytes};
ghost use Rattle.speedy_layout.specs.Lengths.{list_counting};
ghost use Rattle.speedy_layout.specs.Rests.{rest_codec};
ghost use Rattle.speedy_layout.specs.Tuples.{pair};
ghost use Rattle.speedy_write.specs.WaysOfWriting.{IsShortest, NeedsIn, Stands, WritesToVecIn};
ghost use Rattle.speedy_write.specs.Wholes.{TakesNone, TakesBytes};
ghost use Rattle.speedy_write.specs.Writing.{Writes, WritesAs};

use crate::collectors::{BufferCollector, VecCollector};
use crate::counting::CountingCollector;
use crate::lengths::WriteOfLength;
use crate::part::Part;
use crate::writable::{MOST_ZEROED, Writable};
use crate::writer::Writer;
use speedy_base::context::{Context, PlainContext};
use speedy_base::endianness::Endianness;
use speedy_base::error::{ErrorKind, error_out_of_memory, error_out_of_range_length};
use speedy_layout::lengths::OfLength;
use speedy_layout::whole::{
    EndsItself, EndsWithInput, Followed, Rest, UnlessEnd, Whole, WholePart,
};
use std::alloc::Global;
use std::borrow::{CowSlice, CowStr};
use std::boxed::{BoxedSlice, BoxedStr};

/// Types whose values end where the bytes do. A type of your own that ends so implements this trait.
pub trait WriteToEnd<C: Context>: Whole {
    /// Writes the value, behind which nothing may stand.
    fn write_to_end<W: Writer<C>>(&self, writer: &mut W) -> Result<(), C::Error>
        ensures { WritesAs C.Error.from_gives W.state W.appends Self.seen Self.whole.format
            self.now result writer.old writer.new };
}

/// How a value of `T` is written that has all of the bytes.
pub trait WritesEnding<T: Whole, C: Context> {
    /// Writes the value, behind which nothing may stand.
    fn write_ending<W: Writer<C>>(value: &T, writer: &mut W) -> Result<(), C::Error>
        ensures { WritesAs C.Error.from_gives W.state W.appends T.seen T.whole.format
            value.now result writer.old writer.new };
}

impl<T: Writable<C>, C: Context> WritesEnding<T, C> for EndsItself {
    #[inline]
    fn write_ending<W: Writer<C>>(value: &T, writer: &mut W) -> Result<(), C::Error> {
        value.write_to(writer)
    }
}

impl<T: WriteToEnd<C>, C: Context> WritesEnding<T, C> for EndsWithInput {
    #[inline]
    fn write_ending<W: Writer<C>>(value: &T, writer: &mut W) -> Result<(), C::Error> {
        value.write_to_end(writer)
    }
}

/// Types that are written as all of the bytes: those that end where the bytes do, and those with a layout.
pub trait WriteWhole<C: Context>: Whole {
    /// Writes the value, behind which nothing may stand.
    fn write_whole<W: Writer<C>>(&self, writer: &mut W) -> Result<(), C::Error>
        ensures { WritesAs C.Error.from_gives W.state W.appends Self.seen Self.whole.format
            self.now result writer.old writer.new };

    /// The number of bytes that the value is written in. `usize::MAX` bytes and more are the error `OutOfRangeLength`.
    #[tactic(auto, using(crate::proofs::CountLemmas::whole_counted))]
    final fn whole_bytes_needed(&self, context: &mut C) -> Result<usize, C::Error>
        ensures mode { C.mode context.new ≡ C.mode context.old }
        ensures needs { NeedsIn C.Error.from_gives (Self.whole.format (C.mode context.old))
            (Self.seen self.now) result }
    {
        let mut counter = CountingCollector::new(context);
        let outcome = self.write_whole(&mut counter);
        let size = counter.finish();
        outcome?;
        if size == usize::MAX {
            return Err(error_out_of_range_length());
        }
        Ok(size)
    }

    /// Encodes the value into a vector, in little endian.
    #[inline]
    final fn write_whole_to_vec(&self, alloc: Global) -> Result<Vec<u8>, C::Error>
    where
        C: PlainContext,
        ensures { WritesToVecIn C.Error.from_gives
            (Self.whole.format (plain_mode Endianness.LittleEndian)) (Self.seen self.now)
            (λ vec. vec.items) result }
    {
        self.write_whole_to_vec_with_ctx(alloc, C::plain())
    }

    /// Encodes the value into a vector, under the context. The vector is requested once, at its length.
    final fn write_whole_to_vec_with_ctx(
        &self,
        alloc: Global,
        context: C,
    ) -> Result<Vec<u8>, C::Error>
        ensures { WritesToVecIn C.Error.from_gives (Self.whole.format (C.mode context))
            (Self.seen self.now) (λ vec. vec.items) result }
    {
        let mut context = context;
        let needed = self.whole_bytes_needed(&mut context)?;
        fill_vec(self, alloc, &mut context, needed)
    }
}

// Writes a value to the front of a buffer in which it fits. It always succeeds: the result is that of the write.
fn fill<C: Context, T: WriteWhole<C>>(
    value: &T,
    context: &mut C,
    buffer: &mut [u8],
) -> Result<(), C::Error>
    requires { let format = T.whole.format (C.mode context.old) in
        ((bytes : List ℕ) × format.writes (T.seen value.now) bytes
        × (length bytes ≤ length buffer.old)) }
    ensures mode { C.mode context.new ≡ C.mode context.old }
    ensures succeeds { IsOk result }
    ensures stands { let format = T.whole.format (C.mode context.old) in
        Stands format (T.seen value.now) buffer.old buffer.new }
{
    let mut collector: BufferCollector<C, (WholeRoom, T)> = BufferCollector::for_use(
        context, buffer,
    );
    let outcome = value.write_whole(&mut collector);
    collector.finish();
    outcome
}

// The use of a buffer as the room of a vector that a value has all of.
struct WholeRoom {}

// Writes a value to a vector that is requested once, with room for the bytes that the value takes, as `write_to_vec`
// does.
fn fill_vec<C: Context, T: WriteWhole<C>>(
    value: &T,
    alloc: Global,
    context: &mut C,
    room: usize,
) -> Result<Vec<u8>, C::Error>
    requires { let format = T.whole.format (C.mode context.old) in
        ((bytes : List ℕ) × format.writes (T.seen value.now) bytes × (length bytes ≡ room)) }
    ensures mode { C.mode context.new ≡ C.mode context.old }
    ensures fills { let format = T.whole.format (C.mode context.old) in
        MatchResult result (λ vec. IsShortest format (T.seen value.now) vec.items)
        (C.Error.from_gives (error_of ErrorKind.OutOfMemory)) }
{
    let Ok(mut bytes) = Vec::with_capacity(alloc, room) else {
        return Err(error_out_of_memory());
    };
    if room <= MOST_ZEROED {
        if bytes.resize(room, 0).is_err() {
            unreachable!();
        }
        return match fill(value, context, bytes.as_mut_slice()) {
            Ok(()) => Ok(bytes),
            Err(_) => unreachable!(),
        };
    }
    let mut collector = VecCollector::new(context, &mut bytes, room);
    let outcome = value.write_whole(&mut collector);
    collector.finish();
    match outcome {
        Ok(()) => Ok(bytes),
        Err(_) => unreachable!(),
    }
}

impl<C: Context, T: Whole> WriteWhole<C> for T
where
    <T as Whole>::Ends: WritesEnding<T, C>,
{
    #[inline]
    fn write_whole<W: Writer<C>>(&self, writer: &mut W) -> Result<(), C::Error> {
        <<T as Whole>::Ends as WritesEnding<T, C>>::write_ending(self, writer)
    }
}

impl<'t, C: Context, T: WriteWhole<C>> WriteToEnd<C> for WholePart<'t, T> {
    #[inline]
    fn write_to_end<W: Writer<C>>(&self, writer: &mut W) -> Result<(), C::Error> {
        self.0.write_whole(writer)
    }
}

// Parts with a layout, and then a value that nothing stands behind.
impl<C: Context, A: Writable<C>, B: WriteWhole<C>> WriteToEnd<C> for Followed<A, B> {
    #[inline]
    fn write_to_end<W: Writer<C>>(&self, writer: &mut W) -> Result<(), C::Error> {
        writer.write_value(&self.0)?;
        self.1.write_whole(writer)
    }
}

impl<C: Context, A: Writable<C>, B: WriteWhole<C>> WriteToEnd<C> for UnlessEnd<A, B> {
    #[inline]
    fn write_to_end<W: Writer<C>>(&self, writer: &mut W) -> Result<(), C::Error> {
        match &self.0 {
            None => Ok(()),
            Some(parts) => write_present(&parts.0, &parts.1, writer),
        }
    }
}

// A part that takes bytes, and what nothing stands behind.
#[inline]
fn write_present<C: Context, A: Writable<C>, B: WriteWhole<C>, W: Writer<C>>(
    first: &A,
    rest: &B,
    writer: &mut W,
) -> Result<(), C::Error>
    ensures { Writes C.Error.from_gives
        (λ f. pair (some_bytes (A.layout.format f)) (B.whole.format f))
        (A.seen first.now, B.seen rest.now) result (W.state writer.old) (W.state writer.new)
        (λ b. W.appends writer.old b writer.new) }
{
    write_some(first, writer)?;
    rest.write_whole(writer)
}

// A value that takes bytes. One that takes none is refused.
#[inline]
fn write_some<C: Context, A: Writable<C>, W: Writer<C>>(
    value: &A,
    writer: &mut W,
) -> Result<(), C::Error>
    ensures { WritesAs C.Error.from_gives W.state W.appends A.seen
        (λ f. some_bytes (A.layout.format f)) value.now result writer.old writer.new }
{
    if takes_no_byte(value, writer) {
        return Err(error_out_of_range_length());
    }
    writer.write_value(value)
}

/// How texts and lists are written that are the rest of the bytes.
pub trait WriteRest<C: Context>: OfLength {
    /// Writes the bytes of the text, or the items of the list, and no length.
    fn write_rest<W: Writer<C>>(&self, writer: &mut W) -> Result<(), C::Error>
        ensures { WritesAs C.Error.from_gives W.state W.appends Self.seen
            (rest_codec Self.counting).format self.now result writer.old writer.new };
}

impl<C: Context, T: WriteRest<C>> WriteToEnd<C> for Rest<T> {
    #[inline]
    fn write_to_end<W: Writer<C>>(&self, writer: &mut W) -> Result<(), C::Error> {
        self.0.write_rest(writer)
    }
}

impl<'t, C: Context, T: WriteRest<C>> WriteRest<C> for Part<'t, T> {
    #[inline]
    fn write_rest<W: Writer<C>>(&self, writer: &mut W) -> Result<(), C::Error> {
        self.0.write_rest(writer)
    }
}

impl<C: Context> WriteRest<C> for String {
    #[inline]
    fn write_rest<W: Writer<C>>(&self, writer: &mut W) -> Result<(), C::Error> {
        write_bytewise(self, writer)
    }
}

impl<'a, C: Context> WriteRest<C> for &'a str {
    #[inline]
    fn write_rest<W: Writer<C>>(&self, writer: &mut W) -> Result<(), C::Error> {
        write_bytewise(self, writer)
    }
}

impl<C: Context> WriteRest<C> for BoxedStr {
    #[inline]
    fn write_rest<W: Writer<C>>(&self, writer: &mut W) -> Result<(), C::Error> {
        write_bytewise(self, writer)
    }
}

impl<'a, C: Context> WriteRest<C> for CowStr<'a> {
    #[inline]
    fn write_rest<W: Writer<C>>(&self, writer: &mut W) -> Result<(), C::Error> {
        write_bytewise(self, writer)
    }
}

impl<C: Context, T: Writable<C>> WriteRest<C> for Vec<T> {
    #[inline]
    fn write_rest<W: Writer<C>>(&self, writer: &mut W) -> Result<(), C::Error> {
        let items = self.as_slice();
        write_items_to_end(items, writer)
    }
}

impl<'a, C: Context, T: Writable<C>> WriteRest<C> for &'a [T] {
    #[inline]
    fn write_rest<W: Writer<C>>(&self, writer: &mut W) -> Result<(), C::Error> {
        write_items_to_end(*self, writer)
    }
}

impl<C: Context, T: Writable<C>> WriteRest<C> for BoxedSlice<T> {
    #[inline]
    fn write_rest<W: Writer<C>>(&self, writer: &mut W) -> Result<(), C::Error> {
        write_items_to_end(self.as_slice(), writer)
    }
}

impl<'a, C: Context, T: Writable<C>> WriteRest<C> for CowSlice<'a, T> {
    #[inline]
    fn write_rest<W: Writer<C>>(&self, writer: &mut W) -> Result<(), C::Error> {
        write_items_to_end(self.as_ref(), writer)
    }
}

// A text, which has as many bytes as it is long.
#[inline]
fn write_bytewise<C: Context, T: WriteOfLength<C>, W: Writer<C>>(
    value: &T,
    writer: &mut W,
) -> Result<(), C::Error>
    requires { (f : Mode) (n : ℕ) (v : T.Seen) (bytes : List ℕ) →
        ((T.counting.of_length n).format f).encodes v bytes → length bytes ≡ n }
    ensures { WritesAs C.Error.from_gives W.state W.appends T.seen (rest_codec T.counting).format
        value.now result writer.old writer.new }
{
    value.write_of_length(writer)
}

// Items until the bytes end. Where one takes no byte, none does, and no bytes say how many there are.
fn write_items_to_end<C: Context, T: Writable<C>, W: Writer<C>>(
    items: &[T],
    writer: &mut W,
) -> Result<(), C::Error>
    ensures { WritesAs C.Error.from_gives W.state W.appends (map T.seen)
        (rest_codec (list_counting T.layout)).format items.now result writer.old writer.new }
{
    if take_no_byte(items, writer) {
        return Err(error_out_of_range_length());
    }
    T::write_many(items, writer)
}

// Whether the first item is written in no byte.
#[inline]
fn take_no_byte<C: Context, T: Writable<C>, W: Writer<C>>(items: &[T], writer: &mut W) -> bool
    ensures state { W.state writer.new ≡ W.state writer.old }
    ensures joins { (bytes : List ℕ) (w : W) → W.appends writer.new bytes w → W.appends writer.old bytes w }
    ensures none { let format = T.layout.format (W.state writer.old).mode in
        IsTrue result → TakesNone T.seen format items.now }
    ensures some { let format = T.layout.format (W.state writer.old).mode in
        result ≡ false → TakesBytes T.seen format items.now }
{
    match items.split_first() {
        Some((first, _)) => takes_no_byte(first, writer),
        None => false,
    }
}

// Whether the value is written in no byte.
#[inline]
fn takes_no_byte<C: Context, T: Writable<C>, W: Writer<C>>(value: &T, writer: &mut W) -> bool
    ensures state { W.state writer.new ≡ W.state writer.old }
    ensures joins { (bytes : List ℕ) (w : W) → W.appends writer.new bytes w → W.appends writer.old bytes w }
    ensures none { let format = T.layout.format (W.state writer.old).mode in
        IsTrue result → format.writes (T.seen value.now) [] }
    ensures some { let format = T.layout.format (W.state writer.old).mode in
        result ≡ false → format.writes (T.seen value.now) [] → ⊥ }
{
    match value.bytes_needed(writer.context_mut()) {
        Ok(size) => size == 0,
        Err(_) => false,
    }
}
