//! How values are read that have all of the bytes, and how a text or a list is that takes the rest of them.
ghost use Rattle.std.specs.Prelude.{⊤, ◌≡◌, ◌*◌, ◌<◌, ℕ, List, length, map, MatchOption};
ghost use Rattle.speedy_base.specs.Mode.{Mode, plain_mode};
ghost use Rattle.speedy_layout.specs.Growing.{some_bytes};
ghost use Rattle.speedy_layout.specs.Lengths.{list_counting};
ghost use Rattle.speedy_layout.specs.Rests.{rest_codec};
ghost use Rattle.speedy_layout.specs.Tuples.{pair};
ghost use Rattle.speedy_layout.specs.Wholes.{followed_misfits};
ghost use Rattle.speedy_read.specs.Reading.{ReadsAs};
ghost use Rattle.speedy_read.specs.Wholes.{ReadsAll, ReadsWhole, AnswersWhole};

use crate::buffer_reader::BufferReader;
use crate::lengths::ReadOfLength;
use crate::many::FromLent;
use crate::memory_reader::MemoryReader;
use crate::readable::{ReadFrom, ReadMany};
use speedy_base::bytes::bytes_in_range;
use speedy_base::context::{Context, PlainContext};
use speedy_base::endianness::Endianness;
use speedy_base::error::{error_out_of_memory, error_out_of_range_length};
use speedy_layout::lengths::OfLength;
use speedy_layout::whole::{EndsItself, EndsWithInput, Followed, Rest, UnlessEnd, Whole};
use std::alloc::Global;
use std::borrow::{CowSlice, CowStr};
use std::boxed::{BoxedSlice, BoxedStr};
use std::convert::AsSlice;

/// Types whose values end where the bytes do. A type of your own that ends so implements this trait.
pub trait ReadToEnd<L: AsSlice<u8> + Drop, C: Context>: Whole + Sized + Drop {
    /// Reads a value that has all remaining bytes.
    fn read_to_end<R: MemoryReader<L, C>>(reader: &mut R) -> Result<Self, C::Error>
        ensures { ReadsAll C.Error.IsEof R.state Self.seen Self.whole result reader.old reader.new };
}

/// How a value of `T` is read that has all of the bytes.
pub trait ReadsEnding<T: Whole, L: AsSlice<u8> + Drop, C: Context> {
    /// Reads a value that has all remaining bytes.
    fn read_ending<R: MemoryReader<L, C>>(reader: &mut R) -> Result<T, C::Error>
        ensures { ReadsAll C.Error.IsEof R.state T.seen T.whole result reader.old reader.new };
}

// Behind the value no byte is left.
impl<T: ReadFrom<L, C>, L: AsSlice<u8> + Drop, C: Context> ReadsEnding<T, L, C> for EndsItself {
    fn read_ending<R: MemoryReader<L, C>>(reader: &mut R) -> Result<T, C::Error> {
        let value = T::read_from(reader)?;
        if reader.left() > 0 {
            return Err(error_out_of_range_length());
        }
        Ok(value)
    }
}

impl<T: ReadToEnd<L, C>, L: AsSlice<u8> + Drop, C: Context> ReadsEnding<T, L, C> for EndsWithInput {
    #[inline]
    fn read_ending<R: MemoryReader<L, C>>(reader: &mut R) -> Result<T, C::Error> {
        T::read_to_end(reader)
    }
}

/// Types that are read from all of the bytes: those that end where the bytes do, and those with a layout, behind which
/// no byte is left.
pub trait ReadWhole<L: AsSlice<u8> + Drop, C: Context>: Whole + Sized + Drop {
    /// Reads a value that has all remaining bytes. Bytes that are left are the error `OutOfRangeLength`.
    fn read_whole<R: MemoryReader<L, C>>(reader: &mut R) -> Result<Self, C::Error>
        ensures { ReadsAll C.Error.IsEof R.state Self.seen Self.whole result reader.old reader.new };
}

impl<L: AsSlice<u8> + Drop, C: Context, T: Whole + Drop> ReadWhole<L, C> for T
where
    <T as Whole>::Ends: ReadsEnding<T, L, C>,
{
    #[inline]
    fn read_whole<R: MemoryReader<L, C>>(reader: &mut R) -> Result<T, C::Error> {
        <<T as Whole>::Ends as ReadsEnding<T, L, C>>::read_ending(reader)
    }
}

/// Types that are read from all bytes of a buffer, with the ways of doing so. They may borrow for `'a`.
pub trait ReadableWhole<'a, C: Context>: ReadWhole<&'a [u8], C> {
    /// Decodes the value that all bytes of the buffer encode, in little endian.
    ///
    /// Bytes that are left behind a value are the error `OutOfRangeLength`.
    fn read_whole_from_buffer(alloc: Global, buffer: &'a [u8]) -> Result<Self, C::Error>
    where
        C: PlainContext,
        ensures { AnswersWhole C.Error.IsEof Self.seen Self.whole
            (plain_mode Endianness.LittleEndian) result buffer.now };

    /// Decodes the value that all bytes of the buffer encode, under the context.
    ///
    /// Bytes that are left behind a value are the error `OutOfRangeLength`.
    fn read_whole_from_buffer_with_ctx(
        alloc: Global,
        context: C,
        buffer: &'a [u8],
    ) -> Result<Self, C::Error>
        ensures { AnswersWhole C.Error.IsEof Self.seen Self.whole (C.mode context) result buffer.now };
}

impl<'a, C: Context, T: ReadWhole<&'a [u8], C>> ReadableWhole<'a, C> for T {
    fn read_whole_from_buffer(alloc: Global, buffer: &'a [u8]) -> Result<Self, C::Error>
    where
        C: PlainContext,
    {
        Self::read_whole_from_buffer_with_ctx(alloc, C::plain(), buffer)
    }

    fn read_whole_from_buffer_with_ctx(
        alloc: Global,
        context: C,
        buffer: &'a [u8],
    ) -> Result<Self, C::Error> {
        bytes_in_range(buffer);
        let mut reader = BufferReader::new(alloc, context, buffer);
        Self::read_whole(&mut reader)
    }
}

// Parts with a layout, and then a value that has what is left. In line, LLVM lays zeros for large parts and moves them
// once more for each function around this.
impl<L: AsSlice<u8> + Drop, C: Context, A: ReadFrom<L, C>, W: ReadWhole<L, C>> ReadToEnd<L, C>
    for Followed<A, W> {
    #[inline(never)]
    fn read_to_end<R: MemoryReader<L, C>>(reader: &mut R) -> Result<Followed<A, W>, C::Error> {
        let first = A::read_from(reader)?;
        let rest = W::read_whole(reader)?;
        Ok(Followed(first, rest))
    }
}

impl<L: AsSlice<u8> + Drop, C: Context, A: ReadFrom<L, C>, W: ReadWhole<L, C>> ReadToEnd<L, C>
    for UnlessEnd<A, W> {
    #[inline]
    fn read_to_end<R: MemoryReader<L, C>>(reader: &mut R) -> Result<UnlessEnd<A, W>, C::Error> {
        if reader.left() == 0 {
            return Ok(UnlessEnd(None));
        }
        match read_present(reader) {
            Ok(parts) => Ok(UnlessEnd(Some(parts))),
            Err(error) => Err(error),
        }
    }
}

// A part that takes bytes, and all behind it.
#[inline]
fn read_present<
    A: ReadFrom<L, C>,
    W: ReadWhole<L, C>,
    L: AsSlice<u8> + Drop,
    C: Context,
    R: MemoryReader<L, C>,
>(reader: &mut R) -> Result<(A, W), C::Error>
    ensures { let mode = (R.state reader.old).mode in
        ReadsWhole C.Error.from_gives C.Error.eof (λ parts. (A.seen parts.0, W.seen parts.1))
        (pair (some_bytes (A.layout.format mode)) (W.whole.format mode))
        (followed_misfits (some_bytes (A.layout.format mode)) (W.whole.misfits mode)) result
        (R.state reader.old) (R.state reader.new) }
{
    let first = read_some(reader)?;
    let rest = W::read_whole(reader)?;
    Ok((first, rest))
}

// A value that takes bytes.
#[inline]
fn read_some<A: ReadFrom<L, C>, L: AsSlice<u8> + Drop, C: Context, R: MemoryReader<L, C>>(
    reader: &mut R,
) -> Result<A, C::Error>
    ensures { ReadsAs C.Error.IsEof R.state A.seen (λ f. some_bytes (A.layout.format f)) result
        reader.old reader.new }
{
    let left = reader.left();
    let value = A::read_from(reader)?;
    if reader.left() == left {
        return Err(error_out_of_range_length());
    }
    Ok(value)
}

/// How texts and lists are read that are the rest of the bytes, where `L` is what the reader lends.
pub trait ReadRest<L: AsSlice<u8> + Drop, C: Context>: OfLength + Sized + Drop {
    /// Reads a value that has all remaining bytes.
    fn read_rest<R: MemoryReader<L, C>>(reader: &mut R) -> Result<Self, C::Error>
        ensures { ReadsAll C.Error.IsEof R.state Self.seen (rest_codec Self.counting) result
            reader.old reader.new };
}

impl<L: AsSlice<u8> + Drop, C: Context, T: ReadRest<L, C>> ReadToEnd<L, C> for Rest<T> {
    #[inline]
    fn read_to_end<R: MemoryReader<L, C>>(reader: &mut R) -> Result<Rest<T>, C::Error> {
        match T::read_rest(reader) {
            Ok(value) => Ok(Rest(value)),
            Err(error) => Err(error),
        }
    }
}

impl<L: AsSlice<u8> + Drop, C: Context> ReadRest<L, C> for String {
    #[inline]
    fn read_rest<R: MemoryReader<L, C>>(reader: &mut R) -> Result<String, C::Error> {
        read_bytewise(reader)
    }
}

impl<L: AsSlice<u8> + Drop, C: Context> ReadRest<L, C> for BoxedStr {
    #[inline]
    fn read_rest<R: MemoryReader<L, C>>(reader: &mut R) -> Result<BoxedStr, C::Error> {
        read_bytewise(reader)
    }
}

// It points into the bytes that the reader lends.
impl<'a, C: Context> ReadRest<&'a [u8], C> for &'a str {
    #[inline]
    fn read_rest<R: MemoryReader<&'a [u8], C>>(reader: &mut R) -> Result<&'a str, C::Error> {
        read_bytewise(reader)
    }
}

// It points into the bytes that the reader lends, and is owned where it lends nothing.
impl<'a, C: Context> ReadRest<&'a [u8], C> for CowStr<'a> {
    #[inline]
    fn read_rest<R: MemoryReader<&'a [u8], C>>(reader: &mut R) -> Result<CowStr<'a>, C::Error> {
        read_bytewise(reader)
    }
}

// They point into the bytes that the reader lends.
impl<'a, C: Context> ReadRest<&'a [u8], C> for &'a [u8] {
    #[inline]
    fn read_rest<R: MemoryReader<&'a [u8], C>>(reader: &mut R) -> Result<&'a [u8], C::Error> {
        read_bytewise(reader)
    }
}

impl<L: AsSlice<u8> + Drop, C: Context, T: ReadMany<L, C>> ReadRest<L, C> for Vec<T> {
    #[inline]
    fn read_rest<R: MemoryReader<L, C>>(reader: &mut R) -> Result<Vec<T>, C::Error> {
        read_items_to_end(reader)
    }
}

impl<L: AsSlice<u8> + Drop, C: Context, T: ReadMany<L, C>> ReadRest<L, C> for BoxedSlice<T> {
    #[inline]
    fn read_rest<R: MemoryReader<L, C>>(reader: &mut R) -> Result<BoxedSlice<T>, C::Error> {
        let items: Vec<T> = read_items_to_end(reader)?;
        Ok(items.into_boxed_slice())
    }
}

// Bytes point into those that the reader lends; other items are owned.
impl<'a, C: Context, T: ReadMany<&'a [u8], C> + 'a> ReadRest<&'a [u8], C> for CowSlice<'a, T> {
    #[inline]
    fn read_rest<R: MemoryReader<&'a [u8], C>>(
        reader: &mut R,
    ) -> Result<CowSlice<'a, T>, C::Error> {
        read_items_to_end(reader)
    }
}

// What is as long as the bytes are that are left: a text, or bytes.
#[inline]
fn read_bytewise<T: ReadOfLength<L, C>, L: AsSlice<u8> + Drop, C: Context, R: MemoryReader<L, C>>(
    reader: &mut R,
) -> Result<T, C::Error>
    requires { (f : Mode) (n : ℕ) (v : T.Seen) (bytes : List ℕ) →
        ((T.counting.of_length n).format f).encodes v bytes → length bytes ≡ n }
    ensures { ReadsAll C.Error.IsEof R.state T.seen (rest_codec T.counting) result
        reader.old reader.new }
{
    let length = reader.left();
    T::read_of_length(reader, length)
}

// How many items of this size so many bytes are, where no part of one is left over.
#[inline]
fn whole_items(size: Option<usize>, bytes: usize) -> Option<usize>
    ensures { MatchOption result ⊤ (λ count. MatchOption size ⊥ (λ each. (0 < each) × (count * each ≡ bytes))) }
{
    let each = size?;
    if each == 0 || bytes % each != 0 {
        return None;
    }
    Some(bytes / each)
}

// Items until no byte is left: at once, where each has as many bytes and the last one has all of its own.
#[inline]
fn read_items_to_end<
    W: FromLent<L, T>,
    T: ReadMany<L, C>,
    L: AsSlice<u8> + Drop,
    C: Context,
    R: MemoryReader<L, C>,
>(reader: &mut R) -> Result<W, C::Error>
    ensures { ReadsAll C.Error.IsEof R.state (λ w. map T.seen (W.shown w))
        (rest_codec (list_counting T.layout)) result reader.old reader.new }
{
    let size = T::size_of_each();
    let left = reader.left();
    if let Some(count) = whole_items(size, left) {
        return T::read_many_cow::<W, R>(reader, count);
    }
    let items = read_each_to_end::<T, L, C, R>(reader)?;
    Ok(W::from_values(items))
}

// Items until no byte is left, one by one. One that takes no byte would never end.
fn read_each_to_end<T: ReadFrom<L, C>, L: AsSlice<u8> + Drop, C: Context, R: MemoryReader<L, C>>(
    reader: &mut R,
) -> Result<Vec<T>, C::Error>
    ensures { ReadsAll C.Error.IsEof R.state (λ v. map T.seen v.items)
        (rest_codec (list_counting T.layout)) result reader.old reader.new }
{
    let mut items = Vec::new(reader.alloc());
    let mut left = reader.left();
    while left > 0 {
        let item = T::read_from(reader)?;
        let behind = reader.left();
        if behind == left {
            return Err(error_out_of_range_length());
        }
        left = behind;
        if items.push(item).is_err() {
            return Err(error_out_of_memory());
        }
    }
    Ok(items)
}
