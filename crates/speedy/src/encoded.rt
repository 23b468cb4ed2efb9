//! Lists that were read and lie encoded where their bytes are (`EncodedList`).
ghost use Rattle.std.specs.Prelude.{◌≡◌, List, length, false, IsErrAnd, IsTrue, ◌↔◌};
ghost use Rattle.std.proofs.Common.{ap};
ghost use Rattle.speedy_base.specs.Error.{error_of, is_eof_error};
ghost use Rattle.speedy_base.specs.Mode.{Mode, plain_mode};
ghost use Rattle.speedy_layout.specs.Codecs.{unsigned_codec, borrowed_codec, list_codec, vector_codec};
ghost use Rattle.speedy_read.specs.Buffers.{bytes_state};
ghost use Rattle.speedy_read.specs.Reading.{RefusesUnsized, ReadsValue};
ghost use Rattle.speedy_write.specs.Writing.{WritesValues};
ghost use Rattle.speedy.specs.InPlace.{encoded_list_in_place};
ghost use Rattle.speedy.specs.EncodedLists.{IsEncodedList, list_once, Measures, WritesFirst};

use crate::in_place::InPlace;
use speedy_base::bytes::bytes_in_range;
use speedy_base::context::Context;
use speedy_base::endianness::Endianness;
use speedy_base::error::{Error, ErrorKind, error_unsized};
use speedy_layout::Layout;
use speedy_read::buffer::Buffer;
use speedy_read::lent::read_lent;
use speedy_read::many::ItemByItem;
use speedy_read::readable::{BufferReader, ReadFrom};
use speedy_read::reader::LendingReader;
use speedy_write::prefixed::WritePrefix;
use speedy_write::{Writable, Writer};
use std::alloc::{AllocError, Global};
use std::fmt;
use std::fmt::{Debug, Formatter, Write};
use std::marker::PhantomData;

// The context that items are measured under: what the reader's context asks of the bytes.
#[derive(Clone, Copy)]
struct InMode {
    order: Endianness,
    strict: bool,
}

impl Context for InMode {
    type Error = Error;

    ghost mode = { λ it. record { order = it.order; strict = it.strict } };

    ghost keeps_eof = { λ e x h. ap is_eof_error h };

    #[inline(always)]
    fn endianness(&self) -> Endianness {
        self.order
    }

    #[inline(always)]
    fn demands_written_form(&self) -> bool {
        self.strict
    }
}

/// Types whose values a list may show where it lies, which can be measured in any bytes.
///
/// A type of your own gives its function from [`measure_items`] of itself. A type that borrows names itself there with
/// the lifetime of the bytes.
pub trait ListItem: InPlace {
    /// How many bytes the first `count` values have that the bytes begin with, one after another, under the context.
    ///
    /// The error is that of a read of these values.
    fn measure<C: Context>(
        alloc: Global,
        context: C,
        count: usize,
        bytes: &[u8],
    ) -> Result<usize, C::Error>
        ensures { Measures C.Error.IsEof Self.in_place.codec (C.mode context) count result
            bytes.now };
}

/// List items that can be written again where they lie.
///
/// A type of your own gives its function from [`write_first_item`] of itself.
pub trait WriteListItem<C: Context>: ListItem {
    /// Writes the value that the bytes begin with, in this byte order, under the writer's context, and says how many of
    /// the bytes encode it. `None` where they begin with none, or where memory lacks for a value that takes some.
    fn write_first<W: Writer<C>>(
        alloc: Global,
        order: Endianness,
        bytes: &[u8],
        writer: &mut W,
    ) -> Option<(usize, Result<(), C::Error>)>
        ensures { WritesFirst C.Error.from_gives W.state W.appends Self.in_place.codec order
            bytes.now result writer.old writer.new };
}

/// How many bytes the first `count` values of a type have that the bytes begin with, one after another: what
/// [`ListItem::measure`] answers.
///
/// Where a value has no bytes, all have none, and the others are not read.
pub fn measure_items<'a, T: ReadFrom<&'a [u8], C>, C: Context>(
    alloc: Global,
    context: C,
    count: usize,
    bytes: &'a [u8],
) -> Result<usize, C::Error>
    ensures { Measures C.Error.IsEof T.layout (C.mode context) count result bytes.now }
{
    bytes_in_range(bytes);
    let length = bytes.len();
    let mut reader = BufferReader::new(alloc, context, bytes);
    for _i in 0..count {
        let before = reader.len();
        let _item = T::read_from(&mut reader)?;
        if reader.len() == before {
            return Ok(length - before);
        }
    }
    Ok(length - reader.len())
}

/// Writes the value of a type that the bytes begin with: what [`WriteListItem::write_first`] answers.
pub fn write_first_item<
    'a,
    T: ReadFrom<&'a [u8], Endianness> + Writable<C>,
    C: Context,
    W: Writer<C>,
>(
    alloc: Global,
    order: Endianness,
    bytes: &'a [u8],
    writer: &mut W,
) -> Option<(usize, Result<(), C::Error>)>
    ensures { WritesFirst C.Error.from_gives W.state W.appends T.layout order bytes.now result
        writer.old writer.new }
{
    let (outcome, size) = bytes.read_with_length::<T>(alloc, order);
    match outcome {
        Ok(value) => Some((size, value.write_to(writer))),
        Err(_) => None,
    }
}

/// A list of values that lies where it was read: `len()` encodings in the byte order `order()`, one after another, and
/// nothing behind them.
///
/// It is encoded as a `Vec<T>` is, and takes no memory: it borrows the bytes of its items, and knows that they encode
/// just one list.
#[derive(Drop)]
pub struct EncodedList<'a, T: InPlace> {
    alloc: Global,
    bytes: &'a [u8],
    count: usize,
    order: Endianness,
    item: PhantomData<T>,
    pub ghost decoded: { IsEncodedList T.in_place.codec order count
        bytes.now } by { list_once T.in_place order count bytes.now },
}

impl<'a, T: InPlace> EncodedList<'a, T> {
    /// The list of `count` items whose encodings the bytes are, one after another, in this byte order.
    #[inline]
    pub fn over(
        alloc: Global,
        bytes: &'a [u8],
        count: usize,
        order: Endianness,
    ) -> EncodedList<'a, T>
        requires { IsEncodedList T.in_place.codec order count bytes.now }
        ensures bytes { result.bytes.now ≡ bytes.now }
        ensures count { result.count ≡ count }
        ensures order { result.order ≡ order }
    {
        EncodedList {
            alloc,
            bytes,
            count,
            order,
            item: PhantomData,
        }
    }

    /// The number of items.
    #[inline]
    pub fn len(&self) -> usize
        ensures count { result ≡ self.now.count }
        ensures items { result ≡ length self.now.decoded.0 }
    {
        self.count
    }

    /// Whether there is no item.
    #[inline]
    pub fn is_empty(&self) -> bool
        ensures { IsTrue result ↔ (self.now.count ≡ 0) }
    {
        self.count == 0
    }

    /// The encodings of the items, one after another.
    #[inline]
    pub fn bytes(&self) -> &'a [u8]
        ensures { result.now ≡ self.now.bytes.now }
    {
        self.bytes
    }

    /// The byte order of the encodings.
    #[inline]
    pub fn order(&self) -> Endianness
        ensures { result ≡ self.now.order }
    {
        self.order
    }

    /// A reader of the items: `len()` reads of a `T` take all of its bytes.
    #[inline]
    pub fn reader(&self) -> BufferReader<'a, Endianness>
        ensures { ⟦<BufferReader<'a, Endianness> as LendingReader<&'a [u8], Endianness>>⟧.state result
            ≡ bytes_state self.now.bytes.now (plain_mode self.now.order) }
    {
        BufferReader::new(self.alloc, self.order, self.bytes)
    }
}

impl<'a, T: InPlace> Copy for EncodedList<'a, T> {}

impl<'a, T: InPlace> Clone for EncodedList<'a, T> {
    ghost is_clone = { λ list copy. copy ≡ list };

    #[inline]
    fn clone(&self) -> Result<EncodedList<'a, T>, AllocError> {
        Ok(*self)
    }
}

/// Prints the number of items and their bytes, which it does not decode.
impl<'a, T: InPlace> Debug for EncodedList<'a, T> {
    fn fmt<W: Write>(&self, f: &mut Formatter<W>) -> fmt::Result {
        f.debug_struct("EncodedList")
            .field("count", &self.count)
            .field("order", &self.order)
            .field("bytes", &self.bytes)
            .finish()
    }
}

impl<'a, T: InPlace> Layout for EncodedList<'a, T> {
    ghost Seen = { List T.Seen };

    ghost seen = { λ it. it.decoded.0 };

    ghost layout = { borrowed_codec (list_codec T.in_place.codec) };
}

impl<'a, T: InPlace> InPlace for EncodedList<'a, T> {
    ghost Seen = { List T.Seen };

    ghost in_place = { encoded_list_in_place T.in_place };
}

impl<'a, C: Context, T: ListItem> ReadFrom<&'a [u8], C> for EncodedList<'a, T> {
    type Strategy = ItemByItem<C>;

    /// Each item is decoded once, and let go. A reader that lends nothing is the error `Unsized`.
    fn read_from<R: LendingReader<&'a [u8], C>>(
        reader: &mut R,
    ) -> Result<EncodedList<'a, T>, C::Error>
        ensures reads { let list = ⟦<EncodedList<'a, T> as Layout>⟧ in
            ReadsValue C.Error.IsEof R.state list.seen list.layout result reader.old reader.new }
        ensures not_lent { RefusesUnsized C.Error.IsEof R.state (unsigned_codec 4)
            result reader.old reader.new }
    {
        let count = reader.read_u32()? as usize;
        read_items(reader, count)
    }

    #[inline]
    fn minimum_bytes_needed() -> usize
        ensures { result ≡ 4 }
    {
        4
    }
}

// A list of so many items. They are measured in all bytes that remain, and then taken.
pub(crate) fn read_items<'a, C: Context, T: ListItem, R: LendingReader<&'a [u8], C>>(
    reader: &mut R,
    count: usize,
) -> Result<EncodedList<'a, T>, C::Error>
    ensures reads { let list = ⟦<EncodedList<'a, T> as Layout>⟧ in
        ReadsValue C.Error.IsEof R.state list.seen
        (borrowed_codec (vector_codec count T.in_place.codec)) result reader.old reader.new }
    ensures not_lent { (R.state reader.old).fixed.lends ≡ false
        → IsErrAnd result (λ e. C.Error.from_gives (error_of ErrorKind.Unsized) e)
        × (R.state reader.new ≡ R.state reader.old) }
{
    // A reader that lends nothing may show its bytes all the same.
    let _nothing = read_lent(reader, 0)?;
    let order = reader.endianness();
    let strict = reader.demands_written_form();
    let Some(rest) = reader.peek_bytes_until_eof() else {
        return Err(error_unsized());
    };
    let size = match T::measure(reader.alloc(), InMode { order, strict }, count, rest) {
        Ok(size) => size,
        Err(error) => return Err(C::Error::from(error)),
    };
    let bytes = read_lent(reader, size)?;
    Ok(EncodedList::over(reader.alloc(), bytes, count, order))
}

impl<'a, C: Context, T: WriteListItem<C>> Writable<C> for EncodedList<'a, T> {
    /// Each item is decoded again, and written under the writer's context.
    fn write_to<W: Writer<C>>(&self, writer: &mut W) -> Result<(), C::Error> {
        <u32 as WritePrefix>::write_number(self.count, writer)?;
        write_items::<T, C, W>(self, writer)
    }
}

// The items, and no number of them.
pub(crate) fn write_items<T: WriteListItem<C>, C: Context, W: Writer<C>>(
    list: &EncodedList<T>,
    writer: &mut W,
) -> Result<(), C::Error>
    ensures { WritesValues C.Error.from_gives W.state W.appends (λ item. item)
        T.in_place.codec list.now.decoded.0 result writer.old writer.new }
{
    let mut rest = list.bytes;
    for _i in 0..list.count {
        let Some((size, outcome)) = T::write_first(list.alloc, list.order, rest, writer) else {
            // The bytes encode the items, and these take no memory.
            unreachable!();
        };
        outcome?;
        rest = rest.split_at(size).1;
    }
    Ok(())
}
