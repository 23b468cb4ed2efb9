//! Readers: where values are read from, and the reads that each has.
ghost use Rattle.std.specs.Prelude.{◌≡◌, ℕ, ◌<◌, ◌≤◌, ◌*◌, ◌-◌, ◌^◌, ◌⊎◌, ◌↔◌, IsTrue, List, length};
ghost use Rattle.std.specs.Prelude.{length as count, map, Bool, Option, Some, false, IsOk, IsErrAnd};
ghost use Rattle.std.specs.Borrow.{sem, Lends};
ghost use Rattle.std.specs.Global.{Vec};
ghost use Rattle.std.specs.Io.BufRead.{Rests};
ghost use Rattle.std.specs.Int.{w8, w16, w32, w64, w128};
ghost use Rattle.std.specs.String.{string_bytes};
ghost use Rattle.speedy_base.specs.Error.{error_of};
ghost use Rattle.speedy_layout.specs.Codecs.{unsigned_codec, varint_codec, vector_codec};
ghost use Rattle.speedy_layout.specs.Texts.{text_of_length};
ghost use Rattle.speedy_read.specs.Collections.{gatherer, CollectsValues};
ghost use Rattle.speedy_read.specs.UntilEnd.{ReadsValuesUntilEnd};
ghost use Rattle.speedy_read.specs.Reading.{ReaderState, ReadsAs, ReadsValue, ReadsUnsigned, ReadsSigned, ReadsInto};
ghost use Rattle.speedy_read.specs.Reading.{Skips, PeeksValue, PeeksUnsigned, PeeksSigned, PeeksInto};
ghost use Rattle.speedy_read.specs.Reading.{IsRight, Expects, LendsBytes, LendsAll, LendsUntilUsed, ShowsAll};

use crate::collections::FromItems;
use crate::digits::{peek_number, read_number};
use crate::lent::NothingLent;
use crate::many::FromLent;
use crate::owned_reader::OwnedReader;
use crate::readable::{ReadFrom, ReadMany};
use crate::room::SKIPPED_CHUNK;
use crate::until_end::collect_until_end;
use crate::utf8::vec_to_string;
use speedy_base::context::Context;
use speedy_base::endianness::Endianness;
use speedy_base::error::{ErrorKind, error_end_of_input, error_not_written_form};
use speedy_layout::VarInt64;
use speedy_layout::layout::Layout;
use std::alloc::Global;
use std::convert::AsSlice;

/// Readers, with the calls of each. `L` is what the reader lends to values that borrow.
///
/// That is `&'a [u8]` for one that hands out parts of a buffer. Users name readers by [`Reader`]; a reader of your own
/// implements this trait.
pub trait LendingReader<L: AsSlice<u8> + Drop, C: Context> {
    /// The context that the reader holds.
    ghost at: { Self → C };

    /// The reader with another context.
    ghost with_context: { Self → C → Self };

    /// What reads see of the reader.
    ghost state: { Self → ReaderState };

    /// What the reader says of the number of remaining bytes.
    ghost can_read: { Self → ℕ → Option Bool };

    /// Fills the output with the next bytes. What an error leaves in the output is not said.
    fn read_bytes(&mut self, output: &mut [u8]) -> Result<(), C::Error>
        ensures { ReadsInto C.Error.IsEof state output.old output.new result self.old self.new };

    /// Fills the output with the next bytes, and takes none of them.
    fn peek_bytes(&mut self, output: &mut [u8]) -> Result<(), C::Error>
        ensures { PeeksInto C.Error.IsEof state output.old output.new result self.old self.new };

    /// Skips `length` bytes. This body reads them, a chunk at a time. To skip none is to do nothing.
    fn skip_bytes(&mut self, length: usize) -> Result<(), C::Error>
        ensures reads { Skips C.Error.IsEof state length result self.old self.new }
        ensures nothing { length ≡ 0 → IsOk result × (state self.new ≡ state self.old) }
    {
        let mut chunk = [0; SKIPPED_CHUNK];
        let mut left = length;
        while left > 0 {
            let size = left.min(chunk.len());
            self.read_bytes(&mut chunk[..size])?;
            left -= size;
        }
        Ok(())
    }

    /// Whether at least `size` bytes remain, where the reader knows.
    fn can_read_at_least(&self, size: usize) -> Option<bool>
        ensures says { result ≡ can_read self.now size }
        ensures right { IsRight result (state self.now) size };

    /// Whether at least `size` bytes remain that the reader need not hold, since its source says so. This body
    /// says nothing of the kind.
    #[inline(always)]
    fn expects_at_least(&self, _size: usize) -> bool
        ensures { IsTrue result → Expects (state self.now) _size }
    {
        false
    }

    /// Takes the next `length` bytes and lends them; `None` where the reader lends nothing.
    fn read_bytes_borrowed(&mut self, length: usize) -> Option<Result<L, C::Error>>
        ensures { LendsBytes C.Error.IsEof state L.items length result self.old self.new };

    /// Takes the next bytes and lends them until the reader is used again; `None` where it cannot.
    fn read_bytes_borrowed_from_reader(
        &mut self,
        _length: usize,
    ) -> Option<Result<&[u8], EndOfInput>>
        ensures* after { sem 𝓛 (Rests Self.row self.entry (λ new.
            LendsUntilUsed (λ b. b.now) _length result (state self.old) (state new))) }
    {
        None
    }

    /// Takes all remaining bytes and lends them; `None` where the reader cannot.
    fn read_bytes_borrowed_until_eof(&mut self) -> Option<L>
        ensures { LendsAll L.items result (state self.old) (state self.new) }
    {
        None
    }

    /// All remaining bytes, of which none is taken; `None` where the reader does not hold them. One that lends does.
    fn peek_bytes_until_eof(&self) -> Option<&[u8]>
        ensures { ShowsAll (λ b. b.now) result (state self.now) };

    /// The allocator of values that own memory.
    fn alloc(&self) -> Global;

    /// The context.
    fn context(&self) -> &C
        ensures { result.now ≡ at self.now };

    /// The context, to change it.
    fn context_mut(&mut self) -> &mut C
        ensures* writes_back { sem 𝓛
            (Lends Self.row C.row self.entry result (with_context self.old)) }
        ensures value { result.now ≡ at self.old };

    /// The byte order of numbers.
    final fn endianness(&self) -> Endianness
        ensures { result ≡ (state self.now).mode.order }
    {
        self.context().endianness()
    }

    /// Whether only canonical encodings are read.
    #[inline]
    final fn demands_written_form(&self) -> bool
        ensures { result ≡ (state self.now).mode.strict }
    {
        self.context().demands_written_form()
    }

    /// The next byte as a number in the context's order.
    #[inline(always)]
    final fn read_u8(&mut self) -> Result<u8, C::Error>
        ensures { ReadsUnsigned C.Error.IsEof state 1 result self.old self.new }
    {
        read_number::<u8, L, C, Self>(self)
    }

    /// The next 2 bytes as a number in the context's order.
    #[inline(always)]
    final fn read_u16(&mut self) -> Result<u16, C::Error>
        ensures { ReadsUnsigned C.Error.IsEof state 2 result self.old self.new }
    {
        read_number::<u16, L, C, Self>(self)
    }

    /// The next 4 bytes as a number in the context's order.
    #[inline(always)]
    final fn read_u32(&mut self) -> Result<u32, C::Error>
        ensures { ReadsUnsigned C.Error.IsEof state 4 result self.old self.new }
    {
        read_number::<u32, L, C, Self>(self)
    }

    /// The next 8 bytes as a number in the context's order.
    #[inline(always)]
    final fn read_u64(&mut self) -> Result<u64, C::Error>
        ensures { ReadsUnsigned C.Error.IsEof state 8 result self.old self.new }
    {
        read_number::<u64, L, C, Self>(self)
    }

    /// The next 16 bytes as a number in the context's order.
    #[inline(always)]
    final fn read_u128(&mut self) -> Result<u128, C::Error>
        ensures { ReadsUnsigned C.Error.IsEof state 16 result self.old self.new }
    {
        read_number::<u128, L, C, Self>(self)
    }

    /// The next byte as a signed number.
    #[inline(always)]
    final fn read_i8(&mut self) -> Result<i8, C::Error>
        ensures { ReadsSigned C.Error.IsEof state w8 result self.old self.new }
    {
        read_number::<i8, L, C, Self>(self)
    }

    /// The next 2 bytes as a signed number in the context's order.
    #[inline(always)]
    final fn read_i16(&mut self) -> Result<i16, C::Error>
        ensures { ReadsSigned C.Error.IsEof state w16 result self.old self.new }
    {
        read_number::<i16, L, C, Self>(self)
    }

    /// The next 4 bytes as a signed number in the context's order.
    #[inline(always)]
    final fn read_i32(&mut self) -> Result<i32, C::Error>
        ensures { ReadsSigned C.Error.IsEof state w32 result self.old self.new }
    {
        read_number::<i32, L, C, Self>(self)
    }

    /// The next 8 bytes as a signed number in the context's order.
    #[inline(always)]
    final fn read_i64(&mut self) -> Result<i64, C::Error>
        ensures { ReadsSigned C.Error.IsEof state w64 result self.old self.new }
    {
        read_number::<i64, L, C, Self>(self)
    }

    /// The next 16 bytes as a signed number in the context's order.
    #[inline(always)]
    final fn read_i128(&mut self) -> Result<i128, C::Error>
        ensures { ReadsSigned C.Error.IsEof state w128 result self.old self.new }
    {
        read_number::<i128, L, C, Self>(self)
    }

    /// The next byte, which is not taken.
    #[inline]
    final fn peek_u8(&mut self) -> Result<u8, C::Error>
        ensures { PeeksValue C.Error.IsEof state (λ x. x) (unsigned_codec 1)
            result self.old self.new }
    {
        peek_number::<u8, L, C, Self>(self)
    }

    /// The next 2 bytes as a number in the context's order, which are not taken.
    #[inline]
    final fn peek_u16(&mut self) -> Result<u16, C::Error>
        ensures { PeeksUnsigned C.Error.IsEof state 2 result self.old self.new }
    {
        peek_number::<u16, L, C, Self>(self)
    }

    /// The next 4 bytes as a number in the context's order, which are not taken.
    #[inline]
    final fn peek_u32(&mut self) -> Result<u32, C::Error>
        ensures { PeeksUnsigned C.Error.IsEof state 4 result self.old self.new }
    {
        peek_number::<u32, L, C, Self>(self)
    }

    /// The next 8 bytes as a number in the context's order, which are not taken.
    #[inline]
    final fn peek_u64(&mut self) -> Result<u64, C::Error>
        ensures { PeeksUnsigned C.Error.IsEof state 8 result self.old self.new }
    {
        peek_number::<u64, L, C, Self>(self)
    }

    /// The next 16 bytes as a number in the context's order, which are not taken.
    #[inline]
    final fn peek_u128(&mut self) -> Result<u128, C::Error>
        ensures { PeeksUnsigned C.Error.IsEof state 16 result self.old self.new }
    {
        peek_number::<u128, L, C, Self>(self)
    }

    /// The next byte as a signed number, which is not taken.
    #[inline]
    final fn peek_i8(&mut self) -> Result<i8, C::Error>
        ensures { PeeksSigned C.Error.IsEof state w8 result self.old self.new }
    {
        peek_number::<i8, L, C, Self>(self)
    }

    /// The next 2 bytes as a signed number in the context's order, which are not taken.
    #[inline]
    final fn peek_i16(&mut self) -> Result<i16, C::Error>
        ensures { PeeksSigned C.Error.IsEof state w16 result self.old self.new }
    {
        peek_number::<i16, L, C, Self>(self)
    }

    /// The next 4 bytes as a signed number in the context's order, which are not taken.
    #[inline]
    final fn peek_i32(&mut self) -> Result<i32, C::Error>
        ensures { PeeksSigned C.Error.IsEof state w32 result self.old self.new }
    {
        peek_number::<i32, L, C, Self>(self)
    }

    /// The next 8 bytes as a signed number in the context's order, which are not taken.
    #[inline]
    final fn peek_i64(&mut self) -> Result<i64, C::Error>
        ensures { PeeksSigned C.Error.IsEof state w64 result self.old self.new }
    {
        peek_number::<i64, L, C, Self>(self)
    }

    /// The next 16 bytes as a signed number in the context's order, which are not taken.
    #[inline]
    final fn peek_i128(&mut self) -> Result<i128, C::Error>
        ensures { PeeksSigned C.Error.IsEof state w128 result self.old self.new }
    {
        peek_number::<i128, L, C, Self>(self)
    }

    /// The next integer of variable length, which is encoded alike in both orders. An encoding in more bytes than the
    /// number needs is taken too; under a context that reads only canonical encodings it is the error `NotWrittenForm`.
    #[inline]
    final fn read_u64_varint(&mut self) -> Result<u64, C::Error>
        ensures { ReadsValue C.Error.IsEof state (λ x. x) varint_codec result self.old self.new }
    {
        let first = self.read_u8()?;
        // Most numbers are short: no byte follows, and there is no shorter encoding.
        if first < 128 {
            return Ok(u64::from(first));
        }
        let mut bytes = [0u8; 8];
        let rest = &mut bytes[..VarInt64::length_of(first)];
        self.read_bytes(rest)?;
        let number = VarInt64::decode(first, rest);
        if !number.is_written_with(rest.len()) && self.demands_written_form() {
            return Err(error_not_written_form());
        }
        Ok(u64::from(number))
    }

    /// As [`read_u64_varint`](Self::read_u64_varint), but nothing is taken.
    #[inline]
    final fn peek_u64_varint(&mut self) -> Result<u64, C::Error>
        ensures { PeeksValue C.Error.IsEof state (λ x. x) varint_codec result self.old self.new }
    {
        let first = self.peek_u8()?;
        let mut bytes = [0u8; 9];
        let whole = &mut bytes[..=VarInt64::length_of(first)];
        self.peek_bytes(whole)?;
        let after = &whole[1..];
        let number = VarInt64::decode(first, after);
        if !number.is_written_with(after.len()) && self.demands_written_form() {
            return Err(error_not_written_form());
        }
        Ok(u64::from(number))
    }

    /// The next value.
    #[inline(always)]
    final fn read_value<T: ReadFrom<L, C>>(&mut self) -> Result<T, C::Error>
    where
        Self: Sized,
        ensures { ReadsValue C.Error.IsEof state T.seen T.layout result self.old self.new }
    {
        T::read_from(self)
    }

    /// The next value, of a type that borrows nothing, whatever the reader lends.
    #[inline(always)]
    final fn read_owned_value<T: ReadFrom<NothingLent, C>>(&mut self) -> Result<T, C::Error>
    where
        Self: Sized,
        ensures { ReadsValue C.Error.IsEof state T.seen T.layout result self.old self.new }
    {
        let mut reader: OwnedReader<L, Self> = OwnedReader::new(self);
        let value = T::read_from(&mut reader);
        reader.into_inner();
        value
    }

    /// The next `length` values, into a vector.
    ///
    /// It is `UnexpectedEndOfInput` before any item, and the reader stays as it was, where fewer bytes remain than
    /// `length` items have at least, if the reader says so, and where that many bytes are past `usize::MAX`.
    #[inline(always)]
    final fn read_vec<T: ReadMany<L, C>>(&mut self, length: usize) -> Result<Vec<T>, C::Error>
    where
        Self: Sized,
        ensures reads { ReadsValue C.Error.IsEof state (λ v. map T.seen v.items)
            (vector_codec length T.layout) result self.old self.new }
        ensures early { ((2 ^ 64 ≤ T.layout.least * length)
            ⊎ (can_read self.old (T.layout.least * length) ≡ Some false))
            → IsErrAnd result (λ e. C.Error.from_gives (error_of ErrorKind.UnexpectedEndOfInput) e)
            × (self.new ≡ self.old) }
    {
        if ends_before::<L, C, Self>(self, T::minimum_bytes_needed(), length) {
            return Err(error_end_of_input());
        }
        T::read_many(self, length)
    }

    /// The next `length` values, into a cow or what else they go into: bytes are borrowed where the reader lends, and
    /// all else is owned.
    ///
    /// It is `UnexpectedEndOfInput` before any item where [`read_vec`](Self::read_vec) is.
    #[inline]
    final fn read_cow<W: FromLent<L, T>, T: ReadMany<L, C>>(
        &mut self,
        length: usize,
    ) -> Result<W, C::Error>
    where
        Self: Sized,
        ensures reads { ReadsValue C.Error.IsEof state (λ w. map T.seen (W.shown w))
            (vector_codec length T.layout) result self.old self.new }
        ensures early { ((2 ^ 64 ≤ T.layout.least * length)
            ⊎ (can_read self.old (T.layout.least * length) ≡ Some false))
            → IsErrAnd result (λ e. C.Error.from_gives (error_of ErrorKind.UnexpectedEndOfInput) e)
            × (self.new ≡ self.old) }
    {
        let least = T::minimum_bytes_needed();
        if ends_before::<L, C, Self>(self, least, length) {
            return Err(error_end_of_input());
        }
        T::read_many_cow(self, length)
    }

    /// The next `length` values, gathered to a collection.
    #[inline]
    final fn read_collection<F: FromItems<T>, T: ReadMany<L, C>>(
        &mut self,
        length: usize,
    ) -> Result<F, C::Error>
    where
        Self: Sized,
        ensures { let items = gatherer T.seen F.gathers F.are_written in
            CollectsValues C.Error.IsEof state items T.layout length result self.old self.new }
    {
        T::collect_many(self, length)
    }

    /// The next `length` pairs of a key and a value, gathered to a collection.
    #[inline]
    final fn read_key_value_collection<F: FromItems<(K, V)>, K: ReadFrom<L, C>, V: ReadFrom<L, C>>(
        &mut self,
        length: usize,
    ) -> Result<F, C::Error>
    where
        Self: Sized,
        ensures { let pairs = ⟦<(K, V) as Layout>⟧ in
            let items = gatherer pairs.seen F.gathers F.are_written in
            CollectsValues C.Error.IsEof state items pairs.layout length result self.old self.new }
    {
        <(K, V) as ReadMany<L, C>>::collect_many(self, length)
    }

    /// The values until the bytes end, into a vector.
    ///
    /// Values are read until one fails with an error that says that the input ended (`is_eof`): that is the end, and no
    /// error. A value cut short at the end is left out; every other error is the answer. One value more than are
    /// allowed is the error `OutOfRangeLength`. A device whose failed call answers `UnexpectedEof` ends the values too.
    #[inline]
    final fn read_vec_until_eof<T: ReadFrom<L, C>>(
        &mut self,
        greatest: usize,
    ) -> Result<Vec<T>, C::Error>
    where
        Self: Sized,
        ensures { let gathers : List T → Vec T → Type 0 = λ items v. v.items ≡ items in
            ReadsValuesUntilEnd C.Error.IsEof state T.seen gathers T.layout greatest
            result self.old self.new }
    {
        collect_until_end::<Vec<T>, T, L, C, Self>(self, greatest)
    }

    /// As [`read_vec_until_eof`](Self::read_vec_until_eof), into a cow or what else the values go into, which owns
    /// them.
    #[inline]
    final fn read_cow_until_eof<W: FromLent<L, T>, T: ReadFrom<L, C>>(
        &mut self,
        greatest: usize,
    ) -> Result<W, C::Error>
    where
        Self: Sized,
        ensures { let gathers : List T → W → Type 0 = λ items w. W.shown w ≡ items in
            ReadsValuesUntilEnd C.Error.IsEof state T.seen gathers T.layout greatest
            result self.old self.new }
    {
        Ok(W::from_values(self.read_vec_until_eof(greatest)?))
    }

    /// As [`read_vec_until_eof`](Self::read_vec_until_eof), gathered to a collection. Those that are read are counted,
    /// not those that differ.
    #[inline]
    final fn read_collection_until_eof<F: FromItems<T>, T: ReadFrom<L, C>>(
        &mut self,
        greatest: usize,
    ) -> Result<F, C::Error>
    where
        Self: Sized,
        ensures { ReadsValuesUntilEnd C.Error.IsEof state T.seen F.gathers T.layout greatest
            result self.old self.new }
    {
        collect_until_end::<F, T, L, C, Self>(self, greatest)
    }

    /// A text of `length` bytes. Bytes that are not UTF-8 are the error `InvalidUtf8`.
    #[inline]
    final fn read_string(&mut self, length: usize) -> Result<String, C::Error>
    where
        Self: Sized,
        ensures { ReadsAs C.Error.IsEof state string_bytes (λ f. text_of_length f length)
            result self.old self.new }
    {
        vec_to_string(self.read_vec(length)?)
    }

    /// The mode that reads see is what the context asks.
    ghost mode_at: { (r : Self) → (state r).mode ≡ C.mode (at r) };

    /// Another context changes nothing but the mode.
    ghost state_with: { (r : Self) (c : C) →
        state (with_context r c) ≡ record (state r) { mode = C.mode c } };
}

/// The bytes ended before as many as were to be lent.
#[derive(Clone, Copy, Debug, PartialEq, Eq)]
pub struct EndOfInput {}

/// Readers that may lend parts of their bytes for `'a`.
pub trait Reader<'a, C: Context>: LendingReader<&'a [u8], C> {}

impl<'a, C: Context, R: LendingReader<&'a [u8], C>> Reader<'a, C> for R {}

// Whether it is known before any is read that fewer bytes remain than `length` items have at least.
pub(crate) fn ends_before<L: AsSlice<u8> + Drop, C: Context, R: LendingReader<L, C>>(
    reader: &R,
    least: usize,
    length: usize,
) -> bool
    ensures test { IsTrue result
        ↔ ((2 ^ 64 ≤ least * length) ⊎ (R.can_read reader.now (least * length) ≡ Some false)) }
    ensures fewer { IsTrue result → IsTrue (R.state reader.now).fixed.tells
        → count (R.state reader.now).remaining < 2 ^ 64 - 1
        → count (R.state reader.now).remaining < length * least }
{
    match least.checked_mul(length) {
        Some(size) => reader.can_read_at_least(size) == Some(false),
        None => true,
    }
}
