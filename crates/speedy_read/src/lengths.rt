//! How parts are read, and behind them a text, a list, a map or a set of the length that they tell; and how lengths are
//! compared.
ghost use Rattle.std.specs.Prelude.{◌≡◌, ℕ, ◌↔◌, IsTrue, IfOk};
ghost use Rattle.speedy_layout.specs.Lengths.{told_codec};
ghost use Rattle.speedy_read.specs.BehindCounts.{counted};
ghost use Rattle.speedy_read.specs.Reading.{ReadsAs, ReadsValue};

use crate::lent::read_lent;
use crate::many::ItemByItem;
use crate::prefixed::ReadPrefix;
use crate::readable::{ReadFrom, ReadMany};
use crate::reader::LendingReader;
use crate::utf8::{bytes_to_str, cow_bytes_to_cow_str};
use speedy_base::context::Context;
use speedy_base::error::error_out_of_range_length;
use speedy_layout::lengths::{Holds, Length, OfLength, Other, WithLength};
use std::borrow::{CowSlice, CowStr};
use std::boxed::{BoxedSlice, BoxedStr};
use std::convert::AsSlice;
use std::marker::PhantomData;

/// How texts, lists, maps and sets of a length are read, where `L` is what the reader lends.
pub trait ReadOfLength<L: AsSlice<u8> + Drop, C: Context>: OfLength + Sized + Drop {
    /// Reads a value of the length.
    fn read_of_length<R: LendingReader<L, C>>(
        reader: &mut R,
        length: usize,
    ) -> Result<Self, C::Error>
        ensures { ReadsValue C.Error.IsEof R.state Self.seen (Self.counting.of_length length) result
            reader.old reader.new };
}

// Reads a length as a number of the type `N`, and then a value of that length.
#[inline]
pub(crate) fn read_counted<
    N: ReadPrefix,
    T: ReadOfLength<L, C>,
    L: AsSlice<u8> + Drop,
    C: Context,
    R: LendingReader<L, C>,
>(reader: &mut R) -> Result<T, C::Error>
    ensures { ReadsAs C.Error.IsEof R.state T.seen (counted N.numbers.codec T.counting) result
        reader.old reader.new }
{
    let length = N::read_number(reader)?;
    T::read_of_length(reader, length)
}

impl<L: AsSlice<u8> + Drop, C: Context> ReadOfLength<L, C> for String {
    #[inline]
    fn read_of_length<R: LendingReader<L, C>>(
        reader: &mut R,
        length: usize,
    ) -> Result<String, C::Error> {
        reader.read_string(length)
    }
}

impl<L: AsSlice<u8> + Drop, C: Context> ReadOfLength<L, C> for BoxedStr {
    #[inline]
    fn read_of_length<R: LendingReader<L, C>>(
        reader: &mut R,
        length: usize,
    ) -> Result<BoxedStr, C::Error> {
        let text = reader.read_string(length)?;
        Ok(text.into_boxed_str())
    }
}

// It points into the bytes that the reader lends.
impl<'a, C: Context> ReadOfLength<&'a [u8], C> for &'a str {
    #[inline]
    fn read_of_length<R: LendingReader<&'a [u8], C>>(
        reader: &mut R,
        length: usize,
    ) -> Result<&'a str, C::Error>
        ensures { let text = ⟦<&'a str as OfLength>⟧ in
            ReadsValue C.Error.IsEof R.state text.seen (text.counting.of_length length) result
            reader.old reader.new }
    {
        let bytes = read_lent(reader, length)?;
        bytes_to_str(bytes)
    }
}

// It points into the bytes that the reader lends, and is owned where it lends nothing.
impl<'a, C: Context> ReadOfLength<&'a [u8], C> for CowStr<'a> {
    #[inline]
    fn read_of_length<R: LendingReader<&'a [u8], C>>(
        reader: &mut R,
        length: usize,
    ) -> Result<CowStr<'a>, C::Error> {
        let bytes: CowSlice<'a, u8> = reader.read_cow(length)?;
        cow_bytes_to_cow_str(bytes)
    }
}

impl<L: AsSlice<u8> + Drop, C: Context, T: ReadMany<L, C>> ReadOfLength<L, C> for Vec<T> {
    #[inline]
    fn read_of_length<R: LendingReader<L, C>>(
        reader: &mut R,
        length: usize,
    ) -> Result<Vec<T>, C::Error> {
        reader.read_vec(length)
    }
}

impl<L: AsSlice<u8> + Drop, C: Context, T: ReadMany<L, C>> ReadOfLength<L, C> for BoxedSlice<T> {
    #[inline]
    fn read_of_length<R: LendingReader<L, C>>(
        reader: &mut R,
        length: usize,
    ) -> Result<BoxedSlice<T>, C::Error> {
        let items = reader.read_vec(length)?;
        Ok(items.into_boxed_slice())
    }
}

// They point into the bytes that the reader lends.
impl<'a, C: Context> ReadOfLength<&'a [u8], C> for &'a [u8] {
    #[inline]
    fn read_of_length<R: LendingReader<&'a [u8], C>>(
        reader: &mut R,
        length: usize,
    ) -> Result<&'a [u8], C::Error>
        ensures { let bytes = ⟦<&'a [u8] as OfLength>⟧ in
            ReadsValue C.Error.IsEof R.state bytes.seen (bytes.counting.of_length length) result
            reader.old reader.new }
    {
        read_lent(reader, length)
    }
}

// Bytes point into those that the reader lends; other items are owned.
impl<'a, C: Context, T: ReadMany<&'a [u8], C> + 'a> ReadOfLength<&'a [u8], C> for CowSlice<'a, T> {
    #[inline]
    fn read_of_length<R: LendingReader<&'a [u8], C>>(
        reader: &mut R,
        length: usize,
    ) -> Result<CowSlice<'a, T>, C::Error> {
        reader.read_cow(length)
    }
}

/// How parts are read that hold numbers.
pub trait ReadHolds<L: AsSlice<u8> + Drop, C: Context>: Holds + Sized + Drop {
    /// Reads the parts.
    fn read_parts<R: LendingReader<L, C>>(reader: &mut R) -> Result<Self, C::Error>
        ensures { ReadsValue C.Error.IsEof R.state Self.seen Self.layout result
            reader.old reader.new };

    /// The least size of the parts.
    fn least_size() -> usize
        ensures { result ≡ Self.layout.least };
}

impl<L: AsSlice<u8> + Drop, C: Context> ReadHolds<L, C> for u8 {
    #[inline]
    fn read_parts<R: LendingReader<L, C>>(reader: &mut R) -> Result<u8, C::Error> {
        reader.read_value()
    }

    #[inline]
    fn least_size() -> usize {
        1
    }
}

impl<L: AsSlice<u8> + Drop, C: Context> ReadHolds<L, C> for u16 {
    #[inline]
    fn read_parts<R: LendingReader<L, C>>(reader: &mut R) -> Result<u16, C::Error> {
        reader.read_value()
    }

    #[inline]
    fn least_size() -> usize {
        2
    }
}

impl<L: AsSlice<u8> + Drop, C: Context> ReadHolds<L, C> for u32 {
    #[inline]
    fn read_parts<R: LendingReader<L, C>>(reader: &mut R) -> Result<u32, C::Error> {
        reader.read_value()
    }

    #[inline]
    fn least_size() -> usize {
        4
    }
}

impl<L: AsSlice<u8> + Drop, C: Context> ReadHolds<L, C> for u64 {
    #[inline]
    fn read_parts<R: LendingReader<L, C>>(reader: &mut R) -> Result<u64, C::Error> {
        reader.read_value()
    }

    #[inline]
    fn least_size() -> usize {
        8
    }
}

impl<L: AsSlice<u8> + Drop, C: Context> ReadHolds<L, C> for usize {
    #[inline]
    fn read_parts<R: LendingReader<L, C>>(reader: &mut R) -> Result<usize, C::Error> {
        reader.read_value()
    }

    #[inline]
    fn least_size() -> usize {
        8
    }
}

impl<L: AsSlice<u8> + Drop, C: Context> ReadHolds<L, C> for i8 {
    #[inline]
    fn read_parts<R: LendingReader<L, C>>(reader: &mut R) -> Result<i8, C::Error> {
        reader.read_value()
    }

    #[inline]
    fn least_size() -> usize {
        1
    }
}

impl<L: AsSlice<u8> + Drop, C: Context> ReadHolds<L, C> for i16 {
    #[inline]
    fn read_parts<R: LendingReader<L, C>>(reader: &mut R) -> Result<i16, C::Error> {
        reader.read_value()
    }

    #[inline]
    fn least_size() -> usize {
        2
    }
}

impl<L: AsSlice<u8> + Drop, C: Context> ReadHolds<L, C> for i32 {
    #[inline]
    fn read_parts<R: LendingReader<L, C>>(reader: &mut R) -> Result<i32, C::Error> {
        reader.read_value()
    }

    #[inline]
    fn least_size() -> usize {
        4
    }
}

impl<L: AsSlice<u8> + Drop, C: Context> ReadHolds<L, C> for i64 {
    #[inline]
    fn read_parts<R: LendingReader<L, C>>(reader: &mut R) -> Result<i64, C::Error> {
        reader.read_value()
    }

    #[inline]
    fn least_size() -> usize {
        8
    }
}

impl<L: AsSlice<u8> + Drop, C: Context, T: ReadFrom<L, C>> ReadHolds<L, C> for Other<T> {
    #[inline]
    fn read_parts<R: LendingReader<L, C>>(reader: &mut R) -> Result<Other<T>, C::Error> {
        let value = reader.read_value()?;
        Ok(Other(value))
    }

    #[inline]
    fn least_size() -> usize {
        T::minimum_bytes_needed()
    }
}

impl<L: AsSlice<u8> + Drop, C: Context, A: ReadHolds<L, C>, B: ReadHolds<L, C>> ReadHolds<L, C>
    for (A, B) {
    #[inline]
    fn read_parts<R: LendingReader<L, C>>(reader: &mut R) -> Result<(A, B), C::Error> {
        let first = A::read_parts(reader)?;
        let second = B::read_parts(reader)?;
        Ok((first, second))
    }

    #[inline]
    fn least_size() -> usize {
        A::least_size().saturating_add(B::least_size())
    }
}

impl<
    L: AsSlice<u8> + Drop,
    C: Context,
    B: ReadHolds<L, C>,
    K: Length<B::Numbers>,
    T: ReadOfLength<L, C>,
> ReadHolds<L, C> for WithLength<K, B, T> {
    #[inline]
    fn read_parts<R: LendingReader<L, C>>(reader: &mut R) -> Result<WithLength<K, B, T>, C::Error> {
        reader.read_value()
    }

    #[inline]
    fn least_size() -> usize {
        B::least_size()
    }
}

impl<
    L: AsSlice<u8> + Drop,
    C: Context,
    B: ReadHolds<L, C>,
    K: Length<B::Numbers>,
    T: ReadOfLength<L, C>,
> ReadFrom<L, C> for WithLength<K, B, T> {
    type Strategy = ItemByItem<C>;

    #[inline]
    fn read_from<R: LendingReader<L, C>>(reader: &mut R) -> Result<WithLength<K, B, T>, C::Error> {
        let (before, length) = read_told::<K, B, L, C, R>(reader)?;
        let value = T::read_of_length(reader, length)?;
        Ok(WithLength {
            before,
            value,
            length: PhantomData,
        })
    }

    #[inline]
    fn minimum_bytes_needed() -> usize {
        B::least_size()
    }
}

/// Reads the parts, and answers the length that their numbers tell too. Where they tell none, the error is
/// `OutOfRangeLength`.
#[inline]
pub fn read_told<
    K: Length<B::Numbers>,
    B: ReadHolds<L, C>,
    L: AsSlice<u8> + Drop,
    C: Context,
    R: LendingReader<L, C>,
>(reader: &mut R) -> Result<(B, usize), C::Error>
    ensures reads { ReadsValue C.Error.IsEof R.state (λ read. B.seen read.0)
        (told_codec K.is_told B.numbers B.layout) result reader.old reader.new }
    ensures length { IfOk result (λ read. read.1 ≡ K.told (B.numbers (B.seen read.0))) }
{
    let before = B::read_parts(reader)?;
    match K::length(before.numbers()) {
        Some(length) => Ok((before, length)),
        None => Err(error_out_of_range_length()),
    }
}

/// What a length may be given as: a number that a `usize` holds, or a reference to one.
pub trait IntoLength {
    /// The number.
    ghost number: { Self → ℕ };

    /// The length as a `usize`.
    fn into_length(self) -> usize
        ensures { result ≡ number self };
}

impl IntoLength for usize {
    ghost number = { λ n. n };

    #[inline]
    fn into_length(self) -> usize {
        self
    }
}

impl IntoLength for u32 {
    ghost number = { λ n. n };

    #[inline]
    fn into_length(self) -> usize {
        self as usize
    }
}

impl IntoLength for u16 {
    ghost number = { λ n. n };

    #[inline]
    fn into_length(self) -> usize {
        usize::from(self)
    }
}

impl IntoLength for u8 {
    ghost number = { λ n. n };

    #[inline]
    fn into_length(self) -> usize {
        usize::from(self)
    }
}

impl<'a, T: IntoLength + Copy> IntoLength for &'a T {
    ghost number = { λ r. T.number r.now };

    #[inline]
    fn into_length(self) -> usize {
        (*self).into_length()
    }
}

impl<'a, T: IntoLength + Copy> IntoLength for &'a mut T {
    ghost number = { λ r. T.number r.now };

    #[inline]
    fn into_length(self) -> usize {
        (*self).into_length()
    }
}

/// Whether both lengths are equal.
#[inline]
pub fn are_lengths_the_same<T: IntoLength>(lhs: usize, rhs: T) -> bool
    ensures { IsTrue result ↔ (lhs ≡ T.number rhs) }
{
    lhs == rhs.into_length()
}
