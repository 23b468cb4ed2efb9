//! How lengths and tags of each width are read, and behind them what they tell of.
ghost use Rattle.std.specs.Prelude.{◌≡◌};
ghost use Rattle.speedy_layout.specs.Codecs.{varint_codec};
ghost use Rattle.speedy_layout.specs.Numbers.{length_number};
ghost use Rattle.speedy_layout.specs.Prefixed.{prefixed_codec};
ghost use Rattle.speedy_read.specs.Reading.{ReadsUnsigned, ReadsAs, ReadsValue};

use crate::many::ItemByItem;
use crate::readable::ReadFrom;
use crate::reader::LendingReader;
use speedy_base::context::Context;
use speedy_base::error::error_out_of_range_length;
use speedy_layout::prefixed::{Prefix, Prefixed, Told, U7, U7_MAX};
use speedy_layout::varint::VarInt64;
use std::convert::AsSlice;
use std::marker::PhantomData;

/// How the numbers of a type are read.
pub trait ReadPrefix: Prefix {
    /// Reads a number.
    fn read_number<L: AsSlice<u8> + Drop, C: Context, R: LendingReader<L, C>>(
        reader: &mut R,
    ) -> Result<usize, C::Error>
        ensures { ReadsValue C.Error.IsEof R.state (λ n. n) Self.numbers.codec result
            reader.old reader.new };

    /// The least size of a number in bytes.
    fn least_size() -> usize
        ensures { result ≡ Self.numbers.codec.least };
}

impl ReadPrefix for u8 {
    #[inline]
    fn read_number<L: AsSlice<u8> + Drop, C: Context, R: LendingReader<L, C>>(
        reader: &mut R,
    ) -> Result<usize, C::Error> {
        read_length_u8(reader)
    }

    #[inline]
    fn least_size() -> usize {
        1
    }
}

impl ReadPrefix for u16 {
    #[inline]
    fn read_number<L: AsSlice<u8> + Drop, C: Context, R: LendingReader<L, C>>(
        reader: &mut R,
    ) -> Result<usize, C::Error> {
        read_length_u16(reader)
    }

    #[inline]
    fn least_size() -> usize {
        2
    }
}

impl ReadPrefix for u32 {
    #[inline]
    fn read_number<L: AsSlice<u8> + Drop, C: Context, R: LendingReader<L, C>>(
        reader: &mut R,
    ) -> Result<usize, C::Error> {
        read_length_u32(reader)
    }

    #[inline]
    fn least_size() -> usize {
        4
    }
}

impl ReadPrefix for u64 {
    #[inline]
    fn read_number<L: AsSlice<u8> + Drop, C: Context, R: LendingReader<L, C>>(
        reader: &mut R,
    ) -> Result<usize, C::Error> {
        read_length_u64(reader)
    }

    #[inline]
    fn least_size() -> usize {
        8
    }
}

impl ReadPrefix for VarInt64 {
    #[inline]
    fn read_number<L: AsSlice<u8> + Drop, C: Context, R: LendingReader<L, C>>(
        reader: &mut R,
    ) -> Result<usize, C::Error> {
        read_length_u64_varint(reader)
    }

    #[inline]
    fn least_size() -> usize {
        1
    }
}

impl ReadPrefix for U7 {
    #[inline]
    fn read_number<L: AsSlice<u8> + Drop, C: Context, R: LendingReader<L, C>>(
        reader: &mut R,
    ) -> Result<usize, C::Error> {
        read_length_u7(reader)
    }

    #[inline]
    fn least_size() -> usize {
        1
    }
}

/// How what a number tells of is read, where `L` is what the reader lends.
pub trait ReadTold<L: AsSlice<u8> + Drop, C: Context>: Told + Sized + Drop {
    /// Reads a number of the type `N`, and what it tells of.
    fn read_behind<N: ReadPrefix, R: LendingReader<L, C>>(reader: &mut R) -> Result<Self, C::Error>
        ensures { ReadsValue C.Error.IsEof R.state Self.seen (prefixed_codec (Self.behind N.numbers))
            result reader.old reader.new };
}

impl<L: AsSlice<u8> + Drop, C: Context, N: ReadPrefix + Drop, T: ReadTold<L, C>> ReadFrom<L, C>
    for Prefixed<N, T> {
    type Strategy = ItemByItem<C>;

    #[inline]
    fn read_from<R: LendingReader<L, C>>(reader: &mut R) -> Result<Self, C::Error> {
        let value = T::read_behind::<N, R>(reader)?;
        Ok(Prefixed {
            value,
            number: PhantomData,
        })
    }

    #[inline]
    fn minimum_bytes_needed() -> usize {
        N::least_size()
    }
}

/// Reads a length that is a `u32`.
#[inline]
pub fn read_length<L: AsSlice<u8> + Drop, C: Context, R: LendingReader<L, C>>(
    reader: &mut R,
) -> Result<usize, C::Error>
    ensures { ReadsUnsigned C.Error.IsEof R.state 4 result reader.old reader.new }
{
    read_length_u32(reader)
}

/// Reads a length that is a byte of at most 127. Any other is the error `OutOfRangeLength`.
#[inline]
pub fn read_length_u7<L: AsSlice<u8> + Drop, C: Context, R: LendingReader<L, C>>(
    reader: &mut R,
) -> Result<usize, C::Error>
    ensures { ReadsAs C.Error.IsEof R.state (λ n. n) (length_number 1 127)
        result reader.old reader.new }
{
    let length = reader.read_u8()?;
    if length > U7_MAX {
        return Err(error_out_of_range_length());
    }
    Ok(usize::from(length))
}

/// Reads a length that is a `u8`.
#[inline]
pub fn read_length_u8<L: AsSlice<u8> + Drop, C: Context, R: LendingReader<L, C>>(
    reader: &mut R,
) -> Result<usize, C::Error>
    ensures { ReadsUnsigned C.Error.IsEof R.state 1 result reader.old reader.new }
{
    Ok(usize::from(reader.read_u8()?))
}

/// Reads a length that is a `u16`, in the context's order.
#[inline]
pub fn read_length_u16<L: AsSlice<u8> + Drop, C: Context, R: LendingReader<L, C>>(
    reader: &mut R,
) -> Result<usize, C::Error>
    ensures { ReadsUnsigned C.Error.IsEof R.state 2 result reader.old reader.new }
{
    Ok(usize::from(reader.read_u16()?))
}

/// Reads a length that is a `u32`, in the context's order.
#[inline]
pub fn read_length_u32<L: AsSlice<u8> + Drop, C: Context, R: LendingReader<L, C>>(
    reader: &mut R,
) -> Result<usize, C::Error>
    ensures { ReadsUnsigned C.Error.IsEof R.state 4 result reader.old reader.new }
{
    Ok(reader.read_u32()? as usize)
}

/// Reads a length that is a `u64`, in the context's order. A `usize` has 64 bits, so none is past it.
#[inline]
pub fn read_length_u64<L: AsSlice<u8> + Drop, C: Context, R: LendingReader<L, C>>(
    reader: &mut R,
) -> Result<usize, C::Error>
    ensures { ReadsUnsigned C.Error.IsEof R.state 8 result reader.old reader.new }
{
    Ok(reader.read_u64()? as usize)
}

/// Reads a length that is an integer of variable length. A `usize` has 64 bits, so none is past it.
#[inline]
pub fn read_length_u64_varint<L: AsSlice<u8> + Drop, C: Context, R: LendingReader<L, C>>(
    reader: &mut R,
) -> Result<usize, C::Error>
    ensures { ReadsValue C.Error.IsEof R.state (λ n. n) varint_codec result reader.old reader.new }
{
    Ok(reader.read_u64_varint()? as usize)
}
