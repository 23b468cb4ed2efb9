//! How lengths and tags are written, which are refused past their width, and behind them what they tell of.
ghost use Rattle.std.specs.Prelude.{◌^◌};
ghost use Rattle.speedy_layout.specs.Numbers.{unsigned_number, length_number};
ghost use Rattle.speedy_layout.specs.Prefixed.{prefixed_codec};
ghost use Rattle.speedy_layout.specs.Varint.{varint};
ghost use Rattle.speedy_write.specs.Lengths.{WritesLength};
ghost use Rattle.speedy_write.specs.Writing.{WritesValue};

use crate::writable::Writable;
use crate::writer::Writer;
use speedy_base::context::Context;
use speedy_base::error::error_out_of_range_length;
use speedy_layout::prefixed::{Prefix, Prefixed, Told, U7, U7_MAX};
use speedy_layout::varint::VarInt64;

/// How the numbers of a type are written: by the function of that type below, which the original has too.
pub trait WritePrefix: Prefix {
    /// Writes a number. One that is too great is the error `OutOfRangeLength`.
    fn write_number<C: Context, W: Writer<C>>(number: usize, writer: &mut W) -> Result<(), C::Error>
        ensures { WritesValue C.Error.from_gives W.state W.appends (λ n. n) Self.numbers.codec
            number result writer.old writer.new };
}

impl WritePrefix for u8 {
    #[inline]
    fn write_number<C: Context, W: Writer<C>>(
        number: usize,
        writer: &mut W,
    ) -> Result<(), C::Error> {
        write_length_u8(number, writer)
    }
}

impl WritePrefix for u16 {
    #[inline]
    fn write_number<C: Context, W: Writer<C>>(
        number: usize,
        writer: &mut W,
    ) -> Result<(), C::Error> {
        write_length_u16(number, writer)
    }
}

impl WritePrefix for u32 {
    #[inline]
    fn write_number<C: Context, W: Writer<C>>(
        number: usize,
        writer: &mut W,
    ) -> Result<(), C::Error> {
        write_length_u32(number, writer)
    }
}

impl WritePrefix for u64 {
    #[inline]
    fn write_number<C: Context, W: Writer<C>>(
        number: usize,
        writer: &mut W,
    ) -> Result<(), C::Error> {
        write_length_u64(number, writer)
    }
}

impl WritePrefix for VarInt64 {
    #[inline]
    fn write_number<C: Context, W: Writer<C>>(
        number: usize,
        writer: &mut W,
    ) -> Result<(), C::Error> {
        write_length_u64_varint(number, writer)
    }
}

impl WritePrefix for U7 {
    #[inline]
    fn write_number<C: Context, W: Writer<C>>(
        number: usize,
        writer: &mut W,
    ) -> Result<(), C::Error> {
        write_length_u7(number, writer)
    }
}

/// How what a number tells of is written.
pub trait WriteTold<C: Context>: Told {
    /// Writes the number that tells of the value, as the type `N`, and then the value.
    ///
    /// A length that is past `N` is the error `OutOfRangeLength`.
    fn write_behind<N: WritePrefix, W: Writer<C>>(&self, writer: &mut W) -> Result<(), C::Error>
        ensures { WritesValue C.Error.from_gives W.state W.appends Self.seen
            (prefixed_codec (Self.behind N.numbers)) self.now result writer.old writer.new };
}

impl<C: Context, N: WritePrefix, T: WriteTold<C>> Writable<C> for Prefixed<N, T> {
    #[inline]
    fn write_to<W: Writer<C>>(&self, writer: &mut W) -> Result<(), C::Error> {
        self.value.write_behind::<N, W>(writer)
    }
}

/// Writes a length as a `u32`. A longer one is the error `OutOfRangeLength`, before anything is written.
#[inline]
pub fn write_length<C: Context, W: Writer<C>>(length: usize, writer: &mut W) -> Result<(), C::Error>
    ensures { WritesLength C.Error.from_gives W.state W.appends (unsigned_number 4) (2 ^ 32) length
        result writer.old writer.new }
{
    match u32::try_from(length) {
        Ok(length) => writer.write_u32(length),
        Err(_) => Err(error_out_of_range_length()),
    }
}

/// Writes a length as a byte of at most 127. A longer one is the error `OutOfRangeLength`, before anything is written.
#[inline]
pub fn write_length_u7<C: Context, W: Writer<C>>(
    length: usize,
    writer: &mut W,
) -> Result<(), C::Error>
    ensures { WritesLength C.Error.from_gives W.state W.appends (length_number 1 127) (2 ^ 7) length
        result writer.old writer.new }
{
    if length > usize::from(U7_MAX) {
        return Err(error_out_of_range_length());
    }
    writer.write_u8(length as u8)
}

/// Writes a length as a `u8`. A longer one is the error `OutOfRangeLength`, before anything is written.
#[inline]
pub fn write_length_u8<C: Context, W: Writer<C>>(
    length: usize,
    writer: &mut W,
) -> Result<(), C::Error>
    ensures { WritesLength C.Error.from_gives W.state W.appends (unsigned_number 1) (2 ^ 8) length
        result writer.old writer.new }
{
    match u8::try_from(length) {
        Ok(length) => writer.write_u8(length),
        Err(_) => Err(error_out_of_range_length()),
    }
}

/// Writes a length as a `u16`. A longer one is the error `OutOfRangeLength`, before anything is written.
#[inline]
pub fn write_length_u16<C: Context, W: Writer<C>>(
    length: usize,
    writer: &mut W,
) -> Result<(), C::Error>
    ensures { WritesLength C.Error.from_gives W.state W.appends (unsigned_number 2) (2 ^ 16) length
        result writer.old writer.new }
{
    match u16::try_from(length) {
        Ok(length) => writer.write_u16(length),
        Err(_) => Err(error_out_of_range_length()),
    }
}

/// Writes a length as a `u32`, as [`write_length`] does.
#[inline]
pub fn write_length_u32<C: Context, W: Writer<C>>(
    length: usize,
    writer: &mut W,
) -> Result<(), C::Error>
    ensures { WritesLength C.Error.from_gives W.state W.appends (unsigned_number 4) (2 ^ 32) length
        result writer.old writer.new }
{
    write_length(length, writer)
}

/// Writes a length as a `u64`. None is past it.
#[inline]
pub fn write_length_u64<C: Context, W: Writer<C>>(
    length: usize,
    writer: &mut W,
) -> Result<(), C::Error>
    ensures { WritesLength C.Error.from_gives W.state W.appends (unsigned_number 8) (2 ^ 64) length
        result writer.old writer.new }
{
    writer.write_u64(length as u64)
}

/// Writes a length as an integer of variable length, in as few bytes as hold it. None is past it.
#[inline]
pub fn write_length_u64_varint<C: Context, W: Writer<C>>(
    length: usize,
    writer: &mut W,
) -> Result<(), C::Error>
    ensures { WritesLength C.Error.from_gives W.state W.appends varint (2 ^ 64) length
        result writer.old writer.new }
{
    writer.write_u64_varint(length as u64)
}
