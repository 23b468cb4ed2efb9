//! Values of a type whose encodings all have the same number of bytes: many of them go to the writer by chunks.
ghost use Rattle.std.specs.Prelude.{◌≡◌, ◌<◌, ◌≤◌, ◌+◌, ◌*◌, ℕ, length, map, false, IsSome};
ghost use Rattle.speedy_base.specs.Mode.{Mode};
ghost use Rattle.speedy_layout.specs.Format.{Each};
ghost use Rattle.speedy_write.specs.FixedBytes.{PutsAt};
ghost use Rattle.speedy_write.specs.Writing.{WritesIfSome, WritesAtOnce, WritesValues};

use crate::writer::Writer;
use speedy_base::context::Context;
use speedy_base::endianness::Endianness;
use speedy_layout::fixed_numbers::{FixedNumber, MOST_DIGITS};
use speedy_layout::view_items::FixedSize;
use speedy_layout::{Layout, ToCode};
use std::time::Duration;

/// How values of a type are put as bytes: each as `BYTES` bytes, which the order alone decides.
pub trait FixedBytes<T: Layout> {
    /// How many bytes each is put as.
    const BYTES: usize;

    ghost BYTES: { ℕ };

    /// Shows that `BYTES` is 1 to 16, and the least size of the type. It does nothing else.
    fn has_few_bytes()
        ensures few { (0 < Self.BYTES) × (Self.BYTES ≤ 16) }
        ensures least { T.layout.least ≡ Self.BYTES };

    /// Puts the bytes of the value, in the order, which fill the output.
    fn put(value: &T, order: Endianness, output: &mut [u8])
        requires { length output.old ≡ Self.BYTES }
        ensures { (mode : Mode) → order ≡ mode.order →
            (T.layout.format mode).writes (T.seen value.now) output.new };
}

/// Numbers are put as their digits.
pub(crate) struct Digits {}

impl<T: FixedNumber> FixedBytes<T> for Digits {
    const BYTES: usize = T::SIZE;

    ghost BYTES = { T.Digits.LENGTH };

    #[inline(always)]
    fn has_few_bytes() {}

    #[inline(always)]
    fn put(value: &T, order: Endianness, output: &mut [u8]) {
        put_number(*value, order, output);
    }
}

/// Flags and characters are put as the digits of their codes.
pub(crate) struct CodeDigits {}

impl FixedBytes<bool> for CodeDigits {
    const BYTES: usize = 1;

    ghost BYTES = { 1 };

    #[inline(always)]
    fn has_few_bytes() {}

    #[inline(always)]
    fn put(value: &bool, order: Endianness, output: &mut [u8]) {
        put_number(value.encode(), order, output);
    }
}

impl FixedBytes<char> for CodeDigits {
    const BYTES: usize = 4;

    ghost BYTES = { 4 };

    #[inline(always)]
    fn has_few_bytes() {}

    #[inline(always)]
    fn put(value: &char, order: Endianness, output: &mut [u8]) {
        put_number(value.encode(), order, output);
    }
}

/// Durations are put as the digits of both their numbers.
pub(crate) struct Durations {}

impl FixedBytes<Duration> for Durations {
    const BYTES: usize = 12;

    ghost BYTES = { 12 };

    #[inline(always)]
    fn has_few_bytes() {}

    #[inline(always)]
    fn put(value: &Duration, order: Endianness, output: &mut [u8]) {
        let (first, second) = output.split_at_mut(8);
        let (seconds, nanos) = value.encode();
        put_number(seconds, order, first);
        put_number(nanos, order, second);
    }
}

// Puts the bytes of a number. It says of `encode`, whose contract is an equation, that they encode it.
#[inline(always)]
pub(crate) fn put_number<T: FixedNumber>(number: T, order: Endianness, output: &mut [u8])
    requires { length output.old ≡ T.Digits.LENGTH }
    ensures { (mode : Mode) → order ≡ mode.order →
        (T.layout.format mode).writes (T.seen number) output.new }
{
    number.encode(order, output);
}

// Writes a number.
#[inline(always)]
pub(crate) fn write_number<T: FixedNumber, C: Context, W: Writer<C>>(
    number: T,
    writer: &mut W,
) -> Result<(), C::Error>
    ensures { WritesAtOnce C.Error.from_gives W.state W.appends T.seen T.layout number
        result writer.old writer.new }
{
    let mut bytes = [0; MOST_DIGITS];
    let digits = &mut bytes[..T::SIZE];
    put_number(number, writer.endianness(), digits);
    writer.write_bytes(digits)
}

// Puts the bytes of the values, one after another, which fill the output.
#[inline]
#[tactic(auto, using(crate::proofs::FixedLemmas::puts))]
fn put_values<T: Layout, P: FixedBytes<T>>(values: &[T], order: Endianness, output: &mut [u8])
    requires { length output.old ≡ length values.now * P.BYTES }
    ensures { (mode : Mode) → order ≡ mode.order →
        Each (T.layout.format mode).writes (map T.seen values.now) output.new }
{
    let mut at = 0;
    for value in values {
        let end = at + P::BYTES;
        P::put(value, order, &mut output[at..end]);
        at = end;
    }
}

// Puts the bytes of the values from a place of the buffer on, and says where they end.
#[inline(always)]
pub(crate) fn put_values_at<T: Layout, P: FixedBytes<T>>(
    values: &[T],
    order: Endianness,
    buffer: &mut [u8],
    at: usize,
) -> usize
    requires { at + length values.now * P.BYTES ≤ length buffer.old }
    ensures { PutsAt T.layout.format T.seen values.now P.BYTES order at buffer.old result buffer.new }
{
    let end = at + values.len() * P::BYTES;
    // Numbers of these sizes lie in memory as their bytes. Of one byte are flags, which become bytes by a test.
    let may_copy = order == Endianness::LittleEndian && matches!(P::BYTES, 2 | 4 | 8 | 16);
    if may_copy && values.len() >= LEAST_COPIED {
        put_by_chunks::<T, P>(values, order, &mut buffer[at..end]);
    } else {
        put_values::<T, P>(values, order, &mut buffer[at..end]);
    }
    end
}

/// So many values at least are put by chunks where their bytes are those in memory, as of numbers in the little order.
const LEAST_COPIED: usize = 64;

// Puts the bytes of the values through a chunk. Nothing else can lie in that, so a compiler sees where it copies
// memory, and then copies it to the output at once.
#[inline(always)]
fn put_by_chunks<T: Layout, P: FixedBytes<T>>(values: &[T], order: Endianness, output: &mut [u8])
    requires { length output.old ≡ length values.now * P.BYTES }
    ensures { (mode : Mode) → order ≡ mode.order →
        Each (T.layout.format mode).writes (map T.seen values.now) output.new }
{
    P::has_few_bytes();
    let mut chunk = [0; CHUNK];
    let mut rest = values;
    let mut at = 0;
    while !rest.is_empty() {
        let (some, more) = rest.split_at(rest.len().min(CHUNK / P::BYTES));
        let bytes = &mut chunk[..some.len() * P::BYTES];
        put_values::<T, P>(some, order, bytes);
        let end = at + bytes.len();
        output[at..end].copy_from_slice(bytes);
        at = end;
        rest = more;
    }
}

// Writes the values, one after the other. It takes no memory. On a writer that counts it does nothing: each takes as
// many bytes, so to count them one by one is to multiply.
#[inline]
pub(crate) fn write_values<C: Context, T: Layout, P: FixedBytes<T>, W: Writer<C>>(
    values: &[T],
    writer: &mut W,
) -> Option<Result<(), C::Error>>
    ensures writes { WritesIfSome C.Error.from_gives W.state W.appends T.seen T.layout values.now
        result writer.old writer.new }
    ensures answers { W.is_counter ≡ false → IsSome result }
{
    if W::counts() {
        return None;
    }
    match writer.put_fixed::<T, P>(values) {
        Some(written) => Some(written),
        // It is passed on by its parts, and so no error is copied where the values were put.
        None => match write_by_chunks::<C, T, P, W>(values, writer) {
            Ok(()) => Some(Ok(())),
            Err(error) => Some(Err(error)),
        },
    }
}

/// The chunk that values are written through, in bytes.
const CHUNK: usize = 1024;

/// The chunk for a few values, in bytes: a longer one takes longer to make than they take to write.
const SHORT_CHUNK: usize = 64;

/// The chunk for many, in bytes: longer writes, of which there are fewer, take less time.
const LONG_CHUNK: usize = 8192;

// Writes the values through a chunk, whose length pays for their number. It stands apart: a caller that has it within
// pays at each call for the longest.
#[inline(never)]
fn write_by_chunks<C: Context, T: Layout, P: FixedBytes<T>, W: Writer<C>>(
    values: &[T],
    writer: &mut W,
) -> Result<(), C::Error>
    ensures { WritesValues C.Error.from_gives W.state W.appends T.seen T.layout values.now
        result writer.old writer.new }
{
    P::has_few_bytes();
    match values.len() {
        0..=4 => write_chunks::<C, T, P, W>(values, &mut [0; SHORT_CHUNK], writer),
        5..=8_191 => write_chunks::<C, T, P, W>(values, &mut [0; CHUNK], writer),
        _ => write_chunks::<C, T, P, W>(values, &mut [0; LONG_CHUNK], writer),
    }
}

// Writes the values by chunks: as many at a time as the chunk has room for. With the first it tells the writer how many
// bytes follow: a sink in memory then grows once.
#[inline]
fn write_chunks<C: Context, T: Layout, P: FixedBytes<T>, W: Writer<C>>(
    values: &[T],
    chunk: &mut [u8],
    writer: &mut W,
) -> Result<(), C::Error>
    requires { P.BYTES ≤ length chunk.old }
    ensures { WritesValues C.Error.from_gives W.state W.appends T.seen T.layout values.now
        result writer.old writer.new }
{
    P::has_few_bytes();
    let most = chunk.len() / P::BYTES;
    let mut rest = values;
    while !rest.is_empty() {
        let (some, more) = rest.split_at(rest.len().min(most));
        let bytes = &mut chunk[..some.len() * P::BYTES];
        put_values::<T, P>(some, writer.endianness(), bytes);
        let following = if rest.len() == values.len() {
            more.len().saturating_mul(P::BYTES)
        } else {
            0
        };
        writer.write_bytes_before(bytes, following)?;
        rest = more;
    }
    Ok(())
}
