//! Numbers, bytes and flags in bulk: a chunk at a time, into room that grows in bounded steps.
ghost use Rattle.std.specs.Prelude.{◌≡◌, ◌+◌, ◌-◌, ◌*◌, ◌<◌, ◌≤◌, List, length, map, false, not, nat_eq, IfOk, IsSome};
ghost use Rattle.std.specs.Prelude.{MatchOption, MatchResult};
ghost use Rattle.speedy_base.specs.Digits.{AreBytes};
ghost use Rattle.speedy_base.specs.Error.{error_of};
ghost use Rattle.speedy_layout.specs.Codecs.{unsigned_codec, flag_codec, vector_codec};
ghost use Rattle.speedy_layout.specs.FixedNumbers.{encoded_in};
ghost use Rattle.speedy_layout.specs.Format.{Each};
ghost use Rattle.speedy_read.specs.Lending.{many_items};
ghost use Rattle.speedy_read.specs.Reading.{ReadsValue};

use crate::arrays::read_number_places;
use crate::many::{AsBytes, BytesAs, Fills, FromLent, Many, Places, Strategy};
use crate::reader::{EndOfInput, LendingReader};
use crate::room::{
    CHUNK, LEAST_CHUNK, MIDDLE_CHUNK, SHORT_CHUNK, append_in_steps, open_chunk, vec_for,
};
use speedy_base::bytes::bytes_in_range;
use speedy_base::context::Context;
use speedy_base::endianness::Endianness;
use speedy_base::error::{Error, ErrorKind, error_end_of_input, error_out_of_memory};
use speedy_layout::fixed_numbers::{FixedNumber, append_each, take_each};
use speedy_layout::layout::Layout;
use speedy_layout::view_items::FixedSize;
use std::alloc::{AllocError, Global};
use std::convert::AsSlice;

/// Reads numbers in bulk: a chunk of digits at a time, or all at once from what the reader lends.
pub struct Numbers {}

impl<L: AsSlice<u8> + Drop, C: Context, T: FixedNumber> Strategy<L, C, T> for Numbers {
    const IN_BULK: bool = true;

    #[inline(always)]
    fn size_of_each() -> Option<usize> {
        Some(T::SIZE)
    }

    fn read_many_lent<W: FromLent<L, T>, R: LendingReader<L, C>>(
        reader: &mut R,
        length: usize,
    ) -> Option<Result<Many<W, T>, C::Error>> {
        Some(read_numbers::<W, T, L, C, R>(reader, length, W::SHORT_READS))
    }

    fn read_places<P: Places<L, C, T>, R: LendingReader<L, C>>(
        reader: &mut R,
    ) -> Option<Result<P, C::Error>>
        ensures reads { MatchOption result (R.state reader.new ≡ R.state reader.old) (λ read.
            ReadsValue C.Error.IsEof R.state (λ p. map T.seen (P.shown p))
            (vector_codec P.count T.layout) read reader.old reader.new) }
        ensures in_place { IsSome result }
    {
        let mut places = P::begun();
        match places.fill::<Numbers, R>(reader) {
            Ok(()) => Some(Ok(places)),
            Err(error) => Some(Err(error)),
        }
    }

    #[inline]
    fn read_many_places<P: Places<L, C, T>, R: LendingReader<L, C>>(
        reader: &mut R,
        length: usize,
    ) -> Option<Result<Vec<P>, C::Error>> {
        read_number_places::<P, T, L, C, R>(reader, length)
    }
}

impl<L: AsSlice<u8> + Drop, C: Context, T: FixedNumber> Fills<L, C, T> for Numbers {
    fn fill<R: LendingReader<L, C>>(reader: &mut R, places: &mut [T]) -> Result<(), C::Error> {
        fill_numbers::<T, L, C, R>(reader, places)
    }
}

/// Reads bytes in bulk: all at once from what the reader lends, or a chunk at a time.
pub struct Bytes {}

impl<L: AsSlice<u8> + Drop, C: Context> Strategy<L, C, u8> for Bytes {
    const IN_BULK: bool = true;

    #[inline(always)]
    fn size_of_each() -> Option<usize> {
        Some(1)
    }

    #[inline]
    fn read_many_lent<W: FromLent<L, u8>, R: LendingReader<L, C>>(
        reader: &mut R,
        length: usize,
    ) -> Option<Result<Many<W, u8>, C::Error>> {
        Some(read_bytes_lent::<W, L, C, R>(reader, length))
    }

    fn read_places<P: Places<L, C, u8>, R: LendingReader<L, C>>(
        reader: &mut R,
    ) -> Option<Result<P, C::Error>>
        ensures reads { MatchOption result (R.state reader.new ≡ R.state reader.old) (λ read.
            ReadsValue C.Error.IsEof R.state (λ p. map ⟦<u8 as Layout>⟧.seen (P.shown p))
            (vector_codec P.count ⟦<u8 as Layout>⟧.layout) read reader.old reader.new) }
        ensures in_place { IsSome result }
    {
        let mut places = P::begun();
        match places.fill::<Bytes, R>(reader) {
            Ok(()) => Some(Ok(places)),
            Err(error) => Some(Err(error)),
        }
    }

    #[inline]
    fn read_many_places<P: Places<L, C, u8>, R: LendingReader<L, C>>(
        reader: &mut R,
        length: usize,
    ) -> Option<Result<Vec<P>, C::Error>> {
        read_number_places::<P, u8, L, C, R>(reader, length)
    }
}

// Reads `length` bytes: those that the reader lends are taken at once.
fn read_bytes_lent<W: FromLent<L, u8>, L: AsSlice<u8> + Drop, C: Context, R: LendingReader<L, C>>(
    reader: &mut R,
    length: usize,
) -> Result<Many<W, u8>, C::Error>
    ensures { ReadsValue C.Error.IsEof R.state (λ many. map ⟦<u8 as Layout>⟧.seen (many_items W.shown many))
        (vector_codec length ⟦<u8 as Layout>⟧.layout) result reader.old reader.new }
{
    match reader.read_bytes_borrowed(length) {
        Some(Ok(bytes)) => {
            bytes_in_range(bytes.as_slice());
            match W::from_lent::<AsBytes>(bytes, reader.alloc()) {
                Some(made) => Ok(Many::Made(made)),
                None => Err(error_out_of_memory()),
            }
        }
        Some(Err(error)) => Err(error),
        None => Ok(Many::Owned(read_bytes_copied::<L, C, R>(reader, length, W::SHORT_READS)?)),
    }
}

impl<L: AsSlice<u8> + Drop, C: Context> Fills<L, C, u8> for Bytes {
    fn fill<R: LendingReader<L, C>>(reader: &mut R, places: &mut [u8]) -> Result<(), C::Error> {
        reader.read_bytes(places)?;
        bytes_in_range(places);
        Ok(())
    }
}

/// Reads flags in bulk: any byte is one, but where only canonical encodings are read.
pub struct Flags {}

impl<L: AsSlice<u8> + Drop, C: Context> Strategy<L, C, bool> for Flags {
    const IN_BULK: bool = true;

    #[inline(always)]
    fn size_of_each() -> Option<usize> {
        Some(1)
    }

    fn read_many_lent<W: FromLent<L, bool>, R: LendingReader<L, C>>(
        reader: &mut R,
        length: usize,
    ) -> Option<Result<Many<W, bool>, C::Error>> {
        if reader.demands_written_form() {
            return None;
        }
        match read_flags::<L, C, R>(reader, length, W::SHORT_READS) {
            Ok(flags) => Some(Ok(Many::Owned(flags))),
            Err(error) => Some(Err(error)),
        }
    }
}

// Reads `length` flags, which any bytes are. Those that the reader lends until it is used again are taken at once.
fn read_flags<L: AsSlice<u8> + Drop, C: Context, R: LendingReader<L, C>>(
    reader: &mut R,
    length: usize,
    short: bool,
) -> Result<Vec<bool>, C::Error>
    requires { (R.state reader.old).mode.strict ≡ false }
    ensures { ReadsValue C.Error.IsEof R.state (λ v. v.items) (vector_codec length flag_codec)
        result reader.old reader.new }
{
    let alloc = reader.alloc();
    match reader.read_bytes_borrowed_from_reader(length) {
        Some(Ok(bytes)) => flags_of(alloc, bytes),
        Some(Err(EndOfInput {})) => Err(error_end_of_input()),
        None => {
            let bytes = read_byte_chunks::<L, C, R>(reader, length, short)?;
            flags_of(alloc, &bytes)
        }
    }
}

// The flags that these bytes are.
fn flags_of<E: From<Error>>(alloc: Global, bytes: &[u8]) -> Result<Vec<bool>, E>
    ensures flags { MatchResult result (λ v. v.items ≡ map (λ n. not (nat_eq n 0)) bytes.now)
        (E.from_gives (error_of ErrorKind.OutOfMemory)) }
    ensures range { AreBytes bytes.now }
{
    bytes_in_range(bytes);
    let Ok(mut flags) = Vec::with_capacity(alloc, bytes.len()) else {
        return Err(error_out_of_memory());
    };
    for byte in bytes.iter() {
        flags.push_reserved(*byte != 0);
    }
    Ok(flags)
}

// Reads `count` numbers. Those that the reader lends until it is used again are taken at once.
pub(crate) fn read_numbers<
    W: Drop,
    T: FixedNumber,
    L: AsSlice<u8> + Drop,
    C: Context,
    R: LendingReader<L, C>,
>(reader: &mut R, count: usize, short: bool) -> Result<Many<W, T>, C::Error>
    ensures { (shown : W → List T) → ReadsValue C.Error.IsEof R.state
        (λ many. map T.seen (many_items shown many)) (vector_codec count T.layout)
        result reader.old reader.new }
{
    // Numbers of more bytes than a `usize` counts are in no input.
    let Some(size) = count.checked_mul(T::SIZE) else {
        return Err(error_end_of_input());
    };
    let order = reader.endianness();
    let alloc = reader.alloc();
    match reader.read_bytes_borrowed_from_reader(size) {
        Some(Ok(digits)) => match numbers_of(alloc, order, digits, count) {
            Ok(numbers) => return Ok(Many::Owned(numbers)),
            Err(_) => return Err(error_out_of_memory()),
        },
        Some(Err(EndOfInput {})) => return Err(error_end_of_input()),
        None => {}
    }
    // A few numbers need no long chunk, which costs more to make than they cost to read.
    let numbers = if size <= SHORT_CHUNK {
        read_number_chunks(reader, count, &mut [0; SHORT_CHUNK])?
    } else if short || size <= MIDDLE_CHUNK {
        read_number_chunks(reader, count, &mut [0; MIDDLE_CHUNK])?
    } else {
        read_number_chunks(reader, count, &mut [0; CHUNK])?
    };
    Ok(Many::Owned(numbers))
}

// Reads a number into each place. Those that the reader lends until it is used again are taken at once.
pub(crate) fn fill_numbers<
    T: FixedNumber,
    L: AsSlice<u8> + Drop,
    C: Context,
    R: LendingReader<L, C>,
>(reader: &mut R, places: &mut [T]) -> Result<(), C::Error>
    ensures { ReadsValue C.Error.IsEof R.state (λ _. map T.seen places.new)
        (vector_codec (length places.old) T.layout) result reader.old reader.new }
{
    let Some(size) = places.len().checked_mul(T::SIZE) else {
        return Err(error_end_of_input());
    };
    let order = reader.endianness();
    match reader.read_bytes_borrowed_from_reader(size) {
        Some(Ok(digits)) => {
            take_each(places, order, digits);
            return Ok(());
        }
        Some(Err(EndOfInput {})) => return Err(error_end_of_input()),
        None => {}
    }
    if size <= LEAST_CHUNK {
        fill_chunks(reader, places, &mut [0; LEAST_CHUNK])
    } else if size <= SHORT_CHUNK {
        fill_chunks(reader, places, &mut [0; SHORT_CHUNK])
    } else if size <= MIDDLE_CHUNK {
        fill_chunks(reader, places, &mut [0; MIDDLE_CHUNK])
    } else {
        fill_chunks(reader, places, &mut [0; CHUNK])
    }
}

// Reads a number into each place, as many at a time as the chunk has room for.
#[inline]
fn fill_chunks<T: FixedNumber, L: AsSlice<u8> + Drop, C: Context, R: LendingReader<L, C>>(
    reader: &mut R,
    places: &mut [T],
    chunk: &mut [u8],
) -> Result<(), C::Error>
    requires { T.Digits.LENGTH ≤ length chunk.old }
    ensures { ReadsValue C.Error.IsEof R.state (λ _. map T.seen places.new)
        (vector_codec (length places.old) T.layout) result reader.old reader.new }
{
    let most = chunk.len() / T::SIZE;
    let mut at = 0;
    while at < places.len() {
        let some = most.min(places.len() - at);
        let digits = &mut chunk[..some * T::SIZE];
        reader.read_bytes(digits)?;
        take_each(&mut places[at..at + some], reader.endianness(), digits);
        at += some;
    }
    Ok(())
}

// The `count` numbers that these bytes encode.
fn numbers_of<T: FixedNumber>(
    alloc: Global,
    order: Endianness,
    digits: &[u8],
    count: usize,
) -> Result<Vec<T>, AllocError>
    requires { length digits.now ≡ count * T.Digits.LENGTH }
    ensures { IfOk result (λ v. Each (encoded_in T.layout.format order) (map T.seen v.items) digits.now) }
{
    Ok(append_each(Vec::with_capacity(alloc, count)?, order, digits))
}

// Reads `count` numbers, as many at a time as the chunk has room for. Those that the reader lends go past the chunk: a
// buffered reader lends from its source what lies behind the bytes that it held.
#[inline]
fn read_number_chunks<T: FixedNumber, L: AsSlice<u8> + Drop, C: Context, R: LendingReader<L, C>>(
    reader: &mut R,
    count: usize,
    chunk: &mut [u8],
) -> Result<Vec<T>, C::Error>
    requires { T.Digits.LENGTH ≤ length chunk.old }
    ensures { ReadsValue C.Error.IsEof R.state (λ v. map T.seen v.items)
        (vector_codec count T.layout) result reader.old reader.new }
{
    let mut numbers = vec_for::<T, L, C, R>(reader, T::SIZE, count)?;
    let most = chunk.len() / T::SIZE;
    let mut left = count;
    while left > 0 {
        let some = left.min(most);
        let order = reader.endianness();
        match reader.read_bytes_borrowed_from_reader(some * T::SIZE) {
            Some(Ok(digits)) => {
                numbers = match append_in_steps(numbers, order, digits, left) {
                    Ok(more) => more,
                    Err(_) => return Err(error_out_of_memory()),
                };
                left -= some;
                continue;
            }
            Some(Err(EndOfInput {})) => return Err(error_end_of_input()),
            None => {}
        }
        let digits = &mut chunk[..some * T::SIZE];
        reader.read_bytes(digits)?;
        numbers = match append_in_steps(numbers, order, digits, left) {
            Ok(more) => more,
            Err(_) => return Err(error_out_of_memory()),
        };
        left -= some;
    }
    Ok(numbers)
}

// Reads `length` bytes to own them. Those that the reader lends until it is used again are copied at once.
fn read_bytes_copied<L: AsSlice<u8> + Drop, C: Context, R: LendingReader<L, C>>(
    reader: &mut R,
    length: usize,
    short: bool,
) -> Result<Vec<u8>, C::Error>
    ensures { ReadsValue C.Error.IsEof R.state (λ v. v.items)
        (vector_codec length (unsigned_codec 1)) result reader.old reader.new }
{
    let alloc = reader.alloc();
    match reader.read_bytes_borrowed_from_reader(length) {
        Some(Ok(bytes)) => copied(alloc, bytes),
        Some(Err(EndOfInput {})) => Err(error_end_of_input()),
        None => read_byte_chunks::<L, C, R>(reader, length, short),
    }
}

// A copy of the bytes.
#[inline]
fn copied<E: From<Error>>(alloc: Global, bytes: &[u8]) -> Result<Vec<u8>, E>
    ensures same { MatchResult result (λ v. v.items ≡ bytes.now)
        (E.from_gives (error_of ErrorKind.OutOfMemory)) }
    ensures range { AreBytes bytes.now }
{
    bytes_in_range(bytes);
    match <AsBytes as BytesAs<u8>>::copy_of(bytes, alloc) {
        Some(copy) => Ok(copy),
        None => Err(error_out_of_memory()),
    }
}

// How many of the bytes that are left are read at once, at most.
#[inline]
fn read_at_once(left: usize, short: bool) -> usize
    ensures some { 0 < left → 0 < result }
    ensures most { result ≤ left }
{
    if short { left.min(MIDDLE_CHUNK) } else { left }
}

// Reads `length` bytes. The count may be any, so no more room is asked for than a step ahead of what was read, but
// where the reader says that they are there.
pub(crate) fn read_byte_chunks<L: AsSlice<u8> + Drop, C: Context, R: LendingReader<L, C>>(
    reader: &mut R,
    length: usize,
    short: bool,
) -> Result<Vec<u8>, C::Error>
    ensures { ReadsValue C.Error.IsEof R.state (λ v. v.items)
        (vector_codec length (unsigned_codec 1)) result reader.old reader.new }
{
    let mut bytes = vec_for::<u8, L, C, R>(reader, 1, length)?;
    let mut left = length;
    while left > 0 {
        let start = length - left;
        let Ok(size) = open_chunk(&mut bytes, read_at_once(left, short)) else {
            return Err(error_out_of_memory());
        };
        reader.read_bytes(&mut bytes.as_mut_slice()[start..])?;
        left -= size;
    }
    bytes_in_range(bytes.as_slice());
    Ok(bytes)
}
