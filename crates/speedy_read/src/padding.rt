//! How bytes that mean nothing are read, and compared with zeros.
ghost use Rattle.speedy_layout.specs.Codecs.{padding_codec, zeros_codec};
ghost use Rattle.speedy_read.specs.Padding.{zero_test};
ghost use Rattle.speedy_read.specs.Reading.{ReadsAs, ReadsValue};

use crate::lengths::ReadOfLength;
use crate::magic::are_still_the_same;
use crate::many::ItemByItem;
use crate::readable::ReadFrom;
use crate::reader::LendingReader;
use crate::room::CONSTANT_CHUNK;
use speedy_base::context::Context;
use speedy_base::error::{error_expected_constant, error_not_written_form};
use speedy_layout::{Padding, PaddingBytes, ZeroBytes, Zeros};
use std::convert::AsSlice;

impl<L: AsSlice<u8> + Drop, C: Context, const N: usize> ReadFrom<L, C> for Padding<N> {
    type Strategy = ItemByItem<C>;

    #[inline]
    fn read_from<R: LendingReader<L, C>>(reader: &mut R) -> Result<Padding<N>, C::Error> {
        read_padding::<L, C, R>(reader, N)?;
        Ok(Padding {})
    }

    #[inline]
    fn minimum_bytes_needed() -> usize {
        N
    }
}

impl<L: AsSlice<u8> + Drop, C: Context, const N: usize> ReadFrom<L, C> for Zeros<N> {
    type Strategy = ItemByItem<C>;

    #[inline]
    fn read_from<R: LendingReader<L, C>>(reader: &mut R) -> Result<Zeros<N>, C::Error> {
        expect_zeros::<L, C, R>(reader, N)?;
        Ok(Zeros {})
    }

    #[inline]
    fn minimum_bytes_needed() -> usize {
        N
    }
}

impl<L: AsSlice<u8> + Drop, C: Context> ReadOfLength<L, C> for PaddingBytes {
    #[inline]
    fn read_of_length<R: LendingReader<L, C>>(
        reader: &mut R,
        length: usize,
    ) -> Result<PaddingBytes, C::Error> {
        read_padding::<L, C, R>(reader, length)?;
        Ok(PaddingBytes(length))
    }
}

impl<L: AsSlice<u8> + Drop, C: Context> ReadOfLength<L, C> for ZeroBytes {
    #[inline]
    fn read_of_length<R: LendingReader<L, C>>(
        reader: &mut R,
        length: usize,
    ) -> Result<ZeroBytes, C::Error> {
        expect_zeros::<L, C, R>(reader, length)?;
        Ok(ZeroBytes(length))
    }
}

// Reads so many bytes of padding.
#[inline]
fn read_padding<L: AsSlice<u8> + Drop, C: Context, R: LendingReader<L, C>>(
    reader: &mut R,
    count: usize,
) -> Result<(), C::Error>
    ensures { ReadsValue C.Error.IsEof R.state (λ _. count) (padding_codec count) result
        reader.old reader.new }
{
    let is_written = read_zeros::<L, C, R>(reader, count)?;
    if !is_written && reader.demands_written_form() {
        return Err(error_not_written_form());
    }
    Ok(())
}

// Reads so many zeros.
#[inline]
fn expect_zeros<L: AsSlice<u8> + Drop, C: Context, R: LendingReader<L, C>>(
    reader: &mut R,
    count: usize,
) -> Result<(), C::Error>
    ensures { ReadsValue C.Error.IsEof R.state (λ _. count) (zeros_codec count) result
        reader.old reader.new }
{
    let are_zeros = read_zeros::<L, C, R>(reader, count)?;
    if !are_zeros {
        return Err(error_expected_constant(b"\0"));
    }
    Ok(())
}

// Reads so many bytes, a chunk at a time, and says whether all are zeros.
fn read_zeros<L: AsSlice<u8> + Drop, C: Context, R: LendingReader<L, C>>(
    reader: &mut R,
    count: usize,
) -> Result<bool, C::Error>
    ensures { ReadsAs C.Error.IsEof R.state (λ are. are) (λ _. zero_test count)
        result reader.old reader.new }
{
    let zeros = [0; CONSTANT_CHUNK];
    let mut chunk = [0; CONSTANT_CHUNK];
    let mut at = 0;
    let mut are = true;
    while at < count {
        let size = (count - at).min(CONSTANT_CHUNK);
        reader.read_bytes(&mut chunk[..size])?;
        are = are_still_the_same(are, &chunk[..size], &zeros[..size]);
        at += size;
    }
    Ok(are)
}
