//! How texts and bytes are read that end with a NUL.
ghost use Rattle.std.specs.Prelude.{◌≡◌, ◌∷◌, ◌++◌, [], ℕ, List};
ghost use Rattle.std.specs.Cow.{cow_slice_items};
ghost use Rattle.speedy_layout.specs.Codecs.{borrowed_codec, nul_ended_codec, owned_codec};
ghost use Rattle.speedy_read.specs.CText.{FindsNulAhead};
ghost use Rattle.speedy_read.specs.Reading.{ReadsValue};

use crate::lent::read_lent;
use crate::many::ItemByItem;
use crate::readable::ReadFrom;
use crate::reader::LendingReader;
use crate::utf8::{bytes_to_str, cow_bytes_to_cow_str, vec_to_string};
use speedy_base::context::Context;
use speedy_base::error::{error_end_of_input, error_out_of_memory, error_unsized};
use speedy_layout::c_text::{CText, NulEnded, length_to_nul};
use std::borrow::{CowSlice, CowStr};
use std::boxed::{BoxedSlice, BoxedStr};
use std::convert::AsSlice;

/// How texts and bytes before a NUL are read, where `L` is what the reader lends.
pub trait ReadNulEnded<L: AsSlice<u8> + Drop, C: Context>: NulEnded + Sized + Drop {
    /// Reads the bytes before the next NUL, and the NUL.
    fn read_nul_ended<R: LendingReader<L, C>>(reader: &mut R) -> Result<Self, C::Error>
        ensures { ReadsValue C.Error.IsEof R.state Self.content Self.nul_ended result
            reader.old reader.new };
}

impl<L: AsSlice<u8> + Drop, C: Context, T: ReadNulEnded<L, C>> ReadFrom<L, C> for CText<T> {
    type Strategy = ItemByItem<C>;

    #[inline]
    fn read_from<R: LendingReader<L, C>>(reader: &mut R) -> Result<CText<T>, C::Error> {
        match T::read_nul_ended(reader) {
            Ok(content) => Ok(CText(content)),
            Err(error) => Err(error),
        }
    }

    #[inline]
    fn minimum_bytes_needed() -> usize {
        1
    }
}

impl<L: AsSlice<u8> + Drop, C: Context> ReadNulEnded<L, C> for Vec<u8> {
    #[inline]
    fn read_nul_ended<R: LendingReader<L, C>>(reader: &mut R) -> Result<Vec<u8>, C::Error> {
        read_c_vec::<L, C, R>(reader)
    }
}

impl<L: AsSlice<u8> + Drop, C: Context> ReadNulEnded<L, C> for BoxedSlice<u8> {
    #[inline]
    fn read_nul_ended<R: LendingReader<L, C>>(reader: &mut R) -> Result<BoxedSlice<u8>, C::Error> {
        let bytes = read_c_vec::<L, C, R>(reader)?;
        Ok(bytes.into_boxed_slice())
    }
}

impl<L: AsSlice<u8> + Drop, C: Context> ReadNulEnded<L, C> for String {
    #[inline]
    fn read_nul_ended<R: LendingReader<L, C>>(reader: &mut R) -> Result<String, C::Error> {
        let bytes = read_c_vec::<L, C, R>(reader)?;
        vec_to_string(bytes)
    }
}

impl<L: AsSlice<u8> + Drop, C: Context> ReadNulEnded<L, C> for BoxedStr {
    #[inline]
    fn read_nul_ended<R: LendingReader<L, C>>(reader: &mut R) -> Result<BoxedStr, C::Error> {
        let text = <String as ReadNulEnded<L, C>>::read_nul_ended(reader)?;
        Ok(text.into_boxed_str())
    }
}

// They point into the bytes that the reader lends.
impl<'a, C: Context> ReadNulEnded<&'a [u8], C> for &'a [u8] {
    #[inline]
    fn read_nul_ended<R: LendingReader<&'a [u8], C>>(reader: &mut R) -> Result<&'a [u8], C::Error> {
        read_c_slice(reader)
    }
}

// It points into the bytes that the reader lends.
impl<'a, C: Context> ReadNulEnded<&'a [u8], C> for &'a str {
    #[inline]
    fn read_nul_ended<R: LendingReader<&'a [u8], C>>(reader: &mut R) -> Result<&'a str, C::Error> {
        let bytes = read_c_slice(reader)?;
        bytes_to_str(bytes)
    }
}

// They point into the bytes that the reader lends, and are owned where it lends nothing.
impl<'a, C: Context> ReadNulEnded<&'a [u8], C> for CowSlice<'a, u8> {
    #[inline]
    fn read_nul_ended<R: LendingReader<&'a [u8], C>>(
        reader: &mut R,
    ) -> Result<CowSlice<'a, u8>, C::Error> {
        read_c_cow(reader)
    }
}

// It points into the bytes that the reader lends, and is owned where it lends nothing.
impl<'a, C: Context> ReadNulEnded<&'a [u8], C> for CowStr<'a> {
    #[inline]
    fn read_nul_ended<R: LendingReader<&'a [u8], C>>(
        reader: &mut R,
    ) -> Result<CowStr<'a>, C::Error> {
        let bytes = read_c_cow(reader)?;
        cow_bytes_to_cow_str(bytes)
    }
}

// How many of the remaining bytes the first NUL and those before it are, where the reader shows them.
#[inline]
fn find_nul<L: AsSlice<u8> + Drop, C: Context, R: LendingReader<L, C>>(
    reader: &R,
) -> Option<Option<usize>>
    ensures { FindsNulAhead result (R.state reader.now) }
{
    match reader.peek_bytes_until_eof() {
        Some(bytes) => Some(length_to_nul(bytes)),
        None => None,
    }
}

// The bytes before the next NUL, which is taken too.
fn read_c_vec<L: AsSlice<u8> + Drop, C: Context, R: LendingReader<L, C>>(
    reader: &mut R,
) -> Result<Vec<u8>, C::Error>
    ensures { ReadsValue C.Error.IsEof R.state (λ v. v.items) (owned_codec nul_ended_codec)
        result reader.old reader.new }
{
    match find_nul::<L, C, R>(reader) {
        Some(Some(length)) => {
            let mut bytes = reader.read_vec::<u8>(length)?;
            bytes.truncate(length - 1);
            Ok(bytes)
        }
        Some(None) => Err(error_end_of_input()),
        None => read_to_nul::<L, C, R>(reader),
    }
}

// The same of bytes that the reader lends.
fn read_c_slice<'a, C: Context, R: LendingReader<&'a [u8], C>>(
    reader: &mut R,
) -> Result<&'a [u8], C::Error>
    ensures { ReadsValue C.Error.IsEof R.state (λ b. b.now) (borrowed_codec nul_ended_codec)
        result reader.old reader.new }
{
    match find_nul::<&'a [u8], C, R>(reader) {
        Some(Some(length)) => {
            let bytes = read_lent(reader, length)?;
            Ok(&bytes[..length - 1])
        }
        Some(None) => Err(error_end_of_input()),
        None => Err(error_unsized()),
    }
}

// The same of bytes that the reader lends, or that are owned.
fn read_c_cow<'a, C: Context, R: LendingReader<&'a [u8], C>>(
    reader: &mut R,
) -> Result<CowSlice<'a, u8>, C::Error>
    ensures { ReadsValue C.Error.IsEof R.state cow_slice_items (owned_codec nul_ended_codec)
        result reader.old reader.new }
{
    match find_nul::<&'a [u8], C, R>(reader) {
        Some(Some(length)) => {
            let bytes: CowSlice<'a, u8> = reader.read_cow::<CowSlice<'a, u8>, u8>(length)?;
            Ok(without_last(bytes))
        }
        Some(None) => Err(error_end_of_input()),
        None => Ok(CowSlice::Owned(read_to_nul::<&'a [u8], C, R>(reader)?)),
    }
}

// The bytes but for the last one.
#[inline]
fn without_last<'a>(bytes: CowSlice<'a, u8>) -> CowSlice<'a, u8>
    ensures { (before : List ℕ) (last : ℕ) → cow_slice_items bytes.entry ≡ before ++ last ∷ []
        → cow_slice_items result ≡ before }
{
    match bytes {
        CowSlice::Borrowed(lent) => CowSlice::Borrowed(&lent[..lent.len().saturating_sub(1)]),
        CowSlice::Owned(mut vec) => {
            vec.pop();
            CowSlice::Owned(vec)
        }
    }
}

// The bytes before the next NUL, byte by byte: a source may hold nothing behind the NUL that another could read.
fn read_to_nul<L: AsSlice<u8> + Drop, C: Context, R: LendingReader<L, C>>(
    reader: &mut R,
) -> Result<Vec<u8>, C::Error>
    ensures { ReadsValue C.Error.IsEof R.state (λ v. v.items) (owned_codec nul_ended_codec)
        result reader.old reader.new }
{
    let mut bytes = Vec::new(reader.alloc());
    let mut byte = reader.read_u8()?;
    while byte != 0 {
        if bytes.push(byte).is_err() {
            return Err(error_out_of_memory());
        }
        byte = reader.read_u8()?;
    }
    Ok(bytes)
}
