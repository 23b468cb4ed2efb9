//! How frames are read: the number of a value's bytes, and then the value from just these.
ghost use Rattle.std.specs.Prelude.{◌≡◌, true, false};
ghost use Rattle.speedy_read.specs.Frames.{filling, FillsFrame, FillsUnlessEnd};
ghost use Rattle.speedy_read.specs.Reading.{Reads};

use crate::bytes_reader::{CopyingBufferReader, FrameReader};
use crate::lent::NothingLent;
use crate::memory_reader::MemoryReader;
use crate::prefixed::{ReadPrefix, ReadTold};
use crate::reader::LendingReader;
use crate::whole::ReadWhole;
use speedy_base::context::Context;
use speedy_base::error::{Error, IsEof, error_out_of_range_length};
use speedy_layout::frames::Framed;
use std::alloc::Global;
use std::convert::AsSlice;

/// How a value is read that fills the next bytes. Each type that is read from borrowed bytes or from a stream has it.
pub trait ReadFramed<L: AsSlice<u8> + Drop, C: Context>: ReadWhole<L, C> {
    /// Reads the value that fills the next `length` bytes, from which it may borrow.
    fn read_framed<R: LendingReader<L, C>>(reader: &mut R, length: usize) -> Result<Self, C::Error>
        ensures { let mode = (R.state reader.old).mode in
            Reads C.Error.from_gives C.Error.eof Self.seen
            (filling mode (Self.whole.format mode) (Self.whole.misfits mode) length) result
            (R.state reader.old) (R.state reader.new) };
}

impl<L: AsSlice<u8> + Drop, C: Context, T: ReadFramed<L, C>> ReadTold<L, C> for Framed<T> {
    #[inline]
    fn read_behind<N: ReadPrefix, R: LendingReader<L, C>>(
        reader: &mut R,
    ) -> Result<Framed<T>, C::Error> {
        let length = N::read_number(reader)?;
        let value = T::read_framed(reader, length)?;
        Ok(Framed(value))
    }
}

// Out of the bytes that the reader lends, or out of a vector that grows as they come.
impl<'a, C: Context, T: ReadWhole<&'a [u8], C>> ReadFramed<&'a [u8], C> for T {
    fn read_framed<R: LendingReader<&'a [u8], C>>(
        reader: &mut R,
        length: usize,
    ) -> Result<T, C::Error> {
        keeps_context(reader);
        let alloc = reader.alloc();
        match reader.read_bytes_borrowed(length) {
            Some(lent) => {
                let bytes = lent?;
                fill_lent(alloc, reader.context_mut(), bytes)
            }
            None => {
                let bytes: Vec<u8> = reader.read_vec(length)?;
                fill_copied(alloc, reader.context_mut(), &bytes)
            }
        }
    }
}

// What is read so borrows nothing.
impl<C: Context, T: ReadWhole<NothingLent, C>> ReadFramed<NothingLent, C> for T {
    fn read_framed<R: LendingReader<NothingLent, C>>(
        reader: &mut R,
        length: usize,
    ) -> Result<T, C::Error> {
        let alloc = reader.alloc();
        let bytes: Vec<u8> = reader.read_vec(length)?;
        fill_owned(alloc, reader.context_mut(), &bytes)
    }
}

// Gives its caller two facts: a reader's state has its context's mode, and another context changes that mode alone.
#[inline]
fn keeps_context<L: AsSlice<u8> + Drop, C: Context, R: LendingReader<L, C>>(_reader: &R)
    ensures at { (r : R) → (R.state r).mode ≡ C.mode (R.at r) }
    ensures with_another { (r : R) (c : C) →
        R.state (R.with_context r c) ≡ record (R.state r) { mode = C.mode c } }
{}

// The value that fills the bytes, and may borrow from them.
#[inline]
fn fill_lent<'a, T: ReadWhole<&'a [u8], C>, C: Context>(
    alloc: Global,
    context: &mut C,
    bytes: &'a [u8],
) -> Result<T, C::Error>
    ensures mode { C.mode context.new ≡ C.mode context.old }
    ensures fills { let mode = C.mode context.old in
        FillsFrame C.Error.from_gives T.seen (T.whole.format mode) (T.whole.misfits mode) true result bytes.now }
{
    let mut reader = FrameReader::new(alloc, context, bytes);
    let read = T::read_whole(&mut reader);
    reader.finish();
    unless_ended(read)
}

// The value that fills the bytes. Nothing of them is lent for as long as what a reader lends.
#[inline]
fn fill_copied<'a, T: ReadWhole<&'a [u8], C>, C: Context>(
    alloc: Global,
    context: &mut C,
    bytes: &[u8],
) -> Result<T, C::Error>
    ensures mode { C.mode context.new ≡ C.mode context.old }
    ensures fills { let mode = C.mode context.old in
        FillsFrame C.Error.from_gives T.seen (T.whole.format mode) (T.whole.misfits mode) false result bytes.now }
{
    let mut reader = CopyingBufferReader::new(alloc, context, bytes);
    let read = T::read_whole(&mut reader);
    reader.finish();
    unless_ended(read)
}

// The value that fills the bytes, and borrows nothing.
#[inline]
fn fill_owned<T: ReadWhole<NothingLent, C>, C: Context>(
    alloc: Global,
    context: &mut C,
    bytes: &[u8],
) -> Result<T, C::Error>
    ensures mode { C.mode context.new ≡ C.mode context.old }
    ensures fills { let mode = C.mode context.old in
        FillsFrame C.Error.from_gives T.seen (T.whole.format mode) (T.whole.misfits mode) true result bytes.now }
{
    let mut reader = FrameReader::new(alloc, context, bytes);
    let read = reader.read_owned_whole();
    reader.finish();
    unless_ended(read)
}

// What was read, where an end of the bytes is a length that is wrong: within the frame no more remain.
#[inline]
fn unless_ended<T: Drop, E: From<Error> + IsEof + Drop>(read: Result<T, E>) -> Result<T, E>
    ensures { FillsUnlessEnd E.from_gives E.eof read result }
{
    match read {
        Ok(value) => Ok(value),
        Err(error) if error.is_eof() => Err(error_out_of_range_length()),
        Err(error) => Err(error),
    }
}
