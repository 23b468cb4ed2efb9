//! Reading of values that borrow nothing, from any reader.
ghost use Rattle.std.specs.Prelude.{◌≡◌, length};
ghost use Rattle.std.proofs.Common.{ap};
ghost use Rattle.speedy_read.specs.Buffers.{held_state};
ghost use Rattle.speedy_read.specs.Wholes.{held_in_memory};

use crate::lent::NothingLent;
use crate::memory_reader::MemoryReader;
use crate::reader::{EndOfInput, LendingReader};
use speedy_base::context::Context;
use std::alloc::Global;
use std::convert::AsSlice;
use std::marker::PhantomData;

/// A reader of values that borrow nothing, over any other reader, which goes on behind them.
///
/// `L` is what that reader lends. None of it is passed on, so no value that is read here is the error `Unsized`.
#[derive(Drop)]
pub struct OwnedReader<'a, L, R> {
    reader: &'a mut R,
    lends: PhantomData<L>,
}

impl<'a, L, R> OwnedReader<'a, L, R> {
    ghost use Rattle.speedy_read.specs.OwnedModel.{owned_model};

    /// A reader that goes on where this one is.
    #[inline]
    pub fn new(reader: &'a mut R) -> OwnedReader<'a, L, R>
        ensures same_reader { (owned_model result).reader_name ≡ reader.entry.ghost_name }
        ensures reader { (owned_model result).reader ≡ reader.old }
    {
        OwnedReader {
            reader,
            lends: PhantomData,
        }
    }

    /// The reader below, which goes on behind what was read.
    #[inline]
    pub fn into_inner(self) -> &'a mut R
        ensures same_reader { result.ghost_name ≡ (owned_model self.entry).reader_name }
        ensures reader { result.now ≡ (owned_model self.entry).reader }
    {
        self.reader
    }
}

impl<'a, L: AsSlice<u8> + Drop, C: Context, R: LendingReader<L, C>> LendingReader<NothingLent, C>
    for OwnedReader<'a, L, R> {
    ghost at = { λ r. R.at r.reader.now };

    ghost with_context = { λ r c. record r { reader = record r.reader { now = R.with_context r.reader.now c } } };

    ghost state = { λ r. held_state r.reader.ghost_name (R.state r.reader.now) };

    ghost can_read = { λ r n. R.can_read r.reader.now n };

    #[inline(always)]
    fn read_bytes(&mut self, output: &mut [u8]) -> Result<(), C::Error> {
        self.reader.read_bytes(output)
    }

    #[inline(always)]
    fn peek_bytes(&mut self, output: &mut [u8]) -> Result<(), C::Error> {
        self.reader.peek_bytes(output)
    }

    #[inline(always)]
    fn skip_bytes(&mut self, length: usize) -> Result<(), C::Error> {
        self.reader.skip_bytes(length)
    }

    #[inline(always)]
    fn can_read_at_least(&self, size: usize) -> Option<bool> {
        self.reader.can_read_at_least(size)
    }

    #[inline(always)]
    fn expects_at_least(&self, size: usize) -> bool {
        self.reader.expects_at_least(size)
    }

    #[inline(always)]
    fn read_bytes_borrowed(&mut self, _length: usize) -> Option<Result<NothingLent, C::Error>> {
        None
    }

    #[inline(always)]
    fn read_bytes_borrowed_from_reader(
        &mut self,
        length: usize,
    ) -> Option<Result<&[u8], EndOfInput>> {
        self.reader.read_bytes_borrowed_from_reader(length)
    }

    #[inline(always)]
    fn peek_bytes_until_eof(&self) -> Option<&[u8]> {
        self.reader.peek_bytes_until_eof()
    }

    #[inline(always)]
    fn alloc(&self) -> Global {
        self.reader.alloc()
    }

    #[inline(always)]
    fn context(&self) -> &C {
        self.reader.context()
    }

    #[inline(always)]
    fn context_mut(&mut self) -> &mut C {
        self.reader.context_mut()
    }

    ghost mode_at = { λ r. R.mode_at r.reader.now };

    ghost state_with = { λ r c. ap (λ s. held_state r.reader.ghost_name s) (R.state_with r.reader.now c) };
}

impl<'a, L: AsSlice<u8> + Drop, C: Context, R: MemoryReader<L, C>> MemoryReader<NothingLent, C>
    for OwnedReader<'a, L, R> {
    #[inline(always)]
    fn left(&self) -> usize {
        self.reader.left()
    }

    ghost in_memory = { λ r. held_in_memory (R.in_memory r.reader.now) };
}
