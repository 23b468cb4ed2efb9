//! Readers of bytes that lie in memory (`MemoryReader`).
ghost use Rattle.std.specs.Prelude.{◌≡◌, length};
ghost use Rattle.speedy_read.specs.Wholes.{InMemory, ReadsAll};

use crate::lent::NothingLent;
use crate::owned_reader::OwnedReader;
use crate::reader::LendingReader;
use crate::whole::ReadWhole;
use speedy_base::context::Context;
use std::convert::AsSlice;

/// Readers of bytes that lie in memory, which know how many remain.
pub trait MemoryReader<L: AsSlice<u8> + Drop, C: Context>: LendingReader<L, C> {
    /// The number of remaining bytes.
    fn left(&self) -> usize
        ensures { result ≡ length (Self.state self.now).remaining };

    /// They lie in memory.
    ghost in_memory: { (r : Self) → InMemory (Self.state r) };

    /// The value that has all remaining bytes, of a type that borrows nothing, whatever the reader lends.
    final fn read_owned_whole<T: ReadWhole<NothingLent, C>>(&mut self) -> Result<T, C::Error>
    where
        Self: Sized,
        ensures { ReadsAll C.Error.IsEof Self.state T.seen T.whole result self.old self.new }
    {
        let mut reader: OwnedReader<L, Self> = OwnedReader::new(self);
        let value = T::read_whole(&mut reader);
        reader.into_inner();
        value
    }
}
