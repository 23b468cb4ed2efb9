//! A reader of bytes in memory, which lends them.
ghost use Rattle.std.specs.Prelude.{IsOk, ◌≡◌, ◌↔◌, [], IsTrue, length, nat_le, Some, OnErr, IfSome, IsSome, refl};
ghost use Rattle.std.specs.Borrow.{sem};
ghost use Rattle.std.specs.Io.BufRead.{Rests};
ghost use Rattle.speedy_read.specs.Lending.{readers_lifetime};
ghost use Rattle.speedy_read.specs.Reading.{LendsBytes, LendsAll, LendsUntilUsed, ReadsInto, PeeksInto, Skips};
ghost use Rattle.speedy_read.specs.contracts.buffer_reader.BufferReader.{the_row as reader_row};
ghost use Rattle.speedy_read.specs.Buffers.{bytes_state};
ghost use Rattle.speedy_read.specs.Wholes.{bytes_in_memory};

use crate::memory_reader::MemoryReader;
use crate::reader::{EndOfInput, LendingReader};
use speedy_base::context::Context;
use speedy_base::error::error_end_of_input;
use std::alloc::Global;
use std::marker::PhantomData;

/// A reader of bytes in memory, which lends parts of them.
#[derive(Drop)]
pub struct BufferReader<'a, C> {
    context: C,
    alloc: Global,
    rest: &'a [u8],
    // A reference that may be written makes the context's loans provable.
    writes: PhantomData<&'a mut u8>,
}

impl<'a, C: Context> BufferReader<'a, C> {
    /// A reader at the beginning of the buffer.
    #[inline]
    pub fn new(alloc: Global, context: C, buffer: &'a [u8]) -> BufferReader<'a, C>
        ensures context { ⟦<BufferReader<'a, C> as LendingReader<&'a [u8], C>>⟧.at result
            ≡ context }
        ensures state { ⟦<BufferReader<'a, C> as LendingReader<&'a [u8], C>>⟧.state result
            ≡ bytes_state buffer.now (C.mode context) }
    {
        BufferReader {
            context,
            alloc,
            rest: buffer,
            writes: PhantomData,
        }
    }

    /// The number of bytes still to be read.
    #[inline]
    pub fn len(&self) -> usize
        ensures { result ≡ length
            (⟦<BufferReader<'a, C> as LendingReader<&'a [u8], C>>⟧.state self.now).remaining }
    {
        self.rest.len()
    }

    /// Whether all bytes were read.
    #[inline]
    pub fn is_empty(&self) -> bool
        ensures { IsTrue result
            ↔ ((⟦<BufferReader<'a, C> as LendingReader<&'a [u8], C>>⟧.state self.now).remaining ≡ []) }
    {
        self.rest.is_empty()
    }
}

impl<'a, C: Context> LendingReader<&'a [u8], C> for BufferReader<'a, C> {
    ghost at = { λ r. r.context };

    ghost with_context = { λ r c. record r { context = c } };

    ghost state = { λ r. bytes_state r.rest.now (C.mode r.context) };

    ghost can_read = { λ r n. Some (nat_le n (length r.rest.now)) };

    #[inline(always)]
    fn read_bytes(&mut self, output: &mut [u8]) -> Result<(), C::Error>
        ensures reads { let reader = ⟦<BufferReader<'a, C> as LendingReader<&'a [u8], C>>⟧ in
            ReadsInto C.Error.IsEof reader.state output.old output.new result self.old self.new }
        ensures unchanged { OnErr result (self.new ≡ self.old) }
    {
        let length = output.len();
        if self.rest.len() < length {
            return Err(error_end_of_input());
        }
        let (prefix, rest) = self.rest.split_at(length);
        output.copy_from_slice(prefix);
        self.rest = rest;
        Ok(())
    }

    #[inline(always)]
    fn peek_bytes(&mut self, output: &mut [u8]) -> Result<(), C::Error>
        ensures peeks { let reader = ⟦<BufferReader<'a, C> as LendingReader<&'a [u8], C>>⟧ in
            PeeksInto C.Error.IsEof reader.state output.old output.new result self.old self.new }
        ensures unchanged { OnErr result (self.new ≡ self.old) }
    {
        let length = output.len();
        if self.rest.len() < length {
            return Err(error_end_of_input());
        }
        output.copy_from_slice(&self.rest[..length]);
        Ok(())
    }

    #[inline(always)]
    fn skip_bytes(&mut self, length: usize) -> Result<(), C::Error>
        ensures skips { let reader = ⟦<BufferReader<'a, C> as LendingReader<&'a [u8], C>>⟧ in
            Skips C.Error.IsEof reader.state length result self.old self.new }
        ensures nothing { let reader = ⟦<BufferReader<'a, C> as LendingReader<&'a [u8], C>>⟧ in
            length ≡ 0 → IsOk result × (reader.state self.new ≡ reader.state self.old) }
        ensures unchanged { OnErr result (self.new ≡ self.old) }
    {
        if self.rest.len() < length {
            return Err(error_end_of_input());
        }
        self.rest = &self.rest[length..];
        Ok(())
    }

    #[inline(always)]
    fn can_read_at_least(&self, size: usize) -> Option<bool> {
        Some(size <= self.rest.len())
    }

    #[inline(always)]
    fn read_bytes_borrowed(&mut self, length: usize) -> Option<Result<&'a [u8], C::Error>>
        ensures lends { let reader = ⟦<BufferReader<'a, C> as LendingReader<&'a [u8], C>>⟧ in
            LendsBytes C.Error.IsEof reader.state (λ b. b.now) length result self.old self.new }
        ensures unchanged { IfSome result (λ lent. OnErr lent (self.new ≡ self.old)) }
    {
        match self.rest.split_at_checked(length) {
            Some((lent, rest)) => {
                self.rest = rest;
                Some(Ok(lent))
            }
            None => Some(Err(error_end_of_input())),
        }
    }

    #[inline(always)]
    fn read_bytes_borrowed_from_reader(
        &mut self,
        length: usize,
    ) -> Option<Result<&[u8], EndOfInput>>
        ensures* after { sem 𝓛 (Rests (reader_row readers_lifetime C.row)
            self.entry (λ new. LendsUntilUsed (λ b. b.now) length result
            (⟦<BufferReader<'a, C> as LendingReader<&'a [u8], C>>⟧.state self.old)
            (⟦<BufferReader<'a, C> as LendingReader<&'a [u8], C>>⟧.state new))) }
        ensures is_lent { IsSome result }
    {
        match self.rest.split_at_checked(length) {
            Some((prefix, rest)) => {
                self.rest = rest;
                Some(Ok(prefix))
            }
            None => Some(Err(EndOfInput {})),
        }
    }

    #[inline(always)]
    fn read_bytes_borrowed_until_eof(&mut self) -> Option<&'a [u8]>
        ensures lends { let reader = ⟦<BufferReader<'a, C> as LendingReader<&'a [u8], C>>⟧ in
            LendsAll (λ b. b.now) result (reader.state self.old) (reader.state self.new) }
        ensures is_lent { IsSome result }
    {
        let rest = self.rest;
        self.rest = &[];
        Some(rest)
    }

    #[inline(always)]
    fn peek_bytes_until_eof(&self) -> Option<&[u8]> {
        Some(self.rest)
    }

    #[inline(always)]
    fn alloc(&self) -> Global {
        self.alloc
    }

    #[inline(always)]
    fn context(&self) -> &C {
        &self.context
    }

    #[inline(always)]
    fn context_mut(&mut self) -> &mut C {
        &mut self.context
    }

    ghost mode_at = { λ r. refl };

    ghost state_with = { λ r c. refl };
}

impl<'a, C: Context> MemoryReader<&'a [u8], C> for BufferReader<'a, C> {
    #[inline(always)]
    fn left(&self) -> usize {
        self.len()
    }

    ghost in_memory = { λ r. bytes_in_memory };
}
