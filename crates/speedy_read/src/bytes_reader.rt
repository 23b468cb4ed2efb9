//! Readers of bytes in memory under a context that they borrow: one that lends them, and one that lends nothing.
ghost use Rattle.std.specs.Prelude.{IsOk, ◌≡◌, ◌∷◌, [], Bool, IsTrue, true, false, length, nat_le};
ghost use Rattle.std.specs.Prelude.{Some, None, OnErr, IsSome, MatchOption, refl};
ghost use Rattle.std.specs.Borrow.{sem};
ghost use Rattle.std.specs.Io.BufRead.{Rests};
ghost use Rattle.speedy_read.specs.Lending.{readers_lifetime, contexts_lifetime};
ghost use Rattle.speedy_read.specs.Reading.{ReadsInto, PeeksInto, Skips, LendsBytes, LendsUntilUsed, LendsAll};
ghost use Rattle.speedy_read.specs.contracts.bytes_reader.BytesReader.{the_row as reader_row};
ghost use Rattle.speedy_read.specs.Buffers.{memory_state};
ghost use Rattle.speedy_read.specs.Wholes.{bytes_in_memory};

use crate::memory_reader::MemoryReader;
use crate::reader::{EndOfInput, LendingReader};
use speedy_base::context::Context;
use speedy_base::error::error_end_of_input;
use std::alloc::Global;
use std::convert::AsSlice;
use std::marker::PhantomData;

/// Whether a reader of bytes in memory, which it has for `'a`, lends them, and as what.
pub trait MayLend<'a, L: AsSlice<u8>> {
    ghost lends: { Bool };

    /// The bytes, where they are lent.
    fn lend(bytes: &'a [u8]) -> Option<L>
        ensures { MatchOption result (lends ≡ false) (λ l. IsTrue lends × (L.items l ≡ bytes.now)) };
}

/// Bytes are lent for as long as the reader has them.
pub struct Lent {}

impl<'a> MayLend<'a, &'a [u8]> for Lent {
    ghost lends = { true };

    #[inline(always)]
    fn lend(bytes: &'a [u8]) -> Option<&'a [u8]> {
        Some(bytes)
    }
}

/// No bytes are lent.
pub struct Copied {}

impl<'a, 'b> MayLend<'a, &'b [u8]> for Copied {
    ghost lends = { false };

    #[inline(always)]
    fn lend(_bytes: &'a [u8]) -> Option<&'b [u8]> {
        None
    }
}

/// A reader of bytes in memory, under a context that it borrows. `U` says whether it lends parts of them.
#[derive(Drop)]
pub struct BytesReader<'a, 'c, U, C> {
    context: &'c mut C,
    alloc: Global,
    rest: &'a [u8],
    lends: PhantomData<U>,
}

/// A reader of bytes in memory that lends none of them, under a context that it borrows.
///
/// Nothing is lent for longer than until its next use, so a value that has to borrow is the error `Unsized`.
pub type CopyingBufferReader<'a, C> = BytesReader<'a, 'a, Copied, C>;

// A reader of the bytes of a frame, which lends parts of them.
pub(crate) type FrameReader<'a, 'c, C> = BytesReader<'a, 'c, Lent, C>;

impl<'a, 'c, U, C> BytesReader<'a, 'c, U, C> {
    ghost use Rattle.speedy_read.specs.BytesModel.{bytes_model};

    /// A reader at the beginning of the bytes.
    #[inline]
    pub fn new(alloc: Global, context: &'c mut C, bytes: &'a [u8]) -> BytesReader<'a, 'c, U, C>
        ensures same_context { (bytes_model result).context_name ≡ context.entry.ghost_name }
        ensures context { (bytes_model result).context ≡ context.old }
        ensures rest { (bytes_model result).rest ≡ bytes.now }
    {
        BytesReader {
            context,
            alloc,
            rest: bytes,
            lends: PhantomData,
        }
    }

    /// Gives the context back, and says how many bytes were not read.
    #[inline]
    pub fn finish(self) -> usize
        ensures context { self.exit.0.now ≡ (bytes_model self.entry).context }
        ensures rest { result ≡ length (bytes_model self.entry).rest }
    {
        self.rest.len()
    }
}

impl<'a, 'c, L: AsSlice<u8> + Drop, U: MayLend<'a, L>, C: Context> LendingReader<L, C>
    for BytesReader<'a, 'c, U, C> {
    ghost at = { λ r. r.context.now };

    ghost with_context = { λ r c. record r { context = record r.context { now = c } } };

    ghost state = { λ r. memory_state U.lends (r.context.ghost_name ∷ []) r.rest.now (C.mode r.context.now) };

    ghost can_read = { λ r n. Some (nat_le n (length r.rest.now)) };

    #[inline(always)]
    fn read_bytes(&mut self, output: &mut [u8]) -> Result<(), C::Error>
        ensures reads { let reader = ⟦<BytesReader<'a, 'c, U, C> as LendingReader<L, C>>⟧ in
            ReadsInto C.Error.IsEof reader.state output.old output.new result self.old self.new }
        ensures unchanged { OnErr result (self.new ≡ self.old) }
    {
        match self.rest.split_at_checked(output.len()) {
            Some((prefix, rest)) => {
                output.copy_from_slice(prefix);
                self.rest = rest;
                Ok(())
            }
            None => Err(error_end_of_input()),
        }
    }

    #[inline(always)]
    fn peek_bytes(&mut self, output: &mut [u8]) -> Result<(), C::Error>
        ensures peeks { let reader = ⟦<BytesReader<'a, 'c, U, C> as LendingReader<L, C>>⟧ in
            PeeksInto C.Error.IsEof reader.state output.old output.new result self.old self.new }
        ensures unchanged { OnErr result (self.new ≡ self.old) }
    {
        match self.rest.split_at_checked(output.len()) {
            Some((prefix, _rest)) => {
                output.copy_from_slice(prefix);
                Ok(())
            }
            None => Err(error_end_of_input()),
        }
    }

    #[inline(always)]
    fn skip_bytes(&mut self, length: usize) -> Result<(), C::Error>
        ensures skips { let reader = ⟦<BytesReader<'a, 'c, U, C> as LendingReader<L, C>>⟧ in
            Skips C.Error.IsEof reader.state length result self.old self.new }
        ensures nothing { let reader = ⟦<BytesReader<'a, 'c, U, C> as LendingReader<L, C>>⟧ in
            length ≡ 0 → IsOk result × (reader.state self.new ≡ reader.state self.old) }
        ensures unchanged { OnErr result (self.new ≡ self.old) }
    {
        match self.rest.split_at_checked(length) {
            Some((_prefix, rest)) => {
                self.rest = rest;
                Ok(())
            }
            None => Err(error_end_of_input()),
        }
    }

    #[inline(always)]
    fn can_read_at_least(&self, size: usize) -> Option<bool> {
        Some(size <= self.rest.len())
    }

    #[inline(always)]
    fn read_bytes_borrowed(&mut self, length: usize) -> Option<Result<L, C::Error>>
        ensures lends { let reader = ⟦<BytesReader<'a, 'c, U, C> as LendingReader<L, C>>⟧ in
            LendsBytes C.Error.IsEof reader.state L.items length result self.old self.new }
        ensures none { U.lends ≡ false → result ≡ None }
    {
        match self.rest.split_at_checked(length) {
            Some((prefix, rest)) => {
                let Some(lent) = U::lend(prefix) else {
                    return None;
                };
                self.rest = rest;
                Some(Ok(lent))
            }
            None => {
                // One that lends nothing says so also where the bytes are not there.
                let Some(_) = U::lend(&[]) else {
                    return None;
                };
                Some(Err(error_end_of_input()))
            }
        }
    }

    #[inline(always)]
    fn read_bytes_borrowed_from_reader(
        &mut self,
        length: usize,
    ) -> Option<Result<&[u8], EndOfInput>>
        ensures* after { let reader = ⟦<BytesReader<'a, 'c, U, C> as LendingReader<L, C>>⟧ in
            sem 𝓛 (Rests (reader_row readers_lifetime contexts_lifetime U.row C.row)
            self.entry (λ new. LendsUntilUsed (λ b. b.now) length result
            (reader.state self.old) (reader.state new))) }
        ensures is_lent { IsSome result }
    {
        match self.rest.split_at_checked(length) {
            Some((prefix, rest)) => {
                self.rest = rest;
                Some(Ok(prefix))
            }
            None => Some(Err(EndOfInput {})),
        }
    }

    #[inline(always)]
    fn read_bytes_borrowed_until_eof(&mut self) -> Option<L>
        ensures lends { let reader = ⟦<BytesReader<'a, 'c, U, C> as LendingReader<L, C>>⟧ in
            LendsAll L.items result (reader.state self.old) (reader.state self.new) }
        ensures is_lent { IsTrue U.lends → IsSome result }
    {
        let Some(lent) = U::lend(self.rest) else {
            return None;
        };
        self.rest = &[];
        Some(lent)
    }

    #[inline(always)]
    fn peek_bytes_until_eof(&self) -> Option<&[u8]> {
        Some(self.rest)
    }

    #[inline(always)]
    fn alloc(&self) -> Global {
        self.alloc
    }

    #[inline(always)]
    fn context(&self) -> &C {
        &*self.context
    }

    #[inline(always)]
    fn context_mut(&mut self) -> &mut C {
        &mut *self.context
    }

    ghost mode_at = { λ r. refl };

    ghost state_with = { λ r c. refl };
}

impl<'a, 'c, L: AsSlice<u8> + Drop, U: MayLend<'a, L>, C: Context> MemoryReader<L, C>
    for BytesReader<'a, 'c, U, C> {
    #[inline(always)]
    fn left(&self) -> usize {
        let rest = self.rest;
        rest.len()
    }

    ghost in_memory = { λ r. bytes_in_memory };
}
