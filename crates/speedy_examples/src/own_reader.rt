//! A reader of one's own, over another one: it knows how many bytes it took.
use speedy::reader::EndOfInput;
use speedy::{Context, LendingReader};
use std::alloc::Global;
use std::convert::AsSlice;

/// A reader that counts the bytes that it takes of another one.
pub struct Placed<R> {
    pub reader: R,
    pub taken: usize,
}

impl<L: AsSlice<u8> + Drop, C: Context, R: LendingReader<L, C>> LendingReader<L, C> for Placed<R> {
    ghost at = { λ it. R.at it.reader };

    ghost with_context = { λ it c. record it { reader = R.with_context it.reader c } };

    ghost state = { λ it. R.state it.reader };

    ghost can_read = { λ it n. R.can_read it.reader n };

    fn read_bytes(&mut self, output: &mut [u8]) -> Result<(), C::Error> {
        match self.reader.read_bytes(output) {
            Ok(()) => {
                self.taken = self.taken.saturating_add(output.len());
                Ok(())
            }
            Err(error) => Err(error),
        }
    }

    fn peek_bytes(&mut self, output: &mut [u8]) -> Result<(), C::Error> {
        self.reader.peek_bytes(output)
    }

    fn can_read_at_least(&self, size: usize) -> Option<bool> {
        self.reader.can_read_at_least(size)
    }

    fn read_bytes_borrowed(&mut self, length: usize) -> Option<Result<L, C::Error>> {
        match self.reader.read_bytes_borrowed(length) {
            Some(Ok(lent)) => {
                self.taken = self.taken.saturating_add(length);
                Some(Ok(lent))
            }
            Some(Err(error)) => Some(Err(error)),
            None => None,
        }
    }

    fn peek_bytes_until_eof(&self) -> Option<&[u8]> {
        self.reader.peek_bytes_until_eof()
    }

    fn alloc(&self) -> Global {
        self.reader.alloc()
    }

    fn context(&self) -> &C {
        self.reader.context()
    }

    fn context_mut(&mut self) -> &mut C {
        self.reader.context_mut()
    }

    ghost mode_at = { λ it. R.mode_at it.reader };

    ghost state_with = { λ it c. R.state_with it.reader c };
}
