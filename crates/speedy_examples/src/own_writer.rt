//! A writer of one's own, over another one: it adds up the bytes that it writes.
ghost use Rattle.std.specs.Prelude.{false};

use speedy::{Context, Writer};

/// A writer that keeps a sum of the bytes that it passes on to another one.
pub struct Summed<W> {
    pub writer: W,
    pub sum: u32,
}

impl<C: Context, W: Writer<C>> Writer<C> for Summed<W> {
    ghost is_counter = { false };

    ghost at = { λ it. W.at it.writer };

    ghost with_context = { λ it c. record it { writer = W.with_context it.writer c } };

    ghost state = { λ it. W.state it.writer };

    ghost appends = { λ before bytes after. W.appends before.writer bytes after.writer };

    ghost can_write = { λ it n. W.can_write it.writer n };

    fn write_bytes(&mut self, slice: &[u8]) -> Result<(), C::Error> {
        match self.writer.write_bytes(slice) {
            Ok(()) => {
                self.sum = sum_after(self.sum, slice);
                Ok(())
            }
            Err(error) => Err(error),
        }
    }

    fn counts() -> bool {
        false
    }

    fn count_bytes(&mut self, _size: usize) -> Option<Result<(), C::Error>> {
        None
    }

    fn context(&self) -> &C {
        self.writer.context()
    }

    fn context_mut(&mut self) -> &mut C {
        self.writer.context_mut()
    }

    fn can_write_at_least(&self, size: usize) -> Option<bool> {
        self.writer.can_write_at_least(size)
    }

    ghost mode_at = { λ it. W.mode_at it.writer };

    ghost state_with = { λ it c. W.state_with it.writer c };

    ghost nothing = { λ it. W.nothing it.writer };

    ghost additive = { λ a b c s t. W.additive a.writer b.writer c.writer s t };

    ghost appends_with = { λ a b s c. W.appends_with a.writer b.writer s c };
}

/// The sum of bytes after the sum of those before them.
fn sum_after(before: u32, bytes: &[u8]) -> u32 {
    let mut sum = before;
    for byte in bytes {
        sum = sum.wrapping_mul(31).wrapping_add(u32::from(*byte));
    }
    sum
}
