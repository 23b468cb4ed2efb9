//! The writer that `bytes_needed` of `writable` counts by. Items of a list are counted together in `each`.
//!
//! It stays at `usize::MAX`, where the public `SizeCalculatorCollector` of `collectors` refuses.
ghost use Rattle.std.specs.Prelude.{◌≡◌, ◌∷◌, [], None, refl, true};
ghost use Rattle.speedy_write.specs.Counting.{counting_state, CountAppends, count_nothing, count_additive};

use crate::writer::Writer;
use speedy_base::context::Context;

/// A writer that only counts bytes.
///
/// The sum stays at `usize::MAX` once it is there. No write of bytes is an error, so a loop over many values has no way
/// out in it, and a compiler may add for several of them at once.
#[derive(Drop)]
pub struct CountingCollector<'a, C> {
    context: &'a mut C,
    size: usize,
}

impl<'a, C> CountingCollector<'a, C> {
    ghost use Rattle.speedy_write.specs.CollectorModels.{counting_model};

    /// A writer that has counted nothing yet.
    #[inline]
    pub fn new(context: &'a mut C) -> CountingCollector<'a, C>
        ensures same_context { (counting_model result).context_name ≡ context.entry.ghost_name }
        ensures context { (counting_model result).context ≡ context.old }
        ensures size { (counting_model result).size ≡ 0 }
    {
        CountingCollector { context, size: 0 }
    }

    /// Gives the context back, and says how many bytes were counted.
    #[inline]
    pub fn finish(self) -> usize
        ensures context { self.exit.0.now ≡ (counting_model self.entry).context }
        ensures size { result ≡ (counting_model self.entry).size }
    {
        self.size
    }
}

impl<'a, C: Context> Writer<C> for CountingCollector<'a, C> {
    ghost is_counter = { true };

    ghost at = { λ w. w.context.now };

    ghost with_context = { λ w c. record w { context = record w.context { now = c } } };

    ghost state = { λ w. counting_state (C.mode w.context.now) (w.context.ghost_name ∷ []) };

    ghost appends = { λ a s b. CountAppends a.size s b.size };

    ghost can_write = { λ w n. None };

    ghost mode_at = { λ w. refl };

    ghost state_with = { λ w c. refl };

    ghost nothing = { λ w. count_nothing w.size };

    ghost additive = { λ a b c s t h k. count_additive a.size b.size c.size s t h k };

    ghost appends_with = { λ a b s c h. (h, h) };

    #[inline(always)]
    fn write_bytes(&mut self, slice: &[u8]) -> Result<(), C::Error> {
        self.size = self.size.saturating_add(slice.len());
        Ok(())
    }

    #[inline(always)]
    fn counts() -> bool {
        true
    }

    /// Adds `size` bytes at once.
    #[inline(always)]
    fn count_bytes(&mut self, size: usize) -> Option<Result<(), C::Error>> {
        self.size = self.size.saturating_add(size);
        Some(Ok(()))
    }

    #[inline(always)]
    fn context(&self) -> &C {
        &*self.context
    }

    #[inline(always)]
    fn context_mut(&mut self) -> &mut C {
        &mut *self.context
    }

    #[inline(always)]
    fn can_write_at_least(&self, _size: usize) -> Option<bool> {
        None
    }
}
