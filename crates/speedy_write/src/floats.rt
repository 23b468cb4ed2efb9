//! How floats are written: as their bits.
ghost use Rattle.std.specs.Prelude.{◌≡◌, false, IsSome};
ghost use Rattle.speedy_write.specs.Writing.{WritesIfSome};

use crate::fixed::{Digits, write_values};
use crate::writable::Writable;
use crate::writer::Writer;
use speedy_base::context::Context;
use speedy_layout::{F32, F64, Layout};

impl<C: Context> Writable<C> for F32 {
    #[inline]
    fn write_to<W: Writer<C>>(&self, writer: &mut W) -> Result<(), C::Error> {
        writer.write_u32(self.bits())
    }

    /// Writes the floats by chunks of their bits.
    #[inline(always)]
    fn write_in_bulk<W: Writer<C>>(items: &[F32], writer: &mut W) -> Option<Result<(), C::Error>>
        ensures writes { let layout = ⟦<F32 as Layout>⟧ in
            WritesIfSome C.Error.from_gives W.state W.appends layout.seen layout.layout items.now
            result writer.old writer.new }
        ensures answers { W.is_counter ≡ false → IsSome result }
    {
        write_values::<C, F32, Digits, W>(items, writer)
    }
}

impl<C: Context> Writable<C> for F64 {
    #[inline]
    fn write_to<W: Writer<C>>(&self, writer: &mut W) -> Result<(), C::Error> {
        writer.write_u64(self.bits())
    }

    /// Writes the floats by chunks of their bits.
    #[inline(always)]
    fn write_in_bulk<W: Writer<C>>(items: &[F64], writer: &mut W) -> Option<Result<(), C::Error>>
        ensures writes { let layout = ⟦<F64 as Layout>⟧ in
            WritesIfSome C.Error.from_gives W.state W.appends layout.seen layout.layout items.now
            result writer.old writer.new }
        ensures answers { W.is_counter ≡ false → IsSome result }
    {
        write_values::<C, F64, Digits, W>(items, writer)
    }
}
