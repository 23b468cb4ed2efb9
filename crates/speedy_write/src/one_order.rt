//! How numbers of one byte order are written: as numbers of their width, which are encoded in their own order.
ghost use Rattle.std.specs.Prelude.{◌≡◌, false, IsSome};
ghost use Rattle.speedy_write.specs.Writing.{WritesIfSome};

use crate::fixed::{Digits, write_number, write_values};
use crate::writable::Writable;
use crate::writer::Writer;
use speedy_base::context::Context;
use speedy_layout::fixed_numbers::FixedNumber;
use speedy_layout::{Big, Layout, Little};

impl<C: Context, T: FixedNumber> Writable<C> for Big<T> {
    #[inline]
    fn write_to<W: Writer<C>>(&self, writer: &mut W) -> Result<(), C::Error> {
        write_number::<Big<T>, C, W>(*self, writer)
    }

    #[inline(always)]
    fn write_in_bulk<W: Writer<C>>(items: &[Big<T>], writer: &mut W) -> Option<Result<(), C::Error>>
        ensures writes { let layout = ⟦<Big<T> as Layout>⟧ in
            WritesIfSome C.Error.from_gives W.state W.appends layout.seen layout.layout items.now
            result writer.old writer.new }
        ensures answers { W.is_counter ≡ false → IsSome result }
    {
        write_values::<C, Big<T>, Digits, W>(items, writer)
    }
}

impl<C: Context, T: FixedNumber> Writable<C> for Little<T> {
    #[inline]
    fn write_to<W: Writer<C>>(&self, writer: &mut W) -> Result<(), C::Error> {
        write_number::<Little<T>, C, W>(*self, writer)
    }

    #[inline(always)]
    fn write_in_bulk<W: Writer<C>>(
        items: &[Little<T>],
        writer: &mut W,
    ) -> Option<Result<(), C::Error>>
        ensures writes { let layout = ⟦<Little<T> as Layout>⟧ in
            WritesIfSome C.Error.from_gives W.state W.appends layout.seen layout.layout items.now
            result writer.old writer.new }
        ensures answers { W.is_counter ≡ false → IsSome result }
    {
        write_values::<C, Little<T>, Digits, W>(items, writer)
    }
}
