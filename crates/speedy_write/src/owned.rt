//! How `Box` and references are written: as their content.
use crate::writable::Writable;
use crate::writer::Writer;
use speedy_base::context::Context;

impl<C: Context, T: Writable<C>> Writable<C> for Box<T> {
    #[inline]
    fn write_to<W: Writer<C>>(&self, writer: &mut W) -> Result<(), C::Error> {
        T::write_to(self.as_ref(), writer)
    }
}

impl<'a, C: Context, T: Writable<C>> Writable<C> for &'a T {
    #[inline]
    fn write_to<W: Writer<C>>(&self, writer: &mut W) -> Result<(), C::Error> {
        T::write_to(*self, writer)
    }
}

impl<'a, C: Context, T: Writable<C>> Writable<C> for &'a mut T {
    #[inline]
    fn write_to<W: Writer<C>>(&self, writer: &mut W) -> Result<(), C::Error> {
        T::write_to(&**self, writer)
    }
}
