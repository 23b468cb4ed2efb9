//! How ranges are written.
use crate::writable::Writable;
use crate::writer::Writer;
use speedy_base::context::Context;
use std::ops::{Range, RangeInclusive};

impl<C: Context, T: Writable<C>> Writable<C> for Range<T> {
    #[inline]
    fn write_to<W: Writer<C>>(&self, writer: &mut W) -> Result<(), C::Error> {
        writer.write_value(&self.start)?;
        writer.write_value(&self.end)
    }
}

impl<C: Context, T: Writable<C>> Writable<C> for RangeInclusive<T> {
    #[inline]
    fn write_to<W: Writer<C>>(&self, writer: &mut W) -> Result<(), C::Error> {
        writer.write_value(self.start())?;
        writer.write_value(self.end())
    }
}
