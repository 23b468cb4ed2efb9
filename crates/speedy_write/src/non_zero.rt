//! How numbers that are not 0 are written.
use crate::writable::Writable;
use crate::writer::Writer;
use speedy_base::context::Context;
use std::num::{
    NonZeroI8, NonZeroI16, NonZeroI32, NonZeroI64, NonZeroU8, NonZeroU16, NonZeroU32, NonZeroU64,
};

impl<C: Context> Writable<C> for NonZeroU8 {
    #[inline]
    fn write_to<W: Writer<C>>(&self, writer: &mut W) -> Result<(), C::Error> {
        writer.write_code(self)
    }
}

impl<C: Context> Writable<C> for NonZeroU16 {
    #[inline]
    fn write_to<W: Writer<C>>(&self, writer: &mut W) -> Result<(), C::Error> {
        writer.write_code(self)
    }
}

impl<C: Context> Writable<C> for NonZeroU32 {
    #[inline]
    fn write_to<W: Writer<C>>(&self, writer: &mut W) -> Result<(), C::Error> {
        writer.write_code(self)
    }
}

impl<C: Context> Writable<C> for NonZeroU64 {
    #[inline]
    fn write_to<W: Writer<C>>(&self, writer: &mut W) -> Result<(), C::Error> {
        writer.write_code(self)
    }
}

impl<C: Context> Writable<C> for NonZeroI8 {
    #[inline]
    fn write_to<W: Writer<C>>(&self, writer: &mut W) -> Result<(), C::Error> {
        writer.write_code(self)
    }
}

impl<C: Context> Writable<C> for NonZeroI16 {
    #[inline]
    fn write_to<W: Writer<C>>(&self, writer: &mut W) -> Result<(), C::Error> {
        writer.write_code(self)
    }
}

impl<C: Context> Writable<C> for NonZeroI32 {
    #[inline]
    fn write_to<W: Writer<C>>(&self, writer: &mut W) -> Result<(), C::Error> {
        writer.write_code(self)
    }
}

impl<C: Context> Writable<C> for NonZeroI64 {
    #[inline]
    fn write_to<W: Writer<C>>(&self, writer: &mut W) -> Result<(), C::Error> {
        writer.write_code(self)
    }
}
