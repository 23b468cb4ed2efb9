//! How tuples are written: part by part.
//!
//! A tuple of more than two parts is written as its first part and the tuple of the others.
use crate::part::Part;
use crate::writable::Writable;
use crate::writer::Writer;
use speedy_base::context::Context;

impl<C: Context> Writable<C> for () {
    #[inline(always)]
    fn write_to<W: Writer<C>>(&self, _writer: &mut W) -> Result<(), C::Error> {
        Ok(())
    }
}

impl<C: Context, T0: Writable<C>> Writable<C> for (T0,) {
    #[inline]
    fn write_to<W: Writer<C>>(&self, writer: &mut W) -> Result<(), C::Error> {
        writer.write_value(&self.0)
    }
}

impl<C: Context, T0: Writable<C>, T1: Writable<C>> Writable<C> for (T0, T1) {
    #[inline]
    fn write_to<W: Writer<C>>(&self, writer: &mut W) -> Result<(), C::Error> {
        writer.write_value(&self.0)?;
        writer.write_value(&self.1)
    }
}

impl<C: Context, T0: Writable<C>, T1: Writable<C>, T2: Writable<C>> Writable<C> for (T0, T1, T2) {
    #[inline]
    fn write_to<W: Writer<C>>(&self, writer: &mut W) -> Result<(), C::Error> {
        writer.write_value(&(Part(&self.0), (Part(&self.1), Part(&self.2))))
    }
}

impl<C: Context, T0: Writable<C>, T1: Writable<C>, T2: Writable<C>, T3: Writable<C>> Writable<C>
    for (T0, T1, T2, T3) {
    #[inline]
    fn write_to<W: Writer<C>>(&self, writer: &mut W) -> Result<(), C::Error> {
        writer.write_value(&(Part(&self.0), (Part(&self.1), Part(&self.2), Part(&self.3))))
    }
}

impl<
    C: Context,
    T0: Writable<C>,
    T1: Writable<C>,
    T2: Writable<C>,
    T3: Writable<C>,
    T4: Writable<C>,
> Writable<C> for (T0, T1, T2, T3, T4) {
    #[inline]
    fn write_to<W: Writer<C>>(&self, writer: &mut W) -> Result<(), C::Error> {
        writer.write_value(&(
            Part(&self.0),
            (Part(&self.1), Part(&self.2), Part(&self.3), Part(&self.4)),
        ))
    }
}

impl<
    C: Context,
    T0: Writable<C>,
    T1: Writable<C>,
    T2: Writable<C>,
    T3: Writable<C>,
    T4: Writable<C>,
    T5: Writable<C>,
> Writable<C> for (T0, T1, T2, T3, T4, T5) {
    #[inline]
    fn write_to<W: Writer<C>>(&self, writer: &mut W) -> Result<(), C::Error> {
        writer.write_value(&(
            Part(&self.0),
            (
                Part(&self.1),
                Part(&self.2),
                Part(&self.3),
                Part(&self.4),
                Part(&self.5),
            ),
        ))
    }
}

impl<
    C: Context,
    T0: Writable<C>,
    T1: Writable<C>,
    T2: Writable<C>,
    T3: Writable<C>,
    T4: Writable<C>,
    T5: Writable<C>,
    T6: Writable<C>,
> Writable<C> for (T0, T1, T2, T3, T4, T5, T6) {
    #[inline]
    fn write_to<W: Writer<C>>(&self, writer: &mut W) -> Result<(), C::Error> {
        writer.write_value(&(
            Part(&self.0),
            (
                Part(&self.1),
                Part(&self.2),
                Part(&self.3),
                Part(&self.4),
                Part(&self.5),
                Part(&self.6),
            ),
        ))
    }
}

impl<
    C: Context,
    T0: Writable<C>,
    T1: Writable<C>,
    T2: Writable<C>,
    T3: Writable<C>,
    T4: Writable<C>,
    T5: Writable<C>,
    T6: Writable<C>,
    T7: Writable<C>,
> Writable<C> for (T0, T1, T2, T3, T4, T5, T6, T7) {
    #[inline]
    fn write_to<W: Writer<C>>(&self, writer: &mut W) -> Result<(), C::Error> {
        writer.write_value(&(
            Part(&self.0),
            (
                Part(&self.1),
                Part(&self.2),
                Part(&self.3),
                Part(&self.4),
                Part(&self.5),
                Part(&self.6),
                Part(&self.7),
            ),
        ))
    }
}

impl<
    C: Context,
    T0: Writable<C>,
    T1: Writable<C>,
    T2: Writable<C>,
    T3: Writable<C>,
    T4: Writable<C>,
    T5: Writable<C>,
    T6: Writable<C>,
    T7: Writable<C>,
    T8: Writable<C>,
> Writable<C> for (T0, T1, T2, T3, T4, T5, T6, T7, T8) {
    #[inline]
    fn write_to<W: Writer<C>>(&self, writer: &mut W) -> Result<(), C::Error> {
        writer.write_value(&(
            Part(&self.0),
            (
                Part(&self.1),
                Part(&self.2),
                Part(&self.3),
                Part(&self.4),
                Part(&self.5),
                Part(&self.6),
                Part(&self.7),
                Part(&self.8),
            ),
        ))
    }
}

impl<
    C: Context,
    T0: Writable<C>,
    T1: Writable<C>,
    T2: Writable<C>,
    T3: Writable<C>,
    T4: Writable<C>,
    T5: Writable<C>,
    T6: Writable<C>,
    T7: Writable<C>,
    T8: Writable<C>,
    T9: Writable<C>,
> Writable<C> for (T0, T1, T2, T3, T4, T5, T6, T7, T8, T9) {
    #[inline]
    fn write_to<W: Writer<C>>(&self, writer: &mut W) -> Result<(), C::Error> {
        writer.write_value(&(
            Part(&self.0),
            (
                Part(&self.1),
                Part(&self.2),
                Part(&self.3),
                Part(&self.4),
                Part(&self.5),
                Part(&self.6),
                Part(&self.7),
                Part(&self.8),
                Part(&self.9),
            ),
        ))
    }
}

impl<
    C: Context,
    T0: Writable<C>,
    T1: Writable<C>,
    T2: Writable<C>,
    T3: Writable<C>,
    T4: Writable<C>,
    T5: Writable<C>,
    T6: Writable<C>,
    T7: Writable<C>,
    T8: Writable<C>,
    T9: Writable<C>,
    T10: Writable<C>,
> Writable<C> for (T0, T1, T2, T3, T4, T5, T6, T7, T8, T9, T10) {
    #[inline]
    fn write_to<W: Writer<C>>(&self, writer: &mut W) -> Result<(), C::Error> {
        writer.write_value(&(
            Part(&self.0),
            (
                Part(&self.1),
                Part(&self.2),
                Part(&self.3),
                Part(&self.4),
                Part(&self.5),
                Part(&self.6),
                Part(&self.7),
                Part(&self.8),
                Part(&self.9),
                Part(&self.10),
            ),
        ))
    }
}
