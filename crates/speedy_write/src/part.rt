//! How parts are written: where they lie.
use crate::lengths::{WriteHolds, WriteOfLength};
use crate::prefixed::{WritePrefix, WriteTold};
use crate::writable::Writable;
use crate::writer::Writer;
use speedy_base::context::Context;
pub use speedy_layout::part::Part;

impl<'t, C: Context, T: Writable<C>> Writable<C> for Part<'t, T> {
    #[inline]
    fn write_to<W: Writer<C>>(&self, writer: &mut W) -> Result<(), C::Error> {
        writer.write_value(self.0)
    }
}

impl<'t, C: Context, T: WriteTold<C>> WriteTold<C> for Part<'t, T> {
    #[inline]
    fn write_behind<N: WritePrefix, W: Writer<C>>(&self, writer: &mut W) -> Result<(), C::Error> {
        self.0.write_behind::<N, W>(writer)
    }
}

impl<'t, C: Context, T: WriteOfLength<C>> WriteOfLength<C> for Part<'t, T> {
    #[inline]
    fn length(&self) -> usize {
        self.0.length()
    }

    #[inline]
    fn write_of_length<W: Writer<C>>(&self, writer: &mut W) -> Result<(), C::Error> {
        self.0.write_of_length(writer)
    }
}

impl<'t, C: Context, T: WriteHolds<C>> WriteHolds<C> for Part<'t, T> {
    #[inline]
    fn write_parts<W: Writer<C>>(&self, writer: &mut W) -> Result<(), C::Error> {
        self.0.write_parts(writer)
    }
}
