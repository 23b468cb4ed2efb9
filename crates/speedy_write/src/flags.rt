//! How flags (`bool`), and values that a flag chooses (`Option`, `Result`), are written.
ghost use Rattle.std.specs.Prelude.{◌≡◌, false, IsSome};
ghost use Rattle.speedy_write.specs.Writing.{WritesIfSome};

use crate::fixed::{CodeDigits, write_values};
use crate::writable::Writable;
use crate::writer::Writer;
use speedy_base::context::Context;
use speedy_layout::Layout;

impl<C: Context> Writable<C> for bool {
    #[inline]
    fn write_to<W: Writer<C>>(&self, writer: &mut W) -> Result<(), C::Error> {
        writer.write_code(self)
    }

    /// Writes the flags by chunks of their bytes.
    #[inline(always)]
    fn write_in_bulk<W: Writer<C>>(items: &[bool], writer: &mut W) -> Option<Result<(), C::Error>>
        ensures writes { let layout = ⟦<bool as Layout>⟧ in
            WritesIfSome C.Error.from_gives W.state W.appends layout.seen layout.layout items.now
            result writer.old writer.new }
        ensures answers { W.is_counter ≡ false → IsSome result }
    {
        write_values::<C, bool, CodeDigits, W>(items, writer)
    }
}

impl<C: Context, T: Writable<C>> Writable<C> for Option<T> {
    #[inline]
    fn write_to<W: Writer<C>>(&self, writer: &mut W) -> Result<(), C::Error> {
        match self {
            Some(value) => {
                writer.write_value(&true)?;
                writer.write_value(value)
            }
            None => writer.write_value(&false),
        }
    }
}

impl<C: Context, T: Writable<C>, U: Writable<C>> Writable<C> for Result<T, U> {
    #[inline]
    fn write_to<W: Writer<C>>(&self, writer: &mut W) -> Result<(), C::Error> {
        match self {
            Ok(value) => {
                writer.write_value(&true)?;
                writer.write_value(value)
            }
            Err(error) => {
                writer.write_value(&false)?;
                writer.write_value(error)
            }
        }
    }
}
