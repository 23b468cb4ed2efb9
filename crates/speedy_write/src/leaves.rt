//! How characters, byte orders, durations and UUIDs are written.
ghost use Rattle.std.specs.Prelude.{◌≡◌, false, IsSome};
ghost use Rattle.speedy_write.specs.Writing.{WritesIfSome};

use crate::fixed::{CodeDigits, Durations, write_values};
use crate::writable::Writable;
use crate::writer::Writer;
use speedy_base::context::Context;
use speedy_base::endianness::Endianness;
use speedy_layout::Layout;
use std::time::Duration;
use uuid::Uuid;

impl<C: Context> Writable<C> for char {
    #[inline]
    fn write_to<W: Writer<C>>(&self, writer: &mut W) -> Result<(), C::Error> {
        writer.write_code(self)
    }

    /// Writes the characters by chunks of their bytes.
    #[inline(always)]
    fn write_in_bulk<W: Writer<C>>(items: &[char], writer: &mut W) -> Option<Result<(), C::Error>>
        ensures writes { let layout = ⟦<char as Layout>⟧ in
            WritesIfSome C.Error.from_gives W.state W.appends layout.seen layout.layout items.now
            result writer.old writer.new }
        ensures answers { W.is_counter ≡ false → IsSome result }
    {
        write_values::<C, char, CodeDigits, W>(items, writer)
    }
}

impl<C: Context> Writable<C> for Endianness {
    #[inline]
    fn write_to<W: Writer<C>>(&self, writer: &mut W) -> Result<(), C::Error> {
        writer.write_code(self)
    }
}

impl<C: Context> Writable<C> for Duration {
    #[inline]
    fn write_to<W: Writer<C>>(&self, writer: &mut W) -> Result<(), C::Error> {
        writer.write_code(self)
    }

    /// Writes the durations by chunks of their bytes.
    #[inline(always)]
    fn write_in_bulk<W: Writer<C>>(
        items: &[Duration],
        writer: &mut W,
    ) -> Option<Result<(), C::Error>>
        ensures writes { let layout = ⟦<Duration as Layout>⟧ in
            WritesIfSome C.Error.from_gives W.state W.appends layout.seen layout.layout items.now
            result writer.old writer.new }
        ensures answers { W.is_counter ≡ false → IsSome result }
    {
        write_values::<C, Duration, Durations, W>(items, writer)
    }
}

impl<C: Context> Writable<C> for Uuid {
    #[inline]
    fn write_to<W: Writer<C>>(&self, writer: &mut W) -> Result<(), C::Error> {
        let bytes = self.into_bytes();
        writer.write_bytes(&bytes)
    }
}
