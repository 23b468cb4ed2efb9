//! How integers of variable length are written: by `write_u64_varint` of `writer`.
ghost use Rattle.std.specs.Prelude.{◌<◌, ◌≤◌, length, IsTrue, IsSome};
ghost use Rattle.speedy_write.specs.Writing.{WritesIfSome};

use crate::each::{Short, count_short};
use crate::writable::Writable;
use crate::writer::Writer;
use speedy_base::context::Context;
use speedy_layout::{Layout, VarInt64};

impl<C: Context> Writable<C> for VarInt64 {
    #[inline]
    fn write_to<W: Writer<C>>(&self, writer: &mut W) -> Result<(), C::Error> {
        writer.write_u64_varint(u64::from(*self))
    }

    /// Counts the values together, where each takes few bytes. It writes none.
    #[inline(always)]
    fn write_in_bulk<W: Writer<C>>(
        items: &[VarInt64],
        writer: &mut W,
    ) -> Option<Result<(), C::Error>>
        ensures counts { let layout = ⟦<VarInt64 as Layout>⟧ in
            WritesIfSome C.Error.from_gives W.state W.appends layout.seen layout.layout items.now
            result writer.old writer.new }
        ensures answers { IsTrue W.is_counter → length items.now ≤ 4294967295 → IsSome result }
    {
        count_short(items, writer)
    }
}

impl Short for VarInt64 {
    #[inline(always)]
    fn size(&self) -> usize {
        let (_, count) = self.encode();
        count
    }
}
