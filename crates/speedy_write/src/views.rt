//! How views are written: in the writer's order, whatever they lie over.
use crate::collections::write_counted_items;
use crate::writable::Writable;
use crate::writer::Writer;
use speedy_base::context::Context;
use speedy_layout::view_items::ViewItem;
use speedy_layout::views::{ArrayView, SliceView};

impl<'a, C: Context, T: Writable<C> + ViewItem> Writable<C> for SliceView<'a, T> {
    #[inline]
    fn write_to<W: Writer<C>>(&self, writer: &mut W) -> Result<(), C::Error> {
        let count = self.len();
        write_counted_items::<u32, C, _, _, W>(count, self.iter(), writer)
    }
}

impl<'a, C: Context, T: Writable<C> + ViewItem, const N: usize> Writable<C>
    for ArrayView<'a, T, N> {
    #[inline]
    fn write_to<W: Writer<C>>(&self, writer: &mut W) -> Result<(), C::Error> {
        writer.write_collection(self.iter())
    }
}
