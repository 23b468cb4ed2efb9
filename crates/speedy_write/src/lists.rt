//! How lists are written: vectors, slices, boxed slices, small vectors and arrays.
ghost use Rattle.std.specs.Prelude.{◌≡◌, ◌<◌, ◌*◌, ◌^◌, length, map, All, IsSome};
ghost use Rattle.speedy_layout.specs.Codecs.{list_codec};
ghost use Rattle.speedy_layout.specs.Prefixed.{list_behind, prefixed_codec};
ghost use Rattle.speedy_write.specs.Writing.{WritesIfSome, WritesValue};

use crate::prefixed::{WritePrefix, WriteTold};
use crate::writable::Writable;
use crate::writer::Writer;
use smallvec::SmallVec;
use speedy_base::context::Context;
use speedy_layout::Layout;
use std::boxed::BoxedSlice;

impl<C: Context, T: Writable<C>> Writable<C> for Vec<T> {
    #[inline]
    fn write_to<W: Writer<C>>(&self, writer: &mut W) -> Result<(), C::Error> {
        let items = self.as_slice();
        write_counted(items, writer)
    }
}

impl<'a, C: Context, T: Writable<C>> Writable<C> for &'a [T] {
    #[inline]
    fn write_to<W: Writer<C>>(&self, writer: &mut W) -> Result<(), C::Error> {
        write_counted(*self, writer)
    }
}

impl<C: Context, T: Writable<C>> Writable<C> for BoxedSlice<T> {
    #[inline]
    fn write_to<W: Writer<C>>(&self, writer: &mut W) -> Result<(), C::Error> {
        write_counted(self.as_slice(), writer)
    }
}

impl<C: Context, T: Writable<C>, const N: usize> Writable<C> for SmallVec<T, N> {
    #[inline]
    fn write_to<W: Writer<C>>(&self, writer: &mut W) -> Result<(), C::Error> {
        let all = self.as_slice();
        write_counted(all, writer)
    }
}

impl<C: Context, T: Writable<C>, const N: usize> Writable<C> for [T; N] {
    #[inline]
    fn write_to<W: Writer<C>>(&self, writer: &mut W) -> Result<(), C::Error> {
        T::write_many(self.as_slice(), writer)
    }

    /// Writes the items of all the arrays one after another, unless they are more than a `usize` counts, as items
    /// without bytes may be.
    #[inline(always)]
    fn write_in_bulk<W: Writer<C>>(items: &[[T; N]], writer: &mut W) -> Option<Result<(), C::Error>>
        ensures writes { let layout = ⟦<[T; N] as Layout>⟧ in
            WritesIfSome C.Error.from_gives W.state W.appends layout.seen layout.layout items.now
            result writer.old writer.new }
        ensures answers { length items.now * N < 2 ^ 64 → IsSome result }
    {
        items.len().checked_mul(N)?;
        are_whole(items);
        Some(T::write_many(items.as_flattened(), writer))
    }
}

// Shows that an array has as many items as its type says. It does nothing.
#[inline]
fn is_whole<T, const N: usize>(_array: &[T; N])
    ensures { length _array.now ≡ N }
{}

// Shows it of each of these. A compiler leaves the loop out.
#[inline]
fn are_whole<T, const N: usize>(arrays: &[[T; N]])
    ensures { All (λ array. length array ≡ N) arrays.now }
{
    for array in arrays {
        is_whole(array);
    }
}

impl<C: Context, T: Writable<C>> WriteTold<C> for Vec<T> {
    #[inline]
    fn write_behind<N: WritePrefix, W: Writer<C>>(&self, writer: &mut W) -> Result<(), C::Error> {
        let items = self.as_slice();
        write_items_behind::<N, C, T, W>(items, writer)
    }
}

impl<'a, C: Context, T: Writable<C>> WriteTold<C> for &'a [T] {
    #[inline]
    fn write_behind<N: WritePrefix, W: Writer<C>>(&self, writer: &mut W) -> Result<(), C::Error> {
        write_items_behind::<N, C, T, W>(*self, writer)
    }
}

impl<C: Context, T: Writable<C>> WriteTold<C> for BoxedSlice<T> {
    #[inline]
    fn write_behind<N: WritePrefix, W: Writer<C>>(&self, writer: &mut W) -> Result<(), C::Error> {
        write_items_behind::<N, C, T, W>(self.as_slice(), writer)
    }
}

impl<C: Context, T: Writable<C>, const N: usize> WriteTold<C> for SmallVec<T, N> {
    #[inline]
    fn write_behind<P: WritePrefix, W: Writer<C>>(&self, writer: &mut W) -> Result<(), C::Error> {
        let all = self.as_slice();
        write_items_behind::<P, C, T, W>(all, writer)
    }
}

// The number of items in four bytes, and then the items. It says once for all lists that `list_codec` is this.
#[inline]
pub(crate) fn write_counted<C: Context, T: Writable<C>, W: Writer<C>>(
    items: &[T],
    writer: &mut W,
) -> Result<(), C::Error>
    ensures { WritesValue C.Error.from_gives W.state W.appends (map T.seen) (list_codec T.layout)
        items.now result writer.old writer.new }
{
    write_items_behind::<u32, C, T, W>(items, writer)
}

// The number of items as a number of the type `N`, and then the items.
#[inline]
pub(crate) fn write_items_behind<N: WritePrefix, C: Context, T: Writable<C>, W: Writer<C>>(
    items: &[T],
    writer: &mut W,
) -> Result<(), C::Error>
    ensures { WritesValue C.Error.from_gives W.state W.appends (map T.seen)
        (prefixed_codec (list_behind T.layout N.numbers)) items.now result writer.old writer.new }
{
    N::write_number(items.len(), writer)?;
    T::write_many(items, writer)
}
