//! Views show the items that their bytes encode in little endian, and are written in either order.
//!
//! Where the bytes lie makes no difference.
use crate::asserting::{assert_ok_items, assert_same};
use speedy::context::LittleEndian;
use speedy::endianness::Endianness;
use speedy::readable::BufferReader;
use speedy::reader::LendingReader;
use speedy::view_items::ViewItem;
use speedy::views::{ArrayView, SliceView, ViewIter};
use speedy::writable::Writable;
use std::alloc::Global;
use std::fmt::Debug;
use std::process::Abort;

/// Asserts that the items that are left are these, that so many are said to be left, and that the walk ends after
/// them.
fn assert_left<T: ViewItem + PartialEq + Debug>(
    rt: &impl Abort,
    left: ViewIter<'_, T>,
    items: &[T],
) {
    let mut left = left;
    assert_same(rt, left.len(), items.len());
    for item in items {
        assert_same(rt, left.next(), Some(*item));
    }
    assert_same(rt, left.next(), None);
    assert_same(rt, left.next(), None);
}

/// Asserts that the view shows these items: as many, in a walk, and one at each index and none past the last one.
fn assert_shows<T: ViewItem + PartialEq + Debug>(
    rt: &impl Abort,
    view: &SliceView<'_, T>,
    items: &[T],
) {
    assert_same(rt, view.len(), items.len());
    for (index, item) in items.iter().enumerate() {
        assert_same(rt, view.get(index), Some(*item));
    }
    assert_same(rt, view.get(items.len()), None);
    assert_same(rt, view.get(usize::MAX), None);
    assert_left(rt, view.iter(), items);
    assert_left(rt, view.into_iter(), items);
}

/// Asserts the same of a view of `N` items.
fn assert_array_shows<T: ViewItem + PartialEq + Debug, const N: usize>(
    rt: &impl Abort,
    view: &ArrayView<'_, T, N>,
    items: &[T],
) {
    assert_same(rt, view.len(), items.len());
    for (index, item) in items.iter().enumerate() {
        assert_same(rt, view.get(index), Some(*item));
    }
    assert_same(rt, view.get(items.len()), None);
    assert_left(rt, view.iter(), items);
    assert_left(rt, view.into_iter(), items);
}

#[test]
fn views_show_what_their_bytes_encode(rt: HostRuntime) {
    let view: SliceView<u8> = SliceView::over(&[1, 2, 255]);
    assert_shows(&rt, &view, &[1, 2, 255]);
    let view: SliceView<i8> = SliceView::over(&[255, 128]);
    assert_shows(&rt, &view, &[-1, -128]);
    let view: SliceView<i16> = SliceView::over(&[223, 255, 0, 128]);
    assert_shows(&rt, &view, &[-33, -32768]);
    let view: SliceView<u64> = SliceView::over(&[]);
    assert_shows(&rt, &view, &[]);
}

#[test]
fn views_lie_at_any_address(rt: HostRuntime) {
    let bytes = [9, 1, 2, 3, 4, 9];
    let view: SliceView<u16> = SliceView::over(&bytes[1..5]);
    assert_shows(&rt, &view, &[513, 1027]);
    let view: SliceView<u16> = SliceView::over(&bytes[2..]);
    assert_shows(&rt, &view, &[770, 2308]);
    let view: ArrayView<u16, 2> = ArrayView::over(&bytes[1..5]);
    assert_array_shows(&rt, &view, &[513, 1027]);
}

#[test]
fn array_views_show_so_many_items(rt: HostRuntime) {
    let view: ArrayView<i8, 4> = ArrayView::over(&[255, 128, 0, 127]);
    assert_array_shows(&rt, &view, &[-1, -128, 0, 127]);
    let view: ArrayView<u16, 0> = ArrayView::over(&[]);
    assert_array_shows(&rt, &view, &[]);
}

/// Asserts that a view of the items 513 and 1027 is read of the first bytes, and is written in either order.
fn assert_pair_read(rt: &impl Abort, alloc: Global, bytes: &[u8]) {
    let mut reader = BufferReader::new(alloc, LittleEndian {}, bytes);
    let view: SliceView<u16> = reader.read_value().expect(rt, "a view");
    assert_same(rt, bytes.len().saturating_sub(reader.len()), 8);
    assert_shows(rt, &view, &[513, 1027]);
    let written = view.write_to_vec_with_ctx(alloc, Endianness::LittleEndian);
    assert_ok_items(rt, written, &[2, 0, 0, 0, 1, 2, 3, 4]);
    let written = view.write_to_vec_with_ctx(alloc, Endianness::BigEndian);
    assert_ok_items(rt, written, &[0, 0, 0, 2, 2, 1, 4, 3]);
}

#[test]
fn views_are_read_where_they_are_lent(rt: HostRuntime) {
    let alloc = rt.alloc();
    // The encoding lies twice, so that one of the two lies at an odd address.
    let bytes = [9, 2, 0, 0, 0, 1, 2, 3, 4, 9, 2, 0, 0, 0, 1, 2, 3, 4];
    assert_pair_read(&rt, alloc, &bytes[1..]);
    assert_pair_read(&rt, alloc, &bytes[10..]);
}

#[test]
fn views_are_printed_as_lists(rt: HostRuntime) {
    let view: SliceView<u16> = SliceView::over(&[1, 2, 3, 4]);
    let printed = format!(in rt.alloc(); "{view:?}").expect(&rt, "a text");
    assert_same(&rt, printed.as_str(), "[513, 1027]");
    let array: ArrayView<i8, 1> = ArrayView::over(&[255]);
    let printed = format!(in rt.alloc(); "{array:?}").expect(&rt, "a text");
    assert_same(&rt, printed.as_str(), "[-1]");
}
