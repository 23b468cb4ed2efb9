//! Views: bytes that are shown where they lie, as the numbers that they encode.
ghost use Rattle.std.specs.Prelude.{◌≡◌, ◌<◌, ◌≤◌, ◌*◌, ◌%◌, ℕ, List, length, map, get_or, Some, IfSome, MatchOption};
ghost use Rattle.std.specs.Cmp.{on_equiv, on_per};
ghost use Rattle.std.specs.Cmp.Lexicographic.{pointwise, lists_equiv, lists_per};
ghost use Rattle.std.specs.Iterator.{YieldsFirst, UpTo, item_count};
ghost use Rattle.std.specs.Iterator.Runs.{YieldsInOrder};
ghost use Rattle.std.specs.Iterator.SizeHint.{IsWithinCount};
ghost use Rattle.speedy_layout.specs.ViewIters.{left_items};
ghost use Rattle.speedy_layout.specs.Views.{shown_items, EncodesLittle};
ghost use Rattle.speedy_layout.specs.Codecs.{borrowed_codec, list_codec, vector_codec};

use crate::layout::Layout;
use crate::view_items::{FixedSize, ViewItem};
use std::alloc::AllocError;
use std::fmt;
use std::fmt::{Debug, Formatter, Write};
use std::iter::FusedIterator;
use std::marker::PhantomData;

/// A slice of numbers over the bytes that encode them in little endian.
///
/// Each is decoded when it is asked for, so the bytes may lie anywhere.
#[derive(Drop)]
pub struct SliceView<'a, T: FixedSize> {
    bytes: &'a [u8],
    item: PhantomData<T>,
    pub ghost whole: { length bytes.now % T.SIZE ≡ 0 },
}

impl<'a, T: ViewItem> SliceView<'a, T> {
    /// The view of all the bytes, which are those of a whole number of items.
    #[inline]
    pub fn over(bytes: &'a [u8]) -> SliceView<'a, T>
        requires { length bytes.now % T.SIZE ≡ 0 }
        ensures bytes { result.bytes.now ≡ bytes.now }
        ensures encoded { EncodesLittle T.layout.format T.seen
            (shown_items T.decoded T.SIZE result.bytes.now) bytes.now }
    {
        SliceView {
            bytes,
            item: PhantomData,
        }
    }

    /// The number of items.
    #[inline]
    pub fn len(&self) -> usize
        ensures { result ≡ length (shown_items T.decoded T.SIZE self.now.bytes.now) }
    {
        self.bytes.len() / T::SIZE
    }

    /// The item at an index, or `None` past the last one.
    #[inline]
    pub fn get(&self, index: usize) -> Option<T>
        ensures { let items = shown_items T.decoded T.SIZE self.now.bytes.now in
            MatchOption result (length items ≤ index)
            (λ x. (index < length items) × (x ≡ get_or items index x)) }
    {
        item_at(self.bytes, index)
    }

    /// The items, in order: those that the bytes of the view encode in little endian.
    #[inline]
    pub fn iter(&self) -> ViewIter<'a, T>
        ensures shown { left_items T.decoded T.SIZE result
            ≡ shown_items T.decoded T.SIZE self.now.bytes.now }
        ensures runs { let left = left_items T.decoded T.SIZE in
            YieldsInOrder (YieldsFirst left) left }
        ensures encoded { EncodesLittle T.layout.format T.seen
            (shown_items T.decoded T.SIZE self.now.bytes.now) self.now.bytes.now }
    {
        items_of(self.bytes)
    }
}

impl<'a, T: FixedSize> Copy for SliceView<'a, T> {}

impl<'a, T: FixedSize> Clone for SliceView<'a, T> {
    ghost is_clone = { λ view copy. copy ≡ view };

    #[inline]
    fn clone(&self) -> Result<SliceView<'a, T>, AllocError> {
        Ok(*self)
    }
}

// Views that show the same items are equal.
impl<'a, T: ViewItem + PartialEq> PartialEq for SliceView<'a, T> {
    ghost eq = { λ x y. pointwise T.eq (shown_items T.decoded T.SIZE x.bytes.now)
        (shown_items T.decoded T.SIZE y.bytes.now) };

    ghost laws = { on_per (λ x. shown_items T.decoded T.SIZE x.bytes.now) (lists_per T.laws) };

    fn eq(&self, other: &Self) -> bool {
        show_same::<T>(self.bytes, other.bytes)
    }
}

impl<'a, T: ViewItem + Eq> Eq for SliceView<'a, T> {
    ghost laws = { on_equiv (λ x. shown_items T.decoded T.SIZE x.bytes.now)
        (lists_equiv T.Eq.laws) };
}

impl<'a, T: ViewItem + Debug> Debug for SliceView<'a, T> {
    fn fmt<W: Write>(&self, f: &mut Formatter<W>) -> fmt::Result {
        f.debug_list().entries(self.iter()).finish()
    }
}

impl<'a, 'b, T: ViewItem> IntoIterator for &'b SliceView<'a, T> {
    type Item = T;

    type IntoIter = ViewIter<'a, T>;

    ghost into_iter_gives = { let left = left_items T.decoded T.SIZE in
        λ view it. (left it ≡ shown_items T.decoded T.SIZE view.now.bytes.now)
        × YieldsInOrder (YieldsFirst left) left };

    #[inline]
    fn into_iter(self) -> ViewIter<'a, T> {
        self.iter()
    }
}

impl<'a, T: ViewItem> Layout for SliceView<'a, T> {
    ghost Seen = { List T.Seen };

    ghost seen = { λ view. map T.seen (shown_items T.decoded T.SIZE view.bytes.now) };

    ghost layout = { borrowed_codec (list_codec T.layout) };
}

/// An array of numbers over the bytes that encode them in little endian.
///
/// Each is decoded when it is asked for, so the bytes may lie anywhere.
#[derive(Drop)]
pub struct ArrayView<'a, T: FixedSize, const N: usize> {
    bytes: &'a [u8],
    item: PhantomData<T>,
    pub ghost whole: { length bytes.now ≡ N * T.SIZE },
}

impl<'a, T: ViewItem, const N: usize> ArrayView<'a, T, N> {
    /// The view of all the bytes, which are those of `N` items.
    #[inline]
    pub fn over(bytes: &'a [u8]) -> ArrayView<'a, T, N>
        requires { length bytes.now ≡ N * T.SIZE }
        ensures bytes { result.bytes.now ≡ bytes.now }
        ensures encoded { EncodesLittle T.layout.format T.seen
            (shown_items T.decoded T.SIZE result.bytes.now) bytes.now }
    {
        ArrayView {
            bytes,
            item: PhantomData,
        }
    }

    /// The number of items, which is `N`.
    #[inline]
    pub fn len(&self) -> usize
        ensures shown { result ≡ length (shown_items T.decoded T.SIZE self.now.bytes.now) }
        ensures value { result ≡ N }
    {
        N
    }

    /// The item at an index, or `None` past the last one.
    #[inline]
    pub fn get(&self, index: usize) -> Option<T>
        ensures { let items = shown_items T.decoded T.SIZE self.now.bytes.now in
            MatchOption result (length items ≤ index)
            (λ x. (index < length items) × (x ≡ get_or items index x)) }
    {
        item_at(self.bytes, index)
    }

    /// The items, in order: those that the bytes of the view encode in little endian.
    #[inline]
    pub fn iter(&self) -> ViewIter<'a, T>
        ensures shown { left_items T.decoded T.SIZE result
            ≡ shown_items T.decoded T.SIZE self.now.bytes.now }
        ensures runs { let left = left_items T.decoded T.SIZE in
            YieldsInOrder (YieldsFirst left) left }
        ensures encoded { EncodesLittle T.layout.format T.seen
            (shown_items T.decoded T.SIZE self.now.bytes.now) self.now.bytes.now }
    {
        items_of(self.bytes)
    }
}

impl<'a, T: FixedSize, const N: usize> Copy for ArrayView<'a, T, N> {}

impl<'a, T: FixedSize, const N: usize> Clone for ArrayView<'a, T, N> {
    ghost is_clone = { λ view copy. copy ≡ view };

    #[inline]
    fn clone(&self) -> Result<ArrayView<'a, T, N>, AllocError> {
        Ok(*self)
    }
}

// Views that show the same items are equal.
impl<'a, T: ViewItem + PartialEq, const N: usize> PartialEq for ArrayView<'a, T, N> {
    ghost eq = { λ x y. pointwise T.eq (shown_items T.decoded T.SIZE x.bytes.now)
        (shown_items T.decoded T.SIZE y.bytes.now) };

    ghost laws = { on_per (λ x. shown_items T.decoded T.SIZE x.bytes.now) (lists_per T.laws) };

    fn eq(&self, other: &Self) -> bool {
        show_same::<T>(self.bytes, other.bytes)
    }
}

impl<'a, T: ViewItem + Eq, const N: usize> Eq for ArrayView<'a, T, N> {
    ghost laws = { on_equiv (λ x. shown_items T.decoded T.SIZE x.bytes.now)
        (lists_equiv T.Eq.laws) };
}

impl<'a, T: ViewItem + Debug, const N: usize> Debug for ArrayView<'a, T, N> {
    fn fmt<W: Write>(&self, f: &mut Formatter<W>) -> fmt::Result {
        f.debug_list().entries(self.iter()).finish()
    }
}

impl<'a, 'b, T: ViewItem, const N: usize> IntoIterator for &'b ArrayView<'a, T, N> {
    type Item = T;

    type IntoIter = ViewIter<'a, T>;

    ghost into_iter_gives = { let left = left_items T.decoded T.SIZE in
        λ view it. (left it ≡ shown_items T.decoded T.SIZE view.now.bytes.now)
        × YieldsInOrder (YieldsFirst left) left };

    #[inline]
    fn into_iter(self) -> ViewIter<'a, T> {
        self.iter()
    }
}

impl<'a, T: ViewItem, const N: usize> Layout for ArrayView<'a, T, N> {
    ghost Seen = { List T.Seen };

    ghost seen = { λ view. map T.seen (shown_items T.decoded T.SIZE view.bytes.now) };

    ghost layout = { borrowed_codec (vector_codec N T.layout) };
}

// The item at an index among those that the bytes show.
#[inline]
fn item_at<T: ViewItem>(bytes: &[u8], index: usize) -> Option<T>
    ensures { let items = shown_items T.decoded T.SIZE bytes.now in
        MatchOption result (length items ≤ index)
        (λ x. (index < length items) × (x ≡ get_or items index x)) }
{
    let size = T::SIZE;
    if index < bytes.len() / size {
        let start = index * size;
        Some(T::decode(&bytes[start..start + size]))
    } else {
        None
    }
}

// The items that the bytes show, in order.
#[inline]
fn items_of<'a, T: ViewItem>(bytes: &'a [u8]) -> ViewIter<'a, T>
    ensures shown { left_items T.decoded T.SIZE result ≡ shown_items T.decoded T.SIZE bytes.now }
    ensures runs { let left = left_items T.decoded T.SIZE in
        YieldsInOrder (YieldsFirst left) left }
    ensures encoded { (count : ℕ) → length bytes.now ≡ count * T.SIZE →
        EncodesLittle T.layout.format T.seen (shown_items T.decoded T.SIZE bytes.now) bytes.now }
{
    ViewIter {
        rest: bytes,
        item: PhantomData,
    }
}

// Whether the bytes show the same items.
fn show_same<T: ViewItem + PartialEq>(bytes: &[u8], others: &[u8]) -> bool
    ensures { result ≡ pointwise T.eq (shown_items T.decoded T.SIZE bytes.now)
        (shown_items T.decoded T.SIZE others.now) }
{
    items_of::<T>(bytes).eq(items_of::<T>(others))
}

/// The items of a view that are left, in order.
#[derive(Drop)]
pub struct ViewIter<'a, T> {
    rest: &'a [u8],
    item: PhantomData<T>,
}

impl<'a, T: ViewItem> Iterator for ViewIter<'a, T> {
    type Item = T;

    ghost next_gives = { YieldsFirst (left_items T.decoded T.SIZE) };

    ghost remaining = { item_count (left_items T.decoded T.SIZE) };

    #[inline]
    fn next(&mut self) -> Option<T> {
        let size = T::SIZE;
        if self.rest.len() < size {
            return None;
        }
        let (first, rest) = self.rest.split_at(size);
        self.rest = rest;
        Some(T::decode(first))
    }

    #[inline]
    fn size_hint(&self) -> (usize, Option<usize>)
        ensures lower { IsWithinCount result.0 (item_count (left_items T.decoded T.SIZE) self.now) }
        ensures upper { IfSome result.1 (UpTo (item_count (left_items T.decoded T.SIZE) self.now)) }
        ensures exact { let count = length (left_items T.decoded T.SIZE self.now) in
            (result.0 ≡ count) × (result.1 ≡ Some count) }
    {
        let left = self.len();
        (left, Some(left))
    }
}

impl<'a, T: ViewItem> ExactSizeIterator for ViewIter<'a, T> {
    #[inline]
    fn len(&self) -> usize {
        self.rest.len() / T::SIZE
    }
}

impl<'a, T: ViewItem> FusedIterator for ViewIter<'a, T> {}

impl<'a, T: ViewItem> Clone for ViewIter<'a, T> {
    ghost is_clone = { λ it copy. copy.rest.now ≡ it.rest.now };

    #[inline]
    fn clone(&self) -> Result<ViewIter<'a, T>, AllocError> {
        Ok(ViewIter {
            rest: self.rest,
            item: PhantomData,
        })
    }
}
