//! The layout of lists: counted ones, and arrays.
ghost use Rattle.std.specs.Prelude.{List, map};
ghost use Rattle.std.specs.Box.{boxed_slice_items};
ghost use Rattle.speedy_layout.specs.Codecs.{borrowed_codec, list_codec, vector_codec};
ghost use Rattle.speedy_layout.specs.Prefixed.{borrowed_behind, list_behind};

use crate::layout::Layout;
use crate::prefixed::Told;
use smallvec::SmallVec;
use std::boxed::BoxedSlice;

impl<T: Layout> Layout for Vec<T> {
    ghost Seen = { List T.Seen };

    ghost seen = { λ v. map T.seen v.items };

    ghost layout = { list_codec T.layout };
}

impl<T: Layout> Told for Vec<T> {
    ghost Seen = { ⟦<Vec<T> as Layout>⟧.Seen };

    ghost seen = { ⟦<Vec<T> as Layout>⟧.seen };

    ghost behind = { list_behind T.layout };
}

impl<'a, T: Layout> Layout for &'a [T] {
    ghost Seen = { List T.Seen };

    ghost seen = { λ r. map T.seen r.now };

    ghost layout = { borrowed_codec (list_codec T.layout) };
}

impl<'a, T: Layout> Told for &'a [T] {
    ghost Seen = { ⟦<&'a [T] as Layout>⟧.Seen };

    ghost seen = { ⟦<&'a [T] as Layout>⟧.seen };

    ghost behind = { λ numbers. borrowed_behind (list_behind T.layout numbers) };
}

impl<T: Layout> Layout for BoxedSlice<T> {
    ghost Seen = { List T.Seen };

    ghost seen = { λ b. map T.seen (boxed_slice_items b) };

    ghost layout = { list_codec T.layout };
}

impl<T: Layout> Told for BoxedSlice<T> {
    ghost Seen = { ⟦<BoxedSlice<T> as Layout>⟧.Seen };

    ghost seen = { ⟦<BoxedSlice<T> as Layout>⟧.seen };

    ghost behind = { list_behind T.layout };
}

impl<T: Layout, const N: usize> Layout for SmallVec<T, N> {
    ghost Seen = { List T.Seen };

    ghost seen = { λ v. map T.seen v.items };

    ghost layout = { list_codec T.layout };
}

impl<T: Layout, const N: usize> Told for SmallVec<T, N> {
    ghost Seen = { ⟦<SmallVec<T, N> as Layout>⟧.Seen };

    ghost seen = { ⟦<SmallVec<T, N> as Layout>⟧.seen };

    ghost behind = { list_behind T.layout };
}

impl<T: Layout, const N: usize> Layout for [T; N] {
    ghost Seen = { List T.Seen };

    ghost seen = { map T.seen };

    ghost layout = { vector_codec N T.layout };
}
