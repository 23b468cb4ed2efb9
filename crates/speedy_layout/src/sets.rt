//! The layout of sets.
ghost use Rattle.std.specs.Prelude.{ℕ, List, length, map, Bool};
ghost use Rattle.std.specs.HashSet.{contains};
ghost use Rattle.speedy_layout.specs.Codecs.{hash_set_codec, index_set_codec, tree_set_codec};
ghost use Rattle.speedy_layout.specs.CollectionLengths.{hash_set_counting, index_set_counting, tree_set_counting};
ghost use Rattle.speedy_layout.specs.Sets.{hash_set_behind, index_set_behind, tree_set_behind};

use crate::layout::Layout;
use crate::lengths::OfLength;
use crate::prefixed::Told;
use crate::same_key::SameKey;
use indexmap::IndexSet;
use std::collections::{BTreeSet, HashSet};
use std::hash::{BuildHasher, Hash};

impl<T: SameKey + Ord> Layout for BTreeSet<T> {
    ghost Seen = { List T.Seen };

    ghost seen = { λ s. map T.seen s.keys };

    ghost layout = { tree_set_codec T.seen T.cmp T.layout };
}

impl<T: SameKey + Ord> Told for BTreeSet<T> {
    ghost Seen = { ⟦<BTreeSet<T> as Layout>⟧.Seen };

    ghost seen = { ⟦<BTreeSet<T> as Layout>⟧.seen };

    ghost behind = { tree_set_behind T.seen T.cmp T.layout };
}

impl<T: SameKey + Ord> OfLength for BTreeSet<T> {
    ghost Seen = { ⟦<BTreeSet<T> as Layout>⟧.Seen };

    ghost seen = { ⟦<BTreeSet<T> as Layout>⟧.seen };

    ghost counting = { tree_set_counting T.seen T.cmp T.layout };
}

impl<T: SameKey + Hash, S: BuildHasher> Layout for HashSet<T, S> {
    ghost Seen = { T → Bool };

    ghost seen = { contains T.eq };

    ghost layout = { hash_set_codec T.seen T.layout };
}

impl<T: SameKey + Hash, S: BuildHasher> Told for HashSet<T, S> {
    ghost Seen = { ⟦<HashSet<T, S> as Layout>⟧.Seen };

    ghost seen = { ⟦<HashSet<T, S> as Layout>⟧.seen };

    ghost behind = { hash_set_behind T.seen T.layout };
}

// What is seen of it does not tell how many items there are, so that their number is seen beside it.
impl<T: SameKey + Hash, S: BuildHasher> OfLength for HashSet<T, S> {
    ghost Seen = { ⟦<HashSet<T, S> as Layout>⟧.Seen × ℕ };

    ghost seen = { λ s. (⟦<HashSet<T, S> as Layout>⟧.seen s, length s.keys) };

    ghost counting = { hash_set_counting T.seen T.layout };
}

impl<T: SameKey + Hash, S: BuildHasher> Layout for IndexSet<T, S> {
    ghost Seen = { List T.Seen };

    ghost seen = { λ s. map T.seen s.keys };

    ghost layout = { index_set_codec T.layout };
}

impl<T: SameKey + Hash, S: BuildHasher> Told for IndexSet<T, S> {
    ghost Seen = { ⟦<IndexSet<T, S> as Layout>⟧.Seen };

    ghost seen = { ⟦<IndexSet<T, S> as Layout>⟧.seen };

    ghost behind = { index_set_behind T.layout };
}

impl<T: SameKey + Hash, S: BuildHasher> OfLength for IndexSet<T, S> {
    ghost Seen = { ⟦<IndexSet<T, S> as Layout>⟧.Seen };

    ghost seen = { ⟦<IndexSet<T, S> as Layout>⟧.seen };

    ghost counting = { index_set_counting T.layout };
}
