//! The layout of maps.
ghost use Rattle.std.specs.Prelude.{ℕ, List, length, map, Option, option_map};
ghost use Rattle.std.specs.HashMap.{get};
ghost use Rattle.speedy_layout.specs.Maps.{seen_pair};
ghost use Rattle.speedy_layout.specs.Codecs.{hash_map_codec, index_map_codec, tree_map_codec};
ghost use Rattle.speedy_layout.specs.CollectionLengths.{hash_map_counting, index_map_counting, tree_map_counting};
ghost use Rattle.speedy_layout.specs.Maps.{hash_map_behind, index_map_behind, tree_map_behind};

use crate::layout::Layout;
use crate::lengths::OfLength;
use crate::prefixed::Told;
use crate::same_key::SameKey;
use indexmap::IndexMap;
use std::collections::{BTreeMap, HashMap};
use std::hash::{BuildHasher, Hash};

impl<K: SameKey + Ord, V: Layout> Layout for BTreeMap<K, V> {
    ghost Seen = { List (K.Seen × V.Seen) };

    ghost seen = { λ m. map (seen_pair K.seen V.seen) m.entries };

    ghost layout = { tree_map_codec K.seen K.cmp K.layout V.layout };
}

impl<K: SameKey + Ord, V: Layout> Told for BTreeMap<K, V> {
    ghost Seen = { ⟦<BTreeMap<K, V> as Layout>⟧.Seen };

    ghost seen = { ⟦<BTreeMap<K, V> as Layout>⟧.seen };

    ghost behind = { tree_map_behind K.seen K.cmp K.layout V.layout };
}

impl<K: SameKey + Ord, V: Layout> OfLength for BTreeMap<K, V> {
    ghost Seen = { ⟦<BTreeMap<K, V> as Layout>⟧.Seen };

    ghost seen = { ⟦<BTreeMap<K, V> as Layout>⟧.seen };

    ghost counting = { tree_map_counting K.seen K.cmp K.layout V.layout };
}

impl<K: SameKey + Hash, V: Layout, S: BuildHasher> Layout for HashMap<K, V, S> {
    ghost Seen = { K → Option V.Seen };

    ghost seen = { λ m k. option_map V.seen (get K.eq m k) };

    ghost layout = { hash_map_codec K.seen K.layout V.layout };
}

impl<K: SameKey + Hash, V: Layout, S: BuildHasher> Told for HashMap<K, V, S> {
    ghost Seen = { ⟦<HashMap<K, V, S> as Layout>⟧.Seen };

    ghost seen = { ⟦<HashMap<K, V, S> as Layout>⟧.seen };

    ghost behind = { hash_map_behind K.seen K.layout V.layout };
}

// What is seen of it does not tell how many pairs there are, so that their number is seen beside it.
impl<K: SameKey + Hash, V: Layout, S: BuildHasher> OfLength for HashMap<K, V, S> {
    ghost Seen = { ⟦<HashMap<K, V, S> as Layout>⟧.Seen × ℕ };

    ghost seen = { λ m. (⟦<HashMap<K, V, S> as Layout>⟧.seen m, length m.entries) };

    ghost counting = { hash_map_counting K.seen K.layout V.layout };
}

impl<K: SameKey + Hash, V: Layout, S: BuildHasher> Layout for IndexMap<K, V, S> {
    ghost Seen = { List (K.Seen × V.Seen) };

    ghost seen = { λ m. map (seen_pair K.seen V.seen) m.entries };

    ghost layout = { index_map_codec K.layout V.layout };
}

impl<K: SameKey + Hash, V: Layout, S: BuildHasher> Told for IndexMap<K, V, S> {
    ghost Seen = { ⟦<IndexMap<K, V, S> as Layout>⟧.Seen };

    ghost seen = { ⟦<IndexMap<K, V, S> as Layout>⟧.seen };

    ghost behind = { index_map_behind K.layout V.layout };
}

impl<K: SameKey + Hash, V: Layout, S: BuildHasher> OfLength for IndexMap<K, V, S> {
    ghost Seen = { ⟦<IndexMap<K, V, S> as Layout>⟧.Seen };

    ghost seen = { ⟦<IndexMap<K, V, S> as Layout>⟧.seen };

    ghost counting = { index_map_counting K.layout V.layout };
}
