//! How maps are written: in the order in which each walks its pairs, a `BTreeMap` by its keys.
use crate::collections::{write_counted_items, write_items_of};
use crate::lengths::WriteOfLength;
use crate::prefixed::{WritePrefix, WriteTold};
use crate::writable::Writable;
use crate::writer::Writer;
use indexmap::IndexMap;
use speedy_base::context::Context;
use speedy_layout::SameKey;
use std::collections::{BTreeMap, HashMap};
use std::hash::{BuildHasher, Hash};

impl<C: Context, K: Writable<C> + SameKey + Ord, V: Writable<C>> Writable<C> for BTreeMap<K, V> {
    #[inline]
    fn write_to<W: Writer<C>>(&self, writer: &mut W) -> Result<(), C::Error> {
        self.write_behind::<u32, W>(writer)
    }
}

impl<C: Context, K: Writable<C> + SameKey + Ord, V: Writable<C>> WriteTold<C> for BTreeMap<K, V> {
    #[inline]
    fn write_behind<N: WritePrefix, W: Writer<C>>(&self, writer: &mut W) -> Result<(), C::Error> {
        write_counted_items::<N, C, _, _, W>(self.len(), self.iter(), writer)
    }
}

impl<C: Context, K: Writable<C> + SameKey + Ord, V: Writable<C>> WriteOfLength<C>
    for BTreeMap<K, V> {
    #[inline]
    fn length(&self) -> usize {
        self.len()
    }

    #[inline]
    fn write_of_length<W: Writer<C>>(&self, writer: &mut W) -> Result<(), C::Error> {
        write_items_of(self.iter(), writer)
    }
}

impl<C: Context, K: Writable<C> + SameKey + Hash, V: Writable<C>, S: BuildHasher> Writable<C>
    for HashMap<K, V, S> {
    #[inline]
    fn write_to<W: Writer<C>>(&self, writer: &mut W) -> Result<(), C::Error> {
        self.write_behind::<u32, W>(writer)
    }
}

impl<C: Context, K: Writable<C> + SameKey + Hash, V: Writable<C>, S: BuildHasher> WriteTold<C>
    for HashMap<K, V, S> {
    #[inline]
    fn write_behind<N: WritePrefix, W: Writer<C>>(&self, writer: &mut W) -> Result<(), C::Error> {
        write_counted_items::<N, C, _, _, W>(self.len(), self.iter(), writer)
    }
}

impl<C: Context, K: Writable<C> + SameKey + Hash, V: Writable<C>, S: BuildHasher> WriteOfLength<C>
    for HashMap<K, V, S> {
    #[inline]
    fn length(&self) -> usize {
        self.len()
    }

    #[inline]
    fn write_of_length<W: Writer<C>>(&self, writer: &mut W) -> Result<(), C::Error> {
        write_items_of(self.iter(), writer)
    }
}

impl<C: Context, K: Writable<C> + SameKey + Hash, V: Writable<C>, S: BuildHasher> Writable<C>
    for IndexMap<K, V, S> {
    #[inline]
    fn write_to<W: Writer<C>>(&self, writer: &mut W) -> Result<(), C::Error> {
        self.write_behind::<u32, W>(writer)
    }
}

impl<C: Context, K: Writable<C> + SameKey + Hash, V: Writable<C>, S: BuildHasher> WriteTold<C>
    for IndexMap<K, V, S> {
    #[inline]
    fn write_behind<N: WritePrefix, W: Writer<C>>(&self, writer: &mut W) -> Result<(), C::Error> {
        write_counted_items::<N, C, _, _, W>(self.len(), self.iter(), writer)
    }
}

impl<C: Context, K: Writable<C> + SameKey + Hash, V: Writable<C>, S: BuildHasher> WriteOfLength<C>
    for IndexMap<K, V, S> {
    #[inline]
    fn length(&self) -> usize {
        self.len()
    }

    #[inline]
    fn write_of_length<W: Writer<C>>(&self, writer: &mut W) -> Result<(), C::Error> {
        write_items_of(self.iter(), writer)
    }
}
