//! How sets are written: in the order in which each walks its items, a `BTreeSet` in ascending order.
use crate::collections::{write_counted_items, write_items_of};
use crate::lengths::WriteOfLength;
use crate::prefixed::{WritePrefix, WriteTold};
use crate::writable::Writable;
use crate::writer::Writer;
use indexmap::IndexSet;
use speedy_base::context::Context;
use speedy_layout::SameKey;
use std::collections::{BTreeSet, HashSet};
use std::hash::{BuildHasher, Hash};

impl<C: Context, T: Writable<C> + SameKey + Ord> Writable<C> for BTreeSet<T> {
    #[inline]
    fn write_to<W: Writer<C>>(&self, writer: &mut W) -> Result<(), C::Error> {
        self.write_behind::<u32, W>(writer)
    }
}

impl<C: Context, T: Writable<C> + SameKey + Ord> WriteTold<C> for BTreeSet<T> {
    #[inline]
    fn write_behind<N: WritePrefix, W: Writer<C>>(&self, writer: &mut W) -> Result<(), C::Error> {
        write_counted_items::<N, C, _, _, W>(self.len(), self.iter(), writer)
    }
}

impl<C: Context, T: Writable<C> + SameKey + Ord> WriteOfLength<C> for BTreeSet<T> {
    #[inline]
    fn length(&self) -> usize {
        self.len()
    }

    #[inline]
    fn write_of_length<W: Writer<C>>(&self, writer: &mut W) -> Result<(), C::Error> {
        write_items_of(self.iter(), writer)
    }
}

impl<C: Context, T: Writable<C> + SameKey + Hash, S: BuildHasher> Writable<C> for HashSet<T, S> {
    #[inline]
    fn write_to<W: Writer<C>>(&self, writer: &mut W) -> Result<(), C::Error> {
        self.write_behind::<u32, W>(writer)
    }
}

impl<C: Context, T: Writable<C> + SameKey + Hash, S: BuildHasher> WriteTold<C> for HashSet<T, S> {
    #[inline]
    fn write_behind<N: WritePrefix, W: Writer<C>>(&self, writer: &mut W) -> Result<(), C::Error> {
        write_counted_items::<N, C, _, _, W>(self.len(), self.iter(), writer)
    }
}

impl<C: Context, T: Writable<C> + SameKey + Hash, S: BuildHasher> WriteOfLength<C>
    for HashSet<T, S> {
    #[inline]
    fn length(&self) -> usize {
        self.len()
    }

    #[inline]
    fn write_of_length<W: Writer<C>>(&self, writer: &mut W) -> Result<(), C::Error> {
        write_items_of(self.iter(), writer)
    }
}

impl<C: Context, T: Writable<C> + SameKey + Hash, S: BuildHasher> Writable<C> for IndexSet<T, S> {
    #[inline]
    fn write_to<W: Writer<C>>(&self, writer: &mut W) -> Result<(), C::Error> {
        self.write_behind::<u32, W>(writer)
    }
}

impl<C: Context, T: Writable<C> + SameKey + Hash, S: BuildHasher> WriteTold<C> for IndexSet<T, S> {
    #[inline]
    fn write_behind<N: WritePrefix, W: Writer<C>>(&self, writer: &mut W) -> Result<(), C::Error> {
        write_counted_items::<N, C, _, _, W>(self.len(), self.iter(), writer)
    }
}

impl<C: Context, T: Writable<C> + SameKey + Hash, S: BuildHasher> WriteOfLength<C>
    for IndexSet<T, S> {
    #[inline]
    fn length(&self) -> usize {
        self.len()
    }

    #[inline]
    fn write_of_length<W: Writer<C>>(&self, writer: &mut W) -> Result<(), C::Error> {
        write_items_of(self.iter(), writer)
    }
}
