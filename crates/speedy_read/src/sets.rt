//! How sets are read: what a repeated item does, and which order is canonical, is in `collections`.
//!
//! Where the number of items is told elsewhere, a set that has fewer since an item was repeated is refused: it could
//! not be written with that number.
use crate::lengths::ReadOfLength;
use crate::many::ItemByItem;
use crate::prefixed::{ReadPrefix, ReadTold};
use crate::readable::{ReadFrom, ReadMany};
use crate::reader::LendingReader;
use indexmap::IndexSet;
use speedy_base::context::Context;
use speedy_base::error::error_out_of_range_length;
use speedy_layout::same_key::SameKey;
use std::collections::{BTreeSet, HashSet};
use std::convert::AsSlice;
use std::hash::{BuildHasher, Hash};

impl<L: AsSlice<u8> + Drop, C: Context, T: ReadMany<L, C> + SameKey + Ord> ReadFrom<L, C>
    for BTreeSet<T> {
    type Strategy = ItemByItem<C>;

    #[inline]
    fn read_from<R: LendingReader<L, C>>(reader: &mut R) -> Result<BTreeSet<T>, C::Error> {
        BTreeSet::read_behind::<u32, R>(reader)
    }

    #[inline]
    fn minimum_bytes_needed() -> usize {
        4
    }
}

impl<L: AsSlice<u8> + Drop, C: Context, T: ReadMany<L, C> + SameKey + Ord> ReadTold<L, C>
    for BTreeSet<T> {
    #[inline]
    fn read_behind<N: ReadPrefix, R: LendingReader<L, C>>(
        reader: &mut R,
    ) -> Result<BTreeSet<T>, C::Error> {
        let length = N::read_number(reader)?;
        reader.read_collection(length)
    }
}

impl<L: AsSlice<u8> + Drop, C: Context, T: ReadMany<L, C> + SameKey + Ord> ReadOfLength<L, C>
    for BTreeSet<T> {
    #[inline]
    fn read_of_length<R: LendingReader<L, C>>(
        reader: &mut R,
        length: usize,
    ) -> Result<BTreeSet<T>, C::Error> {
        let set: BTreeSet<T> = reader.read_collection(length)?;
        if set.len() != length {
            return Err(error_out_of_range_length());
        }
        Ok(set)
    }
}

impl<
    L: AsSlice<u8> + Drop,
    C: Context,
    T: ReadMany<L, C> + SameKey + Hash,
    S: BuildHasher + Default + Drop,
> ReadFrom<L, C> for HashSet<T, S> {
    type Strategy = ItemByItem<C>;

    #[inline]
    fn read_from<R: LendingReader<L, C>>(reader: &mut R) -> Result<HashSet<T, S>, C::Error> {
        HashSet::read_behind::<u32, R>(reader)
    }

    #[inline]
    fn minimum_bytes_needed() -> usize {
        4
    }
}

impl<
    L: AsSlice<u8> + Drop,
    C: Context,
    T: ReadMany<L, C> + SameKey + Hash,
    S: BuildHasher + Default + Drop,
> ReadTold<L, C> for HashSet<T, S> {
    #[inline]
    fn read_behind<N: ReadPrefix, R: LendingReader<L, C>>(
        reader: &mut R,
    ) -> Result<HashSet<T, S>, C::Error> {
        let length = N::read_number(reader)?;
        reader.read_collection(length)
    }
}

impl<
    L: AsSlice<u8> + Drop,
    C: Context,
    T: ReadMany<L, C> + SameKey + Hash,
    S: BuildHasher + Default + Drop,
> ReadOfLength<L, C> for HashSet<T, S> {
    #[inline]
    fn read_of_length<R: LendingReader<L, C>>(
        reader: &mut R,
        length: usize,
    ) -> Result<HashSet<T, S>, C::Error> {
        let set: HashSet<T, S> = reader.read_collection(length)?;
        if set.len() != length {
            return Err(error_out_of_range_length());
        }
        Ok(set)
    }
}

impl<
    L: AsSlice<u8> + Drop,
    C: Context,
    T: ReadMany<L, C> + SameKey + Hash,
    S: BuildHasher + Default + Drop,
> ReadFrom<L, C> for IndexSet<T, S> {
    type Strategy = ItemByItem<C>;

    #[inline]
    fn read_from<R: LendingReader<L, C>>(reader: &mut R) -> Result<IndexSet<T, S>, C::Error> {
        IndexSet::read_behind::<u32, R>(reader)
    }

    #[inline]
    fn minimum_bytes_needed() -> usize {
        4
    }
}

impl<
    L: AsSlice<u8> + Drop,
    C: Context,
    T: ReadMany<L, C> + SameKey + Hash,
    S: BuildHasher + Default + Drop,
> ReadTold<L, C> for IndexSet<T, S> {
    #[inline]
    fn read_behind<N: ReadPrefix, R: LendingReader<L, C>>(
        reader: &mut R,
    ) -> Result<IndexSet<T, S>, C::Error> {
        let length = N::read_number(reader)?;
        reader.read_collection(length)
    }
}

impl<
    L: AsSlice<u8> + Drop,
    C: Context,
    T: ReadMany<L, C> + SameKey + Hash,
    S: BuildHasher + Default + Drop,
> ReadOfLength<L, C> for IndexSet<T, S> {
    #[inline]
    fn read_of_length<R: LendingReader<L, C>>(
        reader: &mut R,
        length: usize,
    ) -> Result<IndexSet<T, S>, C::Error> {
        let set: IndexSet<T, S> = reader.read_collection(length)?;
        if set.len() != length {
            return Err(error_out_of_range_length());
        }
        Ok(set)
    }
}
