//! How maps are read: what a repeated key does, and which order is canonical, is in `collections`.
//!
//! Where the number of pairs is told elsewhere, a map that has fewer since a key was repeated is refused: it could not
//! be written with that number.
use crate::lengths::ReadOfLength;
use crate::many::ItemByItem;
use crate::prefixed::{ReadPrefix, ReadTold};
use crate::readable::ReadFrom;
use crate::reader::LendingReader;
use indexmap::IndexMap;
use speedy_base::context::Context;
use speedy_base::error::error_out_of_range_length;
use speedy_layout::same_key::SameKey;
use std::collections::{BTreeMap, HashMap};
use std::convert::AsSlice;
use std::hash::{BuildHasher, Hash};

impl<
    L: AsSlice<u8> + Drop,
    C: Context,
    K: ReadFrom<L, C> + SameKey + Ord,
    V: ReadFrom<L, C>,
> ReadFrom<L, C> for BTreeMap<K, V> {
    type Strategy = ItemByItem<C>;

    #[inline]
    fn read_from<R: LendingReader<L, C>>(reader: &mut R) -> Result<BTreeMap<K, V>, C::Error> {
        BTreeMap::read_behind::<u32, R>(reader)
    }

    #[inline]
    fn minimum_bytes_needed() -> usize {
        4
    }
}

impl<
    L: AsSlice<u8> + Drop,
    C: Context,
    K: ReadFrom<L, C> + SameKey + Ord,
    V: ReadFrom<L, C>,
> ReadTold<L, C> for BTreeMap<K, V> {
    #[inline]
    fn read_behind<N: ReadPrefix, R: LendingReader<L, C>>(
        reader: &mut R,
    ) -> Result<BTreeMap<K, V>, C::Error> {
        let length = N::read_number(reader)?;
        reader.read_key_value_collection(length)
    }
}

impl<
    L: AsSlice<u8> + Drop,
    C: Context,
    K: ReadFrom<L, C> + SameKey + Ord,
    V: ReadFrom<L, C>,
> ReadOfLength<L, C> for BTreeMap<K, V> {
    #[inline]
    fn read_of_length<R: LendingReader<L, C>>(
        reader: &mut R,
        length: usize,
    ) -> Result<BTreeMap<K, V>, C::Error> {
        let map: BTreeMap<K, V> = reader.read_key_value_collection(length)?;
        if map.len() != length {
            return Err(error_out_of_range_length());
        }
        Ok(map)
    }
}

impl<
    L: AsSlice<u8> + Drop,
    C: Context,
    K: ReadFrom<L, C> + SameKey + Hash,
    V: ReadFrom<L, C>,
    S: BuildHasher + Default + Drop,
> ReadFrom<L, C> for HashMap<K, V, S> {
    type Strategy = ItemByItem<C>;

    #[inline]
    fn read_from<R: LendingReader<L, C>>(reader: &mut R) -> Result<HashMap<K, V, S>, C::Error> {
        HashMap::read_behind::<u32, R>(reader)
    }

    #[inline]
    fn minimum_bytes_needed() -> usize {
        4
    }
}

impl<
    L: AsSlice<u8> + Drop,
    C: Context,
    K: ReadFrom<L, C> + SameKey + Hash,
    V: ReadFrom<L, C>,
    S: BuildHasher + Default + Drop,
> ReadTold<L, C> for HashMap<K, V, S> {
    #[inline]
    fn read_behind<N: ReadPrefix, R: LendingReader<L, C>>(
        reader: &mut R,
    ) -> Result<HashMap<K, V, S>, C::Error> {
        let length = N::read_number(reader)?;
        reader.read_key_value_collection(length)
    }
}

impl<
    L: AsSlice<u8> + Drop,
    C: Context,
    K: ReadFrom<L, C> + SameKey + Hash,
    V: ReadFrom<L, C>,
    S: BuildHasher + Default + Drop,
> ReadOfLength<L, C> for HashMap<K, V, S> {
    #[inline]
    fn read_of_length<R: LendingReader<L, C>>(
        reader: &mut R,
        length: usize,
    ) -> Result<HashMap<K, V, S>, C::Error> {
        let map: HashMap<K, V, S> = reader.read_key_value_collection(length)?;
        if map.len() != length {
            return Err(error_out_of_range_length());
        }
        Ok(map)
    }
}

impl<
    L: AsSlice<u8> + Drop,
    C: Context,
    K: ReadFrom<L, C> + SameKey + Hash,
    V: ReadFrom<L, C>,
    S: BuildHasher + Default + Drop,
> ReadFrom<L, C> for IndexMap<K, V, S> {
    type Strategy = ItemByItem<C>;

    #[inline]
    fn read_from<R: LendingReader<L, C>>(reader: &mut R) -> Result<IndexMap<K, V, S>, C::Error> {
        IndexMap::read_behind::<u32, R>(reader)
    }

    #[inline]
    fn minimum_bytes_needed() -> usize {
        4
    }
}

impl<
    L: AsSlice<u8> + Drop,
    C: Context,
    K: ReadFrom<L, C> + SameKey + Hash,
    V: ReadFrom<L, C>,
    S: BuildHasher + Default + Drop,
> ReadTold<L, C> for IndexMap<K, V, S> {
    #[inline]
    fn read_behind<N: ReadPrefix, R: LendingReader<L, C>>(
        reader: &mut R,
    ) -> Result<IndexMap<K, V, S>, C::Error> {
        let length = N::read_number(reader)?;
        reader.read_key_value_collection(length)
    }
}

impl<
    L: AsSlice<u8> + Drop,
    C: Context,
    K: ReadFrom<L, C> + SameKey + Hash,
    V: ReadFrom<L, C>,
    S: BuildHasher + Default + Drop,
> ReadOfLength<L, C> for IndexMap<K, V, S> {
    #[inline]
    fn read_of_length<R: LendingReader<L, C>>(
        reader: &mut R,
        length: usize,
    ) -> Result<IndexMap<K, V, S>, C::Error> {
        let map: IndexMap<K, V, S> = reader.read_key_value_collection(length)?;
        if map.len() != length {
            return Err(error_out_of_range_length());
        }
        Ok(map)
    }
}
