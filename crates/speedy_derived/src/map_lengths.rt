//! Maps and sets of a length that fields before them tell.
//!
//! Made from `map_lengths.rs` by `tools/derive`: change that, and make this again.
ghost use Rattle.std.specs.Prelude.{codes, ◌*◌, ◌-◌, ◌/◌, ◌<◌, ◌^◌, ◌≤◌};

use speedy::ext::{IndexMap, IndexSet};
use speedy::lengths::{Length, OfLength, Other, WithLength};
use speedy::{
    Context, ItemByItem, Layout, LendingReader, Part, ReadFrom, SameKey, Writable, Writer,
};
use std::collections::{BTreeMap, BTreeSet, HashMap, HashSet};
use std::convert::AsSlice;
use std::marker::PhantomData;

/// A number tells the length of each map, with a flag behind it.
#[derive(Drop)]
pub struct ToldMaps {
    pub count: u8,
    pub is_last: bool,
    pub sorted: BTreeMap<u8, u16>,
    pub hashed: HashMap<u8, bool>,
    pub listed: IndexMap<u8, u8>,
}

/// The length of [`ToldMaps::sorted`].
struct ToldMapsSortedLength {}

impl Length<(u8, ())> for ToldMapsSortedLength {
    ghost is_told = { λ _. Unit {0} };

    ghost told = { λ it. it.0 };

    ghost field = { codes "sorted" };

    fn length((count, _): (u8, ())) -> Option<usize> {
        Some(count as usize)
    }

    fn field() -> &'static str {
        "sorted"
    }
}

/// The length of [`ToldMaps::hashed`].
struct ToldMapsHashedLength {}

impl Length<(u8, ())> for ToldMapsHashedLength {
    ghost is_told = { λ it. 1 ≤ it.0 };

    ghost told = { λ it. it.0 - 1 };

    ghost field = { codes "hashed" };

    fn length((count, _): (u8, ())) -> Option<usize> {
        Some(count.checked_sub(1)? as usize)
    }

    fn field() -> &'static str {
        "hashed"
    }
}

/// The length of [`ToldMaps::listed`].
struct ToldMapsListedLength {}

impl Length<(u8, ())> for ToldMapsListedLength {
    ghost is_told = { λ it. it.0 * 2 < 2 ^ 8 };

    ghost told = { λ it. it.0 * 2 };

    ghost field = { codes "listed" };

    fn length((count, _): (u8, ())) -> Option<usize> {
        Some(count.checked_mul(2)? as usize)
    }

    fn field() -> &'static str {
        "listed"
    }
}

/// What [`ToldMaps`] is read and written as.
type ToldMapsParts = WithLength<
    ToldMapsListedLength,
    WithLength<
        ToldMapsHashedLength,
        WithLength<ToldMapsSortedLength, (u8, Other<bool>), BTreeMap<u8, u16>>,
        HashMap<u8, bool>,
    >,
    IndexMap<u8, u8>,
>;

impl Layout for ToldMaps {
    ghost Seen = { ⟦<ToldMapsParts as Layout>⟧.Seen };

    ghost seen = { λ it. (
      (
        ((it.count, ⟦<bool as Layout>⟧.seen it.is_last), ⟦<BTreeMap<u8, u16> as OfLength>⟧.seen it.sorted),
        ⟦<HashMap<u8, bool> as OfLength>⟧.seen it.hashed,
      ),
      ⟦<IndexMap<u8, u8> as OfLength>⟧.seen it.listed,
    ) };

    ghost layout = { ⟦<ToldMapsParts as Layout>⟧.layout };
}

impl<L: AsSlice<u8> + Drop, C: Context> ReadFrom<L, C> for ToldMaps {
    type Strategy = ItemByItem<C>;

    fn read_from<R: LendingReader<L, C>>(reader: &mut R) -> Result<ToldMaps, C::Error> {
        match reader.read_value::<ToldMapsParts>() {
            Ok(listed) => {
                let WithLength {
                    before,
                    value: listed,
                    length: _,
                } = listed;
                let WithLength {
                    before: before2,
                    value: hashed,
                    length: _,
                } = before;
                let WithLength {
                    before: before3,
                    value: sorted,
                    length: _,
                } = before2;
                let (count, is_last) = before3;
                Ok(ToldMaps {
                    count,
                    is_last: is_last.0,
                    sorted,
                    hashed,
                    listed,
                })
            }
            Err(error) => Err(error),
        }
    }

    fn minimum_bytes_needed() -> usize {
        2
    }
}

impl<C: Context> Writable<C> for ToldMaps {
    fn write_to<W: Writer<C>>(&self, writer: &mut W) -> Result<(), C::Error> {
        let sorted: WithLength<ToldMapsSortedLength, _, _> = WithLength {
            before: (self.count, Other(self.is_last)),
            value: Part(&self.sorted),
            length: PhantomData,
        };
        let hashed: WithLength<ToldMapsHashedLength, _, _> = WithLength {
            before: sorted,
            value: Part(&self.hashed),
            length: PhantomData,
        };
        let listed: WithLength<ToldMapsListedLength, _, _> = WithLength {
            before: hashed,
            value: Part(&self.listed),
            length: PhantomData,
        };
        writer.write_value(&listed)
    }
}

#[derive(Drop)]
pub struct ToldSets(
    pub u8,
    pub BTreeSet<u16>,
    pub HashSet<u16>,
    pub IndexSet<u16>,
);

/// The length of [`ToldSets::1`].
struct ToldSetsT1Length {}

impl Length<u8> for ToldSetsT1Length {
    ghost is_told = { λ _. Unit {0} };

    ghost told = { λ n. n };

    ghost field = { codes "1" };

    fn length(t0: u8) -> Option<usize> {
        Some(t0 as usize)
    }

    fn field() -> &'static str {
        "1"
    }
}

/// The length of [`ToldSets::2`].
struct ToldSetsT2Length {}

impl Length<u8> for ToldSetsT2Length {
    ghost is_told = { λ _. Unit {0} };

    ghost told = { λ it. it / 2 };

    ghost field = { codes "2" };

    fn length(t0: u8) -> Option<usize> {
        Some((t0 / 2) as usize)
    }

    fn field() -> &'static str {
        "2"
    }
}

/// The length of [`ToldSets::3`].
struct ToldSetsT3Length {}

impl Length<()> for ToldSetsT3Length {
    ghost is_told = { λ _. Unit {0} };

    ghost told = { λ _. 2 };

    ghost field = { codes "3" };

    fn length(_numbers: ()) -> Option<usize> {
        Some(2)
    }

    fn field() -> &'static str {
        "3"
    }
}

/// What [`ToldSets`] is read and written as.
type ToldSetsParts = (
    WithLength<ToldSetsT2Length, WithLength<ToldSetsT1Length, u8, BTreeSet<u16>>, HashSet<u16>>,
    WithLength<ToldSetsT3Length, Other<()>, IndexSet<u16>>,
);

impl Layout for ToldSets {
    ghost Seen = { ⟦<ToldSetsParts as Layout>⟧.Seen };

    ghost seen = { λ it. (
      ((it.0, ⟦<BTreeSet<u16> as OfLength>⟧.seen it.1), ⟦<HashSet<u16> as OfLength>⟧.seen it.2),
      (tt, ⟦<IndexSet<u16> as OfLength>⟧.seen it.3),
    ) };

    ghost layout = { ⟦<ToldSetsParts as Layout>⟧.layout };
}

impl<L: AsSlice<u8> + Drop, C: Context> ReadFrom<L, C> for ToldSets {
    type Strategy = ItemByItem<C>;

    fn read_from<R: LendingReader<L, C>>(reader: &mut R) -> Result<ToldSets, C::Error> {
        match reader.read_value::<ToldSetsParts>() {
            Ok((t2, t3)) => {
                let WithLength {
                    before,
                    value: t2,
                    length: _,
                } = t2;
                Ok(ToldSets(before.before, before.value, t2, t3.value))
            }
            Err(error) => Err(error),
        }
    }

    fn minimum_bytes_needed() -> usize {
        1
    }
}

impl<C: Context> Writable<C> for ToldSets {
    fn write_to<W: Writer<C>>(&self, writer: &mut W) -> Result<(), C::Error> {
        let t1: WithLength<ToldSetsT1Length, _, _> = WithLength {
            before: self.0,
            value: Part(&self.1),
            length: PhantomData,
        };
        let t2: WithLength<ToldSetsT2Length, _, _> = WithLength {
            before: t1,
            value: Part(&self.2),
            length: PhantomData,
        };
        let t3: WithLength<ToldSetsT3Length, _, _> = WithLength {
            before: Other(()),
            value: Part(&self.3),
            length: PhantomData,
        };
        writer.write_value(&(t2, t3))
    }
}

/// A map of any keys and values.
#[derive(Drop)]
pub struct ToldTable<K, V>
where
    K: Ord,
{
    pub count: u16,
    pub rows: BTreeMap<K, V>,
}

/// The length of [`ToldTable::rows`].
struct ToldTableRowsLength {}

impl Length<u16> for ToldTableRowsLength {
    ghost is_told = { λ _. Unit {0} };

    ghost told = { λ n. n };

    ghost field = { codes "rows" };

    fn length(count: u16) -> Option<usize> {
        Some(count as usize)
    }

    fn field() -> &'static str {
        "rows"
    }
}

/// What [`ToldTable`] is read and written as.
type ToldTableParts<K, V> = WithLength<ToldTableRowsLength, u16, BTreeMap<K, V>>;

impl<K: SameKey + Ord, V: Layout> Layout for ToldTable<K, V>
where
    K: Ord,
{
    ghost Seen = { ⟦<ToldTableParts<K, V> as Layout>⟧.Seen };

    ghost seen = { λ it. (it.count, ⟦<BTreeMap<K, V> as OfLength>⟧.seen it.rows) };

    ghost layout = { ⟦<ToldTableParts<K, V> as Layout>⟧.layout };
}

impl<
    L: AsSlice<u8> + Drop,
    C: Context,
    K: ReadFrom<L, C> + SameKey + Ord,
    V: ReadFrom<L, C>,
> ReadFrom<L, C> for ToldTable<K, V>
where
    K: Ord,
{
    type Strategy = ItemByItem<C>;

    fn read_from<R: LendingReader<L, C>>(reader: &mut R) -> Result<ToldTable<K, V>, C::Error> {
        match reader.read_value::<ToldTableParts<K, V>>() {
            Ok(rows) => Ok(ToldTable {
                count: rows.before,
                rows: rows.value,
            }),
            Err(error) => Err(error),
        }
    }

    fn minimum_bytes_needed() -> usize {
        2
    }
}

impl<C: Context, K: Writable<C> + SameKey + Ord, V: Writable<C>> Writable<C> for ToldTable<K, V>
where
    K: Ord,
{
    fn write_to<W: Writer<C>>(&self, writer: &mut W) -> Result<(), C::Error> {
        let rows: WithLength<ToldTableRowsLength, _, _> = WithLength {
            before: self.count,
            value: Part(&self.rows),
            length: PhantomData,
        };
        writer.write_value(&rows)
    }
}
