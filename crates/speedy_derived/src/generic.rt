//! Structs that are generic in their parts; `rows` has those of other maps, and of sets and lists.
//!
//! Made from `generic.rs` by `tools/derive`: change that, and make this again.
ghost use Rattle.std.specs.Prelude.{◌≡◌};

use speedy::{Context, ItemByItem, Layout, LendingReader, ReadFrom, SameKey, Writable, Writer};
use std::borrow::Cow;
use std::collections::{BTreeMap, HashMap};
use std::convert::AsSlice;
use std::hash::Hash;

#[derive(Drop)]
pub struct Generic<T> {
    pub inner: T,
}

impl<T: Layout> Layout for Generic<T> {
    ghost Seen = { ⟦<T as Layout>⟧.Seen };

    ghost seen = { λ it. ⟦<T as Layout>⟧.seen it.inner };

    ghost layout = { ⟦<T as Layout>⟧.layout };
}

impl<L: AsSlice<u8> + Drop, C: Context, T: ReadFrom<L, C>> ReadFrom<L, C> for Generic<T> {
    type Strategy = ItemByItem<C>;

    fn read_from<R: LendingReader<L, C>>(reader: &mut R) -> Result<Generic<T>, C::Error> {
        match reader.read_value() {
            Ok(inner) => Ok(Generic { inner }),
            Err(error) => Err(error),
        }
    }

    fn minimum_bytes_needed() -> usize {
        <T as ReadFrom<L, C>>::minimum_bytes_needed()
    }
}

impl<C: Context, T: Writable<C>> Writable<C> for Generic<T> {
    fn write_to<W: Writer<C>>(&self, writer: &mut W) -> Result<(), C::Error> {
        writer.write_value(&self.inner)
    }
}

#[derive(Drop)]
pub struct HashMapOf<K, V>(pub HashMap<K, V>)
where
    K: Hash + Eq;

impl<K: SameKey + Hash, V: Layout> Layout for HashMapOf<K, V>
where
    K: Hash + Eq,
{
    ghost Seen = { ⟦<HashMap<K, V> as Layout>⟧.Seen };

    ghost seen = { λ it. ⟦<HashMap<K, V> as Layout>⟧.seen it.0 };

    ghost layout = { ⟦<HashMap<K, V> as Layout>⟧.layout };
}

impl<
    L: AsSlice<u8> + Drop,
    C: Context,
    K: ReadFrom<L, C> + SameKey + Hash,
    V: ReadFrom<L, C>,
> ReadFrom<L, C> for HashMapOf<K, V>
where
    K: Hash + Eq,
{
    type Strategy = ItemByItem<C>;

    fn read_from<R: LendingReader<L, C>>(reader: &mut R) -> Result<HashMapOf<K, V>, C::Error> {
        match reader.read_value() {
            Ok(t0) => Ok(HashMapOf(t0)),
            Err(error) => Err(error),
        }
    }

    fn minimum_bytes_needed() -> usize {
        4
    }
}

impl<C: Context, K: Writable<C> + SameKey + Hash, V: Writable<C>> Writable<C> for HashMapOf<K, V>
where
    K: Hash + Eq,
{
    fn write_to<W: Writer<C>>(&self, writer: &mut W) -> Result<(), C::Error> {
        writer.write_value(&self.0)
    }
}

#[derive(Drop)]
pub struct CowOfTreeMap<'a, K, V>(pub Cow<'a, BTreeMap<K, V>>)
where
    K: Ord + Clone,
    V: Clone;

impl<'a, K: SameKey + Ord, V: Layout> Layout for CowOfTreeMap<'a, K, V>
where
    K: Ord + Clone,
    V: Clone,
{
    ghost Seen = { ⟦<Cow<'a, BTreeMap<K, V>> as Layout>⟧.Seen };

    ghost seen = { λ it. ⟦<Cow<'a, BTreeMap<K, V>> as Layout>⟧.seen it.0 };

    ghost layout = { ⟦<Cow<'a, BTreeMap<K, V>> as Layout>⟧.layout };
}

impl<'a, C: Context, K: ReadFrom<&'a [u8], C> + SameKey + Ord, V: ReadFrom<&'a [u8], C>> ReadFrom<
    &'a [u8],
    C,
> for CowOfTreeMap<'a, K, V>
where
    K: Ord + Clone,
    V: Clone,
{
    type Strategy = ItemByItem<C>;

    fn read_from<R: LendingReader<&'a [u8], C>>(
        reader: &mut R,
    ) -> Result<CowOfTreeMap<'a, K, V>, C::Error> {
        match reader.read_value() {
            Ok(t0) => Ok(CowOfTreeMap(t0)),
            Err(error) => Err(error),
        }
    }

    fn minimum_bytes_needed() -> usize
        ensures { result ≡ ⟦<Cow<'a, BTreeMap<K, V>> as Layout>⟧.layout.least }
    {
        4
    }
}

impl<'a, C: Context, K: Writable<C> + SameKey + Ord, V: Writable<C>> Writable<C>
    for CowOfTreeMap<'a, K, V>
where
    K: Ord + Clone,
    V: Clone,
{
    fn write_to<W: Writer<C>>(&self, writer: &mut W) -> Result<(), C::Error> {
        writer.write_value(&self.0)
    }
}
