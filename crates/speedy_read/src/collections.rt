//! How maps and sets are made of the items that are read: repeated keys, and whether the order is canonical.
ghost use Rattle.std.specs.Prelude.{◌≡◌, ◌<◌, ◌++◌, ◌∷◌, ◌↔◌, List, [], map, IsTrue, IfOk, OnOk};
ghost use Rattle.std.proofs.Common.{subst};
ghost use Rattle.speedy_layout.specs.Members.{AreDistinct, Ascends};
ghost use Rattle.speedy_layout.specs.SeenItems.{IsLess};
ghost use Rattle.speedy_layout.specs.Maps.{seen_pair, by_key, HasDistinctKeys};
ghost use Rattle.speedy_layout.specs.StdMaps.{seen_pairs};
ghost use Rattle.speedy_layout.specs.GathersTo.{IsTreeMapOf, IsHashMapOf, IsIndexMapOf};
ghost use Rattle.speedy_layout.specs.GathersTo.{IsTreeSetOf, IsHashSetOf, IsIndexSetOf};
ghost use Rattle.speedy_layout.specs.OneMoreItem.{ascending_first, distinct_first, distinct_keys_first};
ghost use Rattle.speedy_read.specs.Collections.{gatherer, CollectsValues};

use crate::many::Items;
use crate::readable::{ReadFrom, ReadMany};
use crate::reader::{LendingReader, ends_before};
use indexmap::{IndexMap, IndexSet};
use speedy_base::context::Context;
use speedy_base::error::{error_end_of_input, error_not_written_form, error_out_of_memory};
use speedy_layout::layout::Layout;
use speedy_layout::same_key::SameKey;
use std::alloc::{AllocError, Global};
use std::collections::{BTreeMap, BTreeSet, HashMap, HashSet};
use std::convert::AsSlice;
use std::hash::{BuildHasher, Hash};
use std::mem;

/// The most items that wait in a list to be gathered to a map or a set, where these have no more.
const WAITING: usize = 131_072;

/// Collections that items are gathered to, one after another: a list, a set, a map.
pub trait FromItems<T: Layout>: Sized + Drop {
    /// Which collection a list of items gathers to.
    ghost gathers: { List T → Self → Type 0 };

    /// The lists of items that are canonical: a collection is written as these.
    ghost are_written: { List T → Type 0 };

    /// An empty collection.
    fn empty(alloc: Global) -> Self
        ensures { gathers [] result };

    /// Adds an item behind those that were added. The only error is out of memory, and after it the collection can only
    /// be dropped.
    fn add(&mut self, item: T) -> Result<(), AllocError>
        ensures { OnOk result ((items : List T) → gathers items self.old
            → gathers (items ++ item ∷ []) self.new) };

    /// Whether the items that were added, if they are canonical, still are with this one after them.
    fn accepts(&self, item: &T) -> bool
        ensures { (items : List T) → gathers items self.now → are_written items
            → IsTrue result ↔ are_written (items ++ item.now ∷ []) };

    /// Adds all these items, one after another, behind those that were added. The only error is out of memory, and
    /// after it the collection can only be dropped.
    fn add_all(&mut self, alloc: Global, items: Vec<T>) -> Result<(), AllocError>
        ensures { OnOk result ((earlier : List T) → gathers earlier self.old
            → gathers (earlier ++ items.items) self.new) };

    /// How many items may wait in a list before they are added, where more are to come: at least one. Those that the
    /// collection leaves out, as it holds equal ones, take memory only so long. This body says 131,072.
    fn most_waiting(&self) -> usize
        ensures { 0 < result }
    {
        WAITING
    }

    /// Gathers all these items, as if they were added one after another. The only error is out of memory.
    #[inline]
    final fn gather(alloc: Global, items: Vec<T>) -> Result<Self, AllocError>
        ensures { IfOk result (gathers items.items) }
    {
        let mut whole = Self::empty(alloc);
        whole.add_all(alloc, items)?;
        Ok(whole)
    }

    /// No items at all are canonical.
    ghost none_written: { are_written [] };

    /// The first ones of items that are canonical are so too.
    ghost first_written: { (items more : List T) → are_written (items ++ more) → are_written items };

    /// What is seen of the items decides whether they are canonical.
    ghost written_as_seen: { (items others : List T) →
        map T.seen items ≡ map T.seen others → are_written items → are_written others };
}

impl<T: Layout + Drop> FromItems<T> for Vec<T> {
    ghost gathers = { λ items v. v.items ≡ items };

    ghost are_written = { λ _. Unit {0} };

    ghost none_written = { tt };

    ghost first_written = { λ items more h. tt };

    ghost written_as_seen = { λ items others e h. tt };

    fn empty(alloc: Global) -> Vec<T> {
        Vec::new(alloc)
    }

    fn add(&mut self, item: T) -> Result<(), AllocError> {
        match self.push(item) {
            Ok(()) => Ok(()),
            Err(_) => Err(AllocError),
        }
    }

    fn add_all(&mut self, _alloc: Global, items: Vec<T>) -> Result<(), AllocError>
        ensures { OnOk result ((earlier : List T) → self.old.items ≡ earlier
            → self.new.items ≡ earlier ++ items.items) }
    {
        if self.is_empty() {
            *self = items;
            return Ok(());
        }
        let mut items = items;
        self.append(&mut items)
    }

    // It leaves no item out, and a list that is read at once is the vector.
    fn most_waiting(&self) -> usize {
        usize::MAX
    }

    fn accepts(&self, _item: &T) -> bool {
        true
    }
}

impl<K: SameKey + Ord + Drop, V: Layout + Drop> FromItems<(K, V)> for BTreeMap<K, V> {
    ghost gathers = { λ items m. IsTreeMapOf K.cmp items m };

    ghost are_written = { λ items. Ascends (by_key (IsLess K.seen K.cmp)) (seen_pairs K.seen V.seen items) };

    ghost none_written = { tt };

    ghost first_written = { ascending_first (seen_pair K.seen V.seen) (by_key (IsLess K.seen K.cmp)) };

    ghost written_as_seen = { λ items others e. subst (Ascends (by_key (IsLess K.seen K.cmp))) e };

    fn empty(alloc: Global) -> BTreeMap<K, V> {
        BTreeMap::new(alloc)
    }

    fn add(&mut self, item: (K, V)) -> Result<(), AllocError> {
        let (key, value) = item;
        match BTreeMap::insert(self, key, value) {
            Ok(_) => Ok(()),
            Err(_) => Err(AllocError),
        }
    }

    // A tree is made faster of all items at once than they are inserted.
    fn add_all(&mut self, alloc: Global, items: Vec<(K, V)>) -> Result<(), AllocError>
        ensures { OnOk result ((earlier : List (K × V)) → IsTreeMapOf K.cmp earlier self.old
            → IsTreeMapOf K.cmp (earlier ++ items.items) self.new) }
    {
        if BTreeMap::is_empty(self) {
            *self = items.into_iter().collect(alloc)?;
            return Ok(());
        }
        let earlier = mem::replace(self, BTreeMap::new(alloc));
        *self = earlier.into_iter().chain(items).collect(alloc)?;
        Ok(())
    }

    fn most_waiting(&self) -> usize {
        BTreeMap::len(self).saturating_mul(2).max(WAITING)
    }

    fn accepts(&self, item: &(K, V)) -> bool {
        match self.last_key_value() {
            Some((last, _)) => last.cmp(&item.0).is_lt(),
            None => true,
        }
    }
}

impl<K: SameKey + Hash + Drop, V: Layout + Drop, S: BuildHasher + Default + Drop> FromItems<(K, V)>
    for HashMap<K, V, S> {
    ghost gathers = { λ items m. IsHashMapOf K.eq items m };

    ghost are_written = { λ items. HasDistinctKeys (seen_pairs K.seen V.seen items) };

    ghost none_written = { tt };

    ghost first_written = { distinct_keys_first (seen_pair K.seen V.seen) };

    ghost written_as_seen = { λ items others e. subst HasDistinctKeys e };

    fn empty(alloc: Global) -> HashMap<K, V, S> {
        HashMap::with_hasher(alloc, S::default())
    }

    fn add(&mut self, item: (K, V)) -> Result<(), AllocError> {
        let (key, value) = item;
        match HashMap::insert(self, key, value) {
            Ok(_) => Ok(()),
            Err(_) => Err(AllocError),
        }
    }

    fn add_all(&mut self, _alloc: Global, items: Vec<(K, V)>) -> Result<(), AllocError>
        ensures { OnOk result ((earlier : List (K × V)) → IsHashMapOf K.eq earlier self.old
            → IsHashMapOf K.eq (earlier ++ items.items) self.new) }
    {
        self.extend(items)
    }

    fn accepts(&self, item: &(K, V)) -> bool {
        !HashMap::contains_key(self, &item.0)
    }
}

impl<K: SameKey + Hash + Drop, V: Layout + Drop, S: BuildHasher + Default + Drop> FromItems<(K, V)>
    for IndexMap<K, V, S> {
    ghost gathers = { λ items m. IsIndexMapOf K.eq items m };

    ghost are_written = { λ items. HasDistinctKeys (seen_pairs K.seen V.seen items) };

    ghost none_written = { tt };

    ghost first_written = { distinct_keys_first (seen_pair K.seen V.seen) };

    ghost written_as_seen = { λ items others e. subst HasDistinctKeys e };

    fn empty(alloc: Global) -> IndexMap<K, V, S> {
        IndexMap::with_hasher(alloc, S::default())
    }

    fn add(&mut self, item: (K, V)) -> Result<(), AllocError> {
        let (key, value) = item;
        match IndexMap::insert(self, key, value) {
            Ok(_) => Ok(()),
            Err(_) => Err(AllocError),
        }
    }

    fn add_all(&mut self, _alloc: Global, items: Vec<(K, V)>) -> Result<(), AllocError>
        ensures { OnOk result ((earlier : List (K × V)) → IsIndexMapOf K.eq earlier self.old
            → IsIndexMapOf K.eq (earlier ++ items.items) self.new) }
    {
        self.extend(items)
    }

    fn accepts(&self, item: &(K, V)) -> bool {
        !IndexMap::contains_key(self, &item.0)
    }
}

impl<T: SameKey + Ord + Drop> FromItems<T> for BTreeSet<T> {
    ghost gathers = { λ items s. IsTreeSetOf T.cmp items s };

    ghost are_written = { λ items. Ascends (IsLess T.seen T.cmp) (map T.seen items) };

    ghost none_written = { tt };

    ghost first_written = { ascending_first T.seen (IsLess T.seen T.cmp) };

    ghost written_as_seen = { λ items others e. subst (Ascends (IsLess T.seen T.cmp)) e };

    fn empty(alloc: Global) -> BTreeSet<T> {
        BTreeSet::new(alloc)
    }

    fn add(&mut self, item: T) -> Result<(), AllocError> {
        match BTreeSet::insert(self, item) {
            Ok(_) => Ok(()),
            Err(_) => Err(AllocError),
        }
    }

    fn add_all(&mut self, alloc: Global, items: Vec<T>) -> Result<(), AllocError>
        ensures { OnOk result ((earlier : List T) → IsTreeSetOf T.cmp earlier self.old
            → IsTreeSetOf T.cmp (earlier ++ items.items) self.new) }
    {
        if BTreeSet::is_empty(self) {
            *self = items.into_iter().collect(alloc)?;
            return Ok(());
        }
        let earlier = mem::replace(self, BTreeSet::new(alloc));
        *self = earlier.into_iter().chain(items).collect(alloc)?;
        Ok(())
    }

    fn most_waiting(&self) -> usize {
        BTreeSet::len(self).saturating_mul(2).max(WAITING)
    }

    fn accepts(&self, item: &T) -> bool {
        match self.last() {
            Some(last) => last.cmp(item).is_lt(),
            None => true,
        }
    }
}

impl<T: SameKey + Hash + Drop, S: BuildHasher + Default + Drop> FromItems<T> for HashSet<T, S> {
    ghost gathers = { λ items s. IsHashSetOf T.eq items s };

    ghost are_written = { λ items. AreDistinct (map T.seen items) };

    ghost none_written = { tt };

    ghost first_written = { distinct_first T.seen };

    ghost written_as_seen = { λ items others e. subst AreDistinct e };

    fn empty(alloc: Global) -> HashSet<T, S> {
        HashSet::with_hasher(alloc, S::default())
    }

    fn add(&mut self, item: T) -> Result<(), AllocError> {
        match HashSet::insert(self, item) {
            Ok(_) => Ok(()),
            Err(_) => Err(AllocError),
        }
    }

    fn add_all(&mut self, _alloc: Global, items: Vec<T>) -> Result<(), AllocError>
        ensures { OnOk result ((earlier : List T) → IsHashSetOf T.eq earlier self.old
            → IsHashSetOf T.eq (earlier ++ items.items) self.new) }
    {
        self.extend(items)
    }

    fn accepts(&self, item: &T) -> bool {
        !HashSet::contains(self, item)
    }
}

impl<T: SameKey + Hash + Drop, S: BuildHasher + Default + Drop> FromItems<T> for IndexSet<T, S> {
    ghost gathers = { λ items s. IsIndexSetOf T.eq items s };

    ghost are_written = { λ items. AreDistinct (map T.seen items) };

    ghost none_written = { tt };

    ghost first_written = { distinct_first T.seen };

    ghost written_as_seen = { λ items others e. subst AreDistinct e };

    fn empty(alloc: Global) -> IndexSet<T, S> {
        IndexSet::with_hasher(alloc, S::default())
    }

    fn add(&mut self, item: T) -> Result<(), AllocError> {
        match IndexSet::insert(self, item) {
            Ok(_) => Ok(()),
            Err(_) => Err(AllocError),
        }
    }

    fn add_all(&mut self, _alloc: Global, items: Vec<T>) -> Result<(), AllocError>
        ensures { OnOk result ((earlier : List T) → IsIndexSetOf T.eq earlier self.old
            → IsIndexSetOf T.eq (earlier ++ items.items) self.new) }
    {
        self.extend(items)
    }

    fn accepts(&self, item: &T) -> bool {
        !IndexSet::contains(self, item)
    }
}

// Reads `length` items and gathers them. It stands outside the trait, so that it is proved once for all types.
#[inline]
pub(crate) fn collect_items<
    F: FromItems<T>,
    T: ReadMany<L, C>,
    L: AsSlice<u8> + Drop,
    C: Context,
    R: LendingReader<L, C>,
>(reader: &mut R, length: usize) -> Result<F, C::Error>
    ensures { let items = gatherer T.seen F.gathers F.are_written in
        CollectsValues C.Error.IsEof R.state items T.layout length result reader.old reader.new }
{
    if reader.demands_written_form() {
        return collect_written::<F, T, L, C, R>(reader, length);
    }
    if T::IN_BULK && ends_before::<L, C, R>(reader, T::minimum_bytes_needed(), length) {
        return Err(error_end_of_input());
    }
    let mut whole = F::empty(reader.alloc());
    let mut left = length;
    while left > 0 {
        let some = left.min(whole.most_waiting());
        let items: Items<T> = T::read_many_cow(reader, some)?;
        if whole.add_all(reader.alloc(), items.values).is_err() {
            return Err(error_out_of_memory());
        }
        left -= some;
    }
    Ok(whole)
}

// The same where the canonical encoding is demanded: what was gathered says whether the next item may follow.
fn collect_written<
    F: FromItems<T>,
    T: ReadFrom<L, C>,
    L: AsSlice<u8> + Drop,
    C: Context,
    R: LendingReader<L, C>,
>(reader: &mut R, length: usize) -> Result<F, C::Error>
    requires { IsTrue (R.state reader.now).mode.strict }
    ensures { let items = gatherer T.seen F.gathers F.are_written in
        CollectsValues C.Error.IsEof R.state items T.layout length result reader.old reader.new }
{
    let mut items = F::empty(reader.alloc());
    for _i in 0..length {
        let item = T::read_from(reader)?;
        let is_written = items.accepts(&item);
        if items.add(item).is_err() {
            return Err(error_out_of_memory());
        }
        if !is_written {
            return Err(error_not_written_form());
        }
    }
    Ok(items)
}
