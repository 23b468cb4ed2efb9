//! Which types are keys of maps and items of sets (`SameKey`). Of numbers `numbers` says so, of floats `floats`.
ghost use Rattle.std.specs.Prelude.{◌≡◌, ◌↔◌, IsTrue, refl};
ghost use Rattle.std.specs.Box.{boxed_slice_items, boxed_str_bytes};
ghost use Rattle.std.specs.Cmp.{unsigned_Decides, signed_Decides, booleans_Decides};
ghost use Rattle.std.specs.Cmp.Lexicographic.{bytes_decides};
ghost use Rattle.std.specs.Cow.{cow_value, cow_slice_items, cow_str_bytes};
ghost use Rattle.std.specs.Int.NonZero.{non_zero_u8_get, non_zero_u16_get, non_zero_u32_get, non_zero_u64_get};
ghost use Rattle.std.specs.Int.NonZero.{non_zero_i8_get, non_zero_i16_get, non_zero_i32_get, non_zero_i64_get};
ghost use Rattle.std.specs.Net.Addr.{ipv4_octets, ipv6_segments};
ghost use Rattle.std.specs.String.{string_bytes};
ghost use Rattle.speedy_layout.specs.Equality.{unit_tells, first_part, next_part, last_part, option_tells};
ghost use Rattle.speedy_layout.specs.Equality.{result_tells, list_tells, order_tells, segments_tell, ip_tells};
ghost use Rattle.speedy_layout.specs.EqualityOfMaps.{same_pairs, same_hash_maps, same_hash_sets};
ghost use Rattle.speedy_layout.specs.Views.{shown_items};
ghost use Rattle.speedy_layout.specs.Zigzag.{varint_number};

use crate::layout::Layout;
use crate::varint::VarInt64;
use crate::view_items::ViewItem;
use crate::views::{ArrayView, SliceView};
use smallvec::SmallVec;
use speedy_base::endianness::Endianness;
use std::borrow::{Cow, CowSlice, CowStr};
use std::boxed::{BoxedSlice, BoxedStr};
use std::collections::{BTreeMap, BTreeSet, HashMap, HashSet};
use std::hash::{BuildHasher, Hash};
use std::net::{IpAddr, Ipv4Addr, Ipv6Addr};
use std::num::{
    NonZeroI8, NonZeroI16, NonZeroI32, NonZeroI64, NonZeroU8, NonZeroU16, NonZeroU32, NonZeroU64,
};
use std::ops::Range;
use uuid::Uuid;

/// A type whose values are equal exactly where they are the same value, as keys of maps and items of sets must
/// be: else a map would hold two entries that a reader cannot tell apart, or lose one that it can.
pub trait SameKey: Layout + Eq {
    /// Values are equal exactly where the same is seen of them.
    ghost same_key: { (x y : Self) → IsTrue (Self.eq x y) ↔ (Self.seen x ≡ Self.seen y) };
}

impl SameKey for NonZeroU8 {
    ghost same_key = { λ x y. unsigned_Decides (non_zero_u8_get x) (non_zero_u8_get y) };
}

impl SameKey for NonZeroU16 {
    ghost same_key = { λ x y. unsigned_Decides (non_zero_u16_get x) (non_zero_u16_get y) };
}

impl SameKey for NonZeroU32 {
    ghost same_key = { λ x y. unsigned_Decides (non_zero_u32_get x) (non_zero_u32_get y) };
}

impl SameKey for NonZeroU64 {
    ghost same_key = { λ x y. unsigned_Decides (non_zero_u64_get x) (non_zero_u64_get y) };
}

impl SameKey for NonZeroI8 {
    ghost same_key = { λ x y. signed_Decides (non_zero_i8_get x) (non_zero_i8_get y) };
}

impl SameKey for NonZeroI16 {
    ghost same_key = { λ x y. signed_Decides (non_zero_i16_get x) (non_zero_i16_get y) };
}

impl SameKey for NonZeroI32 {
    ghost same_key = { λ x y. signed_Decides (non_zero_i32_get x) (non_zero_i32_get y) };
}

impl SameKey for NonZeroI64 {
    ghost same_key = { λ x y. signed_Decides (non_zero_i64_get x) (non_zero_i64_get y) };
}

impl SameKey for VarInt64 {
    ghost same_key = { λ x y. unsigned_Decides (varint_number x) (varint_number y) };
}

impl SameKey for bool {
    ghost same_key = { booleans_Decides };
}

impl SameKey for char {
    ghost same_key = { unsigned_Decides };
}

impl SameKey for Endianness {
    ghost same_key = { order_tells _ refl refl refl refl };
}

impl SameKey for Uuid {
    ghost same_key = { bytes_decides };
}

impl SameKey for Ipv4Addr {
    ghost same_key = { λ x y. bytes_decides (ipv4_octets x) (ipv4_octets y) };
}

impl SameKey for Ipv6Addr {
    ghost same_key = { λ x y. segments_tell (ipv6_segments x) (ipv6_segments y) };
}

impl SameKey for IpAddr {
    ghost same_key = { ip_tells _ (λ x y. refl) (λ x y. refl) (λ x y. refl) (λ x y. refl) };
}

impl<T: SameKey> SameKey for Option<T> {
    ghost same_key = { option_tells T.same_key };
}

impl<T: SameKey, U: SameKey> SameKey for Result<T, U> {
    ghost same_key = { result_tells T.same_key U.same_key };
}

impl<T: SameKey> SameKey for Range<T> {
    ghost same_key = { λ x y. first_part (T.same_key x.start y.start)
        (last_part (T.same_key x.end y.end)) };
}

impl<T: SameKey> SameKey for Vec<T> {
    ghost same_key = { λ x y. list_tells T.same_key x.items y.items };
}

impl<T: SameKey> SameKey for BoxedSlice<T> {
    ghost same_key = { λ x y. list_tells T.same_key (boxed_slice_items x) (boxed_slice_items y) };
}

impl<T: SameKey, const N: usize> SameKey for SmallVec<T, N> {
    ghost same_key = { λ x y. list_tells T.same_key x.items y.items };
}

impl<T: SameKey, const N: usize> SameKey for [T; N] {
    ghost same_key = { list_tells T.same_key };
}

impl SameKey for String {
    ghost same_key = { λ x y. bytes_decides (string_bytes x) (string_bytes y) };
}

impl SameKey for BoxedStr {
    ghost same_key = { λ x y. bytes_decides (boxed_str_bytes x) (boxed_str_bytes y) };
}

impl<T: SameKey> SameKey for Box<T> {
    ghost same_key = { λ x y. T.same_key x.value y.value };
}

impl<'a, T: SameKey> SameKey for &'a T {
    ghost same_key = { λ x y. T.same_key x.now y.now };
}

impl<'a, T: SameKey> SameKey for &'a mut T {
    ghost same_key = { λ x y. T.same_key x.now y.now };
}

impl<'a, T: SameKey> SameKey for &'a [T] {
    ghost same_key = { λ x y. list_tells T.same_key x.now y.now };
}

impl<'a> SameKey for &'a str {
    ghost same_key = { λ x y. bytes_decides x.now y.now };
}

impl<'a, T: ViewItem + SameKey> SameKey for SliceView<'a, T> {
    ghost same_key = { λ x y. list_tells T.same_key (shown_items T.decoded T.SIZE x.bytes.now)
        (shown_items T.decoded T.SIZE y.bytes.now) };
}

impl<'a, T: ViewItem + SameKey, const N: usize> SameKey for ArrayView<'a, T, N> {
    ghost same_key = { λ x y. list_tells T.same_key (shown_items T.decoded T.SIZE x.bytes.now)
        (shown_items T.decoded T.SIZE y.bytes.now) };
}

impl SameKey for () {
    ghost same_key = { unit_tells };
}

impl<T0: SameKey> SameKey for (T0,) {
    ghost same_key = { λ x y. T0.same_key x.0 y.0 };
}

impl<T0: SameKey, T1: SameKey> SameKey for (T0, T1) {
    ghost same_key = { λ x y. first_part (T0.same_key x.0 y.0) (last_part (T1.same_key x.1 y.1)) };
}

impl<T0: SameKey, T1: SameKey, T2: SameKey> SameKey for (T0, T1, T2) {
    ghost same_key = { λ x y. first_part (T0.same_key x.0 y.0) (next_part (T1.same_key x.1 y.1)
        (last_part (T2.same_key x.2 y.2))) };
}

impl<T0: SameKey, T1: SameKey, T2: SameKey, T3: SameKey> SameKey for (T0, T1, T2, T3) {
    ghost same_key = { λ x y. first_part (T0.same_key x.0 y.0) (next_part (T1.same_key x.1 y.1)
        (next_part (T2.same_key x.2 y.2) (last_part (T3.same_key x.3 y.3)))) };
}

impl<T0: SameKey, T1: SameKey, T2: SameKey, T3: SameKey, T4: SameKey> SameKey
    for (T0, T1, T2, T3, T4) {
    ghost same_key = { λ x y. first_part (T0.same_key x.0 y.0) (next_part (T1.same_key x.1 y.1)
        (next_part (T2.same_key x.2 y.2) (next_part (T3.same_key x.3 y.3)
        (last_part (T4.same_key x.4 y.4))))) };
}

impl<T0: SameKey, T1: SameKey, T2: SameKey, T3: SameKey, T4: SameKey, T5: SameKey> SameKey
    for (T0, T1, T2, T3, T4, T5) {
    ghost same_key = { λ x y. first_part (T0.same_key x.0 y.0) (next_part (T1.same_key x.1 y.1)
        (next_part (T2.same_key x.2 y.2) (next_part (T3.same_key x.3 y.3)
        (next_part (T4.same_key x.4 y.4) (last_part (T5.same_key x.5 y.5)))))) };
}

impl<
    T0: SameKey,
    T1: SameKey,
    T2: SameKey,
    T3: SameKey,
    T4: SameKey,
    T5: SameKey,
    T6: SameKey,
> SameKey for (T0, T1, T2, T3, T4, T5, T6) {
    ghost same_key = { λ x y. first_part (T0.same_key x.0 y.0) (next_part (T1.same_key x.1 y.1)
        (next_part (T2.same_key x.2 y.2) (next_part (T3.same_key x.3 y.3)
        (next_part (T4.same_key x.4 y.4) (next_part (T5.same_key x.5 y.5)
        (last_part (T6.same_key x.6 y.6))))))) };
}

impl<
    T0: SameKey,
    T1: SameKey,
    T2: SameKey,
    T3: SameKey,
    T4: SameKey,
    T5: SameKey,
    T6: SameKey,
    T7: SameKey,
> SameKey for (T0, T1, T2, T3, T4, T5, T6, T7) {
    ghost same_key = { λ x y. first_part (T0.same_key x.0 y.0) (next_part (T1.same_key x.1 y.1)
        (next_part (T2.same_key x.2 y.2) (next_part (T3.same_key x.3 y.3)
        (next_part (T4.same_key x.4 y.4) (next_part (T5.same_key x.5 y.5)
        (next_part (T6.same_key x.6 y.6) (last_part (T7.same_key x.7 y.7)))))))) };
}

impl<
    T0: SameKey,
    T1: SameKey,
    T2: SameKey,
    T3: SameKey,
    T4: SameKey,
    T5: SameKey,
    T6: SameKey,
    T7: SameKey,
    T8: SameKey,
> SameKey for (T0, T1, T2, T3, T4, T5, T6, T7, T8) {
    ghost same_key = { λ x y. first_part (T0.same_key x.0 y.0) (next_part (T1.same_key x.1 y.1)
        (next_part (T2.same_key x.2 y.2) (next_part (T3.same_key x.3 y.3)
        (next_part (T4.same_key x.4 y.4) (next_part (T5.same_key x.5 y.5)
        (next_part (T6.same_key x.6 y.6) (next_part (T7.same_key x.7 y.7)
        (last_part (T8.same_key x.8 y.8))))))))) };
}

impl<
    T0: SameKey,
    T1: SameKey,
    T2: SameKey,
    T3: SameKey,
    T4: SameKey,
    T5: SameKey,
    T6: SameKey,
    T7: SameKey,
    T8: SameKey,
    T9: SameKey,
> SameKey for (T0, T1, T2, T3, T4, T5, T6, T7, T8, T9) {
    ghost same_key = { λ x y. first_part (T0.same_key x.0 y.0) (next_part (T1.same_key x.1 y.1)
        (next_part (T2.same_key x.2 y.2) (next_part (T3.same_key x.3 y.3)
        (next_part (T4.same_key x.4 y.4) (next_part (T5.same_key x.5 y.5)
        (next_part (T6.same_key x.6 y.6) (next_part (T7.same_key x.7 y.7)
        (next_part (T8.same_key x.8 y.8) (last_part (T9.same_key x.9 y.9)))))))))) };
}

impl<
    T0: SameKey,
    T1: SameKey,
    T2: SameKey,
    T3: SameKey,
    T4: SameKey,
    T5: SameKey,
    T6: SameKey,
    T7: SameKey,
    T8: SameKey,
    T9: SameKey,
    T10: SameKey,
> SameKey for (T0, T1, T2, T3, T4, T5, T6, T7, T8, T9, T10) {
    ghost same_key = { λ x y. first_part (T0.same_key x.0 y.0) (next_part (T1.same_key x.1 y.1)
        (next_part (T2.same_key x.2 y.2) (next_part (T3.same_key x.3 y.3)
        (next_part (T4.same_key x.4 y.4) (next_part (T5.same_key x.5 y.5)
        (next_part (T6.same_key x.6 y.6) (next_part (T7.same_key x.7 y.7)
        (next_part (T8.same_key x.8 y.8) (next_part (T9.same_key x.9 y.9)
        (last_part (T10.same_key x.10 y.10))))))))))) };
}

impl<'a, T: SameKey> SameKey for Cow<'a, T> {
    ghost same_key = { λ x y. T.same_key (cow_value x) (cow_value y) };
}

impl<'a, T: SameKey> SameKey for CowSlice<'a, T> {
    ghost same_key = { λ x y. list_tells T.same_key (cow_slice_items x) (cow_slice_items y) };
}

impl<'a> SameKey for CowStr<'a> {
    ghost same_key = { λ x y. bytes_decides (cow_str_bytes x) (cow_str_bytes y) };
}

impl<K: SameKey + Ord, V: SameKey> SameKey for BTreeMap<K, V> {
    ghost same_key = { λ m n. list_tells (same_pairs K.same_key V.same_key) m.entries n.entries };
}

impl<K: SameKey + Hash, V: SameKey, S: BuildHasher> SameKey for HashMap<K, V, S> {
    ghost same_key = { same_hash_maps V.same_key K.Eq.laws };
}

impl<T: SameKey + Ord> SameKey for BTreeSet<T> {
    ghost same_key = { λ s t. list_tells T.same_key s.keys t.keys };
}

impl<T: SameKey + Hash, S: BuildHasher> SameKey for HashSet<T, S> {
    ghost same_key = { same_hash_sets T.Eq.laws };
}
