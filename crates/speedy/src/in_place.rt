//! Which values a list may show where it lies (`InPlace`): those that take no memory, and are seen as data.
ghost use Rattle.std.specs.Prelude.{ℕ, ℤ, List, Bool, Option, ◌⊎◌};
ghost use Rattle.std.specs.Int.{w8, w16, w32, w64};
ghost use Rattle.speedy.specs.InPlace.{InPlaceCodec, InPlaceChoices, unsigned_in_place, signed_in_place};
ghost use Rattle.speedy.specs.InPlace.{flag_in_place, character_in_place, borrowed_bytes_in_place};
ghost use Rattle.speedy_layout.specs.Codecs.{unsigned_codec, list_codec, vector_codec, text_codec};
ghost use Rattle.speedy.specs.InPlace.{unit_in_place, pair_in_place, option_in_place};
ghost use Rattle.speedy.specs.InPlace.{unit_case_in_place, one_case_in_place, either_case_in_place};

use crate::cases::{Case, Either, UnitCase};
use speedy_layout::floats::{F32, F64};

/// Types whose values a list may show where it lies: reading one asks for no memory, and what is seen of one is data.
///
/// It has no function to run. A type of your own quotes that of a tuple of its parts, as its `Layout` does.
pub trait InPlace {
    /// What is seen of a value, as the type's `Layout` says.
    ghost Seen: { Type 0 };

    /// The layout of the type, with the facts that it takes no memory and that what is seen is data.
    ghost in_place: { InPlaceCodec Seen };
}

/// Cases of an enum whose values a list may show where it lies.
pub trait CasesInPlace {
    /// What is seen of a value of one of the cases.
    ghost Seen: { Type 0 };

    /// The cases, with the facts that they take no memory and that what is seen is data.
    ghost in_place: { InPlaceChoices Seen };
}

impl InPlace for u8 {
    ghost Seen = { ℕ };

    ghost in_place = { unsigned_in_place 1 };
}

impl InPlace for u16 {
    ghost Seen = { ℕ };

    ghost in_place = { unsigned_in_place 2 };
}

impl InPlace for u32 {
    ghost Seen = { ℕ };

    ghost in_place = { unsigned_in_place 4 };
}

impl InPlace for u64 {
    ghost Seen = { ℕ };

    ghost in_place = { unsigned_in_place 8 };
}

impl InPlace for i8 {
    ghost Seen = { ℤ };

    ghost in_place = { signed_in_place w8 };
}

impl InPlace for i16 {
    ghost Seen = { ℤ };

    ghost in_place = { signed_in_place w16 };
}

impl InPlace for i32 {
    ghost Seen = { ℤ };

    ghost in_place = { signed_in_place w32 };
}

impl InPlace for i64 {
    ghost Seen = { ℤ };

    ghost in_place = { signed_in_place w64 };
}

impl InPlace for F32 {
    ghost Seen = { ℕ };

    ghost in_place = { unsigned_in_place 4 };
}

impl InPlace for F64 {
    ghost Seen = { ℕ };

    ghost in_place = { unsigned_in_place 8 };
}

impl InPlace for bool {
    ghost Seen = { Bool };

    ghost in_place = { flag_in_place };
}

impl InPlace for char {
    ghost Seen = { ℕ };

    ghost in_place = { character_in_place };
}

impl<'a> InPlace for &'a str {
    ghost Seen = { List ℕ };

    ghost in_place = { borrowed_bytes_in_place text_codec };
}

impl<'a> InPlace for &'a [u8] {
    ghost Seen = { List ℕ };

    ghost in_place = { borrowed_bytes_in_place (list_codec (unsigned_codec 1)) };
}

impl<'a, const N: usize> InPlace for &'a [u8; N] {
    ghost Seen = { List ℕ };

    ghost in_place = { borrowed_bytes_in_place (vector_codec N (unsigned_codec 1)) };
}

impl<T: InPlace> InPlace for Option<T> {
    ghost Seen = { Option T.Seen };

    ghost in_place = { option_in_place T.in_place };
}

impl InPlace for () {
    ghost Seen = { Unit {0} };

    ghost in_place = { unit_in_place };
}

impl<T0: InPlace> InPlace for (T0,) {
    ghost Seen = { T0.Seen };

    ghost in_place = { T0.in_place };
}

impl<T0: InPlace, T1: InPlace> InPlace for (T0, T1) {
    ghost Seen = { T0.Seen × T1.Seen };

    ghost in_place = { pair_in_place T0.in_place T1.in_place };
}

impl<T0: InPlace, T1: InPlace, T2: InPlace> InPlace for (T0, T1, T2) {
    ghost Seen = { ⟦<(T0, (T1, T2)) as InPlace>⟧.Seen };

    ghost in_place = { ⟦<(T0, (T1, T2)) as InPlace>⟧.in_place };
}

impl<T0: InPlace, T1: InPlace, T2: InPlace, T3: InPlace> InPlace for (T0, T1, T2, T3) {
    ghost Seen = { ⟦<(T0, (T1, T2, T3)) as InPlace>⟧.Seen };

    ghost in_place = { ⟦<(T0, (T1, T2, T3)) as InPlace>⟧.in_place };
}

impl<T0: InPlace, T1: InPlace, T2: InPlace, T3: InPlace, T4: InPlace> InPlace
    for (T0, T1, T2, T3, T4) {
    ghost Seen = { ⟦<(T0, (T1, T2, T3, T4)) as InPlace>⟧.Seen };

    ghost in_place = { ⟦<(T0, (T1, T2, T3, T4)) as InPlace>⟧.in_place };
}

impl<T0: InPlace, T1: InPlace, T2: InPlace, T3: InPlace, T4: InPlace, T5: InPlace> InPlace
    for (T0, T1, T2, T3, T4, T5) {
    ghost Seen = { ⟦<(T0, (T1, T2, T3, T4, T5)) as InPlace>⟧.Seen };

    ghost in_place = { ⟦<(T0, (T1, T2, T3, T4, T5)) as InPlace>⟧.in_place };
}

impl<
    T0: InPlace,
    T1: InPlace,
    T2: InPlace,
    T3: InPlace,
    T4: InPlace,
    T5: InPlace,
    T6: InPlace,
> InPlace for (T0, T1, T2, T3, T4, T5, T6) {
    ghost Seen = { ⟦<(T0, (T1, T2, T3, T4, T5, T6)) as InPlace>⟧.Seen };

    ghost in_place = { ⟦<(T0, (T1, T2, T3, T4, T5, T6)) as InPlace>⟧.in_place };
}

impl<
    T0: InPlace,
    T1: InPlace,
    T2: InPlace,
    T3: InPlace,
    T4: InPlace,
    T5: InPlace,
    T6: InPlace,
    T7: InPlace,
> InPlace for (T0, T1, T2, T3, T4, T5, T6, T7) {
    ghost Seen = { ⟦<(T0, (T1, T2, T3, T4, T5, T6, T7)) as InPlace>⟧.Seen };

    ghost in_place = { ⟦<(T0, (T1, T2, T3, T4, T5, T6, T7)) as InPlace>⟧.in_place };
}

impl<
    T0: InPlace,
    T1: InPlace,
    T2: InPlace,
    T3: InPlace,
    T4: InPlace,
    T5: InPlace,
    T6: InPlace,
    T7: InPlace,
    T8: InPlace,
> InPlace for (T0, T1, T2, T3, T4, T5, T6, T7, T8) {
    ghost Seen = { ⟦<(T0, (T1, T2, T3, T4, T5, T6, T7, T8)) as InPlace>⟧.Seen };

    ghost in_place = { ⟦<(T0, (T1, T2, T3, T4, T5, T6, T7, T8)) as InPlace>⟧.in_place };
}

impl<
    T0: InPlace,
    T1: InPlace,
    T2: InPlace,
    T3: InPlace,
    T4: InPlace,
    T5: InPlace,
    T6: InPlace,
    T7: InPlace,
    T8: InPlace,
    T9: InPlace,
> InPlace for (T0, T1, T2, T3, T4, T5, T6, T7, T8, T9) {
    ghost Seen = { ⟦<(T0, (T1, T2, T3, T4, T5, T6, T7, T8, T9)) as InPlace>⟧.Seen };

    ghost in_place = { ⟦<(T0, (T1, T2, T3, T4, T5, T6, T7, T8, T9)) as InPlace>⟧.in_place };
}

impl<
    T0: InPlace,
    T1: InPlace,
    T2: InPlace,
    T3: InPlace,
    T4: InPlace,
    T5: InPlace,
    T6: InPlace,
    T7: InPlace,
    T8: InPlace,
    T9: InPlace,
    T10: InPlace,
> InPlace for (T0, T1, T2, T3, T4, T5, T6, T7, T8, T9, T10) {
    ghost Seen = { ⟦<(T0, (T1, T2, T3, T4, T5, T6, T7, T8, T9, T10)) as InPlace>⟧.Seen };

    ghost in_place = { ⟦<(T0, (T1, T2, T3, T4, T5, T6, T7, T8, T9, T10)) as InPlace>⟧.in_place };
}

impl<const TAG: usize> CasesInPlace for UnitCase<TAG> {
    ghost Seen = { Unit {0} };

    ghost in_place = { unit_case_in_place TAG };
}

impl<const TAG: usize, T: InPlace> CasesInPlace for Case<TAG, T> {
    ghost Seen = { T.Seen };

    ghost in_place = { one_case_in_place TAG T.in_place };
}

impl<A: CasesInPlace, B: CasesInPlace> CasesInPlace for Either<A, B> {
    ghost Seen = { A.Seen ⊎ B.Seen };

    ghost in_place = { either_case_in_place A.in_place B.in_place };
}
