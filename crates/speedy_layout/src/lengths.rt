//! Texts, lists, maps and sets of a length that the parts before them tell.
ghost use Rattle.std.specs.Prelude.{◌≡◌, ℕ, ℤ, List, SomeIff};
ghost use Rattle.speedy_layout.specs.Codecs.{Codec, pair_codec};
ghost use Rattle.speedy_layout.specs.Lengths.{Counting, with_length_codec, list_counting, text_counting};
ghost use Rattle.speedy_layout.specs.Lengths.{borrowed_counting};

use crate::layout::Layout;
use std::borrow::{CowSlice, CowStr};
use std::boxed::{BoxedSlice, BoxedStr};
use std::marker::PhantomData;

/// Types of texts, lists, maps and sets, which may stand without their length where that is told elsewhere.
pub trait OfLength {
    /// What is seen of a value.
    ghost Seen: { Type 0 };

    ghost seen: { Self → Seen };

    /// The layout of those of a length.
    ghost counting: { Counting Seen };
}

impl OfLength for String {
    ghost Seen = { List ℕ };

    ghost seen = { ⟦<String as Layout>⟧.seen };

    ghost counting = { text_counting };
}

impl<'a> OfLength for &'a str {
    ghost Seen = { List ℕ };

    ghost seen = { ⟦<&'a str as Layout>⟧.seen };

    ghost counting = { borrowed_counting text_counting };
}

impl OfLength for BoxedStr {
    ghost Seen = { List ℕ };

    ghost seen = { ⟦<BoxedStr as Layout>⟧.seen };

    ghost counting = { text_counting };
}

impl<'a> OfLength for CowStr<'a> {
    ghost Seen = { List ℕ };

    ghost seen = { ⟦<CowStr<'a> as Layout>⟧.seen };

    ghost counting = { text_counting };
}

impl<T: Layout> OfLength for Vec<T> {
    ghost Seen = { List T.Seen };

    ghost seen = { ⟦<Vec<T> as Layout>⟧.seen };

    ghost counting = { list_counting T.layout };
}

impl<'a, T: Layout> OfLength for &'a [T] {
    ghost Seen = { List T.Seen };

    ghost seen = { ⟦<&'a [T] as Layout>⟧.seen };

    ghost counting = { borrowed_counting (list_counting T.layout) };
}

impl<T: Layout> OfLength for BoxedSlice<T> {
    ghost Seen = { List T.Seen };

    ghost seen = { ⟦<BoxedSlice<T> as Layout>⟧.seen };

    ghost counting = { list_counting T.layout };
}

impl<'a, T: Layout> OfLength for CowSlice<'a, T> {
    ghost Seen = { List T.Seen };

    ghost seen = { ⟦<CowSlice<'a, T> as Layout>⟧.seen };

    ghost counting = { list_counting T.layout };
}

/// Which length numbers tell: of a text in bytes, of a list or a set in items, of a map in pairs.
///
/// `N` is one number, or a pair that may hold pairs again.
pub trait Length<N> {
    /// Whether the numbers tell a length, and which.
    ghost is_told: { N → Type 0 };

    ghost told: { N → ℕ };

    /// The name of the field that has the length.
    ghost field: { List ℕ };

    /// The length that the numbers tell. `None` is the error `OutOfRangeLength`.
    fn length(numbers: N) -> Option<usize>
        ensures { SomeIff result (is_told numbers) (told numbers) };

    /// The name of the field that has the length, for the error of another length.
    fn field() -> &'static str
        ensures { result.now ≡ field };
}

/// Parts that hold numbers, which tell the length of what stands behind them.
///
/// A number holds itself, a pair the pair of what its parts hold. An [`Other`] part holds nothing, `()`.
pub trait Holds {
    /// The numbers.
    type Numbers;

    /// What is seen of the parts.
    ghost Seen: { Type 0 };

    ghost seen: { Self → Seen };

    /// The layout of the parts.
    ghost layout: { Codec Seen };

    /// The numbers that parts hold of which this is seen.
    ghost numbers: { Seen → Self.Numbers };

    /// The numbers that the parts hold.
    fn numbers(&self) -> Self::Numbers
        ensures { result ≡ numbers (seen self.now) };
}

impl Holds for u8 {
    type Numbers = u8;

    ghost Seen = { ℕ };

    ghost seen = { λ n. n };

    ghost layout = { ⟦<u8 as Layout>⟧.layout };

    ghost numbers = { λ n. n };

    #[inline]
    fn numbers(&self) -> u8 {
        *self
    }
}

impl Holds for u16 {
    type Numbers = u16;

    ghost Seen = { ℕ };

    ghost seen = { λ n. n };

    ghost layout = { ⟦<u16 as Layout>⟧.layout };

    ghost numbers = { λ n. n };

    #[inline]
    fn numbers(&self) -> u16 {
        *self
    }
}

impl Holds for u32 {
    type Numbers = u32;

    ghost Seen = { ℕ };

    ghost seen = { λ n. n };

    ghost layout = { ⟦<u32 as Layout>⟧.layout };

    ghost numbers = { λ n. n };

    #[inline]
    fn numbers(&self) -> u32 {
        *self
    }
}

impl Holds for u64 {
    type Numbers = u64;

    ghost Seen = { ℕ };

    ghost seen = { λ n. n };

    ghost layout = { ⟦<u64 as Layout>⟧.layout };

    ghost numbers = { λ n. n };

    #[inline]
    fn numbers(&self) -> u64 {
        *self
    }
}

impl Holds for usize {
    type Numbers = usize;

    ghost Seen = { ℕ };

    ghost seen = { λ n. n };

    ghost layout = { ⟦<usize as Layout>⟧.layout };

    ghost numbers = { λ n. n };

    #[inline]
    fn numbers(&self) -> usize {
        *self
    }
}

impl Holds for i8 {
    type Numbers = i8;

    ghost Seen = { ℤ };

    ghost seen = { λ n. n };

    ghost layout = { ⟦<i8 as Layout>⟧.layout };

    ghost numbers = { λ n. n };

    #[inline]
    fn numbers(&self) -> i8 {
        *self
    }
}

impl Holds for i16 {
    type Numbers = i16;

    ghost Seen = { ℤ };

    ghost seen = { λ n. n };

    ghost layout = { ⟦<i16 as Layout>⟧.layout };

    ghost numbers = { λ n. n };

    #[inline]
    fn numbers(&self) -> i16 {
        *self
    }
}

impl Holds for i32 {
    type Numbers = i32;

    ghost Seen = { ℤ };

    ghost seen = { λ n. n };

    ghost layout = { ⟦<i32 as Layout>⟧.layout };

    ghost numbers = { λ n. n };

    #[inline]
    fn numbers(&self) -> i32 {
        *self
    }
}

impl Holds for i64 {
    type Numbers = i64;

    ghost Seen = { ℤ };

    ghost seen = { λ n. n };

    ghost layout = { ⟦<i64 as Layout>⟧.layout };

    ghost numbers = { λ n. n };

    #[inline]
    fn numbers(&self) -> i64 {
        *self
    }
}

/// A part among those that hold numbers, of any type, which holds none itself.
#[derive(Debug, PartialEq, Drop)]
pub struct Other<T>(pub T);

impl<T: Layout> Holds for Other<T> {
    type Numbers = ();

    ghost Seen = { T.Seen };

    ghost seen = { λ it. T.seen it.0 };

    ghost layout = { T.layout };

    ghost numbers = { λ _. tt };

    #[inline]
    fn numbers(&self) -> () {}
}

impl<A: Holds, B: Holds> Holds for (A, B) {
    type Numbers = (A::Numbers, B::Numbers);

    ghost Seen = { A.Seen × B.Seen };

    ghost seen = { λ parts. (A.seen parts.0, B.seen parts.1) };

    ghost layout = { pair_codec A.layout B.layout };

    ghost numbers = { λ parts. (A.numbers parts.0, B.numbers parts.1) };

    #[inline]
    fn numbers(&self) -> (A::Numbers, B::Numbers) {
        (self.0.numbers(), self.1.numbers())
    }
}

/// Parts that hold numbers, and behind them a text, a list, a map or a set of the length that the numbers tell, as `K`
/// says.
///
/// One of another length has no encoding: that is `LengthIsNotTheSameAsLengthAttribute`. Numbers that tell no length
/// are `OutOfRangeLength`, in reading too. So are pairs of a map of which two have one key, and items of a set of which
/// two are equal: the map or the set would have fewer than are told.
#[derive(Debug, PartialEq, Drop)]
pub struct WithLength<K, B, T> {
    /// The parts that hold the numbers.
    pub before: B,
    /// The text, the list, the map or the set.
    pub value: T,
    /// Names how the numbers tell the length, and holds nothing.
    pub length: PhantomData<K>,
}

impl<B: Holds, K: Length<B::Numbers>, T: OfLength> Layout for WithLength<K, B, T> {
    ghost Seen = { B.Seen × T.Seen };

    ghost seen = { λ it. (B.seen it.before, T.seen it.value) };

    ghost layout = { with_length_codec K.is_told K.told B.numbers K.field B.layout T.counting };
}

// What stands behind these parts may have a length too that their numbers tell.
impl<B: Holds, K: Length<B::Numbers>, T: OfLength> Holds for WithLength<K, B, T> {
    type Numbers = B::Numbers;

    ghost Seen = { ⟦<WithLength<K, B, T> as Layout>⟧.Seen };

    ghost seen = { ⟦<WithLength<K, B, T> as Layout>⟧.seen };

    ghost layout = { ⟦<WithLength<K, B, T> as Layout>⟧.layout };

    ghost numbers = { λ it. B.numbers it.0 };

    #[inline]
    fn numbers(&self) -> B::Numbers {
        self.before.numbers()
    }
}
