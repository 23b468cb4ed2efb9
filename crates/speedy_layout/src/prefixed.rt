//! Values behind a number that tells of them: texts, lists, maps and sets behind a length, cases behind a tag.
ghost use Rattle.std.specs.Prelude.{◌≡◌};
ghost use Rattle.speedy_layout.specs.Prefixed.{Numbers, unsigned_numbers, varint_numbers, length_numbers};
ghost use Rattle.speedy_layout.specs.Prefixed.{Behind, prefixed_codec};

use crate::layout::Layout;
use crate::varint::VarInt64;
use std::marker::PhantomData;

/// A type of numbers that lengths and tags are encoded as: `u8`, `u16`, `u32`, `u64`, `VarInt64` or [`U7`].
pub trait Prefix {
    /// Which numbers there are, and how each is encoded.
    ghost numbers: { Numbers };
}

impl Prefix for u8 {
    ghost numbers = { unsigned_numbers 1 };
}

impl Prefix for u16 {
    ghost numbers = { unsigned_numbers 2 };
}

impl Prefix for u32 {
    ghost numbers = { unsigned_numbers 4 };
}

impl Prefix for u64 {
    ghost numbers = { unsigned_numbers 8 };
}

impl Prefix for VarInt64 {
    ghost numbers = { varint_numbers };
}

/// The greatest number of seven bits.
pub const U7_MAX: u8 = 127;

/// Numbers of one byte that are at most 127. Greater ones are the error `OutOfRangeLength`.
#[derive(Drop)]
pub struct U7 {}

impl Prefix for U7 {
    ghost numbers = { length_numbers 1 127 };
}

/// What a number before it tells of: texts, lists, maps, sets and other counted types, and cases.
pub trait Told {
    /// What is seen of a value.
    ghost Seen: { Type 0 };

    ghost seen: { Self → Seen };

    /// The layout behind a number of any type.
    ghost behind: { (numbers : Numbers) → Behind numbers Seen };
}

/// A value behind a number of the type `N` that tells of it: a text, a list, a map or a set behind its length, a case
/// behind its tag.
///
/// A text or a collection needs no `Prefixed<u32, _>`: a length that is a `u32` is how it is encoded by itself.
#[derive(Debug, PartialEq, Drop)]
pub struct Prefixed<N, T> {
    /// The value.
    pub value: T,
    /// Names the type of the number, and holds nothing: the number is computed from the value.
    pub number: PhantomData<N>,
}

impl<N, T> Prefixed<N, T> {
    /// The value behind such a number.
    #[inline]
    pub fn new(value: T) -> Prefixed<N, T>
        ensures { result.value ≡ value }
    {
        Prefixed {
            value,
            number: PhantomData,
        }
    }
}

impl<N: Prefix, T: Told> Layout for Prefixed<N, T> {
    ghost Seen = { T.Seen };

    ghost seen = { λ prefixed. T.seen prefixed.value };

    ghost layout = { prefixed_codec (T.behind N.numbers) };
}
