//! Numbers of three bytes: their layout, and that they are numbers as those of std.
ghost use Rattle.std.specs.Prelude.{◌≡◌, ◌<◌, ◌^◌, ℕ, [], ◌∷◌, SomeIff, refl};
ghost use Rattle.std.specs.Cmp.{unsigned_Decides};
ghost use Rattle.speedy_base.specs.Digits.{little_number, number};
ghost use Rattle.speedy_layout.specs.Codecs.{unsigned_codec};
ghost use Rattle.speedy_layout.specs.FixedNumbers.{unsigned_fixed};

use crate::fixed_numbers::FixedNumber;
use crate::layout::Layout;
use crate::same_key::SameKey;
use crate::view_items::ZeroCopyable;
use speedy_base::context::LittleEndian;
use speedy_base::endianness::Endianness;
use std::fmt;
use std::fmt::{Debug, Formatter, Write};
use std::marker::Model;

/// A number below 2^24, of three bytes. Contracts see it as that number.
#[derive(Clone, Copy, PartialEq, Eq, PartialOrd, Ord, Hash, Default)]
pub struct U24(u32);

impl Model for U24 {
    ghost Value = { ℕ };

    ghost view = { λ it. it.0 };

    ghost invariant = { λ it. it.0 < 2 ^ 24 };

    ghost inverse = { λ n. record { 0 = n } };
}

impl U24 {
    /// The greatest: 16,777,215.
    pub const MAX: U24 = U24(0xff_ffff);

    /// The number, or `None` where it is 2^24 or more.
    #[inline]
    pub fn new(number: u32) -> Option<U24>
        ensures { SomeIff result (number < 2 ^ 24) number }
    {
        if number < 1 << 24 {
            Some(U24(number))
        } else {
            None
        }
    }

    /// The number, which is below 2^24.
    #[inline]
    pub fn get(self) -> u32
        ensures number { result ≡ self }
        ensures below { result < 2 ^ 24 }
    {
        self.0
    }
}

impl From<u8> for U24 {
    ghost from_gives = { λ number it. it ≡ number };

    #[inline]
    fn from(number: u8) -> U24 {
        U24(u32::from(number))
    }
}

impl From<u16> for U24 {
    ghost from_gives = { λ number it. it ≡ number };

    #[inline]
    fn from(number: u16) -> U24 {
        U24(u32::from(number))
    }
}

impl From<U24> for u32 {
    ghost from_gives = { λ it number. number ≡ it };

    #[inline]
    fn from(it: U24) -> u32 {
        it.get()
    }
}

/// Prints the number.
impl Debug for U24 {
    fn fmt<W: Write>(&self, f: &mut Formatter<W>) -> fmt::Result {
        self.0.fmt(f)
    }
}

impl Layout for U24 {
    ghost seen = { λ x. x };

    ghost layout = { unsigned_codec 3 };
}

#[tactic(auto, using(crate::proofs::ThreeBytes::three_bytes))]
impl FixedNumber for U24 {
    type Digits = [u8; 3];

    ghost decoded = { number };

    #[inline(always)]
    fn decode(order: Endianness, bytes: &[u8]) -> U24 {
        match order {
            Endianness::LittleEndian => joined(bytes[0], bytes[1], bytes[2]),
            Endianness::BigEndian => joined(bytes[2], bytes[1], bytes[0]),
        }
    }

    #[inline(always)]
    fn encode(self, order: Endianness, output: &mut [u8]) {
        let low = (self.0 % 256) as u8;
        let middle = (self.0 / 256 % 256) as u8;
        let high = (self.0 / 65_536) as u8;
        match order {
            Endianness::LittleEndian => output.copy_from_slice(&[low, middle, high]),
            Endianness::BigEndian => output.copy_from_slice(&[high, middle, low]),
        }
    }

    ghost fixed = { unsigned_fixed 3 refl };
}

impl ZeroCopyable<LittleEndian> for U24 {
    ghost as_little = { λ context v bytes encoded. encoded };
}

impl SameKey for U24 {
    ghost same_key = { unsigned_Decides };
}

// The number of these digits.
#[inline(always)]
fn joined(low: u8, middle: u8, high: u8) -> U24
    ensures { result ≡ little_number (low ∷ middle ∷ high ∷ []) }
{
    U24(u32::from(low) + 256 * (u32::from(middle) + 256 * u32::from(high)))
}
