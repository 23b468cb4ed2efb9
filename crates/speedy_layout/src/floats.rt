//! Floats, held as their bits: what was read is written again bit for bit, NaNs too.
ghost use Rattle.std.specs.Prelude.{◌≡◌, ℕ, false, is_nan, to_bits, SomeIff, refl};
ghost use Rattle.std.specs.Cmp.{unsigned_Decides};
ghost use Rattle.std.specs.Float.{binary32, binary64};
ghost use Rattle.speedy_base.specs.Digits.{number};
ghost use Rattle.speedy_layout.specs.Codecs.{unsigned_codec};
ghost use Rattle.speedy_layout.specs.FixedNumbers.{unsigned_fixed};
ghost use Rattle.speedy_layout.specs.Floats.{f32_bits, f32_value, f64_bits, f64_value};

use crate::fixed_numbers::FixedNumber;
use crate::layout::Layout;
use crate::same_key::SameKey;
use crate::view_items::ZeroCopyable;
use speedy_base::context::LittleEndian;
use speedy_base::endianness::Endianness;
use std::fmt;
use std::fmt::{Debug, Formatter, Write};
use std::num::{
    f32_from_bits_with_nan, f32_to_bits_with_nan, f64_from_bits_with_nan, f64_to_bits_with_nan,
};

/// An `f32`, held as its 32 bits.
///
/// Two are equal where their bits are: 0.0 is not -0.0, and a NaN is itself.
#[derive(Clone, Copy, PartialEq, Eq, Hash, Default)]
pub struct F32(u32);

impl F32 {
    /// The float of these bits, which may be those of a NaN.
    #[inline]
    pub fn from_bits(bits: u32) -> F32
        ensures { f32_bits result ≡ bits }
    {
        F32(bits)
    }

    /// The bits.
    #[inline]
    pub fn bits(self) -> u32
        ensures { result ≡ f32_bits self }
    {
        self.0
    }

    /// The float, or `None` where it is a NaN: [`F32::bits`] tells which one.
    #[inline]
    pub fn get(self) -> Option<f32>
        ensures { SomeIff result (is_nan (f32_value self) ≡ false) (f32_value self) }
    {
        let value = f32_from_bits_with_nan(self.0);
        if value.is_nan() { None } else { Some(value) }
    }
}

/// A NaN becomes the one with the bits `7fc00000`, since its own cannot be asked for.
impl From<f32> for F32 {
    ghost from_gives = { λ value it.
        (f32_bits it ≡ to_bits binary32 value) × (f32_value it ≡ value) };

    #[inline]
    fn from(value: f32) -> F32 {
        F32(f32_to_bits_with_nan(value))
    }
}

/// Prints the float, and a NaN with its bits in hexadecimal digits.
impl Debug for F32 {
    fn fmt<W: Write>(&self, f: &mut Formatter<W>) -> fmt::Result {
        match self.get() {
            Some(value) => value.fmt(f),
            None => write!(f, "NaN({:x})", self.0),
        }
    }
}

impl Layout for F32 {
    ghost Seen = { ℕ };

    ghost seen = { f32_bits };

    ghost layout = { unsigned_codec 4 };
}

impl FixedNumber for F32 {
    type Digits = [u8; 4];

    ghost decoded = { λ order bytes. record { 0 = number order bytes } };

    #[inline(always)]
    fn decode(order: Endianness, bytes: &[u8]) -> F32 {
        F32(order.read_u32(bytes))
    }

    #[inline(always)]
    fn encode(self, order: Endianness, output: &mut [u8]) {
        u32::encode(self.0, order, output);
    }

    ghost fixed = { unsigned_fixed 4 refl };
}

impl ZeroCopyable<LittleEndian> for F32 {
    ghost as_little = { λ context v bytes encoded. encoded };
}

impl SameKey for F32 {
    ghost same_key = { λ x y. unsigned_Decides x.0 y.0 };
}

/// An `f64`, held as its 64 bits.
///
/// Two are equal where their bits are: 0.0 is not -0.0, and a NaN is itself.
#[derive(Clone, Copy, PartialEq, Eq, Hash, Default)]
pub struct F64(u64);

impl F64 {
    /// The float of these bits, which may be those of a NaN.
    #[inline]
    pub fn from_bits(bits: u64) -> F64
        ensures { f64_bits result ≡ bits }
    {
        F64(bits)
    }

    /// The bits.
    #[inline]
    pub fn bits(self) -> u64
        ensures { result ≡ f64_bits self }
    {
        self.0
    }

    /// The float, or `None` where it is a NaN: [`F64::bits`] tells which one.
    #[inline]
    pub fn get(self) -> Option<f64>
        ensures { SomeIff result (is_nan (f64_value self) ≡ false) (f64_value self) }
    {
        let value = f64_from_bits_with_nan(self.0);
        if value.is_nan() { None } else { Some(value) }
    }
}

/// A NaN becomes the one with the bits `7ff8000000000000`, since its own cannot be asked for.
impl From<f64> for F64 {
    ghost from_gives = { λ value it.
        (f64_bits it ≡ to_bits binary64 value) × (f64_value it ≡ value) };

    #[inline]
    fn from(value: f64) -> F64 {
        F64(f64_to_bits_with_nan(value))
    }
}

/// Prints the float, and a NaN with its bits in hexadecimal digits.
impl Debug for F64 {
    fn fmt<W: Write>(&self, f: &mut Formatter<W>) -> fmt::Result {
        match self.get() {
            Some(value) => value.fmt(f),
            None => write!(f, "NaN({:x})", self.0),
        }
    }
}

impl Layout for F64 {
    ghost Seen = { ℕ };

    ghost seen = { f64_bits };

    ghost layout = { unsigned_codec 8 };
}

impl FixedNumber for F64 {
    type Digits = [u8; 8];

    ghost decoded = { λ order bytes. record { 0 = number order bytes } };

    #[inline(always)]
    fn decode(order: Endianness, bytes: &[u8]) -> F64 {
        F64(order.read_u64(bytes))
    }

    #[inline(always)]
    fn encode(self, order: Endianness, output: &mut [u8]) {
        u64::encode(self.0, order, output);
    }

    ghost fixed = { unsigned_fixed 8 refl };
}

impl ZeroCopyable<LittleEndian> for F64 {
    ghost as_little = { λ context v bytes encoded. encoded };
}

impl SameKey for F64 {
    ghost same_key = { λ x y. unsigned_Decides x.0 y.0 };
}
