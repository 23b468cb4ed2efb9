//! Numbers: their layout and how they are decoded and encoded, that views show them and that they are keys.
//!
//! Their layout is their digits in the order of the encoding. What is said of a width is said here.
#![tactic(auto, using(speedy_base::specs::DigitsLemmas::written))]

ghost use Rattle.std.specs.Prelude.{◌≡◌, ◌+◌, ◌*◌, ◌^◌, length, refl};
ghost use Rattle.std.specs.Cmp.{unsigned_Decides, signed_Decides};
ghost use Rattle.std.specs.Int.{w8, w16, w32, w64, w128, cast_signed};
ghost use Rattle.speedy_base.specs.Digits.{number, little_digits};
ghost use Rattle.speedy_layout.specs.Codecs.{signed_codec, unsigned_codec, usize_codec};
ghost use Rattle.speedy_layout.specs.FixedNumbers.{unsigned_fixed, signed_fixed};
ghost use Rattle.speedy_layout.specs.Views.{byte_number_alike, signed_byte_alike};

use crate::codes::ToCode;
use crate::fixed_numbers::FixedNumber;
use crate::layout::Layout;
use crate::same_key::SameKey;
use crate::view_items::ZeroCopyable;
use speedy_base::context::{Context, LittleEndian};
use speedy_base::endianness::Endianness;
use speedy_base::numbers::turned;
use std::simd::Simd;

impl Layout for u8 {
    ghost seen = { λ x. x };

    ghost layout = { unsigned_codec 1 };
}

impl FixedNumber for u8 {
    type Digits = [u8; 1];

    ghost decoded = { number };

    #[inline(always)]
    fn decode(_order: Endianness, bytes: &[u8]) -> u8 {
        bytes[0]
    }

    #[inline(always)]
    fn encode(self, _order: Endianness, output: &mut [u8]) {
        output[0] = self;
    }

    ghost fixed = { unsigned_fixed 1 refl };
}

impl<C: Context> ZeroCopyable<C> for u8 {
    ghost as_little = { λ context. byte_number_alike (C.mode context) };
}

impl SameKey for u8 {
    ghost same_key = { unsigned_Decides };
}

impl Layout for u16 {
    ghost seen = { λ x. x };

    ghost layout = { unsigned_codec 2 };
}

impl FixedNumber for u16 {
    type Digits = [u8; 2];

    ghost decoded = { number };

    #[inline(always)]
    fn decode(order: Endianness, bytes: &[u8]) -> u16 {
        order.read_u16(bytes)
    }

    #[inline(always)]
    fn encode(self, order: Endianness, output: &mut [u8]) {
        output.copy_from_slice(&turned(order, self).to_le_bytes());
    }

    ghost fixed = { unsigned_fixed 2 refl };
}

impl ZeroCopyable<LittleEndian> for u16 {
    ghost as_little = { λ context v bytes encoded. encoded };
}

impl SameKey for u16 {
    ghost same_key = { unsigned_Decides };
}

impl Layout for u32 {
    ghost seen = { λ x. x };

    ghost layout = { unsigned_codec 4 };
}

impl FixedNumber for u32 {
    type Digits = [u8; 4];

    ghost decoded = { number };

    #[inline(always)]
    fn decode(order: Endianness, bytes: &[u8]) -> u32 {
        order.read_u32(bytes)
    }

    #[inline(always)]
    fn encode(self, order: Endianness, output: &mut [u8]) {
        output.copy_from_slice(&turned(order, self).to_le_bytes());
    }

    ghost fixed = { unsigned_fixed 4 refl };
}

impl ZeroCopyable<LittleEndian> for u32 {
    ghost as_little = { λ context v bytes encoded. encoded };
}

impl SameKey for u32 {
    ghost same_key = { unsigned_Decides };
}

impl Layout for u64 {
    ghost seen = { λ x. x };

    ghost layout = { unsigned_codec 8 };
}

impl FixedNumber for u64 {
    type Digits = [u8; 8];

    ghost decoded = { number };

    #[inline(always)]
    fn decode(order: Endianness, bytes: &[u8]) -> u64 {
        order.read_u64(bytes)
    }

    #[inline(always)]
    fn encode(self, order: Endianness, output: &mut [u8]) {
        output.copy_from_slice(&turned(order, self).to_le_bytes());
    }

    ghost fixed = { unsigned_fixed 8 refl };
}

impl ZeroCopyable<LittleEndian> for u64 {
    ghost as_little = { λ context v bytes encoded. encoded };
}

impl SameKey for u64 {
    ghost same_key = { unsigned_Decides };
}

// Puts the bytes of two numbers, least digit first. As lanes of one vector they are stored together, so a compiler sees
// that a list of such pairs is a copy of memory.
#[inline(always)]
fn put_two(first: u64, second: u64, output: &mut [u8])
    requires { length output.old ≡ 16 }
    ensures { output.new ≡ little_digits 16 (first + 2 ^ 64 * second) }
{
    Simd::from_array([first, second])
        .to_le_bytes()
        .copy_to_slice(output);
}

impl Layout for u128 {
    ghost seen = { λ x. x };

    ghost layout = { unsigned_codec 16 };
}

impl FixedNumber for u128 {
    type Digits = [u8; 16];

    ghost decoded = { number };

    #[inline(always)]
    fn decode(order: Endianness, bytes: &[u8]) -> u128 {
        order.read_u128(bytes)
    }

    #[inline(always)]
    fn encode(self, order: Endianness, output: &mut [u8]) {
        // Two numbers of 64 bits are turned much faster than one of 128.
        let low = (self % (1 << 64)) as u64;
        let high = (self >> 64) as u64;
        match order {
            Endianness::LittleEndian => put_two(low, high, output),
            Endianness::BigEndian => {
                let (first, second) = output.split_at_mut(8);
                high.encode(order, first);
                low.encode(order, second);
            }
        }
    }

    ghost fixed = { unsigned_fixed 16 refl };
}

impl ZeroCopyable<LittleEndian> for u128 {
    ghost as_little = { λ context v bytes encoded. encoded };
}

impl SameKey for u128 {
    ghost same_key = { unsigned_Decides };
}

impl Layout for i8 {
    ghost seen = { λ x. x };

    ghost layout = { signed_codec w8 };
}

impl FixedNumber for i8 {
    type Digits = [u8; 1];

    ghost decoded = { λ order bytes. cast_signed w8 (number order bytes) };

    #[inline(always)]
    fn decode(order: Endianness, bytes: &[u8]) -> i8 {
        u8::decode(order, bytes).cast_signed()
    }

    #[inline(always)]
    fn encode(self, order: Endianness, output: &mut [u8]) {
        u8::encode(self.cast_unsigned(), order, output);
    }

    ghost fixed = { signed_fixed w8 };
}

impl<C: Context> ZeroCopyable<C> for i8 {
    ghost as_little = { λ context. signed_byte_alike (C.mode context) };
}

impl SameKey for i8 {
    ghost same_key = { signed_Decides };
}

impl Layout for i16 {
    ghost seen = { λ x. x };

    ghost layout = { signed_codec w16 };
}

impl FixedNumber for i16 {
    type Digits = [u8; 2];

    ghost decoded = { λ order bytes. cast_signed w16 (number order bytes) };

    #[inline(always)]
    fn decode(order: Endianness, bytes: &[u8]) -> i16 {
        order.read_i16(bytes)
    }

    #[inline(always)]
    fn encode(self, order: Endianness, output: &mut [u8]) {
        u16::encode(self.cast_unsigned(), order, output);
    }

    ghost fixed = { signed_fixed w16 };
}

impl ZeroCopyable<LittleEndian> for i16 {
    ghost as_little = { λ context v bytes encoded. encoded };
}

impl SameKey for i16 {
    ghost same_key = { signed_Decides };
}

impl Layout for i32 {
    ghost seen = { λ x. x };

    ghost layout = { signed_codec w32 };
}

impl FixedNumber for i32 {
    type Digits = [u8; 4];

    ghost decoded = { λ order bytes. cast_signed w32 (number order bytes) };

    #[inline(always)]
    fn decode(order: Endianness, bytes: &[u8]) -> i32 {
        order.read_i32(bytes)
    }

    #[inline(always)]
    fn encode(self, order: Endianness, output: &mut [u8]) {
        u32::encode(self.cast_unsigned(), order, output);
    }

    ghost fixed = { signed_fixed w32 };
}

impl ZeroCopyable<LittleEndian> for i32 {
    ghost as_little = { λ context v bytes encoded. encoded };
}

impl SameKey for i32 {
    ghost same_key = { signed_Decides };
}

impl Layout for i64 {
    ghost seen = { λ x. x };

    ghost layout = { signed_codec w64 };
}

impl FixedNumber for i64 {
    type Digits = [u8; 8];

    ghost decoded = { λ order bytes. cast_signed w64 (number order bytes) };

    #[inline(always)]
    fn decode(order: Endianness, bytes: &[u8]) -> i64 {
        order.read_i64(bytes)
    }

    #[inline(always)]
    fn encode(self, order: Endianness, output: &mut [u8]) {
        u64::encode(self.cast_unsigned(), order, output);
    }

    ghost fixed = { signed_fixed w64 };
}

impl ZeroCopyable<LittleEndian> for i64 {
    ghost as_little = { λ context v bytes encoded. encoded };
}

impl SameKey for i64 {
    ghost same_key = { signed_Decides };
}

impl Layout for i128 {
    ghost seen = { λ x. x };

    ghost layout = { signed_codec w128 };
}

impl FixedNumber for i128 {
    type Digits = [u8; 16];

    ghost decoded = { λ order bytes. cast_signed w128 (number order bytes) };

    #[inline(always)]
    fn decode(order: Endianness, bytes: &[u8]) -> i128 {
        order.read_i128(bytes)
    }

    #[inline(always)]
    fn encode(self, order: Endianness, output: &mut [u8]) {
        u128::encode(self.cast_unsigned(), order, output);
    }

    ghost fixed = { signed_fixed w128 };
}

impl ZeroCopyable<LittleEndian> for i128 {
    ghost as_little = { λ context v bytes encoded. encoded };
}

impl SameKey for i128 {
    ghost same_key = { signed_Decides };
}

impl Layout for usize {
    ghost seen = { λ x. x };

    ghost layout = { usize_codec };
}

#[tactic(auto, using(crate::specs::Encoding::encoded))]
impl ToCode for usize {
    type Code = u64;

    #[inline(always)]
    fn encode(&self) -> u64 {
        *self as u64
    }
}

impl SameKey for usize {
    ghost same_key = { unsigned_Decides };
}
