//! Integers of a variable length: one to nine bytes, the fewer the smaller the number.
ghost use Rattle.std.specs.Prelude.{◌≡◌, ◌≤◌, ◌↔◌, ℕ, IsTrue, take, length};
ghost use Rattle.speedy_base.specs.Mode.{Mode};
ghost use Rattle.speedy_layout.specs.Varint.{varint, IsFewest, StartsVarint, VarintParts};
ghost use Rattle.speedy_layout.specs.Zigzag.{varint_number, zigzag};
ghost use Rattle.speedy_layout.specs.Codecs.{varint_codec};

use crate::layout::Layout;

/// A number below `2 ^ 64` that is written in one to nine bytes.
#[derive(Clone, Copy, PartialEq, Eq, PartialOrd, Ord, Hash, Debug)]
pub struct VarInt64(u64);

impl VarInt64 {
    /// The number. `u64::from` answers it too, in crates that name `speedy_layout` among theirs.
    #[inline]
    pub fn get(self) -> u64
        ensures { result ≡ varint_number self }
    {
        self.0
    }

    /// The canonical encoding: the first bytes of the array, and how many they are.
    #[inline]
    pub fn encode(self) -> ([u8; 9], usize)
        ensures one_at_least { 1 ≤ result.1 }
        ensures nine_at_most { result.1 ≤ 9 }
        ensures written { (e : Mode) →
            (varint e).writes (varint_number self) (take result.1 result.0) }
    {
        let digits = self.0.to_le_bytes();
        let more = more_bytes(self.0);
        let low = if more < 8 { self.0 >> (8 * more) } else { 0 };
        let first = (256 - (256_u64 >> more) + low) as u8;
        (
            [
                first, digits[0], digits[1], digits[2], digits[3], digits[4], digits[5], digits[6],
                digits[7],
            ],
            more + 1,
        )
    }

    /// Whether the canonical encoding has this many bytes after the first one.
    #[inline]
    pub fn is_written_with(self, more: usize) -> bool
        ensures { IsTrue result ↔ IsFewest more (varint_number self) }
    {
        more_bytes(self.0) == more
    }

    /// The number of bytes that follow the first one.
    #[inline]
    pub fn length_of(first: u8) -> usize
        ensures { StartsVarint result first }
    {
        first.leading_ones() as usize
    }

    /// Decodes the first byte and those that follow it.
    #[inline]
    pub fn decode(first: u8, rest: &[u8]) -> VarInt64
        requires { StartsVarint (length rest.now) first }
        ensures { VarintParts first rest.now (varint_number result) }
    {
        let more = rest.len();
        let mut digits = [0; 8];
        digits[..more].copy_from_slice(rest);
        let low = (first as u64) - (256 - (256_u64 >> more));
        let high = if more < 8 { low << (8 * more) } else { 0 };
        VarInt64(high + u64::from_le_bytes(digits))
    }
}

/// The number of bytes that have to follow the first one.
fn more_bytes(number: u64) -> usize
    ensures { IsFewest result number }
{
    // The place of the highest bit; of 0 that of 1.
    let top = 63 - (number | 1).leading_zeros();
    // A seventh of it, or 8 of 63, with no division and no branch.
    ((9 * top + 8) / 64) as usize
}

impl Layout for VarInt64 {
    ghost Seen = { ℕ };

    ghost seen = { varint_number };

    ghost layout = { varint_codec };
}

impl From<u8> for VarInt64 {
    ghost from_gives = { λ number v. varint_number v ≡ number };

    #[inline]
    fn from(number: u8) -> VarInt64 {
        VarInt64(number as u64)
    }
}

impl From<u16> for VarInt64 {
    ghost from_gives = { λ number v. varint_number v ≡ number };

    #[inline]
    fn from(number: u16) -> VarInt64 {
        VarInt64(number as u64)
    }
}

impl From<u32> for VarInt64 {
    ghost from_gives = { λ number v. varint_number v ≡ number };

    #[inline]
    fn from(number: u32) -> VarInt64 {
        VarInt64(number as u64)
    }
}

impl From<u64> for VarInt64 {
    ghost from_gives = { λ number v. varint_number v ≡ number };

    #[inline]
    fn from(number: u64) -> VarInt64 {
        VarInt64(number)
    }
}

impl From<i8> for VarInt64 {
    ghost from_gives = { λ number v. varint_number v ≡ zigzag number };

    #[inline]
    fn from(number: i8) -> VarInt64 {
        VarInt64::from(number as i64)
    }
}

impl From<i16> for VarInt64 {
    ghost from_gives = { λ number v. varint_number v ≡ zigzag number };

    #[inline]
    fn from(number: i16) -> VarInt64 {
        VarInt64::from(number as i64)
    }
}

impl From<i32> for VarInt64 {
    ghost from_gives = { λ number v. varint_number v ≡ zigzag number };

    #[inline]
    fn from(number: i32) -> VarInt64 {
        VarInt64::from(number as i64)
    }
}

impl From<i64> for VarInt64 {
    ghost from_gives = { λ number v. varint_number v ≡ zigzag number };

    #[inline]
    fn from(number: i64) -> VarInt64 {
        if number < 0 {
            VarInt64(2 * (-(number + 1)) as u64 + 1)
        } else {
            VarInt64(2 * number as u64)
        }
    }
}

impl From<VarInt64> for u64 {
    ghost from_gives = { λ v number. number ≡ varint_number v };

    #[inline]
    fn from(v: VarInt64) -> u64 {
        v.0
    }
}

impl From<VarInt64> for i64 {
    ghost from_gives = { λ v number. zigzag number ≡ varint_number v };

    #[inline]
    fn from(v: VarInt64) -> i64 {
        let half = (v.0 / 2) as i64;
        if v.0 % 2 == 0 { half } else { -half - 1 }
    }
}
