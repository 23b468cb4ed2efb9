//! Numbers in a byte order: read from their bytes, and reversed in place.
#![tactic(auto, using(crate::proofs::Reversals::reversals))]

ghost use Rattle.std.specs.Prelude.{◌≡◌, length, map};
ghost use Rattle.std.specs.Int.{byte_len, from_le_bytes, w16, w32, w64, w128};
ghost use Rattle.speedy_base.specs.declared.endianness.Endianness.TheVariants.{BigEndian};
ghost use Rattle.speedy_base.specs.Digits.{AreBytes, EncodesNumber, little_number, swapped, turned_in, width_of};
ghost use Rattle.speedy_base.specs.Signed.{EncodesSigned, swapped_signed};

use crate::endianness::Endianness;

/// Numbers whose bytes can be reversed.
pub trait Swap: Copy {
    /// The number with its bytes reversed, as contracts see it.
    ghost reversed: { Self → Self };

    /// The number with its bytes reversed.
    fn reversed(self) -> Self
        ensures { result ≡ reversed self };
}

impl Swap for u16 {
    ghost reversed = { swapped BigEndian 2 };

    fn reversed(self) -> u16 {
        self.swap_bytes()
    }
}

impl Swap for u32 {
    ghost reversed = { swapped BigEndian 4 };

    fn reversed(self) -> u32 {
        self.swap_bytes()
    }
}

impl Swap for u64 {
    ghost reversed = { swapped BigEndian 8 };

    fn reversed(self) -> u64 {
        self.swap_bytes()
    }
}

impl Swap for u128 {
    ghost reversed = { swapped BigEndian 16 };

    fn reversed(self) -> u128 {
        self.swap_bytes()
    }
}

impl Swap for i16 {
    ghost reversed = { swapped_signed BigEndian w16 };

    fn reversed(self) -> i16 {
        self.swap_bytes()
    }
}

impl Swap for i32 {
    ghost reversed = { swapped_signed BigEndian w32 };

    fn reversed(self) -> i32 {
        self.swap_bytes()
    }
}

impl Swap for i64 {
    ghost reversed = { swapped_signed BigEndian w64 };

    fn reversed(self) -> i64 {
        self.swap_bytes()
    }
}

impl Swap for i128 {
    ghost reversed = { swapped_signed BigEndian w128 };

    fn reversed(self) -> i128 {
        self.swap_bytes()
    }
}

/// The number with its bytes reversed where the order is big.
#[inline(always)]
pub fn turned<T: Swap>(order: Endianness, number: T) -> T
    ensures { result ≡ turned_in order T.reversed number }
{
    if order.conversion_necessary() {
        number.reversed()
    } else {
        number
    }
}

impl Endianness {
    /// The number that two bytes encode in this order.
    #[inline]
    pub fn read_u16(self, slice: &[u8]) -> u16
        requires { length slice.now ≡ 2 }
        ensures { EncodesNumber 2 self result slice.now }
    {
        turned(self, u16::from_le_bytes(array_of(slice)))
    }

    /// The number that four bytes encode in this order.
    #[inline]
    pub fn read_u32(self, slice: &[u8]) -> u32
        requires { length slice.now ≡ 4 }
        ensures { EncodesNumber 4 self result slice.now }
    {
        turned(self, u32::from_le_bytes(array_of(slice)))
    }

    /// The number that eight bytes encode in this order.
    #[inline]
    pub fn read_u64(self, slice: &[u8]) -> u64
        requires { length slice.now ≡ 8 }
        ensures { EncodesNumber 8 self result slice.now }
    {
        turned(self, u64::from_le_bytes(array_of(slice)))
    }

    /// The number that sixteen bytes encode in this order.
    #[inline]
    pub fn read_u128(self, slice: &[u8]) -> u128
        requires { length slice.now ≡ 16 }
        ensures { EncodesNumber 16 self result slice.now }
    {
        turned(self, u128::from_le_bytes(array_of(slice)))
    }

    /// The signed number that two bytes encode in this order.
    #[inline]
    pub fn read_i16(self, slice: &[u8]) -> i16
        requires { length slice.now ≡ 2 }
        ensures { EncodesSigned w16 self result slice.now }
    {
        self.read_u16(slice).cast_signed()
    }

    /// The signed number that four bytes encode in this order.
    #[inline]
    pub fn read_i32(self, slice: &[u8]) -> i32
        requires { length slice.now ≡ 4 }
        ensures { EncodesSigned w32 self result slice.now }
    {
        self.read_u32(slice).cast_signed()
    }

    /// The signed number that eight bytes encode in this order.
    #[inline]
    pub fn read_i64(self, slice: &[u8]) -> i64
        requires { length slice.now ≡ 8 }
        ensures { EncodesSigned w64 self result slice.now }
    {
        self.read_u64(slice).cast_signed()
    }

    /// The signed number that sixteen bytes encode in this order.
    #[inline]
    pub fn read_i128(self, slice: &[u8]) -> i128
        requires { length slice.now ≡ 16 }
        ensures { EncodesSigned w128 self result slice.now }
    {
        self.read_u128(slice).cast_signed()
    }

    /// Reverses the bytes of a number where the order is big, and leaves it as it is where it is little.
    ///
    /// It takes a number of any width, as [`swap_slice`](Self::swap_slice) does; the others have the original's names.
    #[inline]
    pub fn swap<T: Swap>(self, value: &mut T)
        ensures { value.new ≡ turned_in self T.reversed value.old }
    {
        *value = turned(self, *value);
    }

    /// Reverses the bytes of each number where the order is big, and leaves them as they are where it is little.
    #[inline]
    pub fn swap_slice<T: Swap>(self, slice: &mut [T])
        ensures { slice.new ≡ map (turned_in self T.reversed) slice.old }
    {
        if self.conversion_necessary() {
            for value in slice.iter_mut() {
                *value = value.reversed();
            }
        }
    }

    /// Reverses the bytes of a number where the order is big, and leaves it as it is where it is little.
    #[inline]
    pub fn swap_u16(self, value: &mut u16)
        ensures { value.new ≡ swapped self 2 value.old }
    {
        self.swap(value);
    }

    /// Reverses the bytes of a number where the order is big, and leaves it as it is where it is little.
    #[inline]
    pub fn swap_u32(self, value: &mut u32)
        ensures { value.new ≡ swapped self 4 value.old }
    {
        self.swap(value);
    }

    /// Reverses the bytes of a number where the order is big, and leaves it as it is where it is little.
    #[inline]
    pub fn swap_u64(self, value: &mut u64)
        ensures { value.new ≡ swapped self 8 value.old }
    {
        self.swap(value);
    }

    /// Reverses the bytes of a number where the order is big, and leaves it as it is where it is little.
    #[inline]
    pub fn swap_u128(self, value: &mut u128)
        ensures { value.new ≡ swapped self 16 value.old }
    {
        self.swap(value);
    }

    /// Reverses the bytes of a number where the order is big, and leaves it as it is where it is little.
    #[inline]
    pub fn swap_i16(self, value: &mut i16)
        ensures { value.new ≡ swapped_signed self w16 value.old }
    {
        self.swap(value);
    }

    /// Reverses the bytes of a number where the order is big, and leaves it as it is where it is little.
    #[inline]
    pub fn swap_i32(self, value: &mut i32)
        ensures { value.new ≡ swapped_signed self w32 value.old }
    {
        self.swap(value);
    }

    /// Reverses the bytes of a number where the order is big, and leaves it as it is where it is little.
    #[inline]
    pub fn swap_i64(self, value: &mut i64)
        ensures { value.new ≡ swapped_signed self w64 value.old }
    {
        self.swap(value);
    }

    /// Reverses the bytes of a number where the order is big, and leaves it as it is where it is little.
    #[inline]
    pub fn swap_i128(self, value: &mut i128)
        ensures { value.new ≡ swapped_signed self w128 value.old }
    {
        self.swap(value);
    }

    /// Does nothing: a number of one byte lies the same in both orders.
    #[inline]
    pub fn swap_slice_u8(self, _slice: &mut [u8])
        ensures { _slice.new ≡ _slice.old }
    {}

    /// Does nothing: a number of one byte lies the same in both orders.
    #[inline]
    pub fn swap_slice_i8(self, _slice: &mut [i8])
        ensures { _slice.new ≡ _slice.old }
    {}

    /// Reverses the bytes of each number where the order is big, and leaves them as they are where it is little.
    #[inline]
    pub fn swap_slice_u16(self, slice: &mut [u16])
        ensures { slice.new ≡ map (swapped self 2) slice.old }
    {
        self.swap_slice(slice);
    }

    /// Reverses the bytes of each number where the order is big, and leaves them as they are where it is little.
    #[inline]
    pub fn swap_slice_u32(self, slice: &mut [u32])
        ensures { slice.new ≡ map (swapped self 4) slice.old }
    {
        self.swap_slice(slice);
    }

    /// Reverses the bytes of each number where the order is big, and leaves them as they are where it is little.
    #[inline]
    pub fn swap_slice_u64(self, slice: &mut [u64])
        ensures { slice.new ≡ map (swapped self 8) slice.old }
    {
        self.swap_slice(slice);
    }

    /// Reverses the bytes of each number where the order is big, and leaves them as they are where it is little.
    #[inline]
    pub fn swap_slice_u128(self, slice: &mut [u128])
        ensures { slice.new ≡ map (swapped self 16) slice.old }
    {
        self.swap_slice(slice);
    }

    /// Reverses the bytes of each number where the order is big, and leaves them as they are where it is little.
    #[inline]
    pub fn swap_slice_i16(self, slice: &mut [i16])
        ensures { slice.new ≡ map (swapped_signed self w16) slice.old }
    {
        self.swap_slice(slice);
    }

    /// Reverses the bytes of each number where the order is big, and leaves them as they are where it is little.
    #[inline]
    pub fn swap_slice_i32(self, slice: &mut [i32])
        ensures { slice.new ≡ map (swapped_signed self w32) slice.old }
    {
        self.swap_slice(slice);
    }

    /// Reverses the bytes of each number where the order is big, and leaves them as they are where it is little.
    #[inline]
    pub fn swap_slice_i64(self, slice: &mut [i64])
        ensures { slice.new ≡ map (swapped_signed self w64) slice.old }
    {
        self.swap_slice(slice);
    }

    /// Reverses the bytes of each number where the order is big, and leaves them as they are where it is little.
    #[inline]
    pub fn swap_slice_i128(self, slice: &mut [i128])
        ensures { slice.new ≡ map (swapped_signed self w128) slice.old }
    {
        self.swap_slice(slice);
    }
}

// A slice of `N` bytes, as an array.
#[inline(always)]
fn array_of<const N: usize>(slice: &[u8]) -> [u8; N]
    requires { length slice.now ≡ N }
    ensures same { result ≡ slice.now }
    ensures bytes { AreBytes slice.now }
    ensures value { byte_len (width_of N) ≡ N → from_le_bytes (width_of N) result ≡ little_number slice.now }
{
    let mut bytes = [0; N];
    bytes.copy_from_slice(slice);
    bytes
}
