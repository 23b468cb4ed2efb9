//! Numbers of a fixed size: how one is decoded and encoded, and how many are.
ghost use Rattle.std.specs.Prelude.{◌≡◌, ◌+◌, ◌*◌, ◌≤◌, ◌++◌, ℕ, List, length, map, vec_len, vec_capacity};
ghost use Rattle.speedy_base.specs.declared.endianness.Endianness.{Endianness as Order};
ghost use Rattle.speedy_base.specs.Digits.{AreBytes};
ghost use Rattle.speedy_layout.specs.FixedNumbers.{encoded_in, AreFixed};
ghost use Rattle.speedy_layout.specs.Format.{Each};

use crate::layout::Layout;
use crate::view_items::FixedSize;
use speedy_base::endianness::Endianness;

/// The number of bytes of the widest number.
pub const MOST_DIGITS: usize = 16;

/// Arrays of bytes, with their length. `FixedSize` cannot say it: a proof in a caller finds only one impl of that, the
/// one of numbers.
pub trait ByteArray {
    /// The number of its bytes.
    const LENGTH: usize;

    ghost LENGTH: { ℕ };
}

impl<const N: usize> ByteArray for [u8; N] {
    const LENGTH: usize = N;

    ghost LENGTH = { N };
}

/// A number of a fixed size, whose bytes are its digits.
pub trait FixedNumber: Layout + Copy + Default + Drop {
    /// An array of as many bytes as the number has.
    type Digits: ByteArray;

    /// The number that `Digits::LENGTH` bytes encode in an order.
    ghost decoded: { Order → List ℕ → Self };

    /// Decodes the number from `Digits::LENGTH` bytes in the order.
    fn decode(order: Endianness, bytes: &[u8]) -> Self
        requires { length bytes.now ≡ Self.Digits.LENGTH }
        ensures { result ≡ decoded order bytes.now };

    /// Encodes the number in the order, which fills the output.
    fn encode(self, order: Endianness, output: &mut [u8])
        requires { length output.old ≡ Self.Digits.LENGTH }
        ensures bytes { AreBytes output.new }
        ensures number { decoded order output.new ≡ self };

    /// The least size is `Digits::LENGTH`, which each encoding has. The order alone decides its bytes, and any bytes
    /// encode the number that is decoded from them.
    ghost fixed: { AreFixed Self.Digits.LENGTH Self.layout (λ order bytes. Self.seen (decoded order bytes)) };
}

/// The number that the bytes encode, of which there are `Digits::LENGTH`.
#[inline(always)]
pub fn number_of<T: FixedNumber>(order: Endianness, bytes: &[u8]) -> T
    requires { length bytes.now ≡ T.Digits.LENGTH }
    ensures { encoded_in T.layout.format order (T.seen result) bytes.now }
{
    T::decode(order, bytes)
}

/// Appends the numbers that the bytes encode one after another, for which the vector has room. The bytes are those of
/// whole numbers.
///
/// The vector goes in and out by value, so that the loop keeps its place and length in registers.
#[inline]
pub fn append_each<T: FixedNumber>(numbers: Vec<T>, order: Endianness, bytes: &[u8]) -> Vec<T>
    requires { (count : ℕ) × (length bytes.now ≡ count * T.Digits.LENGTH)
        × (vec_len numbers + count ≤ vec_capacity numbers) }
    ensures { (more : List T) × (result.items ≡ numbers.items ++ more)
        × Each (encoded_in T.layout.format order) (map T.seen more) bytes.now }
{
    let mut numbers = numbers;
    for digits in bytes.chunks_exact(T::SIZE) {
        numbers.push_reserved(T::decode(order, digits));
    }
    numbers
}

/// Fills the places with the numbers that the bytes encode one after another. The bytes are those of as many numbers.
#[inline]
pub fn take_each<T: FixedNumber>(places: &mut [T], order: Endianness, bytes: &[u8])
    requires { length bytes.now ≡ length places.old * T.Digits.LENGTH }
    ensures { Each (encoded_in T.layout.format order) (map T.seen places.new) bytes.now }
{
    let mut at = 0;
    for place in places.iter_mut() {
        let end = at + T::SIZE;
        *place = T::decode(order, &bytes[at..end]);
        at = end;
    }
}
