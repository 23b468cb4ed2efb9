//! Which items a view may show (`ZeroCopyable`), and how each is decoded.
ghost use Rattle.std.specs.Prelude.{◌≡◌, ◌<◌, ◌^◌, ℕ, List, length};
ghost use Rattle.speedy_base.specs.Digits.{AreBytes};
ghost use Rattle.speedy_base.specs.Mode.{Mode, plain_mode};
ghost use Rattle.speedy_base.specs.declared.endianness.Endianness.TheVariants.{LittleEndian as LittleOrder};
ghost use Rattle.speedy_layout.specs.FixedNumbers.{few_bytes, size_of_fixed};

use crate::fixed_numbers::{ByteArray, FixedNumber};
use crate::layout::Layout;
use speedy_base::context::{Context, LittleEndian};
use speedy_base::endianness::Endianness;

/// Types whose values all have the same number of bytes.
pub trait FixedSize {
    /// The number of bytes of a value.
    const SIZE: usize;

    ghost SIZE: { ℕ };
}

/// Items that a view may show: all of one size, and any bytes of that size encode one.
pub trait ViewItem: FixedSize + Layout + Copy + Drop {
    /// The item that `SIZE` bytes encode in little endian.
    ghost decoded: { List ℕ → Self };

    /// The item that `SIZE` bytes encode in little endian.
    fn decode(bytes: &[u8]) -> Self
        requires { length bytes.now ≡ Self.SIZE }
        ensures { result ≡ decoded bytes.now };

    /// An item has at least one byte, and fewer than 2^32.
    ghost some_bytes: { 0 < Self.SIZE };

    ghost few_bytes: { Self.SIZE < 2 ^ 32 };

    /// The least size is `SIZE`.
    ghost least_is: { Self.layout.least ≡ Self.SIZE };

    /// Each encoding of an item has `SIZE` bytes.
    ghost one_size: { (e : Mode) (v : Self.Seen) (bytes : List ℕ) →
        (Self.layout.format e).encodes v bytes → length bytes ≡ Self.SIZE };

    /// Bytes encode the item that is decoded from them.
    ghost decodes: { (bytes : List ℕ) → length bytes ≡ Self.SIZE → AreBytes bytes →
        (Self.layout.format (plain_mode LittleOrder)).encodes (Self.seen (decoded bytes)) bytes };
}

/// Items of views that are read under a context: what encodes one in little endian encodes it under the context too.
///
/// So it is with bytes under each context, and with wider numbers where the context's type means little endian.
pub trait ZeroCopyable<C: Context>: ViewItem {
    /// An encoding in little endian is one under the context.
    ghost as_little: { (context : C) (v : Self.Seen) (bytes : List ℕ) →
        (Self.layout.format (plain_mode LittleOrder)).encodes v bytes →
        (Self.layout.format (C.mode context)).encodes v bytes };
}

// A number has as many bytes as digits.
impl<T: FixedNumber> FixedSize for T {
    const SIZE: usize = <T::Digits as ByteArray>::LENGTH;

    ghost SIZE = { T.Digits.LENGTH };
}

// Any bytes of a number's width encode one.
impl<T: FixedNumber> ViewItem for T {
    ghost decoded = { T.decoded LittleOrder };

    ghost some_bytes = { T.fixed.is_fixed.has_bytes };

    ghost few_bytes = { few_bytes T.fixed.is_fixed };

    ghost least_is = { T.fixed.least_is };

    ghost one_size = { size_of_fixed T.fixed.is_fixed };

    ghost decodes = { T.fixed.decodes LittleOrder };

    #[inline(always)]
    fn decode(bytes: &[u8]) -> T {
        <T as FixedNumber>::decode(Endianness::LittleEndian, bytes)
    }
}
