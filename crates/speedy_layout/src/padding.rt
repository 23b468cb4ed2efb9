//! Bytes that mean nothing: padding, and bytes that have to be zero.
ghost use Rattle.std.specs.Prelude.{ℕ, refl};
ghost use Rattle.speedy_layout.specs.Codecs.{padding_codec, zeros_codec};
ghost use Rattle.speedy_layout.specs.Lengths.{padding_counting, zeros_counting};

use crate::layout::Layout;
use crate::lengths::OfLength;
use crate::same_key::SameKey;

/// `N` bytes of padding: any are read, and zeros are written.
///
/// Other bytes than zeros are no canonical encoding, so a strict context refuses them with `NotWrittenForm`.
#[derive(Clone, Copy, Debug, PartialEq, Eq, PartialOrd, Ord, Hash, Default, Drop)]
pub struct Padding<const N: usize> {}

impl<const N: usize> Layout for Padding<N> {
    ghost Seen = { ℕ };

    ghost seen = { λ _. N };

    ghost layout = { padding_codec N };
}

impl<const N: usize> SameKey for Padding<N> {
    ghost same_key = { λ x y. (λ h. refl, λ e. refl) };
}

/// `N` bytes that have to be zero: others are the error `ExpectedConstant`, with a zero.
#[derive(Clone, Copy, Debug, PartialEq, Eq, PartialOrd, Ord, Hash, Default, Drop)]
pub struct Zeros<const N: usize> {}

impl<const N: usize> Layout for Zeros<N> {
    ghost Seen = { ℕ };

    ghost seen = { λ _. N };

    ghost layout = { zeros_codec N };
}

impl<const N: usize> SameKey for Zeros<N> {
    ghost same_key = { λ x y. (λ h. refl, λ e. refl) };
}

/// Padding of so many bytes as other fields tell: any are read, and zeros are written.
///
/// Other bytes than zeros are no canonical encoding, so a strict context refuses them with `NotWrittenForm`.
#[derive(Clone, Copy, Debug, PartialEq, Eq, PartialOrd, Ord, Hash, Default, Drop)]
pub struct PaddingBytes(pub usize);

impl OfLength for PaddingBytes {
    ghost Seen = { ℕ };

    ghost seen = { λ it. it.0 };

    ghost counting = { padding_counting };
}

/// So many bytes as other fields tell that have to be zero: others are the error `ExpectedConstant`, with a zero.
#[derive(Clone, Copy, Debug, PartialEq, Eq, PartialOrd, Ord, Hash, Default, Drop)]
pub struct ZeroBytes(pub usize);

impl OfLength for ZeroBytes {
    ghost Seen = { ℕ };

    ghost seen = { λ it. it.0 };

    ghost counting = { zeros_counting };
}
