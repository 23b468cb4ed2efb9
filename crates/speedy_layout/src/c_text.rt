//! Texts and bytes that end with a NUL, as strings of C do.
ghost use Rattle.std.specs.Prelude.{◌≡◌, ℕ, List, refl};
ghost use Rattle.std.specs.Box.{boxed_slice_items, boxed_str_bytes};
ghost use Rattle.std.specs.Cow.{cow_slice_items, cow_str_bytes};
ghost use Rattle.std.specs.String.{string_bytes};
ghost use Rattle.speedy_layout.specs.CText.{FindsNul};
ghost use Rattle.speedy_layout.specs.Codecs.{Codec, borrowed_codec, owned_codec};
ghost use Rattle.speedy_layout.specs.Codecs.{nul_ended_codec, nul_ended_text_codec};

use crate::layout::Layout;
use memchr::memchr;
use std::borrow::{CowSlice, CowStr};
use std::boxed::{BoxedSlice, BoxedStr};

/// Texts and bytes that may stand before a NUL.
pub trait NulEnded {
    /// The bytes before the NUL.
    ghost content: { Self → List ℕ };

    /// The layout of these and the NUL.
    ghost nul_ended: { Codec (List ℕ) };

    /// The least of them are no bytes but the NUL.
    ghost one_byte: { nul_ended.least ≡ 1 };
}

impl NulEnded for String {
    ghost content = { string_bytes };

    ghost nul_ended = { owned_codec nul_ended_text_codec };

    ghost one_byte = { refl };
}

impl NulEnded for BoxedStr {
    ghost content = { boxed_str_bytes };

    ghost nul_ended = { owned_codec nul_ended_text_codec };

    ghost one_byte = { refl };
}

impl<'a> NulEnded for &'a str {
    ghost content = { λ r. r.now };

    ghost nul_ended = { borrowed_codec nul_ended_text_codec };

    ghost one_byte = { refl };
}

impl<'a> NulEnded for CowStr<'a> {
    ghost content = { cow_str_bytes };

    ghost nul_ended = { owned_codec nul_ended_text_codec };

    ghost one_byte = { refl };
}

impl NulEnded for Vec<u8> {
    ghost content = { λ v. v.items };

    ghost nul_ended = { owned_codec nul_ended_codec };

    ghost one_byte = { refl };
}

impl NulEnded for BoxedSlice<u8> {
    ghost content = { boxed_slice_items };

    ghost nul_ended = { owned_codec nul_ended_codec };

    ghost one_byte = { refl };
}

impl<'a> NulEnded for &'a [u8] {
    ghost content = { λ r. r.now };

    ghost nul_ended = { borrowed_codec nul_ended_codec };

    ghost one_byte = { refl };
}

impl<'a> NulEnded for CowSlice<'a, u8> {
    ghost content = { cow_slice_items };

    ghost nul_ended = { owned_codec nul_ended_codec };

    ghost one_byte = { refl };
}

/// A text or bytes up to a NUL, which is written behind them: `String`, `&str`, `CowStr` or `BoxedStr`, `Vec<u8>`,
/// `&[u8]`, `CowSlice<u8>` or `BoxedSlice<u8>`.
///
/// None of the bytes is zero. A value that holds a zero has no encoding, and writing it is the error
/// `OutOfRangeLength`, since it would be read as one that ends there.
#[derive(Clone, Copy, Debug, PartialEq, Eq, PartialOrd, Ord, Hash, Default, Drop)]
pub struct CText<T>(pub T);

impl<T: NulEnded> Layout for CText<T> {
    ghost Seen = { List ℕ };

    ghost seen = { λ it. T.content it.0 };

    ghost layout = { T.nul_ended };
}

/// How many bytes the first NUL and those before it are, where there is one.
#[inline]
pub fn length_to_nul(bytes: &[u8]) -> Option<usize>
    ensures { FindsNul bytes.now result }
{
    match memchr(0, bytes) {
        Some(index) => Some(index + 1),
        None => None,
    }
}
