//! Bytes that always stand at a place.
ghost use Rattle.std.specs.Prelude.{◌≡◌, ℕ, List};
ghost use Rattle.speedy_layout.specs.Codecs.{constant_codec};

use crate::layout::Layout;
use std::marker::PhantomData;

/// Constant bytes, as those that a file begins with.
pub trait Constant {
    /// The bytes, as contracts see them.
    ghost bytes: { List ℕ };

    /// The bytes.
    fn bytes() -> &'static [u8]
        ensures { result.now ≡ bytes };
}

/// A part that is always the same bytes. Others are the error `ExpectedConstant`.
#[derive(Debug, PartialEq, Drop)]
pub struct Magic<K> {
    /// Names the constant, and holds nothing.
    pub constant: PhantomData<K>,
}

impl<K> Magic<K> {
    /// The part, of which there is one.
    #[inline]
    pub fn new() -> Magic<K> {
        Magic {
            constant: PhantomData,
        }
    }
}

impl<K: Constant> Layout for Magic<K> {
    ghost Seen = { List ℕ };

    ghost seen = { λ _. K.bytes };

    ghost layout = { constant_codec K.bytes };
}
