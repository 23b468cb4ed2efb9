//! The laws of layouts, as functions with empty bodies that a user's proof can cite.
ghost use Rattle.std.specs.Prelude.{◌≡◌, ◌≤◌, ◌↔◌, List, ◌++◌, ℕ, length, [], false, IsTrue, None};
ghost use Rattle.speedy_base.specs.Digits.{AreBytes};
ghost use Rattle.speedy_base.specs.Mode.{Mode, plain_mode, strict_mode};

use crate::frames::Framed;
use crate::layout::Layout;
use crate::prefixed::{Prefix, Prefixed};
use crate::same_key::SameKey;
use crate::whole::{Followed, Rest, UnlessEnd, Whole};
use speedy_base::endianness::Endianness;

/// Bytes encode at most one value.
pub fn one_value<T: Layout>()
    ensures { (f : Mode) (v w : T.Seen) (bytes : List ℕ) →
        (T.layout.format f).encodes v bytes → (T.layout.format f).encodes w bytes → v ≡ w }
{}

/// No encoding begins another: the encodings of a type are prefix-free.
pub fn no_encoding_begins_another<T: Layout>()
    ensures { (f : Mode) (v w : T.Seen) (bytes more : List ℕ) →
        (T.layout.format f).encodes v bytes → (T.layout.format f).encodes w (bytes ++ more) → more ≡ [] }
{}

/// What is written encodes the value, and no encoding of it is shorter.
pub fn written_is_shortest<T: Layout>()
    ensures encodes { (f : Mode) (v : T.Seen) (bytes : List ℕ) →
        (T.layout.format f).writes v bytes → (T.layout.format f).encodes v bytes }
    ensures shortest { (f : Mode) (v : T.Seen) (bytes others : List ℕ) →
        (T.layout.format f).writes v bytes → (T.layout.format f).encodes v others → length bytes ≤ length others }
{}

/// A value that has an encoding has a canonical one.
pub fn encoded_is_written<T: Layout>()
    ensures { (f : Mode) (v : T.Seen) (bytes : List ℕ) →
        (T.layout.format f).encodes v bytes → (written : List ℕ) × (T.layout.format f).writes v written }
{}

/// No encoding is shorter than the type's least size.
pub fn no_encoding_is_below_least<T: Layout>()
    ensures { (f : Mode) (v : T.Seen) (bytes : List ℕ) →
        (T.layout.format f).encodes v bytes → T.layout.least ≤ length bytes }
{}

/// A value has one canonical encoding, where nothing in it is hashed.
pub fn one_canonical_encoding<T: Layout>()
    ensures { (f : Mode) (v : T.Seen) (bytes others : List ℕ) →
        (T.layout.format f).asks.hashed ≡ false → (T.layout.format f).writes v bytes
        → (T.layout.format f).writes v others → bytes ≡ others }
{}

/// Two prefixes of the same bytes that encode values are one prefix. They encode one value, and leave the same rest.
pub fn one_prefix<T: Layout>()
    ensures { (f : Mode) (v w : T.Seen) (bytes more others left : List ℕ) →
        (T.layout.format f).encodes v bytes → (T.layout.format f).encodes w others → bytes ++ more ≡ others ++ left →
        (v ≡ w) × (bytes ≡ others) × (more ≡ left) }
{}

/// Under a context that reads only canonical encodings, what encodes a value is one of these. So where nothing in it
/// is hashed, what was read is written again as the very same bytes.
pub fn canonical_alone<T: Layout>()
    ensures written { (f : Mode) (v : T.Seen) (bytes : List ℕ) →
        IsTrue f.strict → (T.layout.format f).encodes v bytes → (T.layout.format f).writes v bytes }
    ensures same { (f : Mode) (v : T.Seen) (bytes others : List ℕ) →
        IsTrue f.strict → (T.layout.format f).asks.hashed ≡ false → (T.layout.format f).encodes v bytes
        → (T.layout.format f).writes v others → bytes ≡ others }
{}

/// A strict context decodes just the canonical encodings of its order: each as the value that the plain context decodes
/// it as, and no other bytes. What is written under the two is the same.
pub fn strict_is_canonical<T: Layout>()
    ensures decodes { (order : Endianness) (v : T.Seen) (bytes : List ℕ) →
        (T.layout.format (strict_mode order)).encodes v bytes
        ↔ (T.layout.format (plain_mode order)).writes v bytes }
    ensures no_others { (order : Endianness) (v : T.Seen) (bytes : List ℕ) →
        (T.layout.format (strict_mode order)).encodes v bytes
        → (T.layout.format (plain_mode order)).encodes v bytes }
    ensures writes { (order : Endianness) (v : T.Seen) (bytes : List ℕ) →
        (T.layout.format (strict_mode order)).writes v bytes
        ↔ (T.layout.format (plain_mode order)).writes v bytes }
{}

/// All of the bytes encode at most one whole value.
pub fn one_whole_value<T: Whole>()
    ensures { (f : Mode) (v w : T.Seen) (bytes : List ℕ) →
        (T.whole.format f).encodes v bytes → (T.whole.format f).encodes w bytes → v ≡ w }
{}

/// A frame that a newer form wrote, with more parts `W` behind the parts `A`, is to a form that passes over what stands
/// behind `A` a frame of the same first parts.
pub fn newer_frame_is_read<N: Prefix, A: Layout, W: Whole>()
    ensures { (f : Mode) (v : A.Seen) (w : W.Seen) (bytes : List ℕ) → AreBytes bytes
        → (⟦<Prefixed<N, Framed<Followed<A, W>>> as Layout>⟧.layout.format f).encodes (v, w) bytes
        → (passed : List ℕ)
        × (⟦<Prefixed<N, Framed<Followed<A, Rest<Vec<u8>>>>> as Layout>⟧.layout.format f).encodes (v, passed) bytes }
{}

/// A frame that an older form wrote, which ends behind the parts `A`, is to a form with more parts a frame of the same
/// first parts, in which the later ones are missing.
pub fn older_frame_is_read<N: Prefix, A: Layout, B: Layout, W: Whole>()
    ensures { (f : Mode) (v : A.Seen) (bytes : List ℕ) → AreBytes bytes
        → (⟦<Prefixed<N, Framed<A>> as Layout>⟧.layout.format f).encodes v bytes
        → (⟦<Prefixed<N, Framed<Followed<A, UnlessEnd<B, W>>>> as Layout>⟧.layout.format f).encodes (v, None) bytes }
{}

/// Keys are equal exactly where the same is seen of them.
pub fn equal_as_seen<T: SameKey>()
    ensures { (x y : T) → IsTrue (T.eq x y) ↔ (T.seen x ≡ T.seen y) }
{}
