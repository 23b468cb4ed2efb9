//! Values that have all of the bytes (`Whole`): those of each layout, and those that end where the bytes do.
ghost use Rattle.std.specs.Prelude.{Option};
ghost use Rattle.std.specs.Option.{option_map};
ghost use Rattle.speedy_layout.specs.Codecs.{WholeCodec, whole_codec, followed_codec};
ghost use Rattle.speedy_layout.specs.Growing.{unless_end_codec};
ghost use Rattle.speedy_layout.specs.Rests.{rest_codec};

use crate::layout::Layout;
use crate::lengths::OfLength;

/// What all of the bytes mean, with none left over.
///
/// Each type with a [`Layout`] is whole. A type that takes the rest of its input has no layout, since its encodings
/// begin longer ones; it is read from bytes whose end is known, as those of a frame. A type of your own whose last part
/// is such quotes [`Followed`].
pub trait Whole {
    /// Whether the bytes say where a value ends ([`EndsItself`]), as those of each layout do, or the value ends where
    /// they do ([`EndsWithInput`]).
    type Ends;

    /// What is seen of a value: the value itself, where an impl says nothing else.
    ghost Seen: { Type 0 } = { Self };

    ghost seen: { Self → Seen };

    /// Which bytes, all of them, encode which values under a context's mode (`format`), and the laws: bytes encode at
    /// most one value, and a shortest encoding is written.
    ghost whole: { WholeCodec Seen };
}

/// The bytes of a value say where it ends.
pub struct EndsItself {}

/// A value ends where the bytes do.
pub struct EndsWithInput {}

impl<T: Layout> Whole for T {
    type Ends = EndsItself;

    ghost Seen = { T.Seen };

    ghost seen = { T.seen };

    ghost whole = { whole_codec T.layout };
}

/// A text or a list that is the rest of the bytes, with no length.
///
/// Behind the last item no byte is left. A list of items that take no bytes has no encoding, unless it is empty: that
/// is the error `OutOfRangeLength`.
#[derive(Debug, PartialEq, Drop)]
pub struct Rest<T>(pub T);

impl<T: OfLength> Whole for Rest<T> {
    type Ends = EndsWithInput;

    ghost Seen = { T.Seen };

    ghost seen = { λ rest. T.seen rest.0 };

    ghost whole = { rest_codec T.counting };
}

/// Parts with a layout, and behind them a value that has all other bytes.
#[derive(Debug, PartialEq, Drop)]
pub struct Followed<A, W>(pub A, pub W);

impl<A: Layout, W: Whole> Whole for Followed<A, W> {
    type Ends = EndsWithInput;

    ghost Seen = { A.Seen × W.Seen };

    ghost seen = { λ it. (A.seen it.0, W.seen it.1) };

    ghost whole = { followed_codec A.layout W.whole };
}

/// A part and all that stands behind it, or none of them: `None` where the bytes end before the part.
///
/// So a struct grows: later versions have parts more at its end, which are missing from what older ones wrote. A part
/// that takes no bytes has no encoding here: that is the error `OutOfRangeLength`.
#[derive(Debug, PartialEq, Drop)]
pub struct UnlessEnd<A, W>(pub Option<(A, W)>);

impl<A: Layout, W: Whole> Whole for UnlessEnd<A, W> {
    type Ends = EndsWithInput;

    ghost Seen = { Option (A.Seen × W.Seen) };

    ghost seen = { λ it. option_map (λ parts. (A.seen parts.0, W.seen parts.1)) it.0 };

    ghost whole = { unless_end_codec A.layout W.whole };
}

/// A whole value behind a reference, which is written as the value itself.
#[derive(Drop)]
pub struct WholePart<'t, T>(pub &'t T);

impl<'t, T: Whole> Whole for WholePart<'t, T> {
    type Ends = EndsWithInput;

    ghost Seen = { T.Seen };

    ghost seen = { λ part. T.seen part.0.now };

    ghost whole = { T.whole };
}
