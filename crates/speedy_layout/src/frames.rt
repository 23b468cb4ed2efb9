//! Frames: a value behind the number of its bytes.
ghost use Rattle.speedy_layout.specs.Frames.{frame_behind};

use crate::prefixed::Told;
use crate::whole::Whole;

/// The message of a protocol: a value behind the number of its bytes, which it fills.
///
/// Its end is known, so that the value may be one that takes the rest of its input.
///
/// `Prefixed<u16, Framed<T>>` is the number of bytes of the value's encoding as a `u16`, and then that encoding. Bytes
/// that the value does not fill, or that are too few for it, are the error `OutOfRangeLength`. A frame that is cut is
/// an end of input.
#[derive(Debug, PartialEq, Drop)]
pub struct Framed<T>(pub T);

impl<T: Whole> Told for Framed<T> {
    ghost Seen = { T.Seen };

    ghost seen = { λ frame. T.seen frame.0 };

    ghost behind = { frame_behind T.whole };
}
