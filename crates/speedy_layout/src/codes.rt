//! Values that are encoded as codes (`ToCode`), each as the one that is chosen for it.
ghost use Rattle.speedy_layout.specs.Encoding.{Encodes};

use crate::layout::Layout;

/// Types of which each value is encoded as a value of another type, its code: a number, bytes or what else is read.
///
/// Such a type is written by a call of `write_code`, and read by an impl of `FromCode`.
pub trait ToCode: Layout {
    /// The type of the codes.
    type Code: Layout + Drop;

    /// The code that is chosen for the value.
    ///
    /// The value has each canonical encoding of the code, and the code has an encoding where the value has one.
    fn encode(&self) -> Self::Code
        ensures { Encodes Self.Code.layout Self.layout (Self.Code.seen result) (Self.seen self.now) };
}
