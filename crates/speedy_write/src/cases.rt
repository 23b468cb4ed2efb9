//! How cases are written: the tag of a value's case, and the value.
ghost use Rattle.std.specs.Prelude.{◌≡◌};
ghost use Rattle.speedy_layout.specs.Choices.{tagged};
ghost use Rattle.speedy_write.specs.Cases.{WritesCase};
ghost use Rattle.speedy_write.specs.Writing.{WritesAs};

use crate::prefixed::WritePrefix;
use crate::writer::Writer;
use speedy_base::context::Context;
use speedy_layout::cases::Cases;

/// How the values of an enum are written.
pub trait WriteCases<C: Context>: Cases {
    /// The tag of the value's case.
    fn tag(&self) -> usize
        ensures { result ≡ Self.choices.tag (Self.seen self.now) };

    /// Writes the value, behind its tag. One whose tag is that of an earlier case is the error `OutOfRangeLength`.
    fn write_case<W: Writer<C>>(&self, writer: &mut W) -> Result<(), C::Error>
        ensures { let seen = Self.seen self.now in
            WritesCase C.Error.from_gives W.state W.appends (Self.choices.case_of (Self.choices.tag seen)) seen
            result writer.old writer.new };
}

/// Writes the tag of the value's case, as a number of the type `N`, and then the value.
///
/// A tag that is past `N`, or is that of an earlier case, is the error `OutOfRangeLength`.
#[inline]
pub fn write_tagged<N: WritePrefix, T: WriteCases<C>, C: Context, W: Writer<C>>(
    value: &T,
    writer: &mut W,
) -> Result<(), C::Error>
    ensures { WritesAs C.Error.from_gives W.state W.appends T.seen
        (tagged N.numbers.codec.format T.choices) value.now result writer.old writer.new }
{
    N::write_number(value.tag(), writer)?;
    value.write_case(writer)
}
