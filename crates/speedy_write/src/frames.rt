//! How frames are written: the number of a value's bytes, and then the value.
ghost use Rattle.std.specs.Prelude.{◌≡◌, ℕ, List, length as count};
ghost use Rattle.speedy_write.specs.Writing.{Writes};

use crate::prefixed::{WritePrefix, WriteTold};
use crate::whole::WriteWhole;
use crate::writer::Writer;
use speedy_base::context::Context;
use speedy_layout::frames::Framed;

impl<C: Context, T: WriteWhole<C>> WriteTold<C> for Framed<T> {
    #[inline]
    fn write_behind<N: WritePrefix, W: Writer<C>>(&self, writer: &mut W) -> Result<(), C::Error> {
        let length = self.0.whole_bytes_needed(writer.context_mut())?;
        N::write_number(length, writer)?;
        write_counted_value(&self.0, length, writer)
    }
}

/// Writes a value that takes `length` bytes. A writer that counts is told of these at once, so that a frame within
/// frames is counted once.
#[inline]
pub fn write_counted_value<C: Context, T: WriteWhole<C>, W: Writer<C>>(
    value: &T,
    length: usize,
    writer: &mut W,
) -> Result<(), C::Error>
    requires { let format = T.whole.format (W.state writer.old).mode in
        (bytes : List ℕ) × format.writes (T.seen value.now) bytes × (length ≡ count bytes) }
    ensures { Writes C.Error.from_gives T.whole.format (T.seen value.now) result
        (W.state writer.old) (W.state writer.new) (λ b. W.appends writer.old b writer.new) }
{
    if W::counts() {
        if let Some(counted) = writer.count_bytes(length) {
            return counted;
        }
    }
    value.write_whole(writer)
}
