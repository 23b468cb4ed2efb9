//! What readers lend to values that borrow, the answer `Unsized` of those that do not, and the marker `NothingLent`.
ghost use Rattle.std.specs.Prelude.{◌≡◌, false, [], IfOk, IsErrAnd};
ghost use Rattle.speedy_base.specs.Digits.{AreBytes};
ghost use Rattle.speedy_base.specs.Error.{error_of};
ghost use Rattle.speedy_layout.specs.Codecs.{raw_bytes_codec, borrowed_codec};
ghost use Rattle.speedy_read.specs.Reading.{ReadsValue};

use crate::reader::LendingReader;
use speedy_base::bytes::bytes_in_range;
use speedy_base::context::Context;
use speedy_base::error::{ErrorKind, error_unsized};
use std::convert::AsSlice;

/// What a reader lends that lends nothing: its `L`.
#[derive(Clone, Copy, Debug, PartialEq, Eq)]
pub struct NothingLent {}

impl AsSlice<u8> for NothingLent {
    ghost items = { λ _. [] };

    fn as_slice(&self) -> &[u8] {
        &[]
    }
}

/// The next `length` bytes, which the reader lends. One that lends nothing answers `Unsized` and is left as it was.
#[inline]
pub fn read_lent<'a, C: Context, R: LendingReader<&'a [u8], C>>(
    reader: &mut R,
    length: usize,
) -> Result<&'a [u8], C::Error>
    ensures reads { ReadsValue C.Error.IsEof R.state (λ b. b.now)
        (borrowed_codec (raw_bytes_codec length)) result reader.old reader.new }
    ensures range { IfOk result (λ b. AreBytes b.now) }
    ensures not_lent { (R.state reader.old).fixed.lends ≡ false
        → IsErrAnd result (λ e. C.Error.from_gives (error_of ErrorKind.Unsized) e)
        × (R.state reader.new ≡ R.state reader.old) }
{
    let Some(lent) = reader.read_bytes_borrowed(length) else {
        return Err(error_unsized());
    };
    let bytes = lent?;
    bytes_in_range(bytes);
    Ok(bytes)
}
