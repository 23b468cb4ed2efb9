//! What to do about bytes that are no message.
ghost use Rattle.std.specs.Prelude.{◌≡◌, ◌↔◌};
ghost use Rattle.speedy_protocol.specs.Refusals.{IsShort, IsBroken};

use speedy::error::{ErrorKind, get_error_kind};
use speedy::{Error, IsEof};

/// What a receiver does after an error.
#[derive(Debug, PartialEq, Clone, Copy)]
pub enum Advice {
    /// The bytes are too few: wait for more.
    Wait,
    /// The message is broken, and its frame says where the next one begins.
    Skip,
    /// Where the next message begins is not known.
    Close,
}

/// What to do after an error of a buffer.
pub fn advise(error: &Error) -> Advice
    ensures waits { (result ≡ Advice.Wait) ↔ IsShort error.now }
    ensures skips { (result ≡ Advice.Skip) ↔ IsBroken error.now }
{
    match get_error_kind(error) {
        ErrorKind::InputBufferIsTooSmall { .. } => Advice::Wait,
        ErrorKind::InvalidEnumVariant | ErrorKind::InvalidUtf8 | ErrorKind::OutOfRangeLength => {
            Advice::Skip
        }
        _ if error.is_eof() => Advice::Wait,
        _ => Advice::Close,
    }
}
