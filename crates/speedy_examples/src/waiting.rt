//! Messages whose bytes come in pieces, and are collected in a buffer.
use speedy::error::{ErrorKind, get_error_kind};
use speedy::prefixed::{Framed, Prefixed};
use speedy::readable::BufferReader;
use speedy::{Error, IsEof, LendingReader, LittleEndian};
use std::alloc::Global;

/// A message, for which your own type may stand.
pub type Message = (u16, String);

/// Whether the bytes ended too soon, in a buffer or in a stream: with more of them there may be a value.
pub fn wants_more(error: &Error) -> bool {
    match get_error_kind(error) {
        ErrorKind::InputBufferIsTooSmall { .. } => true,
        _ => error.is_eof(),
    }
}

/// Takes the next message from the bytes that have come, or answers `None` while it is not whole.
pub fn next_whole(alloc: Global, received: &mut Vec<u8>) -> Result<Option<Message>, Error> {
    let mut reader = BufferReader::new(alloc, LittleEndian {}, received);
    match reader.read_value::<Prefixed<u16, Framed<Message>>>() {
        Ok(frame) => {
            let taken = received.len() - reader.len();
            received.drain(..taken);
            Ok(Some(frame.value.0))
        }
        Err(error) if wants_more(&error) => Ok(None),
        Err(error) => Err(error),
    }
}
