//! Messages over a socket, each after the number of its bytes.
use speedy::device::{Sink, Source};
use speedy::error::{ErrorKind, get_error_kind};
use speedy::prefixed::{Framed, Prefixed};
use speedy::private::write_to_stream_and_flush_with_ctx;
use speedy::readable::StreamReader;
use speedy::{Error, LendingReader, LittleEndian, Part, Readable};
use std::alloc::Global;

/// A message, for which your own type may stand.
pub type Message<'a> = (u16, &'a str);

/// The most bytes of a message that are received.
pub const LIMIT: u16 = 1024;

/// Sends a message after the number of its bytes.
pub fn send<'a, S: Sink>(
    alloc: Global,
    socket: &mut S,
    message: &Message<'a>,
) -> Result<(), Error> {
    let frame: Prefixed<u16, _> = Prefixed::new(Framed(Part(message)));
    write_to_stream_and_flush_with_ctx(&frame, alloc, LittleEndian {}, socket)
}

/// The bytes of the next message, or `None` where the other side has closed the socket.
pub fn receive<S: Source>(
    reader: &mut StreamReader<'_, S, LittleEndian>,
) -> Result<Option<Vec<u8>>, Error> {
    match reader.peek_u8() {
        Ok(_) => {}
        Err(error) => match get_error_kind(&error) {
            ErrorKind::UnexpectedEndOfInput => return Ok(None),
            _ => return Err(error),
        },
    }
    if reader.peek_u16()? > LIMIT {
        return Err(Error::custom(reader.alloc(), "a message past the limit"));
    }
    let frame: Prefixed<u16, Vec<u8>> = reader.read_value()?;
    Ok(Some(frame.value))
}

/// The message that the bytes begin with. It borrows from them.
pub fn decode<'a>(alloc: Global, bytes: &'a [u8]) -> Result<Message<'a>, Error> {
    <Message<'a> as Readable<LittleEndian>>::read_from_buffer(alloc, bytes)
}

/// Sends each message back until the other side closes the socket. A message that is broken is skipped.
pub fn serve<R: Source, W: Sink>(
    alloc: Global,
    input: &mut R,
    output: &mut W,
) -> Result<(), Error> {
    let mut reader = StreamReader::new(alloc, LittleEndian {}, input, true)?;
    for _i in 0..u64::MAX {
        let Some(bytes) = receive(&mut reader)? else {
            break;
        };
        match decode(alloc, &bytes) {
            Ok(message) => send(alloc, output, &message)?,
            Err(error) => match get_error_kind(&error) {
                ErrorKind::OutOfMemory => return Err(error),
                _ => {}
            },
        }
    }
    Ok(())
}
