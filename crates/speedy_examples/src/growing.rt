//! Messages of which a newer version has more variants and longer ones.
use speedy::error::{ErrorKind, get_error_kind};
use speedy::prefixed::Prefixed;
use speedy::readable::BufferReader;
use speedy::{Error, LendingReader, LittleEndian, ReadableOwned};
use std::alloc::Global;

/// The messages that this version knows, each after the number of its bytes. Variants of newer versions are passed
/// over, and so is what these put at the end of a message.
pub fn known_messages<T: ReadableOwned<LittleEndian>>(
    alloc: Global,
    frames: &[u8],
) -> Result<Vec<T>, Error> {
    let mut reader = BufferReader::new(alloc, LittleEndian {}, frames);
    let mut messages = Vec::new(alloc);
    for _i in 0..u64::MAX {
        if reader.peek_u8().is_err() {
            break;
        }
        let frame: Prefixed<u16, &[u8]> = reader.read_value()?;
        match T::read_owned(alloc, frame.value) {
            Ok(message) => messages.push(message)?,
            Err(error) => match get_error_kind(&error) {
                ErrorKind::InvalidEnumVariant => {}
                _ => return Err(error),
            },
        }
    }
    Ok(messages)
}

/// A number and a name and, where the bytes go on, a mail address, which older versions did not write.
pub fn read_grown(alloc: Global, message: &[u8]) -> Result<(u16, String, Option<String>), Error> {
    let mut reader = BufferReader::new(alloc, LittleEndian {}, message);
    let (number, name) = reader.read_value()?;
    let mail = match reader.peek_u8() {
        Ok(_) => Some(reader.read_value()?),
        Err(_) => None,
    };
    Ok((number, name, mail))
}
