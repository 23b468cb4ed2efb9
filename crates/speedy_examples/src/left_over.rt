//! A message after which nothing may follow.
use speedy::{Buffer, Error, LittleEndian};
use std::alloc::Global;

/// The message that the bytes are, with nothing after it.
pub fn parse_whole<'a>(alloc: Global, bytes: &'a [u8]) -> Result<(u16, &'a str), Error> {
    let (outcome, length) = bytes.read_with_length::<(u16, &'a str)>(alloc, LittleEndian {});
    let message = outcome?;
    if length < bytes.len() {
        return Err(Error::custom(alloc, "bytes are left over"));
    }
    Ok(message)
}
