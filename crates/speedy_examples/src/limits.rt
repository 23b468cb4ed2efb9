//! A body of bytes whose number is tested against a limit before memory is asked for.
use speedy::device::Source;
use speedy::readable::StreamReader;
use speedy::{Error, LendingReader, LittleEndian};
use std::alloc::Global;

/// The bytes after their number, if they are no more than the limit.
pub fn read_body<S: Source>(alloc: Global, source: &mut S, limit: usize) -> Result<Vec<u8>, Error> {
    let mut reader = StreamReader::new(alloc, LittleEndian {}, source, false)?;
    let length = reader.read_u32()? as usize;
    if length > limit {
        return Err(Error::custom(alloc, "a body past the limit"));
    }
    reader.read_vec(length)
}
