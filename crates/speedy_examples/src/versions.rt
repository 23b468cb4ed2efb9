//! A part that an older version of the format did not have, after the number of the version.
use speedy::readable::BufferReader;
use speedy::{Error, LendingReader, LittleEndian};
use std::alloc::Global;

/// A number, a name, and a mail address, which version 1 did not have.
pub type Person = (u16, String, Option<String>);

/// The person of the version that stands before it.
pub fn read_person(alloc: Global, bytes: &[u8]) -> Result<Person, Error> {
    let mut reader = BufferReader::new(alloc, LittleEndian {}, bytes);
    let version: u16 = reader.read_value()?;
    let (number, name) = reader.read_value()?;
    let mail = if version >= 2 {
        reader.read_value()?
    } else {
        None
    };
    Ok((number, name, mail))
}
