//! Values of a derived type in a file.
use crate::sensor::Reading;
use speedy::{Error, LittleEndian, Readable, Writable};
use std::alloc::Global;
use std::fs::Files;

/// Writes readings to a file, which is made or emptied first.
pub fn save<R: Files>(
    rt: &R,
    alloc: Global,
    path: &str,
    readings: &Vec<Reading>,
) -> Result<(), Error> {
    Writable::<LittleEndian>::write_to_file(readings, rt, alloc, path)
}

/// The readings of a file.
pub fn load<R: Files>(rt: &R, alloc: Global, path: &str) -> Result<Vec<Reading>, Error> {
    <Vec<Reading> as Readable<LittleEndian>>::read_from_file(rt, alloc, path)
}
