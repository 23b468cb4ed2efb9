//! Functions that are generic in what they read.
use speedy::{Buffer, Error, LittleEndian, ReadFrom, ReadableOwned, Writable};
use std::alloc::Global;

/// Reads a value of any type from the front of bytes. It may borrow from these.
pub fn load<L: Buffer<LittleEndian>, T: ReadFrom<L, LittleEndian>>(
    alloc: Global,
    bytes: L,
) -> Result<T, Error> {
    bytes.read_prefix(alloc, LittleEndian {})
}

/// Reads a value of any type that borrows nothing.
pub fn load_owned<T: ReadableOwned<LittleEndian>>(alloc: Global, bytes: &[u8]) -> Result<T, Error> {
    T::read_owned(alloc, bytes)
}

/// The bytes of a value of any type.
pub fn save<T: Writable<LittleEndian>>(alloc: Global, value: &T) -> Result<Vec<u8>, Error> {
    value.write_to_vec(alloc)
}
