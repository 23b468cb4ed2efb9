//! The first calls of a new crate, with a test.
use speedy::{Error, LittleEndian, Readable, Writable};
use std::alloc::Global;

/// The bytes of names.
pub fn encode(alloc: Global, names: &Vec<String>) -> Result<Vec<u8>, Error> {
    Writable::<LittleEndian>::write_to_vec(names, alloc)
}

/// The names that the bytes begin with.
pub fn decode(alloc: Global, bytes: &[u8]) -> Result<Vec<String>, Error> {
    <Vec<String> as Readable<LittleEndian>>::read_from_buffer(alloc, bytes)
}

#[test]
fn names_come_back(rt: HostRuntime) -> Result<(), Error> {
    let alloc = rt.alloc();
    let names = vec![in alloc; String::from_str(alloc, "Ada")?, String::new(alloc)]?;
    let bytes = encode(alloc, &names)?;
    assert!(rt; bytes.as_slice() == b"\x02\0\0\0\x03\0\0\0Ada\0\0\0\0".as_slice());
    assert!(rt; decode(alloc, &bytes)? == names);
    Ok(())
}
