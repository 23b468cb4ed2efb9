//! Tests of a format of one's own: its bytes, each cut of them, and each byte changed.
use speedy::error::{ErrorKind, get_error_kind};
use speedy::{Buffer, Error, IsEof, LittleEndian, ReadableOwned, Writable};
use std::alloc::Global;
use std::process::Abort;

/// Asserts that a value is written as these bytes, and that these are read as the value, with none left over.
pub(crate) fn assert_bytes<T: ReadableOwned<LittleEndian> + Writable<LittleEndian> + PartialEq>(
    rt: &impl Abort,
    alloc: Global,
    value: &T,
    bytes: &[u8],
) {
    let written = value.write_to_vec(alloc).expect(rt, "it is written");
    assert!(rt; written.as_slice() == bytes, "other bytes are written");
    let read: T = T::read_owned(alloc, bytes).expect(rt, "it is read");
    assert!(rt; read == *value, "another value is read");
}

/// Asserts that each beginning of the bytes is called too short.
pub(crate) fn assert_cuts<T: ReadableOwned<LittleEndian>>(
    rt: &impl Abort,
    alloc: Global,
    bytes: &[u8],
) {
    for length in 0..bytes.len() {
        let outcome: Result<T, Error> = T::read_owned(alloc, &bytes[..length]);
        let error = outcome.err().expect(rt, "it is cut");
        let is_short = match get_error_kind(&error) {
            ErrorKind::InputBufferIsTooSmall { .. } => true,
            _ => error.is_eof(),
        };
        assert!(rt; is_short, "cut to {length} bytes it is called broken");
    }
}

/// Asserts that bytes of which one is changed are refused, or read as a value that comes back when it is written.
pub(crate) fn assert_changes<T: ReadableOwned<LittleEndian> + Writable<LittleEndian> + PartialEq>(
    rt: &impl Abort,
    alloc: Global,
    bytes: &[u8],
) {
    for at in 0..bytes.len() {
        for value in [0, 1, 0x7f, 0x80, 0xff] {
            let mut changed = Vec::new(alloc);
            changed.extend_from_slice(bytes).expect(rt, "memory");
            changed[at] = value;
            let outcome: Result<T, Error> = T::read_owned(alloc, changed.as_slice());
            if let Ok(read) = outcome {
                let written = read.write_to_vec(alloc).expect(rt, "it is written again");
                let again: T = T::read_owned(alloc, written.as_slice()).expect(
                    rt,
                    "it is read again",
                );
                assert!(rt; again == read, "byte {at} as {value}");
            }
        }
    }
}
