//! Types of the program: bytes that come from outside, and each way of reading them.
//!
//! What is refused, and what enums are written as, are lines of `stdin`.
use speedy::private::{ErrorKind, get_error_kind};
use speedy::readable::{BufferReader, CopyingBufferReader, StreamReader};
use speedy::{Endianness, Error, LendingReader, LittleEndian, Writable};
use speedy_lines::enums::Enum;
use speedy_lines::frame::Frame;
use speedy_lines::record::Record;
use std::alloc::Global;
use std::borrow::CowSlice;
use std::process::Abort;

/// Asserts that the outcome is an error that says that a length is out of its range.
pub(crate) fn assert_out_of_range<T: Drop>(rt: &impl Abort, outcome: Result<T, Error>) {
    let error = outcome.err().expect(rt, "it is refused");
    assert!(rt;
        matches!(get_error_kind(&error), ErrorKind::OutOfRangeLength),
        "{error}"
    );
}

/// The record of the original's README, as it encodes it.
const RECORD: &'static [u8] =
    b"\x00\xef\xcd\xab\x78\x56\x34\x12\x1a\x00\x00\x00A totally pointless string\
    \x03\x00\x00\x00\x01\x02\x03\x03\x00\x00\x00\x04\x00\x00\x00\x00\x00\x00\x00\
    \x05\x00\x00\x00\x00\x00\x00\x00\x06\x00\x00\x00\x00\x00\x00\x00\x02\x00\x00\x00";

/// The same record.
fn make_record(rt: &impl Abort, alloc: Global) -> Record<'static> {
    Record {
        number: 0x1234_5678_abcd_ef00,
        string: String::from_str(alloc, "A totally pointless string").expect(rt, "a text"),
        vector: vec![in alloc; 1, 2, 3].expect(rt, "a vector"),
        cow: CowSlice::Borrowed(&[4, 5, 6]),
        enumeration: Enum::C,
    }
}

/// Asserts that it is the record of the original's README.
fn assert_record(rt: &impl Abort, alloc: Global, outcome: Result<Record<'_>, Error>) {
    let record = outcome.expect(rt, "a record");
    assert!(rt; record == make_record(rt, alloc));
}

#[test]
fn the_record_of_the_original_is_read_of_a_buffer(rt: HostRuntime) {
    let alloc = rt.alloc();
    let mut reader = BufferReader::new(alloc, LittleEndian {}, RECORD);
    assert_record(&rt, alloc, reader.read_value());
    let mut context = LittleEndian {};
    let mut reader = CopyingBufferReader::new(alloc, &mut context, RECORD);
    assert_record(&rt, alloc, reader.read_value());
}

#[test]
fn the_record_of_the_original_is_read_of_a_stream(rt: HostRuntime) {
    let alloc = rt.alloc();
    for is_buffering in [false, true] {
        let mut source = RECORD;
        let reader = StreamReader::new(alloc, LittleEndian {}, &mut source, is_buffering);
        let mut reader = reader.expect(&rt, "a reader");
        assert_record(&rt, alloc, reader.read_value());
    }
}

/// A frame without parts, whose note has `count` bytes.
fn make_frame(rt: &impl Abort, alloc: Global, length: usize) -> Frame {
    let mut note = String::new(alloc);
    for _ in 0..length {
        note.push_str("a").expect(rt, "room");
    }
    Frame {
        parts: Vec::new(alloc),
        note,
    }
}

#[test]
fn a_frame_has_a_short_note(rt: HostRuntime) {
    let alloc = rt.alloc();
    let order = Endianness::BigEndian;
    let written = make_frame(&rt, alloc, 255).write_to_vec_with_ctx(alloc, order);
    let written = written.expect(&rt, "bytes");
    assert!(rt; written.len() == 259 && written.starts_with(&[83, 80, 0, 255, 97]));
    let outcome = make_frame(&rt, alloc, 256).write_to_vec_with_ctx(alloc, order);
    assert_out_of_range(&rt, outcome);
}
