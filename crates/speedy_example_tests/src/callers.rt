//! What the callers of the pages on calling and proving return, and those of the README.
use speedy::device::VecSink;
use speedy::error::{ErrorKind, get_error_kind};
use speedy::readable::{BufferReader, CopyingBufferReader};
use speedy::{Endianness, Error, IsEof, LendingReader, LittleEndian, Reader, Writable};
use speedy_examples::own_header::Header;
use speedy_examples::own_lent::Entry;
use speedy_examples::own_types::{Labelled, Mark};
use speedy_examples::{byte_sums, files, headers, memory, readme, streams, sums};
use std::alloc::Global;
use std::borrow::CowSlice;
use std::fs;
use std::process::Abort;

/// Asserts that the outcome is an error of the kind, as `Debug` prints it.
pub(crate) fn assert_refused<T: Drop>(
    rt: &impl Abort,
    alloc: Global,
    outcome: Result<T, Error>,
    kind: &str,
) {
    let error = outcome.err().expect(rt, "it is refused");
    let printed = format!(in alloc; "{:?}", get_error_kind(&error)).expect(rt, "its kind");
    assert!(rt; printed.as_str() == kind, "{printed}");
}

/// Asserts that the bytes were fewer than the least size of the type.
fn assert_is_short(rt: &impl Abort, outcome: Result<u32, Error>) {
    let error = outcome.err().expect(rt, "it is refused");
    let is_short = matches!(
        get_error_kind(&error),
        ErrorKind::InputBufferIsTooSmall { .. }
    );
    assert!(rt; is_short);
}

/// Asserts that the message is of this number and text.
fn assert_message(rt: &impl Abort, message: &(u16, String), number: u16, text: &str) {
    assert!(rt;
        message.0 == number && message.1.as_str() == text,
        "message {number}"
    );
}

#[test]
fn a_message_is_parsed_where_it_lies(rt: HostRuntime) {
    let alloc = rt.alloc();
    let bytes = [2, 1, 2, 0, 0, 0, b'H', b'i', 9];
    let message = readme::parse_message(alloc, &bytes).expect(&rt, "a message");
    assert!(rt; message == (258, "Hi"));
    let outcome = readme::parse_message(alloc, &bytes[..7]);
    assert_refused(&rt, alloc, outcome, "UnexpectedEndOfInput");
}

#[test]
fn two_numbers_are_added(rt: HostRuntime) {
    let alloc = rt.alloc();
    let bytes = [0xff, 0xff, 2, 0, 9];
    assert!(rt; sums::sum(alloc, &bytes).expect(&rt, "a sum") == 65_537);
    assert!(rt; byte_sums::sum_of_bytes(alloc, &bytes).expect(&rt, "a sum") == 65_537);
    let outcome = sums::sum(alloc, &bytes[..3]);
    assert_is_short(&rt, outcome);
    let outcome = byte_sums::sum_of_bytes(alloc, &bytes[..3]);
    assert_is_short(&rt, outcome);
}

#[test]
fn messages_come_one_after_another(rt: HostRuntime) {
    let alloc = rt.alloc();
    let mut source: &[u8] = &[1, 0, 2, 0, 0, 0, b'H', b'i', 2, 0, 0, 0, 0, 0, 9];
    let message = readme::next_message(alloc, &mut source).expect(&rt, "a message");
    assert_message(&rt, &message, 1, "Hi");
    let message = streams::next_message(alloc, &mut source).expect(&rt, "a message");
    assert_message(&rt, &message, 2, "");
    assert!(rt; source == [9].as_slice());
    let error = streams::next_message(alloc, &mut source)
        .err()
        .expect(&rt, "it is refused");
    assert!(rt; error.is_eof());
}

#[test]
fn two_messages_come_back(rt: HostRuntime) {
    let alloc = rt.alloc();
    let first = (1, String::from_str(alloc, "Hi").expect(&rt, "a text"));
    let second = (2, String::from_str(alloc, "").expect(&rt, "a text"));
    let again = streams::two_messages_again(alloc, &first, &second).expect(&rt, "messages");
    assert_message(&rt, &again.0, 1, "Hi");
    assert_message(&rt, &again.1, 2, "");
}

#[test]
fn all_messages_are_read_until_the_source_ends(rt: HostRuntime) {
    let alloc = rt.alloc();
    let bytes = [1, 0, 2, 0, 0, 0, b'H', b'i', 2, 0, 0, 0, 0, 0];
    let mut source: &[u8] = &bytes;
    let messages = streams::all_messages(alloc, &mut source).expect(&rt, "messages");
    assert!(rt; messages.len() == 2);
    assert_message(&rt, &messages[0], 1, "Hi");
    assert_message(&rt, &messages[1], 2, "");
    let mut cut: &[u8] = &bytes[..13];
    let outcome = streams::all_messages(alloc, &mut cut);
    assert_refused(&rt, alloc, outcome, "UnexpectedEndOfInput");
}

#[test]
fn a_text_comes_back(rt: HostRuntime) {
    let alloc = rt.alloc();
    let text = Some(String::from_str(alloc, "Hello").expect(&rt, "a text"));
    let again = memory::again(alloc, Endianness::BigEndian, &text).expect(&rt, "a text");
    assert!(rt; again == text);
    let again = streams::again_through_a_sink(alloc, Endianness::BigEndian, &text);
    assert!(rt; again.expect(&rt, "a text") == text);
}

#[test]
fn numbers_come_back(rt: HostRuntime) {
    let alloc = rt.alloc();
    let order = Endianness::BigEndian;
    let mut buffer = [9; 5];
    let again: Result<u32, Error> = memory::again_in(alloc, order, &0x1234_5678, &mut buffer);
    assert!(rt; again.expect(&rt, "a number") == 0x1234_5678);
    assert!(rt; buffer == [0x12, 0x34, 0x56, 0x78, 9]);
    let number: u32 = memory::load(alloc, order, buffer.as_slice()).expect(&rt, "a number");
    assert!(rt; number == 0x1234_5678);
    let mut reader = BufferReader::new(alloc, order, &buffer);
    let numbers: Vec<u16> = memory::read_slice(&mut reader, 2).expect(&rt, "two numbers");
    assert!(rt; numbers.as_slice() == [0x1234, 0x5678].as_slice());
    assert!(rt; reader.len() == 1);
}

#[test]
fn the_same_bytes_are_written_again(rt: HostRuntime) {
    let alloc = rt.alloc();
    let bytes = [1, 2, 0, 0, 0, b'H', b'i', 9];
    let written = memory::again_the_same_bytes(alloc, &bytes).expect(&rt, "bytes");
    assert!(rt; written.as_slice() == &bytes[..7]);
    let outcome = memory::again_the_same_bytes(alloc, &[2, 2, 0, 0, 0, b'H', b'i']);
    assert_refused(&rt, alloc, outcome, "NotWrittenForm");
}

#[test]
fn parts_lie_one_after_the_other(rt: HostRuntime) {
    let alloc = rt.alloc();
    let value = Labelled {
        label: 258,
        value: String::from_str(alloc, "a").expect(&rt, "a text"),
    };
    let bytes = value
        .write_to_vec_with_ctx(alloc, Endianness::BigEndian)
        .expect(&rt, "bytes");
    assert!(rt; bytes.as_slice() == [0, 0, 1, 2, 0, 0, 0, 1, b'a'].as_slice());
    let again = memory::again_owned(alloc, Endianness::LittleEndian, &value).expect(&rt, "it");
    assert!(rt; again.label == 258 && again.value == value.value);
}

#[test]
fn items_of_no_size_are_read_one_by_one(rt: HostRuntime) {
    let alloc = rt.alloc();
    let mut reader = BufferReader::new(alloc, Endianness::LittleEndian, &[0, 0, 0, 0, 9]);
    let marks = reader.read_vec::<Mark>(3).expect(&rt, "three items");
    assert!(rt; marks.len() == 3 && reader.len() == 2);
    let outcome = reader.read_vec::<Mark>(2);
    assert_refused(&rt, alloc, outcome, "InvalidEnumVariant");
    let written = marks.write_to_vec_with_ctx(alloc, Endianness::LittleEndian);
    assert!(rt; written.expect(&rt, "bytes").as_slice() == [3, 0, 0, 0, 0, 0, 0].as_slice());
}

#[test]
fn a_record_points_into_what_it_is_read_from(rt: HostRuntime) {
    let alloc = rt.alloc();
    let bytes = [2, 0, 0, 0, b'H', b'i', 3, 0, 0, 0, 7, 8, 9, 1];
    let mut reader = BufferReader::new(alloc, LittleEndian {}, &bytes);
    let entry: Entry = reader.read_value().expect(&rt, "an entry");
    assert!(rt; entry.name == "Hi" && reader.len() == 1);
    assert!(rt; entry.content.as_slice() == [7, 8, 9].as_slice());
    assert!(rt; matches!(entry.content, CowSlice::Borrowed(_)));
    let written = Writable::<LittleEndian>::write_to_vec(&entry, alloc).expect(&rt, "bytes");
    assert!(rt; written.as_slice() == &bytes[..13]);
    let mut context = LittleEndian {};
    let mut reader = CopyingBufferReader::new(alloc, &mut context, &bytes);
    assert_refused(&rt, alloc, reader.read_value::<Entry>(), "Unsized");
}

#[test]
fn a_header_is_read_as_it_was_written(rt: HostRuntime) {
    let alloc = rt.alloc();
    let header = Header {
        version: 2,
        length: 300,
    };
    let bytes = Writable::<LittleEndian>::write_to_vec(&header, alloc).expect(&rt, "bytes");
    assert!(rt; bytes.as_slice() == [b'R', b'E', b'C', b'1', 2, 0, 0x81, 0x2c].as_slice());
    let mut reader = BufferReader::new(alloc, LittleEndian {}, &bytes);
    let again: Header = reader.read_value().expect(&rt, "a header");
    assert!(rt; again == header);
}

#[test]
fn another_magic_number_is_refused(rt: HostRuntime) {
    let bytes = [b'R', b'E', b'C', b'2', 2, 0, 5];
    let mut reader = BufferReader::new(rt.alloc(), LittleEndian {}, &bytes);
    let outcome = reader.read_value::<Header>();
    let kind = "ExpectedConstant { constant: [82, 69, 67, 49] }";
    assert_refused(&rt, rt.alloc(), outcome, kind);
}

#[test]
fn a_log_is_read_without_a_record_that_was_cut_short(rt: HostRuntime) {
    let alloc = rt.alloc();
    let bytes = [1, 0, 2, 0, 0, 0, b'H', b'i', 2, 0, 5, 0, 0, 0, b'H'];
    let records = headers::read_log(alloc, &bytes, 9).expect(&rt, "records");
    assert!(rt; records.len() == 1);
    assert_message(&rt, &records[0], 1, "Hi");
    let outcome = headers::read_log(alloc, &bytes, 0);
    assert_refused(&rt, alloc, outcome, "OutOfRangeLength");
}

#[test]
fn records_are_put_behind_those_that_a_file_has(rt: HostRuntime) {
    let alloc = rt.alloc();
    let path = "speedy_examples_records.bin";
    let first = (1_u16, String::from_str(alloc, "Hi").expect(&rt, "a text"));
    let second = (2_u16, String::from_str(alloc, "").expect(&rt, "a text"));
    // The first one empties the file, if an earlier run left one.
    let outcome = Writable::<LittleEndian>::write_to_file(&first, &rt, alloc, path);
    outcome.expect(&rt, "it is written");
    files::append_record(&rt, alloc, path, &second).expect(&rt, "it is appended");
    let records = files::read_records(&rt, alloc, path).expect(&rt, "records");
    assert!(rt; records.len() == 2);
    assert_message(&rt, &records[0], 1, "Hi");
    assert_message(&rt, &records[1], 2, "");
    fs::remove_file(&rt, path).expect(&rt, "it is removed");
    let mut sink = VecSink::new(alloc);
    files::put_record(alloc, &mut sink, &first).expect(&rt, "it is put");
    assert!(rt; sink.bytes() == [1, 0, 2, 0, 0, 0, b'H', b'i'].as_slice());
}
