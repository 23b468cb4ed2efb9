//! Lists of numbers, which are read and written in bulk, beside those of a type that goes item by item.
use speedy::device::VecSink;
use speedy::readable::{BufferReader, CopyingBufferReader, StreamReader};
use speedy::{Endianness, LendingReader, Writable};
use speedy_lines::plain16::Plain16;
use std::alloc::Global;
use std::convert::AsSlice;
use std::process::Abort;

/// So many numbers, each with other digits, and the same as items of the plain type.
fn make_both(rt: &impl Abort, alloc: Global, count: usize) -> (Vec<u16>, Vec<Plain16>) {
    let mut numbers = Vec::new(alloc);
    let mut plain = Vec::new(alloc);
    let mut next = 0x0102_u16;
    for _ in 0..count {
        numbers.push(next).expect(rt, "room");
        plain.push(Plain16(next)).expect(rt, "room");
        next = next.wrapping_mul(31).wrapping_add(7);
    }
    (numbers, plain)
}

/// Asserts that the numbers are written as the plain items are, to a vector and to a sink, and answers the bytes.
fn write_alike(
    rt: &impl Abort,
    alloc: Global,
    order: Endianness,
    numbers: &Vec<u16>,
    plain: &Vec<Plain16>,
) -> Vec<u8> {
    let bytes = plain
        .write_to_vec_with_ctx(alloc, order)
        .expect(rt, "a vector");
    let written = numbers
        .write_to_vec_with_ctx(alloc, order)
        .expect(rt, "a vector");
    assert!(rt; written == bytes);
    let mut sink = VecSink::new(alloc);
    let outcome = numbers.write_to_stream_with_ctx(alloc, order, &mut sink);
    assert!(rt; outcome.is_ok());
    assert!(rt; sink.into_bytes() == bytes);
    bytes
}

/// Asserts that the reader has these numbers.
fn assert_numbers<L: AsSlice<u8> + Drop>(
    rt: &impl Abort,
    reader: &mut impl LendingReader<L, Endianness>,
    numbers: &Vec<u16>,
) {
    let read: Vec<u16> = reader.read_value().expect(rt, "a vector");
    assert!(rt; read == *numbers);
}

/// Asserts that the numbers and the plain items are read of a buffer.
fn assert_read(
    rt: &impl Abort,
    alloc: Global,
    order: Endianness,
    bytes: &[u8],
    numbers: &Vec<u16>,
    plain: &Vec<Plain16>,
) {
    assert_numbers(rt, &mut BufferReader::new(alloc, order, bytes), numbers);
    let mut held = order;
    let mut reader = CopyingBufferReader::new(alloc, &mut held, bytes);
    assert_numbers(rt, &mut reader, numbers);
    let mut reader = BufferReader::new(alloc, order, bytes);
    let read: Vec<Plain16> = reader.read_value().expect(rt, "a vector");
    assert!(rt; read == *plain);
}

/// Asserts that the numbers are read of a source, with or without reading ahead.
fn assert_streamed(
    rt: &impl Abort,
    alloc: Global,
    order: Endianness,
    bytes: &[u8],
    numbers: &Vec<u16>,
    is_buffering: bool,
) {
    let mut source = bytes;
    let reader = StreamReader::new(alloc, order, &mut source, is_buffering);
    let mut reader = reader.expect(rt, "a reader");
    assert_numbers(rt, &mut reader, numbers);
}

/// Asserts that `count` numbers are written as the plain items are, and that what is read of the bytes by each reader
/// is the same.
fn assert_alike(rt: &impl Abort, alloc: Global, order: Endianness, count: usize) {
    let (numbers, plain) = make_both(rt, alloc, count);
    let bytes = write_alike(rt, alloc, order, &numbers, &plain);
    assert_read(rt, alloc, order, bytes.as_slice(), &numbers, &plain);
    assert_streamed(rt, alloc, order, bytes.as_slice(), &numbers, false);
    assert_streamed(rt, alloc, order, bytes.as_slice(), &numbers, true);
}

#[test]
fn numbers_in_bulk_are_those_item_by_item(rt: HostRuntime) {
    for count in [0, 1, 511, 512, 513, 1500] {
        assert_alike(&rt, rt.alloc(), Endianness::LittleEndian, count);
        assert_alike(&rt, rt.alloc(), Endianness::BigEndian, count);
    }
}
