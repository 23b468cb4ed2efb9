//! Lists and arrays. `SmallVec` is tested by lines of `stdin` in `speedy_vectors`.
use crate::asserting::{
    assert_bytes, assert_encoding, assert_ok, assert_ok_items, assert_refused, assert_same,
    make_text, make_vec, row,
};
use speedy::device::VecSink;
use speedy::endianness::Endianness;
use speedy::readable::{BufferReader, CopyingBufferReader, StreamReader};
use speedy::reader::LendingReader;
use speedy::varint::VarInt64;
use speedy::writable::Writable;
use std::alloc::Global;
use std::net::{IpAddr, Ipv4Addr};
use std::process::Abort;

#[test]
fn arrays_of_texts_lie_text_after_text(rt: HostRuntime) {
    let alloc = rt.alloc();
    let texts = [make_text(&rt, alloc, "A"), make_text(&rt, alloc, "BB")];
    let order = Endianness::LittleEndian;
    let bytes = [1, 0, 0, 0, 65, 2, 0, 0, 0, 66, 66];
    assert_ok_items(&rt, texts.write_to_vec_with_ctx(alloc, order), &bytes);
    let mut reader = BufferReader::new(alloc, order, &bytes);
    let read: [String; 2] = reader.read_value().expect(&rt, "two texts");
    assert!(rt; read == texts);
}

#[test]
fn lists_are_counted_past_a_block(rt: HostRuntime) {
    let alloc = rt.alloc();
    let mut order = Endianness::LittleEndian;
    let texts = vec![in alloc; "a text"; 5_000].expect(&rt, "a list");
    let size = texts.bytes_needed(&mut order).expect(&rt, "a size");
    assert_same(&rt, size, 4 + 5_000 * (4 + 6));
    let address = IpAddr::V4(Ipv4Addr::new(10, 0, 0, 1));
    let addresses = vec![in alloc; address; 5_000].expect(&rt, "a list");
    let size = addresses.bytes_needed(&mut order).expect(&rt, "a size");
    assert_same(&rt, size, 4 + 5_000 * 5);
    let numbers = vec![in alloc; VarInt64::from(300_u64); 5_000].expect(&rt, "a list");
    let size = numbers.bytes_needed(&mut order).expect(&rt, "a size");
    assert_same(&rt, size, 4 + 5_000 * 2);
}

/// Two characters, of which the first is none and the second lacks two bytes.
const NO_CHARACTERS: [u8; 6] = [0, 0xD8, 0, 0, 65, 0];

#[test]
fn an_invalid_item_of_an_array_is_refused_though_others_lack(rt: HostRuntime) {
    let alloc = rt.alloc();
    let mut reader = BufferReader::new(alloc, Endianness::LittleEndian, &NO_CHARACTERS);
    let outcome = reader.read_value::<[char; 2]>();
    assert_refused(&rt, alloc, outcome, "InvalidChar");
    let mut reader = BufferReader::new(alloc, Endianness::LittleEndian, &NO_CHARACTERS);
    let outcome = reader.read_vec_until_eof::<[char; 2]>(8);
    assert_refused(&rt, alloc, outcome, "InvalidChar");
}

#[test]
fn arrays_in_a_list_lie_one_after_another(rt: HostRuntime) {
    let arrays = [[1_u16, 2], [3, 4]];
    let list = arrays.as_slice();
    let written = list.write_to_vec_with_ctx(rt.alloc(), Endianness::BigEndian);
    assert_ok_items(&rt, written, &[0, 0, 0, 2, 0, 1, 0, 2, 0, 3, 0, 4]);
}

/// Two pairs of numbers in the big order, behind their count, and a byte more.
const PAIRS: [u8; 13] = [0, 0, 0, 2, 0, 1, 0, 2, 0, 3, 0, 4, 5];

#[test]
fn arrays_in_a_list_are_read_one_after_another(rt: HostRuntime) {
    let order = Endianness::BigEndian;
    let mut reader = BufferReader::new(rt.alloc(), order, &PAIRS);
    let pairs: Vec<[u16; 2]> = reader.read_value().expect(&rt, "a list");
    assert!(rt; pairs.as_slice() == [[1_u16, 2], [3, 4]].as_slice());
    let mut reader = BufferReader::new(rt.alloc(), order, &PAIRS);
    let fours: Vec<[u8; 4]> = reader.read_value().expect(&rt, "a list");
    assert!(rt; fours.as_slice() == [[0_u8, 1, 0, 2], [0, 3, 0, 4]].as_slice());
}

#[test]
fn arrays_in_a_list_are_streamed_one_after_another(rt: HostRuntime) {
    let mut source = PAIRS.as_slice();
    let reader = StreamReader::new(rt.alloc(), Endianness::BigEndian, &mut source, false);
    let mut reader = reader.expect(&rt, "a reader");
    let pairs: Vec<[u16; 2]> = reader.read_value().expect(&rt, "a list");
    assert!(rt; pairs.as_slice() == [[1_u16, 2], [3, 4]].as_slice());
}

#[test]
fn slices_and_borrowed_texts_are_written_after_their_counts(rt: HostRuntime) {
    let order = Endianness::BigEndian;
    let items = [10_u8, 11];
    let written = items.as_slice().write_to_vec_with_ctx(rt.alloc(), order);
    assert_ok_items(&rt, written, &[0, 0, 0, 2, 10, 11]);
    let written = "Hi".write_to_vec_with_ctx(rt.alloc(), order);
    assert_ok_items(&rt, written, &[0, 0, 0, 2, 72, 105]);
}

#[test]
fn vectors_of_numbers_lie_behind_their_count(rt: HostRuntime) {
    let alloc = rt.alloc();
    let rows: [(Vec<u32>, &[u8], &[u8]); 2] = [
        row!(
            make_vec(&rt, alloc, &[10, 11]),
            [2, 0, 0, 0, 10, 0, 0, 0, 11, 0, 0, 0],
            [0, 0, 0, 2, 0, 0, 0, 10, 0, 0, 0, 11],
        ),
        row!(
            make_vec(&rt, alloc, &[0x0102_0304]),
            [1, 0, 0, 0, 4, 3, 2, 1],
            [0, 0, 0, 1, 1, 2, 3, 4],
        ),
    ];
    assert_encoding(&rt, alloc, 4, &rows);
}

/// So many numbers, each with other digits, and their bytes in the order, behind their count.
fn make_wide(rt: &impl Abort, alloc: Global, order: Endianness, count: u8) -> (Vec<u128>, Vec<u8>) {
    let mut numbers = Vec::new(alloc);
    let mut turned_count = u32::from(count);
    order.swap_u32(&mut turned_count);
    let mut bytes = make_vec(rt, alloc, &turned_count.to_le_bytes());
    let mut next = 0x0102_0304_0506_0708_090a_0b0c_0d0e_0f10_u128;
    for _ in 0..count {
        numbers.push(next).expect(rt, "room");
        let mut turned = next;
        order.swap_u128(&mut turned);
        bytes
            .extend_from_slice(&turned.to_le_bytes())
            .expect(rt, "room");
        next = next.wrapping_mul(31);
    }
    (numbers, bytes)
}

/// Asserts that `count` numbers are written to a vector and to a sink as one by one.
fn assert_wide_written(rt: &impl Abort, alloc: Global, order: Endianness, count: u8) {
    let (numbers, bytes) = make_wide(rt, alloc, order, count);
    let written = numbers.write_to_vec_with_ctx(alloc, order);
    assert_ok_items(rt, written, bytes.as_slice());
    let mut sink = VecSink::new(alloc);
    let outcome = numbers.write_to_stream_with_ctx(alloc, order, &mut sink);
    assert_ok(rt, outcome, ());
    assert_bytes(rt, sink.into_bytes().as_slice(), bytes.as_slice());
}

/// Asserts that `count` numbers are read of a buffer, lent or copied, and of a source with and without reading ahead.
fn assert_wide_read(rt: &impl Abort, alloc: Global, order: Endianness, count: u8) {
    let (numbers, bytes) = make_wide(rt, alloc, order, count);
    let mut reader = BufferReader::new(alloc, order, &bytes);
    let read: Vec<u128> = reader.read_value().expect(rt, "a vector");
    assert!(rt; read == numbers);
    let mut held = order;
    let mut reader = CopyingBufferReader::new(alloc, &mut held, &bytes);
    let read: Vec<u128> = reader.read_value().expect(rt, "a vector");
    assert!(rt; read == numbers);
    for is_buffering in [false, true] {
        let mut source = bytes.as_slice();
        let reader = StreamReader::new(alloc, order, &mut source, is_buffering);
        let mut reader = reader.expect(rt, "a reader");
        let read: Vec<u128> = reader.read_value().expect(rt, "a vector");
        assert!(rt; read == numbers);
    }
}

#[test]
fn vectors_of_wide_numbers_are_those_written_one_by_one(rt: HostRuntime) {
    for order in [Endianness::LittleEndian, Endianness::BigEndian] {
        for count in [63, 64, 65] {
            assert_wide_written(&rt, rt.alloc(), order, count);
            assert_wide_read(&rt, rt.alloc(), order, count);
        }
    }
}
