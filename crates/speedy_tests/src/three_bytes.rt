//! Numbers of three bytes lie as those of std do, by themselves and in lists, arrays and views.
use crate::asserting::{assert_encoding, assert_ok_items, assert_same, make_vec, row};
use speedy::U24;
use speedy::context::LittleEndian;
use speedy::endianness::Endianness;
use speedy::one_order::Big;
use speedy::readable::BufferReader;
use speedy::reader::LendingReader;
use speedy::views::SliceView;
use speedy::writable::Writable;
use std::alloc::Global;
use std::process::Abort;

/// A number of three bytes.
fn number(rt: &impl Abort, number: u32) -> U24 {
    U24::new(number).expect(rt, "a number below 2^24")
}

#[test]
fn a_number_of_three_bytes_lies_in_both_orders(rt: HostRuntime) {
    let rows: [(U24, &[u8], &[u8]); 4] = [
        row!(number(&rt, 0x01_0203), [3, 2, 1], [1, 2, 3]),
        row!(U24::from(258_u16), [2, 1, 0], [0, 1, 2]),
        row!(U24::MAX, [255, 255, 255], [255, 255, 255]),
        row!(U24::default(), [0, 0, 0], [0, 0, 0]),
    ];
    assert_encoding(&rt, rt.alloc(), 3, &rows);
}

#[test]
fn a_number_of_three_bytes_is_below_its_bound(rt: HostRuntime) {
    assert_same(&rt, U24::new(0xff_ffff), Some(U24::MAX));
    assert_same(&rt, U24::new(0x100_0000), None);
    assert_same(&rt, U24::MAX.get(), 16_777_215);
    assert_same(&rt, u32::from(U24::from(7_u8)), 7);
    assert!(rt;
        U24::from(255_u8) < U24::from(256_u16),
        "the greater number is greater"
    );
}

#[test]
fn a_number_of_three_bytes_is_printed(rt: HostRuntime) {
    let printed = format!(in rt.alloc(); "{:?}", U24::MAX).expect(&rt, "a text");
    assert_same(&rt, printed.as_str(), "16777215");
}

#[test]
fn lists_of_three_bytes_go_in_bulk(rt: HostRuntime) {
    let alloc = rt.alloc();
    let numbers = make_vec(&rt, alloc, &[number(&rt, 0x01_0203), U24::from(4_u8)]);
    let bytes = [0, 0, 0, 2, 1, 2, 3, 0, 0, 4];
    let written = numbers.write_to_vec_with_ctx(alloc, Endianness::BigEndian);
    assert_ok_items(&rt, written, &bytes);
    let mut reader = BufferReader::new(alloc, Endianness::BigEndian, &bytes);
    assert_ok_items(&rt, reader.read_value(), numbers.as_slice());
}

#[test]
fn arrays_of_three_bytes_go_in_bulk(rt: HostRuntime) {
    let alloc = rt.alloc();
    let pair = [Big(number(&rt, 0x01_0203)), Big(U24::from(4_u8))];
    let bytes = [1, 2, 3, 0, 0, 4];
    let written = pair.write_to_vec_with_ctx(alloc, Endianness::LittleEndian);
    assert_ok_items(&rt, written, &bytes);
    let mut reader = BufferReader::new(alloc, Endianness::LittleEndian, &bytes);
    let read: [Big<U24>; 2] = reader.read_value().expect(&rt, "a pair");
    assert_same(&rt, read, pair);
}

/// Asserts that a view of the bytes shows 197,121 and 4.
fn assert_view_read(rt: &impl Abort, alloc: Global, bytes: &[u8]) {
    let mut reader = BufferReader::new(alloc, LittleEndian {}, bytes);
    let view: SliceView<U24> = reader.read_value().expect(rt, "a view");
    assert_same(rt, view.get(0), U24::new(0x03_0201));
    assert_same(rt, view.get(1), Some(U24::from(4_u8)));
}

#[test]
fn views_show_three_bytes(rt: HostRuntime) {
    assert_view_read(&rt, rt.alloc(), &[2, 0, 0, 0, 1, 2, 3, 4, 0, 0]);
}
