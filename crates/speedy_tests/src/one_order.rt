//! Numbers of one byte order lie so under each context, also in lists, arrays and views.
use crate::asserting::{assert_encoding, assert_ok, assert_ok_items, assert_same, make_vec, row};
use speedy::context::StrictBigEndian;
use speedy::endianness::Endianness;
use speedy::error::Error;
use speedy::floats::F32;
use speedy::one_order::{Big, Little};
use speedy::readable::BufferReader;
use speedy::reader::LendingReader;
use speedy::views::SliceView;
use speedy::writable::Writable;
use std::alloc::Global;
use std::process::Abort;

#[test]
fn a_big_number_lies_so_under_both_orders(rt: HostRuntime) {
    let rows: [(Big<u32>, &[u8], &[u8]); 3] = [
        row!(Big(0x0102_0304), [1, 2, 3, 4], [1, 2, 3, 4]),
        row!(Big(258), [0, 0, 1, 2], [0, 0, 1, 2]),
        row!(Big(u32::MAX), [255, 255, 255, 255], [255, 255, 255, 255]),
    ];
    assert_encoding(&rt, rt.alloc(), 4, &rows);
}

#[test]
fn a_little_number_lies_so_under_both_orders(rt: HostRuntime) {
    let rows: [(Little<i16>, &[u8], &[u8]); 3] = [
        row!(Little(258), [2, 1], [2, 1]),
        row!(Little(-33), [223, 255], [223, 255]),
        row!(Little(i16::MIN), [0, 128], [0, 128]),
    ];
    assert_encoding(&rt, rt.alloc(), 2, &rows);
}

#[test]
fn a_big_float_lies_so_under_both_orders(rt: HostRuntime) {
    let rows: [(Big<F32>, &[u8], &[u8]); 2] = [
        row!(Big(F32::from(3.1415)), [64, 73, 14, 86], [64, 73, 14, 86]),
        row!(
            Big(F32::from_bits(0xff80_0001)),
            [255, 128, 0, 1],
            [255, 128, 0, 1]
        ),
    ];
    assert_encoding(&rt, rt.alloc(), 4, &rows);
}

#[test]
fn lists_of_big_numbers_go_in_bulk(rt: HostRuntime) {
    let alloc = rt.alloc();
    let numbers = make_vec(&rt, alloc, &[Big(258_u16), Big(3)]);
    let bytes = [2, 0, 0, 0, 1, 2, 0, 3];
    let written = numbers.write_to_vec_with_ctx(alloc, Endianness::LittleEndian);
    assert_ok_items(&rt, written, &bytes);
    let mut reader = BufferReader::new(alloc, Endianness::LittleEndian, &bytes);
    assert_ok_items(&rt, reader.read_value(), numbers.as_slice());
}

#[test]
fn arrays_of_little_numbers_go_in_bulk(rt: HostRuntime) {
    let alloc = rt.alloc();
    let pair = [Little(258_u32), Little(3)];
    let bytes = [2, 1, 0, 0, 3, 0, 0, 0];
    let written = pair.write_to_vec_with_ctx(alloc, Endianness::BigEndian);
    assert_ok_items(&rt, written, &bytes);
    let mut reader = BufferReader::new(alloc, Endianness::BigEndian, &bytes);
    let read: [Little<u32>; 2] = reader.read_value().expect(&rt, "a pair");
    assert_same(&rt, read, pair);
}

/// Asserts that a view of 258 and 3 is read of the bytes, and is written as it lies.
fn assert_view_read(rt: &impl Abort, alloc: Global, bytes: &[u8]) {
    let mut reader = BufferReader::new(alloc, StrictBigEndian {}, bytes);
    let view: SliceView<Big<u16>> = reader.read_value().expect(rt, "a view");
    assert_same(rt, view.get(0), Some(Big(258)));
    assert_same(rt, view.get(1), Some(Big(3)));
    let written = view.write_to_vec_with_ctx(alloc, Endianness::LittleEndian);
    assert_ok_items(rt, written, &[2, 0, 0, 0, 1, 2, 0, 3]);
}

#[test]
fn views_show_big_numbers_under_each_context(rt: HostRuntime) {
    assert_view_read(&rt, rt.alloc(), &[0, 0, 0, 2, 1, 2, 0, 3]);
}

#[test]
fn a_number_keeps_its_order_among_others(rt: HostRuntime) {
    let bytes = [2, 1, 1, 2, 2, 1];
    let mut reader = BufferReader::new(rt.alloc(), Endianness::LittleEndian, &bytes);
    let read: Result<(u16, Big<u16>, Little<u16>), Error> = reader.read_value();
    assert_ok(&rt, read, (258, Big(258), Little(258)));
}

#[test]
fn numbers_of_one_order_are_compared_as_numbers(rt: HostRuntime) {
    assert!(rt;
        Big(0x0100_u16) > Big(0x00ff),
        "the greater number is greater"
    );
    assert!(rt; Little(-1_i8) < Little(0), "and so are signed ones");
    assert_same(&rt, Big::<u8>::default(), Big(0));
    assert_same(&rt, Little::<u64>::default(), Little(0));
}
