//! Floats lie as their bits, in either order, and what was read is written again bit for bit.
use crate::asserting::{assert_encoding, assert_ok_items, assert_same, make_vec, row};
use speedy::context::LittleEndian;
use speedy::endianness::Endianness;
use speedy::floats::{F32, F64};
use speedy::readable::BufferReader;
use speedy::reader::LendingReader;
use speedy::views::SliceView;
use speedy::writable::Writable;
use std::alloc::Global;
use std::hash::{BuildHasher, RandomState};
use std::process::Abort;

/// A NaN that signals, with a sign and a payload of its own.
const SIGNALLING_32: u32 = 0xff80_0001;

const SIGNALLING_64: u64 = 0xfff0_0000_0000_0001;

#[test]
fn floats_of_four_bytes_lie_as_their_bits(rt: HostRuntime) {
    let rows: [(F32, &[u8], &[u8]); 7] = [
        row!(F32::from(8388610.0), [2, 0, 0, 75], [75, 0, 0, 2]),
        row!(F32::from(3.1415), [86, 14, 73, 64], [64, 73, 14, 86]),
        row!(F32::from(-0.0), [0, 0, 0, 128], [128, 0, 0, 0]),
        row!(F32::from(f32::INFINITY), [0, 0, 128, 127], [127, 128, 0, 0]),
        row!(
            F32::from(f32::NEG_INFINITY),
            [0, 0, 128, 255],
            [255, 128, 0, 0]
        ),
        row!(F32::from(f32::NAN), [0, 0, 192, 127], [127, 192, 0, 0]),
        row!(
            F32::from_bits(SIGNALLING_32),
            [1, 0, 128, 255],
            [255, 128, 0, 1]
        ),
    ];
    assert_encoding(&rt, rt.alloc(), 4, &rows);
}

#[test]
fn floats_of_eight_bytes_lie_as_their_bits(rt: HostRuntime) {
    let rows: [(F64, &[u8], &[u8]); 5] = [
        row!(
            F64::from(8388610.0),
            [0, 0, 0, 64, 0, 0, 96, 65],
            [65, 96, 0, 0, 64, 0, 0, 0]
        ),
        row!(
            F64::from(3.1415),
            [111, 18, 131, 192, 202, 33, 9, 64],
            [64, 9, 33, 202, 192, 131, 18, 111]
        ),
        row!(
            F64::from(-0.0),
            [0, 0, 0, 0, 0, 0, 0, 128],
            [128, 0, 0, 0, 0, 0, 0, 0]
        ),
        row!(
            F64::from(f64::NAN),
            [0, 0, 0, 0, 0, 0, 248, 127],
            [127, 248, 0, 0, 0, 0, 0, 0]
        ),
        row!(
            F64::from_bits(SIGNALLING_64),
            [1, 0, 0, 0, 0, 0, 240, 255],
            [255, 240, 0, 0, 0, 0, 0, 1]
        ),
    ];
    assert_encoding(&rt, rt.alloc(), 8, &rows);
}

#[test]
fn a_float_is_told_where_it_is_no_nan(rt: HostRuntime) {
    assert_same(&rt, F32::from(-2.5).get(), Some(-2.5));
    assert_same(&rt, F64::from(-2.5).get(), Some(-2.5));
    assert_same(&rt, F32::default().get(), Some(0.0));
    assert_same(&rt, F64::default().get(), Some(0.0));
    assert_same(&rt, F32::from_bits(SIGNALLING_32).get(), None);
    assert_same(&rt, F64::from_bits(SIGNALLING_64).get(), None);
    assert_same(&rt, F32::from_bits(SIGNALLING_32).bits(), SIGNALLING_32);
    assert_same(&rt, F64::from_bits(SIGNALLING_64).bits(), SIGNALLING_64);
}

#[test]
fn floats_are_equal_where_their_bits_are(rt: HostRuntime) {
    let zero = F32::from(0.0);
    let nan = F64::from_bits(SIGNALLING_64);
    assert!(rt; zero != F32::from(-0.0), "a zero has a sign");
    assert!(rt; nan == nan.clone().expect(&rt, "a copy"), "a NaN is itself");
    let hasher = RandomState::new(&rt).expect(&rt, "a state");
    assert_same(
        &rt,
        hasher.hash_one(&zero),
        hasher.hash_one(&F32::from_bits(0)),
    );
    assert_same(&rt, hasher.hash_one(&nan), hasher.hash_one(&nan));
}

#[test]
fn floats_are_printed_as_floats(rt: HostRuntime) {
    let alloc = rt.alloc();
    let nan = F32::from_bits(SIGNALLING_32);
    let printed = format!(in alloc; "{:?} {nan:?}", F32::from(3.1415)).expect(&rt, "a text");
    assert_same(&rt, printed.as_str(), "3.1415 NaN(ff800001)");
    let nan = F64::from_bits(SIGNALLING_64);
    let printed = format!(in alloc; "{:?} {nan:?}", F64::from(-2.0)).expect(&rt, "a text");
    assert_same(&rt, printed.as_str(), "-2.0 NaN(fff0000000000001)");
}

#[test]
fn lists_of_floats_go_in_bulk(rt: HostRuntime) {
    let alloc = rt.alloc();
    let floats = [F32::from(1.5), F32::from_bits(SIGNALLING_32)];
    let floats = make_vec(&rt, alloc, &floats);
    let bytes = [2, 0, 0, 0, 0, 0, 192, 63, 1, 0, 128, 255];
    let written = floats.write_to_vec_with_ctx(alloc, Endianness::LittleEndian);
    assert_ok_items(&rt, written, &bytes);
    let mut reader = BufferReader::new(alloc, Endianness::LittleEndian, &bytes);
    assert_ok_items(&rt, reader.read_value(), floats.as_slice());
}

#[test]
fn arrays_of_floats_go_in_bulk(rt: HostRuntime) {
    let alloc = rt.alloc();
    let pair = [F64::from(1.5), F64::from(-0.0)];
    let bytes = [63, 248, 0, 0, 0, 0, 0, 0, 128, 0, 0, 0, 0, 0, 0, 0];
    let written = pair.write_to_vec_with_ctx(alloc, Endianness::BigEndian);
    assert_ok_items(&rt, written, &bytes);
    let mut reader = BufferReader::new(alloc, Endianness::BigEndian, &bytes);
    let read: [F64; 2] = reader.read_value().expect(&rt, "a pair");
    assert_same(&rt, read, pair);
}

/// Asserts that a view of 1.5 and of the NaN is read of the bytes, and is written in the big order.
fn assert_view_read(rt: &impl Abort, alloc: Global, bytes: &[u8]) {
    let mut reader = BufferReader::new(alloc, LittleEndian {}, bytes);
    let view: SliceView<F32> = reader.read_value().expect(rt, "a view");
    assert_same(rt, view.get(0), Some(F32::from(1.5)));
    assert_same(rt, view.get(1), Some(F32::from_bits(SIGNALLING_32)));
    let written = view.write_to_vec_with_ctx(alloc, Endianness::BigEndian);
    assert_ok_items(rt, written, &[0, 0, 0, 2, 63, 192, 0, 0, 255, 128, 0, 1]);
}

#[test]
fn floats_are_shown_where_they_lie(rt: HostRuntime) {
    let bytes = [2, 0, 0, 0, 0, 0, 192, 63, 1, 0, 128, 255];
    assert_view_read(&rt, rt.alloc(), &bytes);
}
