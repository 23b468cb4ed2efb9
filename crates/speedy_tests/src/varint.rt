//! Integers of variable length: how they are encoded, and signed numbers that become them.
use crate::asserting::{assert_bytes, assert_ok, assert_refused, assert_same};
use speedy::endianness::Endianness;
use speedy::private::VarInt64;
use speedy::writable::BufferCollector;
use speedy::writer::Writer;
use std::process::Abort;

/// Numbers, each with what is written of it.
const WRITTEN: [(u64, &[u8]); 18] = [
    (0, &[0x00]),
    (0x7f, &[0x7f]),
    (0x80, &[0x80, 0x80]),
    (0x3fff, &[0xbf, 0xff]),
    (0x4000, &[0xc0, 0x00, 0x40]),
    (0x1f_ffff, &[0xdf, 0xff, 0xff]),
    (0x20_0000, &[0xe0, 0x00, 0x00, 0x20]),
    (0xfff_ffff, &[0xef, 0xff, 0xff, 0xff]),
    (0x1000_0000, &[0xf0, 0x00, 0x00, 0x00, 0x10]),
    (0x7_ffff_ffff, &[0xf7, 0xff, 0xff, 0xff, 0xff]),
    (0x8_0000_0000, &[0xf8, 0, 0, 0, 0, 8]),
    (0x3ff_ffff_ffff, &[0xfb, 0xff, 0xff, 0xff, 0xff, 0xff]),
    (0x400_0000_0000, &[0xfc, 0, 0, 0, 0, 0, 4]),
    (
        0x1_ffff_ffff_ffff,
        &[0xfd, 0xff, 0xff, 0xff, 0xff, 0xff, 0xff],
    ),
    (0x2_0000_0000_0000, &[0xfe, 0, 0, 0, 0, 0, 0, 2]),
    (
        0xff_ffff_ffff_ffff,
        &[0xfe, 0xff, 0xff, 0xff, 0xff, 0xff, 0xff, 0xff],
    ),
    (0x100_0000_0000_0000, &[0xff, 0, 0, 0, 0, 0, 0, 0, 1]),
    (
        u64::MAX,
        &[0xff, 0xff, 0xff, 0xff, 0xff, 0xff, 0xff, 0xff, 0xff],
    ),
];

/// Asserts that the number is written as these bytes.
fn assert_written_as(rt: &impl Abort, number: u64, encoding: &[u8]) {
    let (bytes, count) = VarInt64::from(number).encode();
    assert_bytes(rt, &bytes[..count], encoding);
}

/// Asserts that the bytes are as many as the first one says, that they encode the number, and whether they are what is
/// written of it.
fn assert_encodes(rt: &impl Abort, bytes: &[u8], number: u64, is_written: bool) {
    let (first, rest) = bytes.split_first().expect(rt, "a first byte");
    let more = VarInt64::length_of(*first);
    assert!(rt; rest.len() == more, "at {bytes:?}");
    let decoded = VarInt64::decode(*first, rest);
    assert_same(rt, u64::from(decoded), number);
    assert_same(rt, decoded.is_written_with(more), is_written);
}

/// Asserts that each number becomes its bytes, and these become the number again.
fn assert_become_each_other(rt: &impl Abort, rows: &[(u64, &[u8])]) {
    for (number, encoding) in rows {
        assert_written_as(rt, *number, encoding);
        assert_encodes(rt, encoding, *number, true);
    }
}

#[test]
fn numbers_become_bytes_and_come_back(rt: HostRuntime) {
    assert_become_each_other(&rt, &WRITTEN);
}

#[test]
fn small_signed_numbers_take_turns(rt: HostRuntime) {
    assert_same(&rt, u64::from(VarInt64::from(0_i8)), 0);
    assert_same(&rt, u64::from(VarInt64::from(-1_i8)), 1);
    assert_same(&rt, u64::from(VarInt64::from(1_i32)), 2);
    assert_same(&rt, u64::from(VarInt64::from(-33_i64)), 65);
    assert_same(&rt, i64::from(VarInt64::from(-33_i64)), -33);
    assert_same(&rt, u64::from(VarInt64::from(-300_i16)), 599);
    assert_same(&rt, i64::from(VarInt64::from(-300_i16)), -300);
}

#[test]
fn large_signed_numbers_take_turns(rt: HostRuntime) {
    assert_same(&rt, i64::from(VarInt64::from(i32::MIN)), i32::MIN as i64);
    assert_same(&rt, u64::from(VarInt64::from(i64::MIN)), u64::MAX);
    assert_same(&rt, i64::from(VarInt64::from(i64::MIN)), i64::MIN);
    assert_same(&rt, u64::from(VarInt64::from(i64::MAX)), u64::MAX - 1);
    assert_same(&rt, i64::from(VarInt64::from(i64::MAX)), i64::MAX);
}

#[test]
fn unsigned_numbers_stay_as_they_are(rt: HostRuntime) {
    assert_same(&rt, u64::from(VarInt64::from(200_u8)), 200);
    assert_same(&rt, u64::from(VarInt64::from(60000_u16)), 60000);
    assert_same(&rt, u64::from(VarInt64::from(u32::MAX)), u32::MAX as u64);
    assert!(rt; VarInt64::from(3_u8) < VarInt64::from(4_u64));
}

#[test]
fn a_writer_takes_integers_of_variable_length(rt: HostRuntime) {
    let mut context = Endianness::BigEndian;
    let mut buffer = [9; 4];
    let mut writer = BufferCollector::new(&mut context, &mut buffer);
    assert_ok(&rt, writer.write_u64_varint(599), ());
    let outcome = writer.write_u64_varint(0x4000);
    assert_refused(&rt, rt.alloc(), outcome, "UnexpectedEndOfOutputBuffer");
    assert_ok(&rt, writer.write_u64_varint(7), ());
    assert_same(&rt, writer.finish(), 3);
    assert_bytes(&rt, &buffer, &[0x82, 0x57, 7, 9]);
}
