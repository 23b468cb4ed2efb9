//! Tuples lie part by part. The bytes come from outside.
use crate::asserting::assert_ok_items;
use speedy::endianness::Endianness;
use speedy::writable::Writable;

/// Bytes that count up from 0.
const COUNTED: [u8; 60] = [
    0, 1, 2, 3, 4, 5, 6, 7, 8, 9, 10, 11, 12, 13, 14, 15, 16, 17, 18, 19, 20, 21, 22, 23, 24, 25,
    26, 27, 28, 29, 30, 31, 32, 33, 34, 35, 36, 37, 38, 39, 40, 41, 42, 43, 44, 45, 46, 47, 48, 49,
    50, 51, 52, 53, 54, 55, 56, 57, 58, 59,
];

// A tuple of each size from 4 on, whose parts are counted from 0.
#[test]
fn long_tuples_lie_part_by_part(rt: HostRuntime) {
    let four = (0_u8, 1_u8, 2_u8, 3_u8);
    let five = (4_u8, 5_u8, 6_u8, 7_u8, 8_u8);
    let six = (9_u8, 10_u8, 11_u8, 12_u8, 13_u8, 14_u8);
    let seven = (15_u8, 16_u8, 17_u8, 18_u8, 19_u8, 20_u8, 21_u8);
    let eight = (22_u8, 23_u8, 24_u8, 25_u8, 26_u8, 27_u8, 28_u8, 29_u8);
    let nine = (
        30_u8, 31_u8, 32_u8, 33_u8, 34_u8, 35_u8, 36_u8, 37_u8, 38_u8,
    );
    let ten = (
        39_u8, 40_u8, 41_u8, 42_u8, 43_u8, 44_u8, 45_u8, 46_u8, 47_u8, 48_u8,
    );
    let eleven = (
        49_u8, 50_u8, 51_u8, 52_u8, 53_u8, 54_u8, 55_u8, 56_u8, 57_u8, 58_u8, 59_u8,
    );
    let all = (four, five, six, seven, eight, nine, ten, eleven);
    let written = all.write_to_vec_with_ctx(rt.alloc(), Endianness::BigEndian);
    assert_ok_items(&rt, written, &COUNTED);
}
