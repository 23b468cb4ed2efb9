//! Byte orders: what contexts ask for, the digits of numbers, and numbers swapped in place.
use crate::asserting::assert_same;
use speedy::context::{
    BigEndian, Context, LittleEndian, PlainContext, StrictBigEndian, StrictLittleEndian,
};
use speedy::endianness::Endianness;
use std::alloc::Global;
use std::fmt::Debug;
use std::process::Abort;

const LITTLE: Endianness = Endianness::LittleEndian;

const BIG: Endianness = Endianness::BigEndian;

const EIGHT: u64 = 0x0102_0304_0506_0708;

const SIXTEEN: u128 = 0x0102_0304_0506_0708_090a_0b0c_0d0e_0f10;

/// Asserts the order of the context, and whether it reads only canonical encodings.
fn assert_context<C: Context>(rt: &impl Abort, context: C, order: Endianness, demands: bool) {
    assert_same(rt, context.endianness(), order);
    assert_same(rt, context.demands_written_form(), demands);
}

#[test]
fn contexts_have_their_orders_and_demands(rt: HostRuntime) {
    assert_same(&rt, Endianness::NATIVE, LITTLE);
    assert_context(&rt, LITTLE, LITTLE, false);
    assert_context(&rt, BIG, BIG, false);
    assert_context(&rt, LittleEndian {}, LITTLE, false);
    assert_context(&rt, BigEndian {}, BIG, false);
    assert_context(&rt, LittleEndian::plain(), LITTLE, false);
    assert_context(&rt, StrictLittleEndian {}, LITTLE, true);
    assert_context(&rt, StrictBigEndian {}, BIG, true);
}

/// Asserts that the context is the default of its type, that a copy of it is the same, and what is printed of it.
fn assert_derived<C: Copy + Debug + Default + PartialEq>(
    rt: &impl Abort,
    alloc: Global,
    context: C,
    name: &str,
) {
    let copy = context;
    assert_same(rt, copy, context);
    assert_same(rt, context.clone().expect(rt, "a clone"), C::default());
    let printed = format!(in alloc; "{context:?}").expect(rt, "its name");
    assert_same(rt, printed.as_str(), name);
}

#[test]
fn contexts_are_copied_and_printed(rt: HostRuntime) {
    let alloc = rt.alloc();
    assert_derived(&rt, alloc, StrictLittleEndian {}, "StrictLittleEndian");
    assert_derived(&rt, alloc, StrictBigEndian {}, "StrictBigEndian");
}

#[test]
fn the_big_order_has_to_be_converted(rt: HostRuntime) {
    assert!(rt; !LITTLE.conversion_necessary());
    assert!(rt; BIG.conversion_necessary());
}

/// Asserts that the bytes are the digits of 0x0102 and of 0x01020304 in the order.
fn assert_short_digits(rt: &impl Abort, order: Endianness, two: [u8; 2], four: [u8; 4]) {
    assert_same(rt, order.read_u16(&two), 0x0102);
    assert_same(rt, order.read_u32(&four), 0x0102_0304);
}

/// Asserts that the bytes are the digits of the wide numbers in the order.
fn assert_wide_digits(rt: &impl Abort, order: Endianness, eight: [u8; 8], sixteen: [u8; 16]) {
    assert_same(rt, order.read_u64(&eight), EIGHT);
    assert_same(rt, order.read_u128(&sixteen), SIXTEEN);
}

#[test]
fn digits_lie_in_both_orders(rt: HostRuntime) {
    assert_short_digits(&rt, LITTLE, [2, 1], [4, 3, 2, 1]);
    assert_short_digits(&rt, BIG, [1, 2], [1, 2, 3, 4]);
}

#[test]
fn digits_of_wide_numbers_lie_in_both_orders(rt: HostRuntime) {
    let sixteen = [16, 15, 14, 13, 12, 11, 10, 9, 8, 7, 6, 5, 4, 3, 2, 1];
    assert_wide_digits(&rt, LITTLE, [8, 7, 6, 5, 4, 3, 2, 1], sixteen);
    let sixteen = [1, 2, 3, 4, 5, 6, 7, 8, 9, 10, 11, 12, 13, 14, 15, 16];
    assert_wide_digits(&rt, BIG, [1, 2, 3, 4, 5, 6, 7, 8], sixteen);
}

#[test]
fn short_signed_numbers_are_read_in_two_s_complement(rt: HostRuntime) {
    assert_same(&rt, LITTLE.read_i16(&[223, 255]), -33);
    assert_same(&rt, BIG.read_i16(&[255, 223]), -33);
    assert_same(&rt, LITTLE.read_i32(&[223, 255, 255, 255]), -33);
    assert_same(&rt, BIG.read_i32(&[127, 0, 0, 1]), 0x7f00_0001);
}

#[test]
fn long_signed_numbers_are_read_in_two_s_complement(rt: HostRuntime) {
    assert_same(&rt, LITTLE.read_i64(&[0, 0, 0, 0, 0, 0, 0, 128]), i64::MIN);
    assert_same(
        &rt,
        BIG.read_i64(&[255, 255, 255, 255, 255, 255, 255, 223]),
        -33,
    );
    assert_same(&rt, LITTLE.read_i128(&[255; 16]), -1);
    let bytes = [0, 0, 0, 0, 0, 0, 0, 0, 0, 0, 0, 0, 0, 0, 1, 2];
    assert_same(&rt, BIG.read_i128(&bytes), 258);
}

/// Asserts that swapping turns 0x0102 and 0x01020304 into these numbers, and swapping again turns them back.
fn assert_swapped_twice(rt: &impl Abort, order: Endianness, two: u16, four: u32) {
    let mut number: u16 = 0x0102;
    order.swap_u16(&mut number);
    assert_same(rt, number, two);
    order.swap_u16(&mut number);
    assert_same(rt, number, 0x0102);
    let mut number: u32 = 0x0102_0304;
    order.swap_u32(&mut number);
    assert_same(rt, number, four);
    order.swap_u32(&mut number);
    assert_same(rt, number, 0x0102_0304);
}

#[test]
fn short_numbers_are_swapped_under_the_big_order(rt: HostRuntime) {
    assert_swapped_twice(&rt, LITTLE, 0x0102, 0x0102_0304);
    assert_swapped_twice(&rt, BIG, 0x0201, 0x0403_0201);
}

#[test]
fn wide_numbers_are_swapped_under_the_big_order(rt: HostRuntime) {
    let mut eight = 1;
    LITTLE.swap_u64(&mut eight);
    assert_same(&rt, eight, 1);
    BIG.swap_u64(&mut eight);
    assert_same(&rt, eight, 0x0100_0000_0000_0000);
    let mut sixteen = 1;
    BIG.swap_u128(&mut sixteen);
    assert_same(&rt, sixteen, 0x0100_0000_0000_0000_0000_0000_0000_0000);
}

#[test]
fn signed_numbers_are_swapped_under_the_big_order(rt: HostRuntime) {
    let mut two = -2;
    BIG.swap_i16(&mut two);
    assert_same(&rt, two, -257);
    let mut four = 1;
    BIG.swap_i32(&mut four);
    assert_same(&rt, four, 0x0100_0000);
    let mut eight = 128;
    BIG.swap_i64(&mut eight);
    assert_same(&rt, eight, i64::MIN);
    let mut sixteen = 128;
    BIG.swap_i128(&mut sixteen);
    assert_same(&rt, sixteen, i128::MIN);
}

#[test]
fn slices_of_short_numbers_are_swapped_number_by_number(rt: HostRuntime) {
    let mut ones = [1, 2];
    BIG.swap_slice_u8(&mut ones);
    assert_same(&rt, ones, [1, 2]);
    let mut twos = [1, 0x0203];
    LITTLE.swap_slice_u16(&mut twos);
    assert_same(&rt, twos, [1, 0x0203]);
    BIG.swap_slice_u16(&mut twos);
    assert_same(&rt, twos, [0x0100, 0x0302]);
}

#[test]
fn slices_of_long_numbers_are_swapped_number_by_number(rt: HostRuntime) {
    let mut fours = [1, 2];
    BIG.swap_slice_u32(&mut fours);
    assert_same(&rt, fours, [0x0100_0000, 0x0200_0000]);
    let mut eights = [1];
    BIG.swap_slice_u64(&mut eights);
    assert_same(&rt, eights, [0x0100_0000_0000_0000]);
    let mut sixteens = [1];
    BIG.swap_slice_u128(&mut sixteens);
    assert_same(&rt, sixteens, [0x0100_0000_0000_0000_0000_0000_0000_0000]);
}

#[test]
fn slices_of_short_signed_numbers_are_swapped(rt: HostRuntime) {
    let mut ones = [1, -2];
    BIG.swap_slice_i8(&mut ones);
    assert_same(&rt, ones, [1, -2]);
    let mut twos = [-2, 1];
    BIG.swap_slice_i16(&mut twos);
    assert_same(&rt, twos, [-257, 256]);
}

#[test]
fn slices_of_long_signed_numbers_are_swapped(rt: HostRuntime) {
    let mut fours = [128];
    BIG.swap_slice_i32(&mut fours);
    assert_same(&rt, fours, [i32::MIN]);
    let mut eights = [128];
    BIG.swap_slice_i64(&mut eights);
    assert_same(&rt, eights, [i64::MIN]);
    let mut sixteens = [128];
    BIG.swap_slice_i128(&mut sixteens);
    assert_same(&rt, sixteens, [i128::MIN]);
}
