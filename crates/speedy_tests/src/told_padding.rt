//! Padding and zeros of a length that a number before them tells.
ghost use Rattle.std.specs.Prelude.{codes, ◌%◌};

use crate::asserting::{assert_ok, assert_ok_items, assert_refused};
use speedy::context::StrictLittleEndian;
use speedy::lengths::{Length, WithLength};
use speedy::{Context, Endianness, PaddingBytes, Readable, Writable, ZeroBytes};
use std::alloc::Global;
use std::marker::PhantomData;

/// As many bytes as the number says, without whole hundreds.
#[derive(Debug, PartialEq)]
struct GapLength {}

impl Length<u8> for GapLength {
    ghost is_told = { λ _. Unit {0} };

    ghost told = { λ n. n % 100 };

    ghost field = { codes "gap" };

    fn length(size: u8) -> Option<usize> {
        Some((size % 100) as usize)
    }

    fn field() -> &'static str {
        "gap"
    }
}

type Gap = WithLength<GapLength, u8, PaddingBytes>;

type Blank = WithLength<GapLength, u8, ZeroBytes>;

fn gap(size: u8, length: usize) -> Gap {
    WithLength {
        before: size,
        value: PaddingBytes(length),
        length: PhantomData,
    }
}

fn blank(size: u8, length: usize) -> Blank {
    WithLength {
        before: size,
        value: ZeroBytes(length),
        length: PhantomData,
    }
}

/// Reads a byte and padding after it.
fn read_gap<C: Context>(alloc: Global, context: C, bytes: &[u8]) -> Result<Gap, C::Error> {
    Gap::read_from_buffer_with_ctx(alloc, context, bytes)
}

#[test]
fn padding_has_the_length_that_is_told(rt: HostRuntime) {
    let alloc = rt.alloc();
    let read = read_gap(alloc, Endianness::LittleEndian, &[3, 7, 0, 255, 9]);
    assert_ok(&rt, read, gap(3, 3));
    let none = read_gap(alloc, Endianness::BigEndian, &[100, 9]);
    assert_ok(&rt, none, gap(100, 0));
    assert_ok_items(
        &rt,
        gap(103, 3).write_to_vec_with_ctx(alloc, Endianness::LittleEndian),
        &[103, 0, 0, 0],
    );
    let cut = read_gap(alloc, Endianness::LittleEndian, &[3, 7, 0]);
    assert_refused(&rt, alloc, cut, "UnexpectedEndOfInput");
}

#[test]
fn a_strict_context_reads_zeros_alone_as_told_padding(rt: HostRuntime) {
    let alloc = rt.alloc();
    let zeros = read_gap(alloc, StrictLittleEndian {}, &[2, 0, 0]);
    assert_ok(&rt, zeros, gap(2, 2));
    let others = read_gap(alloc, StrictLittleEndian {}, &[2, 0, 1]);
    assert_refused(&rt, alloc, others, "NotWrittenForm");
}

#[test]
fn told_zeros_are_zeros(rt: HostRuntime) {
    let alloc = rt.alloc();
    let mut long = [0_u8; 100];
    long[0] = 99;
    let read = Blank::read_from_buffer_with_ctx(alloc, Endianness::BigEndian, &long);
    assert_ok(&rt, read, blank(99, 99));
    assert_ok_items(
        &rt,
        blank(99, 99).write_to_vec_with_ctx(alloc, Endianness::LittleEndian),
        &long,
    );
    long[99] = 1;
    let others = Blank::read_from_buffer_with_ctx(alloc, Endianness::BigEndian, &long);
    assert_refused(&rt, alloc, others, "ExpectedConstant { constant: [0] }");
}

#[test]
fn padding_of_another_length_is_refused(rt: HostRuntime) {
    let alloc = rt.alloc();
    let other = "LengthIsNotTheSameAsLengthAttribute { field_name: \"gap\" }";
    let short = gap(3, 2).write_to_vec_with_ctx(alloc, Endianness::LittleEndian);
    assert_refused(&rt, alloc, short, other);
    let long = blank(103, 103).write_to_vec_with_ctx(alloc, Endianness::BigEndian);
    assert_refused(&rt, alloc, long, other);
}
