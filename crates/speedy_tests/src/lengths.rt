//! Lists of a length that a number before them tells: bytes that come from outside.
ghost use Rattle.std.specs.Prelude.{codes, ◌*◌, ◌<◌, ◌^◌, pos, ◌≤ℤ◌, unsigned_abs};

use crate::asserting::{assert_bytes, assert_refused};
use speedy::context::BigEndian;
use speedy::endianness::Endianness;
use speedy::lengths::{Length, WithLength};
use speedy::readable::BufferReader;
use speedy::reader::LendingReader;
use speedy::writable::Writable;
use std::alloc::Global;
use std::marker::PhantomData;
use std::process::Abort;

/// The length of `items`, of which the number is a half.
struct ItemsLength {}

impl Length<u16> for ItemsLength {
    ghost is_told = { λ n. n * 2 < 2 ^ 16 };

    ghost told = { λ n. n * 2 };

    ghost field = { codes "items" };

    fn length(half: u16) -> Option<usize> {
        Some(half.checked_mul(2)? as usize)
    }

    fn field() -> &'static str {
        "items"
    }
}

type Items = WithLength<ItemsLength, u16, Vec<u16>>;

/// The number, and these items behind it.
fn items_of(rt: &impl Abort, alloc: Global, half: u16, items: &[u16]) -> Items {
    WithLength {
        before: half,
        value: Vec::from_slice(alloc, items).expect(rt, "a list"),
        length: PhantomData,
    }
}

/// Asserts that the bytes are a 1 and two items, a 7 and a 9.
fn assert_two_items(rt: &impl Abort, alloc: Global, order: Endianness, bytes: &[u8]) {
    let mut reader = BufferReader::new(alloc, order, bytes);
    let read: Items = reader.read_value().expect(rt, "items");
    assert!(rt; read.before == 1);
    assert!(rt; read.value.as_slice() == [7, 9].as_slice());
    let written = read.write_to_vec_with_ctx(alloc, order).expect(rt, "bytes");
    assert_bytes(rt, written.as_slice(), bytes);
}

#[test]
fn a_number_tells_how_many_items_follow(rt: HostRuntime) {
    let alloc = rt.alloc();
    assert_two_items(&rt, alloc, Endianness::LittleEndian, &[1, 0, 7, 0, 9, 0]);
    assert_two_items(&rt, alloc, Endianness::BigEndian, &[0, 1, 0, 7, 0, 9]);
}

#[test]
fn another_length_is_refused(rt: HostRuntime) {
    let alloc = rt.alloc();
    let longer = items_of(&rt, alloc, 1, &[7, 9, 11]);
    let outcome = longer.write_to_vec_with_ctx(alloc, BigEndian {});
    assert_refused(
        &rt,
        alloc,
        outcome,
        "LengthIsNotTheSameAsLengthAttribute { field_name: \"items\" }",
    );
    let untold = items_of(&rt, alloc, 0x8000, &[]);
    let outcome = untold.write_to_vec_with_ctx(alloc, BigEndian {});
    assert_refused(&rt, alloc, outcome, "OutOfRangeLength");
    let mut reader = BufferReader::new(alloc, BigEndian {}, &[0x80, 0]);
    let outcome = reader.read_value::<Items>();
    assert_refused(&rt, alloc, outcome, "OutOfRangeLength");
}

/// The length of a text, which a signed number is.
struct TextLength {}

impl Length<i16> for TextLength {
    ghost is_told = { λ n. pos 0 ≤ℤ n };

    ghost told = { λ n. unsigned_abs n };

    ghost field = { codes "text" };

    fn length(count: i16) -> Option<usize> {
        usize::try_from(count).ok()
    }

    fn field() -> &'static str {
        "text"
    }
}

type Text<'a> = WithLength<TextLength, i16, &'a str>;

#[test]
fn a_signed_number_tells_a_length_unless_it_is_below_zero(rt: HostRuntime) {
    let alloc = rt.alloc();
    let mut reader = BufferReader::new(alloc, BigEndian {}, &[0, 2, b'h', b'i']);
    let read: Text = reader.read_value().expect(&rt, "a text");
    assert!(rt; read.before == 2);
    assert!(rt; read.value == "hi");
    let mut reader = BufferReader::new(alloc, BigEndian {}, &[0xff, 0xfe, b'h', b'i']);
    let outcome = reader.read_value::<Text>();
    assert_refused(&rt, alloc, outcome, "OutOfRangeLength");
    let below: Text = WithLength {
        before: -2,
        value: "hi",
        length: PhantomData,
    };
    let outcome = below.write_to_vec_with_ctx(alloc, BigEndian {});
    assert_refused(&rt, alloc, outcome, "OutOfRangeLength");
}
