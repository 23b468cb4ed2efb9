//! Values in frames whose length a number before them tells: what fills them, and what does not. The rows of
//! `speedy_derived` have maps in frames, and what takes the rest of one.
ghost use Rattle.std.specs.Prelude.{codes};

use crate::asserting::{assert_bytes, assert_refused};
use speedy::context::BigEndian;
use speedy::error::Error;
use speedy::lengths::{Length, Other, WithFrame};
use speedy::readable::{BufferReader, OwnedReader, StreamReader};
use speedy::reader::LendingReader;
use speedy::writable::Writable;
use std::alloc::Global;
use std::marker::PhantomData;

/// The number of bytes of `inner`.
struct InnerLength {}

impl Length<(u8, ())> for InnerLength {
    ghost is_told = { λ _. Unit {0} };

    ghost told = { λ it. it.0 };

    ghost field = { codes "inner" };

    fn length((size, _): (u8, ())) -> Option<usize> {
        Some(size as usize)
    }

    fn field() -> &'static str {
        "inner"
    }
}

/// A size, a flag, and a value of that many bytes.
type InFrame<T> = WithFrame<InnerLength, (u8, Other<bool>), T>;

fn in_frame<T>(size: u8, value: T) -> InFrame<T> {
    WithFrame {
        before: (size, Other(true)),
        value,
        length: PhantomData,
    }
}

fn read_number(alloc: Global, bytes: &[u8]) -> Result<u16, Error> {
    let mut reader = BufferReader::new(alloc, BigEndian {}, bytes);
    let read: InFrame<u16> = reader.read_value()?;
    Ok(read.value)
}

#[test]
fn a_value_fills_as_many_bytes_as_a_number_tells(rt: HostRuntime) {
    let alloc = rt.alloc();
    let bytes = [2, 1, 1, 2];
    assert!(rt; read_number(alloc, &bytes).expect(&rt, "a number") == 258);
    let written = in_frame(2, 258_u16)
        .write_to_vec_with_ctx(alloc, BigEndian {})
        .expect(&rt, "bytes");
    assert_bytes(&rt, written.as_slice(), &bytes);
}

#[test]
fn bytes_left_over_or_lacking_are_out_of_range(rt: HostRuntime) {
    let alloc = rt.alloc();
    for size in [0_u8, 1, 3] {
        let bytes = [size, 1, 1, 2, 3];
        assert_refused(&rt, alloc, read_number(alloc, &bytes), "OutOfRangeLength");
    }
    for bytes in [[].as_slice(), &[2], &[2, 1], &[2, 1, 1], &[3, 1, 1, 2]] {
        assert_refused(
            &rt,
            alloc,
            read_number(alloc, bytes),
            "UnexpectedEndOfInput",
        );
    }
}

#[test]
fn another_number_of_bytes_is_refused(rt: HostRuntime) {
    let alloc = rt.alloc();
    for size in [1_u8, 3] {
        let outcome = in_frame(size, 7_u16).write_to_vec_with_ctx(alloc, BigEndian {});
        let kind = "LengthIsNotTheSameAsLengthAttribute { field_name: \"inner\" }";
        assert_refused(&rt, alloc, outcome, kind);
    }
}

#[test]
fn streams_and_owned_readers_read_the_same(rt: HostRuntime) {
    let alloc = rt.alloc();
    let bytes = [2, 1, 1, 2, 9];
    let mut source = bytes.as_slice();
    let mut reader = StreamReader::new(alloc, BigEndian {}, &mut source, false).expect(
        &rt, "a reader",
    );
    let read: InFrame<u16> = reader.read_value().expect(&rt, "a number");
    assert!(rt; read.value == 258);
    assert!(rt; reader.read_u8().expect(&rt, "a byte") == 9);
    let mut below = BufferReader::new(alloc, BigEndian {}, &bytes);
    let mut reader: OwnedReader<&[u8], BufferReader<BigEndian>> = OwnedReader::new(&mut below);
    let read: InFrame<u16> = reader.read_value().expect(&rt, "a number");
    assert!(rt; read.value == 258);
}

#[test]
fn a_frame_stands_in_another(rt: HostRuntime) {
    let alloc = rt.alloc();
    let nested = in_frame(4, in_frame(2, 258_u16));
    let written = nested
        .write_to_vec_with_ctx(alloc, BigEndian {})
        .expect(&rt, "bytes");
    assert_bytes(&rt, written.as_slice(), &[4, 1, 2, 1, 1, 2]);
}
