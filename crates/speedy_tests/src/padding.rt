//! Bytes that mean nothing are written as zeros, and read as padding or as zeros alone.
use crate::asserting::{assert_encoding, assert_ok, assert_ok_items, assert_refused, row};
use speedy::context::StrictLittleEndian;
use speedy::endianness::Endianness;
use speedy::error::Error;
use speedy::padding::{Padding, Zeros};
use speedy::readable::BufferReader;
use speedy::reader::LendingReader;
use speedy::writable::Writable;
use std::alloc::Global;

#[test]
fn padding_is_written_as_zeros(rt: HostRuntime) {
    let rows: [(Padding<3>, &[u8], &[u8]); 1] = [row!(Padding {}, [0, 0, 0], [0, 0, 0])];
    assert_encoding(&rt, rt.alloc(), 3, &rows);
}

#[test]
fn zeros_are_written_as_zeros(rt: HostRuntime) {
    let rows: [(Zeros<2>, &[u8], &[u8]); 1] = [row!(Zeros {}, [0, 0], [0, 0])];
    assert_encoding(&rt, rt.alloc(), 2, &rows);
}

/// Reads a byte, padding and a byte.
fn read_padded(alloc: Global, bytes: &[u8]) -> Result<(u8, Padding<3>, u8), Error> {
    BufferReader::new(alloc, Endianness::LittleEndian, bytes).read_value()
}

#[test]
fn any_bytes_are_padding(rt: HostRuntime) {
    let alloc = rt.alloc();
    let padded = (1, Padding {}, 2);
    assert_ok(&rt, read_padded(alloc, &[1, 7, 0, 255, 2]), padded);
    assert_ok_items(
        &rt,
        padded.write_to_vec_with_ctx(alloc, Endianness::BigEndian),
        &[1, 0, 0, 0, 2],
    );
    let cut = read_padded(alloc, &[1, 7, 0]);
    assert_refused(&rt, alloc, cut, "UnexpectedEndOfInput");
}

/// Reads 100 bytes of padding, in canonical encodings alone.
fn read_strictly(alloc: Global, bytes: &[u8]) -> Result<Padding<100>, Error> {
    BufferReader::new(alloc, StrictLittleEndian {}, bytes).read_value()
}

#[test]
fn a_strict_context_reads_zeros_alone_as_padding(rt: HostRuntime) {
    let alloc = rt.alloc();
    let mut bytes = [0; 100];
    assert_ok(&rt, read_strictly(alloc, &bytes), Padding {});
    assert_refused(
        &rt,
        alloc,
        read_strictly(alloc, &bytes[..99]),
        "UnexpectedEndOfInput",
    );
    bytes[99] = 1;
    assert_refused(&rt, alloc, read_strictly(alloc, &bytes), "NotWrittenForm");
}

/// Reads 70 zeros.
fn read_zeros(alloc: Global, bytes: &[u8]) -> Result<Zeros<70>, Error> {
    BufferReader::new(alloc, Endianness::BigEndian, bytes).read_value()
}

#[test]
fn other_bytes_than_zeros_are_refused(rt: HostRuntime) {
    let alloc = rt.alloc();
    let mut bytes = [0; 70];
    let zeros: Zeros<70> = Zeros {};
    assert_ok(&rt, read_zeros(alloc, &bytes), zeros);
    assert_ok_items(
        &rt,
        zeros.write_to_vec_with_ctx(alloc, Endianness::BigEndian),
        &bytes,
    );
    bytes[64] = 128;
    assert_refused(
        &rt,
        alloc,
        read_zeros(alloc, &bytes),
        "ExpectedConstant { constant: [0] }",
    );
}
