//! What is lent: borrowed values and cows, and readers that copy.
use crate::asserting::{assert_bytes, assert_ok, assert_refused, assert_same};
use speedy::context::LittleEndian;
use speedy::endianness::Endianness;
use speedy::error::Error;
use speedy::lent::read_lent;
use speedy::private::cow_bytes_to_cow_str;
use speedy::readable::{BufferReader, CopyingBufferReader, Readable, ReadableOwned};
use speedy::reader::{LendingReader, Reader};
use std::alloc::Global;
use std::borrow::{CowSlice, CowStr};
use std::process::Abort;

/// The text "Hi" with its count.
const HI: [u8; 6] = [2, 0, 0, 0, 72, 105];

#[test]
fn a_text_is_not_borrowed_where_nothing_is_lent(rt: HostRuntime) {
    let alloc = rt.alloc();
    let outcome = <&str as Readable<LittleEndian>>::read_from_buffer_copying_data(alloc, &HI);
    assert_refused(&rt, alloc, outcome, "Unsized");
}

#[test]
fn an_option_without_a_text_is_read_where_nothing_is_lent(rt: HostRuntime) {
    let alloc = rt.alloc();
    for (bytes, is_read) in [(&[0][..], true), (&[1, 2, 0, 0, 0, 72, 105], false)] {
        let outcome = <Option<&str> as Readable<LittleEndian>>::read_from_buffer_copying_data(
            alloc, bytes,
        );
        match is_read {
            true => assert_ok(&rt, outcome, None),
            false => assert_refused(&rt, alloc, outcome, "Unsized"),
        }
    }
}

#[test]
fn an_array_is_not_borrowed_where_nothing_is_lent(rt: HostRuntime) {
    let alloc = rt.alloc();
    let mut context = LittleEndian {};
    let mut reader = CopyingBufferReader::new(alloc, &mut context, &[1, 2, 3, 4]);
    let outcome: Result<&[u8; 4], Error> = reader.read_value();
    assert_refused(&rt, alloc, outcome, "Unsized");
    assert_same(&rt, reader.finish(), 4);
}

#[test]
fn bytes_are_lent_or_refused(rt: HostRuntime) {
    let alloc = rt.alloc();
    let mut reader = BufferReader::new(alloc, LittleEndian {}, &HI);
    assert_bytes(
        &rt,
        read_lent(&mut reader, 5).expect(&rt, "bytes"),
        &HI[..5],
    );
    assert_refused(
        &rt,
        alloc,
        read_lent(&mut reader, 2),
        "UnexpectedEndOfInput",
    );
    assert_same(&rt, reader.len(), 1);
    let mut context = LittleEndian {};
    let mut copying = CopyingBufferReader::new(alloc, &mut context, &HI);
    assert_refused(&rt, alloc, read_lent(&mut copying, 0), "Unsized");
    assert_same(&rt, copying.finish(), 6);
}

/// Asserts that it borrows the bytes or not.
fn assert_borrows(rt: &impl Abort, cow: CowSlice<'_, u8>, bytes: &[u8], borrows: bool) {
    assert_bytes(rt, cow.as_slice(), bytes);
    assert_same(rt, matches!(cow, CowSlice::Borrowed(_)), borrows);
}

#[test]
fn cows_borrow_bytes_where_they_are_lent(rt: HostRuntime) {
    let mut reader = BufferReader::new(rt.alloc(), LittleEndian {}, &HI);
    let cow = reader.read_value().expect(&rt, "a cow");
    assert_borrows(&rt, cow, &[72, 105], true);
}

#[test]
fn cows_own_bytes_where_they_are_copied(rt: HostRuntime) {
    let mut context = LittleEndian {};
    let mut reader = CopyingBufferReader::new(rt.alloc(), &mut context, &HI);
    let cow = reader.read_value().expect(&rt, "a cow");
    assert_borrows(&rt, cow, &[72, 105], false);
}

/// Asserts that the reader has these two numbers, and a byte after them.
fn assert_cow_of_numbers<'a>(
    rt: &impl Abort,
    reader: &mut impl Reader<'a, Endianness>,
    numbers: &[u16],
) {
    let cow: CowSlice<'a, u16> = reader.read_cow(2).expect(rt, "two numbers");
    assert_same(rt, cow.as_slice(), numbers);
    assert_ok(rt, reader.read_u8(), 9);
}

#[test]
fn cows_of_numbers_follow_the_order(rt: HostRuntime) {
    let alloc = rt.alloc();
    let bytes = [1, 2, 3, 4, 9];
    let mut reader = BufferReader::new(alloc, Endianness::LittleEndian, &bytes);
    assert_cow_of_numbers(&rt, &mut reader, &[0x0201, 0x0403]);
    let mut order = Endianness::BigEndian;
    let mut reader = CopyingBufferReader::new(alloc, &mut order, &bytes);
    assert_cow_of_numbers(&rt, &mut reader, &[0x0102, 0x0304]);
}

/// Asserts that it is "Hi", and borrows it or not.
fn assert_hi(rt: &impl Abort, outcome: Result<CowStr<'_>, Error>, borrows: bool) {
    let cow = outcome.expect(rt, "a cow");
    assert_same(rt, cow.as_str(), "Hi");
    assert_same(rt, matches!(cow, CowStr::Borrowed(_)), borrows);
}

#[test]
fn cows_of_texts(rt: HostRuntime) {
    let alloc = rt.alloc();
    let mut reader = BufferReader::new(alloc, LittleEndian {}, &HI);
    assert_hi(&rt, reader.read_value(), true);
    let mut context = LittleEndian {};
    let mut reader = CopyingBufferReader::new(alloc, &mut context, &HI);
    assert_hi(&rt, reader.read_value(), false);
}

#[test]
fn a_cow_that_is_no_text_is_refused(rt: HostRuntime) {
    let outcome: Result<CowStr, Error> = cow_bytes_to_cow_str(CowSlice::Borrowed(&[255]));
    assert_refused(&rt, rt.alloc(), outcome, "InvalidUtf8");
}

/// Asserts that the reader lends all that is left, and then nothing.
fn assert_lends_the_rest(rt: &impl Abort, reader: &mut BufferReader<'_, Endianness>) {
    let rest = reader
        .read_bytes_borrowed_until_eof()
        .expect(rt, "all bytes");
    assert_bytes(rt, rest, &[3, 4]);
    assert_same(rt, reader.len(), 0);
}

#[test]
fn a_buffer_lends_its_bytes(rt: HostRuntime) {
    let alloc = rt.alloc();
    let mut reader = BufferReader::new(alloc, Endianness::BigEndian, &[0, 1, 2, 3, 4]);
    let lent = reader.read_bytes_borrowed(2).expect(&rt, "it lends");
    assert_bytes(&rt, lent.expect(&rt, "two bytes"), &[0, 1]);
    let lent = reader.read_bytes_borrowed(4).expect(&rt, "it lends");
    assert_refused(&rt, alloc, lent, "UnexpectedEndOfInput");
    let lent = reader
        .read_bytes_borrowed_from_reader(1)
        .expect(&rt, "it lends");
    assert_bytes(&rt, lent.expect(&rt, "a byte"), &[2]);
    assert_lends_the_rest(&rt, &mut reader);
}

#[test]
fn a_copying_reader_lends_until_its_next_use(rt: HostRuntime) {
    let mut order = Endianness::BigEndian;
    let mut reader = CopyingBufferReader::new(rt.alloc(), &mut order, &[0, 1, 2, 3, 4]);
    let lent = reader
        .read_bytes_borrowed_from_reader(1)
        .expect(&rt, "it lends");
    assert_bytes(&rt, lent.expect(&rt, "a byte"), &[0]);
    let lent = reader
        .read_bytes_borrowed_from_reader(5)
        .expect(&rt, "it lends");
    assert!(rt; lent.is_err());
    assert_ok(&rt, reader.read_u16(), 0x0102);
    assert_same(&rt, reader.finish(), 2);
}

#[test]
fn a_copying_reader_lends_nothing_for_longer(rt: HostRuntime) {
    let mut order = Endianness::BigEndian;
    let mut reader = CopyingBufferReader::new(rt.alloc(), &mut order, &[0, 1, 2, 3, 4]);
    assert!(rt; reader.read_bytes_borrowed(2).is_none());
    assert!(rt; reader.read_bytes_borrowed_until_eof().is_none());
    assert_same(&rt, reader.finish(), 5);
}

/// Asserts that the value is read of any buffer, of `count` bytes at the front.
fn assert_read_owned<T: ReadableOwned<LittleEndian> + PartialEq>(
    rt: &impl Abort,
    alloc: Global,
    value: &T,
    bytes: &[u8],
    count: usize,
) {
    let read = T::read_owned(alloc, bytes).expect(rt, "a value");
    assert!(rt; read == *value);
    let (outcome, length) = T::read_owned_with_length_with_ctx(alloc, LittleEndian {}, bytes);
    assert!(rt; outcome.expect(rt, "a value") == *value);
    assert_same(rt, length, count);
}

#[test]
fn owned_values_are_read_from_any_buffer(rt: HostRuntime) {
    assert_read_owned::<u16>(&rt, rt.alloc(), &0x0201, &[1, 2, 3], 2);
}

#[test]
fn owned_values_are_read_from_any_reader(rt: HostRuntime) {
    let mut order = Endianness::BigEndian;
    let mut reader = CopyingBufferReader::new(rt.alloc(), &mut order, &[1, 2]);
    let number: Result<u16, Error> = reader.read_owned_value();
    assert_ok(&rt, number, 0x0102);
    assert_same(&rt, reader.finish(), 0);
    assert_same(&rt, order, Endianness::BigEndian);
}
