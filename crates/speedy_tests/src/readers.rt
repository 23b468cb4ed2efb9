//! Readers over a buffer: each of their calls once, and their errors.
use crate::asserting::{assert_bytes, assert_ok, assert_ok_items, assert_refused, assert_same};
use speedy::context::{BigEndian, LittleEndian};
use speedy::endianness::Endianness;
use speedy::error::Error;
use speedy::private::vec_to_string;
use speedy::readable::{BufferReader, ReadFrom, ReadMany, Readable, ReadableOwned};
use speedy::reader::{LendingReader, Reader};
use std::alloc::Global;
use std::process::Abort;
use std::time::Duration;

/// What the tests of one reader read, one helper after another.
const BYTES: [u8; 25] = [
    1, 2, 0, 3, 0, 0, 0, 4, 5, 6, 7, 8, 1, 0, 2, 0, 3, 0, 72, 105, 0, 9, 10, 11, 0,
];

/// Asserts that a peeked byte is read next, and then the numbers 2 and 3.
fn assert_numbers<'a>(rt: &impl Abort, reader: &mut impl Reader<'a, Endianness>) {
    assert_ok(rt, reader.peek_u8(), 1);
    assert_ok(rt, reader.read_u8(), 1);
    assert_ok(rt, reader.read_u16(), 2);
    assert_ok(rt, reader.read_u32(), 3);
}

/// Asserts that peeked bytes are read next, that one is skipped, and then the number 0x0807.
fn assert_pairs<'a>(rt: &impl Abort, reader: &mut impl Reader<'a, Endianness>) {
    let mut pair = [0; 2];
    assert_ok(rt, reader.peek_bytes(&mut pair), ());
    assert_bytes(rt, &pair, &[4, 5]);
    let mut pair = [0; 2];
    assert_ok(rt, reader.read_bytes(&mut pair), ());
    assert_bytes(rt, &pair, &[4, 5]);
    assert_ok(rt, reader.skip_bytes(1), ());
    assert_ok(rt, reader.read_value::<u16>(), 0x0807);
}

/// Asserts that the numbers 1, 2 and 3 are read as items, and then a text.
fn assert_items<'a>(rt: &impl Abort, reader: &mut impl Reader<'a, Endianness>) {
    assert_ok_items(rt, reader.read_vec(2), &[1_u16, 2]);
    assert_ok_items(rt, ReadMany::read_many(reader, 1), &[3_u16]);
    let text = reader.read_string(2).expect(rt, "a text");
    assert_same(rt, text.as_str(), "Hi");
}

/// Asserts that what is left is read in the other order.
fn assert_other_order<'a>(rt: &impl Abort, reader: &mut impl Reader<'a, Endianness>) {
    *reader.context_mut() = Endianness::BigEndian;
    assert_same(rt, *reader.context(), Endianness::BigEndian);
    assert_ok(rt, reader.read_u16(), 9);
    assert_ok(rt, reader.read_value(), 0x0a0b_u16);
    assert_ok(rt, reader.read_u8(), 0);
}

/// Asserts that the bytes are read in turn.
fn assert_turns<'a>(rt: &impl Abort, reader: &mut impl Reader<'a, Endianness>) {
    assert_numbers(rt, reader);
    assert_pairs(rt, reader);
    assert_items(rt, reader);
    assert_other_order(rt, reader);
}

#[test]
fn a_reader_takes_its_bytes_in_turn(rt: HostRuntime) {
    let mut reader = BufferReader::new(rt.alloc(), Endianness::LittleEndian, &BYTES);
    assert_turns(&rt, &mut reader);
    assert!(rt; reader.is_empty());
}

#[test]
fn a_reader_says_what_remains(rt: HostRuntime) {
    let reader = BufferReader::new(rt.alloc(), Endianness::LittleEndian, &BYTES);
    assert_same(&rt, reader.len(), 25);
    assert!(rt; !reader.is_empty());
    assert_same(&rt, reader.endianness(), Endianness::LittleEndian);
    assert!(rt; !reader.demands_written_form());
    assert_same(&rt, reader.can_read_at_least(25), Some(true));
    assert_same(&rt, reader.can_read_at_least(26), Some(false));
}

#[test]
fn a_reader_has_memory_for_values(rt: HostRuntime) {
    let reader = BufferReader::new(rt.alloc(), Endianness::LittleEndian, &[]);
    let least = <u16 as ReadFrom<&[u8], Endianness>>::minimum_bytes_needed();
    let items = vec![in reader.alloc(); least].expect(&rt, "a vector");
    assert_same(&rt, items.as_slice(), &[2]);
}

/// Asserts that three bytes of two are refused in each way, and that none is taken.
fn assert_nothing_taken(rt: &impl Abort, alloc: Global, reader: &mut BufferReader<'_, BigEndian>) {
    let mut output = [0; 3];
    let end = "UnexpectedEndOfInput";
    assert_refused(rt, alloc, reader.read_bytes(&mut output), end);
    assert_refused(rt, alloc, reader.peek_bytes(&mut output), end);
    assert_refused(rt, alloc, reader.skip_bytes(3), end);
    assert_same(rt, reader.len(), 2);
}

#[test]
fn a_refused_read_takes_nothing(rt: HostRuntime) {
    let mut reader = BufferReader::new(rt.alloc(), BigEndian {}, &[1, 2]);
    assert_nothing_taken(&rt, rt.alloc(), &mut reader);
    assert_nothing_taken(&rt, rt.alloc(), &mut reader);
    assert_ok(&rt, reader.read_u16(), 0x0102);
}

#[test]
fn a_buffer_below_the_least_size_is_refused(rt: HostRuntime) {
    let alloc = rt.alloc();
    let (outcome, count) = <u16 as Readable<LittleEndian>>::read_with_length_from_buffer(
        alloc,
        &[1],
    );
    let kind = "InputBufferIsTooSmall { actual_size: 1, expected_size: 2 }";
    assert_refused(&rt, alloc, outcome, kind);
    assert_same(&rt, count, 0);
}

/// The count beside an error is what was taken before it: of a `Duration` nothing, which is one read of 12 bytes.
#[test]
fn a_count_beside_an_error_is_of_the_bytes_before_it(rt: HostRuntime) {
    let alloc = rt.alloc();
    let context = LittleEndian {};
    let cut = [1, 2, 0, 0, 0, 0, 0, 0, 0, 3, 0];
    let end = "UnexpectedEndOfInput";
    let (outcome, count) = Option::<Duration>::read_with_length_from_buffer_with_ctx(
        alloc, context, &cut,
    );
    assert_refused(&rt, alloc, outcome, end);
    assert_same(&rt, count, 1);
    let (outcome, count) = Option::<Duration>::read_with_length_from_buffer_copying_data_with_ctx(
        alloc, context, &cut,
    );
    assert_refused(&rt, alloc, outcome, end);
    assert_same(&rt, count, 1);
    let (outcome, count) = Option::<Duration>::read_owned_with_length_with_ctx(
        alloc, context, &cut,
    );
    assert_refused(&rt, alloc, outcome, end);
    assert_same(&rt, count, 1);
}

#[test]
fn bytes_become_a_text(rt: HostRuntime) {
    let bytes = vec![in rt.alloc(); 72, 105].expect(&rt, "a vector");
    let outcome: Result<String, Error> = vec_to_string(bytes);
    assert_same(&rt, outcome.expect(&rt, "a text").as_str(), "Hi");
}
