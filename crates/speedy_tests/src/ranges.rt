//! Ranges lie as their ends. One that is read can be walked: it has all of its numbers, both ends included.
use crate::asserting::assert_same;
use speedy::endianness::Endianness;
use speedy::error::Error;
use speedy::readable::{BufferReader, ReadFrom, Readable};
use speedy::reader::LendingReader;
use std::ops::RangeInclusive;
use std::process::Abort;

type Numbers = RangeInclusive<u16>;

/// The range from 10 to 12 in the big order.
const BYTES: [u8; 4] = [0, 10, 0, 12];

/// Asserts that the outcome is the range from 10 to 12, of which no number was taken.
fn assert_whole(rt: &impl Abort, outcome: Result<Numbers, Error>) {
    let mut range = outcome.expect(rt, "a range");
    for number in [10, 11, 12] {
        assert_same(rt, range.next(), Some(number));
    }
    assert_same(rt, range.next(), None);
}

#[test]
fn ranges_of_a_buffer_are_whole(rt: HostRuntime) {
    let order = Endianness::BigEndian;
    assert_whole(
        &rt,
        Numbers::read_from_buffer_with_ctx(rt.alloc(), order, &BYTES),
    );
}

#[test]
fn ranges_of_a_reader_are_whole(rt: HostRuntime) {
    let order = Endianness::BigEndian;
    let mut reader = BufferReader::new(rt.alloc(), order, &BYTES);
    assert_whole(&rt, reader.read_value());
    let mut reader = BufferReader::new(rt.alloc(), order, &BYTES);
    assert_whole(&rt, Numbers::read_from(&mut reader));
}
