//! Reading from sources and files: what is answered, and what the source has left.
ghost use Rattle.speedy.specs.MemoryDevices.{bytes_source};

use crate::asserting::{
    assert_bytes, assert_end, assert_failed_call, assert_kind, assert_ok, assert_refused,
    assert_same, device_kind,
};
use crate::devices::{FakeFiles, FileCall, FileCalls, KINDS};
use crate::failing::{Failing, make_pieces};
use speedy::context::LittleEndian;
use speedy::device::Source;
use speedy::endianness::Endianness;
use speedy::error::{Error, IsEof};
use speedy::private::read_constant;
use speedy::readable::{ReadMany, Readable, StreamReader};
use speedy::reader::LendingReader;
use speedy::writable::Writable;
use std::alloc::Global;
use std::collections::BTreeSet;
use std::convert::AsSlice;
use std::fmt::Debug;
use std::process::Abort;
use std::rt::Files;
use std::time::Duration;
use std::{fs, io};

#[test]
fn an_unbuffered_form_takes_just_its_value(rt: HostRuntime) {
    let mut source: &[u8] = &[2, 0, 3, 0];
    for (number, left) in [(2, &[3, 0][..]), (3, &[])] {
        let outcome = <u16 as Readable<LittleEndian>>::read_from_stream_unbuffered(
            rt.alloc(),
            &mut source,
        );
        assert_ok(&rt, outcome, number);
        assert_bytes(&rt, source, left);
    }
}

#[test]
fn a_buffered_form_loses_what_it_read_ahead(rt: HostRuntime) {
    let alloc = rt.alloc();
    let mut source: &[u8] = &[2, 0, 3, 0];
    let outcome = <u16 as Readable<LittleEndian>>::read_from_stream_buffered(alloc, &mut source);
    assert_ok(&rt, outcome, 2);
    let outcome = <u16 as Readable<LittleEndian>>::read_from_stream_buffered(alloc, &mut source);
    assert_refused(&rt, alloc, outcome, "UnexpectedEndOfInput");
}

#[test]
fn a_buffered_reader_keeps_what_it_read_ahead(rt: HostRuntime) {
    let alloc = rt.alloc();
    let bytes = vec![in alloc; 7; 20_000].expect(&rt, "a buffer");
    let mut source: &[u8] = &bytes;
    let mut reader = make_reader(&rt, alloc, &mut source, true);
    assert_ok(&rt, reader.read_u8(), 7);
    assert_same(&rt, reader.can_read_at_least(8_191), Some(true));
    assert_same(&rt, reader.can_read_at_least(8_192), None);
    // the source knows what it has left
    assert_same(&rt, reader.expects_at_least(19_999), true);
    assert_same(&rt, reader.expects_at_least(20_000), false);
    assert_same(&rt, reader.into_source().len(), 11_808);
}

#[test]
fn a_buffered_form_reads_ahead(rt: HostRuntime) {
    let order = Endianness::BigEndian;
    let mut source: &[u8] = &[0, 2, 0, 3, 0, 4];
    let outcome = u16::read_from_stream_unbuffered_with_ctx(rt.alloc(), order, &mut source);
    assert_ok(&rt, outcome, 2);
    let outcome = u16::read_from_stream_buffered_with_ctx(rt.alloc(), order, &mut source);
    assert_ok(&rt, outcome, 3);
    assert_bytes(&rt, source, &[]);
}

#[test]
fn a_long_read_empties_the_ring_and_takes_no_more(rt: HostRuntime) {
    let alloc = rt.alloc();
    let bytes = vec![in alloc; 7; 20_000].expect(&rt, "a buffer");
    let mut output = vec![in alloc; 0; 10_000].expect(&rt, "an output");
    let mut source: &[u8] = &bytes;
    let mut reader = make_reader(&rt, alloc, &mut source, true);
    assert_ok(&rt, reader.read_u8(), 7);
    assert_ok(&rt, reader.read_bytes(output.as_mut_slice()), ());
    assert_same(&rt, reader.can_read_at_least(1), None);
    assert_same(&rt, reader.into_source().len(), 9_999);
    assert_bytes(&rt, output.as_slice(), &bytes[..10_000]);
}

#[test]
fn what_borrows_is_refused_by_a_stream(rt: HostRuntime) {
    let alloc = rt.alloc();
    let mut source: &[u8] = &[2, 0, 0, 0, 72, 105];
    let outcome = <&str as Readable<LittleEndian>>::read_from_stream_unbuffered(alloc, &mut source);
    assert_refused(&rt, alloc, outcome, "Unsized");
    assert_bytes(&rt, source, b"Hi");
}

/// A reader of the source.
fn make_reader<'s, S: Source>(
    rt: &impl Abort,
    alloc: Global,
    source: &'s mut S,
    is_buffering: bool,
) -> StreamReader<'s, S, LittleEndian> {
    StreamReader::new(alloc, LittleEndian {}, source, is_buffering).expect(rt, "a reader")
}

/// Asserts that a vector of 10,000 bytes is read of a source that gives `most` a pull, and that no more than the 9
/// bytes after it are left, and all of these where nothing is read ahead.
fn assert_long_vector(rt: &impl Abort, alloc: Global, most: usize, is_buffering: bool) {
    let mut bytes = vec![in alloc; 7; 10_013].expect(rt, "a buffer");
    bytes[..4].copy_from_slice(&[0x10, 0x27, 0, 0]);
    let mut source = make_pieces(&bytes, most);
    let mut reader = make_reader(rt, alloc, &mut source, is_buffering);
    let read: Vec<u8> = reader.read_value().expect(rt, "a vector");
    assert_bytes(rt, read.as_slice(), &bytes[4..10_004]);
    let left = reader.into_source().inner.len();
    assert!(rt;
        left == 9 || is_buffering && left < 9,
        "{left} bytes are left"
    );
}

#[test]
fn a_long_vector_is_read_in_whatever_pieces_it_comes(rt: HostRuntime) {
    for is_buffering in [false, true] {
        assert_long_vector(&rt, rt.alloc(), usize::MAX, is_buffering);
        assert_long_vector(&rt, rt.alloc(), 1, is_buffering);
    }
}

#[test]
fn an_option_is_read_a_byte_a_pull(rt: HostRuntime) {
    for is_buffering in [false, true] {
        let mut source = make_pieces(&[7, 5, 0], 1);
        let mut reader = make_reader(&rt, rt.alloc(), &mut source, is_buffering);
        assert_ok(&rt, reader.read_value(), Some(5_u16));
        assert_same(&rt, reader.into_source().calls(), 3);
    }
}

/// Asserts that a vector of 513 numbers is read of a source that gives `most` bytes a pull, and answers how many pulls
/// there were.
fn count_pulls(rt: &impl Abort, alloc: Global, most: usize, is_buffering: bool) -> usize {
    let mut bytes = vec![in alloc; 7; 1_039].expect(rt, "a buffer");
    bytes[..4].copy_from_slice(&[1, 2, 0, 0]);
    let numbers = vec![in alloc; 0x0707_u16; 513].expect(rt, "a vector");
    let mut source = make_pieces(&bytes, most);
    let mut reader = make_reader(rt, alloc, &mut source, is_buffering);
    let read: Vec<u16> = reader.read_value().expect(rt, "a vector");
    assert!(rt; read == numbers);
    reader.into_source().calls()
}

#[test]
fn a_list_of_numbers_is_pulled_by_stretches(rt: HostRuntime) {
    assert_same(&rt, count_pulls(&rt, rt.alloc(), usize::MAX, false), 2);
    assert_same(&rt, count_pulls(&rt, rt.alloc(), usize::MAX, true), 1);
    for most in [1, 2, 3, 7] {
        count_pulls(&rt, rt.alloc(), most, false);
        count_pulls(&rt, rt.alloc(), most, true);
    }
}

/// Bytes in memory as a source, which may say how many are left. It keeps how many the last pull asked for.
#[derive(Drop)]
struct Asked<'a> {
    bytes: &'a [u8],
    says: bool,
    asked: usize,
}

impl<'a> Source for Asked<'a> {
    ghost source = { λ s. bytes_source s.bytes.now };

    fn pull(&mut self, output: &mut [u8]) -> Result<usize, io::Error> {
        self.asked = output.len();
        self.bytes.pull(output)
    }

    fn can_pull_at_least(&self, size: usize) -> bool {
        self.says && self.bytes.can_pull_at_least(size)
    }
}

#[test]
fn bytes_in_memory_are_lent_where_they_are_there(rt: HostRuntime) {
    let mut source: &[u8] = &[1, 2, 3];
    assert_bytes(&rt, source.pull_lent(2).expect(&rt, "two bytes"), &[1, 2]);
    assert!(&rt; source.pull_lent(2).is_none());
    assert_bytes(&rt, source, &[3]);
}

/// Asserts how many bytes a new buffered reader asks a source of so many for, where it says how many it has or not.
fn assert_asked(rt: &impl Abort, alloc: Global, count: usize, says: bool, asked: usize) {
    let bytes = vec![in alloc; 7; count].expect(rt, "a buffer");
    let mut source = Asked {
        bytes: &bytes,
        says,
        asked: 0,
    };
    let mut reader = make_reader(rt, alloc, &mut source, true);
    assert_ok(rt, reader.read_u8(), 7);
    assert_same(rt, reader.into_source().asked, asked);
}

#[test]
fn a_source_that_says_how_little_it_has_is_asked_for_little(rt: HostRuntime) {
    for (count, asked) in [(3, 256), (257, 1_024), (1_025, 4_096), (4_097, 8_192)] {
        assert_asked(&rt, rt.alloc(), count, true, asked);
        assert_asked(&rt, rt.alloc(), count, false, 8_192);
    }
}

/// Asserts that vectors of wide numbers and of bytes are refused, as the bytes end.
fn assert_ends(rt: &impl Abort, alloc: Global, bytes: &[u8], is_buffering: bool) {
    let mut source = bytes;
    let mut reader = make_reader(rt, alloc, &mut source, is_buffering);
    assert_end(rt, reader.read_value::<Vec<u128>>());
    let mut source = bytes;
    let mut reader = make_reader(rt, alloc, &mut source, is_buffering);
    assert_end(rt, reader.read_value::<Vec<u8>>());
}

#[test]
fn a_hostile_count_ends_where_the_bytes_do(rt: HostRuntime) {
    // 3,000 items, and a part of one.
    let bytes = vec![in rt.alloc(); 255; 48_009].expect(&rt, "a buffer");
    for is_buffering in [false, true] {
        assert_ends(&rt, rt.alloc(), &bytes[..4], is_buffering);
        assert_ends(&rt, rt.alloc(), &bytes, is_buffering);
    }
}

/// Reads no bytes in each way, and values that have none.
fn read_nothing<L: AsSlice<u8> + Drop, R: LendingReader<L, LittleEndian>>(
    rt: &impl Abort,
    reader: &mut R,
) {
    assert_ok(rt, reader.read_bytes(&mut []), ());
    assert_ok(rt, reader.skip_bytes(0), ());
    assert_ok(rt, read_constant(reader, b""), ());
    assert_ok(rt, reader.read_vec::<u8>(0).map(|items| items.len()), 0);
    assert_ok(rt, reader.read_vec::<u16>(0).map(|items| items.len()), 0);
    assert_ok(rt, reader.read_value(), ());
    assert_ok(rt, reader.read_value::<[u16; 0]>(), []);
    assert_ok(rt, reader.read_value::<((), [u16; 0])>(), ((), []));
}

#[test]
fn no_bytes_are_read_without_a_pull(rt: HostRuntime) {
    for is_buffering in [false, true] {
        let mut source = make_pieces(&[7, 8, 9], 2);
        let mut reader = make_reader(&rt, rt.alloc(), &mut source, is_buffering);
        read_nothing(&rt, &mut reader);
        assert_same(&rt, reader.into_source().calls(), 0);
        let mut reader = make_reader(&rt, rt.alloc(), &mut source, is_buffering);
        assert_ok(&rt, reader.read_u8(), 7);
        read_nothing(&rt, &mut reader);
        assert_ok(&rt, reader.read_u8(), 8);
        let calls = if is_buffering { 1 } else { 2 };
        assert_same(&rt, reader.into_source().calls(), calls);
        assert_bytes(&rt, source.inner, &[9]);
    }
}

/// Asserts that a value that has no bytes is read by both stream forms without a pull.
fn assert_not_pulled<'a, T: ReadMany<&'a [u8], LittleEndian> + PartialEq + Debug>(
    rt: &impl Abort,
    alloc: Global,
    value: &T,
) {
    let mut source = make_pieces(&[7], 1);
    let read = T::read_from_stream_unbuffered(alloc, &mut source).expect(rt, "a value");
    assert_same(rt, &read, value);
    let read = T::read_from_stream_buffered(alloc, &mut source).expect(rt, "a value");
    assert_same(rt, &read, value);
    assert_same(rt, source.calls(), 0);
    assert_bytes(rt, source.inner, &[7]);
}

#[test]
fn values_without_bytes_are_streamed_without_a_pull(rt: HostRuntime) {
    let alloc = rt.alloc();
    assert_not_pulled(&rt, alloc, &());
    assert_not_pulled::<[u16; 0]>(&rt, alloc, &[]);
    assert_not_pulled::<((), [u16; 0])>(&rt, alloc, &((), []));
}

/// Asserts that the value is read from these bytes of an unbuffered source by one pull.
fn assert_pulled_once<'a, T: ReadMany<&'a [u8], LittleEndian> + PartialEq + Debug>(
    rt: &impl Abort,
    alloc: Global,
    bytes: &[u8],
    value: &T,
) {
    let mut source = make_pieces(bytes, usize::MAX);
    let read = T::read_from_stream_unbuffered(alloc, &mut source).expect(rt, "a value");
    assert_same(rt, &read, value);
    assert_same(rt, source.calls(), 1);
}

#[test]
fn a_duration_is_one_pull(rt: HostRuntime) {
    let bytes = [3, 0, 0, 0, 0, 0, 0, 0, 0, 0, 0, 0];
    assert_pulled_once(&rt, rt.alloc(), &bytes, &Duration::from_secs(3));
}

/// Asserts that a read of `count` bytes is refused as an end of the input, where the source lacks one of them: with the
/// kind of a device's error, or as `UnexpectedEndOfInput` where there is none.
fn assert_ends_early(
    rt: &impl Abort,
    alloc: Global,
    is_buffering: bool,
    count: usize,
    kind: Option<io::ErrorKind>,
) {
    let mut output = vec![in alloc; 0; count].expect(rt, "an output");
    let bytes = vec![in alloc; 7; count.saturating_sub(1)].expect(rt, "a buffer");
    let mut source: &[u8] = &bytes;
    let mut reader = make_reader(rt, alloc, &mut source, is_buffering);
    let outcome = reader.read_bytes(output.as_mut_slice());
    let error = outcome.err().expect(rt, "a byte is missing");
    assert_same(rt, device_kind(&error), kind);
    assert_same(rt, error.is_eof(), true);
    if kind.is_none() {
        assert_kind(rt, alloc, &error, "UnexpectedEndOfInput");
    }
}

#[test]
fn a_long_read_that_ends_early_is_refused_by_the_way_it_takes(rt: HostRuntime) {
    let past_the_ring = Some(io::ErrorKind::UnexpectedEof);
    for (is_buffering, count, kind) in [
        (true, 1, None),
        (true, 5_000, None),
        (true, 8_191, None),
        (true, 8_192, past_the_ring),
        (true, 10_000, past_the_ring),
        (false, 1, past_the_ring),
        (false, 5_000, past_the_ring),
    ] {
        assert_ends_early(&rt, rt.alloc(), is_buffering, count, kind);
    }
}

/// Asserts that a list of `count` numbers of 2 bytes, of which the last byte lacks, is refused by a buffered reader as
/// an end of the input: with the kind of a device's error, or as `UnexpectedEndOfInput` where there is none.
fn assert_list_ends_early(rt: &impl Abort, alloc: Global, count: u16, kind: Option<io::ErrorKind>) {
    let numbers = vec![in alloc; 7_u16; usize::from(count)].expect(rt, "a vector");
    let mut bytes = numbers
        .write_to_vec_with_ctx(alloc, LittleEndian {})
        .expect(rt, "its bytes");
    bytes.pop();
    let mut source = make_pieces(&bytes, usize::MAX);
    let mut reader = make_reader(rt, alloc, &mut source, true);
    let outcome = reader.read_value::<Vec<u16>>();
    let error = outcome.err().expect(rt, "a byte is missing");
    assert_same(rt, device_kind(&error), kind);
    assert_same(rt, error.is_eof(), true);
}

#[test]
fn a_long_list_that_ends_early_is_refused_by_its_last_read(rt: HostRuntime) {
    let past_the_ring = Some(io::ErrorKind::UnexpectedEof);
    for (count, kind) in [
        (4_095, None),
        (4_096, past_the_ring),
        (4_097, None),
        (8_191, None),
        (8_192, past_the_ring),
    ] {
        assert_list_ends_early(&rt, rt.alloc(), count, kind);
    }
}

/// Asserts that a buffered reader of bytes in memory, which lend what it does not hold, reads a list of `count` numbers
/// of 2 bytes and the byte behind it.
fn assert_list_is_lent(rt: &impl Abort, alloc: Global, count: u16) {
    let numbers: Vec<u16> = (0..count).collect(alloc).expect(rt, "numbers");
    let mut bytes = numbers
        .write_to_vec_with_ctx(alloc, LittleEndian {})
        .expect(rt, "their bytes");
    bytes.push(7).expect(rt, "a byte more");
    let mut source: &[u8] = &bytes;
    let mut reader = make_reader(rt, alloc, &mut source, true);
    assert_ok(rt, reader.read_value::<Vec<u16>>(), numbers);
    assert_ok(rt, reader.read_u8(), 7);
    assert_end(rt, reader.read_u8());
}

#[test]
fn a_long_list_is_read_past_the_ring_from_bytes_in_memory(rt: HostRuntime) {
    for count in [4_093, 4_094, 4_095, 8_189, 8_190, 8_191, 20_000] {
        assert_list_is_lent(&rt, rt.alloc(), count);
    }
}

/// Asserts that the items of a collection, of which the last byte lacks, end as items that are read one by one: as
/// `UnexpectedEndOfInput`, however many they are.
fn assert_collection_ends_early(rt: &impl Abort, alloc: Global, count: u16) {
    let numbers: Vec<u16> = (0..count).collect(alloc).expect(rt, "numbers");
    let mut bytes = numbers
        .write_to_vec_with_ctx(alloc, LittleEndian {})
        .expect(rt, "their bytes");
    bytes.pop();
    let mut source = make_pieces(&bytes, usize::MAX);
    let mut reader = make_reader(rt, alloc, &mut source, true);
    let outcome = reader.read_value::<BTreeSet<u16>>();
    let error = outcome.err().expect(rt, "a byte is missing");
    assert_kind(rt, alloc, &error, "UnexpectedEndOfInput");
    let mut source = make_pieces(&bytes, usize::MAX);
    let mut reader = make_reader(rt, alloc, &mut source, true);
    let size = bytes.len();
    let outcome = reader.read_collection::<Vec<u8>, u8>(size + 1);
    let error = outcome.err().expect(rt, "there are fewer bytes");
    assert_kind(rt, alloc, &error, "UnexpectedEndOfInput");
}

#[test]
fn a_collection_of_numbers_ends_early_as_one_item_does(rt: HostRuntime) {
    for count in [1, 1_024, 4_096, 8_192, 16_384] {
        assert_collection_ends_early(&rt, rt.alloc(), count);
    }
}

/// Ways to read or to see the next three bytes.
#[derive(Clone, Copy, Debug)]
enum Way {
    Read,
    Peek,
    Skip,
    Bytes,
    Option,
    Text,
    Varint,
    PeekedVarint,
    Set,
}

const WAYS: [Way; 9] = [
    Way::Read,
    Way::Peek,
    Way::Skip,
    Way::Bytes,
    Way::Option,
    Way::Text,
    Way::Varint,
    Way::PeekedVarint,
    Way::Set,
];

/// Three bytes and one behind them: a variable integer of three bytes, an option of a number, or three items.
const THREE: [u8; 4] = [0xC0, 0x02, 0x01, 9];

/// The error of reading the three bytes in this way.
fn error_of<L: AsSlice<u8> + Drop, R: LendingReader<L, LittleEndian>>(
    reader: &mut R,
    way: Way,
) -> Option<Error> {
    match way {
        Way::Read => reader.read_bytes(&mut [0; 3]).err(),
        Way::Peek => reader.peek_bytes(&mut [0; 3]).err(),
        Way::Skip => reader.skip_bytes(3).err(),
        Way::Bytes => reader.read_vec::<u8>(3).err(),
        Way::Option => reader.read_owned_value::<Option<u16>>().err(),
        Way::Text => reader.read_string(3).err(),
        Way::Varint => reader.read_u64_varint().err(),
        Way::PeekedVarint => reader.peek_u64_varint().err(),
        Way::Set => reader.read_collection::<BTreeSet<u8>, u8>(3).err(),
    }
}

/// Asserts that reading the three bytes in this way answers the error of a failed pull, which is no end.
fn assert_failed_pull<L: AsSlice<u8> + Drop, R: LendingReader<L, LittleEndian>>(
    rt: &impl Abort,
    reader: &mut R,
    way: Way,
    kind: io::ErrorKind,
) {
    let error = error_of(reader, way).expect(rt, "a pull failed");
    assert_same(rt, device_kind(&error), Some(kind));
    assert_same(rt, error.is_eof(), false);
}

/// Asserts that where a pull fails, whichever of the three it is, its error is what the reading answers, and no pull
/// comes after it.
fn assert_cut_off(
    rt: &impl Abort,
    alloc: Global,
    way: Way,
    is_buffering: bool,
    kind: io::ErrorKind,
) {
    for pulls in 1..4 {
        let mut source = Failing::new(&THREE[..], 1, pulls, kind);
        let mut reader = make_reader(rt, alloc, &mut source, is_buffering);
        assert_failed_pull(rt, &mut reader, way, kind);
        let calls = reader.into_source().calls();
        assert!(rt; calls == pulls, "{way:?} after {pulls} pulls");
    }
}

#[test]
fn a_failed_pull_is_answered_by_each_way_and_not_tried_again(rt: HostRuntime) {
    for way in WAYS {
        for kind in KINDS {
            assert_cut_off(&rt, rt.alloc(), way, false, kind);
            assert_cut_off(&rt, rt.alloc(), way, true, kind);
        }
    }
}

/// The number at the beginning of a file.
fn read_number<R: Files>(files: &R, alloc: Global, path: &str) -> Result<u16, Error> {
    <u16 as Readable<LittleEndian>>::read_from_file(files, alloc, path)
}

#[test]
fn a_file_that_is_not_there_is_an_io_error(rt: HostRuntime) {
    let outcome = read_number(&rt, rt.alloc(), "no/such/file");
    assert_failed_call(&rt, outcome, io::ErrorKind::NotFound);
}

#[test]
fn a_file_is_read_as_a_stream(rt: HostRuntime) {
    let alloc = rt.alloc();
    let path = "a_file_of_three_bytes";
    assert!(rt; fs::write(&rt, path, &[1_u8, 7, 5]).is_ok());
    assert_ok(&rt, read_number(&rt, alloc, path), 0x0701);
    assert!(rt; fs::write(&rt, path, &[1_u8]).is_ok());
    assert_refused(
        &rt,
        alloc,
        read_number(&rt, alloc, path),
        "UnexpectedEndOfInput",
    );
    assert!(rt; fs::remove_file(&rt, path).is_ok());
}

#[test]
fn a_file_is_read_by_the_buffered_form(rt: HostRuntime) {
    let calls = FileCalls::none();
    let files = FakeFiles {
        fails: None,
        calls: &calls,
    };
    let outcome = read_number(&files, rt.alloc(), "any");
    assert_refused(&rt, rt.alloc(), outcome, "UnexpectedEndOfInput");
    assert_same(&rt, (calls.reads.get(), calls.room.get()), (1, 8_192));
}

#[test]
fn a_failed_read_of_a_file_is_answered_and_not_tried_again(rt: HostRuntime) {
    let kind = io::ErrorKind::Interrupted;
    for (call, reads) in [(FileCall::Read, 1), (FileCall::Open, 0)] {
        let calls = FileCalls::none();
        let files = FakeFiles {
            fails: Some((call, kind)),
            calls: &calls,
        };
        assert_failed_call(&rt, read_number(&files, rt.alloc(), "any"), kind);
        assert_same(&rt, calls.reads.get(), reads);
    }
}
