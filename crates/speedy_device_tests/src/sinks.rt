//! Writing to sinks and to files: what is pushed, and what a failed call leaves.
ghost use Rattle.std.specs.Prelude.{[], false};

use crate::asserting::{assert_bytes, assert_failed_call, assert_ok, assert_same};
use crate::devices::{FakeFiles, FileCall, FileCalls, KINDS};
use crate::failing::Failing;
use speedy::context::LittleEndian;
use speedy::device::{Faults, Sink, VecSink};
use speedy::endianness::Endianness;
use speedy::error::Error;
use speedy::private::write_to_stream_and_flush_with_ctx;
use speedy::readable::Readable;
use speedy::writable::{Writable, WritingCollector};
use speedy::writer::Writer;
use std::alloc::Global;
use std::process::Abort;
use std::{fs, io};

/// Asserts that in the order the value is pushed as the bytes, to a sink that takes all it is given and to one that
/// takes a byte a push.
fn assert_pushed<T: Writable<Endianness>>(
    rt: &impl Abort,
    alloc: Global,
    order: Endianness,
    value: &T,
    bytes: &[u8],
) {
    let mut sink = VecSink::new(alloc);
    let outcome = value.write_to_stream_with_ctx(alloc, order, &mut sink);
    assert_ok(rt, outcome, ());
    assert_bytes(rt, sink.bytes(), bytes);
    let mut sink = Failing::new(VecSink::new(alloc), 1, 0, io::ErrorKind::Other);
    let outcome = value.write_to_stream_with_ctx(alloc, order, &mut sink);
    assert_ok(rt, outcome, ());
    assert_bytes(rt, sink.inner.bytes(), bytes);
    assert_same(rt, (sink.calls(), sink.flushes), (bytes.len(), 0));
}

/// Asserts that in the order, where one call of the flushing form fails with the kind, its error is answered, the bytes
/// before it were taken, and no call comes after it. It pushes a byte a call, and then flushes.
fn assert_cut_off<T: Writable<Endianness>>(
    rt: &impl Abort,
    alloc: Global,
    order: Endianness,
    value: &T,
    bytes: &[u8],
    kind: io::ErrorKind,
) {
    for count in 0..=bytes.len() {
        let mut sink = Failing::new(VecSink::new(alloc), 1, count + 1, kind);
        let outcome = write_to_stream_and_flush_with_ctx(value, alloc, order, &mut sink);
        assert_failed_call(rt, outcome, kind);
        assert_bytes(rt, sink.inner.bytes(), &bytes[..count]);
        let flushes = usize::from(count == bytes.len());
        assert_same(rt, (sink.calls(), sink.flushes), (count + 1, flushes));
    }
}

#[test]
fn a_vector_is_pushed_as_far_as_no_call_fails(rt: HostRuntime) {
    let alloc = rt.alloc();
    let numbers = vec![in alloc; 1_u16, 2].expect(&rt, "a vector");
    for (order, bytes) in [
        (Endianness::LittleEndian, [2, 0, 0, 0, 1, 0, 2, 0]),
        (Endianness::BigEndian, [0, 0, 0, 2, 0, 1, 0, 2]),
    ] {
        assert_pushed(&rt, alloc, order, &numbers, &bytes);
        for kind in KINDS {
            assert_cut_off(&rt, alloc, order, &numbers, &bytes, kind);
        }
    }
}

/// A sink that takes all that it is given and forgets it. It counts its pushes and its flushes.
#[derive(Drop)]
struct Tally {
    pushes: usize,
    flushes: usize,
    settled: bool,
    faults: Faults,
}

impl Sink for Tally {
    ghost sink = { λ s. record { tells = false; taken = []; faults = s.faults; settled = s.settled } };

    fn push(&mut self, bytes: &[u8]) -> Result<usize, io::Error> {
        self.pushes = self.pushes.saturating_add(1);
        self.settled = false;
        Ok(bytes.len())
    }

    fn flush(&mut self) -> Result<(), io::Error> {
        self.flushes = self.flushes.saturating_add(1);
        self.settled = true;
        Ok(())
    }
}

fn make_tally() -> Tally {
    Tally {
        pushes: 0,
        flushes: 0,
        settled: true,
        faults: Faults::none(),
    }
}

/// How often a list of so many numbers is pushed to a sink that takes all it is given.
fn count_pushes(rt: &impl Abort, alloc: Global, count: usize) -> usize {
    let numbers = vec![in alloc; 7_u16; count].expect(rt, "a vector");
    let mut sink = make_tally();
    let outcome = Writable::<LittleEndian>::write_to_stream(&numbers, alloc, &mut sink);
    assert_ok(rt, outcome, ());
    sink.pushes
}

#[test]
fn a_list_of_numbers_is_pushed_by_stretches(rt: HostRuntime) {
    assert!(rt; count_pushes(&rt, rt.alloc(), 513) <= 3);
    assert_same(&rt, count_pushes(&rt, rt.alloc(), 5_000), 6);
}

#[test]
fn short_parts_are_pushed_together(rt: HostRuntime) {
    let alloc = rt.alloc();
    for (count, pushes) in [(15, 1), (100, 1), (200, 2)] {
        let pairs = vec![in alloc; (1_u64, 2_u64); count].expect(&rt, "a vector");
        let mut sink = make_tally();
        let outcome = Writable::<LittleEndian>::write_to_stream(&pairs, alloc, &mut sink);
        assert_ok(&rt, outcome, ());
        assert_same(&rt, sink.pushes, pushes);
    }
}

#[test]
fn no_form_over_a_sink_flushes_it(rt: HostRuntime) {
    let alloc = rt.alloc();
    let mut sink = make_tally();
    let outcome = Writable::<LittleEndian>::write_to_stream(&(), alloc, &mut sink);
    assert_ok(&rt, outcome, ());
    assert_same(&rt, (sink.pushes, sink.flushes), (0, 0));
    let outcome = Writable::<LittleEndian>::write_to_stream(&2_u16, alloc, &mut sink);
    assert_ok(&rt, outcome, ());
    let outcome = 2_u16.write_to_stream_with_ctx(alloc, Endianness::BigEndian, &mut sink);
    assert_ok(&rt, outcome, ());
    assert_same(&rt, (sink.pushes, sink.flushes), (2, 0));
    assert_same(&rt, sink.settled, false);
}

#[test]
fn the_flushing_form_flushes_once_behind_the_value(rt: HostRuntime) {
    let alloc = rt.alloc();
    let mut sink = make_tally();
    let outcome = write_to_stream_and_flush_with_ctx(
        &2_u16,
        alloc,
        Endianness::BigEndian,
        &mut sink,
    );
    assert_ok(&rt, outcome, ());
    assert_same(&rt, (sink.pushes, sink.flushes), (1, 1));
    assert_same(&rt, sink.settled, true);
}

#[test]
fn without_a_context_the_little_order_is_pushed(rt: HostRuntime) {
    let alloc = rt.alloc();
    let mut sink = VecSink::new(alloc);
    sink.reserve(4);
    for _ in 0..2 {
        let outcome = Writable::<LittleEndian>::write_to_stream(&2_u16, alloc, &mut sink);
        assert_ok(&rt, outcome, ());
    }
    assert_bytes(&rt, sink.bytes(), &[2, 0, 2, 0]);
}

/// Writes 1 as two bytes, no byte, and 2 as two in the other order, which are told first.
fn write_in_both_orders(rt: &impl Abort, writer: &mut impl Writer<Endianness>) {
    assert_ok(rt, writer.write_value(&1_u16), ());
    assert_ok(rt, writer.write_bytes(&[]), ());
    *writer.context_mut() = Endianness::BigEndian;
    assert_ok(rt, writer.write_bytes_before(&[], 2), ());
    assert_ok(rt, writer.write_u16(2), ());
}

#[test]
fn a_collector_gives_its_sink_back(rt: HostRuntime) {
    let alloc = rt.alloc();
    let mut sink = Failing::new(VecSink::new(alloc), 9, 0, io::ErrorKind::Other);
    let mut writer = WritingCollector::new(alloc, Endianness::LittleEndian, &mut sink);
    assert_same(&rt, writer.can_write_at_least(0), None);
    assert_same(&rt, *writer.context(), Endianness::LittleEndian);
    write_in_both_orders(&rt, &mut writer);
    let outcome = 3_u8.write_to_stream_with_ctx(alloc, Endianness::BigEndian, writer.into_sink());
    assert_ok(&rt, outcome, ());
    assert_bytes(&rt, sink.inner.bytes(), &[1, 0, 0, 2, 3]);
    assert_same(&rt, sink.calls(), 3);
}

const PATH: &str = "speedy_tests_sinks.bin";

#[test]
fn a_file_is_emptied_and_written(rt: HostRuntime) {
    let alloc = rt.alloc();
    // longer than the room before the file
    let long = vec![in alloc; 7_u8; 20_000].expect(&rt, "a vector");
    let outcome = long.write_to_file_with_ctx(&rt, alloc, Endianness::BigEndian, PATH);
    assert_ok(&rt, outcome, ());
    let kept = fs::read(&rt, PATH).expect(&rt, "a file");
    assert_same(&rt, kept.len(), 20_004);
    assert!(rt; kept.starts_with(&[0, 0, 0x4e, 0x20, 7]) && kept.ends_with(&[7, 7]));
    let outcome = Writable::<LittleEndian>::write_to_file(&2_u16, &rt, alloc, PATH);
    assert_ok(&rt, outcome, ());
    let kept = fs::read(&rt, PATH).expect(&rt, "a file");
    assert_bytes(&rt, kept.as_slice(), &[2, 0]);
    let outcome = u16::read_from_file_with_ctx(&rt, alloc, Endianness::BigEndian, PATH);
    assert_ok(&rt, outcome, 0x0200);
    fs::remove_file(&rt, PATH).expect(&rt, "it is removed");
}

#[test]
fn a_file_that_cannot_be_made_is_refused(rt: HostRuntime) {
    let path = "speedy_tests_no_such_folder/file";
    let outcome = 2_u16.write_to_file_with_ctx(&rt, rt.alloc(), Endianness::BigEndian, path);
    assert_failed_call(&rt, outcome, io::ErrorKind::NotFound);
}

/// The outcome of writing 16,004 bytes in pieces of 8 to a file of which each call of this name fails, and how often it
/// was written to and flushed.
fn write_to_fake(
    rt: &impl Abort,
    alloc: Global,
    fails: Option<(FileCall, io::ErrorKind)>,
) -> (Result<(), Error>, (u8, u8)) {
    let calls = FileCalls::none();
    let files = FakeFiles {
        fails,
        calls: &calls,
    };
    let pairs = vec![in alloc; (1_u64, 2_u64); 1_000].expect(rt, "a vector");
    let outcome = pairs.write_to_file_with_ctx(&files, alloc, Endianness::LittleEndian, "any");
    (outcome, (calls.writes.get(), calls.flushes.get()))
}

#[test]
fn a_failed_call_of_a_file_is_answered_and_not_tried_again(rt: HostRuntime) {
    for kind in KINDS {
        for (call, expected) in [
            (FileCall::Open, (0, 0)),
            (FileCall::Write, (1, 0)),
            (FileCall::Flush, (2, 1)),
        ] {
            let (outcome, found) = write_to_fake(&rt, rt.alloc(), Some((call, kind)));
            assert_failed_call(&rt, outcome, kind);
            assert_same(&rt, found, expected);
        }
    }
}

#[test]
fn a_file_is_flushed_once(rt: HostRuntime) {
    let (outcome, found) = write_to_fake(&rt, rt.alloc(), None);
    assert_ok(&rt, outcome, ());
    assert_same(&rt, found, (2, 1));
}
