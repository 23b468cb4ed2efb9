//! The program over devices that move little at a time, or fail.
use speedy::device::Counted;
use speedy::private::{ErrorKind, get_error_kind};
use speedy_lines::run;
use std::alloc::Global;
use std::io::{self, Read, Write};
use std::process::Abort;

/// An input that gives at most `most` bytes a call, `first` at the first, and of which one call fails, counted
/// from 1.
#[derive(Drop)]
struct Input<'a> {
    bytes: &'a [u8],
    first: usize,
    most: usize,
    fails_at: u8,
    fails_with: io::ErrorKind,
    calls: u8,
}

/// An output that takes at most `most` bytes a call, and of which one call fails, counted from 1, a flush too. It
/// counts its flushes, and the calls that come after one.
#[derive(Drop)]
struct Output {
    taken: Vec<u8>,
    most: usize,
    fails_at: u8,
    fails_with: io::ErrorKind,
    calls: u8,
    flushes: u8,
    calls_after_a_flush: u8,
}

/// How a run ends.
#[derive(Clone, Copy, PartialEq, Eq)]
enum End {
    Good,
    Device(io::ErrorKind),
    Other,
}

impl Read for Input<'_> {
    fn read(&mut self, buf: &mut [u8]) -> io::Result<usize> {
        self.calls = self.calls.saturating_add(1);
        if self.calls == self.fails_at {
            return Err(io::Error::from(self.fails_with));
        }
        let most = if self.calls == 1 {
            self.first
        } else {
            self.most
        };
        let count = self.bytes.len().min(buf.len()).min(most);
        buf[..count].copy_from_slice(&self.bytes[..count]);
        self.bytes = &self.bytes[count..];
        Ok(count)
    }
}

impl Write for Output {
    fn write(&mut self, buf: &[u8]) -> io::Result<usize> {
        self.calls = self.calls.saturating_add(1);
        if self.flushes > 0 {
            self.calls_after_a_flush = self.calls_after_a_flush.saturating_add(1);
        }
        if self.calls == self.fails_at {
            return Err(io::Error::from(self.fails_with));
        }
        let count = buf.len().min(self.most);
        if self.taken.extend_from_slice(&buf[..count]).is_err() {
            return Err(io::Error::from(io::ErrorKind::OutOfMemory));
        }
        Ok(count)
    }

    fn flush(&mut self) -> io::Result<()> {
        self.calls = self.calls.saturating_add(1);
        self.flushes = self.flushes.saturating_add(1);
        if self.calls == self.fails_at {
            return Err(io::Error::from(self.fails_with));
        }
        Ok(())
    }
}

/// All of an input, of which no call fails.
fn input_of(bytes: &[u8]) -> Input<'_> {
    Input {
        bytes,
        first: 8192,
        most: 8192,
        fails_at: 0,
        fails_with: io::ErrorKind::Other,
        calls: 0,
    }
}

/// An output that takes at most `most` bytes a call, and of which no call fails.
fn output_of(alloc: Global, most: usize) -> Output {
    Output {
        taken: Vec::new(alloc),
        most,
        fails_at: 0,
        fails_with: io::ErrorKind::Other,
        calls: 0,
        flushes: 0,
        calls_after_a_flush: 0,
    }
}

/// How a run ends, and how often the input was read and the output by then.
fn run_over(alloc: Global, input: Input<'_>, output: Output) -> (End, u8, Output) {
    let mut input = Counted::new(input);
    let mut output = Counted::new(output);
    let end = match run(alloc, &mut input, &mut output) {
        Ok(()) => End::Good,
        Err(error) => match get_error_kind(&error) {
            ErrorKind::IoError(inner) => End::Device(inner.kind()),
            _ => End::Other,
        },
    };
    (end, input.into_inner().calls, output.into_inner())
}

/// Asserts that a run over the input ends well and answers this, in pushes of at most `most` bytes, and that the
/// output is flushed once, after all of them.
fn assert_answered(rt: &impl Abort, alloc: Global, input: Input<'_>, most: usize, answers: &[u8]) {
    let (end, _, output) = run_over(alloc, input, output_of(alloc, most));
    assert!(rt; end == End::Good);
    assert_eq!(rt; output.taken.as_slice(), answers);
    assert_eq!(rt; output.flushes, 1);
    assert_eq!(rt; output.calls_after_a_flush, 0);
}

#[test]
fn lines_are_answered_in_whatever_pieces(rt: HostRuntime) {
    let bytes = b"le u16 0200\n\nbe u16 0002ff\nle u16 -";
    let answers = b"ok 2 0200\nbad line\nok 2 0002\nrefused InputBufferIsTooSmall 0 2\n";
    for most in [1, 2, 11, 12, 13, 8192] {
        for taken_at_most in [1, 4, 8192] {
            let input = Input {
                first: most,
                most,
                ..input_of(bytes)
            };
            assert_answered(&rt, rt.alloc(), input, taken_at_most, answers);
        }
    }
}

#[test]
fn lines_are_answered_wherever_they_are_cut(rt: HostRuntime) {
    let bytes = b"be varint c10203\nle varint c0\n\nle varint ff0000000000000000\nbe varint 8000";
    let answers = b"ok 3 c10203\nrefused UnexpectedEndOfInput\nbad line\nok 9 00\nok 2 00\n";
    for first in 1..bytes.len() {
        let input = Input {
            first,
            ..input_of(bytes)
        };
        assert_answered(&rt, rt.alloc(), input, 8192, answers);
    }
}

#[test]
fn a_line_may_be_longer_than_a_pull(rt: HostRuntime) {
    let alloc = rt.alloc();
    let mut digits = String::from_str(alloc, "88130000").expect(&rt, "a text");
    for _ in 0..5_000 {
        digits.push_str("07").expect(&rt, "room");
    }
    let line = format!(in alloc; "le vec_u8 {digits}\nx").expect(&rt, "a line");
    let answers = format!(in alloc; "ok 5004 {digits}\nbad line\n").expect(&rt, "answers");
    assert_answered(
        &rt,
        alloc,
        input_of(line.as_bytes()),
        1_000,
        answers.as_bytes(),
    );
}

#[test]
fn the_last_line_needs_no_line_feed(rt: HostRuntime) {
    for (bytes, answers) in [
        (&b""[..], &b""[..]),
        (&b"\n"[..], &b"bad line\n"[..]),
        (&b"x"[..], &b"bad line\n"[..]),
        (&b"x\n"[..], &b"bad line\n"[..]),
        (&b"x\n\n"[..], &b"bad line\nbad line\n"[..]),
        (&b"\nx"[..], &b"bad line\nbad line\n"[..]),
    ] {
        assert_answered(&rt, rt.alloc(), input_of(bytes), 8192, answers);
    }
}

#[test]
fn the_output_is_flushed_once_after_the_last_push(rt: HostRuntime) {
    for bytes in [
        &b""[..],
        &b"x"[..],
        &b"x\n"[..],
        &b"x\ny"[..],
        &b"x\ny\n"[..],
    ] {
        let (_, _, output) = run_over(rt.alloc(), input_of(bytes), output_of(rt.alloc(), 4));
        assert!(rt; output.flushes == 1, "at {bytes:?}");
        assert!(rt; output.calls_after_a_flush == 0, "at {bytes:?}");
    }
}

/// Three lines, and their answers.
const LINES: [u8; 6] = *b"x\ny\nz\n";

const ANSWERS: [u8; 27] = *b"bad line\nbad line\nbad line\n";

/// The kinds with which a call fails: std's own loops would try the second again.
const KINDS: [io::ErrorKind; 2] = [io::ErrorKind::Other, io::ErrorKind::Interrupted];

/// Asserts that a run over the lines ended with a failed call of the kind, behind `taken` bytes of their answers.
fn assert_failed(rt: &impl Abort, end: End, kind: io::ErrorKind, output: &Output, taken: usize) {
    assert!(rt; end == End::Device(kind));
    assert!(rt; output.taken.len() == taken && ANSWERS.starts_with(&output.taken));
}

#[test]
fn each_failed_pull_ends_the_run_behind_the_answers_to_the_lines_before_it(rt: HostRuntime) {
    let alloc = rt.alloc();
    for fails_with in KINDS {
        for count in 0..4_u8 {
            let input = Input {
                first: 2,
                most: 2,
                fails_at: count + 1,
                fails_with,
                ..input_of(&LINES)
            };
            let (end, pulls, output) = run_over(alloc, input, output_of(alloc, 8192));
            assert_failed(&rt, end, fails_with, &output, 9 * usize::from(count));
            assert!(rt; pulls == count + 1 && output.flushes == 0);
        }
    }
}

#[test]
fn each_failed_push_and_a_failed_flush_end_the_run(rt: HostRuntime) {
    let alloc = rt.alloc();
    for fails_with in KINDS {
        for count in 0..10_u8 {
            let output = Output {
                fails_at: count + 1,
                fails_with,
                ..output_of(alloc, 3)
            };
            let (end, _, output) = run_over(alloc, input_of(&LINES), output);
            assert_failed(&rt, end, fails_with, &output, 3 * usize::from(count));
            assert!(rt; output.calls == count + 1 && output.flushes == count / 9);
        }
    }
}
