//! Bytes that are no messages: which error each is, and what the program does.
use crate::failure::Failure;
use crate::pieces::Pieces;
use speedy::device::Source;
use speedy::readable::StreamReader;
use speedy::{Error, IsEof, LendingReader, LittleEndian};
use speedy_protocol::advice::{Advice, advise};
use speedy_protocol::frames::{decode, next_frame, skip};
use speedy_protocol::messages::Start;
use std::alloc::Global;

/// What the program does, in a word.
fn word(advice: Advice) -> &'static str {
    match advice {
        Advice::Wait => "wait",
        Advice::Skip => "skip",
        Advice::Close => "close",
    }
}

/// Prints the message after a broken one.
fn show_next(rt: &HostRuntime, bytes: &[u8]) -> Result<(), Failure> {
    let alloc = rt.alloc();
    let (next, _) = decode(alloc, skip(alloc, bytes)?)?;
    print!(rt; "; the next message is {next:?}")?;
    Ok(())
}

/// Prints the error of a buffer, and goes on after the broken message where that may be.
fn show_broken(rt: &HostRuntime, what: &str, bytes: &[u8]) -> Result<(), Failure> {
    let Err(error) = decode(rt.alloc(), bytes) else {
        return Ok(());
    };
    let advice = advise(&error);
    let end = error.is_eof();
    print!(rt; "  {what:<26}{end:<8}{:<7}{error}", word(advice))?;
    if advice == Advice::Skip {
        show_next(rt, bytes)?;
    }
    println!(rt)?;
    Ok(())
}

/// Reads a stream up to its first error.
fn read_all<S: Source>(alloc: Global, source: &mut S) -> Result<(), Error> {
    let mut reader = StreamReader::new(alloc, LittleEndian {}, source, true)?;
    let _start: Start = reader.read_value()?;
    for _i in 0..u64::MAX {
        if next_frame(&mut reader)?.is_none() {
            break;
        }
    }
    Ok(())
}

/// Prints the error of a stream.
fn show_broken_stream(rt: &HostRuntime, what: &str, bytes: &[u8]) -> Result<(), Failure> {
    let Err(error) = read_all(rt.alloc(), &mut Pieces { left: bytes }) else {
        return Ok(());
    };
    let end = error.is_eof();
    println!(rt; "  {what:<26}{end:<8}close  {error}")?;
    Ok(())
}

/// Bytes in a buffer that are no message, some with a message after them.
const BROKEN: [(&str, &[u8]); 6] = [
    ("half a length", b"\x0e"),
    ("a frame cut short", b"\x0e\x00\x05\x94"),
    ("an unknown tag", b"\x01\x00\x63\x01\x00\x01"),
    ("bytes left over", b"\x02\x00\x01\x00\x01\x00\x01"),
    (
        "a text that is not UTF-8",
        b"\x0a\x00\x05\x94\x01\x00\x00\x01\x00\x00\x00\xff\x01\x00\x01",
    ),
    (
        "a count of four billion",
        b"\x07\x00\x03\x07\x00\xff\xff\xff\xff\x01\x00\x01",
    ),
];

/// Streams that are broken.
const BROKEN_STREAMS: [(&str, &[u8]); 3] = [
    ("a wrong magic number", b"HTTP/1.1 200 OK"),
    (
        "a length past the limit",
        b"MSGS\x04\x01\x00\x00\x00\x01\x04\x03",
    ),
    (
        "an end within a message",
        b"MSGS\x04\x01\x00\x00\x00\x0e\x00\x05\x94",
    ),
];

/// Prints what comes of broken bytes.
pub fn show_hostile(rt: &HostRuntime) -> Result<(), Failure> {
    println!(rt; "broken in a buffer          is_eof  then   error")?;
    for (what, bytes) in BROKEN {
        show_broken(rt, what, bytes)?;
    }
    println!(rt; "broken in a stream")?;
    for (what, bytes) in BROKEN_STREAMS {
        show_broken_stream(rt, what, bytes)?;
    }
    Ok(())
}
