//! The program of `PROTOCOL.md`: it writes and reads messages of `speedy_protocol`, and meets hostile bytes.
//!
//! It writes to a vector and to a sink, and reads from a buffer and from a stream.
#![tactic(auto)]

mod failure;
mod hostile;
mod pieces;

use failure::Failure;
use hostile::show_hostile;
use pieces::Pieces;
use speedy::device::{Source, VecSink};
use speedy::readable::StreamReader;
use speedy::{Buffer, LendingReader, LittleEndian, Writable};
use speedy_protocol::frames::{decode, encode, next_frame, send};
use speedy_protocol::headers::{header_1, header_2, make_start};
use speedy_protocol::messages::{Header2, Message, Reading, Start};
use std::alloc::{AllocError, Global};
use std::process::ExitCode;

/// Some messages.
fn make_messages(alloc: Global) -> Result<Vec<Message<'static>>, AllocError> {
    let first = Reading {
        second: 1,
        value: 20_500,
    };
    let last = Reading {
        second: 2,
        value: -40,
    };
    let list = vec![in alloc; first, last]?;
    let messages = vec![in alloc;
        Message::Hello {
            name: "Ada",
            mail: Some("ada@example.org")
        },
        Message::Readings { sensor: 7, list },
        Message::Blob(b"\x00\xff"),
        Message::Ping,
        Message::Failure {
            code: 404,
            text: "no such sensor"
        },
        Message::Bye,
    ]?;
    Ok(messages)
}

/// The digits of bytes.
fn digits(alloc: Global, bytes: &[u8]) -> Result<String, AllocError> {
    let mut text = String::new(alloc);
    for byte in bytes {
        write!(text, "{byte:02x}")?;
    }
    Ok(text)
}

/// Writes a header to a sink, and prints its bytes.
fn show_start(rt: &HostRuntime, sink: &mut VecSink) -> Result<(), Failure> {
    let alloc = rt.alloc();
    let header = Header2 {
        version: 2,
        flags: 1,
        session: 99,
    };
    let start = make_start(alloc, &header)?;
    Writable::<LittleEndian>::write_to_stream(&start, alloc, sink)?;
    let text = digits(alloc, sink.bytes())?;
    println!(rt; "  {text}")?;
    Ok(())
}

/// Writes a header and the messages to a vector and to a sink, and prints the bytes.
fn show_written(rt: &HostRuntime, messages: &[Message<'static>]) -> Result<Vec<u8>, Failure> {
    let alloc = rt.alloc();
    let mut sink = VecSink::new(alloc);
    show_start(rt, &mut sink)?;
    let mut bytes = sink.bytes().to_vec(alloc)?;
    for message in messages {
        let frame = encode(alloc, message)?;
        println!(rt; "  {}", digits(alloc, &frame)?)?;
        bytes.extend_from_slice(&frame)?;
        send(alloc, message, &mut sink)?;
    }
    let count = sink.bytes().len();
    let same = bytes.as_slice() == sink.bytes();
    println!(rt; "  the sink took {count} bytes, the same: {same}")?;
    Ok(bytes)
}

/// Reads from a buffer: the messages show its bytes where they lie.
fn show_lent(rt: &HostRuntime, bytes: &[u8]) -> Result<(), Failure> {
    let alloc = rt.alloc();
    let (start, size) = bytes.read_with_length::<Start>(alloc, LittleEndian {});
    let start = start?;
    println!(rt; "  {size:4}  {:?}", header_1(alloc, &start)?)?;
    println!(rt; "  {size:4}  {:?}", header_2(alloc, &start)?)?;
    let mut left = &bytes[size..];
    for _i in 0..u64::MAX {
        if left.is_empty() {
            break;
        }
        let (message, behind) = decode(alloc, left)?;
        println!(rt; "  {:4}  {message:?}", left.len() - behind.len())?;
        left = behind;
    }
    Ok(())
}

/// Reads from a stream, one frame after the other.
fn show_streamed<S: Source>(rt: &HostRuntime, source: &mut S) -> Result<(), Failure> {
    let alloc = rt.alloc();
    let mut reader = StreamReader::new(alloc, LittleEndian {}, source, true)?;
    let start: Start = reader.read_value()?;
    println!(rt; "        {:?}", header_2(alloc, &start)?)?;
    for _i in 0..u64::MAX {
        let Some(frame) = next_frame(&mut reader)? else {
            break;
        };
        let (message, _) = decode(alloc, &frame)?;
        println!(rt; "  {:4}  {message:?}", frame.len())?;
    }
    Ok(())
}

fn show(rt: &HostRuntime) -> Result<(), Failure> {
    let messages = make_messages(rt.alloc())?;
    println!(rt; "written")?;
    let bytes = show_written(rt, &messages)?;
    println!(rt; "read from a buffer, with no copy")?;
    show_lent(rt, &bytes)?;
    println!(rt; "read from a stream, in pieces")?;
    show_streamed(rt, &mut Pieces { left: &bytes })?;
    show_hostile(rt)
}

fn main(rt: HostRuntime) -> ExitCode {
    match show(&rt) {
        Ok(()) => ExitCode::SUCCESS,
        Err(_) => ExitCode::FAILURE,
    }
}
