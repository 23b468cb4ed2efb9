//! What the functions answer that the pages show for a task.
use crate::callers::assert_refused;
use speedy::LittleEndian;
use speedy::device::VecSink;
use speedy::error::Error;
use speedy::readable::BufferReader;
use speedy_examples::generic::{load, load_owned, save};
use speedy_examples::growing::{known_messages, read_grown};
use speedy_examples::left_over::parse_whole;
use speedy_examples::limits::read_body;
use speedy_examples::nested::read_node;
use speedy_examples::own_numbers::Colour;
use speedy_examples::signing::{Order, are_same, bytes_to_sign, read_signed};
use speedy_examples::sockets::{send, serve};
use speedy_examples::versions::read_person;
use speedy_examples::waiting::{next_whole, wants_more};
use speedy_examples::{readme, records};
use std::fs;

#[test]
fn a_message_that_is_short_is_told_from_one_that_is_broken(rt: HostRuntime) {
    let alloc = rt.alloc();
    let bytes = [2, 1, 2, 0, 0, 0, b'H', 0xff];
    for length in 0..bytes.len() {
        let outcome = readme::parse_message(alloc, &bytes[..length]);
        assert!(rt; wants_more(&outcome.err().expect(&rt, "it is short")));
    }
    let outcome = readme::parse_message(alloc, &bytes);
    assert!(rt; !wants_more(&outcome.err().expect(&rt, "it is broken")));
}

#[test]
fn messages_are_taken_once_they_are_whole(rt: HostRuntime) -> Result<(), Error> {
    let alloc = rt.alloc();
    let mut received = Vec::new(alloc);
    received.extend_from_slice(b"\x08\0\x01\0\x02\0\0\0H")?;
    assert!(rt; next_whole(alloc, &mut received)?.is_none());
    received.extend_from_slice(b"i\x08\0\x01\0\x02\0\0\0H\xff")?;
    let (number, text) = next_whole(alloc, &mut received)?.expect(&rt, "it is whole");
    assert!(rt; number == 1 && text.as_str() == "Hi" && received.len() == 10);
    assert_refused(&rt, alloc, next_whole(alloc, &mut received), "InvalidUtf8");
    Ok(())
}

#[test]
fn messages_go_over_a_socket(rt: HostRuntime) -> Result<(), Error> {
    let alloc = rt.alloc();
    let mut sent = VecSink::new(alloc);
    send(alloc, &mut sent, &(1, "Hi"))?;
    assert!(rt; sent.bytes() == b"\x08\0\x01\0\x02\0\0\0Hi".as_slice());
    // The second of three messages is no UTF-8.
    let mut input: &[u8] =
        b"\x08\0\x01\0\x02\0\0\0Hi\x07\0\x02\0\x01\0\0\0\xff\x06\0\x03\0\0\0\0\0";
    let mut output = VecSink::new(alloc);
    serve(alloc, &mut input, &mut output)?;
    assert!(rt; output.bytes() == b"\x08\0\x01\0\x02\0\0\0Hi\x06\0\x03\0\0\0\0\0".as_slice());
    let mut cut: &[u8] = b"\x08\0\x01";
    let outcome = serve(alloc, &mut cut, &mut output);
    assert_refused(&rt, alloc, outcome, "UnexpectedEndOfInput");
    let mut long: &[u8] = b"\x01\x04";
    let kind = "Custom(\"a message past the limit\")";
    assert_refused(&rt, alloc, serve(alloc, &mut long, &mut output), kind);
    Ok(())
}

#[test]
fn a_part_may_depend_on_the_version(rt: HostRuntime) -> Result<(), Error> {
    let alloc = rt.alloc();
    let (number, name, mail) = read_person(alloc, b"\x01\0\x05\0\x01\0\0\0a")?;
    assert!(rt; number == 5 && name.as_str() == "a" && mail.is_none());
    let (_, _, mail) = read_person(alloc, b"\x02\0\x05\0\x01\0\0\0a\x01\x01\0\0\0b")?;
    assert!(rt; mail.expect(&rt, "an address").as_str() == "b");
    Ok(())
}

#[test]
fn old_readers_pass_over_what_is_new(rt: HostRuntime) -> Result<(), Error> {
    let alloc = rt.alloc();
    let frames = b"\x01\0\x05\x02\0\x07\x09\x02\0\x05\x09";
    let colours: Vec<Colour> = known_messages(alloc, frames)?;
    assert!(rt; colours.as_slice() == [Colour::Green, Colour::Green].as_slice());
    let (_, _, mail) = read_grown(alloc, b"\x05\0\x01\0\0\0a")?;
    assert!(rt; mail.is_none());
    let (_, _, mail) = read_grown(alloc, b"\x05\0\x01\0\0\0a\x01\0\0\0b")?;
    assert!(rt; mail.expect(&rt, "an address").as_str() == "b");
    Ok(())
}

#[test]
fn bytes_behind_a_message_may_be_refused(rt: HostRuntime) {
    let alloc = rt.alloc();
    let bytes = [2, 1, 2, 0, 0, 0, b'H', b'i', 9];
    let message = parse_whole(alloc, &bytes[..8]).expect(&rt, "a message");
    assert!(rt; message == (258, "Hi"));
    let kind = "Custom(\"bytes are left over\")";
    assert_refused(&rt, alloc, parse_whole(alloc, &bytes), kind);
}

#[test]
fn a_body_past_the_limit_is_refused(rt: HostRuntime) {
    let alloc = rt.alloc();
    let mut source: &[u8] = b"\x02\0\0\0Hi!";
    let body = read_body(alloc, &mut source, 2).expect(&rt, "a body");
    assert!(rt; body.as_slice() == b"Hi".as_slice() && source == b"!".as_slice());
    let mut source: &[u8] = b"\xff\xff\xff\xff";
    let kind = "Custom(\"a body past the limit\")";
    assert_refused(&rt, alloc, read_body(alloc, &mut source, 1_000), kind);
}

#[test]
fn what_is_signed_has_one_mode(rt: HostRuntime) -> Result<(), Error> {
    let alloc = rt.alloc();
    let bytes = b"\x07\0\0\0\0\0\0\0\x01\0\0\0\x01\0\0\0a\x02\0\0\0";
    let order: Order = read_signed(alloc, bytes)?;
    assert!(rt; bytes_to_sign(alloc, &order)?.as_slice() == bytes.as_slice());
    assert!(rt; are_same(alloc, &order, &order)?);
    let twice = b"\x07\0\0\0\0\0\0\0\x02\0\0\0\x01\0\0\0a\x02\0\0\0\x01\0\0\0a\x02\0\0\0";
    assert_refused(&rt, alloc, read_signed(alloc, twice), "NotWrittenForm");
    Ok(())
}

#[test]
fn records_are_appended(rt: HostRuntime) -> Result<(), Error> {
    let alloc = rt.alloc();
    let path = "speedy_examples_tasks.bin";
    records::append(&rt, alloc, path, &(1, String::from_str(alloc, "Hi")?))?;
    records::append(&rt, alloc, path, &(2, String::new(alloc)))?;
    let records = records::read_all(&rt, alloc, path)?;
    fs::remove_file(&rt, path).expect(&rt, "it is removed");
    assert!(rt; records.len() == 2 && records[0].1.as_str() == "Hi" && records[1].0 == 2);
    Ok(())
}

#[test]
fn values_of_any_type_are_loaded(rt: HostRuntime) -> Result<(), Error> {
    let alloc = rt.alloc();
    let bytes = save(alloc, &(1_u16, "Hi"))?;
    let message: (u16, &str) = load(alloc, bytes.as_slice())?;
    assert!(rt; message == (1, "Hi"));
    let number: u16 = load_owned(alloc, &bytes)?;
    assert!(rt; number == 1);
    Ok(())
}

#[test]
fn what_is_nested_is_read_within_limits(rt: HostRuntime) -> Result<(), Error> {
    let alloc = rt.alloc();
    let bytes = b"\x01\0\0\0a\x01\0\0\0\x01\0\0\0b\0\0\0\0";
    let node = read_node(&mut BufferReader::new(alloc, LittleEndian {}, bytes), 2)?;
    let child = node.children.first().expect(&rt, "a child");
    assert!(rt; node.name.as_str() == "a" && child.name.as_str() == "b");
    let outcome = read_node(&mut BufferReader::new(alloc, LittleEndian {}, bytes), 1);
    assert_refused(&rt, alloc, outcome, "Custom(\"too many levels\")");
    let mut reader = BufferReader::new(alloc, LittleEndian {}, b"\xff\xff\xff\xff");
    let outcome = read_node(&mut reader, 2);
    assert_refused(&rt, alloc, outcome, "Custom(\"a name past the limit\")");
    let mut reader = BufferReader::new(alloc, LittleEndian {}, b"\0\0\0\0\xff\xff\xff\xff");
    assert_refused(
        &rt,
        alloc,
        read_node(&mut reader, 2),
        "Custom(\"too many children\")",
    );
    Ok(())
}
