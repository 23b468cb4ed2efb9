//! Hashed maps, whose pairs lie in no order that a line of the program could name.
use crate::asserting::{assert_same, make_text};
use speedy::context::LittleEndian;
use speedy::readable::BufferReader;
use speedy::reader::LendingReader;
use speedy::writable::Writable;
use std::alloc::Global;
use std::collections::HashMap;
use std::process::Abort;

/// A hashed map of the digits of `count` numbers, each with the square of its number.
fn make_squares(rt: &impl Abort, alloc: Global, count: u8) -> HashMap<String, u16> {
    let mut map = HashMap::new(alloc);
    for number in 0..count {
        let digits = format!(in alloc; "{number}").expect(rt, "a text");
        let number = u16::from(number);
        let outcome = map.insert(digits, number * number);
        assert!(rt; outcome.is_ok(), "no room for a pair");
    }
    map
}

#[test]
fn hashed_maps_come_back(rt: HostRuntime) {
    let alloc = rt.alloc();
    let map = make_squares(&rt, alloc, 100);
    let bytes = map
        .write_to_vec_with_ctx(alloc, LittleEndian {})
        .expect(&rt, "bytes");
    // a count of 4 bytes, and of each pair a length of 4, one or two digits, and 2 for the number
    assert_same(&rt, bytes.len(), 794);
    let mut reader = BufferReader::new(alloc, LittleEndian {}, &bytes);
    let read: HashMap<String, u16> = reader.read_value().expect(&rt, "a map");
    assert!(rt; read == map, "another map");
    let key = make_text(&rt, alloc, "42");
    assert_same(&rt, read.get(&key), Some(&1_764));
}
