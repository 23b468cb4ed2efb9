//! Types of one's own: bytes that come from outside.
use crate::callers::assert_refused;
use speedy::prefixed::Prefixed;
use speedy::readable::BufferReader;
use speedy::{LendingReader, LittleEndian, Writable};
use speedy_examples::own_checked::Percent;
use speedy_examples::own_key::Place;
use speedy_examples::own_maps::Directory;
use speedy_examples::own_numbers::{Colour, Packet, Twice};
use speedy_examples::own_struct::Contact;
use std::alloc::Global;
use std::collections::BTreeMap;

/// A reader of the bytes.
fn make_reader(alloc: Global, bytes: &[u8]) -> BufferReader<'_, LittleEndian> {
    BufferReader::new(alloc, LittleEndian {}, bytes)
}

#[test]
fn a_struct_is_a_tuple_of_its_parts(rt: HostRuntime) {
    let alloc = rt.alloc();
    let contact = Contact {
        name: String::from_str(alloc, "Al").expect(&rt, "a text"),
        mail: String::from_str(alloc, "a@b").expect(&rt, "a text"),
        groups: vec![in alloc; 7_u16].expect(&rt, "a vector"),
    };
    let bytes = Writable::<LittleEndian>::write_to_vec(&contact, alloc).expect(&rt, "bytes");
    let expected = b"\x02\0\0\0Al\x03\0\0\0a@b\x01\0\0\0\x07\0";
    assert!(rt; bytes.as_slice() == expected.as_slice());
    let again: Contact = make_reader(alloc, &bytes)
        .read_value()
        .expect(&rt, "a contact");
    assert!(rt; again == contact);
}

#[test]
fn a_struct_may_hold_a_map_and_a_set(rt: HostRuntime) {
    let alloc = rt.alloc();
    // Of two pairs with one key the second counts, and a map is written with each key once.
    let bytes = b"\x02\0\0\0\x01\0\0\0a\x07\0\0\0\x01\0\0\0a\x08\0\0\0\x01\0\0\0\x09\0\0\0";
    let directory: Directory = make_reader(alloc, bytes).read_value().expect(&rt, "it");
    assert!(rt; directory.numbers.len() == 1 && directory.marked.contains(&9));
    let again = Writable::<LittleEndian>::write_to_vec(&directory, alloc).expect(&rt, "bytes");
    let expected = b"\x01\0\0\0\x01\0\0\0a\x08\0\0\0\x01\0\0\0\x09\0\0\0";
    assert!(rt; again.as_slice() == expected.as_slice());
}

#[test]
fn a_key_may_be_a_type_of_ones_own(rt: HostRuntime) {
    let alloc = rt.alloc();
    // Of two pairs with one key the second counts, and the keys are written in ascending order.
    let bytes = b"\x03\0\0\0\x02\0\x01\0\0\0\x07\x01\0\x09\0\0\0\x08\x02\0\x01\0\0\0\x05";
    let pieces: BTreeMap<Place, u8> = make_reader(alloc, bytes).read_value().expect(&rt, "it");
    assert!(rt; pieces.get(&Place { row: 2, column: 1 }) == Some(&5));
    let again = Writable::<LittleEndian>::write_to_vec(&pieces, alloc).expect(&rt, "bytes");
    let expected = b"\x02\0\0\0\x01\0\x09\0\0\0\x08\x02\0\x01\0\0\0\x05";
    assert!(rt; again.as_slice() == expected.as_slice());
}

#[test]
fn tags_may_be_numbers_of_ones_own(rt: HostRuntime) {
    let alloc = rt.alloc();
    let colour: Colour = make_reader(alloc, &[5])
        .read_value()
        .expect(&rt, "a colour");
    assert!(rt; colour == Colour::Green);
    let outcome = make_reader(alloc, &[2]).read_value::<Colour>();
    assert_refused(&rt, alloc, outcome, "InvalidEnumVariant");
}

#[test]
fn an_enum_may_stand_behind_tags_of_another_width(rt: HostRuntime) {
    let alloc = rt.alloc();
    let wide: Prefixed<u16, Colour> = make_reader(alloc, &[9, 0])
        .read_value()
        .expect(&rt, "a colour");
    assert!(rt; wide.value == Colour::Blue);
    let again = Writable::<LittleEndian>::write_to_vec(&wide, alloc).expect(&rt, "bytes");
    assert!(rt; again.as_slice() == [9, 0].as_slice());
}

#[test]
fn parts_may_stand_behind_tags_of_ones_own(rt: HostRuntime) {
    let alloc = rt.alloc();
    let bytes = b"\x09\x02\0\0\0Hi\x07\0\0\0";
    let packet: Packet = make_reader(alloc, bytes)
        .read_value()
        .expect(&rt, "a packet");
    assert!(rt; packet == Packet::Named(String::from_str(alloc, "Hi").expect(&rt, "a text"), 7));
    let again = Writable::<LittleEndian>::write_to_vec(&packet, alloc).expect(&rt, "bytes");
    assert!(rt; again.as_slice() == bytes.as_slice());
}

#[test]
fn of_two_variants_with_one_tag_the_first_counts(rt: HostRuntime) {
    let alloc = rt.alloc();
    let first: Twice = make_reader(alloc, &[1, 7])
        .read_value()
        .expect(&rt, "the first one");
    assert!(rt; first == Twice::First);
    let outcome = Writable::<LittleEndian>::write_to_vec(&Twice::Second(7), alloc);
    assert_refused(&rt, alloc, outcome, "OutOfRangeLength");
}

#[test]
fn a_number_is_checked_where_it_is_read(rt: HostRuntime) {
    let alloc = rt.alloc();
    let percent: Percent = make_reader(alloc, &[100])
        .read_value()
        .expect(&rt, "a share");
    assert!(rt; percent == Percent { number: 100 });
    let again = Writable::<LittleEndian>::write_to_vec(&percent, alloc).expect(&rt, "bytes");
    assert!(rt; again.as_slice() == [100].as_slice());
    let outcome = make_reader(alloc, &[101]).read_value::<Percent>();
    assert_refused(&rt, alloc, outcome, "InvalidEnumVariant");
}
