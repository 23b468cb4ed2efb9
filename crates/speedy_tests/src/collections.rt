//! Items that a reader gathers without a count before them, and that a writer takes so.
use crate::asserting::{assert_bytes, assert_ok, assert_refused, assert_same, gather, make_vec};
use speedy::collections::FromItems;
use speedy::context::LittleEndian;
use speedy::readable::{BufferReader, ReadMany};
use speedy::reader::LendingReader;
use speedy::writable::BufferCollector;
use speedy::writer::Writer;
use std::alloc::Global;
use std::collections::{BTreeMap, BTreeSet};
use std::process::Abort;

/// The items 2, 1 and 2, of two bytes each, and a byte that is no item.
const ITEMS: [u8; 7] = [2, 0, 1, 0, 2, 0, 9];

/// Asserts that three items gather to the collection and leave the byte after them, and that none gather to what is
/// empty.
fn assert_items<F: FromItems<u16> + PartialEq>(rt: &impl Abort, alloc: Global, gathered: &F) {
    let mut reader = BufferReader::new(alloc, LittleEndian {}, &ITEMS);
    let none: F = reader.read_collection(0).expect(rt, "no items");
    assert!(rt; none == F::empty(alloc), "something of nothing");
    let read: F = reader.read_collection(3).expect(rt, "three items");
    assert!(rt; read == *gathered, "another collection");
    assert_same(rt, reader.len(), 1);
}

/// Asserts that the items gather to the collection at once, and that more than there are end too early.
fn assert_gathered<F: FromItems<u16> + PartialEq>(rt: &impl Abort, alloc: Global, gathered: &F) {
    let items = make_vec(rt, alloc, &[2, 1, 2]);
    let at_once = F::gather(alloc, items).expect(rt, "three items");
    assert!(rt; at_once == *gathered, "another collection at once");
    let mut by_lists = F::empty(alloc);
    for list in [make_vec(rt, alloc, &[2]), make_vec(rt, alloc, &[1, 2])] {
        assert!(rt; by_lists.most_waiting() > 1, "no list of items");
        assert!(rt; by_lists.add_all(alloc, list).is_ok(), "no room for a list");
    }
    assert!(rt; by_lists == *gathered, "another collection of two lists");
    let mut reader = BufferReader::new(alloc, LittleEndian {}, &ITEMS);
    let outcome = reader.read_collection::<F, u16>(usize::MAX);
    assert_refused(rt, alloc, outcome, "UnexpectedEndOfInput");
}

#[test]
fn a_reader_gathers_so_many_items(rt: HostRuntime) {
    let alloc = rt.alloc();
    let gathered: BTreeSet<u16> = gather(&rt, alloc, &[1, 2]);
    assert_items(&rt, alloc, &gathered);
    assert_gathered(&rt, alloc, &gathered);
}

/// The pairs of 2 and 1, of 1 and 2 and of 2 and 3, and a byte that is no pair.
const PAIRS: [u8; 7] = [2, 1, 1, 2, 2, 3, 9];

/// Asserts that three pairs gather to the map and leave the byte after them.
fn assert_pairs<F: FromItems<(u8, u8)> + PartialEq>(rt: &impl Abort, alloc: Global, gathered: F) {
    let mut reader = BufferReader::new(alloc, LittleEndian {}, &PAIRS);
    let read: F = reader
        .read_key_value_collection(3)
        .expect(rt, "three pairs");
    assert!(rt; read == gathered, "another collection");
    assert_same(rt, reader.len(), 1);
}

#[test]
fn a_reader_gathers_so_many_pairs(rt: HostRuntime) {
    let alloc = rt.alloc();
    assert_pairs::<BTreeMap<u8, u8>>(&rt, alloc, gather(&rt, alloc, &[(1, 2), (2, 3)]));
}

#[test]
fn items_are_gathered_by_their_type(rt: HostRuntime) {
    let mut reader = BufferReader::new(rt.alloc(), LittleEndian {}, &ITEMS);
    let items: Vec<u16> = ReadMany::collect_many(&mut reader, 3).expect(&rt, "three items");
    assert_same(&rt, items.as_slice(), &[2, 1, 2]);
}

/// A count of two, and an item or a key that is no character. The second item is missing.
const NO_CHARACTER: [u8; 8] = [2, 0, 0, 0, 0, 0xd8, 0, 0];

const NO_KEY: [u8; 9] = [2, 0, 0, 0, 0, 0xd8, 0, 0, 7];

#[test]
fn the_first_fault_of_items_is_answered_before_their_end(rt: HostRuntime) {
    let alloc = rt.alloc();
    let mut reader = BufferReader::new(alloc, LittleEndian {}, &NO_CHARACTER[4..]);
    let outcome = reader.read_collection::<BTreeSet<char>, char>(2);
    assert_refused(&rt, alloc, outcome, "InvalidChar");
    let mut reader = BufferReader::new(alloc, LittleEndian {}, &NO_KEY[4..]);
    let outcome = reader.read_key_value_collection::<BTreeMap<char, u8>, char, u8>(2);
    assert_refused(&rt, alloc, outcome, "InvalidChar");
}

#[test]
fn sets_and_maps_make_no_test_of_their_items_least_size(rt: HostRuntime) {
    let mut reader = BufferReader::new(rt.alloc(), LittleEndian {}, &NO_CHARACTER);
    let outcome = reader.read_value::<BTreeSet<char>>();
    assert_refused(&rt, rt.alloc(), outcome, "InvalidChar");
}

/// Asserts for each of the items whether a collection of 1 and 3 is written so with it at the end.
fn assert_accepts<F: FromItems<u8>>(rt: &impl Abort, alloc: Global, rows: &[(u8, bool)]) {
    let gathered: F = gather(rt, alloc, &[1, 3]);
    for (item, accepts) in rows {
        assert_same(rt, gathered.accepts(item), *accepts);
    }
}

/// Items, and which of them come after 1 and 3 in an ascending list.
const ASCENDING: [(u8, bool); 3] = [(2, false), (3, false), (4, true)];

#[test]
fn a_collection_tells_which_items_are_written_after_its_own(rt: HostRuntime) {
    let alloc = rt.alloc();
    assert_accepts::<BTreeSet<u8>>(&rt, alloc, &ASCENDING);
}

/// Writes 1 and 2, which it is given, and then the pair of 3 and 4, which it is lent.
fn write_items(rt: &impl Abort, alloc: Global, writer: &mut impl Writer<LittleEndian>) {
    let numbers = make_vec(rt, alloc, &[1_u16, 2]);
    assert_ok(rt, writer.write_collection(numbers), ());
    let map: BTreeMap<u8, u16> = gather(rt, alloc, &[(3, 4)]);
    assert_ok(rt, writer.write_collection(&map), ());
}

#[test]
fn a_writer_takes_items_without_a_count(rt: HostRuntime) {
    let mut context = LittleEndian {};
    let mut buffer = [9; 8];
    let mut writer = BufferCollector::new(&mut context, &mut buffer);
    write_items(&rt, rt.alloc(), &mut writer);
    let outcome = writer.write_collection(0..2_u8);
    assert_refused(&rt, rt.alloc(), outcome, "UnexpectedEndOfOutputBuffer");
    assert_same(&rt, writer.finish(), 8);
    assert_bytes(&rt, &buffer, &[1, 0, 2, 0, 3, 4, 0, 0]);
}
