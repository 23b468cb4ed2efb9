//! Maps and sets behind lengths of other widths: a map, and a count past its width. The rows of `speedy_derived` have
//! the bytes of each kind and width, and what is refused in reading.
use crate::asserting::{assert_bytes, assert_refused, assert_same, gather};
use speedy::Part;
use speedy::context::{BigEndian, LittleEndian};
use speedy::prefixed::{Prefixed, U7};
use speedy::readable::BufferReader;
use speedy::reader::LendingReader;
use speedy::varint::VarInt64;
use speedy::writable::Writable;
use std::alloc::Global;
use std::collections::{BTreeMap, BTreeSet, HashSet};
use std::process::Abort;

#[test]
fn a_map_stands_behind_a_count_of_two_bytes(rt: HostRuntime) {
    let alloc = rt.alloc();
    let bytes = [0, 2, 7, 0, 2, 9, 0, 3];
    let mut reader = BufferReader::new(alloc, BigEndian {}, &bytes);
    let read: Prefixed<u16, BTreeMap<u8, u16>> = reader.read_value().expect(&rt, "a map");
    assert!(&rt; read.value == gather(&rt, alloc, &[(9, 3), (7, 2)]));
    let written = Prefixed::<u16, _>::new(read.value).write_to_vec_with_ctx(alloc, BigEndian {});
    assert_bytes(&rt, written.expect(&rt, "bytes").as_slice(), &bytes);
}

/// The numbers below `count`.
fn numbers_below(rt: &impl Abort, alloc: Global, count: u16) -> BTreeSet<u16> {
    let mut set = BTreeSet::new(alloc);
    for number in 0..count {
        assert!(rt; set.insert(number).is_ok(), "no room for a number");
    }
    set
}

#[test]
fn a_count_past_its_type_is_refused(rt: HostRuntime) {
    let alloc = rt.alloc();
    let set = numbers_below(&rt, alloc, 256);
    let outcome = Prefixed::<u8, _>::new(Part(&set)).write_to_vec_with_ctx(alloc, LittleEndian {});
    assert_refused(&rt, alloc, outcome, "OutOfRangeLength");
    let set = numbers_below(&rt, alloc, 128);
    let outcome = Prefixed::<U7, _>::new(Part(&set)).write_to_vec_with_ctx(alloc, LittleEndian {});
    assert_refused(&rt, alloc, outcome, "OutOfRangeLength");
    let bytes = Prefixed::<VarInt64, _>::new(Part(&set)).write_to_vec_with_ctx(
        alloc,
        LittleEndian {},
    );
    let bytes = bytes.expect(&rt, "bytes");
    assert!(rt; bytes.as_slice().starts_with(&[0x80, 0x80, 0, 0, 1, 0]));
    assert_same(&rt, bytes.len(), 258);
    let mut reader = BufferReader::new(alloc, LittleEndian {}, &[128, 1, 2]);
    let outcome = reader.read_value::<Prefixed<U7, HashSet<u8>>>();
    assert_refused(&rt, alloc, outcome, "OutOfRangeLength");
}
