//! Maps and sets of a length that a number before them tells: a map, and what is not written. The rows of
//! `speedy_derived` have the bytes of each kind, and what is refused in reading.
ghost use Rattle.std.specs.Prelude.{codes, ◌≡◌};

use crate::asserting::{assert_bytes, assert_refused, gather};
use indexmap::IndexMap;
use speedy::context::{BigEndian, LittleEndian};
use speedy::lengths::{Length, WithLength, WriteOfLength};
use speedy::readable::BufferReader;
use speedy::reader::LendingReader;
use speedy::writable::Writable;
use std::alloc::Global;
use std::collections::{BTreeMap, HashSet};
use std::marker::PhantomData;
use std::process::Abort;

/// The number of the entries, which the number before them is.
struct EntriesLength {}

impl Length<u16> for EntriesLength {
    ghost is_told = { λ _. Unit {0} };

    ghost told = { λ n. n };

    ghost field = { codes "entries" };

    fn length(count: u16) -> Option<usize> {
        Some(usize::from(count))
    }

    fn field() -> &'static str {
        "entries"
    }
}

type Entries<T> = WithLength<EntriesLength, u16, T>;

/// The number, and the map or the set behind it.
fn entries_of<T>(count: u16, value: T) -> Entries<T>
    ensures { result.value ≡ value }
{
    WithLength {
        before: count,
        value,
        length: PhantomData,
    }
}

#[test]
fn a_number_tells_how_many_pairs_follow(rt: HostRuntime) {
    let alloc = rt.alloc();
    let bytes = [0, 2, 7, 0, 2, 9, 0, 3];
    let mut reader = BufferReader::new(alloc, BigEndian {}, &bytes);
    let read: Entries<BTreeMap<u8, u16>> = reader.read_value().expect(&rt, "entries");
    assert!(&rt; read.before == 2 && read.value == gather(&rt, alloc, &[(9, 3), (7, 2)]));
    let written = read.write_to_vec_with_ctx(alloc, BigEndian {});
    assert_bytes(&rt, written.expect(&rt, "bytes").as_slice(), &bytes);
}

#[test]
fn a_repeated_key_is_refused_where_a_number_tells_the_length(rt: HostRuntime) {
    let alloc = rt.alloc();
    let bytes = [0, 3, 7, 2, 9, 3, 7, 4];
    let mut reader = BufferReader::new(alloc, BigEndian {}, &bytes);
    let outcome = reader.read_value::<Entries<BTreeMap<u8, u8>>>();
    assert_refused(&rt, alloc, outcome, "OutOfRangeLength");
}

/// Asserts that two entries are not written behind a 3.
fn assert_another_length<T: WriteOfLength<LittleEndian> + Drop>(
    rt: &impl Abort,
    alloc: Global,
    value: T,
) {
    let outcome = entries_of(3, value).write_to_vec_with_ctx(alloc, LittleEndian {});
    assert_refused(
        rt,
        alloc,
        outcome,
        "LengthIsNotTheSameAsLengthAttribute { field_name: \"entries\" }",
    );
}

#[test]
fn maps_and_sets_of_another_length_are_not_written(rt: HostRuntime) {
    let alloc = rt.alloc();
    let pairs = [(7, 2), (9, 3), (7, 4)];
    assert_another_length::<BTreeMap<u8, u8>>(&rt, alloc, gather(&rt, alloc, &pairs));
    assert_another_length::<IndexMap<u8, u8>>(&rt, alloc, gather(&rt, alloc, &pairs));
    assert_another_length::<HashSet<u8>>(&rt, alloc, gather(&rt, alloc, &[7, 9, 9]));
}
