//! Reads until the bytes end: what is an end, and what a fault.
use crate::asserting::{assert_refused, assert_same};
use crate::probes::{Probe, read_by_each};
use speedy::context::StrictLittleEndian;
use speedy::endianness::Endianness;
use speedy::error::Error;
use speedy::private::{VarInt64, get_error_kind};
use speedy::readable::{BufferReader, StreamReader};
use speedy::reader::LendingReader;
use std::alloc::Global;
use std::borrow::CowSlice;
use std::collections::BTreeSet;
use std::convert::AsSlice;
use std::fmt::Debug;
use std::process::Abort;

/// What is read until the bytes end.
#[derive(Clone, Copy)]
enum Items {
    Numbers,
    Varints,
    Units,
    Chars,
    Lists,
    Set,
}

/// The value, or the kind of the error, as `Debug` prints it.
fn show<T: Debug + Drop>(rt: &impl Abort, alloc: Global, outcome: Result<T, Error>) -> String {
    let shown = match outcome {
        Ok(value) => format!(in alloc; "{value:?}"),
        Err(error) => format!(in alloc; "{:?}", get_error_kind(&error)),
    };
    shown.expect(rt, "a text")
}

/// What the rest of the bytes is, as a text.
fn show_rest<L: AsSlice<u8> + Drop, R: LendingReader<L, Endianness>>(
    rt: &impl Abort,
    alloc: Global,
    items: Items,
    greatest: usize,
    reader: &mut R,
) -> String {
    match items {
        Items::Numbers => show(rt, alloc, reader.read_vec_until_eof::<u16>(greatest)),
        Items::Varints => show(rt, alloc, reader.read_vec_until_eof::<VarInt64>(greatest)),
        Items::Units => show(rt, alloc, reader.read_vec_until_eof::<()>(greatest)),
        Items::Chars => show(rt, alloc, reader.read_vec_until_eof::<char>(greatest)),
        Items::Lists => show(rt, alloc, reader.read_vec_until_eof::<Vec<char>>(greatest)),
        Items::Set => {
            let outcome = reader.read_collection_until_eof::<BTreeSet<u16>, u16>(greatest);
            show(rt, alloc, outcome)
        }
    }
}

/// Reads the rest of the bytes.
#[derive(Drop)]
struct Rest {
    items: Items,
    greatest: usize,
    shown: &'static str,
}

impl Probe for Rest {
    fn read<L: AsSlice<u8> + Drop, R: LendingReader<L, Endianness>>(
        &self,
        rt: &impl Abort,
        alloc: Global,
        reader: &mut R,
    ) {
        let shown = show_rest(rt, alloc, self.items, self.greatest, reader);
        assert_same(rt, shown.as_str(), self.shown);
    }
}

/// Bytes in the little order, and what is read of them until they end, of at most so many items.
const ROWS: [(Items, usize, &[u8], &str); 13] = [
    (Items::Numbers, 2, &[1, 0, 2, 0, 3], "[1, 2]"),
    (Items::Numbers, 1, &[1, 0, 2, 0, 3], "OutOfRangeLength"),
    (Items::Numbers, 2, &[1, 0, 2, 0], "[1, 2]"),
    (Items::Numbers, usize::MAX, &[1, 0, 2], "[1]"),
    (Items::Numbers, 0, &[], "[]"),
    (Items::Numbers, 0, &[1], "[]"),
    (Items::Numbers, 0, &[1, 0], "OutOfRangeLength"),
    (Items::Varints, 8, &[1, 0xc0], "[VarInt64(1)]"),
    (Items::Set, 2, &[5, 0, 5, 0, 1], "{5}"),
    (Items::Set, 1, &[5, 0, 5, 0, 1], "OutOfRangeLength"),
    (Items::Units, 5, &[], "OutOfRangeLength"),
    (
        Items::Chars,
        4,
        &[65, 0, 0, 0, 0, 0xd8, 0, 0],
        "InvalidChar",
    ),
    (Items::Chars, 4, &[65, 0, 0, 0, 0, 0xd8, 0], "['A']"),
];

#[test]
fn items_are_read_until_the_bytes_end(rt: HostRuntime) {
    for (items, greatest, bytes, shown) in ROWS {
        let rest = Rest {
            items,
            greatest,
            shown,
        };
        read_by_each(&rt, rt.alloc(), Endianness::LittleEndian, bytes, &rest);
    }
}

#[test]
fn a_count_past_a_buffer_is_an_end_and_a_fault_in_a_stream(rt: HostRuntime) {
    let alloc = rt.alloc();
    let order = Endianness::LittleEndian;
    let bytes = [1, 0, 0, 0, 65, 0, 0, 0, 2, 0, 0, 0, 0, 0xd8, 0, 0];
    // The buffer knows that two characters need more bytes than are left, and reads none of them.
    let mut reader = BufferReader::new(alloc, order, &bytes);
    let shown = show_rest(&rt, alloc, Items::Lists, 4, &mut reader);
    assert_same(&rt, shown.as_str(), "[['A']]");
    let mut source = bytes.as_slice();
    let reader = StreamReader::new(alloc, order, &mut source, true);
    let mut reader = reader.expect(&rt, "a reader");
    let shown = show_rest(&rt, alloc, Items::Lists, 4, &mut reader);
    assert_same(&rt, shown.as_str(), "InvalidChar");
}

#[test]
fn a_cow_of_the_rest_is_owned(rt: HostRuntime) {
    let mut reader = BufferReader::new(rt.alloc(), Endianness::LittleEndian, &[1, 2, 3]);
    let rest: Result<CowSlice<'_, u8>, Error> = reader.read_cow_until_eof(3);
    match rest {
        Ok(CowSlice::Owned(bytes)) => assert_same(&rt, bytes.as_slice(), [1, 2, 3].as_slice()),
        _ => assert!(rt; false, "it is owned"),
    }
}

#[test]
fn a_demand_holds_until_the_end(rt: HostRuntime) {
    let alloc = rt.alloc();
    let mut reader = BufferReader::new(alloc, StrictLittleEndian {}, &[5, 0x80, 5]);
    let outcome = reader.read_vec_until_eof::<VarInt64>(4);
    assert_refused(&rt, alloc, outcome, "NotWrittenForm");
}
