//! Lists up to a mark: what is read, written and refused, and where a source stands behind the mark. The rows of
//! `speedy_derived` have other items and numbers, and lists that are cut.
use crate::asserting::{assert_bytes, assert_encoding, assert_refused, make_text, row};
use speedy::context::LittleEndian;
use speedy::readable::StreamReader;
use speedy::reader::LendingReader;
use speedy::until::ListUntil;
use speedy::writable::Writable;
use std::alloc::Global;
use std::process::Abort;

/// Texts behind numbers of two bytes, up to the number 1.
type Texts = ListUntil<u16, String, 1>;

fn make_texts(rt: &impl Abort, alloc: Global, numbers: &[usize]) -> Texts {
    let mut entries = Vec::new(alloc);
    for number in numbers {
        entries
            .push((*number, make_text(rt, alloc, "Hi")))
            .expect(rt, "memory");
    }
    ListUntil::new(entries)
}

#[test]
fn entries_are_followed_by_the_mark(rt: HostRuntime) {
    let alloc = rt.alloc();
    let rows: [(Texts, &[u8], &[u8]); 3] = [
        row!(make_texts(&rt, alloc, &[]), [1, 0], [0, 1]),
        row!(
            make_texts(&rt, alloc, &[0]),
            [0, 0, 2, 0, 0, 0, 72, 105, 1, 0],
            [0, 0, 0, 0, 0, 2, 72, 105, 0, 1]
        ),
        row!(
            make_texts(&rt, alloc, &[256, 2]),
            [0, 1, 2, 0, 0, 0, 72, 105, 2, 0, 2, 0, 0, 0, 72, 105, 1, 0],
            [1, 0, 0, 0, 0, 2, 72, 105, 0, 2, 0, 0, 0, 2, 72, 105, 0, 1]
        ),
    ];
    assert_encoding(&rt, alloc, 2, &rows);
}

#[test]
fn the_mark_is_the_number_of_no_entry(rt: HostRuntime) {
    let alloc = rt.alloc();
    let marked = make_texts(&rt, alloc, &[2, 1]).write_to_vec_with_ctx(alloc, LittleEndian {});
    assert_refused(&rt, alloc, marked, "OutOfRangeLength");
    let long = make_texts(&rt, alloc, &[65_536]).write_to_vec_with_ctx(alloc, LittleEndian {});
    assert_refused(&rt, alloc, long, "OutOfRangeLength");
}

#[test]
fn a_source_is_read_up_to_the_mark(rt: HostRuntime) {
    let alloc = rt.alloc();
    let bytes = [1, 2, 3, 9, 4];
    let mut source = bytes.as_slice();
    let reader = StreamReader::new(alloc, LittleEndian {}, &mut source, false);
    let mut reader = reader.expect(&rt, "a reader");
    let read: ListUntil<u8, u16, 9> = reader.read_value().expect(&rt, "a list");
    assert!(rt; read.entries.as_slice() == [(1, 0x302)].as_slice());
    assert_bytes(&rt, *reader.into_source(), &[4]);
}
