//! Lists that lie where they were read: how they are read, written again in either order, shown and walked.
use crate::asserting::{assert_bytes, assert_kind, assert_ok, assert_ok_items, assert_refused};
use speedy::context::{BigEndian, LittleEndian, StrictLittleEndian};
use speedy::encoded::{EncodedList, ListItem, WriteListItem, measure_items, write_first_item};
use speedy::error::Error;
use speedy::exports::{ListView, Walk, check, next, read, write};
use speedy::in_place::InPlace;
use speedy::readable::BufferReader;
use speedy::{
    Context, Endianness, F32, ItemByItem, Layout, LendingReader, ReadFrom, Readable, Writable,
    Writer,
};
use std::alloc::Global;
use std::convert::AsSlice;
use std::process::Abort;

/// A value of no bytes.
#[derive(Debug, PartialEq, Drop)]
struct Nothing {
    value: (),
}

impl Layout for Nothing {
    ghost Seen = { ⟦<() as Layout>⟧.Seen };

    ghost seen = { λ it. ⟦<() as Layout>⟧.seen it.value };

    ghost layout = { ⟦<() as Layout>⟧.layout };
}

impl<L: AsSlice<u8> + Drop, C: Context> ReadFrom<L, C> for Nothing {
    type Strategy = ItemByItem<C>;

    fn read_from<R: LendingReader<L, C>>(reader: &mut R) -> Result<Nothing, C::Error> {
        match reader.read_value() {
            Ok(value) => Ok(Nothing { value }),
            Err(error) => Err(error),
        }
    }

    fn minimum_bytes_needed() -> usize {
        0
    }
}

impl<C: Context> Writable<C> for Nothing {
    fn write_to<W: Writer<C>>(&self, writer: &mut W) -> Result<(), C::Error> {
        writer.write_value(&self.value)
    }
}

impl InPlace for Nothing {
    ghost Seen = { ⟦<() as InPlace>⟧.Seen };

    ghost in_place = { ⟦<() as InPlace>⟧.in_place };
}

impl ListItem for Nothing {
    fn measure<C: Context>(
        alloc: Global,
        context: C,
        count: usize,
        bytes: &[u8],
    ) -> Result<usize, C::Error> {
        measure_items::<Nothing, C>(alloc, context, count, bytes)
    }
}

impl<C: Context> WriteListItem<C> for Nothing {
    fn write_first<W: Writer<C>>(
        alloc: Global,
        order: Endianness,
        bytes: &[u8],
        writer: &mut W,
    ) -> Option<(usize, Result<(), C::Error>)> {
        write_first_item::<Nothing, C, W>(alloc, order, bytes, writer)
    }
}

type Texts<'a> = EncodedList<'a, &'a str>;

/// The texts `a` and `bc` behind their number, in little endian.
const TEXTS: [u8; 15] = [2, 0, 0, 0, 1, 0, 0, 0, 97, 2, 0, 0, 0, 98, 99];

/// The same in big endian.
const TEXTS_BIG: [u8; 15] = [0, 0, 0, 2, 0, 0, 0, 1, 97, 0, 0, 0, 2, 98, 99];

/// The list that the bytes begin with, in little endian, and how many of them it has.
fn read_texts(alloc: Global, bytes: &[u8]) -> (Result<Texts<'_>, Error>, usize) {
    <Texts as Readable<LittleEndian>>::read_with_length_from_buffer(alloc, bytes)
}

#[test]
fn a_list_lies_where_its_bytes_do(rt: HostRuntime) {
    let alloc = rt.alloc();
    let mut more = [9; 16];
    more[..15].copy_from_slice(&TEXTS);
    let (read, size) = read_texts(alloc, &more);
    assert!(&rt; size == 15);
    let list = read.expect(&rt, "a list");
    assert!(&rt; list.len() == 2 && !list.is_empty());
    assert!(&rt; list.order() == Endianness::LittleEndian);
    assert_bytes(&rt, list.bytes(), &TEXTS[4..]);
    let (none, _) = read_texts(alloc, &[0; 4]);
    assert!(&rt; none.expect(&rt, "a list").is_empty());
}

#[test]
fn the_items_of_a_list_are_read_one_by_one(rt: HostRuntime) {
    let alloc = rt.alloc();
    let two = [0, 0, 0, 2, 0, 1, 0, 2, 9];
    let mut reader = BufferReader::new(alloc, BigEndian {}, &two);
    let list: EncodedList<u16> = reader.read_value().expect(&rt, "a list");
    assert_bytes(&rt, list.bytes(), &two[4..8]);
    let mut items = list.reader();
    assert_ok(&rt, items.read_u16(), 1);
    assert_ok(&rt, items.read_u16(), 2);
    assert!(&rt; items.is_empty());
}

#[test]
fn a_list_of_items_without_bytes_is_read_at_once(rt: HostRuntime) {
    let bytes = [255; 5];
    let mut reader = BufferReader::new(rt.alloc(), LittleEndian {}, &bytes);
    let list: EncodedList<Nothing> = reader.read_value().expect(&rt, "a list");
    assert!(&rt; list.len() == 0xffff_ffff && list.bytes().is_empty());
}

/// The error of bytes that begin with no list.
fn refusal(rt: &impl Abort, alloc: Global, bytes: &[u8]) -> Error {
    match read_texts(alloc, bytes) {
        (Ok(_), _) => panic!(rt; "it is read"),
        (Err(error), _) => error,
    }
}

/// The error where nothing is lent.
fn refusal_of_a_copy(rt: &impl Abort, alloc: Global, bytes: &[u8]) -> Error {
    match <Texts as Readable<LittleEndian>>::read_from_buffer_copying_data(alloc, bytes) {
        Ok(_) => panic!(rt; "it is read"),
        Err(error) => error,
    }
}

#[test]
fn what_is_no_list_is_refused(rt: HostRuntime) {
    let alloc = rt.alloc();
    // Cut before an item, and within one.
    for end in [4, 10, 14] {
        let error = refusal(&rt, alloc, &TEXTS[..end]);
        assert_kind(&rt, alloc, &error, "UnexpectedEndOfInput");
    }
    let mut other = TEXTS;
    other[13] = 0xff;
    let error = refusal(&rt, alloc, &other);
    assert_kind(&rt, alloc, &error, "InvalidUtf8");
    // Where nothing is lent, also of a list that is empty.
    for bytes in [&TEXTS[..], &[0; 4]] {
        let error = refusal_of_a_copy(&rt, alloc, bytes);
        assert_kind(&rt, alloc, &error, "Unsized");
    }
}

/// Two flags, of which the second is not in its canonical encoding.
const FLAGS: [u8; 6] = [2, 0, 0, 0, 1, 2];

#[test]
fn a_strict_context_takes_canonical_items_alone(rt: HostRuntime) {
    let alloc = rt.alloc();
    for (length, kind) in [(6, "NotWrittenForm"), (5, "UnexpectedEndOfInput")] {
        let mut reader = BufferReader::new(alloc, StrictLittleEndian {}, &FLAGS[..length]);
        let outcome: Result<EncodedList<bool>, Error> = reader.read_value();
        assert_refused(&rt, alloc, outcome, kind);
    }
}

#[test]
fn items_are_written_in_their_canonical_encoding(rt: HostRuntime) {
    let alloc = rt.alloc();
    let mut reader = BufferReader::new(alloc, LittleEndian {}, &FLAGS);
    let list: EncodedList<bool> = reader.read_value().expect(&rt, "a list");
    let written = Writable::<LittleEndian>::write_to_vec(&list, alloc);
    assert_ok_items(&rt, written, &[2, 0, 0, 0, 1, 1]);
}

#[test]
fn a_list_is_written_in_either_order(rt: HostRuntime) {
    let alloc = rt.alloc();
    let (read, _) = read_texts(alloc, &TEXTS);
    let list = read.expect(&rt, "a list");
    for (order, bytes) in [
        (Endianness::LittleEndian, &TEXTS),
        (Endianness::BigEndian, &TEXTS_BIG),
    ] {
        assert_ok_items(&rt, list.write_to_vec_with_ctx(alloc, order), bytes);
    }
    let mut short = [0; 14];
    let outcome = Writable::<LittleEndian>::write_to_buffer(&list, &mut short);
    let kind = "OutputBufferIsTooSmall { actual_size: 14, expected_size: 15 }";
    assert_refused(&rt, alloc, outcome, kind);
}

fn empty_list() -> ListView<'static> {
    ListView {
        items: Walk { left: &[] },
        count: 0,
        order: 0,
    }
}

#[test]
fn a_list_is_shown_and_written_again(rt: HostRuntime) {
    let alloc = rt.alloc();
    let mut view = empty_list();
    let mut size = 0;
    assert!(&rt; read::<Texts, ListView>(alloc, &TEXTS_BIG, 1, &mut view, &mut size) == 0);
    assert!(&rt; size == 15 && view.count == 2 && view.order == 1);
    assert_bytes(&rt, view.items.left, &TEXTS_BIG[4..]);
    let mut buffer = [9; 16];
    assert!(&rt; write::<Texts, ListView>(alloc, &view, 0, &mut buffer, &mut size) == 0);
    assert!(&rt; size == 15 && buffer[..15] == TEXTS[..] && buffer[15] == 9);
}

#[test]
fn texts_and_bytes_are_walked(rt: HostRuntime) {
    let alloc = rt.alloc();
    let mut items = Walk { left: &TEXTS[4..] };
    let mut text: &[u8] = &[];
    assert!(&rt; next::<&str, &[u8]>(alloc, &mut items, 0, &mut text) == 0);
    assert_bytes(&rt, text, b"a");
    assert!(&rt; next::<&[u8], &[u8]>(alloc, &mut items, 0, &mut text) == 0);
    assert_bytes(&rt, text, b"bc");
    assert!(&rt; items.left.is_empty());
}

/// A list of one list of two numbers, in little endian.
const NESTED: [u8; 12] = [1, 0, 0, 0, 2, 0, 0, 0, 7, 0, 8, 0];

#[test]
fn lists_are_items_too(rt: HostRuntime) {
    let alloc = rt.alloc();
    let mut size = 0;
    assert!(&rt; check::<EncodedList<EncodedList<u16>>>(alloc, &NESTED, 0, &mut size) == 0);
    assert!(&rt; size == 12);
    let mut lists = Walk { left: &NESTED[4..] };
    let mut view = empty_list();
    assert!(&rt; next::<EncodedList<u16>, ListView>(alloc, &mut lists, 0, &mut view) == 0);
    assert!(&rt; view.count == 2 && lists.left.is_empty());
    assert_bytes(&rt, view.items.left, &NESTED[8..]);
}

#[test]
fn numbers_flags_and_characters_are_items_too(rt: HostRuntime) {
    let alloc = rt.alloc();
    let mut numbers = Walk {
        left: &[1, 0, 2, 0],
    };
    let mut number = 0;
    assert!(&rt; next::<u16, u16>(alloc, &mut numbers, 0, &mut number) == 0 && number == 1);
    assert!(&rt; next::<u16, u16>(alloc, &mut numbers, 1, &mut number) == 0 && number == 512);
    let mut flags = Walk { left: &[1, 0] };
    let mut flag = 0;
    assert!(&rt; next::<bool, u8>(alloc, &mut flags, 0, &mut flag) == 0 && flag == 1);
    let mut characters = Walk {
        left: &[65, 0, 0, 0],
    };
    let mut character = 0;
    assert!(&rt; next::<char, u32>(alloc, &mut characters, 0, &mut character) == 0);
    assert!(&rt; character == 65);
    let mut floats = Walk {
        left: &[0, 0, 128, 63],
    };
    assert!(&rt; next::<F32, u32>(alloc, &mut floats, 0, &mut character) == 0);
    assert!(&rt; character == 0x3f80_0000);
}

#[test]
fn a_view_of_no_list_is_refused(rt: HostRuntime) {
    let alloc = rt.alloc();
    let mut size = 0;
    let mut buffer = [9; 16];
    let view = ListView {
        items: Walk { left: &TEXTS[4..] },
        count: 2,
        order: 0,
    };
    assert!(&rt; write::<Texts, ListView>(alloc, &view, 0, &mut buffer, &mut size) == 0);
    // Too many items, too few, another byte order, and none.
    for (count, order) in [(3, 0), (1, 0), (2, 1), (2, 2)] {
        let mut other = view;
        other.count = count;
        other.order = order;
        let answer = write::<Texts, ListView>(alloc, &other, 0, &mut buffer, &mut size);
        assert!(&rt; answer == 6 && size == 0);
    }
}
