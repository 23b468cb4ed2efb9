//! Lengths and tags of each width, and constants: bytes that come from outside.
ghost use Rattle.std.specs.Prelude.{codes};

use crate::asserting::{assert_bytes, assert_refused, assert_same, make_text};
use speedy::context::LittleEndian;
use speedy::endianness::Endianness;
use speedy::magic::{Constant, Magic};
use speedy::prefixed::{Prefixed, ReadPrefix, U7, WritePrefix, lent_option, option_value};
use speedy::readable::{BufferReader, CopyingBufferReader};
use speedy::reader::LendingReader;
use speedy::varint::VarInt64;
use speedy::writable::{BufferCollector, Writable};
use speedy::writer::Writer;
use std::alloc::Global;
use std::process::Abort;

/// Asserts that the bytes are the text "Hi" behind its length, a number of the type `N` in the big order.
fn assert_behind<N: ReadPrefix + WritePrefix + Drop>(rt: &impl Abort, alloc: Global, bytes: &[u8]) {
    let order = Endianness::BigEndian;
    let mut reader = BufferReader::new(alloc, order, bytes);
    let text: Prefixed<N, String> = reader.read_value().expect(rt, "a text");
    assert_same(rt, text.value.as_str(), "Hi");
    let written = text.write_to_vec_with_ctx(alloc, order).expect(rt, "bytes");
    assert_bytes(rt, written.as_slice(), bytes);
}

#[test]
fn a_length_has_the_width_of_its_type(rt: HostRuntime) {
    let alloc = rt.alloc();
    assert_behind::<u8>(&rt, alloc, &[2, 72, 105]);
    assert_behind::<U7>(&rt, alloc, &[2, 72, 105]);
    assert_behind::<u16>(&rt, alloc, &[0, 2, 72, 105]);
    assert_behind::<u32>(&rt, alloc, &[0, 0, 0, 2, 72, 105]);
    assert_behind::<u64>(&rt, alloc, &[0, 0, 0, 0, 0, 0, 0, 2, 72, 105]);
    assert_behind::<VarInt64>(&rt, alloc, &[2, 72, 105]);
}

#[test]
fn a_list_stands_behind_a_length_of_variable_width(rt: HostRuntime) {
    let alloc = rt.alloc();
    let numbers = vec![in alloc; 7_u8; 128].expect(&rt, "a list");
    let list: Prefixed<VarInt64, Vec<u8>> = Prefixed::new(numbers);
    let bytes = list
        .write_to_vec_with_ctx(alloc, LittleEndian {})
        .expect(&rt, "bytes");
    assert!(rt; bytes.as_slice().starts_with(&[0x80, 0x80, 7]));
    let mut reader = BufferReader::new(alloc, LittleEndian {}, &bytes);
    let again: Prefixed<VarInt64, Vec<u8>> = reader.read_value().expect(&rt, "a list");
    assert_bytes(&rt, again.value.as_slice(), list.value.as_slice());
}

#[test]
fn an_option_is_lent_behind_the_length_of_its_value(rt: HostRuntime) {
    let alloc = rt.alloc();
    let text = Some(make_text(&rt, alloc, "Hi"));
    let lent: Option<Prefixed<u16, _>> = lent_option(&text);
    let bytes = lent
        .write_to_vec_with_ctx(alloc, LittleEndian {})
        .expect(&rt, "bytes");
    assert_bytes(&rt, bytes.as_slice(), &[1, 2, 0, 72, 105]);
    let mut reader = BufferReader::new(alloc, LittleEndian {}, &bytes);
    let read: Option<Prefixed<u16, String>> = reader.read_value().expect(&rt, "an option");
    let again = option_value(read).expect(&rt, "a text");
    assert_same(&rt, again.as_str(), "Hi");
}

/// A text of `length` bytes.
fn text_of(rt: &impl Abort, alloc: Global, length: usize) -> String {
    make_text(rt, alloc, "a")
        .repeat(alloc, length)
        .expect(rt, "a text")
}

#[test]
fn a_length_past_its_type_is_refused(rt: HostRuntime) {
    let alloc = rt.alloc();
    let long: Prefixed<u8, String> = Prefixed::new(text_of(&rt, alloc, 256));
    let outcome = long.write_to_vec_with_ctx(alloc, LittleEndian {});
    assert_refused(&rt, alloc, outcome, "OutOfRangeLength");
    let long: Prefixed<U7, String> = Prefixed::new(text_of(&rt, alloc, 128));
    let outcome = long.write_to_vec_with_ctx(alloc, LittleEndian {});
    assert_refused(&rt, alloc, outcome, "OutOfRangeLength");
    let mut reader = BufferReader::new(alloc, LittleEndian {}, &[128, 97]);
    let outcome = reader.read_value::<Prefixed<U7, String>>();
    assert_refused(&rt, alloc, outcome, "OutOfRangeLength");
}

#[test]
fn a_refused_length_writes_nothing(rt: HostRuntime) {
    let alloc = rt.alloc();
    let long: Prefixed<u8, String> = Prefixed::new(text_of(&rt, alloc, 256));
    let mut context = LittleEndian {};
    let mut buffer = [9; 300];
    let mut writer = BufferCollector::new(&mut context, &mut buffer);
    assert_refused(&rt, alloc, writer.write_value(&long), "OutOfRangeLength");
    assert_same(&rt, writer.finish(), 0);
    assert_same(&rt, buffer[0], 9);
}

#[test]
fn a_text_behind_one_byte_borrows(rt: HostRuntime) {
    let alloc = rt.alloc();
    let bytes = [2, 72, 105];
    let mut reader = BufferReader::new(alloc, LittleEndian {}, &bytes);
    let text: Prefixed<u8, &str> = reader.read_value().expect(&rt, "a text");
    assert_same(&rt, text.value, "Hi");
    let mut context = LittleEndian {};
    let mut reader = CopyingBufferReader::new(alloc, &mut context, &bytes);
    let outcome = reader.read_value::<Prefixed<u8, &str>>();
    assert_refused(&rt, alloc, outcome, "Unsized");
}

/// What a file begins with.
#[derive(Drop)]
struct Start {}

impl Constant for Start {
    ghost bytes = { codes "SP" };

    fn bytes() -> &'static [u8] {
        b"SP"
    }
}

#[test]
fn a_constant_is_itself_and_nothing_else(rt: HostRuntime) {
    let alloc = rt.alloc();
    let bytes = Magic::<Start>::new().write_to_vec_with_ctx(alloc, LittleEndian {});
    assert_bytes(&rt, bytes.expect(&rt, "bytes").as_slice(), b"SP");
    let mut reader = BufferReader::new(alloc, LittleEndian {}, b"SQ");
    let outcome = reader.read_value::<Magic<Start>>();
    assert_refused(
        &rt,
        alloc,
        outcome,
        "ExpectedConstant { constant: [83, 80] }",
    );
}
