//! Texts and bytes that end with a NUL: what is written, borrowed and refused, and where a source stands behind one.
//! The rows of `speedy_derived` have the other holders.
use crate::asserting::{
    assert_bytes, assert_encoding, assert_ok, assert_ok_items, assert_refused, make_text, make_vec,
    row,
};
use speedy::c_text::CText;
use speedy::context::{BigEndian, LittleEndian};
use speedy::error::Error;
use speedy::readable::{BufferReader, CopyingBufferReader, StreamReader};
use speedy::reader::LendingReader;
use speedy::writable::Writable;
use std::alloc::Global;
use std::borrow::CowStr;

/// The text "Hi" with its NUL, and a byte behind it.
const HI: [u8; 4] = [72, 105, 0, 9];

#[test]
fn a_text_is_written_with_a_nul_behind_it(rt: HostRuntime) {
    let alloc = rt.alloc();
    let rows: [(CText<String>, &[u8], &[u8]); 2] = [
        row!(CText(make_text(&rt, alloc, "")), [0], [0]),
        row!(
            CText(make_text(&rt, alloc, "Hi")),
            [72, 105, 0],
            [72, 105, 0]
        ),
    ];
    assert_encoding(&rt, alloc, 1, &rows);
}

/// Reads a text and the byte behind its NUL.
fn read_borrowed(alloc: Global, bytes: &[u8]) -> Result<(CText<&str>, u8), Error> {
    BufferReader::new(alloc, LittleEndian {}, bytes).read_value()
}

#[test]
fn a_text_is_borrowed_up_to_its_nul(rt: HostRuntime) {
    let alloc = rt.alloc();
    assert_ok(&rt, read_borrowed(alloc, &HI), (CText("Hi"), 9));
    assert_ok_items(
        &rt,
        CText("Hi").write_to_vec_with_ctx(alloc, BigEndian {}),
        &HI[..3],
    );
    let cut = read_borrowed(alloc, &HI[..2]);
    assert_refused(&rt, alloc, cut, "UnexpectedEndOfInput");
    let other = read_borrowed(alloc, &[72, 255, 0, 9]);
    assert_refused(&rt, alloc, other, "InvalidUtf8");
}

#[test]
fn a_reader_that_copies_lends_no_text(rt: HostRuntime) {
    let alloc = rt.alloc();
    let mut context = LittleEndian {};
    let mut reader = CopyingBufferReader::new(alloc, &mut context, &HI);
    let outcome: Result<CText<&str>, Error> = reader.read_value();
    assert_refused(&rt, alloc, outcome, "Unsized");
    let owned: CText<CowStr> = reader.read_value().expect(&rt, "a text");
    assert!(rt; matches!(owned.0, CowStr::Owned(_)));
    assert_bytes(&rt, owned.0.as_ref().as_bytes(), &HI[..2]);
}

#[test]
fn a_source_is_read_up_to_the_nul(rt: HostRuntime) {
    let alloc = rt.alloc();
    let mut source = HI.as_slice();
    let reader = StreamReader::new(alloc, LittleEndian {}, &mut source, false);
    let mut reader = reader.expect(&rt, "a reader");
    let read: CText<Vec<u8>> = reader.read_value().expect(&rt, "bytes");
    assert_bytes(&rt, read.0.as_slice(), &HI[..2]);
    assert_bytes(&rt, *reader.into_source(), &[9]);
}

#[test]
fn a_nul_within_is_not_written(rt: HostRuntime) {
    let alloc = rt.alloc();
    let text = CText("H\0i").write_to_vec_with_ctx(alloc, LittleEndian {});
    assert_refused(&rt, alloc, text, "OutOfRangeLength");
    let bytes = CText(make_vec(&rt, alloc, &[0_u8]).into_boxed_slice());
    let written = bytes.write_to_vec_with_ctx(alloc, LittleEndian {});
    assert_refused(&rt, alloc, written, "OutOfRangeLength");
}
