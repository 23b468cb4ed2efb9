//! Cows are encoded as their content, whether they borrow or own it. The bytes come from outside.
use crate::asserting::assert_ok_items;
use speedy::endianness::Endianness;
use speedy::readable::BufferReader;
use speedy::reader::LendingReader;
use speedy::writable::Writable;
use std::borrow::Cow;

#[test]
fn cows_lie_as_their_content_and_own_what_is_read(rt: HostRuntime) {
    let alloc = rt.alloc();
    let order = Endianness::BigEndian;
    let written = Cow::Borrowed(&258_u16).write_to_vec_with_ctx(alloc, order);
    assert_ok_items(&rt, written, &[1, 2]);
    let mut reader = BufferReader::new(alloc, order, &[1, 2]);
    match reader.read_value::<Cow<u16>>() {
        Ok(Cow::Owned(read)) => assert!(rt; read == 258),
        _ => assert!(rt; false, "it is owned"),
    }
}
