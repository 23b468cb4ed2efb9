//! Numbers in each form over a buffer, with a context and without one.
//!
//! Numbers of other widths are lines of `stdin` in `speedy_vectors`.
use crate::asserting::{assert_encoding, assert_ok_items, assert_same, row};
use speedy::context::{LittleEndian, PlainContext};
use speedy::readable::{ReadMany, Readable};
use speedy::writable::Writable;
use std::alloc::Global;
use std::fmt::Debug;
use std::process::Abort;

#[test]
fn numbers_lie_in_the_order_of_their_context(rt: HostRuntime) {
    let rows: [(u16, &[u8], &[u8]); 2] = [
        row!(258, [2, 1], [1, 2]),
        row!(65_534, [254, 255], [255, 254]),
    ];
    assert_encoding(&rt, rt.alloc(), 2, &rows);
}

/// Asserts that each form without a context reads the value, of `count` bytes at the front.
fn assert_read_without_context<'a, C: PlainContext, T: ReadMany<&'a [u8], C> + Debug + PartialEq>(
    rt: &impl Abort,
    alloc: Global,
    value: &T,
    bytes: &'a [u8],
    count: usize,
)
where
    C::Error: Debug,
{
    let read = T::read_from_buffer(alloc, bytes).expect(rt, "a value");
    assert_same(rt, &read, value);
    let (outcome, length) = T::read_with_length_from_buffer(alloc, bytes);
    assert_same(rt, &outcome.expect(rt, "a value"), value);
    assert_same(rt, length, count);
    let read = T::read_from_buffer_copying_data(alloc, bytes).expect(rt, "a value");
    assert_same(rt, &read, value);
    let (outcome, length) = T::read_with_length_from_buffer_copying_data(alloc, bytes);
    assert_same(rt, &outcome.expect(rt, "a value"), value);
    assert_same(rt, length, count);
}

#[test]
fn numbers_lie_in_the_little_order_without_a_context(rt: HostRuntime) {
    let alloc = rt.alloc();
    let written = Writable::<LittleEndian>::write_to_vec(&258_u16, alloc);
    assert_ok_items(&rt, written, &[2, 1]);
    assert_read_without_context::<LittleEndian, u16>(&rt, alloc, &258, &[2, 1, 9], 2);
}
