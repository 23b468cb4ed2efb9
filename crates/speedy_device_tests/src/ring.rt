//! Bytes that wait between a device and its readers.
use crate::asserting::{assert_bytes, assert_same};
use speedy::circular_buffer::CircularBuffer;
use std::alloc::Global;
use std::process::Abort;

/// A ring of the capacity, which holds these bytes.
fn make_ring(rt: &impl Abort, alloc: Global, capacity: usize, bytes: &[u8]) -> CircularBuffer {
    let mut ring = CircularBuffer::with_capacity(alloc, capacity).expect(rt, "a ring");
    append(rt, &mut ring, bytes);
    ring
}

/// Puts these bytes into the stretch that is lent, and behind those that are kept.
fn append(rt: &impl Abort, ring: &mut CircularBuffer, bytes: &[u8]) {
    let count = bytes.len();
    let stretch = ring.free(count);
    assert!(rt; stretch.len() == count, "no room for the bytes");
    stretch.copy_from_slice(bytes);
    ring.appended(count);
}

/// Takes `count` bytes.
fn consume(rt: &impl Abort, ring: &mut CircularBuffer, count: usize) {
    assert!(rt; count <= ring.len(), "too few bytes");
    ring.consume(count);
}

/// Asserts that the ring holds these bytes, in one stretch.
fn assert_holds(rt: &impl Abort, ring: &CircularBuffer, bytes: &[u8]) {
    assert_same(rt, ring.len(), bytes.len());
    assert_same(rt, ring.is_empty(), bytes.is_empty());
    let (stretch, other) = ring.as_slices();
    assert_bytes(rt, stretch, bytes);
    assert!(rt; other.is_none(), "a second stretch");
}

#[test]
fn bytes_are_taken_in_the_order_in_which_they_came(rt: HostRuntime) {
    let mut ring = make_ring(&rt, rt.alloc(), 3, &[1, 2]);
    append(&rt, &mut ring, &[3]);
    consume(&rt, &mut ring, 1);
    append(&rt, &mut ring, &[4]);
    assert_holds(&rt, &ring, &[2, 3, 4]);
    assert!(&rt; 2 <= ring.len());
    assert_bytes(&rt, ring.as_slices_of_length(2).0, &[2, 3]);
    let mut output = [0; 2];
    ring.consume_into(&mut output);
    assert_bytes(&rt, &output, &[2, 3]);
    assert_holds(&rt, &ring, &[4]);
}

#[test]
fn bytes_are_lent_as_they_are_taken(rt: HostRuntime) {
    let mut ring = make_ring(&rt, rt.alloc(), 3, &[1, 2, 3]);
    assert!(&rt; 2 <= ring.len());
    assert_bytes(&rt, ring.consume_lent(2), &[1, 2]);
    assert_holds(&rt, &ring, &[3]);
}

#[test]
fn a_reserve_keeps_the_bytes(rt: HostRuntime) {
    let mut ring = make_ring(&rt, rt.alloc(), 3, &[1, 2]);
    assert!(rt; ring.reserve(5).is_ok(), "no room");
    assert!(rt; 7 <= ring.capacity());
    append(&rt, &mut ring, &[3, 4, 5, 6, 7]);
    assert_holds(&rt, &ring, &[1, 2, 3, 4, 5, 6, 7]);
}

#[test]
fn bytes_are_moved_to_the_front_to_lend_what_fits(rt: HostRuntime) {
    let mut ring = make_ring(&rt, rt.alloc(), 3, &[1, 2]);
    consume(&rt, &mut ring, 1);
    let stretch = ring.free(2);
    assert!(rt; stretch.len() == 2);
    stretch[0] = 3;
    ring.appended(1);
    assert_holds(&rt, &ring, &[2, 3]);
}

#[test]
fn what_is_lent_is_as_long_as_what_is_asked_or_what_fits(rt: HostRuntime) {
    let mut ring = make_ring(&rt, rt.alloc(), 10, &[1, 2, 3, 4, 5, 6, 7, 8]);
    consume(&rt, &mut ring, 2);
    assert_same(&rt, ring.free(3).len(), 3);
    assert_same(&rt, ring.free(9).len(), 4);
    assert_holds(&rt, &ring, &[3, 4, 5, 6, 7, 8]);
    let mut none = make_ring(&rt, rt.alloc(), 0, &[]);
    assert_same(&rt, none.free(5).len(), 0);
    consume(&rt, &mut none, 0);
    assert_holds(&rt, &none, &[]);
}
