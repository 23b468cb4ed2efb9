//! Values that have all of the bytes: what is left over, and what is the rest. The rows of `speedy_derived` have lists
//! of other items to the end.
use crate::asserting::assert_bytes;
use speedy::context::LittleEndian;
use speedy::error::Error;
use speedy::prefixed::{Framed, Prefixed};
use speedy::readable::{BufferReader, Readable};
use speedy::whole::{
    Followed, MemoryReader, ReadableWhole, Rest, UnlessEnd, WholePart, WriteWhole,
};
use speedy::writable::Writable;
use std::alloc::Global;
use std::borrow::CowSlice;

/// A byte, a number, and numbers to the end.
type Packet = Followed<(u8, u16), Rest<Vec<u16>>>;

fn read_packet(alloc: Global, bytes: &[u8]) -> Result<Packet, Error> {
    <Packet as ReadableWhole<LittleEndian>>::read_whole_from_buffer(alloc, bytes)
}

#[test]
fn a_packet_has_all_of_the_bytes(rt: HostRuntime) {
    let alloc = rt.alloc();
    let bytes = [1, 2, 0, 3, 0, 4, 0];
    let packet = read_packet(alloc, &bytes).expect(&rt, "a packet");
    assert!(&rt; packet.0 == (1, 2));
    assert!(&rt; packet.1.0.as_slice() == [3, 4].as_slice());
    let written = WriteWhole::<LittleEndian>::write_whole_to_vec(&packet, alloc).expect(
        &rt, "bytes",
    );
    assert_bytes(&rt, written.as_slice(), &bytes);
    assert!(&rt; read_packet(alloc, &bytes[..6]).is_err());
    assert!(&rt; read_packet(alloc, &bytes[..2]).is_err());
    assert!(&rt; read_packet(alloc, &bytes[..3]).expect(&rt, "no numbers").1.0.is_empty());
}

#[test]
fn a_packet_stands_in_a_frame(rt: HostRuntime) {
    let alloc = rt.alloc();
    let bytes = [7, 1, 2, 0, 3, 0, 4, 0, 9];
    let frame = <Prefixed<u8, Framed<Packet>> as Readable<LittleEndian>>::read_from_buffer(
        alloc, &bytes,
    ).expect(&rt, "a frame");
    assert!(&rt; frame.value.0.0 == (1, 2));
    let again: Prefixed<u8, _> = Prefixed::new(Framed(WholePart(&frame.value.0)));
    let written = Writable::<LittleEndian>::write_to_vec(&again, alloc).expect(&rt, "bytes");
    assert_bytes(&rt, written.as_slice(), &bytes[..8]);
}

#[test]
fn items_to_the_end_are_read_at_once(rt: HostRuntime) {
    let alloc = rt.alloc();
    let bytes = [1, 0, 2, 0];
    let mut reader = BufferReader::new(alloc, LittleEndian {}, &bytes);
    let read: Rest<Vec<u16>> = reader.read_owned_whole().expect(&rt, "a list");
    assert!(&rt; read.0.as_slice() == [1, 2].as_slice());
    let written = WriteWhole::<LittleEndian>::write_whole_to_vec(&read, alloc);
    assert_bytes(&rt, written.expect(&rt, "bytes").as_slice(), &bytes);
}

fn read_lent(alloc: Global, bytes: &[u8]) -> Result<Rest<CowSlice<'_, u8>>, Error> {
    <Rest<CowSlice<'_, u8>> as ReadableWhole<LittleEndian>>::read_whole_from_buffer(alloc, bytes)
}

#[test]
fn a_cow_borrows_the_rest_of_the_bytes(rt: HostRuntime) {
    match read_lent(rt.alloc(), &[1, 2, 3]).expect(&rt, "bytes").0 {
        CowSlice::Borrowed(lent) => assert_bytes(&rt, lent, &[1, 2, 3]),
        CowSlice::Owned(_) => assert!(&rt; false),
    }
}

/// A byte, and a number that may be missing.
type Growing = Followed<u8, UnlessEnd<u16, ()>>;

fn read_growing(alloc: Global, bytes: &[u8]) -> Result<Growing, Error> {
    <Growing as ReadableWhole<LittleEndian>>::read_whole_from_buffer(alloc, bytes)
}

#[test]
fn a_last_part_may_be_missing(rt: HostRuntime) {
    let alloc = rt.alloc();
    assert!(&rt; read_growing(alloc, &[7]).expect(&rt, "a byte") == Followed(7, UnlessEnd(None)));
    let whole = read_growing(alloc, &[7, 1, 2]).expect(&rt, "both");
    assert!(&rt; whole == Followed(7, UnlessEnd(Some((513, ())))));
    let written = WriteWhole::<LittleEndian>::write_whole_to_vec(&whole, alloc).expect(
        &rt, "bytes",
    );
    assert_bytes(&rt, written.as_slice(), &[7, 1, 2]);
    assert!(&rt; read_growing(alloc, &[]).is_err());
    assert!(&rt; read_growing(alloc, &[7, 1]).is_err());
    assert!(&rt; read_growing(alloc, &[7, 1, 2, 3]).is_err());
}
