//! Bytes by value that a list may show where it lies: how they are read, written and held by an item.

use crate::asserting::{assert_bytes, assert_refused};
use speedy::context::{BigEndian, LittleEndian};
use speedy::encoded::{EncodedList, ListItem, WriteListItem, measure_items, write_first_item};
use speedy::in_place::InPlace;
use speedy::in_place_bytes::InPlaceBytes;
use speedy::{
    Context, Endianness, ItemByItem, Layout, LendingReader, Part, ReadFrom, Readable, Writable,
    Writer,
};
use std::alloc::Global;
use std::convert::AsSlice;
use std::process::Abort;

/// What a tool makes of a struct with an array of bytes that a list holds.
#[derive(Debug, PartialEq, Drop)]
struct Stamp {
    key: InPlaceBytes<2>,
    size: u16,
}

type StampParts = (InPlaceBytes<2>, u16);

impl Layout for Stamp {
    ghost Seen = { ⟦<StampParts as Layout>⟧.Seen };

    ghost seen = { λ it. ⟦<StampParts as Layout>⟧.seen (it.key, it.size) };

    ghost layout = { ⟦<StampParts as Layout>⟧.layout };
}

impl<L: AsSlice<u8> + Drop, C: Context> ReadFrom<L, C> for Stamp {
    type Strategy = ItemByItem<C>;

    fn read_from<R: LendingReader<L, C>>(reader: &mut R) -> Result<Stamp, C::Error> {
        match reader.read_value() {
            Ok((key, size)) => Ok(Stamp { key, size }),
            Err(error) => Err(error),
        }
    }

    fn minimum_bytes_needed() -> usize {
        4
    }
}

impl<C: Context> Writable<C> for Stamp {
    fn write_to<W: Writer<C>>(&self, writer: &mut W) -> Result<(), C::Error> {
        writer.write_value(&(Part(&self.key), self.size))
    }
}

impl InPlace for Stamp {
    ghost Seen = { ⟦<StampParts as InPlace>⟧.Seen };

    ghost in_place = { ⟦<StampParts as InPlace>⟧.in_place };
}

impl ListItem for Stamp {
    fn measure<C: Context>(
        alloc: Global,
        context: C,
        count: usize,
        bytes: &[u8],
    ) -> Result<usize, C::Error> {
        measure_items::<Stamp, C>(alloc, context, count, bytes)
    }
}

impl<C: Context> WriteListItem<C> for Stamp {
    fn write_first<W: Writer<C>>(
        alloc: Global,
        order: Endianness,
        bytes: &[u8],
        writer: &mut W,
    ) -> Option<(usize, Result<(), C::Error>)> {
        write_first_item::<Stamp, C, W>(alloc, order, bytes, writer)
    }
}

#[test]
fn bytes_by_value_are_read_and_written_in_any_order(rt: HostRuntime) {
    let alloc = rt.alloc();
    let read = <InPlaceBytes<3> as Readable<BigEndian>>::read_from_buffer_with_ctx(
        alloc,
        BigEndian {},
        &[1, 2, 3, 4],
    ).expect(&rt, "three bytes");
    assert_bytes(&rt, &read.0, &[1, 2, 3]);
    let written = Writable::<LittleEndian>::write_to_vec(&read, alloc).expect(&rt, "bytes");
    assert_bytes(&rt, written.as_slice(), &[1, 2, 3]);
    let short = <InPlaceBytes<3> as Readable<LittleEndian>>::read_from_buffer(alloc, &[1, 2]);
    assert_refused(
        &rt,
        alloc,
        short,
        "InputBufferIsTooSmall { actual_size: 2, expected_size: 3 }",
    );
}

#[test]
fn items_of_a_list_hold_bytes_by_value(rt: HostRuntime) {
    let alloc = rt.alloc();
    let bytes = [2, 0, 0, 0, 7, 8, 1, 0, 9, 10, 2, 0];
    let list = <EncodedList<Stamp> as Readable<LittleEndian>>::read_from_buffer(
        alloc, &bytes,
    ).expect(&rt, "a list");
    assert!(&rt; list.len() == 2);
    assert_bytes(&rt, list.bytes(), &bytes[4..]);
    let written = Writable::<BigEndian>::write_to_vec_with_ctx(&list, alloc, BigEndian {}).expect(
        &rt, "bytes",
    );
    assert_bytes(
        &rt,
        written.as_slice(),
        &[0, 0, 0, 2, 7, 8, 0, 1, 9, 10, 0, 2],
    );
}
