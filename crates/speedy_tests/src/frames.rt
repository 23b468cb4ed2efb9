//! Frames: what fills them, what does not, and what is still there.
use crate::asserting::{assert_bytes, assert_refused, assert_same};
use speedy::context::{LittleEndian, StrictLittleEndian};
use speedy::endianness::Endianness;
use speedy::error::{Error, IsEof};
use speedy::prefixed::{Framed, Prefixed, ReadPrefix, U7, WritePrefix};
use speedy::private::get_error_kind;
use speedy::readable::{BufferReader, CopyingBufferReader, OwnedReader, StreamReader};
use speedy::reader::LendingReader;
use speedy::varint::VarInt64;
use speedy::writable::Writable;
use std::alloc::Global;
use std::process::Abort;

/// A number of two bytes in a frame behind one byte.
type Short = Prefixed<u8, Framed<u16>>;

/// A byte, and a list within a frame within a frame.
type Nested = Prefixed<u16, Framed<(u8, Prefixed<u8, Framed<Vec<u16>>>)>>;

/// Reads a number in a frame from the bytes.
fn read_short(alloc: Global, bytes: &[u8]) -> Result<u16, Error> {
    let mut reader = BufferReader::new(alloc, Endianness::BigEndian, bytes);
    let frame: Short = reader.read_value()?;
    let Framed(value) = frame.value;
    Ok(value)
}

/// Reads a number in a frame from a stream of the bytes, without a buffer, and then the byte behind it.
fn stream_short(alloc: Global, bytes: &[u8]) -> Result<(u16, u8), Error> {
    let mut source = bytes;
    let mut reader = StreamReader::new(alloc, Endianness::BigEndian, &mut source, false)?;
    let frame: Short = reader.read_value()?;
    let behind = reader.read_u8()?;
    let Framed(value) = frame.value;
    Ok((value, behind))
}

/// Asserts that the bytes are the number 258 in a frame, whose length is a number of the type `N` in the big order.
fn assert_framed<N: ReadPrefix + WritePrefix + Drop>(rt: &impl Abort, alloc: Global, bytes: &[u8]) {
    let order = Endianness::BigEndian;
    let mut reader = BufferReader::new(alloc, order, bytes);
    let frame: Prefixed<N, Framed<u16>> = reader.read_value().expect(rt, "a frame");
    assert_same(rt, frame.value.0, 258);
    let written = frame
        .write_to_vec_with_ctx(alloc, order)
        .expect(rt, "bytes");
    assert_bytes(rt, written.as_slice(), bytes);
}

#[test]
fn a_frame_is_a_number_of_bytes_and_these(rt: HostRuntime) {
    let alloc = rt.alloc();
    assert_framed::<u8>(&rt, alloc, &[2, 1, 2]);
    assert_framed::<U7>(&rt, alloc, &[2, 1, 2]);
    assert_framed::<u16>(&rt, alloc, &[0, 2, 1, 2]);
    assert_framed::<u32>(&rt, alloc, &[0, 0, 0, 2, 1, 2]);
    assert_framed::<u64>(&rt, alloc, &[0, 0, 0, 0, 0, 0, 0, 2, 1, 2]);
    assert_framed::<VarInt64>(&rt, alloc, &[2, 1, 2]);
}

#[test]
fn a_value_fills_its_frame(rt: HostRuntime) {
    let alloc = rt.alloc();
    assert_refused(
        &rt,
        alloc,
        read_short(alloc, &[3, 1, 2, 3]),
        "OutOfRangeLength",
    );
    assert_refused(
        &rt,
        alloc,
        read_short(alloc, &[1, 1, 2]),
        "OutOfRangeLength",
    );
    assert_refused(
        &rt,
        alloc,
        read_short(alloc, &[0, 1, 2]),
        "OutOfRangeLength",
    );
}

#[test]
fn a_frame_that_is_cut_is_an_end(rt: HostRuntime) {
    let alloc = rt.alloc();
    for bytes in [[].as_slice(), &[2], &[2, 1], &[3, 1, 2], &[1]] {
        assert_refused(&rt, alloc, read_short(alloc, bytes), "UnexpectedEndOfInput");
    }
}

#[test]
fn a_stream_goes_on_behind_a_frame(rt: HostRuntime) {
    let alloc = rt.alloc();
    let read = stream_short(alloc, &[2, 1, 2, 9]).expect(&rt, "a frame");
    assert_same(&rt, read, (258, 9));
    assert_refused(
        &rt,
        alloc,
        stream_short(alloc, &[3, 1, 2, 3, 9]),
        "OutOfRangeLength",
    );
    for bytes in [[].as_slice(), &[2], &[2, 1], &[3, 1, 2]] {
        let error = stream_short(alloc, bytes)
            .err()
            .expect(&rt, "it is refused");
        assert!(rt; error.is_eof(), "{:?}", get_error_kind(&error));
    }
}

#[test]
fn a_false_length_asks_a_stream_for_no_room(rt: HostRuntime) {
    let alloc = rt.alloc();
    let mut source: &[u8] = &[255, 255, 255, 255, 255, 255, 255, 127, 1];
    let reader = StreamReader::new(alloc, LittleEndian {}, &mut source, false);
    let mut reader = reader.expect(&rt, "a reader");
    let outcome = reader.read_value::<Prefixed<u64, Framed<u8>>>();
    assert!(rt; outcome.err().expect(&rt, "it is refused").is_eof());
}

#[test]
fn a_value_in_a_frame_borrows(rt: HostRuntime) {
    let alloc = rt.alloc();
    let bytes = [3, 2, 72, 105, 9];
    let mut reader = BufferReader::new(alloc, LittleEndian {}, &bytes);
    let frame: Prefixed<u8, Framed<Prefixed<u8, &str>>> = reader.read_value().expect(&rt, "a text");
    assert_same(&rt, frame.value.0.value, "Hi");
    assert_same(&rt, reader.len(), 1);
    let mut context = LittleEndian {};
    let mut reader = CopyingBufferReader::new(alloc, &mut context, &bytes);
    let outcome = reader.read_value::<Prefixed<u8, Framed<Prefixed<u8, &str>>>>();
    assert_refused(&rt, alloc, outcome, "Unsized");
}

#[test]
fn an_owned_value_is_read_from_its_frame(rt: HostRuntime) {
    let alloc = rt.alloc();
    let mut below = BufferReader::new(alloc, LittleEndian {}, &[3, 2, 72, 105, 9]);
    let mut reader: OwnedReader<&[u8], BufferReader<LittleEndian>> = OwnedReader::new(&mut below);
    let frame: Prefixed<u8, Framed<Prefixed<u8, String>>> = reader
        .read_value()
        .expect(&rt, "a text");
    assert_same(&rt, frame.value.0.value.as_str(), "Hi");
    assert_same(&rt, reader.read_u8().expect(&rt, "a byte"), 9);
}

#[test]
fn frames_nest(rt: HostRuntime) {
    let alloc = rt.alloc();
    let bytes = [10, 0, 7, 8, 2, 0, 0, 0, 1, 0, 2, 0];
    let mut reader = BufferReader::new(alloc, LittleEndian {}, &bytes);
    let frame: Nested = reader.read_value().expect(&rt, "a frame");
    assert_same(&rt, frame.value.0.1.value.0.as_slice(), &[1, 2]);
    let written = frame.write_to_vec_with_ctx(alloc, LittleEndian {});
    assert_bytes(&rt, written.expect(&rt, "bytes").as_slice(), &bytes);
}

// No byte more can make it whole.
#[test]
fn a_frame_past_the_end_of_the_one_around_it_is_refused(rt: HostRuntime) {
    let alloc = rt.alloc();
    let bytes = [10, 0, 7, 9, 2, 0, 0, 0, 1, 0, 2, 0, 0];
    let mut reader = BufferReader::new(alloc, LittleEndian {}, &bytes);
    let outcome = reader.read_value::<Nested>();
    assert_refused(&rt, alloc, outcome, "OutOfRangeLength");
}

#[test]
fn a_value_past_its_frame_is_not_written(rt: HostRuntime) {
    let alloc = rt.alloc();
    let long = vec![in alloc; 7_u8; 252].expect(&rt, "a list");
    let long: Prefixed<u8, Framed<Vec<u8>>> = Prefixed::new(Framed(long));
    let outcome = long.write_to_vec_with_ctx(alloc, LittleEndian {});
    assert_refused(&rt, alloc, outcome, "OutOfRangeLength");
    assert_refused(
        &rt,
        alloc,
        long.bytes_needed(&mut LittleEndian {}),
        "OutOfRangeLength",
    );
}

#[test]
fn a_longer_mode_fills_a_longer_frame(rt: HostRuntime) {
    let alloc = rt.alloc();
    let bytes = [2, 0x80, 5];
    let mut reader = BufferReader::new(alloc, LittleEndian {}, &bytes);
    let frame: Prefixed<u8, Framed<VarInt64>> = reader.read_value().expect(&rt, "a frame");
    assert_same(&rt, u64::from(frame.value.0), 5);
    let written = frame.write_to_vec_with_ctx(alloc, LittleEndian {});
    assert_bytes(&rt, written.expect(&rt, "bytes").as_slice(), &[1, 5]);
    let mut reader = BufferReader::new(alloc, StrictLittleEndian {}, &bytes);
    let outcome = reader.read_value::<Prefixed<u8, Framed<VarInt64>>>();
    assert_refused(&rt, alloc, outcome, "NotWrittenForm");
}
