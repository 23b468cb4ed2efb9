//! The same bytes read by each reader.
use crate::failing::make_pieces;
use speedy::endianness::Endianness;
use speedy::readable::{BufferReader, CopyingBufferReader, StreamReader};
use speedy::reader::LendingReader;
use std::alloc::Global;
use std::convert::AsSlice;
use std::process::Abort;

/// What a test reads, by any reader.
pub(crate) trait Probe {
    fn read<L: AsSlice<u8> + Drop, R: LendingReader<L, Endianness>>(
        &self,
        rt: &impl Abort,
        alloc: Global,
        reader: &mut R,
    );
}

/// Reads from a buffer that lends its bytes, from one that is copied, and from a stream of a byte a pull, unbuffered
/// and buffered.
pub(crate) fn read_by_each(
    rt: &impl Abort,
    alloc: Global,
    order: Endianness,
    bytes: &[u8],
    probe: &impl Probe,
) {
    probe.read(rt, alloc, &mut BufferReader::new(alloc, order, bytes));
    let mut held = order;
    probe.read(
        rt,
        alloc,
        &mut CopyingBufferReader::new(alloc, &mut held, bytes),
    );
    for is_buffering in [false, true] {
        let mut source = make_pieces(bytes, 1);
        let reader = StreamReader::new(alloc, order, &mut source, is_buffering);
        probe.read(rt, alloc, &mut reader.expect(rt, "a reader"));
    }
}
