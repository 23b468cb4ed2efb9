//! Files of captured packets, read and written again, and streams of them.
ghost use Rattle.speedy.specs.Mode.{plain_mode};
ghost use Rattle.speedy.specs.Reading.{ReadsValue};
ghost use Rattle.speedy.specs.ReadWholes.{AnswersWhole};
ghost use Rattle.speedy.specs.WaysOfWriting.{WritesToVecIn};

use crate::pcap::{Capture, Packet};
use speedy::device::Source;
use speedy::error::{ErrorKind, get_error_kind};
use speedy::readable::StreamReader;
use speedy::whole::{ReadableWhole, Whole, WriteWhole};
use speedy::{Endianness, Error, IsEof, Layout, LendingReader};
use std::alloc::Global;
use std::convert::AsSlice;

/// The byte order of a file that begins so, and whether its packets have nanoseconds in place of microseconds, where
/// it begins with a magic number (section 4).
pub(crate) fn order_of(bytes: &[u8]) -> Option<(Endianness, bool)> {
    if bytes.starts_with(b"\xd4\xc3\xb2\xa1") {
        Some((Endianness::LittleEndian, false))
    } else if bytes.starts_with(b"\xa1\xb2\xc3\xd4") {
        Some((Endianness::BigEndian, false))
    } else if bytes.starts_with(b"\x4d\x3c\xb2\xa1") {
        Some((Endianness::LittleEndian, true))
    } else if bytes.starts_with(b"\xa1\xb2\x3c\x4d") {
        Some((Endianness::BigEndian, true))
    } else {
        None
    }
}

/// The header and the packets that all of the bytes are. The packets lie in the bytes.
pub fn read_capture<'a>(
    alloc: Global,
    order: Endianness,
    bytes: &'a [u8],
) -> Result<Capture<'a>, Error>
    ensures { let it = ⟦<Capture<'a> as Whole>⟧ in
        AnswersWhole ⟦<Error as IsEof>⟧ it.seen it.whole (plain_mode order) result bytes.now }
{
    <Capture<'a> as ReadableWhole<Endianness>>::read_whole_from_buffer_with_ctx(alloc, order, bytes)
}

/// The bytes of a file of packets. A packet whose number of captured bytes is not that of its bytes is refused.
pub fn capture_bytes<'a>(
    alloc: Global,
    order: Endianness,
    capture: &Capture<'a>,
) -> Result<Vec<u8>, Error>
    ensures { let it = ⟦<Capture<'a> as Whole>⟧ in
        WritesToVecIn ⟦<Error as From<Error>>⟧.from_gives (it.whole.format (plain_mode order))
        (it.seen capture.now) (λ bytes. bytes.items) result }
{
    capture.write_whole_to_vec_with_ctx(alloc, order)
}

/// Reads the next packet of a stream. It owns its bytes.
pub fn read_packet<'a, 's, S: Source>(
    reader: &mut StreamReader<'s, S, Endianness>,
) -> Result<Packet<'a>, Error>
    ensures { let it = ⟦<Packet<'a> as Layout>⟧ in
        let reads = ⟦<StreamReader<'s, S, Endianness> as LendingReader<&'a [u8], Endianness>>⟧ in
        ReadsValue ⟦<Error as IsEof>⟧ reads.state it.seen it.layout result reader.old reader.new }
{
    reader.read_value()
}

/// Whether a reader has no byte left.
fn is_ended<L: AsSlice<u8> + Drop, R: LendingReader<L, Endianness>>(
    reader: &mut R,
) -> Result<bool, Error> {
    match reader.peek_u8() {
        Ok(_) => Ok(false),
        Err(error) => match get_error_kind(&error) {
            ErrorKind::UnexpectedEndOfInput => Ok(true),
            _ => Err(error),
        },
    }
}

/// The next packet of a stream, or `None` where it has no byte left.
pub(crate) fn next_packet<'a, S: Source>(
    reader: &mut StreamReader<'_, S, Endianness>,
) -> Result<Option<Packet<'a>>, Error> {
    if is_ended::<&[u8], _>(reader)? {
        return Ok(None);
    }
    match read_packet(reader) {
        Ok(packet) => Ok(Some(packet)),
        Err(error) => Err(error),
    }
}
