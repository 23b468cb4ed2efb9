//! What a file of captured packets holds, much as `tcpdump` prints it.
use crate::captures::{capture_bytes, next_packet, order_of, read_capture};
use crate::pcap::{FileHeader, Packet};
use crate::report::{
    Broken, Failure, ShowItem, part_read, pass_values, show_items, write_again, write_rest,
};
use crate::times::Moment;
use speedy::device::Source;
use speedy::readable::{BufferReader, StreamReader};
use speedy::{Endianness, Error, LendingReader};
use std::alloc::Global;
use std::io::{self, Write};

/// The bytes of a header, and those of a packet before its own.
const HEADER: usize = 24;

const BEFORE: usize = 16;

/// Says what a file of packets holds.
pub(crate) fn show_pcap<W: Write + Drop>(
    alloc: Global,
    out: &mut W,
    bytes: &[u8],
    most: usize,
) -> Result<(), Failure> {
    let Some((order, is_fine)) = order_of(bytes) else {
        return Err(Broken::value("magic number", 0, 0, "it is none of this format"));
    };
    match read_capture(alloc, order, bytes) {
        Ok(capture) => {
            show_header(out, &capture.header, order)?;
            show_items(out, ("  ", " packets"), &capture.packets, is_fine, most)?;
            write_again(out, capture_bytes(alloc, order, &capture), bytes)
        }
        Err(error) => Err(broken(alloc, order, bytes, error)),
    }
}

/// Where a file is broken that is not read.
fn broken(alloc: Global, order: Endianness, bytes: &[u8], error: Error) -> Failure {
    let mut reader = BufferReader::new(alloc, order, bytes);
    if reader.read_value::<FileHeader>().is_err() {
        return Broken::bytes(
            "the header",
            bytes.len().saturating_sub(reader.len()),
            error,
        );
    }
    let packets = bytes.get(HEADER..).unwrap_or(b"");
    let (number, passed) = pass_values::<Packet<'_>>(alloc, order, packets);
    Broken::bytes_of("packet", number, passed.saturating_add(HEADER), error)
}

/// What packets of a number begin with.
fn link_name(link: u32) -> &'static str {
    match link & 0xffff {
        0 => "of a loopback device",
        1 => "of Ethernet",
        101 => "of IP",
        113 => "of any Linux device",
        127 => "of 802.11",
        _ => "of another link",
    }
}

/// Says what a header tells.
pub(crate) fn show_header<W: Write + Drop>(
    out: &mut W,
    header: &FileHeader,
    order: Endianness,
) -> io::Result<()> {
    let order = match order {
        Endianness::LittleEndian => "little",
        Endianness::BigEndian => "big",
    };
    writeln!(
        out,
        "  packets {} ({}), version {}.{}, in {order} endian, of at most {} bytes",
        link_name(header.link),
        header.link,
        header.major,
        header.minor,
        header.longest
    )
}

/// Its time, and how many bytes it has, beside whether its time is told in nanoseconds.
impl<'a> ShowItem<bool> for Packet<'a> {
    fn show<W: Write + Drop>(&self, out: &mut W, is_fine: bool) -> io::Result<()> {
        let digits = if is_fine { 9 } else { 6 };
        writeln!(
            out,
            "    {}.{:0digits$} UTC {} of {} bytes",
            Moment(i64::from(self.seconds)),
            self.fraction,
            self.bytes.len(),
            self.original
        )
    }
}

/// Says what a stream of packets holds, with one of them in memory at a time.
pub(crate) fn show_stream<W: Write + Drop, S: Source>(
    alloc: Global,
    out: &mut W,
    source: &mut S,
    most: usize,
) -> Result<(), Failure> {
    let mut reader = StreamReader::new(alloc, Endianness::LittleEndian, source, true)?;
    let magic = part_read("the magic number", 0, reader.peek_u32())?;
    let Some((order, is_fine)) = order_of(&magic.to_le_bytes()) else {
        return Err(Broken::value("magic number", 0, 0, "it is none of this format"));
    };
    *reader.context_mut() = order;
    show_header(
        out,
        &part_read("the header", 0, reader.read_value())?,
        order,
    )?;
    show_rest(out, &mut reader, is_fine, most)
}

/// Says what the packets of a stream are, and how many.
fn show_rest<W: Write + Drop, S: Source>(
    out: &mut W,
    reader: &mut StreamReader<'_, S, Endianness>,
    is_fine: bool,
    most: usize,
) -> Result<(), Failure> {
    let mut at = HEADER;
    for number in 0..usize::MAX {
        let packet = match next_packet(reader) {
            Ok(Some(packet)) => packet,
            Ok(None) => {
                write_rest(out, number, most)?;
                writeln!(out, "  {number} packets in all")?;
                break;
            }
            Err(error) => return Err(Broken::bytes_of("packet", number, at, error)),
        };
        if number < most {
            packet.show(out, is_fine)?;
        }
        at = at.saturating_add(BEFORE).saturating_add(packet.bytes.len());
    }
    Ok(())
}
