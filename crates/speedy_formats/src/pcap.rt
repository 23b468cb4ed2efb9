//! Files of captured packets (pcap), by the draft "PCAP Capture File Format" of the IETF's group opsawg. The magic
//! number tells the order of all numbers.
//!
//! Made from `pcap.rs` by `tools/derive`: change that, and make this again.
ghost use Rattle.std.specs.Prelude.{codes, ◌≡◌};

use speedy::lengths::{Length, OfLength, Other, WithLength};
use speedy::whole::{EndsWithInput, Followed, MemoryReader, ReadToEnd, Rest, Whole, WriteToEnd};
use speedy::{Context, ItemByItem, Layout, LendingReader, Part, ReadFrom, Writable, Writer};
use std::borrow::CowSlice;
use std::convert::AsSlice;
use std::marker::PhantomData;

/// What a file begins with (section 4).
#[derive(Drop)]
pub struct FileHeader {
    pub magic: u32,
    pub major: u16,
    pub minor: u16,
    pub reserved: [u8; 8],
    /// The most bytes that are kept of a packet.
    pub longest: u32,
    /// What the packets begin with, in the lower 16 bits: 1 is Ethernet.
    pub link: u32,
}

/// What [`FileHeader`] is read and written as.
type FileHeaderParts = (u32, u16, u16, [u8; 8], u32, u32);

impl Layout for FileHeader {
    ghost Seen = { ⟦<FileHeaderParts as Layout>⟧.Seen };

    ghost seen = { λ it. ⟦<FileHeaderParts as Layout>⟧.seen (
      it.magic,
      it.major,
      it.minor,
      it.reserved,
      it.longest,
      it.link,
    ) };

    ghost layout = { ⟦<FileHeaderParts as Layout>⟧.layout };
}

impl<L: AsSlice<u8> + Drop, C: Context> ReadFrom<L, C> for FileHeader {
    type Strategy = ItemByItem<C>;

    fn read_from<R: LendingReader<L, C>>(reader: &mut R) -> Result<FileHeader, C::Error> {
        match reader.read_value() {
            Ok(parts) => {
                let (magic, major, minor, reserved, longest, link) = parts;
                Ok(FileHeader {
                    magic,
                    major,
                    minor,
                    reserved,
                    longest,
                    link,
                })
            }
            Err(error) => Err(error),
        }
    }

    fn minimum_bytes_needed() -> usize {
        24
    }
}

impl<C: Context> Writable<C> for FileHeader {
    fn write_to<W: Writer<C>>(&self, writer: &mut W) -> Result<(), C::Error> {
        writer.write_value(&(
            self.magic,
            self.major,
            self.minor,
            Part(&self.reserved),
            self.longest,
            self.link,
        ))
    }
}

/// A packet (section 5). Its bytes lie in those of a file in memory, and are owned where they come from a stream.
#[derive(Drop)]
pub struct Packet<'a> {
    /// Seconds since 1970.
    pub seconds: u32,
    /// Microseconds or nanoseconds, as the magic number tells.
    pub fraction: u32,
    /// How many bytes were kept.
    pub captured: u32,
    /// How many bytes the packet had.
    pub original: u32,
    pub bytes: CowSlice<'a, u8>,
}

/// The length of [`Packet::bytes`].
struct PacketBytesLength {}

impl Length<(u32, ())> for PacketBytesLength {
    ghost is_told = { λ _. Unit {0} };

    ghost told = { λ it. it.0 };

    ghost field = { codes "bytes" };

    fn length((captured, _): (u32, ())) -> Option<usize> {
        Some(captured as usize)
    }

    fn field() -> &'static str {
        "bytes"
    }
}

/// What [`Packet`] is read and written as.
type PacketParts<'a> = (
    u32,
    u32,
    WithLength<PacketBytesLength, (u32, Other<u32>), CowSlice<'a, u8>>,
);

impl<'a> Layout for Packet<'a> {
    ghost Seen = { ⟦<PacketParts<'a> as Layout>⟧.Seen };

    ghost seen = { λ it. (
      ⟦<u32 as Layout>⟧.seen it.seconds,
      (
        ⟦<u32 as Layout>⟧.seen it.fraction,
        ((it.captured, ⟦<u32 as Layout>⟧.seen it.original), ⟦<CowSlice<'a, u8> as Layout>⟧.seen it.bytes),
      ),
    ) };

    ghost layout = { ⟦<PacketParts<'a> as Layout>⟧.layout };
}

impl<'a, C: Context> ReadFrom<&'a [u8], C> for Packet<'a> {
    type Strategy = ItemByItem<C>;

    fn read_from<R: LendingReader<&'a [u8], C>>(reader: &mut R) -> Result<Packet<'a>, C::Error> {
        match reader.read_value::<PacketParts<'a>>() {
            Ok((seconds, fraction, bytes)) => {
                let WithLength {
                    before,
                    value: bytes,
                    length: _,
                } = bytes;
                let (captured, original) = before;
                Ok(Packet {
                    seconds,
                    fraction,
                    captured,
                    original: original.0,
                    bytes,
                })
            }
            Err(error) => Err(error),
        }
    }

    fn minimum_bytes_needed() -> usize
        ensures { result ≡ ⟦<PacketParts<'a> as Layout>⟧.layout.least }
    {
        16
    }
}

impl<'a, C: Context> Writable<C> for Packet<'a> {
    fn write_to<W: Writer<C>>(&self, writer: &mut W) -> Result<(), C::Error> {
        let bytes: WithLength<PacketBytesLength, _, _> = WithLength {
            before: (self.captured, Other(self.original)),
            value: Part(&self.bytes),
            length: PhantomData,
        };
        writer.write_value(&(self.seconds, self.fraction, bytes))
    }
}

/// A file: its header, and packets to the end.
#[derive(Drop)]
pub struct Capture<'a> {
    pub header: FileHeader,
    pub packets: Vec<Packet<'a>>,
}

/// What [`Capture`] is read and written as.
type CaptureParts<'a> = Followed<FileHeader, Rest<Vec<Packet<'a>>>>;

impl<'a> Whole for Capture<'a> {
    type Ends = EndsWithInput;

    ghost Seen = { ⟦<CaptureParts<'a> as Whole>⟧.Seen };

    ghost seen = { λ it. (⟦<FileHeader as Layout>⟧.seen it.header, ⟦<Vec<Packet<'a>> as OfLength>⟧.seen it.packets) };

    ghost whole = { ⟦<CaptureParts<'a> as Whole>⟧.whole };
}

impl<'a, C: Context> ReadToEnd<&'a [u8], C> for Capture<'a> {
    fn read_to_end<R: MemoryReader<&'a [u8], C>>(reader: &mut R) -> Result<Capture<'a>, C::Error> {
        match <CaptureParts<'a> as ReadToEnd<&'a [u8], C>>::read_to_end(reader) {
            Ok(read) => {
                let Followed(header, Rest(packets)) = read;
                Ok(Capture { header, packets })
            }
            Err(error) => Err(error),
        }
    }
}

impl<'a, C: Context> WriteToEnd<C> for Capture<'a> {
    fn write_to_end<W: Writer<C>>(&self, writer: &mut W) -> Result<(), C::Error> {
        Followed(Part(&self.header), Rest(Part(&self.packets))).write_to_end(writer)
    }
}
