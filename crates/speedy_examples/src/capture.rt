//! Files of captured packets (pcap).
//!
//! Made from `capture.rs` by `tools/derive`: change that, and make this again.
ghost use Rattle.std.specs.Prelude.{codes};

use speedy::lengths::{Length, Other, WithLength};
use speedy::{Context, ItemByItem, Layout, LendingReader, Part, ReadFrom, Writable, Writer};
use std::convert::AsSlice;
use std::marker::PhantomData;

/// What a file of captured packets begins with. Its first number tells the byte order of the whole file.
#[derive(Debug, PartialEq, Drop)]
pub struct Capture {
    pub magic: u32,
    pub major: u16,
    pub minor: u16,
    pub reserved: [u8; 8],
    pub longest: u32,
    pub link: u32,
}

/// What [`Capture`] is read and written as.
type CaptureParts = (u32, u16, u16, [u8; 8], u32, u32);

impl Layout for Capture {
    ghost Seen = { ⟦<CaptureParts as Layout>⟧.Seen };

    ghost seen = { λ it. ⟦<CaptureParts as Layout>⟧.seen (
      it.magic,
      it.major,
      it.minor,
      it.reserved,
      it.longest,
      it.link,
    ) };

    ghost layout = { ⟦<CaptureParts as Layout>⟧.layout };
}

impl<L: AsSlice<u8> + Drop, C: Context> ReadFrom<L, C> for Capture {
    type Strategy = ItemByItem<C>;

    fn read_from<R: LendingReader<L, C>>(reader: &mut R) -> Result<Capture, C::Error> {
        match reader.read_value() {
            Ok(parts) => {
                let (magic, major, minor, reserved, longest, link) = parts;
                Ok(Capture {
                    magic,
                    major,
                    minor,
                    reserved,
                    longest,
                    link,
                })
            }
            Err(error) => Err(error),
        }
    }

    fn minimum_bytes_needed() -> usize {
        24
    }
}

impl<C: Context> Writable<C> for Capture {
    fn write_to<W: Writer<C>>(&self, writer: &mut W) -> Result<(), C::Error> {
        writer.write_value(&(
            self.magic,
            self.major,
            self.minor,
            Part(&self.reserved),
            self.longest,
            self.link,
        ))
    }
}

/// A packet, and how many of its bytes were captured.
#[derive(Debug, PartialEq, Drop)]
pub struct Packet {
    pub second: u32,
    pub microsecond: u32,
    pub captured: u32,
    pub original: u32,
    pub bytes: Vec<u8>,
}

/// The length of [`Packet::bytes`].
struct PacketBytesLength {}

impl Length<(u32, ())> for PacketBytesLength {
    ghost is_told = { λ _. Unit {0} };

    ghost told = { λ it. it.0 };

    ghost field = { codes "bytes" };

    fn length((captured, _): (u32, ())) -> Option<usize> {
        Some(captured as usize)
    }

    fn field() -> &'static str {
        "bytes"
    }
}

/// What [`Packet`] is read and written as.
type PacketParts = (
    u32,
    u32,
    WithLength<PacketBytesLength, (u32, Other<u32>), Vec<u8>>,
);

impl Layout for Packet {
    ghost Seen = { ⟦<PacketParts as Layout>⟧.Seen };

    ghost seen = { λ it. (
      ⟦<u32 as Layout>⟧.seen it.second,
      (
        ⟦<u32 as Layout>⟧.seen it.microsecond,
        ((it.captured, ⟦<u32 as Layout>⟧.seen it.original), ⟦<Vec<u8> as Layout>⟧.seen it.bytes),
      ),
    ) };

    ghost layout = { ⟦<PacketParts as Layout>⟧.layout };
}

impl<L: AsSlice<u8> + Drop, C: Context> ReadFrom<L, C> for Packet {
    type Strategy = ItemByItem<C>;

    fn read_from<R: LendingReader<L, C>>(reader: &mut R) -> Result<Packet, C::Error> {
        match reader.read_value::<PacketParts>() {
            Ok((second, microsecond, bytes)) => {
                let WithLength {
                    before,
                    value: bytes,
                    length: _,
                } = bytes;
                let (captured, original) = before;
                Ok(Packet {
                    second,
                    microsecond,
                    captured,
                    original: original.0,
                    bytes,
                })
            }
            Err(error) => Err(error),
        }
    }

    fn minimum_bytes_needed() -> usize {
        16
    }
}

impl<C: Context> Writable<C> for Packet {
    fn write_to<W: Writer<C>>(&self, writer: &mut W) -> Result<(), C::Error> {
        let bytes: WithLength<PacketBytesLength, _, _> = WithLength {
            before: (self.captured, Other(self.original)),
            value: Part(&self.bytes),
            length: PhantomData,
        };
        writer.write_value(&(self.second, self.microsecond, bytes))
    }
}
