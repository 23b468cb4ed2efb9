//! Types that end where the bytes do.
ghost use Rattle.std.specs.Prelude.{◌≡◌, Some};

use speedy::lengths::OfLength;
use speedy::whole::{
    EndsWithInput, Followed, MemoryReader, ReadToEnd, ReadableWhole, Rest, UnlessEnd, Whole,
    WriteToEnd, WriteWhole,
};
use speedy::{Context, Error, Layout, LittleEndian, Part, Writer};
use std::alloc::Global;
use std::convert::AsSlice;

/// A number, another, and numbers to the end.
#[derive(Debug, PartialEq, Drop)]
pub struct Packet {
    pub a: u8,
    pub b: u16,
    pub c: Vec<u16>,
}

type PacketParts = Followed<(u8, u16), Rest<Vec<u16>>>;

impl Whole for Packet {
    type Ends = EndsWithInput;

    ghost Seen = { ⟦<PacketParts as Whole>⟧.Seen };

    ghost seen = { λ it. (⟦<(u8, u16) as Layout>⟧.seen (it.a, it.b), ⟦<Vec<u16> as OfLength>⟧.seen it.c) };

    ghost whole = { ⟦<PacketParts as Whole>⟧.whole };
}

impl<L: AsSlice<u8> + Drop, C: Context> ReadToEnd<L, C> for Packet {
    fn read_to_end<R: MemoryReader<L, C>>(reader: &mut R) -> Result<Packet, C::Error> {
        match PacketParts::read_to_end(reader) {
            Ok(Followed((a, b), Rest(c))) => Ok(Packet { a, b, c }),
            Err(error) => Err(error),
        }
    }
}

impl<C: Context> WriteToEnd<C> for Packet {
    fn write_to_end<W: Writer<C>>(&self, writer: &mut W) -> Result<(), C::Error> {
        Followed((self.a, self.b), Rest(Part(&self.c))).write_to_end(writer)
    }
}

/// A number, and two parts that may be missing at the end.
#[derive(Debug, PartialEq, Drop)]
pub struct Old {
    pub a: u8,
    pub b: u16,
    pub c: Option<String>,
}

/// The parts of an [`Old`], as they stand in bytes.
pub type OldParts = Followed<u8, UnlessEnd<u16, UnlessEnd<Option<String>, ()>>>;

impl Old {
    /// The struct of these parts. What is missing has its default.
    pub fn from_parts(parts: OldParts) -> Old
        ensures { result.a ≡ parts.0 }
    {
        let Followed(a, UnlessEnd(more)) = parts;
        match more {
            None => Old {
                a,
                b: Default::default(),
                c: Default::default(),
            },
            Some((b, UnlessEnd(more))) => match more {
                None => Old {
                    a,
                    b,
                    c: Default::default(),
                },
                Some((c, _)) => Old { a, b, c },
            },
        }
    }
}

// It is written with all its parts.
impl Whole for Old {
    type Ends = EndsWithInput;

    ghost Seen = { ⟦<OldParts as Whole>⟧.Seen };

    ghost seen = { λ it. (it.a, Some (it.b, Some (⟦<Option<String> as Layout>⟧.seen it.c, tt))) };

    ghost whole = { ⟦<OldParts as Whole>⟧.whole };
}

impl<C: Context> WriteToEnd<C> for Old {
    fn write_to_end<W: Writer<C>>(&self, writer: &mut W) -> Result<(), C::Error> {
        Followed(
            self.a,
            UnlessEnd(Some((self.b, UnlessEnd(Some((Part(&self.c), ())))))),
        )
        .write_to_end(writer)
    }
}

/// The packet that all of the bytes are.
pub fn read_packet(alloc: Global, bytes: &[u8]) -> Result<Packet, Error> {
    <Packet as ReadableWhole<LittleEndian>>::read_whole_from_buffer(alloc, bytes)
}

/// The bytes of a packet.
pub fn write_packet(alloc: Global, packet: &Packet) -> Result<Vec<u8>, Error> {
    WriteWhole::<LittleEndian>::write_whole_to_vec(packet, alloc)
}

/// What all of the bytes are, which an older version may have written.
pub fn read_old(alloc: Global, bytes: &[u8]) -> Result<Old, Error> {
    let parts = <OldParts as ReadableWhole<LittleEndian>>::read_whole_from_buffer(alloc, bytes)?;
    Ok(Old::from_parts(parts))
}

/// All its bytes.
pub fn write_old(alloc: Global, old: &Old) -> Result<Vec<u8>, Error> {
    WriteWhole::<LittleEndian>::write_whole_to_vec(old, alloc)
}
