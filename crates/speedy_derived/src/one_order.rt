//! Numbers that lie in one byte order, and of three bytes, among others and as keys.
//!
//! Made from `one_order.rs` by `tools/derive`: change that, and make this again.
ghost use Rattle.speedy.specs.Equality.{list_tells};
ghost use Rattle.speedy.specs.Keys.{part_then};
ghost use Rattle.std.proofs.Common.{inl, inr};
ghost use Rattle.std.specs.Cmp.{unsigned_Decides};

use speedy::cases::{
    Case, CaseTree, Cases, Either, ReadCases, WriteCases, read_tagged, write_tagged,
};
use speedy::prefixed::Prefixed;
use speedy::private::error_invalid_enum_variant;
use speedy::{
    Big, Context, F32, ItemByItem, Layout, LendingReader, Little, Part, ReadFrom, SameKey, U24,
    Writable, Writer,
};
use std::collections::BTreeMap;
use std::convert::AsSlice;

/// The ports of a datagram, which lie in network order within a file of another.
#[derive(Clone, Copy, PartialEq, Eq, PartialOrd, Ord)]
pub struct Ports {
    pub source: Big<u16>,
    pub target: Big<u16>,
}

/// What [`Ports`] is read and written as.
type PortsParts = (Big<u16>, Big<u16>);

impl Layout for Ports {
    ghost Seen = { ⟦<PortsParts as Layout>⟧.Seen };

    ghost seen = { λ it. ⟦<PortsParts as Layout>⟧.seen (it.source, it.target) };

    ghost layout = { ⟦<PortsParts as Layout>⟧.layout };
}

impl SameKey for Ports {
    ghost same_key = { λ x y. part_then
        (unsigned_Decides x.source.0 y.source.0)
        (unsigned_Decides x.target.0 y.target.0) };
}

impl<L: AsSlice<u8> + Drop, C: Context> ReadFrom<L, C> for Ports {
    type Strategy = ItemByItem<C>;

    fn read_from<R: LendingReader<L, C>>(reader: &mut R) -> Result<Ports, C::Error> {
        match reader.read_value() {
            Ok((source, target)) => Ok(Ports { source, target }),
            Err(error) => Err(error),
        }
    }

    fn minimum_bytes_needed() -> usize {
        4
    }
}

impl<C: Context> Writable<C> for Ports {
    fn write_to<W: Writer<C>>(&self, writer: &mut W) -> Result<(), C::Error> {
        writer.write_value(&(Part(&self.source), Part(&self.target)))
    }
}

#[derive(Drop)]
pub struct Captured {
    pub seconds: u32,
    pub ports: Ports,
    pub offset: Little<i32>,
    pub ratio: Big<F32>,
    pub words: Vec<Big<u32>>,
    pub pair: [Little<u16>; 2],
    pub names: BTreeMap<Ports, u8>,
}

/// What [`Captured`] is read and written as.
type CapturedParts = (
    (u32, Ports, Little<i32>, Big<F32>),
    (Vec<Big<u32>>, [Little<u16>; 2], BTreeMap<Ports, u8>),
);

impl Layout for Captured {
    ghost Seen = { ⟦<CapturedParts as Layout>⟧.Seen };

    ghost seen = { λ it. ⟦<CapturedParts as Layout>⟧.seen (
      (it.seconds, it.ports, it.offset, it.ratio),
      (it.words, it.pair, it.names),
    ) };

    ghost layout = { ⟦<CapturedParts as Layout>⟧.layout };
}

impl<L: AsSlice<u8> + Drop, C: Context> ReadFrom<L, C> for Captured {
    type Strategy = ItemByItem<C>;

    fn read_from<R: LendingReader<L, C>>(reader: &mut R) -> Result<Captured, C::Error> {
        match reader.read_value() {
            Ok(parts) => {
                let (parts1, parts2) = parts;
                let (seconds, ports, offset, ratio) = parts1;
                let (words, pair, names) = parts2;
                Ok(Captured {
                    seconds,
                    ports,
                    offset,
                    ratio,
                    words,
                    pair,
                    names,
                })
            }
            Err(error) => Err(error),
        }
    }

    fn minimum_bytes_needed() -> usize {
        28
    }
}

impl<C: Context> Writable<C> for Captured {
    fn write_to<W: Writer<C>>(&self, writer: &mut W) -> Result<(), C::Error> {
        writer.write_value(&(
            (
                self.seconds,
                Part(&self.ports),
                Part(&self.offset),
                Part(&self.ratio),
            ),
            (Part(&self.words), Part(&self.pair), Part(&self.names)),
        ))
    }
}

/// What is measured, in the order of its sender.
#[derive(Drop)]
pub enum Reading {
    Network(Big<i64>),
    Device {
        high: Little<u128>,
        low: Option<Little<i8>>,
    },
}

/// The cases of [`Reading`], each with its tag.
type ReadingCases = Either<Case<0, Big<i64>>, Case<1, (Little<u128>, Option<Little<i8>>)>>;

impl Cases for Reading {
    ghost use Rattle.speedy_derived.specs.declared.one_order.Reading.{Reading};

    ghost Seen = { ⟦<ReadingCases as CaseTree>⟧.Seen };

    ghost seen = { λ it. elim it [
      | Reading.Network t0 ↦ inl (⟦<Big<i64> as Layout>⟧.seen t0)
      | Reading.Device t0 t1 ↦ inr (⟦<(Little<u128>, Option<Little<i8>>) as Layout>⟧.seen (t0, t1))
    ] };

    ghost choices = { ⟦<ReadingCases as CaseTree>⟧.choices };
}

impl Layout for Reading {
    ghost Seen = { ⟦<Prefixed<u8, Reading> as Layout>⟧.Seen };

    ghost seen = { ⟦<Reading as Cases>⟧.seen };

    ghost layout = { ⟦<Prefixed<u8, Reading> as Layout>⟧.layout };
}

impl<L: AsSlice<u8> + Drop, C: Context> ReadCases<L, C> for Reading {
    fn read_case<R: LendingReader<L, C>>(tag: usize, reader: &mut R) -> Result<Reading, C::Error> {
        match tag {
            0 => match reader.read_value() {
                Ok(t0) => Ok(Reading::Network(t0)),
                Err(error) => Err(error),
            },
            1 => match reader.read_value() {
                Ok((high, low)) => Ok(Reading::Device { high, low }),
                Err(error) => Err(error),
            },
            _ => Err(error_invalid_enum_variant()),
        }
    }
}

impl<L: AsSlice<u8> + Drop, C: Context> ReadFrom<L, C> for Reading {
    type Strategy = ItemByItem<C>;

    fn read_from<R: LendingReader<L, C>>(reader: &mut R) -> Result<Reading, C::Error> {
        read_tagged::<u8, Self, L, C, R>(reader)
    }

    fn minimum_bytes_needed() -> usize {
        1
    }
}

impl<C: Context> WriteCases<C> for Reading {
    fn tag(&self) -> usize {
        match self {
            Reading::Network(..) => 0,
            Reading::Device { .. } => 1,
        }
    }

    fn write_case<W: Writer<C>>(&self, writer: &mut W) -> Result<(), C::Error> {
        match self {
            Reading::Network(t0) => writer.write_value(t0),
            Reading::Device { high, low } => writer.write_value(&(Part(high), Part(low))),
        }
    }
}

impl<C: Context> Writable<C> for Reading {
    fn write_to<W: Writer<C>>(&self, writer: &mut W) -> Result<(), C::Error> {
        write_tagged::<u8, Self, C, W>(self, writer)
    }
}

/// What a frame begins with, whose length has three bytes.
#[derive(Clone, Copy, PartialEq, Eq, PartialOrd, Ord)]
pub struct FrameStart {
    pub length: U24,
    pub kind: u8,
    pub stream: Big<U24>,
    pub marks: [U24; 2],
}

/// What [`FrameStart`] is read and written as.
type FrameStartParts = (U24, u8, Big<U24>, [U24; 2]);

impl Layout for FrameStart {
    ghost Seen = { ⟦<FrameStartParts as Layout>⟧.Seen };

    ghost seen = { λ it. ⟦<FrameStartParts as Layout>⟧.seen (it.length, it.kind, it.stream, it.marks) };

    ghost layout = { ⟦<FrameStartParts as Layout>⟧.layout };
}

impl SameKey for FrameStart {
    ghost same_key = { λ x y. part_then
        (unsigned_Decides x.length y.length)
        (part_then
        (unsigned_Decides x.kind y.kind)
        (part_then (unsigned_Decides x.stream.0 y.stream.0) (list_tells unsigned_Decides x.marks y.marks))) };
}

impl<L: AsSlice<u8> + Drop, C: Context> ReadFrom<L, C> for FrameStart {
    type Strategy = ItemByItem<C>;

    fn read_from<R: LendingReader<L, C>>(reader: &mut R) -> Result<FrameStart, C::Error> {
        match reader.read_value() {
            Ok(parts) => {
                let (length, kind, stream, marks) = parts;
                Ok(FrameStart {
                    length,
                    kind,
                    stream,
                    marks,
                })
            }
            Err(error) => Err(error),
        }
    }

    fn minimum_bytes_needed() -> usize {
        13
    }
}

impl<C: Context> Writable<C> for FrameStart {
    fn write_to<W: Writer<C>>(&self, writer: &mut W) -> Result<(), C::Error> {
        writer.write_value(&(
            self.length,
            self.kind,
            Part(&self.stream),
            Part(&self.marks),
        ))
    }
}
