//! Fixed headers: arrays beside other parts, signed numbers among more than six, and arrays of any length.
//!
//! Made from `headers.rs` by `tools/derive`: change that, and make this again.
ghost use Rattle.std.specs.Prelude.{codes};
ghost use Rattle.std.proofs.Common.{inl, inr};

use speedy::cases::{
    Case, CaseTree, Cases, Either, ReadCases, WriteCases, read_tagged, write_tagged,
};
use speedy::lengths::{Length, Other, WithLength};
use speedy::prefixed::Prefixed;
use speedy::private::error_invalid_enum_variant;
use speedy::{
    Context, F32, ItemByItem, Layout, LendingReader, Part, ReadFrom, ReadMany, Writable, Writer,
};
use std::convert::AsSlice;
use std::marker::PhantomData;

/// The header of a file of packets.
#[derive(Debug, PartialEq, Drop)]
pub struct Capture {
    pub magic: [u8; 4],
    pub major: u16,
    pub minor: u16,
    pub zone: i32,
    pub reserved: [u8; 15],
    pub limits: [u32; 3],
    pub network: i8,
    pub name: String,
}

/// What [`Capture`] is read and written as.
type CaptureParts = (([u8; 4], u16, u16, i32), ([u8; 15], [u32; 3], i8, String));

impl Layout for Capture {
    ghost Seen = { ⟦<CaptureParts as Layout>⟧.Seen };

    ghost seen = { λ it. ⟦<CaptureParts as Layout>⟧.seen (
      (it.magic, it.major, it.minor, it.zone),
      (it.reserved, it.limits, it.network, it.name),
    ) };

    ghost layout = { ⟦<CaptureParts as Layout>⟧.layout };
}

impl<L: AsSlice<u8> + Drop, C: Context> ReadFrom<L, C> for Capture {
    type Strategy = ItemByItem<C>;

    fn read_from<R: LendingReader<L, C>>(reader: &mut R) -> Result<Capture, C::Error> {
        match reader.read_value() {
            Ok(parts) => {
                let (parts1, parts2) = parts;
                let (magic, major, minor, zone) = parts1;
                let (reserved, limits, network, name) = parts2;
                Ok(Capture {
                    magic,
                    major,
                    minor,
                    zone,
                    reserved,
                    limits,
                    network,
                    name,
                })
            }
            Err(error) => Err(error),
        }
    }

    fn minimum_bytes_needed() -> usize {
        44
    }
}

impl<C: Context> Writable<C> for Capture {
    fn write_to<W: Writer<C>>(&self, writer: &mut W) -> Result<(), C::Error> {
        writer.write_value(&(
            (Part(&self.magic), self.major, self.minor, Part(&self.zone)),
            (
                Part(&self.reserved),
                Part(&self.limits),
                Part(&self.network),
                Part(&self.name),
            ),
        ))
    }
}

/// As many bytes as its type says, behind a number.
#[derive(Drop)]
pub struct Block<const N: usize> {
    pub id: u16,
    pub bytes: [u8; N],
}

/// What [`Block`] is read and written as.
type BlockParts<const N: usize> = (u16, [u8; N]);

impl<const N: usize> Layout for Block<N> {
    ghost Seen = { ⟦<BlockParts<N> as Layout>⟧.Seen };

    ghost seen = { λ it. ⟦<BlockParts<N> as Layout>⟧.seen (it.id, it.bytes) };

    ghost layout = { ⟦<BlockParts<N> as Layout>⟧.layout };
}

impl<L: AsSlice<u8> + Drop, C: Context, const N: usize> ReadFrom<L, C> for Block<N> {
    type Strategy = ItemByItem<C>;

    fn read_from<R: LendingReader<L, C>>(reader: &mut R) -> Result<Block<N>, C::Error> {
        match reader.read_value() {
            Ok(parts) => {
                let (id, bytes) = parts;
                Ok(Block { id, bytes })
            }
            Err(error) => Err(error),
        }
    }

    fn minimum_bytes_needed() -> usize {
        2_usize.saturating_add(<[u8; N] as ReadFrom<L, C>>::minimum_bytes_needed())
    }
}

impl<C: Context, const N: usize> Writable<C> for Block<N> {
    fn write_to<W: Writer<C>>(&self, writer: &mut W) -> Result<(), C::Error> {
        writer.write_value(&(self.id, Part(&self.bytes)))
    }
}

/// An array of anything.
#[derive(Drop)]
pub struct Tile<T> {
    pub corners: [T; 4],
    pub name: String,
}

/// What [`Tile`] is read and written as.
type TileParts<T> = ([T; 4], String);

impl<T: Layout> Layout for Tile<T> {
    ghost Seen = { ⟦<TileParts<T> as Layout>⟧.Seen };

    ghost seen = { λ it. ⟦<TileParts<T> as Layout>⟧.seen (it.corners, it.name) };

    ghost layout = { ⟦<TileParts<T> as Layout>⟧.layout };
}

impl<L: AsSlice<u8> + Drop, C: Context, T: ReadMany<L, C>> ReadFrom<L, C> for Tile<T> {
    type Strategy = ItemByItem<C>;

    fn read_from<R: LendingReader<L, C>>(reader: &mut R) -> Result<Tile<T>, C::Error> {
        match reader.read_value() {
            Ok(parts) => {
                let (corners, name) = parts;
                Ok(Tile { corners, name })
            }
            Err(error) => Err(error),
        }
    }

    fn minimum_bytes_needed() -> usize {
        <[T; 4] as ReadFrom<L, C>>::minimum_bytes_needed().saturating_add(4_usize)
    }
}

impl<C: Context, T: Writable<C>> Writable<C> for Tile<T> {
    fn write_to<W: Writer<C>>(&self, writer: &mut W) -> Result<(), C::Error> {
        writer.write_value(&(Part(&self.corners), Part(&self.name)))
    }
}

#[derive(Drop)]
pub enum Sample {
    Load([F32; 3], i64),
    Named { key: [u8; 2], name: String },
}

/// The cases of [`Sample`], each with its tag.
type SampleCases = Either<Case<0, ([F32; 3], i64)>, Case<1, ([u8; 2], String)>>;

impl Cases for Sample {
    ghost use Rattle.speedy_derived.specs.declared.headers.Sample.{Sample};

    ghost Seen = { ⟦<SampleCases as CaseTree>⟧.Seen };

    ghost seen = { λ it. elim it [
      | Sample.Load t0 t1 ↦ inl (⟦<([F32; 3], i64) as Layout>⟧.seen (t0, t1))
      | Sample.Named t0 t1 ↦ inr (⟦<([u8; 2], String) as Layout>⟧.seen (t0, t1))
    ] };

    ghost choices = { ⟦<SampleCases as CaseTree>⟧.choices };
}

impl Layout for Sample {
    ghost Seen = { ⟦<Prefixed<u32, Sample> as Layout>⟧.Seen };

    ghost seen = { ⟦<Sample as Cases>⟧.seen };

    ghost layout = { ⟦<Prefixed<u32, Sample> as Layout>⟧.layout };
}

impl<L: AsSlice<u8> + Drop, C: Context> ReadCases<L, C> for Sample {
    fn read_case<R: LendingReader<L, C>>(tag: usize, reader: &mut R) -> Result<Sample, C::Error> {
        match tag {
            0 => match reader.read_value() {
                Ok(parts) => {
                    let (t0, t1) = parts;
                    Ok(Sample::Load(t0, t1))
                }
                Err(error) => Err(error),
            },
            1 => match reader.read_value() {
                Ok(parts) => {
                    let (key, name) = parts;
                    Ok(Sample::Named { key, name })
                }
                Err(error) => Err(error),
            },
            _ => Err(error_invalid_enum_variant()),
        }
    }
}

impl<L: AsSlice<u8> + Drop, C: Context> ReadFrom<L, C> for Sample {
    type Strategy = ItemByItem<C>;

    fn read_from<R: LendingReader<L, C>>(reader: &mut R) -> Result<Sample, C::Error> {
        read_tagged::<u32, Self, L, C, R>(reader)
    }

    fn minimum_bytes_needed() -> usize {
        4
    }
}

impl<C: Context> WriteCases<C> for Sample {
    fn tag(&self) -> usize {
        match self {
            Sample::Load(..) => 0,
            Sample::Named { .. } => 1,
        }
    }

    fn write_case<W: Writer<C>>(&self, writer: &mut W) -> Result<(), C::Error> {
        match self {
            Sample::Load(t0, t1) => writer.write_value(&(Part(t0), Part(t1))),
            Sample::Named { key, name } => writer.write_value(&(Part(key), Part(name))),
        }
    }
}

impl<C: Context> Writable<C> for Sample {
    fn write_to<W: Writer<C>>(&self, writer: &mut W) -> Result<(), C::Error> {
        write_tagged::<u32, Self, C, W>(self, writer)
    }
}

/// An array between a number and what has the length that it tells.
#[derive(Drop)]
pub struct Keyed {
    pub count: u8,
    pub key: [u8; 4],
    pub items: Vec<u16>,
}

/// The length of [`Keyed::items`].
struct KeyedItemsLength {}

impl Length<(u8, ())> for KeyedItemsLength {
    ghost is_told = { λ _. Unit {0} };

    ghost told = { λ it. it.0 };

    ghost field = { codes "items" };

    fn length((count, _): (u8, ())) -> Option<usize> {
        Some(count as usize)
    }

    fn field() -> &'static str {
        "items"
    }
}

/// What [`Keyed`] is read and written as.
type KeyedParts = WithLength<KeyedItemsLength, (u8, Other<[u8; 4]>), Vec<u16>>;

impl Layout for Keyed {
    ghost Seen = { ⟦<KeyedParts as Layout>⟧.Seen };

    ghost seen = { λ it. ((it.count, ⟦<[u8; 4] as Layout>⟧.seen it.key), ⟦<Vec<u16> as Layout>⟧.seen it.items) };

    ghost layout = { ⟦<KeyedParts as Layout>⟧.layout };
}

impl<L: AsSlice<u8> + Drop, C: Context> ReadFrom<L, C> for Keyed {
    type Strategy = ItemByItem<C>;

    fn read_from<R: LendingReader<L, C>>(reader: &mut R) -> Result<Keyed, C::Error> {
        match reader.read_value::<KeyedParts>() {
            Ok(items) => {
                let WithLength {
                    before,
                    value: items,
                    length: _,
                } = items;
                let (count, key) = before;
                let key = key.0;
                Ok(Keyed { count, key, items })
            }
            Err(error) => Err(error),
        }
    }

    fn minimum_bytes_needed() -> usize {
        5
    }
}

impl<C: Context> Writable<C> for Keyed {
    fn write_to<W: Writer<C>>(&self, writer: &mut W) -> Result<(), C::Error> {
        let items: WithLength<KeyedItemsLength, _, _> = WithLength {
            before: (self.count, Other(Part(&self.key))),
            value: Part(&self.items),
            length: PhantomData,
        };
        writer.write_value(&items)
    }
}
