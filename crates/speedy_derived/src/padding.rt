//! Bytes that mean nothing, among others and in a key.
//!
//! Made from `padding.rs` by `tools/derive`: change that, and make this again.
ghost use Rattle.std.specs.Prelude.{codes, refl, ◌%◌, ◌-◌, ◌≤◌};
ghost use Rattle.speedy.specs.Keys.{part_then};
ghost use Rattle.std.specs.Cmp.{unsigned_Decides};

use speedy::lengths::{Length, OfLength, Other, WithLength};
use speedy::{
    Context, ItemByItem, Layout, LendingReader, Padding, PaddingBytes, Part, ReadFrom, SameKey,
    Writable, Writer, ZeroBytes, Zeros,
};
use std::collections::BTreeSet;
use std::convert::AsSlice;
use std::marker::PhantomData;

const GAP: usize = 2;

/// A place, with bytes to the next multiple of four.
#[derive(Clone, Copy, PartialEq, Eq, PartialOrd, Ord)]
pub struct Spot {
    pub row: u8,
    pub unused: Padding<3>,
    pub column: u16,
    pub zeros: Zeros<GAP>,
}

/// What [`Spot`] is read and written as.
type SpotParts = (u8, Padding<3>, u16, Zeros<GAP>);

impl Layout for Spot {
    ghost Seen = { ⟦<SpotParts as Layout>⟧.Seen };

    ghost seen = { λ it. ⟦<SpotParts as Layout>⟧.seen (it.row, it.unused, it.column, it.zeros) };

    ghost layout = { ⟦<SpotParts as Layout>⟧.layout };
}

impl SameKey for Spot {
    ghost same_key = { λ x y. part_then
        (unsigned_Decides x.row y.row)
        (part_then
        ((λ h. refl, λ e. refl))
        (part_then (unsigned_Decides x.column y.column) ((λ h. refl, λ e. refl)))) };
}

impl<L: AsSlice<u8> + Drop, C: Context> ReadFrom<L, C> for Spot {
    type Strategy = ItemByItem<C>;

    fn read_from<R: LendingReader<L, C>>(reader: &mut R) -> Result<Spot, C::Error> {
        match reader.read_value() {
            Ok((row, unused, column, zeros)) => Ok(Spot {
                row,
                unused,
                column,
                zeros,
            }),
            Err(error) => Err(error),
        }
    }

    fn minimum_bytes_needed() -> usize {
        <SpotParts as ReadFrom<L, C>>::minimum_bytes_needed()
    }
}

impl<C: Context> Writable<C> for Spot {
    fn write_to<W: Writer<C>>(&self, writer: &mut W) -> Result<(), C::Error> {
        writer.write_value(&(self.row, Part(&self.unused), self.column, Part(&self.zeros)))
    }
}

#[derive(Drop)]
pub struct Board {
    pub name: String,
    pub gap: Padding<5>,
    pub places: Vec<Spot>,
    pub taken: BTreeSet<Spot>,
}

/// What [`Board`] is read and written as.
type BoardParts = (String, Padding<5>, Vec<Spot>, BTreeSet<Spot>);

impl Layout for Board {
    ghost Seen = { ⟦<BoardParts as Layout>⟧.Seen };

    ghost seen = { λ it. ⟦<BoardParts as Layout>⟧.seen (it.name, it.gap, it.places, it.taken) };

    ghost layout = { ⟦<BoardParts as Layout>⟧.layout };
}

impl<L: AsSlice<u8> + Drop, C: Context> ReadFrom<L, C> for Board {
    type Strategy = ItemByItem<C>;

    fn read_from<R: LendingReader<L, C>>(reader: &mut R) -> Result<Board, C::Error> {
        match reader.read_value() {
            Ok((name, gap, places, taken)) => Ok(Board {
                name,
                gap,
                places,
                taken,
            }),
            Err(error) => Err(error),
        }
    }

    fn minimum_bytes_needed() -> usize {
        17
    }
}

impl<C: Context> Writable<C> for Board {
    fn write_to<W: Writer<C>>(&self, writer: &mut W) -> Result<(), C::Error> {
        writer.write_value(&(
            Part(&self.name),
            Part(&self.gap),
            Part(&self.places),
            Part(&self.taken),
        ))
    }
}

/// A header of its own bytes, and so many that mean nothing.
#[derive(Drop)]
pub struct Aligned<T, const N: usize> {
    pub header: T,
    pub rest: Padding<N>,
}

/// What [`Aligned`] is read and written as.
type AlignedParts<T, const N: usize> = (T, Padding<N>);

impl<T: Layout, const N: usize> Layout for Aligned<T, N> {
    ghost Seen = { ⟦<AlignedParts<T, N> as Layout>⟧.Seen };

    ghost seen = { λ it. ⟦<AlignedParts<T, N> as Layout>⟧.seen (it.header, it.rest) };

    ghost layout = { ⟦<AlignedParts<T, N> as Layout>⟧.layout };
}

impl<L: AsSlice<u8> + Drop, C: Context, T: ReadFrom<L, C>, const N: usize> ReadFrom<L, C>
    for Aligned<T, N> {
    type Strategy = ItemByItem<C>;

    fn read_from<R: LendingReader<L, C>>(reader: &mut R) -> Result<Aligned<T, N>, C::Error> {
        match reader.read_value() {
            Ok((header, rest)) => Ok(Aligned { header, rest }),
            Err(error) => Err(error),
        }
    }

    fn minimum_bytes_needed() -> usize {
        <AlignedParts<T, N> as ReadFrom<L, C>>::minimum_bytes_needed()
    }
}

impl<C: Context, T: Writable<C>, const N: usize> Writable<C> for Aligned<T, N> {
    fn write_to<W: Writer<C>>(&self, writer: &mut W) -> Result<(), C::Error> {
        writer.write_value(&(Part(&self.header), Part(&self.rest)))
    }
}

/// An attribute, whose size counts its first two fields too, and padding up to a multiple of four.
#[derive(Drop)]
pub struct Attribute {
    pub size: u16,
    pub kind: u16,
    pub content: Vec<u8>,
    pub padding: PaddingBytes,
}

/// The length of [`Attribute::content`].
struct AttributeContentLength {}

impl Length<(u16, ())> for AttributeContentLength {
    ghost is_told = { λ it. 4 ≤ it.0 };

    ghost told = { λ it. it.0 - 4 };

    ghost field = { codes "content" };

    fn length((size, _): (u16, ())) -> Option<usize> {
        Some(size.checked_sub(4)? as usize)
    }

    fn field() -> &'static str {
        "content"
    }
}

/// The length of [`Attribute::padding`].
struct AttributePaddingLength {}

impl Length<(u16, ())> for AttributePaddingLength {
    ghost is_told = { λ it. it.0 % 4 ≤ 4 };

    ghost told = { λ it. (4 - it.0 % 4) % 4 };

    ghost field = { codes "padding" };

    fn length((size, _): (u16, ())) -> Option<usize> {
        Some((4_u16.checked_sub(size % 4)? % 4) as usize)
    }

    fn field() -> &'static str {
        "padding"
    }
}

/// What [`Attribute`] is read and written as.
type AttributeParts = WithLength<
    AttributePaddingLength,
    WithLength<AttributeContentLength, (u16, Other<u16>), Vec<u8>>,
    PaddingBytes,
>;

impl Layout for Attribute {
    ghost Seen = { ⟦<AttributeParts as Layout>⟧.Seen };

    ghost seen = { λ it. (
      ((it.size, ⟦<u16 as Layout>⟧.seen it.kind), ⟦<Vec<u8> as Layout>⟧.seen it.content),
      ⟦<PaddingBytes as OfLength>⟧.seen it.padding,
    ) };

    ghost layout = { ⟦<AttributeParts as Layout>⟧.layout };
}

impl<L: AsSlice<u8> + Drop, C: Context> ReadFrom<L, C> for Attribute {
    type Strategy = ItemByItem<C>;

    fn read_from<R: LendingReader<L, C>>(reader: &mut R) -> Result<Attribute, C::Error> {
        match reader.read_value::<AttributeParts>() {
            Ok(padding) => {
                let WithLength {
                    before,
                    value: padding,
                    length: _,
                } = padding;
                let WithLength {
                    before: before2,
                    value: content,
                    length: _,
                } = before;
                let (size, kind) = before2;
                Ok(Attribute {
                    size,
                    kind: kind.0,
                    content,
                    padding,
                })
            }
            Err(error) => Err(error),
        }
    }

    fn minimum_bytes_needed() -> usize {
        4
    }
}

impl<C: Context> Writable<C> for Attribute {
    fn write_to<W: Writer<C>>(&self, writer: &mut W) -> Result<(), C::Error> {
        let content: WithLength<AttributeContentLength, _, _> = WithLength {
            before: (self.size, Other(self.kind)),
            value: Part(&self.content),
            length: PhantomData,
        };
        let padding: WithLength<AttributePaddingLength, _, _> = WithLength {
            before: content,
            value: Part(&self.padding),
            length: PhantomData,
        };
        writer.write_value(&padding)
    }
}

/// A name of at most seven bytes, with zeros behind a shorter one.
#[derive(Drop)]
pub struct Caption {
    pub used: u8,
    pub name: String,
    pub unused: ZeroBytes,
}

/// The length of [`Caption::name`].
struct CaptionNameLength {}

impl Length<u8> for CaptionNameLength {
    ghost is_told = { λ _. Unit {0} };

    ghost told = { λ n. n };

    ghost field = { codes "name" };

    fn length(used: u8) -> Option<usize> {
        Some(used as usize)
    }

    fn field() -> &'static str {
        "name"
    }
}

/// The length of [`Caption::unused`].
struct CaptionUnusedLength {}

impl Length<u8> for CaptionUnusedLength {
    ghost is_told = { λ it. it ≤ 7 };

    ghost told = { λ it. 7 - it };

    ghost field = { codes "unused" };

    fn length(used: u8) -> Option<usize> {
        Some(7_u8.checked_sub(used)? as usize)
    }

    fn field() -> &'static str {
        "unused"
    }
}

/// What [`Caption`] is read and written as.
type CaptionParts = WithLength<
    CaptionUnusedLength,
    WithLength<CaptionNameLength, u8, String>,
    ZeroBytes,
>;

impl Layout for Caption {
    ghost Seen = { ⟦<CaptionParts as Layout>⟧.Seen };

    ghost seen = { λ it. ((it.used, ⟦<String as Layout>⟧.seen it.name), ⟦<ZeroBytes as OfLength>⟧.seen it.unused) };

    ghost layout = { ⟦<CaptionParts as Layout>⟧.layout };
}

impl<L: AsSlice<u8> + Drop, C: Context> ReadFrom<L, C> for Caption {
    type Strategy = ItemByItem<C>;

    fn read_from<R: LendingReader<L, C>>(reader: &mut R) -> Result<Caption, C::Error> {
        match reader.read_value::<CaptionParts>() {
            Ok(unused) => {
                let WithLength {
                    before,
                    value: unused,
                    length: _,
                } = unused;
                Ok(Caption {
                    used: before.before,
                    name: before.value,
                    unused,
                })
            }
            Err(error) => Err(error),
        }
    }

    fn minimum_bytes_needed() -> usize {
        1
    }
}

impl<C: Context> Writable<C> for Caption {
    fn write_to<W: Writer<C>>(&self, writer: &mut W) -> Result<(), C::Error> {
        let name: WithLength<CaptionNameLength, _, _> = WithLength {
            before: self.used,
            value: Part(&self.name),
            length: PhantomData,
        };
        let unused: WithLength<CaptionUnusedLength, _, _> = WithLength {
            before: name,
            value: Part(&self.unused),
            length: PhantomData,
        };
        writer.write_value(&unused)
    }
}
