//! Types that end where the bytes do, and lengths that signed numbers tell.
//!
//! Made from `endings.rs` by `tools/derive`: change that, and make this again.
ghost use Rattle.std.specs.Prelude.{FitsSigned, Some, codes, pos, unsigned_abs, ◌*ℤ◌, ◌-ℤ◌, ◌≡◌, ◌≤ℤ◌};
ghost use Rattle.std.specs.Int.{w16};
ghost use Rattle.std.specs.Option.{UnwrapsOrElse, option_and_then, option_map};

use speedy::lengths::{Length, OfLength, Other, WithLength};
use speedy::whole::{
    EndsWithInput, Followed, MemoryReader, ReadToEnd, Rest, UnlessEnd, Whole, WriteToEnd,
};
use speedy::{Context, ItemByItem, Layout, LendingReader, Part, ReadFrom, Writable, Writer};
use std::alloc::Global;
use std::convert::AsSlice;
use std::default::MadeWith;
use std::marker::PhantomData;

/// A number, and the rest of the bytes as numbers.
#[derive(Drop)]
pub struct Packet {
    pub kind: u8,
    pub samples: Vec<u16>,
}

/// What [`Packet`] is read and written as.
type PacketParts = Followed<u8, Rest<Vec<u16>>>;

impl Whole for Packet {
    type Ends = EndsWithInput;

    ghost Seen = { ⟦<PacketParts as Whole>⟧.Seen };

    ghost seen = { λ it. (⟦<u8 as Layout>⟧.seen it.kind, ⟦<Vec<u16> as OfLength>⟧.seen it.samples) };

    ghost whole = { ⟦<PacketParts as Whole>⟧.whole };
}

impl<L: AsSlice<u8> + Drop, C: Context> ReadToEnd<L, C> for Packet {
    fn read_to_end<R: MemoryReader<L, C>>(reader: &mut R) -> Result<Packet, C::Error> {
        match <PacketParts as ReadToEnd<L, C>>::read_to_end(reader) {
            Ok(read) => {
                let Followed(kind, Rest(samples)) = read;
                Ok(Packet { kind, samples })
            }
            Err(error) => Err(error),
        }
    }
}

impl<C: Context> WriteToEnd<C> for Packet {
    fn write_to_end<W: Writer<C>>(&self, writer: &mut W) -> Result<(), C::Error> {
        Followed(self.kind, Rest(Part(&self.samples))).write_to_end(writer)
    }
}

/// A text that is the rest of the bytes, and lies in them.
#[derive(Drop)]
pub struct Line<'a> {
    pub key: [u8; 4],
    pub level: i8,
    pub text: &'a str,
}

/// What [`Line`] is read and written as.
type LineParts<'a> = Followed<([u8; 4], i8), Rest<&'a str>>;

impl<'a> Whole for Line<'a> {
    type Ends = EndsWithInput;

    ghost Seen = { ⟦<LineParts<'a> as Whole>⟧.Seen };

    ghost seen = { λ it. (
      ⟦<([u8; 4], i8) as Layout>⟧.seen (it.key, it.level),
      ⟦<&'a str as OfLength>⟧.seen it.text,
    ) };

    ghost whole = { ⟦<LineParts<'a> as Whole>⟧.whole };
}

impl<'a, C: Context> ReadToEnd<&'a [u8], C> for Line<'a> {
    fn read_to_end<R: MemoryReader<&'a [u8], C>>(reader: &mut R) -> Result<Line<'a>, C::Error> {
        match <LineParts<'a> as ReadToEnd<&'a [u8], C>>::read_to_end(reader) {
            Ok(read) => {
                let Followed(parts, Rest(text)) = read;
                let (key, level) = parts;
                Ok(Line { key, level, text })
            }
            Err(error) => Err(error),
        }
    }
}

impl<'a, C: Context> WriteToEnd<C> for Line<'a> {
    fn write_to_end<W: Writer<C>>(&self, writer: &mut W) -> Result<(), C::Error> {
        Followed((Part(&self.key), Part(&self.level)), Rest(Part(&self.text))).write_to_end(writer)
    }
}

/// A struct that grew: older bytes end before the last fields.
#[derive(Drop)]
pub struct Grown {
    pub id: u16,
    pub port: u16,
    pub name: String,
}

/// What [`Grown`] is read and written as.
pub type GrownParts = Followed<u16, UnlessEnd<u16, UnlessEnd<String, ()>>>;

impl Whole for Grown {
    type Ends = EndsWithInput;

    ghost Seen = { ⟦<GrownParts as Whole>⟧.Seen };

    ghost seen = { λ it. (
      ⟦<u16 as Layout>⟧.seen it.id,
      Some (
        ⟦<u16 as Layout>⟧.seen it.port,
        Some (⟦<String as Layout>⟧.seen it.name, tt),
      ),
    ) };

    ghost whole = { ⟦<GrownParts as Whole>⟧.whole };
}

impl Grown {
    /// The value of the parts that were read. What is missing at the end has its default.
    pub fn from_parts(alloc: Global, parts: GrownParts) -> Grown
        ensures first { ⟦<u16 as Layout>⟧.seen result.id
            ≡ (⟦<GrownParts as Whole>⟧.seen parts).0 }
        ensures port { UnwrapsOrElse (option_map (λ more. more.0) parts.1.0)
            ⟦<u16 as Default>⟧.is_default result.port }
        ensures name { UnwrapsOrElse (option_map (λ more. more.0) (option_and_then (λ more. more.1.0)
            parts.1.0))
            ⟦<String as MadeWith<Global>>⟧.is_made_with result.name }
    {
        let Followed(id, UnlessEnd(more)) = parts;
        match more {
            None => Grown {
                id,
                port: Default::default(),
                name: String::new(alloc),
            },
            Some((port, UnlessEnd(more))) => match more {
                None => Grown {
                    id,
                    port,
                    name: String::new(alloc),
                },
                Some((name, _)) => Grown { id, port, name },
            },
        }
    }
}

impl<C: Context> WriteToEnd<C> for Grown {
    fn write_to_end<W: Writer<C>>(&self, writer: &mut W) -> Result<(), C::Error> {
        Followed(
            self.id,
            UnlessEnd(Some((self.port, UnlessEnd(Some((Part(&self.name), ())))))),
        )
        .write_to_end(writer)
    }
}

/// A length below zero is none.
#[derive(Drop)]
pub struct Signed {
    pub count: i16,
    pub offset: i16,
    pub scale: i32,
    pub items: Vec<u8>,
}

/// The length of [`Signed::items`].
struct SignedItemsLength {}

impl Length<((i16, i16), ())> for SignedItemsLength {
    ghost is_told = { λ it. (FitsSigned w16 (it.0.0 *ℤ (pos 2)))
        × (FitsSigned w16 ((it.0.0 *ℤ (pos 2)) -ℤ it.0.1))
        × (pos 0 ≤ℤ ((it.0.0 *ℤ (pos 2)) -ℤ it.0.1)) };

    ghost told = { λ it. unsigned_abs ((it.0.0 *ℤ (pos 2)) -ℤ it.0.1) };

    ghost field = { codes "items" };

    fn length(((count, offset), _): ((i16, i16), ())) -> Option<usize> {
        let step1 = count.checked_mul(2)?;
        let step2 = step1.checked_sub(offset)?;
        usize::try_from(step2).ok()
    }

    fn field() -> &'static str {
        "items"
    }
}

/// What [`Signed`] is read and written as.
type SignedParts = WithLength<SignedItemsLength, ((i16, i16), Other<i32>), Vec<u8>>;

impl Layout for Signed {
    ghost Seen = { ⟦<SignedParts as Layout>⟧.Seen };

    ghost seen = { λ it. (
      ((it.count, it.offset), ⟦<i32 as Layout>⟧.seen it.scale),
      ⟦<Vec<u8> as Layout>⟧.seen it.items,
    ) };

    ghost layout = { ⟦<SignedParts as Layout>⟧.layout };
}

impl<L: AsSlice<u8> + Drop, C: Context> ReadFrom<L, C> for Signed {
    type Strategy = ItemByItem<C>;

    fn read_from<R: LendingReader<L, C>>(reader: &mut R) -> Result<Signed, C::Error> {
        match reader.read_value::<SignedParts>() {
            Ok(items) => {
                let WithLength {
                    before,
                    value: items,
                    length: _,
                } = items;
                let (before2, scale) = before;
                let (count, offset) = before2;
                Ok(Signed {
                    count,
                    offset,
                    scale: scale.0,
                    items,
                })
            }
            Err(error) => Err(error),
        }
    }

    fn minimum_bytes_needed() -> usize {
        8
    }
}

impl<C: Context> Writable<C> for Signed {
    fn write_to<W: Writer<C>>(&self, writer: &mut W) -> Result<(), C::Error> {
        let items: WithLength<SignedItemsLength, _, _> = WithLength {
            before: (
                (Part(&self.count), Part(&self.offset)),
                Other(Part(&self.scale)),
            ),
            value: Part(&self.items),
            length: PhantomData,
        };
        writer.write_value(&items)
    }
}
