//! Lengths that fields of a struct tell, which stands before.
//!
//! Made from `struct_lengths.rs` by `tools/derive`: change that, and make this again.
ghost use Rattle.std.specs.Prelude.{codes, ◌*◌, ◌-◌, ◌/◌, ◌<◌, ◌^◌, ◌≤◌};
ghost use Rattle.std.proofs.Common.{inl, inr};

use speedy::cases::{
    Case, CaseTree, Cases, Either, ReadCases, UnitCase, WriteCases, read_tagged, write_tagged,
};
use speedy::lengths::{Holds, Length, ReadHolds, WithLength, WriteHolds};
use speedy::prefixed::Prefixed;
use speedy::private::error_invalid_enum_variant;
use speedy::varints::Varint;
use speedy::{Context, ItemByItem, Layout, LendingReader, Part, ReadFrom, Writable, Writer};
use std::convert::AsSlice;
use std::marker::PhantomData;

/// What a letter begins with.
#[derive(Drop)]
pub struct Envelope {
    pub kind: u8,
    pub name: String,
    pub count: u64,
}

/// What [`Envelope`] is read and written as.
type EnvelopeParts = (u8, String, Varint);

impl Layout for Envelope {
    ghost Seen = { ⟦<EnvelopeParts as Layout>⟧.Seen };

    ghost seen = { λ it. (⟦<u8 as Layout>⟧.seen it.kind, (⟦<String as Layout>⟧.seen it.name, it.count)) };

    ghost layout = { ⟦<EnvelopeParts as Layout>⟧.layout };
}

impl<L: AsSlice<u8> + Drop, C: Context> ReadFrom<L, C> for Envelope {
    type Strategy = ItemByItem<C>;

    fn read_from<R: LendingReader<L, C>>(reader: &mut R) -> Result<Envelope, C::Error> {
        match reader.read_value::<EnvelopeParts>() {
            Ok((kind, name, count)) => Ok(Envelope {
                kind,
                name,
                count: count.0,
            }),
            Err(error) => Err(error),
        }
    }

    fn minimum_bytes_needed() -> usize {
        6
    }
}

impl<C: Context> Writable<C> for Envelope {
    fn write_to<W: Writer<C>>(&self, writer: &mut W) -> Result<(), C::Error> {
        writer.write_value(&(self.kind, Part(&self.name), Varint(self.count)))
    }
}

impl Holds for Envelope {
    type Numbers = (u8, (), u64);

    ghost Seen = { ⟦<Envelope as Layout>⟧.Seen };

    ghost seen = { ⟦<Envelope as Layout>⟧.seen };

    ghost layout = { ⟦<Envelope as Layout>⟧.layout };

    ghost numbers = { λ it. (it.0, tt, it.1.1) };

    fn numbers(&self) -> (u8, (), u64) {
        (self.kind, (), self.count)
    }
}

impl<L: AsSlice<u8> + Drop, C: Context> ReadHolds<L, C> for Envelope {
    fn read_parts<R: LendingReader<L, C>>(reader: &mut R) -> Result<Envelope, C::Error> {
        reader.read_value()
    }

    fn least_size() -> usize {
        6
    }
}

impl<C: Context> WriteHolds<C> for Envelope {
    fn write_parts<W: Writer<C>>(&self, writer: &mut W) -> Result<(), C::Error> {
        writer.write_value(self)
    }
}

/// A length of two fields of one struct.
#[derive(Drop)]
pub struct Letter {
    pub envelope: Envelope,
    pub pages: Vec<u16>,
}

/// The length of [`Letter::pages`].
struct LetterPagesLength {}

impl Length<(u8, (), u64)> for LetterPagesLength {
    ghost is_told = { λ it. (it.2 * 2 < 2 ^ 64) × (it.0 ≤ it.2 * 2) };

    ghost told = { λ it. it.2 * 2 - it.0 };

    ghost field = { codes "pages" };

    fn length((envelope_kind, _, envelope_count): (u8, (), u64)) -> Option<usize> {
        let step1 = envelope_count.checked_mul(2)?;
        let step2 = step1.checked_sub(envelope_kind as u64)?;
        Some(step2 as usize)
    }

    fn field() -> &'static str {
        "pages"
    }
}

/// What [`Letter`] is read and written as.
type LetterParts = WithLength<LetterPagesLength, Envelope, Vec<u16>>;

impl Layout for Letter {
    ghost Seen = { ⟦<LetterParts as Layout>⟧.Seen };

    ghost seen = { λ it. (⟦<Envelope as Layout>⟧.seen it.envelope, ⟦<Vec<u16> as Layout>⟧.seen it.pages) };

    ghost layout = { ⟦<LetterParts as Layout>⟧.layout };
}

impl<L: AsSlice<u8> + Drop, C: Context> ReadFrom<L, C> for Letter {
    type Strategy = ItemByItem<C>;

    fn read_from<R: LendingReader<L, C>>(reader: &mut R) -> Result<Letter, C::Error> {
        match reader.read_value::<LetterParts>() {
            Ok(pages) => Ok(Letter {
                envelope: pages.before,
                pages: pages.value,
            }),
            Err(error) => Err(error),
        }
    }

    fn minimum_bytes_needed() -> usize {
        6
    }
}

impl<C: Context> Writable<C> for Letter {
    fn write_to<W: Writer<C>>(&self, writer: &mut W) -> Result<(), C::Error> {
        let pages: WithLength<LetterPagesLength, _, _> = WithLength {
            before: Part(&self.envelope),
            value: Part(&self.pages),
            length: PhantomData,
        };
        writer.write_value(&pages)
    }
}

/// A generic struct, without names of fields.
#[derive(Drop)]
pub struct Tagged<T>(pub u8, pub T);

/// What [`Tagged`] is read and written as.
type TaggedParts<T> = (u8, T);

impl<T: Layout> Layout for Tagged<T> {
    ghost Seen = { ⟦<TaggedParts<T> as Layout>⟧.Seen };

    ghost seen = { λ it. ⟦<TaggedParts<T> as Layout>⟧.seen (it.0, it.1) };

    ghost layout = { ⟦<TaggedParts<T> as Layout>⟧.layout };
}

impl<L: AsSlice<u8> + Drop, C: Context, T: ReadFrom<L, C>> ReadFrom<L, C> for Tagged<T> {
    type Strategy = ItemByItem<C>;

    fn read_from<R: LendingReader<L, C>>(reader: &mut R) -> Result<Tagged<T>, C::Error> {
        match reader.read_value() {
            Ok((t0, t1)) => Ok(Tagged(t0, t1)),
            Err(error) => Err(error),
        }
    }

    fn minimum_bytes_needed() -> usize {
        <TaggedParts<T> as ReadFrom<L, C>>::minimum_bytes_needed()
    }
}

impl<C: Context, T: Writable<C>> Writable<C> for Tagged<T> {
    fn write_to<W: Writer<C>>(&self, writer: &mut W) -> Result<(), C::Error> {
        writer.write_value(&(self.0, Part(&self.1)))
    }
}

impl<T: Layout> Holds for Tagged<T> {
    type Numbers = (u8, ());

    ghost Seen = { ⟦<Tagged<T> as Layout>⟧.Seen };

    ghost seen = { ⟦<Tagged<T> as Layout>⟧.seen };

    ghost layout = { ⟦<Tagged<T> as Layout>⟧.layout };

    ghost numbers = { λ it. (it.0, tt) };

    fn numbers(&self) -> (u8, ()) {
        (self.0, ())
    }
}

impl<L: AsSlice<u8> + Drop, C: Context, T: ReadFrom<L, C>> ReadHolds<L, C> for Tagged<T> {
    fn read_parts<R: LendingReader<L, C>>(reader: &mut R) -> Result<Tagged<T>, C::Error> {
        reader.read_value()
    }

    fn least_size() -> usize {
        <TaggedParts<T> as ReadFrom<L, C>>::minimum_bytes_needed()
    }
}

impl<C: Context, T: Writable<C>> WriteHolds<C> for Tagged<T> {
    fn write_parts<W: Writer<C>>(&self, writer: &mut W) -> Result<(), C::Error> {
        writer.write_value(self)
    }
}

#[derive(Drop)]
pub struct TaggedBody<T> {
    pub tagged: Tagged<T>,
    pub bytes: Vec<u8>,
}

/// The length of [`TaggedBody::bytes`].
struct TaggedBodyBytesLength {}

impl Length<(u8, ())> for TaggedBodyBytesLength {
    ghost is_told = { λ _. Unit {0} };

    ghost told = { λ it. it.0 };

    ghost field = { codes "bytes" };

    fn length((tagged_0, _): (u8, ())) -> Option<usize> {
        Some(tagged_0 as usize)
    }

    fn field() -> &'static str {
        "bytes"
    }
}

/// What [`TaggedBody`] is read and written as.
type TaggedBodyParts<T> = WithLength<TaggedBodyBytesLength, Tagged<T>, Vec<u8>>;

impl<T: Layout> Layout for TaggedBody<T> {
    ghost Seen = { ⟦<TaggedBodyParts<T> as Layout>⟧.Seen };

    ghost seen = { λ it. (⟦<Tagged<T> as Layout>⟧.seen it.tagged, ⟦<Vec<u8> as Layout>⟧.seen it.bytes) };

    ghost layout = { ⟦<TaggedBodyParts<T> as Layout>⟧.layout };
}

impl<L: AsSlice<u8> + Drop, C: Context, T: ReadFrom<L, C>> ReadFrom<L, C> for TaggedBody<T> {
    type Strategy = ItemByItem<C>;

    fn read_from<R: LendingReader<L, C>>(reader: &mut R) -> Result<TaggedBody<T>, C::Error> {
        match reader.read_value::<TaggedBodyParts<T>>() {
            Ok(bytes) => Ok(TaggedBody {
                tagged: bytes.before,
                bytes: bytes.value,
            }),
            Err(error) => Err(error),
        }
    }

    fn minimum_bytes_needed() -> usize {
        <TaggedBodyParts<T> as ReadFrom<L, C>>::minimum_bytes_needed()
    }
}

impl<C: Context, T: Writable<C>> Writable<C> for TaggedBody<T> {
    fn write_to<W: Writer<C>>(&self, writer: &mut W) -> Result<(), C::Error> {
        let bytes: WithLength<TaggedBodyBytesLength, _, _> = WithLength {
            before: Part(&self.tagged),
            value: Part(&self.bytes),
            length: PhantomData,
        };
        writer.write_value(&bytes)
    }
}

/// A struct in a variant.
#[derive(Drop)]
pub enum Delivery {
    Empty,
    Full {
        tagged: Tagged<u16>,
        words: Vec<u16>,
    },
}

/// The length of [`Delivery::Full::words`].
struct DeliveryFullWordsLength {}

impl Length<(u8, ())> for DeliveryFullWordsLength {
    ghost is_told = { λ _. Unit {0} };

    ghost told = { λ it. it.0 / 2 };

    ghost field = { codes "words" };

    fn length((tagged_0, _): (u8, ())) -> Option<usize> {
        Some((tagged_0 / 2) as usize)
    }

    fn field() -> &'static str {
        "words"
    }
}

/// The parts of [`Delivery::Full`].
type DeliveryFullParts = WithLength<DeliveryFullWordsLength, Tagged<u16>, Vec<u16>>;

/// The cases of [`Delivery`], each with its tag.
type DeliveryCases = Either<UnitCase<0>, Case<1, DeliveryFullParts>>;

impl Cases for Delivery {
    ghost use Rattle.speedy_derived.specs.declared.struct_lengths.Delivery.{Delivery};

    ghost Seen = { ⟦<DeliveryCases as CaseTree>⟧.Seen };

    ghost seen = { λ it. elim it [
      | Delivery.Empty ↦ inl tt
      | Delivery.Full t0 t1 ↦ inr (⟦<Tagged<u16> as Layout>⟧.seen t0, ⟦<Vec<u16> as Layout>⟧.seen t1)
    ] };

    ghost choices = { ⟦<DeliveryCases as CaseTree>⟧.choices };
}

impl Layout for Delivery {
    ghost Seen = { ⟦<Prefixed<u32, Delivery> as Layout>⟧.Seen };

    ghost seen = { ⟦<Delivery as Cases>⟧.seen };

    ghost layout = { ⟦<Prefixed<u32, Delivery> as Layout>⟧.layout };
}

impl<L: AsSlice<u8> + Drop, C: Context> ReadCases<L, C> for Delivery {
    fn read_case<R: LendingReader<L, C>>(tag: usize, reader: &mut R) -> Result<Delivery, C::Error> {
        match tag {
            0 => Ok(Delivery::Empty),
            1 => match reader.read_value::<DeliveryFullParts>() {
                Ok(words) => Ok(Delivery::Full {
                    tagged: words.before,
                    words: words.value,
                }),
                Err(error) => Err(error),
            },
            _ => Err(error_invalid_enum_variant()),
        }
    }
}

impl<L: AsSlice<u8> + Drop, C: Context> ReadFrom<L, C> for Delivery {
    type Strategy = ItemByItem<C>;

    fn read_from<R: LendingReader<L, C>>(reader: &mut R) -> Result<Delivery, C::Error> {
        read_tagged::<u32, Self, L, C, R>(reader)
    }

    fn minimum_bytes_needed() -> usize {
        4
    }
}

impl<C: Context> WriteCases<C> for Delivery {
    fn tag(&self) -> usize {
        match self {
            Delivery::Empty => 0,
            Delivery::Full { .. } => 1,
        }
    }

    fn write_case<W: Writer<C>>(&self, writer: &mut W) -> Result<(), C::Error> {
        match self {
            Delivery::Empty => Ok(()),
            Delivery::Full { tagged, words } => {
                let words: WithLength<DeliveryFullWordsLength, _, _> = WithLength {
                    before: Part(tagged),
                    value: Part(words),
                    length: PhantomData,
                };
                writer.write_value(&words)
            }
        }
    }
}

impl<C: Context> Writable<C> for Delivery {
    fn write_to<W: Writer<C>>(&self, writer: &mut W) -> Result<(), C::Error> {
        write_tagged::<u32, Self, C, W>(self, writer)
    }
}
