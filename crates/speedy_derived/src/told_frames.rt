//! Values whose number of bytes fields before them tell.
//!
//! Made from `told_frames.rs` by `tools/derive`: change that, and make this again.
ghost use Rattle.std.specs.Prelude.{codes, ◌-◌, ◌≡◌, ◌≤◌};
ghost use Rattle.std.proofs.Common.{inl, inr};

use speedy::cases::{
    Case, CaseTree, Cases, Either, ReadCases, UnitCase, WriteCases, read_tagged, write_tagged,
};
use speedy::lengths::{Holds, Length, OfLength, ReadHolds, WithFrame, WithLength, WriteHolds};
use speedy::prefixed::Prefixed;
use speedy::private::error_invalid_enum_variant;
use speedy::whole::{
    EndsWithInput, Followed, MemoryReader, ReadToEnd, Rest, Whole, WholePart, WriteToEnd,
};
use speedy::{Context, ItemByItem, Layout, LendingReader, Part, ReadFrom, Writable, Writer};
use std::convert::AsSlice;
use std::marker::PhantomData;

#[derive(Drop)]
pub struct Body {
    pub kind: u8,
    pub name: String,
}

/// What [`Body`] is read and written as.
type BodyParts = (u8, String);

impl Layout for Body {
    ghost Seen = { ⟦<BodyParts as Layout>⟧.Seen };

    ghost seen = { λ it. ⟦<BodyParts as Layout>⟧.seen (it.kind, it.name) };

    ghost layout = { ⟦<BodyParts as Layout>⟧.layout };
}

impl<L: AsSlice<u8> + Drop, C: Context> ReadFrom<L, C> for Body {
    type Strategy = ItemByItem<C>;

    fn read_from<R: LendingReader<L, C>>(reader: &mut R) -> Result<Body, C::Error> {
        match reader.read_value() {
            Ok((kind, name)) => Ok(Body { kind, name }),
            Err(error) => Err(error),
        }
    }

    fn minimum_bytes_needed() -> usize {
        5
    }
}

impl<C: Context> Writable<C> for Body {
    fn write_to<W: Writer<C>>(&self, writer: &mut W) -> Result<(), C::Error> {
        writer.write_value(&(self.kind, Part(&self.name)))
    }
}

/// A size that counts its own header too.
#[derive(Drop)]
pub struct SegmentHeader {
    pub version: u8,
    pub size: u16,
}

/// What [`SegmentHeader`] is read and written as.
type SegmentHeaderParts = (u8, u16);

impl Layout for SegmentHeader {
    ghost Seen = { ⟦<SegmentHeaderParts as Layout>⟧.Seen };

    ghost seen = { λ it. ⟦<SegmentHeaderParts as Layout>⟧.seen (it.version, it.size) };

    ghost layout = { ⟦<SegmentHeaderParts as Layout>⟧.layout };
}

impl<L: AsSlice<u8> + Drop, C: Context> ReadFrom<L, C> for SegmentHeader {
    type Strategy = ItemByItem<C>;

    #[inline(always)]
    fn read_from<R: LendingReader<L, C>>(reader: &mut R) -> Result<SegmentHeader, C::Error> {
        match reader.read_value() {
            Ok((version, size)) => Ok(SegmentHeader { version, size }),
            Err(error) => Err(error),
        }
    }

    fn minimum_bytes_needed() -> usize {
        3
    }
}

impl<C: Context> Writable<C> for SegmentHeader {
    fn write_to<W: Writer<C>>(&self, writer: &mut W) -> Result<(), C::Error> {
        writer.write_value(&(self.version, self.size))
    }
}

impl Holds for SegmentHeader {
    type Numbers = ((), u16);

    ghost Seen = { ⟦<SegmentHeader as Layout>⟧.Seen };

    ghost seen = { ⟦<SegmentHeader as Layout>⟧.seen };

    ghost layout = { ⟦<SegmentHeader as Layout>⟧.layout };

    ghost numbers = { λ it. (tt, it.1) };

    fn numbers(&self) -> ((), u16) {
        ((), self.size)
    }
}

impl<L: AsSlice<u8> + Drop, C: Context> ReadHolds<L, C> for SegmentHeader {
    fn read_parts<R: LendingReader<L, C>>(reader: &mut R) -> Result<SegmentHeader, C::Error> {
        reader.read_value()
    }

    fn least_size() -> usize {
        3
    }
}

impl<C: Context> WriteHolds<C> for SegmentHeader {
    fn write_parts<W: Writer<C>>(&self, writer: &mut W) -> Result<(), C::Error> {
        writer.write_value(self)
    }
}

#[derive(Drop)]
pub struct Segment {
    pub header: SegmentHeader,
    pub body: Body,
}

/// The length of [`Segment::body`].
struct SegmentBodyLength {}

impl Length<((), u16)> for SegmentBodyLength {
    ghost is_told = { λ it. 3 ≤ it.1 };

    ghost told = { λ it. it.1 - 3 };

    ghost field = { codes "body" };

    fn length((_, header_size): ((), u16)) -> Option<usize> {
        Some(header_size.checked_sub(3)? as usize)
    }

    fn field() -> &'static str {
        "body"
    }
}

/// What [`Segment`] is read and written as.
type SegmentParts = WithFrame<SegmentBodyLength, SegmentHeader, Body>;

impl Layout for Segment {
    ghost Seen = { ⟦<SegmentParts as Layout>⟧.Seen };

    ghost seen = { λ it. (⟦<SegmentHeader as Layout>⟧.seen it.header, ⟦<Body as Layout>⟧.seen it.body) };

    ghost layout = { ⟦<SegmentParts as Layout>⟧.layout };
}

impl<'a, C: Context> ReadFrom<&'a [u8], C> for Segment {
    type Strategy = ItemByItem<C>;

    fn read_from<R: LendingReader<&'a [u8], C>>(reader: &mut R) -> Result<Segment, C::Error> {
        match reader.read_value::<SegmentParts>() {
            Ok(body) => Ok(Segment {
                header: body.before,
                body: body.value,
            }),
            Err(error) => Err(error),
        }
    }

    fn minimum_bytes_needed() -> usize
        ensures { result ≡ ⟦<SegmentParts as Layout>⟧.layout.least }
    {
        3
    }
}

impl<C: Context> Writable<C> for Segment {
    fn write_to<W: Writer<C>>(&self, writer: &mut W) -> Result<(), C::Error> {
        let body: WithFrame<SegmentBodyLength, _, _> = WithFrame {
            before: Part(&self.header),
            value: Part(&self.body),
            length: PhantomData,
        };
        writer.write_value(&body)
    }
}

/// A value that ends where its bytes do.
#[derive(Drop)]
pub struct Tail {
    pub kind: u8,
    pub samples: Vec<u16>,
}

/// What [`Tail`] is read and written as.
type TailParts = Followed<u8, Rest<Vec<u16>>>;

impl Whole for Tail {
    type Ends = EndsWithInput;

    ghost Seen = { ⟦<TailParts as Whole>⟧.Seen };

    ghost seen = { λ it. (⟦<u8 as Layout>⟧.seen it.kind, ⟦<Vec<u16> as OfLength>⟧.seen it.samples) };

    ghost whole = { ⟦<TailParts as Whole>⟧.whole };
}

impl<L: AsSlice<u8> + Drop, C: Context> ReadToEnd<L, C> for Tail {
    fn read_to_end<R: MemoryReader<L, C>>(reader: &mut R) -> Result<Tail, C::Error> {
        match <TailParts as ReadToEnd<L, C>>::read_to_end(reader) {
            Ok(read) => {
                let Followed(kind, Rest(samples)) = read;
                Ok(Tail { kind, samples })
            }
            Err(error) => Err(error),
        }
    }
}

impl<C: Context> WriteToEnd<C> for Tail {
    fn write_to_end<W: Writer<C>>(&self, writer: &mut W) -> Result<(), C::Error> {
        Followed(self.kind, Rest(Part(&self.samples))).write_to_end(writer)
    }
}

/// Two sizes before what has them.
#[derive(Drop)]
pub struct Record {
    pub size: u8,
    pub name_length: u8,
    pub tail: Tail,
    pub name: String,
}

/// The length of [`Record::tail`].
struct RecordTailLength {}

impl Length<(u8, u8)> for RecordTailLength {
    ghost is_told = { λ _. Unit {0} };

    ghost told = { λ it. it.0 };

    ghost field = { codes "tail" };

    fn length((size, _): (u8, u8)) -> Option<usize> {
        Some(size as usize)
    }

    fn field() -> &'static str {
        "tail"
    }
}

/// The length of [`Record::name`].
struct RecordNameLength {}

impl Length<(u8, u8)> for RecordNameLength {
    ghost is_told = { λ _. Unit {0} };

    ghost told = { λ it. it.1 };

    ghost field = { codes "name" };

    fn length((_, name_length): (u8, u8)) -> Option<usize> {
        Some(name_length as usize)
    }

    fn field() -> &'static str {
        "name"
    }
}

/// What [`Record`] is read and written as.
type RecordParts = WithLength<
    RecordNameLength,
    WithFrame<RecordTailLength, (u8, u8), Tail>,
    String,
>;

impl Layout for Record {
    ghost Seen = { ⟦<RecordParts as Layout>⟧.Seen };

    ghost seen = { λ it. (
      ((it.size, it.name_length), ⟦<Tail as Whole>⟧.seen it.tail),
      ⟦<String as Layout>⟧.seen it.name,
    ) };

    ghost layout = { ⟦<RecordParts as Layout>⟧.layout };
}

impl<'a, C: Context> ReadFrom<&'a [u8], C> for Record {
    type Strategy = ItemByItem<C>;

    fn read_from<R: LendingReader<&'a [u8], C>>(reader: &mut R) -> Result<Record, C::Error> {
        match reader.read_value::<RecordParts>() {
            Ok(name) => {
                let WithLength {
                    before,
                    value: name,
                    length: _,
                } = name;
                let WithFrame {
                    before: before2,
                    value: tail,
                    length: _,
                } = before;
                let (size, name_length) = before2;
                Ok(Record {
                    size,
                    name_length,
                    tail,
                    name,
                })
            }
            Err(error) => Err(error),
        }
    }

    fn minimum_bytes_needed() -> usize
        ensures { result ≡ ⟦<RecordParts as Layout>⟧.layout.least }
    {
        2
    }
}

impl<C: Context> Writable<C> for Record {
    fn write_to<W: Writer<C>>(&self, writer: &mut W) -> Result<(), C::Error> {
        let tail: WithFrame<RecordTailLength, _, _> = WithFrame {
            before: (self.size, self.name_length),
            value: WholePart(&self.tail),
            length: PhantomData,
        };
        let name: WithLength<RecordNameLength, _, _> = WithLength {
            before: tail,
            value: Part(&self.name),
            length: PhantomData,
        };
        writer.write_value(&name)
    }
}

/// What holds frames is read from borrowed bytes, as they are.
#[derive(Drop)]
pub struct Log<T> {
    pub records: Vec<Record>,
    pub more: T,
}

/// What [`Log`] is read and written as.
type LogParts<T> = (Vec<Record>, T);

impl<T: Layout> Layout for Log<T> {
    ghost Seen = { ⟦<LogParts<T> as Layout>⟧.Seen };

    ghost seen = { λ it. ⟦<LogParts<T> as Layout>⟧.seen (it.records, it.more) };

    ghost layout = { ⟦<LogParts<T> as Layout>⟧.layout };
}

impl<'a, C: Context, T: ReadFrom<&'a [u8], C>> ReadFrom<&'a [u8], C> for Log<T> {
    type Strategy = ItemByItem<C>;

    fn read_from<R: LendingReader<&'a [u8], C>>(reader: &mut R) -> Result<Log<T>, C::Error> {
        match reader.read_value() {
            Ok((records, more)) => Ok(Log { records, more }),
            Err(error) => Err(error),
        }
    }

    fn minimum_bytes_needed() -> usize
        ensures { result ≡ ⟦<LogParts<T> as Layout>⟧.layout.least }
    {
        <LogParts<T> as ReadFrom<&'a [u8], C>>::minimum_bytes_needed()
    }
}

impl<C: Context, T: Writable<C>> Writable<C> for Log<T> {
    fn write_to<W: Writer<C>>(&self, writer: &mut W) -> Result<(), C::Error> {
        writer.write_value(&(Part(&self.records), Part(&self.more)))
    }
}

#[derive(Drop)]
pub enum Event<'a> {
    Ping,
    Said { who: u16, text: &'a str },
}

/// The cases of [`Event`], each with its tag.
type EventCases<'a> = Either<UnitCase<0>, Case<1, (u16, &'a str)>>;

impl<'a> Cases for Event<'a> {
    ghost use Rattle.speedy_derived.specs.declared.told_frames.Event.{Event};

    ghost Seen = { ⟦<EventCases<'a> as CaseTree>⟧.Seen };

    ghost seen = { λ it. elim it [
      | Event.Ping ↦ inl tt
      | Event.Said t0 t1 ↦ inr (⟦<(u16, &'a str) as Layout>⟧.seen (t0, t1))
    ] };

    ghost choices = { ⟦<EventCases<'a> as CaseTree>⟧.choices };
}

impl<'a> Layout for Event<'a> {
    ghost Seen = { ⟦<Prefixed<u32, Event<'a>> as Layout>⟧.Seen };

    ghost seen = { ⟦<Event<'a> as Cases>⟧.seen };

    ghost layout = { ⟦<Prefixed<u32, Event<'a>> as Layout>⟧.layout };
}

impl<'a, C: Context> ReadCases<&'a [u8], C> for Event<'a> {
    fn read_case<R: LendingReader<&'a [u8], C>>(
        tag: usize,
        reader: &mut R,
    ) -> Result<Event<'a>, C::Error> {
        match tag {
            0 => Ok(Event::Ping),
            1 => match reader.read_value() {
                Ok((who, text)) => Ok(Event::Said { who, text }),
                Err(error) => Err(error),
            },
            _ => Err(error_invalid_enum_variant()),
        }
    }
}

impl<'a, C: Context> ReadFrom<&'a [u8], C> for Event<'a> {
    type Strategy = ItemByItem<C>;

    fn read_from<R: LendingReader<&'a [u8], C>>(reader: &mut R) -> Result<Event<'a>, C::Error> {
        read_tagged::<u32, Self, &'a [u8], C, R>(reader)
    }

    fn minimum_bytes_needed() -> usize
        ensures { result ≡ ⟦<Prefixed<u32, Event<'a>> as Layout>⟧.layout.least }
    {
        4
    }
}

impl<'a, C: Context> WriteCases<C> for Event<'a> {
    fn tag(&self) -> usize {
        match self {
            Event::Ping => 0,
            Event::Said { .. } => 1,
        }
    }

    fn write_case<W: Writer<C>>(&self, writer: &mut W) -> Result<(), C::Error> {
        match self {
            Event::Ping => Ok(()),
            Event::Said { who, text } => writer.write_value(&(*who, Part(text))),
        }
    }
}

impl<'a, C: Context> Writable<C> for Event<'a> {
    fn write_to<W: Writer<C>>(&self, writer: &mut W) -> Result<(), C::Error> {
        write_tagged::<u32, Self, C, W>(self, writer)
    }
}

/// An enum that borrows, in a frame in a variant.
#[derive(Drop)]
pub enum Chunk<'a> {
    Empty,
    Full { size: u32, event: Event<'a> },
}

/// The length of [`Chunk::Full::event`].
struct ChunkFullEventLength {}

impl Length<u32> for ChunkFullEventLength {
    ghost is_told = { λ _. Unit {0} };

    ghost told = { λ n. n };

    ghost field = { codes "event" };

    fn length(size: u32) -> Option<usize> {
        Some(size as usize)
    }

    fn field() -> &'static str {
        "event"
    }
}

/// The parts of [`Chunk::Full`].
type ChunkFullParts<'a> = WithFrame<ChunkFullEventLength, u32, Event<'a>>;

/// The cases of [`Chunk`], each with its tag.
type ChunkCases<'a> = Either<UnitCase<0>, Case<1, ChunkFullParts<'a>>>;

impl<'a> Cases for Chunk<'a> {
    ghost use Rattle.speedy_derived.specs.declared.told_frames.Chunk.{Chunk};

    ghost Seen = { ⟦<ChunkCases<'a> as CaseTree>⟧.Seen };

    ghost seen = { λ it. elim it [
      | Chunk.Empty ↦ inl tt
      | Chunk.Full t0 t1 ↦ inr (t0, ⟦<Event<'a> as Layout>⟧.seen t1)
    ] };

    ghost choices = { ⟦<ChunkCases<'a> as CaseTree>⟧.choices };
}

impl<'a> Layout for Chunk<'a> {
    ghost Seen = { ⟦<Prefixed<u32, Chunk<'a>> as Layout>⟧.Seen };

    ghost seen = { ⟦<Chunk<'a> as Cases>⟧.seen };

    ghost layout = { ⟦<Prefixed<u32, Chunk<'a>> as Layout>⟧.layout };
}

impl<'a, C: Context> ReadCases<&'a [u8], C> for Chunk<'a> {
    fn read_case<R: LendingReader<&'a [u8], C>>(
        tag: usize,
        reader: &mut R,
    ) -> Result<Chunk<'a>, C::Error> {
        match tag {
            0 => Ok(Chunk::Empty),
            1 => match reader.read_value::<ChunkFullParts<'a>>() {
                Ok(event) => Ok(Chunk::Full {
                    size: event.before,
                    event: event.value,
                }),
                Err(error) => Err(error),
            },
            _ => Err(error_invalid_enum_variant()),
        }
    }
}

impl<'a, C: Context> ReadFrom<&'a [u8], C> for Chunk<'a> {
    type Strategy = ItemByItem<C>;

    fn read_from<R: LendingReader<&'a [u8], C>>(reader: &mut R) -> Result<Chunk<'a>, C::Error> {
        read_tagged::<u32, Self, &'a [u8], C, R>(reader)
    }

    fn minimum_bytes_needed() -> usize
        ensures { result ≡ ⟦<Prefixed<u32, Chunk<'a>> as Layout>⟧.layout.least }
    {
        4
    }
}

impl<'a, C: Context> WriteCases<C> for Chunk<'a> {
    fn tag(&self) -> usize {
        match self {
            Chunk::Empty => 0,
            Chunk::Full { .. } => 1,
        }
    }

    fn write_case<W: Writer<C>>(&self, writer: &mut W) -> Result<(), C::Error> {
        match self {
            Chunk::Empty => Ok(()),
            Chunk::Full { size, event } => {
                let event: WithFrame<ChunkFullEventLength, _, _> = WithFrame {
                    before: *size,
                    value: Part(event),
                    length: PhantomData,
                };
                writer.write_value(&event)
            }
        }
    }
}

impl<'a, C: Context> Writable<C> for Chunk<'a> {
    fn write_to<W: Writer<C>>(&self, writer: &mut W) -> Result<(), C::Error> {
        write_tagged::<u32, Self, C, W>(self, writer)
    }
}
