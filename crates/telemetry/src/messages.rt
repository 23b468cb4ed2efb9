//! What sensors send: who they are, and what they measured.
//!
//! Made from `messages.rs` by `tools/derive --library`: change that, and make this again.
ghost use Rattle.std.specs.Prelude.{◌≡◌};
ghost use Rattle.std.proofs.Common.{inl, inr};

use speedy::cases::{
    Case, CaseTree, Cases, Either, ReadCases, UnitCase, WriteCases, read_tagged, write_tagged,
};
use speedy::encoded::{EncodedList, ListItem, WriteListItem, measure_items, write_first_item};
use speedy::in_place::InPlace;
use speedy::lengths::OfLength;
use speedy::prefixed::Prefixed;
use speedy::private::error_invalid_enum_variant;
use speedy::whole::{EndsWithInput, Followed, MemoryReader, ReadToEnd, Rest, Whole, WriteToEnd};
use speedy::{
    Context, Endianness, ItemByItem, Layout, LendingReader, Part, ReadFrom, Writable, Writer,
};
use std::alloc::Global;
use std::convert::AsSlice;

/// What a sensor measured.
#[derive(Debug, PartialEq, Drop)]
pub struct Reading {
    /// Seconds since the sensor was started.
    pub second: u32,
    pub value: i32,
    pub is_exact: bool,
}

/// What [`Reading`] is read and written as.
type ReadingParts = (u32, i32, bool);

impl Layout for Reading {
    ghost Seen = { ⟦<ReadingParts as Layout>⟧.Seen };

    ghost seen = { λ it. ⟦<ReadingParts as Layout>⟧.seen (it.second, it.value, it.is_exact) };

    ghost layout = { ⟦<ReadingParts as Layout>⟧.layout };
}

impl<L: AsSlice<u8> + Drop, C: Context> ReadFrom<L, C> for Reading {
    type Strategy = ItemByItem<C>;

    #[inline(always)]
    fn read_from<R: LendingReader<L, C>>(reader: &mut R) -> Result<Reading, C::Error> {
        match reader.read_value() {
            Ok((second, value, is_exact)) => Ok(Reading {
                second,
                value,
                is_exact,
            }),
            Err(error) => Err(error),
        }
    }

    fn minimum_bytes_needed() -> usize {
        9
    }
}

impl<C: Context> Writable<C> for Reading {
    fn write_to<W: Writer<C>>(&self, writer: &mut W) -> Result<(), C::Error> {
        writer.write_value(&(self.second, Part(&self.value), self.is_exact))
    }
}

impl InPlace for Reading {
    ghost Seen = { ⟦<ReadingParts as InPlace>⟧.Seen };

    ghost in_place = { ⟦<ReadingParts as InPlace>⟧.in_place };
}

impl ListItem for Reading {
    fn measure<C: Context>(
        alloc: Global,
        context: C,
        count: usize,
        bytes: &[u8],
    ) -> Result<usize, C::Error> {
        measure_items::<Reading, C>(alloc, context, count, bytes)
    }
}

impl<C: Context> WriteListItem<C> for Reading {
    fn write_first<W: Writer<C>>(
        alloc: Global,
        order: Endianness,
        bytes: &[u8],
        writer: &mut W,
    ) -> Option<(usize, Result<(), C::Error>)> {
        write_first_item::<Reading, C, W>(alloc, order, bytes, writer)
    }
}

/// A message.
#[derive(Debug, Drop)]
pub enum Message<'a> {
    Ping,
    /// Who the sensor is, and whom to tell where it fails.
    Hello {
        name: &'a str,
        version: [u8; 3],
        mail: Option<&'a str>,
    },
    Measured {
        sensor: u16,
        reading: Reading,
    },
    /// A picture, or whatever else it took.
    Blob(&'a [u8]),
    /// What it measured since it was asked before.
    Measurements {
        sensor: u16,
        readings: EncodedList<'a, Reading>,
    },
}

/// The cases of [`Message`], each with its tag.
type MessageCases<'a> = Either<
    Either<UnitCase<1>, Case<2, (&'a str, [u8; 3], Option<&'a str>)>>,
    Either<
        Case<3, (u16, Reading)>,
        Either<Case<4, &'a [u8]>, Case<5, (u16, EncodedList<'a, Reading>)>>,
    >,
>;

impl<'a> Cases for Message<'a> {
    ghost use Rattle.telemetry.specs.declared.messages.Message.{Message};

    ghost Seen = { ⟦<MessageCases<'a> as CaseTree>⟧.Seen };

    ghost seen = { λ it. elim it [
      | Message.Ping ↦ inl (inl tt)
      | Message.Hello t0 t1 t2 ↦ inl (inr (⟦<(&'a str, [u8; 3], Option<&'a str>) as Layout>⟧.seen (t0, t1, t2)))
      | Message.Measured t0 t1 ↦ inr (inl (⟦<(u16, Reading) as Layout>⟧.seen (t0, t1)))
      | Message.Blob t0 ↦ inr (inr (inl (⟦<&'a [u8] as Layout>⟧.seen t0)))
      | Message.Measurements t0 t1 ↦ inr (inr (inr (⟦<(u16, EncodedList<'a, Reading>) as Layout>⟧.seen (t0, t1))))
    ] };

    ghost choices = { ⟦<MessageCases<'a> as CaseTree>⟧.choices };
}

impl<'a> Layout for Message<'a> {
    ghost Seen = { ⟦<Prefixed<u8, Message<'a>> as Layout>⟧.Seen };

    ghost seen = { ⟦<Message<'a> as Cases>⟧.seen };

    ghost layout = { ⟦<Prefixed<u8, Message<'a>> as Layout>⟧.layout };
}

impl<'a, C: Context> ReadCases<&'a [u8], C> for Message<'a> {
    fn read_case<R: LendingReader<&'a [u8], C>>(
        tag: usize,
        reader: &mut R,
    ) -> Result<Message<'a>, C::Error> {
        match tag {
            1 => Ok(Message::Ping),
            2 => match reader.read_value() {
                Ok(parts) => {
                    let (name, version, mail) = parts;
                    Ok(Message::Hello {
                        name,
                        version,
                        mail,
                    })
                }
                Err(error) => Err(error),
            },
            3 => match reader.read_value() {
                Ok((sensor, reading)) => Ok(Message::Measured { sensor, reading }),
                Err(error) => Err(error),
            },
            4 => match reader.read_value() {
                Ok(t0) => Ok(Message::Blob(t0)),
                Err(error) => Err(error),
            },
            5 => match reader.read_value() {
                Ok((sensor, readings)) => Ok(Message::Measurements { sensor, readings }),
                Err(error) => Err(error),
            },
            _ => Err(error_invalid_enum_variant()),
        }
    }
}

impl<'a, C: Context> ReadFrom<&'a [u8], C> for Message<'a> {
    type Strategy = ItemByItem<C>;

    fn read_from<R: LendingReader<&'a [u8], C>>(reader: &mut R) -> Result<Message<'a>, C::Error> {
        read_tagged::<u8, Self, &'a [u8], C, R>(reader)
    }

    fn minimum_bytes_needed() -> usize
        ensures { result ≡ ⟦<Prefixed<u8, Message<'a>> as Layout>⟧.layout.least }
    {
        1
    }
}

impl<'a, C: Context> WriteCases<C> for Message<'a> {
    fn tag(&self) -> usize {
        match self {
            Message::Ping => 1,
            Message::Hello { .. } => 2,
            Message::Measured { .. } => 3,
            Message::Blob(..) => 4,
            Message::Measurements { .. } => 5,
        }
    }

    fn write_case<W: Writer<C>>(&self, writer: &mut W) -> Result<(), C::Error> {
        match self {
            Message::Ping => Ok(()),
            Message::Hello {
                name,
                version,
                mail,
            } => writer.write_value(&(Part(name), Part(version), Part(mail))),
            Message::Measured { sensor, reading } => writer.write_value(&(*sensor, Part(reading))),
            Message::Blob(t0) => writer.write_value(t0),
            Message::Measurements { sensor, readings } => writer.write_value(&(
                *sensor,
                Part(readings),
            )),
        }
    }
}

impl<'a, C: Context> Writable<C> for Message<'a> {
    fn write_to<W: Writer<C>>(&self, writer: &mut W) -> Result<(), C::Error> {
        write_tagged::<u8, Self, C, W>(self, writer)
    }
}

/// A line of a log: a level, and a text up to the end of the bytes.
#[derive(Debug, PartialEq, Drop)]
pub struct Line<'a> {
    pub level: u8,
    pub text: &'a str,
}

/// What [`Line`] is read and written as.
type LineParts<'a> = Followed<u8, Rest<&'a str>>;

impl<'a> Whole for Line<'a> {
    type Ends = EndsWithInput;

    ghost Seen = { ⟦<LineParts<'a> as Whole>⟧.Seen };

    ghost seen = { λ it. (⟦<u8 as Layout>⟧.seen it.level, ⟦<&'a str as OfLength>⟧.seen it.text) };

    ghost whole = { ⟦<LineParts<'a> as Whole>⟧.whole };
}

impl<'a, C: Context> ReadToEnd<&'a [u8], C> for Line<'a> {
    fn read_to_end<R: MemoryReader<&'a [u8], C>>(reader: &mut R) -> Result<Line<'a>, C::Error> {
        match <LineParts<'a> as ReadToEnd<&'a [u8], C>>::read_to_end(reader) {
            Ok(read) => {
                let Followed(level, Rest(text)) = read;
                Ok(Line { level, text })
            }
            Err(error) => Err(error),
        }
    }
}

impl<'a, C: Context> WriteToEnd<C> for Line<'a> {
    fn write_to_end<W: Writer<C>>(&self, writer: &mut W) -> Result<(), C::Error> {
        Followed(self.level, Rest(Part(&self.text))).write_to_end(writer)
    }
}
