//! What a small protocol says: a header, of one version or the other, and then messages.
//!
//! Made from `messages.rs` by `tools/derive`: change that, and make this again.
ghost use Rattle.std.specs.Prelude.{[], codes, ◌∷◌, ◌≡◌};
ghost use Rattle.std.proofs.Common.{inl, inr};

use speedy::cases::{
    Case, CaseTree, Cases, Either, ReadCases, UnitCase, WriteCases, read_tagged, write_tagged,
};
use speedy::lengths::{Length, WithFrame};
use speedy::magic::{Constant, Magic};
use speedy::prefixed::Prefixed;
use speedy::private::error_invalid_enum_variant;
use speedy::{Context, ItemByItem, Layout, LendingReader, Part, ReadFrom, Writable, Writer};
use std::convert::AsSlice;
use std::marker::PhantomData;

/// What a stream begins with: a magic number, and a header of any version after the number of its bytes.
#[derive(Debug, PartialEq, Drop)]
pub struct Start {
    pub header: Vec<u8>,
}

/// The bytes before [`Start::header`].
#[derive(Drop)]
struct BeforeStartHeader {}

impl Constant for BeforeStartHeader {
    ghost bytes = { 77 ∷ 83 ∷ 71 ∷ 83 ∷ [] };

    fn bytes() -> &'static [u8] {
        b"MSGS"
    }
}

/// What [`Start`] is read and written as.
type StartParts = (Magic<BeforeStartHeader>, Prefixed<u8, Vec<u8>>);

impl Layout for Start {
    ghost Seen = { ⟦<StartParts as Layout>⟧.Seen };

    ghost seen = { λ it. (⟦<BeforeStartHeader as Constant>⟧.bytes, ⟦<Vec<u8> as Layout>⟧.seen it.header) };

    ghost layout = { ⟦<StartParts as Layout>⟧.layout };
}

impl<L: AsSlice<u8> + Drop, C: Context> ReadFrom<L, C> for Start {
    type Strategy = ItemByItem<C>;

    fn read_from<R: LendingReader<L, C>>(reader: &mut R) -> Result<Start, C::Error> {
        match reader.read_value::<StartParts>() {
            Ok((_, header)) => Ok(Start {
                header: header.value,
            }),
            Err(error) => Err(error),
        }
    }

    fn minimum_bytes_needed() -> usize {
        5
    }
}

impl<C: Context> Writable<C> for Start {
    fn write_to<W: Writer<C>>(&self, writer: &mut W) -> Result<(), C::Error> {
        let header: Prefixed<u8, _> = Prefixed {
            value: Part(&self.header),
            number: PhantomData,
        };
        writer.write_value(&(Magic::<BeforeStartHeader>::new(), header))
    }
}

/// The header of version 1.
#[derive(Debug, PartialEq, Drop)]
pub struct Header {
    pub version: u16,
    pub flags: u16,
}

/// What [`Header`] is read and written as.
type HeaderParts = (u16, u16);

impl Layout for Header {
    ghost Seen = { ⟦<HeaderParts as Layout>⟧.Seen };

    ghost seen = { λ it. ⟦<HeaderParts as Layout>⟧.seen (it.version, it.flags) };

    ghost layout = { ⟦<HeaderParts as Layout>⟧.layout };
}

impl<L: AsSlice<u8> + Drop, C: Context> ReadFrom<L, C> for Header {
    type Strategy = ItemByItem<C>;

    #[inline(always)]
    fn read_from<R: LendingReader<L, C>>(reader: &mut R) -> Result<Header, C::Error> {
        match reader.read_value() {
            Ok((version, flags)) => Ok(Header { version, flags }),
            Err(error) => Err(error),
        }
    }

    fn minimum_bytes_needed() -> usize {
        4
    }
}

impl<C: Context> Writable<C> for Header {
    fn write_to<W: Writer<C>>(&self, writer: &mut W) -> Result<(), C::Error> {
        writer.write_value(&(self.version, self.flags))
    }
}

/// The header of version 2 has a field more, at its end.
#[derive(Debug, PartialEq, Drop)]
pub struct Header2 {
    pub version: u16,
    pub flags: u16,
    pub session: u64,
}

/// What [`Header2`] is read and written as.
type Header2Parts = (u16, u16, u64);

impl Layout for Header2 {
    ghost Seen = { ⟦<Header2Parts as Layout>⟧.Seen };

    ghost seen = { λ it. ⟦<Header2Parts as Layout>⟧.seen (it.version, it.flags, it.session) };

    ghost layout = { ⟦<Header2Parts as Layout>⟧.layout };
}

impl<L: AsSlice<u8> + Drop, C: Context> ReadFrom<L, C> for Header2 {
    type Strategy = ItemByItem<C>;

    #[inline(always)]
    fn read_from<R: LendingReader<L, C>>(reader: &mut R) -> Result<Header2, C::Error> {
        match reader.read_value() {
            Ok((version, flags, session)) => Ok(Header2 {
                version,
                flags,
                session,
            }),
            Err(error) => Err(error),
        }
    }

    fn minimum_bytes_needed() -> usize {
        12
    }
}

impl<C: Context> Writable<C> for Header2 {
    fn write_to<W: Writer<C>>(&self, writer: &mut W) -> Result<(), C::Error> {
        writer.write_value(&(self.version, self.flags, self.session))
    }
}

/// What a sensor measured.
#[derive(Debug, PartialEq, Drop)]
pub struct Reading {
    pub second: u32,
    pub value: i32,
}

/// What [`Reading`] is read and written as.
type ReadingParts = (u32, i32);

impl Layout for Reading {
    ghost Seen = { ⟦<ReadingParts as Layout>⟧.Seen };

    ghost seen = { λ it. ⟦<ReadingParts as Layout>⟧.seen (it.second, it.value) };

    ghost layout = { ⟦<ReadingParts as Layout>⟧.layout };
}

impl<L: AsSlice<u8> + Drop, C: Context> ReadFrom<L, C> for Reading {
    type Strategy = ItemByItem<C>;

    #[inline(always)]
    fn read_from<R: LendingReader<L, C>>(reader: &mut R) -> Result<Reading, C::Error> {
        match reader.read_value() {
            Ok((second, value)) => Ok(Reading { second, value }),
            Err(error) => Err(error),
        }
    }

    fn minimum_bytes_needed() -> usize {
        8
    }
}

impl<C: Context> Writable<C> for Reading {
    fn write_to<W: Writer<C>>(&self, writer: &mut W) -> Result<(), C::Error> {
        writer.write_value(&(self.second, Part(&self.value)))
    }
}

/// A message. Its texts and bytes lie in what it is read from.
#[derive(Debug, PartialEq, Drop)]
pub enum Message<'a> {
    Ping,
    Hello {
        name: &'a str,
        mail: Option<&'a str>,
    },
    Readings {
        sensor: u16,
        list: Vec<Reading>,
    },
    Blob(&'a [u8]),
    Failure {
        code: u32,
        text: &'a str,
    },
    Bye,
}

/// The cases of [`Message`], each with its tag.
type MessageCases<'a> = Either<
    Either<UnitCase<1>, Either<Case<2, (&'a str, Option<&'a str>)>, Case<3, (u16, Vec<Reading>)>>>,
    Either<Case<4, &'a [u8]>, Either<Case<5, (u32, &'a str)>, UnitCase<255>>>,
>;

impl<'a> Cases for Message<'a> {
    ghost use Rattle.speedy_protocol.specs.declared.messages.Message.{Message};

    ghost Seen = { ⟦<MessageCases<'a> as CaseTree>⟧.Seen };

    ghost seen = { λ it. elim it [
      | Message.Ping ↦ inl (inl tt)
      | Message.Hello t0 t1 ↦ inl (inr (inl (⟦<(&'a str, Option<&'a str>) as Layout>⟧.seen (t0, t1))))
      | Message.Readings t0 t1 ↦ inl (inr (inr (⟦<(u16, Vec<Reading>) as Layout>⟧.seen (t0, t1))))
      | Message.Blob t0 ↦ inr (inl (⟦<&'a [u8] as Layout>⟧.seen t0))
      | Message.Failure t0 t1 ↦ inr (inr (inl (⟦<(u32, &'a str) as Layout>⟧.seen (t0, t1))))
      | Message.Bye ↦ inr (inr (inr tt))
    ] };

    ghost choices = { ⟦<MessageCases<'a> as CaseTree>⟧.choices };
}

impl<'a> Layout for Message<'a> {
    ghost Seen = { ⟦<Prefixed<u8, Message<'a>> as Layout>⟧.Seen };

    ghost seen = { ⟦<Message<'a> as Cases>⟧.seen };

    ghost layout = { ⟦<Prefixed<u8, Message<'a>> as Layout>⟧.layout };
}

impl<'a, C: Context> ReadCases<&'a [u8], C> for Message<'a> {
    fn read_case<R: LendingReader<&'a [u8], C>>(
        tag: usize,
        reader: &mut R,
    ) -> Result<Message<'a>, C::Error> {
        match tag {
            1 => Ok(Message::Ping),
            2 => match reader.read_value() {
                Ok((name, mail)) => Ok(Message::Hello { name, mail }),
                Err(error) => Err(error),
            },
            3 => match reader.read_value() {
                Ok((sensor, list)) => Ok(Message::Readings { sensor, list }),
                Err(error) => Err(error),
            },
            4 => match reader.read_value() {
                Ok(t0) => Ok(Message::Blob(t0)),
                Err(error) => Err(error),
            },
            5 => match reader.read_value() {
                Ok((code, text)) => Ok(Message::Failure { code, text }),
                Err(error) => Err(error),
            },
            255 => Ok(Message::Bye),
            _ => Err(error_invalid_enum_variant()),
        }
    }
}

impl<'a, C: Context> ReadFrom<&'a [u8], C> for Message<'a> {
    type Strategy = ItemByItem<C>;

    fn read_from<R: LendingReader<&'a [u8], C>>(reader: &mut R) -> Result<Message<'a>, C::Error> {
        read_tagged::<u8, Self, &'a [u8], C, R>(reader)
    }

    fn minimum_bytes_needed() -> usize
        ensures { result ≡ ⟦<Prefixed<u8, Message<'a>> as Layout>⟧.layout.least }
    {
        1
    }
}

impl<'a, C: Context> WriteCases<C> for Message<'a> {
    fn tag(&self) -> usize {
        match self {
            Message::Ping => 1,
            Message::Hello { .. } => 2,
            Message::Readings { .. } => 3,
            Message::Blob(..) => 4,
            Message::Failure { .. } => 5,
            Message::Bye => 255,
        }
    }

    fn write_case<W: Writer<C>>(&self, writer: &mut W) -> Result<(), C::Error> {
        match self {
            Message::Ping => Ok(()),
            Message::Hello { name, mail } => writer.write_value(&(Part(name), Part(mail))),
            Message::Readings { sensor, list } => writer.write_value(&(*sensor, Part(list))),
            Message::Blob(t0) => writer.write_value(t0),
            Message::Failure { code, text } => writer.write_value(&(*code, Part(text))),
            Message::Bye => Ok(()),
        }
    }
}

impl<'a, C: Context> Writable<C> for Message<'a> {
    fn write_to<W: Writer<C>>(&self, writer: &mut W) -> Result<(), C::Error> {
        write_tagged::<u8, Self, C, W>(self, writer)
    }
}

/// A message behind the number of its bytes, for callers in other languages.
#[derive(Debug, PartialEq, Drop)]
pub struct FramedMessage<'a> {
    pub size: u16,
    pub message: Message<'a>,
}

/// The length of [`FramedMessage::message`].
struct FramedMessageMessageLength {}

impl Length<u16> for FramedMessageMessageLength {
    ghost is_told = { λ _. Unit {0} };

    ghost told = { λ n. n };

    ghost field = { codes "message" };

    fn length(size: u16) -> Option<usize> {
        Some(size as usize)
    }

    fn field() -> &'static str {
        "message"
    }
}

/// What [`FramedMessage`] is read and written as.
type FramedMessageParts<'a> = WithFrame<FramedMessageMessageLength, u16, Message<'a>>;

impl<'a> Layout for FramedMessage<'a> {
    ghost Seen = { ⟦<FramedMessageParts<'a> as Layout>⟧.Seen };

    ghost seen = { λ it. (it.size, ⟦<Message<'a> as Layout>⟧.seen it.message) };

    ghost layout = { ⟦<FramedMessageParts<'a> as Layout>⟧.layout };
}

impl<'a, C: Context> ReadFrom<&'a [u8], C> for FramedMessage<'a> {
    type Strategy = ItemByItem<C>;

    fn read_from<R: LendingReader<&'a [u8], C>>(
        reader: &mut R,
    ) -> Result<FramedMessage<'a>, C::Error> {
        match reader.read_value::<FramedMessageParts<'a>>() {
            Ok(message) => Ok(FramedMessage {
                size: message.before,
                message: message.value,
            }),
            Err(error) => Err(error),
        }
    }

    fn minimum_bytes_needed() -> usize
        ensures { result ≡ ⟦<FramedMessageParts<'a> as Layout>⟧.layout.least }
    {
        2
    }
}

impl<'a, C: Context> Writable<C> for FramedMessage<'a> {
    fn write_to<W: Writer<C>>(&self, writer: &mut W) -> Result<(), C::Error> {
        let message: WithFrame<FramedMessageMessageLength, _, _> = WithFrame {
            before: self.size,
            value: Part(&self.message),
            length: PhantomData,
        };
        writer.write_value(&message)
    }
}

/// A frame with whatever stands in it.
#[derive(Debug, PartialEq, Drop)]
pub struct FramedBytes {
    pub bytes: Vec<u8>,
}

impl Layout for FramedBytes {
    ghost Seen = { ⟦<Prefixed<u16, Vec<u8>> as Layout>⟧.Seen };

    ghost seen = { λ it. ⟦<Vec<u8> as Layout>⟧.seen it.bytes };

    ghost layout = { ⟦<Prefixed<u16, Vec<u8>> as Layout>⟧.layout };
}

impl<L: AsSlice<u8> + Drop, C: Context> ReadFrom<L, C> for FramedBytes {
    type Strategy = ItemByItem<C>;

    fn read_from<R: LendingReader<L, C>>(reader: &mut R) -> Result<FramedBytes, C::Error> {
        match reader.read_value::<Prefixed<u16, Vec<u8>>>() {
            Ok(bytes) => Ok(FramedBytes { bytes: bytes.value }),
            Err(error) => Err(error),
        }
    }

    fn minimum_bytes_needed() -> usize {
        2
    }
}

impl<C: Context> Writable<C> for FramedBytes {
    fn write_to<W: Writer<C>>(&self, writer: &mut W) -> Result<(), C::Error> {
        let bytes: Prefixed<u16, _> = Prefixed {
            value: Part(&self.bytes),
            number: PhantomData,
        };
        writer.write_value(&bytes)
    }
}
