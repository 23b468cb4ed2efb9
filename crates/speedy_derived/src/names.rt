//! Names that the made module has uses for itself: of types, of parameters, of fields and of parts that it names.
//!
//! Made from `names.rs` by `tools/derive`: change that, and make this again.
ghost use Rattle.std.specs.Prelude.{[], ◌∷◌};
ghost use Rattle.std.proofs.Common.{inl, inr};

use speedy::cases::{
    Case, CaseTree, Cases, Either, ReadCases, UnitCase, WriteCases, read_tagged, write_tagged,
};
use speedy::magic::{Constant, Magic};
use speedy::prefixed::Prefixed;
use speedy::private::error_invalid_enum_variant;
use speedy::{
    Context as SpeedyContext, ItemByItem, Layout as SpeedyLayout, LendingReader,
    Part as SpeedyPart, ReadFrom, Writable, Writer,
};
use std::convert::AsSlice;
use std::marker::PhantomData;
use std::result::Result as StdResult;

/// What came of it.
#[derive(Drop)]
pub enum Result {
    Pass,
    Fail {
        error: u8,
        writer: u16,
        reader: String,
    },
}

/// The cases of [`Result`], each with its tag.
type ResultCases = Either<UnitCase<0>, Case<1, (u8, u16, String)>>;

impl Cases for Result {
    ghost use Rattle.speedy_derived.specs.declared.names.Result.{Result};

    ghost Seen = { ⟦<ResultCases as CaseTree>⟧.Seen };

    ghost seen = { λ it. elim it [
      | Result.Pass ↦ inl tt
      | Result.Fail t0 t1 t2 ↦ inr (⟦<(u8, u16, String) as SpeedyLayout>⟧.seen (t0, t1, t2))
    ] };

    ghost choices = { ⟦<ResultCases as CaseTree>⟧.choices };
}

impl SpeedyLayout for Result {
    ghost Seen = { ⟦<Prefixed<u32, Result> as SpeedyLayout>⟧.Seen };

    ghost seen = { ⟦<Result as Cases>⟧.seen };

    ghost layout = { ⟦<Prefixed<u32, Result> as SpeedyLayout>⟧.layout };
}

impl<L: AsSlice<u8> + Drop, C: SpeedyContext> ReadCases<L, C> for Result {
    fn read_case<R: LendingReader<L, C>>(
        tag: usize,
        reader: &mut R,
    ) -> StdResult<Result, C::Error> {
        match tag {
            0 => Ok(Result::Pass),
            1 => match reader.read_value() {
                Ok((error_, writer_, reader_)) => Ok(Result::Fail {
                    error: error_,
                    writer: writer_,
                    reader: reader_,
                }),
                Err(error) => Err(error),
            },
            _ => Err(error_invalid_enum_variant()),
        }
    }
}

impl<L: AsSlice<u8> + Drop, C: SpeedyContext> ReadFrom<L, C> for Result {
    type Strategy = ItemByItem<C>;

    fn read_from<R: LendingReader<L, C>>(reader: &mut R) -> StdResult<Result, C::Error> {
        read_tagged::<u32, Self, L, C, R>(reader)
    }

    fn minimum_bytes_needed() -> usize {
        4
    }
}

impl<C: SpeedyContext> WriteCases<C> for Result {
    fn tag(&self) -> usize {
        match self {
            Result::Pass => 0,
            Result::Fail { .. } => 1,
        }
    }

    fn write_case<W: Writer<C>>(&self, writer: &mut W) -> StdResult<(), C::Error> {
        match self {
            Result::Pass => Ok(()),
            Result::Fail {
                error: error_,
                writer: writer_,
                reader: reader_,
            } => writer.write_value(&(*error_, *writer_, SpeedyPart(reader_))),
        }
    }
}

impl<C: SpeedyContext> Writable<C> for Result {
    fn write_to<W: Writer<C>>(&self, writer: &mut W) -> StdResult<(), C::Error> {
        write_tagged::<u32, Self, C, W>(self, writer)
    }
}

#[derive(Drop)]
pub struct Context {
    pub type_: u8,
}

impl SpeedyLayout for Context {
    ghost Seen = { ⟦<u8 as SpeedyLayout>⟧.Seen };

    ghost seen = { λ it. ⟦<u8 as SpeedyLayout>⟧.seen it.type_ };

    ghost layout = { ⟦<u8 as SpeedyLayout>⟧.layout };
}

impl<L: AsSlice<u8> + Drop, C: SpeedyContext> ReadFrom<L, C> for Context {
    type Strategy = ItemByItem<C>;

    #[inline(always)]
    fn read_from<R: LendingReader<L, C>>(reader: &mut R) -> StdResult<Context, C::Error> {
        match reader.read_value() {
            Ok(type_) => Ok(Context { type_ }),
            Err(error) => Err(error),
        }
    }

    fn minimum_bytes_needed() -> usize {
        1
    }
}

impl<C: SpeedyContext> Writable<C> for Context {
    fn write_to<W: Writer<C>>(&self, writer: &mut W) -> StdResult<(), C::Error> {
        writer.write_value(&self.type_)
    }
}

#[derive(Drop)]
pub struct Part<Layout> {
    pub reader: Layout,
    pub writer: Context,
    pub parts: Option<u8>,
}

/// What [`Part`] is read and written as.
type PartParts<Layout> = (Layout, Context, Option<u8>);

impl<Layout: SpeedyLayout> SpeedyLayout for Part<Layout> {
    ghost Seen = { ⟦<PartParts<Layout> as SpeedyLayout>⟧.Seen };

    ghost seen = { λ it. ⟦<PartParts<Layout> as SpeedyLayout>⟧.seen (it.reader, it.writer, it.parts) };

    ghost layout = { ⟦<PartParts<Layout> as SpeedyLayout>⟧.layout };
}

impl<L: AsSlice<u8> + Drop, C: SpeedyContext, Layout: ReadFrom<L, C>> ReadFrom<L, C>
    for Part<Layout> {
    type Strategy = ItemByItem<C>;

    fn read_from<R: LendingReader<L, C>>(reader: &mut R) -> StdResult<Part<Layout>, C::Error> {
        match reader.read_value() {
            Ok((reader_, writer_, parts_)) => Ok(Part {
                reader: reader_,
                writer: writer_,
                parts: parts_,
            }),
            Err(error) => Err(error),
        }
    }

    fn minimum_bytes_needed() -> usize {
        <PartParts<Layout> as ReadFrom<L, C>>::minimum_bytes_needed()
    }
}

impl<C: SpeedyContext, Layout: Writable<C>> Writable<C> for Part<Layout> {
    fn write_to<W: Writer<C>>(&self, writer: &mut W) -> StdResult<(), C::Error> {
        writer.write_value(&(
            SpeedyPart(&self.reader),
            SpeedyPart(&self.writer),
            SpeedyPart(&self.parts),
        ))
    }
}

#[derive(Drop)]
pub enum Message {
    Hello { data: u8, record: String },
}

/// The parts of [`Message::Hello`].
type MessageHelloParts = (u8, Prefixed<u8, String>);

/// The cases of [`Message`], each with its tag.
type MessageCases = Case<0, MessageHelloParts>;

impl Cases for Message {
    ghost use Rattle.speedy_derived.specs.declared.names.Message.{Message};

    ghost Seen = { ⟦<MessageCases as CaseTree>⟧.Seen };

    ghost seen = { λ it. elim it [
      | Message.Hello t0 t1 ↦ (⟦<u8 as SpeedyLayout>⟧.seen t0, ⟦<String as SpeedyLayout>⟧.seen t1)
    ] };

    ghost choices = { ⟦<MessageCases as CaseTree>⟧.choices };
}

impl SpeedyLayout for Message {
    ghost Seen = { ⟦<Prefixed<u32, Message> as SpeedyLayout>⟧.Seen };

    ghost seen = { ⟦<Message as Cases>⟧.seen };

    ghost layout = { ⟦<Prefixed<u32, Message> as SpeedyLayout>⟧.layout };
}

impl<L: AsSlice<u8> + Drop, C: SpeedyContext> ReadCases<L, C> for Message {
    fn read_case<R: LendingReader<L, C>>(
        tag: usize,
        reader: &mut R,
    ) -> StdResult<Message, C::Error> {
        match tag {
            0 => match reader.read_value::<MessageHelloParts>() {
                Ok((data, record)) => Ok(Message::Hello {
                    data,
                    record: record.value,
                }),
                Err(error) => Err(error),
            },
            _ => Err(error_invalid_enum_variant()),
        }
    }
}

impl<L: AsSlice<u8> + Drop, C: SpeedyContext> ReadFrom<L, C> for Message {
    type Strategy = ItemByItem<C>;

    fn read_from<R: LendingReader<L, C>>(reader: &mut R) -> StdResult<Message, C::Error> {
        read_tagged::<u32, Self, L, C, R>(reader)
    }

    fn minimum_bytes_needed() -> usize {
        4
    }
}

impl<C: SpeedyContext> WriteCases<C> for Message {
    fn tag(&self) -> usize {
        match self {
            Message::Hello { .. } => 0,
        }
    }

    fn write_case<W: Writer<C>>(&self, writer: &mut W) -> StdResult<(), C::Error> {
        match self {
            Message::Hello { data, record } => {
                let record: Prefixed<u8, _> = Prefixed {
                    value: SpeedyPart(record),
                    number: PhantomData,
                };
                writer.write_value(&(*data, record))
            }
        }
    }
}

impl<C: SpeedyContext> Writable<C> for Message {
    fn write_to<W: Writer<C>>(&self, writer: &mut W) -> StdResult<(), C::Error> {
        write_tagged::<u32, Self, C, W>(self, writer)
    }
}

#[derive(Drop)]
pub struct MessageHello {
    pub a_b: u8,
    pub ab: u8,
}

/// The bytes before [`MessageHello::a_b`].
#[derive(Drop)]
struct BeforeMessageHelloAB {}

impl Constant for BeforeMessageHelloAB {
    ghost bytes = { 97 ∷ [] };

    fn bytes() -> &'static [u8] {
        b"a"
    }
}

/// The bytes before [`MessageHello::ab`].
#[derive(Drop)]
struct BeforeMessageHelloAb2 {}

impl Constant for BeforeMessageHelloAb2 {
    ghost bytes = { 98 ∷ [] };

    fn bytes() -> &'static [u8] {
        b"b"
    }
}

/// What [`MessageHello`] is read and written as.
type MessageHelloParts2 = (
    Magic<BeforeMessageHelloAB>,
    u8,
    Magic<BeforeMessageHelloAb2>,
    u8,
);

impl SpeedyLayout for MessageHello {
    ghost Seen = { ⟦<MessageHelloParts2 as SpeedyLayout>⟧.Seen };

    ghost seen = { λ it. (
      ⟦<BeforeMessageHelloAB as Constant>⟧.bytes,
      (
        ⟦<u8 as SpeedyLayout>⟧.seen it.a_b,
        (⟦<BeforeMessageHelloAb2 as Constant>⟧.bytes, ⟦<u8 as SpeedyLayout>⟧.seen it.ab),
      ),
    ) };

    ghost layout = { ⟦<MessageHelloParts2 as SpeedyLayout>⟧.layout };
}

impl<L: AsSlice<u8> + Drop, C: SpeedyContext> ReadFrom<L, C> for MessageHello {
    type Strategy = ItemByItem<C>;

    fn read_from<R: LendingReader<L, C>>(reader: &mut R) -> StdResult<MessageHello, C::Error> {
        match reader.read_value::<MessageHelloParts2>() {
            Ok((_, a_b, _, ab)) => Ok(MessageHello { a_b, ab }),
            Err(error) => Err(error),
        }
    }

    fn minimum_bytes_needed() -> usize {
        4
    }
}

impl<C: SpeedyContext> Writable<C> for MessageHello {
    fn write_to<W: Writer<C>>(&self, writer: &mut W) -> StdResult<(), C::Error> {
        writer.write_value(&(
            Magic::<BeforeMessageHelloAB>::new(),
            self.a_b,
            Magic::<BeforeMessageHelloAb2>::new(),
            self.ab,
        ))
    }
}

pub mod inner {
    use super::Context;
    use speedy::cases::{
        Case, CaseTree, Cases, Either, ReadCases, UnitCase, WriteCases, read_tagged, write_tagged,
    };
    use speedy::prefixed::Prefixed;
    use speedy::private::error_invalid_enum_variant;
    use speedy::{
        Context as SpeedyContext, ItemByItem, Layout, LendingReader, Part, ReadFrom, Writable,
        Writer,
    };
    use std::convert::AsSlice;

    #[derive(Drop)]
    pub enum Kind {
        A,
        B(u8, Context),
    }

    /// The cases of [`Kind`], each with its tag.
    type KindCases = Either<UnitCase<0>, Case<1, (u8, Context)>>;

    impl Cases for Kind {
        ghost use Rattle.speedy_derived.specs.declared.names.inner.Kind.{Kind};

        ghost Seen = { ⟦<KindCases as CaseTree>⟧.Seen };

        ghost seen = { λ it. elim it [
          | Kind.A ↦ inl tt
          | Kind.B t0 t1 ↦ inr (⟦<(u8, Context) as Layout>⟧.seen (t0, t1))
        ] };

        ghost choices = { ⟦<KindCases as CaseTree>⟧.choices };
    }

    impl Layout for Kind {
        ghost Seen = { ⟦<Prefixed<u32, Kind> as Layout>⟧.Seen };

        ghost seen = { ⟦<Kind as Cases>⟧.seen };

        ghost layout = { ⟦<Prefixed<u32, Kind> as Layout>⟧.layout };
    }

    impl<L: AsSlice<u8> + Drop, C: SpeedyContext> ReadCases<L, C> for Kind {
        fn read_case<R: LendingReader<L, C>>(tag: usize, reader: &mut R) -> Result<Kind, C::Error> {
            match tag {
                0 => Ok(Kind::A),
                1 => match reader.read_value() {
                    Ok((t0, t1)) => Ok(Kind::B(t0, t1)),
                    Err(error) => Err(error),
                },
                _ => Err(error_invalid_enum_variant()),
            }
        }
    }

    impl<L: AsSlice<u8> + Drop, C: SpeedyContext> ReadFrom<L, C> for Kind {
        type Strategy = ItemByItem<C>;

        fn read_from<R: LendingReader<L, C>>(reader: &mut R) -> Result<Kind, C::Error> {
            read_tagged::<u32, Self, L, C, R>(reader)
        }

        fn minimum_bytes_needed() -> usize {
            4
        }
    }

    impl<C: SpeedyContext> WriteCases<C> for Kind {
        fn tag(&self) -> usize {
            match self {
                Kind::A => 0,
                Kind::B(..) => 1,
            }
        }

        fn write_case<W: Writer<C>>(&self, writer: &mut W) -> Result<(), C::Error> {
            match self {
                Kind::A => Ok(()),
                Kind::B(t0, t1) => writer.write_value(&(*t0, Part(t1))),
            }
        }
    }

    impl<C: SpeedyContext> Writable<C> for Kind {
        fn write_to<W: Writer<C>>(&self, writer: &mut W) -> Result<(), C::Error> {
            write_tagged::<u32, Self, C, W>(self, writer)
        }
    }
}
