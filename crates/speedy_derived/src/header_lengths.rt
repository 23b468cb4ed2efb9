//! Headers and variants in which fields tell lengths: several numbers, and other parts between them.
//!
//! Made from `header_lengths.rs` by `tools/derive`: change that, and make this again.
ghost use Rattle.std.specs.Prelude.{codes, ◌-◌, ◌≤◌};
ghost use Rattle.std.proofs.Common.{inl, inr};

use speedy::cases::{
    Case, CaseTree, Cases, Either, ReadCases, WriteCases, read_tagged, write_tagged,
};
use speedy::lengths::{Length, Other, WithLength};
use speedy::prefixed::Prefixed;
use speedy::private::error_invalid_enum_variant;
use speedy::varints::Varint;
use speedy::{Context, ItemByItem, Layout, LendingReader, Part, ReadFrom, Writable, Writer};
use std::convert::AsSlice;
use std::marker::PhantomData;

/// Two lengths before what has them, with a flag between the numbers.
#[derive(Drop)]
pub struct ToldHeader {
    pub name_length: u16,
    pub is_last: bool,
    pub end: u64,
    pub name: String,
    pub value: Vec<u16>,
}

/// The length of [`ToldHeader::name`].
struct ToldHeaderNameLength {}

impl Length<((u16, ()), u64)> for ToldHeaderNameLength {
    ghost is_told = { λ _. Unit {0} };

    ghost told = { λ it. it.0.0 };

    ghost field = { codes "name" };

    fn length(((name_length, _), _): ((u16, ()), u64)) -> Option<usize> {
        Some(name_length as usize)
    }

    fn field() -> &'static str {
        "name"
    }
}

/// The length of [`ToldHeader::value`].
struct ToldHeaderValueLength {}

impl Length<((u16, ()), u64)> for ToldHeaderValueLength {
    ghost is_told = { λ it. it.0.0 ≤ it.1 };

    ghost told = { λ it. it.1 - it.0.0 };

    ghost field = { codes "value" };

    fn length(((name_length, _), end): ((u16, ()), u64)) -> Option<usize> {
        Some(end.checked_sub(name_length as u64)? as usize)
    }

    fn field() -> &'static str {
        "value"
    }
}

/// What [`ToldHeader`] is read and written as.
type ToldHeaderParts = WithLength<
    ToldHeaderValueLength,
    WithLength<ToldHeaderNameLength, ((u16, Other<bool>), Varint), String>,
    Vec<u16>,
>;

impl Layout for ToldHeader {
    ghost Seen = { ⟦<ToldHeaderParts as Layout>⟧.Seen };

    ghost seen = { λ it. (
      (((it.name_length, ⟦<bool as Layout>⟧.seen it.is_last), it.end), ⟦<String as Layout>⟧.seen it.name),
      ⟦<Vec<u16> as Layout>⟧.seen it.value,
    ) };

    ghost layout = { ⟦<ToldHeaderParts as Layout>⟧.layout };
}

impl<L: AsSlice<u8> + Drop, C: Context> ReadFrom<L, C> for ToldHeader {
    type Strategy = ItemByItem<C>;

    fn read_from<R: LendingReader<L, C>>(reader: &mut R) -> Result<ToldHeader, C::Error> {
        match reader.read_value::<ToldHeaderParts>() {
            Ok(value) => {
                let WithLength {
                    before,
                    value,
                    length: _,
                } = value;
                let WithLength {
                    before: before2,
                    value: name,
                    length: _,
                } = before;
                let (before3, end) = before2;
                let (name_length, is_last) = before3;
                Ok(ToldHeader {
                    name_length,
                    is_last: is_last.0,
                    end: end.0,
                    name,
                    value,
                })
            }
            Err(error) => Err(error),
        }
    }

    fn minimum_bytes_needed() -> usize {
        4
    }
}

impl<C: Context> Writable<C> for ToldHeader {
    fn write_to<W: Writer<C>>(&self, writer: &mut W) -> Result<(), C::Error> {
        let name: WithLength<ToldHeaderNameLength, _, _> = WithLength {
            before: ((self.name_length, Other(self.is_last)), Varint(self.end)),
            value: Part(&self.name),
            length: PhantomData,
        };
        let value: WithLength<ToldHeaderValueLength, _, _> = WithLength {
            before: name,
            value: Part(&self.value),
            length: PhantomData,
        };
        writer.write_value(&value)
    }
}

#[derive(Drop)]
pub enum ToldCases {
    Words { count: u8, words: Vec<u16> },
    Fixed(String, u8),
}

/// The length of [`ToldCases::Words::words`].
struct ToldCasesWordsWordsLength {}

impl Length<u8> for ToldCasesWordsWordsLength {
    ghost is_told = { λ _. Unit {0} };

    ghost told = { λ n. n };

    ghost field = { codes "words" };

    fn length(count: u8) -> Option<usize> {
        Some(count as usize)
    }

    fn field() -> &'static str {
        "words"
    }
}

/// The length of [`ToldCases::Fixed::0`].
struct ToldCasesFixedT0Length {}

impl Length<()> for ToldCasesFixedT0Length {
    ghost is_told = { λ _. Unit {0} };

    ghost told = { λ _. 3 };

    ghost field = { codes "0" };

    fn length(_numbers: ()) -> Option<usize> {
        Some(3)
    }

    fn field() -> &'static str {
        "0"
    }
}

/// The parts of [`ToldCases::Words`].
type ToldCasesWordsParts = WithLength<ToldCasesWordsWordsLength, u8, Vec<u16>>;

/// The parts of [`ToldCases::Fixed`].
type ToldCasesFixedParts = (WithLength<ToldCasesFixedT0Length, Other<()>, String>, u8);

/// The cases of [`ToldCases`], each with its tag.
type ToldCasesCases = Either<Case<0, ToldCasesWordsParts>, Case<1, ToldCasesFixedParts>>;

impl Cases for ToldCases {
    ghost use Rattle.speedy_derived.specs.declared.header_lengths.ToldCases.{ToldCases};

    ghost Seen = { ⟦<ToldCasesCases as CaseTree>⟧.Seen };

    ghost seen = { λ it. elim it [
      | ToldCases.Words t0 t1 ↦ inl (t0, ⟦<Vec<u16> as Layout>⟧.seen t1)
      | ToldCases.Fixed t0 t1 ↦ inr ((tt, ⟦<String as Layout>⟧.seen t0), ⟦<u8 as Layout>⟧.seen t1)
    ] };

    ghost choices = { ⟦<ToldCasesCases as CaseTree>⟧.choices };
}

impl Layout for ToldCases {
    ghost Seen = { ⟦<Prefixed<u32, ToldCases> as Layout>⟧.Seen };

    ghost seen = { ⟦<ToldCases as Cases>⟧.seen };

    ghost layout = { ⟦<Prefixed<u32, ToldCases> as Layout>⟧.layout };
}

impl<L: AsSlice<u8> + Drop, C: Context> ReadCases<L, C> for ToldCases {
    fn read_case<R: LendingReader<L, C>>(
        tag: usize,
        reader: &mut R,
    ) -> Result<ToldCases, C::Error> {
        match tag {
            0 => match reader.read_value::<ToldCasesWordsParts>() {
                Ok(words) => Ok(ToldCases::Words {
                    count: words.before,
                    words: words.value,
                }),
                Err(error) => Err(error),
            },
            1 => match reader.read_value::<ToldCasesFixedParts>() {
                Ok(parts) => {
                    let (t0, t1) = parts;
                    Ok(ToldCases::Fixed(t0.value, t1))
                }
                Err(error) => Err(error),
            },
            _ => Err(error_invalid_enum_variant()),
        }
    }
}

impl<L: AsSlice<u8> + Drop, C: Context> ReadFrom<L, C> for ToldCases {
    type Strategy = ItemByItem<C>;

    fn read_from<R: LendingReader<L, C>>(reader: &mut R) -> Result<ToldCases, C::Error> {
        read_tagged::<u32, Self, L, C, R>(reader)
    }

    fn minimum_bytes_needed() -> usize {
        4
    }
}

impl<C: Context> WriteCases<C> for ToldCases {
    fn tag(&self) -> usize {
        match self {
            ToldCases::Words { .. } => 0,
            ToldCases::Fixed(..) => 1,
        }
    }

    fn write_case<W: Writer<C>>(&self, writer: &mut W) -> Result<(), C::Error> {
        match self {
            ToldCases::Words { count, words } => {
                let words: WithLength<ToldCasesWordsWordsLength, _, _> = WithLength {
                    before: *count,
                    value: Part(words),
                    length: PhantomData,
                };
                writer.write_value(&words)
            }
            ToldCases::Fixed(t0, t1) => {
                let t0: WithLength<ToldCasesFixedT0Length, _, _> = WithLength {
                    before: Other(()),
                    value: Part(t0),
                    length: PhantomData,
                };
                writer.write_value(&(t0, *t1))
            }
        }
    }
}

impl<C: Context> Writable<C> for ToldCases {
    fn write_to<W: Writer<C>>(&self, writer: &mut W) -> Result<(), C::Error> {
        write_tagged::<u32, Self, C, W>(self, writer)
    }
}
