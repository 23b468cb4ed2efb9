//! Texts, lists, maps and sets behind lengths of other widths, and options of these.
//!
//! Made from `lengths.rs` by `tools/derive`: change that, and make this again.
ghost use Rattle.std.proofs.Common.{inl, inr};

use speedy::cases::{
    Case, CaseTree, Cases, Either, ReadCases, UnitCase, WriteCases, read_tagged, write_tagged,
};
use speedy::prefixed::{Prefixed, U7, lent_option, option_value};
use speedy::private::error_invalid_enum_variant;
use speedy::varint::VarInt64;
use speedy::{Context, ItemByItem, Layout, LendingReader, Part, ReadFrom, Writable, Writer};
use std::collections::{BTreeMap, HashMap, HashSet};
use std::convert::AsSlice;
use std::marker::PhantomData;

#[derive(Drop)]
pub struct LengthsOfMaps {
    pub tree: BTreeMap<u8, u16>,
    pub hashed: HashSet<u16>,
}

/// What [`LengthsOfMaps`] is read and written as.
type LengthsOfMapsParts = (
    Prefixed<u8, BTreeMap<u8, u16>>,
    Prefixed<VarInt64, HashSet<u16>>,
);

impl Layout for LengthsOfMaps {
    ghost Seen = { ⟦<LengthsOfMapsParts as Layout>⟧.Seen };

    ghost seen = { λ it. (⟦<BTreeMap<u8, u16> as Layout>⟧.seen it.tree, ⟦<HashSet<u16> as Layout>⟧.seen it.hashed) };

    ghost layout = { ⟦<LengthsOfMapsParts as Layout>⟧.layout };
}

impl<L: AsSlice<u8> + Drop, C: Context> ReadFrom<L, C> for LengthsOfMaps {
    type Strategy = ItemByItem<C>;

    fn read_from<R: LendingReader<L, C>>(reader: &mut R) -> Result<LengthsOfMaps, C::Error> {
        match reader.read_value::<LengthsOfMapsParts>() {
            Ok((tree, hashed)) => Ok(LengthsOfMaps {
                tree: tree.value,
                hashed: hashed.value,
            }),
            Err(error) => Err(error),
        }
    }

    fn minimum_bytes_needed() -> usize {
        2
    }
}

impl<C: Context> Writable<C> for LengthsOfMaps {
    fn write_to<W: Writer<C>>(&self, writer: &mut W) -> Result<(), C::Error> {
        let tree: Prefixed<u8, _> = Prefixed {
            value: Part(&self.tree),
            number: PhantomData,
        };
        let hashed: Prefixed<VarInt64, _> = Prefixed {
            value: Part(&self.hashed),
            number: PhantomData,
        };
        writer.write_value(&(tree, hashed))
    }
}

#[derive(Drop)]
pub struct LengthOfOption {
    pub data: Option<Vec<u8>>,
}

/// What [`LengthOfOption`] is read and written as.
type LengthOfOptionParts = Option<Prefixed<u16, Vec<u8>>>;

impl Layout for LengthOfOption {
    ghost Seen = { ⟦<LengthOfOptionParts as Layout>⟧.Seen };

    ghost seen = { λ it. ⟦<Option<Vec<u8>> as Layout>⟧.seen it.«data» };

    ghost layout = { ⟦<LengthOfOptionParts as Layout>⟧.layout };
}

impl<L: AsSlice<u8> + Drop, C: Context> ReadFrom<L, C> for LengthOfOption {
    type Strategy = ItemByItem<C>;

    fn read_from<R: LendingReader<L, C>>(reader: &mut R) -> Result<LengthOfOption, C::Error> {
        match reader.read_value::<LengthOfOptionParts>() {
            Ok(data) => {
                let data = option_value(data);
                Ok(LengthOfOption { data })
            }
            Err(error) => Err(error),
        }
    }

    fn minimum_bytes_needed() -> usize {
        1
    }
}

impl<C: Context> Writable<C> for LengthOfOption {
    fn write_to<W: Writer<C>>(&self, writer: &mut W) -> Result<(), C::Error> {
        let data: Option<Prefixed<u16, _>> = lent_option(&self.data);
        writer.write_value(&data)
    }
}

#[derive(Drop)]
pub struct LengthBesideSigned {
    pub name: Option<String>,
    pub level: i16,
}

/// What [`LengthBesideSigned`] is read and written as.
type LengthBesideSignedParts = (Option<Prefixed<u8, String>>, i16);

impl Layout for LengthBesideSigned {
    ghost Seen = { ⟦<LengthBesideSignedParts as Layout>⟧.Seen };

    ghost seen = { λ it. (⟦<Option<String> as Layout>⟧.seen it.name, ⟦<i16 as Layout>⟧.seen it.level) };

    ghost layout = { ⟦<LengthBesideSignedParts as Layout>⟧.layout };
}

impl<L: AsSlice<u8> + Drop, C: Context> ReadFrom<L, C> for LengthBesideSigned {
    type Strategy = ItemByItem<C>;

    fn read_from<R: LendingReader<L, C>>(reader: &mut R) -> Result<LengthBesideSigned, C::Error> {
        match reader.read_value::<LengthBesideSignedParts>() {
            Ok((name, level)) => {
                let name = option_value(name);
                Ok(LengthBesideSigned { name, level })
            }
            Err(error) => Err(error),
        }
    }

    fn minimum_bytes_needed() -> usize {
        3
    }
}

impl<C: Context> Writable<C> for LengthBesideSigned {
    fn write_to<W: Writer<C>>(&self, writer: &mut W) -> Result<(), C::Error> {
        let name: Option<Prefixed<u8, _>> = lent_option(&self.name);
        writer.write_value(&(name, Part(&self.level)))
    }
}

#[derive(Drop)]
pub enum LengthsInCases {
    A,
    B(Option<String>, u8),
    C { held: Option<BTreeMap<u8, u16>> },
}

/// The parts of [`LengthsInCases::B`].
type LengthsInCasesBParts = (Option<Prefixed<u16, String>>, u8);

/// The parts of [`LengthsInCases::C`].
type LengthsInCasesCParts = Option<Prefixed<U7, BTreeMap<u8, u16>>>;

/// The cases of [`LengthsInCases`], each with its tag.
type LengthsInCasesCases = Either<
    UnitCase<0>,
    Either<Case<1, LengthsInCasesBParts>, Case<2, LengthsInCasesCParts>>,
>;

impl Cases for LengthsInCases {
    ghost use Rattle.speedy_derived.specs.declared.lengths.LengthsInCases.{LengthsInCases};

    ghost Seen = { ⟦<LengthsInCasesCases as CaseTree>⟧.Seen };

    ghost seen = { λ it. elim it [
      | LengthsInCases.A ↦ inl tt
      | LengthsInCases.B t0 t1 ↦ inr (inl (⟦<Option<String> as Layout>⟧.seen t0, ⟦<u8 as Layout>⟧.seen t1))
      | LengthsInCases.C t0 ↦ inr (inr (⟦<Option<BTreeMap<u8, u16>> as Layout>⟧.seen t0))
    ] };

    ghost choices = { ⟦<LengthsInCasesCases as CaseTree>⟧.choices };
}

impl Layout for LengthsInCases {
    ghost Seen = { ⟦<Prefixed<u32, LengthsInCases> as Layout>⟧.Seen };

    ghost seen = { ⟦<LengthsInCases as Cases>⟧.seen };

    ghost layout = { ⟦<Prefixed<u32, LengthsInCases> as Layout>⟧.layout };
}

impl<L: AsSlice<u8> + Drop, C: Context> ReadCases<L, C> for LengthsInCases {
    fn read_case<R: LendingReader<L, C>>(
        tag: usize,
        reader: &mut R,
    ) -> Result<LengthsInCases, C::Error> {
        match tag {
            0 => Ok(LengthsInCases::A),
            1 => match reader.read_value::<LengthsInCasesBParts>() {
                Ok((t0, t1)) => {
                    let t0 = option_value(t0);
                    Ok(LengthsInCases::B(t0, t1))
                }
                Err(error) => Err(error),
            },
            2 => match reader.read_value::<LengthsInCasesCParts>() {
                Ok(held) => {
                    let held = option_value(held);
                    Ok(LengthsInCases::C { held })
                }
                Err(error) => Err(error),
            },
            _ => Err(error_invalid_enum_variant()),
        }
    }
}

impl<L: AsSlice<u8> + Drop, C: Context> ReadFrom<L, C> for LengthsInCases {
    type Strategy = ItemByItem<C>;

    fn read_from<R: LendingReader<L, C>>(reader: &mut R) -> Result<LengthsInCases, C::Error> {
        read_tagged::<u32, Self, L, C, R>(reader)
    }

    fn minimum_bytes_needed() -> usize {
        4
    }
}

impl<C: Context> WriteCases<C> for LengthsInCases {
    fn tag(&self) -> usize {
        match self {
            LengthsInCases::A => 0,
            LengthsInCases::B(..) => 1,
            LengthsInCases::C { .. } => 2,
        }
    }

    fn write_case<W: Writer<C>>(&self, writer: &mut W) -> Result<(), C::Error> {
        match self {
            LengthsInCases::A => Ok(()),
            LengthsInCases::B(t0, t1) => {
                let t0: Option<Prefixed<u16, _>> = lent_option(t0);
                writer.write_value(&(t0, *t1))
            }
            LengthsInCases::C { held } => {
                let held: Option<Prefixed<U7, _>> = lent_option(held);
                writer.write_value(&held)
            }
        }
    }
}

impl<C: Context> Writable<C> for LengthsInCases {
    fn write_to<W: Writer<C>>(&self, writer: &mut W) -> Result<(), C::Error> {
        write_tagged::<u32, Self, C, W>(self, writer)
    }
}

/// An enum of one variant, beside which others may come.
#[derive(Drop)]
pub enum LengthsInOneCase {
    First {
        counts: HashMap<u8, u16>,
        name: Option<String>,
        level: i16,
        size: u64,
        is_new: bool,
    },
}

/// The parts of [`LengthsInOneCase::First`].
type LengthsInOneCaseFirstParts = (
    HashMap<u8, u16>,
    Option<Prefixed<u8, String>>,
    i16,
    u64,
    bool,
);

/// The cases of [`LengthsInOneCase`], each with its tag.
type LengthsInOneCaseCases = Case<4, LengthsInOneCaseFirstParts>;

impl Cases for LengthsInOneCase {
    ghost use Rattle.speedy_derived.specs.declared.lengths.LengthsInOneCase.{LengthsInOneCase};

    ghost Seen = { ⟦<LengthsInOneCaseCases as CaseTree>⟧.Seen };

    ghost seen = { λ it. elim it [
      | LengthsInOneCase.First t0 t1 t2 t3 t4 ↦ (
        ⟦<HashMap<u8, u16> as Layout>⟧.seen t0,
        (
          ⟦<Option<String> as Layout>⟧.seen t1,
          (⟦<i16 as Layout>⟧.seen t2, (⟦<u64 as Layout>⟧.seen t3, ⟦<bool as Layout>⟧.seen t4)),
        ),
      )
    ] };

    ghost choices = { ⟦<LengthsInOneCaseCases as CaseTree>⟧.choices };
}

impl Layout for LengthsInOneCase {
    ghost Seen = { ⟦<Prefixed<u8, LengthsInOneCase> as Layout>⟧.Seen };

    ghost seen = { ⟦<LengthsInOneCase as Cases>⟧.seen };

    ghost layout = { ⟦<Prefixed<u8, LengthsInOneCase> as Layout>⟧.layout };
}

impl<L: AsSlice<u8> + Drop, C: Context> ReadCases<L, C> for LengthsInOneCase {
    fn read_case<R: LendingReader<L, C>>(
        tag: usize,
        reader: &mut R,
    ) -> Result<LengthsInOneCase, C::Error> {
        match tag {
            4 => match reader.read_value::<LengthsInOneCaseFirstParts>() {
                Ok(parts) => {
                    let (counts, name, level, size, is_new) = parts;
                    let name = option_value(name);
                    Ok(LengthsInOneCase::First {
                        counts,
                        name,
                        level,
                        size,
                        is_new,
                    })
                }
                Err(error) => Err(error),
            },
            _ => Err(error_invalid_enum_variant()),
        }
    }
}

impl<L: AsSlice<u8> + Drop, C: Context> ReadFrom<L, C> for LengthsInOneCase {
    type Strategy = ItemByItem<C>;

    fn read_from<R: LendingReader<L, C>>(reader: &mut R) -> Result<LengthsInOneCase, C::Error> {
        read_tagged::<u8, Self, L, C, R>(reader)
    }

    fn minimum_bytes_needed() -> usize {
        1
    }
}

impl<C: Context> WriteCases<C> for LengthsInOneCase {
    fn tag(&self) -> usize {
        match self {
            LengthsInOneCase::First { .. } => 4,
        }
    }

    fn write_case<W: Writer<C>>(&self, writer: &mut W) -> Result<(), C::Error> {
        match self {
            LengthsInOneCase::First {
                counts,
                name,
                level,
                size,
                is_new,
            } => {
                let name: Option<Prefixed<u8, _>> = lent_option(name);
                writer.write_value(&(Part(counts), name, Part(level), *size, *is_new))
            }
        }
    }
}

impl<C: Context> Writable<C> for LengthsInOneCase {
    fn write_to<W: Writer<C>>(&self, writer: &mut W) -> Result<(), C::Error> {
        write_tagged::<u8, Self, C, W>(self, writer)
    }
}
