//! Enums of your own, with and without parts: their cases, each behind its tag. Both are proved with no answer.
ghost use Rattle.std.proofs.Common.{inl, inr};

use speedy::cases::{
    Case, CaseTree, Cases, Either, ReadCases, UnitCase, WriteCases, read_tagged, write_tagged,
};
use speedy::prefixed::Prefixed;
use speedy::private::error_invalid_enum_variant;
use speedy::{Context, ItemByItem, Layout, LendingReader, ReadFrom, Writable, Writer};
use std::convert::AsSlice;

/// Variants without parts: the tags 0, 1 and 2.
#[derive(Debug, PartialEq, Drop)]
pub enum Enum {
    A,
    B,
    C,
}

type EnumCases = Either<UnitCase<0>, Either<UnitCase<1>, UnitCase<2>>>;

impl Cases for Enum {
    ghost use Rattle.speedy_lines.specs.declared.enums.Enum.{Enum};

    ghost Seen = { ⟦<EnumCases as CaseTree>⟧.Seen };

    ghost seen = { λ e. elim e [ Enum.A ↦ inl tt | Enum.B ↦ inr (inl tt) | Enum.C ↦ inr (inr tt) ] };

    ghost choices = { ⟦<EnumCases as CaseTree>⟧.choices };
}

impl Layout for Enum {
    ghost Seen = { ⟦<Enum as Cases>⟧.Seen };

    ghost seen = { ⟦<Enum as Cases>⟧.seen };

    ghost layout = { ⟦<Prefixed<u32, Enum> as Layout>⟧.layout };
}

impl<L: AsSlice<u8> + Drop, C: Context> ReadCases<L, C> for Enum {
    fn read_case<R: LendingReader<L, C>>(tag: usize, _: &mut R) -> Result<Enum, C::Error> {
        match tag {
            0 => Ok(Enum::A),
            1 => Ok(Enum::B),
            2 => Ok(Enum::C),
            _ => Err(error_invalid_enum_variant()),
        }
    }
}

impl<L: AsSlice<u8> + Drop, C: Context> ReadFrom<L, C> for Enum {
    type Strategy = ItemByItem<C>;

    fn read_from<R: LendingReader<L, C>>(reader: &mut R) -> Result<Enum, C::Error> {
        read_tagged::<u32, Enum, L, C, R>(reader)
    }

    fn minimum_bytes_needed() -> usize {
        4
    }
}

impl<C: Context> WriteCases<C> for Enum {
    fn tag(&self) -> usize {
        match self {
            Enum::A => 0,
            Enum::B => 1,
            Enum::C => 2,
        }
    }

    fn write_case<W: Writer<C>>(&self, _: &mut W) -> Result<(), C::Error> {
        match self {
            Enum::A => Ok(()),
            Enum::B => Ok(()),
            Enum::C => Ok(()),
        }
    }
}

impl<C: Context> Writable<C> for Enum {
    fn write_to<W: Writer<C>>(&self, writer: &mut W) -> Result<(), C::Error> {
        write_tagged::<u32, Enum, C, W>(self, writer)
    }
}

/// Variants with and without parts: the tag 0, 1 or 2, and then the parts in order.
#[derive(Debug, PartialEq, Drop)]
pub enum DerivedEnum {
    A,
    B(u8, u16, u32),
    C { a: u8, b: u16, c: u32 },
}

type Numbers = (u8, u16, u32);

type DerivedCases = Either<UnitCase<0>, Either<Case<1, Numbers>, Case<2, Numbers>>>;

impl Cases for DerivedEnum {
    ghost use Rattle.speedy_lines.specs.declared.enums.DerivedEnum.{DerivedEnum};

    ghost Seen = { ⟦<DerivedCases as CaseTree>⟧.Seen };

    ghost seen = { λ e. elim e [
      | DerivedEnum.A ↦ inl tt
      | DerivedEnum.B a b c ↦ inr (inl (a, (b, c)))
      | DerivedEnum.C a b c ↦ inr (inr (a, (b, c)))
    ] };

    ghost choices = { ⟦<DerivedCases as CaseTree>⟧.choices };
}

impl Layout for DerivedEnum {
    ghost Seen = { ⟦<DerivedEnum as Cases>⟧.Seen };

    ghost seen = { ⟦<DerivedEnum as Cases>⟧.seen };

    ghost layout = { ⟦<Prefixed<u32, DerivedEnum> as Layout>⟧.layout };
}

impl<L: AsSlice<u8> + Drop, C: Context> ReadCases<L, C> for DerivedEnum {
    fn read_case<R: LendingReader<L, C>>(
        tag: usize,
        reader: &mut R,
    ) -> Result<DerivedEnum, C::Error> {
        match tag {
            0 => Ok(DerivedEnum::A),
            1 => {
                let (a, b, c) = reader.read_value()?;
                Ok(DerivedEnum::B(a, b, c))
            }
            2 => {
                let (a, b, c) = reader.read_value()?;
                Ok(DerivedEnum::C { a, b, c })
            }
            _ => Err(error_invalid_enum_variant()),
        }
    }
}

impl<L: AsSlice<u8> + Drop, C: Context> ReadFrom<L, C> for DerivedEnum {
    type Strategy = ItemByItem<C>;

    fn read_from<R: LendingReader<L, C>>(reader: &mut R) -> Result<DerivedEnum, C::Error> {
        read_tagged::<u32, DerivedEnum, L, C, R>(reader)
    }

    fn minimum_bytes_needed() -> usize {
        4
    }
}

impl<C: Context> WriteCases<C> for DerivedEnum {
    fn tag(&self) -> usize {
        match self {
            DerivedEnum::A => 0,
            DerivedEnum::B(..) => 1,
            DerivedEnum::C { .. } => 2,
        }
    }

    fn write_case<W: Writer<C>>(&self, writer: &mut W) -> Result<(), C::Error> {
        match self {
            DerivedEnum::A => Ok(()),
            DerivedEnum::B(a, b, c) => writer.write_value(&(*a, *b, *c)),
            DerivedEnum::C { a, b, c } => writer.write_value(&(*a, *b, *c)),
        }
    }
}

impl<C: Context> Writable<C> for DerivedEnum {
    fn write_to<W: Writer<C>>(&self, writer: &mut W) -> Result<(), C::Error> {
        write_tagged::<u32, DerivedEnum, C, W>(self, writer)
    }
}
