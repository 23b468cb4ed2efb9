//! An enum with tags of its own; `rows` has tags of each width.
//!
//! Made from `tags.rs` by `tools/derive`: change that, and make this again.
ghost use Rattle.std.proofs.Common.{inl, inr};

use speedy::cases::{
    CaseTree, Cases, Either, ReadCases, UnitCase, WriteCases, read_tagged, write_tagged,
};
use speedy::prefixed::Prefixed;
use speedy::private::error_invalid_enum_variant;
use speedy::{Context, ItemByItem, Layout, LendingReader, ReadFrom, Writable, Writer};
use std::convert::AsSlice;

/// Tags that are set apart from the numbers of `as`.
#[derive(Drop)]
pub enum OwnTag {
    A = 10,
    B,
}

/// The cases of [`OwnTag`], each with its tag.
type OwnTagCases = Either<UnitCase<20>, UnitCase<21>>;

impl Cases for OwnTag {
    ghost use Rattle.speedy_derived.specs.declared.tags.OwnTag.{OwnTag};

    ghost Seen = { ⟦<OwnTagCases as CaseTree>⟧.Seen };

    ghost seen = { λ it. elim it [
      | OwnTag.A ↦ inl tt
      | OwnTag.B ↦ inr tt
    ] };

    ghost choices = { ⟦<OwnTagCases as CaseTree>⟧.choices };
}

impl Layout for OwnTag {
    ghost Seen = { ⟦<Prefixed<u8, OwnTag> as Layout>⟧.Seen };

    ghost seen = { ⟦<OwnTag as Cases>⟧.seen };

    ghost layout = { ⟦<Prefixed<u8, OwnTag> as Layout>⟧.layout };
}

impl<L: AsSlice<u8> + Drop, C: Context> ReadCases<L, C> for OwnTag {
    fn read_case<R: LendingReader<L, C>>(tag: usize, reader: &mut R) -> Result<OwnTag, C::Error> {
        match tag {
            20 => Ok(OwnTag::A),
            21 => Ok(OwnTag::B),
            _ => Err(error_invalid_enum_variant()),
        }
    }
}

impl<L: AsSlice<u8> + Drop, C: Context> ReadFrom<L, C> for OwnTag {
    type Strategy = ItemByItem<C>;

    fn read_from<R: LendingReader<L, C>>(reader: &mut R) -> Result<OwnTag, C::Error> {
        read_tagged::<u8, Self, L, C, R>(reader)
    }

    fn minimum_bytes_needed() -> usize {
        1
    }
}

impl<C: Context> WriteCases<C> for OwnTag {
    fn tag(&self) -> usize {
        match self {
            OwnTag::A => 20,
            OwnTag::B => 21,
        }
    }

    fn write_case<W: Writer<C>>(&self, writer: &mut W) -> Result<(), C::Error> {
        match self {
            OwnTag::A => Ok(()),
            OwnTag::B => Ok(()),
        }
    }
}

impl<C: Context> Writable<C> for OwnTag {
    fn write_to<W: Writer<C>>(&self, writer: &mut W) -> Result<(), C::Error> {
        write_tagged::<u8, Self, C, W>(self, writer)
    }
}
