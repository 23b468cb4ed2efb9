//! Floats, by themselves and within other parts.
//!
//! Made from `floats.rs` by `tools/derive`: change that, and make this again.
ghost use Rattle.std.specs.Prelude.{◌≡◌};
ghost use Rattle.std.proofs.Common.{inl, inr};

use speedy::cases::{
    CaseTree, Cases, Either, ReadCases, UnitCase, WriteCases, read_tagged, write_tagged,
};
use speedy::prefixed::Prefixed;
use speedy::private::error_invalid_enum_variant;
use speedy::{
    Context, F32, F64, ItemByItem, Layout, LendingReader, Part, ReadFrom, Writable, Writer,
};
use std::borrow::CowSlice;
use std::convert::AsSlice;

#[derive(Drop)]
pub enum Place {
    First,
    Second,
    Third,
}

/// The cases of [`Place`], each with its tag.
type PlaceCases = Either<UnitCase<0>, Either<UnitCase<1>, UnitCase<2>>>;

impl Cases for Place {
    ghost use Rattle.speedy_derived.specs.declared.floats.Place.{Place};

    ghost Seen = { ⟦<PlaceCases as CaseTree>⟧.Seen };

    ghost seen = { λ it. elim it [
      | Place.First ↦ inl tt
      | Place.Second ↦ inr (inl tt)
      | Place.Third ↦ inr (inr tt)
    ] };

    ghost choices = { ⟦<PlaceCases as CaseTree>⟧.choices };
}

impl Layout for Place {
    ghost Seen = { ⟦<Prefixed<u32, Place> as Layout>⟧.Seen };

    ghost seen = { ⟦<Place as Cases>⟧.seen };

    ghost layout = { ⟦<Prefixed<u32, Place> as Layout>⟧.layout };
}

impl<L: AsSlice<u8> + Drop, C: Context> ReadCases<L, C> for Place {
    fn read_case<R: LendingReader<L, C>>(tag: usize, reader: &mut R) -> Result<Place, C::Error> {
        match tag {
            0 => Ok(Place::First),
            1 => Ok(Place::Second),
            2 => Ok(Place::Third),
            _ => Err(error_invalid_enum_variant()),
        }
    }
}

impl<L: AsSlice<u8> + Drop, C: Context> ReadFrom<L, C> for Place {
    type Strategy = ItemByItem<C>;

    fn read_from<R: LendingReader<L, C>>(reader: &mut R) -> Result<Place, C::Error> {
        read_tagged::<u32, Self, L, C, R>(reader)
    }

    fn minimum_bytes_needed() -> usize {
        4
    }
}

impl<C: Context> WriteCases<C> for Place {
    fn tag(&self) -> usize {
        match self {
            Place::First => 0,
            Place::Second => 1,
            Place::Third => 2,
        }
    }

    fn write_case<W: Writer<C>>(&self, writer: &mut W) -> Result<(), C::Error> {
        match self {
            Place::First => Ok(()),
            Place::Second => Ok(()),
            Place::Third => Ok(()),
        }
    }
}

impl<C: Context> Writable<C> for Place {
    fn write_to<W: Writer<C>>(&self, writer: &mut W) -> Result<(), C::Error> {
        write_tagged::<u32, Self, C, W>(self, writer)
    }
}

/// A number, a text, bytes, numbers that may be lent, a float, and an enum.
#[derive(Drop)]
pub struct Measured<'a> {
    pub number: u64,
    pub name: String,
    pub bytes: Vec<u8>,
    pub numbers: CowSlice<'a, i64>,
    pub ratio: F32,
    pub place: Place,
}

/// What [`Measured`] is read and written as.
type MeasuredParts<'a> = (u64, String, Vec<u8>, CowSlice<'a, i64>, F32, Place);

impl<'a> Layout for Measured<'a> {
    ghost Seen = { ⟦<MeasuredParts<'a> as Layout>⟧.Seen };

    ghost seen = { λ it. ⟦<MeasuredParts<'a> as Layout>⟧.seen (
      it.number,
      it.name,
      it.bytes,
      it.numbers,
      it.ratio,
      it.place,
    ) };

    ghost layout = { ⟦<MeasuredParts<'a> as Layout>⟧.layout };
}

impl<'a, C: Context> ReadFrom<&'a [u8], C> for Measured<'a> {
    type Strategy = ItemByItem<C>;

    fn read_from<R: LendingReader<&'a [u8], C>>(reader: &mut R) -> Result<Measured<'a>, C::Error> {
        match reader.read_value() {
            Ok((number, name, bytes, numbers, ratio, place)) => Ok(Measured {
                number,
                name,
                bytes,
                numbers,
                ratio,
                place,
            }),
            Err(error) => Err(error),
        }
    }

    fn minimum_bytes_needed() -> usize
        ensures { result ≡ ⟦<MeasuredParts<'a> as Layout>⟧.layout.least }
    {
        28
    }
}

impl<'a, C: Context> Writable<C> for Measured<'a> {
    fn write_to<W: Writer<C>>(&self, writer: &mut W) -> Result<(), C::Error> {
        writer.write_value(&(
            self.number,
            Part(&self.name),
            Part(&self.bytes),
            Part(&self.numbers),
            self.ratio,
            Part(&self.place),
        ))
    }
}

#[derive(Drop)]
pub struct Floats {
    pub all: Vec<F32>,
    pub some: (Option<F64>, [F64; 2]),
}

/// What [`Floats`] is read and written as.
type FloatsParts = (Vec<F32>, (Option<F64>, [F64; 2]));

impl Layout for Floats {
    ghost Seen = { ⟦<FloatsParts as Layout>⟧.Seen };

    ghost seen = { λ it. ⟦<FloatsParts as Layout>⟧.seen (it.all, it.some) };

    ghost layout = { ⟦<FloatsParts as Layout>⟧.layout };
}

impl<L: AsSlice<u8> + Drop, C: Context> ReadFrom<L, C> for Floats {
    type Strategy = ItemByItem<C>;

    fn read_from<R: LendingReader<L, C>>(reader: &mut R) -> Result<Floats, C::Error> {
        match reader.read_value() {
            Ok((all, some)) => Ok(Floats { all, some }),
            Err(error) => Err(error),
        }
    }

    fn minimum_bytes_needed() -> usize {
        21
    }
}

impl<C: Context> Writable<C> for Floats {
    fn write_to<W: Writer<C>>(&self, writer: &mut W) -> Result<(), C::Error> {
        writer.write_value(&(Part(&self.all), Part(&self.some)))
    }
}
