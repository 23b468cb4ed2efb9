//! Enums whose tags are numbers of their own, in one byte. They are proved with no answer.
//!
//! One has no parts, and may also stand after tags of another width; one has parts; and one gives a tag twice.
ghost use Rattle.std.proofs.Common.{inl, inr};

use speedy::cases::{
    Case, CaseTree, Cases, Either, ReadCases, UnitCase, WriteCases, read_tagged, write_tagged,
};
use speedy::prefixed::{Prefixed, ReadPrefix, ReadTold, WritePrefix, WriteTold};
use speedy::private::{error_invalid_enum_variant, error_out_of_range_length};
use speedy::{Context, ItemByItem, Layout, LendingReader, Part, ReadFrom, Writable, Writer};
use std::convert::AsSlice;

/// A colour: the number 1, 5 or 9.
#[derive(Debug, PartialEq, Drop)]
pub enum Colour {
    Red,
    Green,
    Blue,
}

type Colours = Either<UnitCase<1>, Either<UnitCase<5>, UnitCase<9>>>;

impl Cases for Colour {
    ghost use Rattle.speedy_examples.specs.declared.own_numbers.Colour.{Colour};

    ghost Seen = { ⟦<Colours as CaseTree>⟧.Seen };

    ghost seen = { λ e. elim e [ Colour.Red ↦ inl tt | Colour.Green ↦ inr (inl tt) | Colour.Blue ↦ inr (inr tt) ] };

    ghost choices = { ⟦<Colours as CaseTree>⟧.choices };
}

impl Layout for Colour {
    ghost Seen = { ⟦<Colour as Cases>⟧.Seen };

    ghost seen = { ⟦<Colour as Cases>⟧.seen };

    ghost layout = { ⟦<Prefixed<u8, Colour> as Layout>⟧.layout };
}

impl<L: AsSlice<u8> + Drop, C: Context> ReadCases<L, C> for Colour {
    fn read_case<R: LendingReader<L, C>>(tag: usize, _: &mut R) -> Result<Colour, C::Error> {
        match tag {
            1 => Ok(Colour::Red),
            5 => Ok(Colour::Green),
            9 => Ok(Colour::Blue),
            _ => Err(error_invalid_enum_variant()),
        }
    }
}

impl<L: AsSlice<u8> + Drop, C: Context> ReadFrom<L, C> for Colour {
    type Strategy = ItemByItem<C>;

    fn read_from<R: LendingReader<L, C>>(reader: &mut R) -> Result<Colour, C::Error> {
        read_tagged::<u8, Colour, L, C, R>(reader)
    }

    fn minimum_bytes_needed() -> usize {
        1
    }
}

impl<L: AsSlice<u8> + Drop, C: Context> ReadTold<L, C> for Colour {
    fn read_behind<N: ReadPrefix, R: LendingReader<L, C>>(
        reader: &mut R,
    ) -> Result<Colour, C::Error> {
        read_tagged::<N, Colour, L, C, R>(reader)
    }
}

impl<C: Context> WriteTold<C> for Colour {
    fn write_behind<N: WritePrefix, W: Writer<C>>(&self, writer: &mut W) -> Result<(), C::Error> {
        write_tagged::<N, Colour, C, W>(self, writer)
    }
}

impl<C: Context> WriteCases<C> for Colour {
    fn tag(&self) -> usize {
        match self {
            Colour::Red => 1,
            Colour::Green => 5,
            Colour::Blue => 9,
        }
    }

    fn write_case<W: Writer<C>>(&self, _: &mut W) -> Result<(), C::Error> {
        match self {
            Colour::Red => Ok(()),
            Colour::Green => Ok(()),
            Colour::Blue => Ok(()),
        }
    }
}

impl<C: Context> Writable<C> for Colour {
    fn write_to<W: Writer<C>>(&self, writer: &mut W) -> Result<(), C::Error> {
        write_tagged::<u8, Colour, C, W>(self, writer)
    }
}

/// A packet: the number 1, 5 or 9, and then the parts.
#[derive(Debug, PartialEq, Drop)]
pub enum Packet {
    Ping,
    Data(Vec<u8>),
    Named(String, u32),
}

type Packets = Either<UnitCase<1>, Either<Case<5, Vec<u8>>, Case<9, (String, u32)>>>;

impl Cases for Packet {
    ghost use Rattle.speedy_examples.specs.declared.own_numbers.Packet.{Packet};

    ghost Seen = { ⟦<Packets as CaseTree>⟧.Seen };

    ghost seen = { λ p. elim p [
      | Packet.Ping ↦ inl tt
      | Packet.Data bytes ↦ inr (inl (⟦<Vec<u8> as Layout>⟧.seen bytes))
      | Packet.Named name count ↦ inr (inr (⟦<(String, u32) as Layout>⟧.seen (name, count)))
    ] };

    ghost choices = { ⟦<Packets as CaseTree>⟧.choices };
}

impl Layout for Packet {
    ghost Seen = { ⟦<Packet as Cases>⟧.Seen };

    ghost seen = { ⟦<Packet as Cases>⟧.seen };

    ghost layout = { ⟦<Prefixed<u8, Packet> as Layout>⟧.layout };
}

impl<L: AsSlice<u8> + Drop, C: Context> ReadCases<L, C> for Packet {
    fn read_case<R: LendingReader<L, C>>(tag: usize, reader: &mut R) -> Result<Packet, C::Error> {
        match tag {
            1 => Ok(Packet::Ping),
            5 => Ok(Packet::Data(reader.read_value()?)),
            9 => {
                let (name, count) = reader.read_value()?;
                Ok(Packet::Named(name, count))
            }
            _ => Err(error_invalid_enum_variant()),
        }
    }
}

impl<L: AsSlice<u8> + Drop, C: Context> ReadFrom<L, C> for Packet {
    type Strategy = ItemByItem<C>;

    fn read_from<R: LendingReader<L, C>>(reader: &mut R) -> Result<Packet, C::Error> {
        read_tagged::<u8, Packet, L, C, R>(reader)
    }

    fn minimum_bytes_needed() -> usize {
        1
    }
}

impl<C: Context> WriteCases<C> for Packet {
    fn tag(&self) -> usize {
        match self {
            Packet::Ping => 1,
            Packet::Data(_) => 5,
            Packet::Named(_, _) => 9,
        }
    }

    fn write_case<W: Writer<C>>(&self, writer: &mut W) -> Result<(), C::Error> {
        match self {
            Packet::Ping => Ok(()),
            Packet::Data(bytes) => writer.write_value(bytes),
            Packet::Named(name, count) => writer.write_value(&(Part(name), *count)),
        }
    }
}

impl<C: Context> Writable<C> for Packet {
    fn write_to<W: Writer<C>>(&self, writer: &mut W) -> Result<(), C::Error> {
        write_tagged::<u8, Packet, C, W>(self, writer)
    }
}

/// Two variants with one tag, of which the first counts: the second is never read, and has no encoding.
#[derive(Debug, PartialEq, Drop)]
pub enum Twice {
    First,
    Second(u8),
}

type Twins = Either<UnitCase<1>, Case<1, u8>>;

impl Cases for Twice {
    ghost use Rattle.speedy_examples.specs.declared.own_numbers.Twice.{Twice};

    ghost Seen = { ⟦<Twins as CaseTree>⟧.Seen };

    ghost seen = { λ it. elim it [ Twice.First ↦ inl tt | Twice.Second number ↦ inr number ] };

    ghost choices = { ⟦<Twins as CaseTree>⟧.choices };
}

impl Layout for Twice {
    ghost Seen = { ⟦<Twice as Cases>⟧.Seen };

    ghost seen = { ⟦<Twice as Cases>⟧.seen };

    ghost layout = { ⟦<Prefixed<u8, Twice> as Layout>⟧.layout };
}

impl<L: AsSlice<u8> + Drop, C: Context> ReadCases<L, C> for Twice {
    fn read_case<R: LendingReader<L, C>>(tag: usize, _: &mut R) -> Result<Twice, C::Error> {
        match tag {
            1 => Ok(Twice::First),
            _ => Err(error_invalid_enum_variant()),
        }
    }
}

impl<L: AsSlice<u8> + Drop, C: Context> ReadFrom<L, C> for Twice {
    type Strategy = ItemByItem<C>;

    fn read_from<R: LendingReader<L, C>>(reader: &mut R) -> Result<Twice, C::Error> {
        read_tagged::<u8, Twice, L, C, R>(reader)
    }

    fn minimum_bytes_needed() -> usize {
        1
    }
}

impl<C: Context> WriteCases<C> for Twice {
    fn tag(&self) -> usize {
        match self {
            Twice::First => 1,
            Twice::Second(_) => 1,
        }
    }

    fn write_case<W: Writer<C>>(&self, _: &mut W) -> Result<(), C::Error> {
        match self {
            Twice::First => Ok(()),
            Twice::Second(_) => Err(error_out_of_range_length()),
        }
    }
}

impl<C: Context> Writable<C> for Twice {
    fn write_to<W: Writer<C>>(&self, writer: &mut W) -> Result<(), C::Error> {
        write_tagged::<u8, Twice, C, W>(self, writer)
    }
}
