//! A number as a part that is written in as few bytes as it needs.
ghost use Rattle.std.specs.Prelude.{ℕ};
ghost use Rattle.speedy_layout.specs.Codecs.{varint_codec};

use crate::context::Context;
use crate::layout::Layout;
use crate::lengths::{Holds, ReadHolds, WriteHolds};
use crate::many::ItemByItem;
use crate::readable::ReadFrom;
use crate::reader::LendingReader;
use crate::writable::Writable;
use crate::writer::Writer;
use std::convert::AsSlice;

/// A `u64` that has the layout of a `VarInt64`: one to nine bytes. What derives `varint` has it as a part.
#[derive(Debug, PartialEq, Drop)]
pub struct Varint(pub u64);

impl Layout for Varint {
    ghost Seen = { ℕ };

    ghost seen = { λ it. it.0 };

    ghost layout = { varint_codec };
}

impl<L: AsSlice<u8> + Drop, C: Context> ReadFrom<L, C> for Varint {
    type Strategy = ItemByItem<C>;

    #[inline]
    fn read_from<R: LendingReader<L, C>>(reader: &mut R) -> Result<Varint, C::Error> {
        let number = reader.read_u64_varint()?;
        Ok(Varint(number))
    }

    #[inline]
    fn minimum_bytes_needed() -> usize {
        1
    }
}

impl<C: Context> Writable<C> for Varint {
    #[inline]
    fn write_to<W: Writer<C>>(&self, writer: &mut W) -> Result<(), C::Error> {
        writer.write_u64_varint(self.0)
    }
}

impl Holds for Varint {
    type Numbers = u64;

    ghost Seen = { ℕ };

    ghost seen = { λ it. it.0 };

    ghost layout = { varint_codec };

    ghost numbers = { λ n. n };

    #[inline]
    fn numbers(&self) -> u64 {
        self.0
    }
}

impl<L: AsSlice<u8> + Drop, C: Context> ReadHolds<L, C> for Varint {
    #[inline]
    fn read_parts<R: LendingReader<L, C>>(reader: &mut R) -> Result<Varint, C::Error> {
        reader.read_value()
    }

    #[inline]
    fn least_size() -> usize {
        1
    }
}

impl<C: Context> WriteHolds<C> for Varint {
    #[inline]
    fn write_parts<W: Writer<C>>(&self, writer: &mut W) -> Result<(), C::Error> {
        writer.write_value(self)
    }
}
