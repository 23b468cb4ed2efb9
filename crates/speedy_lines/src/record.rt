//! A record of your own: numbers, a text, a list that may point into what the record is read from, and an enum.
//!
//! It is proved with no answer.
ghost use Rattle.std.specs.Prelude.{◌≡◌};

use crate::enums::Enum;
use speedy::{Context, ItemByItem, Layout, LendingReader, Part, ReadFrom, Writable, Writer};
use std::borrow::CowSlice;

/// The parts of a record, one after another.
#[derive(Debug, PartialEq, Drop)]
pub struct Record<'a> {
    pub number: u64,
    pub string: String,
    pub vector: Vec<u8>,
    pub cow: CowSlice<'a, i64>,
    pub enumeration: Enum,
}

/// What a record is read as.
type Parts<'a> = (u64, String, Vec<u8>, CowSlice<'a, i64>, Enum);

impl<'a> Layout for Record<'a> {
    ghost Seen = { ⟦<Parts<'a> as Layout>⟧.Seen };

    ghost seen = { λ it. ⟦<Parts<'a> as Layout>⟧.seen (it.number, it.string, it.vector, it.cow, it.enumeration) };

    ghost layout = { ⟦<Parts<'a> as Layout>⟧.layout };
}

impl<'a, C: Context> ReadFrom<&'a [u8], C> for Record<'a> {
    type Strategy = ItemByItem<C>;

    fn read_from<R: LendingReader<&'a [u8], C>>(reader: &mut R) -> Result<Record<'a>, C::Error> {
        let (number, string, vector, cow, enumeration) = reader.read_value()?;
        Ok(Record {
            number,
            string,
            vector,
            cow,
            enumeration,
        })
    }

    fn minimum_bytes_needed() -> usize
        ensures { result ≡ 24 }
    {
        24
    }
}

impl<'a, C: Context> Writable<C> for Record<'a> {
    fn write_to<W: Writer<C>>(&self, writer: &mut W) -> Result<(), C::Error> {
        writer.write_value(&(
            Part(&self.number),
            Part(&self.string),
            Part(&self.vector),
            Part(&self.cow),
            Part(&self.enumeration),
        ))
    }
}
