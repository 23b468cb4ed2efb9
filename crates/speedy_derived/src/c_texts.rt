//! Texts and bytes that end with a NUL, owned and lent.
//!
//! Made from `c_texts.rs` by `tools/derive`: change that, and make this again.
ghost use Rattle.std.specs.Prelude.{◌≡◌};

use speedy::{CText, Context, ItemByItem, Layout, LendingReader, Part, ReadFrom, Writable, Writer};
use std::borrow::CowStr;
use std::boxed::BoxedStr;
use std::convert::AsSlice;

/// What an old header says of a file.
#[derive(Clone, PartialEq, Drop)]
pub struct Label {
    pub name: CText<String>,
    pub size: u16,
    pub raw: CText<Vec<u8>>,
    pub notes: Vec<CText<BoxedStr>>,
}

/// What [`Label`] is read and written as.
type LabelParts = (CText<String>, u16, CText<Vec<u8>>, Vec<CText<BoxedStr>>);

impl Layout for Label {
    ghost Seen = { ⟦<LabelParts as Layout>⟧.Seen };

    ghost seen = { λ it. ⟦<LabelParts as Layout>⟧.seen (it.name, it.size, it.raw, it.notes) };

    ghost layout = { ⟦<LabelParts as Layout>⟧.layout };
}

impl<L: AsSlice<u8> + Drop, C: Context> ReadFrom<L, C> for Label {
    type Strategy = ItemByItem<C>;

    fn read_from<R: LendingReader<L, C>>(reader: &mut R) -> Result<Label, C::Error> {
        match reader.read_value() {
            Ok((name, size, raw, notes)) => Ok(Label {
                name,
                size,
                raw,
                notes,
            }),
            Err(error) => Err(error),
        }
    }

    fn minimum_bytes_needed() -> usize {
        8
    }
}

impl<C: Context> Writable<C> for Label {
    fn write_to<W: Writer<C>>(&self, writer: &mut W) -> Result<(), C::Error> {
        writer.write_value(&(
            Part(&self.name),
            self.size,
            Part(&self.raw),
            Part(&self.notes),
        ))
    }
}

/// A symbol, which points into the bytes that it is read from.
#[derive(Drop)]
pub struct Symbol<'a> {
    pub name: CText<&'a str>,
    pub alias: Option<CText<CowStr<'a>>>,
    pub bytes: CText<&'a [u8]>,
}

/// What [`Symbol`] is read and written as.
type SymbolParts<'a> = (CText<&'a str>, Option<CText<CowStr<'a>>>, CText<&'a [u8]>);

impl<'a> Layout for Symbol<'a> {
    ghost Seen = { ⟦<SymbolParts<'a> as Layout>⟧.Seen };

    ghost seen = { λ it. ⟦<SymbolParts<'a> as Layout>⟧.seen (it.name, it.alias, it.bytes) };

    ghost layout = { ⟦<SymbolParts<'a> as Layout>⟧.layout };
}

impl<'a, C: Context> ReadFrom<&'a [u8], C> for Symbol<'a> {
    type Strategy = ItemByItem<C>;

    fn read_from<R: LendingReader<&'a [u8], C>>(reader: &mut R) -> Result<Symbol<'a>, C::Error> {
        match reader.read_value() {
            Ok((name, alias, bytes)) => Ok(Symbol { name, alias, bytes }),
            Err(error) => Err(error),
        }
    }

    fn minimum_bytes_needed() -> usize
        ensures { result ≡ ⟦<SymbolParts<'a> as Layout>⟧.layout.least }
    {
        3
    }
}

impl<'a, C: Context> Writable<C> for Symbol<'a> {
    fn write_to<W: Writer<C>>(&self, writer: &mut W) -> Result<(), C::Error> {
        writer.write_value(&(Part(&self.name), Part(&self.alias), Part(&self.bytes)))
    }
}
