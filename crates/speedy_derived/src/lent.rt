//! Structs that borrow from what they are read from.
//!
//! Made from `lent.rs` by `tools/derive`: change that, and make this again.
ghost use Rattle.std.specs.Prelude.{◌≡◌};

use speedy::{Context, ItemByItem, Layout, LendingReader, Part, ReadFrom, Writable, Writer};
use std::borrow::{Cow, CowSlice};
use std::collections::BTreeMap;

/// Two cows of different types.
#[derive(Drop)]
pub struct TwoCows<'a> {
    pub a: Cow<'a, BTreeMap<u8, u8>>,
    pub b: CowSlice<'a, u8>,
}

/// What [`TwoCows`] is read and written as.
type TwoCowsParts<'a> = (Cow<'a, BTreeMap<u8, u8>>, CowSlice<'a, u8>);

impl<'a> Layout for TwoCows<'a> {
    ghost Seen = { ⟦<TwoCowsParts<'a> as Layout>⟧.Seen };

    ghost seen = { λ it. ⟦<TwoCowsParts<'a> as Layout>⟧.seen (it.a, it.b) };

    ghost layout = { ⟦<TwoCowsParts<'a> as Layout>⟧.layout };
}

impl<'a, C: Context> ReadFrom<&'a [u8], C> for TwoCows<'a> {
    type Strategy = ItemByItem<C>;

    fn read_from<R: LendingReader<&'a [u8], C>>(reader: &mut R) -> Result<TwoCows<'a>, C::Error> {
        match reader.read_value() {
            Ok((a, b)) => Ok(TwoCows { a, b }),
            Err(error) => Err(error),
        }
    }

    fn minimum_bytes_needed() -> usize
        ensures { result ≡ ⟦<TwoCowsParts<'a> as Layout>⟧.layout.least }
    {
        8
    }
}

impl<'a, C: Context> Writable<C> for TwoCows<'a> {
    fn write_to<W: Writer<C>>(&self, writer: &mut W) -> Result<(), C::Error> {
        writer.write_value(&(Part(&self.a), Part(&self.b)))
    }
}

#[derive(Drop)]
pub struct LentText<'a>(pub &'a str);

impl<'a> Layout for LentText<'a> {
    ghost Seen = { ⟦<&'a str as Layout>⟧.Seen };

    ghost seen = { λ it. ⟦<&'a str as Layout>⟧.seen it.0 };

    ghost layout = { ⟦<&'a str as Layout>⟧.layout };
}

impl<'a, C: Context> ReadFrom<&'a [u8], C> for LentText<'a> {
    type Strategy = ItemByItem<C>;

    fn read_from<R: LendingReader<&'a [u8], C>>(reader: &mut R) -> Result<LentText<'a>, C::Error> {
        match reader.read_value() {
            Ok(t0) => Ok(LentText(t0)),
            Err(error) => Err(error),
        }
    }

    fn minimum_bytes_needed() -> usize
        ensures { result ≡ ⟦<&'a str as Layout>⟧.layout.least }
    {
        4
    }
}

impl<'a, C: Context> Writable<C> for LentText<'a> {
    fn write_to<W: Writer<C>>(&self, writer: &mut W) -> Result<(), C::Error> {
        writer.write_value(&self.0)
    }
}
