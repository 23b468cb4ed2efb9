//! Lists that end with a mark.
//!
//! Made from `until.rs` by `tools/derive`: change that, and make this again.
ghost use Rattle.std.specs.Prelude.{◌≡◌};

use speedy::prefixed::Prefixed;
use speedy::{
    Context, ItemByItem, Layout, LendingReader, ListUntil, Part, ReadFrom, Writable, Writer,
};
use std::convert::AsSlice;
use std::marker::PhantomData;

/// The number that ends a list.
const END: usize = 255;

/// Options by their numbers, as DHCP has them, and a list of them in another list.
#[derive(Clone, Debug, PartialEq, Drop)]
pub struct Options {
    pub options: ListUntil<u8, Setting, END>,
    pub groups: ListUntil<u16, ListUntil<u8, bool, 0>, 1>,
}

/// What [`Options`] is read and written as.
type OptionsParts = (
    ListUntil<u8, Setting, END>,
    ListUntil<u16, ListUntil<u8, bool, 0>, 1>,
);

impl Layout for Options {
    ghost Seen = { ⟦<OptionsParts as Layout>⟧.Seen };

    ghost seen = { λ it. ⟦<OptionsParts as Layout>⟧.seen (it.options, it.groups) };

    ghost layout = { ⟦<OptionsParts as Layout>⟧.layout };
}

impl<L: AsSlice<u8> + Drop, C: Context> ReadFrom<L, C> for Options {
    type Strategy = ItemByItem<C>;

    fn read_from<R: LendingReader<L, C>>(reader: &mut R) -> Result<Options, C::Error> {
        match reader.read_value() {
            Ok((options, groups)) => Ok(Options { options, groups }),
            Err(error) => Err(error),
        }
    }

    fn minimum_bytes_needed() -> usize {
        3
    }
}

impl<C: Context> Writable<C> for Options {
    fn write_to<W: Writer<C>>(&self, writer: &mut W) -> Result<(), C::Error> {
        writer.write_value(&(Part(&self.options), Part(&self.groups)))
    }
}

/// What an option says.
#[derive(Clone, Debug, PartialEq, Drop)]
pub struct Setting {
    pub bytes: Vec<u8>,
}

impl Layout for Setting {
    ghost Seen = { ⟦<Prefixed<u8, Vec<u8>> as Layout>⟧.Seen };

    ghost seen = { λ it. ⟦<Vec<u8> as Layout>⟧.seen it.bytes };

    ghost layout = { ⟦<Prefixed<u8, Vec<u8>> as Layout>⟧.layout };
}

impl<L: AsSlice<u8> + Drop, C: Context> ReadFrom<L, C> for Setting {
    type Strategy = ItemByItem<C>;

    fn read_from<R: LendingReader<L, C>>(reader: &mut R) -> Result<Setting, C::Error> {
        match reader.read_value::<Prefixed<u8, Vec<u8>>>() {
            Ok(bytes) => Ok(Setting { bytes: bytes.value }),
            Err(error) => Err(error),
        }
    }

    fn minimum_bytes_needed() -> usize {
        1
    }
}

impl<C: Context> Writable<C> for Setting {
    fn write_to<W: Writer<C>>(&self, writer: &mut W) -> Result<(), C::Error> {
        let bytes: Prefixed<u8, _> = Prefixed {
            value: Part(&self.bytes),
            number: PhantomData,
        };
        writer.write_value(&bytes)
    }
}

/// Parameters that point into the bytes that they are read from.
#[derive(Drop)]
pub struct Parameters<'a> {
    pub all: ListUntil<u16, Parameter<'a>, 1>,
    pub size: u16,
}

/// What [`Parameters`] is read and written as.
type ParametersParts<'a> = (ListUntil<u16, Parameter<'a>, 1>, u16);

impl<'a> Layout for Parameters<'a> {
    ghost Seen = { ⟦<ParametersParts<'a> as Layout>⟧.Seen };

    ghost seen = { λ it. ⟦<ParametersParts<'a> as Layout>⟧.seen (it.all, it.size) };

    ghost layout = { ⟦<ParametersParts<'a> as Layout>⟧.layout };
}

impl<'a, C: Context> ReadFrom<&'a [u8], C> for Parameters<'a> {
    type Strategy = ItemByItem<C>;

    fn read_from<R: LendingReader<&'a [u8], C>>(
        reader: &mut R,
    ) -> Result<Parameters<'a>, C::Error> {
        match reader.read_value() {
            Ok((all, size)) => Ok(Parameters { all, size }),
            Err(error) => Err(error),
        }
    }

    fn minimum_bytes_needed() -> usize
        ensures { result ≡ ⟦<ParametersParts<'a> as Layout>⟧.layout.least }
    {
        4
    }
}

impl<'a, C: Context> Writable<C> for Parameters<'a> {
    fn write_to<W: Writer<C>>(&self, writer: &mut W) -> Result<(), C::Error> {
        writer.write_value(&(Part(&self.all), self.size))
    }
}

/// A parameter.
#[derive(Drop)]
pub struct Parameter<'a> {
    pub value: &'a [u8],
}

impl<'a> Layout for Parameter<'a> {
    ghost Seen = { ⟦<Prefixed<u16, &'a [u8]> as Layout>⟧.Seen };

    ghost seen = { λ it. ⟦<&'a [u8] as Layout>⟧.seen it.value };

    ghost layout = { ⟦<Prefixed<u16, &'a [u8]> as Layout>⟧.layout };
}

impl<'a, C: Context> ReadFrom<&'a [u8], C> for Parameter<'a> {
    type Strategy = ItemByItem<C>;

    fn read_from<R: LendingReader<&'a [u8], C>>(reader: &mut R) -> Result<Parameter<'a>, C::Error> {
        match reader.read_value::<Prefixed<u16, &'a [u8]>>() {
            Ok(value) => Ok(Parameter { value: value.value }),
            Err(error) => Err(error),
        }
    }

    fn minimum_bytes_needed() -> usize
        ensures { result ≡ ⟦<Prefixed<u16, &'a [u8]> as Layout>⟧.layout.least }
    {
        2
    }
}

impl<'a, C: Context> Writable<C> for Parameter<'a> {
    fn write_to<W: Writer<C>>(&self, writer: &mut W) -> Result<(), C::Error> {
        let value: Prefixed<u16, _> = Prefixed {
            value: Part(&self.value),
            number: PhantomData,
        };
        writer.write_value(&value)
    }
}
