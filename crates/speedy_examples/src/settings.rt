//! Types whose bytes bincode 1 wrote, by its default settings.
//!
//! Made from `settings.rs` by `tools/derive`: change that, and make this again.
ghost use Rattle.std.proofs.Common.{inl, inr};

use speedy::cases::{
    Case, CaseTree, Cases, Either, ReadCases, UnitCase, WriteCases, read_tagged, write_tagged,
};
use speedy::prefixed::Prefixed;
use speedy::private::error_invalid_enum_variant;
use speedy::{Context, ItemByItem, Layout, LendingReader, Part, ReadFrom, Writable, Writer};
use std::convert::AsSlice;
use std::marker::PhantomData;

/// What serde derived before.
#[derive(Debug, PartialEq, Drop)]
pub struct Settings {
    pub name: String,
    pub volume: Option<u8>,
    pub scores: Vec<u32>,
    pub tags: Vec<Tag>,
    pub theme: Theme,
}

/// What [`Settings`] is read and written as.
type SettingsParts = (
    Prefixed<u64, String>,
    Option<u8>,
    Prefixed<u64, Vec<u32>>,
    Prefixed<u64, Vec<Tag>>,
    Theme,
);

impl Layout for Settings {
    ghost Seen = { ⟦<SettingsParts as Layout>⟧.Seen };

    ghost seen = { λ it. (
      ⟦<String as Layout>⟧.seen it.name,
      (
        ⟦<Option<u8> as Layout>⟧.seen it.volume,
        (
          ⟦<Vec<u32> as Layout>⟧.seen it.scores,
          (⟦<Vec<Tag> as Layout>⟧.seen it.tags, ⟦<Theme as Layout>⟧.seen it.theme),
        ),
      ),
    ) };

    ghost layout = { ⟦<SettingsParts as Layout>⟧.layout };
}

impl<L: AsSlice<u8> + Drop, C: Context> ReadFrom<L, C> for Settings {
    type Strategy = ItemByItem<C>;

    fn read_from<R: LendingReader<L, C>>(reader: &mut R) -> Result<Settings, C::Error> {
        match reader.read_value::<SettingsParts>() {
            Ok((name, volume, scores, tags, theme)) => Ok(Settings {
                name: name.value,
                volume,
                scores: scores.value,
                tags: tags.value,
                theme,
            }),
            Err(error) => Err(error),
        }
    }

    fn minimum_bytes_needed() -> usize {
        29
    }
}

impl<C: Context> Writable<C> for Settings {
    fn write_to<W: Writer<C>>(&self, writer: &mut W) -> Result<(), C::Error> {
        let name: Prefixed<u64, _> = Prefixed {
            value: Part(&self.name),
            number: PhantomData,
        };
        let scores: Prefixed<u64, _> = Prefixed {
            value: Part(&self.scores),
            number: PhantomData,
        };
        let tags: Prefixed<u64, _> = Prefixed {
            value: Part(&self.tags),
            number: PhantomData,
        };
        writer.write_value(&(name, Part(&self.volume), scores, tags, Part(&self.theme)))
    }
}

/// An item of a list of texts: its length has eight bytes too.
#[derive(Debug, PartialEq, Drop)]
pub struct Tag {
    pub text: String,
}

impl Layout for Tag {
    ghost Seen = { ⟦<Prefixed<u64, String> as Layout>⟧.Seen };

    ghost seen = { λ it. ⟦<String as Layout>⟧.seen it.text };

    ghost layout = { ⟦<Prefixed<u64, String> as Layout>⟧.layout };
}

impl<L: AsSlice<u8> + Drop, C: Context> ReadFrom<L, C> for Tag {
    type Strategy = ItemByItem<C>;

    fn read_from<R: LendingReader<L, C>>(reader: &mut R) -> Result<Tag, C::Error> {
        match reader.read_value::<Prefixed<u64, String>>() {
            Ok(text) => Ok(Tag { text: text.value }),
            Err(error) => Err(error),
        }
    }

    fn minimum_bytes_needed() -> usize {
        8
    }
}

impl<C: Context> Writable<C> for Tag {
    fn write_to<W: Writer<C>>(&self, writer: &mut W) -> Result<(), C::Error> {
        let text: Prefixed<u64, _> = Prefixed {
            value: Part(&self.text),
            number: PhantomData,
        };
        writer.write_value(&text)
    }
}

#[derive(Debug, PartialEq, Drop)]
pub enum Theme {
    Light,
    Dark { contrast: u16 },
}

/// The cases of [`Theme`], each with its tag.
type ThemeCases = Either<UnitCase<0>, Case<1, u16>>;

impl Cases for Theme {
    ghost use Rattle.speedy_examples.specs.declared.settings.Theme.{Theme};

    ghost Seen = { ⟦<ThemeCases as CaseTree>⟧.Seen };

    ghost seen = { λ it. elim it [
      | Theme.Light ↦ inl tt
      | Theme.Dark t0 ↦ inr (⟦<u16 as Layout>⟧.seen t0)
    ] };

    ghost choices = { ⟦<ThemeCases as CaseTree>⟧.choices };
}

impl Layout for Theme {
    ghost Seen = { ⟦<Prefixed<u32, Theme> as Layout>⟧.Seen };

    ghost seen = { ⟦<Theme as Cases>⟧.seen };

    ghost layout = { ⟦<Prefixed<u32, Theme> as Layout>⟧.layout };
}

impl<L: AsSlice<u8> + Drop, C: Context> ReadCases<L, C> for Theme {
    fn read_case<R: LendingReader<L, C>>(tag: usize, reader: &mut R) -> Result<Theme, C::Error> {
        match tag {
            0 => Ok(Theme::Light),
            1 => match reader.read_value() {
                Ok(contrast) => Ok(Theme::Dark { contrast }),
                Err(error) => Err(error),
            },
            _ => Err(error_invalid_enum_variant()),
        }
    }
}

impl<L: AsSlice<u8> + Drop, C: Context> ReadFrom<L, C> for Theme {
    type Strategy = ItemByItem<C>;

    fn read_from<R: LendingReader<L, C>>(reader: &mut R) -> Result<Theme, C::Error> {
        read_tagged::<u32, Self, L, C, R>(reader)
    }

    fn minimum_bytes_needed() -> usize {
        4
    }
}

impl<C: Context> WriteCases<C> for Theme {
    fn tag(&self) -> usize {
        match self {
            Theme::Light => 0,
            Theme::Dark { .. } => 1,
        }
    }

    fn write_case<W: Writer<C>>(&self, writer: &mut W) -> Result<(), C::Error> {
        match self {
            Theme::Light => Ok(()),
            Theme::Dark { contrast } => writer.write_value(contrast),
        }
    }
}

impl<C: Context> Writable<C> for Theme {
    fn write_to<W: Writer<C>>(&self, writer: &mut W) -> Result<(), C::Error> {
        write_tagged::<u32, Self, C, W>(self, writer)
    }
}
