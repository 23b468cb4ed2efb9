//! Types of your own: a leaf that tests what it reads, and a struct of any part.
ghost use Rattle.std.specs.Prelude.{◌≡◌, ℕ};
ghost use Rattle.speedy.specs.Codecs.{subset_codec, unsigned_codec};
ghost use Rattle.speedy.specs.Decoding.{coded};
ghost use Rattle.speedy.specs.declared.error.ErrorKind.TheVariants.{InvalidEnumVariant};

use speedy::private::error_invalid_enum_variant;
use speedy::{
    Context, FromCode, ItemByItem, Layout, LendingReader, Part, ReadFrom, ToCode, Writable, Writer,
};
use std::convert::AsSlice;

/// A byte that is 0. It has no size in memory.
#[derive(Drop)]
pub struct Mark {}

impl Layout for Mark {
    ghost Seen = { ℕ };

    ghost seen = { λ _. 0 };

    ghost layout = { subset_codec (λ n. n ≡ 0) InvalidEnumVariant tt (unsigned_codec 1) };
}

#[tactic(auto, using(speedy::specs::Encoding::encoded))]
impl ToCode for Mark {
    type Code = u8;

    fn encode(&self) -> u8 {
        0
    }
}

#[tactic(auto, using(speedy::specs::Decoding::decoded))]
impl FromCode for Mark {
    type Strategy = ItemByItem<()>;

    fn decode<C: Context>(code: u8, _: bool) -> Result<Mark, C::Error> {
        match code {
            0 => Ok(Mark {}),
            _ => Err(error_invalid_enum_variant()),
        }
    }

    ghost is_coded = { coded _ _ _ };
}

impl<C: Context> Writable<C> for Mark {
    fn write_to<W: Writer<C>>(&self, writer: &mut W) -> Result<(), C::Error> {
        writer.write_code(self)
    }
}

/// A value with a number before it: two parts, one after the other.
#[derive(Debug, PartialEq, Drop)]
pub struct Labelled<T> {
    pub label: u32,
    pub value: T,
}

impl<T: Layout> Layout for Labelled<T> {
    ghost Seen = { ⟦<(u32, T) as Layout>⟧.Seen };

    ghost seen = { λ it. ⟦<(u32, T) as Layout>⟧.seen (it.label, it.value) };

    ghost layout = { ⟦<(u32, T) as Layout>⟧.layout };
}

impl<L: AsSlice<u8> + Drop, C: Context, T: ReadFrom<L, C>> ReadFrom<L, C> for Labelled<T> {
    type Strategy = ItemByItem<C>;

    fn read_from<R: LendingReader<L, C>>(reader: &mut R) -> Result<Labelled<T>, C::Error> {
        let (label, value) = reader.read_value()?;
        Ok(Labelled { label, value })
    }

    fn minimum_bytes_needed() -> usize {
        <(u32, T) as ReadFrom<L, C>>::minimum_bytes_needed()
    }
}

impl<C: Context, T: Writable<C>> Writable<C> for Labelled<T> {
    fn write_to<W: Writer<C>>(&self, writer: &mut W) -> Result<(), C::Error> {
        writer.write_value(&(Part(&self.label), Part(&self.value)))
    }
}
