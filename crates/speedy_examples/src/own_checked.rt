//! A type of your own that is a number which is checked where it is read.
ghost use Rattle.std.specs.Prelude.{ℕ, ◌≤◌};
ghost use Rattle.speedy.specs.Codecs.{subset_codec, unsigned_codec};
ghost use Rattle.speedy.specs.Decoding.{coded};
ghost use Rattle.speedy.specs.declared.error.ErrorKind.TheVariants.{InvalidEnumVariant};

use speedy::private::error_invalid_enum_variant;
use speedy::{Context, FromCode, ItemByItem, Layout, ToCode, Writable, Writer};

/// A share in percent, of which there are at most 100.
#[derive(Debug, Clone, Copy, PartialEq)]
pub struct Percent {
    pub number: u8,
    ghost in_range: { number ≤ 100 },
}

impl Layout for Percent {
    ghost Seen = { ℕ };

    ghost seen = { λ it. it.number };

    ghost layout = { subset_codec (λ n. n ≤ 100) InvalidEnumVariant tt (unsigned_codec 1) };
}

#[tactic(auto, using(speedy::specs::Encoding::encoded))]
impl ToCode for Percent {
    type Code = u8;

    fn encode(&self) -> u8 {
        self.number
    }
}

#[tactic(auto, using(speedy::specs::Decoding::decoded))]
impl FromCode for Percent {
    type Strategy = ItemByItem<()>;

    fn decode<C: Context>(number: u8, _: bool) -> Result<Percent, C::Error> {
        if number > 100 {
            return Err(error_invalid_enum_variant());
        }
        Ok(Percent { number })
    }

    ghost is_coded = { coded _ _ _ };
}

impl<C: Context> Writable<C> for Percent {
    fn write_to<W: Writer<C>>(&self, writer: &mut W) -> Result<(), C::Error> {
        writer.write_code(self)
    }
}
