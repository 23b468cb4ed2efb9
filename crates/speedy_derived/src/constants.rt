//! A part behind a constant; `rows` has constants of the other kinds.
//!
//! Made from `constants.rs` by `tools/derive`: change that, and make this again.
ghost use Rattle.std.specs.Prelude.{[], ◌∷◌};

use speedy::magic::{Constant, Magic};
use speedy::{Context, ItemByItem, Layout, LendingReader, Part, ReadFrom, Writable, Writer};
use std::convert::AsSlice;

#[derive(Drop)]
pub struct BehindCharacter {
    pub value: (),
}

/// The bytes before [`BehindCharacter::value`].
#[derive(Drop)]
struct BeforeBehindCharacterValue {}

impl Constant for BeforeBehindCharacterValue {
    ghost bytes = { 232 ∷ 139 ∷ 186 ∷ [] };

    fn bytes() -> &'static [u8] {
        b"\xe8\x8b\xba"
    }
}

/// What [`BehindCharacter`] is read and written as.
type BehindCharacterParts = (Magic<BeforeBehindCharacterValue>, ());

impl Layout for BehindCharacter {
    ghost Seen = { ⟦<BehindCharacterParts as Layout>⟧.Seen };

    ghost seen = { λ it. (⟦<BeforeBehindCharacterValue as Constant>⟧.bytes, ⟦<() as Layout>⟧.seen it.value) };

    ghost layout = { ⟦<BehindCharacterParts as Layout>⟧.layout };
}

impl<L: AsSlice<u8> + Drop, C: Context> ReadFrom<L, C> for BehindCharacter {
    type Strategy = ItemByItem<C>;

    fn read_from<R: LendingReader<L, C>>(reader: &mut R) -> Result<BehindCharacter, C::Error> {
        match reader.read_value::<BehindCharacterParts>() {
            Ok((_, value)) => Ok(BehindCharacter { value }),
            Err(error) => Err(error),
        }
    }

    fn minimum_bytes_needed() -> usize {
        3
    }
}

impl<C: Context> Writable<C> for BehindCharacter {
    fn write_to<W: Writer<C>>(&self, writer: &mut W) -> Result<(), C::Error> {
        writer.write_value(&(
            Magic::<BeforeBehindCharacterValue>::new(),
            Part(&self.value),
        ))
    }
}
