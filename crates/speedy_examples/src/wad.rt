//! Archives of a game (WAD): a table of lumps at an offset.
//!
//! Made from `wad.rs` by `tools/derive`: change that, and make this again.
ghost use Rattle.std.specs.Prelude.{[], ◌∷◌};

use speedy::magic::{Constant, Magic};
use speedy::{Context, ItemByItem, Layout, LendingReader, Part, ReadFrom, Writable, Writer};
use std::convert::AsSlice;

/// What an archive begins with.
#[derive(Debug, PartialEq, Drop)]
pub struct Archive {
    pub count: u32,
    pub table: u32,
}

/// The bytes before [`Archive::count`].
#[derive(Drop)]
struct BeforeArchiveCount {}

impl Constant for BeforeArchiveCount {
    ghost bytes = { 80 ∷ 87 ∷ 65 ∷ 68 ∷ [] };

    fn bytes() -> &'static [u8] {
        b"PWAD"
    }
}

/// What [`Archive`] is read and written as.
type ArchiveParts = (Magic<BeforeArchiveCount>, u32, u32);

impl Layout for Archive {
    ghost Seen = { ⟦<ArchiveParts as Layout>⟧.Seen };

    ghost seen = { λ it. (
      ⟦<BeforeArchiveCount as Constant>⟧.bytes,
      (⟦<u32 as Layout>⟧.seen it.count, ⟦<u32 as Layout>⟧.seen it.table),
    ) };

    ghost layout = { ⟦<ArchiveParts as Layout>⟧.layout };
}

impl<L: AsSlice<u8> + Drop, C: Context> ReadFrom<L, C> for Archive {
    type Strategy = ItemByItem<C>;

    fn read_from<R: LendingReader<L, C>>(reader: &mut R) -> Result<Archive, C::Error> {
        match reader.read_value::<ArchiveParts>() {
            Ok((_, count, table)) => Ok(Archive { count, table }),
            Err(error) => Err(error),
        }
    }

    fn minimum_bytes_needed() -> usize {
        12
    }
}

impl<C: Context> Writable<C> for Archive {
    fn write_to<W: Writer<C>>(&self, writer: &mut W) -> Result<(), C::Error> {
        writer.write_value(&(Magic::<BeforeArchiveCount>::new(), self.count, self.table))
    }
}

/// Where a lump stands in the file, and its name, with zeros after it.
#[derive(Debug, PartialEq, Drop)]
pub struct Lump {
    pub offset: u32,
    pub size: u32,
    pub name: [u8; 8],
}

/// What [`Lump`] is read and written as.
type LumpParts = (u32, u32, [u8; 8]);

impl Layout for Lump {
    ghost Seen = { ⟦<LumpParts as Layout>⟧.Seen };

    ghost seen = { λ it. ⟦<LumpParts as Layout>⟧.seen (it.offset, it.size, it.name) };

    ghost layout = { ⟦<LumpParts as Layout>⟧.layout };
}

impl<L: AsSlice<u8> + Drop, C: Context> ReadFrom<L, C> for Lump {
    type Strategy = ItemByItem<C>;

    fn read_from<R: LendingReader<L, C>>(reader: &mut R) -> Result<Lump, C::Error> {
        match reader.read_value() {
            Ok(parts) => {
                let (offset, size, name) = parts;
                Ok(Lump { offset, size, name })
            }
            Err(error) => Err(error),
        }
    }

    fn minimum_bytes_needed() -> usize {
        16
    }
}

impl<C: Context> Writable<C> for Lump {
    fn write_to<W: Writer<C>>(&self, writer: &mut W) -> Result<(), C::Error> {
        writer.write_value(&(self.offset, self.size, Part(&self.name)))
    }
}
