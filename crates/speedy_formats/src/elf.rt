//! Programs and libraries of ELF for 64 bits, by the "System V Application Binary Interface", chapters 4 and 5, in
//! either byte order.
//!
//! Made from `elf.rs` by `tools/derive`: change that, and make this again.
ghost use Rattle.std.specs.Prelude.{[], ◌∷◌};

use speedy::lengths::OfLength;
use speedy::magic::{Constant, Magic};
use speedy::whole::{EndsWithInput, MemoryReader, ReadToEnd, Rest, Whole, WriteToEnd};
use speedy::{
    Context, ItemByItem, Layout, LendingReader, Part, ReadFrom, ReadMany, Writable, Writer,
};
use std::convert::AsSlice;

/// What a file begins with (chapter 4, "ELF Header").
#[derive(Drop)]
pub struct FileHeader {
    /// 1 for 32 bits, 2 for 64.
    pub class: u8,
    /// 1 for little endian, 2 for big endian, of all that follows.
    pub order: u8,
    pub ident_version: u8,
    pub system: u8,
    pub system_version: u8,
    pub padding: [u8; 7],
    /// 2 is a program, 3 a library or a program at any address.
    pub kind: u16,
    pub machine: u16,
    pub version: u32,
    /// The address at which it begins to run.
    pub entry: u64,
    pub segments_offset: u64,
    pub sections_offset: u64,
    pub flags: u32,
    pub header_size: u16,
    pub segment_size: u16,
    pub segment_count: u16,
    pub section_size: u16,
    pub section_count: u16,
    /// Which section has the names of all sections.
    pub names: u16,
}

/// The bytes before [`FileHeader::class`].
#[derive(Drop)]
struct BeforeFileHeaderClass {}

impl Constant for BeforeFileHeaderClass {
    ghost bytes = { 127 ∷ 69 ∷ 76 ∷ 70 ∷ [] };

    fn bytes() -> &'static [u8] {
        b"\x7fELF"
    }
}

/// What [`FileHeader`] is read and written as.
type FileHeaderParts = (
    (
        (Magic<BeforeFileHeaderClass>, u8, u8, u8),
        (u8, u8, [u8; 7], u16),
        (u16, u32, u64, u64),
    ),
    ((u64, u32, u16, u16), (u16, u16, u16, u16)),
);

impl Layout for FileHeader {
    ghost Seen = { ⟦<FileHeaderParts as Layout>⟧.Seen };

    ghost seen = { λ it. (
      (
        (
          ⟦<BeforeFileHeaderClass as Constant>⟧.bytes,
          (⟦<u8 as Layout>⟧.seen it.class, (⟦<u8 as Layout>⟧.seen it.order, ⟦<u8 as Layout>⟧.seen it.ident_version)),
        ),
        (
          (
            ⟦<u8 as Layout>⟧.seen it.system,
            (
              ⟦<u8 as Layout>⟧.seen it.system_version,
              (⟦<[u8; 7] as Layout>⟧.seen it.padding, ⟦<u16 as Layout>⟧.seen it.kind),
            ),
          ),
          (
            ⟦<u16 as Layout>⟧.seen it.machine,
            (
              ⟦<u32 as Layout>⟧.seen it.version,
              (⟦<u64 as Layout>⟧.seen it.entry, ⟦<u64 as Layout>⟧.seen it.segments_offset),
            ),
          ),
        ),
      ),
      (
        (
          ⟦<u64 as Layout>⟧.seen it.sections_offset,
          (
            ⟦<u32 as Layout>⟧.seen it.flags,
            (⟦<u16 as Layout>⟧.seen it.header_size, ⟦<u16 as Layout>⟧.seen it.segment_size),
          ),
        ),
        (
          ⟦<u16 as Layout>⟧.seen it.segment_count,
          (
            ⟦<u16 as Layout>⟧.seen it.section_size,
            (⟦<u16 as Layout>⟧.seen it.section_count, ⟦<u16 as Layout>⟧.seen it.names),
          ),
        ),
      ),
    ) };

    ghost layout = { ⟦<FileHeaderParts as Layout>⟧.layout };
}

impl<L: AsSlice<u8> + Drop, C: Context> ReadFrom<L, C> for FileHeader {
    type Strategy = ItemByItem<C>;

    fn read_from<R: LendingReader<L, C>>(reader: &mut R) -> Result<FileHeader, C::Error> {
        match reader.read_value::<FileHeaderParts>() {
            Ok(parts) => {
                let (parts1, parts2) = parts;
                let (parts3, parts4, parts5) = parts1;
                let (_, class, order, ident_version) = parts3;
                let (system, system_version, padding, kind) = parts4;
                let (machine, version, entry, segments_offset) = parts5;
                let (parts6, parts7) = parts2;
                let (sections_offset, flags, header_size, segment_size) = parts6;
                let (segment_count, section_size, section_count, names) = parts7;
                Ok(FileHeader {
                    class,
                    order,
                    ident_version,
                    system,
                    system_version,
                    padding,
                    kind,
                    machine,
                    version,
                    entry,
                    segments_offset,
                    sections_offset,
                    flags,
                    header_size,
                    segment_size,
                    segment_count,
                    section_size,
                    section_count,
                    names,
                })
            }
            Err(error) => Err(error),
        }
    }

    fn minimum_bytes_needed() -> usize {
        64
    }
}

impl<C: Context> Writable<C> for FileHeader {
    fn write_to<W: Writer<C>>(&self, writer: &mut W) -> Result<(), C::Error> {
        writer.write_value(&(
            (
                (
                    Magic::<BeforeFileHeaderClass>::new(),
                    self.class,
                    self.order,
                    self.ident_version,
                ),
                (
                    self.system,
                    self.system_version,
                    Part(&self.padding),
                    self.kind,
                ),
                (self.machine, self.version, self.entry, self.segments_offset),
            ),
            (
                (
                    self.sections_offset,
                    self.flags,
                    self.header_size,
                    self.segment_size,
                ),
                (
                    self.segment_count,
                    self.section_size,
                    self.section_count,
                    self.names,
                ),
            ),
        ))
    }
}

/// What is put into memory together (chapter 5, "Program Header").
#[derive(Drop)]
pub struct Segment {
    pub kind: u32,
    /// 1 to run, 2 to write, 4 to read.
    pub flags: u32,
    pub offset: u64,
    pub address: u64,
    pub physical_address: u64,
    pub file_size: u64,
    pub memory_size: u64,
    pub alignment: u64,
}

/// What [`Segment`] is read and written as.
type SegmentParts = ((u32, u32, u64, u64), (u64, u64, u64, u64));

impl Layout for Segment {
    ghost Seen = { ⟦<SegmentParts as Layout>⟧.Seen };

    ghost seen = { λ it. ⟦<SegmentParts as Layout>⟧.seen (
      (it.kind, it.flags, it.offset, it.address),
      (it.physical_address, it.file_size, it.memory_size, it.alignment),
    ) };

    ghost layout = { ⟦<SegmentParts as Layout>⟧.layout };
}

impl<L: AsSlice<u8> + Drop, C: Context> ReadFrom<L, C> for Segment {
    type Strategy = ItemByItem<C>;

    #[inline(always)]
    fn read_from<R: LendingReader<L, C>>(reader: &mut R) -> Result<Segment, C::Error> {
        match reader.read_value() {
            Ok(parts) => {
                let (parts1, parts2) = parts;
                let (kind, flags, offset, address) = parts1;
                let (physical_address, file_size, memory_size, alignment) = parts2;
                Ok(Segment {
                    kind,
                    flags,
                    offset,
                    address,
                    physical_address,
                    file_size,
                    memory_size,
                    alignment,
                })
            }
            Err(error) => Err(error),
        }
    }

    fn minimum_bytes_needed() -> usize {
        56
    }
}

impl<C: Context> Writable<C> for Segment {
    fn write_to<W: Writer<C>>(&self, writer: &mut W) -> Result<(), C::Error> {
        writer.write_value(&(
            (self.kind, self.flags, self.offset, self.address),
            (
                self.physical_address,
                self.file_size,
                self.memory_size,
                self.alignment,
            ),
        ))
    }
}

/// A part of the file (chapter 4, "Sections").
#[derive(Drop)]
pub struct Section {
    /// Where its name begins in the section of names.
    pub name: u32,
    pub kind: u32,
    pub flags: u64,
    pub address: u64,
    pub offset: u64,
    pub size: u64,
    pub link: u32,
    pub info: u32,
    pub alignment: u64,
    pub entry_size: u64,
}

/// What [`Section`] is read and written as.
type SectionParts = ((u32, u32, u64, u64), (u64, u64, u32), (u32, u64, u64));

impl Layout for Section {
    ghost Seen = { ⟦<SectionParts as Layout>⟧.Seen };

    ghost seen = { λ it. ⟦<SectionParts as Layout>⟧.seen (
      (it.name, it.kind, it.flags, it.address),
      (it.offset, it.size, it.link),
      (it.info, it.alignment, it.entry_size),
    ) };

    ghost layout = { ⟦<SectionParts as Layout>⟧.layout };
}

impl<L: AsSlice<u8> + Drop, C: Context> ReadFrom<L, C> for Section {
    type Strategy = ItemByItem<C>;

    fn read_from<R: LendingReader<L, C>>(reader: &mut R) -> Result<Section, C::Error> {
        match reader.read_value() {
            Ok(parts) => {
                let (parts1, parts2, parts3) = parts;
                let (name, kind, flags, address) = parts1;
                let (offset, size, link) = parts2;
                let (info, alignment, entry_size) = parts3;
                Ok(Section {
                    name,
                    kind,
                    flags,
                    address,
                    offset,
                    size,
                    link,
                    info,
                    alignment,
                    entry_size,
                })
            }
            Err(error) => Err(error),
        }
    }

    fn minimum_bytes_needed() -> usize {
        64
    }
}

impl<C: Context> Writable<C> for Section {
    fn write_to<W: Writer<C>>(&self, writer: &mut W) -> Result<(), C::Error> {
        writer.write_value(&(
            (self.name, self.kind, self.flags, self.address),
            (self.offset, self.size, self.link),
            (self.info, self.alignment, self.entry_size),
        ))
    }
}

/// A symbol (chapter 4, "Symbol Table").
#[derive(Drop)]
pub struct Symbol {
    /// Where its name begins in the section of names that the table's section links to.
    pub name: u32,
    /// What it is in the lower four bits, and how it is bound in the upper ones.
    pub info: u8,
    /// Who sees it, in the lower two bits.
    pub visibility: u8,
    /// The number of the section that it lies in, or one of those from 0xff00 on, which mean something else.
    pub section: u16,
    pub value: u64,
    pub size: u64,
}

/// What [`Symbol`] is read and written as.
type SymbolParts = (u32, u8, u8, u16, u64, u64);

impl Layout for Symbol {
    ghost Seen = { ⟦<SymbolParts as Layout>⟧.Seen };

    ghost seen = { λ it. ⟦<SymbolParts as Layout>⟧.seen (
      it.name,
      it.info,
      it.visibility,
      it.section,
      it.value,
      it.size,
    ) };

    ghost layout = { ⟦<SymbolParts as Layout>⟧.layout };
}

impl<L: AsSlice<u8> + Drop, C: Context> ReadFrom<L, C> for Symbol {
    type Strategy = ItemByItem<C>;

    #[inline(always)]
    fn read_from<R: LendingReader<L, C>>(reader: &mut R) -> Result<Symbol, C::Error> {
        match reader.read_value() {
            Ok((name, info, visibility, section, value, size)) => Ok(Symbol {
                name,
                info,
                visibility,
                section,
                value,
                size,
            }),
            Err(error) => Err(error),
        }
    }

    fn minimum_bytes_needed() -> usize {
        24
    }
}

impl<C: Context> Writable<C> for Symbol {
    fn write_to<W: Writer<C>>(&self, writer: &mut W) -> Result<(), C::Error> {
        writer.write_value(&(
            self.name,
            self.info,
            self.visibility,
            self.section,
            self.value,
            self.size,
        ))
    }
}

/// A table of segments, sections or symbols, to its end.
#[derive(Drop)]
pub struct Table<T> {
    pub items: Vec<T>,
}

/// What [`Table`] is read and written as.
type TableParts<T> = Rest<Vec<T>>;

impl<T: Layout> Whole for Table<T> {
    type Ends = EndsWithInput;

    ghost Seen = { ⟦<TableParts<T> as Whole>⟧.Seen };

    ghost seen = { λ it. ⟦<Vec<T> as OfLength>⟧.seen it.items };

    ghost whole = { ⟦<TableParts<T> as Whole>⟧.whole };
}

impl<L: AsSlice<u8> + Drop, C: Context, T: ReadMany<L, C>> ReadToEnd<L, C> for Table<T> {
    fn read_to_end<R: MemoryReader<L, C>>(reader: &mut R) -> Result<Table<T>, C::Error> {
        match <TableParts<T> as ReadToEnd<L, C>>::read_to_end(reader) {
            Ok(Rest(items)) => Ok(Table { items }),
            Err(error) => Err(error),
        }
    }
}

impl<C: Context, T: Writable<C>> WriteToEnd<C> for Table<T> {
    fn write_to_end<W: Writer<C>>(&self, writer: &mut W) -> Result<(), C::Error> {
        Rest(Part(&self.items)).write_to_end(writer)
    }
}
