//! The headers and tables of ELF files, read and written again.
ghost use Rattle.std.specs.Prelude.{ℕ};
ghost use Rattle.speedy.specs.Mode.{plain_mode};
ghost use Rattle.speedy.specs.ReadWholes.{AnswersWhole};
ghost use Rattle.speedy.specs.WaysOfReading.{AnswersBuffer};
ghost use Rattle.speedy.specs.WaysOfWriting.{WritesToVec, WritesToVecIn};

use crate::elf::{FileHeader, Section, Table};
use speedy::whole::{ReadableWhole, Whole, WriteWhole};
use speedy::{Context, Endianness, Error, IsEof, Layout, ReadMany, Readable, Writable};
use std::alloc::Global;

/// The byte order of a file of 64 bits, which its fifth and sixth byte tell.
pub(crate) fn order_of(bytes: &[u8]) -> Option<Endianness> {
    if bytes.starts_with(b"\x7fELF\x02\x01") {
        Some(Endianness::LittleEndian)
    } else if bytes.starts_with(b"\x7fELF\x02\x02") {
        Some(Endianness::BigEndian)
    } else {
        None
    }
}

/// The header that a file begins with.
pub fn read_file_header(alloc: Global, order: Endianness, bytes: &[u8]) -> Result<FileHeader, Error>
    ensures { let it = ⟦<FileHeader as Layout>⟧ in
        (size : ℕ) × AnswersBuffer ⟦<Error as IsEof>⟧ it.seen it.layout (plain_mode order) result size bytes.now }
{
    <FileHeader as Readable<Endianness>>::read_from_buffer_with_ctx(alloc, order, bytes)
}

/// The table that all of the bytes are: segments, sections or symbols.
pub fn read_table<'a, C: Context, T: ReadMany<&'a [u8], C>>(
    alloc: Global,
    context: C,
    table: &'a [u8],
) -> Result<Table<T>, C::Error>
    ensures { let it = ⟦<Table<T> as Whole>⟧ in
        AnswersWhole C.Error.IsEof it.seen it.whole (C.mode context) result table.now }
{
    <Table<T> as ReadableWhole<C>>::read_whole_from_buffer_with_ctx(alloc, context, table)
}

/// The bytes of a section, where they lie in the file.
pub(crate) fn section_bytes<'a>(file: &'a [u8], section: &Section) -> Option<&'a [u8]> {
    let begin = usize::try_from(section.offset).unwrap_or(usize::MAX);
    let size = usize::try_from(section.size).unwrap_or(usize::MAX);
    file.get(begin..begin.saturating_add(size))
}

/// The 64 bytes of a header.
pub fn file_header_bytes(
    alloc: Global,
    order: Endianness,
    header: &FileHeader,
) -> Result<Vec<u8>, Error>
    ensures { let it = ⟦<FileHeader as Layout>⟧ in
        WritesToVec ⟦<Error as From<Error>>⟧.from_gives it.seen it.layout (plain_mode order)
        header.now (λ bytes. bytes.items) result }
{
    header.write_to_vec_with_ctx(alloc, order)
}

/// The bytes of a table: 56 for each segment, 64 for each section, 24 for each symbol.
pub fn table_bytes<T: Writable<Endianness>>(
    alloc: Global,
    order: Endianness,
    table: &Table<T>,
) -> Result<Vec<u8>, Error>
    ensures { let it = ⟦<Table<T> as Whole>⟧ in
        WritesToVecIn ⟦<Error as From<Error>>⟧.from_gives (it.whole.format (plain_mode order))
        (it.seen table.now) (λ bytes. bytes.items) result }
{
    table.write_whole_to_vec_with_ctx(alloc, order)
}
