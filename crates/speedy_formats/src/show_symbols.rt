//! The symbols of an ELF file.
use crate::elf::{FileHeader, Section, Symbol};
use crate::programs::{read_table, section_bytes, table_bytes};
use crate::report::{Broken, Failure, Names, ShowItem, Text, part_read, show_items};
use speedy::{Endianness, Error};
use std::alloc::Global;
use std::io::{self, Write};

/// The kinds of sections that are tables of symbols: `SHT_SYMTAB`, `SHT_DYNSYM`.
const TABLES: [u32; 2] = [2, 11];
/// The bytes of a symbol.
const SYMBOL: u64 = 24;

/// Where the file tells of a section, in the table of sections.
pub(crate) fn section_at(header: &FileHeader, number: usize) -> usize {
    let begin = usize::try_from(header.sections_offset).unwrap_or(usize::MAX);
    begin.saturating_add(number.saturating_mul(64))
}

/// Whether these bytes were written again.
pub(crate) fn is_again(written: Result<Vec<u8>, Error>, bytes: Option<&[u8]>) -> bool {
    match (written, bytes) {
        (Ok(again), Some(bytes)) => again.as_slice() == bytes,
        _ => false,
    }
}

/// The bytes of a table of symbols, so many at most, and their names, or what is wrong with what tells of them.
fn table_of<'a>(
    bytes: &'a [u8],
    section: &Section,
    sections: &[Section],
    most: usize,
) -> Result<(&'a [u8], Names<'a>), &'static str> {
    if section.entry_size != SYMBOL || section.size % SYMBOL != 0 {
        return Err("its symbols have another size");
    }
    let Some(table) = section_bytes(bytes, section) else {
        return Err("it does not lie in the file");
    };
    if table.len() > most {
        return Err("it overlaps another table of symbols");
    }
    let Some(names) = sections.get(section.link as usize) else {
        return Err("it has no section of names");
    };
    match section_bytes(bytes, names) {
        Some(names) => Ok((table, Names::new(names))),
        None => Err("its names do not lie in the file"),
    }
}

impl<'a> ShowItem<Names<'a>> for Symbol {
    fn show<W: Write + Drop>(&self, out: &mut W, names: Names<'a>) -> io::Result<()> {
        writeln!(
            out,
            "    value {:#x} size {} info {:#x} visibility {} section {} {}",
            self.value,
            self.size,
            self.info,
            self.visibility,
            self.section,
            Text(names.get(self.name as usize))
        )
    }
}

/// Shows a table of symbols, and says whether they were written again as they were.
fn show_table<W: Write + Drop>(
    alloc: Global,
    out: &mut W,
    order: Endianness,
    table: &[u8],
    names: Names<'_>,
    most: usize,
) -> Result<bool, Failure> {
    let symbols = part_read(
        "the symbols",
        table.len(),
        read_table::<_, Symbol>(alloc, order, table),
    )?;
    show_items(out, ("", " symbols"), &symbols.items, names, most)?;
    Ok(is_again(table_bytes(alloc, order, &symbols), Some(table)))
}

/// Shows each table of symbols, and says whether all were written again as they were. Tables that overlap are refused:
/// so what is read of them is no more than the file.
pub(crate) fn show_symbols<W: Write + Drop>(
    alloc: Global,
    out: &mut W,
    bytes: &[u8],
    header: &FileHeader,
    order: Endianness,
    sections: &[Section],
    most: usize,
) -> Result<bool, Failure> {
    let mut again = true;
    let mut left = bytes.len();
    for (number, section) in sections.iter().enumerate() {
        if !TABLES.contains(&section.kind) {
            continue;
        }
        let (table, names) = match table_of(bytes, section, sections, left) {
            Ok(found) => found,
            Err(fault) => {
                let at = section_at(header, number);
                return Err(Broken::value("section", number, at, fault));
            }
        };
        left = left.saturating_sub(table.len());
        write!(out, "  section {number}: ")?;
        again = show_table(alloc, out, order, table, names, most)? && again;
    }
    Ok(again)
}
