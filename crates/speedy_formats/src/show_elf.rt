//! What an ELF file says of itself, much as `readelf -hlSsW` prints it.
use crate::elf::{FileHeader, Section, Segment};
use crate::programs::{
    file_header_bytes, order_of, read_file_header, read_table, section_bytes, table_bytes,
};
use crate::report::{Broken, Failure, Names, ShowItem, Text, part_read, show_items};
use crate::show_symbols::{is_again, section_at, show_symbols};
use speedy::Endianness;
use std::alloc::Global;
use std::io::{self, Write};

/// Where a table lies in a file, with how it is named where it is broken.
#[derive(Clone, Copy)]
struct Place {
    name: &'static str,
    /// Where the header tells its place.
    told_at: usize,
    offset: u64,
    size: u16,
    /// The bytes of an item that is read.
    item: u16,
    count: u16,
}

/// The bytes of the file that a table has.
fn find_table<'a>(bytes: &'a [u8], table: Place) -> Result<&'a [u8], Failure> {
    if table.count == 0 {
        return Ok(&bytes[..0]);
    }
    if table.size != table.item {
        return Err(Broken::value(table.name, 0, table.told_at, "its items have another size"));
    }
    let begin = usize::try_from(table.offset).unwrap_or(usize::MAX);
    let size = usize::from(table.size) * usize::from(table.count);
    match bytes.get(begin..begin.saturating_add(size)) {
        Some(part) => Ok(part),
        None => Err(Broken::value(table.name, 0, table.told_at, "it does not lie in the file")),
    }
}

/// Says what an ELF file holds.
pub(crate) fn show_elf<W: Write + Drop>(
    alloc: Global,
    out: &mut W,
    bytes: &[u8],
    most: usize,
) -> Result<(), Failure> {
    let Some(order) = order_of(bytes) else {
        return Err(Broken::value(
            "header",
            0,
            bytes.len().min(4),
            "it is not of 64 bits in a known order",
        ));
    };
    let header = part_read(
        "the header",
        bytes.len(),
        read_file_header(alloc, order, bytes),
    )?;
    let segment_table = find_table(bytes, segment_place(&header))?;
    let section_table = find_table(bytes, section_place(&header))?;
    let segments = part_read(
        "the segments",
        0x20,
        read_table::<_, Segment>(alloc, order, segment_table),
    )?;
    let sections = part_read(
        "the sections",
        0x28,
        read_table::<_, Section>(alloc, order, section_table),
    )?;
    let names = names_of(bytes, &header, &sections.items)?;
    check_names(&header, &sections.items, names)?;
    show_header(out, &header, order)?;
    show_items(out, ("  ", " segments"), &segments.items, (), most)?;
    show_items(out, ("  ", " sections"), &sections.items, names, most)?;
    let symbols_again = show_symbols(alloc, out, bytes, &header, order, &sections.items, most)?;
    let header_again = is_again(file_header_bytes(alloc, order, &header), bytes.get(..64));
    let segments_again = is_again(table_bytes(alloc, order, &segments), Some(segment_table));
    let sections_again = is_again(table_bytes(alloc, order, &sections), Some(section_table));
    let same = if header_again && segments_again && sections_again && symbols_again {
        "the same"
    } else {
        "other"
    };
    writeln!(out, "  written again: {same} bytes")?;
    Ok(())
}

fn segment_place(header: &FileHeader) -> Place {
    Place {
        name: "table of segments",
        told_at: 0x20,
        offset: header.segments_offset,
        size: header.segment_size,
        item: 56,
        count: header.segment_count,
    }
}

fn section_place(header: &FileHeader) -> Place {
    Place {
        name: "table of sections",
        told_at: 0x28,
        offset: header.sections_offset,
        size: header.section_size,
        item: 64,
        count: header.section_count,
    }
}

/// The texts in which the names of the sections lie.
fn names_of<'a>(
    bytes: &'a [u8],
    header: &FileHeader,
    sections: &[Section],
) -> Result<Names<'a>, Failure> {
    if header.names == 0 {
        return Ok(Names::new(b""));
    }
    let Some(section) = sections.get(usize::from(header.names)) else {
        return Err(Broken::value(
            "section of names",
            usize::from(header.names),
            0x3e,
            "there is none",
        ));
    };
    match section_bytes(bytes, section) {
        Some(names) => Ok(Names::new(names)),
        None => Err(Broken::value(
            "section",
            usize::from(header.names),
            0x3e,
            "it does not lie in the file",
        )),
    }
}

/// Looks that each section has a name, where there are names.
fn check_names(header: &FileHeader, sections: &[Section], names: Names<'_>) -> Result<(), Failure> {
    if header.names == 0 {
        return Ok(());
    }
    for (number, section) in sections.iter().enumerate() {
        if !names.has(section.name as usize) {
            let at = section_at(header, number);
            return Err(Broken::value("section", number, at, "there is no such name"));
        }
    }
    Ok(())
}

fn machine_name(machine: u16) -> &'static str {
    match machine {
        8 => "MIPS",
        21 => "PowerPC",
        22 => "S/390",
        62 => "x86-64",
        183 => "AArch64",
        243 => "RISC-V",
        247 => "BPF",
        _ => "another machine",
    }
}

fn kind_name(kind: u16) -> &'static str {
    match kind {
        1 => "object",
        2 => "program",
        3 => "library or program",
        4 => "image of memory",
        _ => "file",
    }
}

fn show_header<W: Write + Drop>(
    out: &mut W,
    header: &FileHeader,
    order: Endianness,
) -> io::Result<()> {
    let order = match order {
        Endianness::LittleEndian => "little",
        Endianness::BigEndian => "big",
    };
    writeln!(
        out,
        "  {} ({}) for {} ({}), in {order} endian, entry {:#x}",
        kind_name(header.kind),
        header.kind,
        machine_name(header.machine),
        header.machine,
        header.entry
    )
}

impl ShowItem<()> for Segment {
    fn show<W: Write + Drop>(&self, out: &mut W, _beside: ()) -> io::Result<()> {
        writeln!(
            out,
            "    kind {:#x} flags {:#x} offset {:#x} size {:#x} address {:#x} {:#x} size {:#x} alignment {:#x}",
            self.kind,
            self.flags,
            self.offset,
            self.file_size,
            self.address,
            self.physical_address,
            self.memory_size,
            self.alignment
        )
    }
}

impl<'a> ShowItem<Names<'a>> for Section {
    fn show<W: Write + Drop>(&self, out: &mut W, names: Names<'a>) -> io::Result<()> {
        writeln!(
            out,
            "    kind {:#x} flags {:#x} offset {:#x} size {:#x} address {:#x} items {:#x} \
            link {} info {} alignment {:#x} {}",
            self.kind,
            self.flags,
            self.offset,
            self.size,
            self.address,
            self.entry_size,
            self.link,
            self.info,
            self.alignment,
            Text(names.get(self.name as usize))
        )
    }
}
