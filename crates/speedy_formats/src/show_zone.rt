//! What a time zone file holds, much as `zdump` prints it.
use crate::report::{
    Broken, Failure, Names, ShowItem, Text, first, show_items, write_again, write_rest,
};
use crate::times::{Moment, Offset};
use crate::tzif::{Block, LocalType};
use crate::zones::{broken_part, old_zone_bytes, read_old_zone, read_zone, zone_bytes};
use speedy::Error;
use std::alloc::Global;
use std::fmt;
use std::io::{self, Write};

/// Says what a time zone file holds.
pub(crate) fn show_zone<W: Write + Drop>(
    alloc: Global,
    out: &mut W,
    bytes: &[u8],
    most: usize,
) -> Result<(), Failure> {
    if bytes.get(4) == Some(&0) {
        return match read_old_zone(alloc, bytes) {
            Ok(block) => show_old_zone(alloc, out, &block, bytes, most),
            Err(error) => Err(broken(alloc, bytes, error)),
        };
    }
    match read_zone(alloc, bytes) {
        Ok(zone) => {
            let footer = zone.footer.len();
            let Some((b'\n', rule)) = zone.footer.split_last() else {
                let fault = "no line feed ends it";
                return Err(Broken::value("footer", 1, bytes.len(), fault));
            };
            check_block(&zone.new, 8, bytes.len().saturating_sub(footer + 1))?;
            show_block(out, &zone.new, most)?;
            if !rule.is_empty() {
                writeln!(out, "  after these: {}", Text(rule))?;
            }
            write_again(out, zone_bytes(alloc, &zone), bytes)
        }
        Err(error) => Err(broken(alloc, bytes, error)),
    }
}

/// Says what a file of version 1 holds.
fn show_old_zone<W: Write + Drop>(
    alloc: Global,
    out: &mut W,
    block: &Block<i32>,
    bytes: &[u8],
    most: usize,
) -> Result<(), Failure> {
    check_block(block, 4, bytes.len())?;
    show_block(out, block, most)?;
    write_again(out, old_zone_bytes(alloc, block), bytes)
}

/// Where a file is broken that is not read.
fn broken(alloc: Global, bytes: &[u8], error: Error) -> Failure {
    let (part, at) = broken_part(alloc, bytes);
    Broken::bytes(part, at, error)
}

/// Looks that each change has a local type, and each of these a name. The times of the block have so many bytes, and
/// it ends at this byte of the file.
fn check_block<T>(block: &Block<T>, width: usize, end: usize) -> Result<(), Failure> {
    let after_names = block
        .leaps
        .len()
        .saturating_mul(width.saturating_add(4))
        .saturating_add(block.standard.len())
        .saturating_add(block.universal.len());
    let names = end.saturating_sub(after_names.saturating_add(block.names.len()));
    let types = names.saturating_sub(block.types.len().saturating_mul(6));
    let texts = Names::new(&block.names);
    for (number, local) in block.types.iter().enumerate() {
        if !texts.has(usize::from(local.name)) {
            let at = types
                .saturating_add(number.saturating_mul(6))
                .saturating_add(5);
            return Err(Broken::value("local type", number, at, "there is no such name"));
        }
    }
    let kinds = types.saturating_sub(block.kinds.len());
    for (number, kind) in block.kinds.iter().enumerate() {
        if usize::from(*kind) >= block.types.len() {
            let fault = "there is no such local type";
            return Err(Broken::value("change", number, kinds.saturating_add(number), fault));
        }
    }
    Ok(())
}

/// A local type: an offset, a name, and whether it is daylight saving time.
#[derive(Clone, Copy)]
struct Local<'a> {
    names: Names<'a>,
    local: Option<&'a LocalType>,
}

impl<'a> fmt::Display for Local<'a> {
    fn fmt<W: fmt::Write>(&self, f: &mut fmt::Formatter<W>) -> fmt::Result {
        let Some(local) = self.local else {
            return write!(f, "?");
        };
        let name = Text(self.names.get(usize::from(local.name)));
        let daylight = if local.is_daylight == 0 {
            ""
        } else {
            " daylight"
        };
        write!(f, "{} {name}{daylight}", Offset(local.offset))
    }
}

impl<'a> ShowItem<Names<'a>> for LocalType {
    fn show<W: Write + Drop>(&self, out: &mut W, names: Names<'a>) -> io::Result<()> {
        let local = Some(self);
        writeln!(out, "    {}", Local { names, local })
    }
}

/// Says what a block holds.
fn show_block<W: Write + Drop, T: Copy>(
    out: &mut W,
    block: &Block<T>,
    most: usize,
) -> io::Result<()>
where
    i64: From<T>,
{
    let names = Names::new(&block.names);
    show_items(
        out,
        ("  time zone, ", " local types"),
        &block.types,
        names,
        most,
    )?;
    show_changes(out, block, names, most)?;
    if !block.leaps.is_empty() {
        writeln!(out, "  {} leap seconds", block.leaps.len())?;
    }
    Ok(())
}

/// Says when the local time changes.
fn show_changes<W: Write + Drop, T: Copy>(
    out: &mut W,
    block: &Block<T>,
    names: Names<'_>,
    most: usize,
) -> io::Result<()>
where
    i64: From<T>,
{
    writeln!(out, "  {} changes", block.times.len())?;
    for (time, kind) in first(&block.times, most).iter().zip(&block.kinds) {
        let local = block.types.get(usize::from(*kind));
        let time = Moment(i64::from(*time));
        writeln!(out, "    {time} UTC {}", Local { names, local })?;
    }
    write_rest(out, block.times.len(), most)
}
