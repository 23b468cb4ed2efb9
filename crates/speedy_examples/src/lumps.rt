//! A table that stands at an offset, in memory and in a file of any size.
use crate::wad::{Archive, Lump};
use speedy::device::Counted;
use speedy::readable::{BufferReader, StreamReader};
use speedy::{Error, LendingReader, LittleEndian, Readable};
use std::alloc::Global;
use std::fs::{File, Files};
use std::io::{Seek, SeekFrom};

/// The bytes of an archive from an offset on.
fn bytes_from<'a>(alloc: Global, bytes: &'a [u8], offset: u32) -> Result<&'a [u8], Error> {
    let offset = offset as usize;
    if offset > bytes.len() {
        return Err(Error::custom(alloc, "an offset past the end"));
    }
    Ok(&bytes[offset..])
}

/// The table of an archive that is in memory.
pub fn lumps(alloc: Global, bytes: &[u8]) -> Result<Vec<Lump>, Error> {
    let archive = <Archive as Readable<LittleEndian>>::read_from_buffer(alloc, bytes)?;
    let table = bytes_from(alloc, bytes, archive.table)?;
    let mut reader = BufferReader::new(alloc, LittleEndian {}, table);
    reader.read_vec(archive.count as usize)
}

/// The content of a lump, where it lies in the archive.
pub fn content<'a>(alloc: Global, bytes: &'a [u8], lump: &Lump) -> Result<&'a [u8], Error> {
    let rest = bytes_from(alloc, bytes, lump.offset)?;
    let size = lump.size as usize;
    if size > rest.len() {
        return Err(Error::custom(alloc, "a lump past the end"));
    }
    Ok(&rest[..size])
}

/// The table of an archive in a file, of which nothing else is read.
pub fn lumps_of_file<R: Files>(rt: &R, alloc: Global, path: &str) -> Result<Vec<Lump>, Error> {
    let mut file = match File::open(rt, path) {
        Ok(file) => file,
        Err(error) => return Err(Error::from_io_error(alloc, error)),
    };
    let archive = {
        let mut source = Counted::new(&mut file);
        <Archive as Readable<LittleEndian>>::read_from_stream_unbuffered(alloc, &mut source)?
    };
    match file.seek(SeekFrom::Start(u64::from(archive.table))) {
        Ok(_) => {}
        Err(error) => return Err(Error::from_io_error(alloc, error)),
    }
    let mut source = Counted::new(&mut file);
    let mut reader = StreamReader::new(alloc, LittleEndian {}, &mut source, true)?;
    reader.read_vec(archive.count as usize)
}
