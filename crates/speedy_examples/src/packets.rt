//! The packets of a file, whose first number tells the byte order of the rest.
use crate::capture::{Capture, Packet};
use speedy::device::{Counted, Source};
use speedy::error::{ErrorKind, get_error_kind};
use speedy::readable::{BufferReader, StreamReader};
use speedy::{Endianness, Error, LendingReader};
use std::alloc::Global;
use std::fs::{File, Files};

/// The byte order in which the magic number was written.
fn order_of(alloc: Global, magic_in_little_endian: u32) -> Result<Endianness, Error> {
    match magic_in_little_endian {
        0xa1b2_c3d4 => Ok(Endianness::LittleEndian),
        0xd4c3_b2a1 => Ok(Endianness::BigEndian),
        _ => Err(Error::custom(alloc, "no file of packets")),
    }
}

/// The packets of a file that is in memory.
pub fn packets(alloc: Global, bytes: &[u8]) -> Result<Vec<Packet>, Error> {
    let mut reader = BufferReader::new(alloc, Endianness::LittleEndian, bytes);
    let order = order_of(alloc, reader.peek_u32()?)?;
    *reader.context_mut() = order;
    let _: Capture = reader.read_value()?;
    let mut packets = Vec::new(alloc);
    for _i in 0..u64::MAX {
        if reader.is_empty() {
            break;
        }
        packets.push(reader.read_value()?)?;
    }
    Ok(packets)
}

/// Whether a source has no byte left.
fn is_ended<S: Source>(reader: &mut StreamReader<'_, S, Endianness>) -> Result<bool, Error> {
    match reader.peek_u8() {
        Ok(_) => Ok(false),
        Err(error) => match get_error_kind(&error) {
            ErrorKind::UnexpectedEndOfInput => Ok(true),
            _ => Err(error),
        },
    }
}

/// How many packets a source has, one of them in memory at a time.
pub fn count_packets<S: Source>(alloc: Global, source: &mut S) -> Result<u64, Error> {
    let mut reader = StreamReader::new(alloc, Endianness::LittleEndian, source, true)?;
    let order = order_of(alloc, reader.peek_u32()?)?;
    *reader.context_mut() = order;
    let _: Capture = reader.read_value()?;
    for count in 0..u64::MAX {
        if is_ended(&mut reader)? {
            return Ok(count);
        }
        let _: Packet = reader.read_value()?;
    }
    Ok(u64::MAX)
}

/// How many packets a file has.
pub fn count_in_file<R: Files>(rt: &R, alloc: Global, path: &str) -> Result<u64, Error> {
    match File::open(rt, path) {
        Ok(file) => count_packets(alloc, &mut Counted::new(file)),
        Err(error) => Err(Error::from_io_error(alloc, error)),
    }
}
