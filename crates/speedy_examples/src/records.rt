//! A file of records, one after the other.
use speedy::device::Counted;
use speedy::error::{ErrorKind, get_error_kind};
use speedy::private::write_to_stream_and_flush_with_ctx;
use speedy::readable::StreamReader;
use speedy::{Error, LendingReader, LittleEndian};
use std::alloc::Global;
use std::fs::{File, Files, OpenOptions};

/// A record, for which your own type may stand.
pub type Record = (u16, String);

/// Puts a record after those that a file has. The file is made where there is none.
pub fn append<R: Files>(rt: &R, alloc: Global, path: &str, record: &Record) -> Result<(), Error> {
    match OpenOptions::new().append(true).create(true).open(rt, path) {
        Ok(file) => {
            let mut sink = Counted::new(file);
            write_to_stream_and_flush_with_ctx(record, alloc, LittleEndian {}, &mut sink)
        }
        Err(error) => Err(Error::from_io_error(alloc, error)),
    }
}

/// All records of a file.
pub fn read_all<R: Files>(rt: &R, alloc: Global, path: &str) -> Result<Vec<Record>, Error> {
    let mut source = match File::open(rt, path) {
        Ok(file) => Counted::new(file),
        Err(error) => return Err(Error::from_io_error(alloc, error)),
    };
    let mut reader = StreamReader::new(alloc, LittleEndian {}, &mut source, true)?;
    let mut records = Vec::new(alloc);
    for _i in 0..u64::MAX {
        match reader.peek_u8() {
            Ok(_) => records.push(reader.read_value()?)?,
            Err(error) => match get_error_kind(&error) {
                ErrorKind::UnexpectedEndOfInput => break,
                _ => return Err(error),
            },
        }
    }
    Ok(records)
}
