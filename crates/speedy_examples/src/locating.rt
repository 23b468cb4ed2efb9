//! Where a list of entries is broken.
use speedy::readable::BufferReader;
use speedy::{Error, LendingReader, LittleEndian};
use std::alloc::Global;

/// An entry, for which your own type may stand.
pub type Entry = (u16, String);

/// Where entries are broken. Places are numbers of bytes from the start.
#[derive(Debug, Drop)]
pub struct Broken {
    /// How many entries come before it.
    pub entry: u64,
    /// Where the entry begins.
    pub begins: usize,
    /// How far was read. The fault lies in what was read last, or right after it.
    pub reached: usize,
    /// What is wrong.
    pub error: Error,
}

/// The entries that the bytes are, or where the first broken one stands.
pub fn entries(alloc: Global, bytes: &[u8]) -> Result<Vec<Entry>, Broken> {
    let mut reader = BufferReader::new(alloc, LittleEndian {}, bytes);
    let mut entries = Vec::new(alloc);
    for entry in 0..u64::MAX {
        let begins = bytes.len().saturating_sub(reader.len());
        if reader.len() == 0 {
            break;
        }
        let read = match reader.read_value() {
            Ok(value) => entries.push(value).map_err(Error::from),
            Err(error) => Err(error),
        };
        if let Err(error) = read {
            let reached = bytes.len().saturating_sub(reader.len());
            return Err(Broken {
                entry,
                begins,
                reached,
                error,
            });
        }
    }
    Ok(entries)
}
