//! What the program is asked: a format, how long lists are, and files.
use crate::captures::order_of;
use std::alloc::Global;
use std::env::Args;
use std::io;

/// A format that the program knows.
#[derive(Clone, Copy)]
pub(crate) enum Format {
    Zone,
    Png,
    Pcap,
    Wav,
    Zip,
    Elf,
    Rtps,
}

/// A file that the program is asked of, with its format where one was said.
#[derive(Drop)]
pub(crate) struct Asked {
    pub format: Option<Format>,
    pub path: String,
}

/// What the program is asked.
#[derive(Drop)]
pub(crate) struct Request {
    /// How many items of a list are printed.
    pub most: usize,
    pub files: Vec<Asked>,
}

/// The format of a word.
fn format_named(word: &str) -> Option<Format> {
    match word {
        "zone" => Some(Format::Zone),
        "png" => Some(Format::Png),
        "pcap" => Some(Format::Pcap),
        "wav" => Some(Format::Wav),
        "zip" => Some(Format::Zip),
        "elf" => Some(Format::Elf),
        "rtps" => Some(Format::Rtps),
        _ => None,
    }
}

/// The format that the first bytes tell.
pub(crate) fn format_of(bytes: &[u8]) -> Option<Format> {
    if bytes.starts_with(b"TZif") {
        return Some(Format::Zone);
    }
    if bytes.starts_with(b"\x89PNG") {
        return Some(Format::Png);
    }
    if order_of(bytes).is_some() {
        return Some(Format::Pcap);
    }
    if bytes.starts_with(b"RIFF") {
        return Some(Format::Wav);
    }
    if bytes.starts_with(b"PK") {
        return Some(Format::Zip);
    }
    if bytes.starts_with(b"\x7fELF") {
        return Some(Format::Elf);
    }
    if bytes.starts_with(b"RTPS") || bytes.starts_with(b"52545053") {
        return Some(Format::Rtps);
    }
    None
}

/// What the arguments of the program ask. The first one is its name.
pub(crate) fn parse_request(alloc: Global, arguments: Args) -> io::Result<Request> {
    let mut most = 5;
    let mut format = None;
    let mut files = Vec::new(alloc);
    for path in arguments.skip(1) {
        match path.as_str() {
            "all" => most = usize::MAX,
            word => match format_named(word) {
                Some(named) => format = Some(named),
                None => files.push(Asked { format, path })?,
            },
        }
    }
    Ok(Request { most, files })
}
