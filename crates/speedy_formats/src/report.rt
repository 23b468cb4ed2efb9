//! What the program says of a file that it cannot show, and how it prints lists.
use speedy::readable::BufferReader;
use speedy::{Endianness, Error, LendingReader, ReadFrom};
use std::alloc::{AllocError, Global};
use std::fmt;
use std::io::{self, Write};

/// Why a file is not shown.
#[derive(Drop)]
pub(crate) enum Failure {
    /// It was not read.
    Unread(io::Error),
    /// No format that the program knows begins so.
    Unknown,
    /// A part of it is broken.
    Broken(Broken),
    /// A line was not printed.
    Print(io::Error),
}

/// Which part of a file is broken, and where.
#[derive(Drop)]
pub(crate) struct Broken {
    pub part: &'static str,
    /// How many such parts come before it, where a file has many.
    pub number: Option<usize>,
    /// How many bytes come before the fault.
    pub at: usize,
    pub fault: Fault,
}

/// What is wrong with a part.
#[derive(Drop)]
pub(crate) enum Fault {
    /// The bytes encode no value.
    Bytes(Error),
    /// A value is none that the format has there.
    Value(&'static str),
}

impl Broken {
    /// A part whose bytes encode no value.
    pub(crate) fn bytes(part: &'static str, at: usize, error: Error) -> Failure {
        Failure::Broken(Broken {
            part,
            number: None,
            at,
            fault: Fault::Bytes(error),
        })
    }

    /// One of several parts, whose bytes encode no value.
    pub(crate) fn bytes_of(part: &'static str, number: usize, at: usize, error: Error) -> Failure {
        Failure::Broken(Broken {
            part,
            number: Some(number),
            at,
            fault: Fault::Bytes(error),
        })
    }

    /// One of several parts, whose value is none that the format has there.
    pub(crate) fn value(
        part: &'static str,
        number: usize,
        at: usize,
        fault: &'static str,
    ) -> Failure {
        Failure::Broken(Broken {
            part,
            number: Some(number),
            at,
            fault: Fault::Value(fault),
        })
    }
}

impl Failure {
    /// The failure of a file in which so many bytes stand for one, after others.
    pub(crate) fn moved(self, width: usize, before: usize) -> Failure {
        match self {
            Failure::Broken(broken) => Failure::Broken(Broken {
                at: broken.at.saturating_mul(width).saturating_add(before),
                ..broken
            }),
            other => other,
        }
    }
}

/// What was read as a part of this name, or that it is broken, at a byte.
pub(crate) fn part_read<T: Drop>(
    part: &'static str,
    at: usize,
    outcome: Result<T, Error>,
) -> Result<T, Failure> {
    match outcome {
        Ok(value) => Ok(value),
        Err(error) => Err(Broken::bytes(part, at, error)),
    }
}

impl From<io::Error> for Failure {
    fn from(error: io::Error) -> Failure {
        Failure::Print(error)
    }
}

impl From<AllocError> for Failure {
    fn from(_error: AllocError) -> Failure {
        Failure::Print(io::Error::from(io::ErrorKind::OutOfMemory))
    }
}

impl fmt::Display for Fault {
    fn fmt<W: fmt::Write>(&self, f: &mut fmt::Formatter<W>) -> fmt::Result {
        match self {
            Fault::Bytes(error) => write!(f, "{error}"),
            Fault::Value(text) => f.write_str(text),
        }
    }
}

impl fmt::Display for Broken {
    fn fmt<W: fmt::Write>(&self, f: &mut fmt::Formatter<W>) -> fmt::Result {
        let part = self.part;
        let at = self.at;
        match self.number {
            Some(number) => write!(f, "{part} {number}, at byte {at}: {}", self.fault),
            None => write!(f, "{part}, at byte {at}: {}", self.fault),
        }
    }
}

impl fmt::Display for Failure {
    fn fmt<W: fmt::Write>(&self, f: &mut fmt::Formatter<W>) -> fmt::Result {
        match self {
            Failure::Unread(error) => write!(f, "{error}"),
            Failure::Unknown => f.write_str("no format that is known, at byte 0"),
            Failure::Broken(broken) => write!(f, "{broken}"),
            Failure::Print(error) => write!(f, "{error}"),
        }
    }
}

/// Bytes as text: what is not printable ASCII is printed as two hexadecimal digits.
#[derive(Clone, Copy)]
pub(crate) struct Text<'a>(pub &'a [u8]);

impl<'a> fmt::Display for Text<'a> {
    fn fmt<W: fmt::Write>(&self, f: &mut fmt::Formatter<W>) -> fmt::Result {
        for byte in self.0 {
            let byte = *byte;
            if byte >= 0x20 && byte < 0x7f {
                f.write_char(char::from(byte))?;
            } else {
                write!(f, "\\x{byte:02x}")?;
            }
        }
        Ok(())
    }
}

/// Texts that end with a NUL each, one after another.
#[derive(Clone, Copy)]
pub(crate) struct Names<'a> {
    /// The bytes before the last NUL.
    texts: &'a [u8],
    has_any: bool,
}

impl<'a> Names<'a> {
    pub(crate) fn new(bytes: &'a [u8]) -> Names<'a> {
        match bytes.iter().rposition(|byte| *byte == 0) {
            Some(last) => Names {
                texts: bytes.get(..last).unwrap_or(bytes),
                has_any: true,
            },
            None => Names {
                texts: &bytes[..0],
                has_any: false,
            },
        }
    }

    /// Whether a text begins at a place.
    pub(crate) fn has(self, at: usize) -> bool {
        self.has_any && at <= self.texts.len()
    }

    /// The text from a place on, or none where none begins there.
    pub(crate) fn get(self, at: usize) -> &'a [u8] {
        let rest = self.texts.get(at..).unwrap_or(&self.texts[..0]);
        let size = rest
            .iter()
            .position(|byte| *byte == 0)
            .unwrap_or(rest.len());
        rest.get(..size).unwrap_or(rest)
    }
}

/// What stands in a list that is shown.
pub(crate) trait ShowItem<K: Copy> {
    /// Shows it in a line, beside what tells more of it, as the names of all items.
    fn show<W: Write + Drop>(&self, out: &mut W, beside: K) -> io::Result<()>;
}

/// Shows how many items a list has, between two words, and the first of them, so many at most.
pub(crate) fn show_items<W: Write + Drop, K: Copy, T: ShowItem<K>>(
    out: &mut W,
    (before, behind): (&str, &str),
    items: &[T],
    beside: K,
    most: usize,
) -> io::Result<()> {
    writeln!(out, "{before}{}{behind}", items.len())?;
    for item in first(items, most) {
        item.show(out, beside)?;
    }
    write_rest(out, items.len(), most)
}

/// The first items of a list, so many at most.
pub(crate) fn first<T>(items: &[T], most: usize) -> &[T] {
    items.get(..most).unwrap_or(items)
}

/// How many items of a list are not printed where so many are: a line says it.
pub(crate) fn write_rest<W: Write + Drop>(
    out: &mut W,
    count: usize,
    most: usize,
) -> io::Result<()> {
    if count > most {
        writeln!(out, "    .. and {} more", count - most)?;
    }
    Ok(())
}

/// Says whether what was read is written again as the bytes that it was read from.
pub(crate) fn write_again<W: Write + Drop>(
    out: &mut W,
    written: Result<Vec<u8>, Error>,
    bytes: &[u8],
) -> Result<(), Failure> {
    match written {
        Ok(again) if again.as_slice() == bytes => writeln!(out, "  written again: the same bytes")?,
        Ok(_) => writeln!(out, "  written again: other bytes")?,
        Err(error) => writeln!(out, "  not written again: {error}")?,
    }
    Ok(())
}

/// How many values stand before the first one that is broken, and how many bytes before its fault.
pub(crate) fn pass_values<'a, T: ReadFrom<&'a [u8], Endianness> + Drop>(
    alloc: Global,
    order: Endianness,
    bytes: &'a [u8],
) -> (usize, usize) {
    let mut reader = BufferReader::new(alloc, order, bytes);
    for count in 0..usize::MAX {
        if reader.len() == 0 || reader.read_value::<T>().is_err() {
            return (count, bytes.len().saturating_sub(reader.len()));
        }
    }
    (usize::MAX, bytes.len())
}
