//! What messages of RTPS say: one of bytes, or several as lines of hexadecimal digits.
use crate::messages::{
    Body, Message, Submessage, message_bytes, read_front, read_message, read_parameters,
};
use crate::report::{Broken, Failure, Text, first, write_again, write_rest};
use crate::rtps::{CdrText, Parameter, SequenceNumber};
use crate::times::Moment;
use speedy::Endianness;
use std::alloc::Global;
use std::fmt;
use std::io::{self, Write};

/// Bytes as hexadecimal digits.
#[derive(Clone, Copy)]
struct Digits<'a>(&'a [u8]);

impl<'a> fmt::Display for Digits<'a> {
    fn fmt<W: fmt::Write>(&self, f: &mut fmt::Formatter<W>) -> fmt::Result {
        for byte in self.0 {
            write!(f, "{byte:02x}")?;
        }
        Ok(())
    }
}

impl fmt::Display for SequenceNumber {
    fn fmt<W: fmt::Write>(&self, f: &mut fmt::Formatter<W>) -> fmt::Result {
        write!(
            f,
            "{}",
            i64::from(self.high) * 0x1_0000_0000 + i64::from(self.low)
        )
    }
}

/// The number of a hexadecimal digit.
fn digit(byte: u8) -> Option<u8> {
    match byte {
        b'0'..=b'9' => Some(byte - b'0'),
        b'a'..=b'f' => Some(byte - b'a' + 10),
        _ => None,
    }
}

/// The bytes of a line of digits.
fn bytes_of_line(alloc: Global, line: &[u8]) -> Option<Vec<u8>> {
    let mut bytes = Vec::new(alloc);
    for pair in line.chunks(2) {
        let (high, low) = (digit(*pair.first()?)?, digit(*pair.get(1)?)?);
        bytes.push((high << 4) | low).ok()?;
    }
    Some(bytes)
}

/// Says what a file of messages holds.
pub(crate) fn show_rtps<W: Write + Drop>(
    alloc: Global,
    out: &mut W,
    bytes: &[u8],
    most: usize,
) -> Result<(), Failure> {
    if bytes.starts_with(b"RTPS") {
        return show_message(alloc, out, bytes, most);
    }
    let mut at = 0usize;
    for (number, line) in bytes.split(|byte| *byte == b'\n').enumerate() {
        if !line.is_empty() {
            let Some(message) = bytes_of_line(alloc, line) else {
                return Err(Broken::value("line", number, at, "it is no hexadecimal digits"));
            };
            match show_message(alloc, out, &message, most) {
                Ok(()) => {}
                // Two digits stand for a byte.
                Err(failure) => return Err(failure.moved(2, at)),
            }
        }
        at = at.saturating_add(line.len()).saturating_add(1);
    }
    Ok(())
}

/// Says what a message holds.
fn show_message<W: Write + Drop>(
    alloc: Global,
    out: &mut W,
    bytes: &[u8],
    most: usize,
) -> Result<(), Failure> {
    let message = match read_message(alloc, bytes) {
        Ok(message) => message,
        Err(fault) => return Err(Broken::bytes_of(
            "submessage",
            fault.submessage,
            fault.at,
            fault.error,
        )),
    };
    show_header(out, &message)?;
    for submessage in first(&message.submessages, most) {
        show_submessage(alloc, out, submessage)?;
    }
    write_rest(out, message.submessages.len(), most)?;
    write_again(out, message_bytes(alloc, &message), bytes)
}

fn show_header<W: Write + Drop>(out: &mut W, message: &Message<'_>) -> io::Result<()> {
    let header = &message.header;
    writeln!(
        out,
        "  RTPS {}.{}, vendor {}, participant {}, {} submessages",
        header.major,
        header.minor,
        Digits(&header.vendor),
        Digits(&header.participant),
        message.submessages.len()
    )
}

/// The name of a kind of submessages (section 9.4.5.1.1).
fn kind_name(kind: u8) -> &'static str {
    match kind {
        0x01 => "PAD",
        0x06 => "ACKNACK",
        0x07 => "HEARTBEAT",
        0x08 => "GAP",
        0x09 => "INFO_TS",
        0x0c => "INFO_SRC",
        0x0e => "INFO_DST",
        0x12 => "NACK_FRAG",
        0x13 => "HEARTBEAT_FRAG",
        0x15 => "DATA",
        0x16 => "DATA_FRAG",
        _ => "unknown",
    }
}

fn show_submessage<W: Write + Drop>(
    alloc: Global,
    out: &mut W,
    submessage: &Submessage<'_>,
) -> io::Result<()> {
    let frame = &submessage.frame;
    writeln!(
        out,
        "    {} {:#x} flags {:#x}, {} bytes{}, {} more",
        kind_name(frame.kind),
        frame.kind,
        frame.flags,
        frame.body.len(),
        submessage.body,
        submessage.rest.len()
    )?;
    if matches!(&submessage.body, Body::Data { .. }) {
        show_payload(alloc, out, submessage.rest)?;
    }
    Ok(())
}

impl<'a> fmt::Display for Body<'a> {
    fn fmt<W: fmt::Write>(&self, f: &mut fmt::Formatter<W>) -> fmt::Result {
        match self {
            Body::AckNack(it) => write!(
                f,
                ": {} to {}, {} bits from {}, {}",
                Digits(&it.reader),
                Digits(&it.writer),
                it.lacking.bits,
                it.lacking.base,
                it.count
            ),
            Body::Heartbeat(it) => write!(
                f,
                ": {} to {}, {} to {}, {}",
                Digits(&it.writer),
                Digits(&it.reader),
                it.first,
                it.last,
                it.count
            ),
            Body::Time(it) => write!(
                f,
                ": {} UTC and {:#x}",
                Moment(i64::from(it.seconds)),
                it.fraction
            ),
            Body::Data { start, parameters } => write!(
                f,
                ": {} to {}, number {}, {} parameters",
                Digits(&start.writer),
                Digits(&start.reader),
                start.number,
                parameters.len()
            ),
            Body::Other => Ok(()),
        }
    }
}

/// Says the names that a payload tells, where it is a list of parameters (section 9.4.2.11): of a topic, of its type,
/// and of an entity.
fn show_payload<W: Write + Drop>(alloc: Global, out: &mut W, payload: &[u8]) -> io::Result<()> {
    let order = match payload.get(..4) {
        Some([0, 2, _, _]) => Endianness::BigEndian,
        Some([0, 3, _, _]) => Endianness::LittleEndian,
        _ => return Ok(()),
    };
    let list = payload.get(4..).unwrap_or(b"");
    let Ok((parameters, _)) = read_parameters(alloc, order, list) else {
        return writeln!(out, "      parameters that are broken");
    };
    for parameter in &parameters {
        show_parameter(alloc, out, order, parameter)?;
    }
    Ok(())
}

/// A text without the NUL that ends it.
fn without_nul(text: &[u8]) -> &[u8] {
    match text.split_last() {
        Some((0, name)) => name,
        _ => text,
    }
}

/// Says a name that a parameter tells.
fn show_parameter<W: Write + Drop>(
    alloc: Global,
    out: &mut W,
    order: Endianness,
    parameter: &Parameter<'_>,
) -> io::Result<()> {
    let what = match parameter.kind {
        0x05 => "topic",
        0x07 => "type",
        0x62 => "name",
        _ => return Ok(()),
    };
    match read_front::<_, CdrText<'_>>(alloc, order, parameter.value) {
        Ok((name, _)) => writeln!(out, "      {what} {}", Text(without_nul(name.text))),
        Err(error) => writeln!(out, "      {what}: {error}"),
    }
}
