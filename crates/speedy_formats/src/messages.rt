//! Messages of RTPS, read and written again.
ghost use Rattle.std.specs.Prelude.{◌⊎◌, IfOk, IfErr};
ghost use Rattle.speedy.specs.Error.{error_of};
ghost use Rattle.speedy.specs.Prefixes.{BeginsWith, BeginsWithNone};

use crate::rtps::{AckNack, DataStart, Frame, Header, Heartbeat, Parameter, Timestamp};
use speedy::error::ErrorKind;
use speedy::laws::refused_is_none;
use speedy::private::error_out_of_memory;
use speedy::{Buffer, Context, Endianness, Error, Layout, ReadFrom, Writable};
use std::alloc::Global;

/// The kind of the parameter that ends a list, and the flags of a submessage that say it has such a list, and that its
/// time is left out.
const SENTINEL: u16 = 1;

const HAS_LIST: u8 = 2;

const NO_TIME: u8 = 2;

/// A message (section 8.3.3).
#[derive(Drop)]
pub struct Message<'a> {
    pub header: Header,
    pub submessages: Vec<Submessage<'a>>,
}

/// A submessage, and what its body says.
#[derive(Drop)]
pub struct Submessage<'a> {
    pub order: Endianness,
    pub frame: Frame<'a>,
    pub body: Body<'a>,
    /// The bytes of the body after what was read.
    pub rest: &'a [u8],
}

/// What the body of a submessage says.
#[derive(Drop)]
pub enum Body<'a> {
    AckNack(AckNack),
    Heartbeat(Heartbeat),
    Time(Timestamp),
    Data {
        start: DataStart<'a>,
        parameters: Vec<Parameter<'a>>,
    },
    Other,
}

/// Why bytes are no message, and how many of them come before the fault.
#[derive(Drop)]
pub struct Fault {
    /// How many submessages come before it.
    pub submessage: usize,
    pub at: usize,
    pub error: Error,
}

/// The value that the bytes begin with, and the bytes after it.
pub fn read_front<'a, C: Context, T: ReadFrom<&'a [u8], C>>(
    alloc: Global,
    context: C,
    bytes: &'a [u8],
) -> Result<(T, &'a [u8]), C::Error>
    ensures front { let format = T.layout.format (C.mode context) in
        IfOk result (λ it. BeginsWith format (T.seen it.0) bytes.now it.1.now) }
    ensures refused { let format = T.layout.format (C.mode context) in
        IfErr result (λ e. C.Error.from_gives (error_of ErrorKind.OutOfMemory) e ⊎ BeginsWithNone format bytes.now) }
{
    refused_is_none::<T, C>();
    let (outcome, size) = bytes.read_with_length::<T>(alloc, context);
    match outcome {
        Ok(value) => Ok((value, bytes.split_at(size).1)),
        Err(error) => Err(error),
    }
}

/// The byte order that the flags of a submessage tell.
fn order_of(flags: u8) -> Endianness {
    if flags & 1 == 1 {
        Endianness::LittleEndian
    } else {
        Endianness::BigEndian
    }
}

/// The parameters up to the one that ends them, and the bytes after it.
pub(crate) fn read_parameters<'a>(
    alloc: Global,
    order: Endianness,
    bytes: &'a [u8],
) -> Result<(Vec<Parameter<'a>>, &'a [u8]), Error> {
    let mut parameters = Vec::new(alloc);
    let mut left = bytes;
    for _i in 0..u64::MAX {
        let (parameter, behind) = read_front::<_, Parameter<'a>>(alloc, order, left)?;
        let is_last = parameter.kind == SENTINEL;
        parameters.push(parameter)?;
        left = behind;
        if is_last {
            break;
        }
    }
    Ok((parameters, left))
}

/// What the body of DATA says, and the payload after it.
fn read_data<'a>(
    alloc: Global,
    order: Endianness,
    frame: &Frame<'a>,
) -> Result<(Body<'a>, &'a [u8]), Error> {
    let (start, rest) = read_front::<_, DataStart<'a>>(alloc, order, frame.body)?;
    if frame.flags & HAS_LIST == 0 {
        let parameters = Vec::new(alloc);
        return Ok((Body::Data { start, parameters }, rest));
    }
    let (parameters, payload) = read_parameters(alloc, order, rest)?;
    Ok((Body::Data { start, parameters }, payload))
}

/// What the body of a submessage says, and the bytes after that.
fn read_body<'a>(
    alloc: Global,
    order: Endianness,
    frame: &Frame<'a>,
) -> Result<(Body<'a>, &'a [u8]), Error> {
    match frame.kind {
        0x06 => {
            let (value, rest) = read_front::<_, AckNack>(alloc, order, frame.body)?;
            Ok((Body::AckNack(value), rest))
        }
        0x07 => {
            let (value, rest) = read_front::<_, Heartbeat>(alloc, order, frame.body)?;
            Ok((Body::Heartbeat(value), rest))
        }
        0x09 if frame.flags & NO_TIME == 0 => {
            let (value, rest) = read_front::<_, Timestamp>(alloc, order, frame.body)?;
            Ok((Body::Time(value), rest))
        }
        0x15 => read_data(alloc, order, frame),
        _ => Ok((Body::Other, frame.body)),
    }
}

/// The submessage that the bytes begin with, and the bytes after it.
fn read_submessage<'a>(
    alloc: Global,
    bytes: &'a [u8],
) -> Result<(Submessage<'a>, &'a [u8]), Error> {
    let order = match bytes.get(1) {
        Some(flags) => order_of(*flags),
        None => Endianness::LittleEndian,
    };
    let (frame, behind) = read_front::<_, Frame<'a>>(alloc, order, bytes)?;
    let (mut frame, mut behind) = (frame, behind);
    // A size of 0 means all bytes that are left, but of PAD and INFO_TS (section 9.4.5.1.3).
    if frame.size == 0 && frame.kind != 0x01 && frame.kind != 0x09 {
        frame.body = behind;
        behind = &[];
    }
    let (body, rest) = read_body(alloc, order, &frame)?;
    let submessage = Submessage {
        order,
        frame,
        body,
        rest,
    };
    Ok((submessage, behind))
}

/// The message that the bytes are.
pub(crate) fn read_message<'a>(alloc: Global, bytes: &'a [u8]) -> Result<Message<'a>, Fault> {
    let (header, rest) = match read_front::<_, Header>(alloc, Endianness::BigEndian, bytes) {
        Ok(front) => front,
        Err(error) => return Err(Fault {
            submessage: 0,
            at: 0,
            error,
        }),
    };
    let mut left = rest;
    let mut submessages = Vec::new(alloc);
    for submessage in 0..usize::MAX {
        if left.is_empty() {
            break;
        }
        let at = bytes.len().saturating_sub(left.len());
        let (read, behind) = match read_submessage(alloc, left) {
            Ok(front) => front,
            Err(error) => return Err(Fault {
                submessage,
                at,
                error,
            }),
        };
        left = behind;
        if submessages.push(read).is_err() {
            return Err(Fault {
                submessage,
                at,
                error: error_out_of_memory(),
            });
        }
    }
    Ok(Message {
        header,
        submessages,
    })
}

/// Puts the bytes of a value after others.
fn put<T: Writable<Endianness>>(
    alloc: Global,
    order: Endianness,
    value: &T,
    bytes: &mut Vec<u8>,
) -> Result<(), Error> {
    let more = value.write_to_vec_with_ctx(alloc, order)?;
    bytes.extend_from_slice(&more)?;
    Ok(())
}

/// Puts the bytes of a submessage after others.
fn put_submessage(
    alloc: Global,
    submessage: &Submessage<'_>,
    bytes: &mut Vec<u8>,
) -> Result<(), Error> {
    let order = submessage.order;
    let frame = &submessage.frame;
    put(alloc, order, &(frame.kind, frame.flags, frame.size), bytes)?;
    match &submessage.body {
        Body::AckNack(value) => put(alloc, order, value, bytes)?,
        Body::Heartbeat(value) => put(alloc, order, value, bytes)?,
        Body::Time(value) => put(alloc, order, value, bytes)?,
        Body::Data { start, parameters } => {
            put(alloc, order, start, bytes)?;
            for parameter in parameters {
                put(alloc, order, parameter, bytes)?;
            }
        }
        Body::Other => {}
    }
    bytes.extend_from_slice(submessage.rest)?;
    Ok(())
}

/// The bytes of a message.
pub(crate) fn message_bytes(alloc: Global, message: &Message<'_>) -> Result<Vec<u8>, Error> {
    let mut bytes = message
        .header
        .write_to_vec_with_ctx(alloc, Endianness::BigEndian)?;
    for submessage in &message.submessages {
        put_submessage(alloc, submessage, &mut bytes)?;
    }
    Ok(bytes)
}
