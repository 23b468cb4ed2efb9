//! Lines of the program: an order, the name of a type, and bytes in hexadecimal digits.
ghost use Rattle.std.specs.Prelude.{◌≡◌, ◌≢◌, MatchOption, MatchResult, List, ℕ};
ghost use Rattle.speedy.specs.Error.{error_of};
ghost use Rattle.speedy_lines.specs.declared.line.LineOrder.{LineOrder};
ghost use Rattle.speedy_lines.specs.Line.{order_text, IsHex, IsLine, IsBad};

use crate::names::{TypeName, name_of};
use crate::split::split_at;
use hex::FromHexError;
use speedy::Error;
use speedy::private::{ErrorKind, error_out_of_memory};
use std::alloc::Global;

/// The orders that the program knows: how numbers lie, and whether only canonical encodings are
/// read.
#[derive(Clone, Copy)]
pub enum LineOrder {
    /// `le`.
    LittleEndian,
    /// `be`.
    BigEndian,
    /// `sle`.
    StrictLittleEndian,
    /// `sbe`.
    StrictBigEndian,
}

/// A line of the form that the program answers.
#[derive(Drop)]
pub struct Line {
    /// The order under which the bytes are read and written again.
    pub order: LineOrder,
    /// The type that the bytes are read as.
    pub name: TypeName,
    /// The bytes.
    pub bytes: Vec<u8>,
}

// The order that a field names.
fn order_of(field: &[u8]) -> Option<LineOrder>
    ensures { MatchOption result ((order : LineOrder) → field.now ≢ order_text order)
        (λ order. field.now ≡ order_text order) }
{
    match field {
        b"le" => Some(LineOrder::LittleEndian),
        b"be" => Some(LineOrder::BigEndian),
        b"sle" => Some(LineOrder::StrictLittleEndian),
        b"sbe" => Some(LineOrder::StrictBigEndian),
        _ => None,
    }
}

// The bytes that a field of hexadecimal digits says.
fn bytes_from_hex(alloc: Global, hex: &[u8]) -> Result<Option<Vec<u8>>, Error>
    ensures { MatchResult result
        (λ found. MatchOption found ((bytes : List ℕ) → IsHex hex.now bytes → ⊥)
        (λ v. IsHex hex.now v.items))
        (λ e. e ≡ error_of ErrorKind.OutOfMemory) }
{
    match hex {
        b"-" => Ok(Some(Vec::new(alloc))),
        [] => Ok(None),
        _ => match hex::decode(alloc, hex) {
            Ok(bytes) => Ok(Some(bytes)),
            Err(FromHexError::OutOfMemory) => Err(error_out_of_memory()),
            Err(_) => Ok(None),
        },
    }
}

/// What a line says, or `None` where it is not of the form. The only error is out of memory.
pub fn parse_line(alloc: Global, line: &[u8]) -> Result<Option<Line>, Error>
    ensures { MatchResult result
        (λ found. MatchOption found (IsBad line.now)
        (λ l. IsLine line.now l.order l.name l.bytes.items))
        (λ e. e ≡ error_of ErrorKind.OutOfMemory) }
{
    let Some((order, rest)) = split_at(line, b' ') else {
        return Ok(None);
    };
    let Some((name, hex)) = split_at(rest, b' ') else {
        return Ok(None);
    };
    let Some(order) = order_of(order) else {
        return Ok(None);
    };
    let Some(name) = name_of(name) else {
        return Ok(None);
    };
    match bytes_from_hex(alloc, hex)? {
        Some(bytes) => Ok(Some(Line { order, name, bytes })),
        None => Ok(None),
    }
}
