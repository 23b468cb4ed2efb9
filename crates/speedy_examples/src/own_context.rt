//! A context of one's own: a byte order, and what a program has agreed on with its peer.
ghost use Rattle.std.proofs.Common.{ap};
ghost use Rattle.speedy.specs.Error.{is_eof_error};
ghost use Rattle.speedy.specs.Mode.{plain_mode};

use speedy::readable::BufferReader;
use speedy::{Context, Endianness, Error, LendingReader};

/// What both sides have agreed on.
#[derive(Debug, Clone, Copy)]
pub struct Agreed {
    pub order: Endianness,
    pub version: u16,
}

impl Context for Agreed {
    type Error = Error;

    ghost mode = { λ it. plain_mode it.order };

    ghost keeps_eof = { λ e x h. ap is_eof_error h };

    fn endianness(&self) -> Endianness {
        self.order
    }

    fn demands_written_form(&self) -> bool {
        false
    }
}

/// A number, a name, and a mail address, which version 1 did not have.
pub type Person = (u16, String, Option<String>);

/// The next person, in the version that was agreed on.
pub fn read_person(reader: &mut BufferReader<'_, Agreed>) -> Result<Person, Error> {
    let (number, name) = reader.read_value()?;
    let mail = if reader.context().version >= 2 {
        reader.read_value()?
    } else {
        None
    };
    Ok((number, name, mail))
}
