//! The contexts of reads and writes: byte order, error, and whether only canonical encodings are read.
ghost use Rattle.std.specs.Prelude.{◌≡◌};
ghost use Rattle.std.proofs.Common.{ap};
ghost use Rattle.speedy_base.specs.Mode.{Mode, plain_mode, strict_mode};
ghost use Rattle.speedy_base.specs.Error.{is_eof_error, Error as Refusal};
ghost use Rattle.speedy_base.specs.declared.endianness.Endianness.TheVariants.{LittleEndian as LittleOrder};
ghost use Rattle.speedy_base.specs.declared.endianness.Endianness.TheVariants.{BigEndian as BigOrder};

use crate::endianness::Endianness;
use crate::error::{Error, IsEof};

/// The context of a read or a write: its byte order, its error, and whether only canonical encodings are read.
///
/// A context of your own gives its order, and an error that every [`Error`] converts to.
pub trait Context: Drop {
    /// The error of reads and writes under this context.
    type Error: From<Error> + IsEof + Drop;

    /// The mode of this context: the byte order, and whether only canonical encodings are read.
    ghost mode: { Self → Mode };

    /// The byte order of numbers.
    fn endianness(&self) -> Endianness
        ensures { result ≡ (mode self.now).order };

    /// Whether only canonical encodings are read. Any other encoding is then the error `NotWrittenForm`.
    fn demands_written_form(&self) -> bool
        ensures { result ≡ (mode self.now).strict };

    /// An end of input stays one when it is converted, and nothing else becomes one.
    ghost keeps_eof: { (e : Refusal) (x : Self.Error) → Self.Error.from_gives e x → Self.Error.eof x ≡ is_eof_error e };
}

/// The context of calls that take none.
pub trait PlainContext: Context {
    /// The context itself: little endian, and any encoding is read.
    fn plain() -> Self
        ensures { Self.mode result ≡ plain_mode Endianness.LittleEndian };
}

impl Context for Endianness {
    type Error = Error;

    ghost mode = { plain_mode };

    ghost keeps_eof = { λ e x h. ap is_eof_error h };

    #[inline(always)]
    fn endianness(&self) -> Endianness {
        *self
    }

    #[inline(always)]
    fn demands_written_form(&self) -> bool {
        false
    }
}

/// The context of little endian.
#[derive(Clone, Copy, Debug, Default, PartialEq, Eq)]
pub struct LittleEndian {}

/// The context of big endian.
#[derive(Clone, Copy, Debug, Default, PartialEq, Eq)]
pub struct BigEndian {}

impl Context for LittleEndian {
    type Error = Error;

    ghost mode = { λ _. plain_mode LittleOrder };

    ghost keeps_eof = { λ e x h. ap is_eof_error h };

    #[inline(always)]
    fn endianness(&self) -> Endianness {
        Endianness::LittleEndian
    }

    #[inline(always)]
    fn demands_written_form(&self) -> bool {
        false
    }
}

impl Context for BigEndian {
    type Error = Error;

    ghost mode = { λ _. plain_mode BigOrder };

    ghost keeps_eof = { λ e x h. ap is_eof_error h };

    #[inline(always)]
    fn endianness(&self) -> Endianness {
        Endianness::BigEndian
    }

    #[inline(always)]
    fn demands_written_form(&self) -> bool {
        false
    }
}

/// The context of little endian under which only canonical encodings are read.
#[derive(Clone, Copy, Debug, Default, PartialEq, Eq)]
pub struct StrictLittleEndian {}

/// The context of big endian under which only canonical encodings are read.
#[derive(Clone, Copy, Debug, Default, PartialEq, Eq)]
pub struct StrictBigEndian {}

impl Context for StrictLittleEndian {
    type Error = Error;

    ghost mode = { λ _. strict_mode LittleOrder };

    ghost keeps_eof = { λ e x h. ap is_eof_error h };

    #[inline(always)]
    fn endianness(&self) -> Endianness {
        Endianness::LittleEndian
    }

    #[inline(always)]
    fn demands_written_form(&self) -> bool {
        true
    }
}

impl Context for StrictBigEndian {
    type Error = Error;

    ghost mode = { λ _. strict_mode BigOrder };

    ghost keeps_eof = { λ e x h. ap is_eof_error h };

    #[inline(always)]
    fn endianness(&self) -> Endianness {
        Endianness::BigEndian
    }

    #[inline(always)]
    fn demands_written_form(&self) -> bool {
        true
    }
}

impl PlainContext for LittleEndian {
    #[inline(always)]
    fn plain() -> LittleEndian {
        LittleEndian {}
    }
}
