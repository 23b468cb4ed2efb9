//! How bytes that mean nothing are written: as zeros, by chunks.
#![tactic(auto, using(crate::proofs::PaddingLemmas::zeros_are_written))]

ghost use Rattle.speedy_layout.specs.Codecs.{unsigned_codec};
ghost use Rattle.speedy_layout.specs.Padding.{zeros};
ghost use Rattle.speedy_write.specs.Writing.{WritesValues};

use crate::lengths::WriteOfLength;
use crate::writable::Writable;
use crate::writer::Writer;
use speedy_base::context::Context;
use speedy_layout::{Padding, PaddingBytes, ZeroBytes, Zeros};

/// How many zeros are written at once, at most.
const CHUNK: usize = 64;

impl<C: Context, const N: usize> Writable<C> for Padding<N> {
    #[inline]
    fn write_to<W: Writer<C>>(&self, writer: &mut W) -> Result<(), C::Error> {
        write_zeros(writer, N)
    }
}

impl<C: Context, const N: usize> Writable<C> for Zeros<N> {
    #[inline]
    fn write_to<W: Writer<C>>(&self, writer: &mut W) -> Result<(), C::Error> {
        write_zeros(writer, N)
    }
}

impl<C: Context> WriteOfLength<C> for PaddingBytes {
    #[inline]
    fn length(&self) -> usize {
        self.0
    }

    #[inline]
    fn write_of_length<W: Writer<C>>(&self, writer: &mut W) -> Result<(), C::Error> {
        write_zeros(writer, self.0)
    }
}

impl<C: Context> WriteOfLength<C> for ZeroBytes {
    #[inline]
    fn length(&self) -> usize {
        self.0
    }

    #[inline]
    fn write_of_length<W: Writer<C>>(&self, writer: &mut W) -> Result<(), C::Error> {
        write_zeros(writer, self.0)
    }
}

// Writes so many zeros.
fn write_zeros<C: Context, W: Writer<C>>(writer: &mut W, count: usize) -> Result<(), C::Error>
    ensures { WritesValues C.Error.from_gives W.state W.appends (λ b. b) (unsigned_codec 1) (zeros count)
        result writer.old writer.new }
{
    let chunk = [0_u8; CHUNK];
    let mut at = 0;
    while at < count {
        let size = (count - at).min(CHUNK);
        writer.write_slice(&chunk[..size])?;
        at += size;
    }
    Ok(())
}
