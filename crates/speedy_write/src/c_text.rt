//! How texts and bytes are written that end with a NUL.
ghost use Rattle.speedy_layout.specs.Codecs.{nul_ended_codec, nul_ended_text_codec};
ghost use Rattle.speedy_write.specs.Writing.{WritesValue};

use crate::writable::Writable;
use crate::writer::Writer;
use speedy_base::context::Context;
use speedy_base::error::error_out_of_range_length;
use speedy_layout::c_text::{CText, NulEnded, length_to_nul};
use std::borrow::{CowSlice, CowStr};
use std::boxed::{BoxedSlice, BoxedStr};

/// How texts and bytes before a NUL are written.
pub trait WriteNulEnded<C: Context>: NulEnded {
    /// Writes the bytes, and a NUL. A NUL among the bytes is the error `OutOfRangeLength`.
    fn write_nul_ended<W: Writer<C>>(&self, writer: &mut W) -> Result<(), C::Error>
        ensures { WritesValue C.Error.from_gives W.state W.appends Self.content Self.nul_ended
            self.now result writer.old writer.new };
}

impl<C: Context, T: WriteNulEnded<C>> Writable<C> for CText<T> {
    #[inline]
    fn write_to<W: Writer<C>>(&self, writer: &mut W) -> Result<(), C::Error> {
        self.0.write_nul_ended(writer)
    }
}

impl<C: Context> WriteNulEnded<C> for String {
    #[inline]
    fn write_nul_ended<W: Writer<C>>(&self, writer: &mut W) -> Result<(), C::Error> {
        let text = self.as_str();
        write_c_text(text, writer)
    }
}

impl<C: Context> WriteNulEnded<C> for BoxedStr {
    #[inline]
    fn write_nul_ended<W: Writer<C>>(&self, writer: &mut W) -> Result<(), C::Error> {
        write_c_text(self.as_str(), writer)
    }
}

impl<'a, C: Context> WriteNulEnded<C> for &'a str {
    #[inline]
    fn write_nul_ended<W: Writer<C>>(&self, writer: &mut W) -> Result<(), C::Error> {
        write_c_text(*self, writer)
    }
}

impl<'a, C: Context> WriteNulEnded<C> for CowStr<'a> {
    #[inline]
    fn write_nul_ended<W: Writer<C>>(&self, writer: &mut W) -> Result<(), C::Error> {
        write_c_text(self.as_ref(), writer)
    }
}

impl<C: Context> WriteNulEnded<C> for Vec<u8> {
    #[inline]
    fn write_nul_ended<W: Writer<C>>(&self, writer: &mut W) -> Result<(), C::Error> {
        let bytes = self.as_slice();
        write_c_bytes(bytes, writer)
    }
}

impl<C: Context> WriteNulEnded<C> for BoxedSlice<u8> {
    #[inline]
    fn write_nul_ended<W: Writer<C>>(&self, writer: &mut W) -> Result<(), C::Error> {
        write_c_bytes(self.as_slice(), writer)
    }
}

impl<'a, C: Context> WriteNulEnded<C> for &'a [u8] {
    #[inline]
    fn write_nul_ended<W: Writer<C>>(&self, writer: &mut W) -> Result<(), C::Error> {
        write_c_bytes(*self, writer)
    }
}

impl<'a, C: Context> WriteNulEnded<C> for CowSlice<'a, u8> {
    #[inline]
    fn write_nul_ended<W: Writer<C>>(&self, writer: &mut W) -> Result<(), C::Error> {
        write_c_bytes(self.as_ref(), writer)
    }
}

// The bytes of the text, and a NUL.
#[inline]
fn write_c_text<C: Context, W: Writer<C>>(text: &str, writer: &mut W) -> Result<(), C::Error>
    ensures { WritesValue C.Error.from_gives W.state W.appends (λ v. v) nul_ended_text_codec
        text.now result writer.old writer.new }
{
    write_c_bytes(text.as_bytes(), writer)
}

// The bytes, and a NUL.
fn write_c_bytes<C: Context, W: Writer<C>>(bytes: &[u8], writer: &mut W) -> Result<(), C::Error>
    ensures { WritesValue C.Error.from_gives W.state W.appends (λ v. v) nul_ended_codec
        bytes.now result writer.old writer.new }
{
    match length_to_nul(bytes) {
        Some(_) => Err(error_out_of_range_length()),
        None => {
            writer.write_bytes(bytes)?;
            writer.write_bytes(b"\0")
        }
    }
}
