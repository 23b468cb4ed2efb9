//! What a file of sound holds.
use crate::report::{Broken, Failure, ShowItem, Text, pass_values, show_items, write_again};
use crate::sounds::{read_sample_format, read_sound, sound_bytes};
use crate::wav::{Chunk, SampleFormat};
use speedy::{Endianness, Error};
use std::alloc::Global;
use std::io::{self, Write};

/// The bytes before the first chunk of a form, and those before the content of a chunk.
const FORM: usize = 12;

const BEFORE: usize = 8;

/// Says what a file of sound holds.
pub(crate) fn show_wav<W: Write + Drop>(
    alloc: Global,
    out: &mut W,
    bytes: &[u8],
    most: usize,
) -> Result<(), Failure> {
    let sound = match read_sound(alloc, bytes) {
        Ok(sound) => sound,
        Err(error) => return Err(broken(alloc, bytes, error)),
    };
    let mut at = FORM;
    for (number, chunk) in sound.wave.chunks.iter().enumerate() {
        if &chunk.kind == b"fmt " {
            match read_sample_format(alloc, chunk.content) {
                Ok(format) => show_format(out, &format)?,
                Err(error) => return Err(Broken::bytes_of(
                    "chunk",
                    number,
                    at.saturating_add(BEFORE),
                    error,
                )),
            }
        }
        at = at
            .saturating_add(BEFORE)
            .saturating_add(chunk.content.len())
            .saturating_add(chunk.padding.len());
    }
    show_items(out, ("  ", " chunks"), &sound.wave.chunks, (), most)?;
    write_again(out, sound_bytes(alloc, &sound), bytes)
}

/// Where a file is broken that is not read.
fn broken(alloc: Global, bytes: &[u8], error: Error) -> Failure {
    if !bytes.starts_with(b"RIFF") {
        return Broken::bytes("the chunk RIFF", 0, error);
    }
    let size = match bytes.get(4..BEFORE) {
        Some([a, b, c, d]) => u32::from_le_bytes([*a, *b, *c, *d]) as usize,
        _ => return Broken::bytes("the chunk RIFF", 4, error),
    };
    let Some(form) = bytes.get(BEFORE..size.saturating_add(BEFORE)) else {
        return Broken::bytes("the size of the chunk RIFF", 4, error);
    };
    if !form.starts_with(b"WAVE") {
        return Broken::bytes("the form WAVE", BEFORE, error);
    }
    let chunks = form.get(4..).unwrap_or(b"");
    let (number, passed) = pass_values::<Chunk<'_>>(alloc, Endianness::LittleEndian, chunks);
    let at = passed.saturating_add(FORM);
    if passed == chunks.len() && at < bytes.len() {
        return Broken::bytes("the end of the chunk RIFF", at, error);
    }
    Broken::bytes_of("chunk", number, at, error)
}

fn show_format<W: Write + Drop>(out: &mut W, format: &SampleFormat) -> io::Result<()> {
    writeln!(
        out,
        "  sound of {} channels, {} samples a second of {} bits, format {}",
        format.channels, format.rate, format.bits, format.tag
    )
}

impl<'a> ShowItem<()> for Chunk<'a> {
    fn show<W: Write + Drop>(&self, out: &mut W, _beside: ()) -> io::Result<()> {
        writeln!(out, "    {} {} bytes", Text(&self.kind), self.size)
    }
}
