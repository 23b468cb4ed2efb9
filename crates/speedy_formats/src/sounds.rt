//! Files of sound (WAV), read and written again.
ghost use Rattle.std.specs.Prelude.{ℕ};
ghost use Rattle.speedy.specs.Mode.{plain_mode};
ghost use Rattle.speedy.specs.ReadWholes.{AnswersWhole};
ghost use Rattle.speedy.specs.WaysOfReading.{AnswersBuffer};
ghost use Rattle.speedy.specs.WaysOfWriting.{WritesToVec};

use crate::wav::{Riff, SampleFormat};
use speedy::whole::{ReadableWhole, Whole};
use speedy::{Endianness, Error, IsEof, Layout, LittleEndian, Readable, Writable};
use std::alloc::Global;

/// The chunk `RIFF` that all of the bytes are (chapter 2). What its chunks hold lies in the bytes.
pub fn read_sound<'a>(alloc: Global, bytes: &'a [u8]) -> Result<Riff<'a>, Error>
    ensures { let it = ⟦<Riff<'a> as Whole>⟧ in
        AnswersWhole ⟦<Error as IsEof>⟧ it.seen it.whole (plain_mode Endianness.LittleEndian) result bytes.now }
{
    <Riff<'a> as ReadableWhole<LittleEndian>>::read_whole_from_buffer(alloc, bytes)
}

/// How samples are written, which the content of the chunk `fmt ` begins with (chapter 3).
pub fn read_sample_format(alloc: Global, content: &[u8]) -> Result<SampleFormat, Error>
    ensures { let it = ⟦<SampleFormat as Layout>⟧ in
        (size : ℕ) × AnswersBuffer ⟦<Error as IsEof>⟧ it.seen it.layout
        (plain_mode Endianness.LittleEndian) result size content.now }
{
    <SampleFormat as Readable<LittleEndian>>::read_from_buffer(alloc, content)
}

/// The bytes of a file of sound. Chunks whose sizes are not those of their contents are refused.
pub fn sound_bytes<'a>(alloc: Global, sound: &Riff<'a>) -> Result<Vec<u8>, Error>
    ensures { let it = ⟦<Riff<'a> as Layout>⟧ in
        WritesToVec ⟦<Error as From<Error>>⟧.from_gives it.seen it.layout (plain_mode Endianness.LittleEndian)
        sound.now (λ bytes. bytes.items) result }
{
    Writable::<LittleEndian>::write_to_vec(sound, alloc)
}
