//! Files of sound (WAV), by "Multimedia Programming Interface and Data Specifications 1.0" of IBM and Microsoft.
//! Numbers are in little endian.
//!
//! Made from `wav.rs` by `tools/derive`: change that, and make this again.
ghost use Rattle.std.specs.Prelude.{[], codes, ◌%◌, ◌∷◌, ◌≡◌};

use speedy::lengths::{Length, OfLength, WithFrame, WithLength};
use speedy::magic::{Constant, Magic};
use speedy::whole::{
    EndsWithInput, Followed, MemoryReader, ReadToEnd, Rest, Whole, WholePart, WriteToEnd,
};
use speedy::{Context, ItemByItem, Layout, LendingReader, Part, ReadFrom, Writable, Writer};
use std::convert::AsSlice;
use std::marker::PhantomData;

/// A file: one chunk `RIFF` (chapter 2, "Resource Interchange File Format"), which holds all others.
#[derive(Drop)]
pub struct Riff<'a> {
    /// How many bytes come after this number.
    pub size: u32,
    pub wave: Wave<'a>,
}

/// The bytes before [`Riff::size`].
#[derive(Drop)]
struct BeforeRiffSize {}

impl Constant for BeforeRiffSize {
    ghost bytes = { 82 ∷ 73 ∷ 70 ∷ 70 ∷ [] };

    fn bytes() -> &'static [u8] {
        b"RIFF"
    }
}

/// The length of [`Riff::wave`].
struct RiffWaveLength {}

impl Length<u32> for RiffWaveLength {
    ghost is_told = { λ _. Unit {0} };

    ghost told = { λ n. n };

    ghost field = { codes "wave" };

    fn length(size: u32) -> Option<usize> {
        Some(size as usize)
    }

    fn field() -> &'static str {
        "wave"
    }
}

/// What [`Riff`] is read and written as.
type RiffParts<'a> = (
    Magic<BeforeRiffSize>,
    WithFrame<RiffWaveLength, u32, Wave<'a>>,
);

impl<'a> Layout for Riff<'a> {
    ghost Seen = { ⟦<RiffParts<'a> as Layout>⟧.Seen };

    ghost seen = { λ it. (⟦<BeforeRiffSize as Constant>⟧.bytes, (it.size, ⟦<Wave<'a> as Whole>⟧.seen it.wave)) };

    ghost layout = { ⟦<RiffParts<'a> as Layout>⟧.layout };
}

impl<'a, C: Context> ReadFrom<&'a [u8], C> for Riff<'a> {
    type Strategy = ItemByItem<C>;

    fn read_from<R: LendingReader<&'a [u8], C>>(reader: &mut R) -> Result<Riff<'a>, C::Error> {
        match reader.read_value::<RiffParts<'a>>() {
            Ok((_, wave)) => Ok(Riff {
                size: wave.before,
                wave: wave.value,
            }),
            Err(error) => Err(error),
        }
    }

    fn minimum_bytes_needed() -> usize
        ensures { result ≡ ⟦<RiffParts<'a> as Layout>⟧.layout.least }
    {
        8
    }
}

impl<'a, C: Context> Writable<C> for Riff<'a> {
    fn write_to<W: Writer<C>>(&self, writer: &mut W) -> Result<(), C::Error> {
        let wave: WithFrame<RiffWaveLength, _, _> = WithFrame {
            before: self.size,
            value: WholePart(&self.wave),
            length: PhantomData,
        };
        writer.write_value(&(Magic::<BeforeRiffSize>::new(), wave))
    }
}

/// The form `WAVE` (chapter 3): chunks to the end.
#[derive(Drop)]
pub struct Wave<'a> {
    pub form: (),
    pub chunks: Vec<Chunk<'a>>,
}

/// The bytes before [`Wave::form`].
#[derive(Drop)]
struct BeforeWaveForm {}

impl Constant for BeforeWaveForm {
    ghost bytes = { 87 ∷ 65 ∷ 86 ∷ 69 ∷ [] };

    fn bytes() -> &'static [u8] {
        b"WAVE"
    }
}

/// What [`Wave`] is read and written as.
type WaveParts<'a> = Followed<(Magic<BeforeWaveForm>, ()), Rest<Vec<Chunk<'a>>>>;

impl<'a> Whole for Wave<'a> {
    type Ends = EndsWithInput;

    ghost Seen = { ⟦<WaveParts<'a> as Whole>⟧.Seen };

    ghost seen = { λ it. (
      (⟦<BeforeWaveForm as Constant>⟧.bytes, ⟦<() as Layout>⟧.seen it.form),
      ⟦<Vec<Chunk<'a>> as OfLength>⟧.seen it.chunks,
    ) };

    ghost whole = { ⟦<WaveParts<'a> as Whole>⟧.whole };
}

impl<'a, C: Context> ReadToEnd<&'a [u8], C> for Wave<'a> {
    fn read_to_end<R: MemoryReader<&'a [u8], C>>(reader: &mut R) -> Result<Wave<'a>, C::Error> {
        match <WaveParts<'a> as ReadToEnd<&'a [u8], C>>::read_to_end(reader) {
            Ok(read) => {
                let Followed((_, form), Rest(chunks)) = read;
                Ok(Wave { form, chunks })
            }
            Err(error) => Err(error),
        }
    }
}

impl<'a, C: Context> WriteToEnd<C> for Wave<'a> {
    fn write_to_end<W: Writer<C>>(&self, writer: &mut W) -> Result<(), C::Error> {
        Followed(
            (Magic::<BeforeWaveForm>::new(), Part(&self.form)),
            Rest(Part(&self.chunks)),
        )
        .write_to_end(writer)
    }
}

/// A chunk. A content of an odd number of bytes has a byte of padding after it.
#[derive(Drop)]
pub struct Chunk<'a> {
    pub kind: [u8; 4],
    pub size: u32,
    pub content: &'a [u8],
    pub padding: &'a [u8],
}

/// The length of [`Chunk::content`].
struct ChunkContentLength {}

impl Length<u32> for ChunkContentLength {
    ghost is_told = { λ _. Unit {0} };

    ghost told = { λ n. n };

    ghost field = { codes "content" };

    fn length(size: u32) -> Option<usize> {
        Some(size as usize)
    }

    fn field() -> &'static str {
        "content"
    }
}

/// The length of [`Chunk::padding`].
struct ChunkPaddingLength {}

impl Length<u32> for ChunkPaddingLength {
    ghost is_told = { λ _. Unit {0} };

    ghost told = { λ it. it % 2 };

    ghost field = { codes "padding" };

    fn length(size: u32) -> Option<usize> {
        Some((size % 2) as usize)
    }

    fn field() -> &'static str {
        "padding"
    }
}

/// What [`Chunk`] is read and written as.
type ChunkParts<'a> = (
    [u8; 4],
    WithLength<ChunkPaddingLength, WithLength<ChunkContentLength, u32, &'a [u8]>, &'a [u8]>,
);

impl<'a> Layout for Chunk<'a> {
    ghost Seen = { ⟦<ChunkParts<'a> as Layout>⟧.Seen };

    ghost seen = { λ it. (
      ⟦<[u8; 4] as Layout>⟧.seen it.kind,
      ((it.size, ⟦<&'a [u8] as Layout>⟧.seen it.content), ⟦<&'a [u8] as Layout>⟧.seen it.padding),
    ) };

    ghost layout = { ⟦<ChunkParts<'a> as Layout>⟧.layout };
}

impl<'a, C: Context> ReadFrom<&'a [u8], C> for Chunk<'a> {
    type Strategy = ItemByItem<C>;

    fn read_from<R: LendingReader<&'a [u8], C>>(reader: &mut R) -> Result<Chunk<'a>, C::Error> {
        match reader.read_value::<ChunkParts<'a>>() {
            Ok(parts) => {
                let (kind, padding) = parts;
                let WithLength {
                    before,
                    value: padding,
                    length: _,
                } = padding;
                Ok(Chunk {
                    kind,
                    size: before.before,
                    content: before.value,
                    padding,
                })
            }
            Err(error) => Err(error),
        }
    }

    fn minimum_bytes_needed() -> usize
        ensures { result ≡ ⟦<ChunkParts<'a> as Layout>⟧.layout.least }
    {
        8
    }
}

impl<'a, C: Context> Writable<C> for Chunk<'a> {
    fn write_to<W: Writer<C>>(&self, writer: &mut W) -> Result<(), C::Error> {
        let content: WithLength<ChunkContentLength, _, _> = WithLength {
            before: self.size,
            value: Part(&self.content),
            length: PhantomData,
        };
        let padding: WithLength<ChunkPaddingLength, _, _> = WithLength {
            before: content,
            value: Part(&self.padding),
            length: PhantomData,
        };
        writer.write_value(&(Part(&self.kind), padding))
    }
}

/// What the chunk `fmt ` begins with: how samples are written. Some formats have more after it.
#[derive(Drop)]
pub struct SampleFormat {
    /// 1 is PCM.
    pub tag: u16,
    pub channels: u16,
    /// Samples a second, of each channel.
    pub rate: u32,
    pub bytes_per_second: u32,
    /// Bytes of one sample of all channels.
    pub alignment: u16,
    pub bits: u16,
}

/// What [`SampleFormat`] is read and written as.
type SampleFormatParts = (u16, u16, u32, u32, u16, u16);

impl Layout for SampleFormat {
    ghost Seen = { ⟦<SampleFormatParts as Layout>⟧.Seen };

    ghost seen = { λ it. ⟦<SampleFormatParts as Layout>⟧.seen (
      it.tag,
      it.channels,
      it.rate,
      it.bytes_per_second,
      it.alignment,
      it.bits,
    ) };

    ghost layout = { ⟦<SampleFormatParts as Layout>⟧.layout };
}

impl<L: AsSlice<u8> + Drop, C: Context> ReadFrom<L, C> for SampleFormat {
    type Strategy = ItemByItem<C>;

    #[inline(always)]
    fn read_from<R: LendingReader<L, C>>(reader: &mut R) -> Result<SampleFormat, C::Error> {
        match reader.read_value() {
            Ok((tag_, channels, rate, bytes_per_second, alignment, bits)) => Ok(SampleFormat {
                tag: tag_,
                channels,
                rate,
                bytes_per_second,
                alignment,
                bits,
            }),
            Err(error) => Err(error),
        }
    }

    fn minimum_bytes_needed() -> usize {
        16
    }
}
