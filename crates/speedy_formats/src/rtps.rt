//! Messages of RTPS, by "The Real-time Publish-Subscribe Protocol, DDS Interoperability Wire Protocol 2.5" of the OMG.
//! A flag of each submessage tells the order of its numbers.
//!
//! Made from `rtps.rs` by `tools/derive`: change that, and make this again.
ghost use Rattle.std.specs.Prelude.{[], codes, ◌%◌, ◌+◌, ◌-◌, ◌/◌, ◌<◌, ◌^◌, ◌∷◌, ◌≡◌, ◌≤◌};

use speedy::lengths::{Length, OfLength, Other, WithLength};
use speedy::magic::{Constant, Magic};
use speedy::{
    Context, ItemByItem, Layout, LendingReader, PaddingBytes, Part, ReadFrom, Writable, Writer,
};
use std::convert::AsSlice;
use std::marker::PhantomData;

/// What a message begins with (section 9.4.4).
#[derive(Drop)]
pub struct Header {
    pub major: u8,
    pub minor: u8,
    pub vendor: [u8; 2],
    /// Which participant sent it.
    pub participant: [u8; 12],
}

/// The bytes before [`Header::major`].
#[derive(Drop)]
struct BeforeHeaderMajor {}

impl Constant for BeforeHeaderMajor {
    ghost bytes = { 82 ∷ 84 ∷ 80 ∷ 83 ∷ [] };

    fn bytes() -> &'static [u8] {
        b"RTPS"
    }
}

/// What [`Header`] is read and written as.
type HeaderParts = (Magic<BeforeHeaderMajor>, u8, u8, [u8; 2], [u8; 12]);

impl Layout for Header {
    ghost Seen = { ⟦<HeaderParts as Layout>⟧.Seen };

    ghost seen = { λ it. (
      ⟦<BeforeHeaderMajor as Constant>⟧.bytes,
      (
        ⟦<u8 as Layout>⟧.seen it.major,
        (
          ⟦<u8 as Layout>⟧.seen it.minor,
          (⟦<[u8; 2] as Layout>⟧.seen it.vendor, ⟦<[u8; 12] as Layout>⟧.seen it.participant),
        ),
      ),
    ) };

    ghost layout = { ⟦<HeaderParts as Layout>⟧.layout };
}

impl<L: AsSlice<u8> + Drop, C: Context> ReadFrom<L, C> for Header {
    type Strategy = ItemByItem<C>;

    fn read_from<R: LendingReader<L, C>>(reader: &mut R) -> Result<Header, C::Error> {
        match reader.read_value::<HeaderParts>() {
            Ok(parts) => {
                let (_, major, minor, vendor, participant) = parts;
                Ok(Header {
                    major,
                    minor,
                    vendor,
                    participant,
                })
            }
            Err(error) => Err(error),
        }
    }

    fn minimum_bytes_needed() -> usize {
        20
    }
}

impl<C: Context> Writable<C> for Header {
    fn write_to<W: Writer<C>>(&self, writer: &mut W) -> Result<(), C::Error> {
        writer.write_value(&(
            Magic::<BeforeHeaderMajor>::new(),
            self.major,
            self.minor,
            Part(&self.vendor),
            Part(&self.participant),
        ))
    }
}

/// A submessage (section 9.4.5.1). Bit 0 of its flags tells the order of its length and of its body.
#[derive(Drop)]
pub struct Frame<'a> {
    pub kind: u8,
    pub flags: u8,
    pub size: u16,
    pub body: &'a [u8],
}

/// The length of [`Frame::body`].
struct FrameBodyLength {}

impl Length<u16> for FrameBodyLength {
    ghost is_told = { λ _. Unit {0} };

    ghost told = { λ n. n };

    ghost field = { codes "body" };

    fn length(size: u16) -> Option<usize> {
        Some(size as usize)
    }

    fn field() -> &'static str {
        "body"
    }
}

/// What [`Frame`] is read and written as.
type FrameParts<'a> = (u8, u8, WithLength<FrameBodyLength, u16, &'a [u8]>);

impl<'a> Layout for Frame<'a> {
    ghost Seen = { ⟦<FrameParts<'a> as Layout>⟧.Seen };

    ghost seen = { λ it. (
      ⟦<u8 as Layout>⟧.seen it.kind,
      (⟦<u8 as Layout>⟧.seen it.flags, (it.size, ⟦<&'a [u8] as Layout>⟧.seen it.body)),
    ) };

    ghost layout = { ⟦<FrameParts<'a> as Layout>⟧.layout };
}

impl<'a, C: Context> ReadFrom<&'a [u8], C> for Frame<'a> {
    type Strategy = ItemByItem<C>;

    fn read_from<R: LendingReader<&'a [u8], C>>(reader: &mut R) -> Result<Frame<'a>, C::Error> {
        match reader.read_value::<FrameParts<'a>>() {
            Ok((kind, flags, body)) => Ok(Frame {
                kind,
                flags,
                size: body.before,
                body: body.value,
            }),
            Err(error) => Err(error),
        }
    }

    fn minimum_bytes_needed() -> usize
        ensures { result ≡ ⟦<FrameParts<'a> as Layout>⟧.layout.least }
    {
        4
    }
}

/// Who sends or receives, within a participant (section 9.3.1.2): three bytes of a key, and a kind.
pub type EntityId = [u8; 4];

/// The body of INFO_TS without the flag I (section 9.4.5.12): seconds since 1970, and their 2^32nd parts.
#[derive(Drop)]
pub struct Timestamp {
    pub seconds: u32,
    pub fraction: u32,
}

/// What [`Timestamp`] is read and written as.
type TimestampParts = (u32, u32);

impl Layout for Timestamp {
    ghost Seen = { ⟦<TimestampParts as Layout>⟧.Seen };

    ghost seen = { λ it. ⟦<TimestampParts as Layout>⟧.seen (it.seconds, it.fraction) };

    ghost layout = { ⟦<TimestampParts as Layout>⟧.layout };
}

impl<L: AsSlice<u8> + Drop, C: Context> ReadFrom<L, C> for Timestamp {
    type Strategy = ItemByItem<C>;

    #[inline(always)]
    fn read_from<R: LendingReader<L, C>>(reader: &mut R) -> Result<Timestamp, C::Error> {
        match reader.read_value() {
            Ok((seconds, fraction)) => Ok(Timestamp { seconds, fraction }),
            Err(error) => Err(error),
        }
    }

    fn minimum_bytes_needed() -> usize {
        8
    }
}

impl<C: Context> Writable<C> for Timestamp {
    fn write_to<W: Writer<C>>(&self, writer: &mut W) -> Result<(), C::Error> {
        writer.write_value(&(self.seconds, self.fraction))
    }
}

/// The number of a change (section 9.3.2.2).
#[derive(Drop)]
pub struct SequenceNumber {
    pub high: i32,
    pub low: u32,
}

/// What [`SequenceNumber`] is read and written as.
type SequenceNumberParts = (i32, u32);

impl Layout for SequenceNumber {
    ghost Seen = { ⟦<SequenceNumberParts as Layout>⟧.Seen };

    ghost seen = { λ it. ⟦<SequenceNumberParts as Layout>⟧.seen (it.high, it.low) };

    ghost layout = { ⟦<SequenceNumberParts as Layout>⟧.layout };
}

impl<L: AsSlice<u8> + Drop, C: Context> ReadFrom<L, C> for SequenceNumber {
    type Strategy = ItemByItem<C>;

    #[inline(always)]
    fn read_from<R: LendingReader<L, C>>(reader: &mut R) -> Result<SequenceNumber, C::Error> {
        match reader.read_value() {
            Ok((high, low)) => Ok(SequenceNumber { high, low }),
            Err(error) => Err(error),
        }
    }

    fn minimum_bytes_needed() -> usize {
        8
    }
}

impl<C: Context> Writable<C> for SequenceNumber {
    fn write_to<W: Writer<C>>(&self, writer: &mut W) -> Result<(), C::Error> {
        writer.write_value(&(Part(&self.high), self.low))
    }
}

/// The body of HEARTBEAT (section 9.4.5.7): which changes a writer has.
#[derive(Drop)]
pub struct Heartbeat {
    pub reader: [u8; 4],
    pub writer: [u8; 4],
    pub first: SequenceNumber,
    pub last: SequenceNumber,
    pub count: i32,
}

/// What [`Heartbeat`] is read and written as.
type HeartbeatParts = ([u8; 4], [u8; 4], SequenceNumber, SequenceNumber, i32);

impl Layout for Heartbeat {
    ghost Seen = { ⟦<HeartbeatParts as Layout>⟧.Seen };

    ghost seen = { λ it. ⟦<HeartbeatParts as Layout>⟧.seen (it.reader, it.writer, it.first, it.last, it.count) };

    ghost layout = { ⟦<HeartbeatParts as Layout>⟧.layout };
}

impl<L: AsSlice<u8> + Drop, C: Context> ReadFrom<L, C> for Heartbeat {
    type Strategy = ItemByItem<C>;

    fn read_from<R: LendingReader<L, C>>(reader: &mut R) -> Result<Heartbeat, C::Error> {
        match reader.read_value() {
            Ok(parts) => {
                let (reader_, writer_, first, last, count) = parts;
                Ok(Heartbeat {
                    reader: reader_,
                    writer: writer_,
                    first,
                    last,
                    count,
                })
            }
            Err(error) => Err(error),
        }
    }

    fn minimum_bytes_needed() -> usize {
        28
    }
}

impl<C: Context> Writable<C> for Heartbeat {
    fn write_to<W: Writer<C>>(&self, writer: &mut W) -> Result<(), C::Error> {
        writer.write_value(&(
            Part(&self.reader),
            Part(&self.writer),
            Part(&self.first),
            Part(&self.last),
            Part(&self.count),
        ))
    }
}

/// A set of numbers from a first one on (section 9.4.2.6): a bit for each, the highest first.
#[derive(Drop)]
pub struct SequenceNumberSet {
    pub base: SequenceNumber,
    pub bits: u32,
    pub bitmap: Vec<u32>,
}

/// The length of [`SequenceNumberSet::bitmap`].
struct SequenceNumberSetBitmapLength {}

impl Length<u32> for SequenceNumberSetBitmapLength {
    ghost is_told = { λ n. n + 31 < 2 ^ 32 };

    ghost told = { λ n. (n + 31) / 32 };

    ghost field = { codes "bitmap" };

    fn length(bits: u32) -> Option<usize> {
        Some((bits.checked_add(31)? / 32) as usize)
    }

    fn field() -> &'static str {
        "bitmap"
    }
}

/// What [`SequenceNumberSet`] is read and written as.
type SequenceNumberSetParts = (
    SequenceNumber,
    WithLength<SequenceNumberSetBitmapLength, u32, Vec<u32>>,
);

impl Layout for SequenceNumberSet {
    ghost Seen = { ⟦<SequenceNumberSetParts as Layout>⟧.Seen };

    ghost seen = { λ it. (
      ⟦<SequenceNumber as Layout>⟧.seen it.base,
      (it.bits, ⟦<Vec<u32> as Layout>⟧.seen it.bitmap),
    ) };

    ghost layout = { ⟦<SequenceNumberSetParts as Layout>⟧.layout };
}

impl<L: AsSlice<u8> + Drop, C: Context> ReadFrom<L, C> for SequenceNumberSet {
    type Strategy = ItemByItem<C>;

    fn read_from<R: LendingReader<L, C>>(reader: &mut R) -> Result<SequenceNumberSet, C::Error> {
        match reader.read_value::<SequenceNumberSetParts>() {
            Ok((base, bitmap)) => Ok(SequenceNumberSet {
                base,
                bits: bitmap.before,
                bitmap: bitmap.value,
            }),
            Err(error) => Err(error),
        }
    }

    fn minimum_bytes_needed() -> usize {
        12
    }
}

impl<C: Context> Writable<C> for SequenceNumberSet {
    fn write_to<W: Writer<C>>(&self, writer: &mut W) -> Result<(), C::Error> {
        let bitmap: WithLength<SequenceNumberSetBitmapLength, _, _> = WithLength {
            before: self.bits,
            value: Part(&self.bitmap),
            length: PhantomData,
        };
        writer.write_value(&(Part(&self.base), bitmap))
    }
}

/// The body of ACKNACK (section 9.4.5.2): which changes a reader lacks.
#[derive(Drop)]
pub struct AckNack {
    pub reader: [u8; 4],
    pub writer: [u8; 4],
    pub lacking: SequenceNumberSet,
    pub count: i32,
}

/// What [`AckNack`] is read and written as.
type AckNackParts = ([u8; 4], [u8; 4], SequenceNumberSet, i32);

impl Layout for AckNack {
    ghost Seen = { ⟦<AckNackParts as Layout>⟧.Seen };

    ghost seen = { λ it. ⟦<AckNackParts as Layout>⟧.seen (it.reader, it.writer, it.lacking, it.count) };

    ghost layout = { ⟦<AckNackParts as Layout>⟧.layout };
}

impl<L: AsSlice<u8> + Drop, C: Context> ReadFrom<L, C> for AckNack {
    type Strategy = ItemByItem<C>;

    fn read_from<R: LendingReader<L, C>>(reader: &mut R) -> Result<AckNack, C::Error> {
        match reader.read_value() {
            Ok(parts) => {
                let (reader_, writer_, lacking, count) = parts;
                Ok(AckNack {
                    reader: reader_,
                    writer: writer_,
                    lacking,
                    count,
                })
            }
            Err(error) => Err(error),
        }
    }

    fn minimum_bytes_needed() -> usize {
        24
    }
}

impl<C: Context> Writable<C> for AckNack {
    fn write_to<W: Writer<C>>(&self, writer: &mut W) -> Result<(), C::Error> {
        writer.write_value(&(
            Part(&self.reader),
            Part(&self.writer),
            Part(&self.lacking),
            Part(&self.count),
        ))
    }
}

/// What stands before the parameters and the payload of DATA (section 9.4.5.3). What follows begins so many bytes
/// after the offset's own, of which 16 are known.
#[derive(Drop)]
pub struct DataStart<'a> {
    pub extra_flags: u16,
    pub offset: u16,
    pub reader: [u8; 4],
    pub writer: [u8; 4],
    pub number: SequenceNumber,
    pub unknown: &'a [u8],
}

/// The length of [`DataStart::unknown`].
struct DataStartUnknownLength {}

impl Length<(u16, ())> for DataStartUnknownLength {
    ghost is_told = { λ it. 16 ≤ it.0 };

    ghost told = { λ it. it.0 - 16 };

    ghost field = { codes "unknown" };

    fn length((offset, _): (u16, ())) -> Option<usize> {
        Some(offset.checked_sub(16)? as usize)
    }

    fn field() -> &'static str {
        "unknown"
    }
}

/// What [`DataStart`] is read and written as.
type DataStartParts<'a> = (
    u16,
    WithLength<DataStartUnknownLength, (u16, Other<([u8; 4], [u8; 4], SequenceNumber)>), &'a [u8]>,
);

impl<'a> Layout for DataStart<'a> {
    ghost Seen = { ⟦<DataStartParts<'a> as Layout>⟧.Seen };

    ghost seen = { λ it. (
      ⟦<u16 as Layout>⟧.seen it.extra_flags,
      (
        (
          it.offset,
          (
            ⟦<[u8; 4] as Layout>⟧.seen it.reader,
            (⟦<[u8; 4] as Layout>⟧.seen it.writer, ⟦<SequenceNumber as Layout>⟧.seen it.number),
          ),
        ),
        ⟦<&'a [u8] as Layout>⟧.seen it.unknown,
      ),
    ) };

    ghost layout = { ⟦<DataStartParts<'a> as Layout>⟧.layout };
}

impl<'a, C: Context> ReadFrom<&'a [u8], C> for DataStart<'a> {
    type Strategy = ItemByItem<C>;

    fn read_from<R: LendingReader<&'a [u8], C>>(reader: &mut R) -> Result<DataStart<'a>, C::Error> {
        match reader.read_value::<DataStartParts<'a>>() {
            Ok((extra_flags, unknown)) => {
                let WithLength {
                    before,
                    value: unknown,
                    length: _,
                } = unknown;
                let (offset, before2) = before;
                let (reader_, writer_, number) = before2.0;
                Ok(DataStart {
                    extra_flags,
                    offset,
                    reader: reader_,
                    writer: writer_,
                    number,
                    unknown,
                })
            }
            Err(error) => Err(error),
        }
    }

    fn minimum_bytes_needed() -> usize
        ensures { result ≡ ⟦<DataStartParts<'a> as Layout>⟧.layout.least }
    {
        20
    }
}

impl<'a, C: Context> Writable<C> for DataStart<'a> {
    fn write_to<W: Writer<C>>(&self, writer: &mut W) -> Result<(), C::Error> {
        let unknown: WithLength<DataStartUnknownLength, _, _> = WithLength {
            before: (
                self.offset,
                Other((Part(&self.reader), Part(&self.writer), Part(&self.number))),
            ),
            value: Part(&self.unknown),
            length: PhantomData,
        };
        writer.write_value(&(self.extra_flags, unknown))
    }
}

/// A parameter (section 9.4.2.11). The list ends with one of the kind 1.
#[derive(Drop)]
pub struct Parameter<'a> {
    pub kind: u16,
    pub size: u16,
    pub value: &'a [u8],
}

/// The length of [`Parameter::value`].
struct ParameterValueLength {}

impl Length<u16> for ParameterValueLength {
    ghost is_told = { λ _. Unit {0} };

    ghost told = { λ n. n };

    ghost field = { codes "value" };

    fn length(size: u16) -> Option<usize> {
        Some(size as usize)
    }

    fn field() -> &'static str {
        "value"
    }
}

/// What [`Parameter`] is read and written as.
type ParameterParts<'a> = (u16, WithLength<ParameterValueLength, u16, &'a [u8]>);

impl<'a> Layout for Parameter<'a> {
    ghost Seen = { ⟦<ParameterParts<'a> as Layout>⟧.Seen };

    ghost seen = { λ it. (⟦<u16 as Layout>⟧.seen it.kind, (it.size, ⟦<&'a [u8] as Layout>⟧.seen it.value)) };

    ghost layout = { ⟦<ParameterParts<'a> as Layout>⟧.layout };
}

impl<'a, C: Context> ReadFrom<&'a [u8], C> for Parameter<'a> {
    type Strategy = ItemByItem<C>;

    fn read_from<R: LendingReader<&'a [u8], C>>(reader: &mut R) -> Result<Parameter<'a>, C::Error> {
        match reader.read_value::<ParameterParts<'a>>() {
            Ok((kind, value)) => Ok(Parameter {
                kind,
                size: value.before,
                value: value.value,
            }),
            Err(error) => Err(error),
        }
    }

    fn minimum_bytes_needed() -> usize
        ensures { result ≡ ⟦<ParameterParts<'a> as Layout>⟧.layout.least }
    {
        4
    }
}

impl<'a, C: Context> Writable<C> for Parameter<'a> {
    fn write_to<W: Writer<C>>(&self, writer: &mut W) -> Result<(), C::Error> {
        let value: WithLength<ParameterValueLength, _, _> = WithLength {
            before: self.size,
            value: Part(&self.value),
            length: PhantomData,
        };
        writer.write_value(&(self.kind, value))
    }
}

/// A text of CDR: its bytes with a NUL, and padding up to a multiple of four.
#[derive(Drop)]
pub struct CdrText<'a> {
    pub size: u32,
    pub text: &'a [u8],
    pub padding: PaddingBytes,
}

/// The length of [`CdrText::text`].
struct CdrTextTextLength {}

impl Length<u32> for CdrTextTextLength {
    ghost is_told = { λ _. Unit {0} };

    ghost told = { λ n. n };

    ghost field = { codes "text" };

    fn length(size: u32) -> Option<usize> {
        Some(size as usize)
    }

    fn field() -> &'static str {
        "text"
    }
}

/// The length of [`CdrText::padding`].
struct CdrTextPaddingLength {}

impl Length<u32> for CdrTextPaddingLength {
    ghost is_told = { λ it. it % 4 ≤ 4 };

    ghost told = { λ it. (4 - it % 4) % 4 };

    ghost field = { codes "padding" };

    fn length(size: u32) -> Option<usize> {
        Some((4_u32.checked_sub(size % 4)? % 4) as usize)
    }

    fn field() -> &'static str {
        "padding"
    }
}

/// What [`CdrText`] is read and written as.
type CdrTextParts<'a> = WithLength<
    CdrTextPaddingLength,
    WithLength<CdrTextTextLength, u32, &'a [u8]>,
    PaddingBytes,
>;

impl<'a> Layout for CdrText<'a> {
    ghost Seen = { ⟦<CdrTextParts<'a> as Layout>⟧.Seen };

    ghost seen = { λ it. (
      (it.size, ⟦<&'a [u8] as Layout>⟧.seen it.text),
      ⟦<PaddingBytes as OfLength>⟧.seen it.padding,
    ) };

    ghost layout = { ⟦<CdrTextParts<'a> as Layout>⟧.layout };
}

impl<'a, C: Context> ReadFrom<&'a [u8], C> for CdrText<'a> {
    type Strategy = ItemByItem<C>;

    fn read_from<R: LendingReader<&'a [u8], C>>(reader: &mut R) -> Result<CdrText<'a>, C::Error> {
        match reader.read_value::<CdrTextParts<'a>>() {
            Ok(padding) => {
                let WithLength {
                    before,
                    value: padding,
                    length: _,
                } = padding;
                Ok(CdrText {
                    size: before.before,
                    text: before.value,
                    padding,
                })
            }
            Err(error) => Err(error),
        }
    }

    fn minimum_bytes_needed() -> usize
        ensures { result ≡ ⟦<CdrTextParts<'a> as Layout>⟧.layout.least }
    {
        4
    }
}
