//! Lengths that more than a sum of earlier fields tells.
//!
//! Made from `sums.rs` by `tools/derive`: change that, and make this again.
ghost use Rattle.std.specs.Prelude.{bit_and, bit_or, codes, if◌then◌else◌, max, nat_lt, ◌%◌, ◌*◌, ◌-◌, ◌<◌, ◌^◌};
ghost use Rattle.std.specs.Prelude.{◌≡◌, ◌≢◌, ◌≤◌};

use speedy::lengths::{Length, Other, WithLength};
use speedy::{Context, ItemByItem, Layout, LendingReader, Part, ReadFrom, Writable, Writer};
use std::convert::AsSlice;
use std::marker::PhantomData;

const UNIT: usize = 4;

/// The options of an internet header.
#[derive(Drop)]
pub struct Header {
    pub first: u8,
    pub service: u8,
    pub options: Vec<u8>,
}

/// The length of [`Header::options`].
struct HeaderOptionsLength {}

impl Length<(u8, ())> for HeaderOptionsLength {
    ghost is_told = { λ it. (bit_and it.0 15 * 4 < 2 ^ 64) × (20 ≤ bit_and it.0 15 * 4) };

    ghost told = { λ it. bit_and it.0 15 * 4 - 20 };

    ghost field = { codes "options" };

    fn length((first, _): (u8, ())) -> Option<usize> {
        let step1 = ((first & 0xf) as usize).checked_mul(4)?;
        let step2 = step1.checked_sub(20)?;
        Some(step2)
    }

    fn field() -> &'static str {
        "options"
    }
}

/// What [`Header`] is read and written as.
type HeaderParts = WithLength<HeaderOptionsLength, (u8, Other<u8>), Vec<u8>>;

impl Layout for Header {
    ghost Seen = { ⟦<HeaderParts as Layout>⟧.Seen };

    ghost seen = { λ it. ((it.first, ⟦<u8 as Layout>⟧.seen it.service), ⟦<Vec<u8> as Layout>⟧.seen it.options) };

    ghost layout = { ⟦<HeaderParts as Layout>⟧.layout };
}

impl<L: AsSlice<u8> + Drop, C: Context> ReadFrom<L, C> for Header {
    type Strategy = ItemByItem<C>;

    fn read_from<R: LendingReader<L, C>>(reader: &mut R) -> Result<Header, C::Error> {
        match reader.read_value::<HeaderParts>() {
            Ok(options) => {
                let WithLength {
                    before,
                    value: options,
                    length: _,
                } = options;
                let (first, service) = before;
                Ok(Header {
                    first,
                    service: service.0,
                    options,
                })
            }
            Err(error) => Err(error),
        }
    }

    fn minimum_bytes_needed() -> usize {
        2
    }
}

impl<C: Context> Writable<C> for Header {
    fn write_to<W: Writer<C>>(&self, writer: &mut W) -> Result<(), C::Error> {
        let options: WithLength<HeaderOptionsLength, _, _> = WithLength {
            before: (self.first, Other(self.service)),
            value: Part(&self.options),
            length: PhantomData,
        };
        writer.write_value(&options)
    }
}

/// A length of three bytes.
#[derive(Drop)]
pub struct Short {
    pub high: u8,
    pub middle: u8,
    pub low: u8,
    pub bytes: Vec<u8>,
}

/// The length of [`Short::bytes`].
struct ShortBytesLength {}

impl Length<((u8, u8), u8)> for ShortBytesLength {
    ghost is_told = { λ _. Unit {0} };

    ghost told = { λ it. bit_or (bit_or (it.0.0 * 2 ^ 16 % 2 ^ 64) (it.0.1 * 2 ^ 8 % 2 ^ 64)) it.1 };

    ghost field = { codes "bytes" };

    fn length(((high, middle), low): ((u8, u8), u8)) -> Option<usize> {
        Some((high as usize) << 16 | (middle as usize) << 8 | low as usize)
    }

    fn field() -> &'static str {
        "bytes"
    }
}

/// What [`Short`] is read and written as.
type ShortParts = WithLength<ShortBytesLength, ((u8, u8), u8), Vec<u8>>;

impl Layout for Short {
    ghost Seen = { ⟦<ShortParts as Layout>⟧.Seen };

    ghost seen = { λ it. (((it.high, it.middle), it.low), ⟦<Vec<u8> as Layout>⟧.seen it.bytes) };

    ghost layout = { ⟦<ShortParts as Layout>⟧.layout };
}

impl<L: AsSlice<u8> + Drop, C: Context> ReadFrom<L, C> for Short {
    type Strategy = ItemByItem<C>;

    fn read_from<R: LendingReader<L, C>>(reader: &mut R) -> Result<Short, C::Error> {
        match reader.read_value::<ShortParts>() {
            Ok(bytes) => {
                let WithLength {
                    before,
                    value: bytes,
                    length: _,
                } = bytes;
                let (before2, low) = before;
                let (high, middle) = before2;
                Ok(Short {
                    high,
                    middle,
                    low,
                    bytes,
                })
            }
            Err(error) => Err(error),
        }
    }

    fn minimum_bytes_needed() -> usize {
        3
    }
}

impl<C: Context> Writable<C> for Short {
    fn write_to<W: Writer<C>>(&self, writer: &mut W) -> Result<(), C::Error> {
        let bytes: WithLength<ShortBytesLength, _, _> = WithLength {
            before: ((self.high, self.middle), self.low),
            value: Part(&self.bytes),
            length: PhantomData,
        };
        writer.write_value(&bytes)
    }
}

/// A length that is short or long, and a padding.
#[derive(Drop)]
pub struct Padded {
    pub short: u8,
    pub long: u16,
    pub text: String,
    pub padding: Vec<u8>,
}

/// The length of [`Padded::text`].
struct PaddedTextLength {}

impl Length<(u8, u16)> for PaddedTextLength {
    ghost is_told = { λ _. Unit {0} };

    ghost told = { λ it. if nat_lt it.0 128 then it.0 else (max it.1 128) };

    ghost field = { codes "text" };

    fn length((short, long): (u8, u16)) -> Option<usize> {
        let step1 = if short < 128 {
            short as usize
        } else {
            (long as usize).max(128)
        };
        Some(step1)
    }

    fn field() -> &'static str {
        "text"
    }
}

/// The length of [`Padded::padding`].
struct PaddedPaddingLength {}

impl Length<(u8, u16)> for PaddedPaddingLength {
    ghost is_told = { λ it. it.1 % 4 ≤ 4 };

    ghost told = { λ it. (4 - it.1 % 4) % 4 };

    ghost field = { codes "padding" };

    fn length((_, long): (u8, u16)) -> Option<usize> {
        Some(UNIT.checked_sub(usize::from(long) % UNIT)? % UNIT)
    }

    fn field() -> &'static str {
        "padding"
    }
}

/// What [`Padded`] is read and written as.
type PaddedParts = WithLength<
    PaddedPaddingLength,
    WithLength<PaddedTextLength, (u8, u16), String>,
    Vec<u8>,
>;

impl Layout for Padded {
    ghost Seen = { ⟦<PaddedParts as Layout>⟧.Seen };

    ghost seen = { λ it. (
      ((it.short, it.long), ⟦<String as Layout>⟧.seen it.text),
      ⟦<Vec<u8> as Layout>⟧.seen it.padding,
    ) };

    ghost layout = { ⟦<PaddedParts as Layout>⟧.layout };
}

impl<L: AsSlice<u8> + Drop, C: Context> ReadFrom<L, C> for Padded {
    type Strategy = ItemByItem<C>;

    fn read_from<R: LendingReader<L, C>>(reader: &mut R) -> Result<Padded, C::Error> {
        match reader.read_value::<PaddedParts>() {
            Ok(padding) => {
                let WithLength {
                    before,
                    value: padding,
                    length: _,
                } = padding;
                let WithLength {
                    before: before2,
                    value: text,
                    length: _,
                } = before;
                let (short, long) = before2;
                Ok(Padded {
                    short,
                    long,
                    text,
                    padding,
                })
            }
            Err(error) => Err(error),
        }
    }

    fn minimum_bytes_needed() -> usize {
        3
    }
}

impl<C: Context> Writable<C> for Padded {
    fn write_to<W: Writer<C>>(&self, writer: &mut W) -> Result<(), C::Error> {
        let text: WithLength<PaddedTextLength, _, _> = WithLength {
            before: (self.short, self.long),
            value: Part(&self.text),
            length: PhantomData,
        };
        let padding: WithLength<PaddedPaddingLength, _, _> = WithLength {
            before: text,
            value: Part(&self.padding),
            length: PhantomData,
        };
        writer.write_value(&padding)
    }
}
