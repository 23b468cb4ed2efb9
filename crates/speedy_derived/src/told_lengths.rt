//! Texts and lists of a length that one field before them tells; `rows` has more of them.
//!
//! Made from `told_lengths.rs` by `tools/derive`: change that, and make this again.
ghost use Rattle.std.specs.Prelude.{codes, ◌*◌, ◌<◌, ◌^◌, ◌≡◌};

use speedy::lengths::{Length, Other, WithLength};
use speedy::{Context, ItemByItem, Layout, LendingReader, Part, ReadFrom, Writable, Writer};
use std::borrow::CowStr;
use std::convert::AsSlice;
use std::marker::PhantomData;

#[derive(Drop)]
pub struct ToldList {
    pub length: u8,
    pub data: Vec<bool>,
}

/// The length of [`ToldList::data`].
struct ToldListDataLength {}

impl Length<u8> for ToldListDataLength {
    ghost is_told = { λ n. n * 2 < 2 ^ 8 };

    ghost told = { λ n. n * 2 };

    ghost field = { codes "data" };

    fn length(length: u8) -> Option<usize> {
        Some(length.checked_mul(2)? as usize)
    }

    fn field() -> &'static str {
        "data"
    }
}

/// What [`ToldList`] is read and written as.
type ToldListParts = WithLength<ToldListDataLength, u8, Vec<bool>>;

impl Layout for ToldList {
    ghost Seen = { ⟦<ToldListParts as Layout>⟧.Seen };

    ghost seen = { λ it. (it.length, ⟦<Vec<bool> as Layout>⟧.seen it.«data») };

    ghost layout = { ⟦<ToldListParts as Layout>⟧.layout };
}

impl<L: AsSlice<u8> + Drop, C: Context> ReadFrom<L, C> for ToldList {
    type Strategy = ItemByItem<C>;

    fn read_from<R: LendingReader<L, C>>(reader: &mut R) -> Result<ToldList, C::Error> {
        match reader.read_value::<ToldListParts>() {
            Ok(data) => Ok(ToldList {
                length: data.before,
                data: data.value,
            }),
            Err(error) => Err(error),
        }
    }

    fn minimum_bytes_needed() -> usize {
        1
    }
}

impl<C: Context> Writable<C> for ToldList {
    fn write_to<W: Writer<C>>(&self, writer: &mut W) -> Result<(), C::Error> {
        let data: WithLength<ToldListDataLength, _, _> = WithLength {
            before: self.length,
            value: Part(&self.data),
            length: PhantomData,
        };
        writer.write_value(&data)
    }
}

#[derive(Drop)]
pub struct ToldScores {
    pub length: u8,
    pub group: char,
    pub scores: Vec<u16>,
}

/// The length of [`ToldScores::scores`].
struct ToldScoresScoresLength {}

impl Length<(u8, ())> for ToldScoresScoresLength {
    ghost is_told = { λ _. Unit {0} };

    ghost told = { λ it. it.0 };

    ghost field = { codes "scores" };

    fn length((length, _): (u8, ())) -> Option<usize> {
        Some(length as usize)
    }

    fn field() -> &'static str {
        "scores"
    }
}

/// What [`ToldScores`] is read and written as.
type ToldScoresParts = WithLength<ToldScoresScoresLength, (u8, Other<char>), Vec<u16>>;

impl Layout for ToldScores {
    ghost Seen = { ⟦<ToldScoresParts as Layout>⟧.Seen };

    ghost seen = { λ it. ((it.length, ⟦<char as Layout>⟧.seen it.group), ⟦<Vec<u16> as Layout>⟧.seen it.scores) };

    ghost layout = { ⟦<ToldScoresParts as Layout>⟧.layout };
}

impl<L: AsSlice<u8> + Drop, C: Context> ReadFrom<L, C> for ToldScores {
    type Strategy = ItemByItem<C>;

    fn read_from<R: LendingReader<L, C>>(reader: &mut R) -> Result<ToldScores, C::Error> {
        match reader.read_value::<ToldScoresParts>() {
            Ok(scores) => {
                let WithLength {
                    before,
                    value: scores,
                    length: _,
                } = scores;
                let (length, group) = before;
                let group = group.0;
                Ok(ToldScores {
                    length,
                    group,
                    scores,
                })
            }
            Err(error) => Err(error),
        }
    }

    fn minimum_bytes_needed() -> usize {
        5
    }
}

impl<C: Context> Writable<C> for ToldScores {
    fn write_to<W: Writer<C>>(&self, writer: &mut W) -> Result<(), C::Error> {
        let scores: WithLength<ToldScoresScoresLength, _, _> = WithLength {
            before: (self.length, Other(self.group)),
            value: Part(&self.scores),
            length: PhantomData,
        };
        writer.write_value(&scores)
    }
}

#[derive(Drop)]
pub struct ToldCowText<'a> {
    pub length: u8,
    pub data: CowStr<'a>,
}

/// The length of [`ToldCowText::data`].
struct ToldCowTextDataLength {}

impl Length<u8> for ToldCowTextDataLength {
    ghost is_told = { λ n. n * 2 < 2 ^ 8 };

    ghost told = { λ n. n * 2 };

    ghost field = { codes "data" };

    fn length(length: u8) -> Option<usize> {
        Some(length.checked_mul(2)? as usize)
    }

    fn field() -> &'static str {
        "data"
    }
}

/// What [`ToldCowText`] is read and written as.
type ToldCowTextParts<'a> = WithLength<ToldCowTextDataLength, u8, CowStr<'a>>;

impl<'a> Layout for ToldCowText<'a> {
    ghost Seen = { ⟦<ToldCowTextParts<'a> as Layout>⟧.Seen };

    ghost seen = { λ it. (it.length, ⟦<CowStr<'a> as Layout>⟧.seen it.«data») };

    ghost layout = { ⟦<ToldCowTextParts<'a> as Layout>⟧.layout };
}

impl<'a, C: Context> ReadFrom<&'a [u8], C> for ToldCowText<'a> {
    type Strategy = ItemByItem<C>;

    fn read_from<R: LendingReader<&'a [u8], C>>(
        reader: &mut R,
    ) -> Result<ToldCowText<'a>, C::Error> {
        match reader.read_value::<ToldCowTextParts<'a>>() {
            Ok(data) => Ok(ToldCowText {
                length: data.before,
                data: data.value,
            }),
            Err(error) => Err(error),
        }
    }

    fn minimum_bytes_needed() -> usize
        ensures { result ≡ ⟦<ToldCowTextParts<'a> as Layout>⟧.layout.least }
    {
        1
    }
}

impl<'a, C: Context> Writable<C> for ToldCowText<'a> {
    fn write_to<W: Writer<C>>(&self, writer: &mut W) -> Result<(), C::Error> {
        let data: WithLength<ToldCowTextDataLength, _, _> = WithLength {
            before: self.length,
            value: Part(&self.data),
            length: PhantomData,
        };
        writer.write_value(&data)
    }
}

#[derive(Drop)]
pub struct ToldBytes<'a> {
    pub length: u8,
    pub data: &'a [u8],
}

/// The length of [`ToldBytes::data`].
struct ToldBytesDataLength {}

impl Length<u8> for ToldBytesDataLength {
    ghost is_told = { λ n. n * 2 < 2 ^ 8 };

    ghost told = { λ n. n * 2 };

    ghost field = { codes "data" };

    fn length(length: u8) -> Option<usize> {
        Some(length.checked_mul(2)? as usize)
    }

    fn field() -> &'static str {
        "data"
    }
}

/// What [`ToldBytes`] is read and written as.
type ToldBytesParts<'a> = WithLength<ToldBytesDataLength, u8, &'a [u8]>;

impl<'a> Layout for ToldBytes<'a> {
    ghost Seen = { ⟦<ToldBytesParts<'a> as Layout>⟧.Seen };

    ghost seen = { λ it. (it.length, ⟦<&'a [u8] as Layout>⟧.seen it.«data») };

    ghost layout = { ⟦<ToldBytesParts<'a> as Layout>⟧.layout };
}

impl<'a, C: Context> ReadFrom<&'a [u8], C> for ToldBytes<'a> {
    type Strategy = ItemByItem<C>;

    fn read_from<R: LendingReader<&'a [u8], C>>(reader: &mut R) -> Result<ToldBytes<'a>, C::Error> {
        match reader.read_value::<ToldBytesParts<'a>>() {
            Ok(data) => Ok(ToldBytes {
                length: data.before,
                data: data.value,
            }),
            Err(error) => Err(error),
        }
    }

    fn minimum_bytes_needed() -> usize
        ensures { result ≡ ⟦<ToldBytesParts<'a> as Layout>⟧.layout.least }
    {
        1
    }
}

impl<'a, C: Context> Writable<C> for ToldBytes<'a> {
    fn write_to<W: Writer<C>>(&self, writer: &mut W) -> Result<(), C::Error> {
        let data: WithLength<ToldBytesDataLength, _, _> = WithLength {
            before: self.length,
            value: Part(&self.data),
            length: PhantomData,
        };
        writer.write_value(&data)
    }
}
