//! Time zone files (TZif), RFC 9636.
//!
//! Made from `tzif.rs` by `tools/derive`: change that, and make this again.
ghost use Rattle.std.specs.Prelude.{[], codes, ◌∷◌};

use speedy::lengths::{Length, OfLength, Other, WithLength};
use speedy::magic::{Constant, Magic};
use speedy::whole::{EndsWithInput, Followed, MemoryReader, ReadToEnd, Rest, Whole, WriteToEnd};
use speedy::{
    Context, ItemByItem, Layout, LendingReader, Part, ReadFrom, ReadMany, Writable, Writer,
};
use std::convert::AsSlice;
use std::marker::PhantomData;

/// A local time type record (section 3.2).
#[derive(Drop)]
pub struct LocalType {
    /// Seconds east of universal time.
    pub offset: i32,
    /// 1 where this is daylight saving time, else 0.
    pub is_daylight: u8,
    /// Where its name begins among the names of the block.
    pub name: u8,
}

/// What [`LocalType`] is read and written as.
type LocalTypeParts = (i32, u8, u8);

impl Layout for LocalType {
    ghost Seen = { ⟦<LocalTypeParts as Layout>⟧.Seen };

    ghost seen = { λ it. ⟦<LocalTypeParts as Layout>⟧.seen (it.offset, it.is_daylight, it.name) };

    ghost layout = { ⟦<LocalTypeParts as Layout>⟧.layout };
}

impl<L: AsSlice<u8> + Drop, C: Context> ReadFrom<L, C> for LocalType {
    type Strategy = ItemByItem<C>;

    #[inline(always)]
    fn read_from<R: LendingReader<L, C>>(reader: &mut R) -> Result<LocalType, C::Error> {
        match reader.read_value() {
            Ok((offset, is_daylight, name)) => Ok(LocalType {
                offset,
                is_daylight,
                name,
            }),
            Err(error) => Err(error),
        }
    }

    fn minimum_bytes_needed() -> usize {
        6
    }
}

impl<C: Context> Writable<C> for LocalType {
    fn write_to<W: Writer<C>>(&self, writer: &mut W) -> Result<(), C::Error> {
        writer.write_value(&(Part(&self.offset), self.is_daylight, self.name))
    }
}

/// A leap-second record (section 3.2), at a time of four or of eight bytes.
#[derive(Drop)]
pub struct Leap<T> {
    pub time: T,
    pub correction: i32,
}

/// What [`Leap`] is read and written as.
type LeapParts<T> = (T, i32);

impl<T: Layout> Layout for Leap<T> {
    ghost Seen = { ⟦<LeapParts<T> as Layout>⟧.Seen };

    ghost seen = { λ it. ⟦<LeapParts<T> as Layout>⟧.seen (it.time, it.correction) };

    ghost layout = { ⟦<LeapParts<T> as Layout>⟧.layout };
}

impl<L: AsSlice<u8> + Drop, C: Context, T: ReadFrom<L, C>> ReadFrom<L, C> for Leap<T> {
    type Strategy = ItemByItem<C>;

    fn read_from<R: LendingReader<L, C>>(reader: &mut R) -> Result<Leap<T>, C::Error> {
        match reader.read_value() {
            Ok((time, correction)) => Ok(Leap { time, correction }),
            Err(error) => Err(error),
        }
    }

    fn minimum_bytes_needed() -> usize {
        <LeapParts<T> as ReadFrom<L, C>>::minimum_bytes_needed()
    }
}

impl<C: Context, T: Writable<C>> Writable<C> for Leap<T> {
    fn write_to<W: Writer<C>>(&self, writer: &mut W) -> Result<(), C::Error> {
        writer.write_value(&(Part(&self.time), Part(&self.correction)))
    }
}

/// A header (section 3.1) and its data block (section 3.2), with times of four or of eight bytes.
#[derive(Drop)]
pub struct Block<T> {
    pub version: u8,
    pub unused: [u8; 15],
    pub universal_count: u32,
    pub standard_count: u32,
    pub leap_count: u32,
    pub time_count: u32,
    pub type_count: u32,
    pub name_bytes: u32,
    /// Seconds since 1970 at which the local time changes, in ascending order.
    pub times: Vec<T>,
    /// For each of these times the local type that begins there.
    pub kinds: Vec<u8>,
    pub types: Vec<LocalType>,
    /// Each name ends with a NUL.
    pub names: Vec<u8>,
    pub leaps: Vec<Leap<T>>,
    pub standard: Vec<u8>,
    pub universal: Vec<u8>,
}

/// The bytes before [`Block::version`].
#[derive(Drop)]
struct BeforeBlockVersion {}

impl Constant for BeforeBlockVersion {
    ghost bytes = { 84 ∷ 90 ∷ 105 ∷ 102 ∷ [] };

    fn bytes() -> &'static [u8] {
        b"TZif"
    }
}

/// The length of [`Block::times`].
struct BlockTimesLength {}

impl Length<((((), u32), (u32, u32)), ((u32, u32), u32))> for BlockTimesLength {
    ghost is_told = { λ _. Unit {0} };

    ghost told = { λ it. it.1.0.0 };

    ghost field = { codes "times" };

    fn length(
        (_, ((time_count, _), _)): ((((), u32), (u32, u32)), ((u32, u32), u32)),
    ) -> Option<usize> {
        Some(time_count as usize)
    }

    fn field() -> &'static str {
        "times"
    }
}

/// The length of [`Block::kinds`].
struct BlockKindsLength {}

impl Length<((((), u32), (u32, u32)), ((u32, u32), u32))> for BlockKindsLength {
    ghost is_told = { λ _. Unit {0} };

    ghost told = { λ it. it.1.0.0 };

    ghost field = { codes "kinds" };

    fn length(
        (_, ((time_count, _), _)): ((((), u32), (u32, u32)), ((u32, u32), u32)),
    ) -> Option<usize> {
        Some(time_count as usize)
    }

    fn field() -> &'static str {
        "kinds"
    }
}

/// The length of [`Block::types`].
struct BlockTypesLength {}

impl Length<((((), u32), (u32, u32)), ((u32, u32), u32))> for BlockTypesLength {
    ghost is_told = { λ _. Unit {0} };

    ghost told = { λ it. it.1.0.1 };

    ghost field = { codes "types" };

    fn length(
        (_, ((_, type_count), _)): ((((), u32), (u32, u32)), ((u32, u32), u32)),
    ) -> Option<usize> {
        Some(type_count as usize)
    }

    fn field() -> &'static str {
        "types"
    }
}

/// The length of [`Block::names`].
struct BlockNamesLength {}

impl Length<((((), u32), (u32, u32)), ((u32, u32), u32))> for BlockNamesLength {
    ghost is_told = { λ _. Unit {0} };

    ghost told = { λ it. it.1.1 };

    ghost field = { codes "names" };

    fn length((_, (_, name_bytes)): ((((), u32), (u32, u32)), ((u32, u32), u32))) -> Option<usize> {
        Some(name_bytes as usize)
    }

    fn field() -> &'static str {
        "names"
    }
}

/// The length of [`Block::leaps`].
struct BlockLeapsLength {}

impl Length<((((), u32), (u32, u32)), ((u32, u32), u32))> for BlockLeapsLength {
    ghost is_told = { λ _. Unit {0} };

    ghost told = { λ it. it.0.1.1 };

    ghost field = { codes "leaps" };

    fn length(
        ((_, (_, leap_count)), _): ((((), u32), (u32, u32)), ((u32, u32), u32)),
    ) -> Option<usize> {
        Some(leap_count as usize)
    }

    fn field() -> &'static str {
        "leaps"
    }
}

/// The length of [`Block::standard`].
struct BlockStandardLength {}

impl Length<((((), u32), (u32, u32)), ((u32, u32), u32))> for BlockStandardLength {
    ghost is_told = { λ _. Unit {0} };

    ghost told = { λ it. it.0.1.0 };

    ghost field = { codes "standard" };

    fn length(
        ((_, (standard_count, _)), _): ((((), u32), (u32, u32)), ((u32, u32), u32)),
    ) -> Option<usize> {
        Some(standard_count as usize)
    }

    fn field() -> &'static str {
        "standard"
    }
}

/// The length of [`Block::universal`].
struct BlockUniversalLength {}

impl Length<((((), u32), (u32, u32)), ((u32, u32), u32))> for BlockUniversalLength {
    ghost is_told = { λ _. Unit {0} };

    ghost told = { λ it. it.0.0.1 };

    ghost field = { codes "universal" };

    fn length(
        (((_, universal_count), _), _): ((((), u32), (u32, u32)), ((u32, u32), u32)),
    ) -> Option<usize> {
        Some(universal_count as usize)
    }

    fn field() -> &'static str {
        "universal"
    }
}

/// What [`Block`] is read and written as.
type BlockParts<T> = WithLength<
    BlockUniversalLength,
    WithLength<
        BlockStandardLength,
        WithLength<
            BlockLeapsLength,
            WithLength<
                BlockNamesLength,
                WithLength<
                    BlockTypesLength,
                    WithLength<
                        BlockKindsLength,
                        WithLength<
                            BlockTimesLength,
                            (
                                (
                                    (Other<(Magic<BeforeBlockVersion>, u8, [u8; 15])>, u32),
                                    (u32, u32),
                                ),
                                ((u32, u32), u32),
                            ),
                            Vec<T>,
                        >,
                        Vec<u8>,
                    >,
                    Vec<LocalType>,
                >,
                Vec<u8>,
            >,
            Vec<Leap<T>>,
        >,
        Vec<u8>,
    >,
    Vec<u8>,
>;

impl<T: Layout> Layout for Block<T> {
    ghost Seen = { ⟦<BlockParts<T> as Layout>⟧.Seen };

    ghost seen = { λ it. (
      (
        (
          (
            (
              (
                (
                  (
                    (
                      (
                        (
                          ⟦<BeforeBlockVersion as Constant>⟧.bytes,
                          (⟦<u8 as Layout>⟧.seen it.version, ⟦<[u8; 15] as Layout>⟧.seen it.unused),
                        ),
                        it.universal_count,
                      ),
                      (it.standard_count, it.leap_count),
                    ),
                    ((it.time_count, it.type_count), it.name_bytes),
                  ),
                  ⟦<Vec<T> as Layout>⟧.seen it.times,
                ),
                ⟦<Vec<u8> as Layout>⟧.seen it.kinds,
              ),
              ⟦<Vec<LocalType> as Layout>⟧.seen it.types,
            ),
            ⟦<Vec<u8> as Layout>⟧.seen it.names,
          ),
          ⟦<Vec<Leap<T>> as Layout>⟧.seen it.leaps,
        ),
        ⟦<Vec<u8> as Layout>⟧.seen it.standard,
      ),
      ⟦<Vec<u8> as Layout>⟧.seen it.universal,
    ) };

    ghost layout = { ⟦<BlockParts<T> as Layout>⟧.layout };
}

impl<L: AsSlice<u8> + Drop, C: Context, T: ReadMany<L, C>> ReadFrom<L, C> for Block<T> {
    type Strategy = ItemByItem<C>;

    fn read_from<R: LendingReader<L, C>>(reader: &mut R) -> Result<Block<T>, C::Error> {
        match reader.read_value::<BlockParts<T>>() {
            Ok(universal) => {
                let WithLength {
                    before,
                    value: universal,
                    length: _,
                } = universal;
                let WithLength {
                    before: before2,
                    value: standard,
                    length: _,
                } = before;
                let WithLength {
                    before: before3,
                    value: leaps,
                    length: _,
                } = before2;
                let WithLength {
                    before: before4,
                    value: names,
                    length: _,
                } = before3;
                let WithLength {
                    before: before5,
                    value: types,
                    length: _,
                } = before4;
                let WithLength {
                    before: before6,
                    value: kinds,
                    length: _,
                } = before5;
                let WithLength {
                    before: before7,
                    value: times,
                    length: _,
                } = before6;
                let (before8, before9) = before7;
                let (before10, before11) = before8;
                let (before12, universal_count) = before10;
                let (_, version, unused) = before12.0;
                let (standard_count, leap_count) = before11;
                let (before13, name_bytes) = before9;
                let (time_count, type_count) = before13;
                Ok(Block {
                    version,
                    unused,
                    universal_count,
                    standard_count,
                    leap_count,
                    time_count,
                    type_count,
                    name_bytes,
                    times,
                    kinds,
                    types,
                    names,
                    leaps,
                    standard,
                    universal,
                })
            }
            Err(error) => Err(error),
        }
    }

    fn minimum_bytes_needed() -> usize {
        44
    }
}

impl<C: Context, T: Writable<C>> Writable<C> for Block<T> {
    fn write_to<W: Writer<C>>(&self, writer: &mut W) -> Result<(), C::Error> {
        let times: WithLength<BlockTimesLength, _, _> = WithLength {
            before: (
                (
                    (
                        Other((
                            Magic::<BeforeBlockVersion>::new(),
                            self.version,
                            Part(&self.unused),
                        )),
                        self.universal_count,
                    ),
                    (self.standard_count, self.leap_count),
                ),
                ((self.time_count, self.type_count), self.name_bytes),
            ),
            value: Part(&self.times),
            length: PhantomData,
        };
        let kinds: WithLength<BlockKindsLength, _, _> = WithLength {
            before: times,
            value: Part(&self.kinds),
            length: PhantomData,
        };
        let types: WithLength<BlockTypesLength, _, _> = WithLength {
            before: kinds,
            value: Part(&self.types),
            length: PhantomData,
        };
        let names: WithLength<BlockNamesLength, _, _> = WithLength {
            before: types,
            value: Part(&self.names),
            length: PhantomData,
        };
        let leaps: WithLength<BlockLeapsLength, _, _> = WithLength {
            before: names,
            value: Part(&self.leaps),
            length: PhantomData,
        };
        let standard: WithLength<BlockStandardLength, _, _> = WithLength {
            before: leaps,
            value: Part(&self.standard),
            length: PhantomData,
        };
        let universal: WithLength<BlockUniversalLength, _, _> = WithLength {
            before: standard,
            value: Part(&self.universal),
            length: PhantomData,
        };
        writer.write_value(&universal)
    }
}

/// A file of version 2 and later. Its footer (section 3.3) has the rest of the bytes.
#[derive(Drop)]
pub struct Zone {
    pub old: Block<i32>,
    pub new: Block<i64>,
    pub line_feed: (),
    /// A rule for times after the last one, as of the environment variable `TZ`, and a line feed.
    pub footer: Vec<u8>,
}

/// The bytes before [`Zone::line_feed`].
#[derive(Drop)]
struct BeforeZoneLineFeed {}

impl Constant for BeforeZoneLineFeed {
    ghost bytes = { 10 ∷ [] };

    fn bytes() -> &'static [u8] {
        b"\x0a"
    }
}

/// What [`Zone`] is read and written as.
type ZoneParts = Followed<(Block<i32>, Block<i64>, Magic<BeforeZoneLineFeed>, ()), Rest<Vec<u8>>>;

impl Whole for Zone {
    type Ends = EndsWithInput;

    ghost Seen = { ⟦<ZoneParts as Whole>⟧.Seen };

    ghost seen = { λ it. (
      (
        ⟦<Block<i32> as Layout>⟧.seen it.old,
        (
          ⟦<Block<i64> as Layout>⟧.seen it.new,
          (⟦<BeforeZoneLineFeed as Constant>⟧.bytes, ⟦<() as Layout>⟧.seen it.line_feed),
        ),
      ),
      ⟦<Vec<u8> as OfLength>⟧.seen it.footer,
    ) };

    ghost whole = { ⟦<ZoneParts as Whole>⟧.whole };
}

impl<L: AsSlice<u8> + Drop, C: Context> ReadToEnd<L, C> for Zone {
    fn read_to_end<R: MemoryReader<L, C>>(reader: &mut R) -> Result<Zone, C::Error> {
        match <ZoneParts as ReadToEnd<L, C>>::read_to_end(reader) {
            Ok(read) => {
                let Followed((old, new, _, line_feed), Rest(footer)) = read;
                Ok(Zone {
                    old,
                    new,
                    line_feed,
                    footer,
                })
            }
            Err(error) => Err(error),
        }
    }
}

impl<C: Context> WriteToEnd<C> for Zone {
    fn write_to_end<W: Writer<C>>(&self, writer: &mut W) -> Result<(), C::Error> {
        Followed(
            (
                Part(&self.old),
                Part(&self.new),
                Magic::<BeforeZoneLineFeed>::new(),
                Part(&self.line_feed),
            ),
            Rest(Part(&self.footer)),
        )
        .write_to_end(writer)
    }
}
