//! Enums that are generic in their parts, or in how long these are.
//!
//! Made from `generic_enums.rs` by `tools/derive`: change that, and make this again.
ghost use Rattle.std.proofs.Common.{inl, inr};

use speedy::cases::{
    Case, CaseTree, Cases, Either, ReadCases, UnitCase, WriteCases, read_tagged, write_tagged,
};
use speedy::prefixed::Prefixed;
use speedy::private::error_invalid_enum_variant;
use speedy::{
    Context, ItemByItem, Layout, LendingReader, Part, ReadFrom, ReadMany, SameKey, Writable, Writer,
};
use std::collections::BTreeMap;
use std::convert::AsSlice;

#[derive(Drop)]
pub enum Several<T> {
    None,
    One(T),
    More { first: T, others: Vec<T> },
}

/// The cases of [`Several`], each with its tag.
type SeveralCases<T> = Either<UnitCase<0>, Either<Case<1, T>, Case<2, (T, Vec<T>)>>>;

impl<T: Layout> Cases for Several<T> {
    ghost use Rattle.speedy_derived.specs.declared.generic_enums.Several.{Several};

    ghost Seen = { ⟦<SeveralCases<T> as CaseTree>⟧.Seen };

    ghost seen = { λ it. elim it [
      | Several.None ↦ inl tt
      | Several.One t0 ↦ inr (inl (⟦<T as Layout>⟧.seen t0))
      | Several.More t0 t1 ↦ inr (inr (⟦<(T, Vec<T>) as Layout>⟧.seen (t0, t1)))
    ] };

    ghost choices = { ⟦<SeveralCases<T> as CaseTree>⟧.choices };
}

impl<T: Layout> Layout for Several<T> {
    ghost Seen = { ⟦<Prefixed<u32, Several<T>> as Layout>⟧.Seen };

    ghost seen = { ⟦<Several<T> as Cases>⟧.seen };

    ghost layout = { ⟦<Prefixed<u32, Several<T>> as Layout>⟧.layout };
}

impl<L: AsSlice<u8> + Drop, C: Context, T: ReadMany<L, C>> ReadCases<L, C> for Several<T> {
    fn read_case<R: LendingReader<L, C>>(
        tag: usize,
        reader: &mut R,
    ) -> Result<Several<T>, C::Error> {
        match tag {
            0 => Ok(Several::None),
            1 => match reader.read_value() {
                Ok(t0) => Ok(Several::One(t0)),
                Err(error) => Err(error),
            },
            2 => match reader.read_value() {
                Ok((first, others)) => Ok(Several::More { first, others }),
                Err(error) => Err(error),
            },
            _ => Err(error_invalid_enum_variant()),
        }
    }
}

impl<L: AsSlice<u8> + Drop, C: Context, T: ReadMany<L, C>> ReadFrom<L, C> for Several<T> {
    type Strategy = ItemByItem<C>;

    fn read_from<R: LendingReader<L, C>>(reader: &mut R) -> Result<Several<T>, C::Error> {
        read_tagged::<u32, Self, L, C, R>(reader)
    }

    fn minimum_bytes_needed() -> usize {
        4
    }
}

impl<C: Context, T: Writable<C>> WriteCases<C> for Several<T> {
    fn tag(&self) -> usize {
        match self {
            Several::None => 0,
            Several::One(..) => 1,
            Several::More { .. } => 2,
        }
    }

    fn write_case<W: Writer<C>>(&self, writer: &mut W) -> Result<(), C::Error> {
        match self {
            Several::None => Ok(()),
            Several::One(t0) => writer.write_value(t0),
            Several::More { first, others } => writer.write_value(&(Part(first), Part(others))),
        }
    }
}

impl<C: Context, T: Writable<C>> Writable<C> for Several<T> {
    fn write_to<W: Writer<C>>(&self, writer: &mut W) -> Result<(), C::Error> {
        write_tagged::<u32, Self, C, W>(self, writer)
    }
}

/// Two parameters, one of them with a bound.
#[derive(Drop)]
pub enum Lookup<K, V>
where
    K: Ord,
{
    Missing,
    Found { key: K, value: V },
    All(BTreeMap<K, V>),
}

/// The cases of [`Lookup`], each with its tag.
type LookupCases<K, V> = Either<UnitCase<4>, Either<Case<5, (K, V)>, Case<6, BTreeMap<K, V>>>>;

impl<K: SameKey + Ord, V: Layout> Cases for Lookup<K, V>
where
    K: Ord,
{
    ghost use Rattle.speedy_derived.specs.declared.generic_enums.Lookup.{Lookup};

    ghost Seen = { ⟦<LookupCases<K, V> as CaseTree>⟧.Seen };

    ghost seen = { λ it. elim it [
      | Lookup.Missing ↦ inl tt
      | Lookup.Found t0 t1 ↦ inr (inl (⟦<(K, V) as Layout>⟧.seen (t0, t1)))
      | Lookup.All t0 ↦ inr (inr (⟦<BTreeMap<K, V> as Layout>⟧.seen t0))
    ] };

    ghost choices = { ⟦<LookupCases<K, V> as CaseTree>⟧.choices };
}

impl<K: SameKey + Ord, V: Layout> Layout for Lookup<K, V>
where
    K: Ord,
{
    ghost Seen = { ⟦<Prefixed<u8, Lookup<K, V>> as Layout>⟧.Seen };

    ghost seen = { ⟦<Lookup<K, V> as Cases>⟧.seen };

    ghost layout = { ⟦<Prefixed<u8, Lookup<K, V>> as Layout>⟧.layout };
}

impl<
    L: AsSlice<u8> + Drop,
    C: Context,
    K: ReadFrom<L, C> + SameKey + Ord,
    V: ReadFrom<L, C>,
> ReadCases<L, C> for Lookup<K, V>
where
    K: Ord,
{
    fn read_case<R: LendingReader<L, C>>(
        tag: usize,
        reader: &mut R,
    ) -> Result<Lookup<K, V>, C::Error> {
        match tag {
            4 => Ok(Lookup::Missing),
            5 => match reader.read_value() {
                Ok((key, value)) => Ok(Lookup::Found { key, value }),
                Err(error) => Err(error),
            },
            6 => match reader.read_value() {
                Ok(t0) => Ok(Lookup::All(t0)),
                Err(error) => Err(error),
            },
            _ => Err(error_invalid_enum_variant()),
        }
    }
}

impl<
    L: AsSlice<u8> + Drop,
    C: Context,
    K: ReadFrom<L, C> + SameKey + Ord,
    V: ReadFrom<L, C>,
> ReadFrom<L, C> for Lookup<K, V>
where
    K: Ord,
{
    type Strategy = ItemByItem<C>;

    fn read_from<R: LendingReader<L, C>>(reader: &mut R) -> Result<Lookup<K, V>, C::Error> {
        read_tagged::<u8, Self, L, C, R>(reader)
    }

    fn minimum_bytes_needed() -> usize {
        1
    }
}

impl<C: Context, K: Writable<C> + SameKey + Ord, V: Writable<C>> WriteCases<C> for Lookup<K, V>
where
    K: Ord,
{
    fn tag(&self) -> usize {
        match self {
            Lookup::Missing => 4,
            Lookup::Found { .. } => 5,
            Lookup::All(..) => 6,
        }
    }

    fn write_case<W: Writer<C>>(&self, writer: &mut W) -> Result<(), C::Error> {
        match self {
            Lookup::Missing => Ok(()),
            Lookup::Found { key, value } => writer.write_value(&(Part(key), Part(value))),
            Lookup::All(t0) => writer.write_value(t0),
        }
    }
}

impl<C: Context, K: Writable<C> + SameKey + Ord, V: Writable<C>> Writable<C> for Lookup<K, V>
where
    K: Ord,
{
    fn write_to<W: Writer<C>>(&self, writer: &mut W) -> Result<(), C::Error> {
        write_tagged::<u8, Self, C, W>(self, writer)
    }
}

/// Generic in a number.
#[derive(Drop)]
pub enum Piece<const N: usize> {
    Raw([u8; N]),
    Numbered { id: u16, items: [u16; N] },
}

/// The cases of [`Piece`], each with its tag.
type PieceCases<const N: usize> = Either<Case<0, [u8; N]>, Case<1, (u16, [u16; N])>>;

impl<const N: usize> Cases for Piece<N> {
    ghost use Rattle.speedy_derived.specs.declared.generic_enums.Piece.{Piece};

    ghost Seen = { ⟦<PieceCases<N> as CaseTree>⟧.Seen };

    ghost seen = { λ it. elim it [
      | Piece.Raw t0 ↦ inl (⟦<[u8; N] as Layout>⟧.seen t0)
      | Piece.Numbered t0 t1 ↦ inr (⟦<(u16, [u16; N]) as Layout>⟧.seen (t0, t1))
    ] };

    ghost choices = { ⟦<PieceCases<N> as CaseTree>⟧.choices };
}

impl<const N: usize> Layout for Piece<N> {
    ghost Seen = { ⟦<Prefixed<u8, Piece<N>> as Layout>⟧.Seen };

    ghost seen = { ⟦<Piece<N> as Cases>⟧.seen };

    ghost layout = { ⟦<Prefixed<u8, Piece<N>> as Layout>⟧.layout };
}

impl<L: AsSlice<u8> + Drop, C: Context, const N: usize> ReadCases<L, C> for Piece<N> {
    fn read_case<R: LendingReader<L, C>>(tag: usize, reader: &mut R) -> Result<Piece<N>, C::Error> {
        match tag {
            0 => match reader.read_value() {
                Ok(t0) => Ok(Piece::Raw(t0)),
                Err(error) => Err(error),
            },
            1 => match reader.read_value() {
                Ok(parts) => {
                    let (id, items) = parts;
                    Ok(Piece::Numbered { id, items })
                }
                Err(error) => Err(error),
            },
            _ => Err(error_invalid_enum_variant()),
        }
    }
}

impl<L: AsSlice<u8> + Drop, C: Context, const N: usize> ReadFrom<L, C> for Piece<N> {
    type Strategy = ItemByItem<C>;

    fn read_from<R: LendingReader<L, C>>(reader: &mut R) -> Result<Piece<N>, C::Error> {
        read_tagged::<u8, Self, L, C, R>(reader)
    }

    fn minimum_bytes_needed() -> usize {
        1
    }
}

impl<C: Context, const N: usize> WriteCases<C> for Piece<N> {
    fn tag(&self) -> usize {
        match self {
            Piece::Raw(..) => 0,
            Piece::Numbered { .. } => 1,
        }
    }

    fn write_case<W: Writer<C>>(&self, writer: &mut W) -> Result<(), C::Error> {
        match self {
            Piece::Raw(t0) => writer.write_value(t0),
            Piece::Numbered { id, items } => writer.write_value(&(*id, Part(items))),
        }
    }
}

impl<C: Context, const N: usize> Writable<C> for Piece<N> {
    fn write_to<W: Writer<C>>(&self, writer: &mut W) -> Result<(), C::Error> {
        write_tagged::<u8, Self, C, W>(self, writer)
    }
}
