//! Keys of one's own: structs, an enum without parts, and a struct of both that is generic.
//!
//! Made from `keys.rs` by `tools/derive`: change that, and make this again.
ghost use Rattle.std.specs.Prelude.{refl, ◌≡◌};
ghost use Rattle.speedy.specs.Equality.{ip_tells, option_tells, order_tells};
ghost use Rattle.speedy.specs.Keys.{part_then, unit_cases_tell};
ghost use Rattle.std.proofs.Common.{inl, inr};
ghost use Rattle.std.specs.Cmp.Lexicographic.{bytes_decides};
ghost use Rattle.std.specs.Cmp.{signed_Decides, unsigned_Decides};
ghost use Rattle.std.specs.String.{string_bytes};

use speedy::cases::{
    CaseTree, Cases, Either, ReadCases, UnitCase, WriteCases, read_tagged, write_tagged,
};
use speedy::prefixed::Prefixed;
use speedy::private::error_invalid_enum_variant;
use speedy::{
    Context, Endianness, ItemByItem, Layout, LendingReader, Part, ReadFrom, SameKey, Writable,
    Writer,
};
use std::collections::{BTreeMap, HashMap};
use std::convert::AsSlice;
use std::net::IpAddr;

/// Where a piece stands.
#[derive(PartialEq, Eq, PartialOrd, Ord, Drop)]
pub struct Place {
    pub row: u16,
    pub column: i32,
}

/// What [`Place`] is read and written as.
type PlaceParts = (u16, i32);

impl Layout for Place {
    ghost Seen = { ⟦<PlaceParts as Layout>⟧.Seen };

    ghost seen = { λ it. ⟦<PlaceParts as Layout>⟧.seen (it.row, it.column) };

    ghost layout = { ⟦<PlaceParts as Layout>⟧.layout };
}

impl SameKey for Place {
    ghost same_key = { λ x y. part_then (unsigned_Decides x.row y.row) (signed_Decides x.column y.column) };
}

impl<L: AsSlice<u8> + Drop, C: Context> ReadFrom<L, C> for Place {
    type Strategy = ItemByItem<C>;

    #[inline(always)]
    fn read_from<R: LendingReader<L, C>>(reader: &mut R) -> Result<Place, C::Error> {
        match reader.read_value() {
            Ok((row, column)) => Ok(Place { row, column }),
            Err(error) => Err(error),
        }
    }

    fn minimum_bytes_needed() -> usize {
        6
    }
}

impl<C: Context> Writable<C> for Place {
    fn write_to<W: Writer<C>>(&self, writer: &mut W) -> Result<(), C::Error> {
        writer.write_value(&(self.row, Part(&self.column)))
    }
}

#[derive(Clone, Copy, PartialEq, Eq, PartialOrd, Ord, Hash)]
pub enum Kind {
    King,
    Rook,
    Pawn,
}

/// The cases of [`Kind`], each with its tag.
type KindCases = Either<UnitCase<0>, Either<UnitCase<1>, UnitCase<2>>>;

impl Cases for Kind {
    ghost use Rattle.speedy_derived.specs.declared.keys.Kind.{Kind};

    ghost Seen = { ⟦<KindCases as CaseTree>⟧.Seen };

    ghost seen = { λ it. elim it [
      | Kind.King ↦ inl tt
      | Kind.Rook ↦ inr (inl tt)
      | Kind.Pawn ↦ inr (inr tt)
    ] };

    ghost choices = { ⟦<KindCases as CaseTree>⟧.choices };
}

impl Layout for Kind {
    ghost Seen = { ⟦<Prefixed<u8, Kind> as Layout>⟧.Seen };

    ghost seen = { ⟦<Kind as Cases>⟧.seen };

    ghost layout = { ⟦<Prefixed<u8, Kind> as Layout>⟧.layout };
}

impl SameKey for Kind {
    ghost use Rattle.speedy_derived.specs.declared.keys.Kind.{Kind};
    ghost use Rattle.speedy_derived.specs.contracts.keys.Kind.{the_type};

    ghost same_key = { let told : ⟦<Kind as Layout>⟧.Seen → Kind = λ s.
        elim s [
          | inl _ ↦ Kind.King
          | inr s8 ↦
              elim s8 [
                | inl _ ↦ Kind.Rook
                | inr _ ↦ Kind.Pawn
              ]
        ]
        in
        unit_cases_tell the_type tt told
        (λ x. elim x as (λ k. told (⟦<Kind as Layout>⟧.seen k) ≡ k) [
          | Kind.King ↦ refl
          | Kind.Rook ↦ refl
          | Kind.Pawn ↦ refl
        ]) };
}

impl<L: AsSlice<u8> + Drop, C: Context> ReadCases<L, C> for Kind {
    fn read_case<R: LendingReader<L, C>>(tag: usize, reader: &mut R) -> Result<Kind, C::Error> {
        match tag {
            0 => Ok(Kind::King),
            1 => Ok(Kind::Rook),
            2 => Ok(Kind::Pawn),
            _ => Err(error_invalid_enum_variant()),
        }
    }
}

impl<L: AsSlice<u8> + Drop, C: Context> ReadFrom<L, C> for Kind {
    type Strategy = ItemByItem<C>;

    fn read_from<R: LendingReader<L, C>>(reader: &mut R) -> Result<Kind, C::Error> {
        read_tagged::<u8, Self, L, C, R>(reader)
    }

    fn minimum_bytes_needed() -> usize {
        1
    }
}

impl<C: Context> WriteCases<C> for Kind {
    fn tag(&self) -> usize {
        match self {
            Kind::King => 0,
            Kind::Rook => 1,
            Kind::Pawn => 2,
        }
    }

    fn write_case<W: Writer<C>>(&self, writer: &mut W) -> Result<(), C::Error> {
        match self {
            Kind::King => Ok(()),
            Kind::Rook => Ok(()),
            Kind::Pawn => Ok(()),
        }
    }
}

impl<C: Context> Writable<C> for Kind {
    fn write_to<W: Writer<C>>(&self, writer: &mut W) -> Result<(), C::Error> {
        write_tagged::<u8, Self, C, W>(self, writer)
    }
}

/// A key of parts that are keys.
#[derive(PartialEq, Eq, PartialOrd, Ord, Drop)]
pub struct Piece<T> {
    pub place: Place,
    pub kind: Kind,
    pub name: String,
    pub note: Option<T>,
}

/// What [`Piece`] is read and written as.
type PieceParts<T> = (Place, Kind, String, Option<T>);

impl<T: Layout> Layout for Piece<T> {
    ghost Seen = { ⟦<PieceParts<T> as Layout>⟧.Seen };

    ghost seen = { λ it. ⟦<PieceParts<T> as Layout>⟧.seen (it.place, it.kind, it.name, it.note) };

    ghost layout = { ⟦<PieceParts<T> as Layout>⟧.layout };
}

impl<T: SameKey> SameKey for Piece<T> {
    ghost use Rattle.speedy_derived.specs.contracts.keys.KindSameKey.TheImpl.Laws.{same_key-law as kind_key};

    ghost same_key = { λ x y. part_then
        (part_then (unsigned_Decides x.place.row y.place.row) (signed_Decides x.place.column y.place.column))
        (part_then
        (kind_key x.kind y.kind)
        (part_then
        (bytes_decides (string_bytes x.name) (string_bytes y.name))
        (option_tells T.same_key x.note y.note))) };
}

impl<L: AsSlice<u8> + Drop, C: Context, T: ReadFrom<L, C>> ReadFrom<L, C> for Piece<T> {
    type Strategy = ItemByItem<C>;

    fn read_from<R: LendingReader<L, C>>(reader: &mut R) -> Result<Piece<T>, C::Error> {
        match reader.read_value() {
            Ok((place, kind, name, note)) => Ok(Piece {
                place,
                kind,
                name,
                note,
            }),
            Err(error) => Err(error),
        }
    }

    fn minimum_bytes_needed() -> usize {
        12
    }
}

impl<C: Context, T: Writable<C>> Writable<C> for Piece<T> {
    fn write_to<W: Writer<C>>(&self, writer: &mut W) -> Result<(), C::Error> {
        writer.write_value(&(
            Part(&self.place),
            Part(&self.kind),
            Part(&self.name),
            Part(&self.note),
        ))
    }
}

/// A key whose parts are keys by laws of the library.
#[derive(PartialEq, Eq, Hash, Drop)]
pub struct Peer {
    pub address: IpAddr,
    pub order: Endianness,
}

/// What [`Peer`] is read and written as.
type PeerParts = (IpAddr, Endianness);

impl Layout for Peer {
    ghost Seen = { ⟦<PeerParts as Layout>⟧.Seen };

    ghost seen = { λ it. ⟦<PeerParts as Layout>⟧.seen (it.address, it.order) };

    ghost layout = { ⟦<PeerParts as Layout>⟧.layout };
}

impl SameKey for Peer {
    ghost same_key = { λ x y. part_then
        (ip_tells ⟦<IpAddr as SameKey>⟧.eq (λ v w. refl) (λ v w. refl) (λ v w. refl) (λ v w. refl) x.address y.address)
        (order_tells ⟦<Endianness as SameKey>⟧.eq refl refl refl refl x.order y.order) };
}

impl<L: AsSlice<u8> + Drop, C: Context> ReadFrom<L, C> for Peer {
    type Strategy = ItemByItem<C>;

    fn read_from<R: LendingReader<L, C>>(reader: &mut R) -> Result<Peer, C::Error> {
        match reader.read_value() {
            Ok((address, order)) => Ok(Peer { address, order }),
            Err(error) => Err(error),
        }
    }

    fn minimum_bytes_needed() -> usize {
        6
    }
}

impl<C: Context> Writable<C> for Peer {
    fn write_to<W: Writer<C>>(&self, writer: &mut W) -> Result<(), C::Error> {
        writer.write_value(&(Part(&self.address), Part(&self.order)))
    }
}

#[derive(Drop)]
pub struct Board {
    pub places: BTreeMap<Place, u8>,
    pub kinds: HashMap<Kind, u8>,
    pub pieces: BTreeMap<Piece<u8>, u8>,
    pub players: HashMap<Peer, u8>,
}

/// What [`Board`] is read and written as.
type BoardParts = (
    BTreeMap<Place, u8>,
    HashMap<Kind, u8>,
    BTreeMap<Piece<u8>, u8>,
    HashMap<Peer, u8>,
);

impl Layout for Board {
    ghost Seen = { ⟦<BoardParts as Layout>⟧.Seen };

    ghost seen = { λ it. ⟦<BoardParts as Layout>⟧.seen (it.places, it.kinds, it.pieces, it.players) };

    ghost layout = { ⟦<BoardParts as Layout>⟧.layout };
}

impl<L: AsSlice<u8> + Drop, C: Context> ReadFrom<L, C> for Board {
    type Strategy = ItemByItem<C>;

    fn read_from<R: LendingReader<L, C>>(reader: &mut R) -> Result<Board, C::Error> {
        match reader.read_value() {
            Ok((places, kinds, pieces, players)) => Ok(Board {
                places,
                kinds,
                pieces,
                players,
            }),
            Err(error) => Err(error),
        }
    }

    fn minimum_bytes_needed() -> usize {
        16
    }
}

impl<C: Context> Writable<C> for Board {
    fn write_to<W: Writer<C>>(&self, writer: &mut W) -> Result<(), C::Error> {
        writer.write_value(&(
            Part(&self.places),
            Part(&self.kinds),
            Part(&self.pieces),
            Part(&self.players),
        ))
    }
}
