//! An enum of many variants.
//!
//! Made from `many.rs` by `tools/derive`: change that, and make this again.
ghost use Rattle.std.specs.Prelude.{◌≡◌};
ghost use Rattle.std.proofs.Common.{inl, inr};

use speedy::cases::{
    Case, CaseTree, Cases, Either, ReadCases, UnitCase, WriteCases, read_tagged, write_tagged,
};
use speedy::prefixed::Prefixed;
use speedy::private::error_invalid_enum_variant;
use speedy::{Context, ItemByItem, Layout, LendingReader, Part, ReadFrom, Writable, Writer};
use std::borrow::CowStr;

#[derive(Drop)]
pub enum Many<'a> {
    Nothing0,
    Number1(u32),
    Both2 { id: u64, is_new: bool },
    Lent3(&'a str),
    Text4(String),
    Bytes5 { at: u32, bytes: &'a [u8] },
    List6(Vec<u16>),
    Either7(CowStr<'a>, Option<u8>),
    Nothing8,
    Number9(u32),
    Both10 { id: u64, is_new: bool },
    Lent11(&'a str),
    Text12(String),
    Bytes13 { at: u32, bytes: &'a [u8] },
    List14(Vec<u16>),
    Either15(CowStr<'a>, Option<u8>),
    Nothing16,
    Number17(u32),
    Both18 { id: u64, is_new: bool },
    Lent19(&'a str),
    Text20(String),
    Bytes21 { at: u32, bytes: &'a [u8] },
    List22(Vec<u16>),
    Either23(CowStr<'a>, Option<u8>),
}

/// The cases of [`Many`], each with its tag.
type ManyCases<'a> = Either<
    Either<
        Either<
            Either<UnitCase<3>, Either<Case<7, u32>, Case<11, (u64, bool)>>>,
            Either<Case<15, &'a str>, Either<Case<19, String>, Case<23, (u32, &'a [u8])>>>,
        >,
        Either<
            Either<Case<27, Vec<u16>>, Either<Case<31, (CowStr<'a>, Option<u8>)>, UnitCase<35>>>,
            Either<Case<39, u32>, Either<Case<43, (u64, bool)>, Case<47, &'a str>>>,
        >,
    >,
    Either<
        Either<
            Either<Case<51, String>, Either<Case<55, (u32, &'a [u8])>, Case<59, Vec<u16>>>>,
            Either<Case<63, (CowStr<'a>, Option<u8>)>, Either<UnitCase<67>, Case<71, u32>>>,
        >,
        Either<
            Either<Case<75, (u64, bool)>, Either<Case<79, &'a str>, Case<83, String>>>,
            Either<
                Case<87, (u32, &'a [u8])>,
                Either<Case<91, Vec<u16>>, Case<95, (CowStr<'a>, Option<u8>)>>,
            >,
        >,
    >,
>;

impl<'a> Cases for Many<'a> {
    ghost use Rattle.speedy_derived.specs.declared.many.Many.{Many};

    ghost Seen = { ⟦<ManyCases<'a> as CaseTree>⟧.Seen };

    ghost seen = { λ it. elim it [
      | Many.Nothing0 ↦ inl (inl (inl (inl tt)))
      | Many.Number1 t0 ↦ inl (inl (inl (inr (inl (⟦<u32 as Layout>⟧.seen t0)))))
      | Many.Both2 t0 t1 ↦ inl (inl (inl (inr (inr (⟦<(u64, bool) as Layout>⟧.seen (t0, t1))))))
      | Many.Lent3 t0 ↦ inl (inl (inr (inl (⟦<&'a str as Layout>⟧.seen t0))))
      | Many.Text4 t0 ↦ inl (inl (inr (inr (inl (⟦<String as Layout>⟧.seen t0)))))
      | Many.Bytes5 t0 t1 ↦ inl (inl (inr (inr (inr (⟦<(u32, &'a [u8]) as Layout>⟧.seen (t0, t1))))))
      | Many.List6 t0 ↦ inl (inr (inl (inl (⟦<Vec<u16> as Layout>⟧.seen t0))))
      | Many.Either7 t0 t1 ↦ inl (inr (inl (inr (inl (⟦<(CowStr<'a>, Option<u8>) as Layout>⟧.seen (t0, t1))))))
      | Many.Nothing8 ↦ inl (inr (inl (inr (inr tt))))
      | Many.Number9 t0 ↦ inl (inr (inr (inl (⟦<u32 as Layout>⟧.seen t0))))
      | Many.Both10 t0 t1 ↦ inl (inr (inr (inr (inl (⟦<(u64, bool) as Layout>⟧.seen (t0, t1))))))
      | Many.Lent11 t0 ↦ inl (inr (inr (inr (inr (⟦<&'a str as Layout>⟧.seen t0)))))
      | Many.Text12 t0 ↦ inr (inl (inl (inl (⟦<String as Layout>⟧.seen t0))))
      | Many.Bytes13 t0 t1 ↦ inr (inl (inl (inr (inl (⟦<(u32, &'a [u8]) as Layout>⟧.seen (t0, t1))))))
      | Many.List14 t0 ↦ inr (inl (inl (inr (inr (⟦<Vec<u16> as Layout>⟧.seen t0)))))
      | Many.Either15 t0 t1 ↦ inr (inl (inr (inl (⟦<(CowStr<'a>, Option<u8>) as Layout>⟧.seen (t0, t1)))))
      | Many.Nothing16 ↦ inr (inl (inr (inr (inl tt))))
      | Many.Number17 t0 ↦ inr (inl (inr (inr (inr (⟦<u32 as Layout>⟧.seen t0)))))
      | Many.Both18 t0 t1 ↦ inr (inr (inl (inl (⟦<(u64, bool) as Layout>⟧.seen (t0, t1)))))
      | Many.Lent19 t0 ↦ inr (inr (inl (inr (inl (⟦<&'a str as Layout>⟧.seen t0)))))
      | Many.Text20 t0 ↦ inr (inr (inl (inr (inr (⟦<String as Layout>⟧.seen t0)))))
      | Many.Bytes21 t0 t1 ↦ inr (inr (inr (inl (⟦<(u32, &'a [u8]) as Layout>⟧.seen (t0, t1)))))
      | Many.List22 t0 ↦ inr (inr (inr (inr (inl (⟦<Vec<u16> as Layout>⟧.seen t0)))))
      | Many.Either23 t0 t1 ↦ inr (inr (inr (inr (inr (⟦<(CowStr<'a>, Option<u8>) as Layout>⟧.seen (t0, t1))))))
    ] };

    ghost choices = { ⟦<ManyCases<'a> as CaseTree>⟧.choices };
}

impl<'a> Layout for Many<'a> {
    ghost Seen = { ⟦<Prefixed<u8, Many<'a>> as Layout>⟧.Seen };

    ghost seen = { ⟦<Many<'a> as Cases>⟧.seen };

    ghost layout = { ⟦<Prefixed<u8, Many<'a>> as Layout>⟧.layout };
}

impl<'a, C: Context> ReadCases<&'a [u8], C> for Many<'a> {
    fn read_case<R: LendingReader<&'a [u8], C>>(
        tag: usize,
        reader: &mut R,
    ) -> Result<Many<'a>, C::Error> {
        match tag {
            3 => Ok(Many::Nothing0),
            7 => match reader.read_value() {
                Ok(t0) => Ok(Many::Number1(t0)),
                Err(error) => Err(error),
            },
            11 => match reader.read_value() {
                Ok((id, is_new)) => Ok(Many::Both2 { id, is_new }),
                Err(error) => Err(error),
            },
            15 => match reader.read_value() {
                Ok(t0) => Ok(Many::Lent3(t0)),
                Err(error) => Err(error),
            },
            19 => match reader.read_value() {
                Ok(t0) => Ok(Many::Text4(t0)),
                Err(error) => Err(error),
            },
            23 => match reader.read_value() {
                Ok((at, bytes)) => Ok(Many::Bytes5 { at, bytes }),
                Err(error) => Err(error),
            },
            27 => match reader.read_value() {
                Ok(t0) => Ok(Many::List6(t0)),
                Err(error) => Err(error),
            },
            31 => match reader.read_value() {
                Ok((t0, t1)) => Ok(Many::Either7(t0, t1)),
                Err(error) => Err(error),
            },
            35 => Ok(Many::Nothing8),
            39 => match reader.read_value() {
                Ok(t0) => Ok(Many::Number9(t0)),
                Err(error) => Err(error),
            },
            43 => match reader.read_value() {
                Ok((id, is_new)) => Ok(Many::Both10 { id, is_new }),
                Err(error) => Err(error),
            },
            47 => match reader.read_value() {
                Ok(t0) => Ok(Many::Lent11(t0)),
                Err(error) => Err(error),
            },
            51 => match reader.read_value() {
                Ok(t0) => Ok(Many::Text12(t0)),
                Err(error) => Err(error),
            },
            55 => match reader.read_value() {
                Ok((at, bytes)) => Ok(Many::Bytes13 { at, bytes }),
                Err(error) => Err(error),
            },
            59 => match reader.read_value() {
                Ok(t0) => Ok(Many::List14(t0)),
                Err(error) => Err(error),
            },
            63 => match reader.read_value() {
                Ok((t0, t1)) => Ok(Many::Either15(t0, t1)),
                Err(error) => Err(error),
            },
            67 => Ok(Many::Nothing16),
            71 => match reader.read_value() {
                Ok(t0) => Ok(Many::Number17(t0)),
                Err(error) => Err(error),
            },
            75 => match reader.read_value() {
                Ok((id, is_new)) => Ok(Many::Both18 { id, is_new }),
                Err(error) => Err(error),
            },
            79 => match reader.read_value() {
                Ok(t0) => Ok(Many::Lent19(t0)),
                Err(error) => Err(error),
            },
            83 => match reader.read_value() {
                Ok(t0) => Ok(Many::Text20(t0)),
                Err(error) => Err(error),
            },
            87 => match reader.read_value() {
                Ok((at, bytes)) => Ok(Many::Bytes21 { at, bytes }),
                Err(error) => Err(error),
            },
            91 => match reader.read_value() {
                Ok(t0) => Ok(Many::List22(t0)),
                Err(error) => Err(error),
            },
            95 => match reader.read_value() {
                Ok((t0, t1)) => Ok(Many::Either23(t0, t1)),
                Err(error) => Err(error),
            },
            _ => Err(error_invalid_enum_variant()),
        }
    }
}

impl<'a, C: Context> ReadFrom<&'a [u8], C> for Many<'a> {
    type Strategy = ItemByItem<C>;

    fn read_from<R: LendingReader<&'a [u8], C>>(reader: &mut R) -> Result<Many<'a>, C::Error> {
        read_tagged::<u8, Self, &'a [u8], C, R>(reader)
    }

    fn minimum_bytes_needed() -> usize
        ensures { result ≡ ⟦<Prefixed<u8, Many<'a>> as Layout>⟧.layout.least }
    {
        1
    }
}

impl<'a, C: Context> WriteCases<C> for Many<'a> {
    fn tag(&self) -> usize {
        match self {
            Many::Nothing0 => 3,
            Many::Number1(..) => 7,
            Many::Both2 { .. } => 11,
            Many::Lent3(..) => 15,
            Many::Text4(..) => 19,
            Many::Bytes5 { .. } => 23,
            Many::List6(..) => 27,
            Many::Either7(..) => 31,
            Many::Nothing8 => 35,
            Many::Number9(..) => 39,
            Many::Both10 { .. } => 43,
            Many::Lent11(..) => 47,
            Many::Text12(..) => 51,
            Many::Bytes13 { .. } => 55,
            Many::List14(..) => 59,
            Many::Either15(..) => 63,
            Many::Nothing16 => 67,
            Many::Number17(..) => 71,
            Many::Both18 { .. } => 75,
            Many::Lent19(..) => 79,
            Many::Text20(..) => 83,
            Many::Bytes21 { .. } => 87,
            Many::List22(..) => 91,
            Many::Either23(..) => 95,
        }
    }

    fn write_case<W: Writer<C>>(&self, writer: &mut W) -> Result<(), C::Error> {
        match self {
            Many::Nothing0 => Ok(()),
            Many::Number1(t0) => writer.write_value(t0),
            Many::Both2 { id, is_new } => writer.write_value(&(*id, *is_new)),
            Many::Lent3(t0) => writer.write_value(t0),
            Many::Text4(t0) => writer.write_value(t0),
            Many::Bytes5 { at, bytes } => writer.write_value(&(*at, Part(bytes))),
            Many::List6(t0) => writer.write_value(t0),
            Many::Either7(t0, t1) => writer.write_value(&(Part(t0), Part(t1))),
            Many::Nothing8 => Ok(()),
            Many::Number9(t0) => writer.write_value(t0),
            Many::Both10 { id, is_new } => writer.write_value(&(*id, *is_new)),
            Many::Lent11(t0) => writer.write_value(t0),
            Many::Text12(t0) => writer.write_value(t0),
            Many::Bytes13 { at, bytes } => writer.write_value(&(*at, Part(bytes))),
            Many::List14(t0) => writer.write_value(t0),
            Many::Either15(t0, t1) => writer.write_value(&(Part(t0), Part(t1))),
            Many::Nothing16 => Ok(()),
            Many::Number17(t0) => writer.write_value(t0),
            Many::Both18 { id, is_new } => writer.write_value(&(*id, *is_new)),
            Many::Lent19(t0) => writer.write_value(t0),
            Many::Text20(t0) => writer.write_value(t0),
            Many::Bytes21 { at, bytes } => writer.write_value(&(*at, Part(bytes))),
            Many::List22(t0) => writer.write_value(t0),
            Many::Either23(t0, t1) => writer.write_value(&(Part(t0), Part(t1))),
        }
    }
}

impl<'a, C: Context> Writable<C> for Many<'a> {
    fn write_to<W: Writer<C>>(&self, writer: &mut W) -> Result<(), C::Error> {
        write_tagged::<u8, Self, C, W>(self, writer)
    }
}
