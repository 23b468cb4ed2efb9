//! Fields without bytes, of types that need an allocator for their default, or that have no layout.
//!
//! Made from `skips.rs` by `tools/derive`: change that, and make this again.
ghost use Rattle.std.proofs.Common.{inl, inr};

use speedy::cases::{
    Case, CaseTree, Cases, Either, ReadCases, WriteCases, read_tagged, write_tagged,
};
use speedy::prefixed::Prefixed;
use speedy::private::error_invalid_enum_variant;
use speedy::{Context, ItemByItem, Layout, LendingReader, ReadFrom, Writable, Writer};
use std::boxed::BoxedStr;
use std::collections::HashMap;
use std::convert::AsSlice;
use std::marker::PhantomData;

#[derive(Drop)]
pub struct Session<T> {
    pub id: u32,
    pub names: HashMap<u8, Vec<u16>>,
    pub offset: isize,
    pub last: (Option<T>, String),
    pub kind: PhantomData<T>,
}

impl<T> Layout for Session<T> {
    ghost Seen = { ⟦<u32 as Layout>⟧.Seen };

    ghost seen = { λ it. ⟦<u32 as Layout>⟧.seen it.id };

    ghost layout = { ⟦<u32 as Layout>⟧.layout };
}

impl<L: AsSlice<u8> + Drop, C: Context, T: Drop> ReadFrom<L, C> for Session<T> {
    type Strategy = ItemByItem<C>;

    #[inline(always)]
    fn read_from<R: LendingReader<L, C>>(reader: &mut R) -> Result<Session<T>, C::Error> {
        match reader.read_value() {
            Ok(id) => Ok(Session {
                id,
                names: HashMap::new(reader.alloc()),
                offset: Default::default(),
                last: (Default::default(), String::new(reader.alloc())),
                kind: Default::default(),
            }),
            Err(error) => Err(error),
        }
    }

    fn minimum_bytes_needed() -> usize {
        4
    }
}

impl<C: Context, T> Writable<C> for Session<T> {
    fn write_to<W: Writer<C>>(&self, writer: &mut W) -> Result<(), C::Error> {
        writer.write_value(&self.id)
    }
}

#[derive(Drop)]
pub enum Step {
    Named {
        first_name: u8,
        last_name: u8,
        cached: BoxedStr,
    },
    Left(Vec<u8>, u16),
}

/// The cases of [`Step`], each with its tag.
type StepCases = Either<Case<0, (u8, u8)>, Case<1, u16>>;

impl Cases for Step {
    ghost use Rattle.speedy_derived.specs.declared.skips.Step.{Step};

    ghost Seen = { ⟦<StepCases as CaseTree>⟧.Seen };

    ghost seen = { λ it. elim it [
      | Step.Named t0 t1 t2 ↦ inl (⟦<(u8, u8) as Layout>⟧.seen (t0, t1))
      | Step.Left t0 t1 ↦ inr (⟦<u16 as Layout>⟧.seen t1)
    ] };

    ghost choices = { ⟦<StepCases as CaseTree>⟧.choices };
}

impl Layout for Step {
    ghost Seen = { ⟦<Prefixed<u32, Step> as Layout>⟧.Seen };

    ghost seen = { ⟦<Step as Cases>⟧.seen };

    ghost layout = { ⟦<Prefixed<u32, Step> as Layout>⟧.layout };
}

impl<L: AsSlice<u8> + Drop, C: Context> ReadCases<L, C> for Step {
    fn read_case<R: LendingReader<L, C>>(tag: usize, reader: &mut R) -> Result<Step, C::Error> {
        match tag {
            0 => match reader.read_value() {
                Ok((first_name, last_name)) => Ok(Step::Named {
                    first_name,
                    last_name,
                    cached: String::new(reader.alloc()).into_boxed_str(),
                }),
                Err(error) => Err(error),
            },
            1 => match reader.read_value() {
                Ok(t1) => Ok(Step::Left(Vec::new(reader.alloc()), t1)),
                Err(error) => Err(error),
            },
            _ => Err(error_invalid_enum_variant()),
        }
    }
}

impl<L: AsSlice<u8> + Drop, C: Context> ReadFrom<L, C> for Step {
    type Strategy = ItemByItem<C>;

    fn read_from<R: LendingReader<L, C>>(reader: &mut R) -> Result<Step, C::Error> {
        read_tagged::<u32, Self, L, C, R>(reader)
    }

    fn minimum_bytes_needed() -> usize {
        4
    }
}

impl<C: Context> WriteCases<C> for Step {
    fn tag(&self) -> usize {
        match self {
            Step::Named { .. } => 0,
            Step::Left(..) => 1,
        }
    }

    fn write_case<W: Writer<C>>(&self, writer: &mut W) -> Result<(), C::Error> {
        match self {
            Step::Named {
                first_name,
                last_name,
                ..
            } => writer.write_value(&(*first_name, *last_name)),
            Step::Left(_, t1) => writer.write_value(t1),
        }
    }
}

impl<C: Context> Writable<C> for Step {
    fn write_to<W: Writer<C>>(&self, writer: &mut W) -> Result<(), C::Error> {
        write_tagged::<u32, Self, C, W>(self, writer)
    }
}
