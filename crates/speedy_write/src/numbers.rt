//! How numbers are written: many of them by chunks of their digits, and bytes all at once.
#![tactic(auto, using(crate::proofs::NumberLemmas::signed_value_written))]

ghost use Rattle.std.specs.Prelude.{◌<◌, ◌≡◌, false, IsSome};
ghost use Rattle.speedy_write.specs.Writing.{WritesIfSome};

use crate::fixed::{Digits, write_number, write_values};
use crate::writable::Writable;
use crate::writer::Writer;
use speedy_base::context::Context;
use speedy_layout::{Layout, U24};

impl<C: Context> Writable<C> for u8 {
    #[inline]
    fn write_to<W: Writer<C>>(&self, writer: &mut W) -> Result<(), C::Error> {
        writer.write_u8(*self)
    }

    #[inline(always)]
    fn write_in_bulk<W: Writer<C>>(items: &[u8], writer: &mut W) -> Option<Result<(), C::Error>>
        ensures writes { let layout = ⟦<u8 as Layout>⟧ in
            WritesIfSome C.Error.from_gives W.state W.appends layout.seen layout.layout items.now
            result writer.old writer.new }
        ensures answers { IsSome result }
    {
        Some(writer.write_bytes(items))
    }
}

impl<C: Context> Writable<C> for u16 {
    #[inline]
    fn write_to<W: Writer<C>>(&self, writer: &mut W) -> Result<(), C::Error> {
        writer.write_u16(*self)
    }

    #[inline(always)]
    fn write_in_bulk<W: Writer<C>>(items: &[u16], writer: &mut W) -> Option<Result<(), C::Error>>
        ensures writes { let layout = ⟦<u16 as Layout>⟧ in
            WritesIfSome C.Error.from_gives W.state W.appends layout.seen layout.layout items.now
            result writer.old writer.new }
        ensures answers { W.is_counter ≡ false → IsSome result }
    {
        write_values::<C, u16, Digits, W>(items, writer)
    }
}

impl<C: Context> Writable<C> for U24 {
    #[inline]
    fn write_to<W: Writer<C>>(&self, writer: &mut W) -> Result<(), C::Error> {
        write_number::<U24, C, W>(*self, writer)
    }

    #[inline(always)]
    fn write_in_bulk<W: Writer<C>>(items: &[U24], writer: &mut W) -> Option<Result<(), C::Error>>
        ensures writes { let layout = ⟦<U24 as Layout>⟧ in
            WritesIfSome C.Error.from_gives W.state W.appends layout.seen layout.layout items.now
            result writer.old writer.new }
        ensures answers { W.is_counter ≡ false → IsSome result }
    {
        write_values::<C, U24, Digits, W>(items, writer)
    }
}

impl<C: Context> Writable<C> for u32 {
    #[inline]
    fn write_to<W: Writer<C>>(&self, writer: &mut W) -> Result<(), C::Error> {
        writer.write_u32(*self)
    }

    #[inline(always)]
    fn write_in_bulk<W: Writer<C>>(items: &[u32], writer: &mut W) -> Option<Result<(), C::Error>>
        ensures writes { let layout = ⟦<u32 as Layout>⟧ in
            WritesIfSome C.Error.from_gives W.state W.appends layout.seen layout.layout items.now
            result writer.old writer.new }
        ensures answers { W.is_counter ≡ false → IsSome result }
    {
        write_values::<C, u32, Digits, W>(items, writer)
    }
}

impl<C: Context> Writable<C> for u64 {
    #[inline]
    fn write_to<W: Writer<C>>(&self, writer: &mut W) -> Result<(), C::Error> {
        writer.write_u64(*self)
    }

    #[inline(always)]
    fn write_in_bulk<W: Writer<C>>(items: &[u64], writer: &mut W) -> Option<Result<(), C::Error>>
        ensures writes { let layout = ⟦<u64 as Layout>⟧ in
            WritesIfSome C.Error.from_gives W.state W.appends layout.seen layout.layout items.now
            result writer.old writer.new }
        ensures answers { W.is_counter ≡ false → IsSome result }
    {
        write_values::<C, u64, Digits, W>(items, writer)
    }
}

impl<C: Context> Writable<C> for u128 {
    #[inline]
    fn write_to<W: Writer<C>>(&self, writer: &mut W) -> Result<(), C::Error> {
        writer.write_u128(*self)
    }

    #[inline(always)]
    fn write_in_bulk<W: Writer<C>>(items: &[u128], writer: &mut W) -> Option<Result<(), C::Error>>
        ensures writes { let layout = ⟦<u128 as Layout>⟧ in
            WritesIfSome C.Error.from_gives W.state W.appends layout.seen layout.layout items.now
            result writer.old writer.new }
        ensures answers { W.is_counter ≡ false → IsSome result }
    {
        write_values::<C, u128, Digits, W>(items, writer)
    }
}

impl<C: Context> Writable<C> for i8 {
    #[inline]
    fn write_to<W: Writer<C>>(&self, writer: &mut W) -> Result<(), C::Error> {
        writer.write_i8(*self)
    }

    #[inline(always)]
    fn write_in_bulk<W: Writer<C>>(items: &[i8], writer: &mut W) -> Option<Result<(), C::Error>>
        ensures writes { let layout = ⟦<i8 as Layout>⟧ in
            WritesIfSome C.Error.from_gives W.state W.appends layout.seen layout.layout items.now
            result writer.old writer.new }
        ensures answers { W.is_counter ≡ false → IsSome result }
    {
        write_values::<C, i8, Digits, W>(items, writer)
    }
}

impl<C: Context> Writable<C> for i16 {
    #[inline]
    fn write_to<W: Writer<C>>(&self, writer: &mut W) -> Result<(), C::Error> {
        writer.write_i16(*self)
    }

    #[inline(always)]
    fn write_in_bulk<W: Writer<C>>(items: &[i16], writer: &mut W) -> Option<Result<(), C::Error>>
        ensures writes { let layout = ⟦<i16 as Layout>⟧ in
            WritesIfSome C.Error.from_gives W.state W.appends layout.seen layout.layout items.now
            result writer.old writer.new }
        ensures answers { W.is_counter ≡ false → IsSome result }
    {
        write_values::<C, i16, Digits, W>(items, writer)
    }
}

impl<C: Context> Writable<C> for i32 {
    #[inline]
    fn write_to<W: Writer<C>>(&self, writer: &mut W) -> Result<(), C::Error> {
        writer.write_i32(*self)
    }

    #[inline(always)]
    fn write_in_bulk<W: Writer<C>>(items: &[i32], writer: &mut W) -> Option<Result<(), C::Error>>
        ensures writes { let layout = ⟦<i32 as Layout>⟧ in
            WritesIfSome C.Error.from_gives W.state W.appends layout.seen layout.layout items.now
            result writer.old writer.new }
        ensures answers { W.is_counter ≡ false → IsSome result }
    {
        write_values::<C, i32, Digits, W>(items, writer)
    }
}

impl<C: Context> Writable<C> for i64 {
    #[inline]
    fn write_to<W: Writer<C>>(&self, writer: &mut W) -> Result<(), C::Error> {
        writer.write_i64(*self)
    }

    #[inline(always)]
    fn write_in_bulk<W: Writer<C>>(items: &[i64], writer: &mut W) -> Option<Result<(), C::Error>>
        ensures writes { let layout = ⟦<i64 as Layout>⟧ in
            WritesIfSome C.Error.from_gives W.state W.appends layout.seen layout.layout items.now
            result writer.old writer.new }
        ensures answers { W.is_counter ≡ false → IsSome result }
    {
        write_values::<C, i64, Digits, W>(items, writer)
    }
}

impl<C: Context> Writable<C> for i128 {
    #[inline]
    fn write_to<W: Writer<C>>(&self, writer: &mut W) -> Result<(), C::Error> {
        writer.write_i128(*self)
    }

    #[inline(always)]
    fn write_in_bulk<W: Writer<C>>(items: &[i128], writer: &mut W) -> Option<Result<(), C::Error>>
        ensures writes { let layout = ⟦<i128 as Layout>⟧ in
            WritesIfSome C.Error.from_gives W.state W.appends layout.seen layout.layout items.now
            result writer.old writer.new }
        ensures answers { W.is_counter ≡ false → IsSome result }
    {
        write_values::<C, i128, Digits, W>(items, writer)
    }
}

impl<C: Context> Writable<C> for usize {
    #[inline]
    fn write_to<W: Writer<C>>(&self, writer: &mut W) -> Result<(), C::Error> {
        writer.write_code(self)
    }
}
