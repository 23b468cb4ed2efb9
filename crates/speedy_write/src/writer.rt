//! Writers: where values are written, and the writes that each has.
ghost use Rattle.std.specs.Prelude.{◌≡◌, ◌≤◌, ℕ, [], ◌++◌, List, Option, Bool, Ok, length, take, IsTrue, IsSome};
ghost use Rattle.std.specs.Borrow.{sem, Lends};
ghost use Rattle.std.specs.Iterator.{IsFinite, IsFiniteIterable};
ghost use Rattle.std.specs.Int.{w8, w16, w32, w64, w128};
ghost use Rattle.speedy_layout.specs.Codecs.{varint_codec};
ghost use Rattle.speedy_write.specs.Collections.{TakesSome, WritesItems};
ghost use Rattle.speedy_write.specs.Writing.{WriterState, WritesValue, WritesValues, WritesSlice, WritesNumber};
ghost use Rattle.speedy_write.specs.Writing.{WritesSigned, WritesAtOnce, WritesIfSome, RefusesFull, CountsBytes};
ghost use Rattle.speedy_write.specs.Writing.{IsRight};

use crate::each::write_item;
use crate::filling::{FillsFront, Whole};
use crate::fixed::{FixedBytes, write_number};
use crate::writable::Writable;
use speedy_base::context::Context;
use speedy_base::endianness::Endianness;
use speedy_layout::{Layout, ToCode, VarInt64};

/// Writers, with the calls of each.
pub trait Writer<C: Context> {
    /// Whether `put_from` ever puts an item. It is a hint: nothing rests on it but speed.
    const PUTS: bool = false;

    /// Whether the writer only counts bytes, and keeps none.
    ghost is_counter: { Bool };

    /// The context that the writer holds.
    ghost at: { Self → C };

    /// The writer with another context.
    ghost with_context: { Self → C → Self };

    /// The writer, as writes see it.
    ghost state: { Self → WriterState };

    /// Which bytes lie between two states of the writer.
    ghost appends: { Self → List ℕ → Self → Type 0 };

    /// What the writer says of its space.
    ghost can_write: { Self → ℕ → Option Bool };

    /// Writes all the bytes. After an error some of the first ones may have been written.
    fn write_bytes(&mut self, slice: &[u8]) -> Result<(), C::Error>
        ensures writes { WritesSlice C.Error.from_gives state appends slice.now
            result self.old self.new }
        ensures full { RefusesFull C.Error.from_gives state result self.old self.new };

    /// Writes all the bytes, as `write_bytes` does, where `following` bytes more are written next: a sink may make room
    /// for all of them at once. This body is `write_bytes`.
    #[inline(always)]
    fn write_bytes_before(&mut self, slice: &[u8], _following: usize) -> Result<(), C::Error>
        ensures writes { WritesSlice C.Error.from_gives state appends slice.now
            result self.old self.new }
        ensures full { RefusesFull C.Error.from_gives state result self.old self.new }
    {
        self.write_bytes(slice)
    }

    /// Whether the writer only counts bytes, and keeps none.
    fn counts() -> bool
        ensures { result ≡ is_counter };

    /// Counts `size` bytes, where the writer only counts. Another one says `None`, and does nothing.
    fn count_bytes(&mut self, size: usize) -> Option<Result<(), C::Error>>
        ensures counts { CountsBytes C.Error.from_gives state appends size result self.old self.new }
        ensures answers { IsTrue is_counter → IsSome result };

    /// Writes values that each take as many bytes, where the writer puts them at once in the room that it has, or knows
    /// that they have none. This body says `None`, and does nothing.
    #[inline(always)]
    fn put_fixed<T: Layout, P: FixedBytes<T>>(
        &mut self,
        _values: &[T],
    ) -> Option<Result<(), C::Error>>
    where
        Self: Sized,
        ensures { WritesIfSome C.Error.from_gives state appends T.seen T.layout _values.now
            result self.old self.new }
    {
        None
    }

    /// Writes the first of the items that an iterator gives, each of them whole, as many as the writer puts at once in
    /// the room that it has, and returns the next one, or `None` where none is left. This body writes none.
    #[inline(always)]
    fn put_from<T: Layout + Drop, P: FillsFront<T, C>, I: Iterator<Item = T>>(
        &mut self,
        items: &mut I,
    ) -> Option<T>
    where
        Self: Sized,
        requires { I.can_next items.old × IsFinite (I.remaining items.old) }
        ensures { (put : List T)
            × TakesSome I.can_next I.remaining I.next_gives put result items.old items.new
            × WritesValues C.Error.from_gives state appends T.seen T.layout put (Ok tt) self.old self.new }
    {
        items.next()
    }

    /// Writes the first of the items, each of them whole, as many as the writer puts at once in the room that it has,
    /// and says how many. This body writes none.
    #[inline(always)]
    fn put_each<T: Layout, P: FillsFront<T, C>>(&mut self, _items: &[T]) -> usize
    where
        Self: Sized,
        ensures some { result ≤ length _items.now }
        ensures puts { WritesValues C.Error.from_gives state appends T.seen T.layout
            (take result _items.now) (Ok tt) self.old self.new }
    {
        0
    }

    /// The context that numbers are written under.
    fn context(&self) -> &C
        ensures { result.now ≡ at self.now };

    /// The context, to be changed.
    fn context_mut(&mut self) -> &mut C
        ensures* writes_back { sem 𝓛
            (Lends Self.row C.row self.entry result (with_context self.old)) }
        ensures value { result.now ≡ at self.old };

    /// Whether `size` bytes fit, where the writer knows it.
    fn can_write_at_least(&self, size: usize) -> Option<bool>
        ensures says { result ≡ can_write self.now size }
        ensures right { IsRight result size (state self.now).space };

    /// The mode is the context's.
    ghost mode_at: { (w : Self) → (state w).mode ≡ C.mode (at w) };

    /// Another context changes the mode alone.
    ghost state_with: { (w : Self) (c : C) →
        state (with_context w c) ≡ record (state w) { mode = C.mode c } };

    /// Between a state and itself lies nothing.
    ghost nothing: { (w : Self) → appends w [] w };

    /// What lies between is joined.
    ghost additive: { (a b c : Self) (s t : List ℕ) →
        appends a s b → appends b t c → appends a (s ++ t) c };

    /// Another context changes nothing of what was written.
    ghost appends_with: { (a b : Self) (s : List ℕ) (c : C) →
        appends a s b → appends a s (with_context b c) × appends (with_context a c) s b };

    /// The byte order of numbers.
    #[inline(always)]
    final fn endianness(&self) -> Endianness
        ensures { result ≡ (state self.now).mode.order }
    {
        self.context().endianness()
    }

    /// Writes a byte.
    #[inline]
    final fn write_u8(&mut self, value: u8) -> Result<(), C::Error>
        ensures { WritesNumber C.Error.from_gives state appends 1 value result self.old self.new }
    {
        write_number::<u8, C, Self>(value, self)
    }

    /// Writes two bytes, in the context's order.
    #[inline]
    final fn write_u16(&mut self, value: u16) -> Result<(), C::Error>
        ensures { WritesNumber C.Error.from_gives state appends 2 value result self.old self.new }
    {
        write_number::<u16, C, Self>(value, self)
    }

    /// Writes four bytes, in the context's order.
    #[inline]
    final fn write_u32(&mut self, value: u32) -> Result<(), C::Error>
        ensures { WritesNumber C.Error.from_gives state appends 4 value result self.old self.new }
    {
        write_number::<u32, C, Self>(value, self)
    }

    /// Writes an integer of variable length, in one to nine bytes: as few as hold it.
    #[inline]
    final fn write_u64_varint(&mut self, value: u64) -> Result<(), C::Error>
        ensures { WritesAtOnce C.Error.from_gives state appends (λ n. n) varint_codec value
            result self.old self.new }
    {
        // To count is faster without a branch.
        if !Self::counts() && value < 128 {
            return self.write_bytes(&[value as u8]);
        }
        let (bytes, count) = VarInt64::from(value).encode();
        self.write_bytes(&bytes[..count])
    }

    /// Writes eight bytes, in the context's order.
    #[inline]
    final fn write_u64(&mut self, value: u64) -> Result<(), C::Error>
        ensures { WritesNumber C.Error.from_gives state appends 8 value result self.old self.new }
    {
        write_number::<u64, C, Self>(value, self)
    }

    /// Writes sixteen bytes, in the context's order.
    #[inline]
    final fn write_u128(&mut self, value: u128) -> Result<(), C::Error>
        ensures { WritesNumber C.Error.from_gives state appends 16 value result self.old self.new }
    {
        write_number::<u128, C, Self>(value, self)
    }

    /// Writes a signed number as a byte.
    #[inline]
    final fn write_i8(&mut self, value: i8) -> Result<(), C::Error>
        ensures { WritesSigned C.Error.from_gives state appends w8 value result self.old self.new }
    {
        write_number::<i8, C, Self>(value, self)
    }

    /// Writes a signed number as two bytes, in the context's order.
    #[inline]
    final fn write_i16(&mut self, value: i16) -> Result<(), C::Error>
        ensures { WritesSigned C.Error.from_gives state appends w16 value result self.old self.new }
    {
        write_number::<i16, C, Self>(value, self)
    }

    /// Writes a signed number as four bytes, in the context's order.
    #[inline]
    final fn write_i32(&mut self, value: i32) -> Result<(), C::Error>
        ensures { WritesSigned C.Error.from_gives state appends w32 value result self.old self.new }
    {
        write_number::<i32, C, Self>(value, self)
    }

    /// Writes a signed number as eight bytes, in the context's order.
    #[inline]
    final fn write_i64(&mut self, value: i64) -> Result<(), C::Error>
        ensures { WritesSigned C.Error.from_gives state appends w64 value result self.old self.new }
    {
        write_number::<i64, C, Self>(value, self)
    }

    /// Writes a signed number as sixteen bytes, in the context's order.
    #[inline]
    final fn write_i128(&mut self, value: i128) -> Result<(), C::Error>
        ensures { WritesSigned C.Error.from_gives state appends w128 value result self.old self.new }
    {
        write_number::<i128, C, Self>(value, self)
    }

    /// Writes a value.
    #[inline]
    final fn write_value<T: Writable<C>>(&mut self, item: &T) -> Result<(), C::Error>
    where
        Self: Sized,
        ensures { WritesValue C.Error.from_gives state appends T.seen T.layout item.now
            result self.old self.new }
    {
        item.write_to(self)
    }

    /// Writes a value as its code. It is the body of `write_to` of a type with [`ToCode`].
    #[inline]
    #[tactic(auto, using(crate::specs::Codes::encoded_written))]
    final fn write_code<T: ToCode>(&mut self, value: &T) -> Result<(), C::Error>
    where
        Self: Sized,
        T::Code: Writable<C>,
        ensures { WritesValue C.Error.from_gives state appends T.seen T.layout value.now
            result self.old self.new }
    {
        value.encode().write_to(self)
    }

    /// Writes values, one after the other and with no count.
    #[inline]
    final fn write_slice<T: Writable<C>>(&mut self, slice: &[T]) -> Result<(), C::Error>
    where
        Self: Sized,
        ensures { WritesValues C.Error.from_gives state appends T.seen T.layout slice.now
            result self.old self.new }
    {
        T::write_many(slice, self)
    }

    /// Writes the items of a collection, one after the other and with no count.
    ///
    /// They may be lent or owned.
    #[inline]
    final fn write_collection<T: Writable<C> + Drop, I: IntoIterator<Item = T>>(
        &mut self,
        items: I,
    ) -> Result<(), C::Error>
    where
        Self: Sized,
        requires { IsFiniteIterable I.into_iter_gives
            I.IntoIter.can_next I.IntoIter.remaining items }
        ensures { WritesItems I.into_iter_gives I.IntoIter.next_gives T.seen
            C.Error.from_gives T.layout.format items result
            (state self.old) (state self.new) (λ b. appends self.old b self.new) }
    {
        let mut items = items.into_iter();
        while let Some(item) = self.put_from::<T, Whole, I::IntoIter>(&mut items) {
            write_item(&item, self)?;
        }
        Ok(())
    }
}
