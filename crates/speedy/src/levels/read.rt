//! How recursive types are read.
ghost use Rattle.std.specs.Prelude.{map};
ghost use Rattle.speedy_layout.specs.Lists.{vector};
ghost use Rattle.speedy_read.specs.Reading.{ReadsAs, ReadsValue};
ghost use Rattle.speedy.specs.Layers.{at_level};

use crate::levels::{
    Both, Boxed, Itself, Levels, Listed, Optional, Own, OwnParts, Recursive, Shape,
};
use speedy_base::context::Context;
use speedy_base::error::error_out_of_memory;
use speedy_read::prefixed::read_length;
use speedy_read::reader::LendingReader;
use speedy_read::room::push_in_steps;
use std::convert::AsSlice;

/// How a recursive type is read by what levels are left.
pub trait ReadLevel<T: Recursive>: Levels {
    /// Reads a value. One of more levels is the error `OutOfRangeLength`.
    fn read_level<L: AsSlice<u8> + Drop, C: Context, R: LendingReader<L, C>>(
        &self,
        reader: &mut R,
    ) -> Result<T, C::Error>
        ensures { let seen = at_level T.layer (Self.levels self.now) in
            ReadsValue C.Error.IsEof R.state seen.view seen.codec result reader.old reader.new };
}

/// How parts are read that hold no value of the recursive type.
pub trait ReadOwn: OwnParts {
    /// Reads the parts, as any value: by `reader.read_value()`.
    fn read_own<L: AsSlice<u8> + Drop, C: Context, R: LendingReader<L, C>>(
        reader: &mut R,
    ) -> Result<Self::Parts, C::Error>
        ensures { ReadsValue C.Error.IsEof R.state Self.Parts.seen Self.Parts.layout result
            reader.old reader.new };
}

/// How a part is read whose values of the recursive type have the levels that are left.
pub trait ReadBelow<T: Recursive, S: Shape<T>>: Levels {
    /// Reads a part.
    fn read_below<L: AsSlice<u8> + Drop, C: Context, R: LendingReader<L, C>>(
        &self,
        reader: &mut R,
    ) -> Result<S::Value, C::Error>
        ensures { let seen = at_level T.layer (Self.levels self.now) in
            ReadsValue C.Error.IsEof R.state (S.layer.view seen.view) (S.layer.codec seen.codec)
            result reader.old reader.new };
}

impl<'b, T: Recursive + Drop, B: ReadLevel<T>> ReadBelow<T, Itself> for &'b B {
    #[tactic(auto, unfolding(crate::specs::Layers::its_layer))]
    fn read_below<L: AsSlice<u8> + Drop, C: Context, R: LendingReader<L, C>>(
        &self,
        reader: &mut R,
    ) -> Result<T, C::Error> {
        B::read_level::<L, C, R>(*self, reader)
    }
}

impl<'b, T: Recursive, P: ReadOwn, B: Levels> ReadBelow<T, Own<P>> for &'b B {
    #[tactic(auto, unfolding(crate::specs::Layers::own_layer))]
    fn read_below<L: AsSlice<u8> + Drop, C: Context, R: LendingReader<L, C>>(
        &self,
        reader: &mut R,
    ) -> Result<P::Parts, C::Error> {
        P::read_own::<L, C, R>(reader)
    }
}

impl<'b, T: Recursive, S: Shape<T>, B: Levels> ReadBelow<T, Boxed<S>> for &'b B
where
    &'b B: ReadBelow<T, S>,
{
    fn read_below<L: AsSlice<u8> + Drop, C: Context, R: LendingReader<L, C>>(
        &self,
        reader: &mut R,
    ) -> Result<Box<S::Value>, C::Error> {
        let part = ReadBelow::<T, S>::read_below::<L, C, R>(self, reader)?;
        match Box::new(reader.alloc(), part) {
            Ok(boxed) => Ok(boxed),
            Err(_) => Err(error_out_of_memory()),
        }
    }
}

impl<'b, T: Recursive, S: Shape<T>, B: Levels> ReadBelow<T, Optional<S>> for &'b B
where
    &'b B: ReadBelow<T, S>,
{
    fn read_below<L: AsSlice<u8> + Drop, C: Context, R: LendingReader<L, C>>(
        &self,
        reader: &mut R,
    ) -> Result<Option<S::Value>, C::Error> {
        let is_some = reader.read_value::<bool>()?;
        if !is_some {
            return Ok(None);
        }
        let part = ReadBelow::<T, S>::read_below::<L, C, R>(self, reader)?;
        Ok(Some(part))
    }
}

impl<'b, T: Recursive, S: Shape<T>, B: Levels> ReadBelow<T, Listed<S>> for &'b B
where
    &'b B: ReadBelow<T, S>,
{
    fn read_below<L: AsSlice<u8> + Drop, C: Context, R: LendingReader<L, C>>(
        &self,
        reader: &mut R,
    ) -> Result<Vec<S::Value>, C::Error> {
        let length = read_length(reader)?;
        read_items::<L, C, T, S, &'b B, R>(self, reader, length)
    }
}

// Reads `length` parts. Room is asked for in steps as they come, whatever their count says, and also where the reader
// knows that `length` bytes are there: each level could claim them.
fn read_items<
    L: AsSlice<u8> + Drop,
    C: Context,
    T: Recursive,
    S: Shape<T>,
    B: ReadBelow<T, S>,
    R: LendingReader<L, C>,
>(below: &B, reader: &mut R, length: usize) -> Result<Vec<S::Value>, C::Error>
    ensures { let seen = at_level T.layer (B.levels below.now) in
        ReadsAs C.Error.IsEof R.state (λ items. map (S.layer.view seen.view) items.items)
        (λ f. vector length ((S.layer.codec seen.codec).format f)) result reader.old reader.new }
{
    let mut items = Vec::new(reader.alloc());
    for i in 0..length {
        let item = ReadBelow::<T, S>::read_below::<L, C, R>(below, reader)?;
        items = match push_in_steps(items, item, length - i) {
            Ok(more) => more,
            Err(_) => return Err(error_out_of_memory()),
        };
    }
    Ok(items)
}

impl<'b, T: Recursive, S: Shape<T>, U: Shape<T>, B: Levels> ReadBelow<T, Both<S, U>> for &'b B
where
    &'b B: ReadBelow<T, S>,
    &'b B: ReadBelow<T, U>,
{
    fn read_below<L: AsSlice<u8> + Drop, C: Context, R: LendingReader<L, C>>(
        &self,
        reader: &mut R,
    ) -> Result<(S::Value, U::Value), C::Error> {
        let first = ReadBelow::<T, S>::read_below::<L, C, R>(self, reader)?;
        let second = ReadBelow::<T, U>::read_below::<L, C, R>(self, reader)?;
        Ok((first, second))
    }
}
