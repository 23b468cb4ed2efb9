//! How recursive types are written.
ghost use Rattle.speedy_write.specs.Writing.{WritesEach, WritesValue};
ghost use Rattle.speedy.specs.Layers.{at_level};

use crate::levels::{
    Both, Boxed, Itself, Lent, Levels, Listed, Optional, Own, OwnParts, Recursive, Shape,
};
use speedy_base::context::Context;
use speedy_write::prefixed::write_length;
use speedy_write::writer::Writer;

/// How a recursive type is written by what levels are left.
pub trait WriteLevel<T: Recursive>: Levels {
    /// Writes a value. One of more levels is the error `OutOfRangeLength`.
    fn write_level<C: Context, W: Writer<C>>(
        &self,
        value: &T,
        writer: &mut W,
    ) -> Result<(), C::Error>
        ensures { let seen = at_level T.layer (Self.levels self.now) in
            WritesValue C.Error.from_gives W.state W.appends seen.view seen.codec value.now
            result writer.old writer.new };
}

/// How parts are written that hold no value of the recursive type.
pub trait WriteOwn: OwnParts {
    /// Writes the parts, as any value: by `writer.write_value(parts)`.
    fn write_own<C: Context, W: Writer<C>>(
        parts: &Self::Parts,
        writer: &mut W,
    ) -> Result<(), C::Error>
        ensures { WritesValue C.Error.from_gives W.state W.appends Self.Parts.seen
            Self.Parts.layout parts.now result writer.old writer.new };
}

/// How a part is written whose values of the recursive type have the levels that are left.
pub trait WriteBelow<T: Recursive, S: Shape<T>>: Levels {
    /// Writes a part.
    fn write_below<C: Context, W: Writer<C>>(
        &self,
        part: &S::Value,
        writer: &mut W,
    ) -> Result<(), C::Error>
        ensures { let seen = at_level T.layer (Self.levels self.now) in
            WritesValue C.Error.from_gives W.state W.appends (S.layer.view seen.view)
            (S.layer.codec seen.codec) part.now result writer.old writer.new };
}

impl<'b, T: Recursive + Drop, B: WriteLevel<T>> WriteBelow<T, Itself> for &'b B {
    #[tactic(auto, unfolding(crate::specs::Layers::its_layer))]
    fn write_below<C: Context, W: Writer<C>>(
        &self,
        part: &T,
        writer: &mut W,
    ) -> Result<(), C::Error> {
        B::write_level::<C, W>(*self, part, writer)
    }
}

impl<'b, T: Recursive, P: WriteOwn, B: Levels> WriteBelow<T, Own<P>> for &'b B {
    #[tactic(auto, unfolding(crate::specs::Layers::own_layer))]
    fn write_below<C: Context, W: Writer<C>>(
        &self,
        part: &P::Parts,
        writer: &mut W,
    ) -> Result<(), C::Error> {
        P::write_own::<C, W>(part, writer)
    }
}

impl<'b, T: Recursive, S: Shape<T>, B: Levels> WriteBelow<T, Boxed<S>> for &'b B
where
    &'b B: WriteBelow<T, S>,
{
    fn write_below<C: Context, W: Writer<C>>(
        &self,
        part: &Box<S::Value>,
        writer: &mut W,
    ) -> Result<(), C::Error> {
        WriteBelow::<T, S>::write_below::<C, W>(self, part.as_ref(), writer)
    }
}

impl<'b, 't, T: Recursive, S: Shape<T>, B: Levels> WriteBelow<T, Lent<'t, S>> for &'b B
where
    &'b B: WriteBelow<T, S>,
    S::Value: 't,
{
    #[tactic(auto, unfolding(crate::specs::Layers::layer_of))]
    fn write_below<C: Context, W: Writer<C>>(
        &self,
        part: &&'t S::Value,
        writer: &mut W,
    ) -> Result<(), C::Error> {
        WriteBelow::<T, S>::write_below::<C, W>(self, *part, writer)
    }
}

impl<'b, T: Recursive, S: Shape<T>, B: Levels> WriteBelow<T, Optional<S>> for &'b B
where
    &'b B: WriteBelow<T, S>,
{
    fn write_below<C: Context, W: Writer<C>>(
        &self,
        part: &Option<S::Value>,
        writer: &mut W,
    ) -> Result<(), C::Error> {
        match part {
            Some(value) => {
                writer.write_value(&true)?;
                WriteBelow::<T, S>::write_below::<C, W>(self, value, writer)
            }
            None => writer.write_value(&false),
        }
    }
}

impl<'b, T: Recursive, S: Shape<T>, B: Levels> WriteBelow<T, Listed<S>> for &'b B
where
    &'b B: WriteBelow<T, S>,
{
    fn write_below<C: Context, W: Writer<C>>(
        &self,
        part: &Vec<S::Value>,
        writer: &mut W,
    ) -> Result<(), C::Error> {
        let items = part.as_slice();
        write_length(items.len(), writer)?;
        write_items::<C, T, S, &'b B, W>(self, items, writer)
    }
}

// Writes parts, one after another.
fn write_items<C: Context, T: Recursive, S: Shape<T>, B: WriteBelow<T, S>, W: Writer<C>>(
    below: &B,
    items: &[S::Value],
    writer: &mut W,
) -> Result<(), C::Error>
    ensures { let seen = at_level T.layer (B.levels below.now) in
        WritesEach C.Error.from_gives (S.layer.codec seen.codec).format (S.layer.view seen.view)
        items.now result (W.state writer.old) (W.state writer.new)
        (λ b. W.appends writer.old b writer.new) }
{
    for item in items {
        WriteBelow::<T, S>::write_below::<C, W>(below, item, writer)?;
    }
    Ok(())
}

impl<'b, T: Recursive, S: Shape<T>, U: Shape<T>, B: Levels> WriteBelow<T, Both<S, U>> for &'b B
where
    &'b B: WriteBelow<T, S>,
    &'b B: WriteBelow<T, U>,
{
    fn write_below<C: Context, W: Writer<C>>(
        &self,
        part: &(S::Value, U::Value),
        writer: &mut W,
    ) -> Result<(), C::Error> {
        WriteBelow::<T, S>::write_below::<C, W>(self, &part.0, writer)?;
        WriteBelow::<T, U>::write_below::<C, W>(self, &part.1, writer)
    }
}
