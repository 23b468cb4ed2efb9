//! Parts of a value behind references: a struct is written as a tuple of these.
use crate::layout::Layout;
use crate::lengths::{Holds, OfLength};
use crate::prefixed::Told;

/// A part of a value, behind a reference: it has the layout of the part itself and is written as it.
///
/// A struct of one's own is written as the tuple of its parts, `(Part(&self.number), Part(&self.text))`, without a
/// copy.
#[derive(Drop)]
pub struct Part<'t, T>(pub &'t T);

impl<'t, T: Layout> Layout for Part<'t, T> {
    ghost Seen = { T.Seen };

    ghost seen = { λ part. T.seen part.0.now };

    ghost layout = { T.layout };
}

impl<'t, T: Told> Told for Part<'t, T> {
    ghost Seen = { T.Seen };

    ghost seen = { λ part. T.seen part.0.now };

    ghost behind = { T.behind };
}

impl<'t, T: OfLength> OfLength for Part<'t, T> {
    ghost Seen = { T.Seen };

    ghost seen = { λ part. T.seen part.0.now };

    ghost counting = { T.counting };
}

impl<'t, T: Holds> Holds for Part<'t, T> {
    type Numbers = T::Numbers;

    ghost Seen = { T.Seen };

    ghost seen = { λ part. T.seen part.0.now };

    ghost layout = { T.layout };

    ghost numbers = { T.numbers };

    #[inline]
    fn numbers(&self) -> T::Numbers {
        self.0.numbers()
    }
}
