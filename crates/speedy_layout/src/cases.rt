//! The cases of an enum, each behind a tag of its own.
ghost use Rattle.std.specs.Prelude.{◌⊎◌};
ghost use Rattle.speedy_layout.specs.Choices.{Choices, unit_case, one_case, either_case};
ghost use Rattle.speedy_layout.specs.Choices.{choices_behind};

use crate::layout::Layout;
use crate::prefixed::Told;
use std::marker::PhantomData;

/// Which cases there are, each with its tag: one, or a tree of them. It says so as a type, and has no values.
pub trait CaseTree {
    /// What is seen of a value of one of the cases.
    ghost Seen: { Type 0 };

    ghost choices: { Choices Seen };
}

/// A case with the tag `TAG`, and no parts.
pub struct UnitCase<const TAG: usize> {
    value: PhantomData<()>,
}

/// A case with the tag `TAG`, whose parts are encoded as a `T`.
pub struct Case<const TAG: usize, T> {
    part: PhantomData<T>,
}

/// The cases `A`, and the cases `B`. Of two cases with one tag the first counts: a value of the second has no encoding.
pub struct Either<A, B> {
    parts: PhantomData<(A, B)>,
}

impl<const TAG: usize> CaseTree for UnitCase<TAG> {
    ghost Seen = { Unit {0} };

    ghost choices = { unit_case TAG };
}

impl<const TAG: usize, T: Layout> CaseTree for Case<TAG, T> {
    ghost Seen = { T.Seen };

    ghost choices = { one_case TAG T.layout };
}

impl<A: CaseTree, B: CaseTree> CaseTree for Either<A, B> {
    ghost Seen = { A.Seen ⊎ B.Seen };

    ghost choices = { either_case A.choices B.choices };
}

/// A type whose values are of several cases, each told by its tag: an enum.
pub trait Cases {
    /// What is seen of a value.
    ghost Seen: { Type 0 };

    ghost seen: { Self → Seen };

    ghost choices: { Choices Seen };
}

impl<T: Cases> Told for T {
    ghost Seen = { T.Seen };

    ghost seen = { T.seen };

    ghost behind = { choices_behind T.choices };
}
