//! Recursive types: a value holds values of its own type, and has a bound on its levels.
ghost use Rattle.std.specs.Prelude.{ℕ};
ghost use Rattle.speedy.specs.Layers.{Layer, own_layer, its_layer, layer_of, owned_layer, option_layer, list_layer};
ghost use Rattle.speedy.specs.Layers.{pair_layer};

mod read;
mod write;

pub use read::{ReadBelow, ReadLevel, ReadOwn};
use speedy_layout::layout::Layout;
use std::marker::PhantomData;
pub use write::{WriteBelow, WriteLevel, WriteOwn};

/// So many levels, 1, 2, 4, 8, 16, 32 or 64, as a constant of a type of one's own, which is a struct of an option of a
/// reference to the level below: `const LEVELS: &MyLevel = level_chain!(16, MyLevel);`. For other numbers name a level
/// to begin with: `level_chain!(8, MyLevel, level_chain!(2, MyLevel))` are ten.
#[macro_export]
macro_rules! level_chain {
    ($count:tt, $level:ident) => {
        $crate::level_chain!($count, $level, &$level(None))
    };
    (1, $level:ident, $below:expr) => {
        &$level(Some($below))
    };
    (2, $level:ident, $below:expr) => {
        $crate::level_chain!(1, $level, $crate::level_chain!(1, $level, $below))
    };
    (4, $level:ident, $below:expr) => {
        $crate::level_chain!(2, $level, $crate::level_chain!(2, $level, $below))
    };
    (8, $level:ident, $below:expr) => {
        $crate::level_chain!(4, $level, $crate::level_chain!(4, $level, $below))
    };
    (16, $level:ident, $below:expr) => {
        $crate::level_chain!(8, $level, $crate::level_chain!(8, $level, $below))
    };
    (32, $level:ident, $below:expr) => {
        $crate::level_chain!(16, $level, $crate::level_chain!(16, $level, $below))
    };
    (64, $level:ident, $below:expr) => {
        $crate::level_chain!(32, $level, $crate::level_chain!(32, $level, $below))
    };
}

/// What knows how many levels are left.
pub trait Levels {
    ghost levels: { Self → ℕ };
}

impl<'a, B: Levels> Levels for &'a B {
    ghost levels = { λ level. B.levels level.now };
}

/// A type whose values hold values of the type itself.
pub trait Recursive {
    ghost layer: { Layer Self Self };
}

/// How a part holds values of the recursive type `T`. It says so as a type, and has no values.
pub trait Shape<T> {
    /// The type of the part.
    type Value: Drop;

    ghost layer: { Layer T Self.Value };
}

/// Parts that hold no value of a recursive type. It names them as a type, and has no values.
pub trait OwnParts {
    /// The parts, as a tuple.
    type Parts: Layout + Drop;
}

/// The parts that `P` names, which hold no value of the recursive type.
pub struct Own<P> {
    part: PhantomData<P>,
}

/// A value of the recursive type.
pub struct Itself {}

/// A part in a `Box`.
pub struct Boxed<S> {
    part: PhantomData<S>,
}

/// A part that may be absent.
pub struct Optional<S> {
    part: PhantomData<S>,
}

/// A vector of parts, behind their number.
pub struct Listed<S> {
    part: PhantomData<S>,
}

/// A part, and another one.
pub struct Both<S, U> {
    parts: PhantomData<(S, U)>,
}

/// A part that is lent, to be written.
pub struct Lent<'t, S> {
    part: PhantomData<&'t S>,
}

impl<T, P: OwnParts> Shape<T> for Own<P> {
    type Value = P::Parts;

    ghost layer = { own_layer P.Parts.seen P.Parts.layout };
}

impl<T: Drop> Shape<T> for Itself {
    type Value = T;

    ghost layer = { its_layer };
}

impl<T, S: Shape<T>> Shape<T> for Boxed<S> {
    type Value = Box<S::Value>;

    ghost layer = { layer_of (owned_layer S.layer) (λ part. part.value) };
}

impl<T, S: Shape<T>> Shape<T> for Optional<S> {
    type Value = Option<S::Value>;

    ghost layer = { option_layer S.layer };
}

impl<T, S: Shape<T>> Shape<T> for Listed<S> {
    type Value = Vec<S::Value>;

    ghost layer = { layer_of (list_layer S.layer) (λ part. part.items) };
}

impl<T, S: Shape<T>, U: Shape<T>> Shape<T> for Both<S, U> {
    type Value = (S::Value, U::Value);

    ghost layer = { pair_layer S.layer U.layer };
}

impl<'t, T, S: Shape<T>> Shape<T> for Lent<'t, S>
where
    S::Value: 't,
{
    type Value = &'t S::Value;

    ghost layer = { layer_of S.layer (λ part. part.now) };
}
