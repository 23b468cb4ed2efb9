//! Values behind a number that tells of them: a length, a tag, or the number of their bytes.
ghost use Rattle.std.specs.Option.{option_map};
ghost use Rattle.std.specs.Prelude.{◌≡◌};

pub use speedy_layout::frames::Framed;
use speedy_layout::part::Part;
pub use speedy_layout::prefixed::{Prefix, Prefixed, Told, U7, U7_MAX};
pub use speedy_read::prefixed::{ReadPrefix, ReadTold};
pub use speedy_write::prefixed::{WritePrefix, WriteTold};

/// The value of an option, if any, lent behind a number of the type `N` that tells of it: so a struct writes a part
/// that is an option of such a value.
#[inline]
pub fn lent_option<'t, N, T: Told>(option: &'t Option<T>) -> Option<Prefixed<N, Part<'t, T>>>
    ensures { option_map (λ lent. T.seen lent.value.0.now) result ≡ option_map T.seen option.now }
{
    match option {
        Some(value) => Some(Prefixed::new(Part(value))),
        None => None,
    }
}

/// The value, if any, of an option that was read behind a number that tells of it.
#[inline]
pub fn option_value<N, T: Told>(read: Option<Prefixed<N, T>>) -> Option<T>
    ensures { option_map (λ told. T.seen told.value) read ≡ option_map T.seen result }
{
    match read {
        Some(told) => Some(told.value),
        None => None,
    }
}
