//! Lists that end with a mark.
ghost use Rattle.std.specs.Prelude.{◌≡◌, ℕ, List, map};
ghost use Rattle.speedy_layout.specs.Codecs.{until_codec};

use crate::layout::Layout;
use crate::prefixed::Prefix;
use std::marker::PhantomData;

/// Entries up to a mark: each is a number of the type `N` that is not `MARK`, and a value behind it; then comes the
/// number `MARK`.
///
/// An entry whose number is `MARK`, or does not fit into an `N`, has no encoding: writing it is the error
/// `OutOfRangeLength`.
#[derive(Clone, Debug, PartialEq, Eq, Drop)]
pub struct ListUntil<N, T, const MARK: usize> {
    /// The entries.
    pub entries: Vec<(usize, T)>,
    /// Names the type of the numbers, and holds nothing.
    pub number: PhantomData<N>,
}

impl<N, T, const MARK: usize> ListUntil<N, T, MARK> {
    /// The entries before such a mark.
    #[inline]
    pub fn new(entries: Vec<(usize, T)>) -> ListUntil<N, T, MARK>
        ensures { result.entries ≡ entries }
    {
        ListUntil {
            entries,
            number: PhantomData,
        }
    }
}

impl<N: Prefix, T: Layout, const MARK: usize> Layout for ListUntil<N, T, MARK> {
    ghost Seen = { List (ℕ × T.Seen) };

    ghost seen = { λ it. map (λ entry. (entry.0, T.seen entry.1)) it.entries.items };

    ghost layout = { until_codec N.numbers MARK T.layout };
}
