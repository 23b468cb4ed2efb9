//! The layout of `Cow`, `CowStr` and `CowSlice`: that of their content.
ghost use Rattle.std.specs.Prelude.{ℕ, List, map};
ghost use Rattle.std.specs.Cow.{cow_value, cow_slice_items, cow_str_bytes};
ghost use Rattle.speedy_layout.specs.Codecs.{list_codec, text_codec};
ghost use Rattle.speedy_layout.specs.Prefixed.{list_behind, text_behind};

use crate::layout::Layout;
use crate::prefixed::Told;
use std::borrow::{Cow, CowSlice, CowStr};

// It is read as owned, so it needs no reader that lends but for its content.
impl<'a, T: Layout> Layout for Cow<'a, T> {
    ghost Seen = { T.Seen };

    ghost seen = { λ c. T.seen (cow_value c) };

    ghost layout = { T.layout };
}

impl<'a, T: Told> Told for Cow<'a, T> {
    ghost Seen = { T.Seen };

    ghost seen = { λ c. T.seen (cow_value c) };

    ghost behind = { T.behind };
}

// It may be read as an owned list, so it too needs a reader that lends only where its items do.
impl<'a, T: Layout> Layout for CowSlice<'a, T> {
    ghost Seen = { List T.Seen };

    ghost seen = { λ c. map T.seen (cow_slice_items c) };

    ghost layout = { list_codec T.layout };
}

impl<'a, T: Layout> Told for CowSlice<'a, T> {
    ghost Seen = { ⟦<CowSlice<'a, T> as Layout>⟧.Seen };

    ghost seen = { ⟦<CowSlice<'a, T> as Layout>⟧.seen };

    ghost behind = { list_behind T.layout };
}

// It may be read as an owned text.
impl<'a> Layout for CowStr<'a> {
    ghost Seen = { List ℕ };

    ghost seen = { cow_str_bytes };

    ghost layout = { text_codec };
}

impl<'a> Told for CowStr<'a> {
    ghost Seen = { ⟦<CowStr<'a> as Layout>⟧.Seen };

    ghost seen = { ⟦<CowStr<'a> as Layout>⟧.seen };

    ghost behind = { text_behind };
}
