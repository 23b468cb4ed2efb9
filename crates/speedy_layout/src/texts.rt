//! The layout of texts.
ghost use Rattle.std.specs.Prelude.{ℕ, List};
ghost use Rattle.std.specs.String.{string_bytes};
ghost use Rattle.std.specs.Box.{boxed_str_bytes};
ghost use Rattle.speedy_layout.specs.Codecs.{borrowed_codec, text_codec};
ghost use Rattle.speedy_layout.specs.Prefixed.{borrowed_behind, text_behind};

use crate::layout::Layout;
use crate::prefixed::Told;
use std::boxed::BoxedStr;

impl Layout for String {
    ghost Seen = { List ℕ };

    ghost seen = { string_bytes };

    ghost layout = { text_codec };
}

impl Told for String {
    ghost Seen = { ⟦<String as Layout>⟧.Seen };

    ghost seen = { ⟦<String as Layout>⟧.seen };

    ghost behind = { text_behind };
}

impl<'a> Layout for &'a str {
    ghost Seen = { List ℕ };

    ghost seen = { λ r. r.now };

    ghost layout = { borrowed_codec text_codec };
}

impl<'a> Told for &'a str {
    ghost Seen = { ⟦<&'a str as Layout>⟧.Seen };

    ghost seen = { ⟦<&'a str as Layout>⟧.seen };

    ghost behind = { λ numbers. borrowed_behind (text_behind numbers) };
}

impl Layout for BoxedStr {
    ghost Seen = { List ℕ };

    ghost seen = { boxed_str_bytes };

    ghost layout = { text_codec };
}

impl Told for BoxedStr {
    ghost Seen = { ⟦<BoxedStr as Layout>⟧.Seen };

    ghost seen = { ⟦<BoxedStr as Layout>⟧.seen };

    ghost behind = { text_behind };
}
