//! The layout of `Box` and of references: that of their content.
ghost use Rattle.speedy_layout.specs.Codecs.{borrowed_codec, owned_codec};

use crate::layout::Layout;

impl<T: Layout> Layout for Box<T> {
    ghost Seen = { T.Seen };

    ghost seen = { λ b. T.seen b.value };

    ghost layout = { owned_codec T.layout };
}

impl<'a, T: Layout> Layout for &'a T {
    ghost Seen = { T.Seen };

    ghost seen = { λ r. T.seen r.now };

    ghost layout = { borrowed_codec T.layout };
}

impl<'a, T: Layout> Layout for &'a mut T {
    ghost Seen = { T.Seen };

    ghost seen = { λ r. T.seen r.now };

    ghost layout = { T.layout };
}
