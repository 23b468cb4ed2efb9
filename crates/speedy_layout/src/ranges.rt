//! The layout of ranges: their two ends.
ghost use Rattle.std.specs.Range.{range_inclusive_start, range_inclusive_end};
ghost use Rattle.speedy_layout.specs.Codecs.{pair_codec};

use crate::layout::Layout;
use std::ops::{Range, RangeInclusive};

impl<T: Layout> Layout for Range<T> {
    ghost Seen = { T.Seen × T.Seen };

    ghost seen = { λ r. (T.seen r.start, T.seen r.end) };

    ghost layout = { pair_codec T.layout T.layout };
}

impl<T: Layout> Layout for RangeInclusive<T> {
    ghost Seen = { T.Seen × T.Seen };

    ghost seen = { λ r. (T.seen (range_inclusive_start r), T.seen (range_inclusive_end r)) };

    ghost layout = { pair_codec T.layout T.layout };
}
