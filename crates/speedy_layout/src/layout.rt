//! The layout of a type (`Layout`): which bytes encode which values.
ghost use Rattle.speedy_layout.specs.Codecs.{Codec};

/// The layout of a type: which bytes encode which values, and which of these are written.
///
/// It has no function to run. A type of your own quotes the layout of a tuple of its parts.
pub trait Layout {
    /// What is seen of a value: the value itself, where an impl says nothing else. Two values are the same value where
    /// the same is seen of them.
    ghost Seen: { Type 0 } = { Self };

    ghost seen: { Self → Seen };

    /// Which bytes encode which values under a context's mode (`format`), the least size of these (`least`),
    /// and the laws: bytes encode at most one value, the encodings are prefix-free, and a shortest one is written.
    ghost layout: { Codec Seen };
}
