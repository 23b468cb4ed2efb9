//! That bytes are below 256, shown to a proof.
ghost use Rattle.speedy_base.specs.Digits.{AreBytes};

/// Shows that each of the bytes is below 256: a call does not say so of what it puts into a buffer, or lends. This does
/// nothing.
#[inline(always)]
pub fn bytes_in_range(_bytes: &[u8])
    ensures { AreBytes _bytes.now }
{}
