//! Texts that split at a byte.
ghost use Rattle.std.specs.Prelude.{MatchOption};
ghost use Rattle.speedy_lines.specs.Split.{IsFreeOf, SplitsAt};

/// The bytes before the first such byte, and those after it.
pub(crate) fn split_at(text: &[u8], byte: u8) -> Option<(&[u8], &[u8])>
    ensures { MatchOption result (IsFreeOf byte text.now)
        (λ p. SplitsAt byte text.now p.0.now p.1.now) }
{
    let at = text.iter().position(|b| *b == byte)?;
    Some((&text[..at], &text[at + 1..]))
}
