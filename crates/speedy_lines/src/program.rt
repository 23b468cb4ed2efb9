//! The program over a whole input.
ghost use Rattle.std.specs.Prelude.{◌≡◌, [], ◌++◌, ◌∷◌, IsTrue, OnOk, List, ℕ};
ghost use Rattle.speedy_lines.specs.Split.{IsFreeOf};
ghost use Rattle.speedy_lines.specs.Run.{line_feed, lines_of, Answering, Runs};

use crate::answer::answer_line;
use crate::split::split_at;
use speedy::device::{Sink, Source};
use speedy::private::error_out_of_range_length;
use speedy::writable::WritingCollector;
use speedy::{Error, LittleEndian, Writer};
use std::alloc::Global;

/// Answers each line of the input by one line, in order, and flushes the output at its end.
///
/// Lines end with a line feed; bytes after the last line feed are a line if there are any. It ends with the
/// error of a failed call of the input or the output, or of memory, and with `OutOfRangeLength` after
/// 2^64 - 1 pulls of which none was the end.
pub fn run<R: Source, W: Sink>(alloc: Global, input: &mut R, output: &mut W) -> Result<(), Error>
    ensures { Runs result (R.source input.old) (R.source input.new)
        (W.sink output.old) (W.sink output.new) }
{
    let mut chunk = [0u8; 8192];
    let mut pending = Vec::new(alloc);
    for _i in 0..u64::MAX {
        let count = match input.pull(&mut chunk) {
            Ok(count) => count,
            Err(error) => return Err(Error::from_io_error(alloc, error)),
        };
        if count == 0 {
            return finish(alloc, &pending, output);
        }
        answer_piece(alloc, &mut pending, &chunk[..count], output)?;
    }
    Err(error_out_of_range_length())
}

// Answers the lines that end in this piece, and keeps what comes after the last one.
fn answer_piece<W: Sink>(
    alloc: Global,
    pending: &mut Vec<u8>,
    piece: &[u8],
    output: &mut W,
) -> Result<(), Error>
    requires { IsFreeOf line_feed pending.old.items }
    ensures waits { OnOk result (IsFreeOf line_feed pending.new.items) }
    ensures answers { (more : List ℕ) →
        Answering result (lines_of (pending.old.items ++ (piece.now ++ more)))
        (lines_of (pending.new.items ++ more)) (W.sink output.old) (W.sink output.new) }
{
    let mut rest = piece;
    while let Some((line, after)) = split_at(rest, b'\n') {
        answer_waiting(alloc, pending, line, output)?;
        rest = after;
    }
    pending.extend_from_slice(rest)?;
    Ok(())
}

// Answers a line of which the front waited, and nothing waits any more.
fn answer_waiting<W: Sink>(
    alloc: Global,
    pending: &mut Vec<u8>,
    line: &[u8],
    output: &mut W,
) -> Result<(), Error>
    ensures waits { OnOk result (pending.new.items ≡ []) }
    ensures answers { Answering result ((pending.old.items ++ line.now) ∷ []) []
        (W.sink output.old) (W.sink output.new) }
{
    if pending.is_empty() {
        return push_answer(alloc, line, output);
    }
    pending.extend_from_slice(line)?;
    push_answer(alloc, pending, output)?;
    pending.clear();
    Ok(())
}

// Answers a last line that has no line feed, if there is one, and flushes.
fn finish<W: Sink>(alloc: Global, pending: &[u8], output: &mut W) -> Result<(), Error>
    requires { IsFreeOf line_feed pending.now }
    ensures answers { Answering result (lines_of pending.now) []
        (W.sink output.old) (W.sink output.new) }
    ensures settled { OnOk result (IsTrue (W.sink output.new).settled) }
{
    if pending.is_empty() {
        return flush(alloc, output);
    }
    push_answer(alloc, pending, output)?;
    flush(alloc, output)
}

// Flushes the output.
fn flush<W: Sink>(alloc: Global, output: &mut W) -> Result<(), Error>
    ensures answers { Answering result [] [] (W.sink output.old) (W.sink output.new) }
    ensures settled { OnOk result (IsTrue (W.sink output.new).settled) }
{
    match output.flush() {
        Ok(()) => Ok(()),
        Err(error) => Err(Error::from_io_error(alloc, error)),
    }
}

// Answers one line.
fn push_answer<W: Sink>(alloc: Global, line: &[u8], output: &mut W) -> Result<(), Error>
    ensures { Answering result (line.now ∷ []) [] (W.sink output.old) (W.sink output.new) }
{
    let answer = answer_line(alloc, line)?;
    let mut writer = WritingCollector::new(alloc, LittleEndian {}, output);
    let outcome = writer.write_bytes(&answer);
    writer.into_sink();
    outcome
}
