//! The reader of a source, buffered or not (`StreamReader`). What it reads of each type is in `reader`.
ghost use Rattle.std.specs.Prelude.{◌≡◌, ◌≤◌, ◌<◌, [], ◌++◌, length, max, false, true, IsTrue, nat_le, if◌then◌else◌};
ghost use Rattle.std.specs.Prelude.{Some, None, IfOk, IsOk, IsSome, refl};
ghost use Rattle.std.specs.Borrow.{sem, Lends};
ghost use Rattle.std.specs.Io.BufRead.{Rests};
ghost use Rattle.speedy_base.specs.Error.{IsNamed};
ghost use Rattle.speedy_base.specs.ErrorKind.{EndsInput};
ghost use Rattle.speedy_read.specs.Lending.{readers_lifetime};
ghost use Rattle.speedy_read.specs.Reading.{IsRight, Expects, LendsUntilUsed, ReadsInto, PeeksInto, ShowsAll};
ghost use Rattle.speedy_read.specs.contracts.stream_reader.StreamReader.{the_row as reader_row};
ghost use Rattle.speedy_read.specs.StreamModel.{stream_model, stream_state, first_capacity};
ghost use Rattle.speedy_read.specs.Streams.{FillsList, FillsRing, FillsUpTo};
ghost use Rattle.speedy_read.specs.WaysOfReading.{AnswersStream};

use crate::readable::ReadFrom;
use crate::reader::{EndOfInput, LendingReader};
use speedy_base::circular_buffer::CircularBuffer;
use speedy_base::context::Context;
use speedy_base::device::Source;
use speedy_base::error::{
    Error, error_end_of_input, error_end_of_stream, error_of_failed_call, error_out_of_memory,
};
use speedy_layout::fixed_numbers::MOST_DIGITS;
use std::alloc::{AllocError, Global};
use std::io;

// How many bytes the ring of a new buffered reader has room for.
const BUFFERED_CAPACITY: usize = 8192;

/// A reader of a source, under a context that it holds.
///
/// A buffered reader asks for more bytes than are read, and keeps what is left over, 8,191 bytes at most, for its next
/// reads. An unbuffered one asks for just what is read. Only a peek may hold more, and ask for memory. Nothing is lent,
/// so a value that has to borrow is the error `Unsized`.
///
/// The error of a failed call of the source is answered, and the call is not tried again. An end that is met while
/// bytes are gathered for a read is `UnexpectedEndOfInput`. One that is met while they go straight to the output, as in
/// all reads of an unbuffered reader, is an `IoError` of kind `UnexpectedEof`.
#[derive(Drop)]
pub struct StreamReader<'s, S, C> {
    context: C,
    source: &'s mut S,
    ring: CircularBuffer,
    is_buffering: bool,
    alloc: Global,
}

impl<'s, S, C: Drop> StreamReader<'s, S, C> {
    /// A reader of the source. Only a buffered one takes memory here, for 8,192 bytes.
    #[inline]
    pub fn new(
        alloc: Global,
        context: C,
        source: &'s mut S,
        is_buffering: bool,
    ) -> Result<StreamReader<'s, S, C>, AllocError>
        ensures made { IfOk result (λ r. stream_model r ≡ record {
          context = context;
          source_name = source.entry.ghost_name;
          source = source.old;
          ring = record { bytes = []; capacity = first_capacity is_buffering; room = [] };
          is_buffering = is_buffering;
        }) }
        ensures unbuffered { is_buffering ≡ false → IsOk result }
    {
        let ring = first_ring(alloc, is_buffering)?;
        Ok(StreamReader::over(alloc, context, source, ring, is_buffering))
    }

    // A reader at the place of the source, which keeps its bytes in the ring.
    fn over(
        alloc: Global,
        context: C,
        source: &'s mut S,
        ring: CircularBuffer,
        is_buffering: bool,
    ) -> StreamReader<'s, S, C>
        ensures { stream_model result ≡ record {
          context = context;
          source_name = source.entry.ghost_name;
          source = source.old;
          ring = ring;
          is_buffering = is_buffering;
        } }
    {
        StreamReader {
            context,
            source,
            ring,
            is_buffering,
            alloc,
        }
    }
}

// The ring of a new reader.
fn first_ring(alloc: Global, is_buffering: bool) -> Result<CircularBuffer, AllocError>
    ensures made { IfOk result (λ ring. ring
        ≡ record { bytes = []; capacity = first_capacity is_buffering; room = [] }) }
    ensures unbuffered { is_buffering ≡ false → IsOk result }
{
    let capacity = if is_buffering { BUFFERED_CAPACITY } else { 0 };
    CircularBuffer::with_capacity(alloc, capacity)
}

// Pulls until the output is full, and says whether it is.
fn fill_list<S: Source>(source: &mut S, output: &mut [u8]) -> Result<bool, io::Error>
    ensures { FillsList output.new result (S.source source.old) (S.source source.new) }
{
    let mut filled = 0;
    while filled < output.len() {
        let count = source.pull(&mut output[filled..])?;
        if count == 0 {
            return Ok(false);
        }
        filled += count;
    }
    Ok(true)
}

// Pulls until the ring holds `count` bytes, and says whether it does. Each pull is of what lacks, or where it reads
// ahead of all that fits, or of few where few remain.
fn fill_ring<S: Source>(
    ring: &mut CircularBuffer,
    source: &mut S,
    count: usize,
    reads_ahead: bool,
) -> Result<bool, io::Error>
    requires { count ≤ ring.old.capacity }
    ensures { FillsRing count reads_ahead result ring.old ring.new
        (S.source source.old) (S.source source.new) }
{
    while ring.len() < count {
        let lacking = count - ring.len();
        let most = if reads_ahead {
            most_ahead(source, lacking)
        } else {
            lacking
        };
        let pulled = source.pull(ring.free(most))?;
        ring.appended(pulled);
        if pulled == 0 {
            return Ok(false);
        }
    }
    Ok(true)
}

// How many bytes to ask a source for, of which `lacking` have to come: all that fit, or few where the source says that
// few remain. The ring lays zeros in what it lends, so a short value takes less time.
#[inline]
fn most_ahead<S: Source>(source: &S, lacking: usize) -> usize
    ensures { lacking ≤ result }
{
    if source.can_pull_at_least(lacking) {
        for few in [256, 1_024, 4_096] {
            if lacking <= few && !source.can_pull_at_least(few + 1) {
                return few;
            }
        }
    }
    usize::MAX
}

// What a read answers where the source ended.
#[cold]
#[inline(never)]
fn ended<E: From<Error>>(alloc: Global) -> E
    ensures { IsNamed E.from_gives (EndsInput true) result }
{
    error_end_of_stream(alloc)
}

// Returns the result that it is given. Taken apart and made again, it leaves its caller's own result in registers on
// the way that makes no call.
#[inline(always)]
fn by_parts<E>(answer: Result<(), E>) -> Result<(), E>
    ensures { result ≡ answer }
{
    match answer {
        Ok(()) => Ok(()),
        Err(error) => Err(error),
    }
}

impl<'s, S: Source, C: Context> StreamReader<'s, S, C> {
    /// The source, behind the bytes that the reader still holds: these are lost.
    #[inline]
    pub fn into_source(self) -> &'s mut S
        ensures same_source { result.ghost_name ≡ (stream_model self.entry).source_name }
        ensures source { result.now ≡ (stream_model self.entry).source }
        ensures lost { (stream_state S.source C.mode self.entry).remaining
            ≡ (stream_model self.entry).ring.bytes ++ (S.source result.now).remaining }
    {
        self.source
    }

    // Fills the ring until it holds `count` bytes.
    fn fill(&mut self, count: usize) -> Result<(), C::Error>
        requires { count ≤ self.old.ring.capacity }
        ensures { FillsUpTo C.Error.from_gives C.Error.eof count result self.old.ring self.new.ring
            (stream_state S.source C.mode self.old) (stream_state S.source C.mode self.new) }
    {
        match fill_ring(&mut self.ring, self.source, count, self.is_buffering) {
            Ok(true) => Ok(()),
            Ok(false) => Err(error_end_of_input()),
            Err(error) => Err(error_of_failed_call(self.alloc, error)),
        }
    }

    // Reads more than the ring holds: by the ring what it has room for, where it reads ahead, and else past it.
    #[inline(never)]
    fn read_more(&mut self, output: &mut [u8]) -> Result<(), C::Error>
        requires { length self.old.ring.bytes < length output.old }
        ensures { ReadsInto C.Error.IsEof (stream_state S.source C.mode) output.old output.new
            result self.old self.new }
    {
        if !self.is_buffering || self.ring.capacity() <= output.len() {
            return self.read_past_ring(output);
        }
        self.fill(output.len())?;
        self.ring.consume_into(output);
        Ok(())
    }

    // Reads all that the ring holds, and the rest straight from the source, by as many calls as it takes.
    #[inline(never)]
    fn read_past_ring(&mut self, output: &mut [u8]) -> Result<(), C::Error>
        requires { length self.old.ring.bytes < length output.old }
        ensures { ReadsInto C.Error.IsEof (stream_state S.source C.mode) output.old output.new
            result self.old self.new }
    {
        let held = self.ring.len();
        self.ring.consume_into(&mut output[..held]);
        match fill_list(self.source, &mut output[held..]) {
            Ok(true) => Ok(()),
            Ok(false) => Err(ended(self.alloc)),
            Err(error) => Err(error_of_failed_call(self.alloc, error)),
        }
    }

    // Reads more than the ring holds.
    #[inline(always)]
    fn read_rest(&mut self, output: &mut [u8]) -> Result<(), C::Error>
        requires { length self.old.ring.bytes < length output.old }
        ensures { ReadsInto C.Error.IsEof (stream_state S.source C.mode) output.old output.new
            result self.old self.new }
    {
        if !self.is_buffering && self.ring.is_empty() {
            return self.read_unbuffered(output);
        }
        by_parts(self.read_more(output))
    }

    // The same of a few bytes, by a place of their own: the output is lent to no call, so that a number that is read
    // stays in registers.
    #[inline(always)]
    fn read_few(&mut self, output: &mut [u8]) -> Result<(), C::Error>
        requires more { length self.old.ring.bytes < length output.old }
        requires few { length output.old ≤ 16 }
        ensures { ReadsInto C.Error.IsEof (stream_state S.source C.mode) output.old output.new
            result self.old self.new }
    {
        let mut bytes = [0; MOST_DIGITS];
        let few = &mut bytes[..output.len()];
        self.read_rest(few)?;
        output.copy_from_slice(few);
        Ok(())
    }

    // Reads some bytes straight from the source, by one call as a rule: nothing is held of it. It stands inline, so
    // what is rare in it is called.
    #[inline(always)]
    fn read_unbuffered(&mut self, output: &mut [u8]) -> Result<(), C::Error>
        requires nothing_held { self.old.ring.bytes ≡ [] }
        requires some { 0 < length output.old }
        ensures { ReadsInto C.Error.IsEof (stream_state S.source C.mode) output.old output.new
            result self.old self.new }
    {
        match self.source.pull(output) {
            Ok(first) => {
                if first == output.len() {
                    return Ok(());
                }
                if first == 0 {
                    return Err(ended(self.alloc));
                }
                by_parts(self.read_past_ring(&mut output[first..]))
            }
            Err(error) => Err(error_of_failed_call(self.alloc, error)),
        }
    }
}

impl<'s, 'b, C: Context, S: Source> LendingReader<&'b [u8], C> for StreamReader<'s, S, C> {
    ghost at = { λ r. r.context };

    ghost with_context = { λ r c. record r { context = c } };

    ghost state = { λ r. stream_state S.source C.mode r };

    ghost can_read = { λ r n. if nat_le n (length r.ring.bytes) then Some true else None };

    /// Fills the output with the next bytes. Where the ring holds them all, as for an empty output, the source is not
    /// called.
    #[inline(always)]
    fn read_bytes(&mut self, output: &mut [u8]) -> Result<(), C::Error>
        ensures reads { let reader = ⟦<StreamReader<'s, S, C> as LendingReader<&'b [u8], C>>⟧ in
            ReadsInto C.Error.IsEof reader.state output.old output.new result self.old self.new }
        ensures untouched { length output.old ≤ length (stream_model self.old).ring.bytes
            → IsOk result × ((stream_model self.new).source ≡ (stream_model self.old).source) }
    {
        if output.len() <= self.ring.len() {
            self.ring.consume_into(output);
            return Ok(());
        }
        if output.len() <= MOST_DIGITS {
            return self.read_few(output);
        }
        self.read_rest(output)
    }

    /// Fills the output with the next bytes, and takes none. What is not held yet is pulled into the ring, which may
    /// grow.
    fn peek_bytes(&mut self, output: &mut [u8]) -> Result<(), C::Error>
        ensures peeks { let reader = ⟦<StreamReader<'s, S, C> as LendingReader<&'b [u8], C>>⟧ in
            PeeksInto C.Error.IsEof reader.state output.old output.new result self.old self.new }
        ensures held { let reader = ⟦<StreamReader<'s, S, C> as LendingReader<&'b [u8], C>>⟧ in
            length output.old ≤ length (stream_model self.old).ring.bytes
            → IsOk result × (reader.state self.new ≡ reader.state self.old) }
        ensures exact { (stream_model self.old).is_buffering ≡ false
            → length (stream_model self.new).ring.bytes
            ≤ max (length (stream_model self.old).ring.bytes) (length output.old) }
    {
        let count = output.len();
        let lacking = count.saturating_sub(self.ring.len());
        if self.ring.reserve(lacking).is_err() {
            return Err(error_out_of_memory());
        }
        self.fill(count)?;
        output.copy_from_slice(self.ring.as_slices_of_length(count).0);
        Ok(())
    }

    #[inline(always)]
    fn can_read_at_least(&self, size: usize) -> Option<bool>
        ensures says { let reader = ⟦<StreamReader<'s, S, C> as LendingReader<&'b [u8], C>>⟧ in
            result ≡ reader.can_read self.now size }
        ensures right { let reader = ⟦<StreamReader<'s, S, C> as LendingReader<&'b [u8], C>>⟧ in
            IsRight result (reader.state self.now) size }
    {
        if size <= self.ring.len() {
            Some(true)
        } else {
            None
        }
    }

    fn expects_at_least(&self, size: usize) -> bool
        ensures { let reader = ⟦<StreamReader<'s, S, C> as LendingReader<&'b [u8], C>>⟧ in
            IsTrue result → Expects (reader.state self.now) size }
    {
        let lacking = size.saturating_sub(self.ring.len());
        self.source.can_pull_at_least(lacking)
    }

    #[inline(always)]
    fn read_bytes_borrowed(&mut self, _length: usize) -> Option<Result<&'b [u8], C::Error>> {
        None
    }

    /// Lends the next bytes from the ring, if it holds them all, or from the source, if the ring is empty and the
    /// source lends them.
    #[inline(always)]
    fn read_bytes_borrowed_from_reader(&mut self, count: usize) -> Option<Result<&[u8], EndOfInput>>
        ensures* after { let reader = ⟦<StreamReader<'s, S, C> as LendingReader<&'b [u8], C>>⟧ in
            sem 𝓛 (Rests (reader_row readers_lifetime S.row C.row)
            self.entry (λ new. LendsUntilUsed (λ b. b.now) count result
            (reader.state self.old) (reader.state new))) }
        ensures held { let held = length (stream_model self.old).ring.bytes in
            0 < held → count ≤ held → IsSome result }
    {
        if self.ring.is_empty() {
            return match self.source.pull_lent(count) {
                Some(bytes) => Some(Ok(bytes)),
                None => None,
            };
        }
        if count <= self.ring.len() {
            return Some(Ok(self.ring.consume_lent(count)));
        }
        None
    }

    #[inline(always)]
    fn peek_bytes_until_eof(&self) -> Option<&[u8]>
        ensures { let reader = ⟦<StreamReader<'s, S, C> as LendingReader<&'b [u8], C>>⟧ in
            ShowsAll (λ b. b.now) result (reader.state self.now) }
    {
        None
    }

    #[inline(always)]
    fn alloc(&self) -> Global {
        self.alloc
    }

    #[inline(always)]
    fn context(&self) -> &C
        ensures { let reader = ⟦<StreamReader<'s, S, C> as LendingReader<&'b [u8], C>>⟧ in
            result.now ≡ reader.at self.now }
    {
        &self.context
    }

    #[inline(always)]
    fn context_mut(&mut self) -> &mut C
        ensures* writes_back { let reader = ⟦<StreamReader<'s, S, C> as LendingReader<&'b [u8], C>>⟧ in
            sem 𝓛 (Lends (reader_row readers_lifetime S.row C.row) C.row
            self.entry result (reader.with_context self.old)) }
        ensures value { let reader = ⟦<StreamReader<'s, S, C> as LendingReader<&'b [u8], C>>⟧ in
            result.now ≡ reader.at self.old }
    {
        &mut self.context
    }

    ghost mode_at = { λ r. refl };

    ghost state_with = { λ r c. refl };
}

// The value that a prefix of what the source gives encodes. What a buffered reader holds at the end is lost.
pub(crate) fn read_stream<'a, T: ReadFrom<&'a [u8], C>, C: Context, S: Source>(
    alloc: Global,
    context: C,
    source: &mut S,
    is_buffering: bool,
) -> Result<T, C::Error>
    ensures { AnswersStream C.Error.IsEof S.source T.seen T.layout (C.mode context)
        is_buffering result source.old source.new }
{
    let Ok(ring) = first_ring(alloc, is_buffering) else {
        return Err(error_out_of_memory());
    };
    let mut reader = StreamReader::over(alloc, context, source, ring, is_buffering);
    let value = T::read_from(&mut reader);
    reader.into_source();
    value
}
