//! Sources and sinks, where bytes come from and go to: slices, vectors, and files and sockets (`Counted`).
ghost use Rattle.std.specs.Prelude.{◌≡◌, ◌≤◌, ◌↔◌, min, [], ◌++◌, length, take, drop, IsOk, IfOk, IfErr};
ghost use Rattle.std.specs.Prelude.{IsTrue, IsSome, false};
ghost use Rattle.std.specs.Borrow.{sem};
ghost use denote.Builtin.{u8 as byte};
ghost use denote.Slice.{ShrSlice};
ghost use mir.Syntax.{named};
ghost use Rattle.std.specs.Io.BufRead.{Rests};
ghost use Rattle.speedy_base.specs.FailedCalls.{OneFailed};
ghost use Rattle.std.specs.IoError.{error_kind};
ghost use Rattle.std.specs.Io.KnownBytes.{ReadConsumes, WriteAppends, Keeps};
ghost use Rattle.speedy_base.specs.Device.{SourceState, SinkState, SourceHolds, Pulls, PullsLent, Pushes, Flushes};
ghost use Rattle.speedy_base.specs.MemoryDevices.{bytes_source, vec_sink_bytes, vec_sink_faults, vec_sink_state};
ghost use Rattle.speedy_base.specs.MemoryDevices.{counted_inner, counted_faults, counted_settled, counted_source};
ghost use Rattle.speedy_base.specs.MemoryDevices.{counted_sink, no_faults};

use std::alloc::Global;
use std::io::{self, ErrorKind, Read, Write};

/// The failed calls of a source or a sink: how many there were, and what the last of them answered.
///
/// The count stays at its greatest value once it is there.
#[derive(Clone, Copy, Drop)]
pub struct Faults {
    /// How many calls failed.
    pub count: u64,
    /// The error of the last one.
    pub last: Option<io::Error>,
}

impl Faults {
    /// No call has failed.
    pub fn none() -> Faults
        ensures { result ≡ no_faults }
    {
        Faults {
            count: 0,
            last: None,
        }
    }

    /// One call more has failed, and answered this error.
    pub fn add(&mut self, error: io::Error)
        ensures one { OneFailed error self.old self.new }
        ensures kept { self.old.count ≤ self.new.count }
    {
        self.count = self.count.saturating_add(1);
        self.last = Some(error);
    }
}

/// A source: where bytes come from.
///
/// A source counts its failed calls, and keeps the error of the last one. It is the caller who decides whether to go
/// on after one.
pub trait Source {
    /// What contracts see of the source: the bytes that remain, if it tells them, and its failed calls.
    ghost source: { Self → SourceState };

    /// Moves bytes to the front of the output, and says how many. What lies behind them in the output may change too.
    fn pull(&mut self, output: &mut [u8]) -> Result<usize, io::Error>
        ensures { Pulls result (source self.old) (source self.new) output.new };

    /// Whether it is known that at least `size` bytes remain. Only a source that tells its bytes to the contracts may
    /// answer `true`. A reader then makes room for a long list at once. This body answers `false`.
    #[inline(always)]
    fn can_pull_at_least(&self, _size: usize) -> bool
        ensures { IsTrue result → SourceHolds (source self.now) _size }
    {
        false
    }

    /// Takes the next `count` bytes and lends them until the source is used again, where it holds so many in memory.
    /// A reader then copies them once. This body lends none, and takes none.
    #[inline(always)]
    fn pull_lent(&mut self, _count: usize) -> Option<&[u8]>
        ensures* after { sem 𝓛 (Rests Self.row self.entry (λ new.
            PullsLent (λ b. b.now) _count result (source self.old) (source new))) }
    {
        None
    }
}

/// A sink: where bytes go to.
///
/// A sink counts its failed calls, and keeps the error of the last one. It is the caller who decides whether to go on
/// after one. A push passes nothing on that waited before: that is what a flush is for.
pub trait Sink {
    /// What contracts see of the sink: the bytes that it took, if it tells them, its failed calls, and whether some
    /// bytes may still wait.
    ghost sink: { Self → SinkState };

    /// Takes bytes from the front of `bytes`, and says how many.
    fn push(&mut self, bytes: &[u8]) -> Result<usize, io::Error>
        ensures { Pushes result (sink self.old) (sink self.new) bytes.now };

    /// Passes on what was taken and still waits somewhere. After a flush that succeeds nothing does.
    fn flush(&mut self) -> Result<(), io::Error>
        ensures { Flushes result (sink self.old) (sink self.new) };

    /// Tells the sink how many bytes are pushed next, for which it may make room at once. It takes no bytes, and does
    /// not say whether there is room. This body does nothing.
    #[inline(always)]
    fn reserve(&mut self, _additional: usize)
        ensures { sink self.new ≡ sink self.old }
    {}
}

/// Bytes in memory as a source. The slice is then what is left of them.
impl Source for &[u8] {
    ghost source = { λ s. bytes_source s.now };

    /// Whether `size` bytes are left.
    #[inline(always)]
    fn can_pull_at_least(&self, size: usize) -> bool
        ensures holds { IsTrue result → SourceHolds (bytes_source self.now.now) size }
        ensures knows { IsTrue result ↔ (size ≤ length self.now.now) }
    {
        size <= self.len()
    }

    /// Moves as many bytes as are left, or as there is room for.
    #[inline(always)]
    fn pull(&mut self, output: &mut [u8]) -> Result<usize, io::Error>
        ensures pulls { Pulls result (bytes_source self.old.now) (bytes_source self.new.now)
            output.new }
        ensures never_fails { IsOk result }
        ensures count { IfOk result (λ n. n ≡ min (length self.old.now) (length output.old)) }
        ensures copied { IfOk result (λ n. output.new ≡ take n self.old.now ++ drop n output.old) }
        ensures rest { IfOk result (λ n. self.new.now ≡ drop n self.old.now) }
    {
        let all: &[u8] = *self;
        let wanted = output.len();
        // As a rule the bytes are there: then the compiler knows how many it copies wherever the caller does.
        if wanted <= all.len() {
            output.copy_from_slice(&all[..wanted]);
            *self = &all[wanted..];
            return Ok(wanted);
        }
        let count = all.len();
        output[..count].copy_from_slice(all);
        *self = &all[count..];
        Ok(count)
    }

    /// Lends the next `count` bytes, where so many are left.
    #[inline(always)]
    fn pull_lent(&mut self, count: usize) -> Option<&[u8]>
        ensures* after { sem 𝓛 (Rests (ShrSlice (named 1) [] byte) self.entry (λ new.
            PullsLent (λ b. b.now) count result (bytes_source self.old.now) (bytes_source new.now))) }
        ensures lends { IsSome result ↔ (count ≤ length self.old.now) }
    {
        let (front, rest) = self.split_at_checked(count)?;
        *self = rest;
        Some(front)
    }
}

/// A sink that keeps in memory what it takes.
#[derive(Drop)]
pub struct VecSink {
    bytes: Vec<u8>,
    faults: Faults,
}

impl VecSink {
    /// A sink that has taken nothing.
    pub fn new(alloc: Global) -> VecSink
        ensures empty { vec_sink_bytes result ≡ [] }
        ensures no_faults { vec_sink_faults result ≡ no_faults }
    {
        VecSink {
            bytes: Vec::new(alloc),
            faults: Faults::none(),
        }
    }

    /// All that was taken.
    pub fn bytes(&self) -> &[u8]
        ensures { result.now ≡ vec_sink_bytes self.now }
    {
        &self.bytes
    }

    /// All that was taken, without a copy.
    pub fn into_bytes(self) -> Vec<u8>
        ensures { result.items ≡ vec_sink_bytes self }
    {
        self.bytes
    }
}

impl Sink for VecSink {
    ghost sink = { vec_sink_state };

    /// Takes all of `bytes`, or none of them where there is no memory for them.
    #[inline]
    fn push(&mut self, bytes: &[u8]) -> Result<usize, io::Error>
        ensures pushes { Pushes result (vec_sink_state self.old) (vec_sink_state self.new)
            bytes.now }
        ensures all { IfOk result (λ n. n ≡ length bytes.now) }
        ensures why { IfErr result (λ e. error_kind e ≡ ErrorKind.OutOfMemory) }
    {
        if self.bytes.extend_from_slice(bytes).is_err() {
            let error = io::Error::new(ErrorKind::OutOfMemory, "no memory for the bytes");
            self.faults.add(error);
            return Err(error);
        }
        Ok(bytes.len())
    }

    /// Asks for room for `additional` bytes more. Where there is no memory for them, a push may still find some for
    /// fewer.
    fn reserve(&mut self, additional: usize)
        ensures { vec_sink_state self.new ≡ vec_sink_state self.old }
    {
        let _ = self.bytes.reserve(additional);
    }

    /// Nothing waits, so there is nothing to do.
    fn flush(&mut self) -> Result<(), io::Error>
        ensures flushes { Flushes result (vec_sink_state self.old) (vec_sink_state self.new) }
        ensures never_fails { IsOk result }
    {
        Ok(())
    }
}

/// A source or a sink made of a reader or a writer of the standard library. It keeps its failed calls, and whether it
/// was flushed since it was last written to.
#[derive(Drop)]
pub struct Counted<S> {
    inner: S,
    faults: Faults,
    settled: bool,
}

impl<S> Counted<S> {
    /// A device with no failed call yet, and no flush: what was written before may still wait.
    pub fn new(inner: S) -> Counted<S>
        ensures same { counted_inner result ≡ inner }
        ensures no_faults { counted_faults result ≡ no_faults }
        ensures not_settled { counted_settled result ≡ false }
    {
        Counted {
            inner,
            faults: Faults::none(),
            settled: false,
        }
    }

    /// The reader or writer inside. The count of failed calls is lost.
    pub fn into_inner(self) -> S
        ensures { result ≡ counted_inner self }
    {
        let Counted { inner, .. } = self;
        inner
    }
}

impl<R: Read> Source for Counted<R> {
    ghost source = { counted_source };

    /// Reads once. A read that was interrupted has failed like any other: nothing is tried again here.
    fn pull(&mut self, output: &mut [u8]) -> Result<usize, io::Error>
        ensures pulls { Pulls result (counted_source self.old) (counted_source self.new)
            output.new }
        ensures reads { ReadConsumes (R.remaining (counted_inner self.old))
            (R.remaining (counted_inner self.new)) result output.new }
    {
        match self.inner.read(output) {
            Ok(count) => Ok(count),
            Err(error) => {
                self.faults.add(error);
                Err(error)
            }
        }
    }
}

impl<W: Write> Sink for Counted<W> {
    ghost sink = { counted_sink };

    /// Writes once. A write that was interrupted has failed, and so has one that took none of some bytes: its error is
    /// of the kind `WriteZero`. Nothing is tried again here.
    fn push(&mut self, bytes: &[u8]) -> Result<usize, io::Error>
        ensures pushes { Pushes result (counted_sink self.old) (counted_sink self.new) bytes.now }
        ensures waits { counted_settled self.new ≡ false }
        ensures writes { WriteAppends (W.contents (counted_inner self.old))
            (W.contents (counted_inner self.new)) result bytes.now }
    {
        self.settled = false;
        match self.inner.write(bytes) {
            Ok(0) if !bytes.is_empty() => {
                let error = io::Error::new(ErrorKind::WriteZero, "the writer took no byte");
                self.faults.add(error);
                Err(error)
            }
            Ok(count) => Ok(count),
            Err(error) => {
                self.faults.add(error);
                Err(error)
            }
        }
    }

    /// Flushes once.
    fn flush(&mut self) -> Result<(), io::Error>
        ensures flushes { Flushes result (counted_sink self.old) (counted_sink self.new) }
        ensures keeps { Keeps (W.contents (counted_inner self.old))
            (W.contents (counted_inner self.new)) }
    {
        match self.inner.flush() {
            Ok(()) => {
                self.settled = true;
                Ok(())
            }
            Err(error) => {
                self.faults.add(error);
                Err(error)
            }
        }
    }
}
