//! A device around another one, of which one call fails.
ghost use Rattle.std.specs.Prelude.{◌≤◌, [], false};

use speedy::device::{Faults, Sink, Source};
use std::io;

/// Which call fails, counted from 1, and with what. It counts the calls.
#[derive(Drop)]
struct Plan {
    calls: usize,
    fails_at: usize,
    fails_with: io::ErrorKind,
}

impl Plan {
    /// The error of the next call, where it is the one that fails.
    fn next_call(&mut self) -> Option<io::Error> {
        self.calls = self.calls.saturating_add(1);
        if self.calls == self.fails_at {
            return Some(io::Error::from(self.fails_with));
        }
        None
    }
}

/// A source or a sink that moves at most `most` bytes a call. One of its calls fails, counted from 1, pulls, pushes
/// and flushes together: it moves nothing, and the calls after it go on. It tells no bytes.
#[derive(Drop)]
pub(crate) struct Failing<D> {
    pub(crate) inner: D,
    pub(crate) flushes: usize,
    most: usize,
    plan: Plan,
    faults: Faults,
    ghost moves: { 1 ≤ most },
}

impl<D> Failing<D> {
    pub(crate) fn new(
        inner: D,
        most: usize,
        fails_at: usize,
        fails_with: io::ErrorKind,
    ) -> Failing<D> {
        Failing {
            inner,
            flushes: 0,
            most: most.max(1),
            plan: Plan {
                calls: 0,
                fails_at,
                fails_with,
            },
            faults: Faults::none(),
        }
    }

    /// How many calls there were.
    pub(crate) fn calls(&self) -> usize {
        self.plan.calls
    }
}

/// A source that gives at most `most` of the bytes a pull, and of which no pull fails.
pub(crate) fn make_pieces(bytes: &[u8], most: usize) -> Failing<&[u8]> {
    Failing::new(bytes, most, 0, io::ErrorKind::Other)
}

impl<D: Source> Source for Failing<D> {
    ghost source = { λ s. record { tells = false; remaining = []; faults = s.faults } };

    fn pull(&mut self, output: &mut [u8]) -> Result<usize, io::Error> {
        if let Some(error) = self.plan.next_call() {
            self.faults.add(error);
            return Err(error);
        }
        let count = output.len().min(self.most);
        match self.inner.pull(&mut output[..count]) {
            Ok(moved) => Ok(moved),
            Err(error) => {
                self.faults.add(error);
                Err(error)
            }
        }
    }
}

impl<D: Sink> Sink for Failing<D> {
    ghost sink = { λ s. record { tells = false; taken = []; faults = s.faults; settled = (D.sink s.inner).settled } };

    fn push(&mut self, bytes: &[u8]) -> Result<usize, io::Error> {
        if let Some(error) = self.plan.next_call() {
            self.faults.add(error);
            return Err(error);
        }
        let count = bytes.len().min(self.most);
        match self.inner.push(&bytes[..count]) {
            Ok(moved) => Ok(moved),
            Err(error) => {
                self.faults.add(error);
                Err(error)
            }
        }
    }

    fn flush(&mut self) -> Result<(), io::Error> {
        self.flushes = self.flushes.saturating_add(1);
        if let Some(error) = self.plan.next_call() {
            self.faults.add(error);
            return Err(error);
        }
        match self.inner.flush() {
            Ok(()) => Ok(()),
            Err(error) => {
                self.faults.add(error);
                Err(error)
            }
        }
    }
}
