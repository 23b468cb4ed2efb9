//! A file of records, one after the other.
ghost use Rattle.std.specs.Prelude.{◌⊎◌, ℕ, List, map, MatchResult};
ghost use Rattle.speedy.specs.Mode.{plain_mode};
ghost use Rattle.speedy.specs.Format.{Each};
ghost use Rattle.speedy.specs.WaysOfWriting.{WritesAndFlushes, WritesToFile};
ghost use Rattle.speedy_examples.specs.Callers.{IsFailure, IsRefusal};

use crate::streams::all_messages;
use speedy::device::{Counted, Sink};
use speedy::private::write_to_stream_and_flush_with_ctx;
use speedy::{Endianness, Error, Layout, LittleEndian};
use std::alloc::Global;
use std::fs::{File, Files, OpenOptions};

/// Puts a record after all that the sink has taken, and sees that none of it waits.
pub fn put_record<S: Sink>(alloc: Global, sink: &mut S, entry: &(u16, String)) -> Result<(), Error>
    ensures { let it = ⟦<(u16, String) as Layout>⟧ in
        WritesAndFlushes ⟦<Error as From<Error>>⟧.from_gives S.sink it.seen it.layout
        (plain_mode Endianness.LittleEndian) entry.now result sink.old sink.new }
{
    write_to_stream_and_flush_with_ctx(entry, alloc, LittleEndian {}, sink)
}

/// Puts a record after those that a file has. The file is made where there is none.
pub fn append_record<R: Files>(
    rt: &R,
    alloc: Global,
    path: &str,
    entry: &(u16, String),
) -> Result<(), Error>
    ensures { let it = ⟦<(u16, String) as Layout>⟧ in
        WritesToFile ⟦<Error as From<Error>>⟧.from_gives it.seen it.layout
        (plain_mode Endianness.LittleEndian) entry.now result }
{
    match OpenOptions::new().append(true).create(true).open(rt, path) {
        Ok(file) => put_record(alloc, &mut Counted::new(file), entry),
        Err(error) => Err(Error::from_io_error(alloc, error)),
    }
}

/// All records of a file. An error is out of memory, that of a failed call, or of bytes that are no records.
pub fn read_records<R: Files>(
    rt: &R,
    alloc: Global,
    path: &str,
) -> Result<Vec<(u16, String)>, Error>
    ensures { let it = ⟦<(u16, String) as Layout>⟧ in
        let format = it.layout.format (plain_mode Endianness.LittleEndian) in
        MatchResult result (λ records. (bytes : List ℕ)
        × Each format.encodes (map it.seen records.items) bytes)
        (λ e. IsFailure e ⊎ IsRefusal format e) }
{
    match File::open(rt, path) {
        Ok(file) => all_messages(alloc, &mut Counted::new(file)),
        Err(error) => Err(Error::from_io_error(alloc, error)),
    }
}
