//! What stands in front, and a log.
ghost use Rattle.std.specs.Prelude.{◌≡◌, ◌<◌, ◌++◌, ℕ, List, codes, length, map, IfOk, OnOk, IsErrAnd, IsTrue};
ghost use Rattle.speedy.specs.Buffers.{bytes_state};
ghost use Rattle.speedy.specs.Mode.{plain_mode};
ghost use Rattle.speedy.specs.Error.{is_eof_error};
ghost use Rattle.speedy.specs.Format.{Each};
ghost use Rattle.speedy.specs.UntilEnd.{ReadsValuesUntilEnd};

use speedy::private::read_constant;
use speedy::readable::BufferReader;
use speedy::{Endianness, Error, IsEof, Layout, LendingReader, LittleEndian};
use std::alloc::Global;

/// Whether the bytes begin as a header does. Fewer than the magic number has are an end of input, whatever they are:
/// more may come.
pub fn begins_header(alloc: Global, bytes: &[u8]) -> Result<(), Error>
    ensures begins { OnOk result ((rest : List ℕ) × (bytes.now ≡ codes "REC1" ++ rest)) }
    ensures fewer { length bytes.now < 4 → IsErrAnd result (λ e. IsTrue (is_eof_error e)) }
{
    let mut reader = BufferReader::new(alloc, LittleEndian {}, bytes);
    read_constant(&mut reader, b"REC1")
}

/// The records of a log, at most `greatest`, without a last one that was cut short.
pub fn read_log(alloc: Global, bytes: &[u8], greatest: usize) -> Result<Vec<(u16, String)>, Error>
    ensures records { let it = ⟦<(u16, String) as Layout>⟧ in
        let format = it.layout.format (plain_mode Endianness.LittleEndian) in
        IfOk result (λ records. (prefix : List ℕ) × (rest : List ℕ)
        × Each format.encodes (map it.seen records.items) prefix × (bytes.now ≡ prefix ++ rest)) }
    // No record begins the rest, and an error says why there are no records.
    ensures until_end { let it = ⟦<(u16, String) as Layout>⟧ in
        let mode = plain_mode Endianness.LittleEndian in
        (left : List ℕ) × ReadsValuesUntilEnd ⟦<Error as IsEof>⟧ (λ b. bytes_state b mode) it.seen
        (λ items records. records.items ≡ items) it.layout greatest result bytes.now left }
{
    let mut reader = BufferReader::new(alloc, LittleEndian {}, bytes);
    reader.read_vec_until_eof(greatest)
}
