//! Headers of two versions, whose types are in `messages`. A reader of either one takes both.
ghost use Rattle.std.specs.Prelude.{◌≡◌, ◌<◌, ◌≤◌, ℕ, List, IfOk, IfErr};
ghost use Rattle.speedy.specs.Mode.{plain_mode};
ghost use Rattle.speedy.specs.Prefixes.{BeginsWith, BeginsWithNone};
ghost use Rattle.speedy.specs.WaysOfReading.{AnswersBuffer};
ghost use Rattle.speedy.specs.WaysOfWriting.{WritesToVec};
ghost use Rattle.speedy_protocol.specs.Refusals.{IsShort};

use crate::messages::{Header, Header2, Start};
use speedy::laws::{no_encoding_is_below_least, one_prefix};
use speedy::{Endianness, Error, IsEof, Layout, LittleEndian, Readable, Writable};
use std::alloc::Global;

/// What a stream begins with, with a header of version 2.
pub fn make_start(alloc: Global, header: &Header2) -> Result<Start, Error>
    ensures { let it = ⟦<Header2 as Layout>⟧ in
        WritesToVec ⟦<Error as From<Error>>⟧.from_gives it.seen it.layout (plain_mode Endianness.LittleEndian)
        header.now (λ start. start.header.items) result }
{
    let header = Writable::<LittleEndian>::write_to_vec(header, alloc)?;
    Ok(Start { header })
}

/// The header as a reader of version 1 takes it. It passes over what later versions add.
pub fn header_1(alloc: Global, start: &Start) -> Result<Header, Error>
    ensures { let it = ⟦<Header as Layout>⟧ in
        (size : ℕ) × AnswersBuffer ⟦<Error as IsEof>⟧ it.seen it.layout
        (plain_mode Endianness.LittleEndian) result size start.now.header.items }
{
    <Header as Readable<LittleEndian>>::read_from_buffer(alloc, &start.header)
}

// All of a header of version 2.
fn whole_header_2(alloc: Global, start: &Start) -> Result<Header2, Error>
    ensures { let it = ⟦<Header2 as Layout>⟧ in
        (size : ℕ) × AnswersBuffer ⟦<Error as IsEof>⟧ it.seen it.layout
        (plain_mode Endianness.LittleEndian) result size start.now.header.items }
{
    <Header2 as Readable<LittleEndian>>::read_from_buffer(alloc, &start.header)
}

/// The header as a reader of version 2 takes it. One of version 1 has the session 0.
pub fn header_2(alloc: Global, start: &Start) -> Result<Header2, Error>
    ensures first { let it = ⟦<Header as Layout>⟧ in
        let format = it.layout.format (plain_mode Endianness.LittleEndian) in
        IfOk result (λ header. (rest : List ℕ)
        × BeginsWith format (header.version, header.flags) start.now.header.items rest) }
    ensures older { IfOk result (λ header. header.version < 2 → header.session ≡ 0) }
    ensures newer { let it = ⟦<Header2 as Layout>⟧ in
        let format = it.layout.format (plain_mode Endianness.LittleEndian) in
        IfOk result (λ header. 2 ≤ header.version → (rest : List ℕ)
        × BeginsWith format (it.seen header) start.now.header.items rest) }
    ensures refused { let format = ⟦<Header2 as Layout>⟧.layout.format (plain_mode Endianness.LittleEndian) in
        IfErr result (λ e. IsShort e × BeginsWithNone format start.now.header.items) }
{
    one_prefix::<Header>();
    no_encoding_is_below_least::<Header>();
    no_encoding_is_below_least::<Header2>();
    let older = match header_1(alloc, start) {
        Ok(older) => older,
        Err(error) => return Err(error),
    };
    if older.version < 2 {
        return Ok(Header2 {
            version: older.version,
            flags: older.flags,
            session: 0,
        });
    }
    match whole_header_2(alloc, start) {
        Ok(newer) => Ok(newer),
        Err(error) => Err(error),
    }
}
