//! A contract about a pair that is read: what its numbers are, and what an error says.
ghost use Rattle.std.specs.Prelude.{◌≡◌, ◌+◌, ℕ, List, IfOk, IfErr};
ghost use Rattle.speedy.specs.Mode.{plain_mode};
ghost use Rattle.speedy.specs.Prefixes.{BeginsWith, BeginsWithNone};

use speedy::laws::refused_is_none;
use speedy::{Endianness, Error, Layout, LittleEndian, Readable};
use std::alloc::Global;

/// The sum of the two numbers that the bytes begin with, or an error where they begin with none.
pub fn sum(alloc: Global, bytes: &[u8]) -> Result<u32, Error>
    ensures sum { let format = ⟦<(u16, u16) as Layout>⟧.layout.format (plain_mode Endianness.LittleEndian) in
        IfOk result (λ total. (first second : ℕ) × (rest : List ℕ)
        × BeginsWith format (first, second) bytes.now rest
        × (total ≡ first + second)) }
    ensures refused { let format = ⟦<(u16, u16) as Layout>⟧.layout.format (plain_mode Endianness.LittleEndian) in
        IfErr result (λ _. BeginsWithNone format bytes.now) }
{
    refused_is_none::<(u16, u16), LittleEndian>();
    let pair = <(u16, u16) as Readable<LittleEndian>>::read_from_buffer(alloc, bytes)?;
    Ok(u32::from(pair.0) + u32::from(pair.1))
}
