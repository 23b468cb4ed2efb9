//! A contract about the bytes themselves, which takes a short proof by hand.
ghost use Rattle.std.specs.Prelude.{◌≡◌, ◌<◌, ◌+◌, ◌++◌, ℕ, List, length, IfOk, IfErr};
ghost use Rattle.speedy.specs.Digits.{little_number};
ghost use Rattle.speedy.specs.Error.{error_of};
ghost use Rattle.speedy.specs.declared.error.ErrorKind.TheVariants.{InputBufferIsTooSmall};

use speedy::laws::refused_is_none;
use speedy::{Error, LittleEndian, Readable};
use std::alloc::Global;

/// The sum of the two numbers that the bytes begin with, each of two bytes in little endian, or an error where there
/// are fewer than four bytes, which says how many there are.
pub fn sum_of_bytes(alloc: Global, bytes: &[u8]) -> Result<u32, Error>
    ensures sum { IfOk result (λ total. (first second rest : List ℕ)
        × (bytes.now ≡ (first ++ second) ++ rest)
        × (length first ≡ 2)
        × (length second ≡ 2)
        × (total ≡ little_number first + little_number second)) }
    ensures refused { IfErr result (λ e. (length bytes.now < 4)
        × (e ≡ error_of (InputBufferIsTooSmall (length bytes.now) 4))) }
{
    refused_is_none::<(u16, u16), LittleEndian>();
    let pair = <(u16, u16) as Readable<LittleEndian>>::read_from_buffer(alloc, bytes)?;
    Ok(u32::from(pair.0) + u32::from(pair.1))
}
