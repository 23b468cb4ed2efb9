//! How characters, byte orders, durations and UUIDs are read.
ghost use Rattle.speedy_layout.specs.Leaves.{seconds_and_nanos};
ghost use Rattle.speedy_read.specs.Decoding.{coded};
ghost use Rattle.speedy_read.specs.Reading.{ReadsAs};

use crate::codes::FromCode;
use crate::many::ItemByItem;
use crate::readable::ReadFrom;
use crate::reader::LendingReader;
use speedy_base::context::Context;
use speedy_base::endianness::Endianness;
use speedy_base::error::{
    error_invalid_enum_variant, error_invalid_system_time, error_not_written_form,
    error_out_of_range_char,
};
use std::convert::AsSlice;
use std::time::Duration;
use uuid::Uuid;

#[tactic(auto, using(crate::specs::Decoding::decoded))]
impl FromCode for char {
    type Strategy = ItemByItem<()>;

    #[inline]
    fn decode<C: Context>(code: u32, _: bool) -> Result<char, C::Error> {
        match char::from_u32(code) {
            Some(character) => Ok(character),
            None => Err(error_out_of_range_char()),
        }
    }

    ghost is_coded = { coded _ _ _ };
}

#[tactic(auto, using(crate::specs::Decoding::decoded))]
impl FromCode for Endianness {
    type Strategy = ItemByItem<()>;

    #[inline]
    fn decode<C: Context>(code: u8, _: bool) -> Result<Endianness, C::Error> {
        match code {
            0 => Ok(Endianness::LittleEndian),
            1 => Ok(Endianness::BigEndian),
            _ => Err(error_invalid_enum_variant()),
        }
    }

    ghost is_coded = { coded _ _ _ };
}

impl<L: AsSlice<u8> + Drop, C: Context> ReadFrom<L, C> for Duration {
    type Strategy = ItemByItem<C>;

    /// Reads seconds and nanoseconds. Nanoseconds of a second and more carry into the seconds, unless the context reads
    /// only canonical encodings, which have fewer.
    #[inline]
    fn read_from<R: LendingReader<L, C>>(reader: &mut R) -> Result<Duration, C::Error> {
        let (seconds, nanos) = read_seconds_and_nanos::<L, C, R>(reader)?;
        let is_written = nanos < 1_000_000_000;
        // As a rule nothing carries, and the compiler leaves the divisions out here.
        if is_written {
            return Ok(Duration::new(seconds, nanos));
        }
        if reader.demands_written_form() {
            return Err(error_not_written_form());
        }
        let carried = (nanos / 1_000_000_000) as u64;
        if u64::MAX - seconds < carried {
            return Err(error_invalid_system_time());
        }
        Ok(Duration::new(seconds, nanos))
    }

    #[inline]
    fn minimum_bytes_needed() -> usize {
        12
    }
}

// Both numbers of a duration, by one read of their bytes.
#[inline]
fn read_seconds_and_nanos<L: AsSlice<u8> + Drop, C: Context, R: LendingReader<L, C>>(
    reader: &mut R,
) -> Result<(u64, u32), C::Error>
    ensures { ReadsAs C.Error.IsEof R.state (λ p. p) seconds_and_nanos
        result reader.old reader.new }
{
    let mut bytes = [0u8; 12];
    reader.read_bytes(&mut bytes)?;
    let order = reader.endianness();
    Ok((order.read_u64(&bytes[..8]), order.read_u32(&bytes[8..])))
}

impl<L: AsSlice<u8> + Drop, C: Context> ReadFrom<L, C> for Uuid {
    type Strategy = ItemByItem<C>;

    #[inline]
    fn read_from<R: LendingReader<L, C>>(reader: &mut R) -> Result<Uuid, C::Error> {
        let mut bytes = [0u8; 16];
        reader.read_bytes(&mut bytes)?;
        Ok(Uuid::from_bytes(bytes))
    }

    #[inline]
    fn minimum_bytes_needed() -> usize {
        16
    }
}
