//! How constants are read and compared.
ghost use Rattle.std.specs.Prelude.{◌≡◌, [], ◌↔◌, length, IsTrue, IsOk};
ghost use Rattle.speedy_layout.specs.Codecs.{constant_codec};
ghost use Rattle.speedy_read.specs.Reading.{RefusesFewer, ReadsValue};

use crate::many::ItemByItem;
use crate::readable::ReadFrom;
use crate::reader::LendingReader;
use crate::room::CONSTANT_CHUNK;
use speedy_base::context::Context;
use speedy_base::error::error_expected_constant;
use speedy_layout::magic::{Constant, Magic};
use std::convert::AsSlice;

impl<L: AsSlice<u8> + Drop, C: Context, K: Constant + Drop> ReadFrom<L, C> for Magic<K> {
    type Strategy = ItemByItem<C>;

    #[inline]
    fn read_from<R: LendingReader<L, C>>(reader: &mut R) -> Result<Self, C::Error> {
        let bytes = K::bytes();
        read_constant(reader, bytes)?;
        Ok(Magic::new())
    }

    #[inline]
    fn minimum_bytes_needed() -> usize {
        K::bytes().len()
    }
}

/// Reads just these bytes. Others of their number are the error `ExpectedConstant`; fewer, whatever they are, an end of
/// input.
///
/// All of them are read, a chunk at a time, before that error. No memory is asked for, and of no bytes none is read.
pub fn read_constant<L: AsSlice<u8> + Drop, C: Context, R: LendingReader<L, C>>(
    reader: &mut R,
    constant: &'static [u8],
) -> Result<(), C::Error>
    ensures reads { ReadsValue C.Error.IsEof R.state (λ _. constant.now)
        (constant_codec constant.now) result reader.old reader.new }
    ensures nothing { constant.now ≡ [] →
        IsOk result × (R.state reader.new ≡ R.state reader.old) }
    ensures fewer { RefusesFewer C.Error.IsEof R.state (length constant.now)
        result reader.old reader.new }
{
    let mut chunk = [0; CONSTANT_CHUNK];
    let mut at = 0;
    let mut same = true;
    while at < constant.len() {
        let size = (constant.len() - at).min(chunk.len());
        reader.read_bytes(&mut chunk[..size])?;
        same = are_still_the_same(same, &chunk[..size], &constant[at..at + size]);
        at += size;
    }
    if !same {
        return Err(error_expected_constant(constant));
    }
    Ok(())
}

// Whether these bytes are the same too.
#[inline]
pub(crate) fn are_still_the_same(so_far: bool, bytes: &[u8], expected: &[u8]) -> bool
    ensures { IsTrue result ↔ (IsTrue so_far × (bytes.now ≡ expected.now)) }
{
    so_far && *bytes == *expected
}
