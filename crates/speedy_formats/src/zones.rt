//! Time zone files, read and written again.
ghost use Rattle.speedy.specs.Mode.{plain_mode};
ghost use Rattle.speedy.specs.WaysOfWriting.{WritesToVec, WritesToVecIn};
ghost use Rattle.speedy.specs.ReadWholes.{AnswersWhole};

use crate::tzif::{Block, Zone};
use speedy::readable::BufferReader;
use speedy::whole::{ReadableWhole, Whole, WriteWhole};
use speedy::{BigEndian, Endianness, Error, IsEof, Layout, LendingReader, Writable};
use std::alloc::Global;

/// The zone that all of the bytes are, of version 2 or later (RFC 9636, section 3).
pub fn read_zone(alloc: Global, bytes: &[u8]) -> Result<Zone, Error>
    ensures { let it = ⟦<Zone as Whole>⟧ in
        AnswersWhole ⟦<Error as IsEof>⟧ it.seen it.whole (plain_mode Endianness.BigEndian) result bytes.now }
{
    <Zone as ReadableWhole<BigEndian>>::read_whole_from_buffer_with_ctx(alloc, BigEndian {}, bytes)
}

/// The zone of version 1 that all of the bytes are.
pub fn read_old_zone(alloc: Global, bytes: &[u8]) -> Result<Block<i32>, Error>
    ensures { let it = ⟦<Block<i32> as Whole>⟧ in
        AnswersWhole ⟦<Error as IsEof>⟧ it.seen it.whole (plain_mode Endianness.BigEndian) result bytes.now }
{
    <Block<i32> as ReadableWhole<BigEndian>>::read_whole_from_buffer_with_ctx(
        alloc,
        BigEndian {},
        bytes,
    )
}

/// The bytes of a zone. One whose lists are not as long as its counts say is refused.
pub fn zone_bytes(alloc: Global, zone: &Zone) -> Result<Vec<u8>, Error>
    ensures { let it = ⟦<Zone as Whole>⟧ in
        WritesToVecIn ⟦<Error as From<Error>>⟧.from_gives (it.whole.format (plain_mode Endianness.BigEndian))
        (it.seen zone.now) (λ bytes. bytes.items) result }
{
    zone.write_whole_to_vec_with_ctx(alloc, BigEndian {})
}

/// The bytes of a zone of version 1.
pub fn old_zone_bytes(alloc: Global, zone: &Block<i32>) -> Result<Vec<u8>, Error>
    ensures { let it = ⟦<Block<i32> as Layout>⟧ in
        WritesToVec ⟦<Error as From<Error>>⟧.from_gives it.seen it.layout (plain_mode Endianness.BigEndian) zone.now
        (λ bytes. bytes.items) result }
{
    zone.write_to_vec_with_ctx(alloc, BigEndian {})
}

/// The part of a broken file that is broken, and how many bytes before the fault were read.
pub(crate) fn broken_part(alloc: Global, bytes: &[u8]) -> (&'static str, usize) {
    let mut reader = BufferReader::new(alloc, BigEndian {}, bytes);
    let mut part = "the block of version 1";
    if reader.read_value::<Block<i32>>().is_ok() {
        part = "the block of version 2";
        if reader.read_value::<Block<i64>>().is_ok() {
            part = "the footer";
        }
    }
    (part, bytes.len().saturating_sub(reader.len()))
}
