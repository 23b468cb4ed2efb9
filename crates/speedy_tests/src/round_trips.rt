//! Callers that write and read back, with the contracts and the proofs that a user writes.
ghost use Rattle.std.specs.Prelude.{◌≡◌, ◌++◌, ℕ, List, length as count, map, IfOk, IfErr};
ghost use Rattle.speedy.specs.Error.{error_of};

use crate::asserting::{assert_bytes, assert_ok, assert_ok_items};
use speedy::laws::{written_is_answered, written_is_read, written_items_are_read};
use speedy::private::ErrorKind;
use speedy::readable::BufferReader;
use speedy::writable::BufferCollector;
use speedy::{
    Context, Endianness, Layout, LendingReader, ReadFrom, ReadMany, Readable, Writable, Writer,
};
use std::alloc::Global;

/// Reads what was written, as by another program. Its only error is out of memory.
fn read_written<'a, C: Context, T: Readable<'a, C>>(
    alloc: Global,
    context: C,
    bytes: &'a [u8],
) -> Result<T, C::Error>
    ensures same { (v : T.Seen) → (T.layout.format (C.mode context)).writes v bytes.now
        → IfOk result (λ x. T.seen x ≡ v) }
    ensures refused { (v : T.Seen) → (T.layout.format (C.mode context)).writes v bytes.now
        → IfErr result (C.Error.from_gives (error_of ErrorKind.OutOfMemory)) }
{
    written_is_answered::<T, C>();
    T::read_from_buffer_with_ctx(alloc, context, bytes)
}

/// Reads a value that was written to the beginning, and says how many bytes are left.
fn read_prefix<'a, C: Context, T: ReadFrom<&'a [u8], C>>(
    alloc: Global,
    context: C,
    bytes: &'a [u8],
) -> Result<(T, usize), C::Error>
    ensures same { (v : T.Seen) (prefix rest : List ℕ) →
        (T.layout.format (C.mode context)).writes v prefix → bytes.now ≡ prefix ++ rest
        → IfOk result (λ x. (T.seen x.0 ≡ v) × (x.1 ≡ count rest)) }
    ensures refused { (v : T.Seen) (prefix rest : List ℕ) →
        (T.layout.format (C.mode context)).writes v prefix → bytes.now ≡ prefix ++ rest
        → IfErr result (C.Error.from_gives (error_of ErrorKind.OutOfMemory)) }
{
    written_is_read::<T, C>();
    let mut reader = BufferReader::new(alloc, context, bytes);
    let value = reader.read_value()?;
    Ok((value, reader.len()))
}

/// Writes items one after the other to the beginning of a buffer, and reads them back by their number.
fn slice_again<'a, C: Context + Copy, T: Writable<C> + ReadMany<&'a [u8], C>>(
    alloc: Global,
    context: C,
    items: &[T],
    buffer: &'a mut [u8],
) -> Result<Vec<T>, C::Error>
    ensures { IfOk result (λ v. map T.seen v.items ≡ map T.seen items.now) }
{
    written_items_are_read::<T, C>();
    let mut held = context;
    let mut collector = BufferCollector::new(&mut held, buffer);
    let outcome = collector.write_slice(items);
    collector.finish();
    outcome?;
    let mut reader = BufferReader::new(alloc, context, buffer);
    reader.read_vec(items.len())
}

#[test]
fn what_was_written_is_read(rt: HostRuntime) {
    let alloc = rt.alloc();
    let order = Endianness::BigEndian;
    let bytes = [0, 0, 0, 2, 9];
    assert_ok(&rt, read_written::<_, u32>(alloc, order, &bytes[..4]), 2);
    assert_ok(&rt, read_prefix::<_, u32>(alloc, order, &bytes), (2, 1));
}

#[test]
fn slices_come_back(rt: HostRuntime) {
    let numbers = [258_u16, 3, 65535];
    let mut buffer = [9; 7];
    let again = slice_again(rt.alloc(), Endianness::LittleEndian, &numbers, &mut buffer);
    assert_ok_items(&rt, again, &numbers);
    assert_bytes(&rt, &buffer, &[2, 1, 3, 0, 255, 255, 9]);
}
