//! Values in memory.
ghost use Rattle.std.specs.Prelude.{◌≡◌, ◌<◌, ◌≤◌, ◌-◌, ◌^◌, ◌++◌, ℕ, List, length as count, map, IsTrue, IfOk, IfErr};
ghost use Rattle.std.specs.Prelude.{IsOkUnless};
ghost use Rattle.speedy.specs.Codecs.{vector_codec};
ghost use Rattle.speedy.specs.Mode.{plain_mode, strict_mode};
ghost use Rattle.speedy.specs.Error.{error_of};
ghost use Rattle.speedy.specs.Format.{Each};
ghost use Rattle.speedy.specs.Lists.{vector};
ghost use Rattle.speedy.specs.Prefixes.{HasEncoding};
ghost use Rattle.speedy.specs.Reading.{ReadsValue};
ghost use Rattle.speedy.specs.RoundTrip.{ReadsWritten};
ghost use Rattle.speedy.specs.WaysOfReading.{AnswersBuffer};
ghost use Rattle.speedy_examples.specs.Callers.{HasPrefix};

use speedy::laws::{
    canonical_alone, no_encoding_is_below_least, written_is_answered, written_items_are_read,
};
use speedy::private::ErrorKind;
use speedy::{
    Buffer, Context, Endianness, Error, IsEof, Layout, LendingReader, ReadFrom, ReadMany, Readable,
    ReadableOwned, StrictLittleEndian, Writable,
};
use std::alloc::Global;
use std::convert::AsSlice;

/// Writes a value to a vector, and reads it back. If it has an encoding, the only error is out of memory.
pub fn again(
    alloc: Global,
    order: Endianness,
    value: &Option<String>,
) -> Result<Option<String>, Error>
    ensures same { let seen = ⟦<Option<String> as Layout>⟧.seen in
        IfOk result (λ x. seen x ≡ seen value.now) }
    ensures refused { let it = ⟦<Option<String> as Layout>⟧ in
        HasEncoding (it.layout.format (plain_mode order)) (it.seen value.now)
        → IsOkUnless result (error_of ErrorKind.OutOfMemory) }
{
    written_is_answered::<Option<String>, Endianness>();
    let bytes = value.write_to_vec_with_ctx(alloc, order)?;
    <Option<String> as Readable<Endianness>>::read_from_buffer_with_ctx(alloc, order, &bytes)
}

/// Writes any value to the beginning of a buffer, and reads it back. If its canonical encoding fits there, the only
/// error is out of memory.
pub fn again_in<'a, C: Context + Copy, T: Writable<C> + Readable<'a, C>>(
    alloc: Global,
    context: C,
    value: &T,
    buffer: &'a mut [u8],
) -> Result<T, C::Error>
    ensures same { IfOk result (λ x. T.seen x ≡ T.seen value.now) }
    ensures refused { (bytes : List ℕ) →
        (T.layout.format (C.mode context)).writes (T.seen value.now) bytes
        → count bytes < 2 ^ 64 - 1 → count bytes ≤ count buffer.old
        → IfErr result (C.Error.from_gives (error_of ErrorKind.OutOfMemory)) }
{
    written_is_answered::<T, C>();
    value.write_to_buffer_with_ctx(context, buffer)?;
    T::read_from_buffer_with_ctx(alloc, context, buffer)
}

/// Writes any value that borrows nothing to a vector, and reads it back from there. If it has an encoding, the only
/// error is out of memory.
pub fn again_owned<T: Writable<Endianness> + ReadableOwned<Endianness>>(
    alloc: Global,
    order: Endianness,
    value: &T,
) -> Result<T, Error>
    ensures same { IfOk result (λ x. T.seen x ≡ T.seen value.now) }
    ensures refused { HasEncoding (T.layout.format (plain_mode order)) (T.seen value.now)
        → IsOkUnless result (error_of ErrorKind.OutOfMemory) }
{
    written_is_answered::<T, Endianness>();
    let bytes = value.write_to_vec_with_ctx(alloc, order)?;
    T::read_owned_with_ctx(alloc, order, &bytes)
}

/// Reads a value of any type from bytes that a type names. A clean error means that no prefix of them encodes one.
pub fn load<L: Buffer<Endianness>, T: ReadFrom<L, Endianness>>(
    alloc: Global,
    order: Endianness,
    bytes: L,
) -> Result<T, Error>
    ensures { (size : ℕ) × AnswersBuffer ⟦<Error as IsEof>⟧ T.seen T.layout (plain_mode order)
        result size (L.items bytes) }
{
    bytes.read_prefix(alloc, order)
}

/// Reads items one after the other, from any reader, and leaves what comes after them. What was written is read: the
/// only errors are then out of memory and a failed call of the device.
pub fn read_slice<L: AsSlice<u8> + Drop, C: Context, R: LendingReader<L, C>, T: ReadMany<L, C>>(
    reader: &mut R,
    length: usize,
) -> Result<Vec<T>, C::Error>
    ensures reads { ReadsValue C.Error.IsEof R.state (λ v. map T.seen v.items)
        (vector_codec length T.layout) result reader.old reader.new }
    ensures written { let before = R.state reader.old in
        (items : List T.Seen) (bytes rest : List ℕ) →
        Each (T.layout.format before.mode).writes items bytes → length ≡ count items
        → IsTrue before.fixed.tells → before.remaining ≡ bytes ++ rest
        → ReadsWritten C.Error.from_gives (λ v. map T.seen v.items)
        (vector length (T.layout.format before.mode)) items rest result before (R.state reader.new) }
{
    written_items_are_read::<T, C>();
    reader.read_vec(length)
}

/// Reads a value from a prefix of a buffer and writes it again. The context reads only canonical encodings, so these
/// are the very bytes that were read. If a prefix is one, the only error is out of memory.
pub fn again_the_same_bytes(alloc: Global, bytes: &[u8]) -> Result<Vec<u8>, Error>
    ensures same { let it = ⟦<Option<String> as Layout>⟧ in
        let format = it.layout.format (strict_mode Endianness.LittleEndian) in
        IfOk result (λ written. (value : it.Seen) × (rest : List ℕ)
        × format.encodes value written.items × (bytes.now ≡ written.items ++ rest)) }
    ensures refused { let it = ⟦<Option<String> as Layout>⟧ in
        HasPrefix (it.layout.format (strict_mode Endianness.LittleEndian)) bytes.now
        → IsOkUnless result (error_of ErrorKind.OutOfMemory) }
{
    canonical_alone::<Option<String>>();
    no_encoding_is_below_least::<Option<String>>();
    let context = StrictLittleEndian {};
    let value = <Option<String> as Readable<StrictLittleEndian>>::read_from_buffer_with_ctx(
        alloc, context, bytes,
    )?;
    let written = value.write_to_vec_with_ctx(alloc, context)?;
    Ok(written)
}
