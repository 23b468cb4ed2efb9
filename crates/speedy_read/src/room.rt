//! Room for what is read: how much memory is asked for, and when.
ghost use Rattle.std.specs.Prelude.{◌≡◌, ◌+◌, ◌-◌, ◌*◌, ◌^◌, ◌<◌, ◌≤◌, ◌⊎◌, min, ◌++◌, ◌∷◌, [], ℕ, List, Some};
ghost use Rattle.std.specs.Prelude.{length as count_of, vec_len, vec_capacity, map, replicate, true, IsTrue, IfOk};
ghost use Rattle.std.specs.Prelude.{IsOk, OnOk, MatchResult};
ghost use Rattle.speedy_base.specs.Error.{error_of};
ghost use Rattle.speedy_layout.specs.FixedNumbers.{encoded_in};
ghost use Rattle.speedy_layout.specs.Format.{Each};
ghost use Rattle.speedy_read.specs.Reading.{Expects};

use crate::reader::LendingReader;
use speedy_base::context::Context;
use speedy_base::endianness::Endianness;
use speedy_base::error::{ErrorKind, error_out_of_memory};
use speedy_layout::fixed_numbers::{FixedNumber, append_each};
use speedy_layout::view_items::FixedSize;
use std::alloc::AllocError;
use std::convert::AsSlice;

/// The most items that room is requested for at once, where it is not known that their bytes remain.
pub(crate) const STEP: usize = 1024;

/// The chunk of digits that numbers are read through, in bytes: no less than the ring of a new buffered reader holds,
/// so that the source fills it without a copy in the ring.
pub(crate) const CHUNK: usize = 8192;

/// The chunk for fewer numbers, in bytes: the long one takes longer to make than they take to read.
pub(crate) const MIDDLE_CHUNK: usize = 2048;

/// The chunk for a few numbers, in bytes.
pub(crate) const SHORT_CHUNK: usize = 64;

/// The chunk for an array of few numbers, in bytes: the widest number fills it.
pub(crate) const LEAST_CHUNK: usize = 16;

/// The chunk that bytes are skipped through, in bytes.
pub(crate) const SKIPPED_CHUNK: usize = 1024;

/// The chunk that bytes are read through to be compared with a constant, in bytes.
pub(crate) const CONSTANT_CHUNK: usize = 64;

// An empty vector, with room for `length` items where the reader says that their bytes remain. Only there is
// memory asked for.
pub(crate) fn vec_for<T, L: AsSlice<u8> + Drop, C: Context, R: LendingReader<L, C>>(
    reader: &R,
    least: usize,
    length: usize,
) -> Result<Vec<T>, C::Error>
    ensures empty { MatchResult result (λ v. v.items ≡ [])
        (C.Error.from_gives (error_of ErrorKind.OutOfMemory)) }
    ensures room { (0 < least) × (least * length < 2 ^ 64) × (R.can_read reader.now (least * length) ≡ Some true)
        → IfOk result (λ v. length ≤ vec_capacity v) }
    ensures asks { let size = least * length in
        let told = (R.can_read reader.now size ≡ Some true) ⊎ Expects (R.state reader.now) size in
        MatchResult result (λ v. (vec_capacity v ≡ 0) ⊎ told) (λ _. told) }
{
    let known = match least.checked_mul(length) {
        Some(size) if least > 0 => are_remaining(reader, size),
        _ => false,
    };
    if !known {
        return Ok(Vec::new(reader.alloc()));
    }
    match Vec::with_capacity(reader.alloc(), length) {
        Ok(items) => Ok(items),
        Err(_) => Err(error_out_of_memory()),
    }
}

// Whether the reader says that `size` bytes remain, or its source does.
#[inline(always)]
fn are_remaining<L: AsSlice<u8> + Drop, C: Context, R: LendingReader<L, C>>(
    reader: &R,
    size: usize,
) -> bool
    ensures by_reader { R.can_read reader.now size ≡ Some true → IsTrue result }
    ensures right { IsTrue result →
        (R.can_read reader.now size ≡ Some true) ⊎ Expects (R.state reader.now) size }
{
    reader.can_read_at_least(size) == Some(true) || reader.expects_at_least(size)
}

// Where there is no room for `left` items more, asks for some: for as many as are still to read, but no more than a
// step.
#[inline(always)]
fn make_room<T>(items: &mut Vec<T>, more: usize, left: usize) -> Result<(), AllocError>
    ensures same { items.new.items ≡ items.old.items }
    ensures grows { vec_capacity items.old ≤ vec_capacity items.new }
    ensures in_room { vec_len items.old + more ≤ vec_capacity items.old → IsOk result }
    ensures step { OnOk result (vec_capacity items.old < vec_len items.old + more
        → vec_len items.old + min left 1024 ≤ vec_capacity items.new) }
{
    if items.capacity() - items.len() < more {
        items.reserve(left.min(STEP))?;
    }
    Ok(())
}

/// Adds an item, one of `left` that are still to read. Where its room is used up, the vector asks for room for that
/// many items more, but for no more than 1,024: so a count that lies asks for little.
///
/// The items go in and out by value, so that a loop keeps their place and number in registers.
#[inline(always)]
pub fn push_in_steps<T: Drop>(items: Vec<T>, item: T, left: usize) -> Result<Vec<T>, AllocError>
    ensures pushed { IfOk result (λ v. v.items ≡ items.items ++ item ∷ []) }
    ensures in_room { vec_len items < vec_capacity items → IsOk result }
    ensures step { IfOk result (λ v. vec_capacity items ≤ vec_len items
        → vec_len items + min left 1024 ≤ vec_capacity v) }
{
    let mut items = with_a_place(items, left)?;
    items.push_reserved(item);
    Ok(items)
}

// The items with room for one more at least. Where there is none, room is asked for as `push_in_steps` says.
#[inline(always)]
pub(crate) fn with_a_place<T: Drop>(items: Vec<T>, left: usize) -> Result<Vec<T>, AllocError>
    ensures same { IfOk result (λ v. v.items ≡ items.items) }
    ensures one { IfOk result (λ v. vec_len v < vec_capacity v) }
    ensures in_room { vec_len items < vec_capacity items → IsOk result }
    ensures step { IfOk result (λ v. vec_capacity items ≤ vec_len items
        → vec_len items + min left 1024 ≤ vec_capacity v) }
{
    if items.len() < items.capacity() {
        return Ok(items);
    }
    grown(items, left)
}

// The same as `with_room`. It stands in line, so that the place of the answer is made only where there is a call.
#[inline(always)]
fn grown<T: Drop>(items: Vec<T>, left: usize) -> Result<Vec<T>, AllocError>
    ensures same { IfOk result (λ v. v.items ≡ items.items) }
    ensures one { IfOk result (λ v. vec_len v < vec_capacity v) }
    ensures step { IfOk result (λ v. vec_len items + min left 1024 ≤ vec_capacity v) }
{
    let roomy = with_room(items, left)?;
    Ok(roomy)
}

// Asks for room for as many items as are still to read, but no more than a step, and for one at least.
#[cold]
#[inline(never)]
fn with_room<T: Drop>(mut items: Vec<T>, left: usize) -> Result<Vec<T>, AllocError>
    ensures same { IfOk result (λ v. v.items ≡ items.items) }
    ensures one { IfOk result (λ v. vec_len v < vec_capacity v) }
    ensures step { IfOk result (λ v. vec_len items + min left 1024 ≤ vec_capacity v) }
{
    items.reserve(left.min(STEP).max(1))?;
    Ok(items)
}

// Appends the numbers that these bytes encode, some of those that are still to read. Room for them is asked for by
// steps too.
#[inline]
pub(crate) fn append_in_steps<T: FixedNumber>(
    numbers: Vec<T>,
    order: Endianness,
    digits: &[u8],
    left: usize,
) -> Result<Vec<T>, AllocError>
    requires { (count : ℕ) × (count_of digits.now ≡ count * T.Digits.LENGTH) }
    ensures { IfOk result (λ v. (more : List T) × (v.items ≡ numbers.items ++ more)
        × Each (encoded_in T.layout.format order) (map T.seen more) digits.now) }
{
    let mut numbers = numbers;
    let count = digits.len() / T::SIZE;
    let mut at = 0;
    while at < count {
        numbers = with_a_place(numbers, left.saturating_sub(at))?;
        let some = (count - at).min(numbers.capacity() - numbers.len());
        numbers = append_each(numbers, order, &digits[at * T::SIZE..(at + some) * T::SIZE]);
        at += some;
    }
    Ok(numbers)
}

// Adds zeros for as many bytes as there is room for, at most `left`. Where there is no room, a step of it is asked
// for.
#[inline]
pub(crate) fn open_chunk(bytes: &mut Vec<u8>, left: usize) -> Result<usize, AllocError>
    requires { 0 < left }
    ensures zeros { IfOk result (λ size. (0 < size) × (size ≤ left)
        × (bytes.new.items ≡ bytes.old.items ++ replicate size 0)) }
    ensures all_room { IfOk result (λ size. min left (vec_capacity bytes.old - vec_len bytes.old) ≤ size) }
    ensures step { IfOk result (λ size. vec_capacity bytes.old ≤ vec_len bytes.old
        → min left 1024 ≤ size) }
{
    make_room(bytes, 1, left)?;
    let size = left.min(bytes.capacity() - bytes.len());
    bytes.resize(bytes.len() + size, 0)?;
    Ok(size)
}
