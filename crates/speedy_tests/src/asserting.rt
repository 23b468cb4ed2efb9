//! What tests assert of values, of their bytes and of errors.
//!
//! A test ends where one of these does not hold. They answer nothing, so a test has no other way out than its end,
//! which is what makes it quick to prove. `assert_encoding` calls each form of `Readable` over a buffer. Other tests
//! decode by `read_value` of a reader, whose proof names less of the type. For that the helpers ask for `ReadMany`,
//! which `Readable` rests on.
use speedy::collections::FromItems;
use speedy::context::{BigEndian, Context, LittleEndian};
use speedy::endianness::Endianness;
use speedy::error::{Error, IsEof};
use speedy::layout::Layout;
use speedy::private::get_error_kind;
use speedy::readable::{ReadMany, Readable};
use speedy::writable::Writable;
use std::alloc::Global;
use std::fmt::Debug;
use std::process::Abort;

/// A value, and its encodings in the little and in the big order, each with a byte behind it that is no part of it: the
/// helpers look that it is not taken, and not written.
macro_rules! row {
    ($value:expr, [$($little:expr),* $(,)?], [$($big:expr),* $(,)?] $(,)?) => {
        ($value, &[$($little,)* 9], &[$($big,)* 9])
    };
}

pub(crate) use row;

/// A vector of these items.
pub(crate) fn make_vec<T: Copy>(rt: &impl Abort, alloc: Global, items: &[T]) -> Vec<T> {
    items.to_vec(alloc).expect(rt, "a vector")
}

/// A text of its own memory.
pub(crate) fn make_text(rt: &impl Abort, alloc: Global, text: &str) -> String {
    String::from_str(alloc, text).expect(rt, "a text")
}

/// What the items gather to, one after another.
pub(crate) fn gather<T: Layout + Copy, F: FromItems<T>>(
    rt: &impl Abort,
    alloc: Global,
    items: &[T],
) -> F {
    let mut gathered = F::empty(alloc);
    for item in items {
        assert!(rt; gathered.add(*item).is_ok(), "no room for an item");
    }
    gathered
}

/// Asserts that two values are the same.
pub(crate) fn assert_same<T: PartialEq + Debug + Drop>(rt: &impl Abort, actual: T, expected: T) {
    assert_eq!(rt; actual, expected);
}

/// Asserts that two lists of bytes are the same.
pub(crate) fn assert_bytes(rt: &impl Abort, actual: &[u8], expected: &[u8]) {
    assert_eq!(rt; actual, expected);
}

/// Asserts that the outcome is the value.
pub(crate) fn assert_ok<T: PartialEq + Debug + Drop>(
    rt: &impl Abort,
    outcome: Result<T, Error>,
    expected: T,
) {
    assert_same(rt, outcome.expect(rt, "a value"), expected);
}

/// Asserts that the outcome is a vector of these items.
pub(crate) fn assert_ok_items<T: PartialEq + Debug + Drop>(
    rt: &impl Abort,
    outcome: Result<Vec<T>, Error>,
    expected: &[T],
) {
    assert_same(rt, outcome.expect(rt, "a vector").as_slice(), expected);
}

/// Asserts that the outcome is an error of the kind, as `Debug` prints it, and that it is an end of the bytes just
/// where the kind is.
pub(crate) fn assert_refused<T: Drop>(
    rt: &impl Abort,
    alloc: Global,
    outcome: Result<T, Error>,
    kind: &str,
) {
    let error = outcome.err().expect(rt, "it is refused");
    assert_kind(rt, alloc, &error, kind);
    assert_same(rt, error.is_eof(), kind.starts_with("UnexpectedEnd"));
}

/// Asserts that the error is of the kind, as `Debug` prints it.
pub(crate) fn assert_kind(rt: &impl Abort, alloc: Global, error: &Error, kind: &str) {
    let printed = format!(in alloc; "{:?}", get_error_kind(error)).expect(rt, "its kind");
    assert_same(rt, printed.as_str(), kind);
}

/// The encoding: all of the bytes but the last, which follows it.
fn encoding_of<'a>(rt: &impl Abort, followed: &'a [u8]) -> &'a [u8] {
    let (_, encoding) = followed.split_last().expect(rt, "a byte that follows");
    encoding
}

/// A buffer of `length` bytes, each of them 9.
fn make_buffer(rt: &impl Abort, alloc: Global, length: usize) -> Vec<u8> {
    vec![in alloc; 9; length].expect(rt, "a buffer")
}

/// Asserts that the buffer holds the encoding, and that the byte after it is left as it was made.
fn assert_at_front(rt: &impl Abort, buffer: &[u8], encoding: &[u8]) {
    let (last, prefix) = buffer.split_last().expect(rt, "a byte that follows");
    assert_bytes(rt, prefix, encoding);
    assert_same(rt, *last, 9);
}

/// Asserts that under the context the value is written as all but the last of the bytes, to a vector.
fn assert_written_to_vec<C: Context + Copy, T: Writable<C>>(
    rt: &impl Abort,
    alloc: Global,
    context: C,
    value: &T,
    followed: &[u8],
)
where
    C::Error: Debug,
{
    let encoding = encoding_of(rt, followed);
    let written = value
        .write_to_vec_with_ctx(alloc, context)
        .expect(rt, "a vector");
    assert_bytes(rt, written.as_slice(), encoding);
    let mut held = context;
    let written = value
        .write_to_vec_with_ctx_mut(alloc, &mut held)
        .expect(rt, "a vector");
    assert_bytes(rt, written.as_slice(), encoding);
}

/// Asserts that under the context the value is written as all but the last of the bytes, to a buffer.
fn assert_written_to_buffer<C: Context + Copy, T: Writable<C>>(
    rt: &impl Abort,
    alloc: Global,
    context: C,
    value: &T,
    followed: &[u8],
)
where
    C::Error: Debug,
{
    let encoding = encoding_of(rt, followed);
    let mut buffer = make_buffer(rt, alloc, followed.len());
    let outcome = value.write_to_buffer_with_ctx(context, buffer.as_mut_slice());
    outcome.expect(rt, "a write");
    assert_at_front(rt, buffer.as_slice(), encoding);
    let mut held = context;
    let mut buffer = make_buffer(rt, alloc, followed.len());
    let outcome = value.write_to_buffer_with_ctx_mut(&mut held, buffer.as_mut_slice());
    outcome.expect(rt, "a write");
    assert_at_front(rt, buffer.as_slice(), encoding);
}

/// Asserts that under the context the value is written as all but the last of the bytes, in each way of writing.
fn assert_written<C: Context + Copy, T: Writable<C>>(
    rt: &impl Abort,
    alloc: Global,
    context: C,
    value: &T,
    followed: &[u8],
)
where
    C::Error: Debug,
{
    let mut held = context;
    let needed = value.bytes_needed(&mut held).expect(rt, "a size");
    assert_same(rt, needed, encoding_of(rt, followed).len());
    assert_written_to_vec(rt, alloc, context, value, followed);
    assert_written_to_buffer(rt, alloc, context, value, followed);
}

/// Asserts that what was read of the bytes is the value.
fn assert_value<T: PartialEq>(rt: &impl Abort, read: &T, value: &T, bytes: &[u8]) {
    assert!(rt; read == value, "another value is read of {bytes:?}");
}

/// Asserts that under the context all but the last of the bytes are what is read as the value.
fn assert_read<'a, C: Context + Copy, T: ReadMany<&'a [u8], C> + PartialEq>(
    rt: &impl Abort,
    alloc: Global,
    context: C,
    value: &T,
    followed: &'a [u8],
)
where
    C::Error: Debug,
{
    let read = T::read_from_buffer_with_ctx(alloc, context, followed).expect(rt, "a value");
    assert_value(rt, &read, value, followed);
    let (outcome, count) = T::read_with_length_from_buffer_with_ctx(alloc, context, followed);
    let read = outcome.expect(rt, "a value");
    assert_value(rt, &read, value, followed);
    assert_same(rt, count, encoding_of(rt, followed).len());
}

/// Asserts the same of the forms that copy.
fn assert_copied<'a, C: Context + Copy, T: ReadMany<&'a [u8], C> + PartialEq>(
    rt: &impl Abort,
    alloc: Global,
    context: C,
    value: &T,
    followed: &[u8],
)
where
    C::Error: Debug,
{
    let read = T::read_from_buffer_copying_data_with_ctx(alloc, context, followed);
    assert_value(rt, &read.expect(rt, "a value"), value, followed);
    let (outcome, count) = T::read_with_length_from_buffer_copying_data_with_ctx(
        alloc, context, followed,
    );
    assert_value(rt, &outcome.expect(rt, "a value"), value, followed);
    assert_same(rt, count, encoding_of(rt, followed).len());
    let mut held = context;
    let (outcome, count) = T::read_with_length_from_buffer_copying_data_with_ctx_mut(
        alloc, &mut held, followed,
    );
    assert_value(rt, &outcome.expect(rt, "a value"), value, followed);
    assert_same(rt, count, encoding_of(rt, followed).len());
}

/// Asserts that each value and its bytes in the little and in the big order belong together, in each way of writing to
/// memory and of reading from it. The byte behind an encoding is not taken. The type borrows nothing, and no encoding
/// is shorter than the least size.
pub(crate) fn assert_encoding<'a, T>(
    rt: &impl Abort,
    alloc: Global,
    least: usize,
    rows: &[(T, &'a [u8], &'a [u8])],
)
where
    T: ReadMany<&'a [u8], Endianness> + Writable<Endianness> + PartialEq,
{
    assert_same(rt, T::minimum_bytes_needed(), least);
    for (value, little, big) in rows {
        assert_encoding_in(rt, alloc, Endianness::LittleEndian, value, little);
        assert_encoding_in(rt, alloc, Endianness::BigEndian, value, big);
    }
}

/// Asserts that in the order the value and its bytes belong together.
fn assert_encoding_in<'a, T>(
    rt: &impl Abort,
    alloc: Global,
    order: Endianness,
    value: &T,
    followed: &'a [u8],
)
where
    T: ReadMany<&'a [u8], Endianness> + Writable<Endianness> + PartialEq,
{
    assert_written(rt, alloc, order, value, followed);
    assert_read(rt, alloc, order, value, followed);
    assert_copied(rt, alloc, order, value, followed);
}
