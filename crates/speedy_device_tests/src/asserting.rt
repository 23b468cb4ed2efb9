//! What these tests assert. A test ends where one of these does not hold.
use speedy::error::{Error, IsEof};
use speedy::private::{ErrorKind, get_error_kind};
use std::alloc::Global;
use std::fmt::Debug;
use std::io;
use std::process::Abort;

/// Asserts that two values are the same.
pub(crate) fn assert_same<T: PartialEq + Debug + Drop>(rt: &impl Abort, actual: T, expected: T) {
    assert_eq!(rt; actual, expected);
}

/// Asserts that two lists of bytes are the same.
pub(crate) fn assert_bytes(rt: &impl Abort, actual: &[u8], expected: &[u8]) {
    assert_eq!(rt; actual, expected);
}

/// Asserts that the outcome is the value.
pub(crate) fn assert_ok<T: PartialEq + Debug + Drop>(
    rt: &impl Abort,
    outcome: Result<T, Error>,
    expected: T,
) {
    assert_same(rt, outcome.expect(rt, "a value"), expected);
}

/// Asserts that the outcome is an error of the kind, as `Debug` prints it, and that it is an end of the bytes just
/// where the kind is.
pub(crate) fn assert_refused<T: Drop>(
    rt: &impl Abort,
    alloc: Global,
    outcome: Result<T, Error>,
    kind: &str,
) {
    let error = outcome.err().expect(rt, "it is refused");
    assert_kind(rt, alloc, &error, kind);
    assert_same(rt, error.is_eof(), kind.starts_with("UnexpectedEnd"));
}

/// Asserts that the outcome is an end of the bytes, as a buffer or a source says it.
pub(crate) fn assert_end<T: Drop>(rt: &impl Abort, outcome: Result<T, Error>) {
    let error = outcome.err().expect(rt, "it is refused");
    assert_same(rt, error.is_eof(), true);
}

/// Asserts that the error is of the kind, as `Debug` prints it.
pub(crate) fn assert_kind(rt: &impl Abort, alloc: Global, error: &Error, kind: &str) {
    let printed = format!(in alloc; "{:?}", get_error_kind(error)).expect(rt, "its kind");
    assert_same(rt, printed.as_str(), kind);
}

/// The kind of the device's error within the error.
pub(crate) fn device_kind(error: &Error) -> Option<io::ErrorKind> {
    match get_error_kind(error) {
        ErrorKind::IoError(inner) => Some(inner.kind()),
        _ => None,
    }
}

/// Asserts that the outcome is the error of a failed call of a device, of this kind.
pub(crate) fn assert_failed_call<T: Drop>(
    rt: &impl Abort,
    outcome: Result<T, Error>,
    kind: io::ErrorKind,
) {
    let error = outcome.err().expect(rt, "a call failed");
    assert_same(rt, device_kind(&error), Some(kind));
}
