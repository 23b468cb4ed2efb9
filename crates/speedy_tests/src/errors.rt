//! Each error: its kind, its text, whether it is an end of the bytes, and its kind as an `io::Error`.
use crate::asserting::{assert_kind, assert_same};
use speedy::error::*;
use std::alloc::{AllocError, Global};
use std::io;
use std::mem::size_of;
use std::process::Abort;

/// Asserts what is printed of the error, whether it is an end of the bytes, and what `io::Error` it becomes.
fn assert_error(
    rt: &impl Abort,
    alloc: Global,
    error: Error,
    kind: &str,
    text: &str,
    is_eof: bool,
    io_kind: io::ErrorKind,
) {
    assert_kind(rt, alloc, &error, kind);
    assert_same(
        rt,
        error.to_string(alloc).expect(rt, "its text").as_str(),
        text,
    );
    assert_same(rt, error.is_eof(), is_eof);
    let outer = io::Error::from(error);
    assert_same(rt, outer.kind(), io_kind);
    // std cuts the text of an `io::Error` at 80 bytes
    if text.len() <= 80 {
        assert_same(
            rt,
            outer.to_string(alloc).expect(rt, "its text").as_str(),
            text,
        );
    }
}

/// Asserts the kind and the text of an error of what was read or written.
fn assert_refusal(rt: &impl Abort, alloc: Global, error: Error, kind: &str, text: &str) {
    assert_error(
        rt,
        alloc,
        error,
        kind,
        text,
        false,
        io::ErrorKind::InvalidData,
    );
}

/// Asserts the kind and the text of an error that says that the bytes ended.
fn assert_end(rt: &impl Abort, alloc: Global, error: Error, kind: &str, text: &str) {
    assert_error(
        rt,
        alloc,
        error,
        kind,
        text,
        true,
        io::ErrorKind::UnexpectedEof,
    );
}

/// Asserts the kind and the text of an error that has nothing to do with the bytes.
fn assert_other(rt: &impl Abort, alloc: Global, error: Error, kind: &str, text: &str) {
    assert_error(rt, alloc, error, kind, text, false, io::ErrorKind::Other);
}

#[test]
fn refusals_of_values_have_their_kinds_and_texts(rt: HostRuntime) {
    let alloc = rt.alloc();
    let text = "out of range char";
    assert_refusal(&rt, alloc, error_out_of_range_char(), "InvalidChar", text);
    let text = "invalid enum variant";
    assert_refusal(
        &rt,
        alloc,
        error_invalid_enum_variant(),
        "InvalidEnumVariant",
        text,
    );
    let text = "a field which is supposed to be non-zero is zero";
    assert_refusal(&rt, alloc, error_zero_non_zero(), "ZeroNonZero", text);
    let text = "encountered invalid system time object";
    assert_refusal(
        &rt,
        alloc,
        error_invalid_system_time(),
        "InvalidSystemTime",
        text,
    );
}

#[test]
fn refusals_of_texts_have_their_kinds_and_texts(rt: HostRuntime) {
    let alloc = rt.alloc();
    let text = "encountered invalid utf-8";
    assert_refusal(&rt, alloc, error_invalid_string_utf8(), "InvalidUtf8", text);
    assert_refusal(&rt, alloc, error_invalid_str_utf8(), "InvalidUtf8", text);
}

#[test]
fn refusals_of_lengths_have_their_kinds_and_texts(rt: HostRuntime) {
    let alloc = rt.alloc();
    let text = "out of range length";
    assert_refusal(
        &rt,
        alloc,
        error_out_of_range_length(),
        "OutOfRangeLength",
        text,
    );
    let text = "value cannot fit into an usize on this architecture";
    let error = error_too_big_usize_for_this_architecture();
    assert_refusal(&rt, alloc, error, "OutOfRangeUsize", text);
    let kind = "LengthIsNotTheSameAsLengthAttribute { field_name: \"x\" }";
    let text = "the length of 'x' is not the same as its 'length' attribute";
    let error = error_length_is_not_the_same_as_length_attribute("x");
    assert_refusal(&rt, alloc, error, kind, text);
}

#[test]
fn refusals_of_buffers_have_their_kinds_and_texts(rt: HostRuntime) {
    let alloc = rt.alloc();
    let kind = "InputBufferIsTooSmall { actual_size: 1, expected_size: 2 }";
    let text = "input buffer is too small; expected at least 2 bytes, got 1";
    assert_refusal(
        &rt,
        alloc,
        error_input_buffer_is_too_small(1, 2),
        kind,
        text,
    );
    let kind = "OutputBufferIsTooSmall { actual_size: 1, expected_size: 2 }";
    let text = "output buffer is too small; expected at least 2 bytes, got 1";
    assert_refusal(
        &rt,
        alloc,
        error_output_buffer_is_too_small(1, 2),
        kind,
        text,
    );
}

#[test]
fn refusals_of_forms_have_their_kinds_and_texts(rt: HostRuntime) {
    let alloc = rt.alloc();
    let kind = "ExpectedConstant { constant: [65, 66, 67] }";
    let text = "expected a predefined 3 bytes(s) long constant";
    assert_refusal(&rt, alloc, error_expected_constant(b"ABC"), kind, text);
    let text =
        "type is unsized hence requires zero-copy deserialization; use `read_from_buffer` or similar to deserialize it";
    assert_refusal(&rt, alloc, error_unsized(), "Unsized", text);
    let text = "endianness mismatch";
    assert_refusal(
        &rt,
        alloc,
        error_endianness_mismatch(),
        "EndiannessMismatch",
        text,
    );
    let text = "spelling is not the written one";
    let error = error_not_written_form();
    assert_refusal(&rt, alloc, error, "NotWrittenForm", text);
}

#[test]
fn ends_have_their_kinds_and_texts(rt: HostRuntime) {
    let alloc = rt.alloc();
    let text = "unexpected end of input";
    assert_end(
        &rt,
        alloc,
        error_end_of_input(),
        "UnexpectedEndOfInput",
        text,
    );
    let text = "unexpected end of output buffer";
    assert_end(
        &rt,
        alloc,
        error_end_of_output_buffer(),
        "UnexpectedEndOfOutputBuffer",
        text,
    );
    let converted: io::Error = error_end_of_input();
    assert_same(&rt, converted.kind(), io::ErrorKind::UnexpectedEof);
}

#[test]
fn want_of_memory_has_its_kind_and_text(rt: HostRuntime) {
    let alloc = rt.alloc();
    assert_other(
        &rt,
        alloc,
        error_out_of_memory(),
        "OutOfMemory",
        "out of memory",
    );
    assert_other(
        &rt,
        alloc,
        Error::from(AllocError),
        "OutOfMemory",
        "out of memory",
    );
}

#[test]
fn refusals_of_one_s_own_have_their_texts(rt: HostRuntime) {
    let alloc = rt.alloc();
    assert_other(&rt, alloc, Error::custom(alloc, "x"), "Custom(\"x\")", "x");
    assert_other(&rt, alloc, Error::custom(alloc, ""), "Custom(\"\")", "");
}

#[test]
fn a_failed_call_of_a_device_is_kept(rt: HostRuntime) {
    let alloc = rt.alloc();
    let broken = io::Error::new(io::ErrorKind::BrokenPipe, "nobody reads");
    let error = Error::from_io_error(alloc, broken);
    let kind = "IoError(Custom { kind: BrokenPipe, error: \"nobody reads\" })";
    let io_kind = io::ErrorKind::BrokenPipe;
    assert_error(&rt, alloc, error, kind, "nobody reads", false, io_kind);
    let ended = io::Error::new(io::ErrorKind::UnexpectedEof, "cut off");
    let error = Error::from_io_error(alloc, ended);
    let kind = "IoError(Custom { kind: UnexpectedEof, error: \"cut off\" })";
    assert_end(&rt, alloc, error, kind, "cut off");
}

#[test]
fn errors_are_small(rt: HostRuntime) {
    assert!(rt; size_of::<Error>() <= 32);
}
