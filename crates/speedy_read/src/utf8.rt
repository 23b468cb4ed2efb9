//! Bytes as texts: whether they are UTF-8.
ghost use Rattle.std.specs.Prelude.{◌≡◌, ◌↔◌, IsTrue, MatchResult};
ghost use Rattle.std.specs.String.{string_bytes};
ghost use Rattle.std.specs.Cow.{cow_slice_items, cow_str_bytes};
ghost use Rattle.std.specs.Str.{IsUtf8};
ghost use Rattle.speedy_base.specs.Error.{error_of};

use speedy_base::error::{Error, ErrorKind, error_invalid_str_utf8, error_invalid_string_utf8};
use std::borrow::{CowSlice, CowStr};

/// The text whose UTF-8 the bytes are, without a copy, or the error `InvalidUtf8`.
#[inline]
pub fn vec_to_string<E: From<Error>>(vec: Vec<u8>) -> Result<String, E>
    ensures { MatchResult result (λ text. (string_bytes text ≡ vec.items) × IsUtf8 vec.items)
        (λ e. E.from_gives (error_of ErrorKind.InvalidUtf8) e × ¬ IsUtf8 vec.items) }
{
    if !is_utf8(&vec) {
        return Err(error_invalid_string_utf8());
    }
    Ok(unsafe { String::from_utf8_unchecked(vec) })
}

/// The text whose UTF-8 the bytes are, without a copy, or the error `InvalidUtf8`, which drops them.
#[inline]
pub fn cow_bytes_to_cow_str<'a, E: From<Error>>(bytes: CowSlice<'a, u8>) -> Result<CowStr<'a>, E>
    ensures { let all = cow_slice_items bytes.entry in
        MatchResult result (λ text. (cow_str_bytes text ≡ all) × IsUtf8 all)
        (λ e. E.from_gives (error_of ErrorKind.InvalidUtf8) e × ¬ IsUtf8 all) }
{
    match bytes {
        CowSlice::Borrowed(lent) => Ok(CowStr::Borrowed(bytes_to_str(lent)?)),
        CowSlice::Owned(vec) => Ok(CowStr::Owned(vec_to_string(vec)?)),
    }
}

/// The text whose UTF-8 the bytes are, where they lie, or the error `InvalidUtf8`.
#[inline(always)]
pub fn bytes_to_str<E: From<Error>>(bytes: &[u8]) -> Result<&str, E>
    ensures { MatchResult result (λ text. (text.now ≡ bytes.now) × IsUtf8 bytes.now)
        (λ e. E.from_gives (error_of ErrorKind.InvalidUtf8) e × ¬ IsUtf8 bytes.now) }
{
    if !is_utf8(bytes) {
        return Err(error_invalid_str_utf8());
    }
    Ok(unsafe { str::from_utf8_unchecked(bytes) })
}

// The least length at which bytes are tested 64 at a time, which takes a seventh of the time where they are no ASCII.
const LONG_TEXT: usize = 64;

// Whether the bytes are UTF-8.
#[inline]
fn is_utf8(bytes: &[u8]) -> bool
    ensures { IsTrue result ↔ IsUtf8 bytes.now }
{
    if bytes.len() < LONG_TEXT {
        str::from_utf8(bytes).is_ok()
    } else {
        is_long_utf8(bytes)
    }
}

// It stays out of line: what it needs of registers and of the stack, a short text would pay for too.
#[inline(never)]
fn is_long_utf8(bytes: &[u8]) -> bool
    ensures { IsTrue result ↔ IsUtf8 bytes.now }
{
    simdutf8::is_utf8(bytes)
}
