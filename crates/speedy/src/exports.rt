//! What functions that are exported to other languages call: `tools/derive --library` writes these for the types of a
//! Rust file.
ghost use Rattle.std.specs.Prelude.{◌≡◌, ◌<◌, ◌↔◌, ℕ, List, ◌++◌, take, Some, None, IfErr, MatchResult};
ghost use Rattle.std.specs.Str.{IsUtf8};
ghost use Rattle.speedy_base.specs.Error.{kind_of};
ghost use Rattle.speedy_layout.specs.Floats.{f32_bits, f64_bits};
ghost use Rattle.speedy.specs.Exports.{number_of_kind, number_of_order, flag_as_number, number_of_unshown};
ghost use Rattle.speedy.specs.Exports.{Checks, ChecksWhole, Reads, Steps, Writes};
ghost use Rattle.speedy.specs.Exports.{TakesWhole, WritesAgain};
ghost use Rattle.speedy.specs.Exports.{MakesShown, ShowsText, ShowsCharacter, ShowsFlag};

use crate::encoded::{EncodedList, ListItem};
use crate::in_place::InPlace;
use crate::laws::refused_is_none;
use speedy_base::endianness::Endianness;
use speedy_base::error::{Error, ErrorKind, get_error_kind};
use speedy_layout::Layout;
use speedy_layout::floats::{F32, F64};
use speedy_read::buffer::Buffer;
use speedy_read::readable::ReadFrom;
use speedy_read::utf8::bytes_to_str;
use speedy_read::whole::{ReadWhole, ReadableWhole};
use speedy_write::Writable;
use std::alloc::Global;

/// The answer to a number that is no byte order.
pub const UNKNOWN_ORDER: u32 = 100;

/// The number of an error's kind, from 1 on. No later version gives a kind another number.
pub fn kind_number(error: &Error) -> u32
    ensures { result ≡ number_of_kind (kind_of error.now) }
{
    match get_error_kind(error) {
        ErrorKind::InvalidChar => 1,
        ErrorKind::InvalidEnumVariant => 2,
        ErrorKind::InvalidUtf8 => 3,
        ErrorKind::InvalidSystemTime => 4,
        ErrorKind::ZeroNonZero => 5,
        ErrorKind::OutOfRangeLength => 6,
        ErrorKind::OutOfRangeUsize => 7,
        ErrorKind::UnexpectedEndOfInput => 8,
        ErrorKind::UnexpectedEndOfOutputBuffer => 9,
        ErrorKind::InputBufferIsTooSmall { .. } => 10,
        ErrorKind::OutputBufferIsTooSmall { .. } => 11,
        ErrorKind::LengthIsNotTheSameAsLengthAttribute { .. } => 12,
        ErrorKind::ExpectedConstant { .. } => 13,
        ErrorKind::Unsized => 14,
        ErrorKind::EndiannessMismatch => 15,
        ErrorKind::NotWrittenForm => 16,
        ErrorKind::IoError(_) => 17,
        ErrorKind::OutOfMemory => 18,
        ErrorKind::Custom(_) => 19,
    }
}

/// The byte order of a number: 0 for little endian, 1 for big endian.
pub fn order_of(number: u32) -> Option<Endianness>
    ensures known { (it : Endianness) → (result ≡ Some it) ↔ (number ≡ number_of_order it) }
    ensures unknown { (result ≡ None) ↔ (1 < number) }
{
    match number {
        0 => Some(Endianness::LittleEndian),
        1 => Some(Endianness::BigEndian),
        _ => None,
    }
}

/// The number of a byte order.
#[inline]
pub fn order_number(order: Endianness) -> u32
    ensures { result ≡ number_of_order order }
{
    match order {
        Endianness::LittleEndian => 0,
        Endianness::BigEndian => 1,
    }
}

/// The number of a flag.
#[inline]
pub fn flag_number(flag: bool) -> u8
    ensures { result ≡ flag_as_number flag }
{
    if flag { 1 } else { 0 }
}

/// Says whether the bytes begin with an encoding of a value, in the byte order of a number.
///
/// The answer is 0 where they do, and `size` is then how many bytes the encoding has. Else it is the [number of the
/// error's kind](kind_number), and `size` is how many bytes were read before it, or [`UNKNOWN_ORDER`].
pub fn check<'a, T: ReadFrom<&'a [u8], Endianness>>(
    alloc: Global,
    bytes: &'a [u8],
    order: u32,
    size: &mut usize,
) -> u32
    ensures { Checks T.layout order bytes.now result size.new }
{
    refused_is_none::<T, Endianness>();
    let order = match order_of(order) {
        Some(order) => order,
        None => {
            *size = 0;
            return UNKNOWN_ORDER;
        }
    };
    let (outcome, taken) = bytes.read_with_length::<T>(alloc, order);
    *size = taken;
    match outcome {
        Ok(_) => 0,
        Err(error) => kind_number(&error),
    }
}

/// Says whether the bytes, all of them, are an encoding of a value that ends where the bytes do, in the byte order of a
/// number.
///
/// The answer is 0 where they are. Else it is the [number of the error's kind](kind_number), or [`UNKNOWN_ORDER`].
pub fn check_whole<'a, T: ReadWhole<&'a [u8], Endianness>>(
    alloc: Global,
    bytes: &'a [u8],
    order: u32,
) -> u32
    ensures { ChecksWhole T.whole order bytes.now result }
{
    let order = match order_of(order) {
        Some(order) => order,
        None => return UNKNOWN_ORDER,
    };
    match T::read_whole_from_buffer_with_ctx(alloc, order, bytes) {
        Ok(_) => 0,
        Err(error) => kind_number(&error),
    }
}

/// What callers in other languages are shown of a value of the type `T`: a struct with `#[repr(C)]`, of numbers, of
/// such structs, and of bytes that lie where the value was read from.
pub trait View<T>: Sized {
    /// What is shown of which value.
    ghost shows: { T → Self → Type 0 };

    /// What is shown of a value.
    fn of(value: &T) -> Self
        ensures { shows value.now result };
}

// A number shows itself, so that a walk gives the numbers of a list.
impl View<u8> for u8 {
    ghost shows = { λ value view. view ≡ value };

    #[inline]
    fn of(value: &u8) -> u8 {
        *value
    }
}

impl View<u16> for u16 {
    ghost shows = { λ value view. view ≡ value };

    #[inline]
    fn of(value: &u16) -> u16 {
        *value
    }
}

impl View<u32> for u32 {
    ghost shows = { λ value view. view ≡ value };

    #[inline]
    fn of(value: &u32) -> u32 {
        *value
    }
}

impl View<u64> for u64 {
    ghost shows = { λ value view. view ≡ value };

    #[inline]
    fn of(value: &u64) -> u64 {
        *value
    }
}

impl View<i8> for i8 {
    ghost shows = { λ value view. view ≡ value };

    #[inline]
    fn of(value: &i8) -> i8 {
        *value
    }
}

impl View<i16> for i16 {
    ghost shows = { λ value view. view ≡ value };

    #[inline]
    fn of(value: &i16) -> i16 {
        *value
    }
}

impl View<i32> for i32 {
    ghost shows = { λ value view. view ≡ value };

    #[inline]
    fn of(value: &i32) -> i32 {
        *value
    }
}

impl View<i64> for i64 {
    ghost shows = { λ value view. view ≡ value };

    #[inline]
    fn of(value: &i64) -> i64 {
        *value
    }
}

impl View<bool> for u8 {
    ghost shows = { ShowsFlag };

    #[inline]
    fn of(value: &bool) -> u8 {
        flag_number(*value)
    }
}

impl View<char> for u32 {
    ghost shows = { ShowsCharacter };

    #[inline]
    fn of(value: &char) -> u32 {
        character_number(*value)
    }
}

// The UTF-8 of a text.
impl<'a> View<&'a str> for &'a [u8] {
    ghost shows = { λ value view. ShowsText value.now view.now };

    #[inline]
    fn of(value: &&'a str) -> &'a [u8] {
        value.as_bytes()
    }
}

impl<'a> View<&'a [u8]> for &'a [u8] {
    ghost shows = { λ value view. view.now ≡ value.now };

    #[inline]
    fn of(value: &&'a [u8]) -> &'a [u8] {
        *value
    }
}

// The bits of a float.
impl View<F32> for u32 {
    ghost shows = { λ value view. view ≡ f32_bits value };

    #[inline]
    fn of(value: &F32) -> u32 {
        value.bits()
    }
}

// The bits of a float.
impl View<F64> for u64 {
    ghost shows = { λ value view. view ≡ f64_bits value };

    #[inline]
    fn of(value: &F64) -> u64 {
        value.bits()
    }
}

/// Reads a value that the bytes begin with, in the byte order of a number, and shows it.
///
/// The answer and `size` are those of a [`check`]. Where it is not 0, the view stays as it is.
pub fn read<'a, T: ReadFrom<&'a [u8], Endianness>, V: View<T> + Drop>(
    alloc: Global,
    bytes: &'a [u8],
    order: u32,
    view: &mut V,
    size: &mut usize,
) -> u32
    ensures { Reads T.seen V.shows T.layout order bytes.now result size.new view.old view.new }
{
    refused_is_none::<T, Endianness>();
    let order = match order_of(order) {
        Some(order) => order,
        None => {
            *size = 0;
            return UNKNOWN_ORDER;
        }
    };
    let (outcome, taken) = bytes.read_with_length::<T>(alloc, order);
    *size = taken;
    match outcome {
        Ok(value) => {
            *view = V::of(&value);
            0
        }
        Err(error) => kind_number(&error),
    }
}

/// A walk over values that stand one after another: the bytes that are left.
#[repr(C)]
#[derive(Clone, Copy)]
pub struct Walk<'a> {
    pub left: &'a [u8],
}

/// Takes a value from a walk, in the byte order of a number, and shows it.
///
/// The answer is that of a [`check`] of the bytes that are left. Where it is not 0, the walk and the view stay as they
/// are.
pub fn next<'a, T: ReadFrom<&'a [u8], Endianness>, V: View<T> + Drop>(
    alloc: Global,
    walk: &mut Walk<'a>,
    order: u32,
    view: &mut V,
) -> u32
    ensures { Steps T.seen V.shows T.layout order walk.old.left.now walk.new.left.now result view.old view.new }
{
    let mut size = 0;
    let answer = read::<T, V>(alloc, walk.left, order, view, &mut size);
    if answer == 0 {
        walk.left = walk.left.split_at(size).1;
    }
    answer
}

/// What is shown of a list of values, which lies where it was read: its items are a [`Walk`], in a byte order.
#[repr(C)]
#[derive(Clone, Copy)]
pub struct ListView<'a> {
    pub items: Walk<'a>,
    pub count: usize,
    pub order: u32,
}

impl<'a, T: InPlace> View<EncodedList<'a, T>> for ListView<'a> {
    ghost shows = { λ list view. (view.items.left.now ≡ list.bytes.now) × (view.count ≡ list.count)
        × (view.order ≡ number_of_order list.order) };

    fn of(list: &EncodedList<'a, T>) -> ListView<'a> {
        ListView {
            items: Walk { left: list.bytes() },
            count: list.len(),
            order: order_number(list.order()),
        }
    }
}

/// Why a view shows no value.
#[derive(Debug, Clone, Copy, PartialEq)]
pub enum Unshown {
    /// A number that should be a character is no Unicode scalar value.
    Character,
    /// A tag that no variant has, or a flag that is neither 0 nor 1.
    Tag,
    /// Bytes that should be a text are not UTF-8.
    Text,
    /// Bytes that should be so many items of a list are not, or their byte order is none.
    List,
}

/// The number of the kind that says the same of bytes.
fn unshown_number(why: Unshown) -> u32
    ensures { result ≡ number_of_unshown why }
{
    match why {
        Unshown::Character => 1,
        Unshown::Tag => 2,
        Unshown::Text => 3,
        Unshown::List => 6,
    }
}

/// The number of a character.
#[inline]
pub fn character_number(character: char) -> u32
    ensures { ShowsCharacter character result }
{
    character as u32
}

/// The character of a number.
#[inline]
pub fn character_shown(number: u32) -> Result<char, Unshown>
    ensures shown { MakesShown (λ it. it) ShowsCharacter number result }
    ensures kind { IfErr result (λ why. why ≡ Unshown.Character) }
{
    match char::from_u32(number) {
        Some(character) => Ok(character),
        None => Err(Unshown::Character),
    }
}

/// The flag of a number: no other number than 0 and 1 shows one.
#[inline]
pub fn flag_shown(number: u8) -> Result<bool, Unshown>
    ensures shown { MakesShown (λ it. it) ShowsFlag number result }
    ensures kind { IfErr result (λ why. why ≡ Unshown.Tag) }
{
    match number {
        0 => Ok(false),
        1 => Ok(true),
        _ => Err(Unshown::Tag),
    }
}

/// The text whose UTF-8 the bytes are.
#[inline]
pub fn text_shown(bytes: &[u8]) -> Result<&str, Unshown>
    ensures shown { MatchResult result (λ text. ShowsText text.now bytes.now) (λ _. ¬ IsUtf8 bytes.now) }
    ensures kind { IfErr result (λ why. why ≡ Unshown.Text) }
{
    match bytes_to_str::<Error>(bytes) {
        Ok(text) => Ok(text),
        Err(_) => Err(Unshown::Text),
    }
}

/// Views of which the value is made again that they show, to be written.
pub trait Shown<T: Layout>: View<T> {
    /// The value that the view shows, or why it shows none. Texts, bytes and lists lie where the view has them. Memory
    /// is asked for by no value that takes none.
    fn value(&self, alloc: Global) -> Result<T, Unshown>
        ensures { MakesShown T.seen Self.shows self.now result };
}

impl<'a, T: ListItem> Shown<EncodedList<'a, T>> for ListView<'a> {
    /// Each item is decoded once: the bytes have to be so many encodings, and nothing behind them.
    fn value(&self, alloc: Global) -> Result<EncodedList<'a, T>, Unshown> {
        let Some(order) = order_of(self.order) else {
            return Err(Unshown::List);
        };
        let bytes = self.items.left;
        let Ok(size) = T::measure(alloc, order, self.count, bytes) else {
            return Err(Unshown::List);
        };
        if size != bytes.len() {
            return Err(Unshown::List);
        }
        Ok(EncodedList::over(alloc, bytes, self.count, order))
    }
}

/// Writes the value that a view shows to the beginning of a buffer, in the byte order of a number.
///
/// The answer is 0 where its canonical encoding fits, and `size` is then how long that is. It is the number of
/// `OutputBufferIsTooSmall` where the buffer is shorter, and `size` is how long it has to be. Else it is why the view
/// shows no value, or why the value has no encoding, or [`UNKNOWN_ORDER`], and `size` is 0. Where the answer is not 0,
/// the buffer stays as it is.
pub fn write<T: Writable<Endianness> + Drop, V: Shown<T>>(
    alloc: Global,
    view: &V,
    order: u32,
    buffer: &mut [u8],
    size: &mut usize,
) -> u32
    ensures { Writes T.seen V.shows T.layout view.now order result size.new buffer.old buffer.new }
{
    *size = 0;
    let mut order = match order_of(order) {
        Some(order) => order,
        None => return UNKNOWN_ORDER,
    };
    let value = match view.value(alloc) {
        Ok(value) => value,
        Err(why) => return unshown_number(why),
    };
    let needed = match value.bytes_needed(&mut order) {
        Ok(needed) => needed,
        Err(error) => return kind_number(&error),
    };
    *size = needed;
    match value.write_to_buffer_with_ctx(order, buffer) {
        Ok(()) => 0,
        Err(error) => kind_number(&error),
    }
}

/// What was written of a view is an encoding to a check of the bytes that begin with it, whatever stands behind it.
pub fn written_is_checked<T: Layout, V: View<T>>()
    ensures { (view : V) (order size answer found : ℕ) (old new more : List ℕ) →
        Writes T.seen V.shows T.layout view order 0 size old new
        → Checks T.layout order (take size new ++ more) answer found
        → TakesWhole T.layout order answer found size }
{}

/// What a read shows is written again as the canonical encoding of the value that was read, which is no longer than the
/// encoding that was read.
pub fn read_is_written<T: Layout, V: View<T>>()
    ensures { (view before : V) (order size room : ℕ) (bytes old new : List ℕ) →
        Reads T.seen V.shows T.layout order bytes 0 size before view
        → Writes T.seen V.shows T.layout view order 0 room old new
        → WritesAgain T.layout order (take size bytes) (take room new) }
{}
