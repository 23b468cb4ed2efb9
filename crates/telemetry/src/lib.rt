//! What callers in other languages call for the types of `messages.rs`.
//!
//! Made from `messages.rs` by `tools/derive --library`: change that, and make this again.
#![tactic(auto)]

ghost use Rattle.std.specs.Prelude.{◌≡◌};
ghost use Rattle.speedy.specs.Exports.{Checks, ChecksWhole, Reads, Steps, Writes};

use crate::messages::{Line, Message, Reading};
use crate::views::{MessageView, ReadingView};
use speedy::Layout;
use speedy::exports::{View, Walk, check, check_whole, next, read, write};
use speedy::whole::Whole;
use std::alloc::Global;

pub mod messages;
pub mod views;

/// Tells the file that this library was made of: a header of the same file has this number.
#[unsafe(no_mangle)]
pub extern "C" fn telemetry_source() -> u32
    ensures { result ≡ 2946043619 }
{
    2946043619
}

/// Says whether bytes begin with an encoding of [`Reading`].
#[unsafe(no_mangle)]
pub extern "C" fn telemetry_reading_check(
    alloc: Global,
    bytes: &[u8],
    order: u32,
    size: &mut usize,
) -> u32
    ensures { Checks ⟦<Reading as Layout>⟧.layout order bytes.now result size.new }
{
    check::<Reading>(alloc, bytes, order, size)
}

/// Reads a [`Reading`] that bytes begin with, and shows it.
#[unsafe(no_mangle)]
pub extern "C" fn telemetry_reading_read(
    alloc: Global,
    bytes: &[u8],
    order: u32,
    view: &mut ReadingView,
    size: &mut usize,
) -> u32
    ensures { let it = ⟦<Reading as Layout>⟧ in
        let shows = ⟦<ReadingView as View<Reading>>⟧.shows in
        Reads it.seen shows it.layout order bytes.now result size.new view.old view.new }
{
    read::<Reading, ReadingView>(alloc, bytes, order, view, size)
}

/// Takes a [`Reading`] from a walk, and shows it.
#[unsafe(no_mangle)]
pub extern "C" fn telemetry_reading_next<'a>(
    alloc: Global,
    walk: &mut Walk<'a>,
    order: u32,
    view: &mut ReadingView,
) -> u32
    ensures { let it = ⟦<Reading as Layout>⟧ in
        let shows = ⟦<ReadingView as View<Reading>>⟧.shows in
        Steps it.seen shows it.layout order walk.old.left.now walk.new.left.now result
        view.old view.new }
{
    next::<Reading, ReadingView>(alloc, walk, order, view)
}

/// Writes the [`Reading`] that a view shows.
#[unsafe(no_mangle)]
pub extern "C" fn telemetry_reading_write(
    alloc: Global,
    view: &ReadingView,
    order: u32,
    buffer: &mut [u8],
    size: &mut usize,
) -> u32
    ensures { let it = ⟦<Reading as Layout>⟧ in
        let shows = ⟦<ReadingView as View<Reading>>⟧.shows in
        Writes it.seen shows it.layout view.now order result size.new buffer.old buffer.new }
{
    write::<Reading, ReadingView>(alloc, view, order, buffer, size)
}

/// Says whether bytes begin with an encoding of [`Message`].
#[unsafe(no_mangle)]
pub extern "C" fn telemetry_message_check<'a>(
    alloc: Global,
    bytes: &'a [u8],
    order: u32,
    size: &mut usize,
) -> u32
    ensures { Checks ⟦<Message<'a> as Layout>⟧.layout order bytes.now result size.new }
{
    check::<Message<'a>>(alloc, bytes, order, size)
}

/// Reads a [`Message`] that bytes begin with, and shows it.
#[unsafe(no_mangle)]
pub extern "C" fn telemetry_message_read<'a>(
    alloc: Global,
    bytes: &'a [u8],
    order: u32,
    view: &mut MessageView<'a>,
    size: &mut usize,
) -> u32
    ensures { let it = ⟦<Message<'a> as Layout>⟧ in
        let shows = ⟦<MessageView<'a> as View<Message<'a>>>⟧.shows in
        Reads it.seen shows it.layout order bytes.now result size.new view.old view.new }
{
    read::<Message<'a>, MessageView<'a>>(alloc, bytes, order, view, size)
}

/// Takes a [`Message`] from a walk, and shows it.
#[unsafe(no_mangle)]
pub extern "C" fn telemetry_message_next<'a>(
    alloc: Global,
    walk: &mut Walk<'a>,
    order: u32,
    view: &mut MessageView<'a>,
) -> u32
    ensures { let it = ⟦<Message<'a> as Layout>⟧ in
        let shows = ⟦<MessageView<'a> as View<Message<'a>>>⟧.shows in
        Steps it.seen shows it.layout order walk.old.left.now walk.new.left.now result
        view.old view.new }
{
    next::<Message<'a>, MessageView<'a>>(alloc, walk, order, view)
}

/// Writes the [`Message`] that a view shows.
#[unsafe(no_mangle)]
pub extern "C" fn telemetry_message_write<'a>(
    alloc: Global,
    view: &MessageView<'a>,
    order: u32,
    buffer: &mut [u8],
    size: &mut usize,
) -> u32
    ensures { let it = ⟦<Message<'a> as Layout>⟧ in
        let shows = ⟦<MessageView<'a> as View<Message<'a>>>⟧.shows in
        Writes it.seen shows it.layout view.now order result size.new buffer.old buffer.new }
{
    write::<Message<'a>, MessageView<'a>>(alloc, view, order, buffer, size)
}

/// Says whether bytes, all of them, are an encoding of [`Line`].
#[unsafe(no_mangle)]
pub extern "C" fn telemetry_line_check_whole<'a>(alloc: Global, bytes: &'a [u8], order: u32) -> u32
    ensures { ChecksWhole ⟦<Line<'a> as Whole>⟧.whole order bytes.now result }
{
    check_whole::<Line<'a>>(alloc, bytes, order)
}
