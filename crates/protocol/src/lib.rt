//! What callers in other languages call for the types of `crates/speedy_protocol/messages.rs`.
//!
//! Made from `crates/speedy_protocol/messages.rs` by `tools/derive --library`: change that, and make this again.
#![tactic(auto)]

ghost use Rattle.std.specs.Prelude.{◌≡◌};
ghost use Rattle.speedy.specs.Exports.{Checks, Reads, Steps, Writes};

use crate::messages::{FramedBytes, FramedMessage, Header, Header2, Message, Reading, Start};
use crate::views::{
    FramedBytesView, FramedMessageView, Header2View, HeaderView, MessageView, ReadingView,
    StartView,
};
use speedy::Layout;
use speedy::exports::{View, Walk, check, next, read, write};
use std::alloc::Global;

pub mod messages;
pub mod views;

/// Tells the file that this library was made of: a header of the same file has this number.
#[unsafe(no_mangle)]
pub extern "C" fn protocol_source() -> u32
    ensures { result ≡ 116202973 }
{
    116202973
}

/// Says whether bytes begin with an encoding of [`Start`].
#[unsafe(no_mangle)]
pub extern "C" fn protocol_start_check<'a>(
    alloc: Global,
    bytes: &'a [u8],
    order: u32,
    size: &mut usize,
) -> u32
    ensures { Checks ⟦<Start<'a> as Layout>⟧.layout order bytes.now result size.new }
{
    check::<Start<'a>>(alloc, bytes, order, size)
}

/// Reads a [`Start`] that bytes begin with, and shows it.
#[unsafe(no_mangle)]
pub extern "C" fn protocol_start_read<'a>(
    alloc: Global,
    bytes: &'a [u8],
    order: u32,
    view: &mut StartView<'a>,
    size: &mut usize,
) -> u32
    ensures { let it = ⟦<Start<'a> as Layout>⟧ in
        let shows = ⟦<StartView<'a> as View<Start<'a>>>⟧.shows in
        Reads it.seen shows it.layout order bytes.now result size.new view.old view.new }
{
    read::<Start<'a>, StartView<'a>>(alloc, bytes, order, view, size)
}

/// Takes a [`Start`] from a walk, and shows it.
#[unsafe(no_mangle)]
pub extern "C" fn protocol_start_next<'a>(
    alloc: Global,
    walk: &mut Walk<'a>,
    order: u32,
    view: &mut StartView<'a>,
) -> u32
    ensures { let it = ⟦<Start<'a> as Layout>⟧ in
        let shows = ⟦<StartView<'a> as View<Start<'a>>>⟧.shows in
        Steps it.seen shows it.layout order walk.old.left.now walk.new.left.now result
        view.old view.new }
{
    next::<Start<'a>, StartView<'a>>(alloc, walk, order, view)
}

/// Writes the [`Start`] that a view shows.
#[unsafe(no_mangle)]
pub extern "C" fn protocol_start_write<'a>(
    alloc: Global,
    view: &StartView<'a>,
    order: u32,
    buffer: &mut [u8],
    size: &mut usize,
) -> u32
    ensures { let it = ⟦<Start<'a> as Layout>⟧ in
        let shows = ⟦<StartView<'a> as View<Start<'a>>>⟧.shows in
        Writes it.seen shows it.layout view.now order result size.new buffer.old buffer.new }
{
    write::<Start<'a>, StartView<'a>>(alloc, view, order, buffer, size)
}

/// Says whether bytes begin with an encoding of [`Header`].
#[unsafe(no_mangle)]
pub extern "C" fn protocol_header_check(
    alloc: Global,
    bytes: &[u8],
    order: u32,
    size: &mut usize,
) -> u32
    ensures { Checks ⟦<Header as Layout>⟧.layout order bytes.now result size.new }
{
    check::<Header>(alloc, bytes, order, size)
}

/// Reads a [`Header`] that bytes begin with, and shows it.
#[unsafe(no_mangle)]
pub extern "C" fn protocol_header_read(
    alloc: Global,
    bytes: &[u8],
    order: u32,
    view: &mut HeaderView,
    size: &mut usize,
) -> u32
    ensures { let it = ⟦<Header as Layout>⟧ in
        let shows = ⟦<HeaderView as View<Header>>⟧.shows in
        Reads it.seen shows it.layout order bytes.now result size.new view.old view.new }
{
    read::<Header, HeaderView>(alloc, bytes, order, view, size)
}

/// Takes a [`Header`] from a walk, and shows it.
#[unsafe(no_mangle)]
pub extern "C" fn protocol_header_next<'a>(
    alloc: Global,
    walk: &mut Walk<'a>,
    order: u32,
    view: &mut HeaderView,
) -> u32
    ensures { let it = ⟦<Header as Layout>⟧ in
        let shows = ⟦<HeaderView as View<Header>>⟧.shows in
        Steps it.seen shows it.layout order walk.old.left.now walk.new.left.now result
        view.old view.new }
{
    next::<Header, HeaderView>(alloc, walk, order, view)
}

/// Writes the [`Header`] that a view shows.
#[unsafe(no_mangle)]
pub extern "C" fn protocol_header_write(
    alloc: Global,
    view: &HeaderView,
    order: u32,
    buffer: &mut [u8],
    size: &mut usize,
) -> u32
    ensures { let it = ⟦<Header as Layout>⟧ in
        let shows = ⟦<HeaderView as View<Header>>⟧.shows in
        Writes it.seen shows it.layout view.now order result size.new buffer.old buffer.new }
{
    write::<Header, HeaderView>(alloc, view, order, buffer, size)
}

/// Says whether bytes begin with an encoding of [`Header2`].
#[unsafe(no_mangle)]
pub extern "C" fn protocol_header2_check(
    alloc: Global,
    bytes: &[u8],
    order: u32,
    size: &mut usize,
) -> u32
    ensures { Checks ⟦<Header2 as Layout>⟧.layout order bytes.now result size.new }
{
    check::<Header2>(alloc, bytes, order, size)
}

/// Reads a [`Header2`] that bytes begin with, and shows it.
#[unsafe(no_mangle)]
pub extern "C" fn protocol_header2_read(
    alloc: Global,
    bytes: &[u8],
    order: u32,
    view: &mut Header2View,
    size: &mut usize,
) -> u32
    ensures { let it = ⟦<Header2 as Layout>⟧ in
        let shows = ⟦<Header2View as View<Header2>>⟧.shows in
        Reads it.seen shows it.layout order bytes.now result size.new view.old view.new }
{
    read::<Header2, Header2View>(alloc, bytes, order, view, size)
}

/// Takes a [`Header2`] from a walk, and shows it.
#[unsafe(no_mangle)]
pub extern "C" fn protocol_header2_next<'a>(
    alloc: Global,
    walk: &mut Walk<'a>,
    order: u32,
    view: &mut Header2View,
) -> u32
    ensures { let it = ⟦<Header2 as Layout>⟧ in
        let shows = ⟦<Header2View as View<Header2>>⟧.shows in
        Steps it.seen shows it.layout order walk.old.left.now walk.new.left.now result
        view.old view.new }
{
    next::<Header2, Header2View>(alloc, walk, order, view)
}

/// Writes the [`Header2`] that a view shows.
#[unsafe(no_mangle)]
pub extern "C" fn protocol_header2_write(
    alloc: Global,
    view: &Header2View,
    order: u32,
    buffer: &mut [u8],
    size: &mut usize,
) -> u32
    ensures { let it = ⟦<Header2 as Layout>⟧ in
        let shows = ⟦<Header2View as View<Header2>>⟧.shows in
        Writes it.seen shows it.layout view.now order result size.new buffer.old buffer.new }
{
    write::<Header2, Header2View>(alloc, view, order, buffer, size)
}

/// Says whether bytes begin with an encoding of [`Reading`].
#[unsafe(no_mangle)]
pub extern "C" fn protocol_reading_check(
    alloc: Global,
    bytes: &[u8],
    order: u32,
    size: &mut usize,
) -> u32
    ensures { Checks ⟦<Reading as Layout>⟧.layout order bytes.now result size.new }
{
    check::<Reading>(alloc, bytes, order, size)
}

/// Reads a [`Reading`] that bytes begin with, and shows it.
#[unsafe(no_mangle)]
pub extern "C" fn protocol_reading_read(
    alloc: Global,
    bytes: &[u8],
    order: u32,
    view: &mut ReadingView,
    size: &mut usize,
) -> u32
    ensures { let it = ⟦<Reading as Layout>⟧ in
        let shows = ⟦<ReadingView as View<Reading>>⟧.shows in
        Reads it.seen shows it.layout order bytes.now result size.new view.old view.new }
{
    read::<Reading, ReadingView>(alloc, bytes, order, view, size)
}

/// Takes a [`Reading`] from a walk, and shows it.
#[unsafe(no_mangle)]
pub extern "C" fn protocol_reading_next<'a>(
    alloc: Global,
    walk: &mut Walk<'a>,
    order: u32,
    view: &mut ReadingView,
) -> u32
    ensures { let it = ⟦<Reading as Layout>⟧ in
        let shows = ⟦<ReadingView as View<Reading>>⟧.shows in
        Steps it.seen shows it.layout order walk.old.left.now walk.new.left.now result
        view.old view.new }
{
    next::<Reading, ReadingView>(alloc, walk, order, view)
}

/// Writes the [`Reading`] that a view shows.
#[unsafe(no_mangle)]
pub extern "C" fn protocol_reading_write(
    alloc: Global,
    view: &ReadingView,
    order: u32,
    buffer: &mut [u8],
    size: &mut usize,
) -> u32
    ensures { let it = ⟦<Reading as Layout>⟧ in
        let shows = ⟦<ReadingView as View<Reading>>⟧.shows in
        Writes it.seen shows it.layout view.now order result size.new buffer.old buffer.new }
{
    write::<Reading, ReadingView>(alloc, view, order, buffer, size)
}

/// Says whether bytes begin with an encoding of [`Message`].
#[unsafe(no_mangle)]
pub extern "C" fn protocol_message_check<'a>(
    alloc: Global,
    bytes: &'a [u8],
    order: u32,
    size: &mut usize,
) -> u32
    ensures { Checks ⟦<Message<'a> as Layout>⟧.layout order bytes.now result size.new }
{
    check::<Message<'a>>(alloc, bytes, order, size)
}

/// Reads a [`Message`] that bytes begin with, and shows it.
#[unsafe(no_mangle)]
pub extern "C" fn protocol_message_read<'a>(
    alloc: Global,
    bytes: &'a [u8],
    order: u32,
    view: &mut MessageView<'a>,
    size: &mut usize,
) -> u32
    ensures { let it = ⟦<Message<'a> as Layout>⟧ in
        let shows = ⟦<MessageView<'a> as View<Message<'a>>>⟧.shows in
        Reads it.seen shows it.layout order bytes.now result size.new view.old view.new }
{
    read::<Message<'a>, MessageView<'a>>(alloc, bytes, order, view, size)
}

/// Takes a [`Message`] from a walk, and shows it.
#[unsafe(no_mangle)]
pub extern "C" fn protocol_message_next<'a>(
    alloc: Global,
    walk: &mut Walk<'a>,
    order: u32,
    view: &mut MessageView<'a>,
) -> u32
    ensures { let it = ⟦<Message<'a> as Layout>⟧ in
        let shows = ⟦<MessageView<'a> as View<Message<'a>>>⟧.shows in
        Steps it.seen shows it.layout order walk.old.left.now walk.new.left.now result
        view.old view.new }
{
    next::<Message<'a>, MessageView<'a>>(alloc, walk, order, view)
}

/// Writes the [`Message`] that a view shows.
#[unsafe(no_mangle)]
pub extern "C" fn protocol_message_write<'a>(
    alloc: Global,
    view: &MessageView<'a>,
    order: u32,
    buffer: &mut [u8],
    size: &mut usize,
) -> u32
    ensures { let it = ⟦<Message<'a> as Layout>⟧ in
        let shows = ⟦<MessageView<'a> as View<Message<'a>>>⟧.shows in
        Writes it.seen shows it.layout view.now order result size.new buffer.old buffer.new }
{
    write::<Message<'a>, MessageView<'a>>(alloc, view, order, buffer, size)
}

/// Says whether bytes begin with an encoding of [`FramedMessage`].
#[unsafe(no_mangle)]
pub extern "C" fn protocol_framed_message_check<'a>(
    alloc: Global,
    bytes: &'a [u8],
    order: u32,
    size: &mut usize,
) -> u32
    ensures { Checks ⟦<FramedMessage<'a> as Layout>⟧.layout order bytes.now result size.new }
{
    check::<FramedMessage<'a>>(alloc, bytes, order, size)
}

/// Reads a [`FramedMessage`] that bytes begin with, and shows it.
#[unsafe(no_mangle)]
pub extern "C" fn protocol_framed_message_read<'a>(
    alloc: Global,
    bytes: &'a [u8],
    order: u32,
    view: &mut FramedMessageView<'a>,
    size: &mut usize,
) -> u32
    ensures { let it = ⟦<FramedMessage<'a> as Layout>⟧ in
        let shows = ⟦<FramedMessageView<'a> as View<FramedMessage<'a>>>⟧.shows in
        Reads it.seen shows it.layout order bytes.now result size.new view.old view.new }
{
    read::<FramedMessage<'a>, FramedMessageView<'a>>(alloc, bytes, order, view, size)
}

/// Takes a [`FramedMessage`] from a walk, and shows it.
#[unsafe(no_mangle)]
pub extern "C" fn protocol_framed_message_next<'a>(
    alloc: Global,
    walk: &mut Walk<'a>,
    order: u32,
    view: &mut FramedMessageView<'a>,
) -> u32
    ensures { let it = ⟦<FramedMessage<'a> as Layout>⟧ in
        let shows = ⟦<FramedMessageView<'a> as View<FramedMessage<'a>>>⟧.shows in
        Steps it.seen shows it.layout order walk.old.left.now walk.new.left.now result
        view.old view.new }
{
    next::<FramedMessage<'a>, FramedMessageView<'a>>(alloc, walk, order, view)
}

/// Writes the [`FramedMessage`] that a view shows.
#[unsafe(no_mangle)]
pub extern "C" fn protocol_framed_message_write<'a>(
    alloc: Global,
    view: &FramedMessageView<'a>,
    order: u32,
    buffer: &mut [u8],
    size: &mut usize,
) -> u32
    ensures { let it = ⟦<FramedMessage<'a> as Layout>⟧ in
        let shows = ⟦<FramedMessageView<'a> as View<FramedMessage<'a>>>⟧.shows in
        Writes it.seen shows it.layout view.now order result size.new buffer.old buffer.new }
{
    write::<FramedMessage<'a>, FramedMessageView<'a>>(alloc, view, order, buffer, size)
}

/// Says whether bytes begin with an encoding of [`FramedBytes`].
#[unsafe(no_mangle)]
pub extern "C" fn protocol_framed_bytes_check<'a>(
    alloc: Global,
    bytes: &'a [u8],
    order: u32,
    size: &mut usize,
) -> u32
    ensures { Checks ⟦<FramedBytes<'a> as Layout>⟧.layout order bytes.now result size.new }
{
    check::<FramedBytes<'a>>(alloc, bytes, order, size)
}

/// Reads a [`FramedBytes`] that bytes begin with, and shows it.
#[unsafe(no_mangle)]
pub extern "C" fn protocol_framed_bytes_read<'a>(
    alloc: Global,
    bytes: &'a [u8],
    order: u32,
    view: &mut FramedBytesView<'a>,
    size: &mut usize,
) -> u32
    ensures { let it = ⟦<FramedBytes<'a> as Layout>⟧ in
        let shows = ⟦<FramedBytesView<'a> as View<FramedBytes<'a>>>⟧.shows in
        Reads it.seen shows it.layout order bytes.now result size.new view.old view.new }
{
    read::<FramedBytes<'a>, FramedBytesView<'a>>(alloc, bytes, order, view, size)
}

/// Takes a [`FramedBytes`] from a walk, and shows it.
#[unsafe(no_mangle)]
pub extern "C" fn protocol_framed_bytes_next<'a>(
    alloc: Global,
    walk: &mut Walk<'a>,
    order: u32,
    view: &mut FramedBytesView<'a>,
) -> u32
    ensures { let it = ⟦<FramedBytes<'a> as Layout>⟧ in
        let shows = ⟦<FramedBytesView<'a> as View<FramedBytes<'a>>>⟧.shows in
        Steps it.seen shows it.layout order walk.old.left.now walk.new.left.now result
        view.old view.new }
{
    next::<FramedBytes<'a>, FramedBytesView<'a>>(alloc, walk, order, view)
}

/// Writes the [`FramedBytes`] that a view shows.
#[unsafe(no_mangle)]
pub extern "C" fn protocol_framed_bytes_write<'a>(
    alloc: Global,
    view: &FramedBytesView<'a>,
    order: u32,
    buffer: &mut [u8],
    size: &mut usize,
) -> u32
    ensures { let it = ⟦<FramedBytes<'a> as Layout>⟧ in
        let shows = ⟦<FramedBytesView<'a> as View<FramedBytes<'a>>>⟧.shows in
        Writes it.seen shows it.layout view.now order result size.new buffer.old buffer.new }
{
    write::<FramedBytes<'a>, FramedBytesView<'a>>(alloc, view, order, buffer, size)
}
