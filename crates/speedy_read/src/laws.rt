//! The laws of reading what was written, as functions with empty bodies that a user's proof can cite.
ghost use Rattle.std.specs.Prelude.{◌≡◌, ℕ, List, map};
ghost use Rattle.std.specs.Global.{Vec};
ghost use Rattle.speedy_layout.specs.Numbers.{unsigned_number, length_number};
ghost use Rattle.speedy_layout.specs.Varint.{varint};
ghost use Rattle.speedy_read.specs.UntilEnd.{UntilEndIsDecided};
ghost use Rattle.speedy_read.specs.RoundTrip.{CopiedIsAnswered, WrittenIsAnswered, WrittenIsRead, WrittenIsStreamed};
ghost use Rattle.speedy_read.specs.RoundTrip.{WrittenItemsAreRead};

use crate::collections::FromItems;
use crate::many::FromLent;
use speedy_base::context::Context;
use speedy_layout::layout::Layout;
use std::convert::AsSlice;

/// A function that reads from a buffer answers the value that was written to it, to its beginning or as the whole of
/// it. Its only error is out of memory.
pub fn written_is_answered<T: Layout, C: Context>()
    ensures { WrittenIsAnswered C.Error.IsEof T.seen T.layout }
{}

/// A read answers the value whose canonical encoding comes next, and takes just that. Its only errors are out of memory
/// and a failed call of the device.
pub fn written_is_read<T: Layout, C: Context>()
    ensures { WrittenIsRead C.Error.IsEof T.seen T.layout.format }
{}

/// A read of items answers those whose canonical encodings come next, one after the other, and takes just these. Its
/// only errors are out of memory and a failed call of the device.
pub fn written_items_are_read<T: Layout, C: Context>()
    ensures { let seen : Vec T → List T.Seen = λ v. map T.seen v.items in
        WrittenItemsAreRead C.Error.IsEof seen T.layout.format }
{}

/// A function that reads from a source answers the value whose canonical encoding comes next. The source has lost just
/// that, and what a buffered function read ahead. Its only errors are out of memory and that of a failed call.
pub fn written_is_streamed<T: Layout, C: Context>()
    ensures { WrittenIsStreamed C.Error.IsEof T.seen T.layout }
{}

/// A function that copies from a buffer answers as those do that lend it, where the type borrows nothing.
pub fn copied_is_answered<T: Layout, C: Context>()
    ensures { CopiedIsAnswered C.Error.IsEof T.seen T.layout }
{}

/// A length that was written as a number of a width is what the read of that width answers.
pub fn written_length_is_read<C: Context>()
    ensures u7 { WrittenIsRead C.Error.IsEof (λ (n : ℕ). n) (length_number 1 127) }
    ensures digits { (width : ℕ) → WrittenIsRead C.Error.IsEof (λ (n : ℕ). n)
        (unsigned_number width) }
    ensures varint { WrittenIsRead C.Error.IsEof (λ (n : ℕ). n) varint }
{}

/// The bytes decide what `read_vec_until_eof` or `read_collection_until_eof` answers, if no call failed: at most
/// `greatest` values and then some first bytes of one are these values, more values are `OutOfRangeLength`, and a
/// fault that the type finds behind no more than these is of a kind that it names. Out of memory may come in place of
/// any answer.
pub fn until_end_is_decided<F: FromItems<T>, T: Layout, C: Context>()
    ensures { UntilEndIsDecided C.Error.IsEof T.seen F.gathers T.layout.format }
{}

/// The bytes decide what `read_cow_until_eof` answers, too.
pub fn until_end_of_cow_is_decided<
    W: FromLent<L, T>,
    L: AsSlice<u8> + Drop,
    T: Layout + Drop,
    C: Context,
>()
    ensures { let gathers : List T → W → Type 0 = λ items w. W.shown w ≡ items in
        UntilEndIsDecided C.Error.IsEof T.seen gathers T.layout.format }
{}
