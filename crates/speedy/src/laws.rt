//! The laws that a caller's proof can cite: functions with empty bodies, whose contracts are the laws.
ghost use Rattle.speedy.specs.Prefixes.{RefusedIsNone};

use speedy_base::context::Context;
pub use speedy_layout::laws::{
    canonical_alone, encoded_is_written, equal_as_seen, newer_frame_is_read,
    no_encoding_begins_another, no_encoding_is_below_least, older_frame_is_read,
    one_canonical_encoding, one_prefix, one_value, one_whole_value, strict_is_canonical,
    written_is_shortest,
};
use speedy_layout::layout::Layout;
pub use speedy_read::laws::{
    copied_is_answered, until_end_is_decided, until_end_of_cow_is_decided, written_is_answered,
    written_is_read, written_is_streamed, written_items_are_read, written_length_is_read,
};

/// An error of a function that reads from a buffer means that no prefix of the bytes encodes a value of the type. Only
/// where values of the type take memory, it may be out of memory instead.
pub fn refused_is_none<T: Layout, C: Context>()
    ensures { RefusedIsNone C.Error.IsEof T.seen T.layout }
{}
