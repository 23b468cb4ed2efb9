//! The types that borrow what they are read from, beside slices and texts.
pub use speedy_layout::view_items::{FixedSize, ViewItem, ZeroCopyable};
pub use speedy_layout::views::{ArrayView, SliceView, ViewIter};
