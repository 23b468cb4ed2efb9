//! The types that are read and written, beside those of the standard library.
pub use crate::ext::{IndexMap, IndexSet, SmallVec, Uuid};
pub use crate::readable_unsized_impl::{
    ArrayView, FixedSize, SliceView, ViewItem, ViewIter, ZeroCopyable,
};
pub use speedy_layout::magic::Magic;
pub use speedy_layout::prefixed::Prefixed;
pub use speedy_layout::varint::VarInt64;
