//! What each type that is read or written has: its layout, and, where it may be a key, equality as it is seen.
pub use speedy_layout::layout::Layout;
pub use speedy_layout::same_key::SameKey;
