//! The types of other crates that are read and written.
pub use indexmap::{IndexMap, IndexSet};
pub use smallvec::SmallVec;
pub use uuid::Uuid;
