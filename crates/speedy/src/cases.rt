//! The cases of an enum, each behind a tag of its own.
pub use speedy_layout::cases::{Case, CaseTree, Cases, Either, UnitCase};
pub use speedy_read::cases::{ReadCases, read_tagged};
pub use speedy_write::cases::{WriteCases, write_tagged};
