//! Readers, and the collections that they fill.
pub use speedy_read::collections::FromItems;
pub use speedy_read::reader::{EndOfInput, LendingReader, Reader};
