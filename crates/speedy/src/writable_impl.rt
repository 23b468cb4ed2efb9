//! What values are written into, and the part of a struct that is only written.
pub use speedy_write::part::Part;
pub use speedy_write::writable::{BufferCollector, SizeCalculatorCollector, WritingCollector};
