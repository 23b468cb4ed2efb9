//! Values that have all of the bytes: those of each layout, and those that end where the bytes do.
pub use speedy_layout::whole::{
    EndsItself, EndsWithInput, Followed, Rest, UnlessEnd, Whole, WholePart,
};
pub use speedy_read::memory_reader::MemoryReader;
pub use speedy_read::whole::{ReadRest, ReadToEnd, ReadWhole, ReadableWhole, ReadsEnding};
pub use speedy_write::whole::{WriteRest, WriteToEnd, WriteWhole, WritesEnding};
