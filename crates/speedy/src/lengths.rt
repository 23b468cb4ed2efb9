//! Texts, lists, maps, sets and values of a length that the parts before them tell.
pub use crate::told_frames::WithFrame;
pub use speedy_layout::lengths::{Holds, Length, OfLength, Other, WithLength};
pub use speedy_read::lengths::{ReadHolds, ReadOfLength};
pub use speedy_write::lengths::{WriteHolds, WriteOfLength};
