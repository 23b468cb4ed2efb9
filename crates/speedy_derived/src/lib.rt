//! Types of each kind that `tools/derive` takes, each module made from the Rust file of its name in the crate's folder.
//! `tools/check-derived` runs rows of them, by the program in `rows`.
#![tactic(auto)]

pub mod c_texts;
pub mod constants;
pub mod endings;
pub mod floats;
pub mod generic;
pub mod generic_enums;
pub mod header_lengths;
pub mod headers;
pub mod keys;
pub mod lengths;
pub mod lent;
pub mod many;
pub mod map_lengths;
pub mod names;
pub mod one_order;
pub mod padding;
pub mod recursive;
pub mod skips;
pub mod struct_lengths;
pub mod structs;
pub mod sums;
pub mod tags;
pub mod told_frames;
pub mod told_lengths;
pub mod until;
