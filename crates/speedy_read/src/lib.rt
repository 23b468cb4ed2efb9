//! Reading: readers, and the types that are read.
//!
//! Which modules use which: a reader reads any type, and a type reads from any reader, so `reader` and `readable` use
//! each other. The modules with the bodies of a reader's methods use `reader` (`digits`, `lent`, `room`) or both
//! (`many`, `collections`, `until_end`). The functions of `readable` make the four readers; those over memory also use
//! `memory_reader`, and `whole` and `frames` stand on it. `bulk`, `arrays`, `prefixed`, `lengths` and `codes` use the
//! above, and each family of types uses some of these and no other family. `utf8` uses none.
#![tactic(auto)]

pub mod addresses;
mod arrays;
pub mod buffer;
pub mod buffer_reader;
mod bulk;
pub mod bytes_reader;
pub mod c_text;
pub mod cases;
pub mod codes;
pub mod collections;
pub mod cows;
mod digits;
pub mod flags;
pub mod floats;
pub mod frames;
pub mod laws;
pub mod leaves;
pub mod lengths;
pub mod lent;
pub mod lists;
pub mod magic;
pub mod many;
pub mod maps;
pub mod memory_reader;
pub mod non_zero;
pub mod numbers;
pub mod one_order;
pub mod owned;
pub mod owned_reader;
pub mod padding;
pub mod prefixed;
pub mod ranges;
pub mod readable;
pub mod reader;
pub mod room;
pub mod sets;
pub mod stream_reader;
pub mod texts;
pub mod tuples;
mod until;
mod until_end;
pub mod utf8;
pub mod varint;
pub mod views;
pub mod whole;
