//! Writing: writers, and the types that are written.
//!
//! Which modules use which: a writer writes any type, and a type writes to any writer, so `writer` and `writable` use
//! each other, and the bodies of a writer's methods use both (`each`, `fixed`, `filling`). The functions of `writable`
//! make the writers (`collectors`, `buffering`, `counting`). `prefixed`, `collections`, `lengths` and `part` use these,
//! and each family of types uses some of the above; only cows use two other families, `lists` and `texts`.
#![tactic(auto)]

pub mod addresses;
mod buffering;
pub mod c_text;
pub mod cases;
mod collections;
pub mod collectors;
mod counting;
pub mod cows;
mod each;
mod filling;
mod fixed;
pub mod flags;
pub mod floats;
pub mod frames;
pub mod leaves;
pub mod lengths;
pub mod lists;
pub mod magic;
pub mod maps;
pub mod non_zero;
pub mod numbers;
pub mod one_order;
pub mod owned;
pub mod padding;
pub mod part;
pub mod prefixed;
pub mod ranges;
pub mod sets;
pub mod texts;
pub mod tuples;
mod until;
pub mod varint;
pub mod views;
pub mod whole;
pub mod writable;
pub mod writer;

pub use part::Part;
pub use writable::Writable;
pub use writer::Writer;
