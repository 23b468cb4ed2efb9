//! Lines, and their answers: the bytes of each line are decoded, and the value is encoded again or the error named.
//!
//! A line is an order, a type's name and hexadecimal digits, with one space between two of them,
//! as `le u16 0200`; `-` stands for no bytes. The orders are `le` and `be`, the little and the big
//! byte order, and `sle` and `sbe`, the same with only canonical encodings read. Its
//! answer is `ok`, the number of bytes that encode a value, and that value written again; or
//! `refused` and the kind; or `bad line`.
#![tactic(auto)]

pub mod answer;
mod by_name;
pub mod enums;
pub mod frame;
pub mod line;
pub mod names;
pub mod plain16;
pub mod program;
pub mod record;
mod split;
pub mod tree;

pub use answer::answer_line;
pub use program::run;
