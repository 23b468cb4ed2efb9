//! A small protocol: a header, and then messages, each after the number of its bytes.
#![tactic(auto)]

pub mod advice;
pub mod frames;
pub mod headers;
pub mod messages;
