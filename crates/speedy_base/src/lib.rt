//! What all crates of `speedy` share: byte orders, contexts, errors and devices.
#![tactic(auto)]

pub mod bytes;
pub mod circular_buffer;
pub mod context;
pub mod device;
pub mod endianness;
pub mod error;
pub mod numbers;
