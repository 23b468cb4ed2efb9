//! The tests of the example callers, and a first crate with a test of its own.
//!
//! They stand beside the callers, since a crate that has tests is proved twice.
#![tactic(auto)]

#[cfg(test)]
mod callers;
pub mod first;
#[cfg(test)]
mod formats;
#[cfg(test)]
mod hello;
#[cfg(test)]
mod holding;
#[cfg(test)]
mod own_tree;
#[cfg(test)]
mod own_types;
#[cfg(test)]
mod tasks;
