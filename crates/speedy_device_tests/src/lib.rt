//! The tests of sources, sinks, files and rings, and of what each kind of reader reads.
//!
//! They stand on `speedy` as a user's crate does, and beside its own tests, so that neither waits for the other.
#![tactic(auto)]

#[cfg(test)]
mod asserting;
#[cfg(test)]
mod devices;
#[cfg(test)]
mod failing;
#[cfg(test)]
mod lengths;
#[cfg(test)]
mod paths;
#[cfg(test)]
mod probes;
#[cfg(test)]
mod ring;
#[cfg(test)]
mod sinks;
#[cfg(test)]
mod streams;
#[cfg(test)]
mod until_end;
