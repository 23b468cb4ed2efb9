//! The tests of what `speedy` passes on, but for devices: bytes of each family of types, readers, writers and laws.
//!
//! They stand on `speedy` as a user's crate does, in a crate of their own, so that nothing of it is proved twice.
#![tactic(auto)]

#[cfg(test)]
mod asserting;
#[cfg(test)]
mod c_text;
#[cfg(test)]
mod collections;
#[cfg(test)]
mod cows;
#[cfg(test)]
mod encoded;
#[cfg(test)]
mod encoded_lengths;
#[cfg(test)]
mod endianness;
#[cfg(test)]
mod errors;
#[cfg(test)]
mod exports;
#[cfg(test)]
mod floats;
#[cfg(test)]
mod frames;
#[cfg(test)]
mod in_place_bytes;
#[cfg(test)]
mod laws;
#[cfg(test)]
mod lengths;
#[cfg(test)]
mod lent;
#[cfg(test)]
mod lists;
#[cfg(test)]
mod map_lengths;
#[cfg(test)]
mod maps;
#[cfg(test)]
mod numbers;
#[cfg(test)]
mod one_order;
#[cfg(test)]
mod owned;
#[cfg(test)]
mod padding;
#[cfg(test)]
mod prefixed;
#[cfg(test)]
mod prefixed_maps;
#[cfg(test)]
mod ranges;
#[cfg(test)]
mod readers;
#[cfg(test)]
mod round_trips;
#[cfg(test)]
mod three_bytes;
#[cfg(test)]
mod told_frames;
#[cfg(test)]
mod told_padding;
#[cfg(test)]
mod tuples;
#[cfg(test)]
mod until;
#[cfg(test)]
mod varint;
#[cfg(test)]
mod views;
#[cfg(test)]
mod whole;
#[cfg(test)]
mod writers;
