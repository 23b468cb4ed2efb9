//! The example callers that the pages show, with the contracts and the proofs that a user writes.
//!
//! They stand on `speedy` alone, as a user's crate does, and beside the program, so that neither waits for the other.
#![tactic(auto)]

pub mod byte_sums;
pub mod capture;
pub mod chunks;
pub mod dns;
pub mod dns_flags;
pub mod files;
pub mod generic;
pub mod growing;
pub mod headers;
pub mod left_over;
pub mod limits;
pub mod locating;
pub mod lumps;
pub mod memory;
pub mod nested;
pub mod own_checked;
pub mod own_context;
pub mod own_header;
pub mod own_key;
pub mod own_lent;
pub mod own_maps;
pub mod own_numbers;
pub mod own_parts;
pub mod own_reader;
pub mod own_struct;
pub mod own_tree;
pub mod own_types;
pub mod own_writer;
pub mod packets;
pub mod png;
pub mod ports;
pub mod readme;
pub mod records;
pub mod sensor;
pub mod sensors;
pub mod settings;
pub mod signing;
pub mod sockets;
pub mod streams;
pub mod sums;
pub mod versions;
pub mod wad;
pub mod waiting;
pub mod whole_types;
