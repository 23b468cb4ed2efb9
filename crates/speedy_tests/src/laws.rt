//! Each law of layouts and of reading can be cited, at a leaf or at types within each other.
use indexmap::{IndexMap, IndexSet};
use speedy::context::LittleEndian;
use speedy::laws::{
    canonical_alone, copied_is_answered, encoded_is_written, equal_as_seen,
    no_encoding_begins_another, no_encoding_is_below_least, one_canonical_encoding, one_prefix,
    one_value, refused_is_none, strict_is_canonical, until_end_is_decided,
    until_end_of_cow_is_decided, written_is_shortest, written_is_streamed, written_length_is_read,
};
use std::borrow::CowSlice;
use std::collections::{BTreeMap, HashMap, HashSet};

#[test]
fn keys_are_equal_as_they_are_seen() {
    equal_as_seen::<u16>();
    equal_as_seen::<BTreeMap<String, Option<char>>>();
}

#[test]
fn layouts_have_their_laws_within_each_other() {
    one_value::<HashMap<String, BTreeMap<u8, IndexSet<u16>>>>();
    one_prefix::<IndexMap<String, HashSet<u16>>>();
    no_encoding_begins_another::<Vec<String>>();
    no_encoding_is_below_least::<BTreeMap<String, Vec<u16>>>();
}

#[test]
fn canonical_encodings_have_their_laws() {
    written_is_shortest::<HashMap<String, Vec<u16>>>();
    encoded_is_written::<Vec<String>>();
    one_canonical_encoding::<BTreeMap<String, Vec<u16>>>();
    canonical_alone::<Vec<String>>();
    strict_is_canonical::<HashMap<String, BTreeMap<u8, Option<bool>>>>();
}

#[test]
fn what_was_written_is_answered_in_other_ways() {
    written_is_streamed::<Vec<String>, LittleEndian>();
    copied_is_answered::<Vec<String>, LittleEndian>();
    written_length_is_read::<LittleEndian>();
}

#[test]
fn a_refusal_says_that_no_value_is_there() {
    refused_is_none::<Vec<String>, LittleEndian>();
}

#[test]
fn reads_until_the_end_are_decided() {
    until_end_is_decided::<Vec<String>, String, LittleEndian>();
    until_end_of_cow_is_decided::<CowSlice<'static, u16>, &'static [u8], u16, LittleEndian>();
}
