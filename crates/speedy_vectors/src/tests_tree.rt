//! How deep trees may be that are written. What is read of trees are lines of `stdin`.
use crate::tests_own_types::assert_out_of_range;
use speedy::device::VecSink;
use speedy::readable::StreamReader;
use speedy::{Endianness, Error, IsEof, LendingReader, Writable};
use speedy_lines::tree::Tree;
use std::alloc::Global;
use std::process::Abort;

const ORDER: Endianness = Endianness::LittleEndian;

/// A chain of `levels` levels, each of them the only child of the one before it.
fn make_chain(rt: &impl Abort, alloc: Global, levels: u8) -> Tree {
    let mut tree = Tree {
        value: levels,
        children: Vec::new(alloc),
    };
    for level in (1..levels).rev() {
        let mut children = Vec::new(alloc);
        children.push(tree).expect(rt, "room");
        tree = Tree {
            value: level,
            children,
        };
    }
    tree
}

#[test]
fn sixteen_levels_are_written_and_no_more(rt: HostRuntime) {
    let alloc = rt.alloc();
    let written = make_chain(&rt, alloc, 16).write_to_vec_with_ctx(alloc, ORDER);
    assert!(rt; written.expect(&rt, "bytes").len() == 80);
    let tree = make_chain(&rt, alloc, 17);
    let outcome = tree.bytes_needed(&mut ORDER);
    assert_out_of_range(&rt, outcome);
    let outcome = tree.write_to_vec_with_ctx(alloc, ORDER);
    assert_out_of_range(&rt, outcome);
    let outcome = tree.write_to_buffer_with_ctx(ORDER, &mut [9; 90]);
    assert_out_of_range(&rt, outcome);
    let mut sink = VecSink::new(alloc);
    let outcome = tree.write_to_stream_with_ctx(alloc, ORDER, &mut sink);
    assert_out_of_range(&rt, outcome);
}

#[test]
fn a_count_that_lies_is_an_end_of_input(rt: HostRuntime) {
    let alloc = rt.alloc();
    let mut source: &[u8] = &[1, 255, 255, 255, 255, 2, 0, 0, 0, 0];
    let reader = StreamReader::new(alloc, ORDER, &mut source, false);
    let outcome: Result<Tree, Error> = reader.expect(&rt, "a reader").read_value();
    assert!(rt; outcome.err().expect(&rt, "it is refused").is_eof());
    assert!(rt; source.is_empty());
}
