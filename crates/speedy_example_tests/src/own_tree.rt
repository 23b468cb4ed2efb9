//! Recursive types of one's own: their bytes, and the bound on their levels.
use crate::callers::assert_refused;
use speedy::readable::BufferReader;
use speedy::{Endianness, Error, IsEof, LendingReader, LittleEndian, Writable};
use speedy_examples::own_tree::Node;
use std::alloc::Global;
use std::process::Abort;

/// A reader of the bytes.
fn make_reader(alloc: Global, bytes: &[u8]) -> BufferReader<'_, LittleEndian> {
    BufferReader::new(alloc, LittleEndian {}, bytes)
}

/// A chain of `levels` nodes, each of them the only child of the one before it.
fn make_chain(rt: &impl Abort, alloc: Global, levels: u8) -> Node {
    let mut node = Node {
        value: levels,
        name: String::new(alloc),
        children: Vec::new(alloc),
    };
    for level in (1..levels).rev() {
        let mut children = Vec::new(alloc);
        children.push(node).expect(rt, "room");
        node = Node {
            value: level,
            name: String::new(alloc),
            children,
        };
    }
    node
}

#[test]
fn a_node_is_its_parts_and_then_its_children(rt: HostRuntime) {
    let alloc = rt.alloc();
    let bytes = b"\x05\x01\0\0\0a\x02\0\0\0\x06\0\0\0\0\0\0\0\0\x07\0\0\0\0\0\0\0\0";
    let node: Node = make_reader(alloc, bytes).read_value().expect(&rt, "a node");
    assert!(rt; node.value == 5 && node.name.as_str() == "a" && node.children.len() == 2);
    assert!(rt; node.children[0].value == 6 && node.children[1].value == 7);
    let again = Writable::<LittleEndian>::write_to_vec(&node, alloc).expect(&rt, "bytes");
    assert!(rt; again.as_slice() == bytes.as_slice());
}

#[test]
fn sixteen_levels_of_nodes_are_written_and_no_more(rt: HostRuntime) {
    let alloc = rt.alloc();
    let node = make_chain(&rt, alloc, 16);
    let bytes = Writable::<LittleEndian>::write_to_vec(&node, alloc).expect(&rt, "bytes");
    assert!(rt; bytes.len() == 144);
    let again: Node = make_reader(alloc, &bytes)
        .read_value()
        .expect(&rt, "a node");
    assert!(rt; again == node);
    let deep = make_chain(&rt, alloc, 17);
    let outcome = deep.write_to_vec_with_ctx(alloc, Endianness::LittleEndian);
    assert_refused(&rt, alloc, outcome, "OutOfRangeLength");
    let outcome = deep.bytes_needed(&mut Endianness::LittleEndian);
    assert_refused(&rt, alloc, outcome, "OutOfRangeLength");
}

#[test]
fn a_seventeenth_level_is_not_read(rt: HostRuntime) {
    let alloc = rt.alloc();
    let mut bytes = Vec::new(alloc);
    for _i in 0..16 {
        let begun = b"\0\0\0\0\0\x01\0\0\0";
        bytes
            .extend_from_slice(begun.as_slice())
            .expect(&rt, "room");
    }
    let outcome: Result<Node, Error> = make_reader(alloc, &bytes).read_value();
    assert_refused(&rt, alloc, outcome, "OutOfRangeLength");
}

#[test]
fn a_count_that_lies_is_an_end_of_input(rt: HostRuntime) {
    let bytes = b"\0\0\0\0\0\xff\xff\xff\xff\0\0\0\0\0\0\0\0\0";
    let outcome: Result<Node, Error> = make_reader(rt.alloc(), bytes).read_value();
    assert!(rt; outcome.err().expect(&rt, "it is refused").is_eof());
}
