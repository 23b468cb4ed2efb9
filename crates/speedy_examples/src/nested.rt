//! A value that holds values of its own type, read with a limit on its depth, on a text and on a count.
use speedy::readable::BufferReader;
use speedy::{Error, LendingReader, LittleEndian};

/// A node with its children.
#[derive(Debug, PartialEq, Drop)]
pub struct Node {
    pub name: String,
    pub children: Vec<Node>,
}

const LONGEST_NAME: u32 = 16;

const MOST_CHILDREN: u32 = 10;

/// Reads a node of at most this many levels, its own among them.
pub fn read_node(
    reader: &mut BufferReader<'_, LittleEndian>,
    levels: usize,
) -> Result<Node, Error> {
    if levels == 0 {
        return Err(Error::custom(reader.alloc(), "too many levels"));
    }
    if reader.peek_u32()? > LONGEST_NAME {
        return Err(Error::custom(reader.alloc(), "a name past the limit"));
    }
    let name: String = reader.read_value()?;
    let count = reader.read_u32()?;
    if count > MOST_CHILDREN {
        return Err(Error::custom(reader.alloc(), "too many children"));
    }
    let mut children = Vec::new(reader.alloc());
    for _i in 0..count {
        children.push(read_node(reader, levels - 1)?)?;
    }
    Ok(Node { name, children })
}
