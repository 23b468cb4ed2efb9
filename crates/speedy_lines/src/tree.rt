//! A tree of a value and children, with a bound on its depth: a recursive type of one's own.
ghost use Rattle.std.specs.Prelude.{map};
ghost use Rattle.speedy.specs.Lists.{vector};
ghost use Rattle.speedy.specs.Reading.{ReadsAs};
ghost use Rattle.speedy.specs.Writing.{WritesAs, WritesEach};
ghost use Rattle.speedy_lines.specs.Trees.{Rose, view, tree_format, tree_levels, tree_laws, trees_written};

pub mod bounds;

use speedy::private::{
    error_out_of_memory, error_out_of_range_length, push_in_steps, read_length, write_length,
};
use speedy::{Context, ItemByItem, Layout, LendingReader, ReadFrom, Writable, Writer};
use std::convert::AsSlice;

/// How many levels a tree has at most. The root is level 1.
pub const LEVELS: usize = 16;

/// A value, and the trees below it: the value, the number of children as a `u32`, the children.
///
/// A tree of more than [`LEVELS`] levels has no encoding. It is refused with `OutOfRangeLength`.
#[derive(Debug, PartialEq, Drop)]
pub struct Tree {
    pub value: u8,
    pub children: Vec<Tree>,
}

impl Layout for Tree {
    ghost Seen = { Rose };

    ghost seen = { view };

    ghost layout = { record { least = 5; format = tree_format; laws = tree_laws 16; same_written = trees_written 16 } };
}

impl<L: AsSlice<u8> + Drop, C: Context> ReadFrom<L, C> for Tree {
    type Strategy = ItemByItem<C>;

    fn read_from<R: LendingReader<L, C>>(reader: &mut R) -> Result<Tree, C::Error> {
        read_levels(reader, LEVELS)
    }

    fn minimum_bytes_needed() -> usize {
        5
    }
}

impl<C: Context> Writable<C> for Tree {
    fn write_to<W: Writer<C>>(&self, writer: &mut W) -> Result<(), C::Error> {
        write_levels(self, writer, LEVELS)
    }
}

// Reads a tree of at most `levels` levels.
#[cycle(read)]
fn read_levels<L: AsSlice<u8> + Drop, C: Context, R: LendingReader<L, C>>(
    reader: &mut R,
    levels: usize,
) -> Result<Tree, C::Error>
    ensures { ReadsAs C.Error.IsEof R.state view (tree_levels levels) result reader.old reader.new }
{
    if levels == 0 {
        return Err(error_out_of_range_length());
    }
    let value = reader.read_u8()?;
    let length = read_length(reader)?;
    let children = read_children(reader, length, levels - 1)?;
    Ok(Tree { value, children })
}

// Reads `length` trees of at most `levels` levels. Room is asked for in steps as they come, whatever their count says,
// and also where the reader knows that `length` bytes are there: each level could claim them.
#[cycle(read)]
fn read_children<L: AsSlice<u8> + Drop, C: Context, R: LendingReader<L, C>>(
    reader: &mut R,
    length: usize,
    levels: usize,
) -> Result<Vec<Tree>, C::Error>
    ensures { ReadsAs C.Error.IsEof R.state (λ children. map view children.items)
        (λ f. vector length (tree_levels levels f)) result reader.old reader.new }
{
    let mut children = Vec::new(reader.alloc());
    for i in 0..length {
        let child = read_levels(reader, levels)?;
        children = match push_in_steps(children, child, length - i) {
            Ok(more) => more,
            Err(_) => return Err(error_out_of_memory()),
        };
    }
    Ok(children)
}

// Writes a tree of at most `levels` levels.
#[cycle(write)]
fn write_levels<C: Context, W: Writer<C>>(
    tree: &Tree,
    writer: &mut W,
    levels: usize,
) -> Result<(), C::Error>
    ensures { WritesAs C.Error.from_gives W.state W.appends view (tree_levels levels) tree.now
        result writer.old writer.new }
{
    if levels == 0 {
        return Err(error_out_of_range_length());
    }
    let children = tree.children.as_slice();
    writer.write_u8(tree.value)?;
    write_length(children.len(), writer)?;
    write_children(children, writer, levels - 1)
}

// Writes trees of at most `levels` levels, one after another.
#[cycle(write)]
fn write_children<C: Context, W: Writer<C>>(
    children: &[Tree],
    writer: &mut W,
    levels: usize,
) -> Result<(), C::Error>
    ensures { WritesEach C.Error.from_gives (tree_levels levels) view children.now result
        (W.state writer.old) (W.state writer.new) (λ b. W.appends writer.old b writer.new) }
{
    for child in children {
        write_levels(child, writer, levels)?;
    }
    Ok(())
}
