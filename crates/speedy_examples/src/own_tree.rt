//! Recursive types of one's own: values that hold values of their own type, to a bound of levels.
ghost use Rattle.speedy.specs.Layers.{at_level, layer_of};

use speedy::levels::{
    Both, Itself, Lent, Levels, Listed, Own, OwnParts, ReadBelow, ReadLevel, ReadOwn, Recursive,
    Shape, WriteBelow, WriteLevel, WriteOwn,
};
use speedy::private::error_out_of_range_length;
use speedy::{
    Context, ItemByItem, Layout, LendingReader, Part, ReadFrom, Writable, Writer, level_chain,
};
use std::convert::AsSlice;
use std::marker::PhantomData;

/// A value with a name, and the nodes below it.
#[derive(Debug, PartialEq, Drop)]
pub struct Node {
    pub value: u8,
    pub name: String,
    pub children: Vec<Node>,
}

/// The levels that are left for a [`Node`]: its own, if there is one below, and those of that one.
#[derive(Drop)]
pub struct NodeLevel(Option<&'static NodeLevel>);

impl Levels for NodeLevel {
    ghost use Rattle.std.specs.Prelude.{ℕ};
    ghost use Rattle.speedy.specs.Layers.{levels_above};
    ghost use Rattle.speedy_examples.specs.declared.own_tree.NodeLevel.{fold-NodeLevel};

    ghost levels = { fold-NodeLevel ℕ (λ level. levels_above level.0) };
}

/// A [`Node`] has at most so many levels.
const NODE_LEVELS: &NodeLevel = level_chain!(16, NodeLevel);

/// What a [`Node`] holds beside other nodes.
struct NodeOwn {}

impl OwnParts for NodeOwn {
    type Parts = (u8, String);
}

/// What a [`Node`] is read as.
type NodeParts = Both<Own<NodeOwn>, Listed<Itself>>;

/// What a [`Node`] holds beside other nodes, lent.
struct NodeOwnLent<'t> {
    node: PhantomData<&'t Node>,
}

impl<'t> OwnParts for NodeOwnLent<'t> {
    type Parts = (Part<'t, u8>, Part<'t, String>);
}

/// What a [`Node`] is written as.
type NodeLent<'t> = Both<Own<NodeOwnLent<'t>>, Lent<'t, Listed<Itself>>>;

impl Recursive for Node {
    ghost use Rattle.speedy_examples.specs.declared.own_tree.Node.{out-Node};

    ghost layer = { layer_of ⟦<NodeParts as Shape<Node>>⟧.layer
        (λ it. let node = out-Node it in ((node.value, node.name), node.children)) };
}

impl Layout for Node {
    ghost Seen = { (at_level ⟦<Node as Recursive>⟧.layer 16).Value };

    ghost seen = { (at_level ⟦<Node as Recursive>⟧.layer 16).view };

    ghost layout = { (at_level ⟦<Node as Recursive>⟧.layer 16).codec };
}

impl ReadOwn for NodeOwn {
    fn read_own<L: AsSlice<u8> + Drop, C: Context, R: LendingReader<L, C>>(
        reader: &mut R,
    ) -> Result<(u8, String), C::Error> {
        reader.read_value()
    }
}

impl ReadLevel<Node> for NodeLevel {
    fn read_level<L: AsSlice<u8> + Drop, C: Context, R: LendingReader<L, C>>(
        &self,
        reader: &mut R,
    ) -> Result<Node, C::Error> {
        let Some(below) = &self.0 else {
            return Err(error_out_of_range_length());
        };
        match ReadBelow::<Node, NodeParts>::read_below::<L, C, R>(below, reader) {
            Ok((own, children)) => {
                let (value, name) = own;
                Ok(Node {
                    value,
                    name,
                    children,
                })
            }
            Err(error) => Err(error),
        }
    }
}

impl<L: AsSlice<u8> + Drop, C: Context> ReadFrom<L, C> for Node {
    type Strategy = ItemByItem<C>;

    fn read_from<R: LendingReader<L, C>>(reader: &mut R) -> Result<Node, C::Error> {
        ReadLevel::<Node>::read_level::<L, C, R>(NODE_LEVELS, reader)
    }

    fn minimum_bytes_needed() -> usize {
        <((u8, String), Vec<()>) as ReadFrom<L, C>>::minimum_bytes_needed()
    }
}

impl<'t> WriteOwn for NodeOwnLent<'t> {
    fn write_own<C: Context, W: Writer<C>>(
        parts: &(Part<'t, u8>, Part<'t, String>),
        writer: &mut W,
    ) -> Result<(), C::Error> {
        writer.write_value(parts)
    }
}

impl WriteLevel<Node> for NodeLevel {
    fn write_level<C: Context, W: Writer<C>>(
        &self,
        value: &Node,
        writer: &mut W,
    ) -> Result<(), C::Error> {
        let Some(below) = &self.0 else {
            return Err(error_out_of_range_length());
        };
        let parts = ((Part(&value.value), Part(&value.name)), &value.children);
        WriteBelow::<Node, NodeLent<'_>>::write_below::<C, W>(below, &parts, writer)
    }
}

impl<C: Context> Writable<C> for Node {
    fn write_to<W: Writer<C>>(&self, writer: &mut W) -> Result<(), C::Error> {
        WriteLevel::<Node>::write_level::<C, W>(NODE_LEVELS, self, writer)
    }
}
