// What needs and is needed.
ghost use Rattle.std.specs.Prelude.{◌≡◌};
ghost use Rattle.std.specs.Cmp.{partial_equiv_from_equiv};
ghost use Rattle.dep_graph.specs.Nodes.{same_node};
ghost use Rattle.dep_graph.specs.declared.node.Node.TheVariants as node;
ghost use Rattle.dep_graph.specs.internal.Hashed.{fed_node, nodes_are_alike, same_node_fed};
ghost use Rattle.dep_graph.specs.internal.Wholes.{tag_of};

use cell_addr::{Axis, Block, Place, Whole};
use std::hash::{Hash, Hasher};

/// A node of the graph of needs.
#[derive(Clone, Copy, Debug)]
pub enum Node {
    /// The cell at a place.
    Cell(Place),
    /// A named expression: the number of its scope, and the number of its word.
    Name { scope: u32, word: u64 },
    /// A range of cells that formulas read. It needs each of its cells where some node is linked to it.
    Range(Block),
    /// All rows or all columns from one to another that formulas read, with each of their cells, as a range.
    Whole(Whole),
}

impl Node {
    // Whether it is the cell at the place.
    fn is_cell(self, at: Place) -> bool
        ensures { result ≡ same_node self (node.Cell at) }
    {
        match self {
            Node::Cell(own) => own == at,
            Node::Name { .. } => false,
            Node::Range(_) => false,
            Node::Whole(_) => false,
        }
    }

    // Whether it is the name of the scope and the word.
    fn is_name(self, in_scope: u32, of_word: u64) -> bool
        ensures { result ≡ same_node self (node.Name in_scope of_word) }
    {
        match self {
            Node::Cell(_) => false,
            Node::Name { scope, word } => scope == in_scope && word == of_word,
            Node::Range(_) => false,
            Node::Whole(_) => false,
        }
    }

    // Whether it is the range of the block.
    fn is_range(self, block: Block) -> bool
        ensures { result ≡ same_node self (node.Range block) }
    {
        match self {
            Node::Cell(_) => false,
            Node::Name { .. } => false,
            Node::Range(own) => own == block,
            Node::Whole(_) => false,
        }
    }

    // Whether it is the whole range.
    fn is_whole(self, whole: Whole) -> bool
        ensures { result ≡ same_node self (node.Whole whole) }
    {
        match self {
            Node::Cell(_) => false,
            Node::Name { .. } => false,
            Node::Range(_) => false,
            Node::Whole(own) => own == whole,
        }
    }
}

impl PartialEq for Node {
    ghost eq = { same_node };

    ghost laws = { partial_equiv_from_equiv nodes_are_alike };

    fn eq(&self, other: &Node) -> bool {
        match *other {
            Node::Cell(at) => self.is_cell(at),
            Node::Name { scope, word } => self.is_name(scope, word),
            Node::Range(block) => self.is_range(block),
            Node::Whole(whole) => self.is_whole(whole),
        }
    }
}

impl Eq for Node {
    ghost laws = { nodes_are_alike };
}

impl Hash for Node {
    ghost hash_input = { fed_node };

    ghost respects_eq = { same_node_fed };

    fn hash<H: Hasher>(&self, state: &mut H) {
        match *self {
            Node::Cell(at) => {
                state.write_u8(0);
                state.write_u32(at.sheet);
                state.write_u32(at.row);
                state.write_u32(at.col);
            }
            Node::Name { scope, word } => {
                state.write_u8(1);
                state.write_u32(scope);
                state.write_u64(word);
            }
            Node::Range(block) => {
                state.write_u8(2);
                state.write_u32(block.sheet);
                state.write_u32(block.top);
                state.write_u32(block.left);
                state.write_u32(block.bottom);
                state.write_u32(block.right);
            }
            Node::Whole(whole) => {
                state.write_u8(tag(whole.axis));
                state.write_u32(whole.sheet);
                state.write_u32(whole.first);
                state.write_u32(whole.last);
            }
        }
    }
}

// What the input of a hasher begins with for a whole range.
pub(crate) fn tag(axis: Axis) -> u8
    ensures { result ≡ tag_of axis }
{
    match axis {
        Axis::Rows => 3,
        Axis::Cols => 4,
    }
}
