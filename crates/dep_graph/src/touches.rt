// Nodes under their numbers, so that operations find those that they touch.
ghost use Rattle.std.specs.Prelude.{◌≡◌, ◌<◌, ℕ, true, Some, OnOk};
ghost use Rattle.cell_addr.specs.declared.place.Block.{Block};
ghost use Rattle.needs_order.specs.Needs.{has};
ghost use Rattle.place_lines.specs.Moved.{AreMoved};
ghost use Rattle.shift_core.specs.Form.{form_of};
ghost use Rattle.shift_core.specs.Sound.{IsSound};
ghost use Rattle.dep_graph.specs.declared.node.Node.TheVariants as node;
ghost use Rattle.dep_graph.specs.internal.Touches.{AreHandedOn, IsHandedAt};

use crate::key::Key;
use crate::node::Node;
use crate::table::NodeTable;
use cell_addr::{Block, Place};
use indexmap::IndexSet;
use near_hash::NearHash;
use place_lines::PlaceLines;
use shift_core::Shift;
use std::alloc::{AllocError, Global};
use touch_index::{TouchIndex, hands_on};

// Nodes under their numbers. What is kept is never taken out. A node is kept when an operation comes, and not when it gets its
// number: so linking costs nothing of it, and a workbook whose lines nobody edits takes no memory for it.
pub(crate) struct Touches {
    // The numbers below this one are kept. The others came since the last operation, and any may touch them.
    pub(crate) kept: usize,
    // The cells and the ranges within the limits of their sheets.
    pub(crate) index: TouchIndex,
    // The numbers of the others, each of which any operation may touch, and of all whole ranges: those of a sheet are touched
    // by each operation on lines across, wherever these are.
    pub(crate) odd: IndexSet<usize, NearHash>,
}

// Written out, so that whoever drops one calls one function.
impl Drop for Touches {
    fn drop(self) {
        let Touches {
            kept: _,
            index: _index,
            odd: _odd,
        } = self;
    }
}

impl Touches {
    ghost use Rattle.dep_graph.specs.internal.Touches.{AreIndexed, AreKept, IsIndexed, IsKept, IsMore};
    ghost use Rattle.dep_graph.specs.internal.Keys.{node_of};
    ghost use Rattle.dep_graph.specs.internal.Numbers.{count_of, key_at};

    // Nothing is kept.
    pub(crate) fn new(alloc: Global) -> Touches
        ensures { result.kept ≡ 0 }
    {
        Touches {
            kept: 0,
            index: TouchIndex::new(alloc),
            odd: IndexSet::with_hasher(alloc, NearHash::new()),
        }
    }

    // Keeps a key under its number.
    pub(crate) fn keep_key(
        &mut self,
        lines: &PlaceLines,
        key: Key,
        number: usize,
    ) -> Result<(), AllocError>
        ensures more { IsMore self.old self.new }
        ensures kept { OnOk result (IsIndexed lines.now self.new number key) }
    {
        match key.node(lines) {
            Some(node) => self.keep(lines, node, number),
            None => self.add_odd(number),
        }
    }

    // Keeps the nodes of these numbers, which are kept as they stood before the operation, as they stand by the lines after it.
    pub(crate) fn keep_all(
        &mut self,
        lines: &PlaceLines,
        s: &Shift,
        nodes: &NodeTable,
        numbers: &[usize],
    ) -> Result<(), AllocError>
        requires sound { IsSound s.now }
        requires moved { AreMoved (form_of s.now) nodes.now.lines lines.now }
        requires inside { (n : ℕ) → has n numbers.now ≡ true → n < count_of nodes.now }
        requires indexed { AreIndexed nodes.now self.old }
        ensures more { IsMore self.old self.new }
        ensures kept { OnOk result (AreKept lines.now nodes.now.keys.keys self.new numbers.now) }
    {
        'numbers: for number in numbers {
            self.keep_found(lines, s, nodes, *number)?;
        }
        Ok(())
    }

    // Keeps the node of a number, if it stands somewhere: a range that is handed on with only the lines that come in. One that
    // isn't kept yet waits for the next operation.
    fn keep_found(
        &mut self,
        lines: &PlaceLines,
        s: &Shift,
        nodes: &NodeTable,
        number: usize,
    ) -> Result<(), AllocError>
        requires sound { IsSound s.now }
        requires moved { AreMoved (form_of s.now) nodes.now.lines lines.now }
        requires number { number < count_of nodes.now }
        requires indexed { AreIndexed nodes.now self.old }
        ensures more { IsMore self.old self.new }
        ensures kept { OnOk result ((a : Node) → number < self.new.kept → node_of lines.now (key_at nodes.now number) ≡ Some a → IsKept lines.now self.new number a) }
    {
        if self.kept <= number {
            return Ok(());
        }
        match nodes.key(number).node(lines) {
            Some(after) => match handed_on(s, nodes.node(number), after) {
                Some(block) => self.index.hand_on(lines, s, block, number),
                None => self.keep(lines, after, number),
            },
            None => Ok(()),
        }
    }

    // Keeps a node under its number.
    fn keep(&mut self, lines: &PlaceLines, node: Node, number: usize) -> Result<(), AllocError>
        ensures more { IsMore self.old self.new }
        ensures kept { OnOk result (IsKept lines.now self.new number node) }
    {
        match node {
            Node::Cell(at) => self.keep_cell(lines, at, number),
            Node::Name { .. } => Ok(()),
            Node::Range(block) => self.keep_range(lines, block, number),
            Node::Whole(_) => self.add_odd(number),
        }
    }

    // Keeps a cell under its number.
    fn keep_cell(&mut self, lines: &PlaceLines, at: Place, number: usize) -> Result<(), AllocError>
        ensures more { IsMore self.old self.new }
        ensures kept { OnOk result (IsKept lines.now self.new number (node.Cell at)) }
    {
        if at.inside() {
            self.index.add_cell(lines, at, number)
        } else {
            self.add_odd(number)
        }
    }

    // Keeps a range under its number.
    fn keep_range(
        &mut self,
        lines: &PlaceLines,
        block: Block,
        number: usize,
    ) -> Result<(), AllocError>
        ensures more { IsMore self.old self.new }
        ensures kept { OnOk result (IsKept lines.now self.new number (node.Range block)) }
    {
        if block.inside() {
            self.index.add_block(lines, block, number)
        } else {
            self.add_odd(number)
        }
    }

    // Adds a number to the odd ones.
    fn add_odd(&mut self, number: usize) -> Result<(), AllocError>
        ensures more { IsMore self.old self.new }
        ensures odd { OnOk result (has number self.new.odd.keys ≡ true) }
    {
        self.odd.insert(number)?;
        Ok(())
    }
}

// The block that a range becomes, where the operation leaves its lines if it leaves those of its corners.
pub(crate) fn handed_on(s: &Shift, before: Option<Node>, after: Node) -> Option<Block>
    ensures { (b : Block) → result ≡ Some b → (after ≡ node.Range b) × IsHandedAt (form_of s.now) before b }
{
    match (before, after) {
        (Some(Node::Range(before)), Node::Range(after)) => handed_block(s, before, after),
        _ => None,
    }
}

// The second block, where the operation leaves the lines of the first to it if it leaves those of its corners.
fn handed_block(s: &Shift, before: Block, after: Block) -> Option<Block>
    ensures { (b : Block) → result ≡ Some b → (after ≡ b) × AreHandedOn (form_of s.now) before b }
{
    if hands_on(s, before, after) {
        Some(after)
    } else {
        None
    }
}
