// What a formula needs, asked of its shared tree.
ghost use Rattle.std.specs.Prelude.{◌≡◌, ◌&&◌, not};
ghost use Rattle.formula_tree.specs.Reference.{base_of, corner_at};
ghost use Rattle.formula_tree.specs.Relative.{relative, relative_list};
ghost use Rattle.formula_tree.specs.StandsFor.{at_home};
ghost use Rattle.formula_tree.specs.Term.{each_corner_all, is_reference};
ghost use Rattle.calc_terms.specs.Needs as needs;

use crate::reference::full_block;
use cell_addr::{Axis, Place};
use formula_tree::{Home, Node, Tree, TreeList, is_place_word};

/// Whether the formula mentions the place itself, by a reference to it or a block or whole range that covers it, in
/// whatever branch. A reference, block or whole range that is itself the argument of ROW, COLUMN, ROWS or COLUMNS
/// doesn't count. Takes no memory, and costs about the nodes of the tree.
pub fn mentions(tree: &Tree, home: Home, at: Place) -> bool
    ensures { result ≡ needs.mentions (at_home home (relative tree.now.value)) at }
{
    node_mentions(tree, home, at)
}

// Whether the tree mentions the place.
#[cycle(mentions)]
fn node_mentions(node: &Node, home: Home, at: Place) -> bool
    ensures { result ≡ needs.mentions (at_home home (relative node.now)) at }
{
    match node {
        Node::Cell(corner) => corner.at(home).at == at,
        Node::Area(first, last) => first.at(home).block_to(last.at(home)).holds(at),
        Node::WholeRows(sheet, first, last) => {
            full_block(Axis::Rows, *sheet, *first, *last, home).holds(at)
        }
        Node::WholeCols(sheet, first, last) => {
            full_block(Axis::Cols, *sheet, *first, *last, home).holds(at)
        }
        Node::Prefix(_, part) => node_mentions(part, home, at),
        Node::Percent(part) => node_mentions(part, home, at),
        Node::Paren(part) => node_mentions(part, home, at),
        Node::Binary(_, left, right) => {
            node_mentions(left, home, at) || node_mentions(right, home, at)
        }
        Node::Call(word, list) => some_mention(list, home, is_place_word(word.as_str()), at),
        Node::Number(_) | Node::Text(_) | Node::Truth(_) | Node::Fault(_) | Node::Name(_) => false,
    }
}

// Whether one of the arguments does; where asked, those that are themselves references are skipped.
#[cycle(mentions)]
fn some_mention(list: &TreeList, home: Home, skip: bool, at: Place) -> bool
    ensures { result ≡ needs.mentions_any skip (each_corner_all (corner_at (base_of home)) (relative_list list.now)) at }
{
    'arguments: for argument in list.items() {
        if !is_skipped(argument, skip) && node_mentions(argument, home, at) {
            return true;
        }
    }
    false
}

// Whether references are skipped, and the tree is one.
fn is_skipped(node: &Node, skip: bool) -> bool
    ensures { result ≡ (skip && is_reference (relative node.now)) }
{
    skip && node.is_reference()
}
