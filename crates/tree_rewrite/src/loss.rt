// Trees that don't come back from an operation.
ghost use Rattle.std.specs.Prelude.{◌≡◌, ◌↔◌, false, IsTrue};
ghost use Rattle.formula_tree.specs.Relative.{relative, relative_list};
ghost use Rattle.formula_tree.specs.Reference.{base_of, block_of, corner_at};
ghost use Rattle.formula_tree.specs.StandsFor.{at_home};
ghost use Rattle.formula_tree.specs.Term.{cell, each_corner_all, shaped, whole};
ghost use Rattle.formula_tree.specs.Whole.{first_ref, last_ref};
ghost use Rattle.shift_core.specs.Carried.{first_place, last_place};
ghost use Rattle.shift_core.specs.Sound.{IsSound};
ghost use Rattle.tree_rewrite.specs.Rewritten.{ComesBack, Loses};
ghost use Rattle.tree_rewrite.specs.internal.Passage.{AllComeBack};

use crate::areas::{back_area, moved_area};
use crate::corners;
use cell_addr::{Axis, Block};
use formula_tree::{Corner, Home, Node, Part, Ref, SheetPart, Tree, TreeList};
use shift_core::{Shift, back_place, moved_place};

/// Whether the operation loses something of the formula's tree, so that [`crate::backward`] of
/// [`crate::forward`] doesn't give it again: a reference is lost, or a block or whole range is lost or comes
/// back with other ends. The operation is sound. Takes no memory, and costs about the nodes of the tree.
pub fn loses(tree: &Tree, home: Home, s: &Shift) -> bool
    requires { IsSound s.now }
    ensures loses { IsTrue result ↔ Loses s.now (at_home home (relative tree.now.value)) }
    ensures comes_back { (result ≡ false) ↔ ComesBack s.now (at_home home (relative tree.now.value)) }
{
    !comes_back(tree, home, s)
}

// Whether the operation and its way back leave the tree as it is.
#[cycle(comes_back)]
fn comes_back(tree: &Node, home: Home, s: &Shift) -> bool
    requires { IsSound s.now }
    ensures { IsTrue result ↔ ComesBack s.now (at_home home (relative tree.now)) }
{
    match tree {
        Node::Number(_) | Node::Text(_) | Node::Truth(_) | Node::Fault(_) | Node::Name(_) => true,
        Node::Cell(reference) => reference_comes_back(reference.at(home), s),
        Node::Area(first, last) => area_comes_back(None, first.at(home), last.at(home), s),
        Node::WholeRows(sheet, first, last) => {
            whole_comes_back(Axis::Rows, *sheet, (*first, *last), home, s)
        }
        Node::WholeCols(sheet, first, last) => {
            whole_comes_back(Axis::Cols, *sheet, (*first, *last), home, s)
        }
        Node::Prefix(_, part) => comes_back(part, home, s),
        Node::Percent(part) => comes_back(part, home, s),
        Node::Paren(part) => comes_back(part, home, s),
        Node::Binary(_, left, right) => comes_back(left, home, s) && comes_back(right, home, s),
        Node::Call(_, list) => all_come_back(list, home, s),
    }
}

// Whether the operation and its way back leave each of the arguments as it is.
#[cycle(comes_back)]
fn all_come_back(list: &TreeList, home: Home, s: &Shift) -> bool
    requires { IsSound s.now }
    ensures { IsTrue result ↔ AllComeBack s.now (each_corner_all (corner_at (base_of home)) (relative_list list.now)) }
{
    'arguments: for argument in list.items() {
        if !comes_back(argument, home, s) {
            return false;
        }
    }
    true
}

// Whether a reference isn't lost.
fn reference_comes_back(corner: Corner, s: &Shift) -> bool
    requires { IsSound s.now }
    ensures { IsTrue result ↔ ComesBack s.now (cell corner) }
{
    match moved_place(s, corner.at) {
        Some(at) => back_place(s, at) == Some(corner.at),
        None => false,
    }
}

// Whether a whole range has its ends again, by the parts of its first and of its last line.
fn whole_comes_back(
    axis: Axis,
    sheet: SheetPart,
    parts: (Part, Part),
    home: Home,
    s: &Shift,
) -> bool
    requires { IsSound s.now }
    ensures { IsTrue result ↔ ComesBack s.now (whole axis (corner_at (base_of home) (first_ref axis sheet parts.0)) (corner_at (base_of home) (last_ref axis sheet parts.1))) }
{
    let first = Ref::first_of(axis, sheet, parts.0).at(home);
    let last = Ref::last_of(axis, sheet, parts.1).at(home);
    area_comes_back(Some(axis), first, last, s)
}

// Whether a block, or a whole range along an axis, has its ends again.
fn area_comes_back(lines: Option<Axis>, first: Corner, last: Corner, s: &Shift) -> bool
    requires sound { IsSound s.now }
    ensures { IsTrue result ↔ ComesBack s.now (shaped lines first last) }
{
    let Some(after) = moved_area(s, lines, first.block_to(last)) else {
        return false;
    };
    match back_area(s, lines, after) {
        Some(back) => has_ends(back, first, last),
        None => false,
    }
}

// Whether the block has its ends at the two corners.
fn has_ends(b: Block, first: Corner, last: Corner) -> bool
    ensures { IsTrue result ↔ ((first_place b ≡ first.at) × (last_place b ≡ last.at)) }
{
    corners::first_place(b) == first.at && corners::last_place(b) == last.at
}
