// Trees that don't depend on where they are named.
ghost use Rattle.std.specs.Prelude.{◌≡◌, ◌&&◌};
ghost use Rattle.formula_tree.specs.Reference.{base_of, corner_at};
ghost use Rattle.formula_tree.specs.Relative.{relative, relative_list};
ghost use Rattle.formula_tree.specs.StandsFor.{at_home};
ghost use Rattle.formula_tree.specs.Term.{each_corner_all};
ghost use Rattle.formula_tree.specs.Whole.{first_ref, last_ref};
ghost use Rattle.book_model.specs.Names.{all_are_absolute, are_absolute, is_absolute};

use cell_addr::{Axis, NO_SHEET};
use formula_tree::{Corner, Home, Node, Part, Ref, SheetPart, TreeList};

// Whether each corner of a formula at the home has both `$`, and is on a sheet: of a whole range, both ends.
#[cycle(are_absolute)]
pub(crate) fn are_absolute(tree: &Node, home: Home) -> bool
    ensures { result ≡ are_absolute (at_home home (relative tree.now)) }
{
    match tree {
        Node::Number(_) | Node::Text(_) | Node::Truth(_) | Node::Fault(_) | Node::Name(_) => true,
        Node::Cell(reference) => is_absolute(reference.at(home)),
        Node::Area(first, last) => is_absolute(first.at(home)) && is_absolute(last.at(home)),
        Node::WholeRows(sheet, first, last) => {
            is_whole_absolute(Axis::Rows, *sheet, *first, *last, home)
        }
        Node::WholeCols(sheet, first, last) => {
            is_whole_absolute(Axis::Cols, *sheet, *first, *last, home)
        }
        Node::Prefix(_, part) => are_absolute(part, home),
        Node::Percent(part) => are_absolute(part, home),
        Node::Paren(part) => are_absolute(part, home),
        Node::Binary(_, left, right) => are_absolute(left, home) && are_absolute(right, home),
        Node::Call(_, list) => all_are_absolute(list, home),
    }
}

// Whether those of each argument have.
#[cycle(are_absolute)]
fn all_are_absolute(list: &TreeList, home: Home) -> bool
    ensures { result ≡ all_are_absolute (each_corner_all (corner_at (base_of home)) (relative_list list.now)) }
{
    'arguments: for argument in list.items() {
        if !are_absolute(argument, home) {
            return false;
        }
    }
    true
}

// Whether both ends of the whole range have a `$`, and are on a sheet. Its first and its last cell have one across it anyway.
fn is_whole_absolute(axis: Axis, sheet: SheetPart, first: Part, last: Part, home: Home) -> bool
    ensures { result ≡ (is_absolute (corner_at (base_of home) (first_ref axis sheet first)) && is_absolute (corner_at (base_of home) (last_ref axis sheet last))) }
{
    is_absolute(Ref::first_of(axis, sheet, first).at(home))
        && is_absolute(Ref::last_of(axis, sheet, last).at(home))
}

// Whether the corner has both `$`, and is on a sheet.
fn is_absolute(corner: Corner) -> bool
    ensures { result ≡ is_absolute corner }
{
    corner.row_fixed && corner.col_fixed && corner.at.sheet != NO_SHEET
}
