// Whole ranges in trees: all rows or all columns from one to another.
ghost use Rattle.std.specs.Prelude.{◌≡◌};
ghost use Rattle.formula_tree.specs.Reference.{base_of, corner_at, IsHomeInside};
ghost use Rattle.formula_tree.specs.Relative.{relative};
ghost use Rattle.formula_tree.specs.StandsFor.{ArePlacesInside, from_home};
ghost use Rattle.formula_tree.specs.Whole.{last_across, first_ref, last_ref, ref_on, whole_between, whole_term};

use crate::node::Node;
use crate::reference::{Corner, Home, Part, Ref, SheetPart};
use cell_addr::{Axis, Whole};

impl Ref {
    /// The first cell of a whole range, by the part of its first row or column.
    pub fn first_of(axis: Axis, sheet: SheetPart, first: Part) -> Ref
        ensures { result ≡ first_ref axis sheet first }
    {
        Ref::across(axis, sheet, first, 0)
    }

    /// The last cell of a whole range, by the part of its last row or column.
    pub fn last_of(axis: Axis, sheet: SheetPart, last: Part) -> Ref
        ensures { result ≡ last_ref axis sheet last }
    {
        Ref::across(axis, sheet, last, axis.across().limit() - 1)
    }

    // The cell at a part along the axis, and at a line across it, which has a `$`.
    fn across(axis: Axis, sheet: SheetPart, part: Part, line: u32) -> Ref
        ensures { result ≡ ref_on axis sheet part line }
    {
        match axis {
            Axis::Rows => Ref {
                sheet,
                row: part,
                col: Part::Abs(line),
            },
            Axis::Cols => Ref {
                sheet,
                row: Part::Abs(line),
                col: part,
            },
        }
    }
}

impl Corner {
    /// All rows, or all columns, from this corner's to the last one's, on this one's sheet.
    pub fn whole_to(self, axis: Axis, last: Corner) -> Whole
        ensures { result ≡ whole_between axis self last }
    {
        self.block_to(last).whole(axis)
    }
}

/// The whole range that a node with these parts names in a formula at the home. A part that falls off every
/// sheet names [`crate::NO_LINE`].
pub fn whole_at(axis: Axis, sheet: SheetPart, first: Part, last: Part, home: Home) -> Whole
    ensures { result ≡ whole_between axis (corner_at (base_of home) (first_ref axis sheet first)) (corner_at (base_of home) (last_ref axis sheet last)) }
{
    let first = Ref::first_of(axis, sheet, first).at(home);
    first.whole_to(axis, Ref::last_of(axis, sheet, last).at(home))
}

impl Node {
    /// The node of a whole range as it is seen from the home, by which of its ends have a `$`. Its lines and the
    /// home lie within the limits of a sheet.
    pub fn whole(w: Whole, first_fixed: bool, last_fixed: bool, home: Home) -> Node
        requires places { ArePlacesInside (whole_term w first_fixed last_fixed) }
        requires home { IsHomeInside home }
        ensures { relative result ≡ from_home home (whole_term w first_fixed last_fixed) }
    {
        let base = home.base();
        let sheet = SheetPart::of(w.sheet, base.sheet);
        match w.axis {
            Axis::Rows => Node::WholeRows(
                sheet,
                Part::of(w.first, first_fixed, base.row),
                Part::of(w.last, last_fixed, base.row),
            ),
            Axis::Cols => Node::WholeCols(
                sheet,
                Part::of(w.first, first_fixed, base.col),
                Part::of(w.last, last_fixed, base.col),
            ),
        }
    }
}
