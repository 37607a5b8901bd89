// Addresses as formulas write them.
ghost use Rattle.std.specs.Prelude.{◌≡◌};
ghost use Rattle.formula_tree.specs.Grammar.{first_of, last_of, placed};

use crate::reference::Corner;
use cell_addr::{Axis, Place};

/// An address as written in a formula, without a sheet: its row and its column, counted from 0, and
/// which of them have a `$` in front. It lies within the limits of a sheet.
#[derive(Clone, Copy, PartialEq, Eq, Debug)]
pub struct Address {
    pub row: u32,
    pub col: u32,
    pub row_fixed: bool,
    pub col_fixed: bool,
}

/// One end of a whole range as written in a formula: its row or its column, counted from 0, and whether it has a
/// `$` in front. It lies within the limits of a sheet.
#[derive(Clone, Copy, PartialEq, Eq, Debug)]
pub struct End {
    pub axis: Axis,
    pub line: u32,
    pub fixed: bool,
}

impl Address {
    /// The corner at the address on a sheet.
    pub fn on(self, sheet: u32) -> Corner
        ensures { result ≡ placed sheet self }
    {
        Corner {
            at: Place {
                sheet,
                row: self.row,
                col: self.col,
            },
            row_fixed: self.row_fixed,
            col_fixed: self.col_fixed,
        }
    }

    /// The corners of a block between two addresses: the lower row and the lower column, and the other row
    /// and the other column, each with its `$`.
    pub fn in_order(a: Address, b: Address) -> (Address, Address)
        ensures first { result.0 ≡ first_of a b }
        ensures last { result.1 ≡ last_of a b }
    {
        match (b.row < a.row, b.col < a.col) {
            (false, false) => (a, b),
            (true, false) => (b.crossing(a), a.crossing(b)),
            (false, true) => (a.crossing(b), b.crossing(a)),
            (true, true) => (b, a),
        }
    }

    // The row of this address and the column of another one, each with its `$`.
    fn crossing(self, col: Address) -> Address
        ensures { result ≡ record { row = self.row; col = col.col; row_fixed = self.row_fixed; col_fixed = col.col_fixed } }
    {
        Address {
            row: self.row,
            col: col.col,
            row_fixed: self.row_fixed,
            col_fixed: col.col_fixed,
        }
    }
}
