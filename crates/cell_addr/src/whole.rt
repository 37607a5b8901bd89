// Whole ranges: all rows or all columns of a sheet from one to another.
ghost use Rattle.std.specs.Prelude.{◌≡◌, ◌↔◌, IsTrue};
ghost use Rattle.cell_addr.specs.Place.{IsBlockInside};
ghost use Rattle.cell_addr.specs.Whole.{IsWholeInside, lines_of, sheet_block, whole_block, whole_of};

use crate::axis::{Axis, Span};
use crate::place::{Block, COLS, ROWS};

/// All rows or all columns of a sheet from the first to the last, counted from 0.
#[derive(Clone, Copy, PartialEq, Eq, Debug)]
pub struct Whole {
    pub sheet: u32,
    pub axis: Axis,
    pub first: u32,
    pub last: u32,
}

impl Whole {
    /// Whether the ends are in order, and within the limits of a sheet.
    pub fn inside(self) -> bool
        ensures { IsTrue result ↔ IsWholeInside self }
    {
        self.first <= self.last && self.last < self.axis.limit()
    }

    /// The rows or the columns of the range, by the first and the last.
    pub fn span(self) -> Span
        ensures { result ≡ lines_of self }
    {
        Span {
            first: self.first,
            last: self.last,
        }
    }

    /// The block of all cells of the range: its rows or columns from one end of the sheet to the other. It is
    /// inside where the range is.
    pub fn block(self) -> Block
        ensures block { result ≡ whole_block self }
        ensures inside { IsWholeInside self → IsBlockInside result }
    {
        all_cells(self.sheet).with_span(self.axis, self.span())
    }
}

impl Block {
    /// All rows, or all columns, from the block's first to its last.
    pub fn whole(self, axis: Axis) -> Whole
        ensures { result ≡ whole_of axis self }
    {
        let span = self.span(axis);
        Whole {
            sheet: self.sheet,
            axis,
            first: span.first,
            last: span.last,
        }
    }
}

// The block of all cells of a sheet.
fn all_cells(sheet: u32) -> Block
    ensures { result ≡ sheet_block sheet }
{
    Block {
        sheet,
        top: 0,
        left: 0,
        bottom: ROWS - 1,
        right: COLS - 1,
    }
}
