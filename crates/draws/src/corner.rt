// The corners of a sheet.
ghost use Rattle.draws.specs.Draws.{IsCorner};

use cell_addr::{COLS, Place, ROWS};
use std::fmt;

// How many rows and columns places are drawn from.
pub(crate) const ROWS_DRAWN: u32 = 10;

pub(crate) const COLS_DRAWN: u32 = 5;

/// The corner of a sheet near which places are drawn.
#[derive(Clone, Copy, PartialEq, Eq, Debug)]
pub enum Corner {
    /// At the first row and column.
    First,
    /// At the last row and column.
    Last,
}

impl Corner {
    /// Both corners.
    pub const ALL: [Corner; 2] = [Corner::First, Corner::Last];

    // The first cell from which places are drawn.
    pub(crate) fn place(self) -> Place
        ensures { IsCorner self result }
    {
        match self {
            Corner::First => Place {
                sheet: 0,
                row: 0,
                col: 0,
            },
            Corner::Last => Place {
                sheet: 0,
                row: ROWS - ROWS_DRAWN,
                col: COLS - COLS_DRAWN,
            },
        }
    }
}

impl fmt::Display for Corner {
    fn fmt<W: fmt::Write>(&self, f: &mut fmt::Formatter<W>) -> fmt::Result {
        let cell = match self {
            Corner::First => "first",
            Corner::Last => "last",
        };
        write!(f, "the {cell} cell")
    }
}
