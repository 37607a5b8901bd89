// The two axes of a sheet, its rows and its columns, so that a rule for lines is said once for both.
ghost use Rattle.std.specs.Prelude.{◌≡◌};
ghost use Rattle.cell_addr.specs.Axis.{across, limit_of, line_of, with_line, span_of, with_span};

use crate::place::{Block, COLS, Place, ROWS};

/// One of the two directions in which a sheet's lines are counted.
#[derive(Clone, Copy, PartialEq, Eq, Debug)]
pub enum Axis {
    /// The lines are rows.
    Rows,
    /// The lines are columns.
    Cols,
}

/// The lines from the first to the last along one axis, counted from 0.
#[derive(Clone, Copy, PartialEq, Eq, Debug)]
pub struct Span {
    pub first: u32,
    pub last: u32,
}

impl Axis {
    /// The other axis.
    pub fn across(self) -> Axis
        ensures { result ≡ across self }
    {
        match self {
            Axis::Rows => Axis::Cols,
            Axis::Cols => Axis::Rows,
        }
    }

    /// How many such lines a sheet has: [`ROWS`] or [`COLS`].
    pub fn limit(self) -> u32
        ensures { result ≡ limit_of self }
    {
        match self {
            Axis::Rows => ROWS,
            Axis::Cols => COLS,
        }
    }
}

impl Place {
    /// The line of the place along the axis: its row or its column.
    pub fn line(self, axis: Axis) -> u32
        ensures { result ≡ line_of axis self }
    {
        match axis {
            Axis::Rows => self.row,
            Axis::Cols => self.col,
        }
    }

    /// The place with this line along the axis.
    pub fn with_line(self, axis: Axis, line: u32) -> Place
        ensures { result ≡ with_line axis line self }
    {
        match axis {
            Axis::Rows => Place { row: line, ..self },
            Axis::Cols => Place { col: line, ..self },
        }
    }
}

impl Block {
    /// The lines of the block along the axis.
    pub fn span(self, axis: Axis) -> Span
        ensures { result ≡ span_of axis self }
    {
        match axis {
            Axis::Rows => Span {
                first: self.top,
                last: self.bottom,
            },
            Axis::Cols => Span {
                first: self.left,
                last: self.right,
            },
        }
    }

    /// The block with these lines along the axis.
    pub fn with_span(self, axis: Axis, span: Span) -> Block
        ensures { result ≡ with_span axis span self }
    {
        match axis {
            Axis::Rows => Block {
                top: span.first,
                bottom: span.last,
                ..self
            },
            Axis::Cols => Block {
                left: span.first,
                right: span.last,
                ..self
            },
        }
    }
}
