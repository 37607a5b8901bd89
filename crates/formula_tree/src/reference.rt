// References: with the places that they name, and as they are seen from the home of a formula.
ghost use Rattle.std.specs.Prelude.{◌≡◌, ◌<◌, ◌^◌};
ghost use Rattle.cell_addr.specs.Place.{IsInside};
ghost use Rattle.formula_tree.specs.Reference.{base_of, sheet_of, IsHomeInside, sheet_at, line_at, is_fixed, corner_at, sheet_from, part_from, ref_from, block_of};

use cell_addr::{Block, Place};

/// Where a formula stands.
#[derive(Clone, Copy, PartialEq, Eq, Debug)]
pub enum Home {
    /// The formula of this cell.
    Cell(Place),
    /// The formula of a named expression, whose scope is the sheet with this number, or
    /// [`cell_addr::NO_SHEET`] for the global scope.
    Name { sheet: u32 },
}

/// One corner of a reference: the place that it names, and which of its parts have a `$` in front.
#[derive(Clone, Copy, PartialEq, Eq, Debug)]
pub struct Corner {
    pub at: Place,
    pub row_fixed: bool,
    pub col_fixed: bool,
}

/// The sheet of a reference, as seen from the home of its formula.
#[derive(Clone, Copy, PartialEq, Eq, Hash, Debug)]
pub enum SheetPart {
    /// The home's own sheet.
    Own,
    /// The sheet with this number.
    Id(u32),
}

/// A row or a column of a reference, as seen from the home of its formula.
#[derive(Clone, Copy, PartialEq, Eq, Hash, Debug)]
pub enum Part {
    /// So many lines after the home's own, or before it where the number is negative.
    Rel(i32),
    /// The line with this number, counted from 0, wherever the home is: a part with a `$`.
    Abs(u32),
}

/// One corner of a reference, as seen from the home of its formula.
#[derive(Clone, Copy, PartialEq, Eq, Hash, Debug)]
pub struct Ref {
    pub sheet: SheetPart,
    pub row: Part,
    pub col: Part,
}

/// A line that no sheet has: where a relative part falls off the sheet's first line, or off every
/// number.
pub const NO_LINE: u32 = u32::MAX;

impl Home {
    /// The place from which relative parts count: the formula's own, and row 0 and column 0 of its
    /// scope for a named expression.
    pub fn base(self) -> Place
        ensures { result ≡ base_of self }
    {
        match self {
            Home::Cell(at) => at,
            Home::Name { sheet } => Place {
                sheet,
                row: 0,
                col: 0,
            },
        }
    }

    /// The sheet that references without a sheet's name are on.
    pub fn sheet(self) -> u32
        ensures { result ≡ sheet_of self }
    {
        self.base().sheet
    }
}

impl Corner {
    /// The block from this corner to the last one, on this one's sheet.
    pub fn block_to(self, last: Corner) -> Block
        ensures { result ≡ block_of self last }
    {
        Block {
            sheet: self.at.sheet,
            top: self.at.row,
            left: self.at.col,
            bottom: last.at.row,
            right: last.at.col,
        }
    }
}

impl SheetPart {
    // The part that names this sheet as seen from the sheet `own`.
    pub(crate) fn of(sheet: u32, own: u32) -> SheetPart
        ensures { result ≡ sheet_from own sheet }
    {
        if sheet == own {
            SheetPart::Own
        } else {
            SheetPart::Id(sheet)
        }
    }

    // The sheet that the part names as seen from the sheet `own`.
    fn at(self, own: u32) -> u32
        ensures { result ≡ sheet_at own self }
    {
        match self {
            SheetPart::Own => own,
            SheetPart::Id(sheet) => sheet,
        }
    }
}

impl Part {
    // The part that names this line as seen from the line `base`; a part with a `$` doesn't move.
    pub(crate) fn of(line: u32, fixed: bool, base: u32) -> Part
        requires line { line < 2 ^ 31 }
        requires base { base < 2 ^ 31 }
        ensures { result ≡ part_from base fixed line }
    {
        if fixed {
            Part::Abs(line)
        } else {
            Part::Rel(line as i32 - base as i32)
        }
    }

    // The line that the part names as seen from the line `base`.
    fn at(self, base: u32) -> u32
        ensures { result ≡ line_at base self }
    {
        match self {
            Part::Rel(by) => base.checked_add_signed(by).unwrap_or(NO_LINE),
            Part::Abs(line) => line,
        }
    }

    /// Whether the part has a `$`.
    pub fn is_fixed(self) -> bool
        ensures { result ≡ is_fixed self }
    {
        matches!(self, Part::Abs(_))
    }
}

impl Ref {
    /// How the corner is seen from the home: on its own sheet, and relative where it has no `$`.
    /// Both lie within the limits of a sheet.
    pub fn of(corner: Corner, home: Home) -> Ref
        requires corner { IsInside corner.at }
        requires home { IsHomeInside home }
        ensures { result ≡ ref_from (base_of home) corner }
    {
        let base = home.base();
        Ref {
            sheet: SheetPart::of(corner.at.sheet, base.sheet),
            row: Part::of(corner.at.row, corner.row_fixed, base.row),
            col: Part::of(corner.at.col, corner.col_fixed, base.col),
        }
    }

    /// The corner that the reference names in a formula at the home. A part that falls off every
    /// sheet names [`NO_LINE`].
    pub fn at(self, home: Home) -> Corner
        ensures { result ≡ corner_at (base_of home) self }
    {
        let base = home.base();
        Corner {
            at: Place {
                sheet: self.sheet.at(base.sheet),
                row: self.row.at(base.row),
                col: self.col.at(base.col),
            },
            row_fixed: self.row.is_fixed(),
            col_fixed: self.col.is_fixed(),
        }
    }
}
