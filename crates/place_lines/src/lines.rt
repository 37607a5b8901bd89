// The lines of every place.
ghost use Rattle.std.specs.Prelude.{◌≡◌, ◌<◌, ℕ, Some};
ghost use Rattle.cell_addr.specs.declared.axis.Axis.TheVariants.{Cols, Rows};
ghost use Rattle.cell_addr.specs.Axis.{limit_of};
ghost use Rattle.stable_lines.specs.Lines.{line_at};
ghost use Rattle.stable_lines.specs.Sheets.{table_of};
ghost use Rattle.place_lines.specs.declared.past.TheConstants.{PAST};

use crate::area::LineArea;
use crate::past::{number, position};
use crate::spot::LineSpot;
use cell_addr::{Axis, Block, Place};
use stable_lines::{LineTable, SheetLines};
use std::alloc::{AllocError, Global};

/// The numbers of the lines of all places of a workbook.
///
/// The lines of a sheet have numbers below 2 to the 63rd; the position p past a sheet's end, where no line is, counts
/// as a line with the number 2 to the 63rd and p.
pub struct PlaceLines {
    pub(crate) rows: SheetLines,
    pub(crate) cols: SheetLines,
    pub ghost row_limit: { rows.plain.limit ≡ limit_of Rows },
    pub ghost col_limit: { cols.plain.limit ≡ limit_of Cols },
    pub ghost low_rows: { (sheet position line : ℕ) → line_at (table_of rows sheet) position ≡ Some line → line < PAST },
    pub ghost low_cols: { (sheet position line : ℕ) → line_at (table_of cols sheet) position ≡ Some line → line < PAST },
}

// Written out, so that whoever drops one calls one function.
impl Drop for PlaceLines {
    fn drop(self) {
        let PlaceLines {
            rows: _rows,
            cols: _cols,
        } = self;
    }
}

impl PlaceLines {
    ghost use Rattle.std.specs.Prelude.{IfOk};
    ghost use Rattle.place_lines.specs.Spots.{AreFirst, area_of, block_at, place_at, spot_of, table_along};

    /// The lines of sheets that were never edited: each at the position of its own number. Errs for want of memory.
    pub fn new(alloc: Global) -> Result<PlaceLines, AllocError>
        ensures { IfOk result (λ lines. AreFirst lines) }
    {
        Ok(PlaceLines {
            rows: SheetLines::new(alloc, Axis::Rows.limit())?,
            cols: SheetLines::new(alloc, Axis::Cols.limit())?,
        })
    }

    // The lines of a sheet along an axis.
    pub(crate) fn table(&self, axis: Axis, sheet: u32) -> &LineTable
        ensures { result.now ≡ table_along axis self.now sheet }
    {
        match axis {
            Axis::Rows => self.rows.table(sheet),
            Axis::Cols => self.cols.table(sheet),
        }
    }

    /// The spot of a place. Costs the logarithm of the number of runs of lines.
    pub fn spot(&self, at: Place) -> LineSpot
        ensures { result ≡ spot_of self.now at }
    {
        LineSpot {
            sheet: at.sheet,
            row: number(self.rows.table(at.sheet), at.row),
            col: number(self.cols.table(at.sheet), at.col),
        }
    }

    /// Where a spot is; `None` where its row or its column stands nowhere. Costs what [`PlaceLines::spot`] does.
    pub fn place(&self, spot: LineSpot) -> Option<Place>
        ensures { result ≡ place_at self.now spot }
    {
        Some(Place {
            sheet: spot.sheet,
            row: position(self.rows.table(spot.sheet), spot.row)?,
            col: position(self.cols.table(spot.sheet), spot.col)?,
        })
    }

    /// The area of a block. Costs what [`PlaceLines::spot`] does.
    pub fn area(&self, b: Block) -> LineArea
        ensures { result ≡ area_of self.now b }
    {
        let rows = self.rows.table(b.sheet);
        let cols = self.cols.table(b.sheet);
        LineArea {
            sheet: b.sheet,
            top: number(rows, b.top),
            left: number(cols, b.left),
            bottom: number(rows, b.bottom),
            right: number(cols, b.right),
        }
    }

    /// The block of an area; `None` where one of its lines stands nowhere. Costs what [`PlaceLines::spot`] does.
    pub fn block(&self, area: LineArea) -> Option<Block>
        ensures { result ≡ block_at self.now area }
    {
        let rows = self.rows.table(area.sheet);
        let cols = self.cols.table(area.sheet);
        let top = position(rows, area.top)?;
        let left = position(cols, area.left)?;
        let bottom = position(rows, area.bottom)?;
        let right = if area.right == area.left {
            left
        } else {
            position(cols, area.right)?
        };
        Some(Block {
            sheet: area.sheet,
            top,
            left,
            bottom,
            right,
        })
    }
}
