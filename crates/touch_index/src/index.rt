// Cells and blocks under numbers.
ghost use Rattle.std.specs.Prelude.{◌≡◌, ℕ, true, false, IsTrue, OnOk};
ghost use Rattle.cell_addr.specs.Place.{IsBlockInside};
ghost use Rattle.cell_addr.specs.declared.axis.Axis.{Axis};
ghost use Rattle.cell_addr.specs.declared.place.Block.{Block};
ghost use Rattle.place_lines.specs.Spots.{number_of, spot_of, table_along};
ghost use Rattle.place_lines.specs.declared.spot.LineSpot.{LineSpot};
ghost use Rattle.shift_core.specs.Form.{IsWithin};
ghost use Rattle.touch_index.specs.internal.Points.{FilesRuns, FindsStill};

use crate::points::Points;
use block_index::BlockIndex;
use cell_addr::{Axis, Block, Place, Span};
use place_lines::PlaceLines;
use std::alloc::{AllocError, Global};
use std::ops::Range;

/// Cells and blocks under numbers, by the numbers of their lines.
///
/// What is kept is never taken out: a number keeps the lines that it was added with. It costs a search for each line of
/// a cell and of a block's first corner, and about the logarithm of the lines for each run of the others.
pub struct TouchIndex {
    pub(crate) alloc: Global,
    // The cells.
    pub(crate) cells: Points,
    // The first places of blocks.
    pub(crate) firsts: Points,
    // The rows of blocks but their first ones, and so the columns, each as the rows of one column.
    pub(crate) rows: BlockIndex,
    pub(crate) cols: BlockIndex,
}

// Written out, so that whoever drops one calls one function.
impl Drop for TouchIndex {
    fn drop(self) {
        let TouchIndex {
            alloc: _,
            cells: _cells,
            firsts: _firsts,
            rows: _rows,
            cols: _cols,
        } = self;
    }
}

impl TouchIndex {
    ghost use Rattle.touch_index.specs.Kept.{GoesOver, Grows, KeepsBlock, KeepsCell, begins_at, goes_on, keeps_cell};
    ghost use Rattle.place_lines.specs.declared.lines.PlaceLines.{PlaceLines};

    /// Nothing is kept.
    pub fn new(alloc: Global) -> TouchIndex
        ensures cells { (spot : LineSpot) (n : ℕ) → keeps_cell result spot n ≡ false }
        ensures blocks { (spot : LineSpot) (n : ℕ) → begins_at result spot n ≡ false }
    {
        TouchIndex {
            alloc,
            cells: Points::new(alloc),
            firsts: Points::new(alloc),
            rows: BlockIndex::new(alloc),
            cols: BlockIndex::new(alloc),
        }
    }

    /// Keeps a cell under a number. What was kept is kept still, also where there is no memory. Costs the logarithm of
    /// the number of cells.
    pub fn add_cell(
        &mut self,
        lines: &PlaceLines,
        at: Place,
        number: usize,
    ) -> Result<(), AllocError>
        ensures grown { Grows self.old self.new }
        ensures kept { OnOk result (KeepsCell self.new lines.now at number) }
    {
        self.cells.add(lines.spot(at), number)
    }

    /// Keeps a block under a number. What was kept is kept still, also where there is no memory. Costs the logarithm of
    /// the number of blocks, and for each run of the block's lines, whose numbers follow one another, about the logarithm
    /// of its length.
    pub fn add_block(
        &mut self,
        lines: &PlaceLines,
        block: Block,
        number: usize,
    ) -> Result<(), AllocError>
        requires { IsBlockInside block }
        ensures grown { Grows self.old self.new }
        ensures kept { OnOk result (KeepsBlock self.new lines.now block number) }
    {
        let first = Place {
            sheet: block.sheet,
            row: block.top,
            col: block.left,
        };
        self.firsts.add(lines.spot(first), number)?;
        self.add_lines(lines, Axis::Rows, block, number)?;
        self.add_lines(lines, Axis::Cols, block, number)
    }

    // Keeps the lines of a block along the axis, but the first.
    fn add_lines(
        &mut self,
        lines: &PlaceLines,
        axis: Axis,
        block: Block,
        number: usize,
    ) -> Result<(), AllocError>
        requires { IsBlockInside block }
        ensures grown { Grows self.old self.new }
        ensures firsts { self.new.firsts ≡ self.old.firsts }
        ensures kept { OnOk result (GoesOver axis self.new lines.now block number) }
    {
        let span = block.span(axis);
        let later = Span {
            first: span.first + 1,
            last: span.last,
        };
        self.add_span(lines, axis, block.sheet, later, number)
    }

    // Keeps lines of a sheet along the axis, each as one of a block that doesn't begin there.
    pub(crate) fn add_span(
        &mut self,
        lines: &PlaceLines,
        axis: Axis,
        sheet: u32,
        span: Span,
        number: usize,
    ) -> Result<(), AllocError>
        ensures grown { Grows self.old self.new }
        ensures firsts { self.new.firsts ≡ self.old.firsts }
        ensures added { OnOk result ((position : ℕ) → IsWithin span position → IsTrue (goes_on axis self.new sheet (number_of (table_along axis lines.now sheet) position) number)) }
    {
        let runs = lines.runs(self.alloc, axis, sheet, span)?;
        match axis {
            Axis::Rows => file_runs(&mut self.rows, sheet, &runs, number),
            Axis::Cols => file_runs(&mut self.cols, sheet, &runs, number),
        }
    }
}

// Files a number under these runs of lines of a sheet.
fn file_runs(
    index: &mut BlockIndex,
    sheet: u32,
    runs: &[Range<u64>],
    number: usize,
) -> Result<(), AllocError>
    ensures grown { FindsStill index.old index.new }
    ensures filed { OnOk result (FilesRuns index.new sheet runs.now number) }
{
    'runs: for run in runs {
        index.file(sheet, run.start..run.end, 0..1, number)?;
    }
    Ok(())
}
