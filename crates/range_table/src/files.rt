// Blocks filed under their numbers, so that cells and operations find them.
ghost use Rattle.std.specs.Prelude.{◌≡◌, ℕ, true, IfOk, OnOk};
ghost use Rattle.block_index.specs.Index.{finds};
ghost use Rattle.cell_addr.specs.Place.{IsBlockInside};
ghost use Rattle.place_lines.specs.Spots.{in_runs};
ghost use Rattle.shift_core.specs.Sound.{IsSound};
ghost use Rattle.range_table.specs.internal.Filed.{StillFind, in_run};

use block_index::BlockIndex;
use cell_addr::{Axis, Block};
use place_lines::PlaceLines;
use shift_core::{Form, Shift, destination};
use std::alloc::{AllocError, Global};
use std::ops::Range;
use touch_index::TouchIndex;

// Blocks filed under their numbers. What is filed is never taken out.
pub(crate) struct Files {
    alloc: Global,
    // By this operations find them.
    pub(crate) touches: TouchIndex,
    // By this cells find the blocks that hold them.
    pub(crate) cells: BlockIndex,
}

// Written out, so that whoever drops one calls one function.
impl Drop for Files {
    fn drop(self) {
        let Files {
            alloc: _,
            touches: _touches,
            cells: _cells,
        } = self;
    }
}

impl Files {
    ghost use Rattle.range_table.specs.internal.Files.{Finds, FindsBoth, FindsGivenUp, IsMore};

    // Nothing is filed.
    pub(crate) fn new(alloc: Global) -> Files {
        Files {
            alloc,
            touches: TouchIndex::new(alloc),
            cells: BlockIndex::new(alloc),
        }
    }

    // Files a block under a number. What is filed stays so, whatever the answer.
    pub(crate) fn file(
        &mut self,
        lines: &PlaceLines,
        b: Block,
        number: usize,
    ) -> Result<(), AllocError>
        requires { IsBlockInside b }
        ensures more { IsMore self.old self.new }
        ensures finds { OnOk result (Finds self.new lines.now b number) }
    {
        self.touches.add_block(lines, b, number)?;
        let rows = lines.runs(self.alloc, Axis::Rows, b.sheet, b.span(Axis::Rows))?;
        let cols = lines.runs(self.alloc, Axis::Cols, b.sheet, b.span(Axis::Cols))?;
        file_all(&mut self.cells, b.sheet, &rows, &cols, number)
    }

    // The numbers of all blocks that the operation bends, cuts, tears or takes along, and maybe others.
    pub(crate) fn touched(&self, lines: &PlaceLines, s: &Shift) -> Result<Vec<usize>, AllocError>
        requires { IsSound s.now }
        ensures { IfOk result (λ found. FindsGivenUp s.now lines.now self.now found.items) }
    {
        match s.form() {
            Form::Cells { source, to } => self.meeting(lines, source, destination(source, to)),
            _ => self.touches.touched(lines, s),
        }
    }

    // The numbers of all blocks that have a cell in common with one of two, and maybe others.
    fn meeting(
        &self,
        lines: &PlaceLines,
        first: Block,
        second: Block,
    ) -> Result<Vec<usize>, AllocError>
        ensures { IfOk result (λ found. FindsBoth self.now lines.now first second found.items) }
    {
        let mut found = self.touches.meeting(lines, first)?;
        let more = self.touches.meeting(lines, second)?;
        found.extend_from_slice(&more)?;
        Ok(found)
    }
}

// Files a number under the cells of these rows by these columns of a sheet.
fn file_all(
    cells: &mut BlockIndex,
    sheet: u32,
    rows: &[Range<u64>],
    cols: &[Range<u64>],
    number: usize,
) -> Result<(), AllocError>
    ensures still { StillFind cells.old cells.new }
    ensures found { OnOk result ((row col : ℕ) → in_runs rows.now row ≡ true → in_runs cols.now col ≡ true → finds cells.new sheet row col number ≡ true) }
{
    'rows: for run in rows {
        file_row(cells, sheet, run.start..run.end, cols, number)?;
    }
    Ok(())
}

// Files a number under the cells of a run of rows by these columns of a sheet.
fn file_row(
    cells: &mut BlockIndex,
    sheet: u32,
    rows: Range<u64>,
    cols: &[Range<u64>],
    number: usize,
) -> Result<(), AllocError>
    ensures still { StillFind cells.old cells.new }
    ensures found { OnOk result ((row col : ℕ) → in_run rows row ≡ true → in_runs cols.now col ≡ true → finds cells.new sheet row col number ≡ true) }
{
    'cols: for run in cols {
        cells.file(sheet, rows.start..rows.end, run.start..run.end, number)?;
    }
    Ok(())
}
