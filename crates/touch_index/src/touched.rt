// The cells and blocks that an operation touches.
ghost use Rattle.cell_addr.specs.declared.axis.Span.{Span};
ghost use Rattle.place_lines.specs.declared.lines.PlaceLines.{PlaceLines};
ghost use Rattle.touch_index.specs.internal.Bands.{lost_span};
ghost use Rattle.std.specs.Prelude.{◌≡◌, Some, ℕ, true, IfOk, OnOk, IsTrue};
ghost use Rattle.cell_addr.specs.Axis.{limit_of, line_of};
ghost use Rattle.cell_addr.specs.Place.{covers};
ghost use Rattle.cell_addr.specs.declared.place.Place.{Place};
ghost use Rattle.needs_order.specs.Needs.{has};
ghost use Rattle.place_lines.specs.Spots.{number_of, spot_of, table_along};
ghost use Rattle.shift_core.specs.Form.{IsWithin, form_of};
ghost use Rattle.shift_core.specs.Lines.{IsSoundEdit};
ghost use Rattle.shift_core.specs.Sound.{IsSound, IsSoundForm};
ghost use Rattle.shift_core.specs.declared.form.Form.TheVariants as form;
ghost use Rattle.std.specs.Prelude.{◌++◌, ◌<◌};
ghost use Rattle.block_index.specs.Index.{filed_in, finds, slot_count};
ghost use Rattle.touch_index.specs.Kept.{FindsBlocks, FindsCells, goes_on};
ghost use Rattle.touch_index.specs.internal.Points.{StillFound, has_point};

use crate::band::{gap, lost, started};
use crate::index::TouchIndex;
use crate::points::Points;
use block_index::BlockIndex;
use cell_addr::{Axis, Block, Place, Span};
use place_lines::PlaceLines;
use shift_core::{Edit, Form, Shift, destination};
use std::alloc::{AllocError, Global};

impl TouchIndex {
    /// The numbers of all kept cells and blocks of the sheet that the operation touches, and maybe others; a number may
    /// stand several times. So what isn't found is neither lost nor taken along with moved cells, and a block besides
    /// neither bent nor cut.
    ///
    /// Costs a search for each run of the lines that the edit loses or displaces, a look-up for each size of slots in
    /// use, and what is found: the cells on lost lines, the blocks that begin on lost or displaced lines, and those that
    /// go on over the first of these or over an insert's line. For moved cells a search for each row or each column of
    /// their block, whichever are fewer, and what is kept there and where they go; for a dropped sheet all that is kept on
    /// it. Errs for want of memory.
    pub fn touched(&self, lines: &PlaceLines, s: &Shift) -> Result<Vec<usize>, AllocError>
        requires { IsSound s.now }
        ensures cells { IfOk result (λ found. FindsCells self.now lines.now (form_of s.now) found.items) }
        ensures blocks { IfOk result (λ found. FindsBlocks self.now lines.now (form_of s.now) found.items) }
    {
        match s.form() {
            Form::Lines { sheet, axis, edit } => self.edited(lines, sheet, axis, edit),
            Form::Cells { source, to } => self.moved(lines, source, to),
            Form::Sheet { sheet } => self.dropped(sheet),
        }
    }

    // What an edit of the lines of a sheet touches.
    fn edited(
        &self,
        lines: &PlaceLines,
        sheet: u32,
        axis: Axis,
        edit: Edit,
    ) -> Result<Vec<usize>, AllocError>
        requires { IsSoundEdit (limit_of axis) edit }
        ensures cells { IfOk result (λ found. FindsCells self.now lines.now (form.Lines sheet axis edit) found.items) }
        ensures blocks { IfOk result (λ found. FindsBlocks self.now lines.now (form.Lines sheet axis edit) found.items) }
    {
        let mut found = Vec::new(self.alloc);
        let limit = axis.limit();
        self.find_lost(&mut found, lines, axis, sheet, edit)?;
        let started = started(edit, limit);
        find_on(
            &self.firsts,
            &mut found,
            self.alloc,
            lines,
            axis,
            sheet,
            started,
        )?;
        self.find_over(&mut found, lines, axis, sheet, started.first)?;
        self.find_over(&mut found, lines, axis, sheet, gap(edit))?;
        Ok(found)
    }

    // Finds the cells on the lines that the edit loses.
    fn find_lost(
        &self,
        found: &mut Vec<usize>,
        lines: &PlaceLines,
        axis: Axis,
        sheet: u32,
        edit: Edit,
    ) -> Result<(), AllocError>
        requires { IsSoundEdit (limit_of axis) edit }
        ensures still { OnOk result (StillFound found.old.items found.new.items) }
        ensures found { OnOk result ((band : Span) → lost_span (limit_of axis) edit ≡ Some band → (p : Place) (n : ℕ) → has_point self.now.cells (spot_of lines.now p) n ≡ true → p.sheet ≡ sheet → IsWithin band (line_of axis p) → has n found.new.items ≡ true) }
    {
        match lost(edit, axis.limit()) {
            Some(lost) => find_on(&self.cells, found, self.alloc, lines, axis, sheet, lost),
            None => Ok(()),
        }
    }

    // What the move of a block of cells touches.
    fn moved(&self, lines: &PlaceLines, source: Block, to: Place) -> Result<Vec<usize>, AllocError>
        requires { IsSoundForm (form.Cells source to) }
        ensures cells { IfOk result (λ found. FindsCells self.now lines.now (form.Cells source to) found.items) }
        ensures blocks { IfOk result (λ found. FindsBlocks self.now lines.now (form.Cells source to) found.items) }
    {
        let destination = destination(source, to);
        let mut found = Vec::new(self.alloc);
        find_in(&self.cells, &mut found, self.alloc, lines, source)?;
        find_in(&self.cells, &mut found, self.alloc, lines, destination)?;
        find_in(&self.firsts, &mut found, self.alloc, lines, source)?;
        find_in(&self.firsts, &mut found, self.alloc, lines, destination)?;
        Ok(found)
    }

    // All on a sheet. The lines of its cells have lower numbers than the last one of 64 bits.
    fn dropped(&self, sheet: u32) -> Result<Vec<usize>, AllocError>
        ensures cells { IfOk result (λ found. (lines : PlaceLines) → FindsCells self.now lines (form.Sheet sheet) found.items) }
        ensures blocks { IfOk result (λ found. (lines : PlaceLines) → FindsBlocks self.now lines (form.Sheet sheet) found.items) }
    {
        let all = [0..u64::MAX];
        let mut found = Vec::new(self.alloc);
        self.cells.find_on(&mut found, Axis::Rows, sheet, &all)?;
        self.firsts.find_on(&mut found, Axis::Rows, sheet, &all)?;
        Ok(found)
    }

    // Finds the blocks that go on over the line at a position.
    pub(crate) fn find_over(
        &self,
        found: &mut Vec<usize>,
        lines: &PlaceLines,
        axis: Axis,
        sheet: u32,
        position: u32,
    ) -> Result<(), AllocError>
        ensures still { OnOk result (StillFound found.old.items found.new.items) }
        ensures found { OnOk result ((n : ℕ) → IsTrue (goes_on axis self.now sheet (number_of (table_along axis lines.now sheet) position) n) → IsTrue (has n found.new.items)) }
    {
        let spot = lines.spot(Place {
            sheet,
            row: position,
            col: position,
        });
        match axis {
            Axis::Rows => find_at(&self.rows, found, sheet, spot.row),
            Axis::Cols => find_at(&self.cols, found, sheet, spot.col),
        }
    }
}

// Finds what is filed under a row of the one column.
fn find_at(
    index: &BlockIndex,
    found: &mut Vec<usize>,
    sheet: u32,
    row: u64,
) -> Result<(), AllocError>
    ensures still { OnOk result (StillFound found.old.items found.new.items) }
    ensures found { OnOk result ((n : ℕ) → finds index.now sheet row 0 n ≡ true → has n found.new.items ≡ true) }
{
    let slots = index.slots_at(sheet, row, 0)?;
    'slots: for slot in &slots {
        find_filed(index, found, *slot)?;
    }
    Ok(())
}

// Finds what is filed under a slot.
fn find_filed(index: &BlockIndex, found: &mut Vec<usize>, slot: usize) -> Result<(), AllocError>
    requires { slot < slot_count index.now }
    ensures { OnOk result (found.new.items ≡ found.old.items ++ filed_in index.now slot) }
{
    'filed: for number in index.filed(slot) {
        found.push(*number)?;
    }
    Ok(())
}

// Finds the numbers of the places of a sheet whose lines are in the span.
pub(crate) fn find_on(
    points: &Points,
    found: &mut Vec<usize>,
    alloc: Global,
    lines: &PlaceLines,
    axis: Axis,
    sheet: u32,
    span: Span,
) -> Result<(), AllocError>
    ensures still { OnOk result (StillFound found.old.items found.new.items) }
    ensures found { OnOk result ((p : Place) (n : ℕ) → has_point points.now (spot_of lines.now p) n ≡ true → p.sheet ≡ sheet → IsWithin span (line_of axis p) → has n found.new.items ≡ true) }
{
    let runs = lines.runs(alloc, axis, sheet, span)?;
    points.find_on(found, axis, sheet, &runs)
}

// Finds the numbers of the places in a block.
fn find_in(
    points: &Points,
    found: &mut Vec<usize>,
    alloc: Global,
    lines: &PlaceLines,
    block: Block,
) -> Result<(), AllocError>
    ensures still { OnOk result (StillFound found.old.items found.new.items) }
    ensures found { OnOk result ((p : Place) (n : ℕ) → has_point points.now (spot_of lines.now p) n ≡ true → covers block p ≡ true → has n found.new.items ≡ true) }
{
    let rows = lines.runs(alloc, Axis::Rows, block.sheet, block.span(Axis::Rows))?;
    let cols = lines.runs(alloc, Axis::Cols, block.sheet, block.span(Axis::Cols))?;
    let height = block.bottom.saturating_sub(block.top);
    let width = block.right.saturating_sub(block.left);
    if height <= width {
        points.find_in(found, Axis::Rows, block.sheet, &rows, &cols)
    } else {
        points.find_in(found, Axis::Cols, block.sheet, &cols, &rows)
    }
}
