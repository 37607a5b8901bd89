// Structural operations on the grid.
ghost use Rattle.std.specs.Prelude.{◌≡◌, IfOk, OnOk, OnErr, IsSome, is_some};
ghost use Rattle.stable_lines.specs.Sheets.{AreUnchanged, HasRoom, table_of};
ghost use Rattle.stable_lines.specs.Lines.{AreRenewed};
ghost use Rattle.cell_addr.specs.Axis.{limit_of};
ghost use Rattle.shift_core.specs.Lines.{IsSoundEdit};
ghost use Rattle.shift_core.specs.declared.form.Form.TheVariants.{Lines};
ghost use Rattle.grid_store.specs.Grid.{KeepsLines, cells_of, items_of};
ghost use Rattle.grid_store.specs.internal.Renewal.{IsRenewal, IsRenewalOver, along};
ghost use Rattle.grid_store.specs.internal.Ways.{carried_map, form_goes, line_goes, lost_by, turned, whole};
ghost use Rattle.std.specs.FinMap as map;
ghost use Rattle.cell_addr.specs.declared.place.Place.{Place};

use crate::duplicate::Duplicate;
use crate::grid::Grid;
use crate::list::CellList;
use crate::way::{Going, lost_lines};
use cell_addr::{Axis, Block, COLS, ROWS};
use shift_core::Edit;
use stable_lines::{LineTable, SheetLines};
use std::alloc::AllocError;

impl<V: Duplicate> Grid<V> {
    // Edits the lines of a sheet: each cell stays under its key, and those of lost lines are handed out.
    pub(crate) fn carry_lines(
        &mut self,
        way: Going,
        sheet: u32,
        axis: Axis,
        edit: Edit,
    ) -> Result<CellList<V>, AllocError>
        requires { IsSoundEdit (limit_of axis) edit }
        ensures carried { OnOk result (cells_of self.new ≡ carried_map (form_goes way (Lines sheet axis edit)) (cells_of self.old)) }
        ensures lost { IfOk result (λ list. items_of list ≡ lost_by (form_goes way (Lines sheet axis edit)) (cells_of self.old)) }
        ensures err { OnErr result (cells_of self.new ≡ cells_of self.old) }
        ensures lines { OnOk result (IsRenewalOver axis sheet (line_goes (turned way) (limit_of axis) edit) self.old.rows self.old.cols self.new.rows self.new.cols) }
    {
        self.reserve(axis, sheet)?;
        let table = self.renewed(way, sheet, axis, edit)?;
        let lost = self.clear_lost(way, sheet, axis, edit)?;
        self.renew(way, sheet, axis, edit, table);
        Ok(lost)
    }

    // Keeps room for another table of the sheet's lines.
    pub(crate) fn reserve(&mut self, axis: Axis, sheet: u32) -> Result<(), AllocError>
        ensures cells { cells_of self.new ≡ cells_of self.old }
        ensures room { OnOk result (HasRoom (along axis self.new.rows self.new.cols) sheet) }
        ensures rows { AreUnchanged self.old.rows self.new.rows }
        ensures cols { AreUnchanged self.old.cols self.new.cols }
    {
        match axis {
            Axis::Rows => self.rows.reserve(sheet),
            Axis::Cols => self.cols.reserve(sheet),
        }
    }

    // The sheet's lines after the edit.
    pub(crate) fn renewed(
        &self,
        way: Going,
        sheet: u32,
        axis: Axis,
        edit: Edit,
    ) -> Result<LineTable, AllocError>
        requires { IsSoundEdit (limit_of axis) edit }
        ensures { IfOk result (AreRenewed (line_goes (turned way) (limit_of axis) edit) (table_of (along axis self.now.rows self.now.cols) sheet)) }
    {
        let table = self.lines(axis).table(sheet);
        match way {
            Going::Forth => table.edited(self.alloc, edit),
            Going::Back => table.unedited(self.alloc, edit),
        }
    }

    // The lines of all sheets along the axis.
    fn lines(&self, axis: Axis) -> &SheetLines
        ensures { result.now ≡ along axis self.now.rows self.now.cols }
    {
        match axis {
            Axis::Rows => &self.rows,
            Axis::Cols => &self.cols,
        }
    }

    // Empties what the edit loses.
    fn clear_lost(
        &mut self,
        way: Going,
        sheet: u32,
        axis: Axis,
        edit: Edit,
    ) -> Result<CellList<V>, AllocError>
        ensures lost { IfOk result (λ list. items_of list ≡ lost_by (form_goes way (Lines sheet axis edit)) (cells_of self.old)) }
        ensures kept { OnOk result (cells_of self.new ≡ map.retain_keys (cells_of self.old) (λ p. is_some (form_goes way (Lines sheet axis edit) p))) }
        ensures err { OnErr result (cells_of self.new ≡ cells_of self.old) }
        ensures lines { KeepsLines self.old self.new }
    {
        match lost_lines(way, edit, axis.limit()) {
            Some(span) => self.clear(whole(sheet).with_span(axis, span)),
            None => Ok(CellList::new(self.alloc)?),
        }
    }

    // Puts the lines after the edit in place of those before it.
    pub(crate) fn renew(&mut self, way: Going, sheet: u32, axis: Axis, edit: Edit, table: LineTable)
        requires sound { IsSoundEdit (limit_of axis) edit }
        requires room { HasRoom (along axis self.old.rows self.old.cols) sheet }
        requires renewed { AreRenewed (line_goes (turned way) (limit_of axis) edit) (table_of (along axis self.old.rows self.old.cols) sheet) table }
        requires kept { (p : Place) → IsSome (map.get (cells_of self.old) p) → IsSome (form_goes way (Lines sheet axis edit) p) }
        ensures carried { cells_of self.new ≡ carried_map (form_goes way (Lines sheet axis edit)) (cells_of self.old) }
        ensures lines { IsRenewal axis sheet (line_goes (turned way) (limit_of axis) edit) self.old.rows self.old.cols self.new.rows self.new.cols }
    {
        match axis {
            Axis::Rows => self.rows.replace(sheet, table),
            Axis::Cols => self.cols.replace(sheet, table),
        }
    }
}

// All places of the sheet.
pub(crate) fn whole(sheet: u32) -> Block
    ensures { result ≡ whole sheet }
{
    Block {
        sheet,
        top: 0,
        left: 0,
        bottom: ROWS - 1,
        right: COLS - 1,
    }
}
