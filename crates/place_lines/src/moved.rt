// Lines after structural operations.
ghost use Rattle.std.specs.Prelude.{◌≡◌, ◌==◌, false, ℕ, IfOk};
ghost use Rattle.cell_addr.specs.Axis.{limit_of};
ghost use Rattle.cell_addr.specs.declared.axis.Axis.{Axis};
ghost use Rattle.shift_core.specs.Form.{form_of};
ghost use Rattle.shift_core.specs.Lines.{IsSoundEdit, line_before};
ghost use Rattle.shift_core.specs.Sound.{IsSound};
ghost use Rattle.shift_core.specs.declared.form.Form.TheVariants.{Lines};
ghost use Rattle.stable_lines.specs.Lines.{AreRenewed, AreSame};
ghost use Rattle.stable_lines.specs.Sheets.{table_of};
ghost use Rattle.stable_lines.specs.internal.Turns.{MovesSoundly};
ghost use Rattle.place_lines.specs.Moved.{AllStay, AreMoved};
ghost use Rattle.place_lines.specs.internal.Low.{HasLowLines};

use crate::lines::PlaceLines;
use cell_addr::Axis;
use shift_core::{Edit, Form, Shift};
use stable_lines::{LineTable, SheetLines};
use std::alloc::{AllocError, Global};

impl PlaceLines {
    /// The lines after an operation: those of an edited sheet as [`LineTable::edited`] renews them, all others as they
    /// were, whose runs both share. Costs what that edit does, and a count for each edited sheet. Errs for want of memory,
    /// and where the numbers of lines are used up, after more edits than fit a lifetime.
    pub fn moved(&self, alloc: Global, s: &Shift) -> Result<PlaceLines, AllocError>
        requires { IsSound s.now }
        ensures { IfOk result (AreMoved (form_of s.now) self.now) }
    {
        match s.form() {
            Form::Lines { sheet, axis, edit } => self.edited(alloc, sheet, axis, edit),
            _ => self.copied(),
        }
    }

    // The lines after an edit of those of a sheet.
    fn edited(
        &self,
        alloc: Global,
        sheet: u32,
        axis: Axis,
        edit: Edit,
    ) -> Result<PlaceLines, AllocError>
        requires { IsSoundEdit (limit_of axis) edit }
        ensures { IfOk result (AreMoved (Lines sheet axis edit) self.now) }
    {
        let table = renewed(self.table(axis, sheet), alloc, edit)?;
        match axis {
            Axis::Rows => Ok(PlaceLines {
                rows: with_table(&self.rows, sheet, table)?,
                cols: self.cols.copied()?,
            }),
            Axis::Cols => Ok(PlaceLines {
                rows: self.rows.copied()?,
                cols: with_table(&self.cols, sheet, table)?,
            }),
        }
    }

    // The same lines.
    fn copied(&self) -> Result<PlaceLines, AllocError>
        ensures { IfOk result (λ new. (axis : Axis) → AllStay axis self.now new) }
    {
        Ok(PlaceLines {
            rows: self.rows.copied()?,
            cols: self.cols.copied()?,
        })
    }
}

// The same lines but for those of the sheet, which another table has.
fn with_table(lines: &SheetLines, sheet: u32, table: LineTable) -> Result<SheetLines, AllocError>
    requires { table.limit ≡ lines.now.plain.limit }
    ensures sheet { IfOk result (λ new. table_of new sheet ≡ table) }
    ensures others { IfOk result (λ new. (other : ℕ) → (other == sheet) ≡ false → AreSame (table_of new other) (table_of lines.now other)) }
    ensures limit { IfOk result (λ new. new.plain.limit ≡ lines.now.plain.limit) }
{
    let mut new = lines.copied()?;
    new.reserve(sheet)?;
    new.replace(sheet, table);
    Ok(new)
}

// The lines of a sheet after an edit; none of them has the number of a position past the sheet's end.
fn renewed(table: &LineTable, alloc: Global, edit: Edit) -> Result<LineTable, AllocError>
    requires { MovesSoundly table.now.limit edit }
    ensures renewed { IfOk result (AreRenewed (line_before table.now.limit edit) table.now) }
    ensures low { IfOk result HasLowLines }
{
    table.edited(alloc, edit)
}
