// Whether an insert pushes cells off the sheet.
ghost use Rattle.std.specs.Prelude.{◌≡◌, ◌↔◌, ◌+◌, ◌<◌, false, IsTrue, IsSome, None};
ghost use Rattle.std.specs.FinMap as map;
ghost use Rattle.cell_addr.specs.declared.place.Place.{Place};
ghost use Rattle.shift_core.specs.declared.form.Form.TheVariants.{Lines};
ghost use Rattle.stable_lines.specs.Sheets.{table_of};
ghost use Rattle.grid_store.specs.Grid.{HasAny, PushesEntryOff, cells_of};
ghost use Rattle.grid_store.specs.internal.Listing.{AreLinesAt, HasNone, LacksCols, LacksLines, shown};
ghost use Rattle.grid_store.specs.internal.Ways.{form_goes};

use crate::change::whole;
use crate::columns::is_of_columns;
use crate::grid::Grid;
use crate::key::CellKey;
use crate::view::View;
use crate::way::{Going, lost_lines};
use cell_addr::{Axis, Block};
use shift_core::{Edit, Form, Shift};
use stable_lines::Run;

impl<V: Drop> Grid<V> {
    /// Whether the operation is an insert of rows or columns that pushes a filled cell off the sheet. Takes no memory; costs the
    /// number of runs of the last lines, as many as are put in, and the logarithm of the number of filled cells.
    pub fn pushed_off(&self, s: &Shift) -> bool
        ensures { IsTrue result ↔ PushesEntryOff s.now (cells_of self.now) }
    {
        match s.form() {
            Form::Lines {
                sheet,
                axis,
                edit: Edit::Insert { at, count },
            } => self.loses_any(Going::Forth, sheet, axis, Edit::Insert { at, count }),
            _ => false,
        }
    }

    // Whether the edit loses a filled cell on this way.
    fn loses_any(&self, way: Going, sheet: u32, axis: Axis, edit: Edit) -> bool
        ensures { IsTrue result ↔ ((p : Place) × IsSome (map.get (cells_of self.now) p) × (form_goes way (Lines sheet axis edit) p ≡ None)) }
    {
        match lost_lines(way, edit, axis.limit()) {
            Some(span) => self.view().has_any(whole(sheet).with_span(axis, span)),
            None => false,
        }
    }
}

impl<V: Drop> View<'_, V> {
    // Whether a cell of the block is seen, by its columns or by its rows.
    pub(crate) fn has_any(&self, area: Block) -> bool
        ensures { IsTrue result ↔ HasAny area (shown self.now) }
    {
        if is_of_columns(area) {
            self.has_any_by_cols(area)
        } else {
            self.has_any_by_rows(area)
        }
    }

    // Whether a cell of the block is seen, by its runs of rows whose lines follow one another.
    fn has_any_by_rows(&self, area: Block) -> bool
        ensures { IsTrue result ↔ HasAny area (shown self.now) }
    {
        let table = self.rows.table(area.sheet);
        let mut row = area.top;
        while row <= area.bottom {
            let Some(run) = table.run_from(row) else {
                return false;
            };
            let count = run.count.min((area.bottom - row) as u64 + 1);
            if self.has_any_on(area, Run { count, ..run }) {
                return true;
            }
            row += count as u32;
        }
        false
    }

    // Whether a cell of the block on these lines of rows is seen.
    fn has_any_on(&self, area: Block, lines: Run) -> bool
        requires lines { AreLinesAt (table_of self.now.rows.now area.sheet) lines }
        requires sum { lines.to + lines.count < 18446744073709551616 }
        ensures found { IsTrue result → HasAny area (shown self.now) }
        ensures none { result ≡ false → HasNone area (shown self.now) lines.from (lines.from + lines.count) }
    {
        let end = lines.to + lines.count;
        let mut row = lines.to;
        while let Some(line) = self.filled_line(area.sheet, row, end) {
            if self.has_any_in_row(area, line) {
                return true;
            }
            row = line + 1;
        }
        false
    }

    // Whether a cell of the block on one line of rows is seen.
    fn has_any_in_row(&self, area: Block, row: u64) -> bool
        ensures found { IsTrue result → HasAny area (shown self.now) }
        ensures none { result ≡ false → LacksLines self.now area row (row + 1) }
    {
        let table = self.cols.table(area.sheet);
        let mut col = area.left;
        while col <= area.right {
            let Some(run) = table.run_from(col) else {
                return false;
            };
            let count = run.count.min((area.right - col) as u64 + 1);
            if self.has_any_between(area, row, Run { count, ..run }) {
                return true;
            }
            col += count as u32;
        }
        false
    }

    // Whether a cell of the block on one line of rows and these lines of columns is seen.
    fn has_any_between(&self, area: Block, row: u64, lines: Run) -> bool
        requires lines { AreLinesAt (table_of self.now.cols.now area.sheet) lines }
        requires sum { lines.to + lines.count < 18446744073709551616 }
        ensures found { IsTrue result → HasAny area (shown self.now) }
        ensures none { result ≡ false → LacksCols self.now area row lines.from (lines.from + lines.count) }
    {
        let sheet = area.sheet;
        let first = CellKey {
            sheet,
            row,
            col: lines.to,
        };
        let end = CellKey {
            sheet,
            row,
            col: lines.to + lines.count,
        };
        for (key, _cell) in self.cells.by_rows().range(first..end) {
            if let Some(at) = self.place(*key) {
                if area.holds(at) {
                    return true;
                }
            }
        }
        false
    }
}
