// Blocks of whole columns, looked through by what is kept in these.
ghost use Rattle.std.specs.Prelude.{◌≡◌, ◌↔◌, ◌+◌, ◌<◌, [], false, IsTrue, OnOk};
ghost use Rattle.stable_lines.specs.Sheets.{table_of};
ghost use Rattle.grid_store.specs.Grid.{HasAny};
ghost use Rattle.grid_store.specs.internal.Listing.{AreCellsOf, AreLinesAt, HasColumns, HasRows, LacksColumns, StillHas, shown};

use crate::found::put;
use crate::key::CellKey;
use crate::view::View;
use cell_addr::{Block, COLS, Place, ROWS};
use stable_lines::Run;
use std::alloc::AllocError;

// Whether the block is looked through by its columns: where it has all rows, but not all columns. Only cost depends on it.
pub(crate) fn is_of_columns(area: Block) -> bool {
    area.top == 0 && ROWS - 1 <= area.bottom && (0 < area.left || area.right < COLS - 1)
}

impl<'a, V: Drop> View<'a, V> {
    // Finds the seen cells of the block, by its runs of columns whose lines follow one another.
    pub(crate) fn find_by_cols(
        &self,
        area: Block,
        found: &mut Vec<(Place, &'a V)>,
    ) -> Result<(), AllocError>
        requires { found.old.items ≡ [] }
        ensures cells { OnOk result (AreCellsOf area (shown self.now) found.new) }
        ensures rows { OnOk result (HasRows area (shown self.now) 0 (area.bottom + 1) found.new) }
    {
        let table = self.cols.table(area.sheet);
        let mut col = area.left;
        while col <= area.right {
            let Some(run) = table.run_from(col) else {
                return Ok(());
            };
            let count = run.count.min((area.right - col) as u64 + 1);
            self.find_on_cols(area, Run { count, ..run }, found)?;
            col += count as u32;
        }
        Ok(())
    }

    // Finds the seen cells of the block that are on these lines of columns, among all that are kept on them.
    fn find_on_cols(
        &self,
        area: Block,
        lines: Run,
        found: &mut Vec<(Place, &'a V)>,
    ) -> Result<(), AllocError>
        requires cells { AreCellsOf area (shown self.now) found.old }
        requires lines { AreLinesAt (table_of self.now.cols.now area.sheet) lines }
        requires sum { lines.to + lines.count < 18446744073709551616 }
        ensures cells { OnOk result (AreCellsOf area (shown self.now) found.new) }
        ensures columns { OnOk result (HasColumns area (shown self.now) lines.from (lines.from + lines.count) found.new) }
        ensures still { OnOk result (StillHas found.old found.new) }
    {
        let sheet = area.sheet;
        let first = CellKey {
            sheet,
            row: lines.to,
            col: 0,
        };
        let end = CellKey {
            sheet,
            row: lines.to + lines.count,
            col: 0,
        };
        for turned in self.cells.by_cols().range(first..end) {
            let key = turned.turned();
            if let Some(at) = self.place(key) {
                if area.holds(at) {
                    if let Some(cell) = self.cells.by_rows().get(&key) {
                        put(found, at, cell)?;
                    }
                }
            }
        }
        Ok(())
    }

    // Whether a cell of the block is seen, by its runs of columns whose lines follow one another.
    pub(crate) fn has_any_by_cols(&self, area: Block) -> bool
        ensures { IsTrue result ↔ HasAny area (shown self.now) }
    {
        let table = self.cols.table(area.sheet);
        let mut col = area.left;
        while col <= area.right {
            let Some(run) = table.run_from(col) else {
                return false;
            };
            let count = run.count.min((area.right - col) as u64 + 1);
            if self.has_any_on_cols(area, Run { count, ..run }) {
                return true;
            }
            col += count as u32;
        }
        false
    }

    // Whether a cell of the block on these lines of columns is seen.
    fn has_any_on_cols(&self, area: Block, lines: Run) -> bool
        requires lines { AreLinesAt (table_of self.now.cols.now area.sheet) lines }
        requires sum { lines.to + lines.count < 18446744073709551616 }
        ensures found { IsTrue result → HasAny area (shown self.now) }
        ensures none { result ≡ false → LacksColumns area (shown self.now) lines.from (lines.from + lines.count) }
    {
        let sheet = area.sheet;
        let first = CellKey {
            sheet,
            row: lines.to,
            col: 0,
        };
        let end = CellKey {
            sheet,
            row: lines.to + lines.count,
            col: 0,
        };
        for turned in self.cells.by_cols().range(first..end) {
            if let Some(at) = self.place(turned.turned()) {
                if area.holds(at) {
                    return true;
                }
            }
        }
        false
    }
}
