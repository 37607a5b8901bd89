// The filled cells of a block, in the order of their places.
ghost use Rattle.std.specs.Prelude.{◌≡◌, ◌+◌, ◌<◌, ◌≤◌, [], IfNone, IfOk, IfSome, OnOk, Some};
ghost use Rattle.std.specs.FinMap as map;
ghost use Rattle.stable_lines.specs.Sheets.{table_of};
ghost use Rattle.grid_store.specs.Grid.{cells_of, items_of, seen_items, within};
ghost use Rattle.grid_store.specs.Keys.{place_at};
ghost use Rattle.grid_store.specs.internal.Listing.{AreCellsOf, AreLinesAt, HasCols, HasLines, HasRows, KeepsNone, SpansColumns, StillHas, shown};

use crate::columns::is_of_columns;
use crate::duplicate::Duplicate;
use crate::found::{ordered, put};
use crate::grid::Grid;
use crate::key::CellKey;
use crate::list::CellList;
use crate::view::View;
use cell_addr::{Block, Place};
use stable_lines::Run;
use std::alloc::{AllocError, Global};

impl<V: Duplicate> Grid<V> {
    /// Copies of the filled cells of the block, row by row. Costs about what [`Grid::listed_refs`] does, and the copies.
    pub fn listed(&self, area: Block) -> Result<CellList<V>, AllocError>
        ensures { IfOk result (λ list. items_of list ≡ map.entries (within area (cells_of self.now))) }
    {
        let found = self.listed_refs(area)?;
        copies(self.alloc, &found)
    }

    /// Copies of all filled cells with their places, in no order that is told. Costs the number of filled cells.
    pub fn all(&self) -> Result<CellList<V>, AllocError>
        ensures { IfOk result (λ list. map.from_entries (items_of list) ≡ cells_of self.now) }
    {
        let mut list = CellList::new(self.alloc)?;
        for (key, cell) in self.cells.by_rows() {
            if let Some(at) = self.place(*key) {
                let cell = cell.duplicate(self.alloc)?;
                list.push(at, cell)?;
            }
        }
        Ok(list)
    }
}

impl<V: Drop> Grid<V> {
    /// The filled cells of the block, row by row. Costs about their number, and the runs of its rows' lines. Where rows that hold any
    /// cell hold some beside the block, each of these rows costs up to two logarithms of the number of filled cells more; neither the
    /// number of its rows counts, nor that of the cells beside it. Where the lines of its columns stand in several runs, each row that
    /// holds any cell costs such logarithms as often as there are runs, and each cell a look-up of its lines. Whole columns, but not
    /// all of a sheet, cost the runs of their lines and each of their cells the logarithm of the number of filled cells, and where
    /// these aren't found in the order of their places, that of their own number too.
    pub fn listed_refs(&self, area: Block) -> Result<Vec<(Place, &V)>, AllocError>
        ensures { IfOk result (λ list. seen_items list.items ≡ map.entries (within area (cells_of self.now))) }
    {
        self.view().listed_refs(self.alloc, area)
    }
}

impl<'a, V: Drop> View<'a, V> {
    // The seen cells of the block, row by row.
    pub(crate) fn listed_refs(
        &self,
        alloc: Global,
        area: Block,
    ) -> Result<Vec<(Place, &'a V)>, AllocError>
        ensures { IfOk result (λ list. seen_items list.items ≡ map.entries (within area (shown self.now))) }
    {
        let mut found = Vec::new(alloc);
        self.find(area, &mut found)?;
        ordered(alloc, found)
    }

    // Finds the seen cells of the block, by its columns or by its rows.
    pub(crate) fn find(
        &self,
        area: Block,
        found: &mut Vec<(Place, &'a V)>,
    ) -> Result<(), AllocError>
        requires { found.old.items ≡ [] }
        ensures cells { OnOk result (AreCellsOf area (shown self.now) found.new) }
        ensures rows { OnOk result (HasRows area (shown self.now) 0 (area.bottom + 1) found.new) }
    {
        if is_of_columns(area) {
            self.find_by_cols(area, found)
        } else {
            self.find_by_rows(area, found)
        }
    }

    // Finds the seen cells of the block, by its runs of rows whose lines follow one another.
    fn find_by_rows(&self, area: Block, found: &mut Vec<(Place, &'a V)>) -> Result<(), AllocError>
        requires { found.old.items ≡ [] }
        ensures cells { OnOk result (AreCellsOf area (shown self.now) found.new) }
        ensures rows { OnOk result (HasRows area (shown self.now) 0 (area.bottom + 1) found.new) }
    {
        let table = self.rows.table(area.sheet);
        let mut row = area.top;
        while row <= area.bottom {
            let Some(run) = table.run_from(row) else {
                return Ok(());
            };
            let count = run.count.min((area.bottom - row) as u64 + 1);
            self.find_on(area, Run { count, ..run }, found)?;
            row += count as u32;
        }
        Ok(())
    }

    // Finds the seen cells of the block that are on these lines of rows.
    fn find_on(
        &self,
        area: Block,
        lines: Run,
        found: &mut Vec<(Place, &'a V)>,
    ) -> Result<(), AllocError>
        requires cells { AreCellsOf area (shown self.now) found.old }
        requires lines { AreLinesAt (table_of self.now.rows.now area.sheet) lines }
        requires sum { lines.to + lines.count < 18446744073709551616 }
        ensures cells { OnOk result (AreCellsOf area (shown self.now) found.new) }
        ensures rows { OnOk result (HasRows area (shown self.now) lines.from (lines.from + lines.count) found.new) }
        ensures still { OnOk result (StillHas found.old found.new) }
    {
        match self.cols_in_one(area) {
            Some(cols) => self.find_along(area, lines, cols, found),
            None => self.find_line_by_line(area, lines, found),
        }
    }

    // The lines of the block's columns, where they follow one another.
    fn cols_in_one(&self, area: Block) -> Option<Run>
        ensures lines { IfSome result (AreLinesAt (table_of self.now.cols.now area.sheet)) }
        ensures all { IfSome result (SpansColumns area) }
        ensures sum { IfSome result (λ run. run.to + run.count < 18446744073709551616) }
    {
        if area.right < area.left {
            return None;
        }
        let run = self.cols.table(area.sheet).run_from(area.left)?;
        let count = (area.right - area.left) as u64 + 1;
        if run.count < count {
            return None;
        }
        Some(Run { count, ..run })
    }

    // Finds the seen cells of the block that are on these lines of rows and of columns, which are all of the block's columns. Goes
    // through the cells in order, and begins anew behind each stretch of cells beside the columns.
    fn find_along(
        &self,
        area: Block,
        lines: Run,
        cols: Run,
        found: &mut Vec<(Place, &'a V)>,
    ) -> Result<(), AllocError>
        requires cells { AreCellsOf area (shown self.now) found.old }
        requires lines { AreLinesAt (table_of self.now.rows.now area.sheet) lines }
        requires sum { lines.to + lines.count < 18446744073709551616 }
        requires cols { AreLinesAt (table_of self.now.cols.now area.sheet) cols }
        requires all { SpansColumns area cols }
        requires cols_sum { cols.to + cols.count < 18446744073709551616 }
        ensures cells { OnOk result (AreCellsOf area (shown self.now) found.new) }
        ensures rows { OnOk result (HasRows area (shown self.now) lines.from (lines.from + lines.count) found.new) }
        ensures still { OnOk result (StillHas found.old found.new) }
    {
        let end = lines.to + lines.count;
        let mut row = lines.to;
        while row < end {
            row = self.find_up_to(area, row, lines, cols, found)?;
        }
        Ok(())
    }

    // Finds the seen cells of the block on these lines of rows from `row` on, up to the first cell that is beside these lines of
    // columns. Answers the line of rows to go on from, which is the end of the lines where no cell is beside the columns. Where a
    // cell stands follows from its lines, with no look-up.
    fn find_up_to(
        &self,
        area: Block,
        row: u64,
        lines: Run,
        cols: Run,
        found: &mut Vec<(Place, &'a V)>,
    ) -> Result<u64, AllocError>
        requires cells { AreCellsOf area (shown self.now) found.old }
        requires from { lines.to ≤ row }
        requires before { row < lines.to + lines.count }
        requires lines { AreLinesAt (table_of self.now.rows.now area.sheet) lines }
        requires lines_sum { lines.to + lines.count < 18446744073709551616 }
        requires cols { AreLinesAt (table_of self.now.cols.now area.sheet) cols }
        requires all { SpansColumns area cols }
        requires sum { cols.to + cols.count < 18446744073709551616 }
        ensures within { IfOk result (λ next. (row < next) × (next ≤ lines.to + lines.count)) }
        ensures cells { OnOk result (AreCellsOf area (shown self.now) found.new) }
        ensures lines { IfOk result (λ next. HasLines self.now area row next found.new) }
        ensures still { OnOk result (StillHas found.old found.new) }
    {
        let sheet = area.sheet;
        let end = lines.to + lines.count;
        let first = CellKey {
            sheet,
            row,
            col: cols.to,
        };
        let past = CellKey {
            sheet,
            row: end,
            col: 0,
        };
        for (key, cell) in self.cells.by_rows().range(first..past) {
            if key.col < cols.to {
                return Ok(key.row);
            }
            if key.col >= cols.to + cols.count {
                return Ok(key.row + 1);
            }
            let at = self.place_on(lines, cols, *key);
            if area.holds(at) {
                put(found, at, cell)?;
            }
        }
        Ok(end)
    }

    // The place of a key whose lines are among these lines of rows and of columns of its sheet.
    fn place_on(&self, lines: Run, cols: Run, key: CellKey) -> Place
        requires lines { AreLinesAt (table_of self.now.rows.now key.sheet) lines }
        requires row { (lines.to ≤ key.row) × (key.row < lines.to + lines.count) }
        requires cols { AreLinesAt (table_of self.now.cols.now key.sheet) cols }
        requires col { (cols.to ≤ key.col) × (key.col < cols.to + cols.count) }
        ensures { place_at self.now.rows.now self.now.cols.now key ≡ Some result }
    {
        Place {
            sheet: key.sheet,
            row: (lines.from + (key.row - lines.to)) as u32,
            col: (cols.from + (key.col - cols.to)) as u32,
        }
    }

    // Finds the seen cells of the block that are on these lines of rows, one after the other of those that hold any.
    fn find_line_by_line(
        &self,
        area: Block,
        lines: Run,
        found: &mut Vec<(Place, &'a V)>,
    ) -> Result<(), AllocError>
        requires cells { AreCellsOf area (shown self.now) found.old }
        requires lines { AreLinesAt (table_of self.now.rows.now area.sheet) lines }
        requires sum { lines.to + lines.count < 18446744073709551616 }
        ensures cells { OnOk result (AreCellsOf area (shown self.now) found.new) }
        ensures rows { OnOk result (HasRows area (shown self.now) lines.from (lines.from + lines.count) found.new) }
        ensures still { OnOk result (StillHas found.old found.new) }
    {
        let end = lines.to + lines.count;
        let mut row = lines.to;
        while let Some(line) = self.filled_line(area.sheet, row, end) {
            self.find_in_row(area, line, found)?;
            row = line + 1;
        }
        Ok(())
    }

    // Finds the seen cells of the block that are on one line of rows, by its runs of columns whose lines follow one another.
    fn find_in_row(
        &self,
        area: Block,
        row: u64,
        found: &mut Vec<(Place, &'a V)>,
    ) -> Result<(), AllocError>
        requires { AreCellsOf area (shown self.now) found.old }
        ensures cells { OnOk result (AreCellsOf area (shown self.now) found.new) }
        ensures line { OnOk result (HasLines self.now area row (row + 1) found.new) }
        ensures still { OnOk result (StillHas found.old found.new) }
    {
        let table = self.cols.table(area.sheet);
        let mut col = area.left;
        while col <= area.right {
            let Some(run) = table.run_from(col) else {
                return Ok(());
            };
            let count = run.count.min((area.right - col) as u64 + 1);
            self.find_between(area, row, Run { count, ..run }, found)?;
            col += count as u32;
        }
        Ok(())
    }

    // Finds the seen cells of the block that are on one line of rows and these lines of columns.
    fn find_between(
        &self,
        area: Block,
        row: u64,
        lines: Run,
        found: &mut Vec<(Place, &'a V)>,
    ) -> Result<(), AllocError>
        requires cells { AreCellsOf area (shown self.now) found.old }
        requires lines { AreLinesAt (table_of self.now.cols.now area.sheet) lines }
        requires sum { lines.to + lines.count < 18446744073709551616 }
        ensures cells { OnOk result (AreCellsOf area (shown self.now) found.new) }
        ensures cols { OnOk result (HasCols self.now area row lines.from (lines.from + lines.count) found.new) }
        ensures still { OnOk result (StillHas found.old found.new) }
    {
        let sheet = area.sheet;
        let first = CellKey {
            sheet,
            row,
            col: lines.to,
        };
        let end = CellKey {
            sheet,
            row,
            col: lines.to + lines.count,
        };
        for (key, cell) in self.cells.by_rows().range(first..end) {
            if let Some(at) = self.place(*key) {
                if area.holds(at) {
                    put(found, at, cell)?;
                }
            }
        }
        Ok(())
    }

    // The first of the sheet's lines of rows, from `row` to before `end`, that holds a cell.
    pub(crate) fn filled_line(&self, sheet: u32, row: u64, end: u64) -> Option<u64>
        requires { row ≤ end }
        ensures within { IfSome result (λ line. (row ≤ line) × (line < end)) }
        ensures before { IfSome result (KeepsNone self.now sheet row) }
        ensures none { IfNone result (KeepsNone self.now sheet row end) }
    {
        let first = CellKey { sheet, row, col: 0 };
        let end = CellKey {
            sheet,
            row: end,
            col: 0,
        };
        match self.cells.by_rows().range(first..end).next() {
            Some((key, _cell)) => Some(key.row),
            None => None,
        }
    }
}

// Copies of the cells.
pub(crate) fn copies<V: Duplicate>(
    alloc: Global,
    cells: &[(Place, &V)],
) -> Result<CellList<V>, AllocError>
    ensures { IfOk result (λ list. items_of list ≡ seen_items cells.now) }
{
    let mut list = CellList::new(alloc)?;
    for (at, cell) in cells {
        let copy = cell.duplicate(alloc)?;
        list.push(*at, copy)?;
    }
    Ok(list)
}
