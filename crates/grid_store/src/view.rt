// Cells that are seen through lines of rows and columns.
ghost use Rattle.std.specs.Prelude.{◌≡◌};
ghost use Rattle.cell_addr.specs.declared.place.TheConstants.{COLS, ROWS};
ghost use Rattle.grid_store.specs.Keys.{place_at};

use crate::cells::Cells;
use crate::key::{CellKey, place_in};
use cell_addr::Place;
use stable_lines::SheetLines;

// Cells that are seen through lines of rows and columns: those of their grid, or others that drafted changes lead to. Cells whose
// lines stand nowhere aren't seen.
#[derive(Drop)]
pub(crate) struct View<'a, V> {
    pub(crate) cells: &'a Cells<V>,
    pub(crate) rows: &'a SheetLines,
    pub(crate) cols: &'a SheetLines,
    pub ghost rows_limit: { rows.now.plain.limit ≡ ROWS },
    pub ghost cols_limit: { cols.now.plain.limit ≡ COLS },
}

impl<V> View<'_, V> {
    // The place where a key's lines stand.
    pub(crate) fn place(&self, key: CellKey) -> Option<Place>
        ensures { result ≡ place_at self.now.rows.now self.now.cols.now key }
    {
        place_in(self.rows, self.cols, key)
    }
}
