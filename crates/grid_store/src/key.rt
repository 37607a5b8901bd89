// Where cells are kept.
ghost use Rattle.std.specs.Prelude.{◌≡◌};
ghost use Rattle.grid_store.specs.Keys.{key_at, place_at};

use cell_addr::Place;
use stable_lines::SheetLines;

/// Where a cell is kept: its sheet, and the lines of its row and its column.
#[derive(Clone, Copy, PartialEq, Eq, PartialOrd, Ord, Debug)]
pub struct CellKey {
    pub sheet: u32,
    pub row: u64,
    pub col: u64,
}

impl CellKey {
    ghost use Rattle.grid_store.specs.internal.Turned.{turned};

    // The key with its two lines turned round.
    pub(crate) fn turned(self) -> CellKey
        ensures { result ≡ turned self }
    {
        CellKey {
            sheet: self.sheet,
            row: self.col,
            col: self.row,
        }
    }
}

// The key of the place by these lines of rows and columns; None past the sheet's limits.
pub(crate) fn key_in(rows: &SheetLines, cols: &SheetLines, at: Place) -> Option<CellKey>
    ensures { result ≡ key_at rows.now cols.now at }
{
    let row = rows.table(at.sheet).line(at.row)?;
    let col = cols.table(at.sheet).line(at.col)?;
    Some(CellKey {
        sheet: at.sheet,
        row,
        col,
    })
}

// The place where a key's lines stand among these.
pub(crate) fn place_in(rows: &SheetLines, cols: &SheetLines, key: CellKey) -> Option<Place>
    ensures { result ≡ place_at rows.now cols.now key }
{
    let row = rows.table(key.sheet).position(key.row)?;
    let col = cols.table(key.sheet).position(key.col)?;
    Some(Place {
        sheet: key.sheet,
        row,
        col,
    })
}
