// What one operation changed.
ghost use Rattle.grid_store.specs.Grid.{AreListedInside, items_of};

use cell_addr::Text;
use grid_store::{Cell, CellList};

/// A named expression that an operation added, changed or removed: its scope and the number of its word, and the id of its
/// formula before and after.
#[derive(Clone, Copy, Debug, Drop)]
pub struct NameChange {
    pub scope: Option<u32>,
    pub word: u64,
    pub before: Option<u64>,
    pub after: Option<u64>,
}

/// A sheet that an operation added, renamed or dropped: its number, and its place in the list and its name before and after.
#[derive(Debug, Drop)]
pub struct SheetChange {
    pub id: u32,
    pub before: Option<(usize, Text)>,
    pub after: Option<(usize, Text)>,
}

/// What one operation changed: the positions of the line before and after it, the cells that it replaced or removed, with
/// their places as of the first position, those that it wrote, as of the second, and the names and sheets. Where the
/// positions differ the line's operation at the first one belongs to it, and moved all other cells.
#[derive(Drop)]
pub struct Part {
    pub from: u64,
    pub to: u64,
    pub replaced: CellList<Cell>,
    pub written: CellList<Cell>,
    pub names: Vec<NameChange>,
    pub sheets: Vec<SheetChange>,
    pub ghost replaced_inside: { AreListedInside (items_of replaced) },
    pub ghost written_inside: { AreListedInside (items_of written) },
}
