// Copies of a grid.
ghost use Rattle.std.specs.Prelude.{◌≡◌, IfOk, OnOk};
ghost use Rattle.std.specs.BTreeMap.{insert_entry};
ghost use Rattle.grid_store.specs.Keys.{key_cmp};
ghost use Rattle.grid_store.specs.Grid.{cells_of};

use crate::duplicate::Duplicate;
use crate::grid::Grid;
use crate::key::CellKey;
use std::alloc::{AllocError, Global};
use std::collections::BTreeMap;

impl<V: Duplicate> Grid<V> {
    /// An equal grid. Costs the number of filled cells.
    pub fn copied(&self) -> Result<Grid<V>, AllocError>
        ensures { IfOk result (λ copy. cells_of copy ≡ cells_of self.now) }
    {
        Ok(Grid {
            alloc: self.alloc,
            cells: self.cells.copied(self.alloc)?,
            rows: self.rows.copied()?,
            cols: self.cols.copied()?,
        })
    }
}

// Copies of the cells under the same keys.
pub(crate) fn copied_cells<V: Duplicate>(
    alloc: Global,
    cells: &BTreeMap<CellKey, V>,
) -> Result<BTreeMap<CellKey, V>, AllocError>
    ensures { IfOk result (λ copy. copy.entries ≡ cells.now.entries) }
{
    let mut copy = BTreeMap::new(alloc);
    for (key, cell) in cells {
        let cell = cell.duplicate(alloc)?;
        keep(&mut copy, *key, cell)?;
    }
    Ok(copy)
}

// Keeps a cell under a key.
fn keep<V: Drop>(cells: &mut BTreeMap<CellKey, V>, key: CellKey, cell: V) -> Result<(), AllocError>
    ensures { OnOk result (cells.new.entries ≡ insert_entry key_cmp cells.old.entries key cell) }
{
    cells.insert(key, cell)?;
    Ok(())
}
