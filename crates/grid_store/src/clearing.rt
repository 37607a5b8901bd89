// Cells that are emptied together.
ghost use Rattle.std.specs.Prelude.{◌≡◌, IfOk, OnOk, OnErr};
ghost use Rattle.std.specs.FinMap as map;
ghost use Rattle.grid_store.specs.Grid.{KeepsLines, cells_of, items_of, outside, within};
ghost use Rattle.grid_store.specs.internal.Lists.{without};

use crate::duplicate::Duplicate;
use crate::grid::Grid;
use crate::list::CellList;
use cell_addr::{Block, Place};
use std::alloc::AllocError;

impl<V: Duplicate> Grid<V> {
    /// Empties the block, and answers what was filled in it, row by row. Costs about what `listed` does. For want of memory the
    /// grid is as it was.
    pub fn clear(&mut self, area: Block) -> Result<CellList<V>, AllocError>
        ensures removed { IfOk result (λ list. items_of list ≡ map.entries (within area (cells_of self.old))) }
        ensures cleared { OnOk result (cells_of self.new ≡ outside area (cells_of self.old)) }
        ensures err { OnErr result (cells_of self.new ≡ cells_of self.old) }
        ensures lines { KeepsLines self.old self.new }
    {
        let list = self.listed(area)?;
        self.empty(list.items());
        Ok(list)
    }

    // Empties the places of the list.
    fn empty(&mut self, list: &[(Place, V)])
        ensures cells { cells_of self.new ≡ without list.now (cells_of self.old) }
        ensures lines { KeepsLines self.old self.new }
    {
        for (at, _) in list {
            self.take(*at);
        }
    }
}
