// Kept summaries of blocks under numbers, by which cells and operations find them.
ghost use Rattle.std.specs.Prelude.{◌≡◌, ℕ, true, Some, length, slice_get, IfSome, IfOk, OnOk, IsSome};
ghost use Rattle.std.specs.List.{list_any};
ghost use Rattle.block_index.specs.Index.{filed_in, slot_count};
ghost use Rattle.cell_addr.specs.Place.{IsBlockInside};
ghost use Rattle.cell_value.specs.Summary.{IsBounded};
ghost use Rattle.needs_order.specs.Needs.{has};
ghost use Rattle.place_lines.specs.Spots.{area_of};
ghost use Rattle.range_table.specs.internal.Files.{AreFound};
ghost use Rattle.range_table.specs.internal.Tables.{AllStand, AreBounded};

use crate::files::Files;
use crate::giving_up::give_up_found;
use crate::state::State;
use crate::table::Table;
use cell_addr::{Block, Place};
use cell_value::Summary;
use std::alloc::{AllocError, Global};

// Kept summaries of blocks.
pub(crate) struct KeptSummaries {
    pub(crate) alloc: Global,
    // The blocks under numbers, with their summaries.
    pub(crate) table: Table,
    // By this they are found.
    pub(crate) files: Files,
    // About how many numbers and runs of lines operations have left behind since all was made.
    pub(crate) left_behind: usize,
    pub ghost stands: { AllStand table },
    pub ghost found: { AreFound table files },
    pub ghost bounded: { AreBounded table },
}

// Written out, so that whoever drops one calls one function.
impl Drop for KeptSummaries {
    fn drop(self) {
        let KeptSummaries {
            alloc: _,
            table: _table,
            files: _files,
            left_behind: _,
        } = self;
    }
}

impl KeptSummaries {
    ghost use Rattle.std.specs.FinMap as map;
    ghost use Rattle.range_table.specs.Table.{without_holders};
    ghost use Rattle.range_table.specs.internal.Kept.{Grows, HasNumber, map_of};

    // Nothing is kept.
    pub(crate) fn new(alloc: Global) -> Result<KeptSummaries, AllocError>
        ensures { IfOk result (λ kept. map_of kept ≡ map.empty) }
    {
        Ok(KeptSummaries {
            alloc,
            table: Table::new(alloc)?,
            files: Files::new(alloc),
            left_behind: 0,
        })
    }

    // The summary that is kept for the block.
    pub(crate) fn get(&self, b: Block) -> Option<Summary>
        ensures kept { result ≡ map.get (map_of self.now) b }
        ensures bounded { IfSome result IsBounded }
    {
        match self.table.number(self.table.lines.area(b)) {
            Some(number) => self.table.state(number).summary(),
            None => None,
        }
    }

    // Keeps the summary for the block, in place of what was kept for it. For want of memory all is kept as it was.
    pub(crate) fn keep(&mut self, b: Block, summary: Summary) -> Result<(), AllocError>
        requires inside { IsBlockInside b }
        requires bounded { IsBounded summary }
        ensures ok { OnOk result (map_of self.new ≡ map.insert (map_of self.old) b summary) }
    {
        let number = self.know(b)?;
        self.put(b, number, summary);
        Ok(())
    }

    // The number by which the block is found, from now on where it wasn't. What is kept stays, whatever the answer.
    pub(crate) fn know(&mut self, b: Block) -> Result<usize, AllocError>
        requires { IsBlockInside b }
        ensures same { map_of self.new ≡ map_of self.old }
        ensures number { IfOk result (HasNumber self.new b) }
    {
        let area = self.table.lines.area(b);
        let number = self.table.know(area)?;
        if !self.table.state(number).is_found() {
            self.files.file(&self.table.lines, b, number)?;
        }
        Ok(number)
    }

    // Keeps the summary for the block by its number. Takes no memory.
    pub(crate) fn put(&mut self, b: Block, number: usize, summary: Summary)
        requires inside { IsBlockInside b }
        requires number { HasNumber self.old b number }
        requires bounded { IsBounded summary }
        ensures { map_of self.new ≡ map.insert (map_of self.old) b summary }
    {
        self.table.set(number, State::Kept(summary));
    }

    // Gives up the summaries whose blocks hold the place.
    pub(crate) fn give_up(&mut self, at: Place)
        ensures { map_of self.new ≡ without_holders at (map_of self.old) }
    {
        give_up_found(&mut self.table, &self.files, at);
    }
}
