// Kept summaries beside a plain grid.
ghost use Rattle.std.specs.Prelude.{◌≡◌};
ghost use Rattle.shift_core.specs.Sound.{IsSound};
ghost use Rattle.range_cases.specs.Grid.{value_in};
ghost use Rattle.range_table.specs.Ranges.{table_of};
ghost use Rattle.range_table.specs.Table.{AreFolds};

use crate::grid::Grid;
use crate::plain::{plain_count, plain_summary};
use cell_addr::{Block, Place};
use cell_value::{Scalar, Summary};
use range_table::Ranges;
use shift_core::Shift;
use std::alloc::{AllocError, Global};
use std::sync::ledger::Ledger;
use steps::Steps;

// A grid and the summaries that are kept of it, which are told of each change.
#[derive(Drop)]
pub(crate) struct Both {
    grid: Grid,
    ranges: Ranges,
    ghost right: { AreFolds (value_in grid.cells.items) (table_of ranges).kept },
}

impl Both {
    // An empty grid.
    pub(crate) fn new(alloc: Global) -> Result<Both, AllocError> {
        Ok(Both {
            grid: Grid::new(alloc),
            ranges: Ranges::new(alloc)?,
        })
    }

    // Gives a place a value; whether it is on the sheet.
    pub(crate) fn put(&mut self, at: Place, value: Scalar) -> Result<bool, AllocError> {
        if !at.inside() {
            return Ok(false);
        }
        self.grid.put(at, value)?;
        self.ranges.touch(at);
        Ok(true)
    }

    // Moves the cells.
    pub(crate) fn shift(&mut self, s: &Shift) -> Result<(), AllocError>
        requires { IsSound s.now }
    {
        self.ranges.shift(s)?;
        self.grid.shift(s);
        Ok(())
    }

    // The summary of a block by the kept ones, and how many cells were merged for it; `None` where it isn't on the sheet.
    pub(crate) fn summary<L: Ledger>(
        &mut self,
        b: Block,
        steps: &mut Steps<L>,
    ) -> Result<Option<(Summary, u64)>, AllocError> {
        if !b.inside() {
            return Ok(None);
        }
        let before = self.ranges.merged();
        let summary = self.ranges.summary(b, &self.grid, steps)?;
        let merged = self.ranges.merged().saturating_sub(before);
        Ok(Some((summary, merged)))
    }

    // The summary of a block, worked out plainly.
    pub(crate) fn plain_summary(&self, b: Block) -> Summary {
        plain_summary(&self.grid, b)
    }

    // How many cells of a block aren't empty; of no block none.
    pub(crate) fn plain_count(&self, b: Option<Block>) -> u64 {
        match b {
            Some(b) => plain_count(&self.grid, b),
            None => 0,
        }
    }

    // Goes on with a copy of the kept summaries; whether it has merged as many cells.
    pub(crate) fn go_on_with_a_copy(&mut self) -> Result<bool, AllocError> {
        let copy = self.ranges.copied()?;
        let same = copy.merged() == self.ranges.merged();
        self.ranges = copy;
        Ok(same)
    }
}
