// The summary of a block, from that of the block without its last row where it is kept.
ghost use Rattle.std.specs.Prelude.{◌≡◌, ◌+◌, IfOk, IfSome, OnErr, OnOk};
ghost use Rattle.cell_addr.specs.Place.{IsBlockInside};
ghost use Rattle.cell_value.specs.Summary.{IsBounded};
ghost use Rattle.range_table.specs.Cells.{fold, nonempty_in};
ghost use Rattle.range_table.specs.Table.{cells_left, last_row, without_last_row};
ghost use Rattle.range_table.specs.internal.Rows.{Begins};

use crate::cells::ListedCells;
use crate::kept::KeptSummaries;
use crate::merging::{Merged, with_block};
use cell_addr::Block;
use cell_value::Summary;
use std::alloc::AllocError;
use std::sync::ledger::Ledger;
use steps::Steps;

impl KeptSummaries {
    ghost use Rattle.std.specs.FinMap as map;
    ghost use Rattle.range_table.specs.Table.{AreFolds, begun, cells_to_merge};
    ghost use Rattle.range_table.specs.internal.Kept.{map_of};

    // The summary of the block, which is kept from now on. For want of memory
    // all is as it was, and no cell was merged.
    pub(crate) fn summary<C: ListedCells, L: Ledger>(
        &mut self,
        b: Block,
        cells: &C,
        steps: &mut Steps<L>,
    ) -> Result<Merged, AllocError>
        requires inside { IsBlockInside b }
        requires right { AreFolds (C.values cells.now) (map_of self.old) }
        ensures fold { IfOk result (λ merged. merged.summary ≡ fold (C.values cells.now) b) }
        ensures bounded { IfOk result (λ merged. IsBounded merged.summary) }
        ensures merged { IfOk result (λ merged. merged.cells ≡ cells_to_merge (C.values cells.now) (map_of self.old) b) }
        ensures kept { OnOk result (map_of self.new ≡ map.insert (map_of self.old) b (fold (C.values cells.now) b)) }
        ensures steps { OnOk result (steps.new ≡ steps.old + cells_to_merge (C.values cells.now) (map_of self.old) b) }
        ensures err { OnErr result (map_of self.new ≡ map_of self.old) }
        ensures err_steps { OnErr result (steps.new ≡ steps.old) }
    {
        match self.get(b) {
            Some(summary) => Ok(Merged { summary, cells: 0 }),
            None => self.add(b, cells, steps),
        }
    }

    // Adds the summary of a block that has none.
    fn add<C: ListedCells, L: Ledger>(
        &mut self,
        b: Block,
        cells: &C,
        steps: &mut Steps<L>,
    ) -> Result<Merged, AllocError>
        requires inside { IsBlockInside b }
        requires right { AreFolds (C.values cells.now) (map_of self.old) }
        ensures fold { IfOk result (λ merged. merged.summary ≡ fold (C.values cells.now) b) }
        ensures bounded { IfOk result (λ merged. IsBounded merged.summary) }
        ensures merged { IfOk result (λ merged. merged.cells ≡ cells_left (C.values cells.now) b (begun (map_of self.old) b)) }
        ensures kept { OnOk result (map_of self.new ≡ map.insert (map_of self.old) b (fold (C.values cells.now) b)) }
        ensures steps { OnOk result (steps.new ≡ steps.old + cells_left (C.values cells.now) b (begun (map_of self.old) b)) }
        ensures err { OnErr result (map_of self.new ≡ map_of self.old) }
        ensures err_steps { OnErr result (steps.new ≡ steps.old) }
    {
        let begun = self.begun(b);
        let number = self.know(b)?;
        let merged = going_on(begun, b, cells, steps)?;
        self.put(b, number, merged.summary);
        Ok(merged)
    }

    // The summary that is kept for the block without its last row.
    fn begun(&self, b: Block) -> Option<Summary>
        ensures begun { result ≡ begun (map_of self.now) b }
        ensures bounded { IfSome result IsBounded }
    {
        self.get(without_last_row(b)?)
    }
}

// The summary of the block, from that of what stands above its last row where it is given, and else from all cells. For
// want of memory no cell was merged.
fn going_on<C: ListedCells, L: Ledger>(
    begun: Option<Summary>,
    b: Block,
    cells: &C,
    steps: &mut Steps<L>,
) -> Result<Merged, AllocError>
    requires inside { IsBlockInside b }
    requires bounded { IfSome begun IsBounded }
    requires right { IfSome begun (Begins (C.values cells.now) b) }
    ensures fold { IfOk result (λ merged. merged.summary ≡ fold (C.values cells.now) b) }
    ensures bounded { IfOk result (λ merged. IsBounded merged.summary) }
    ensures merged { IfOk result (λ merged. merged.cells ≡ cells_left (C.values cells.now) b begun) }
    ensures steps { OnOk result (steps.new ≡ steps.old + cells_left (C.values cells.now) b begun) }
    ensures err_steps { OnErr result (steps.new ≡ steps.old) }
{
    match begun {
        Some(above) => with_last_row(above, b, cells, steps),
        None => over_all(b, cells, steps),
    }
}

// The summary of the block, from that of what stands above its last row.
fn with_last_row<C: ListedCells, L: Ledger>(
    above: Summary,
    b: Block,
    cells: &C,
    steps: &mut Steps<L>,
) -> Result<Merged, AllocError>
    requires inside { IsBlockInside b }
    requires bounded { IsBounded above }
    requires right { Begins (C.values cells.now) b above }
    ensures fold { IfOk result (λ merged. merged.summary ≡ fold (C.values cells.now) b) }
    ensures bounded { IfOk result (λ merged. IsBounded merged.summary) }
    ensures merged { IfOk result (λ merged. merged.cells ≡ nonempty_in (C.values cells.now) (last_row b)) }
    ensures steps { OnOk result (steps.new ≡ steps.old + nonempty_in (C.values cells.now) (last_row b)) }
    ensures err_steps { OnErr result (steps.new ≡ steps.old) }
{
    let last_row = Block { top: b.bottom, ..b };
    with_block(above, last_row, cells, steps)
}

// The summary of the block, from all of its cells.
fn over_all<C: ListedCells, L: Ledger>(
    b: Block,
    cells: &C,
    steps: &mut Steps<L>,
) -> Result<Merged, AllocError>
    requires { IsBlockInside b }
    ensures fold { IfOk result (λ merged. merged.summary ≡ fold (C.values cells.now) b) }
    ensures bounded { IfOk result (λ merged. IsBounded merged.summary) }
    ensures merged { IfOk result (λ merged. merged.cells ≡ nonempty_in (C.values cells.now) b) }
    ensures steps { OnOk result (steps.new ≡ steps.old + nonempty_in (C.values cells.now) b) }
    ensures err_steps { OnErr result (steps.new ≡ steps.old) }
{
    with_block(Summary::new(), b, cells, steps)
}

// The block without its last row, where it has more than one.
fn without_last_row(b: Block) -> Option<Block>
    ensures { result ≡ without_last_row b }
{
    if b.top < b.bottom {
        Some(Block {
            bottom: b.bottom - 1,
            ..b
        })
    } else {
        None
    }
}
