// Kept summaries of blocks, as callers see them.
use crate::cells::ListedCells;
use crate::kept::KeptSummaries;
use cell_addr::{Block, Place};
use cell_value::Summary;
use shift_core::Shift;
use std::alloc::{AllocError, Global};
use std::sync::ledger::Ledger;
use steps::Steps;

/// Kept summaries of blocks, and the number of cells that were merged for them.
///
/// It stands for a finite map from the kept blocks to their summaries, each as the cells were when it was kept, and for
/// that number. Who changes a cell's value gives up, by [`Ranges::touch`], the summaries of the blocks that hold it, and who
/// moves cells by a structural operation takes the summaries along by [`Ranges::shift`]; then each kept one is right.
#[derive(Drop)]
pub struct Ranges {
    alloc: Global,
    // None as long as nothing was kept.
    kept: Option<Box<KeptSummaries>>,
    merged: u64,
}

impl Ranges {
    ghost use Rattle.std.specs.Prelude.{◌≡◌, ◌+◌, IfOk, OnOk, OnErr, IsOk, IsSome};
    ghost use Rattle.std.specs.FinMap as map;
    ghost use Rattle.cell_addr.specs.Place.{IsBlockInside};
    ghost use Rattle.cell_addr.specs.declared.place.Place.{Place};
    ghost use Rattle.cell_value.specs.Summary.{IsBounded};
    ghost use Rattle.cell_value.specs.declared.scalar.Scalar.{Scalar};
    ghost use Rattle.shift_core.specs.Sound.{IsSound};
    ghost use Rattle.range_table.specs.Cells.{fold};
    ghost use Rattle.range_table.specs.Ranges.{table_of};
    ghost use Rattle.range_table.specs.Shifted.{AreMoved, TakesValues};
    ghost use Rattle.range_table.specs.Table.{AreFolds, cells_to_merge, touched, with_summary};

    /// No summary is kept, and no cell was merged yet. Takes no memory.
    pub fn new(alloc: Global) -> Result<Ranges, AllocError>
        ensures nothing { IfOk result (λ ranges. table_of ranges ≡ record { kept = map.empty; merged = 0 }) }
        ensures right { IfOk result (λ ranges. (values : Place → Scalar) → AreFolds values (table_of ranges).kept) }
        ensures ok { IsOk result }
    {
        Ok(Ranges {
            alloc,
            kept: None,
            merged: 0,
        })
    }

    /// How many cells were merged so far, of which none was empty; the count stays at the greatest number of 64 bits.
    pub fn merged(&self) -> u64
        ensures { result ≡ (table_of self.now).merged }
    {
        self.merged
    }

    /// Gives up each kept summary whose block holds the place, and no other. Costs a look-up for each size of slots in use,
    /// and the number of the blocks, of those kept at some time, that hold the place. Where there is no memory for the list
    /// of these slots it costs the number of all blocks that were kept at some time.
    pub fn touch(&mut self, at: Place)
        ensures { table_of self.new ≡ touched at (table_of self.old) }
    {
        match &mut self.kept {
            Some(kept) => kept.give_up(at),
            None => (),
        }
    }

    /// Gives up all kept summaries. The count of merged cells stays. Takes no memory, and costs their number.
    pub fn clear(&mut self)
        ensures nothing { table_of self.new ≡ record { kept = map.empty; merged = (table_of self.old).merged } }
        ensures right { (values : Place → Scalar) → AreFolds values (table_of self.new).kept }
    {
        self.kept = None;
    }

    /// Takes the kept summaries along with a structural operation: each moves with its block. Given up are those of a block
    /// that the operation bends, cuts at the sheet's end, or takes some but not all cells out of or puts cells over. So a
    /// block that keeps its summary has the same cells after the operation, and where each cell takes its value along, a
    /// kept summary that was right is right. Where there is no memory, or where the numbers of lines are used up, after more
    /// edits than fit a lifetime, all is as it was.
    ///
    /// Costs what the edit of the tables of lines does, and a count for each edited sheet; a search for each run of the lines
    /// that the operation loses or displaces; and what it finds: the blocks that it bends, cuts, tears or takes along, of those
    /// kept at some time, and for each that it takes along the number of its slots. What it only carries along isn't looked at.
    /// Now and then, where operations may have left behind more than is kept, all is made anew, which costs what
    /// [`Ranges::copied`] does.
    pub fn shift(&mut self, s: &Shift) -> Result<(), AllocError>
        requires { IsSound s.now }
        ensures moved { OnOk result (AreMoved s.now (table_of self.old).kept (table_of self.new).kept) }
        ensures right { OnOk result ((before after : Place → Scalar) → TakesValues s.now before after → AreFolds before (table_of self.old).kept → AreFolds after (table_of self.new).kept) }
        ensures merged { (table_of self.new).merged ≡ (table_of self.old).merged }
        ensures err { OnErr result (table_of self.new ≡ table_of self.old) }
    {
        match &mut self.kept {
            Some(kept) => kept.shift_and_renew(s),
            None => Ok(()),
        }
    }

    /// What the numbers of the block's cells come to, where each kept summary is that of its block. The summary is kept
    /// from now on, and those that were kept stay. A step is counted for each cell that is merged: none where the block's
    /// summary is kept, those of its last row where that of the block without it is, and else all, but none that is empty.
    /// `merged` rises by as much. For want of memory all is as it was, and no step was counted.
    ///
    /// Costs a reading of each cell that is to be merged or is empty, or, of blocks that are large beside the number of all
    /// filled cells ([`ListedCells::filled`]), what the list of those that aren't empty does ([`ListedCells::listed`]).
    pub fn summary<C: ListedCells, L: Ledger>(
        &mut self,
        b: Block,
        cells: &C,
        steps: &mut Steps<L>,
    ) -> Result<Summary, AllocError>
        requires inside { IsBlockInside b }
        requires right { AreFolds (C.values cells.now) (table_of self.old).kept }
        ensures fold { IfOk result (λ s. s ≡ fold (C.values cells.now) b) }
        ensures bounded { IfOk result IsBounded }
        ensures kept { OnOk result (table_of self.new ≡ with_summary (C.values cells.now) b (table_of self.old)) }
        ensures right { OnOk result (AreFolds (C.values cells.now) (table_of self.new).kept) }
        ensures steps { OnOk result (steps.new ≡ steps.old + cells_to_merge (C.values cells.now) (table_of self.old).kept b) }
        ensures err { OnErr result (table_of self.new ≡ table_of self.old) }
        ensures err_steps { OnErr result (steps.new ≡ steps.old) }
    {
        self.begin()?;
        match &mut self.kept {
            Some(kept) => {
                let merged = kept.summary(b, cells, steps)?;
                self.merged = self.merged.saturating_add(merged.cells);
                Ok(merged.summary)
            }
            None => unreachable!(),
        }
    }

    // Makes room for the first summary.
    fn begin(&mut self) -> Result<(), AllocError>
        ensures same { table_of self.new ≡ table_of self.old }
        ensures some { OnOk result (IsSome self.new.kept) }
    {
        if self.kept.is_none() {
            self.kept = Some(Box::new(self.alloc, KeptSummaries::new(self.alloc)?)?);
        }
        Ok(())
    }

    /// Equal kept summaries, and the same count of merged cells. Costs the number of the summaries, and that of the slots of
    /// their blocks.
    pub fn copied(&self) -> Result<Ranges, AllocError>
        ensures { IfOk result (λ copy. table_of copy ≡ table_of self.now) }
    {
        let kept = match &self.kept {
            Some(kept) => Some(Box::new(self.alloc, kept.copied()?)?),
            None => None,
        };
        Ok(Ranges {
            alloc: self.alloc,
            kept,
            merged: self.merged,
        })
    }
}
