// Equal kept summaries, on sheets whose lines are numbered anew.
ghost use Rattle.std.specs.Prelude.{◌≡◌, ◌<◌, ℕ, IfOk, OnOk};

use crate::kept::KeptSummaries;
use crate::state::State;
use std::alloc::AllocError;

impl KeptSummaries {
    ghost use Rattle.range_table.specs.internal.Copied.{with_kept};
    ghost use Rattle.range_table.specs.internal.Kept.{map_of};
    ghost use Rattle.range_table.specs.internal.Tables.{kept_under};

    // Equal summaries. Costs their number, and that of the slots of their blocks.
    pub(crate) fn copied(&self) -> Result<KeptSummaries, AllocError>
        ensures { IfOk result (λ copy. map_of copy ≡ map_of self.now) }
    {
        let mut copy = KeptSummaries::new(self.alloc)?;
        'numbers: for number in 0..self.table.len() {
            self.copy_one(&mut copy, number)?;
        }
        Ok(copy)
    }

    // Keeps what is kept under a number in the copy too.
    fn copy_one(&self, copy: &mut KeptSummaries, number: usize) -> Result<(), AllocError>
        ensures { OnOk result (map_of copy.new ≡ with_kept (kept_under self.now.table number) (map_of copy.old)) }
    {
        if let State::Kept(summary) = self.table.state(number) {
            if let Some(block) = self.table.block(number) {
                copy.keep(block, summary)?;
            }
        }
        Ok(())
    }

    // Makes all anew, with the same summaries, where operations have left behind more numbers and runs of lines than there
    // are numbers. Where there is no memory it stays as it is.
    pub(crate) fn renew_worn(&mut self)
        ensures { map_of self.new ≡ map_of self.old }
    {
        if self.is_worn() {
            if let Ok(copy) = self.copied() {
                *self = copy;
            }
        }
    }

    // Whether operations have left behind more than there is.
    fn is_worn(&self) -> bool {
        self.left_behind > self.table.len().max(FEW)
    }
}

// So much may always be left behind.
const FEW: usize = 64;
