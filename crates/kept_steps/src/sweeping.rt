// Formulas that neither the workbook nor a step lists any more, which are dropped now and then.
ghost use Rattle.std.specs.Prelude.{◌≡◌, ℕ, true, None, IfOk, if◌then◌else◌, nat_eq};
ghost use Rattle.std.specs.HashSet.{contains};
ghost use Rattle.lazy_store.specs.Store.{kept_in};
ghost use Rattle.kept_book.specs.Kept.{frame_of};

use crate::listing::{add_done, add_open, add_present, add_undone};
use crate::session::Session;
use indexmap::IndexSet;
use kept_book::Book;
use std::alloc::AllocError;

/// At least so many formulas come between two sweeps.
pub const LEAST_GROWTH: u64 = 1_024;

// The id from which on the next sweep is due, where this is the next one and so many formulas are left: as many come in between.
pub(crate) fn next_sweep(next_id: u64, left: u64) -> u64 {
    next_id.saturating_add(left.max(LEAST_GROWTH))
}

impl Session {
    ghost use Rattle.kept_steps.specs.InUse.{IsInUse};
    ghost use Rattle.kept_steps.specs.Kept.{KeepsInUse};
    ghost use Rattle.kept_steps.specs.Session.{state_of};

    // Sweeps, where since the last time as many formulas came as were left then.
    pub(crate) fn sweep_where_due(&mut self) -> Result<(), AllocError>
        ensures state { state_of self.new ≡ state_of self.old }
        ensures line { self.new.book.lazy.line ≡ self.old.book.lazy.line }
        ensures kept { KeepsInUse self.old self.new.book.lazy }
        ensures names { self.new.book.names ≡ self.old.book.names }
        ensures next { self.new.book.next_id ≡ self.old.book.next_id }
    {
        if self.book.next_id < self.sweep_at {
            return Ok(());
        }
        self.sweep()
    }

    // Drops the formulas that neither the workbook nor a step lists. Costs their number, the filled cells, and what the steps
    // list.
    fn sweep(&mut self) -> Result<(), AllocError>
        ensures state { state_of self.new ≡ state_of self.old }
        ensures line { self.new.book.lazy.line ≡ self.old.book.lazy.line }
        ensures kept { KeepsInUse self.old self.new.book.lazy }
        ensures names { self.new.book.names ≡ self.old.book.names }
        ensures next { self.new.book.next_id ≡ self.old.book.next_id }
    {
        let ids = self.listed()?;
        keep_only(&mut self.book, &ids);
        self.sweep_at = next_sweep(self.book.next_id, ids.len() as u64);
        Ok(())
    }

    // The ids of the formulas that the workbook has, and of those that the steps list.
    pub(crate) fn listed(&self) -> Result<IndexSet<u64>, AllocError>
        ensures { IfOk result (λ ids. (id : ℕ) → IsInUse self.now id → contains nat_eq ids id ≡ true) }
    {
        let mut ids = IndexSet::new(self.book.alloc);
        add_present(&mut ids, &self.book)?;
        add_done(&mut ids, &self.steps)?;
        add_undone(&mut ids, self.steps.undone())?;
        add_open(&mut ids, &self.batch)?;
        Ok(ids)
    }
}

// Drops the formulas whose ids aren't among these.
pub(crate) fn keep_only(book: &mut Book, ids: &IndexSet<u64>)
    ensures kept { (id : ℕ) → kept_in book.new.lazy id ≡ (if contains nat_eq ids.now id then kept_in book.old.lazy id else None) }
    ensures line { book.new.lazy.line ≡ book.old.lazy.line }
    ensures frame { frame_of book.new ≡ frame_of book.old }
    ensures names { book.new.names ≡ book.old.names }
    ensures next { book.new.next_id ≡ book.old.next_id }
{
    book.lazy.keep_only(ids);
}
