// The operations of a run, listed by sheets.
ghost use Rattle.std.specs.Prelude.{◌≡◌, ◌≤◌, IfOk, length};
ghost use Rattle.sheet_shifts.specs.Listed.{AreListed};

use crate::left::Left;
use crate::lists::{Lists, on_sheet};
use shift_core::Shift;
use std::alloc::{AllocError, Global};

/// A run of operations, and for each sheet those that meet it.
#[derive(Drop)]
pub struct SheetShifts {
    pub(crate) run: Vec<Shift>,
    lists: Lists,
    // Each sheet's lists have the operations that meet it, in order.
    pub ghost listed: { AreListed run.items lists },
}

impl SheetShifts {
    ghost use Rattle.sheet_shifts.specs.internal.Left.{IsLeft};

    /// The lists of the run. Costs about its operations.
    pub fn of(alloc: Global, run: Vec<Shift>) -> Result<SheetShifts, AllocError>
        ensures { IfOk result (λ l. l.run.items ≡ run.items) }
    {
        let mut lists = Lists::new(alloc);
        'operations: for index in 0..run.len() {
            lists.add(alloc, index, run[index])?;
        }
        Ok(SheetShifts { run, lists })
    }

    /// The operations, in order.
    pub fn run(&self) -> &[Shift]
        ensures { result.now ≡ self.now.run.items }
    {
        &self.run
    }

    // The sheet's lists from the index on.
    pub(crate) fn left(&self, sheet: u32, from: usize) -> Left<'_>
        requires { from ≤ length self.now.run.items }
        ensures { IsLeft self.now.run.items sheet from result }
    {
        Left {
            rows: on_sheet(&self.lists.rows, sheet, from),
            cols: on_sheet(&self.lists.cols, sheet, from),
            others: on_sheet(&self.lists.others, sheet, from),
        }
    }
}
