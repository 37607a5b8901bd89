// The numbers of lines that follow one another in a block.
ghost use Rattle.std.specs.Prelude.{◌≡◌, ◌<◌, ◌≤◌, ◌+◌, ◌-◌, ℕ, IfOk};
ghost use Rattle.place_lines.specs.Spots.{AreNumbersOf, number_of, positions, table_along};

use crate::lines::PlaceLines;
use crate::past::PAST;
use cell_addr::{Axis, Span};
use stable_lines::LineTable;
use std::alloc::{AllocError, Global};
use std::ops::Range;

impl PlaceLines {
    /// The numbers of the lines of a sheet from the first position to the last along an axis, as ranges of numbers. A
    /// range is a run of lines that follow one another, so there are few where the sheet was edited in few places; past
    /// the sheet's end there is one. There is none where the last position is before the first. Costs
    /// a look-up for each range, as [`PlaceLines::spot`] does. Errs for want of memory.
    pub fn runs(
        &self,
        alloc: Global,
        axis: Axis,
        sheet: u32,
        span: Span,
    ) -> Result<Vec<Range<u64>>, AllocError>
        ensures { IfOk result (λ runs. AreNumbersOf (table_along axis self.now sheet) span runs.items) }
    {
        let table = self.table(axis, sheet);
        let end = span.last as u64 + 1;
        let mut at = span.first as u64;
        let mut runs = Vec::with_capacity(alloc, 1)?;
        'walk: while at < end {
            let run = run_from(table, at as u32, end);
            at += run.end - run.start;
            runs.push(run)?;
        }
        Ok(runs)
    }
}

// The numbers of lines that follow one another from the position on, as far as they do so before the end.
fn run_from(table: &LineTable, position: u32, end: u64) -> Range<u64>
    requires before { position < end }
    requires narrow { end ≤ positions }
    ensures some { result.start < result.end }
    ensures within { position + (result.end - result.start) ≤ end }
    ensures numbers { (i : ℕ) → i < result.end - result.start → number_of table.now (position + i) ≡ result.start + i }
{
    let first = position as u64;
    match table.run_from(position) {
        Some(run) => run.to..run.to + run.count.min(end - first),
        None => PAST + first..PAST + end,
    }
}
