// The cells of a block merged into a summary: those that aren't empty, row by row.
ghost use Rattle.std.specs.Prelude.{◌≡◌, ◌+◌, ◌<◌, ◌≤◌, ◌^◌, ◌++◌, ◌∷◌, [], length, IfOk, List, OnErr, OnOk};
ghost use Rattle.cell_addr.specs.Place.{IsBlockInside, width};
ghost use Rattle.cell_value.specs.Summary.{IsBounded, summary_of};
ghost use Rattle.cell_value.specs.declared.scalar.Scalar.{Scalar};
ghost use Rattle.range_table.specs.Cells.{block_values, cells_in, nonempty_in, row_values, seen_values};
ghost use Rattle.range_table.specs.internal.Rows.{GoesOn};

use crate::cells::ListedCells;
use cell_addr::{Block, Place};
use cell_value::{Scalar, Summary};
use std::alloc::AllocError;
use std::sync::ledger::Ledger;
use steps::Steps;

// A summary, and how many cells were merged for it.
#[derive(Clone, Copy)]
pub(crate) struct Merged {
    pub(crate) summary: Summary,
    pub(crate) cells: u64,
}

// A cell that is listed costs about as much as so many that are read.
const READ_FOR_ONE_LISTED: u64 = 16;

// Goes on with the summary of some values over the cells of a block, with a step for each that isn't empty. Reads them one
// by one, which takes no memory, or lists them where there may be few among many. For want of memory no step was counted.
pub(crate) fn with_block<C: ListedCells, L: Ledger>(
    start: Summary,
    b: Block,
    cells: &C,
    steps: &mut Steps<L>,
) -> Result<Merged, AllocError>
    requires inside { IsBlockInside b }
    requires bounded { IsBounded start }
    requires few { start.count + cells_in b < 2 ^ 64 }
    ensures sums { IfOk result (λ merged. (xs : List Scalar) → start ≡ summary_of xs → merged.summary ≡ summary_of (xs ++ block_values (C.values cells.now) b)) }
    ensures bounded { IfOk result (λ merged. IsBounded merged.summary) }
    ensures cells { IfOk result (λ merged. merged.cells ≡ nonempty_in (C.values cells.now) b) }
    ensures steps { OnOk result (steps.new ≡ steps.old + nonempty_in (C.values cells.now) b) }
    ensures err_steps { OnErr result (steps.new ≡ steps.old) }
{
    let begun = Merged {
        summary: start,
        cells: 0,
    };
    if cells_in(b) / READ_FOR_ONE_LISTED <= cells.filled() {
        Ok(with_cells(begun, b, cells, steps))
    } else {
        let values = cells.listed(b)?;
        Ok(with_values(begun, &values, steps))
    }
}

// Goes on over the cells of a block, read row by row.
fn with_cells<C: ListedCells, L: Ledger>(
    begun: Merged,
    b: Block,
    cells: &C,
    steps: &mut Steps<L>,
) -> Merged
    requires inside { IsBlockInside b }
    requires bounded { IsBounded begun.summary }
    requires few { begun.summary.count + cells_in b < 2 ^ 64 }
    requires room { begun.cells + cells_in b < 2 ^ 64 }
    ensures goes_on { GoesOn begun result (block_values (C.values cells.now) b) }
    ensures bounded { IsBounded result.summary }
    ensures steps { steps.new + begun.cells ≡ steps.old + result.cells }
{
    let mut merged = begun;
    'rows: for row in b.top..b.bottom + 1 {
        merged = with_row(merged, b, row, cells, steps);
    }
    merged
}

// Goes on over the cells of one row of a block.
fn with_row<C: ListedCells, L: Ledger>(
    begun: Merged,
    b: Block,
    row: u32,
    cells: &C,
    steps: &mut Steps<L>,
) -> Merged
    requires inside { IsBlockInside b }
    requires row { row ≤ b.bottom }
    requires bounded { IsBounded begun.summary }
    requires few { begun.summary.count + width b < 2 ^ 64 }
    requires room { begun.cells + width b < 2 ^ 64 }
    ensures goes_on { GoesOn begun result (row_values (C.values cells.now) b row) }
    ensures count { result.summary.count ≤ begun.summary.count + width b }
    ensures cells { result.cells ≤ begun.cells + width b }
    ensures bounded { IsBounded result.summary }
    ensures steps { steps.new + begun.cells ≡ steps.old + result.cells }
{
    let mut merged = begun;
    'cols: for col in b.left..b.right + 1 {
        let at = Place {
            sheet: b.sheet,
            row,
            col,
        };
        merged = with_value(merged, cells.value(at), steps);
    }
    merged
}

// Goes on over listed values.
fn with_values<L: Ledger>(begun: Merged, values: &[&Scalar], steps: &mut Steps<L>) -> Merged
    requires bounded { IsBounded begun.summary }
    requires few { begun.summary.count + length values.now < 2 ^ 64 }
    requires room { begun.cells + length values.now < 2 ^ 64 }
    ensures goes_on { GoesOn begun result (seen_values values.now) }
    ensures bounded { IsBounded result.summary }
    ensures steps { steps.new + begun.cells ≡ steps.old + result.cells }
{
    let mut merged = begun;
    'values: for value in values {
        merged = with_value(merged, value, steps);
    }
    merged
}

// Goes on with one more value, which is one step unless it is empty.
fn with_value<L: Ledger>(begun: Merged, value: &Scalar, steps: &mut Steps<L>) -> Merged
    requires bounded { IsBounded begun.summary }
    requires few { begun.summary.count + 1 < 2 ^ 64 }
    requires room { begun.cells + 1 < 2 ^ 64 }
    ensures goes_on { GoesOn begun result (value.now ∷ []) }
    ensures count { result.summary.count ≤ begun.summary.count + 1 }
    ensures cells { result.cells ≤ begun.cells + 1 }
    ensures bounded { IsBounded result.summary }
    ensures steps { steps.new + begun.cells ≡ steps.old + result.cells }
{
    if value.is_empty() {
        return begun;
    }
    steps.tick();
    Merged {
        summary: begun.summary.join(&Summary::of(value)),
        cells: begun.cells + 1,
    }
}

// How many cells the block has.
fn cells_in(b: Block) -> u64
    requires { IsBlockInside b }
    ensures { result ≡ cells_in b }
{
    b.height() * b.width()
}
