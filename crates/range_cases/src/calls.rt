// Each call on its own, with what it is to answer.
use crate::both::Both;
use cell_addr::{Block, Place, ROWS, Text};
use cell_value::{FaultKind, Scalar, Summary};
use fix_num::Fixed;
use shift_core::{Shift, sound};
use std::alloc::{AllocError, Global};
use std::sync::ledger::Ledger;
use steps::Steps;

// So many rows of the first column.
fn rows(top: u32, bottom: u32) -> Block {
    Block {
        sheet: 0,
        top,
        left: 0,
        bottom,
        right: 0,
    }
}

// A cell of the first column.
fn cell(row: u32) -> Place {
    Place {
        sheet: 0,
        row,
        col: 0,
    }
}

// A number, a text and a number, one under the other.
fn three_rows(alloc: Global) -> Result<Both, AllocError> {
    let mut both = Both::new(alloc)?;
    put_three_rows(alloc, &mut both)?;
    Ok(both)
}

// Puts them into a grid.
fn put_three_rows(alloc: Global, both: &mut Both) -> Result<(), AllocError> {
    both.put(cell(0), Scalar::from(Fixed::from_int(1)))?;
    both.put(cell(1), Scalar::Text(Text::from_str(alloc, "three")?))?;
    both.put(cell(2), Scalar::from(Fixed::from_int(4)))?;
    Ok(())
}

// What they come to.
fn expected() -> Summary {
    Summary {
        count: 2,
        sum: 5_000_000,
        least: Fixed::from_int(1).ok(),
        greatest: Fixed::from_int(4).ok(),
        fault: None,
    }
}

// A number, a text and a number are summed up with three steps, and kept over a row that is put in under them, and by a copy.
pub(crate) fn a_column_is_summed_up<L: Ledger>(
    alloc: Global,
    steps: &mut Steps<L>,
) -> Result<bool, AllocError> {
    let mut both = three_rows(alloc)?;
    let first = both.summary(rows(0, 2), steps)?;
    Ok(first == Some((expected(), 3)) && is_kept(&mut both, steps)?)
}

// Whether the summary of three rows is kept over a row that is put in under them, and by a copy.
fn is_kept<L: Ledger>(both: &mut Both, steps: &mut Steps<L>) -> Result<bool, AllocError> {
    let shift = Shift::InsertRows {
        sheet: 0,
        at: 8,
        count: 1,
    };
    if !sound(&shift) {
        return Ok(false);
    }
    both.shift(&shift)?;
    let equal = both.go_on_with_a_copy()?;
    let again = both.summary(rows(0, 2), steps)?;
    Ok(equal && again == Some((expected(), 0)))
}

// A block goes on from that without its last row; a place that is touched gives up what holds it, and no more.
pub(crate) fn a_longer_block_goes_on<L: Ledger>(
    alloc: Global,
    steps: &mut Steps<L>,
) -> Result<bool, AllocError> {
    let mut both = three_rows(alloc)?;
    Ok(goes_on(&mut both, steps)? && is_given_up(&mut both, steps)?)
}

// Whether four rows are summed up, of which the last is empty, and then the three that go before.
fn goes_on<L: Ledger>(both: &mut Both, steps: &mut Steps<L>) -> Result<bool, AllocError> {
    let all = both.summary(rows(0, 3), steps)?;
    let shorter = both.summary(rows(0, 2), steps)?;
    Ok(all == Some((expected(), 3)) && shorter == Some((expected(), 3)))
}

// Whether a fault in the fourth row gives up the summary that holds it alone.
fn is_given_up<L: Ledger>(both: &mut Both, steps: &mut Steps<L>) -> Result<bool, AllocError> {
    both.put(cell(3), Scalar::Fault(FaultKind::Na))?;
    let kept = both.summary(rows(0, 2), steps)?;
    let again = both.summary(rows(0, 3), steps)?;
    let with_fault = Summary {
        fault: Some(FaultKind::Na),
        ..expected()
    };
    Ok(kept == Some((expected(), 0)) && again == Some((with_fault, 1)))
}

// An operation on rows, or on cells of the first column.
#[derive(Clone, Copy)]
enum Change {
    // Two rows put in.
    Insert { at: u32 },
    // One row taken out.
    Delete { at: u32 },
    // One row taken elsewhere.
    Move { from: u32, before: u32 },
    // Cells moved.
    Carry { top: u32, bottom: u32, to: u32 },
}

impl Change {
    // The operation.
    fn shift(self) -> Shift {
        match self {
            Change::Insert { at } => Shift::InsertRows {
                sheet: 0,
                at,
                count: 2,
            },
            Change::Delete { at } => Shift::DeleteRows {
                sheet: 0,
                at,
                count: 1,
            },
            Change::Move { from, before } => Shift::MoveRows {
                sheet: 0,
                from,
                count: 1,
                before,
            },
            Change::Carry { top, bottom, to } => Shift::MoveBlock {
                source: rows(top, bottom),
                to: cell(to),
            },
        }
    }
}

// An operation, the first and the last row of a block that is summed up before it, those of the block that it should be
// after, and how many cells are to be merged for that: no empty ones.
type Case = (Change, (u32, u32), (u32, u32), u64);

// The last row of a sheet.
const LAST: u32 = ROWS - 1;

// The first rows, and the last ones, in which each cell holds a truth value.
const FILLED: [(u32, u32); 2] = [(0, 12), (LAST - 4, LAST + 1)];

// What operations do to summaries of three rows.
const CASES: [Case; 11] = [
    // Put in above, between and under.
    (Change::Insert { at: 0 }, (2, 4), (4, 6), 0),
    (Change::Insert { at: 3 }, (2, 4), (2, 6), 3),
    (Change::Insert { at: 5 }, (2, 4), (2, 4), 0),
    // Cut at the end of the sheet, and not.
    (Change::Insert { at: 0 }, (LAST - 2, LAST), (LAST, LAST), 1),
    (
        Change::Insert { at: 0 },
        (LAST - 4, LAST - 2),
        (LAST - 2, LAST),
        0,
    ),
    // Taken out above and within.
    (Change::Delete { at: 0 }, (2, 4), (1, 3), 0),
    (Change::Delete { at: 3 }, (2, 4), (2, 3), 2),
    // A row within taken elsewhere within.
    (Change::Move { from: 2, before: 4 }, (2, 4), (2, 4), 3),
    // Moved as cells: whole, in part, and moved over.
    (
        Change::Carry {
            top: 0,
            bottom: 5,
            to: 7,
        },
        (2, 4),
        (9, 11),
        0,
    ),
    (
        Change::Carry {
            top: 0,
            bottom: 3,
            to: 7,
        },
        (2, 4),
        (2, 4),
        1,
    ),
    (
        Change::Carry {
            top: 10,
            bottom: 11,
            to: 4,
        },
        (2, 4),
        (2, 4),
        3,
    ),
];

// Operations move what is kept, or give it up.
pub(crate) fn operations_move_or_give_up<L: Ledger>(
    alloc: Global,
    steps: &mut Steps<L>,
) -> Result<bool, AllocError> {
    let mut all = true;
    'cases: for case in &CASES {
        all = holds(alloc, case, steps)? && all;
    }
    Ok(all)
}

// Whether so many cells are merged for the block after the operation.
fn holds<L: Ledger>(alloc: Global, case: &Case, steps: &mut Steps<L>) -> Result<bool, AllocError> {
    let mut both = Both::new(alloc)?;
    fill(&mut both)?;
    merges(&mut both, case, steps)
}

// Fills the first rows and the last ones.
fn fill(both: &mut Both) -> Result<(), AllocError> {
    'parts: for &(first, end) in &FILLED {
        'rows: for row in first..end {
            both.put(cell(row), Scalar::Truth(true))?;
        }
    }
    Ok(())
}

// Whether so many cells of such a grid are merged.
fn merges<L: Ledger>(
    both: &mut Both,
    case: &Case,
    steps: &mut Steps<L>,
) -> Result<bool, AllocError> {
    let &(change, (top, bottom), (first, last), merged) = case;
    let shift = change.shift();
    if !sound(&shift) {
        return Ok(false);
    }
    both.summary(rows(top, bottom), steps)?;
    both.shift(&shift)?;
    let after = both.summary(rows(first, last), steps)?;
    Ok(after == Some((Summary::new(), merged)))
}
