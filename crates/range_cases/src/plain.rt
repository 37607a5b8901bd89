// What summaries are and cost, worked out plainly: every cell is looked at, one by one.
ghost use Rattle.shift_core.specs.Sound.{IsSound};

use crate::grid::Grid;
use cell_addr::{Block, Place};
use cell_value::{Scalar, Summary};
use fix_num::Fixed;
use range_table::ListedCells;
use shift_core::{Shift, moved_place};
use std::alloc::{AllocError, Global};

// The summary of a block's cells, of those on the sheet.
pub(crate) fn plain_summary(grid: &Grid, b: Block) -> Summary {
    let mut summary = Summary::new();
    'rows: for row in b.top..b.bottom.saturating_add(1) {
        'cols: for col in b.left..b.right.saturating_add(1) {
            let at = place(b, row, col);
            if at.inside() {
                count_value(&mut summary, grid.value(at));
            }
        }
    }
    summary
}

// How many cells of a block aren't empty.
pub(crate) fn plain_count(grid: &Grid, b: Block) -> u64 {
    let mut count = 0_u64;
    'rows: for row in b.top..b.bottom.saturating_add(1) {
        'cols: for col in b.left..b.right.saturating_add(1) {
            let at = place(b, row, col);
            if at.inside() && !grid.value(at).is_empty() {
                count = count.saturating_add(1);
            }
        }
    }
    count
}

// Counts one value more.
fn count_value(summary: &mut Summary, value: &Scalar) {
    match value {
        Scalar::Number(number) => count(summary, *number),
        Scalar::Fault(fault) => summary.fault = summary.fault.or(Some(*fault)),
        _ => {}
    }
}

// Counts one number more.
fn count(summary: &mut Summary, number: Fixed) {
    summary.count = summary.count.saturating_add(1);
    summary.sum = summary.sum.saturating_add(i128::from(number.millionths()));
    if summary.least.is_none_or(|least| number < least) {
        summary.least = Some(number);
    }
    if summary.greatest.is_none_or(|greatest| greatest < number) {
        summary.greatest = Some(number);
    }
}

// The blocks whose summaries are to be kept, as a list.
#[derive(Drop)]
pub(crate) struct Expected {
    alloc: Global,
    blocks: Vec<Block>,
}

impl Expected {
    // None.
    pub(crate) fn new(alloc: Global) -> Expected {
        Expected {
            alloc,
            blocks: Vec::new(alloc),
        }
    }

    // One of the blocks, by any number.
    pub(crate) fn any(&self, number: u32) -> Option<Block> {
        let count = self.blocks.len();
        if count == 0 {
            return None;
        }
        self.blocks.get(number as usize % count).copied()
    }

    // Without the blocks that hold the place.
    pub(crate) fn touch(&mut self, at: Place) {
        self.blocks.retain(|block| !block.holds(at));
    }

    // Where the blocks are after an operation, of those that just move.
    pub(crate) fn shift(&mut self, s: &Shift) -> Result<(), AllocError>
        requires { IsSound s.now }
    {
        let mut moved = Vec::new(self.alloc);
        'blocks: for block in &self.blocks {
            if let Some(after) = moved_as_it_is(s, *block) {
                moved.push(after)?;
            }
        }
        self.blocks = moved;
        Ok(())
    }

    // The block whose cells are to be merged for a block's summary, which is kept from then on: none where it was kept.
    pub(crate) fn to_merge(&mut self, b: Block) -> Result<Option<Block>, AllocError> {
        if self.blocks.contains(&b) {
            return Ok(None);
        }
        let shorter = Block {
            bottom: b.bottom.saturating_sub(1),
            ..b
        };
        let goes_on = b.top < b.bottom && self.blocks.contains(&shorter);
        self.blocks.push(b)?;
        Ok(Some(Block {
            top: if goes_on { b.bottom } else { b.top },
            ..b
        }))
    }
}

// Where the block is after the operation, if each of its cells moves as its first one does. A move of rows or columns
// gives up all blocks that have a cell that it moves.
fn moved_as_it_is(s: &Shift, b: Block) -> Option<Block>
    requires { IsSound s.now }
{
    let first = place(b, b.top, b.left);
    let after = moved_place(s, first)?;
    if moves_lines(s) && after != first {
        return None;
    }
    let moved = Block {
        sheet: after.sheet,
        top: after.row,
        left: after.col,
        bottom: after.row.wrapping_add(b.bottom.wrapping_sub(b.top)),
        right: after.col.wrapping_add(b.right.wrapping_sub(b.left)),
    };
    if moves_all(s, b, moved) {
        Some(moved)
    } else {
        None
    }
}

// How far from the ends of a block its lines are looked at one by one. Operations are drawn near a corner of the sheet, so
// the lines between move as their neighbours.
const NEAR: u32 = 60;

// Whether each cell of the block moves to the same offset in the other.
fn moves_all(s: &Shift, b: Block, moved: Block) -> bool
    requires { IsSound s.now }
{
    let first_end = b.bottom.min(b.top.saturating_add(NEAR));
    let last_start = b.bottom.saturating_sub(NEAR).max(b.top);
    'first: for row in b.top..first_end.saturating_add(1) {
        if !moves_row(s, b, moved, row) {
            return false;
        }
    }
    'last: for row in last_start..b.bottom.saturating_add(1) {
        if !moves_row(s, b, moved, row) {
            return false;
        }
    }
    true
}

// Whether each cell of a row of the block moves to the same offset in the other.
fn moves_row(s: &Shift, b: Block, moved: Block, row: u32) -> bool
    requires { IsSound s.now }
{
    'cols: for col in b.left..b.right.saturating_add(1) {
        let to_row = moved.top.wrapping_add(row.wrapping_sub(b.top));
        let to_col = moved.left.wrapping_add(col.wrapping_sub(b.left));
        if moved_place(s, place(b, row, col)) != Some(place(moved, to_row, to_col)) {
            return false;
        }
    }
    true
}

// Whether the operation moves rows or columns.
fn moves_lines(s: &Shift) -> bool {
    matches!(s, Shift::MoveRows { .. } | Shift::MoveCols { .. })
}

// A place of the block's sheet.
fn place(b: Block, row: u32, col: u32) -> Place {
    Place {
        sheet: b.sheet,
        row,
        col,
    }
}
