// Runs of lines cut into segments, and blocks into slots.
ghost use Rattle.std.specs.Prelude.{◌≡◌, ◌*◌, ◌-◌, ◌<◌, ◌≤◌, ◌^◌, ◌%◌, ◌++◌, ℕ, map, length, IfOk, OnOk};
ghost use Rattle.block_slots.specs.Segments.{segments_with, in_lines, one_if};
ghost use Rattle.std.specs.List.{list_any};
ghost use Rattle.block_slots.specs.Slots.{has_cell, slots_with, in_block};
ghost use Rattle.block_slots.specs.internal.Cuts.{Takes, slot_of};

use crate::segment::Segment;
use crate::slot::Slot;
use std::alloc::{AllocError, Global};
use std::ops::Range;

/// The segments into which the lines are cut: each of the lines is in one of them, and no other line is in
/// any. There are at most two of each length, and none is longer than the lines. No lines have no segments.
/// Costs the number of segments. Errs for want of memory.
pub fn segments(alloc: Global, lines: Range<u64>) -> Result<Vec<Segment>, AllocError>
    ensures exact { IfOk result (λ found. (line : ℕ) → segments_with found.items line ≡ one_if (in_lines lines line)) }
    ensures few { IfOk result (λ found. (k : ℕ) → lines.end - lines.start < 2 ^ k → length found.items ≤ 2 * k) }
{
    let mut found = Vec::new(alloc);
    let mut rest = lines;
    let mut level = 0;
    'cutting: while rest.start < rest.end {
        let later = take_first(&mut found, level, rest)?;
        let inner = take_last(&mut found, level, later)?;
        rest = inner.start / 2..inner.end / 2;
        level += 1;
    }
    Ok(found)
}

// Takes the first index for a segment of its level, unless a longer segment begins there.
fn take_first(
    found: &mut Vec<Segment>,
    level: u32,
    rest: Range<u64>,
) -> Result<Range<u64>, AllocError>
    requires { rest.start < rest.end }
    ensures taken { IfOk result (λ left. Takes level rest found.old.items found.new.items left) }
    ensures even { IfOk result (λ left. left.start % 2 ≡ 0) }
{
    let is_even = rest.start % 2 == 0;
    if is_even {
        return Ok(rest);
    }
    found.push(Segment {
        level,
        index: rest.start,
    })?;
    Ok(rest.start + 1..rest.end)
}

// Takes the last index for a segment of its level, unless a longer segment ends there.
fn take_last(
    found: &mut Vec<Segment>,
    level: u32,
    rest: Range<u64>,
) -> Result<Range<u64>, AllocError>
    requires order { rest.start ≤ rest.end }
    requires even { rest.start % 2 ≡ 0 }
    ensures taken { IfOk result (λ left. Takes level rest found.old.items found.new.items left) }
    ensures even { IfOk result (λ left. left.end % 2 ≡ 0) }
    ensures start { IfOk result (λ left. left.start ≡ rest.start) }
{
    let is_even = rest.end % 2 == 0;
    if is_even {
        return Ok(rest);
    }
    let last = rest.end - 1;
    found.push(Segment { level, index: last })?;
    Ok(rest.start..last)
}

/// The slots into which a block of rows and columns is cut: each cell of the block is in one of them, and no
/// other cell is in any. There are at most four of each size. A block without cells has no slots. Costs the
/// number of slots. Errs for want of memory.
#[tactic(auto, using(crate::proofs::Crossing::crossed_more))]
pub fn slots(alloc: Global, rows: Range<u64>, cols: Range<u64>) -> Result<Vec<Slot>, AllocError>
    ensures exact { IfOk result (λ found. (row col : ℕ) → slots_with found.items row col ≡ one_if (in_block rows cols row col)) }
    ensures any { IfOk result (λ found. (row col : ℕ) → list_any (λ s. has_cell s row col) found.items ≡ in_block rows cols row col) }
    ensures few { IfOk result (λ found. (j k : ℕ) → rows.end - rows.start < 2 ^ j → cols.end - cols.start < 2 ^ k → length found.items ≤ 2 * j * (2 * k)) }
{
    let row_segments = segments(alloc, rows)?;
    let col_segments = segments(alloc, cols)?;
    let mut found = Vec::new(alloc);
    'rows: for segment in &row_segments {
        add_each(&mut found, *segment, &col_segments)?;
    }
    Ok(found)
}

// Adds the slot of the rows with each segment of columns.
fn add_each(found: &mut Vec<Slot>, rows: Segment, cols: &[Segment]) -> Result<(), AllocError>
    ensures { OnOk result (found.new.items ≡ found.old.items ++ map (slot_of rows) cols.now) }
{
    for segment in cols {
        found.push(Slot {
            rows,
            cols: *segment,
        })?;
    }
    Ok(())
}
