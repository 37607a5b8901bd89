use block_slots::{Segment, Slot, segments, slots};
use std::alloc::{AllocError, Global};
use std::test::Fail;

// The segments of six lines from the second on.
const LINES: &[Segment] = &[
    Segment { level: 0, index: 1 },
    Segment { level: 0, index: 6 },
    Segment { level: 1, index: 1 },
    Segment { level: 1, index: 2 },
];

// The last slot of these lines in one column.
const LAST: Slot = Slot {
    rows: Segment { level: 1, index: 2 },
    cols: Segment { level: 0, index: 3 },
};

// Whether the lines are cut into their segments.
fn lines_are_cut(alloc: Global) -> Result<bool, AllocError> {
    let lines = segments(alloc, 1..7)?;
    Ok(lines.as_slice() == LINES)
}

// Whether the block is cut into four slots.
fn block_is_cut(alloc: Global) -> Result<bool, AllocError> {
    let found = slots(alloc, 1..7, 3..4)?;
    match found.as_slice() {
        [_, _, _, last] => Ok(*last == LAST),
        _ => Ok(false),
    }
}

#[test]
fn blocks_are_cut(rt: HostRuntime) -> Result<(), Fail> {
    assert!(rt; lines_are_cut(rt.alloc())?);
    assert!(rt; block_is_cut(rt.alloc())?);
    Ok(())
}

#[test]
fn places_in_slots(rt: HostRuntime) {
    assert!(rt; LAST.size().slot_at(5, 3) == LAST);
    assert!(rt; !LAST.has(6, 3));
}
