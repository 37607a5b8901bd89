use shift_core::Shift;
use shift_line::Line;
use std::alloc::AllocError;
use std::test::Fail;

const INSERT: Shift = Shift::InsertRows {
    sheet: 0,
    at: 2,
    count: 1,
};

const SECOND: Shift = Shift::InsertRows {
    sheet: 0,
    at: 7,
    count: 3,
};

const DELETION: Shift = Shift::DeleteRows {
    sheet: 0,
    at: 4,
    count: 1,
};

// Puts an operation into the line.
fn push(line: &mut Line, s: Shift) -> Result<(), AllocError> {
    if line.cursor() < u64::MAX {
        line.push(s)?;
    }
    Ok(())
}

// Puts three operations into the line. Whether the second was the last one for a while.
fn push_three(line: &mut Line) -> Result<bool, AllocError> {
    push(line, INSERT)?;
    push(line, SECOND)?;
    let is_last = line.back() == Some(SECOND);
    push(line, DELETION)?;
    Ok(is_last)
}

// Whether the third operation stands in the place of the second.
fn is_cut(line: &Line) -> bool {
    line.last() == 2 && line.at(1) == Some(DELETION)
}

// Forgets the first operation. Whether it is gone.
fn forgets_first(line: &mut Line) -> bool {
    if line.first() <= 1 && line.cursor() >= 1 {
        line.forget_before(1);
    }
    line.first() == 1 && line.at(0) == None
}

// Whether one step leads back.
fn goes_back(line: &mut Line) -> bool {
    let s = line.back();
    s == Some(DELETION) && line.back() == None
}

// Whether one step leads forward.
fn goes_forward(line: &mut Line) -> bool {
    let s = line.forward();
    s == Some(DELETION) && line.forward() == None
}

// Whether an empty line is cut at its cursor, and forgets.
fn is_cut_and_forgets(line: &mut Line) -> Result<bool, AllocError> {
    let is_empty = line.forward() == None && line.back() == None;
    let is_full = push_three(line)? && is_cut(line) && forgets_first(line);
    Ok(is_empty && is_full && goes_back(line) && goes_forward(line))
}

#[test]
fn a_line_is_cut_and_forgotten(rt: HostRuntime) -> Result<(), Fail> {
    let mut line = Line::new(rt.alloc())?;
    assert!(rt; is_cut_and_forgets(&mut line)?);
    Ok(())
}

// Puts an operation in the place of two.
fn replace_two(line: &mut Line) -> Result<(), AllocError> {
    push(line, INSERT)?;
    push(line, SECOND)?;
    if line.first() == 0 {
        line.move_to(0);
    }
    push(line, DELETION)
}

// Whether the line has one operation, which takes one place of this room.
fn has_one(line: &Line, room: usize) -> bool {
    let is_one = line.last() == 1 && line.cursor() == 1;
    is_one && room > 0 && line.spare() == room - 1
}

// Whether operations take no more than the room that was made for them.
fn takes_no_more(line: &mut Line) -> Result<bool, AllocError> {
    line.reserve(3)?;
    let room = line.spare();
    replace_two(line)?;
    Ok(has_one(line, room))
}

#[test]
fn a_line_with_room_takes_no_memory(rt: HostRuntime) -> Result<(), Fail> {
    let mut line = Line::new(rt.alloc())?;
    assert!(rt; takes_no_more(&mut line)?);
    Ok(())
}
