// Lines of a sheet of 1,048,576 rows over edits, reckoned by hand.
use shift_core::Edit;
use stable_lines::{LineTable, SheetLines};
use std::alloc::{AllocError, Global};

const ROWS: u32 = 1_048_576;

// Two lines inserted at the sixth.
const INSERTED: Edit = Edit::Insert { at: 5, count: 2 };

// Whether the lines in front of the inserted ones stay, and those behind them follow.
fn are_inserted(table: &LineTable) -> bool {
    table.line(4) == Some(4) && table.line(5) == Some(1_048_576) && table.line(7) == Some(5)
}

// Whether the last lines are pushed off.
fn are_pushed_off(table: &LineTable) -> bool {
    table.position(7) == Some(9) && table.position(1_048_574) == None && table.line(ROWS) == None
}

// Whether the lines are back, but for those that were pushed off.
fn are_back(table: &LineTable) -> bool {
    table.line(5) == Some(5) && table.position(1_048_576) == None && are_lost(table)
}

// Whether the last line is another one.
fn are_lost(table: &LineTable) -> bool {
    table.position(1_048_575) == None && table.line(1_048_575) != Some(1_048_575)
}

// Whether lines are inserted and taken back.
fn inserts(alloc: Global, first: &LineTable) -> Result<bool, AllocError> {
    let table = first.edited(alloc, INSERTED)?;
    let is_right = are_inserted(&table) && are_pushed_off(&table);
    let back = table.unedited(alloc, INSERTED)?;
    Ok(is_right && are_back(&back))
}

// Whether the first lines are deleted.
fn deletes(alloc: Global, first: &LineTable) -> Result<bool, AllocError> {
    let table = first.edited(alloc, Edit::Delete { at: 0, count: 3 })?;
    Ok(table.line(0) == Some(3) && table.position(2) == None)
}

#[test]
fn lines_keep_their_numbers(rt: HostRuntime) -> Result<(), AllocError> {
    let first = LineTable::new(rt.alloc(), ROWS)?;
    assert!(rt; inserts(rt.alloc(), &first)?);
    assert!(rt; deletes(rt.alloc(), &first)?);
    Ok(())
}

// Deletes a line of the fourth sheet.
fn delete_in_fourth(alloc: Global, lines: &mut SheetLines) -> Result<(), AllocError> {
    lines.reserve(3)?;
    let edit = Edit::Delete { at: 10, count: 1 };
    let table = lines.table(3).edited(alloc, edit)?;
    if table.limit() == lines.table(3).limit() {
        lines.replace(3, table);
    }
    Ok(())
}

// Whether the line is deleted in the fourth sheet alone.
fn is_deleted(lines: &SheetLines) -> bool {
    let (third, fourth) = (lines.table(2), lines.table(3));
    fourth.line(10) == Some(11) && third.line(10) == Some(10) && fourth.position(10) == None
}

// Whether the lines of the fourth sheet run on from the fifth to the deleted one.
fn runs_on(lines: &SheetLines) -> bool {
    match lines.table(3).run_from(4) {
        Some(run) => run.to == 4 && run.count == 6,
        None => false,
    }
}

#[test]
fn lines_of_each_sheet(rt: HostRuntime) -> Result<(), AllocError> {
    let mut lines = SheetLines::new(rt.alloc(), ROWS)?;
    delete_in_fourth(rt.alloc(), &mut lines)?;
    let copy = lines.copied()?;
    assert!(rt; is_deleted(&copy) && runs_on(&copy));
    Ok(())
}
