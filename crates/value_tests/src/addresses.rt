// Places, blocks and texts; what texts say as addresses is data of `function_cases`.
use cell_addr::{Block, COLS, OneSheet, Place, ROWS, SheetNames, Text, fold_byte};
use std::alloc::{AllocError, Global};

// A place of one sheet.
fn at(row: u32, col: u32) -> Place {
    Place { sheet: 3, row, col }
}

// A block of the same sheet.
fn block(top: u32, left: u32, bottom: u32, right: u32) -> Block {
    Block {
        sheet: 3,
        top,
        left,
        bottom,
        right,
    }
}

#[test]
fn places_inside_sheets(rt: HostRuntime) {
    assert!(rt; at(ROWS - 1, COLS - 1).inside());
    assert!(rt; !at(ROWS, 0).inside() && !at(0, COLS).inside());
    assert!(rt; block(0, 0, ROWS - 1, COLS - 1).inside());
    assert!(rt; !block(1, 0, 0, 0).inside() && !block(0, 0, ROWS, 0).inside());
}

#[test]
fn blocks_that_meet(rt: HostRuntime) {
    let nine = block(1, 1, 3, 3);
    assert!(rt; nine.meets(block(0, 2, 9, 2)));
    assert!(rt; !nine.meets(block(4, 1, 9, 2)));
    assert!(rt; !nine.meets(block(2, 2, 1, 2)));
}

#[test]
fn blocks_that_contain_others(rt: HostRuntime) {
    let nine = block(1, 1, 3, 3);
    assert!(rt; nine.holds(at(3, 1)) && !nine.holds(at(4, 1)));
    assert!(rt; nine.contains(block(1, 2, 3, 2)));
    assert!(rt; !nine.contains(block(1, 2, 4, 2)));
    assert!(rt; nine.contains(block(9, 9, 8, 9)));
}

// Whether a text of these letters has a copy that is equal to it.
fn is_copied(alloc: Global, letters: &str) -> Result<bool, AllocError> {
    let text = Text::from_str(alloc, letters)?;
    Ok(text.copy(alloc)? == text && !text.is_empty())
}

// Whether the bytes are UTF-8.
fn is_utf8(alloc: Global, bytes: &[u8]) -> Result<bool, AllocError> {
    Ok(Text::from_utf8(alloc, bytes)?.is_some())
}

#[test]
fn texts_are_made(rt: HostRuntime) -> Result<(), AllocError> {
    assert!(rt; is_copied(rt.alloc(), "aZ[ä")?);
    assert!(rt; is_utf8(rt.alloc(), "ä".as_bytes())? && !is_utf8(rt.alloc(), &[0xC3])?);
    assert!(rt; fold_byte(b'Q') == b'q' && fold_byte(b'@') == b'@');
    Ok(())
}

// Whether the one sheet is found by its name in any letters.
fn is_found(sheets: &OneSheet) -> bool {
    sheets.id_of("MY pLAN") == Some(0) && sheets.id_of("MyPlan") == None
}

// Whether the one sheet has its name.
fn is_named(sheets: &OneSheet) -> bool {
    let is_alone = sheets.name_of(1).is_none();
    match sheets.name_of(0) {
        Some(name) => is_alone && name.as_str() == "My Plan",
        None => false,
    }
}

#[test]
fn a_sheet_alone(rt: HostRuntime) -> Result<(), AllocError> {
    let sheets = OneSheet {
        name: Text::from_str(rt.alloc(), "My Plan")?,
    };
    assert!(rt; is_found(&sheets) && is_named(&sheets));
    Ok(())
}
