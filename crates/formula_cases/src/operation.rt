// Structural operations as they are written: a word, and numbers counted from 0.
use cell_addr::{Block, Place};
use shift_core::Shift;
use std::alloc::{AllocError, Global};

/// The operation that a word and its numbers say, or `None` where they say none.
pub(crate) fn shift_of(alloc: Global, text: &str) -> Result<Option<Shift>, AllocError> {
    let Some((word, rest)) = text.split_once(' ') else {
        return Ok(None);
    };
    match numbers_of(alloc, rest)? {
        Some(numbers) => Ok(of_lines(word, &numbers).or(of_cells(word, &numbers))),
        None => Ok(None),
    }
}

/// The numbers of a text, which blanks part; `None` where one of them is none.
pub(crate) fn numbers_of(alloc: Global, text: &str) -> Result<Option<Vec<u32>>, AllocError> {
    let mut numbers = Vec::new(alloc);
    'numbers: for number in text.split(' ') {
        match number.parse::<u32>() {
            Ok(number) => numbers.push(number)?,
            Err(_) => return Ok(None),
        }
    }
    Ok(Some(numbers))
}

// An operation on rows or columns.
fn of_lines(word: &str, numbers: &[u32]) -> Option<Shift> {
    match *numbers {
        [sheet, at, count] => edit_of_lines(word, sheet, at, count),
        [sheet, from, count, before] => move_of_lines(word, sheet, from, count, before),
        _ => None,
    }
}

// Lines that are inserted or deleted.
fn edit_of_lines(word: &str, sheet: u32, at: u32, count: u32) -> Option<Shift> {
    match word {
        "insert-rows" => Some(Shift::InsertRows { sheet, at, count }),
        "delete-rows" => Some(Shift::DeleteRows { sheet, at, count }),
        "insert-cols" => Some(Shift::InsertCols { sheet, at, count }),
        "delete-cols" => Some(Shift::DeleteCols { sheet, at, count }),
        _ => None,
    }
}

// Lines that are moved.
fn move_of_lines(word: &str, sheet: u32, from: u32, count: u32, before: u32) -> Option<Shift> {
    match word {
        "move-rows" => Some(Shift::MoveRows {
            sheet,
            from,
            count,
            before,
        }),
        "move-cols" => Some(Shift::MoveCols {
            sheet,
            from,
            count,
            before,
        }),
        _ => None,
    }
}

// An operation on cells or on a sheet: a block is its sheet, its first row and column and its last ones.
fn of_cells(word: &str, numbers: &[u32]) -> Option<Shift> {
    match *numbers {
        [of, top, left, bottom, right, sheet, row, col] if word == "move-block" => {
            let source = Block {
                sheet: of,
                top,
                left,
                bottom,
                right,
            };
            let to = Place { sheet, row, col };
            Some(Shift::MoveBlock { source, to })
        }
        [sheet] if word == "drop-sheet" => Some(Shift::DropSheet { sheet }),
        _ => None,
    }
}
