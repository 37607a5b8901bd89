// Places, blocks and whole ranges over structural operations.
ghost use Rattle.cell_addr.specs.Whole.{IsWholeInside};
ghost use Rattle.shift_core.specs.Sound.{IsSound};

use crate::operation::numbers_of;
use cell_addr::{Axis, Block, Place, Whole};
use shift_core::{
    Shift, back_block, back_place, back_whole, bends_whole, is_bent, is_cut, moved_block,
    moved_place, moved_whole, sound,
};
use std::alloc::{AllocError, Global};

/// Where the operation moves a place, a block or a whole range, which one came there, and whether a block is bent or cut,
/// and a whole range bent, in words; why there is nothing to tell where the operation isn't sound, or the text says none of
/// these. A whole range is the word `rows` or `cols`, its sheet, and its first line and its last.
pub(crate) fn moved(alloc: Global, of: &str, shift: &Shift) -> Result<String, AllocError> {
    if !sound(shift) {
        return String::from_str(alloc, "not sound");
    }
    match of.split_once(' ') {
        Some(("rows", lines)) => moved_lines(alloc, Axis::Rows, lines, shift),
        Some(("cols", lines)) => moved_lines(alloc, Axis::Cols, lines, shift),
        _ => moved_cells(alloc, of, shift),
    }
}

// The same of a place or a block.
fn moved_cells(alloc: Global, of: &str, shift: &Shift) -> Result<String, AllocError>
    requires { IsSound shift.now }
{
    match numbers_of(alloc, of)? {
        Some(numbers) => moved_by_numbers(alloc, &numbers, shift),
        None => String::from_str(alloc, "no numbers"),
    }
}

// The same of a whole range by its sheet, its first line and its last.
fn moved_lines(alloc: Global, axis: Axis, lines: &str, shift: &Shift) -> Result<String, AllocError>
    requires { IsSound shift.now }
{
    match numbers_of(alloc, lines)? {
        Some(numbers) => moved_whole_range(alloc, axis, &numbers, shift),
        None => String::from_str(alloc, "no numbers"),
    }
}

// The same of a whole range by its numbers.
fn moved_whole_range(
    alloc: Global,
    axis: Axis,
    numbers: &[u32],
    shift: &Shift,
) -> Result<String, AllocError>
    requires { IsSound shift.now }
{
    match *numbers {
        [sheet, first, last] => {
            let whole = Whole {
                sheet,
                axis,
                first,
                last,
            };
            if whole.inside() {
                whole_moves(alloc, whole, shift)
            } else {
                String::from_str(alloc, "not inside")
            }
        }
        _ => String::from_str(alloc, "no whole range"),
    }
}

// The same of a place or a block by its numbers.
fn moved_by_numbers(alloc: Global, numbers: &[u32], shift: &Shift) -> Result<String, AllocError>
    requires { IsSound shift.now }
{
    match *numbers {
        [sheet, row, col] => place_moves(alloc, Place { sheet, row, col }, shift),
        [sheet, top, left, bottom, right] => {
            let block = Block {
                sheet,
                top,
                left,
                bottom,
                right,
            };
            block_moves(alloc, block, shift)
        }
        _ => String::from_str(alloc, "no place and no block"),
    }
}

// Where the operation moves the place, and which one came there.
fn place_moves(alloc: Global, place: Place, shift: &Shift) -> Result<String, AllocError>
    requires { IsSound shift.now }
{
    let after = shown_place(alloc, moved_place(shift, place))?;
    let back = shown_place(alloc, back_place(shift, place))?;
    format!(in alloc; "{after}, back {back}")
}

// Where the operation moves the block, which one came there, and whether it is bent or cut.
fn block_moves(alloc: Global, block: Block, shift: &Shift) -> Result<String, AllocError>
    requires { IsSound shift.now }
{
    let is = change(is_bent(shift, block), is_cut(shift, block));
    let after = shown_block(alloc, moved_block(shift, block))?;
    let back = shown_block(alloc, back_block(shift, block))?;
    format!(in alloc; "{after}, back {back}, {is}")
}

// Where the operation moves the whole range, which one came there, and whether it is bent.
fn whole_moves(alloc: Global, whole: Whole, shift: &Shift) -> Result<String, AllocError>
    requires sound { IsSound shift.now }
    requires inside { IsWholeInside whole }
{
    let is = change(bends_whole(shift, whole), false);
    let after = shown_whole(alloc, moved_whole(shift, whole))?;
    let back = shown_whole(alloc, back_whole(shift, whole))?;
    format!(in alloc; "{after}, back {back}, {is}")
}

// What becomes of a block or a whole range, in words.
fn change(bent: bool, cut: bool) -> &'static str {
    match (bent, cut) {
        (false, false) => "carried",
        (true, false) => "bent",
        (false, true) => "cut",
        (true, true) => "bent and cut",
    }
}

// A place by its sheet, its row and its column.
fn shown_place(alloc: Global, place: Option<Place>) -> Result<String, AllocError> {
    match place {
        Some(place) => format!(in alloc; "{} {} {}", place.sheet, place.row, place.col),
        None => String::from_str(alloc, "lost"),
    }
}

// A block by its sheet, its first row and column and its last ones.
fn shown_block(alloc: Global, block: Option<Block>) -> Result<String, AllocError> {
    match block {
        Some(block) => format!(in alloc;
            "{} {} {} {} {}",
            block.sheet, block.top, block.left, block.bottom, block.right
        ),
        None => String::from_str(alloc, "lost"),
    }
}

// A whole range by what its lines are, its sheet, and its first line and its last.
fn shown_whole(alloc: Global, whole: Option<Whole>) -> Result<String, AllocError> {
    match whole {
        Some(whole) => {
            let lines = match whole.axis {
                Axis::Rows => "rows",
                Axis::Cols => "cols",
            };
            format!(in alloc; "{} {} {} {}", lines, whole.sheet, whole.first, whole.last)
        }
        None => String::from_str(alloc, "lost"),
    }
}
