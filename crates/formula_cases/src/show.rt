// Trees as texts, each operator in front of its operands.
use cell_addr::{Axis, Whole};
use fix_num::Fixed;
use formula_tree::{Corner, Plain, PlainList};
use std::alloc::{AllocError, Global};
use std::fmt::Write;

/// Writes the tree's nodes: an operator, a sign and `%` in front of their operands and between
/// parentheses, a formula in parentheses between brackets, a corner by its row and its column, and a whole range
/// by the rows or the columns at its ends, counted from 0, after the number of its sheet.
#[cycle(show)]
pub(crate) fn show(alloc: Global, shown: &mut String, tree: &Plain) -> Result<(), AllocError> {
    match tree {
        Plain::Number(number) => show_number(alloc, shown, *number),
        Plain::Text(content) => write!(shown, "\"{}\"", content.as_str()),
        Plain::Truth(truth) => shown.push_str(if *truth { "TRUE" } else { "FALSE" }),
        Plain::Fault(fault) => shown.push_str(fault.text()),
        Plain::Cell(corner) => show_cell(shown, *corner),
        Plain::Area(first, last) => show_area(shown, *first, *last),
        Plain::Whole(whole, first, last) => show_whole(shown, *whole, *first, *last),
        Plain::Name(name) => shown.push_str(name.as_str()),
        Plain::Prefix(sign, part) => {
            write!(shown, "({} ", sign.text())?;
            show(alloc, shown, part)?;
            shown.push(')')
        }
        Plain::Percent(part) => {
            shown.push_str("(% ")?;
            show(alloc, shown, part)?;
            shown.push(')')
        }
        Plain::Binary(op, left, right) => {
            write!(shown, "({} ", op.text())?;
            show(alloc, shown, left)?;
            shown.push(' ')?;
            show(alloc, shown, right)?;
            shown.push(')')
        }
        Plain::Call(word, list) => {
            write!(shown, "{}(", word.as_str())?;
            show_arguments(alloc, shown, list)
        }
        Plain::Paren(part) => {
            shown.push('[')?;
            show(alloc, shown, part)?;
            shown.push(']')
        }
    }
}

// Writes the arguments of a call, each followed by a blank, and the closing parenthesis.
#[cycle(show)]
fn show_arguments(alloc: Global, shown: &mut String, list: &PlainList) -> Result<(), AllocError> {
    'arguments: for argument in list.items() {
        show(alloc, shown, argument)?;
        shown.push(' ')?;
    }
    shown.push(')')
}

// Writes a number.
fn show_number(alloc: Global, shown: &mut String, number: Fixed) -> Result<(), AllocError> {
    let text = number.text(alloc)?;
    shown.push_str(text.as_str())
}

// Writes a cell with its sheet.
fn show_cell(shown: &mut String, corner: Corner) -> Result<(), AllocError> {
    write!(shown, "{}!", corner.at.sheet)?;
    show_corner(shown, corner)
}

// Writes a block with its sheet.
fn show_area(shown: &mut String, first: Corner, last: Corner) -> Result<(), AllocError> {
    show_cell(shown, first)?;
    shown.push(':')?;
    show_corner(shown, last)
}

// Writes a whole range with its sheet: the row or the column of each end, with its `$`.
fn show_whole(
    shown: &mut String,
    whole: Whole,
    first_fixed: bool,
    last_fixed: bool,
) -> Result<(), AllocError> {
    write!(shown, "{}!", whole.sheet)?;
    show_line(shown, whole.axis, whole.first, first_fixed)?;
    shown.push(':')?;
    show_line(shown, whole.axis, whole.last, last_fixed)
}

// Writes the row and the column of a corner, each with its `$`.
fn show_corner(shown: &mut String, corner: Corner) -> Result<(), AllocError> {
    show_line(shown, Axis::Rows, corner.at.row, corner.row_fixed)?;
    show_line(shown, Axis::Cols, corner.at.col, corner.col_fixed)
}

// Writes a row or a column, with its `$`.
fn show_line(shown: &mut String, axis: Axis, line: u32, fixed: bool) -> Result<(), AllocError> {
    let mark = if fixed { "$" } else { "" };
    let letter = match axis {
        Axis::Rows => 'R',
        Axis::Cols => 'C',
    };
    write!(shown, "{}{}{}", mark, letter, line)
}
