// Blocks of cells.
ghost use Rattle.std.specs.Prelude.{◌<◌, IfOk, IfSome};

use crate::argument::literal;
use crate::sheet::value_at;
use cell_addr::Spot;
use cell_value::{Area, Scalar};
use std::alloc::{AllocError, Global};

/// The cells of the sheet from one corner to the other.
pub(crate) fn of_sheet(alloc: Global, spot: &Spot) -> Result<Area, AllocError> {
    let rows = spot.bottom.saturating_sub(spot.top);
    let cols = spot.right.saturating_sub(spot.left);
    let mut values = Vec::new(alloc);
    'rows: for row in 0..rows.saturating_add(1) {
        'cols: for col in 0..cols.saturating_add(1) {
            let value = value_at(
                alloc,
                spot.top.saturating_add(row),
                spot.left.saturating_add(col),
            )?;
            values.push(value)?;
        }
    }
    filled(
        alloc,
        rows.saturating_add(1),
        cols.saturating_add(1),
        values,
    )
}

/// The cells whose values are written out, row by row: commas part the cells of a row, and semicolons the
/// rows. `None` where a value has no form of one, or the rows aren't of one length.
pub(crate) fn written(alloc: Global, text: &str) -> Result<Option<Area>, AllocError> {
    let mut values = Vec::new(alloc);
    match add_rows(alloc, text, &mut values)? {
        Some((rows, cols)) => Ok(Some(filled(alloc, rows, cols, values)?)),
        None => Ok(None),
    }
}

// Adds the values that are written out, row by row; how many rows and columns they make.
fn add_rows(
    alloc: Global,
    text: &str,
    values: &mut Vec<Scalar>,
) -> Result<Option<(u32, u32)>, AllocError>
    ensures { IfOk result (λ sides. IfSome sides (λ s. (0 < s.0) × (0 < s.1))) }
{
    let mut rows = 0u32;
    'rows: for row in text.split(';') {
        rows = rows.saturating_add(1);
        if !add_row(alloc, row, values)? {
            return Ok(None);
        }
    }
    match width(rows, values.len()) {
        Some(cols) => Ok(Some((rows, cols))),
        None => Ok(None),
    }
}

// Adds the values of a row; whether each has a form of one.
fn add_row(alloc: Global, row: &str, values: &mut Vec<Scalar>) -> Result<bool, AllocError> {
    'cells: for cell in row.split(',') {
        match value_in(alloc, cell)? {
            Some(value) => values.push(value)?,
            None => return Ok(false),
        }
    }
    Ok(true)
}

/// The value that is written out, which is empty where nothing is written; `None` where it has no form of one.
pub(crate) fn value_in(alloc: Global, text: &str) -> Result<Option<Scalar>, AllocError> {
    if text.is_empty() {
        Ok(Some(Scalar::Empty))
    } else {
        literal(alloc, text)
    }
}

// How many cells each of so many rows has, where they have equally many and at least one.
fn width(rows: u32, cells: usize) -> Option<u32>
    ensures { IfSome result (λ cols. (0 < rows) × (0 < cols)) }
{
    if rows == 0 || cells % rows as usize != 0 {
        return None;
    }
    let cols = u32::try_from(cells / rows as usize).ok()?;
    if cols == 0 { None } else { Some(cols) }
}

// So many rows and columns of cells with these values, row by row.
fn filled(alloc: Global, rows: u32, cols: u32, values: Vec<Scalar>) -> Result<Area, AllocError>
    requires rows { 0 < rows }
    requires cols { 0 < cols }
{
    let mut area = Area::new(alloc, rows, cols);
    let mut values = values.into_iter();
    'rows: for row in 0..rows {
        'cols: for col in 0..cols {
            area.push(row, col, values.next().unwrap_or(Scalar::Empty))?;
        }
    }
    Ok(area)
}
