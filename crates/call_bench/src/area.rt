// Columns of cells.
ghost use Rattle.std.specs.Prelude.{◌<◌};

use cell_value::{Area, Scalar};
use fix_num::Fixed;
use std::alloc::{AllocError, Global};

/// A column of so many rows, of which so many, evenly spread, are filled with their numbers from 0.
pub(crate) fn column(alloc: Global, rows: u32, filled: u32) -> Result<Area, AllocError>
    requires { 0 < rows }
{
    let mut area = Area::new(alloc, rows, 1);
    let step = (rows / filled.max(1)).max(1);
    'rows: for row in 0..rows {
        area.push(row, 0, value_of(row, step))?;
    }
    Ok(area)
}

// The value of a row: its number where it is a multiple of the step, else nothing.
fn value_of(row: u32, step: u32) -> Scalar
    requires { 0 < step }
{
    if row % step == 0 {
        Scalar::from(Fixed::from_int(i64::from(row)))
    } else {
        Scalar::Empty
    }
}
