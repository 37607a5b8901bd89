// VLOOKUP and HLOOKUP.
ghost use Rattle.std.specs.Prelude.{◌≡◌, IfOk};
ghost use Rattle.func_args.specs.Answers.{scalar_value};
ghost use Rattle.func_look.specs.Lookups.{hlookup, lookup_mode, vlookup};

use crate::index::{copy_at, place_of};
use crate::taken::{Mode, taken_of_column, taken_of_row};
use cell_value::{Area, FaultKind, Scalar};
use std::alloc::{AllocError, Global};

// `VLOOKUP(A, R, N [, B])`: the value in this column, from 1, of the row that the first column's look-up
// takes.
pub(crate) fn vlookup(
    alloc: Global,
    value: &Scalar,
    area: &Area,
    number: i64,
    rising: bool,
) -> Result<Scalar, AllocError>
    ensures { IfOk result (λ found. found ≡ scalar_value (vlookup value.now area.now number rising)) }
{
    let col = match place_of(number, area.cols()) {
        Ok(col) => col,
        Err(fault) => return Ok(Scalar::Fault(fault)),
    };
    match taken_of_column(lookup_mode(rising), value, area) {
        Some(row) => copy_at(alloc, area, row, col),
        None => Ok(Scalar::Fault(FaultKind::Na)),
    }
}

// `HLOOKUP(A, R, N [, B])`: the value in this row, from 1, of the column that the first row's look-up
// takes.
pub(crate) fn hlookup(
    alloc: Global,
    value: &Scalar,
    area: &Area,
    number: i64,
    rising: bool,
) -> Result<Scalar, AllocError>
    ensures { IfOk result (λ found. found ≡ scalar_value (hlookup value.now area.now number rising)) }
{
    let row = match place_of(number, area.rows()) {
        Ok(row) => row,
        Err(fault) => return Ok(Scalar::Fault(fault)),
    };
    match taken_of_row(lookup_mode(rising), value, area) {
        Some(col) => copy_at(alloc, area, row, col),
        None => Ok(Scalar::Fault(FaultKind::Na)),
    }
}

// Rising where that is TRUE, else exact.
fn lookup_mode(rising: bool) -> Mode
    ensures { result ≡ lookup_mode rising }
{
    if rising { Mode::Rising } else { Mode::Exact }
}
