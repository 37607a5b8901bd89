// INDEX, and places in a block by numbers from 1.
ghost use Rattle.std.specs.Prelude.{◌≡◌, ◌<◌, IfOk};
ghost use Rattle.cell_value.specs.Cells.{value_at};
ghost use Rattle.func_args.specs.Answers.{scalar_value};
ghost use Rattle.func_look.specs.Index.{index_value, indexed, place_of};

use cell_value::{Area, Arg, FaultKind, Scalar};
use func_args::{block_of, whole_of};
use std::alloc::{AllocError, Global};

// `INDEX(R, N [, N])`: the value in a row and a column.
pub(crate) fn index_value(alloc: Global, args: &[Arg]) -> Result<Scalar, AllocError>
    ensures { IfOk result (λ value. value ≡ scalar_value (index_value args.now)) }
{
    match args {
        [first, second] => match (block_of(first), whole_of(second)) {
            (Ok(area), Ok(at)) => {
                if area.rows() == 1 {
                    indexed(alloc, area, 1, at)
                } else {
                    indexed(alloc, area, at, 1)
                }
            }
            (Err(fault), _) | (_, Err(fault)) => Ok(Scalar::Fault(fault)),
        },
        [first, second, third] => match (block_of(first), whole_of(second), whole_of(third)) {
            (Ok(area), Ok(row), Ok(col)) => indexed(alloc, area, row, col),
            (Err(fault), _, _) | (_, Err(fault), _) | (_, _, Err(fault)) => {
                Ok(Scalar::Fault(fault))
            }
        },
        _ => Ok(Scalar::Fault(FaultKind::Na)),
    }
}

// The value in this row and column, both from 1.
fn indexed(alloc: Global, area: &Area, row: i64, col: i64) -> Result<Scalar, AllocError>
    ensures { IfOk result (λ value. value ≡ scalar_value (indexed area.now row col)) }
{
    match (place_of(row, area.rows()), place_of(col, area.cols())) {
        (Ok(row), Ok(col)) => copy_at(alloc, area, row, col),
        (Err(fault), _) | (_, Err(fault)) => Ok(Scalar::Fault(fault)),
    }
}

// The place from 0 of this number from 1, of so many: `Value` below 1, and `Ref` beyond.
pub(crate) fn place_of(number: i64, size: u32) -> Result<u32, FaultKind>
    ensures place { result ≡ place_of number size }
    ensures within { IfOk result (λ at. at < size) }
{
    if number < 1 {
        Err(FaultKind::Value)
    } else if number > i64::from(size) {
        Err(FaultKind::Ref)
    } else {
        Ok((number - 1) as u32)
    }
}

// A copy of the value in this row and column.
pub(crate) fn copy_at(alloc: Global, area: &Area, row: u32, col: u32) -> Result<Scalar, AllocError>
    requires row { row < area.now.rows }
    requires col { col < area.now.cols }
    ensures { IfOk result (λ value. value ≡ value_at area.now row col) }
{
    match area.value(row, col) {
        Some(value) => value.copy(alloc),
        None => Ok(Scalar::Empty),
    }
}
