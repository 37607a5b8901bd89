// Arguments in a list, of which a block counts by its cells.
ghost use Rattle.std.specs.Prelude.{◌≡◌, IfOk};
ghost use Rattle.cell_value.specs.Summary.{IsBounded, joined, summary_of};
ghost use Rattle.func_args.specs.Lists.{list_summary, listed};

use crate::answer::number_value;
use cell_value::{Area, Arg, FaultKind, Scalar, Summary};
use std::alloc::AllocError;

/// `L, ..`: what the numbers of a list of at least one argument come to.
///
/// Want of memory where there are 2^64 numbers or more, which no memory holds.
pub fn list_summary(args: &[Arg]) -> Result<Result<Summary, FaultKind>, AllocError>
    ensures { IfOk result (λ summary. summary ≡ list_summary args.now) }
{
    if args.is_empty() {
        return Ok(Err(FaultKind::Na));
    }
    let mut total = Summary::new();
    'arguments: for argument in args {
        total = join_summaries(&total, &argument_summary(argument)?)?;
    }
    Ok(Ok(total))
}

// What the numbers of one argument of a list come to.
fn argument_summary(argument: &Arg) -> Result<Summary, AllocError>
    ensures summary { IfOk result (λ summary. summary ≡ summary_of (listed argument.now)) }
    ensures bounded { IfOk result IsBounded }
{
    match argument {
        Arg::One(value) => Ok(Summary::of(&number_value(value.as_number()))),
        Arg::Many(area) => area_summary(area),
    }
}

/// What the numbers of the cells come to.
///
/// Want of memory where there are 2^64 numbers or more, which no memory holds.
pub fn area_summary(area: &Area) -> Result<Summary, AllocError>
    ensures summary { IfOk result (λ summary. summary ≡ summary_of area.now.values) }
    ensures bounded { IfOk result IsBounded }
{
    let mut total = Summary::new();
    'cells: for cell in area.filled() {
        total = join_summaries(&total, &Summary::of(&cell.value))?;
    }
    Ok(total)
}

/// The summary of the values of both, the first one's first.
///
/// Want of memory where there are 2^64 numbers or more, which no memory holds.
pub fn join_summaries(total: &Summary, next: &Summary) -> Result<Summary, AllocError>
    requires bounded { IsBounded total.now }
    requires next_bounded { IsBounded next.now }
    ensures joined { IfOk result (λ summary. summary ≡ joined total.now next.now) }
    ensures bounded { IfOk result IsBounded }
{
    if total.count.checked_add(next.count).is_some() {
        Ok(total.join(next))
    } else {
        Err(AllocError)
    }
}
