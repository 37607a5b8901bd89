// COUNTA, COUNTBLANK and COUNTIF.
ghost use Rattle.std.specs.Prelude.{◌≡◌, ◌<◌, ◌^◌, IfOk, length};
ghost use Rattle.std.specs.List.{count_by};
ghost use Rattle.func_math.specs.Counts.{count_if, counta, countblank, values_in};
ghost use Rattle.cell_value.specs.Scalar.{is_empty};
ghost use Rattle.func_math.specs.Criteria.{criterion_of, matches};
ghost use Rattle.func_args.specs.Answers.{counted};

use crate::criterion::Criterion;
use cell_value::{Area, Arg, FaultKind, Scalar};
use fix_num::Fixed;
use func_args::{block_of, counted, value_of};
use std::alloc::{AllocError, Global};

// `COUNTA(L, ..)`: how many values other than empty ones there are, faults too.
//
// Want of memory where there are 2^64 or more, which no memory holds.
pub(crate) fn count_values(args: &[Arg]) -> Result<Result<Fixed, FaultKind>, AllocError>
    ensures { IfOk result (λ count. count ≡ counta args.now) }
{
    if args.is_empty() {
        return Ok(Err(FaultKind::Na));
    }
    let mut total = 0u64;
    'arguments: for argument in args {
        match total.checked_add(values_in(argument)) {
            Some(more) => total = more,
            None => return Err(AllocError),
        }
    }
    Ok(counted(total))
}

// How many values the argument has that aren't empty.
fn values_in(argument: &Arg) -> u64
    ensures { result ≡ values_in argument.now }
{
    match argument {
        Arg::One(Scalar::Empty) => 0,
        Arg::One(_) => 1,
        Arg::Many(area) => area.filled().len() as u64,
    }
}

// `COUNTBLANK(R)`: how many cells are empty.
pub(crate) fn count_blanks(args: &[Arg]) -> Result<Fixed, FaultKind>
    ensures { result ≡ countblank args.now }
{
    match args {
        [first] => {
            let area = block_of(first)?;
            counted(blanks(area))
        }
        _ => Err(FaultKind::Na),
    }
}

// How many cells of the area are empty.
fn blanks(area: &Area) -> u64
    ensures blanks { result ≡ count_by is_empty area.now.values }
    ensures few { length area.now.values < 2 ^ 64 }
{
    area.size() - area.filled().len() as u64
}

// `COUNTIF(R, A)`: how many cells the criterion matches.
pub(crate) fn count_if(alloc: Global, args: &[Arg]) -> Result<Result<Fixed, FaultKind>, AllocError>
    ensures { IfOk result (λ count. count ≡ count_if args.now) }
{
    match args {
        [first, second] => match (block_of(first), value_of(second)) {
            (Ok(area), Ok(value)) => count_matches(alloc, area, value),
            (Err(fault), _) | (_, Err(fault)) => Ok(Err(fault)),
        },
        _ => Ok(Err(FaultKind::Na)),
    }
}

// How many cells the criterion of this value matches.
fn count_matches(
    alloc: Global,
    area: &Area,
    value: &Scalar,
) -> Result<Result<Fixed, FaultKind>, AllocError>
    ensures { IfOk result (λ count. count ≡ counted (count_by (matches (criterion_of value.now)) area.now.values)) }
{
    let criterion = Criterion::new(alloc, value)?;
    Ok(counted(matches(&criterion, area)))
}

// How many cells the criterion matches.
fn matches(criterion: &Criterion, area: &Area) -> u64
    ensures { result ≡ count_by (matches criterion.now) area.now.values }
{
    let mut count = 0u64;
    'cells: for cell in area.filled() {
        if criterion.matches(&cell.value) {
            count += 1;
        }
    }
    if criterion.matches(&Scalar::Empty) {
        count += blanks(area);
    }
    count
}
