// SUMIF.
ghost use Rattle.std.specs.Prelude.{◌≡◌, ◌*◌, IfOk, slice_index_or};
ghost use Rattle.cell_value.specs.declared.scalar.Scalar.TheVariants.{Empty};
ghost use Rattle.cell_value.specs.Summary.{summary_of};
ghost use Rattle.func_math.specs.Criteria.{matches};
ghost use Rattle.func_math.specs.SumIf.{chosen, sum_if, sum_where};

use crate::criterion::Criterion;
use crate::sum::decided_sum;
use cell_value::{Area, Arg, FaultKind, Scalar, Summary};
use fix_num::Fixed;
use func_args::{block_of, join_summaries, value_of};
use std::alloc::{AllocError, Global};

// `SUMIF(R, A [, R])`: the sum of the cells, or of those at the same places of the other block, where
// the criterion matches.
pub(crate) fn sum_if(alloc: Global, args: &[Arg]) -> Result<Result<Fixed, FaultKind>, AllocError>
    ensures { IfOk result (λ sum. sum ≡ sum_if args.now) }
{
    match args {
        [first, second] => match (block_of(first), value_of(second)) {
            (Ok(tested), Ok(value)) => sum_where(alloc, value, tested, tested),
            (Err(fault), _) | (_, Err(fault)) => Ok(Err(fault)),
        },
        [first, second, third] => match (block_of(first), value_of(second), block_of(third)) {
            (Ok(tested), Ok(value), Ok(summed)) => sum_where(alloc, value, tested, summed),
            (Err(fault), _, _) | (_, Err(fault), _) | (_, _, Err(fault)) => Ok(Err(fault)),
        },
        _ => Ok(Err(FaultKind::Na)),
    }
}

// The sum of the cells at whose places the criterion of this value matches those of the tested block;
// `Value` where the blocks have other sizes.
fn sum_where(
    alloc: Global,
    value: &Scalar,
    tested: &Area,
    summed: &Area,
) -> Result<Result<Fixed, FaultKind>, AllocError>
    ensures { IfOk result (λ sum. sum ≡ sum_where value.now tested.now summed.now) }
{
    if tested.rows() != summed.rows() || tested.cols() != summed.cols() {
        return Ok(Err(FaultKind::Value));
    }
    let criterion = Criterion::new(alloc, value)?;
    match chosen(&criterion, tested, summed) {
        Ok(summary) => Ok(decided_sum(&summary)),
        Err(error) => Err(error),
    }
}

// The summary of the cells at whose places the criterion matches those of the tested block.
fn chosen(criterion: &Criterion, tested: &Area, summed: &Area) -> Result<Summary, AllocError>
    requires { tested.now.rows * tested.now.cols ≡ summed.now.rows * summed.now.cols }
    ensures { IfOk result (λ summary. summary ≡ summary_of (chosen (matches criterion.now) tested.now.values summed.now.values)) }
{
    let _size = tested.size();
    let mut total = Summary::new();
    'cells: for cell in summed.filled() {
        if !matches_at(criterion, tested, cell.index) {
            continue;
        }
        total = join_summaries(&total, &Summary::of(&cell.value))?;
    }
    Ok(total)
}

// Whether the criterion matches the cell before which so many others stand.
fn matches_at(criterion: &Criterion, area: &Area, index: u64) -> bool
    ensures { result ≡ matches criterion.now (slice_index_or area.now.values index Empty) }
{
    match area.get(index) {
        Some(value) => criterion.matches(value),
        None => criterion.matches(&Scalar::Empty),
    }
}
