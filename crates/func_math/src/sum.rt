// SUM, AVERAGE, MIN, MAX and COUNT: what the numbers of a list come to.
ghost use Rattle.std.specs.Prelude.{◌≡◌, ◌<◌, ◌≤◌, ◌^◌, true};
ghost use Rattle.fix_num.specs.Number.{near};
ghost use Rattle.func_args.specs.Answers.{and_then, number_value};
ghost use Rattle.func_math.specs.Functions.{of_summary};
ghost use Rattle.func_math.specs.Sums.{average_of, decided, sum_of, summary_answer};

use crate::function::MathFn;
use cell_value::{FaultKind, Scalar, Summary};
use fix_num::Fixed;
use func_args::{calculated, counted, number_value};

/// The value of a function of which the summary of what its arguments list says it: SUM, AVERAGE, MIN,
/// MAX and COUNT.
///
/// The first fault decides, but COUNT counts the numbers all the same.
pub fn summarized(f: MathFn, summary: &Summary) -> Scalar
    requires { of_summary f ≡ true }
    ensures { result ≡ number_value (summary_answer f summary.now) }
{
    number_value(answer(f, summary))
}

// The number that the summary says, or the fault that decides.
fn answer(f: MathFn, summary: &Summary) -> Result<Fixed, FaultKind>
    requires { of_summary f ≡ true }
    ensures { result ≡ summary_answer f summary.now }
{
    match (f, summary.fault) {
        (MathFn::Count, _) => counted(summary.count),
        (_, Some(fault)) => Err(fault),
        (_, None) => match f {
            MathFn::Sum => sum_of(summary),
            MathFn::Average => average_of(summary),
            MathFn::Min => Ok(summary.least.unwrap_or(Fixed::ZERO)),
            _ => Ok(summary.greatest.unwrap_or(Fixed::ZERO)),
        },
    }
}

// The exact sum, tested for range at its end, or the first fault.
pub(crate) fn decided_sum(summary: &Summary) -> Result<Fixed, FaultKind>
    ensures { result ≡ and_then (decided summary.now) sum_of }
{
    match summary.fault {
        Some(fault) => Err(fault),
        None => sum_of(summary),
    }
}

// The exact sum, tested for range at its end.
fn sum_of(summary: &Summary) -> Result<Fixed, FaultKind>
    ensures { result ≡ sum_of summary.now }
{
    match i64::try_from(summary.sum) {
        Ok(sum) => calculated(Fixed::from_millionths(sum)),
        Err(_) => Err(FaultKind::Num),
    }
}

// The exact sum divided by the count, rounded half away from zero; of no numbers `Div0`.
fn average_of(summary: &Summary) -> Result<Fixed, FaultKind>
    ensures { result ≡ average_of summary.now }
{
    if summary.count == 0 {
        return Err(FaultKind::Div0);
    }
    let size = near(summary.sum.unsigned_abs(), u128::from(summary.count));
    calculated(Fixed::signed(summary.sum < 0, size))
}

// The whole number nearest to p / q, of two as near the greater.
fn near(p: u128, q: u128) -> u128
    requires positive { 0 < q }
    requires room { p ≤ 2 ^ 127 }
    ensures { result ≡ near p q }
{
    let rest = p % q;
    if rest < q - rest { p / q } else { p / q + 1 }
}
