// One argument, read as what a function takes.
ghost use Rattle.std.specs.Prelude.{◌≡◌, MatchResult, Ok, Err};
ghost use Rattle.func_args.specs.Arguments.{block, number, truth, value, whole, whole_part};

use cell_value::{Area, Arg, FaultKind, Scalar};
use fix_num::{Fixed, ONE};

/// The number that the argument is. A block is `Value`.
pub fn number_of(argument: &Arg) -> Result<Fixed, FaultKind>
    ensures { result ≡ number argument.now }
{
    match argument {
        Arg::One(value) => value.as_number(),
        Arg::Many(_) => Err(FaultKind::Value),
    }
}

/// The number that the argument is, cut toward zero, as counts, positions and dates are.
pub fn whole_of(argument: &Arg) -> Result<i64, FaultKind>
    ensures { result ≡ whole argument.now }
{
    let number = number_of(argument)?;
    Ok(whole_part(number))
}

// The number cut toward zero.
fn whole_part(number: Fixed) -> i64
    ensures { result ≡ whole_part number }
{
    number.millionths() / ONE as i64
}

/// The truth value that the argument is. A block is `Value`.
pub fn truth_of(argument: &Arg) -> Result<bool, FaultKind>
    ensures { result ≡ truth argument.now }
{
    match argument {
        Arg::One(value) => value.as_truth(),
        Arg::Many(_) => Err(FaultKind::Value),
    }
}

/// The value that the argument is, of any kind but a fault. A block is `Value`.
pub fn value_of(argument: &Arg) -> Result<&Scalar, FaultKind>
    ensures { MatchResult result (λ x. value argument.now ≡ Ok x.now) (λ fault. value argument.now ≡ Err fault) }
{
    match argument {
        Arg::One(Scalar::Fault(fault)) => Err(*fault),
        Arg::One(value) => Ok(value),
        Arg::Many(_) => Err(FaultKind::Value),
    }
}

/// The cells of the block that the argument is. A value is its fault, or else `Value`.
pub fn block_of(argument: &Arg) -> Result<&Area, FaultKind>
    ensures { MatchResult result (λ area. block argument.now ≡ Ok area.now) (λ fault. block argument.now ≡ Err fault) }
{
    match argument {
        Arg::One(Scalar::Fault(fault)) => Err(*fault),
        Arg::One(_) => Err(FaultKind::Value),
        Arg::Many(area) => Ok(area),
    }
}
