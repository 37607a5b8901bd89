// The answers of calculations, and of functions as values.
ghost use Rattle.std.specs.Prelude.{◌≡◌};
ghost use Rattle.func_args.specs.Answers.{calculated, counted, number_value, truth_value};

use cell_value::{FaultKind, Scalar};
use fix_num::{Fixed, NumError};

/// The number of a calculation, or the fault that it failed by.
pub fn calculated(answer: Result<Fixed, NumError>) -> Result<Fixed, FaultKind>
    ensures { result ≡ calculated answer }
{
    match answer {
        Ok(number) => Ok(number),
        Err(error) => Err(error.into()),
    }
}

/// A number as a value, or the fault in its place.
pub fn number_value(answer: Result<Fixed, FaultKind>) -> Scalar
    ensures { result ≡ number_value answer }
{
    match answer {
        Ok(number) => Scalar::Number(number),
        Err(fault) => Scalar::Fault(fault),
    }
}

/// A truth value as a value, or the fault in its place.
pub fn truth_value(answer: Result<bool, FaultKind>) -> Scalar
    ensures { result ≡ truth_value answer }
{
    match answer {
        Ok(truth) => Scalar::Truth(truth),
        Err(fault) => Scalar::Fault(fault),
    }
}

/// So many as a number; `Num` where there are 10^12 or more.
pub fn counted(count: u64) -> Result<Fixed, FaultKind>
    ensures { result ≡ counted count }
{
    match i64::try_from(count) {
        Ok(count) => calculated(Fixed::from_int(count)),
        Err(_) => Err(FaultKind::Num),
    }
}
