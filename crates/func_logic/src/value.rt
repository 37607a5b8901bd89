// The value of each function.
ghost use Rattle.std.specs.Prelude.{◌≡◌};
ghost use Rattle.func_logic.specs.Logic.{any_value, decided, is_err, is_kind, is_na, logic_value, not_value, of_kind, of_none};
ghost use Rattle.func_logic.specs.Tally.{tally_of};
ghost use Rattle.func_args.specs.Answers.{and_then};

use crate::function::LogicFn;
use crate::tally::{Tally, tally_of};
use cell_value::{Arg, FaultKind, Scalar};
use func_args::{truth_of, truth_value};

/// The value of the function of its arguments, which may be a fault.
pub fn logic(f: LogicFn, args: &[Arg]) -> Scalar
    ensures { result ≡ logic_value f args.now }
{
    match f {
        LogicFn::And => truth_value(listed(args).map(|tally| !tally.some_false)),
        LogicFn::Or => truth_value(listed(args).map(|tally| tally.some_true)),
        LogicFn::Xor => truth_value(listed(args).map(|tally| tally.odd_true)),
        LogicFn::Not => not_value(args),
        LogicFn::True => of_none(Scalar::Truth(true), args),
        LogicFn::False => of_none(Scalar::Truth(false), args),
        LogicFn::Na => of_none(Scalar::Fault(FaultKind::Na), args),
        LogicFn::IsError
        | LogicFn::IsErr
        | LogicFn::IsNa
        | LogicFn::IsNumber
        | LogicFn::IsText
        | LogicFn::IsLogical
        | LogicFn::IsBlank => of_kind(f, args),
    }
}

// The truth values that the arguments list, where no fault decides and there are some.
fn listed(args: &[Arg]) -> Result<Tally, FaultKind>
    ensures { result ≡ and_then (tally_of args.now) decided }
{
    let tally = tally_of(args)?;
    match tally.fault {
        Some(fault) => Err(fault),
        None if tally.some_true || tally.some_false => Ok(tally),
        None => Err(FaultKind::Value),
    }
}

// `NOT(B)`: the other truth value.
fn not_value(args: &[Arg]) -> Scalar
    ensures { result ≡ not_value args.now }
{
    match args {
        [truth] => truth_value(truth_of(truth).map(|truth| !truth)),
        _ => Scalar::Fault(FaultKind::Na),
    }
}

// The value of a function without arguments.
fn of_none(value: Scalar, args: &[Arg]) -> Scalar
    ensures { result ≡ of_none value args.now }
{
    if args.is_empty() {
        value
    } else {
        Scalar::Fault(FaultKind::Na)
    }
}

// Whether the value of the one argument is of the kind that the function asks about.
fn of_kind(f: LogicFn, args: &[Arg]) -> Scalar
    ensures { result ≡ of_kind (is_kind f) args.now }
{
    match args {
        [argument] => Scalar::Truth(is_kind(f, argument)),
        _ => Scalar::Fault(FaultKind::Na),
    }
}

// Whether the argument's value is of the kind that the function asks about. A block is `Value`.
fn is_kind(f: LogicFn, argument: &Arg) -> bool
    ensures { result ≡ is_kind f (any_value argument.now) }
{
    match argument {
        Arg::One(value) => is_of_kind(f, value),
        Arg::Many(_) => is_of_kind(f, &Scalar::Fault(FaultKind::Value)),
    }
}

// Whether the value is of the kind that the function asks about.
fn is_of_kind(f: LogicFn, value: &Scalar) -> bool
    ensures { result ≡ is_kind f value.now }
{
    match f {
        LogicFn::IsError => matches!(value, Scalar::Fault(_)),
        LogicFn::IsErr => is_err(value),
        LogicFn::IsNa => is_na(value),
        LogicFn::IsNumber => matches!(value, Scalar::Number(_)),
        LogicFn::IsText => matches!(value, Scalar::Text(_)),
        LogicFn::IsLogical => matches!(value, Scalar::Truth(_)),
        LogicFn::IsBlank => value.is_empty(),
        _ => false,
    }
}

// Whether the value is a fault other than `#N/A`.
fn is_err(value: &Scalar) -> bool
    ensures { result ≡ is_err value.now }
{
    match value {
        Scalar::Fault(fault) => *fault != FaultKind::Na,
        _ => false,
    }
}

// Whether the value is `#N/A`.
fn is_na(value: &Scalar) -> bool
    ensures { result ≡ is_na value.now }
{
    match value {
        Scalar::Fault(fault) => *fault == FaultKind::Na,
        _ => false,
    }
}
