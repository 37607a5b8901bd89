// CHOOSE.
ghost use Rattle.std.specs.Prelude.{◌≡◌, ◌<◌, IfOk, drop, length, slice_get};
ghost use Rattle.func_look.specs.Choose.{choose_value, chosen, one_value, value_or_fault};

use cell_value::{Arg, FaultKind, Scalar};
use func_args::whole_of;
use std::alloc::{AllocError, Global};

// `CHOOSE(N, A, ..)`: the argument at this position among the others, from 1. Only the chosen one's
// fault counts.
pub(crate) fn choose_value(alloc: Global, args: &[Arg]) -> Result<Scalar, AllocError>
    ensures { IfOk result (λ value. value ≡ choose_value args.now) }
{
    match args {
        [] | [_] => Ok(Scalar::Fault(FaultKind::Na)),
        [first, _, ..] => chosen(alloc, others(args), whole_of(first)),
    }
}

// The arguments after the first one.
fn others(args: &[Arg]) -> &[Arg]
    requires { 0 < length args.now }
    ensures { result.now ≡ drop 1 args.now }
{
    &args[1..]
}

// The value at this position among the arguments, from 1.
fn chosen(alloc: Global, args: &[Arg], number: Result<i64, FaultKind>) -> Result<Scalar, AllocError>
    ensures { IfOk result (λ value. value ≡ chosen args.now number) }
{
    match number {
        Ok(number) if number >= 1 => nth(alloc, args, number.unsigned_abs() - 1),
        Ok(_) => Ok(Scalar::Fault(FaultKind::Value)),
        Err(fault) => Ok(Scalar::Fault(fault)),
    }
}

// The value of the argument at this place, from 0; `Value` where there is none.
fn nth(alloc: Global, args: &[Arg], at: u64) -> Result<Scalar, AllocError>
    ensures { IfOk result (λ value. value ≡ value_or_fault (slice_get args.now at)) }
{
    if at < args.len() as u64 {
        one_value(alloc, &args[at as usize])
    } else {
        Ok(Scalar::Fault(FaultKind::Value))
    }
}

// The value of the argument, of any kind. A block is `Value`.
fn one_value(alloc: Global, argument: &Arg) -> Result<Scalar, AllocError>
    ensures { IfOk result (λ value. value ≡ one_value argument.now) }
{
    match argument {
        Arg::One(value) => value.copy(alloc),
        Arg::Many(_) => Ok(Scalar::Fault(FaultKind::Value)),
    }
}
