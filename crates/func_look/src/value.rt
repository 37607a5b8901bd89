// The value of each look-up.
ghost use Rattle.std.specs.Prelude.{◌≡◌, IfOk, IfErr, ℤ, Bool, Result, Err};
ghost use Rattle.cell_value.specs.Cells.{Cells};
ghost use Rattle.cell_value.specs.declared.scalar.Scalar.{Scalar};
ghost use Rattle.cell_value.specs.declared.fault.FaultKind.{FaultKind};
ghost use Rattle.func_args.specs.Answers.{scalar_value};
ghost use Rattle.func_look.specs.Look.{look_value};
ghost use Rattle.func_look.specs.Lookups.{hlookup, lookup_by, vlookup};

use crate::choose::choose_value;
use crate::function::LookFn;
use crate::index::index_value;
use crate::lookup::{hlookup, vlookup};
use crate::matching::match_value;
use cell_value::{Area, Arg, FaultKind, Scalar};
use func_args::{block_of, number_value, truth_of, value_of, whole_of};
use std::alloc::{AllocError, Global};

/// The value of the function of its arguments, which may be a fault.
///
/// Only a text that is found takes memory.
pub fn look(alloc: Global, f: LookFn, args: &[Arg]) -> Result<Scalar, AllocError>
    ensures { IfOk result (λ value. value ≡ look_value f args.now) }
{
    match f {
        LookFn::Match => Ok(number_value(match_value(args))),
        LookFn::VLookup => vlookup_value(alloc, args),
        LookFn::HLookup => hlookup_value(alloc, args),
        LookFn::Index => index_value(alloc, args),
        LookFn::Choose => choose_value(alloc, args),
    }
}

fn vlookup_value(alloc: Global, args: &[Arg]) -> Result<Scalar, AllocError>
    ensures { IfOk result (λ value. value ≡ scalar_value (lookup_by vlookup args.now)) }
{
    match arguments(args) {
        Ok((value, area, number, rising)) => vlookup(alloc, value, area, number, rising),
        Err(fault) => Ok(Scalar::Fault(fault)),
    }
}

fn hlookup_value(alloc: Global, args: &[Arg]) -> Result<Scalar, AllocError>
    ensures { IfOk result (λ value. value ≡ scalar_value (lookup_by hlookup args.now)) }
{
    match arguments(args) {
        Ok((value, area, number, rising)) => hlookup(alloc, value, area, number, rising),
        Err(fault) => Ok(Scalar::Fault(fault)),
    }
}

// The arguments of VLOOKUP and HLOOKUP: `A, R, N [, B]`, the last TRUE where it is absent.
fn arguments(args: &[Arg]) -> Result<(&Scalar, &Area, i64, bool), FaultKind>
    ensures ok { IfOk result (λ p. (look : Scalar → Cells → ℤ → Bool → Result Scalar FaultKind) → lookup_by look args.now ≡ look p.0.now p.1.now p.2 p.3) }
    ensures err { IfErr result (λ fault. (look : Scalar → Cells → ℤ → Bool → Result Scalar FaultKind) → lookup_by look args.now ≡ Err fault) }
{
    match args {
        [a, b, c] => {
            let value = value_of(a)?;
            let area = block_of(b)?;
            let number = whole_of(c)?;
            Ok((value, area, number, true))
        }
        [a, b, c, d] => {
            let value = value_of(a)?;
            let area = block_of(b)?;
            let number = whole_of(c)?;
            let rising = truth_of(d)?;
            Ok((value, area, number, rising))
        }
        _ => Err(FaultKind::Na),
    }
}
