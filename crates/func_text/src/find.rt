// FIND, and where a text occurs in another.
ghost use Rattle.std.specs.Prelude.{◌≡◌, ◌≤◌, ◌<◌, ◌+◌, ◌^◌, IfOk, IfSome, chars, length};
ghost use Rattle.func_text.specs.Find.{find_value, first_place, found, position};

use crate::argument::{after_characters, count_characters, text_of};
use cell_value::{Arg, FaultKind, Scalar};
use func_args::{counted, number_value, whole_of};
use std::alloc::{AllocError, Global};

/// `FIND(T, T [, N])`: the position of the first text in the second, at or after a position.
pub(crate) fn find_value(alloc: Global, args: &[Arg]) -> Result<Scalar, AllocError>
    ensures { IfOk result (λ value. value ≡ find_value args.now) }
{
    match args {
        [a, b] => match (text_of(alloc, a)?, text_of(alloc, b)?) {
            (Ok(sought), Ok(within)) => Ok(found(sought.as_str(), within.as_str(), 1)),
            (Err(fault), _) | (_, Err(fault)) => Ok(Scalar::Fault(fault)),
        },
        [a, b, c] => match (text_of(alloc, a)?, text_of(alloc, b)?, whole_of(c)) {
            (Ok(sought), Ok(within), Ok(start)) => {
                Ok(found(sought.as_str(), within.as_str(), start))
            }
            (Err(fault), _, _) | (_, Err(fault), _) | (_, _, Err(fault)) => {
                Ok(Scalar::Fault(fault))
            }
        },
        _ => Ok(Scalar::Fault(FaultKind::Na)),
    }
}

// The position of the first text in the second, at or after this one.
fn found(sought: &str, within: &str, start: i64) -> Scalar
    ensures { result ≡ found sought.now within.now start }
{
    if start < 1 {
        return Scalar::Fault(FaultKind::Value);
    }
    let start = start.unsigned_abs();
    match after_characters(within, start - 1) {
        Some(rest) => position(start, first_place(sought, rest)),
        None => Scalar::Fault(FaultKind::Value),
    }
}

// The position of what was found so many characters after this position; of nothing `Value`.
fn position(start: u64, place: Option<u64>) -> Scalar
    requires { IfSome place (λ at. at + start < 2 ^ 64) }
    ensures { result ≡ position start place }
{
    match place {
        Some(at) => number_value(counted(at + start)),
        None => Scalar::Fault(FaultKind::Value),
    }
}

// The place, from 0, where the first occurrence begins.
fn first_place(sought: &str, within: &str) -> Option<u64>
    ensures place { result ≡ first_place (chars sought.now) (chars within.now) }
    ensures inside { IfSome result (λ at. at ≤ length within.now) }
{
    let at = within.find(sought)?;
    Some(count_characters(&within[..at]))
}
