// CONCATENATE and REPT.
ghost use Rattle.std.specs.Prelude.{◌≡◌, IfOk, string_bytes};
ghost use Rattle.std.specs.List.{repeat};
ghost use Rattle.cell_value.specs.Scalar.{made_text};
ghost use Rattle.func_text.specs.Join.{concatenate_value, rept, rept_value};

use crate::argument::text_of;
use cell_addr::Text;
use cell_value::{Arg, FaultKind, MAX_MADE_TEXT, Scalar};
use func_args::whole_of;
use std::alloc::{AllocError, Global};

/// `CONCATENATE(T, ..)`: the texts one after another.
pub(crate) fn concatenate_value(alloc: Global, args: &[Arg]) -> Result<Scalar, AllocError>
    ensures { IfOk result (λ value. value ≡ concatenate_value args.now) }
{
    if args.is_empty() {
        return Ok(Scalar::Fault(FaultKind::Na));
    }
    let mut joined = String::new(alloc);
    'arguments: for argument in args {
        match text_of(alloc, argument)? {
            Ok(text) => joined.push_str(text.as_str())?,
            Err(fault) => return Ok(Scalar::Fault(fault)),
        }
    }
    Ok(Scalar::made_text(Text::new(joined)))
}

/// `REPT(T, N)`: the text so many times.
pub(crate) fn rept_value(alloc: Global, args: &[Arg]) -> Result<Scalar, AllocError>
    ensures { IfOk result (λ value. value ≡ rept_value args.now) }
{
    match args {
        [first, second] => match (text_of(alloc, first)?, whole_of(second)) {
            (Ok(text), Ok(count)) => rept(alloc, text.as_str(), count),
            (Err(fault), _) | (_, Err(fault)) => Ok(Scalar::Fault(fault)),
        },
        _ => Ok(Scalar::Fault(FaultKind::Na)),
    }
}

// The text so many times, as a value.
fn rept(alloc: Global, text: &str, count: i64) -> Result<Scalar, AllocError>
    ensures { IfOk result (λ value. value ≡ rept text.now count) }
{
    if count < 0 {
        Ok(Scalar::Fault(FaultKind::Value))
    } else {
        made_times(alloc, text, count.unsigned_abs())
    }
}

// The text so many times as a value. What would be too long isn't made.
#[tactic(auto, using(crate::proofs::Joining::rept_nil, crate::proofs::Joining::rept_long))]
fn made_times(alloc: Global, text: &str, count: u64) -> Result<Scalar, AllocError>
    ensures { IfOk result (λ value. value ≡ made_text (repeat count text.now)) }
{
    if text.is_empty() {
        return Ok(Scalar::Text(Text::new(String::new(alloc))));
    }
    if count > (MAX_MADE_TEXT / text.len()) as u64 {
        return Ok(Scalar::Fault(FaultKind::Value));
    }
    Ok(Scalar::made_text(Text::new(repeated(alloc, text, count)?)))
}

// The text so many times.
#[tactic(auto, using(crate::proofs::Joining::repeat_more))]
fn repeated(alloc: Global, text: &str, count: u64) -> Result<String, AllocError>
    ensures { IfOk result (λ made. string_bytes made ≡ repeat count text.now) }
{
    let mut made = String::new(alloc);
    'times: for _ in 0..count {
        made.push_str(text)?;
    }
    Ok(made)
}
