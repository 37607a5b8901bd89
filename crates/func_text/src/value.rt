// The value of each function.
ghost use Rattle.std.specs.Prelude.{◌≡◌, IfOk};
ghost use Rattle.func_text.specs.Texts.{exact_value, read_value, texts_value, value_value};

use crate::argument::{one_text, two_texts};
use crate::find::find_value;
use crate::function::TextFn;
use crate::join::{concatenate_value, rept_value};
use crate::part::{left_value, len_value, mid_value, right_value};
use crate::substitute::substitute_value;
use crate::trim::trim_value;
use cell_value::{Arg, FaultKind, Scalar};
use fix_num::Fixed;
use std::alloc::{AllocError, Global};

/// The value of the function of its arguments, which may be a fault.
pub fn texts(alloc: Global, f: TextFn, args: &[Arg]) -> Result<Scalar, AllocError>
    ensures { IfOk result (λ value. value ≡ texts_value f args.now) }
{
    match f {
        TextFn::Len => len_value(alloc, args),
        TextFn::Left => left_value(alloc, args),
        TextFn::Right => right_value(alloc, args),
        TextFn::Mid => mid_value(alloc, args),
        TextFn::Concatenate => concatenate_value(alloc, args),
        TextFn::Trim => trim_value(alloc, args),
        TextFn::Rept => rept_value(alloc, args),
        TextFn::Exact => exact_value(alloc, args),
        TextFn::Find => find_value(alloc, args),
        TextFn::Substitute => substitute_value(alloc, args),
        TextFn::Value => value_value(alloc, args),
    }
}

// `EXACT(T, T)`: whether the texts are the same.
fn exact_value(alloc: Global, args: &[Arg]) -> Result<Scalar, AllocError>
    ensures { IfOk result (λ value. value ≡ exact_value args.now) }
{
    match two_texts(alloc, args)? {
        Ok((a, b)) => Ok(Scalar::Truth(a.as_str() == b.as_str())),
        Err(fault) => Ok(Scalar::Fault(fault)),
    }
}

// `VALUE(T)`: the number that the text spells.
fn value_value(alloc: Global, args: &[Arg]) -> Result<Scalar, AllocError>
    ensures { IfOk result (λ value. value ≡ value_value args.now) }
{
    match one_text(alloc, args)? {
        Ok(text) => Ok(read_value(text.as_str())),
        Err(fault) => Ok(Scalar::Fault(fault)),
    }
}

// The number that the text spells, or `Value`.
fn read_value(text: &str) -> Scalar
    ensures { result ≡ read_value text.now }
{
    match Fixed::from_text(text) {
        Ok(number) => Scalar::Number(number),
        Err(_) => Scalar::Fault(FaultKind::Value),
    }
}
