// The value of each function.
ghost use Rattle.std.specs.Prelude.{◌≡◌, IfOk, true};
ghost use Rattle.func_math.specs.Functions.{of_summary};
ghost use Rattle.func_math.specs.Math.{math_value};

use crate::count::{count_blanks, count_if, count_values};
use crate::division::{cut_quotient, modulo, power};
use crate::function::MathFn;
use crate::product::product;
use crate::rounding::{absolute, cut_to, floor, is_even, raise_to, round_to, sign_of};
use crate::sum::summarized;
use crate::sum_if::sum_if;
use cell_value::{Arg, Scalar};
use func_args::{
    list_summary, number_and_whole, number_value, one_number, one_whole, truth_value, two_numbers,
};
use std::alloc::{AllocError, Global};

/// The value of the function of its arguments, which may be a fault.
///
/// Only the operand of a criterion takes memory.
pub fn math(alloc: Global, f: MathFn, args: &[Arg]) -> Result<Scalar, AllocError>
    ensures { IfOk result (λ value. value ≡ math_value f args.now) }
{
    match f {
        MathFn::Sum | MathFn::Average | MathFn::Min | MathFn::Max | MathFn::Count => {
            of_list(f, args)
        }
        MathFn::CountA => Ok(number_value(count_values(args)?)),
        MathFn::CountBlank => Ok(number_value(count_blanks(args))),
        MathFn::Product => Ok(number_value(product(args))),
        MathFn::SumIf => Ok(number_value(sum_if(alloc, args)?)),
        MathFn::CountIf => Ok(number_value(count_if(alloc, args)?)),
        MathFn::Abs => Ok(number_value(one_number(args).and_then(absolute))),
        MathFn::Sign => Ok(number_value(one_number(args).and_then(sign_of))),
        MathFn::Int => Ok(number_value(one_number(args).and_then(floor))),
        MathFn::Trunc | MathFn::RoundDown => Ok(number_value(number_and_whole(args, 0).and_then(|(
            number,
            places,
        )| cut_to(number, places)))),
        MathFn::Round => Ok(number_value(number_and_whole(args, 0).and_then(|(
            number,
            places,
        )| round_to(number, places)))),
        MathFn::RoundUp => Ok(number_value(number_and_whole(args, 0).and_then(|(
            number,
            places,
        )| raise_to(number, places)))),
        MathFn::Mod => Ok(number_value(two_numbers(args).and_then(|(a, b)| modulo(a, b)))),
        MathFn::Quotient => Ok(number_value(two_numbers(args).and_then(|(a, b)| cut_quotient(
            a, b,
        )))),
        MathFn::Power => Ok(number_value(two_numbers(args).and_then(|(a, b)| power(a, b)))),
        MathFn::IsEven => Ok(truth_value(one_whole(args).map(is_even))),
        MathFn::IsOdd => Ok(truth_value(one_whole(args).map(|whole| !is_even(whole)))),
    }
}

// The value of SUM, AVERAGE, MIN, MAX or COUNT.
fn of_list(f: MathFn, args: &[Arg]) -> Result<Scalar, AllocError>
    requires { of_summary f ≡ true }
    ensures { IfOk result (λ value. value ≡ math_value f args.now) }
{
    match list_summary(args) {
        Ok(Ok(summary)) => Ok(summarized(f, &summary)),
        Ok(Err(fault)) => Ok(Scalar::Fault(fault)),
        Err(error) => Err(error),
    }
}
