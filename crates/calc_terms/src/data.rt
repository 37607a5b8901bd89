// The functions of values and blocks.
ghost use Rattle.std.specs.Prelude.{◌≡◌, IfOk};
ghost use Rattle.calc_terms.specs.Calls.{data_value};

use crate::function::DataFn;
use cell_value::{Arg, Scalar};
use func_date::dates;
use func_logic::logic;
use func_look::look;
use func_math::math;
use func_text::texts;
use std::alloc::{AllocError, Global};

/// The value of the function of its arguments, where the day is the serial number of today.
#[tactic(auto, unfolding(crate::specs::Calls::data_value))]
pub fn data_value(alloc: Global, f: DataFn, args: &[Arg], today: i32) -> Result<Scalar, AllocError>
    ensures { IfOk result (λ value. value ≡ data_value f today args.now) }
{
    match f {
        DataFn::Math(f) => math(alloc, f, args),
        DataFn::Logic(f) => Ok(logic(f, args)),
        DataFn::Text(f) => texts(alloc, f, args),
        DataFn::Look(f) => look(alloc, f, args),
        DataFn::Date(f) => dates(f, args, today),
    }
}
