//! The functions of logic: AND, OR, XOR, NOT, TRUE, FALSE, NA, and those that ask what kind of value
//! their argument is.
//!
//! [`logic`] is the value of a [`LogicFn`] of its arguments, and [`LogicFn::named`] the function of a
//! word: `logic(LogicFn::And, args)` is whether all that `args` list is TRUE.
//!
//! No function takes memory, nor costs more than about the filled cells of its blocks.
#![tactic(auto)]

mod function;
mod tally;
mod value;

pub use function::LogicFn;
pub use value::logic;
