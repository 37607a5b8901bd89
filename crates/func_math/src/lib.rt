//! The functions of numbers: sums, counts, products, criteria, rounding and division.
//!
//! [`math`] is the value of a [`MathFn`] of its arguments, and [`MathFn::named`] the function of a
//! word: `math(alloc, MathFn::Sum, args)` is the exact sum of what `args` list.
//!
//! No function costs more than about the filled cells of its blocks: an empty cell costs nothing.
#![tactic(auto)]

mod count;
mod criterion;
mod division;
mod function;
mod product;
mod rounding;
mod sum;
mod sum_if;
mod value;

pub use criterion::{Comparison, Criterion};
pub use function::MathFn;
pub use sum::summarized;
pub use value::math;
