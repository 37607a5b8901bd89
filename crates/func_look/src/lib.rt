//! The look-ups: MATCH, VLOOKUP, HLOOKUP, INDEX and CHOOSE.
//!
//! [`look`] is the value of a [`LookFn`] of its arguments, and [`LookFn::named`] the function of a word:
//! `look(alloc, LookFn::Match, args)` is where a value stands in a row or a column.
//!
//! A look-up costs about the filled cells of its block, and a value at a known place as many steps as
//! their number has binary digits.
#![tactic(auto)]

mod choose;
mod function;
mod index;
mod lookup;
mod matching;
mod taken;
mod value;

pub use function::LookFn;
pub use value::look;
