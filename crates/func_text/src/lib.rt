//! The functions of texts: LEN, LEFT, RIGHT, MID, CONCATENATE, TRIM, REPT, EXACT, FIND, SUBSTITUTE and
//! VALUE.
//!
//! [`texts`] is the value of a [`TextFn`] of its arguments, and [`TextFn::named`] the function of a word:
//! `texts(alloc, TextFn::Len, args)` is the number of a text's characters.
//!
//! Characters are Unicode scalar values, counted from 1. A text that a function makes has at most 32,768
//! bytes, else the value is `#VALUE!`. Each function costs about what it reads and writes, FIND and
//! SUBSTITUTE too, whatever the texts are.
#![tactic(auto)]

mod argument;
mod find;
mod function;
mod join;
pub mod laws;
mod part;
mod substitute;
mod trim;
mod value;

pub use function::TextFn;
pub use value::texts;
