//! The values of cells: what a formula computes with, how one kind of value becomes another, and
//! the order of values of all kinds.
//!
//! A [`Scalar`] is nothing, a number, a text, a truth value or a [`FaultKind`]. As a number the text
//! `1.5` is 1.5, TRUE is 1 and an empty cell is 0; `"Apple"` and `"apple"` compare as equal, and
//! `"2"` stands after the number 3, since each text stands after all numbers.
//!
//! An [`Area`] has the values of a block's cells. It keeps those that aren't empty, and contracts see
//! those of all cells, row by row. An [`Arg`] is an argument of a function, one value or an area, and
//! a [`Summary`] is what the numbers of many values come to.
#![tactic(auto)]

mod area;
mod argument;
mod fault;
pub mod laws;
mod order;
mod scalar;
mod summary;

pub use area::{Area, Filled};
pub use argument::Arg;
pub use fault::FaultKind;
pub use order::compare_texts;
pub use scalar::{MAX_MADE_TEXT, Scalar};
pub use summary::Summary;
