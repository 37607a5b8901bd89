//! What formulas mean: the definition of their meaning, and the functions that every workbook has, by their
//! words.
//!
//! The meaning of a tree is a definition of the specs, `meaning`, over a `World`: what each place shows, what
//! names stand for, and the day. What a tree needs, `mentions` and `mentions_name`, is defined beside it, and
//! laws say that a tree means the same, and takes as many steps at most, wherever all that it needs is the same.
//!
//! A call's arguments become data before its function sees them. A [`Function`] of data ([`DataFn`]) takes
//! values and blocks; one that chooses ([`ChoiceFn`]) takes values, and only the chosen one counts; one that
//! asks where a reference is ([`PlaceFn`]) takes places. A name as an argument stands for the [`Reference`]
//! that its own tree is, where it is one.
#![tactic(auto)]

mod argument;
mod block;
mod choice;
mod data;
mod function;
pub mod laws;
mod needs;
mod place;
mod reference;

pub use argument::Argument;
pub use block::SheetBlock;
pub use choice::Choice;
pub use data::data_value;
pub use function::{ChoiceFn, DataFn, Function, PlaceFn};
pub use needs::mentions;
pub use place::place_value;
pub use reference::Reference;
