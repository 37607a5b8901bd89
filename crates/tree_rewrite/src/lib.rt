//! Formulas over structural operations: where their trees and homes go, and what they were before.
//!
//! [`forward`] takes a formula's shared tree and its home over a [`shift_core::Shift`]: each reference follows its
//! place, each block and whole range its ends, a `$` stays, and what is lost becomes the fault `#REF!`. An operation on
//! rows leaves a range of whole columns, and one on columns a range of whole rows. [`backward`] takes them back, as far
//! as the tree after the operation tells: what was lost stays `#REF!`, and a block or whole range that was cut stays so.
//! [`loses`] says beforehand whether that happens, so that whoever wants to go back can keep the tree.
//!
//! A tree that stays as it is seen from its home, as those of a column of formulas under an inserted row do, is not
//! made anew, and neither are the parts of a tree that stay.
//!
//! Row 5 deleted, and put back (rows counted from 1):
//!
//! ```text
//! =SUM(B4:B9)*B5   goes to   =SUM(B4:B8)*#REF!   and back to   =SUM(B4:B9)*#REF!
//! =$B4+B9          goes to   =$B4+B8             and back to   =$B4+B9
//! =SUM(4:$9)       goes to   =SUM(4:$8)          and back to   =SUM(4:$9)
//! =SUM(B:C)        goes to   =SUM(B:C)           and back to   =SUM(B:C)
//! ```
#![tactic(auto)]

mod areas;
mod corners;
mod direction;
pub mod laws;
mod loss;
mod passage;
mod replacement;
mod rewrite;
mod walk;

pub use areas::{back_area, moved_area};
pub use direction::Direction;
pub use loss::loses;
pub use replacement::{Replacement, changed_area, changed_cell, replaced};
pub use rewrite::{backward, forward};
