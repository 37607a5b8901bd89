//! Formulas that stay as they are while structural operations run past them.
//!
//! A [`Lazy`] has a line of operations, a [`shift_line::Line`], and holders, each with a formula as of one position of
//! the line. An operation only goes on the line: no formula changes. A formula is taken along the line when it is
//! read, over the operations between its position and the cursor, forward by [`tree_rewrite::forward`] and back by
//! [`tree_rewrite::backward`]. Where an operation loses something of a tree, the tree from before it is saved, and
//! taken again on the way back; so undo is a move of the cursor.
//!
//! Contracts speak of the standing, home and tree, that a formula has at each position of the line. Reading changes
//! none of them, whichever formulas are read, at which cursors and how often.
//!
//! The formula `=B5` of cell A1, a row inserted before row 2, and the cursor moved (rows counted from 1):
//!
//! ```text
//! position        0              1
//!                 |  insert row  |
//! standing       =B5            =B6      position 0 is where it is kept, until it is read at 1
//! ```
#![tactic(auto)]

mod among;
mod catching_up;
mod holder;
mod holders;
mod homes;
pub mod laws;
mod lazy;
mod lookup;
mod pending;
mod recent;
mod stored;

pub use lazy::Lazy;
pub use stored::Stored;
