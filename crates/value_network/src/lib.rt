//! What each cell of a workbook shows, as a definition over a small network of nodes.
//!
//! A `Network` (specs/Network.antt) says which nodes have a formula, which nodes each of them
//! needs, and what a node works out where the others show given values. `value` says what a node
//! shows: each round works every node out anew from what the nodes showed before it, and after as
//! many rounds as there are formulas, and one more, nothing changes. A node on a cycle shows one
//! fixed value. A workbook's cells are such a network, so the laws here (specs/Laws.antt) hold of
//! them.
//!
//! Nothing here runs in the engine but the example: a [`Slot`] of a row is a number or the sum of
//! two slots before it, a row is a network, and [`row_numbers`] works its values out:
//!
//! ```text
//! row_numbers(alloc, &[Slot::Number(4), Slot::Sum(0, 0), Slot::Sum(0, 1)])?   // 4, 8, 12
//! ```
#![tactic(auto)]

pub mod laws;
mod row;

pub use row::{Slot, row_numbers};
