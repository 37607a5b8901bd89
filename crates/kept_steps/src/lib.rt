//! The steps of a session over a kept workbook: changes are noted, undone and done again along the line.
//!
//! A [`Session`] is a workbook with what was done to it. Each change is a step, or part of the open batch, which becomes one
//! step; a step lists what its operations changed and nothing else. Undo puts that back and moves the line's cursor, redo does it
//! again; no workbook is kept beside the present one. A change after an undo cuts the line, and nothing can be redone then.
//!
//! Formulas that neither the workbook nor a step lists are dropped by changes that add formulas, now and then, and the oldest
//! operations, on which no step rests, are forgotten by structural changes once there are [`LEAST_SETTLED`] of them.
//!
//! Contracts speak of the session's state as the plain machine defines it, with whole workbooks in both lists: which
//! workbooks these are follows from the steps and from the standings of formulas along the line.
//!
//! A session is what a recalculation reads ([`recalc_core::Trees`]): what stands at a node, and which name a word finds.
//!
//! ```text
//! session.fill(a1, "=B2*2")?;
//! session.structural(&Shift::InsertRows { sheet, at: 1, count: 1 })?;
//! session.undo()?;                    // =B2*2 again, by the line
//! ```
#![tactic(auto)]

mod changing;
mod entry;
mod listing;
mod nodes;
mod noting;
mod reading;
mod session;
mod settling;
mod sweeping;
mod trees;
mod turned;
mod undoing;

pub use entry::Entry;
pub use session::Session;
pub use settling::LEAST_SETTLED;
pub use sweeping::LEAST_GROWTH;
pub use turned::name_alone;
