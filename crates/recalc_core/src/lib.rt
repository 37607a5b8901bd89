//! The values of a workbook, kept from one change to the next and worked out anew only where a change may have reached them.
//!
//! A [`Recalc`] stands for a finite map from nodes to the values that are kept of them, and for a list of marks, each of which
//! stands once. Whoever changes a workbook marks the nodes that no longer do as before, and takes values and marks along with
//! a structural operation by [`Recalc::shift`]; a read calls [`Recalc::recalculate`] first. The graph of needs says what
//! reaches a mark, in which order, and what of it is on a cycle; each of these nodes is worked out once, over what is kept of
//! all that it needs, and its value is kept. So a value that no mark reaches is never worked out again.
//!
//! Values of places stand in a grid (`grid_store`), so that an operation moves none of them, and an area is made of what is
//! kept in its block alone. The workbook is behind a trait of two questions, [`Trees`]: what stands at a node, and which name
//! a word finds. Sums go on from kept summaries of shorter ranges, as `range_table` has them.
//!
//! ```text
//! let mut recalc = Recalc::new(alloc)?;
//! recalc.mark(a1)?;                                              // A1 was changed
//! recalc.recalculate(&graph, &mut trees, &registry, day, &mut steps)?;
//! recalc.value(b1)                                               // that of B1, which reads A1
//! recalc.recalculate(&graph, &mut trees, &registry, day, &mut steps)?; // no step: there is no mark
//! ```
#![tactic(auto)]

mod kept;
mod laws;
mod marks;
mod names;
mod planning;
mod recalc;
mod recalculation;
mod seen;
mod settling;
mod shifting;
mod trees;
mod working;

pub use laws::{
    all_marked_fit, cell_changes_alone, chains_are_needs, changes_keep_fit, cycles_agree,
    linking_holds, moves_keep_fit, name_changes_its_users, names_show_kept, places_show_kept,
    shifts_go_back,
};
pub use recalc::Recalc;
pub use trees::{NodeContent, Trees};
