//! Formulas over runs of structural operations, in one walk that makes only the final tree.
//!
//! [`forward_over`] takes a formula's shared tree and its home over a run of [`shift_core::Shift`]s as
//! [`tree_rewrite::forward`] over one after the other would: each reference is taken over the whole run before the next
//! one, so no tree is made in between. [`free_run`] says beforehand over how many operations from the front of the run
//! nothing of the tree is lost, so that whoever wants to go back keeps the tree where something is. [`backward_over`]
//! takes tree and home back over a run, as [`tree_rewrite::backward`] over one after the other would, from the last to
//! the first.
//!
//! Whoever takes many formulas over one run can have a [`Way`] made for it, which answers for places, blocks and whole
//! ranges without a look at each operation; [`free_by`] and [`forward_by`] go by that.
//!
//! A row inserted before row 2, another one, and then row 5 deleted, seen from cell A1 (rows counted from 1):
//!
//! ```text
//! =$B2+B4   over insert, insert   goes to   =$B4+B6    both operations are free
//! =$B2+B3   over all three        goes to   =$B4+#REF!   two are free, the third isn't
//! ```
#![tactic(auto)]

mod areas;
mod backward;
mod direction;
mod forward;
mod free;
mod run;
mod walk;
mod way;

pub use areas::carried_area;
pub use backward::backward_over;
pub use forward::{forward_by, forward_over};
pub use free::{free_by, free_run};
pub use run::{home_back, home_over};
pub use way::{Steps, Way};
