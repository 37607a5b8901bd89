//! The value of a formula: its tree worked out over what a [`View`] shows.
//!
//! [`eval`] answers the meaning of a tree in a formula at a home. A view says what each place shows, what the
//! cells of a block are and what their numbers come to, what a word names, and which day it is. A workbook
//! is one, and so is whatever else can answer that.
//!
//! Only what is chosen is worked out: of `=IF(A1,B1,1/0)` the third argument where A1 is FALSE. SUM, AVERAGE,
//! MIN, MAX and COUNT ask the view for the summary of a block, so that a view can keep summaries; all other
//! functions ask it for the block's cells.
//!
//! A view that keeps neither blocks nor summaries can read its [`ShownCells`] one after another, by [`area_of`] and
//! [`summary_of`].
//!
//! Work is counted in [`steps::Steps`]: at most one step for each node of the tree, beside those that summaries
//! take.
#![tactic(auto)]

mod argument;
mod call;
mod cells;
mod customs;
mod filled;
mod view;
mod walk;

pub use cells::{ShownCells, area_of, summary_of};
pub use customs::Customs;
pub use filled::{filled_area, filled_summary};
pub use view::{NameView, View};
pub use walk::eval;
