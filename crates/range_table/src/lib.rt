//! Kept summaries of ranges: what the numbers of a block's cells come to, worked out anew only as far as it must be.
//!
//! A [`Ranges`] stands for a finite map from blocks to summaries. [`Ranges::summary`] answers that of a block of cells that
//! have values, as [`ListedCells`] tells them, and keeps it. Where that of the block without its last row is kept, only the last
//! row is merged, so prefix sums over n rows cost n cells and not their square; and of a block that is large beside the
//! number of all filled cells only these are gone over. [`Ranges::touch`] gives up the summaries
//! whose blocks hold a cell that gets another value; these are found by slots, with no scan of all blocks.
//! [`Ranges::shift`] takes the summaries along with a structural operation. They are kept by the numbers of the lines of
//! their blocks ([`place_lines`]), which stay while operations move these, so that it looks only at the blocks that the
//! operation touches ([`touch_index`]).
//!
//! ```text
//! let mut ranges = Ranges::new(alloc)?;
//! ranges.summary(rows_1_to_3, &cells, &mut steps)?  // three steps
//! ranges.summary(rows_1_to_4, &cells, &mut steps)?  // one step more
//! ranges.touch(row_4)                               // gives up the second
//! ```
#![tactic(auto)]

mod cells;
mod changes;
mod copy;
mod fate;
mod files;
mod giving_up;
mod kept;
mod laws;
mod listing;
mod merging;
mod ranges;
mod shifting;
mod state;
mod summing;
mod table;

pub use cell_value::Summary;
pub use cells::ListedCells;
pub use laws::{few_cells_are_merged, kept_blocks_take_their_cells, touched_tables_stay_right};
pub use listing::add_nonempty;
pub use ranges::Ranges;
