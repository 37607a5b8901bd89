//! Blocks cut into aligned rectangles, the slots under which what is said of a block can be filed.
//!
//! A [`Segment`] is a run of lines (rows or columns, by position or by any other number) whose length is a
//! power of two and which starts at a multiple of its length. A [`Slot`] is a segment of rows by a segment of
//! columns. [`slots`] cuts a block into slots: few, since a run of n lines has at most two segments of each
//! length up to n. A cell is in one slot of each [`Size`], so all slots that may hold it are found by one
//! look-up for each size in use, whatever the number of blocks.
//!
//! Rows 1 to 6 and column 3 are cut into slots of one, two, two and one rows:
//!
//! ```text
//! let slots = slots(alloc, 1..7, 3..4)?;
//! slots[0]                      // rows: level 0, index 1; cols: level 0, index 3
//! slots.len()                   // 4
//! slots[1].has(6, 3)            // false
//! slots[1].size().slot_at(6, 3) // the slot of rows 6 to 7
//! ```
#![tactic(auto)]

mod cut;
mod laws;
mod segment;
mod slot;

pub use cut::{segments, slots};
pub use laws::segments_are_aligned;
pub use segment::Segment;
pub use slot::{Size, Slot};
