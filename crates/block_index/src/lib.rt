//! Rectangles of numbered lines under numbers, so that a cell finds the numbers of the rectangles that cover it.
//!
//! Rows and columns are lines, under whatever numbers the caller gives them, and a cell is a row and a column of a
//! sheet. Rows by columns are filed under the few slots into which they are cut ([`block_slots`]), and each slot has a
//! list of numbers. A cell lies in one slot of each size, so the lists that it needs are found by one look-up for each
//! size in use, however many rectangles there are. The slots have numbers themselves, so that they can stand between
//! cells and rectangles as the nodes of a graph: a cell leads to its slots, and a slot to what is filed under it.
//!
//! ```text
//! let mut index = BlockIndex::new(alloc);
//! index.file(0, 1..4, 5..6, 7)?;        // rows 1 to 3 by column 5 of sheet 0
//! let slots = index.slots_at(0, 2, 5)?; // one slot
//! index.filed(slots[0])                 // 7
//! ```
#![tactic(auto)]

mod index;
mod key;

pub use index::BlockIndex;
