//! Cells and blocks under numbers, so that a structural operation finds those that it touches.
//!
//! An operation on rows, columns or cells carries most of a workbook along as it is. A cell is *touched* where the
//! operation loses it or takes it along with moved cells, and a block where the operation loses it, changes its size,
//! displaces lines in it, cuts it at the sheet's end, or takes it along with moved cells. Cells and blocks are kept by the
//! numbers of their lines ([`place_lines`]), which stay while operations move these: what isn't touched need not be told of
//! an operation. So what is to be done for an operation can be done for the touched ones alone, which [`TouchIndex`] finds
//! without a look at the others. A touched block whose corners keep their lines is *handed on*: only the lines that an insert
//! puts in between are new to it.
//!
//! Three rows of a sheet, A1:A3, are a block under the number 7. A row put before row 1 (counted from 0) makes it larger,
//! and one put before row 5 doesn't touch it:
//!
//! ```text
//! let lines = PlaceLines::new(alloc)?;
//! let mut index = TouchIndex::new(alloc);
//! index.add_block(&lines, Block { sheet: 0, top: 0, left: 0, bottom: 2, right: 0 }, 7)?;
//! index.touched(&lines, &Shift::InsertRows { sheet: 0, at: 1, count: 1 })?; // 7
//! index.touched(&lines, &Shift::InsertRows { sheet: 0, at: 5, count: 1 })?; // none
//! ```
#![tactic(auto)]

mod band;
mod handed;
mod index;
mod laws;
mod meeting;
mod point;
mod points;
mod touched;

pub use handed::{fresh_part, hands_on};
pub use index::TouchIndex;
pub use laws::{
    blocks_are_handed_on, kept_blocks_stay, kept_cells_stay, untouched_blocks_stay,
    untouched_cells_stay,
};
