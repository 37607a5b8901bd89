//! The structural operations of a sheet, and what they do to places, blocks and whole ranges.
//!
//! A [`Shift`] inserts, deletes or moves rows or columns, moves a block of cells, or drops a sheet.
//! [`moved_place`] and [`moved_block`] say where a reference points afterwards; [`back_place`] and
//! [`back_block`] say what it pointed at before, [`moved_whole`] and [`back_whole`] the same of all rows or all
//! columns from one to another. Inside, a shift has one of three [`Form`]s, and what it does to
//! rows and to columns is one [`Edit`] of the lines along an axis. [`Shift::opposite`] is the operation that takes
//! a shift back. The laws say what these have in common, such as that a place that isn't lost comes back. Two rows
//! put before row 5 (counted from 0) move a place in row 7 to row 9, and back again:
//!
//! ```text
//! let two_rows = Shift::InsertRows { sheet: 0, at: 5, count: 2 };
//! moved_place(&two_rows, Place { sheet: 0, row: 7, col: 1 })  // Some(Place { sheet: 0, row: 9, col: 1 })
//! back_place(&two_rows, Place { sheet: 0, row: 9, col: 1 })   // Some(Place { sheet: 0, row: 7, col: 1 })
//! ```
#![tactic(auto)]

mod cells;
mod edit;
mod form;
mod laws;
mod shift;
mod whole;

pub use cells::{carried_place, destination};
pub use edit::Edit;
pub use form::Form;
pub use laws::{
    blocks_are_lost_with_their_places, blocks_cover_what_moves, blocks_stay_inside,
    lost_entries_restore, lost_wholes_are_bent, moved_blocks_end_at_their_lines,
    moved_entries_are_found, moved_entries_stay_inside, no_two_meet, one_cells_move_alike,
    opposites_are_sound, opposites_go_back, places_come_back, places_go_by_opposites,
    places_go_forth, places_stay_inside, unbent_blocks_come_back, unbent_blocks_go_by_opposites,
    unbent_blocks_keep_offsets, unbent_wholes_come_back, unbent_wholes_go_by_opposites,
    unbent_wholes_keep_offsets, wholes_move_as_blocks, wholes_stay_inside,
};
pub use shift::{Shift, back_block, back_place, is_bent, is_cut, moved_block, moved_place, sound};
pub use whole::{back_whole, bends_whole, moved_whole, runs_across};
