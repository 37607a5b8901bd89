//! The lines of every place of a workbook, inside its sheet or past its end.
//!
//! [`stable_lines`] gives each row and each column of a sheet a number that stays while operations move it. Here every
//! place has two such numbers, those of its row and its column: its [`LineSpot`]. A position past the sheet's end, where no
//! line is, counts as a line of its own that never moves. So what stands at a place can be kept under its spot, and what
//! is said of a block under its [`LineArea`], the spots of its two corners: an operation then changes nothing of what it
//! only carries along.
//!
//! After two rows are put before row 5 (counted from 0) the spot of a place in row 7 is that of the place in row 9:
//!
//! ```text
//! let lines = PlaceLines::new(alloc)?;
//! let spot = lines.spot(Place { sheet: 0, row: 7, col: 1 });
//! let two_rows = Shift::InsertRows { sheet: 0, at: 5, count: 2 };
//! let moved = lines.moved(alloc, &two_rows)?;
//! moved.place(spot)  // Some(Place { sheet: 0, row: 9, col: 1 })
//! ```
#![tactic(auto)]

mod area;
mod laws;
mod lines;
mod moved;
mod past;
mod runs;
mod spot;

pub use area::LineArea;
pub use laws::{
    known_spots_were_there, places_keep_their_spots, spots_return, unbent_blocks_keep_their_spots,
};
pub use lines::PlaceLines;
pub use spot::LineSpot;
