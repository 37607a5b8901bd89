//! Draws of numbers, places, blocks and structural operations, which look random and are the same for the same seed.
//!
//! A list of calls that is drawn shows a crate beside a plain model. Its places lie near a [`Corner`] of the first two
//! sheets, so that calls meet one another and the sheet's ends; blocks and whole ranges begin there, blocks may end
//! outside, and an operation may not fit its sheet.
//!
//! ```text
//! let mut draws = Draws::new(seed, Corner::Last);
//! draws.below(20)      // a number from 0 to 19
//! draws.place()        // a place among the last rows and columns
//! draws.shift()        // an operation on lines, cells or a sheet there
//! ```
#![tactic(auto)]

mod corner;
mod draws;
mod shifts;

pub use corner::Corner;
pub use draws::Draws;
