//! Lines of a sheet under numbers that stay.
//!
//! Each row (or column) of a sheet has a number, its line, which no structural operation on other rows
//! changes. A [`LineTable`] says which line stands at each position along one axis of a sheet, and where
//! each line stands. It is kept as [`Run`]s of positions whose lines follow one another, in levels: a small
//! table, which an edit makes anew, over larger ones, which copies share and which are composed as they
//! fill. So an edit costs a small number of runs, and over many edits the logarithm of their number more,
//! however many rows or cells there are. [`SheetLines`] has such a table for each sheet; one that was never
//! edited has each line at the position of the same number.
//!
//! After two rows are put before row 5 the line 7 stands at position 9, and rows 5 and 6 have lines with
//! numbers that no row had:
//!
//! ```text
//! let table = LineTable::new(alloc, 1_048_576)?;
//! let edited = table.edited(alloc, Edit::Insert { at: 5, count: 2 })?;
//! edited.position(7)  // Some(9)
//! edited.line(5)      // Some(1_048_576)
//! ```
#![tactic(auto)]

mod composed;
mod far;
mod laws;
mod level;
mod levels;
mod run;
mod sheets;
mod table;
mod turn;

pub use laws::positions_return;
pub use run::Run;
pub use sheets::SheetLines;
pub use table::LineTable;
