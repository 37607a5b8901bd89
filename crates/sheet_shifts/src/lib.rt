//! The operations of a run by the sheets that they meet, for whoever takes many formulas over the same run.
//!
//! A [`SheetShifts`] is made once for a run of [`shift_core::Shift`]s, and dropped with it. An [`Ahead`] is the
//! [`run_walk::Way`] over the run from one of its operations on. Each sheet has three lists: the edits of its rows, those
//! of its columns, and the other operations that meet it, which move cells or drop a sheet. Between two of these a row
//! goes by the edits of rows alone and a column by those of columns, and so do ranges of whole rows and of whole columns,
//! however many other operations the run has.
//!
//! Rows inserted on sheet 0, columns deleted there, cells moved from sheet 0 to sheet 1, rows deleted on sheet 2:
//!
//! ```text
//! index          0          1             2              3
//!                rows, 0    columns, 0    cells, 0, 1    rows, 2
//! sheet 0
//!   rows         0
//!   columns                 1
//!   others                                2
//! sheet 1
//!   others                                2
//! sheet 2
//!   rows                                                 3
//! ```
#![tactic(auto)]

mod ahead;
mod entry;
mod left;
mod lists;
mod shifts;

pub use ahead::Ahead;
pub use shifts::SheetShifts;
