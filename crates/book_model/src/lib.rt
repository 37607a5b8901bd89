//! The plain machine of a workbook session: what every operation does, why it is refused, and what it answers.
//!
//! It stands in the specs alone: a workbook is a list of sheets, a finite map from places to contents
//! (`Workbook.antt`), and one from scopes and words to the trees of names (`Names.antt`); an operation is refused by
//! the first cause of its line in a table (`Refusals.antt`), and else gives the next session (`Session.antt`,
//! `Changes.antt`) and an answer (`Answers.antt`). The engine's contracts cite these definitions, and so do those of
//! what stands over it.
//!
//! What runs are the plain types that they speak of: a [`Refusal`], the sheets that a session begins with, and
//! [`read_content`], which says what the text given to a cell is. `read_content(alloc, "=A1")` is a formula, and
//! `read_content(alloc, "007")` the number 7.
#![tactic(auto)]

mod content;
mod given;
pub mod laws;
mod limits;
mod name;
mod refusal;
mod sheet_name;

pub use content::{ContentText, read_content, text_given};
pub use given::{BookCell, BookCells, BookSheet};
pub use limits::{MAX_CELLS, MAX_NAME, MAX_SHEET_NAME, MAX_SHEETS, MAX_TEXT, MAX_UNDO};
pub use name::is_name;
pub use refusal::Refusal;
pub use sheet_name::is_sheet_name;
