//! Cases that are data: how they stand in files, and the count of those that ran.
//!
//! A file of cases is one of two things. In a page of Markdown each row of a table whose first cell begins with a
//! backtick says something, which [`cells_of`] reads. In a document of TOML each case is a table, and [`Row`] says what
//! stands under its keys:
//!
//! ```text
//! let table = toml::table_from_str(alloc, "text = '=A1'\nlevels = 1")?;
//! let row = Row::new(&table, &[("text", Form::Text)], &[("levels", Form::Number)])?;
//! row.text("text")          // Some("=A1")
//! row.number("levels")      // Some(1)
//! row.text("levels")        // None
//! ```
#![tactic(auto)]

mod form;
mod page;
mod row;
mod tally;

pub use form::{Form, Key};
pub use page::cells_of;
pub use row::Row;
pub use tally::Tally;
