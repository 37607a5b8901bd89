//! The commands of a script: what its records say.
//!
//! A record's first field is the word of a command, and the fields behind it are its arguments. Which fields follow which
//! word is one table, `Word::line`, and in the definitions `specs/Words.antt`. [`command`] reads a record, and says of one
//! that is no command why it is none:
//!
//! ```text
//! set,A1,0.1            Set(A1, 0.1)
//! insert-rows,Two,3,1   InsertRows(Two, 2, 1): rows are counted from 0
//! frob,1                unknown command
//! value,??              bad field 1
//! ```
//!
//! A script whose first record is `version,1` was written when a sheet had 40,000 rows. [`command_in`] takes its texts and
//! names along: what is an address now and was a name gets one `_` more.
//!
//! What answers a command is printed as one line: [`line`] says how a text stands in it.
#![tactic(auto)]

mod arguments;
mod commands;
mod error;
mod form;
pub mod laws;
mod printed;
mod script;
mod word;

pub use commands::{Command, Version};
pub use error::ScriptError;
pub use formula_parse::{migrated, migrated_name};
pub use printed::line;
pub use script::{command, command_in, version_after};
