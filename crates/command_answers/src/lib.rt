//! Commands answered over an engine: what each asks of it, and the line that answers it.
//!
//! A [`Session`] holds an engine of `book_engine` and executes one command of `script_lang` at a time. An [`Answer`] is
//! the command's line, and whether the command is refused; [`record_text`] says why a record is no command. Where the
//! commands come from and where the lines go is the caller's affair:
//!
//! ```text
//! Set(A1, 0.1)               ok
//! Set(A2, =A1+2)             ok
//! InsertRows(Sheet1, 0, 1)   ok
//! Formula(A3)                =A2+2
//! Undo, Undo, Undo, Undo     ok, ok, ok, refused 11 NothingToUndo
//! ```
#![tactic(auto)]

mod line;
mod links;
mod session;

pub use line::record_text;
pub use session::{Answer, Session};
