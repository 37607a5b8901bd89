//! What a run of the program opens before its first reply: its books and its script.
//!
//! [`open_books`] reads the sheets that the session begins with from a `Folder` of `book_files`, and [`open_script`] the
//! bytes of the script, from there or from a `Source`. Where one of them can't be opened, an [`Ending`] says how the run
//! ends:
//!
//! ```text
//! let sheets = open_books(alloc, &mut folder, &files)?;                   // or: book prices.csv: too many rows
//! let script = open_script(alloc, &mut folder, &mut input, &Some(file))?; // or: script a.txt: missing
//! ```
#![tactic(auto)]

mod books;
mod ending;
mod script;

pub use books::{empty_book, open_books};
pub use ending::{Ending, NO_BOOK, TOO_LONG};
pub use script::open_script;
