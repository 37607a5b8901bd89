//! The words of the command line, and what they say.
//!
//! ```text
//! sheetrun [--undo-limit N] [--strict] [--script FILE] [--generate N] [BOOK.csv ...]
//! ```
//!
//! [`words`] reads the words behind the program's name:
//!
//! ```text
//! --strict --undo-limit=5 a.csv      at most 5 steps of undo, strict, the book a.csv
//! --generate 3                       a generated list of commands of size 3
//! --generate 3 a.csv                 refused
//! ```
#![tactic(auto)]

mod error;
pub mod laws;
mod reading;
mod said;

pub use error::WordsError;
pub use reading::words;
pub use said::{DEFAULT_UNDO, GENERATE_DIGITS, MAX_GENERATE, MAX_UNDO, UNDO_DIGITS, Words};
