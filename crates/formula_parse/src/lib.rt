//! Formulas' texts read into trees.
//!
//! [`parse`] is the tree that a text spells, and [`ParseError::Bad`] where no tree of at most 64 levels is
//! spelt. A text is read in one pass, by operator precedence, each token as it is wanted: no list of tokens
//! is made, and references are seen from the home of the formula at once.
//!
//! [`parse_error`] tells the part of a text that is wrong: the first token at which no formula goes on.
//!
//! [`migrated`] takes a text along that was written when a sheet had fewer rows: what was a name and would be an address
//! gets one `_` more, and [`migrated_name`] does so to a name that is given.
//!
//! `=-2^2` is read as `(-2)^2`, since signs bind more strongly than powers; its tree has 3 levels. The
//! tokens of `A1+0.5` are A1, `+` and 0.5.
#![tactic(auto)]

mod formula;
mod frames;
mod front;
pub mod laws;
mod lexer;
mod migration;
mod progress;
mod reader;
mod run;
mod token;
mod wrong;

pub use formula::{ParseError, parse};
pub use migration::{migrated, migrated_name};
pub use wrong::{TextSpan, parse_error};
