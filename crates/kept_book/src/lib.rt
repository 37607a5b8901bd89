//! A workbook as it is kept: formulas along a line of operations, cells, sheets and names.
//!
//! A [`Book`] keeps the formulas of its cells and names in one store along a line ([`lazy_store::Lazy`]), each under an id,
//! and the ids in a grid of cells and a table of names. A structural operation goes on the line and moves the cells; no
//! formula is rewritten until it is read. Every call that changes the book answers a [`Part`]: what it replaced and wrote.
//! [`Book::back`] and [`Book::forth`] go over parts: they put back what a part lists, and move the line's cursor.
//!
//! Contracts speak of the book's frame, its cells and names with ids in place of formulas, and of the standing of each
//! formula at each position of the line; from both follows the workbook that the book shows.
//!
//! ```text
//! let set = book.fill(&mut pool, a1, "=B5")?;
//! let part = book.shift(&mut pool, &Shift::InsertRows { sheet: 0, at: 1, count: 1 })?;
//! book.formula(&mut pool, a1)?      // the tree of =B6
//! book.back(&[part])?;
//! book.formula(&mut pool, a1)?      // the tree of =B5
//! ```
#![tactic(auto)]

mod book;
mod copying;
mod exchange;
mod filling;
mod looking;
mod naming;
mod part;
mod passing;
mod pasting;
mod renaming;
mod setting;
mod sheets;
mod shifting;
mod stepping;
mod writing;

pub use book::Book;
pub use naming::home_in;
pub use part::{NameChange, Part, SheetChange};
pub use passing::Side;
