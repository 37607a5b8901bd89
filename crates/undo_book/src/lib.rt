//! Undo and redo of any entries, up to a limit.
//!
//! An entry is whatever takes its owner one step back or forward; this crate never looks into one. An [`UndoBook`] is
//! two lists of entries: those that are done, the newest last, and those that were undone, the next one to be done
//! again last. A step moves one entry from the end of one list to the end of the other.
//!
//! ```text
//!                  done        undone
//! push a, b, c     a b c                   a new entry is the newest, and empties the other list
//! step_back        a b         c
//! step_back        a           c b
//! step_forward     a b         c
//! push d           a b d                   c is dropped
//! ```
//!
//! Neither steps nor pushes take memory: the room for as many entries as the limit allows is taken as the book is made. So
//! an owner can change itself first, and then note what it did.
#![tactic(auto)]

pub mod laws;
mod undo_book;

pub use undo_book::UndoBook;
