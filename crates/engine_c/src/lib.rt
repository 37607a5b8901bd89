//! The engine as a static library for C. `faces/c/fazhundel.h` says what each call means.
//!
//! Each exported call takes the session out of the caller's [`Book`], makes one call of it, and puts it back. What a call
//! does stands in `engine_face`; here are the calls alone.
#![tactic(auto)]

mod areas;
mod book;
mod cells;
mod clipboard;
mod handle;
mod listing;
mod names;
mod opening;
mod questions;
mod sheets;
mod states;
mod undoing;

pub use book::Book;
pub use handle::Handle;
