//! The line of a session's structural operations.
//!
//! A [`Line`] keeps operations in order, with a cursor between them. Undo takes the cursor back and redo forward;
//! a new operation cuts off what lies beyond the cursor. Positions number all operations that the session ever
//! put on its line, so a position means the same as long as it is kept; the oldest can be forgotten.
//!
//! ```text
//! position    first = 2        cursor = 4        last = 5
//!                |  insert, delete  |     move      |
//! ```
#![tactic(auto)]

mod line;

pub use line::Line;
