//! Questions about a session, which change nothing of it: what kind of content cells have, which are filled and how far a sheet is
//! used, what the cells of a block show, which are on a cycle, which names there are, what a text would be as a formula, and what a
//! cell needs and is needed by.
//!
//! Each is a function over the [`Parts`] of a session; whoever holds them, as an engine, hands them on. What a question tests first,
//! it tests as the operation does whose refusals it shares. A question that reads a formula takes that along the line, and one about
//! values brings what is kept of them up to date; nothing else of what is kept changes, and the session stays as it is.
//!
//! ```text
//! let mut parts = Parts::build(alloc, &sheets, 20)?;
//! used_area(&parts, 0)?                           // the least block over the filled cells
//! dependents(&mut parts, a1)?                     // the cells and names that need A1
//! normal_text(&mut parts, 0, "=sum(a1:a3)")?      // =SUM(A1:A3)
//! ```
//!
//! [`Parts`]: session_operations::Parts
#![tactic(auto)]

mod areas;
mod cycles;
mod formulas;
mod links;
mod listing;
mod shown_cells;
mod shown_name;

pub use areas::{Kind, cell_kind, filled, filled_in, used_area};
pub use cycles::on_cycle;
pub use formulas::{names_in, normal_text, wrong_span};
pub use links::{dependents, precedents};
pub use listing::{NameEntry, name_text, names_listed};
pub use shown_cells::values;

// What callers need of the crate below.
pub use session_operations::{Parts, SessionValues, Stop, Values, Waiting};
