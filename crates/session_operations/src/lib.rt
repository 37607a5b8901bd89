//! The operations of a session, each refused or done, with which goes what is kept of its values.
//!
//! [`Parts`] are a [`kept_steps::Session`] and beside it the [`session_values::SessionValues`] that follow it. Each operation tests
//! first whether it is refused, by the causes of its line in the order in which `book_model` lists them. A change then marks what
//! it touches, or takes along what is kept, and then the session does it; a read of a value brings what is kept up to date. So
//! what is kept follows the session over every operation. One that is refused, or that wants memory, leaves the session as it was.
//! Why an operation would be refused can be asked beforehand, by the calls `check_*`.
//!
//! [`Waiting`] is what was copied or cut, until it is pasted; a [`Stop`] is why an operation ends without having been done.
//!
//! ```text
//! let mut parts = Parts::build(alloc, &sheets, 20)?;
//! parts.set(a1, "=B2*2")?;
//! parts.structural(&Shift::InsertRows { sheet, at: 1, count: 1 })?;
//! parts.formula(a1)?                              // =B3*2
//! parts.value(a1, &registry, day, &mut steps)?
//! ```
#![tactic(auto)]

mod absolute;
mod checks;
mod copying;
mod giving;
mod naming;
mod parts;
mod reading;
mod setting;
mod sheets;
mod shifting;
mod stepping;
mod stop;
mod undoing;
mod waiting;
mod writing;

pub use naming::read_tree;
pub use parts::Parts;
pub use reading::first_cell;
pub use setting::whole_sheet;
pub use stop::Stop;
pub use waiting::Waiting;

// What callers need of the crate below.
pub use session_values::{SessionValues, Values};
