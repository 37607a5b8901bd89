//! The values of a session's workbook, kept from one call to the next.
//!
//! [`SessionValues`] stand beside a [`kept_steps::Session`]: nothing is kept at first. The first read links and works out the whole
//! workbook; after that a change marks the cells that it touches, and the next read works out what these reach. After a change of
//! which it isn't known what it touches, [`SessionValues::forget`] makes the next read begin anew. A structural operation takes
//! along what is kept: [`touched_by`] lists what it touches before it is done, [`SessionValues::shift`] follows. Where it is taken
//! back, [`restored_by`] lists what comes back then, and [`SessionValues::take_back`] follows. A step of several parts is followed
//! part by part ([`SessionValues::parts_turned_back`]).
//!
//! ```text
//! let mut values = SessionValues::nothing();
//! values.refresh(&mut session, &registry, day, &mut steps)?;   // links and works out the workbook
//! values.touch(at)?;
//! session.fill(at, "=A1+1")?;
//! values.refresh(&mut session, &registry, day, &mut steps)?;   // works out the cell, and what it reaches
//! values.shown(alloc, at)?
//! ```
#![tactic(auto)]

mod laws;
mod listing;
mod naming;
mod parts;
mod reading;
mod shifting;
mod touching;
mod using;
mod values;

pub use laws::{cells_follow, reads_follow};
pub use listing::{restored_by, touched_by};
pub use naming::NameTurn;
pub use parts::are_of_cells;
pub use values::SessionValues;

// What callers need of the crate below.
pub use kept_values::Values;
