//! What a face of the engine for another language stands on: a workbook as plain calls with statuses, numbers and bytes.
//!
//! A [`Session`] is an engine of one type, whose custom functions are rules that a [`RuleTable`] of numbers and bytes
//! tells. Each of its calls ends with a [`Status`], which has a number. A question writes its answer into the caller's
//! room: a value as a [`Shown`], a text at the head of a slice, links as a list of [`LinkRow`], places of an area as one of
//! [`PlaceRow`], its cells as one of [`CellRow`], names as one of [`NameRow`]. Cells to write are given as a list of
//! [`WrittenRow`], and a change that is asked about as a [`ChangeRow`].
//!
//! ```text
//! let mut session = Session::build(alloc, 20, 45_292, &table)?;
//! session.set(a1, "=2*3")                        // Status::Done
//! session.value(a1, &mut room, &mut shown)       // Status::Done, and shown.number is 6,000,000
//! ```
#![tactic(auto)]

mod areas;
mod asking;
mod cause;
mod cells;
mod links;
mod naming;
mod questions;
mod room;
mod session;
mod setting;
mod shown;
mod status;
mod writing;
mod wrong;

pub use areas::{PlaceRow, UsedArea};
pub use cause::ChangeRow;
pub use cells::CellRow;
pub use links::{LinkCounts, LinkRow};
pub use naming::NameRow;
pub use room::ListSizes;
pub use rule_table::{RulePair, RuleRow, RuleTable};
pub use session::Session;
pub use shown::Shown;
pub use status::Status;
pub use writing::WrittenRow;
pub use wrong::WrongPart;
