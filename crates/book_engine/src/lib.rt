//! A workbook engine that applications embed.
//!
//! An [`Engine`] holds a workbook of several sheets. Its calls change cells, sheets and named expressions, move, insert
//! and delete rows and columns, and read values and formulas; every formula follows each structural operation. A call
//! that is refused answers why, and changes nothing.
//!
//! ```text
//! let mut engine = Engine::build(alloc, &sheets, 20, registry, day)?;
//! engine.set(a1, "=B2*2")?;
//! engine.insert_rows(sheet, 1, 1)?;
//! engine.formula(a1)?       // =B3*2
//! ```
//!
//! [`EngineParts`] are all that an engine consists of: [`Engine::parts`] takes it apart into them, [`Engine::joined`] makes it of
//! them again.
#![tactic(auto)]

mod areas;
mod asking;
mod cause;
mod cycles;
mod engine;
mod formulas;
mod giving;
mod idle;
pub mod laws;
mod listing;
mod shown_cells;
mod taken_apart;
mod writing;

pub use cause::Change;
pub use engine::Engine;
pub use taken_apart::EngineParts;

// What callers need of the crates below, so that an application lists this crate alone.
pub use book_model::{BookCell, BookCells, BookSheet, Refusal};
pub use calc_eval::Customs;
pub use cell_addr::{Block, Place, Text};
pub use cell_value::{FaultKind, Scalar};
pub use custom_fn::Registry;
pub use fix_num::Fixed;
pub use formula_parse::TextSpan;
pub use formula_tree::Link;
pub use kept_steps::Entry;
pub use session_questions::{Kind, NameEntry, Stop};
pub use shift_core::Shift;
pub use steps::Steps;
