//! The values of a workbook that changes: the links of its formulas, the values that are kept of its cells and names, and marks.
//!
//! [`Values`] follow a workbook that stands behind [`recalc_core::Trees`]. Whoever changes the workbook marks what it touches, and
//! nothing is linked or worked out before the next read: [`Values::refresh`] links the marked nodes anew and works out what
//! reaches a mark, once. A second refresh takes no step. Where links alone are asked for, [`Values::link`] links the marked
//! nodes; the next refresh then links what was marked since. [`Values::on_cycle`] tells by the links which cells are on a cycle. A
//! structural operation takes links, values and marks along:
//! [`Values::shift`]; and so does its opposite, where it is taken back: [`Values::take_back`].
//!
//! ```text
//! let mut values = Values::new(alloc)?;
//! values.mark_all(everything.items())?;
//! values.refresh(&mut session, &registry, day, &mut steps)?;  // links and works out the workbook
//! values.mark(Node::Cell(at))?;                                // the cell was changed
//! values.refresh(&mut session, &registry, day, &mut steps)?;  // links it, and works out what it reaches
//! values.value(Node::Cell(total))
//! values.shift(&row_put_first, &[])?;                            // a row was put before the first: all stands a row lower
//! values.take_back(&row_put_first, &first_row_deleted, &[], &[])?; // it was taken back
//! ```
#![tactic(auto)]

mod asking;
mod cycles;
mod linking;
mod links;
mod noting;
mod refreshing;
mod seeking;
mod shifting;
mod sought;
mod taken_back;
mod values;

pub use values::Values;
