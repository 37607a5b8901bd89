//! The filled cells of a workbook, over structural operations.
//!
//! A [`Grid`] stands for a finite map from places to what cells hold: [`Cell`]s, or any values of which equal ones can be made
//! ([`Duplicate`]). It keeps each cell under the lines of its row and its column, which stay as other rows and columns are
//! inserted, deleted or moved. So such an operation costs the number of cells that it loses, and not that of all cells. A block
//! is listed by what is filled in its rows; whole columns by what is filled in them, since the keys stand in a second order too,
//! by columns. Several changes that are to be made together or not at all are made on the side first, by a [`Draft`], at no more
//! cost.
//!
//! ```text
//! grid.put(at, Cell::Number(n))?;
//! let removed = grid.apply(&Shift::DeleteRows { sheet: 0, at: 3, count: 2 })?;
//! grid.put_back(&Shift::DeleteRows { sheet: 0, at: 3, count: 2 }, removed)?;
//! ```
#![tactic(auto)]

mod cell;
mod cells;
mod change;
mod clearing;
mod columns;
mod copy;
mod draft;
mod drafting;
mod duplicate;
mod exchange;
mod found;
mod grid;
mod key;
mod list;
mod listing;
mod moving;
mod pushing;
mod restoring;
mod view;
mod way;

pub use cell::Cell;
pub use draft::Draft;
pub use duplicate::Duplicate;
pub use grid::Grid;
pub use list::CellList;
