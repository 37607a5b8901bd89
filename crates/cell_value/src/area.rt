// The values of a block's cells.
ghost use Rattle.std.specs.Prelude.{◌*◌, ◌<◌, ◌≡◌, true, length, OnOk, OnErr, slice_index_or, unwrap_or};
ghost use Rattle.std.specs.Option.{option_copied};
ghost use Rattle.cell_value.specs.Cells.{Cells, empty_cells, index_of, value_at, with_value, IsEmptyFrom};
ghost use Rattle.cell_value.specs.declared.scalar.Scalar.TheVariants.{Empty};
ghost use Rattle.cell_value.specs.Filled.{are_filled, spread};

use crate::scalar::Scalar;
use std::alloc::{AllocError, Global};
use std::marker::Model;

/// A cell of an area that isn't empty.
#[derive(Drop, Debug)]
pub struct Filled {
    /// How many cells of the area stand before it, row by row.
    pub index: u64,
    /// Its value.
    pub value: Scalar,
}

/// The values of the cells of a block, of which only those that aren't empty are kept.
///
/// Contracts see the number of rows, the number of columns, and the values of all cells, row by row.
#[derive(Drop, Debug)]
pub struct Area {
    rows: u32,
    cols: u32,
    filled: Vec<Filled>,
}

impl Model for Area {
    ghost Value = { Cells };

    ghost view = { λ a. record { rows = a.rows; cols = a.cols; values = spread 0 (a.rows * a.cols) a.filled.items } };

    ghost invariant = { λ a. (0 < a.rows) × (0 < a.cols) × (are_filled 0 (a.rows * a.cols) a.filled.items ≡ true) };
}

impl Area {
    /// Empty cells of so many rows and columns.
    pub fn new(alloc: Global, rows: u32, cols: u32) -> Area
        requires rows { 0 < rows }
        requires cols { 0 < cols }
        ensures { result ≡ empty_cells rows cols }
    {
        Area {
            rows,
            cols,
            filled: Vec::new(alloc),
        }
    }

    /// How many rows there are: at least one.
    pub fn rows(&self) -> u32
        ensures rows { result ≡ self.now.rows }
        ensures positive { 0 < result }
    {
        self.rows
    }

    /// How many columns there are: at least one.
    pub fn cols(&self) -> u32
        ensures cols { result ≡ self.now.cols }
        ensures positive { 0 < result }
    {
        self.cols
    }

    /// How many cells there are.
    pub fn size(&self) -> u64
        ensures size { result ≡ self.now.rows * self.now.cols }
        ensures values { result ≡ length self.now.values }
    {
        u64::from(self.rows) * u64::from(self.cols)
    }

    /// The cells that aren't empty, row by row.
    pub fn filled(&self) -> &[Filled]
        ensures ordered { are_filled 0 (self.now.rows * self.now.cols) result.now ≡ true }
        ensures values { self.now.values ≡ spread 0 (self.now.rows * self.now.cols) result.now }
    {
        self.filled.as_slice()
    }

    // Where the cell in this row and column stands among all, row by row.
    fn index(&self, row: u32, col: u32) -> u64
        ensures { result ≡ index_of self.now row col }
    {
        u64::from(row) * u64::from(self.cols) + u64::from(col)
    }

    /// The value of the cell in this row and column, or `None` where it is empty.
    ///
    /// It takes as many steps as the number of filled cells has binary digits.
    pub fn value(&self, row: u32, col: u32) -> Option<&Scalar>
        requires row { row < self.now.rows }
        requires col { col < self.now.cols }
        ensures { unwrap_or (option_copied result) Empty ≡ value_at self.now row col }
    {
        self.get(self.index(row, col))
    }

    /// The value of the cell before which so many others stand, row by row, or `None` where it is
    /// empty or there is none.
    ///
    /// It takes as many steps as the number of filled cells has binary digits.
    pub fn get(&self, index: u64) -> Option<&Scalar>
        ensures { unwrap_or (option_copied result) Empty ≡ slice_index_or self.now.values index Empty }
    {
        match self.filled.binary_search_by_key(&index, |cell| cell.index) {
            Ok(found) => Some(&self.filled[found].value),
            Err(_) => None,
        }
    }

    /// Gives the cell in this row and column its value. It and all that follow it, row by row, are
    /// still empty.
    ///
    /// After want of memory the area is as it was.
    pub fn push(&mut self, row: u32, col: u32, value: Scalar) -> Result<(), AllocError>
        requires row { row < self.old.rows }
        requires col { col < self.old.cols }
        requires next { IsEmptyFrom self.old row col }
        ensures ok { OnOk result (self.new ≡ with_value self.old row col value) }
        ensures err { OnErr result (self.new ≡ self.old) }
    {
        if value.is_empty() {
            return Ok(());
        }
        let index = self.index(row, col);
        self.filled.push(Filled { index, value })?;
        Ok(())
    }
}
