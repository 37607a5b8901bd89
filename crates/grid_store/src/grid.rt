// The filled cells of a workbook.
ghost use Rattle.std.specs.Prelude.{◌≡◌, IsSome};
ghost use Rattle.std.specs.BTreeMap as tree;
ghost use Rattle.cell_addr.specs.declared.place.TheConstants.{COLS, ROWS};
ghost use Rattle.grid_store.specs.Keys.{key_cmp, place_at};
ghost use Rattle.grid_store.specs.declared.key.CellKey.{CellKey};

use crate::cells::Cells;
use crate::key::{CellKey, key_in, place_in};
use crate::view::View;
use cell_addr::{Axis, COLS, Place, ROWS};
use stable_lines::SheetLines;
use std::alloc::{AllocError, Global};

/// The filled cells of a workbook: a finite map from places to what they hold.
pub struct Grid<V> {
    pub(crate) alloc: Global,
    pub(crate) cells: Cells<V>,
    pub(crate) rows: SheetLines,
    pub(crate) cols: SheetLines,
    pub ghost rows_limit: { rows.plain.limit ≡ ROWS },
    pub ghost cols_limit: { cols.plain.limit ≡ COLS },
    pub ghost standing: { (k : CellKey) → IsSome (tree.get key_cmp cells k) → IsSome (place_at rows cols k) },
}

// Written out, so that whoever drops one calls one function.
impl<V: Drop> Drop for Grid<V> {
    fn drop(self) {
        let Grid {
            alloc: _,
            cells: _cells,
            rows: _rows,
            cols: _cols,
        } = self;
    }
}

impl<V: Drop> Grid<V> {
    ghost use Rattle.std.specs.Prelude.{IfOk, OnOk, OnErr, IsOk, option_copied};
    ghost use Rattle.std.specs.FinMap as map;
    ghost use Rattle.cell_addr.specs.Place.{IsInside};
    ghost use Rattle.grid_store.specs.Grid.{KeepsLines, cells_of};
    ghost use Rattle.grid_store.specs.Keys.{key_at};
    ghost use Rattle.grid_store.specs.internal.Listing.{shown};

    /// A grid without cells.
    pub fn new(alloc: Global) -> Result<Grid<V>, AllocError>
        ensures { IfOk result (λ grid. cells_of grid ≡ map.empty) }
    {
        Ok(Grid {
            alloc,
            cells: Cells::new(alloc),
            rows: SheetLines::new(alloc, ROWS)?,
            cols: SheetLines::new(alloc, COLS)?,
        })
    }

    // The key of the place; None past the sheet's limits.
    pub(crate) fn key(&self, at: Place) -> Option<CellKey>
        ensures { result ≡ key_at self.now.rows self.now.cols at }
    {
        key_in(&self.rows, &self.cols, at)
    }

    // The place where a key's lines stand.
    pub(crate) fn place(&self, key: CellKey) -> Option<Place>
        ensures { result ≡ place_at self.now.rows self.now.cols key }
    {
        place_in(&self.rows, &self.cols, key)
    }

    // The cells, seen through the lines of the grid.
    pub(crate) fn view(&self) -> View<V>
        ensures { shown result ≡ cells_of self.now }
    {
        View {
            cells: &self.cells,
            rows: &self.rows,
            cols: &self.cols,
        }
    }

    /// What the cell at the place holds; `None` where it is empty. Costs the logarithm of the number of filled cells.
    pub fn cell(&self, at: Place) -> Option<&V>
        ensures { option_copied result ≡ map.get (cells_of self.now) at }
    {
        let key = self.key(at)?;
        self.cells.by_rows().get(&key)
    }

    /// How many cells are filled.
    pub fn filled(&self) -> u64
        ensures { result ≡ map.len (cells_of self.now) }
    {
        self.cells.by_rows().len() as u64
    }

    /// Fills the cell at the place, and answers what it held. At a filled place this takes no memory. For want of memory the
    /// grid is as it was. Costs the logarithm of the number of filled cells, in each of two orders.
    pub fn put(&mut self, at: Place, cell: V) -> Result<Option<V>, AllocError>
        requires { IsInside at }
        ensures before { IfOk result (λ before. before ≡ map.get (cells_of self.old) at) }
        ensures ok { OnOk result (cells_of self.new ≡ map.insert (cells_of self.old) at cell) }
        ensures err { OnErr result (cells_of self.new ≡ cells_of self.old) }
        ensures filled { IsSome (map.get (cells_of self.old) at) → IsOk result }
        ensures lines { KeepsLines self.old self.new }
    {
        let Some(key) = self.key(at) else {
            return Err(AllocError);
        };
        self.cells.insert(key, cell)
    }

    /// Empties the cell at the place, and answers what it held. Takes no memory.
    pub fn take(&mut self, at: Place) -> Option<V>
        ensures before { result ≡ map.get (cells_of self.old) at }
        ensures taken { cells_of self.new ≡ map.remove (cells_of self.old) at }
        ensures lines { KeepsLines self.old self.new }
    {
        let key = self.key(at)?;
        self.cells.remove(&key)
    }

    // The cells, and the lines of rows and of columns.
    pub(crate) fn into_parts(self) -> (Cells<V>, SheetLines, SheetLines)
        ensures cells { result.0 ≡ self.cells }
        ensures rows { result.1 ≡ self.rows }
        ensures cols { result.2 ≡ self.cols }
    {
        let Grid {
            alloc: _,
            cells,
            rows,
            cols,
        } = self;
        (cells, rows, cols)
    }
}
