// A plain grid, whose cells move with structural operations one by one.
ghost use Rattle.std.specs.Prelude.{◌≡◌, ◌++◌, ◌∷◌, Some, OnOk, OnErr, map};
ghost use Rattle.cell_addr.specs.Place.{IsBlockInside};
ghost use Rattle.cell_value.specs.declared.scalar.Scalar.TheVariants.{Empty};
ghost use Rattle.shift_core.specs.Sound.{IsSound};
ghost use Rattle.range_table.specs.Cells.{nonempty, row_values, seen_values};
ghost use Rattle.range_cases.specs.Grid.{moved_cell, moved_on_sheet, stands_at, value_in};

use cell_addr::{Block, Place};
use cell_value::Scalar;
use range_table::{ListedCells, add_nonempty};
use shift_core::{Shift, moved_place};
use std::alloc::{AllocError, Global};

// A cell with a value; it stands nowhere once it is lost.
#[derive(Drop)]
pub(crate) struct Filled {
    at: Option<Place>,
    value: Scalar,
}

impl Filled {
    // Whether the cell stands at the place.
    fn stands_at(&self, at: Place) -> bool
        ensures { result ≡ stands_at self.now at }
    {
        match self.at {
            Some(own) => own == at,
            None => false,
        }
    }

    // Moves the cell.
    fn shift(&mut self, s: &Shift)
        requires { IsSound s.now }
        ensures { self.new ≡ moved_cell s.now self.old }
    {
        self.at = match self.at {
            Some(at) => moved_on_sheet(s, at),
            None => None,
        };
    }
}

// Where the operation moves a place of the sheet.
fn moved_on_sheet(s: &Shift, at: Place) -> Option<Place>
    requires { IsSound s.now }
    ensures { result ≡ moved_on_sheet s.now at }
{
    if at.inside() {
        moved_place(s, at)
    } else {
        None
    }
}

// Cells with values; those of other places are empty.
#[derive(Drop)]
pub(crate) struct Grid {
    alloc: Global,
    pub(crate) cells: Vec<Filled>,
    empty: Scalar,
    ghost is_empty: { empty ≡ Empty },
}

impl Grid {
    // No cells.
    pub(crate) fn new(alloc: Global) -> Grid {
        Grid {
            alloc,
            cells: Vec::new(alloc),
            empty: Scalar::Empty,
        }
    }

    // Gives a place a value.
    pub(crate) fn put(&mut self, at: Place, value: Scalar) -> Result<(), AllocError>
        ensures put { OnOk result (self.new.cells.items ≡ record { at = Some at; value = value } ∷ self.old.cells.items) }
        ensures err { OnErr result (self.new.cells.items ≡ self.old.cells.items) }
    {
        let cell = Filled {
            at: Some(at),
            value,
        };
        self.cells.insert(0, cell)?;
        Ok(())
    }

    // Moves all cells.
    pub(crate) fn shift(&mut self, s: &Shift)
        requires { IsSound s.now }
        ensures { self.new.cells.items ≡ map (moved_cell s.now) self.old.cells.items }
    {
        'cells: for cell in self.cells.iter_mut() {
            cell.shift(s);
        }
    }

    // The value of a place.
    fn value_at(&self, at: Place) -> &Scalar
        ensures { result.now ≡ value_in self.now.cells.items at }
    {
        'cells: for cell in &self.cells {
            if cell.stands_at(at) {
                return &cell.value;
            }
        }
        &self.empty
    }

    // Adds the values of one row of a block that aren't empty.
    fn list_row<'a>(
        &'a self,
        b: Block,
        row: u32,
        list: &mut Vec<&'a Scalar>,
    ) -> Result<(), AllocError>
        requires { IsBlockInside b }
        ensures { OnOk result (seen_values list.new.items ≡ seen_values list.old.items ++ nonempty (row_values (value_in self.now.cells.items) b row)) }
    {
        'cols: for col in b.left..b.right + 1 {
            let at = Place {
                sheet: b.sheet,
                row,
                col,
            };
            add_nonempty(self.value_at(at), list)?;
        }
        Ok(())
    }
}

impl ListedCells for Grid {
    ghost values = { λ grid. value_in grid.cells.items };

    fn value(&self, at: Place) -> &Scalar {
        self.value_at(at)
    }

    fn listed(&self, b: Block) -> Result<Vec<&Scalar>, AllocError> {
        let mut list = Vec::new(self.alloc);
        'rows: for row in b.top..b.bottom + 1 {
            self.list_row(b, row, &mut list)?;
        }
        Ok(list)
    }

    // None or all there are, by turns, so that blocks are listed and read.
    fn filled(&self) -> u64 {
        if self.cells.len() % 2 == 0 {
            0
        } else {
            u64::MAX
        }
    }
}
