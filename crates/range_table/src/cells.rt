// The cells whose numbers are summed up.
ghost use Rattle.std.specs.Prelude.{◌≡◌, IfOk};
ghost use Rattle.cell_addr.specs.Place.{IsBlockInside, IsInside};
ghost use Rattle.cell_addr.specs.declared.place.Place.{Place};
ghost use Rattle.cell_value.specs.declared.scalar.Scalar.{Scalar};
ghost use Rattle.range_table.specs.Cells.{block_values, nonempty, seen_values};

use cell_addr::{Block, Place};
use cell_value::Scalar;
use std::alloc::AllocError;

/// Cells that have values, read one by one or listed.
pub trait ListedCells {
    // The value of each place.
    ghost values: { Self → Place → Scalar };

    /// The value of the cell at the place, which is on the sheet.
    fn value(&self, at: Place) -> &Scalar
        requires { IsInside at }
        ensures { result.now ≡ values self.now at };

    /// The values of the block's cells that aren't empty, row by row. Errs for want of memory.
    fn listed(&self, b: Block) -> Result<Vec<&Scalar>, AllocError>
        requires { IsBlockInside b }
        ensures { IfOk result (λ list. seen_values list.items ≡ nonempty (block_values (values self.now) b)) };

    /// About how many cells of all sheets aren't empty. Only what a summary costs depends on it.
    fn filled(&self) -> u64;
}
