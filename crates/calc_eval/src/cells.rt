// Blocks of places that show values one by one, for views that keep neither blocks nor summaries.
ghost use Rattle.std.specs.Prelude.{◌≡◌, ◌+◌, ◌<◌, IfOk, true};
ghost use Rattle.cell_addr.specs.Place.{height, width};
ghost use Rattle.cell_addr.specs.declared.place.Place.{Place};
ghost use Rattle.cell_value.specs.Summary.{IsBounded, summary_of};
ghost use Rattle.cell_value.specs.declared.scalar.Scalar.{Scalar};
ghost use Rattle.calc_terms.specs.Cells.{cells_in, fits};

use cell_addr::{Block, Place};
use cell_value::{Area, Scalar, Summary};
use func_args::area_summary;
use std::alloc::{AllocError, Global};

/// Places that show values, one by one.
pub trait ShownCells {
    // What each place shows.
    ghost shown: { Self → Place → Scalar };

    /// What the place shows.
    fn value(&self, at: Place) -> &Scalar
        ensures { result.now ≡ shown self.now at };
}

/// The cells of a block within the limits of a sheet, read one after another.
///
/// It costs about as many reads as the block has cells, empty ones too.
#[tactic(auto, using(crate::proofs::BlockFilling::fits_ends))]
pub fn area_of<C: ShownCells>(alloc: Global, cells: &C, block: Block) -> Result<Area, AllocError>
    requires { fits block ≡ true }
    ensures { IfOk result (λ area. area ≡ cells_in (C.shown cells.now) block) }
{
    let (rows, cols) = extent(block);
    let mut area = Area::new(alloc, rows, cols);
    'rows: for row in 0..rows {
        'cols: for col in 0..cols {
            let value = cells.value(place_in(block, row, col)).copy(alloc)?;
            area.push(row, col, value)?;
        }
    }
    Ok(area)
}

/// What the numbers of such a block's cells come to, at the same cost and without a step.
pub fn summary_of<C: ShownCells>(
    alloc: Global,
    cells: &C,
    block: Block,
) -> Result<Summary, AllocError>
    requires { fits block ≡ true }
    ensures means { IfOk result (λ summary. summary ≡ summary_of (cells_in (C.shown cells.now) block).values) }
    ensures bounded { IfOk result IsBounded }
{
    let area = area_of(alloc, cells, block)?;
    area_summary(&area)
}

// How many rows and how many columns the block has.
#[tactic(auto, using(crate::proofs::BlockFilling::fits_few))]
pub(crate) fn extent(block: Block) -> (u32, u32)
    requires { fits block ≡ true }
    ensures rows { result.0 ≡ height block }
    ensures cols { result.1 ≡ width block }
{
    (block.height() as u32, block.width() as u32)
}

// The place in this row and column of the block, counted from its first cell.
#[tactic(auto, using(crate::proofs::BlockFilling::fits_ends))]
fn place_in(block: Block, row: u32, col: u32) -> Place
    requires fits { fits block ≡ true }
    requires row { row < height block }
    requires col { col < width block }
    ensures { result ≡ record { sheet = block.sheet; row = block.top + row; col = block.left + col } }
{
    Place {
        sheet: block.sheet,
        row: block.top + row,
        col: block.left + col,
    }
}
