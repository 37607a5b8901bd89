// Blocks of which the filled cells are known.
ghost use Rattle.std.specs.Prelude.{◌≡◌, IfOk, true};
ghost use Rattle.cell_value.specs.Summary.{IsBounded, summary_of};
ghost use Rattle.calc_terms.specs.Cells.{cells_in, fits};
ghost use Rattle.calc_eval.specs.Filled.{AreFilled, seen_cells, shown_by};

use crate::cells::extent;
use cell_addr::{Block, Place};
use cell_value::{Area, Scalar, Summary};
use func_args::join_summaries;
use std::alloc::{AllocError, Global};

/// The cells of a block within the limits of a sheet, of which these are filled: each stands in the block, and they
/// come in the order of their places.
///
/// It costs about the number of the filled cells.
pub fn filled_area(
    alloc: Global,
    block: Block,
    cells: &[(Place, &Scalar)],
) -> Result<Area, AllocError>
    requires fits { fits block ≡ true }
    requires filled { AreFilled block (seen_cells cells.now) }
    ensures { IfOk result (λ area. area ≡ cells_in (shown_by (seen_cells cells.now)) block) }
{
    let (rows, cols) = extent(block);
    let mut area = Area::new(alloc, rows, cols);
    'cells: for cell in cells {
        let value = cell.1.copy(alloc)?;
        area.push(cell.0.row - block.top, cell.0.col - block.left, value)?;
    }
    Ok(area)
}

/// What the numbers of such a block's cells come to, at the same cost.
pub fn filled_summary(block: Block, cells: &[(Place, &Scalar)]) -> Result<Summary, AllocError>
    requires fits { fits block ≡ true }
    requires filled { AreFilled block (seen_cells cells.now) }
    ensures means { IfOk result (λ summary. summary ≡ summary_of (cells_in (shown_by (seen_cells cells.now)) block).values) }
    ensures bounded { IfOk result IsBounded }
{
    let mut total = Summary::new();
    'cells: for cell in cells {
        total = join_summaries(&total, &Summary::of(cell.1))?;
    }
    Ok(total)
}
