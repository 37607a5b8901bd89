// The corners of a block.
ghost use Rattle.std.specs.Prelude.{◌≡◌};
ghost use Rattle.shift_core.specs.Carried.{first_place, last_place};

use cell_addr::{Block, Place};

// The corner with the least row and column.
pub(crate) fn first_place(b: Block) -> Place
    ensures { result ≡ first_place b }
{
    Place {
        sheet: b.sheet,
        row: b.top,
        col: b.left,
    }
}

// The corner with the greatest row and column.
pub(crate) fn last_place(b: Block) -> Place
    ensures { result ≡ last_place b }
{
    Place {
        sheet: b.sheet,
        row: b.bottom,
        col: b.right,
    }
}
