// Blocks within the limits of a sheet.
ghost use Rattle.std.specs.Prelude.{◌≡◌, true, if◌then◌else◌, Some, None};
ghost use Rattle.calc_terms.specs.Cells.{fits};

use cell_addr::{Block, COLS, ROWS};
use std::marker::Model;

/// A block within the limits of a sheet, with its ends in order.
#[derive(Clone, Copy, PartialEq, Eq, Debug)]
pub struct SheetBlock {
    block: Block,
}

impl Model for SheetBlock {
    ghost use Rattle.std.specs.Prelude.{◌≡◌, true};
    ghost use Rattle.cell_addr.specs.declared.place.Block.{Block};
    ghost use Rattle.calc_terms.specs.Cells.{fits};

    ghost Value = { Block };

    ghost view = { λ b. b.block };

    ghost invariant = { λ b. fits b.block ≡ true };

    ghost inverse = { λ b. record { block = b } };
}

impl SheetBlock {
    /// The block, where it lies within the limits of a sheet and its ends are in order.
    pub fn new(block: Block) -> Option<SheetBlock>
        ensures { result ≡ (if fits block then Some block else None) }
    {
        if fits(block) {
            Some(SheetBlock { block })
        } else {
            None
        }
    }

    /// The block.
    pub fn block(self) -> Block
        ensures is { result ≡ self }
        ensures fits { fits result ≡ true }
    {
        self.block
    }
}

// Whether the block lies within the limits of a sheet, with its ends in order.
fn fits(block: Block) -> bool
    ensures { result ≡ fits block }
{
    block.top <= block.bottom
        && block.bottom < ROWS
        && block.left <= block.right
        && block.right < COLS
}
