// Blocks, and whole ranges as their blocks, over a structural operation.
ghost use Rattle.std.specs.Prelude.{◌≡◌};
ghost use Rattle.shift_core.specs.Sound.{IsSound};
ghost use Rattle.tree_rewrite.specs.Rewritten.{area_after, area_before};

use cell_addr::{Axis, Block};
use shift_core::{Shift, back_block, back_whole, moved_block, moved_whole};

/// Where the operation moves a block, or as its block a whole range along an axis; `None` where it is lost. An edit of
/// rows leaves all columns from one to another, and one of columns all rows. The operation is sound.
pub fn moved_area(s: &Shift, lines: Option<Axis>, b: Block) -> Option<Block>
    requires { IsSound s.now }
    ensures { result ≡ area_after s.now lines b }
{
    match lines {
        None => moved_block(s, b),
        Some(axis) => Some(moved_whole(s, b.whole(axis))?.block()),
    }
}

/// Of which block, or of which whole range, the operation moved the ends there; `None` where one of them was nowhere.
/// The operation is sound.
pub fn back_area(s: &Shift, lines: Option<Axis>, b: Block) -> Option<Block>
    requires { IsSound s.now }
    ensures { result ≡ area_before s.now lines b }
{
    match lines {
        None => back_block(s, b),
        Some(axis) => Some(back_whole(s, b.whole(axis))?.block()),
    }
}
