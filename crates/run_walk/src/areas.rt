// Blocks, and whole ranges as their blocks, that an operation gives back.
ghost use Rattle.std.specs.Prelude.{◌≡◌, Some, IfSome};
ghost use Rattle.cell_addr.specs.Place.{IsBlockInside};
ghost use Rattle.shift_core.specs.Sound.{IsSound};
ghost use Rattle.tree_rewrite.specs.Rewritten.{area_after, area_before};

use cell_addr::{Axis, Block};
use shift_core::Shift;
use tree_rewrite::{back_area, moved_area};

/// Where the operation takes a block, or as its block a whole range along an axis, that comes back from there; `None` for
/// another one. It stays within the limits of a sheet. The operation is sound.
pub fn carried_area(s: &Shift, lines: Option<Axis>, b: Block) -> Option<Block>
    requires { IsSound s.now }
    ensures after { IfSome result (λ after. area_after s.now lines b ≡ Some after) }
    ensures back { IfSome result (λ after. area_before s.now lines after ≡ Some b) }
    ensures inside { IsBlockInside b → IfSome result IsBlockInside }
{
    let after = moved_area(s, lines, b)?;
    if back_area(s, lines, after) == Some(b) {
        Some(after)
    } else {
        None
    }
}
