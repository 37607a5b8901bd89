// What an operation makes of the summary of a block.
ghost use Rattle.std.specs.Prelude.{◌≡◌, ◌↔◌, IsTrue, IsNone, IfSome};
ghost use Rattle.cell_addr.specs.Place.{IsBlockInside};
ghost use Rattle.shift_core.specs.Bent.{IsBent, IsCut};
ghost use Rattle.shift_core.specs.Form.{form_of};
ghost use Rattle.shift_core.specs.Sound.{IsSound};
ghost use Rattle.touch_index.specs.Touched.{TakesBlock};
ghost use Rattle.range_table.specs.Shifted.{GivesUpBlock, KeepsBlock, TearsBlock};
ghost use Rattle.range_table.specs.internal.Shifting.{IsFate};

use cell_addr::Block;
use shift_core::{Shift, destination, is_bent, is_cut, moved_block};

// What an operation makes of the summary of a block.
#[derive(Clone, Copy)]
pub(crate) enum Fate {
    // It is kept on, and the block has the lines that it had.
    Stays,
    // It is kept on, for a block of other lines.
    Moves(Block),
    // It is given up.
    Ends,
}

// What the operation makes of the summary of the block.
pub(crate) fn fate_of(s: &Shift, b: Block) -> Fate
    requires sound { IsSound s.now }
    requires inside { IsBlockInside b }
    ensures { IsFate s.now b result }
{
    match kept_on(s, b) {
        Some(after) => {
            if takes(s, b) {
                Fate::Moves(after)
            } else {
                Fate::Stays
            }
        }
        None => Fate::Ends,
    }
}

// Whether the whole block is among the cells that the operation moves.
fn takes(s: &Shift, b: Block) -> bool
    requires { IsBlockInside b }
    ensures { IsTrue result ↔ TakesBlock (form_of s.now) b }
{
    match *s {
        Shift::MoveBlock { source, .. } => source.contains(b),
        _ => false,
    }
}

// Where the block moves, unless the operation gives up what is kept for it.
fn kept_on(s: &Shift, b: Block) -> Option<Block>
    requires sound { IsSound s.now }
    requires inside { IsBlockInside b }
    ensures kept { IfSome result (KeepsBlock s.now b) }
    ensures inside { IfSome result IsBlockInside }
    ensures given_up { IsNone result → GivesUpBlock s.now b }
{
    if gives_up(s, b) {
        None
    } else {
        moved_block(s, b)
    }
}

// Whether the operation gives up what is kept for the block.
fn gives_up(s: &Shift, b: Block) -> bool
    requires { IsSound s.now }
    ensures { IsTrue result ↔ GivesUpBlock s.now b }
{
    is_bent(s, b) || is_cut(s, b) || tears(s, b)
}

// Whether the operation moves cells out of the block or over it, and not the whole block.
fn tears(s: &Shift, b: Block) -> bool
    requires { IsSound s.now }
    ensures { IsTrue result ↔ TearsBlock (form_of s.now) b }
{
    match *s {
        Shift::MoveBlock { source, to } => {
            !source.contains(b) && (b.meets(source) || b.meets(destination(source, to)))
        }
        _ => false,
    }
}
