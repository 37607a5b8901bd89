// What the move of a block of cells does to places and blocks.
ghost use Rattle.std.specs.Prelude.{◌≡◌, ◌↔◌, IsTrue};
ghost use Rattle.cell_addr.specs.Place.{IsBlockInside, IsInside};
ghost use Rattle.shift_core.specs.declared.form.Form.TheVariants.{Cells};
ghost use Rattle.shift_core.specs.Carried.{contains, first_place, last_place, carried_place, carried_block, destination};
ghost use Rattle.shift_core.specs.Sound.{IsSoundForm};
ghost use Rattle.shift_core.specs.Tables.{place_moved, block_moved, place_returned, block_returned};

use cell_addr::{Block, COLS, Place, ROWS};

// Whether the block and the block of its size that begins at `to` are inside, and differ.
pub(crate) fn is_sound(source: Block, to: Place) -> bool
    ensures { IsTrue result ↔ IsSoundForm (Cells source to) }
{
    source.inside()
        && to.inside()
        && source.bottom - source.top < ROWS - to.row
        && source.right - source.left < COLS - to.col
        && (source.sheet != to.sheet || source.top != to.row || source.left != to.col)
}

// The block of cells where they are then, and the place where they were: what moves them back.
pub(crate) fn turned(source: Block, to: Place) -> (Block, Place)
    requires { IsSoundForm (Cells source to) }
    ensures { result ≡ (destination source to, first_place source) }
{
    (destination(source, to), first(source))
}

// Where the move of a block of cells to `to` moves a place; None where the cells are put over it.
pub(crate) fn moved_place(source: Block, to: Place, p: Place) -> Option<Place>
    requires { IsSoundForm (Cells source to) }
    ensures { result ≡ place_moved (Cells source to) p }
{
    if source.holds(p) {
        Some(carried_place(source, to, p))
    } else if destination(source, to).holds(p) {
        None
    } else {
        Some(p)
    }
}

// Where the move of a block of cells to `to` moves a block; None where the cells are put over all of it.
pub(crate) fn moved_block(source: Block, to: Place, b: Block) -> Option<Block>
    requires { IsSoundForm (Cells source to) }
    ensures { result ≡ block_moved (Cells source to) b }
{
    if contained(source, b) {
        Some(carry_block(source, to, b))
    } else if contained(destination(source, to), b) {
        None
    } else {
        Some(b)
    }
}

// Which place the move of a block of cells to `to` moved to `p`; None where the cells were taken from there.
pub(crate) fn back_place(source: Block, to: Place, p: Place) -> Option<Place>
    requires { IsSoundForm (Cells source to) }
    ensures { result ≡ place_returned (Cells source to) p }
{
    if destination(source, to).holds(p) {
        Some(carried_place(destination(source, to), first(source), p))
    } else if source.holds(p) {
        None
    } else {
        Some(p)
    }
}

// Which block the move of a block of cells to `to` moved to `b`.
pub(crate) fn back_block(source: Block, to: Place, b: Block) -> Option<Block>
    requires { IsSoundForm (Cells source to) }
    ensures { result ≡ block_returned (Cells source to) b }
{
    if contained(destination(source, to), b) {
        Some(carry_block(destination(source, to), first(source), b))
    } else {
        Some(b)
    }
}

/// The place with the same offset from `to` as `p` has from the first place of `source`.
pub fn carried_place(source: Block, to: Place, p: Place) -> Place
    requires { IsInside (carried_place source to p) }
    ensures { result ≡ carried_place source to p }
{
    Place {
        sheet: to.sheet,
        row: to.row + p.row.saturating_sub(source.top),
        col: to.col + p.col.saturating_sub(source.left),
    }
}

/// The block of the size of `source` that begins at `to`.
pub fn destination(source: Block, to: Place) -> Block
    requires { IsBlockInside (destination source to) }
    ensures { result ≡ destination source to }
{
    Block {
        sheet: to.sheet,
        top: to.row,
        left: to.col,
        bottom: to.row + source.bottom.saturating_sub(source.top),
        right: to.col + source.right.saturating_sub(source.left),
    }
}

// The corner with the least row and column.
fn first(b: Block) -> Place
    ensures { result ≡ first_place b }
{
    Place {
        sheet: b.sheet,
        row: b.top,
        col: b.left,
    }
}

// Whether every place of the part is in the block.
fn contained(b: Block, part: Block) -> bool
    ensures { result ≡ contains b part }
{
    b.holds(first(part))
        && b.holds(Place {
            sheet: part.sheet,
            row: part.bottom,
            col: part.right,
        })
}

// The part of `source` with the same offset from `to`.
fn carry_block(source: Block, to: Place, part: Block) -> Block
    requires contained { IsTrue (contains source part) }
    requires inside { IsBlockInside (destination source to) }
    ensures { result ≡ carried_block source to part }
{
    Block {
        sheet: to.sheet,
        top: to.row + (part.top - source.top),
        left: to.col + (part.left - source.left),
        bottom: to.row + (part.bottom - source.top),
        right: to.col + (part.right - source.left),
    }
}
