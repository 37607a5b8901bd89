// The way over a listed run.
ghost use Rattle.std.specs.Prelude.{◌≡◌, ◌≤◌, ◌↔◌, IfSome, IsTrue, length, drop};
ghost use Rattle.cell_addr.specs.Place.{IsBlockInside};
ghost use Rattle.run_walk.specs.Run.{AreSound};
ghost use Rattle.sheet_shifts.specs.internal.Going.{CarriesArea, GoesBy, TakesPlace, part};
ghost use Rattle.sheet_shifts.specs.internal.Left.{IsLeft};
ghost use Rattle.tree_rewrite.specs.internal.Passage.{IsFull};

use crate::left::{Left, first_before};
use crate::shifts::SheetShifts;
use cell_addr::{Axis, Block, Place};
use run_walk::{Way, carried_area};
use shift_core::{Shift, moved_place};

/// The way over a listed run from one of its operations on. A place or a block costs the edits of its own rows and
/// columns on the sheets that it comes to, and a whole range those of its own axis, each a few comparisons of numbers, the other operations that meet these sheets,
/// and a search in the lists of each sheet that it comes to.
#[derive(Clone, Copy)]
pub struct Ahead<'a> {
    lists: &'a SheetShifts,
    from: usize,
    ghost within: { from ≤ length lists.now.run.items },
}

impl<'a> Ahead<'a> {
    /// The way over the run from the index on.
    pub fn of(lists: &'a SheetShifts, from: usize) -> Ahead<'a>
        requires { from ≤ length lists.now.run.items }
        ensures lists { result.lists.now ≡ lists.now }
        ensures from { result.from ≡ from }
    {
        Ahead { lists, from }
    }
}

impl<'a> Way for Ahead<'a> {
    ghost shifts = { λ w. drop w.from w.lists.now.run.items };

    fn run(&self) -> &[Shift] {
        &self.lists.run[self.from..]
    }

    fn place(&self, count: usize, p: Place) -> Option<Place> {
        place_over(self.lists, self.from, self.from + count, p)
    }

    fn carried(&self, count: usize, lines: Option<Axis>, b: Block) -> Option<Block> {
        if !b.inside() || !is_full(lines, b) {
            return None;
        }
        area_over(self.lists, self.from, self.from + count, lines, b)
    }
}

// Where the operations from one index up to another one take the place; None where one of them loses it.
fn place_over(lists: &SheetShifts, from: usize, to: usize, p: Place) -> Option<Place>
    requires sound { AreSound (drop from lists.now.run.items) }
    requires order { from ≤ to }
    requires within { to ≤ length lists.now.run.items }
    ensures { IfSome result (λ q. GoesBy TakesPlace (part from to lists.now.run.items) p q) }
{
    let mut at = p;
    let mut index = from;
    let mut left = lists.left(p.sheet, from);
    'operations: while let Some((other, others)) = first_before(left.others, to) {
        let (here, rest) = left.place_over(other.index, at)?;
        let next = moved_place(&other.what, here)?;
        index = other.index + 1;
        left = behind(
            lists,
            Left { others, ..rest },
            index,
            here.sheet,
            next.sheet,
        );
        at = next;
    }
    let (last, _) = left.place_over(to, at)?;
    Some(last)
}

// Whether the block, where it is to stand for a whole range, reaches from one end of the sheet to the other.
fn is_full(lines: Option<Axis>, b: Block) -> bool
    ensures { IsTrue result ↔ IsFull lines b }
{
    match lines {
        None => true,
        Some(axis) => b.whole(axis).block() == b,
    }
}

// Where they take the block, or as its block the whole range along an axis, each of them giving it back; None where one of
// them doesn't.
fn area_over(
    lists: &SheetShifts,
    from: usize,
    to: usize,
    lines: Option<Axis>,
    b: Block,
) -> Option<Block>
    requires sound { AreSound (drop from lists.now.run.items) }
    requires order { from ≤ to }
    requires within { to ≤ length lists.now.run.items }
    requires inside { IsBlockInside b }
    requires full { IsFull lines b }
    ensures { IfSome result (λ c. GoesBy (CarriesArea lines) (part from to lists.now.run.items) b c) }
{
    let mut at = b;
    let mut index = from;
    let mut left = lists.left(b.sheet, from);
    'operations: while let Some((other, others)) = first_before(left.others, to) {
        let (here, rest) = left.area_over(other.index, lines, at)?;
        let next = carried_area(&other.what, lines, here)?;
        index = other.index + 1;
        left = behind(
            lists,
            Left { others, ..rest },
            index,
            here.sheet,
            next.sheet,
        );
        at = next;
    }
    let (last, _) = left.area_over(to, lines, at)?;
    Some(last)
}

// What is left to go by on the sheet that is come to, from the index on: what is left of the old one on the same sheet.
#[inline(always)]
fn behind<'a>(
    lists: &'a SheetShifts,
    left: Left<'a>,
    index: usize,
    old: u32,
    sheet: u32,
) -> Left<'a>
    requires within { index ≤ length lists.now.run.items }
    requires left { IsLeft lists.now.run.items old index left }
    ensures { IsLeft lists.now.run.items sheet index result }
{
    if sheet == old {
        left
    } else {
        lists.left(sheet, index)
    }
}
