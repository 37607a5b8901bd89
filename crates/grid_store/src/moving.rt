// Blocks of cells that are moved, and all structural operations on the grid.
ghost use Rattle.std.specs.Prelude.{◌≡◌, ◌++◌, IfOk, OnOk, OnErr, filter, filter_map, map, not};
ghost use Rattle.cell_addr.specs.Place.{covers};
ghost use Rattle.shift_core.specs.Maps.{lost_entries, moved_map, restored_map};
ghost use Rattle.shift_core.specs.Sound.{IsSound, IsSoundForm};
ghost use Rattle.shift_core.specs.declared.form.Form.TheVariants.{Cells};
ghost use Rattle.grid_store.specs.declared.way.Going.TheVariants.{Back};
ghost use Rattle.grid_store.specs.Grid.{AreListedInside, cells_of, items_of, with_entries};
ghost use Rattle.grid_store.specs.internal.Lists.{AreEachInside, carried_entry};
ghost use Rattle.grid_store.specs.internal.Ways.{carried_map, form_goes, goes, lost_by, onto_block, from_block};

use crate::change::whole;
use crate::duplicate::Duplicate;
use crate::grid::Grid;
use crate::list::CellList;
use crate::way::Going;
use cell_addr::{Block, Place};
use shift_core::{Form, Shift, back_place, moved_place};
use std::alloc::{AllocError, Global};

impl<V: Duplicate> Grid<V> {
    /// Does the operation: each cell goes where its place goes. The cells whose places are lost are handed out with those places, row by row.
    ///
    /// An insert, a deletion or a move of rows or columns costs what the edit of its table of lines does, and each cell that it
    /// loses the logarithm of the number of filled cells; a dropped sheet costs its cells; a move of a block those of its two
    /// blocks. For want of memory the grid is as it was.
    pub fn apply(&mut self, s: &Shift) -> Result<CellList<V>, AllocError>
        requires { IsSound s.now }
        ensures moved { OnOk result (cells_of self.new ≡ moved_map s.now (cells_of self.old)) }
        ensures removed { IfOk result (λ list. items_of list ≡ lost_entries s.now (cells_of self.old)) }
        ensures err { OnErr result (cells_of self.new ≡ cells_of self.old) }
    {
        match s.form() {
            Form::Lines { sheet, axis, edit } => self.carry_lines(Going::Forth, sheet, axis, edit),
            Form::Cells { source, to } => {
                let none = CellList::new(self.alloc)?;
                self.carry_cells(Going::Forth, source, to, none)
            }
            Form::Sheet { sheet } => self.clear(whole(sheet)),
        }
    }

    /// Takes the operation back: the removed cells come to their places, and each other cell to the place that it came from.
    ///
    /// Costs what the operation does, the cells that are put back, and where there are some the number of sheets whose lines were ever
    /// edited. For want of memory the grid is as it was.
    pub fn put_back(&mut self, s: &Shift, removed: CellList<V>) -> Result<(), AllocError>
        requires sound { IsSound s.now }
        requires inside { AreListedInside (items_of removed) }
        ensures restored { OnOk result (cells_of self.new ≡ restored_map s.now (items_of removed) (cells_of self.old)) }
        ensures err { OnErr result (cells_of self.new ≡ cells_of self.old) }
    {
        self.restore(s, removed)
    }

    // Takes the operation back, and puts the removed cells over what stands then.
    fn restore(&mut self, s: &Shift, removed: CellList<V>) -> Result<(), AllocError>
        requires sound { IsSound s.now }
        requires inside { AreEachInside (items_of removed) }
        ensures restored { OnOk result (cells_of self.new ≡ with_entries (items_of removed) (carried_map (goes Back s.now) (cells_of self.old))) }
        ensures err { OnErr result (cells_of self.new ≡ cells_of self.old) }
    {
        match s.form() {
            Form::Lines { sheet, axis, edit } => self.restore_lines(sheet, axis, edit, removed),
            Form::Cells { source, to } => {
                self.carry_cells(Going::Back, source, to, removed)?;
                Ok(())
            }
            Form::Sheet { sheet } => {
                let there = self.listed(whole(sheet))?;
                let emptied = there.places(self.alloc)?;
                self.replace(&emptied, removed)
            }
        }
    }

    // Moves the cells of a block over those of another, and puts more cells over what stands then.
    fn carry_cells(
        &mut self,
        way: Going,
        source: Block,
        to: Place,
        more: CellList<V>,
    ) -> Result<CellList<V>, AllocError>
        requires sound { IsSoundForm (Cells source to) }
        requires inside { AreEachInside (items_of more) }
        ensures carried { OnOk result (cells_of self.new ≡ with_entries (items_of more) (carried_map (form_goes way (Cells source to)) (cells_of self.old))) }
        ensures lost { IfOk result (λ list. items_of list ≡ lost_by (form_goes way (Cells source to)) (cells_of self.old)) }
        ensures err { OnErr result (cells_of self.new ≡ cells_of self.old) }
    {
        let (from, onto) = blocks(way, source, to);
        let moved = self.listed(from)?;
        let there = self.listed(onto)?;
        let emptied = both_places(self.alloc, &moved, &there)?;
        let lost = beside(self.alloc, there, from)?;
        let placed = carried(way, source, to, moved, more)?;
        self.replace(&emptied, placed)?;
        Ok(lost)
    }
}

// The block whose cells are moved, and the one that they come to.
pub(crate) fn blocks(way: Going, source: Block, to: Place) -> (Block, Block)
    requires { IsSoundForm (Cells source to) }
    ensures from { result.0 ≡ from_block way source to }
    ensures onto { result.1 ≡ onto_block way source to }
{
    let destination = Block {
        sheet: to.sheet,
        top: to.row,
        left: to.col,
        bottom: to.row + (source.bottom - source.top),
        right: to.col + (source.right - source.left),
    };
    match way {
        Going::Forth => (source, destination),
        Going::Back => (destination, source),
    }
}

// The places of the cells of both lists.
pub(crate) fn both_places<V: Drop>(
    alloc: Global,
    first: &CellList<V>,
    second: &CellList<V>,
) -> Result<Vec<Place>, AllocError>
    ensures { IfOk result (λ places. places.items ≡ map (λ e. e.0) (items_of first.now) ++ map (λ e. e.0) (items_of second.now)) }
{
    let mut places = first.places(alloc)?;
    for (at, _) in second.items() {
        places.push(*at)?;
    }
    Ok(places)
}

// The cells of the list that are in no place of the block.
fn beside<V: Drop>(alloc: Global, list: CellList<V>, area: Block) -> Result<CellList<V>, AllocError>
    ensures { IfOk result (λ kept. items_of kept ≡ filter (λ e. not (covers area e.0)) (items_of list)) }
{
    let mut kept = CellList::new(alloc)?;
    for (at, cell) in list.into_items() {
        if !area.holds(at) {
            kept.push(at, cell)?;
        }
    }
    Ok(kept)
}

// More cells, and behind them those of the list where their places go, those of lost places gone.
pub(crate) fn carried<V: Drop>(
    way: Going,
    source: Block,
    to: Place,
    list: CellList<V>,
    more: CellList<V>,
) -> Result<CellList<V>, AllocError>
    requires { IsSoundForm (Cells source to) }
    ensures { IfOk result (λ all. items_of all ≡ items_of more ++ filter_map (carried_entry (form_goes way (Cells source to))) (items_of list)) }
{
    let s = Shift::MoveBlock { source, to };
    let mut all = more;
    for (at, cell) in list.into_items() {
        let goes = match way {
            Going::Forth => moved_place(&s, at),
            Going::Back => back_place(&s, at),
        };
        if let Some(at) = goes {
            all.push(at, cell)?;
        }
    }
    Ok(all)
}
