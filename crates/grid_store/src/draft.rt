// Changes of a grid that are made on the side.
ghost use Rattle.std.specs.Prelude.{◌≡◌, IfOk, OnOk, OnErr};
ghost use Rattle.std.specs.FinMap as map;
ghost use Rattle.cell_addr.specs.Axis.{limit_of};
ghost use Rattle.cell_addr.specs.Place.{IsInside};
ghost use Rattle.shift_core.specs.Lines.{IsSoundEdit};
ghost use Rattle.shift_core.specs.Maps.{moved_map, restored_map};
ghost use Rattle.shift_core.specs.Sound.{IsSound, IsSoundForm};
ghost use Rattle.shift_core.specs.declared.form.Form.TheVariants as form;
ghost use Rattle.grid_store.specs.Draft.{IsDraftOf, Makes, carried_along, drafted, with_change};
ghost use Rattle.grid_store.specs.Grid.{AreListedInside, cells_of, items_of, with_entries, within, without_places};
ghost use Rattle.grid_store.specs.internal.Drafting.{HasKeysOf, KeepsBase, NotesLost, StillNotes};
ghost use Rattle.grid_store.specs.internal.Listing.{shown};
ghost use Rattle.grid_store.specs.internal.Lists.{AreEachInside};
ghost use Rattle.grid_store.specs.internal.Ways.{carried_map, form_goes, goes};

use crate::cells::Cells;
use crate::change::whole;
use crate::drafting::lay_over;
use crate::duplicate::Duplicate;
use crate::found::{by_place, in_order};
use crate::grid::Grid;
use crate::key::CellKey;
use crate::list::CellList;
use crate::listing::copies;
use crate::moving::{blocks, both_places, carried};
use crate::view::View;
use crate::way::{Going, lost_lines};
use cell_addr::{Axis, Block, Place};
use shift_core::{Edit, Form, Shift};
use std::alloc::AllocError;

/// Changes of a grid that are made on the side, one after the other, and then put in place together.
///
/// A draft holds the lines that its changes lead to and what they place and empty, and finds all else in the grid. So each change
/// costs what it costs the grid, and none the number of filled cells. The grid is to stay as it is until the changes are put in
/// place. A draft is of no more use after a call that failed.
pub struct Draft<V> {
    // What the changes place, and `None` where they empty a place, on the lines that they lead to.
    pub(crate) changes: Grid<Option<V>>,
    // The keys of the grid's cells that were on lines that are lost.
    pub(crate) lost: Vec<CellKey>,
}

// Written out, so that whoever drops one calls one function.
impl<V: Drop> Drop for Draft<V> {
    fn drop(self) {
        let Draft {
            changes: _changes,
            lost: _lost,
        } = self;
    }
}

impl<V: Duplicate> Draft<V> {
    /// A draft without changes. Costs the number of sheets whose lines were ever edited.
    pub fn new(grid: &Grid<V>) -> Result<Draft<V>, AllocError>
        ensures cells { IfOk result (λ draft. drafted grid.now draft ≡ cells_of grid.now) }
        ensures of { IfOk result (IsDraftOf grid.now) }
    {
        Ok(Draft {
            changes: Grid {
                alloc: grid.alloc,
                cells: Cells::new(grid.alloc),
                rows: grid.rows.copied()?,
                cols: grid.cols.copied()?,
            },
            lost: Vec::new(grid.alloc),
        })
    }

    /// Empties the places, and then fills those of the list; of two cells at one place the first counts. Costs the places and the
    /// cells, each with the logarithm of the number of changes.
    pub fn exchange(&mut self, emptied: &[Place], placed: CellList<V>) -> Result<(), AllocError>
        requires { AreListedInside (items_of placed) }
        ensures ok { OnOk result (Makes (λ m. with_entries (items_of placed) (without_places emptied.now m)) self.old self.new) }
        ensures of { OnOk result ((grid : _) → IsDraftOf grid self.old → IsDraftOf grid self.new) }
    {
        self.replace(emptied, placed)
    }

    // The same.
    fn replace(&mut self, emptied: &[Place], placed: CellList<V>) -> Result<(), AllocError>
        requires { AreEachInside (items_of placed) }
        ensures ok { OnOk result (Makes (λ m. with_entries (items_of placed) (without_places emptied.now m)) self.old self.new) }
        ensures base { KeepsBase self.old self.new }
    {
        self.empty(emptied)?;
        self.place(placed)
    }

    // Empties the places.
    fn empty(&mut self, places: &[Place]) -> Result<(), AllocError>
        ensures ok { OnOk result (Makes (without_places places.now) self.old self.new) }
        ensures base { KeepsBase self.old self.new }
    {
        for at in places {
            if at.inside() {
                self.change(*at, None)?;
            }
        }
        Ok(())
    }

    // Fills the places of the list; of two cells at one place the first counts.
    fn place(&mut self, list: CellList<V>) -> Result<(), AllocError>
        requires { AreEachInside (items_of list) }
        ensures ok { OnOk result (Makes (with_entries (items_of list)) self.old self.new) }
        ensures base { KeepsBase self.old self.new }
    {
        let mut list = list;
        while let Some((at, cell)) = list.pop() {
            self.change(at, Some(cell))?;
        }
        Ok(())
    }

    // Makes one change: this cell at the place, or none.
    fn change(&mut self, at: Place, change: Option<V>) -> Result<(), AllocError>
        requires { IsInside at }
        ensures ok { OnOk result (Makes (with_change at change) self.old self.new) }
        ensures base { KeepsBase self.old self.new }
    {
        self.changes.set(at, change)
    }

    /// Does the operation: each cell goes where its place goes. Costs what [`Grid::apply`] does, over the cells that the draft leads to.
    pub fn apply(&mut self, grid: &Grid<V>, s: &Shift) -> Result<(), AllocError>
        requires sound { IsSound s.now }
        requires of { IsDraftOf grid.now self.old }
        ensures moved { OnOk result (drafted grid.now self.new ≡ moved_map s.now (drafted grid.now self.old)) }
        ensures of { OnOk result (IsDraftOf grid.now self.new) }
    {
        let none = CellList::new(grid.alloc)?;
        self.carry(grid, Going::Forth, s, none)
    }

    /// Takes the operation back: the removed cells come to their places, and each other cell to the place that it came from. Costs
    /// what the operation does, and the cells that are put back.
    pub fn put_back(
        &mut self,
        grid: &Grid<V>,
        s: &Shift,
        removed: CellList<V>,
    ) -> Result<(), AllocError>
        requires sound { IsSound s.now }
        requires inside { AreListedInside (items_of removed) }
        requires of { IsDraftOf grid.now self.old }
        ensures restored { OnOk result (drafted grid.now self.new ≡ restored_map s.now (items_of removed) (drafted grid.now self.old)) }
        ensures of { OnOk result (IsDraftOf grid.now self.new) }
    {
        self.carry(grid, Going::Back, s, removed)
    }

    // Does the operation on this way, and puts more cells over what stands then.
    fn carry(
        &mut self,
        grid: &Grid<V>,
        way: Going,
        s: &Shift,
        more: CellList<V>,
    ) -> Result<(), AllocError>
        requires sound { IsSound s.now }
        requires inside { AreEachInside (items_of more) }
        requires of { IsDraftOf grid.now self.old }
        ensures carried { OnOk result (drafted grid.now self.new ≡ with_entries (items_of more) (carried_map (goes way s.now) (drafted grid.now self.old))) }
        ensures of { OnOk result (IsDraftOf grid.now self.new) }
    {
        match s.form() {
            Form::Lines { sheet, axis, edit } => {
                self.carry_lines(grid, way, sheet, axis, edit, more)
            }
            Form::Cells { source, to } => self.carry_cells(grid, way, source, to, more),
            Form::Sheet { sheet } => {
                let there = self.listed(grid, whole(sheet))?;
                let emptied = there.places(grid.alloc)?;
                self.replace(&emptied, more)
            }
        }
    }

    // Edits the lines of a sheet, by which each cell stays under its key, and puts more cells over what stands then.
    pub(crate) fn carry_lines(
        &mut self,
        grid: &Grid<V>,
        way: Going,
        sheet: u32,
        axis: Axis,
        edit: Edit,
        more: CellList<V>,
    ) -> Result<(), AllocError>
        requires sound { IsSoundEdit (limit_of axis) edit }
        requires inside { AreEachInside (items_of more) }
        requires of { IsDraftOf grid.now self.old }
        ensures carried { OnOk result (drafted grid.now self.new ≡ with_entries (items_of more) (carried_map (form_goes way (form.Lines sheet axis edit)) (drafted grid.now self.old))) }
        ensures of { OnOk result (IsDraftOf grid.now self.new) }
    {
        self.note_lost(grid, way, sheet, axis, edit)?;
        self.changes.carry_lines(way, sheet, axis, edit)?;
        self.place(more)
    }

    // Notes the keys of the grid's cells that the edit loses.
    fn note_lost(
        &mut self,
        grid: &Grid<V>,
        way: Going,
        sheet: u32,
        axis: Axis,
        edit: Edit,
    ) -> Result<(), AllocError>
        ensures noted { OnOk result (NotesLost (form_goes way (form.Lines sheet axis edit)) grid.now self.old self.new) }
        ensures still { OnOk result (StillNotes self.old self.new) }
        ensures changes { self.new.changes ≡ self.old.changes }
    {
        if let Some(span) = lost_lines(way, edit, axis.limit()) {
            let keys = self.keys(grid, whole(sheet).with_span(axis, span))?;
            self.lost.extend_from_slice(&keys)?;
        }
        Ok(())
    }

    // The keys of the grid's cells that are in the block, as the draft has their lines.
    fn keys(&self, grid: &Grid<V>, area: Block) -> Result<Vec<CellKey>, AllocError>
        ensures { IfOk result (λ keys. HasKeysOf grid.now self.now area keys.items) }
    {
        let seen = self.view(grid).listed_refs(grid.alloc, area)?;
        let mut keys = Vec::new(grid.alloc);
        for (at, _cell) in &seen {
            if let Some(key) = self.changes.key(*at) {
                keys.push(key)?;
            }
        }
        Ok(keys)
    }

    // Moves the cells of a block over those of another, and puts more cells over what stands then.
    fn carry_cells(
        &mut self,
        grid: &Grid<V>,
        way: Going,
        source: Block,
        to: Place,
        more: CellList<V>,
    ) -> Result<(), AllocError>
        requires sound { IsSoundForm (form.Cells source to) }
        requires inside { AreEachInside (items_of more) }
        ensures carried { OnOk result (drafted grid.now self.new ≡ with_entries (items_of more) (carried_map (form_goes way (form.Cells source to)) (drafted grid.now self.old))) }
        ensures base { KeepsBase self.old self.new }
    {
        let (from, onto) = blocks(way, source, to);
        let moved = self.listed(grid, from)?;
        let there = self.listed(grid, onto)?;
        let emptied = both_places(grid.alloc, &moved, &there)?;
        let placed = carried(way, source, to, moved, more)?;
        self.replace(&emptied, placed)
    }

    // The cells of the block that the draft leads to, row by row.
    fn listed(&self, grid: &Grid<V>, area: Block) -> Result<CellList<V>, AllocError>
        ensures { IfOk result (λ list. items_of list ≡ map.entries (within area (drafted grid.now self.now))) }
    {
        let mut found = Vec::new(grid.alloc);
        self.view(grid).find(area, &mut found)?;
        let mut found = by_place(grid.alloc, found)?;
        lay_over(self.changes.listed_refs(area)?, &mut found)?;
        let list = in_order(grid.alloc, found)?;
        copies(grid.alloc, &list)
    }

    // The grid's cells, seen through the draft's lines.
    fn view<'a>(&'a self, grid: &'a Grid<V>) -> View<'a, V>
        ensures { shown result ≡ carried_along grid.now self.now }
    {
        View {
            cells: &grid.cells,
            rows: &self.changes.rows,
            cols: &self.changes.cols,
        }
    }

    /// Puts the changes in place. All memory is taken first, so that for want of it the grid is as it was. Costs the cells that are
    /// placed, emptied or lost, each with the logarithm of the number of filled cells.
    pub fn finish(self, grid: &mut Grid<V>) -> Result<(), AllocError>
        requires { IsDraftOf grid.old self }
        ensures ok { OnOk result (cells_of grid.new ≡ drafted grid.old self) }
        ensures err { OnErr result (cells_of grid.new ≡ cells_of grid.old) }
    {
        let Draft { changes, lost } = self;
        let (cells, rows, cols) = changes.into_parts();
        grid.cells.change(grid.alloc, cells)?;
        grid.cells.leave_lost(&rows, &cols, &lost);
        grid.rows = rows;
        grid.cols = cols;
        Ok(())
    }
}
