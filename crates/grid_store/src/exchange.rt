// Cells that are emptied and filled together, so that want of memory leaves the grid as it was.
ghost use Rattle.std.specs.Prelude.{◌≡◌, ◌++◌, ◌∷◌, [], if◌then◌else◌, IfOk, OnOk, OnErr, IsSome, filter, is_none, is_some, length, not};
ghost use Rattle.std.specs.BTreeSet.{contains};
ghost use Rattle.std.specs.FinMap as map;
ghost use Rattle.cell_addr.specs.Order.{place_cmp};
ghost use Rattle.cell_addr.specs.Place.{IsInside};
ghost use Rattle.cell_addr.specs.declared.place.Place.{Place};
ghost use Rattle.grid_store.specs.Grid.{AreListedInside, KeepsLines, cells_of, items_of, with_entries, without_places};
ghost use Rattle.grid_store.specs.internal.Lists.{AreEachInside};
ghost use Rattle.grid_store.specs.internal.Exchange.{AreFilled, HasSame, LacksAll, is_among, is_one_cell, places_of};

use crate::grid::Grid;
use crate::list::CellList;
use cell_addr::Place;
use std::alloc::{AllocError, Global};
use std::collections::BTreeSet;

impl<V: Drop> Grid<V> {
    /// Empties the places, and then fills those of the list; of two cells at one place the first counts. For want of memory the
    /// grid is as it was. Costs the places and the cells, each with the logarithm of the number of filled cells; where one cell is
    /// placed, and no other place emptied, what [`Grid::put`] does.
    pub fn exchange(&mut self, emptied: &[Place], placed: CellList<V>) -> Result<(), AllocError>
        requires { AreListedInside (items_of placed) }
        ensures ok { OnOk result (cells_of self.new ≡ with_entries (items_of placed) (without_places emptied.now (cells_of self.old))) }
        ensures err { OnErr result (cells_of self.new ≡ cells_of self.old) }
        ensures lines { KeepsLines self.old self.new }
    {
        if is_one_cell(emptied, placed.items()) {
            return self.place_one(placed);
        }
        self.replace(emptied, placed)
    }

    // Fills the place of the only cell of the list.
    fn place_one(&mut self, list: CellList<V>) -> Result<(), AllocError>
        requires inside { AreListedInside (items_of list) }
        requires one { length (items_of list) ≡ 1 }
        ensures ok { OnOk result (cells_of self.new ≡ with_entries (items_of list) (cells_of self.old)) }
        ensures err { OnErr result (cells_of self.new ≡ cells_of self.old) }
        ensures lines { KeepsLines self.old self.new }
    {
        let mut list = list;
        match list.pop() {
            Some((at, cell)) => self.set(at, cell),
            None => unreachable!(),
        }
    }

    // The same: all memory is taken before a cell is lost.
    pub(crate) fn replace(
        &mut self,
        emptied: &[Place],
        placed: CellList<V>,
    ) -> Result<(), AllocError>
        requires { AreEachInside (items_of placed) }
        ensures ok { OnOk result (cells_of self.new ≡ with_entries (items_of placed) (without_places emptied.now (cells_of self.old))) }
        ensures err { OnErr result (cells_of self.new ≡ cells_of self.old) }
        ensures lines { KeepsLines self.old self.new }
    {
        let targets = placed.places(self.alloc)?;
        let left = left_over(self.alloc, emptied, &targets)?;
        let (over, fresh) = self.parted(placed)?;
        self.fill(fresh)?;
        self.leave(&left);
        self.settle(over);
        Ok(())
    }

    // The cells of the list whose places are filled, and those whose places are empty.
    fn parted(&self, list: CellList<V>) -> Result<(CellList<V>, CellList<V>), AllocError>
        ensures over { IfOk result (λ parts. items_of parts.0 ≡ filter (λ e. is_some (map.get (cells_of self.now) e.0)) (items_of list)) }
        ensures fresh { IfOk result (λ parts. items_of parts.1 ≡ filter (λ e. is_none (map.get (cells_of self.now) e.0)) (items_of list)) }
    {
        let mut over = CellList::new(self.alloc)?;
        let mut fresh = CellList::new(self.alloc)?;
        for (at, cell) in list.into_items() {
            if self.cell(at).is_some() {
                over.push(at, cell)?;
            } else {
                fresh.push(at, cell)?;
            }
        }
        Ok((over, fresh))
    }

    // Fills the places of the list, all of which are empty; of two cells at one place the first counts.
    fn fill(&mut self, list: CellList<V>) -> Result<(), AllocError>
        requires inside { AreEachInside (items_of list) }
        requires empty { LacksAll (places_of (items_of list)) (cells_of self.old) }
        ensures ok { OnOk result (cells_of self.new ≡ with_entries (items_of list) (cells_of self.old)) }
        ensures err { OnErr result (cells_of self.new ≡ cells_of self.old) }
        ensures lines { KeepsLines self.old self.new }
    {
        let places = list.places(self.alloc)?;
        match self.put_all(list) {
            Ok(()) => Ok(()),
            Err(error) => {
                self.leave(&places);
                Err(error)
            }
        }
    }

    // Fills the places of the list; of two cells at one place the first counts. For want of memory some of them may be filled.
    fn put_all(&mut self, list: CellList<V>) -> Result<(), AllocError>
        requires { AreEachInside (items_of list) }
        ensures ok { OnOk result (cells_of self.new ≡ with_entries (items_of list) (cells_of self.old)) }
        ensures others { HasSame (places_of (items_of list)) (cells_of self.old) (cells_of self.new) }
        ensures lines { KeepsLines self.old self.new }
    {
        let mut list = list;
        while let Some((at, cell)) = list.pop() {
            self.set(at, cell)?;
        }
        Ok(())
    }

    // Fills the cell at the place, and drops what it held.
    pub(crate) fn set(&mut self, at: Place, cell: V) -> Result<(), AllocError>
        requires { IsInside at }
        ensures ok { OnOk result (cells_of self.new ≡ map.insert (cells_of self.old) at cell) }
        ensures err { OnErr result (cells_of self.new ≡ cells_of self.old) }
        ensures lines { KeepsLines self.old self.new }
    {
        self.put(at, cell)?;
        Ok(())
    }

    // Empties the places.
    fn leave(&mut self, places: &[Place])
        ensures cells { cells_of self.new ≡ without_places places.now (cells_of self.old) }
        ensures lines { KeepsLines self.old self.new }
    {
        for at in places {
            self.take(*at);
        }
    }

    // Fills the places of the list, each of which is filled already; of two cells at one place the first counts.
    fn settle(&mut self, list: CellList<V>)
        requires inside { AreEachInside (items_of list) }
        requires filled { AreFilled (items_of list) (cells_of self.old) }
        ensures cells { cells_of self.new ≡ with_entries (items_of list) (cells_of self.old) }
        ensures lines { KeepsLines self.old self.new }
    {
        let mut list = list;
        while let Some((at, cell)) = list.pop() {
            self.overwrite(at, cell);
        }
    }

    // Puts another cell at a filled place, which takes no memory.
    fn overwrite(&mut self, at: Place, cell: V)
        requires inside { IsInside at }
        requires filled { IsSome (map.get (cells_of self.old) at) }
        ensures cells { cells_of self.new ≡ map.insert (cells_of self.old) at cell }
        ensures lines { KeepsLines self.old self.new }
    {
        match self.put(at, cell) {
            Ok(_) => (),
            Err(_) => unreachable!(),
        }
    }
}

// Whether one cell is placed, and no place emptied but its own.
fn is_one_cell<V>(emptied: &[Place], placed: &[(Place, V)]) -> bool
    ensures { result ≡ is_one_cell emptied.now placed.now }
{
    match (emptied, placed) {
        ([], [_]) => true,
        ([at], [(to, _)]) => at == to,
        _ => false,
    }
}

// Those of the places that aren't among the targets.
fn left_over(alloc: Global, places: &[Place], targets: &[Place]) -> Result<Vec<Place>, AllocError>
    ensures { IfOk result (λ left. left.items ≡ filter (λ p. not (is_among targets.now p)) places.now) }
{
    let mut left = Vec::new(alloc);
    if places.is_empty() {
        return Ok(left);
    }
    let targets = set_of(alloc, targets)?;
    for at in places {
        push_if(&mut left, !targets.contains(at), *at)?;
    }
    Ok(left)
}

// The set of the places.
fn set_of(alloc: Global, places: &[Place]) -> Result<BTreeSet<Place>, AllocError>
    ensures { IfOk result (λ set. (q : Place) → contains place_cmp set q ≡ is_among places.now q) }
{
    let mut set = BTreeSet::new(alloc);
    for at in places {
        set.insert(*at)?;
    }
    Ok(set)
}

// Adds the place at the end of the list, if it is wanted.
fn push_if(list: &mut Vec<Place>, wanted: bool, at: Place) -> Result<(), AllocError>
    ensures { OnOk result (list.new.items ≡ (if wanted then list.old.items ++ at ∷ [] else list.old.items)) }
{
    if wanted {
        list.push(at)?;
    }
    Ok(())
}
