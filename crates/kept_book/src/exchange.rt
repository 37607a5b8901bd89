// Several exchanges of cells as one.
ghost use Rattle.std.specs.Prelude.{◌≡◌, ◌++◌, ◌∷◌, [], IfOk, OnOk, OnErr, filter, not};
ghost use Rattle.std.specs.BTreeSet.{contains};
ghost use Rattle.cell_addr.specs.Order.{place_cmp};
ghost use Rattle.grid_store.specs.Grid.{AreListedInside, cells_of, items_of};
ghost use Rattle.kept_book.specs.internal.Exchange.{AddsPlaces, Changes, IsPlacedInside, Makes, exchanged};

use cell_addr::Place;
use grid_store::{Cell, CellList, Grid};
use std::alloc::{AllocError, Global};
use std::collections::BTreeSet;

// Places that are emptied, and cells that are placed then; of two at one place the first counts.
#[derive(Drop)]
pub(crate) struct Exchange {
    emptied: BTreeSet<Place>,
    placed: CellList<Cell>,
}

impl Exchange {
    // One that changes nothing.
    pub(crate) fn new(alloc: Global) -> Result<Exchange, AllocError>
        ensures idle { IfOk result (λ exchange. Makes exchange (λ m. m)) }
        ensures inside { IfOk result IsPlacedInside }
    {
        Ok(Exchange {
            emptied: BTreeSet::new(alloc),
            placed: CellList::new(alloc)?,
        })
    }

    // Lets another exchange come before it: the cells that are emptied, and copies of those that are placed.
    pub(crate) fn put_before(
        &mut self,
        alloc: Global,
        emptied: &CellList<Cell>,
        placed: &CellList<Cell>,
    ) -> Result<(), AllocError>
        requires placed { AreListedInside (items_of placed.now) }
        requires inside { IsPlacedInside self.old }
        ensures changes { OnOk result (Changes self.old (items_of emptied.now) (items_of placed.now) self.new) }
        ensures inside { OnOk result (IsPlacedInside self.new) }
    {
        self.place(alloc, placed)?;
        self.empty(emptied)
    }

    // Places copies of those cells whose places aren't emptied, behind the others.
    fn place(&mut self, alloc: Global, cells: &CellList<Cell>) -> Result<(), AllocError>
        ensures placed { OnOk result (items_of self.new.placed ≡ items_of self.old.placed ++ filter (λ e. not (contains place_cmp self.old.emptied e.0)) (items_of cells.now)) }
        ensures emptied { self.new.emptied ≡ self.old.emptied }
    {
        for (at, cell) in cells.items() {
            self.place_one(alloc, *at, cell)?;
        }
        Ok(())
    }

    // The same of one cell.
    fn place_one(&mut self, alloc: Global, at: Place, cell: &Cell) -> Result<(), AllocError>
        ensures placed { OnOk result (items_of self.new.placed ≡ items_of self.old.placed ++ filter (λ e. not (contains place_cmp self.old.emptied e.0)) ((at, cell.now) ∷ [])) }
        ensures emptied { self.new.emptied ≡ self.old.emptied }
    {
        if !self.emptied.contains(&at) {
            self.placed.push(at, cell.copied(alloc)?)?;
        }
        Ok(())
    }

    // Empties the places of the cells too.
    fn empty(&mut self, cells: &CellList<Cell>) -> Result<(), AllocError>
        ensures emptied { OnOk result (AddsPlaces self.old.emptied (items_of cells.now) self.new.emptied) }
        ensures placed { self.new.placed ≡ self.old.placed }
    {
        for (at, _) in cells.items() {
            self.emptied.insert(*at)?;
        }
        Ok(())
    }

    // Does it. For want of memory the grid is as it was.
    pub(crate) fn run(self, alloc: Global, grid: &mut Grid<Cell>) -> Result<(), AllocError>
        requires { IsPlacedInside self }
        ensures ok { OnOk result (cells_of grid.new ≡ exchanged self (cells_of grid.old)) }
        ensures err { OnErr result (cells_of grid.new ≡ cells_of grid.old) }
    {
        let emptied = listed(alloc, &self.emptied)?;
        grid.exchange(&emptied, self.placed)
    }
}

// The places of the set, in order.
fn listed(alloc: Global, places: &BTreeSet<Place>) -> Result<Vec<Place>, AllocError>
    ensures { IfOk result (λ list. list.items ≡ places.now.keys) }
{
    let mut list = Vec::new(alloc);
    for at in places {
        list.push(*at)?;
    }
    Ok(list)
}
