// Lists of cells with their places.
ghost use Rattle.std.specs.Prelude.{◌≡◌, ◌++◌, ◌∷◌, [], IfOk, OnOk, OnErr, MatchOption, IsTrue, map, ◌↔◌};

use cell_addr::Place;
use std::alloc::{AllocError, Global};

/// A list of cells with their places.
#[derive(Drop)]
pub struct CellList<V> {
    list: Vec<(Place, V)>,
}

impl<V: Drop> CellList<V> {
    ghost use Rattle.grid_store.specs.Grid.{AreListedInside, items_of};

    /// A list without cells.
    pub fn new(alloc: Global) -> Result<CellList<V>, AllocError>
        ensures { IfOk result (λ list. items_of list ≡ []) }
    {
        Ok(CellList {
            list: Vec::new(alloc),
        })
    }

    /// Adds a cell at the end. For want of memory the list is as it was.
    pub fn push(&mut self, at: Place, cell: V) -> Result<(), AllocError>
        ensures ok { OnOk result (items_of self.new ≡ items_of self.old ++ (at, cell) ∷ []) }
        ensures err { OnErr result (items_of self.new ≡ items_of self.old) }
    {
        self.list.push((at, cell))?;
        Ok(())
    }

    /// Whether all places of the list are on the sheet.
    pub fn inside(&self) -> bool
        ensures { IsTrue result ↔ AreListedInside (items_of self.now) }
    {
        self.list.iter().all(|entry| entry.0.inside())
    }

    /// Takes the last cell off. `None` where the list has none.
    pub fn pop(&mut self) -> Option<(Place, V)>
        ensures { MatchOption result (items_of self.old ≡ []) (λ last. items_of self.old ≡ items_of self.new ++ last ∷ []) }
    {
        self.list.pop()
    }

    /// The places of the cells, in order. Costs their number.
    pub fn places(&self, alloc: Global) -> Result<Vec<Place>, AllocError>
        ensures { IfOk result (λ places. places.items ≡ map (λ e. e.0) (items_of self.now)) }
    {
        let mut places = Vec::new(alloc);
        for (at, _) in &self.list {
            places.push(*at)?;
        }
        Ok(places)
    }

    // The list of the cells with their places.
    pub(crate) fn into_items(self) -> Vec<(Place, V)>
        ensures { result.items ≡ items_of self }
    {
        self.list
    }

    /// The cells with their places, in order.
    pub fn items(&self) -> &[(Place, V)]
        ensures { result.now ≡ items_of self.now }
    {
        &self.list
    }
}
