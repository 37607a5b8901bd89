// Cells that were found: put one behind the other, and brought into the order of their places.
ghost use Rattle.std.specs.Prelude.{◌≡◌, None, Some, IfOk, OnOk};
ghost use Rattle.std.specs.BTreeMap.{IsOrdered};
ghost use Rattle.cell_addr.specs.Order.{place_cmp};
ghost use Rattle.grid_store.specs.internal.Drafting.{IsLaidOver};
ghost use Rattle.grid_store.specs.internal.Listing.{HasSame, IsAdded, IsInOrder, follows, rises};

use cell_addr::Place;
use std::alloc::{AllocError, Global};
use std::collections::BTreeMap;

// Puts a cell behind those that were found.
pub(crate) fn put<'a, V>(
    found: &mut Vec<(Place, &'a V)>,
    at: Place,
    cell: &'a V,
) -> Result<(), AllocError>
    ensures { OnOk result (IsAdded found.old at cell.now found.new) }
{
    found.push((at, cell))?;
    Ok(())
}

// The found cells in the order of their places, each place once. Those that were found in this order are taken as they are.
pub(crate) fn ordered<'a, V>(
    alloc: Global,
    found: Vec<(Place, &'a V)>,
) -> Result<Vec<(Place, &'a V)>, AllocError>
    ensures { IfOk result (λ list. HasSame found.entry.items list.items × IsInOrder list.items) }
{
    if rises(&found) {
        return Ok(found);
    }
    in_order(alloc, by_place(alloc, found)?)
}

// Whether each place comes after the one before it.
fn rises<V>(cells: &[(Place, &V)]) -> bool
    ensures { result ≡ rises None cells.now }
{
    let mut last = None;
    for (at, _cell) in cells {
        if !follows(last, *at) {
            return false;
        }
        last = Some(*at);
    }
    true
}

// Whether the place comes after the one before it, if there is one.
fn follows(last: Option<Place>, at: Place) -> bool
    ensures { result ≡ follows last at }
{
    match last {
        Some(last) => last < at,
        None => true,
    }
}

// The found cells by their places; the first that was found at a place counts.
pub(crate) fn by_place<'a, V>(
    alloc: Global,
    found: Vec<(Place, &'a V)>,
) -> Result<BTreeMap<Place, &'a V>, AllocError>
    ensures { IfOk result (λ map. HasSame found.entry.items map.entries) }
{
    let mut found = found;
    let mut map = BTreeMap::new(alloc);
    while let Some((at, cell)) = found.pop() {
        add(&mut map, at, cell)?;
    }
    Ok(map)
}

// Adds the cell, over one that stands at its place.
pub(crate) fn add<'a, V>(
    cells: &mut BTreeMap<Place, &'a V>,
    at: Place,
    cell: &'a V,
) -> Result<(), AllocError>
    ensures { OnOk result (IsLaidOver at (Some cell.now) cells.old cells.new) }
{
    cells.insert(at, cell)?;
    Ok(())
}

// The cells, in the order of their places.
pub(crate) fn in_order<'a, V>(
    alloc: Global,
    cells: BTreeMap<Place, &'a V>,
) -> Result<Vec<(Place, &'a V)>, AllocError>
    ensures { IfOk result (λ list. (list.items ≡ cells.entry.entries) × IsOrdered place_cmp cells.entry) }
{
    let _many = cells.len();
    let mut list = Vec::new(alloc);
    for (at, cell) in cells {
        list.push((at, cell))?;
    }
    Ok(list)
}
