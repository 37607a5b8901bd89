// Changes that are laid over found cells, and that are made together under their keys.
ghost use Rattle.std.specs.Prelude.{◌≡◌, ◌++◌, ◌&&◌, [], None, Some, IfOk, OnErr, OnOk, IsSome, is_none, map, not, option_to_list};
ghost use Rattle.std.specs.BTreeMap as tree;
ghost use Rattle.std.specs.BTreeMap.{IsOrdered, is_at};
ghost use Rattle.grid_store.specs.Draft.{is_one_of};
ghost use Rattle.grid_store.specs.Grid.{seen_items};
ghost use Rattle.grid_store.specs.Keys.{key_cmp, place_at};
ghost use Rattle.grid_store.specs.internal.Drafting.{AreAllFresh, AreAllKept, AreKeptOver, AreLaidOver, AreMade, AreTakenOut, IsLaidOver, KeepsAll, emptied_by, emptied_of, fresh_of, is_gone, over_of, placed_if, under};

use crate::cells::Cells;
use crate::found::add;
use crate::key::{CellKey, place_in};
use cell_addr::Place;
use stable_lines::SheetLines;
use std::alloc::{AllocError, Global};
use std::collections::BTreeMap;

// Lays the changes over what was found: a cell at its place, or nothing at a place that is emptied.
pub(crate) fn lay_over<'a, V: Drop>(
    changes: Vec<(Place, &'a Option<V>)>,
    found: &mut BTreeMap<Place, &'a V>,
) -> Result<(), AllocError>
    ensures { OnOk result (AreLaidOver (seen_items changes.entry.items) found.old found.new) }
{
    let mut changes = changes;
    while let Some((at, change)) = changes.pop() {
        lay(at, change, found)?;
    }
    Ok(())
}

// Lays one change over what was found.
fn lay<'a, V: Drop>(
    at: Place,
    change: &'a Option<V>,
    found: &mut BTreeMap<Place, &'a V>,
) -> Result<(), AllocError>
    ensures { OnOk result (IsLaidOver at change.now found.old found.new) }
{
    match change {
        Some(cell) => add(found, at, cell),
        None => {
            found.remove(&at);
            Ok(())
        }
    }
}

// Changes of cells, parted by what is kept under their keys: the cells that are placed where nothing is kept, those that are placed
// over others, and the keys that are emptied.
#[derive(Drop)]
struct Parts<V> {
    fresh: Vec<(CellKey, V)>,
    over: Vec<(CellKey, V)>,
    emptied: Vec<CellKey>,
}

impl<V: Drop> Parts<V> {
    // No changes.
    fn new(alloc: Global) -> Parts<V>
        ensures fresh { result.fresh.items ≡ [] }
        ensures over { result.over.items ≡ [] }
        ensures emptied { result.emptied.items ≡ [] }
    {
        Parts {
            fresh: Vec::new(alloc),
            over: Vec::new(alloc),
            emptied: Vec::new(alloc),
        }
    }

    // Adds a change under a key under which something is kept, or nothing.
    fn add(&mut self, key: CellKey, change: Option<V>, kept: bool) -> Result<(), AllocError>
        ensures fresh { OnOk result (self.new.fresh.items ≡ self.old.fresh.items ++ option_to_list (placed_if (not kept) (key, change))) }
        ensures over { OnOk result (self.new.over.items ≡ self.old.over.items ++ option_to_list (placed_if kept (key, change))) }
        ensures emptied { OnOk result (self.new.emptied.items ≡ self.old.emptied.items ++ option_to_list (emptied_by (key, change))) }
    {
        match change {
            Some(cell) if kept => self.over.push((key, cell))?,
            Some(cell) => self.fresh.push((key, cell))?,
            None => self.emptied.push(key)?,
        }
        Ok(())
    }
}

impl<V: Drop> Cells<V> {
    // Makes the changes, each under its key: a cell in place of what is kept there, or nothing. All memory is taken first, so that for
    // want of it each cell is as it was.
    pub(crate) fn change(
        &mut self,
        alloc: Global,
        changes: Cells<Option<V>>,
    ) -> Result<(), AllocError>
        ensures ok { OnOk result (AreMade changes self.old self.new) }
        ensures err { OnErr result (KeepsAll self.old self.new) }
    {
        let parts = self.parted(alloc, changes)?;
        self.fill(alloc, parts.fresh)?;
        self.settle(parts.over);
        self.leave(&parts.emptied);
        Ok(())
    }

    // The changes, parted.
    fn parted(&self, alloc: Global, changes: Cells<Option<V>>) -> Result<Parts<V>, AllocError>
        ensures fresh { IfOk result (λ parts. parts.fresh.items ≡ fresh_of self.now changes.entries) }
        ensures over { IfOk result (λ parts. parts.over.items ≡ over_of self.now changes.entries) }
        ensures emptied { IfOk result (λ parts. parts.emptied.items ≡ emptied_of changes.entries) }
        ensures ordered { IfOk result (λ parts. IsOrdered key_cmp changes) }
    {
        let mut parts = Parts::new(alloc);
        let _many = changes.by_rows().len();
        for (key, change) in changes.into_rows() {
            let kept = self.by_rows().contains_key(&key);
            parts.add(key, change, kept)?;
        }
        Ok(parts)
    }

    // Keeps the cells of the list, under whose keys nothing is kept.
    fn fill(&mut self, alloc: Global, list: Vec<(CellKey, V)>) -> Result<(), AllocError>
        requires { AreAllFresh list.items self.old }
        ensures ok { OnOk result (AreKeptOver list.items self.old self.new) }
        ensures err { OnErr result (KeepsAll self.old self.new) }
    {
        let keys = keys_of(alloc, &list)?;
        match self.keep_all(list) {
            Ok(()) => Ok(()),
            Err(error) => {
                self.leave(&keys);
                Err(error)
            }
        }
    }

    // Keeps the cells of the list; of two under one key the first counts. For want of memory some of them may be kept.
    fn keep_all(&mut self, list: Vec<(CellKey, V)>) -> Result<(), AllocError>
        ensures ok { OnOk result (AreKeptOver list.items self.old self.new) }
        ensures others { (k : CellKey) → under list.items k ≡ None → tree.get key_cmp self.new k ≡ tree.get key_cmp self.old k }
    {
        let mut list = list;
        while let Some((key, cell)) = list.pop() {
            self.keep(key, cell)?;
        }
        Ok(())
    }

    // Keeps a cell under a key, and drops what was kept there.
    fn keep(&mut self, key: CellKey, cell: V) -> Result<(), AllocError>
        ensures ok { OnOk result (tree.Updates key_cmp self.old self.new key (Some cell)) }
        ensures absent { OnErr result (tree.get key_cmp self.old key ≡ None) }
        ensures err { OnErr result (KeepsAll self.old self.new) }
    {
        self.insert(key, cell)?;
        Ok(())
    }

    // Keeps the cells of the list, under each of whose keys one is kept already; of two under one key the first counts.
    fn settle(&mut self, list: Vec<(CellKey, V)>)
        requires { AreAllKept list.items self.old }
        ensures { AreKeptOver list.items self.old self.new }
    {
        let mut list = list;
        while let Some((key, cell)) = list.pop() {
            self.overwrite(key, cell);
        }
    }

    // Keeps another cell under a key that has one, which takes no memory.
    fn overwrite(&mut self, key: CellKey, cell: V)
        requires { IsSome (tree.get key_cmp self.old key) }
        ensures { tree.Updates key_cmp self.old self.new key (Some cell) }
    {
        match self.keep(key, cell) {
            Ok(()) => (),
            Err(_) => unreachable!(),
        }
    }

    // Takes the cells under the keys out.
    fn leave(&mut self, keys: &[CellKey])
        ensures { AreTakenOut (is_one_of keys.now) self.old self.new }
    {
        for key in keys {
            self.remove(key);
        }
    }

    // Takes those of the cells under the keys out whose lines stand nowhere.
    pub(crate) fn leave_lost(&mut self, rows: &SheetLines, cols: &SheetLines, keys: &[CellKey])
        ensures { AreTakenOut (is_gone rows.now cols.now keys.now) self.old self.new }
    {
        for key in keys {
            self.leave_if_lost(rows, cols, *key);
        }
    }

    // Takes the cell under the key out, if its lines stand nowhere.
    fn leave_if_lost(&mut self, rows: &SheetLines, cols: &SheetLines, key: CellKey)
        ensures { AreTakenOut (λ k. is_at (key_cmp key) k && is_none (place_at rows.now cols.now key)) self.old self.new }
    {
        if place_in(rows, cols, key).is_none() {
            self.remove(&key);
        }
    }
}

// The keys of the cells, in order.
fn keys_of<V>(alloc: Global, list: &[(CellKey, V)]) -> Result<Vec<CellKey>, AllocError>
    ensures { IfOk result (λ keys. keys.items ≡ map (λ e. e.0) list.now) }
{
    let mut keys = Vec::new(alloc);
    for (key, _) in list {
        keys.push(*key)?;
    }
    Ok(keys)
}
