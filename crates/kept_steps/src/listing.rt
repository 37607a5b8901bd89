// The ids of the formulas that a workbook has, and of those that the parts of steps list.
ghost use Rattle.std.specs.Prelude.{◌≡◌, ℕ, true, Some, IfSome, OnOk, map, nat_eq};
ghost use Rattle.std.specs.HashSet.{contains};
ghost use Rattle.std.specs.List.{flat_map};
ghost use Rattle.std.specs.Option.{option_to_list};
ghost use Rattle.kept_book.specs.Kept.{frame_of, id_of};
ghost use Rattle.kept_steps.specs.InUse.{HasFormula};
ghost use Rattle.kept_book.specs.declared.passing.Side.TheVariants as sides;
ghost use Rattle.kept_steps.specs.internal.Listed.{Adds, cells_on, id_in, id_on, ids_of_step, ids_on, ids_open};

use crate::entry::Entry;
use cell_addr::Place;
use grid_store::Cell;
use indexmap::IndexSet;
use kept_book::{Book, NameChange, Part, Side};
use name_table::NameKey;
use std::alloc::AllocError;
use undo_book::UndoBook;

// Adds the ids of the formulas that the workbook has.
pub(crate) fn add_present(ids: &mut IndexSet<u64>, book: &Book) -> Result<(), AllocError>
    ensures there { OnOk result ((id : ℕ) → HasFormula (frame_of book.now) id → contains nat_eq ids.new id ≡ true) }
    ensures stay { OnOk result ((id : ℕ) → contains nat_eq ids.old id ≡ true → contains nat_eq ids.new id ≡ true) }
{
    let cells = book.grid.all()?;
    add_cells(ids, cells.items())?;
    let names = book.names.all()?;
    add_named(ids, names.as_slice())?;
    Ok(())
}

// Adds the ids of the formulas that the done steps replaced.
pub(crate) fn add_done(ids: &mut IndexSet<u64>, steps: &UndoBook<Entry>) -> Result<(), AllocError>
    ensures { OnOk result (Adds (flat_map (ids_of_step sides.Before) steps.now.done) ids.old ids.new) }
{
    let done = steps.done();
    for index in 0..done.len() {
        add_step(ids, done.get(index))?;
    }
    Ok(())
}

// Adds the ids of the formulas that a step replaced, if there is one.
fn add_step(ids: &mut IndexSet<u64>, entry: Option<&Entry>) -> Result<(), AllocError>
    ensures { IfSome entry.entry (λ e. OnOk result (Adds (ids_of_step sides.Before e.now) ids.old ids.new)) }
{
    match entry {
        Some(entry) => add_parts(ids, Side::Before, entry.parts.as_slice()),
        None => Ok(()),
    }
}

// Adds the ids of the formulas that the open batch replaced so far, where one is open.
pub(crate) fn add_open(ids: &mut IndexSet<u64>, batch: &Option<Entry>) -> Result<(), AllocError>
    ensures { OnOk result (Adds (ids_open batch.now) ids.old ids.new) }
{
    match batch {
        Some(entry) => add_parts(ids, Side::Before, entry.parts.as_slice()),
        None => Ok(()),
    }
}

// Adds the ids of the formulas that the undone steps wrote.
pub(crate) fn add_undone(ids: &mut IndexSet<u64>, steps: &[Entry]) -> Result<(), AllocError>
    ensures { OnOk result (Adds (flat_map (ids_of_step sides.After) steps.now) ids.old ids.new) }
{
    for entry in steps {
        add_parts(ids, Side::After, entry.parts.as_slice())?;
    }
    Ok(())
}

// Adds the ids of the formulas that the parts list on one side.
fn add_parts(ids: &mut IndexSet<u64>, side: Side, parts: &[Part]) -> Result<(), AllocError>
    ensures { OnOk result (Adds (flat_map (ids_on side) parts.now) ids.old ids.new) }
{
    for part in parts {
        add_part(ids, side, part)?;
    }
    Ok(())
}

// Adds those of one part.
fn add_part(ids: &mut IndexSet<u64>, side: Side, part: &Part) -> Result<(), AllocError>
    ensures { OnOk result (Adds (ids_on side part.now) ids.old ids.new) }
{
    add_cells(ids, cells_on(side, part))?;
    add_names(ids, side, part.names.as_slice())
}

// The cells that a part replaced, or those that it wrote.
fn cells_on(side: Side, part: &Part) -> &[(Place, Cell)]
    ensures { result.now ≡ cells_on side part.now }
{
    match side {
        Side::Before => part.replaced.items(),
        Side::After => part.written.items(),
    }
}

// Adds the ids of the formulas of listed cells.
fn add_cells(ids: &mut IndexSet<u64>, cells: &[(Place, Cell)]) -> Result<(), AllocError>
    ensures { OnOk result (Adds (flat_map id_in cells.now) ids.old ids.new) }
{
    for (_, cell) in cells {
        add(ids, formula_of(cell))?;
    }
    Ok(())
}

// The id of a cell's formula.
fn formula_of(cell: &Cell) -> Option<u64>
    ensures { result ≡ id_of (Some cell.now) }
{
    match cell {
        Cell::Formula(id) => Some(*id),
        Cell::Number(_) | Cell::Truth(_) | Cell::Text(_) | Cell::Broken(_) => None,
    }
}

// Adds the ids of the formulas that changes of names list on one side.
fn add_names(ids: &mut IndexSet<u64>, side: Side, changes: &[NameChange]) -> Result<(), AllocError>
    ensures { OnOk result (Adds (flat_map (λ c. option_to_list (id_on side c)) changes.now) ids.old ids.new) }
{
    for change in changes {
        add(ids, id_on(side, change))?;
    }
    Ok(())
}

// The id of the formula that a name had before a change, or has after it.
fn id_on(side: Side, change: &NameChange) -> Option<u64>
    ensures { result ≡ id_on side change.now }
{
    match side {
        Side::Before => change.before,
        Side::After => change.after,
    }
}

// Adds the ids of named formulas.
fn add_named(ids: &mut IndexSet<u64>, names: &[(NameKey, u64)]) -> Result<(), AllocError>
    ensures { OnOk result (Adds (map (λ e. e.1) names.now) ids.old ids.new) }
{
    for (_, id) in names {
        add(ids, Some(*id))?;
    }
    Ok(())
}

// Adds an id, if there is one.
pub(crate) fn add(ids: &mut IndexSet<u64>, id: Option<u64>) -> Result<(), AllocError>
    ensures { OnOk result (Adds (option_to_list id) ids.old ids.new) }
{
    if let Some(id) = id {
        ids.insert(id)?;
    }
    Ok(())
}
