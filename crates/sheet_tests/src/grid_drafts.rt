// Changes of a grid that are made on the side and put in place together, beside the same changes made at once.
ghost use Rattle.grid_store.specs.Draft.{IsDraftOf};
ghost use Rattle.shift_core.specs.Sound.{IsSound};

use crate::grids::{AS_FILLED, FILLED, OPERATIONS, Operation, fill, has};
use grid_store::{Cell, CellList, Draft, Grid};
use shift_core::{Shift, sound};
use std::alloc::{AllocError, Global};

// Does the operation by a draft of its own.
fn apply_by_draft(grid: &mut Grid<Cell>, shift: &Shift) -> Result<(), AllocError>
    requires { IsSound shift.now }
{
    let mut draft = Draft::new(grid)?;
    draft.apply(grid, shift)?;
    draft.finish(grid)
}

// Takes the operation back by a draft of its own, where the removed cells are on sheets.
fn put_back_by_draft(
    grid: &mut Grid<Cell>,
    shift: &Shift,
    removed: CellList<Cell>,
) -> Result<(), AllocError>
    requires { IsSound shift.now }
{
    if !removed.inside() {
        return Ok(());
    }
    let mut draft = Draft::new(grid)?;
    draft.put_back(grid, shift, removed)?;
    draft.finish(grid)
}

// What the operation removes, by a grid that does it at once.
fn removed_by(alloc: Global, shift: &Shift) -> Result<CellList<Cell>, AllocError>
    requires { IsSound shift.now }
{
    let mut grid = Grid::new(alloc)?;
    fill(&mut grid, &FILLED)?;
    grid.apply(shift)
}

// Whether the operation leads a grid by drafts to its cells, and back.
fn goes_there_and_back(alloc: Global, operation: &Operation) -> Result<bool, AllocError>
    requires { IsSound operation.now.0 }
{
    let (shift, cells, _) = operation;
    let mut grid = Grid::new(alloc)?;
    fill(&mut grid, &FILLED)?;
    apply_by_draft(&mut grid, shift)?;
    let is_there = has(&grid, cells);
    put_back_by_draft(&mut grid, shift, removed_by(alloc, shift)?)?;
    Ok(is_there && has(&grid, &AS_FILLED))
}

#[test]
fn drafts_lead_there_and_back(rt: HostRuntime) -> Result<(), AllocError> {
    for operation in OPERATIONS {
        assert!(rt; sound(&operation.0) && goes_there_and_back(rt.alloc(), operation)?);
    }
    Ok(())
}

// Takes the operation back in the same draft that did it, and puts that in place.
fn finish_both(
    grid: &mut Grid<Cell>,
    draft: Draft<Cell>,
    shift: &Shift,
    removed: CellList<Cell>,
) -> Result<(), AllocError>
    requires sound { IsSound shift.now }
    requires of { IsDraftOf grid.old draft }
{
    if !removed.inside() {
        return Ok(());
    }
    let mut draft = draft;
    draft.put_back(grid, shift, removed)?;
    draft.finish(grid)
}

// Whether one draft that does the operation and takes it back leaves the grid's cells, before it is put in place and after.
fn leaves_cells(alloc: Global, shift: &Shift) -> Result<bool, AllocError>
    requires { IsSound shift.now }
{
    let mut grid = Grid::new(alloc)?;
    fill(&mut grid, &FILLED)?;
    let mut draft = Draft::new(&grid)?;
    draft.apply(&grid, shift)?;
    let is_left = has(&grid, &AS_FILLED);
    finish_both(&mut grid, draft, shift, removed_by(alloc, shift)?)?;
    Ok(is_left && has(&grid, &AS_FILLED))
}

#[test]
fn a_draft_that_goes_back_changes_nothing(rt: HostRuntime) -> Result<(), AllocError> {
    for operation in OPERATIONS {
        assert!(rt; sound(&operation.0) && leaves_cells(rt.alloc(), &operation.0)?);
    }
    Ok(())
}
