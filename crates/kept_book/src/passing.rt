// The cells as changes are taken back or done again.
ghost use Rattle.std.specs.Prelude.{◌≡◌, IfOk, IfSome, OnOk, OnErr};
ghost use Rattle.grid_store.specs.Draft.{IsDraftOf, drafted};
ghost use Rattle.grid_store.specs.Grid.{cells_of, items_of};
ghost use Rattle.shift_line.specs.Track.{shift_at};
ghost use Rattle.lazy_store.specs.Kept.{IsSoundLine};
ghost use Rattle.kept_book.specs.Change.{cells_after, cells_before, shift_of};
ghost use Rattle.kept_book.specs.Kept.{change_of, changes_of};
ghost use Rattle.kept_book.specs.internal.Exchange.{IsPlacedInside, Makes};
ghost use Rattle.kept_book.specs.internal.Stepping.{cells_back, cells_forth, cells_on};

use crate::exchange::Exchange;
use crate::part::Part;
use grid_store::{Cell, CellList, Draft, Grid};
use shift_core::Shift;
use shift_line::Line;
use std::alloc::{AllocError, Global};

/// A side of a change: what was before it, or what is after it.
#[derive(Clone, Copy)]
pub enum Side {
    Before,
    After,
}

// Takes the cells to one side of the parts.
pub(crate) fn step(
    alloc: Global,
    line: &Line,
    grid: &mut Grid<Cell>,
    parts: &[Part],
    side: Side,
) -> Result<(), AllocError>
    requires sound { IsSoundLine line.now }
    ensures ok { OnOk result (cells_of grid.new ≡ cells_on side (shift_at line.now) (changes_of parts.now) (cells_of grid.old)) }
    ensures err { OnErr result (cells_of grid.new ≡ cells_of grid.old) }
{
    match side {
        Side::Before => step_back(alloc, line, grid, parts),
        Side::After => step_forth(alloc, line, grid, parts),
    }
}

// Takes the cells back over the parts: in place over one, and over several that have no operation, by one exchange of cells; over
// others by a draft.
fn step_back(
    alloc: Global,
    line: &Line,
    grid: &mut Grid<Cell>,
    parts: &[Part],
) -> Result<(), AllocError>
    requires sound { IsSoundLine line.now }
    ensures ok { OnOk result (cells_of grid.new ≡ cells_back (shift_at line.now) (changes_of parts.now) (cells_of grid.old)) }
    ensures err { OnErr result (cells_of grid.new ≡ cells_of grid.old) }
{
    if let [part] = parts {
        return cells_behind(alloc, line, grid, part);
    }
    if let Some(exchange) = exchange_back(alloc, line, parts)? {
        return exchange.run(alloc, grid);
    }
    let mut draft = Draft::new(grid)?;
    for index in (0..parts.len()).rev() {
        draft_behind(alloc, line, grid, &mut draft, &parts[index])?;
    }
    draft.finish(grid)
}

// Takes the cells forth over the parts, likewise.
fn step_forth(
    alloc: Global,
    line: &Line,
    grid: &mut Grid<Cell>,
    parts: &[Part],
) -> Result<(), AllocError>
    requires sound { IsSoundLine line.now }
    ensures ok { OnOk result (cells_of grid.new ≡ cells_forth (shift_at line.now) (changes_of parts.now) (cells_of grid.old)) }
    ensures err { OnErr result (cells_of grid.new ≡ cells_of grid.old) }
{
    if let [part] = parts {
        return cells_ahead(alloc, line, grid, part);
    }
    if let Some(exchange) = exchange_forth(alloc, line, parts)? {
        return exchange.run(alloc, grid);
    }
    let mut draft = Draft::new(grid)?;
    for part in parts {
        draft_ahead(alloc, line, grid, &mut draft, part)?;
    }
    draft.finish(grid)
}

// The exchange that takes the cells back over the parts, if none of them has an operation. What a part replaced counts before what
// later ones did.
fn exchange_back(alloc: Global, line: &Line, parts: &[Part]) -> Result<Option<Exchange>, AllocError>
    ensures back { IfOk result (λ r. IfSome r (λ exchange. Makes exchange (cells_back (shift_at line.now) (changes_of parts.now)))) }
    ensures inside { IfOk result (λ r. IfSome r IsPlacedInside) }
{
    let mut exchange = Exchange::new(alloc)?;
    for part in parts {
        if shift_of(line, part).is_some() {
            return Ok(None);
        }
        exchange.put_before(alloc, &part.written, &part.replaced)?;
    }
    Ok(Some(exchange))
}

// The exchange that takes the cells forth over the parts, if none of them has an operation. What a part wrote counts before what
// earlier ones did.
fn exchange_forth(
    alloc: Global,
    line: &Line,
    parts: &[Part],
) -> Result<Option<Exchange>, AllocError>
    ensures forth { IfOk result (λ r. IfSome r (λ exchange. Makes exchange (cells_forth (shift_at line.now) (changes_of parts.now)))) }
    ensures inside { IfOk result (λ r. IfSome r IsPlacedInside) }
{
    let mut exchange = Exchange::new(alloc)?;
    for index in (0..parts.len()).rev() {
        let part = &parts[index];
        if shift_of(line, part).is_some() {
            return Ok(None);
        }
        exchange.put_before(alloc, &part.replaced, &part.written)?;
    }
    Ok(Some(exchange))
}

// The operation of a part that has one.
fn shift_of(line: &Line, part: &Part) -> Option<Shift>
    ensures { result ≡ shift_of (shift_at line.now) (change_of part.now) }
{
    if part.from < part.to {
        line.at(part.from)
    } else {
        None
    }
}

// Takes the cells back over one part.
fn cells_behind(
    alloc: Global,
    line: &Line,
    grid: &mut Grid<Cell>,
    part: &Part,
) -> Result<(), AllocError>
    requires sound { IsSoundLine line.now }
    ensures ok { OnOk result (cells_of grid.new ≡ cells_before (shift_of (shift_at line.now) (change_of part.now)) (change_of part.now) (cells_of grid.old)) }
    ensures err { OnErr result (cells_of grid.new ≡ cells_of grid.old) }
{
    let replaced = copied(alloc, &part.replaced)?;
    match shift_of(line, part) {
        Some(s) => grid.put_back(&s, replaced),
        None => {
            let written = part.written.places(alloc)?;
            grid.exchange(&written, replaced)
        }
    }
}

// Takes the cells forth over one part.
fn cells_ahead(
    alloc: Global,
    line: &Line,
    grid: &mut Grid<Cell>,
    part: &Part,
) -> Result<(), AllocError>
    requires sound { IsSoundLine line.now }
    ensures ok { OnOk result (cells_of grid.new ≡ cells_after (shift_of (shift_at line.now) (change_of part.now)) (change_of part.now) (cells_of grid.old)) }
    ensures err { OnErr result (cells_of grid.new ≡ cells_of grid.old) }
{
    match shift_of(line, part) {
        Some(s) => {
            grid.apply(&s)?;
            Ok(())
        }
        None => {
            let written = copied(alloc, &part.written)?;
            let replaced = part.replaced.places(alloc)?;
            grid.exchange(&replaced, written)
        }
    }
}

// Takes a draft of the cells back over one part.
fn draft_behind(
    alloc: Global,
    line: &Line,
    grid: &Grid<Cell>,
    draft: &mut Draft<Cell>,
    part: &Part,
) -> Result<(), AllocError>
    requires sound { IsSoundLine line.now }
    requires of { IsDraftOf grid.now draft.old }
    ensures ok { OnOk result (drafted grid.now draft.new ≡ cells_before (shift_of (shift_at line.now) (change_of part.now)) (change_of part.now) (drafted grid.now draft.old)) }
    ensures of { OnOk result (IsDraftOf grid.now draft.new) }
{
    let replaced = copied(alloc, &part.replaced)?;
    match shift_of(line, part) {
        Some(s) => draft.put_back(grid, &s, replaced),
        None => {
            let written = part.written.places(alloc)?;
            draft.exchange(&written, replaced)
        }
    }
}

// Takes a draft of the cells forth over one part.
fn draft_ahead(
    alloc: Global,
    line: &Line,
    grid: &Grid<Cell>,
    draft: &mut Draft<Cell>,
    part: &Part,
) -> Result<(), AllocError>
    requires sound { IsSoundLine line.now }
    requires of { IsDraftOf grid.now draft.old }
    ensures ok { OnOk result (drafted grid.now draft.new ≡ cells_after (shift_of (shift_at line.now) (change_of part.now)) (change_of part.now) (drafted grid.now draft.old)) }
    ensures of { OnOk result (IsDraftOf grid.now draft.new) }
{
    match shift_of(line, part) {
        Some(s) => draft.apply(grid, &s),
        None => {
            let written = copied(alloc, &part.written)?;
            let replaced = part.replaced.places(alloc)?;
            draft.exchange(&replaced, written)
        }
    }
}

// An equal list of cells.
pub(crate) fn copied(alloc: Global, cells: &CellList<Cell>) -> Result<CellList<Cell>, AllocError>
    ensures { IfOk result (λ copy. items_of copy ≡ items_of cells.now) }
{
    let mut copy = CellList::new(alloc)?;
    for (at, cell) in cells.items() {
        copy.push(*at, cell.copied(alloc)?)?;
    }
    Ok(copy)
}
