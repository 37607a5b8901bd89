// What the filled cells of a block show, read together.
ghost use Rattle.std.specs.Prelude.{◌≡◌, ◌≤◌, ℤ, IfOk, List, ℕ, OnOk};
ghost use Rattle.custom_fn.specs.declared.rule.Rule.{Rule};
ghost use Rattle.book_values.specs.Values.{value_of};
ghost use Rattle.book_values.specs.Workbook.{place};
ghost use Rattle.kept_book.specs.Numbered.{Numbered};
ghost use Rattle.kept_steps.specs.declared.session.Session.{Session as SessionSeen};
ghost use Rattle.session_operations.specs.Following.{AreShowing, book_of};
ghost use Rattle.session_operations.specs.Refreshed.{IsUnmarked};
ghost use Rattle.session_questions.specs.Areas.{values_cause, values_in_block};
ghost use Rattle.session_operations.specs.Turns.{Answered, IsCause};
ghost use Rattle.session_operations.specs.Kept.{WorksOutIn};
ghost use Rattle.session_operations.specs.Seen.{Fits, ValuesFollow, state_of, with_rules};
ghost use Rattle.session_questions.specs.internal.ShownCells.{AreHeld, Holds, shown_each, shown_within};

use book_model::Refusal;
use calc_eval::Customs;
use cell_addr::{Block, Place};
use cell_value::{FaultKind, Scalar};
use grid_store::Cell;
use kept_steps::Session;
use session_operations::{Parts, SessionValues, Stop};
use std::alloc::{AllocError, Global};
use std::sync::ledger::Ledger;
use steps::Steps;

/// The filled cells of a block with what they show, row by row. What the changes since the last read of a value reach is worked out
/// first. Then it costs what [`filled`](crate::filled) does, and for each formula a look-up.
///
/// # Errors
/// `Suspended` where the computation is suspended or a batch is open, `NoSheet`, `Outside` where the block isn't within the limits
/// of a sheet.
pub fn values<C: Customs, L: Ledger>(
    parts: &mut Parts,
    alloc: Global,
    area: Block,
    customs: &C,
    day: i32,
    steps: &mut Steps<L>,
) -> Result<Vec<(Place, Scalar)>, Stop>
    requires fits { Fits parts.old }
    requires follow { ValuesFollow (C.customs customs.now) day parts.old }
    ensures answered { Answered (values_cause area (state_of parts.old)) (λ list. list.items ≡ values_in_block area (with_rules (C.customs customs.now) day (state_of parts.old))) result }
    ensures state { state_of parts.new ≡ state_of parts.old }
    ensures line { parts.new.session.book.lazy.line ≡ parts.old.session.book.lazy.line }
    ensures follow { ValuesFollow (C.customs customs.now) day parts.new }
    ensures unmarked { OnOk result (IsUnmarked parts.new.values.values) }
    ensures least { steps.old ≤ steps.new }
    ensures most { WorksOutIn (C.customs customs.now) day parts.old steps.old steps.new }
{
    check_values(parts, area)?;
    parts.refresh(customs, day, steps)?;
    let list = shown_in(alloc, &parts.session, &parts.values, area)?;
    Ok(list)
}

// Where the values of a block are asked for.
fn check_values(parts: &Parts, area: Block) -> Result<(), Refusal>
    ensures { IsCause result (values_cause area (state_of parts.now)) }
{
    if parts.session.suspended || parts.session.batch.is_some() {
        return Err(Refusal::Suspended);
    }
    parts.check_clear(area)
}

// The filled cells of a block with what they show, where what is kept of values is right.
fn shown_in(
    alloc: Global,
    session: &Session,
    values: &SessionValues,
    area: Block,
) -> Result<Vec<(Place, Scalar)>, AllocError>
    ensures { (customs : List (List ℕ × Rule)) (today : ℤ) → AreShowing customs today session.now values.now.values → IfOk result (λ list. list.items ≡ shown_within area session.now customs today) }
{
    let cells = session.book.grid.listed_refs(area)?;
    shown_each(alloc, values, &cells)
}

// Listed cells with what they show, where what is kept of values is right.
fn shown_each(
    alloc: Global,
    values: &SessionValues,
    cells: &[(Place, &Cell)],
) -> Result<Vec<(Place, Scalar)>, AllocError>
    ensures { (session : SessionSeen) (customs : List (List ℕ × Rule)) (today : ℤ) (stands : Numbered) → AreShowing customs today session values.now.values → AreHeld stands (book_of session) cells.now → IfOk result (λ list. list.items ≡ shown_each (book_of session) customs today cells.now) }
{
    let mut list = Vec::with_capacity(alloc, cells.len())?;
    'cells: for (at, cell) in cells {
        let shown = shown(alloc, values, *at, cell)?;
        list.push((*at, shown))?;
    }
    Ok(list)
}

// What a cell at the place shows, where what is kept of values is right: a formula what is kept of it, and any other content itself.
fn shown(
    alloc: Global,
    values: &SessionValues,
    at: Place,
    cell: &Cell,
) -> Result<Scalar, AllocError>
    ensures { (session : SessionSeen) (customs : List (List ℕ × Rule)) (today : ℤ) (stands : Numbered) → AreShowing customs today session values.now.values → Holds stands (book_of session) at cell.now → IfOk result (λ scalar. scalar ≡ value_of (book_of session) customs today (place at)) }
{
    match cell {
        Cell::Number(number) => Ok(Scalar::Number(*number)),
        Cell::Truth(truth) => Ok(Scalar::Truth(*truth)),
        Cell::Text(text) => Ok(Scalar::Text(text.copy(alloc)?)),
        Cell::Formula(_) => values.shown(alloc, at),
        Cell::Broken(_) => Ok(Scalar::Fault(FaultKind::Error)),
    }
}
