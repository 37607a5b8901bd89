// What would be refused, asked beforehand, and steps that are forgotten.
use super::cells::{block, place, reads};
use crate::no_customs::NoCustoms;
use book_engine::{Change, Engine, Stop};
use book_model::Refusal;
use cell_addr::{NO_SHEET, Place};
use shift_core::Shift;

// Each cause is that of the call, which isn't made.
pub(crate) fn causes_are_asked(engine: &mut Engine<NoCustoms>) -> Result<bool, Stop> {
    engine.add_sheet("Plan")?;
    engine.set(place(0, 0), "=B5")?;
    engine.add_name("rate", None, "=0.19")?;
    let cells = causes_of_cells(engine)?;
    let names = causes_of_names(engine)?;
    let steps = causes_of_steps(engine)?;
    Ok(cells && names && steps && reads(engine, 0, 0, "=B5"))
}

// Of cells, sheets and lines.
fn causes_of_cells(engine: &Engine<NoCustoms>) -> Result<bool, Stop> {
    let at = Place {
        sheet: NO_SHEET,
        ..place(0, 0)
    };
    let nowhere = engine.cause(&Change::Set { at, text: "1" })?;
    let set = engine.cause(&Change::Set {
        at: place(0, 0),
        text: "1",
    })?;
    let named = engine.cause(&Change::AddSheet { name: "plan" })?;
    let none = engine.cause(&Change::Structural(Shift::InsertRows {
        sheet: 0,
        at: 0,
        count: 0,
    }))?;
    let moved = engine.cause(&Change::Structural(Shift::MoveBlock {
        source: block(1, 1),
        to: place(5, 5),
    }))?;
    Ok(
        nowhere == Some(Refusal::NoSheet)
            && set.is_none()
            && named == Some(Refusal::SheetNameTaken)
            && none == Some(Refusal::BadSpan)
            && moved.is_none(),
    )
}

// Of names and of their texts.
fn causes_of_names(engine: &Engine<NoCustoms>) -> Result<bool, Stop> {
    let taken = engine.cause(&Change::AddName {
        name: "RATE",
        scope: None,
        text: "=1",
    })?;
    let relative = engine.cause(&Change::ChangeName {
        name: "rate",
        scope: None,
        text: "=A1",
    })?;
    let unread = engine.cause(&Change::AddName {
        name: "tax",
        scope: None,
        text: "=1+",
    })?;
    let unknown = engine.cause(&Change::RemoveName {
        name: "tax",
        scope: None,
    })?;
    Ok(
        taken == Some(Refusal::NameTaken)
            && relative == Some(Refusal::RelativeAddress)
            && unread == Some(Refusal::BadFormula)
            && unknown == Some(Refusal::NoSuchName),
    )
}

// Of steps, batches and what waits to be pasted.
fn causes_of_steps(engine: &mut Engine<NoCustoms>) -> Result<bool, Stop> {
    let at = place(2, 2);
    let nothing = engine.cause(&Change::Paste { at })?;
    engine.copy(block(1, 1))?;
    let copied = engine.cause(&Change::Paste { at })?;
    engine.cut(block(1, 1))?;
    let cut = engine.cause(&Change::Paste { at: place(0, 0) })?;
    engine.begin()?;
    let open = engine.cause(&Change::Begin)?;
    let undone = engine.cause(&Change::Undo)?;
    engine.commit()?;
    let redone = engine.cause(&Change::Redo)?;
    Ok(
        nothing == Some(Refusal::NothingToPaste)
            && copied.is_none()
            && cut == Some(Refusal::BadSpan)
            && open == Some(Refusal::BatchOpen)
            && undone == Some(Refusal::BatchOpen)
            && redone == Some(Refusal::NothingToRedo),
    )
}

// Steps are forgotten, those of an open batch apart, and the workbook stays.
pub(crate) fn steps_are_forgotten(engine: &mut Engine<NoCustoms>) -> Result<bool, Stop> {
    engine.add_sheet("Plan")?;
    engine.set(place(0, 0), "=B5")?;
    engine.set(place(1, 0), "=B6")?;
    engine.undo()?;
    engine.clear_history();
    let none = !engine.can_undo() && !engine.can_redo();
    engine.begin()?;
    engine.set(place(0, 0), "=B7")?;
    engine.clear_history();
    engine.commit()?;
    engine.undo()?;
    Ok(none && reads(engine, 0, 0, "=B5") && !engine.can_undo() && engine.can_redo())
}
