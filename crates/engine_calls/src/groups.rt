// The groups of calls. Each has an engine without sheets, and answers whether its calls answered as they should.
ghost use Rattle.std.specs.Prelude.{◌≡◌, ◌<◌};

use super::cells::{block, is_what_is_needed, is_what_needs, place, reads};
use crate::no_customs::NoCustoms;
use book_engine::{Engine, Stop};
use book_model::Refusal;
use cell_addr::Text;
use cell_value::Scalar;
use std::marker::Brand;
use std::sync::ledger::{Blank, Ledger};
use steps::Steps;

// Sheets are added, renamed, cleared and dropped; numbers go on.
pub(crate) fn sheets_come_and_go(engine: &mut Engine<NoCustoms>) -> Result<bool, Stop> {
    engine.add_sheet("Plan")?;
    engine.add_sheet("Two")?;
    engine.rename_sheet(0, "My Plan")?;
    engine.clear_sheet(1)?;
    engine.drop_sheet(0)?;
    let added = engine.add_sheet("Plan")?;
    let again = engine.add_sheet("plan");
    Ok(
        added == 2
            && engine.sheet_id("PLAN") == Some(2)
            && engine.sheet_name(1).map(Text::as_str) == Some("Two")
            && engine.sheet_count() == 2
            && engine.sheet_at(1) == Some(2)
            && again == Err(Stop::Refused(Refusal::SheetNameTaken)),
    )
}

// Rows are put in, taken out and moved.
pub(crate) fn formulas_follow_rows(engine: &mut Engine<NoCustoms>) -> Result<bool, Stop> {
    engine.add_sheet("Plan")?;
    engine.set(place(0, 0), "=B5+B9")?;
    engine.insert_rows(0, 2, 2)?;
    engine.delete_rows(0, 10, 1)?;
    engine.move_rows(0, 6, 1, 3)?;
    Ok(reads(engine, 0, 0, "=B4+#REF!"))
}

// So are columns, and a block.
pub(crate) fn formulas_follow_columns(engine: &mut Engine<NoCustoms>) -> Result<bool, Stop> {
    engine.add_sheet("Plan")?;
    engine.set(place(0, 0), "=B4")?;
    engine.insert_cols(0, 1, 1)?;
    engine.move_cols(0, 2, 1, 5)?;
    engine.delete_cols(0, 1, 1)?;
    engine.move_block(block(0, 0), place(5, 5))?;
    let moved = reads(engine, 5, 5, "=D4");
    engine.clear(block(3, 3))?;
    Ok(moved && engine.content(place(3, 3)).is_ok())
}

// A batch is one step, which is undone and redone; values wait while they are suspended.
pub(crate) fn steps_go_back_and_forward(engine: &mut Engine<NoCustoms>) -> Result<bool, Stop> {
    engine.add_sheet("Plan")?;
    engine.begin()?;
    engine.set(place(0, 0), "=B5")?;
    engine.delete_rows(0, 4, 1)?;
    let in_batch = engine.has_batch() && !engine.can_undo();
    engine.commit()?;
    engine.undo()?;
    let undone = engine.can_undo() && engine.can_redo() && !engine.has_batch();
    let before = engine.formula(place(0, 0))?;
    engine.redo()?;
    engine.suspend();
    let waits = engine.is_suspended() && !engine.can_redo();
    engine.resume();
    let asked = in_batch && undone && waits && !engine.is_suspended();
    Ok(asked && before.is_none() && reads(engine, 0, 0, "=#REF!"))
}

// A long line is settled up to the oldest step: a formula has followed it, and undo goes back as far as before.
pub(crate) fn a_long_line_is_settled(engine: &mut Engine<NoCustoms>) -> Result<bool, Stop> {
    engine.add_sheet("Plan")?;
    engine.set(place(0, 0), "=B5")?;
    for _ in 0..4_200 {
        engine.insert_rows(0, 1, 1)?;
    }
    let settled = engine.line().first() == 4_096;
    let after = reads(engine, 0, 0, "=B4205");
    for _ in 0..20 {
        engine.undo()?;
    }
    let before = reads(engine, 0, 0, "=B4185");
    let oldest = engine.undo() == Err(Stop::Refused(Refusal::NothingToUndo));
    Ok(settled && after && before && oldest)
}

// Idle time takes formulas along, those that the budget suffices for, until none is left; undo has them as they were.
pub(crate) fn idle_time_is_spent(engine: &mut Engine<NoCustoms>) -> Result<bool, Stop> {
    engine.add_sheet("Plan")?;
    engine.set(place(0, 0), "=B5")?;
    engine.set(place(0, 1), "=B6")?;
    for _ in 0..10 {
        engine.insert_rows(0, 1, 1)?;
    }
    let none = !engine.settle_idle(9)? && kept_at(engine, 0) == Some(0);
    let one = !engine.settle_idle(15)? && kept_at(engine, 0) == Some(10);
    let left = kept_at(engine, 1) == Some(0);
    let all = engine.settle_idle(10)? && kept_at(engine, 1) == Some(10);
    let again = engine.settle_idle(0)?;
    engine.undo()?;
    let before = reads(engine, 0, 0, "=B14") && reads(engine, 0, 1, "=B15");
    Ok(none && one && left && all && again && before)
}

// As of which position of the line the formula in the first row of a column is kept.
fn kept_at(engine: &Engine<NoCustoms>, col: u32) -> Option<u64> {
    let stored = engine.stored(place(0, col))?;
    Some(stored.position)
}

// Formulas that were replaced come back with undo as far as the steps reach, however many were swept before.
pub(crate) fn replaced_formulas_come_back(engine: &mut Engine<NoCustoms>) -> Result<bool, Stop> {
    engine.add_sheet("Plan")?;
    for _ in 0..2_000 {
        engine.set(place(0, 0), "=B1")?;
        engine.set(place(0, 0), "=B2")?;
    }
    engine.undo()?;
    let one_back = reads(engine, 0, 0, "=B1");
    for _ in 0..19 {
        engine.undo()?;
    }
    let oldest = reads(engine, 0, 0, "=B2");
    for _ in 0..19 {
        engine.redo()?;
    }
    Ok(one_back && oldest && reads(engine, 0, 0, "=B1"))
}

// How many steps are kept of three changes; `None` where none of them can be undone.
pub(crate) fn kept(engine: &mut Engine<NoCustoms>) -> Result<Option<usize>, Stop> {
    engine.add_sheet("Plan")?;
    engine.set(place(0, 0), "1")?;
    engine.set(place(0, 0), "2")?;
    let steps = engine.entries().done().len();
    match engine.undo() {
        Ok(()) => Ok(Some(steps)),
        Err(Stop::Refused(_)) => Ok(None),
        Err(Stop::NoMemory) => Err(Stop::NoMemory),
    }
}

// Names are added, changed and removed in their scopes.
pub(crate) fn names_come_and_go(engine: &mut Engine<NoCustoms>) -> Result<bool, Stop> {
    engine.add_sheet("Plan")?;
    engine.add_name("RATE", None, "=2*3")?;
    engine.add_name("Rate", Some(0), "=$A$1")?;
    engine.change_name("rate", Some(0), "=SUM($A$1:$A$2)")?;
    engine.remove_name("rate", Some(0))?;
    let taken = engine.add_name("rate", None, "=1");
    let gone = engine.remove_name("rate", Some(0));
    Ok(
        taken == Err(Stop::Refused(Refusal::NameTaken))
            && gone == Err(Stop::Refused(Refusal::NoSuchName)),
    )
}

// Blocks are copied, cut and pasted.
pub(crate) fn blocks_are_pasted(engine: &mut Engine<NoCustoms>) -> Result<bool, Stop> {
    engine.add_sheet("Plan")?;
    engine.set(place(0, 0), "=B1")?;
    let empty = engine.is_clipboard_empty();
    engine.copy(block(0, 0))?;
    engine.paste(place(1, 1))?;
    engine.cut(block(0, 0))?;
    let waits = !engine.is_clipboard_empty();
    engine.paste(place(2, 0))?;
    let again = engine.paste(place(4, 0));
    Ok(
        empty
            && waits
            && reads(engine, 1, 1, "=C2")
            && reads(engine, 2, 0, "=B1")
            && again == Err(Stop::Refused(Refusal::NothingToPaste)),
    )
}

// Neither a copy nor a cut waits any more once the clipboard is cleared.
pub(crate) fn a_clipboard_is_cleared(engine: &mut Engine<NoCustoms>) -> Result<bool, Stop> {
    engine.add_sheet("Plan")?;
    engine.copy(block(0, 0))?;
    engine.clear_clipboard();
    let copied = engine.paste(place(1, 1));
    engine.cut(block(0, 0))?;
    engine.clear_clipboard();
    let cut = engine.paste(place(1, 1));
    Ok(
        engine.is_clipboard_empty()
            && copied == Err(Stop::Refused(Refusal::NothingToPaste))
            && cut == Err(Stop::Refused(Refusal::NothingToPaste)),
    )
}

// What a formula needs is listed in its order, and what needs a cell by place and then by name.
pub(crate) fn links_are_listed_in_order(engine: &mut Engine<NoCustoms>) -> Result<bool, Stop> {
    engine.add_sheet("Plan")?;
    engine.add_name("rate", None, "=Plan!$A$1")?;
    engine.set(place(2, 0), "=SUM(A1:B1)+A1+Rate+A1+unknown")?;
    let needed = engine.precedents(place(2, 0))?;
    let needing = engine.dependents(place(0, 0))?;
    Ok(
        is_what_is_needed(&needed)
            && is_what_needs(&needing)
            && engine.dependents(place(1_048_576, 0)).is_err(),
    )
}

// Formulas call functions and names, and only what is on a cycle is a cycle.
pub(crate) fn values_follow_names(engine: &mut Engine<NoCustoms>) -> Result<bool, Stop> {
    engine.add_sheet("Plan")?;
    engine.add_name("Two", None, "=SUM(1,1)=2")?;
    engine.set(place(0, 0), "=TWO")?;
    engine.set(place(0, 1), "=B1")?;
    all_true::<Brand>(engine, Blank::new(1))
}

// Whether the first cell, a name and a formula all show TRUE.
fn all_true<L: Ledger>(engine: &mut Engine<NoCustoms>, blank: Blank) -> Result<bool, Stop>
    requires name { blank.name ≡ L.name }
    requires parts { blank.parts ≡ L.parts }
    requires some { 0 < blank.parts }
{
    let mut steps = Steps::<L>::new(blank);
    let cell = engine.value(place(0, 0), &mut steps)?;
    let name = engine.name_value("two", 0, &mut steps)?;
    let tried = engine.try_formula(0, "=ISERROR(B1)", &mut steps)?;
    Ok(cell == Scalar::Truth(true) && name == Scalar::Truth(true) && tried == Scalar::Truth(true))
}
