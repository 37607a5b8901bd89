// Cells that are given numbers, truth values and texts as they are, and cells that are written together.
ghost use Rattle.std.specs.Prelude.{◌≢◌};

use super::cells::place;
use super::on_heap::built;
use crate::no_customs::NoCustoms;
use book_engine::{Engine, Kind, Stop};
use book_model::Refusal;
use cell_addr::{Place, Text};
use fix_num::Fixed;
use std::alloc::{AllocError, Global};

// Contents come to cells as they are, whatever a text looks like.
pub(crate) fn contents_are_given(engine: &mut Engine<NoCustoms>) -> Result<bool, Stop> {
    engine.add_sheet("Plan")?;
    engine.set_number(place(0, 0), Fixed::ONE)?;
    engine.set_truth(place(1, 0), false)?;
    let numbers = holds(engine, 0, Kind::Number, "1")? && holds(engine, 1, Kind::Truth, "FALSE")?;
    let words = are_texts(engine)?;
    engine.set_number(place(0, 0), Fixed::ZERO)?;
    engine.undo()?;
    Ok(numbers && words && holds(engine, 0, Kind::Number, "1")? && are_refused(engine))
}

// Whether texts stay what they are, and are answered with an apostrophe where they need one.
fn are_texts(engine: &mut Engine<NoCustoms>) -> Result<bool, Stop> {
    Ok(
        is_text(engine, "tax", "tax")?
            && is_text(engine, "007", "'007")?
            && is_text(engine, "true", "'true")?
            && is_text(engine, "=A1", "'=A1")?
            && is_text(engine, "'tis", "''tis")?
            && is_text(engine, "", "'")?,
    )
}

// Whether a cell that is given this text holds it, and answers that one.
fn is_text(engine: &mut Engine<NoCustoms>, text: &str, given: &str) -> Result<bool, Stop> {
    engine.set_text(place(2, 0), text)?;
    holds(engine, 2, Kind::Text, given)
}

// Whether the cell in a row of the first column holds this kind of content, and answers this text.
fn holds(engine: &mut Engine<NoCustoms>, row: u32, kind: Kind, text: &str) -> Result<bool, Stop> {
    let is = engine.kind(place(row, 0))?;
    let given = engine.content(place(row, 0))?;
    Ok(is == kind && given.as_str() == text)
}

// Whether there is no such sheet, and no such row.
fn are_refused(engine: &mut Engine<NoCustoms>) -> bool {
    let elsewhere = Place {
        sheet: 1,
        row: 0,
        col: 0,
    };
    engine.set_number(elsewhere, Fixed::ONE) == Err(Stop::Refused(Refusal::NoSheet))
        && engine.set_truth(place(2_000_000, 0), true) == Err(Stop::Refused(Refusal::Outside))
        && engine.set_text(elsewhere, "tax") == Err(Stop::Refused(Refusal::NoSheet))
}

// The apostrophe that a text needs counts as a byte of it.
pub(crate) fn apostrophes_count(alloc: Global) -> Result<bool, Stop> {
    let mut engine = built(alloc, 20, NoCustoms)?;
    are_counted(alloc, &mut engine)
}

// In an engine without sheets.
fn are_counted(alloc: Global, engine: &mut Engine<NoCustoms>) -> Result<bool, Stop> {
    engine.add_sheet("Plan")?;
    let word = long_text(alloc, "x")?;
    let formula = long_text(alloc, "=")?;
    engine.set_text(place(0, 0), word.as_str())?;
    let long = engine.set_text(place(0, 0), formula.as_str());
    Ok(long == Err(Stop::Refused(Refusal::TextLimit)))
}

// A text of 8,192 bytes that begins so.
fn long_text(alloc: Global, first: &str) -> Result<String, AllocError> {
    let mut text = String::from_str(alloc, first)?;
    for _ in 0..8_191 {
        text.push('x')?;
    }
    Ok(text)
}

// Cells are written together: as one step, or none of them.
pub(crate) fn cells_are_written_together(alloc: Global) -> Result<bool, Stop> {
    let mut engine = built(alloc, 20, NoCustoms)?;
    are_written(alloc, &mut engine)
}

// In an engine without sheets.
fn are_written(alloc: Global, engine: &mut Engine<NoCustoms>) -> Result<bool, Stop> {
    engine.add_sheet("Plan")?;
    write_two(alloc, engine, "20", place_below(0), "=A1+1")?;
    let written = holds(engine, 0, Kind::Number, "20")?
        && holds(engine, 1, Kind::Formula, "=A1+1")?;
    write_two(alloc, engine, "'=x", place_below(0), "")?;
    let again = holds(engine, 0, Kind::Text, "'=x")? && holds(engine, 1, Kind::Empty, "")?;
    let refused = write_two(alloc, engine, "3", place_below(1), "4");
    let stay = refused == Err(Stop::Refused(Refusal::NoSheet))
        && holds(engine, 0, Kind::Text, "'=x")?;
    engine.undo()?;
    let back = holds(engine, 0, Kind::Number, "20")? && holds(engine, 1, Kind::Formula, "=A1+1")?;
    engine.undo()?;
    let filled = engine.filled_in(0)?;
    Ok(written && again && stay && back && filled.is_empty())
}

// Writes the first cell of the first sheet and another cell.
fn write_two(
    alloc: Global,
    engine: &mut Engine<NoCustoms>,
    text: &str,
    other: Place,
    below: &str,
) -> Result<(), Stop>
    requires { other.row ≢ 0 }
{
    let first = Place {
        sheet: 0,
        row: 0,
        col: 0,
    };
    let text = Text::from_str(alloc, text)?;
    let below = Text::from_str(alloc, below)?;
    let cells = [(first, text), (other, below)];
    engine.write_all(&cells)
}

// The second cell of the first column of a sheet.
fn place_below(sheet: u32) -> Place
    ensures { result.row ≢ 0 }
{
    Place {
        sheet,
        row: 1,
        col: 0,
    }
}
