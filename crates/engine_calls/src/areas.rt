// Areas of a sheet: which cells are filled, of what kind, how far the sheet is used, and what they show and hold.
ghost use Rattle.std.specs.Prelude.{◌≡◌, ◌<◌};

use super::cells::{block, place};
use super::on_heap::built;
use crate::no_customs::NoCustoms;
use area_reads::{contents, values};
use book_engine::{Engine, Kind, NameEntry, Stop};
use cell_addr::{Block, Place, Text};
use cell_value::Scalar;
use std::alloc::Global;
use std::marker::Brand;
use std::sync::ledger::{Blank, Ledger};
use steps::Steps;

// An application that shows a sheet asks which cells are filled, and reads these.
pub(crate) fn areas_are_read(alloc: Global) -> Result<bool, Stop> {
    let mut engine = built(alloc, 20, NoCustoms)?;
    are_read(alloc, &mut engine)
}

// In an engine without sheets.
fn are_read(alloc: Global, engine: &mut Engine<NoCustoms>) -> Result<bool, Stop> {
    engine.add_sheet("Plan")?;
    engine.set(place(3, 1), "=B5*2")?;
    engine.set(place(4, 1), "21")?;
    engine.set(place(2, 4), "tax")?;
    let found = are_found(engine)?;
    let shown = are_shown::<Brand>(alloc, engine, Blank::new(1))?;
    let texts = contents(alloc, engine, block(3, 1))?;
    Ok(found && shown && holds_formula(&texts) && are_listed(engine)?)
}

// Whether the filled cells are found, and how far they go.
fn are_found(engine: &Engine<NoCustoms>) -> Result<bool, Stop> {
    let first = engine.filled(block(3, 5))?;
    let all = engine.filled_in(0)?;
    let used = engine.used_area(0)?;
    let kind = engine.kind(place(3, 1))?;
    let area = Block {
        sheet: 0,
        top: 2,
        left: 1,
        bottom: 4,
        right: 4,
    };
    Ok(are_two(&first) && all.len() == 3 && used == Some(area) && kind == Kind::Formula)
}

// Whether the places are the text's and then the formula's, row by row.
fn are_two(places: &[Place]) -> bool {
    match places {
        [text, formula] => *text == place(2, 4) && *formula == place(3, 1),
        _ => false,
    }
}

// Whether the formula and the number below it show what they should.
fn are_shown<L: Ledger>(
    alloc: Global,
    engine: &mut Engine<NoCustoms>,
    blank: Blank,
) -> Result<bool, Stop>
    requires name { blank.name ≡ L.name }
    requires parts { blank.parts ≡ L.parts }
    requires some { 0 < blank.parts }
{
    let mut steps = Steps::<L>::new(blank);
    let shown = values(alloc, engine, block(4, 1), &mut steps)?;
    Ok(shows_twice(&shown))
}

// Whether these are two cells, of which the first one shows 42.
fn shows_twice(shown: &[(Place, Scalar)]) -> bool {
    match shown {
        [(at, Scalar::Number(number)), (_, Scalar::Number(_))] => {
            *at == place(3, 1) && number.millionths() == 42_000_000
        }
        _ => false,
    }
}

// Whether this is the formula's cell alone, with its text.
fn holds_formula(texts: &[(Place, Text)]) -> bool {
    match texts {
        [(at, text)] => *at == place(3, 1) && text.as_str() == "=B5*2",
        _ => false,
    }
}

// Whether names are listed, those of the whole workbook first, and have their texts.
fn are_listed(engine: &mut Engine<NoCustoms>) -> Result<bool, Stop> {
    engine.add_name("rate", Some(0), "=$B$5")?;
    engine.add_name("two", None, "= 1 + 1")?;
    let names = engine.names_listed()?;
    let text = engine.name_text("Two", None)?;
    Ok(are_two_and_rate(&names) && text.as_str() == "=1+1")
}

// Whether these are TWO, and then RATE of the first sheet.
fn are_two_and_rate(names: &[NameEntry]) -> bool {
    match names {
        [two, rate] => {
            two.scope.is_none()
                && two.name.as_str() == "TWO"
                && rate.scope == Some(0)
                && rate.name.as_str() == "RATE"
        }
        _ => false,
    }
}
