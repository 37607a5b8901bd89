//! Calls of the engine as an application makes them, each with ample memory. It prints a line for each group of calls, and
//! whether all of them answered as they should. The status is 0 where all did, and else 1.
#![tactic(auto)]

ghost use Rattle.std.specs.Prelude.{◌≤◌};
ghost use Rattle.book_model.specs.declared.limits.TheConstants.{MAX_UNDO};

mod areas;
mod asked;
mod cells;
mod counted;
mod formulas;
mod giving;
mod groups;
mod no_customs;
mod on_heap;

use areas::areas_are_read;
use asked::{causes_are_asked, steps_are_forgotten};
use book_engine::{Engine, Stop};
use book_model::{BookCell, BookCells, BookSheet};
use cell_addr::Text;
use cells::reads;
use counted::formulas_are_worked_out_once;
use formulas::formulas_are_read_alone;
use giving::{apostrophes_count, cells_are_written_together, contents_are_given};
use groups::kept;
use no_customs::NoCustoms;
use on_heap::{begun, built};
use std::alloc::Global;
use std::io;
use std::process::ExitCode;

// A group of calls.
#[derive(Clone, Copy)]
enum Group {
    Given,
    Limit,
    Counted,
    Areas,
    Apostrophes,
    Written,
    Over(Calls),
}

// Calls over an engine without sheets.
#[derive(Clone, Copy)]
enum Calls {
    Sheets,
    Rows,
    Columns,
    Steps,
    Line,
    Idle,
    Replaced,
    Names,
    Clipboard,
    Cleared,
    Links,
    Values,
    Formulas,
    Contents,
    Asked,
    Forgotten,
    // Three changes, of which so many steps are to be kept; `None` where none can be undone.
    Kept(Option<usize>),
}

impl Group {
    const ALL: [(Group, &'static str); 22] = [
        (Group::Given, "begins with given sheets"),
        (Group::Limit, "steps are kept up to the limit"),
        (Group::Counted, "formulas are worked out once"),
        (Group::Areas, "areas are read"),
        (Group::Over(Calls::Sheets), "sheets come and go"),
        (Group::Over(Calls::Rows), "formulas follow rows"),
        (
            Group::Over(Calls::Columns),
            "formulas follow columns and blocks",
        ),
        (Group::Over(Calls::Steps), "steps go back and forward"),
        (Group::Over(Calls::Line), "a long line is settled"),
        (Group::Over(Calls::Idle), "idle time is spent"),
        (Group::Over(Calls::Replaced), "replaced formulas come back"),
        (Group::Over(Calls::Names), "names come and go"),
        (Group::Over(Calls::Clipboard), "blocks are pasted"),
        (Group::Over(Calls::Cleared), "a clipboard is cleared"),
        (Group::Over(Calls::Links), "links are listed in order"),
        (Group::Over(Calls::Values), "values follow names"),
        (Group::Over(Calls::Formulas), "formulas are read alone"),
        (Group::Over(Calls::Contents), "contents are given"),
        (Group::Apostrophes, "apostrophes count"),
        (Group::Written, "cells are written together"),
        (Group::Over(Calls::Asked), "causes are asked beforehand"),
        (Group::Over(Calls::Forgotten), "steps are forgotten"),
    ];

    // Whether its calls answer as they should.
    fn holds(self, alloc: Global) -> Result<bool, Stop> {
        match self {
            Group::Given => begins_with_given_sheets(alloc),
            Group::Limit => steps_are_kept_up_to_the_limit(alloc),
            Group::Counted => formulas_are_worked_out_once(alloc),
            Group::Areas => areas_are_read(alloc),
            Group::Apostrophes => apostrophes_count(alloc),
            Group::Written => cells_are_written_together(alloc),
            Group::Over(calls) => held(alloc, 20, calls),
        }
    }
}

impl Calls {
    // Whether they answer as they should.
    fn hold(self, engine: &mut Engine<NoCustoms>) -> Result<bool, Stop> {
        match self {
            Calls::Sheets => groups::sheets_come_and_go(engine),
            Calls::Rows => groups::formulas_follow_rows(engine),
            Calls::Columns => groups::formulas_follow_columns(engine),
            Calls::Steps => groups::steps_go_back_and_forward(engine),
            Calls::Line => groups::a_long_line_is_settled(engine),
            Calls::Idle => groups::idle_time_is_spent(engine),
            Calls::Replaced => groups::replaced_formulas_come_back(engine),
            Calls::Names => groups::names_come_and_go(engine),
            Calls::Clipboard => groups::blocks_are_pasted(engine),
            Calls::Cleared => groups::a_clipboard_is_cleared(engine),
            Calls::Links => groups::links_are_listed_in_order(engine),
            Calls::Values => groups::values_follow_names(engine),
            Calls::Formulas => formulas_are_read_alone(engine),
            Calls::Contents => contents_are_given(engine),
            Calls::Asked => causes_are_asked(engine),
            Calls::Forgotten => steps_are_forgotten(engine),
            Calls::Kept(steps) => Ok(kept(engine)? == steps),
        }
    }
}

fn main(rt: HostRuntime) -> ExitCode {
    match run(&rt) {
        Ok(true) => ExitCode::SUCCESS,
        Ok(false) | Err(_) => ExitCode::FAILURE,
    }
}

// Whether each group's calls answered as they should.
fn run(rt: &HostRuntime) -> io::Result<bool> {
    let mut all = true;
    for (group, shows) in Group::ALL {
        let end = group.holds(rt.alloc());
        println!(rt; "{shows}: {}", said(&end))?;
        all = all && matches!(end, Ok(true));
    }
    Ok(all)
}

// How a group's calls ended.
fn said(end: &Result<bool, Stop>) -> &'static str {
    match end {
        Ok(true) => "as they should",
        Ok(false) => "otherwise",
        Err(stop) => why(stop),
    }
}

// Why a group's calls ended early.
fn why(stop: &Stop) -> &'static str {
    match stop {
        Stop::Refused(_) => "refused",
        Stop::NoMemory => "no memory",
    }
}

// Whether calls answer as they should, over an engine of which so many steps can be undone.
fn held(alloc: Global, limit: u16, calls: Calls) -> Result<bool, Stop>
    requires { limit ≤ MAX_UNDO }
{
    let mut engine = built(alloc, limit, NoCustoms)?;
    calls.hold(&mut engine)
}

// No more steps are kept than can be undone.
fn steps_are_kept_up_to_the_limit(alloc: Global) -> Result<bool, Stop> {
    Ok(
        held(alloc, 0, Calls::Kept(None))?
            && held(alloc, 1, Calls::Kept(Some(1)))?
            && held(alloc, 1_000, Calls::Kept(Some(3)))?,
    )
}

// An engine begins with the texts of given sheets, read when all sheets are there.
fn begins_with_given_sheets(alloc: Global) -> Result<bool, Stop> {
    let mut cells = BookCells::new(alloc)?;
    cells.push(BookCell {
        row: 0,
        col: 0,
        text: Text::from_str(alloc, "=B2+1")?,
    })?;
    let books = [BookSheet {
        name: Text::from_str(alloc, "Plan")?,
        cells,
    }];
    let mut engine = begun(alloc, &books, 20, NoCustoms)?;
    Ok(reads(&mut engine, 0, 0, "=B2+1") && engine.first_sheet() == Some(0))
}
