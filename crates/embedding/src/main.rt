//! An application that embeds the engine: it works an invoice out and prints what it comes to.
#![tactic(auto)]

ghost use Rattle.std.specs.Prelude.{◌≡◌, ◌<◌};

use book_engine::{Customs, Engine, Place, Registry, Steps, Stop, Text};
use std::alloc::Global;
use std::io::{self, Write};
use std::marker::Brand;
use std::process::ExitCode;
use std::sync::ledger::{Blank, Ledger};

// Two lines of a quantity and a price, and what each and both come to: row, column and text.
const CELLS: [(u32, u32, &str); 7] = [
    (0, 0, "2"),
    (0, 1, "10.5"),
    (0, 2, "=A1*B1"),
    (1, 0, "3"),
    (1, 1, "120"),
    (1, 2, "=A2*B2"),
    (2, 2, "=C1+C2"),
];

// How many steps can be undone.
const UNDO_LIMIT: u16 = 20;

// The day that formulas see as today: 2024-01-01.
const TODAY: i32 = 45_292;

fn main(rt: HostRuntime) -> ExitCode {
    let Ok(registry) = Registry::new(rt.alloc()) else {
        return ExitCode::FAILURE;
    };
    let Ok(total) = work_out::<Registry, Brand>(rt.alloc(), registry, Blank::new(1)) else {
        return ExitCode::FAILURE;
    };
    match print(&rt, total.as_str()) {
        Ok(()) => ExitCode::SUCCESS,
        Err(_) => ExitCode::FAILURE,
    }
}

// The invoice's total, worked out in a workbook of its own, whose formulas can call these functions.
fn work_out<C: Customs, L: Ledger>(alloc: Global, registry: C, blank: Blank) -> Result<Text, Stop>
    requires name { blank.name ≡ L.name }
    requires parts { blank.parts ≡ L.parts }
    requires some { 0 < blank.parts }
{
    let mut engine = Engine::build(alloc, &[], UNDO_LIMIT, registry, TODAY)?;
    total(alloc, &mut engine, &mut Steps::<L>::new(blank))
}

// The invoice's total, as its formula says after a row for titles came above the lines.
fn total<C: Customs, L: Ledger>(
    alloc: Global,
    engine: &mut Engine<C>,
    steps: &mut Steps<L>,
) -> Result<Text, Stop> {
    let sheet = engine.add_sheet("Invoice")?;
    for (row, col, text) in CELLS {
        engine.set(Place { sheet, row, col }, text)?;
    }
    engine.insert_rows(sheet, 0, 1)?;
    let total = Place {
        sheet,
        row: 3,
        col: 2,
    };
    let value = engine.value(total, steps)?;
    let shown = value.shown(alloc)?;
    Ok(shown)
}

// Prints a line.
fn print(rt: &HostRuntime, text: &str) -> io::Result<()> {
    let mut out = io::writer(rt);
    out.write_all(text.as_bytes())?;
    out.write_all(b"\n")
}
