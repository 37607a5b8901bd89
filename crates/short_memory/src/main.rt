//! Answers a script of commands as `sheetrun` does without books, but goes on where a command wanted memory: that one
//! is answered by the line `no memory`, and the next command by the workbook as it was before. So a run in which one
//! allocation is refused shows what the refused one left: all other answers are those of the script without that command.
//! `bench/refused_calls.py` refuses each allocation of some scripts in turn.
//!
//! The program reads the script from its input. Its status is 0 where all records were read, 3 where one is no command,
//! and 7 where there was no memory to begin or to read the records.
#![tactic(auto)]

ghost use Rattle.std.specs.Prelude.{◌≡◌, ◌<◌};

use book_files::{Records, StdSource, read_all};
use calc_eval::Customs;
use command_answers::Session;
use csv::ByteRecord;
use custom_fn::Registry;
use run_inputs::empty_book;
use script_lang::{ScriptError, Version, command_in, version_after};
use std::alloc::{AllocError, Global};
use std::io::{self, Write};
use std::marker::Brand;
use std::process::ExitCode;
use std::sync::ledger::{Blank, Ledger};
use steps::Steps;

// How many steps can be undone.
const UNDO_LIMIT: u16 = 20;

// The day that formulas see as today: 2024-01-01.
const TODAY: i32 = 45_292;

// The answer to a command that wanted memory.
const NO_MEMORY: &[u8] = b"no memory\n";

// The statuses of a script with a record that is no command, and of a run without memory for its beginning.
const NO_COMMAND: u8 = 3;

const NOT_BEGUN: u8 = 7;

fn main(rt: HostRuntime) -> ExitCode {
    let Ok(registry) = Registry::new(rt.alloc()) else {
        return ExitCode::from(NOT_BEGUN);
    };
    match answer_input::<Registry, Brand>(&rt, registry, Blank::new(1)) {
        Ok(status) => ExitCode::from(status),
        Err(_) => ExitCode::from(NOT_BEGUN),
    }
}

// Answers the script that the input holds.
fn answer_input<C: Customs, L: Ledger>(
    rt: &HostRuntime,
    registry: C,
    blank: Blank,
) -> io::Result<u8>
    requires name { blank.name ≡ L.name }
    requires parts { blank.parts ≡ L.parts }
    requires some { 0 < blank.parts }
{
    let alloc = rt.alloc();
    let Ok(script) = read_all(alloc, &mut StdSource::new(rt)) else {
        return Ok(NOT_BEGUN);
    };
    let sheets = empty_book(alloc)?;
    let mut session = Session::new(alloc, &sheets, UNDO_LIMIT, registry, TODAY)?;
    answer_records(rt, &mut session, &script, &mut Steps::<L>::new(blank))
}

// Answers the records of a script.
fn answer_records<C: Customs, L: Ledger>(
    rt: &HostRuntime,
    session: &mut Session<C>,
    script: &[u8],
    steps: &mut Steps<L>,
) -> io::Result<u8> {
    let mut out = io::writer(rt);
    let mut records = Records::open(rt.alloc(), script);
    let mut version = Version::Two;
    let mut number: u64 = 0;
    'records: while records.advance()? {
        number = number.saturating_add(1);
        match answer(
            rt.alloc(),
            session,
            &mut version,
            number,
            records.fields(),
            steps,
        ) {
            Ok(Some(line)) => out.write_all(&line)?,
            Ok(None) => return Ok(NO_COMMAND),
            Err(AllocError) => out.write_all(NO_MEMORY)?,
        }
    }
    Ok(0)
}

// The line that answers the record of this number of a script of this version, if it is a command.
fn answer<C: Customs, L: Ledger>(
    alloc: Global,
    session: &mut Session<C>,
    version: &mut Version,
    number: u64,
    fields: &ByteRecord,
    steps: &mut Steps<L>,
) -> Result<Option<Vec<u8>>, AllocError> {
    match command_in(alloc, *version, fields, number) {
        Ok(command) => {
            *version = version_after(*version, &command);
            Ok(Some(session.execute(&command, steps)?.line))
        }
        Err(ScriptError::NoMemory) => Err(AllocError),
        Err(_) => Ok(None),
    }
}
