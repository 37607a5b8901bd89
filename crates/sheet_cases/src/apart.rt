// Scripts that are answered by an engine that is taken apart after each command, and joined again.
use crate::case::Case;
use crate::given::push_filling;
use book_engine::{Engine, EngineParts};
use book_files::Records;
use calc_eval::Customs;
use command_answers::Session;
use csv::ByteRecord;
use run_inputs::empty_book;
use script_lang::{Command, Version, command_in, version_after};
use std::alloc::{AllocError, Global};
use std::sync::ledger::Ledger;
use steps::Steps;

// How many steps can be undone, where no word says it.
const UNDO_LIMIT: u16 = 20;

/// Whether a case is a script alone, all of whose records are commands: it names no word, no file and no failing call, and ends with
/// status 0.
pub(crate) fn is_script(case: &Case) -> bool {
    case.words.is_empty()
        && case.files.is_empty()
        && case.failing.loads.is_empty()
        && case.failing.reads.is_empty()
        && case.failing.writes.is_empty()
        && case.status == 0
}

/// The lines that answer the script of such a case; fewer, where a record is no command.
pub(crate) fn answered<C: Customs, L: Ledger>(
    alloc: Global,
    case: &Case,
    registry: C,
    steps: &mut Steps<L>,
) -> Result<Vec<u8>, AllocError> {
    let mut script = Vec::new(alloc);
    push_filling(alloc, &mut script, case.filled)?;
    let _ = case.script.push_to(&mut script)?;
    let sheets = empty_book(alloc)?;
    let session = Session::new(alloc, &sheets, UNDO_LIMIT, registry, case.day)?;
    let mut run = Run {
        session: Some(session),
        version: Version::Two,
        number: 0,
    };
    let mut lines = Vec::new(alloc);
    run.answer_all(alloc, &script, &mut lines, steps)?;
    Ok(lines)
}

// A run whose engine is taken apart after each command.
#[derive(Drop)]
struct Run<C: Customs> {
    // None only after want of memory, which ends the run.
    session: Option<Box<Session<C>>>,
    version: Version,
    // How many records were read.
    number: u64,
}

impl<C: Customs> Run<C> {
    // Adds the lines that answer the records of a script, up to one that is no command.
    fn answer_all<L: Ledger>(
        &mut self,
        alloc: Global,
        script: &[u8],
        lines: &mut Vec<u8>,
        steps: &mut Steps<L>,
    ) -> Result<(), AllocError> {
        let mut records = Records::open(alloc, script);
        'records: while records.advance()? {
            if !self.answer(alloc, records.fields(), lines, steps)? {
                return Ok(());
            }
        }
        Ok(())
    }

    // Adds the line that answers a record, if that is a command: whether it is one.
    fn answer<L: Ledger>(
        &mut self,
        alloc: Global,
        fields: &ByteRecord,
        lines: &mut Vec<u8>,
        steps: &mut Steps<L>,
    ) -> Result<bool, AllocError> {
        self.number = self.number.saturating_add(1);
        let Ok(command) = command_in(alloc, self.version, fields, self.number) else {
            return Ok(false);
        };
        self.version = version_after(self.version, &command);
        self.execute(alloc, &command, lines, steps)?;
        Ok(true)
    }

    // Adds the line that answers a command, and goes on with an engine of the same parts.
    fn execute<L: Ledger>(
        &mut self,
        alloc: Global,
        command: &Command,
        lines: &mut Vec<u8>,
        steps: &mut Steps<L>,
    ) -> Result<(), AllocError> {
        if let Some(session) = self.session.take() {
            let session = answer_command(alloc, session, command, lines, steps)?;
            self.session = Some(session);
        }
        Ok(())
    }
}

// Adds the line that answers a command, and hands out the session after it, over the same parts.
fn answer_command<C: Customs, L: Ledger>(
    alloc: Global,
    session: Box<Session<C>>,
    command: &Command,
    lines: &mut Vec<u8>,
    steps: &mut Steps<L>,
) -> Result<Box<Session<C>>, AllocError> {
    let mut session = session;
    push_answer(&mut session, command, lines, steps)?;
    rejoined(alloc, session)
}

// Adds the line that answers a command.
fn push_answer<C: Customs, L: Ledger>(
    session: &mut Session<C>,
    command: &Command,
    lines: &mut Vec<u8>,
    steps: &mut Steps<L>,
) -> Result<(), AllocError> {
    let answer = session.execute(command, steps)?;
    lines.extend_from_slice(&answer.line)?;
    Ok(())
}

// The session over the parts of its engine.
fn rejoined<C: Customs>(
    alloc: Global,
    session: Box<Session<C>>,
) -> Result<Box<Session<C>>, AllocError> {
    let session = Box::into_inner(session);
    let joined = Session::of(alloc, joined_again(session.into_engine()));
    Ok(Box::new(alloc, joined)?)
}

// The engine of the same parts, each taken by its name, and none left out.
fn joined_again<C: Customs>(engine: Engine<C>) -> Engine<C> {
    let EngineParts {
        alloc,
        pool,
        lazy,
        grid,
        names,
        values,
        clip,
        undo,
        batch,
        next_id,
        registry,
        day,
        suspended,
        next_sheet,
        sweep_at,
    } = engine.parts();
    Engine::joined(EngineParts {
        alloc,
        pool,
        lazy,
        grid,
        names,
        values,
        clip,
        undo,
        batch,
        next_id,
        registry,
        day,
        suspended,
        next_sheet,
        sweep_at,
    })
}
