// What a run prints of its commands: a line for each, or a summary of all.
ghost use Rattle.std.specs.Prelude.{◌≡◌, ◌⊎◌, ◌+◌, ◌&&◌, ◌≤◌, IfOk, IfSome, OnErr, IsErrOf, length};
ghost use Rattle.book_files.specs.Outside.{Rose};
ghost use Rattle.book_files.specs.declared.input.TheConstants.{MAX_INPUT};
ghost use Rattle.book_model.specs.Given.{CanBegin, given_sheets};
ghost use Rattle.book_model.specs.declared.limits.TheConstants.{MAX_UNDO};
ghost use Rattle.command_words.specs.Words.{seen};
ghost use Rattle.book_engine.specs.Engine.{StandsFor};
ghost use Rattle.book_model.specs.Workbook.{State};
ghost use Rattle.csv.specs.Reading.{default_config, records, strip_bom};
ghost use Rattle.csv.specs.Records.{fields_of};
ghost use Rattle.generator.specs.declared.TheConstants.{MAX_SIZE};
ghost use Rattle.run_inputs.specs.Outcome.{ended};
ghost use Rattle.script_lang.specs.Command.{command_in};
ghost use Rattle.script_lang.specs.Lines.{line_of};
ghost use Rattle.script_lang.specs.declared.commands.Version.TheVariants.{Two};
ghost use Rattle.command_answers.specs.Replies.{record_text};
ghost use Rattle.sheet_cli.specs.Answering.{answers_from, outcome_from, summary_outcome};
ghost use Rattle.sheet_cli.specs.Run.{generated_outcome, script_outcome};
ghost use Rattle.sheet_cli.specs.internal.Answers.{AnswersCommand, AnswersPart, AnswersRecord, PartOfCommand, version_behind};
ghost use Rattle.sheet_cli.specs.internal.Ends.{EndsScript, Printed, PrintedLine};
ghost use Rattle.sheet_cli.specs.internal.Tallied.{Adds, summary_of};

use crate::ending::{ANSWERED, EarlyEnd, NO_COMMAND, REFUSED};
use book_files::{Records, Sink};
use book_model::BookSheet;
use calc_eval::Customs;
use command_answers::{Answer, Session, record_text};
use command_words::Words;
use csv::ByteRecord;
use generator::generate;
use run_inputs::empty_book;
use script_lang::{Command, ScriptError, Version, command_in, line, version_after};
use std::alloc::{AllocError, Global};
use std::sync::ledger::Ledger;
use steps::Steps;

/// Answers the records of a script in order, from a session of these sheets on, up to the script's end, to a record that
/// is no command, or, where the words ask for that, to a refusal.
pub(crate) fn run_script<C: Customs, O: Sink, L: Ledger>(
    alloc: Global,
    said: &Words,
    sheets: Vec<BookSheet>,
    script: &[u8],
    out: &mut O,
    day: i32,
    registry: C,
    steps: &mut Steps<L>,
) -> Result<u8, EarlyEnd>
    requires can { CanBegin (given_sheets sheets.items) }
    requires limit { said.now.undo_limit ≤ MAX_UNDO }
    requires short { length script.now ≤ MAX_INPUT }
    ensures printed { Printed (script_outcome (C.customs registry) day (seen said.now) (given_sheets sheets.items) script.now) (O.taken out.old) (O.taken out.new) result }
    ensures write_fault { IsErrOf result EarlyEnd.WriteFault → Rose (O.faults out.old) (O.faults out.new) }
    ensures status { EndsScript result }
{
    let mut session = Session::new(alloc, &sheets, said.undo_limit, registry, day)?;
    drop(sheets);
    run_records(alloc, &mut session, said.strict, script, out, steps)
}

// Answers the records of a script in a session.
fn run_records<C: Customs, O: Sink, L: Ledger>(
    alloc: Global,
    session: &mut Session<C>,
    strict: bool,
    script: &[u8],
    out: &mut O,
    steps: &mut Steps<L>,
) -> Result<u8, EarlyEnd>
    requires { length script.now ≤ MAX_INPUT }
    ensures printed { (d : State) → StandsFor C.customs session.old.engine d → Printed (outcome_from strict Two d 1 (records default_config (strip_bom script.now))) (O.taken out.old) (O.taken out.new) result }
    ensures write_fault { IsErrOf result EarlyEnd.WriteFault → Rose (O.faults out.old) (O.faults out.new) }
    ensures status { EndsScript result }
{
    let mut records = Records::open(alloc, script);
    let mut number: u64 = 0;
    let mut version = Version::Two;
    'records: while records.advance()? {
        number += 1;
        match run_record(
            alloc,
            session,
            strict,
            &mut version,
            number,
            records.fields(),
            out,
            steps,
        ) {
            Ok(None) => {}
            Ok(Some(status)) => return Ok(status),
            Err(stop) => return Err(stop),
        }
    }
    Ok(ANSWERED)
}

// Answers one record of a script of this version, which the record may say. Where it ends the run, the status.
fn run_record<C: Customs, O: Sink, L: Ledger>(
    alloc: Global,
    session: &mut Session<C>,
    strict: bool,
    version: &mut Version,
    number: u64,
    fields: &ByteRecord,
    out: &mut O,
    steps: &mut Steps<L>,
) -> Result<Option<u8>, EarlyEnd>
    ensures answered { IfOk result (λ end. AnswersRecord C.customs strict (command_in version.old number (fields_of fields.now)) number end session.old.engine session.new.engine (O.taken out.old) (O.taken out.new)) }
    ensures part { OnErr result (AnswersPart C.customs (command_in version.old number (fields_of fields.now)) number session.old.engine (O.taken out.old) (O.taken out.new)) }
    ensures version { IfOk result (λ _. version.new ≡ version_behind version.old (command_in version.old number (fields_of fields.now))) }
    ensures no_read_fault { IsErrOf result EarlyEnd.ReadFault → ⊥ }
    ensures write_fault { IsErrOf result EarlyEnd.WriteFault → Rose (O.faults out.old) (O.faults out.new) }
    ensures later { O.faults out.old ≤ O.faults out.new }
    ensures status { IfOk result (λ end. IfSome end (λ status. (status ≡ 1) ⊎ (status ≡ 3))) }
{
    match command_in(alloc, *version, fields, number) {
        Ok(command) => {
            *version = version_after(*version, &command);
            run_command(session, strict, &command, out, steps)
        }
        Err(ScriptError::NoMemory) => Err(EarlyEnd::NoMemory),
        Err(cause) => {
            refuse_record(alloc, number, cause, out)?;
            Ok(Some(NO_COMMAND))
        }
    }
}

// Answers a command. Where it ends the run, the status.
fn run_command<C: Customs, O: Sink, L: Ledger>(
    session: &mut Session<C>,
    strict: bool,
    command: &Command,
    out: &mut O,
    steps: &mut Steps<L>,
) -> Result<Option<u8>, EarlyEnd>
    ensures answered { IfOk result (λ end. AnswersCommand C.customs strict command.now end session.old.engine session.new.engine (O.taken out.old) (O.taken out.new)) }
    ensures part { OnErr result (PartOfCommand C.customs command.now session.old.engine (O.taken out.old) (O.taken out.new)) }
    ensures no_read_fault { IsErrOf result EarlyEnd.ReadFault → ⊥ }
    ensures write_fault { IsErrOf result EarlyEnd.WriteFault → Rose (O.faults out.old) (O.faults out.new) }
    ensures later { O.faults out.old ≤ O.faults out.new }
    ensures status { IfOk result (λ end. IfSome end (λ status. status ≡ 1)) }
{
    let answer = session.execute(command, steps)?;
    write(out, &answer.line)?;
    if is_last(strict, &answer) {
        return Ok(Some(REFUSED));
    }
    Ok(None)
}

// Whether the answer is the last one of a run.
fn is_last(strict: bool, answer: &Answer) -> bool
    ensures { result ≡ (strict && answer.now.refused) }
{
    strict && answer.refused
}

// Says why a record is no command.
fn refuse_record<O: Sink>(
    alloc: Global,
    number: u64,
    cause: ScriptError,
    out: &mut O,
) -> Result<(), EarlyEnd>
    ensures printed { PrintedLine (line_of (record_text number cause)) (O.taken out.old) (O.taken out.new) result }
    ensures write_fault { IsErrOf result EarlyEnd.WriteFault → Rose (O.faults out.old) (O.faults out.new) }
    ensures later { O.faults out.old ≤ O.faults out.new }
{
    let text = record_text(alloc, number, cause)?;
    print(alloc, out, text.as_str())
}

/// Executes a generated list of commands from a session of one empty sheet on, and prints a summary of it, or, where the
/// words ask for that, its first refusal.
pub(crate) fn run_generated<C: Customs, O: Sink, L: Ledger>(
    alloc: Global,
    said: &Words,
    size: u32,
    out: &mut O,
    day: i32,
    registry: C,
    steps: &mut Steps<L>,
) -> Result<u8, EarlyEnd>
    requires least { 1 ≤ size }
    requires most { size ≤ MAX_SIZE }
    requires limit { said.now.undo_limit ≤ MAX_UNDO }
    ensures printed { Printed (generated_outcome (C.customs registry) day (seen said.now) size) (O.taken out.old) (O.taken out.new) result }
    ensures write_fault { IsErrOf result EarlyEnd.WriteFault → Rose (O.faults out.old) (O.faults out.new) }
    ensures status { EndsScript result }
{
    let commands = generate(alloc, size)?;
    let sheets = empty_book(alloc)?;
    let mut session = Session::new(alloc, &sheets, said.undo_limit, registry, day)?;
    run_commands(alloc, &mut session, said.strict, &commands, out, steps)
}

// Executes commands in a session, and prints a summary, or the refusal that ends the run.
fn run_commands<C: Customs, O: Sink, L: Ledger>(
    alloc: Global,
    session: &mut Session<C>,
    strict: bool,
    commands: &[Command],
    out: &mut O,
    steps: &mut Steps<L>,
) -> Result<u8, EarlyEnd>
    ensures printed { (d : State) → StandsFor C.customs session.old.engine d → Printed (summary_outcome strict (answers_from d commands.now)) (O.taken out.old) (O.taken out.new) result }
    ensures write_fault { IsErrOf result EarlyEnd.WriteFault → Rose (O.faults out.old) (O.faults out.new) }
    ensures status { EndsScript result }
{
    let mut tally = Tally::none();
    'commands: for command in commands {
        let answer = session.execute(command, steps)?;
        if is_last(strict, &answer) {
            return print_last(out, &answer.line, REFUSED);
        }
        tally = tally.with(&answer)?;
    }
    let lines = tally.lines(alloc)?;
    print_last(out, &lines, ANSWERED)
}

/// How many commands were answered, how many of them were refused, and how many bytes the answers have.
#[derive(Clone, Copy)]
pub struct Tally {
    commands: u64,
    refused: u64,
    bytes: u64,
}

impl Tally {
    // No answer.
    fn none() -> Tally
        ensures { result ≡ record { commands = 0; refused = 0; bytes = 0 } }
    {
        Tally {
            commands: 0,
            refused: 0,
            bytes: 0,
        }
    }

    // The tally with one more answer. 2^64 bytes or more are want of memory, since none holds them.
    fn with(self, answer: &Answer) -> Result<Tally, AllocError>
        ensures { IfOk result (λ tally. Adds answer.now.line.items answer.now.refused self tally) }
    {
        Ok(Tally {
            commands: sum(self.commands, 1)?,
            refused: sum(self.refused, u64::from(answer.refused))?,
            bytes: sum(self.bytes, answer.line.len() as u64)?,
        })
    }

    // Its three lines.
    fn lines(self, alloc: Global) -> Result<Vec<u8>, AllocError>
        ensures { IfOk result (λ lines. lines.items ≡ summary_of self) }
    {
        let Tally {
            commands,
            refused,
            bytes,
        } = self;
        let mut lines = line(alloc, &format!(in alloc; "commands {commands}")?)?;
        lines.extend_from_slice(&line(alloc, &format!(in alloc; "refused {refused}")?)?)?;
        lines.extend_from_slice(&line(alloc, &format!(in alloc; "bytes {bytes}")?)?)?;
        Ok(lines)
    }
}

// A sum; one of 2^64 or more is want of memory.
fn sum(a: u64, b: u64) -> Result<u64, AllocError>
    ensures { IfOk result (λ sum. sum ≡ a + b) }
{
    match a.checked_add(b) {
        Some(sum) => Ok(sum),
        None => Err(AllocError),
    }
}

/// Writes the line of a text.
pub(crate) fn print<O: Sink>(alloc: Global, out: &mut O, text: &str) -> Result<(), EarlyEnd>
    ensures printed { PrintedLine (line_of text.now) (O.taken out.old) (O.taken out.new) result }
    ensures write_fault { IsErrOf result EarlyEnd.WriteFault → Rose (O.faults out.old) (O.faults out.new) }
    ensures later { O.faults out.old ≤ O.faults out.new }
{
    let bytes = line(alloc, text)?;
    write(out, &bytes)
}

/// Writes the line of a text, with which a run ends with this status.
pub(crate) fn print_end<O: Sink>(
    alloc: Global,
    out: &mut O,
    text: &str,
    status: u8,
) -> Result<u8, EarlyEnd>
    ensures printed { Printed (ended status text.now) (O.taken out.old) (O.taken out.new) result }
    ensures write_fault { IsErrOf result EarlyEnd.WriteFault → Rose (O.faults out.old) (O.faults out.new) }
    ensures status { IfOk result (λ end. end ≡ status) }
{
    match print(alloc, out, text) {
        Ok(()) => Ok(status),
        Err(stop) => Err(stop),
    }
}

// Writes the last bytes of a run that ends with this status.
fn print_last<O: Sink>(out: &mut O, bytes: &[u8], status: u8) -> Result<u8, EarlyEnd>
    ensures printed { Printed (bytes.now, status) (O.taken out.old) (O.taken out.new) result }
    ensures write_fault { IsErrOf result EarlyEnd.WriteFault → Rose (O.faults out.old) (O.faults out.new) }
    ensures status { IfOk result (λ end. end ≡ status) }
{
    match write(out, bytes) {
        Ok(()) => Ok(status),
        Err(stop) => Err(stop),
    }
}

// Writes bytes.
fn write<O: Sink>(out: &mut O, bytes: &[u8]) -> Result<(), EarlyEnd>
    ensures printed { PrintedLine bytes.now (O.taken out.old) (O.taken out.new) result }
    ensures write_fault { IsErrOf result EarlyEnd.WriteFault → Rose (O.faults out.old) (O.faults out.new) }
    ensures later { O.faults out.old ≤ O.faults out.new }
{
    out.write(bytes)?;
    Ok(())
}
