// What the commands of a script ask of the engine, and the lines that answer them.
ghost use Rattle.std.specs.Prelude.{◌≡◌, ◌≤◌, All, IfOk, OnErr, codes, false, true};
ghost use Rattle.book_model.specs.Given.{CanBegin, given_sheets, session_given};
ghost use Rattle.book_model.specs.declared.limits.TheConstants.{MAX_UNDO};
ghost use Rattle.book_model.specs.Sound.{IsLinkInside};
ghost use Rattle.book_model.specs.Workbook.{State};
ghost use Rattle.cell_value.specs.Scalar.{shown_text};
ghost use Rattle.book_engine.specs.Engine.{StandsFor};
ghost use Rattle.book_engine.specs.Turns.{NoAnswer};
ghost use Rattle.script_lang.specs.Lines.{line_of};
ghost use Rattle.script_lang.specs.declared.commands.Command.TheVariants as command;
ghost use Rattle.command_answers.specs.Asked.{block_of, place_of, scope_named, sheet_named, sheet_of};
ghost use Rattle.command_answers.specs.Replies.{links_text};
ghost use Rattle.command_answers.specs.Sessions.{Executes, Keeps};
ghost use Rattle.command_answers.specs.internal.Answers.{DoesFor, IsLineOfStop};
ghost use Rattle.command_answers.specs.internal.Changes.{IsChange, IsOfSteps, IsOnCells, IsOnLines, IsOnNames};

use crate::line::{number_line, number_room, stop_line};
use crate::links::links_text;
use book_engine::{Engine, Stop};
use book_model::BookSheet;
use calc_eval::Customs;
use cell_addr::{Block, NO_SHEET, Place, Spot, Text};
use cell_value::Scalar;
use formula_tree::Link;
use script_lang::{Command, line};
use std::alloc::{AllocError, Global};
use std::sync::ledger::Ledger;
use steps::Steps;

/// The line that answers a command, and whether the command is refused.
#[derive(Drop)]
pub struct Answer {
    pub line: Vec<u8>,
    pub refused: bool,
}

/// An engine, and the lines that it answers commands by.
#[derive(Drop)]
pub struct Session<C: Customs> {
    alloc: Global,
    /// The engine, which calls can be asked of between two commands.
    pub engine: Engine<C>,
}

impl<C: Customs> Session<C> {
    /// The session of a workbook with these sheets, in which at most `limit` steps can be undone, whose formulas can call
    /// these custom functions; the day is the serial number of today. It stands on the heap, since an engine is large.
    pub fn new(
        alloc: Global,
        sheets: &[BookSheet],
        limit: u16,
        registry: C,
        day: i32,
    ) -> Result<Box<Session<C>>, AllocError>
        requires can { CanBegin (given_sheets sheets.now) }
        requires limit { limit ≤ MAX_UNDO }
        ensures { IfOk result (λ session. StandsFor C.customs session.value.engine (session_given limit (C.customs registry) day (given_sheets sheets.now))) }
    {
        let engine = Engine::build(alloc, sheets, limit, registry, day)?;
        Ok(Box::new(alloc, Session { alloc, engine })?)
    }

    /// The session that answers by this engine. Takes no memory.
    pub fn of(alloc: Global, engine: Engine<C>) -> Session<C>
        ensures { result.engine ≡ engine }
    {
        Session { alloc, engine }
    }

    /// The engine that it answers by. Takes no memory.
    pub fn into_engine(self) -> Engine<C>
        ensures { result ≡ self.engine }
    {
        self.engine
    }

    /// Executes a command, and answers its line. For want of memory the workbook stays as it was.
    pub fn execute<L: Ledger>(
        &mut self,
        command: &Command,
        steps: &mut Steps<L>,
    ) -> Result<Answer, AllocError>
        ensures ok { IfOk result (λ answer. Executes C.customs command.now self.old.engine self.new.engine answer.line.items answer.refused) }
        ensures err { OnErr result (Keeps C.customs self.old.engine self.new.engine) }
    {
        match command {
            Command::AddSheet(name) => self.add_sheet(name),
            Command::Value(at) => self.value(at, steps),
            Command::Formula(at) => self.formula(at),
            Command::Content(at) => self.content(at),
            Command::Precedents(at) => self.precedents(at),
            Command::Dependents(at) => self.dependents(at),
            Command::NameValue(name, sheet) => self.name_value(name, sheet, steps),
            Command::Try(sheet, text) => self.try_formula(sheet, text, steps),
            Command::Version(_) => Ok(accepted(line(self.alloc, "ok")?)),
            _ => self.change(command),
        }
    }

    // Executes a change that answers nothing. The line is made first, so that nothing fails after the change.
    fn change(&mut self, command: &Command) -> Result<Answer, AllocError>
        requires { IsChange command.now }
        ensures ok { IfOk result (λ answer. Executes C.customs command.now self.old.engine self.new.engine answer.line.items answer.refused) }
        ensures err { OnErr result (Keeps C.customs self.old.engine self.new.engine) }
    {
        let ok = line(self.alloc, "ok")?;
        match ask(&mut self.engine, command) {
            Ok(()) => Ok(accepted(ok)),
            Err(stop) => stopped(self.alloc, stop),
        }
    }

    // Adds a sheet, and answers its number. Room for the line is made first, so that nothing fails after the change.
    fn add_sheet(&mut self, name: &Text) -> Result<Answer, AllocError>
        ensures ok { IfOk result (λ answer. Executes C.customs (command.AddSheet name.now) self.old.engine self.new.engine answer.line.items answer.refused) }
        ensures err { OnErr result (Keeps C.customs self.old.engine self.new.engine) }
    {
        let room = number_room(self.alloc)?;
        match self.engine.add_sheet(name.as_str()) {
            Ok(number) => Ok(accepted(number_line(room, number))),
            Err(stop) => stopped(self.alloc, stop),
        }
    }

    // Answers what a cell shows.
    fn value<L: Ledger>(&mut self, at: &Spot, steps: &mut Steps<L>) -> Result<Answer, AllocError>
        ensures ok { IfOk result (λ answer. Executes C.customs (command.Value at.now) self.old.engine self.new.engine answer.line.items answer.refused) }
        ensures err { OnErr result (Keeps C.customs self.old.engine self.new.engine) }
    {
        let place = place(&self.engine, at);
        match self.engine.value(place, steps) {
            Ok(scalar) => shows_scalar(self.alloc, &scalar),
            Err(stop) => stopped(self.alloc, stop),
        }
    }

    // Answers what a name shows that the word finds on a sheet.
    fn name_value<L: Ledger>(
        &mut self,
        name: &Text,
        sheet: &Text,
        steps: &mut Steps<L>,
    ) -> Result<Answer, AllocError>
        ensures ok { IfOk result (λ answer. Executes C.customs (command.NameValue name.now sheet.now) self.old.engine self.new.engine answer.line.items answer.refused) }
        ensures err { OnErr result (Keeps C.customs self.old.engine self.new.engine) }
    {
        let sheet = id(&self.engine, sheet);
        match self.engine.name_value(name.as_str(), sheet, steps) {
            Ok(scalar) => shows_scalar(self.alloc, &scalar),
            Err(stop) => stopped(self.alloc, stop),
        }
    }

    // Answers what a formula would show in the first cell of a sheet.
    fn try_formula<L: Ledger>(
        &mut self,
        sheet: &Text,
        text: &Text,
        steps: &mut Steps<L>,
    ) -> Result<Answer, AllocError>
        ensures ok { IfOk result (λ answer. Executes C.customs (command.Try sheet.now text.now) self.old.engine self.new.engine answer.line.items answer.refused) }
        ensures err { OnErr result (Keeps C.customs self.old.engine self.new.engine) }
    {
        let sheet = id(&self.engine, sheet);
        match self.engine.try_formula(sheet, text.as_str(), steps) {
            Ok(scalar) => shows_scalar(self.alloc, &scalar),
            Err(stop) => stopped(self.alloc, stop),
        }
    }

    // Answers the text of a cell's formula, or `none`.
    fn formula(&mut self, at: &Spot) -> Result<Answer, AllocError>
        ensures ok { IfOk result (λ answer. Executes C.customs (command.Formula at.now) self.old.engine self.new.engine answer.line.items answer.refused) }
        ensures err { OnErr result (Keeps C.customs self.old.engine self.new.engine) }
    {
        let place = place(&self.engine, at);
        match self.engine.formula(place) {
            Ok(Some(text)) => shows(self.alloc, text.as_str()),
            Ok(None) => shows(self.alloc, "none"),
            Err(stop) => stopped(self.alloc, stop),
        }
    }

    // Answers the text that gives a cell its content.
    fn content(&mut self, at: &Spot) -> Result<Answer, AllocError>
        ensures ok { IfOk result (λ answer. Executes C.customs (command.Content at.now) self.old.engine self.new.engine answer.line.items answer.refused) }
        ensures err { OnErr result (Keeps C.customs self.old.engine self.new.engine) }
    {
        let place = place(&self.engine, at);
        match self.engine.content(place) {
            Ok(text) => shows(self.alloc, text.as_str()),
            Err(stop) => stopped(self.alloc, stop),
        }
    }

    // Answers what a cell's formula needs.
    fn precedents(&mut self, at: &Spot) -> Result<Answer, AllocError>
        ensures ok { IfOk result (λ answer. Executes C.customs (command.Precedents at.now) self.old.engine self.new.engine answer.line.items answer.refused) }
        ensures err { OnErr result (Keeps C.customs self.old.engine self.new.engine) }
    {
        let place = place(&self.engine, at);
        match self.engine.precedents(place) {
            Ok(links) => self.shows_links(&links),
            Err(stop) => stopped(self.alloc, stop),
        }
    }

    // Answers which formulas need a cell.
    fn dependents(&mut self, at: &Spot) -> Result<Answer, AllocError>
        ensures ok { IfOk result (λ answer. Executes C.customs (command.Dependents at.now) self.old.engine self.new.engine answer.line.items answer.refused) }
        ensures err { OnErr result (Keeps C.customs self.old.engine self.new.engine) }
    {
        let place = place(&self.engine, at);
        match self.engine.dependents(place) {
            Ok(links) => self.shows_links(&links),
            Err(stop) => stopped(self.alloc, stop),
        }
    }

    // The answer of links.
    fn shows_links(&self, links: &[Link]) -> Result<Answer, AllocError>
        requires { All IsLinkInside links.now }
        ensures line { (d : State) → StandsFor C.customs self.now.engine d → IfOk result (λ answer. answer.line.items ≡ line_of (links_text d.book links.now)) }
        ensures refused { IfOk result (λ answer. answer.refused ≡ false) }
    {
        let text = links_text(self.alloc, &self.engine, links)?;
        shows(self.alloc, text.as_str())
    }
}

// The answer to a command that is accepted.
fn accepted(line: Vec<u8>) -> Answer
    ensures line { result.line ≡ line }
    ensures refused { result.refused ≡ false }
{
    Answer {
        line,
        refused: false,
    }
}

// The answer of a text.
fn shows(alloc: Global, text: &str) -> Result<Answer, AllocError>
    ensures line { IfOk result (λ answer. answer.line.items ≡ line_of text.now) }
    ensures refused { IfOk result (λ answer. answer.refused ≡ false) }
{
    Ok(accepted(line(alloc, text)?))
}

// The answer of a value.
fn shows_scalar(alloc: Global, scalar: &Scalar) -> Result<Answer, AllocError>
    ensures line { IfOk result (λ answer. answer.line.items ≡ line_of (shown_text scalar.now)) }
    ensures refused { IfOk result (λ answer. answer.refused ≡ false) }
{
    let shown = scalar.shown(alloc)?;
    shows(alloc, shown.as_str())
}

// The answer to a command whose call stopped: that it is refused, and why. To want of memory there is none.
fn stopped(alloc: Global, stop: Stop) -> Result<Answer, AllocError>
    ensures line { IfOk result (λ answer. IsLineOfStop stop answer.line.items) }
    ensures refused { IfOk result (λ answer. answer.refused ≡ true) }
{
    Ok(Answer {
        line: stop_line(alloc, stop)?,
        refused: true,
    })
}

// Asks the engine for a change that answers nothing.
fn ask<C: Customs>(engine: &mut Engine<C>, command: &Command) -> Result<(), Stop>
    requires { IsChange command.now }
    ensures { DoesFor C.customs command.now NoAnswer engine.old engine.new result }
{
    match command {
        Command::Set(..)
        | Command::Clear(_)
        | Command::Copy(_)
        | Command::Cut(_)
        | Command::Paste(_)
        | Command::MoveBlock(..) => ask_on_cells(engine, command),
        Command::InsertRows(..)
        | Command::DeleteRows(..)
        | Command::InsertCols(..)
        | Command::DeleteCols(..)
        | Command::MoveRows(..)
        | Command::MoveCols(..) => ask_on_lines(engine, command),
        Command::DropSheet(_)
        | Command::RenameSheet(..)
        | Command::ClearSheet(_)
        | Command::AddName(..)
        | Command::ChangeName(..)
        | Command::RemoveName(..) => ask_on_names(engine, command),
        _ => ask_of_steps(engine, command),
    }
}

// Asks for a change of cells, or of what waits to be pasted.
fn ask_on_cells<C: Customs>(engine: &mut Engine<C>, command: &Command) -> Result<(), Stop>
    requires { IsOnCells command.now }
    ensures { DoesFor C.customs command.now NoAnswer engine.old engine.new result }
{
    match command {
        Command::Set(at, text) => engine.set(place(engine, at), text.as_str()),
        Command::Clear(area) => engine.clear(block(engine, area)),
        Command::Copy(area) => engine.copy(block(engine, area)),
        Command::Cut(area) => engine.cut(block(engine, area)),
        Command::Paste(at) => engine.paste(place(engine, at)),
        Command::MoveBlock(area, at) => engine.move_block(block(engine, area), place(engine, at)),
        _ => unreachable!(),
    }
}

// Asks for a change of the rows or the columns of a sheet.
fn ask_on_lines<C: Customs>(engine: &mut Engine<C>, command: &Command) -> Result<(), Stop>
    requires { IsOnLines command.now }
    ensures { DoesFor C.customs command.now NoAnswer engine.old engine.new result }
{
    match command {
        Command::InsertRows(sheet, at, count) => engine.insert_rows(id(engine, sheet), *at, *count),
        Command::DeleteRows(sheet, at, count) => engine.delete_rows(id(engine, sheet), *at, *count),
        Command::InsertCols(sheet, at, count) => engine.insert_cols(id(engine, sheet), *at, *count),
        Command::DeleteCols(sheet, at, count) => engine.delete_cols(id(engine, sheet), *at, *count),
        Command::MoveRows(sheet, from, count, before) => {
            engine.move_rows(id(engine, sheet), *from, *count, *before)
        }
        Command::MoveCols(sheet, from, count, before) => {
            engine.move_cols(id(engine, sheet), *from, *count, *before)
        }
        _ => unreachable!(),
    }
}

// Asks for a change of a sheet as a whole, or of a name.
fn ask_on_names<C: Customs>(engine: &mut Engine<C>, command: &Command) -> Result<(), Stop>
    requires { IsOnNames command.now }
    ensures { DoesFor C.customs command.now NoAnswer engine.old engine.new result }
{
    match command {
        Command::DropSheet(sheet) => engine.drop_sheet(id(engine, sheet)),
        Command::RenameSheet(sheet, name) => {
            engine.rename_sheet(id(engine, sheet), name.as_str())
        }
        Command::ClearSheet(sheet) => engine.clear_sheet(id(engine, sheet)),
        Command::AddName(name, scope, text) => {
            engine.add_name(name.as_str(), scope_of(engine, scope), text.as_str())
        }
        Command::ChangeName(name, scope, text) => {
            engine.change_name(name.as_str(), scope_of(engine, scope), text.as_str())
        }
        Command::RemoveName(name, scope) => {
            engine.remove_name(name.as_str(), scope_of(engine, scope))
        }
        _ => unreachable!(),
    }
}

// Asks for a batch to be opened or closed, for the computation of values to stop or go on, or for a step to be undone or
// done again.
fn ask_of_steps<C: Customs>(engine: &mut Engine<C>, command: &Command) -> Result<(), Stop>
    requires { IsOfSteps command.now }
    ensures { DoesFor C.customs command.now NoAnswer engine.old engine.new result }
{
    match command {
        Command::Begin => engine.begin(),
        Command::Commit => engine.commit(),
        Command::Suspend => {
            engine.suspend();
            Ok(())
        }
        Command::Resume => {
            engine.resume();
            Ok(())
        }
        Command::Undo => engine.undo(),
        Command::Redo => engine.redo(),
        _ => unreachable!(),
    }
}

// The number of the sheet of this name; where there is none, the number that no sheet has.
fn id<C: Customs>(engine: &Engine<C>, name: &Text) -> u32
    ensures { (d : State) → StandsFor C.customs engine.now d → result ≡ sheet_named d.book name.now }
{
    engine.sheet_id(name.as_str()).unwrap_or(NO_SHEET)
}

// The scope of this name: the number of a sheet, or none where the name is empty.
fn scope_of<C: Customs>(engine: &Engine<C>, name: &Text) -> Option<u32>
    ensures { (d : State) → StandsFor C.customs engine.now d → result ≡ scope_named d.book name.now }
{
    if name.as_str().is_empty() {
        None
    } else {
        Some(id(engine, name))
    }
}

// The number of the sheet that an address names, or of the first one where it names none.
fn sheet<C: Customs>(engine: &Engine<C>, spot: &Spot) -> u32
    ensures { (d : State) → StandsFor C.customs engine.now d → result ≡ sheet_of d.book spot.now.sheet }
{
    match &spot.sheet {
        Some(name) => id(engine, name),
        None => engine.first_sheet().unwrap_or(NO_SHEET),
    }
}

// The place that an address names.
fn place<C: Customs>(engine: &Engine<C>, spot: &Spot) -> Place
    ensures { (d : State) → StandsFor C.customs engine.now d → result ≡ place_of d.book spot.now }
{
    Place {
        sheet: sheet(engine, spot),
        row: spot.top,
        col: spot.left,
    }
}

// The block that an address names.
fn block<C: Customs>(engine: &Engine<C>, spot: &Spot) -> Block
    ensures { (d : State) → StandsFor C.customs engine.now d → result ≡ block_of d.book spot.now }
{
    Block {
        sheet: sheet(engine, spot),
        top: spot.top,
        left: spot.left,
        bottom: spot.bottom,
        right: spot.right,
    }
}
