// A session, and the calls that change it.
ghost use Rattle.std.specs.Prelude.{◌≡◌, ◌≤◌, ◌<◌, MatchOption};
ghost use Rattle.shift_core.specs.declared.shift.Shift.TheVariants as shifts;
ghost use Rattle.book_model.specs.Operation as op;
ghost use Rattle.book_model.specs.declared.limits.TheConstants.{MAX_UNDO};
ghost use Rattle.rule_table.specs.Rules.{rules_of};
ghost use Rattle.rule_table.specs.Table.{rules_told};
ghost use Rattle.engine_face.specs.Session.{IsOpened, scope_of};
ghost use Rattle.engine_face.specs.Shown.{EndTold, truth_bit};
ghost use Rattle.engine_face.specs.Status.{status_of_end};

use crate::status::Status;
use book_engine::{Engine, Stop};
use book_model::MAX_UNDO;
use cell_addr::{Block, NO_SHEET, Place};
use rule_table::{RuleTable, Rules, TableError};
use std::alloc::Global;

/// A workbook that a caller in another language holds, of which so many steps can be undone, with custom functions that
/// are rules, on one day.
///
/// The calls are those of [`Engine`], and cost what these do; each ends with a [`Status`].
#[derive(Drop)]
pub struct Session {
    pub(crate) alloc: Global,
    pub(crate) engine: Engine<Rules>,
}

impl Session {
    ghost use Rattle.engine_face.specs.Session.{Asks, AsksAlways, Clears, Forgets, SettledTold, Settles, Stays, Told};
    ghost use Rattle.rule_table.specs.Table.{rules_told};

    /// A workbook without sheets, of which so many steps can be undone, whose formulas can call the custom functions of the
    /// table and see the day of this serial number as today.
    ///
    /// # Errors
    /// `BadLimit` for more than 1,000 steps, `BadTable` where the table isn't one of custom functions ([`RuleTable`]),
    /// `NoMemory`.
    pub fn build(
        alloc: Global,
        limit: u32,
        day: i32,
        table: &RuleTable<'_>,
    ) -> Result<Session, Status>
        ensures { IsOpened limit day (rules_told table.now) result }
    {
        match limit_of(limit) {
            Some(limit) => with_table(alloc, limit, day, table),
            None => Err(Status::BadLimit),
        }
    }

    /// Gives a cell the content that the text says, as [`Engine::set`].
    pub fn set(&mut self, at: Place, text: &str) -> Status
        ensures { Asks (op.set at text.now) self.old self.new result }
    {
        Status::of(self.engine.set(at, text))
    }

    /// Empties the cells of a block, as [`Engine::clear`].
    pub fn clear(&mut self, area: Block) -> Status
        ensures { Asks (op.clear area) self.old self.new result }
    {
        Status::of(self.engine.clear(area))
    }

    /// Puts so many rows before a row of the sheet, as [`Engine::insert_rows`].
    pub fn insert_rows(&mut self, sheet: u32, at: u32, count: u32) -> Status
        ensures { Asks (op.structural (shifts.InsertRows sheet at count)) self.old self.new result }
    {
        Status::of(self.engine.insert_rows(sheet, at, count))
    }

    /// Deletes so many rows of the sheet from a row on, as [`Engine::delete_rows`].
    pub fn delete_rows(&mut self, sheet: u32, at: u32, count: u32) -> Status
        ensures { Asks (op.structural (shifts.DeleteRows sheet at count)) self.old self.new result }
    {
        Status::of(self.engine.delete_rows(sheet, at, count))
    }

    /// Moves so many rows of the sheet from a row on to before another row, as [`Engine::move_rows`].
    pub fn move_rows(&mut self, sheet: u32, from: u32, count: u32, before: u32) -> Status
        ensures { Asks (op.structural (shifts.MoveRows sheet from count before)) self.old self.new result }
    {
        Status::of(self.engine.move_rows(sheet, from, count, before))
    }

    /// Puts so many columns before a column of the sheet, as [`Engine::insert_cols`].
    pub fn insert_cols(&mut self, sheet: u32, at: u32, count: u32) -> Status
        ensures { Asks (op.structural (shifts.InsertCols sheet at count)) self.old self.new result }
    {
        Status::of(self.engine.insert_cols(sheet, at, count))
    }

    /// Deletes so many columns of the sheet from a column on, as [`Engine::delete_cols`].
    pub fn delete_cols(&mut self, sheet: u32, at: u32, count: u32) -> Status
        ensures { Asks (op.structural (shifts.DeleteCols sheet at count)) self.old self.new result }
    {
        Status::of(self.engine.delete_cols(sheet, at, count))
    }

    /// Moves so many columns of the sheet from a column on to before another column, as [`Engine::move_cols`].
    pub fn move_cols(&mut self, sheet: u32, from: u32, count: u32, before: u32) -> Status
        ensures { Asks (op.structural (shifts.MoveCols sheet from count before)) self.old self.new result }
    {
        Status::of(self.engine.move_cols(sheet, from, count, before))
    }

    /// Moves the cells of a block to the block of the same size that begins at a place, as [`Engine::move_block`].
    pub fn move_block(&mut self, source: Block, to: Place) -> Status
        ensures { Asks (op.structural (shifts.MoveBlock source to)) self.old self.new result }
    {
        Status::of(self.engine.move_block(source, to))
    }

    /// Adds a sheet at the end of the list and tells its number, as [`Engine::add_sheet`].
    pub fn add_sheet(&mut self, name: &str, number: &mut u32) -> Status
        ensures does { Asks (op.add_sheet name.now) self.old self.new result }
        ensures told { Told (λ d. d.next_sheet) number.old number.new self.old result }
    {
        tell_number(self.engine.add_sheet(name), number)
    }

    /// Drops a sheet with its cells, as [`Engine::drop_sheet`].
    pub fn drop_sheet(&mut self, sheet: u32) -> Status
        ensures { Asks (op.structural (shifts.DropSheet sheet)) self.old self.new result }
    {
        Status::of(self.engine.drop_sheet(sheet))
    }

    /// Gives a sheet another name, as [`Engine::rename_sheet`].
    pub fn rename_sheet(&mut self, sheet: u32, name: &str) -> Status
        ensures { Asks (op.rename_sheet sheet name.now) self.old self.new result }
    {
        Status::of(self.engine.rename_sheet(sheet, name))
    }

    /// Empties the cells of a sheet, as [`Engine::clear_sheet`].
    pub fn clear_sheet(&mut self, sheet: u32) -> Status
        ensures { Asks (op.clear_sheet sheet) self.old self.new result }
    {
        Status::of(self.engine.clear_sheet(sheet))
    }

    /// Adds a name with the formula of the text in the scope of this number, as [`Engine::add_name`]. [`NO_SHEET`] is the
    /// number of the whole workbook.
    pub fn add_name(&mut self, name: &str, scope: u32, text: &str) -> Status
        ensures { Asks (op.add_name name.now (scope_of scope) text.now) self.old self.new result }
    {
        Status::of(self.engine.add_name(name, scope_of(scope), text))
    }

    /// Gives a name of the scope another formula, as [`Engine::change_name`].
    pub fn change_name(&mut self, name: &str, scope: u32, text: &str) -> Status
        ensures { Asks (op.change_name name.now (scope_of scope) text.now) self.old self.new result }
    {
        Status::of(self.engine.change_name(name, scope_of(scope), text))
    }

    /// Takes a name of the scope away, as [`Engine::remove_name`].
    pub fn remove_name(&mut self, name: &str, scope: u32) -> Status
        ensures { Asks (op.remove_name name.now (scope_of scope)) self.old self.new result }
    {
        Status::of(self.engine.remove_name(name, scope_of(scope)))
    }

    /// Copies a block, as [`Engine::copy`].
    pub fn copy(&mut self, area: Block) -> Status
        ensures { Asks (op.copy area) self.old self.new result }
    {
        Status::of(self.engine.copy(area))
    }

    /// Cuts a block, as [`Engine::cut`].
    pub fn cut(&mut self, area: Block) -> Status
        ensures { Asks (op.cut area) self.old self.new result }
    {
        Status::of(self.engine.cut(area))
    }

    /// Pastes what waits, its first cell at a place, as [`Engine::paste`].
    pub fn paste(&mut self, at: Place) -> Status
        ensures { Asks (op.paste at) self.old self.new result }
    {
        Status::of(self.engine.paste(at))
    }

    /// Empties the clipboard, as [`Engine::clear_clipboard`].
    pub fn clear_clipboard(&mut self)
        ensures { Clears self.old self.new }
    {
        self.engine.clear_clipboard();
    }

    /// Opens a batch, as [`Engine::begin`].
    pub fn begin(&mut self) -> Status
        ensures { Asks op.begin self.old self.new result }
    {
        Status::of(self.engine.begin())
    }

    /// Closes the batch, as [`Engine::commit`].
    pub fn commit(&mut self) -> Status
        ensures { Asks op.commit self.old self.new result }
    {
        Status::of(self.engine.commit())
    }

    /// Stops the computation of values, as [`Engine::suspend`].
    pub fn suspend(&mut self)
        ensures { AsksAlways op.suspend self.old self.new }
    {
        self.engine.suspend();
    }

    /// Lets the computation of values go on, as [`Engine::resume`].
    pub fn resume(&mut self)
        ensures { AsksAlways op.resume self.old self.new }
    {
        self.engine.resume();
    }

    /// Forgets the steps that can be undone and done again, as [`Engine::clear_history`].
    pub fn clear_history(&mut self)
        ensures { Forgets self.old self.new }
    {
        self.engine.clear_history();
    }

    /// Goes back to the workbook from before the last step, as [`Engine::undo`].
    pub fn undo(&mut self) -> Status
        ensures { Asks op.undo self.old self.new result }
    {
        Status::of(self.engine.undo())
    }

    /// Goes forward again, as [`Engine::redo`].
    pub fn redo(&mut self) -> Status
        ensures { Asks op.redo self.old self.new result }
    {
        Status::of(self.engine.redo())
    }

    /// Spends idle time on formulas that lag behind, as [`Engine::settle_idle`]: tells 1 where none is left, else 0. For want
    /// of memory nothing is told.
    #[tactic(auto, unfolding(crate::specs::Session::Settles))]
    pub fn settle_idle(&mut self, budget: u64, none_left: &mut u32) -> Status
        ensures stays { Stays self.old self.new }
        ensures does { Settles budget self.old self.new result }
        ensures told { SettledTold self.new none_left.old none_left.new result }
    {
        match self.engine.settle_idle(budget) {
            Ok(all) => {
                *none_left = truth_bit(all);
                Status::Done
            }
            Err(_) => Status::NoMemory,
        }
    }
}

// The limit of undo, where it isn't above the greatest.
fn limit_of(limit: u32) -> Option<u16>
    ensures { MatchOption result (MAX_UNDO < limit) (λ n. (n ≡ limit) × (n ≤ MAX_UNDO)) }
{
    match u16::try_from(limit) {
        Ok(limit) if limit <= MAX_UNDO => Some(limit),
        _ => None,
    }
}

// A session whose formulas can call the functions of the table.
fn with_table(alloc: Global, limit: u16, day: i32, table: &RuleTable<'_>) -> Result<Session, Status>
    requires { limit ≤ MAX_UNDO }
    ensures { IsOpened limit day (rules_told table.now) result }
{
    match table.rules(alloc) {
        Ok(rules) => with_rules(alloc, limit, day, rules),
        Err(TableError::BadTable) => Err(Status::BadTable),
        Err(TableError::NoMemory) => Err(Status::NoMemory),
    }
}

// A session whose formulas can call these functions.
fn with_rules(alloc: Global, limit: u16, day: i32, rules: Rules) -> Result<Session, Status>
    requires { limit ≤ MAX_UNDO }
    ensures { IsOpened limit day (Some (rules_of rules)) result }
{
    match Engine::build(alloc, &[], limit, rules, day) {
        Ok(engine) => Ok(Session { alloc, engine }),
        Err(_) => Err(Status::NoMemory),
    }
}

// Tells a number, or says why there is none.
fn tell_number(end: Result<u32, Stop>, number: &mut u32) -> Status
    ensures status { result ≡ status_of_end end }
    ensures told { EndTold (λ n. n) end number.old number.new }
{
    match end {
        Ok(told) => {
            *number = told;
            Status::Done
        }
        Err(stop) => Status::from(stop),
    }
}

// 1 for true, 0 for false.
fn truth_bit(truth: bool) -> u32
    ensures { result ≡ truth_bit truth }
{
    u32::from(truth)
}

// The scope of a number.
pub(crate) fn scope_of(scope: u32) -> Option<u32>
    ensures { result ≡ scope_of scope }
{
    if scope == NO_SHEET { None } else { Some(scope) }
}
