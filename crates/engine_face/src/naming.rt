// Names that are listed, their texts, and what the text of a formula is and uses.
ghost use Rattle.std.specs.Prelude.{◌≡◌, ◌&&◌, IfOk, None, length};
ghost use Rattle.book_model.specs.Operation as op;
ghost use Rattle.book_model.specs.Refusals.{cause};
ghost use Rattle.book_model.specs.Workbook.{State};
ghost use Rattle.book_engine.specs.Areas.{entries_of};
ghost use Rattle.book_engine.specs.Turns.{Answered};
ghost use Rattle.book_engine.specs.Engine.{StandsFor};
ghost use Rattle.book_engine.specs.Formulas.{text_cause};
ghost use Rattle.rule_table.specs.Rules.{rules_of};
ghost use Rattle.engine_face.specs.Lists.{AreNames, EndList, Made, all_rows, all_words, as_names, list_sizes, name_row, text_of_formula, text_of_name, used_rows, used_words};
ghost use Rattle.engine_face.specs.Shown.{EndTold, fits};

use crate::questions::answer_text;
use crate::room::{ListSizes, write_list};
use crate::session::{Session, scope_of};
use crate::status::Status;
use book_engine::{Engine, NameEntry, Stop};
use cell_addr::{NO_SHEET, Text};
use rule_table::Rules;
use std::alloc::{AllocError, Global};

/// A name, its word in capitals.
#[repr(C)]
#[derive(Clone, Copy)]
pub struct NameRow {
    /// The number of the sheet whose own name it is; [`NO_SHEET`] for the whole workbook, or where no scope is told.
    pub scope: u32,
    /// How many bytes the words before it have: where it begins among the words.
    pub word_start: usize,
    /// How many bytes it has.
    pub word_length: usize,
}

// Names as they are written: their rows, and their words one after the other.
#[derive(Drop)]
struct NameList {
    rows: Vec<NameRow>,
    words: Vec<u8>,
}

impl Session {
    ghost use Rattle.engine_face.specs.Session.{Finds, Told, Wrote, scope_of};

    /// All names, as [`Engine::names_listed`]: the names and their words each in a room.
    pub fn names(&self, rows: &mut [NameRow], words: &mut [u8], sizes: &mut ListSizes) -> Status
        ensures does { Finds (λ d. None) (λ d. fits (all_rows d) rows.old && fits (all_words d) words.old) self.now self.now result }
        ensures rows { Wrote all_rows rows.old rows.new self.now result }
        ensures words { Wrote all_words words.old words.new self.now result }
        ensures told { Told (λ d. list_sizes (all_rows d) (all_words d)) sizes.old sizes.new self.now result }
    {
        let end = names_found(&self.engine);
        let list = entries_made(self.alloc, end);
        answer_names(list, rows, words, sizes)
    }

    /// The text of the formula of the scope's own name, as [`Engine::name_text`].
    pub fn name_text(
        &mut self,
        name: &str,
        scope: u32,
        room: &mut [u8],
        needed: &mut usize,
    ) -> Status
        ensures does { Finds (cause (op.remove_name name.now (scope_of scope))) (λ d. fits (text_of_name (scope_of scope) name.now d) room.old) self.old self.new result }
        ensures wrote { Wrote (text_of_name (scope_of scope) name.now) room.old room.new self.old result }
        ensures told { Told (λ d. length (text_of_name (scope_of scope) name.now d)) needed.old needed.new self.old result }
    {
        answer_text(self.engine.name_text(name, scope_of(scope)), room, needed)
    }

    /// The canonical text of the formula of a text, as [`Engine::normal_text`].
    pub fn normal_text(
        &mut self,
        sheet: u32,
        text: &str,
        room: &mut [u8],
        needed: &mut usize,
    ) -> Status
        ensures does { Finds (λ d. text_cause d.book sheet text.now) (λ d. fits (text_of_formula sheet text.now d) room.old) self.old self.new result }
        ensures wrote { Wrote (text_of_formula sheet text.now) room.old room.new self.old result }
        ensures told { Told (λ d. length (text_of_formula sheet text.now d)) needed.old needed.new self.old result }
    {
        answer_text(self.engine.normal_text(sheet, text), room, needed)
    }

    /// The words that the formula of a text uses as names, as [`Engine::names_in`], of which no scope is told.
    pub fn names_in(
        &mut self,
        sheet: u32,
        text: &str,
        rows: &mut [NameRow],
        words: &mut [u8],
        sizes: &mut ListSizes,
    ) -> Status
        ensures does { Finds (λ d. text_cause d.book sheet text.now) (λ d. fits (used_rows sheet text.now d) rows.old && fits (used_words sheet text.now d) words.old) self.old self.new result }
        ensures rows { Wrote (used_rows sheet text.now) rows.old rows.new self.old result }
        ensures words { Wrote (used_words sheet text.now) words.old words.new self.old result }
        ensures told { Told (λ d. list_sizes (used_rows sheet text.now d) (used_words sheet text.now d)) sizes.old sizes.new self.old result }
    {
        let end = self.engine.names_in(sheet, text);
        let list = words_made(self.alloc, end);
        answer_names(list, rows, words, sizes)
    }
}

// All names, or that there was no memory.
fn names_found(engine: &Engine<Rules>) -> Result<Vec<NameEntry>, Stop>
    ensures { (d : State) → StandsFor rules_of engine.now d → Answered None (λ list. list.items ≡ entries_of d.book) result }
{
    let list = engine.names_listed()?;
    Ok(list)
}

// Tells how much room names need and writes them, or says why there are none.
fn answer_names(
    end: Result<NameList, Stop>,
    rows: &mut [NameRow],
    words: &mut [u8],
    sizes: &mut ListSizes,
) -> Status
    ensures fits { EndList (λ list. list.rows.items) (λ list. list.words.items) end rows.old rows.new words.old words.new result }
    ensures told { EndTold (λ list. list_sizes list.rows.items list.words.items) end sizes.old sizes.new }
{
    match end {
        Ok(list) => {
            *sizes = ListSizes {
                rows: list.rows.len(),
                bytes: list.words.len(),
            };
            write_list(&list.rows, &list.words, rows, words)
        }
        Err(stop) => Status::from(stop),
    }
}

// The names that were found as a list.
fn entries_made(alloc: Global, end: Result<Vec<NameEntry>, Stop>) -> Result<NameList, Stop>
    ensures { Made (λ entries list. AreNames entries.items list) end result }
{
    let entries = end?;
    let list = entries_list(alloc, &entries)?;
    Ok(list)
}

// The words that were found as a list.
fn words_made(alloc: Global, end: Result<Vec<Text>, Stop>) -> Result<NameList, Stop>
    ensures { Made (λ words list. AreNames (as_names words.items) list) end result }
{
    let words = end?;
    let list = words_list(alloc, &words)?;
    Ok(list)
}

// Names as a list.
fn entries_list(alloc: Global, entries: &[NameEntry]) -> Result<NameList, AllocError>
    ensures { IfOk result (λ list. AreNames entries.now list) }
{
    let mut rows = Vec::new(alloc);
    let mut words = Vec::new(alloc);
    let mut rest = entries;
    'entries: while let Some((entry, after)) = rest.split_first() {
        rows.push(entry_row(words.len(), entry))?;
        words.extend_from_slice(entry.name.as_bytes())?;
        rest = after;
    }
    Ok(NameList { rows, words })
}

// A name as a row, where its word begins there among the words.
fn entry_row(start: usize, entry: &NameEntry) -> NameRow
    ensures { result ≡ name_row start entry.now }
{
    NameRow {
        scope: entry.scope.unwrap_or(NO_SHEET),
        word_start: start,
        word_length: entry.name.as_bytes().len(),
    }
}

// Words that no scope is told of as a list.
fn words_list(alloc: Global, given: &[Text]) -> Result<NameList, AllocError>
    ensures { IfOk result (λ list. AreNames (as_names given.now) list) }
{
    let mut rows = Vec::new(alloc);
    let mut words = Vec::new(alloc);
    let mut rest = given;
    'given: while let Some((word, after)) = rest.split_first() {
        rows.push(word_row(words.len(), word))?;
        words.extend_from_slice(word.as_bytes())?;
        rest = after;
    }
    Ok(NameList { rows, words })
}

// A word as such a row, where it begins there among the words.
fn word_row(start: usize, word: &Text) -> NameRow
    ensures { result ≡ name_row start (record { scope = None; name = word.now }) }
{
    NameRow {
        scope: NO_SHEET,
        word_start: start,
        word_length: word.as_bytes().len(),
    }
}
