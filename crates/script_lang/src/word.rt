// The words of commands, and the table of the fields behind each.
ghost use Rattle.std.specs.Prelude.{◌≡◌, ◌≤◌, length};
ghost use Rattle.script_lang.specs.Words.{line, word_named};

use FieldKind::{
    Block, Column, ColumnBefore, Count, Name, Place, Row, RowBefore, Scope, Sheet, Text, Version,
};

/// The word that a command begins with.
#[derive(Clone, Copy, PartialEq, Eq, Debug)]
pub enum Word {
    Set,
    Clear,
    InsertRows,
    DeleteRows,
    InsertCols,
    DeleteCols,
    MoveRows,
    MoveCols,
    AddSheet,
    DropSheet,
    RenameSheet,
    ClearSheet,
    AddName,
    ChangeName,
    RemoveName,
    Copy,
    Cut,
    Paste,
    MoveBlock,
    Begin,
    Commit,
    Suspend,
    Resume,
    Undo,
    Redo,
    Value,
    Formula,
    Content,
    Precedents,
    Dependents,
    NameValue,
    Try,
    Version,
}

/// What a field says, and so which form it has.
#[derive(Clone, Copy, PartialEq, Eq, Debug)]
pub enum FieldKind {
    /// One address, on a sheet's name with `!` or without.
    Place,
    /// One address, or two with a colon between them.
    Block,
    /// The name of a sheet of the book.
    Sheet,
    /// The scope of a named expression: the name of a sheet of the book, or nothing for the whole workbook.
    Scope,
    /// The row where something begins.
    Row,
    /// The column where something begins.
    Column,
    /// How many rows or columns.
    Count,
    /// The row before which something goes.
    RowBefore,
    /// The column before which something goes.
    ColumnBefore,
    /// A name that is given.
    Name,
    /// A text that is given.
    Text,
    /// The version of a script: `1` or `2`.
    Version,
}

/// How many fields stand behind a word at most.
pub const MAX_FIELDS: usize = 4;

impl Word {
    /// All words.
    pub const ALL: [Word; 33] = [
        Word::Set,
        Word::Clear,
        Word::InsertRows,
        Word::DeleteRows,
        Word::InsertCols,
        Word::DeleteCols,
        Word::MoveRows,
        Word::MoveCols,
        Word::AddSheet,
        Word::DropSheet,
        Word::RenameSheet,
        Word::ClearSheet,
        Word::AddName,
        Word::ChangeName,
        Word::RemoveName,
        Word::Copy,
        Word::Cut,
        Word::Paste,
        Word::MoveBlock,
        Word::Begin,
        Word::Commit,
        Word::Suspend,
        Word::Resume,
        Word::Undo,
        Word::Redo,
        Word::Value,
        Word::Formula,
        Word::Content,
        Word::Precedents,
        Word::Dependents,
        Word::NameValue,
        Word::Try,
        Word::Version,
    ];

    /// The word's line in the table: how it is written, and the fields behind it.
    pub fn line(self) -> (&'static str, &'static [FieldKind])
        ensures written { result.0.now ≡ (line self).0 }
        ensures fields { result.1.now ≡ (line self).1 }
        ensures few { length result.1.now ≤ MAX_FIELDS }
    {
        match self {
            Word::Set => ("set", &[Place, Text]),
            Word::Clear => ("clear", &[Block]),
            Word::InsertRows => ("insert-rows", &[Sheet, Row, Count]),
            Word::DeleteRows => ("delete-rows", &[Sheet, Row, Count]),
            Word::InsertCols => ("insert-cols", &[Sheet, Column, Count]),
            Word::DeleteCols => ("delete-cols", &[Sheet, Column, Count]),
            Word::MoveRows => ("move-rows", &[Sheet, Row, Count, RowBefore]),
            Word::MoveCols => ("move-cols", &[Sheet, Column, Count, ColumnBefore]),
            Word::AddSheet => ("add-sheet", &[Name]),
            Word::DropSheet => ("drop-sheet", &[Sheet]),
            Word::RenameSheet => ("rename-sheet", &[Sheet, Name]),
            Word::ClearSheet => ("clear-sheet", &[Sheet]),
            Word::AddName => ("add-name", &[Name, Scope, Text]),
            Word::ChangeName => ("change-name", &[Name, Scope, Text]),
            Word::RemoveName => ("remove-name", &[Name, Scope]),
            Word::Copy => ("copy", &[Block]),
            Word::Cut => ("cut", &[Block]),
            Word::Paste => ("paste", &[Place]),
            Word::MoveBlock => ("move-block", &[Block, Place]),
            Word::Begin => ("begin", &[]),
            Word::Commit => ("commit", &[]),
            Word::Suspend => ("suspend", &[]),
            Word::Resume => ("resume", &[]),
            Word::Undo => ("undo", &[]),
            Word::Redo => ("redo", &[]),
            Word::Value => ("value", &[Place]),
            Word::Formula => ("formula", &[Place]),
            Word::Content => ("content", &[Place]),
            Word::Precedents => ("precedents", &[Place]),
            Word::Dependents => ("dependents", &[Place]),
            Word::NameValue => ("name-value", &[Name, Sheet]),
            Word::Try => ("try", &[Sheet, Text]),
            Word::Version => ("version", &[Version]),
        }
    }

    /// The word that a field spells, in exactly these letters.
    pub fn named(text: &[u8]) -> Option<Word>
        ensures { result ≡ word_named text.now }
    {
        Word::ALL
            .iter()
            .copied()
            .find(|word| word.line().0.as_bytes() == text)
    }
}
