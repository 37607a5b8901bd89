// The commands of a script.
use cell_addr::{Spot, Text};

/// How a script was meant, which its first record may say. This project's own.
#[derive(Clone, Copy, PartialEq, Eq, Debug)]
pub enum Version {
    /// By sheets of 40,000 rows: what is an address of a row behind these now was a name.
    One,
    /// As scripts are read without that record.
    Two,
}

/// One command of a script: its word with the fields in their order. Sheets are named, rows and columns are counted
/// from 0. This project's own.
#[derive(Debug)]
pub enum Command {
    /// Gives a cell the content that a text says.
    Set(Spot, Text),
    /// Empties the cells of a block.
    Clear(Spot),
    /// Puts so many rows before a row of the sheet.
    InsertRows(Text, u32, u32),
    /// Deletes so many rows of the sheet from a row on.
    DeleteRows(Text, u32, u32),
    /// Puts so many columns before a column of the sheet.
    InsertCols(Text, u32, u32),
    /// Deletes so many columns of the sheet from a column on.
    DeleteCols(Text, u32, u32),
    /// Moves so many rows of the sheet from a row on to before another one.
    MoveRows(Text, u32, u32, u32),
    /// Moves so many columns of the sheet from a column on to before another one.
    MoveCols(Text, u32, u32, u32),
    /// Adds a sheet at the end of the list.
    AddSheet(Text),
    /// Drops a sheet with all of its cells.
    DropSheet(Text),
    /// Gives a sheet another name.
    RenameSheet(Text, Text),
    /// Empties the cells of a sheet.
    ClearSheet(Text),
    /// Adds a name: its word, its scope, which is a sheet or, empty, the whole workbook, and the text of its formula.
    AddName(Text, Text, Text),
    /// Gives a name another formula; the fields are those of `AddName`.
    ChangeName(Text, Text, Text),
    /// Removes a name, of a scope as in `AddName`.
    RemoveName(Text, Text),
    /// Copies a block, which waits to be pasted.
    Copy(Spot),
    /// Cuts a block, which is moved where it is pasted.
    Cut(Spot),
    /// Pastes what was copied or cut, its first cell at a place.
    Paste(Spot),
    /// Moves a block, its first cell to a place.
    MoveBlock(Spot, Spot),
    /// Opens a batch of changes that are one step.
    Begin,
    /// Closes the batch.
    Commit,
    /// Stops the computation of values.
    Suspend,
    /// Lets it go on.
    Resume,
    /// Back to the workbook from before the last step.
    Undo,
    /// Forward again, after an undo.
    Redo,
    /// Asks for what a cell shows.
    Value(Spot),
    /// Asks for the text of a cell's formula.
    Formula(Spot),
    /// Asks for the text that gives a cell its content.
    Content(Spot),
    /// Asks for the cells, blocks and names that a cell's formula needs.
    Precedents(Spot),
    /// Asks for the cells and names whose formulas need a cell.
    Dependents(Spot),
    /// Asks for what a name shows that a word finds on a sheet.
    NameValue(Text, Text),
    /// Asks for what a formula, as its text, would show in the first cell of a sheet, which comes first.
    Try(Text, Text),
    /// Says of which version the script is; the workbook stays as it is.
    Version(Version),
}

// Written out, so that whoever drops one calls one function.
impl Drop for Command {
    fn drop(self) {
        match self {
            Command::Set(_at, _text) => {}
            Command::Clear(_area) => {}
            Command::InsertRows(_sheet, _at, _count) => {}
            Command::DeleteRows(_sheet, _at, _count) => {}
            Command::InsertCols(_sheet, _at, _count) => {}
            Command::DeleteCols(_sheet, _at, _count) => {}
            Command::MoveRows(_sheet, _from, _count, _before) => {}
            Command::MoveCols(_sheet, _from, _count, _before) => {}
            Command::AddSheet(_name) => {}
            Command::DropSheet(_sheet) => {}
            Command::RenameSheet(_sheet, _name) => {}
            Command::ClearSheet(_sheet) => {}
            Command::AddName(_name, _scope, _text) => {}
            Command::ChangeName(_name, _scope, _text) => {}
            Command::RemoveName(_name, _scope) => {}
            Command::Copy(_area) => {}
            Command::Cut(_area) => {}
            Command::Paste(_at) => {}
            Command::MoveBlock(_area, _at) => {}
            Command::Begin => {}
            Command::Commit => {}
            Command::Suspend => {}
            Command::Resume => {}
            Command::Undo => {}
            Command::Redo => {}
            Command::Value(_at) => {}
            Command::Formula(_at) => {}
            Command::Content(_at) => {}
            Command::Precedents(_at) => {}
            Command::Dependents(_at) => {}
            Command::NameValue(_name, _sheet) => {}
            Command::Try(_sheet, _text) => {}
            Command::Version(_version) => {}
        }
    }
}
