// The sheets that files are.
ghost use Rattle.std.specs.Prelude.{◌≡◌, [], ◌∷◌, IfOk, IsOkUnless, IsUtf8};
ghost use Rattle.std.specs.Str.{is_utf8};
ghost use Rattle.csv.specs.Records.{AllText, fields_of};
ghost use Rattle.book_model.specs.Given.{IsGivenSheet, given_sheet};
ghost use Rattle.book_files.specs.Books.{AnswersSheet, behind_slashes, book_sheet_of, field_fault, file_cells, record_cells, sheet_name_of, without_ending};
ghost use Rattle.book_files.specs.internal.Filling.{Fills, FillsAll};

use crate::fault::BookFault;
use crate::records::Records;
use book_model::{BookCell, BookCells, BookSheet, MAX_CELLS, MAX_TEXT, is_sheet_name};
use cell_addr::{COLS, ROWS, Text};
use csv::ByteRecord;
use std::alloc::Global;

/// How a file's name ends where it is one of CSV; the sheet's name is without it.
const ENDING: &str = ".csv";

/// The sheet that a file of this name and these bytes is, in a book of which `filled` cells are
/// filled before it.
///
/// The sheet's name is the part of the file's name behind the last `/`, without `.csv` at the end.
/// The file's records have commas and double quotes, no header and any number of fields; the bytes
/// EF BB BF at the front are dropped, and a line without a byte is no record. Field `c` of record `r`
/// is the text of the cell in row `r` and column `c`, counted from 0; an empty field fills nothing.
/// Costs the length of the file.
///
/// # Errors
///
/// In this order:
/// - [`BookFault::NotUtf8`] where the file isn't UTF-8;
/// - [`BookFault::BadSheetName`] where no sheet may have the name;
/// - of the first field in reading order that has a fault: [`BookFault::Rows`],
///   [`BookFault::Columns`], [`BookFault::FieldLength`], [`BookFault::Cells`], the last only where
///   the field has a byte.
///
/// [`BookFault::NoMemory`] where memory runs out.
pub fn read_book(
    alloc: Global,
    name: &str,
    bytes: &[u8],
    filled: u32,
) -> Result<BookSheet, BookFault>
    ensures answers { AnswersSheet result (book_sheet_of name.now bytes.now filled) }

    // A session can begin with the sheet.
    ensures given { IfOk result (λ sheet. IsGivenSheet (given_sheet sheet)) }
{
    if !is_text(bytes) {
        return Err(BookFault::NotUtf8);
    }
    let sheet = sheet_name(name);
    if !is_sheet_name(sheet) {
        return Err(BookFault::BadSheetName);
    }
    let cells = read_cells(alloc, bytes, filled)?;
    Ok(BookSheet {
        name: Text::from_str(alloc, sheet)?,
        cells,
    })
}

// Whether the bytes are UTF-8.
fn is_text(bytes: &[u8]) -> bool
    ensures { result ≡ is_utf8 bytes.now }
{
    str::from_utf8(bytes).is_ok()
}

/// The name of the sheet that the file of this name is: the part behind the last `/`, without `.csv` at the end.
pub fn sheet_name(name: &str) -> &str
    ensures { result.now ≡ sheet_name_of name.now }
{
    without_ending(behind_slashes(name))
}

// The part of a file's name behind the last slash.
fn behind_slashes(name: &str) -> &str
    ensures { result.now ≡ behind_slashes name.now }
{
    match name.rfind('/') {
        Some(at) => &name[at + 1..],
        None => name,
    }
}

// A name without `.csv` at its end.
fn without_ending(name: &str) -> &str
    ensures { result.now ≡ without_ending name.now }
{
    match name.strip_suffix(ENDING) {
        Some(stem) => stem,
        None => name,
    }
}

// The cells that the fields of a file of UTF-8 fill.
fn read_cells(alloc: Global, bytes: &[u8], filled: u32) -> Result<BookCells, BookFault>
    requires { IsUtf8 bytes.now }
    ensures { FillsAll filled (file_cells bytes.now) result }
{
    let mut cells = BookCells::new(alloc)?;
    let mut records = Records::open(alloc, bytes);
    let mut row: u64 = 0;
    'records: while records.advance()? {
        read_record(alloc, &mut cells, filled, row, records.fields())?;
        row += 1;
    }
    Ok(cells)
}

// Fills the cells of a row by the fields of a record of UTF-8.
fn read_record(
    alloc: Global,
    cells: &mut BookCells,
    filled: u32,
    row: u64,
    fields: &ByteRecord,
) -> Result<(), BookFault>
    requires { AllText (fields_of fields.now) }
    ensures { Fills filled (record_cells row 0 (fields_of fields.now)) cells.old.list.items cells.new.list.items result }
{
    let mut col = 0;
    'fields: while let Some(field) = fields.get(col) {
        read_field(alloc, cells, filled, row, col, field)?;
        col += 1;
    }
    Ok(())
}

// Fills the cell of a field of UTF-8.
fn read_field(
    alloc: Global,
    cells: &mut BookCells,
    filled: u32,
    row: u64,
    col: usize,
    field: &[u8],
) -> Result<(), BookFault>
    requires { IsUtf8 field.now }
    ensures { Fills filled (record { row = row; col = col; text = field.now } ∷ []) cells.old.list.items cells.new.list.items result }
{
    let before = u64::from(filled) + cells.items().len() as u64;
    if let Some(fault) = field_fault(row, col, field, before) {
        return Err(fault);
    }
    if !field.is_empty() {
        let text = text_of(alloc, field)?;
        cells.push(BookCell {
            row: row as u32,
            col: col as u32,
            text,
        })?;
    }
    Ok(())
}

// What is wrong with a field before which so many cells are filled.
fn field_fault(row: u64, col: usize, field: &[u8], filled: u64) -> Option<BookFault>
    ensures { result ≡ field_fault filled (record { row = row; col = col; text = field.now }) }
{
    if row >= u64::from(ROWS) {
        Some(BookFault::Rows)
    } else if col >= COLS as usize {
        Some(BookFault::Columns)
    } else if field.len() > MAX_TEXT {
        Some(BookFault::FieldLength)
    } else if !field.is_empty() && filled >= MAX_CELLS {
        Some(BookFault::Cells)
    } else {
        None
    }
}

// The text that bytes of UTF-8 are.
fn text_of(alloc: Global, bytes: &[u8]) -> Result<Text, BookFault>
    requires { IsUtf8 bytes.now }
    ensures text { IfOk result (λ text. text ≡ bytes.now) }
    ensures memory { IsOkUnless result BookFault.NoMemory }
{
    match Text::from_utf8(alloc, bytes)? {
        Some(text) => Ok(text),
        None => unreachable!(),
    }
}
