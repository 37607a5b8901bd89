// The books that a run is told.
ghost use Rattle.std.specs.Prelude.{◌≡◌, ◌++◌, ◌∷◌, ◌≤◌, [], IfOk, OnOk, IsErrOf, codes, string_bytes};
ghost use Rattle.book_files.specs.Books.{book_sheet_of};
ghost use Rattle.book_files.specs.Outside.{Rose};
ghost use Rattle.book_model.specs.Given.{CanBegin, given_sheet, given_sheets};
ghost use Rattle.book_model.specs.declared.limits.TheConstants.{MAX_CELLS};
ghost use Rattle.run_inputs.specs.Ends.{ComesTo, EndsOpening, Opens};
ghost use Rattle.run_inputs.specs.Opening.{book_joined, book_refused, empty_sheet, fault_text, filled_in, has_name, sheets_joined, sheets_told};
ghost use Rattle.run_inputs.specs.internal.Parts.{CanFollow, EndsWith, IsEnd, is_named};

use crate::ending::{Ending, NO_BOOK};
use crate::script::too_long;
use book_files::{BookFault, Folder, LoadError, MAX_INPUT, read_book, sheet_name};
use book_model::{BookCells, BookSheet, MAX_SHEETS};
use cell_addr::{Text, same_folded};
use std::alloc::{AllocError, Global};

/// The sheets that a run begins with: those of its books, in the order of their files, or one empty sheet where it is
/// given none. A session can begin with them.
///
/// Costs the bytes of the files, and for each file the names of the sheets before it.
///
/// # Errors
///
/// The first file that is no book ends the run.
///
/// - [`Ending::Says`] with [`NO_BOOK`] and the line `book FILE: CAUSE`. The causes, in the order in which they are
///   tested: `missing`, `not UTF-8`, `sheet name invalid`, `sheet name taken` (in some case of its ASCII letters),
///   `too many sheets`, and of the first field with which something is wrong `too many rows`, `too many columns`,
///   `field too long` or `too many cells`, which counts the cells of the books before it.
/// - [`Ending::Says`] with [`TOO_LONG`](crate::TOO_LONG) and `input too long`, where the file has more than [`MAX_INPUT`]
///   bytes.
/// - [`Ending::ReadFault`] only where the folder counted a fault.
/// - [`Ending::NoMemory`] where memory ran out.
pub fn open_books<F: Folder>(
    alloc: Global,
    folder: &mut F,
    files: &[Text],
) -> Result<Vec<BookSheet>, Ending>
    ensures opens { Opens (λ sheets. given_sheets sheets.items) (F.files folder.old) (λ told. sheets_told told files.now) result }
    ensures can { IfOk result (λ sheets. CanBegin (given_sheets sheets.items)) }
    ensures status { EndsOpening result }
    ensures fault { IsErrOf result Ending.ReadFault → Rose (F.faults folder.old) (F.faults folder.new) }
    ensures later { F.faults folder.old ≤ F.faults folder.new }
    ensures stays { F.files folder.new ≡ F.files folder.old }
{
    if files.is_empty() {
        return Ok(empty_book(alloc)?);
    }
    let mut sheets = Vec::new(alloc);
    let mut filled: u32 = 0;
    'books: for file in files {
        let sheet = match open_book(alloc, folder, &sheets, filled, file) {
            Ok(sheet) => sheet,
            Err(ending) => return Err(ending),
        };
        filled += sheet.cells.items().len() as u32;
        join(&mut sheets, sheet)?;
    }
    Ok(sheets)
}

/// One empty sheet, `Sheet1`: what a run without books begins with.
pub fn empty_book(alloc: Global) -> Result<Vec<BookSheet>, AllocError>
    ensures { IfOk result (λ sheets. given_sheets sheets.items ≡ empty_sheet ∷ []) }
{
    let sheet = BookSheet {
        name: Text::from_str(alloc, "Sheet1")?,
        cells: BookCells::new(alloc)?,
    };
    let mut book = Vec::new(alloc);
    book.push(sheet)?;
    Ok(book)
}

// Puts a sheet behind the others.
fn join(sheets: &mut Vec<BookSheet>, sheet: BookSheet) -> Result<(), AllocError>
    ensures { OnOk result (sheets.new.items ≡ sheets.old.items ++ sheet ∷ []) }
{
    sheets.push(sheet)?;
    Ok(())
}

// The sheet of the book of this file, which stands behind other sheets that fill so many cells.
fn open_book<F: Folder>(
    alloc: Global,
    folder: &mut F,
    sheets: &[BookSheet],
    filled: u32,
    file: &Text,
) -> Result<BookSheet, Ending>
    requires filled { filled ≡ filled_in (given_sheets sheets.now) }
    requires few { filled ≤ MAX_CELLS }
    ensures opens { Opens (λ sheet. given_sheets sheets.now ++ given_sheet sheet ∷ []) (F.files folder.old) (λ told. book_joined told (given_sheets sheets.now) file.now) result }
    ensures can { IfOk result (λ sheet. CanFollow (given_sheets sheets.now) filled (given_sheet sheet)) }
    ensures status { EndsOpening result }
    ensures fault { IsErrOf result Ending.ReadFault → Rose (F.faults folder.old) (F.faults folder.new) }
    ensures later { F.faults folder.old ≤ F.faults folder.new }
    ensures stays { F.files folder.new ≡ F.files folder.old }
{
    match folder.load(alloc, file.as_str(), MAX_INPUT) {
        Ok(bytes) => read_sheet(alloc, sheets, filled, file, &bytes),
        Err(LoadError::Missing) => Err(refused(alloc, file, "missing")),
        Err(LoadError::TooLong) => Err(too_long(alloc)),
        Err(LoadError::Failed) => Err(Ending::ReadFault),
        Err(LoadError::NoMemory) => Err(Ending::NoMemory),
    }
}

// The sheet that a file of this name and these bytes is, behind other sheets that fill so many cells. That its name is
// taken, or that there are too many, is tested where it has a name, before its fields.
fn read_sheet(
    alloc: Global,
    sheets: &[BookSheet],
    filled: u32,
    file: &Text,
    bytes: &[u8],
) -> Result<BookSheet, Ending>
    requires { filled ≤ MAX_CELLS }
    ensures comes { ComesTo (λ sheet. given_sheets sheets.now ++ given_sheet sheet ∷ []) (sheets_joined (given_sheets sheets.now) file.now (book_sheet_of file.now bytes.now filled)) result }
    ensures can { IfOk result (λ sheet. CanFollow (given_sheets sheets.now) filled (given_sheet sheet)) }
    ensures status { EndsOpening result }
    ensures fault { IsErrOf result Ending.ReadFault → ⊥ }
{
    let read = read_book(alloc, file.as_str(), bytes, filled);
    if is_named(&read) {
        if has_name(sheets, sheet_name(file.as_str())) {
            return Err(refused(alloc, file, "sheet name taken"));
        }
        if sheets.len() >= MAX_SHEETS as usize {
            return Err(refused(alloc, file, "too many sheets"));
        }
    }
    match read {
        Ok(sheet) => Ok(sheet),
        Err(BookFault::NoMemory) => Err(Ending::NoMemory),
        Err(fault) => Err(refused(alloc, file, fault_text(fault))),
    }
}

// Whether a file was read as far as its fields, and so has a sheet's name.
fn is_named(read: &Result<BookSheet, BookFault>) -> bool
    ensures { result ≡ is_named read.now }
{
    !matches!(
        read,
        Err(BookFault::NotUtf8 | BookFault::BadSheetName | BookFault::NoMemory)
    )
}

// Whether one of the sheets has the name, in some case of its ASCII letters.
fn has_name(sheets: &[BookSheet], name: &str) -> bool
    ensures { result ≡ has_name (given_sheets sheets.now) name.now }
{
    'sheets: for sheet in sheets {
        if same_folded(sheet.name.as_str(), name) {
            return true;
        }
    }
    false
}

// Why a file is no sheet, as a run says it.
fn fault_text(fault: BookFault) -> &'static str
    ensures { result.now ≡ fault_text fault }
{
    match fault {
        BookFault::NotUtf8 => "not UTF-8",
        BookFault::BadSheetName => "sheet name invalid",
        BookFault::Rows => "too many rows",
        BookFault::Columns => "too many columns",
        BookFault::FieldLength => "field too long",
        BookFault::Cells => "too many cells",
        BookFault::NoMemory => "out of memory",
    }
}

// The end of a run at the book of this file.
fn refused(alloc: Global, file: &Text, cause: &str) -> Ending
    ensures end { IsEnd result (book_refused file.now cause.now) }
    ensures status { EndsWith result NO_BOOK }
{
    match book_text(alloc, file, cause) {
        Ok(text) => Ending::Says(text, NO_BOOK),
        Err(_) => Ending::NoMemory,
    }
}

// What a run says of the book of a file.
fn book_text(alloc: Global, file: &Text, cause: &str) -> Result<String, AllocError>
    ensures { IfOk result (λ text. string_bytes text ≡ codes "book " ++ file.now ++ codes ": " ++ cause.now) }
{
    let mut text = String::from_str(alloc, "book ")?;
    text.push_str(file.as_str())?;
    text.push_str(": ")?;
    text.push_str(cause)?;
    Ok(text)
}
