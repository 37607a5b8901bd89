// Cells, blocks, rows and columns.
ghost use Rattle.std.specs.Prelude.{◌≡◌, IsUtf8, map};
ghost use Rattle.shift_core.specs.declared.shift.Shift.TheVariants as shifts;
ghost use Rattle.book_model.specs.Content.{text_given};
ghost use Rattle.book_model.specs.Operation as op;
ghost use Rattle.cell_value.specs.Scalar.{truth_text};
ghost use Rattle.fix_num.specs.Number.{within};
ghost use Rattle.engine_face.specs.Session.{Asks, AsksNumber};
ghost use Rattle.engine_face.specs.Status.{status_numbered};
ghost use Rattle.engine_face.specs.Written.{AreWritten, IsNoTable, written_cell};
ghost use Rattle.engine_face.specs.declared.status.Status.TheVariants.{NotUtf8};
ghost use Rattle.engine_c.specs.Calls.{Over};

use crate::book::Book;
use cell_addr::{Block, Place};
use engine_face::{Status, WrittenRow};

/// Gives a cell the content that the text says.
#[unsafe(no_mangle)]
pub extern "C" fn fz_set(book: &mut Book, sheet: u32, row: u32, col: u32, text: &[u8]) -> u8
    ensures does { IsUtf8 text.now → Over (Asks (op.set (record { sheet = sheet; row = row; col = col }) text.now)) book.old.handle.value book.new.handle.value (status_numbered result) }
    ensures no_text { ¬ (IsUtf8 text.now) → status_numbered result ≡ NotUtf8 }
    ensures no_text_left { ¬ (IsUtf8 text.now) → book.new.handle.value ≡ book.old.handle.value }
{
    let Ok(text) = str::from_utf8(text) else {
        return Status::NotUtf8.number();
    };
    let Some(mut session) = book.take() else {
        return Status::NotOpen.number();
    };
    let status = session.set(Place { sheet, row, col }, text);
    book.put(session);
    status.number()
}

/// Gives a cell the number of so many millionths.
#[unsafe(no_mangle)]
pub extern "C" fn fz_set_number(
    book: &mut Book,
    sheet: u32,
    row: u32,
    col: u32,
    millionths: i64,
) -> u8
    ensures { Over (AsksNumber (record { sheet = sheet; row = row; col = col }) (within millionths)) book.old.handle.value book.new.handle.value (status_numbered result) }
{
    let Some(mut session) = book.take() else {
        return Status::NotOpen.number();
    };
    let status = session.set_number(Place { sheet, row, col }, millionths);
    book.put(session);
    status.number()
}

/// Gives a cell a truth value.
#[unsafe(no_mangle)]
pub extern "C" fn fz_set_truth(book: &mut Book, sheet: u32, row: u32, col: u32, truth: bool) -> u8
    ensures { Over (Asks (op.set (record { sheet = sheet; row = row; col = col }) (truth_text truth))) book.old.handle.value book.new.handle.value (status_numbered result) }
{
    let Some(mut session) = book.take() else {
        return Status::NotOpen.number();
    };
    let status = session.set_truth(Place { sheet, row, col }, truth);
    book.put(session);
    status.number()
}

/// Gives a cell this text, as it is.
#[unsafe(no_mangle)]
pub extern "C" fn fz_set_text(book: &mut Book, sheet: u32, row: u32, col: u32, text: &[u8]) -> u8
    ensures does { IsUtf8 text.now → Over (Asks (op.set (record { sheet = sheet; row = row; col = col }) (text_given text.now))) book.old.handle.value book.new.handle.value (status_numbered result) }
    ensures no_text { ¬ (IsUtf8 text.now) → status_numbered result ≡ NotUtf8 }
    ensures no_text_left { ¬ (IsUtf8 text.now) → book.new.handle.value ≡ book.old.handle.value }
{
    let Ok(text) = str::from_utf8(text) else {
        return Status::NotUtf8.number();
    };
    let Some(mut session) = book.take() else {
        return Status::NotOpen.number();
    };
    let status = session.set_text(Place { sheet, row, col }, text);
    book.put(session);
    status.number()
}

/// Gives each of these cells the content that its text says, as one change.
#[unsafe(no_mangle)]
pub extern "C" fn fz_write_all(book: &mut Book, rows: &[WrittenRow], texts: &[u8]) -> u8
    ensures does { AreWritten texts.now rows.now → Over (Asks (op.write_all (map (written_cell texts.now) rows.now))) book.old.handle.value book.new.handle.value (status_numbered result) }
    ensures no_table { ¬ (AreWritten texts.now rows.now) → Over IsNoTable book.old.handle.value book.new.handle.value (status_numbered result) }
{
    let Some(mut session) = book.take() else {
        return Status::NotOpen.number();
    };
    let status = session.write_all(rows, texts);
    book.put(session);
    status.number()
}

/// Empties the cells of a block.
#[unsafe(no_mangle)]
pub extern "C" fn fz_clear(
    book: &mut Book,
    sheet: u32,
    top: u32,
    left: u32,
    bottom: u32,
    right: u32,
) -> u8
    ensures { Over (Asks (op.clear (record { sheet = sheet; top = top; left = left; bottom = bottom; right = right }))) book.old.handle.value book.new.handle.value (status_numbered result) }
{
    let Some(mut session) = book.take() else {
        return Status::NotOpen.number();
    };
    let status = session.clear(Block {
        sheet,
        top,
        left,
        bottom,
        right,
    });
    book.put(session);
    status.number()
}

/// Puts so many rows before one of the sheet.
#[unsafe(no_mangle)]
pub extern "C" fn fz_insert_rows(book: &mut Book, sheet: u32, at: u32, count: u32) -> u8
    ensures { Over (Asks (op.structural (shifts.InsertRows sheet at count))) book.old.handle.value book.new.handle.value (status_numbered result) }
{
    let Some(mut session) = book.take() else {
        return Status::NotOpen.number();
    };
    let status = session.insert_rows(sheet, at, count);
    book.put(session);
    status.number()
}

/// Deletes so many rows of the sheet from one on.
#[unsafe(no_mangle)]
pub extern "C" fn fz_delete_rows(book: &mut Book, sheet: u32, at: u32, count: u32) -> u8
    ensures { Over (Asks (op.structural (shifts.DeleteRows sheet at count))) book.old.handle.value book.new.handle.value (status_numbered result) }
{
    let Some(mut session) = book.take() else {
        return Status::NotOpen.number();
    };
    let status = session.delete_rows(sheet, at, count);
    book.put(session);
    status.number()
}

/// Moves so many rows of the sheet from one on to before another one.
#[unsafe(no_mangle)]
pub extern "C" fn fz_move_rows(
    book: &mut Book,
    sheet: u32,
    from: u32,
    count: u32,
    before: u32,
) -> u8
    ensures { Over (Asks (op.structural (shifts.MoveRows sheet from count before))) book.old.handle.value book.new.handle.value (status_numbered result) }
{
    let Some(mut session) = book.take() else {
        return Status::NotOpen.number();
    };
    let status = session.move_rows(sheet, from, count, before);
    book.put(session);
    status.number()
}

/// Puts so many columns before one of the sheet.
#[unsafe(no_mangle)]
pub extern "C" fn fz_insert_cols(book: &mut Book, sheet: u32, at: u32, count: u32) -> u8
    ensures { Over (Asks (op.structural (shifts.InsertCols sheet at count))) book.old.handle.value book.new.handle.value (status_numbered result) }
{
    let Some(mut session) = book.take() else {
        return Status::NotOpen.number();
    };
    let status = session.insert_cols(sheet, at, count);
    book.put(session);
    status.number()
}

/// Deletes so many columns of the sheet from one on.
#[unsafe(no_mangle)]
pub extern "C" fn fz_delete_cols(book: &mut Book, sheet: u32, at: u32, count: u32) -> u8
    ensures { Over (Asks (op.structural (shifts.DeleteCols sheet at count))) book.old.handle.value book.new.handle.value (status_numbered result) }
{
    let Some(mut session) = book.take() else {
        return Status::NotOpen.number();
    };
    let status = session.delete_cols(sheet, at, count);
    book.put(session);
    status.number()
}

/// Moves so many columns of the sheet from one on to before another one.
#[unsafe(no_mangle)]
pub extern "C" fn fz_move_cols(
    book: &mut Book,
    sheet: u32,
    from: u32,
    count: u32,
    before: u32,
) -> u8
    ensures { Over (Asks (op.structural (shifts.MoveCols sheet from count before))) book.old.handle.value book.new.handle.value (status_numbered result) }
{
    let Some(mut session) = book.take() else {
        return Status::NotOpen.number();
    };
    let status = session.move_cols(sheet, from, count, before);
    book.put(session);
    status.number()
}

/// Moves the cells of a block to the block of the same size that begins at a place.
#[unsafe(no_mangle)]
pub extern "C" fn fz_move_block(
    book: &mut Book,
    sheet: u32,
    top: u32,
    left: u32,
    bottom: u32,
    right: u32,
    to_sheet: u32,
    to_row: u32,
    to_col: u32,
) -> u8
    ensures { Over (Asks (op.structural (shifts.MoveBlock (record { sheet = sheet; top = top; left = left; bottom = bottom; right = right }) (record { sheet = to_sheet; row = to_row; col = to_col })))) book.old.handle.value book.new.handle.value (status_numbered result) }
{
    let Some(mut session) = book.take() else {
        return Status::NotOpen.number();
    };
    let status = session.move_block(
        Block {
            sheet,
            top,
            left,
            bottom,
            right,
        },
        Place {
            sheet: to_sheet,
            row: to_row,
            col: to_col,
        },
    );
    book.put(session);
    status.number()
}
