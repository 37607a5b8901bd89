// Kinds of contents, filled places, how far a sheet is used, and what the cells of a block show and hold.
ghost use Rattle.std.specs.Prelude.{◌≡◌, ◌&&◌, None, length, true};
ghost use Rattle.book_model.specs.Operation as op;
ghost use Rattle.book_model.specs.Refusals.{cause};
ghost use Rattle.area_reads.specs.Reads.{values_cause};
ghost use Rattle.engine_face.specs.Areas.{SaysUsed, kind_at, rows_in_block, rows_on_cycle, rows_on_sheet};
ghost use Rattle.engine_face.specs.Lists.{content_rows, content_texts, list_sizes, value_rows, value_texts};
ghost use Rattle.engine_face.specs.Session.{Finds, Tells, Told, Wrote};
ghost use Rattle.engine_face.specs.Shown.{fits};
ghost use Rattle.engine_face.specs.Status.{status_numbered};
ghost use Rattle.engine_c.specs.Calls.{Over};

use crate::book::Book;
use cell_addr::{Block, Place};
use engine_face::{CellRow, ListSizes, PlaceRow, Status, UsedArea};

/// What kind of content a cell has, as a number.
#[unsafe(no_mangle)]
pub extern "C" fn fz_kind(book: &mut Book, sheet: u32, row: u32, col: u32, kind: &mut u32) -> u8
    ensures does { Over (Finds (cause (op.content (record { sheet = sheet; row = row; col = col }))) (λ d. true)) book.old.handle.value book.new.handle.value (status_numbered result) }
    ensures told { Over (λ old new status. Told (kind_at (record { sheet = sheet; row = row; col = col })) kind.old kind.new old status) book.old.handle.value book.new.handle.value (status_numbered result) }
    ensures untold { book.old.handle.value ≡ None → kind.new ≡ kind.old }
{
    let Some(session) = book.take() else {
        return Status::NotOpen.number();
    };
    let status = session.kind(Place { sheet, row, col }, kind);
    book.put(session);
    status.number()
}

/// The filled places of a block, and how many there are.
#[unsafe(no_mangle)]
pub extern "C" fn fz_filled(
    book: &mut Book,
    sheet: u32,
    top: u32,
    left: u32,
    bottom: u32,
    right: u32,
    rows: &mut [PlaceRow],
    count: &mut usize,
) -> u8
    ensures does { Over (Finds (cause (op.copy (record { sheet = sheet; top = top; left = left; bottom = bottom; right = right }))) (λ d. fits (rows_in_block (record { sheet = sheet; top = top; left = left; bottom = bottom; right = right }) d) rows.old)) book.old.handle.value book.new.handle.value (status_numbered result) }
    ensures wrote { Over (λ old new status. Wrote (rows_in_block (record { sheet = sheet; top = top; left = left; bottom = bottom; right = right })) rows.old rows.new old status) book.old.handle.value book.new.handle.value (status_numbered result) }
    ensures told { Over (λ old new status. Told (λ d. length (rows_in_block (record { sheet = sheet; top = top; left = left; bottom = bottom; right = right }) d)) count.old count.new old status) book.old.handle.value book.new.handle.value (status_numbered result) }
    ensures unwritten { book.old.handle.value ≡ None → rows.new ≡ rows.old }
    ensures untold { book.old.handle.value ≡ None → count.new ≡ count.old }
{
    let Some(session) = book.take() else {
        return Status::NotOpen.number();
    };
    let status = session.filled(
        Block {
            sheet,
            top,
            left,
            bottom,
            right,
        },
        rows,
        count,
    );
    book.put(session);
    status.number()
}

/// The filled places of a sheet, and how many there are.
#[unsafe(no_mangle)]
pub extern "C" fn fz_filled_in(
    book: &mut Book,
    sheet: u32,
    rows: &mut [PlaceRow],
    count: &mut usize,
) -> u8
    ensures does { Over (Finds (cause (op.clear_sheet sheet)) (λ d. fits (rows_on_sheet sheet d) rows.old)) book.old.handle.value book.new.handle.value (status_numbered result) }
    ensures wrote { Over (λ old new status. Wrote (rows_on_sheet sheet) rows.old rows.new old status) book.old.handle.value book.new.handle.value (status_numbered result) }
    ensures told { Over (λ old new status. Told (λ d. length (rows_on_sheet sheet d)) count.old count.new old status) book.old.handle.value book.new.handle.value (status_numbered result) }
    ensures unwritten { book.old.handle.value ≡ None → rows.new ≡ rows.old }
    ensures untold { book.old.handle.value ≡ None → count.new ≡ count.old }
{
    let Some(session) = book.take() else {
        return Status::NotOpen.number();
    };
    let status = session.filled_in(sheet, rows, count);
    book.put(session);
    status.number()
}

/// The cells of a sheet that are on a cycle, and how many there are.
#[unsafe(no_mangle)]
pub extern "C" fn fz_on_cycle(
    book: &mut Book,
    sheet: u32,
    rows: &mut [PlaceRow],
    count: &mut usize,
) -> u8
    ensures does { Over (Finds (cause (op.clear_sheet sheet)) (λ d. fits (rows_on_cycle sheet d) rows.old)) book.old.handle.value book.new.handle.value (status_numbered result) }
    ensures wrote { Over (λ old new status. Wrote (rows_on_cycle sheet) rows.old rows.new old status) book.old.handle.value book.new.handle.value (status_numbered result) }
    ensures told { Over (λ old new status. Told (λ d. length (rows_on_cycle sheet d)) count.old count.new old status) book.old.handle.value book.new.handle.value (status_numbered result) }
    ensures unwritten { book.old.handle.value ≡ None → rows.new ≡ rows.old }
    ensures untold { book.old.handle.value ≡ None → count.new ≡ count.old }
{
    let Some(mut session) = book.take() else {
        return Status::NotOpen.number();
    };
    let status = session.on_cycle(sheet, rows, count);
    book.put(session);
    status.number()
}

/// How far a sheet is used.
#[unsafe(no_mangle)]
pub extern "C" fn fz_used_area(book: &mut Book, sheet: u32, used: &mut UsedArea) -> u8
    ensures does { Over (Finds (cause (op.clear_sheet sheet)) (λ d. true)) book.old.handle.value book.new.handle.value (status_numbered result) }
    ensures told { Over (λ old new status. Tells (λ d. SaysUsed sheet d.book) used.old used.new old status) book.old.handle.value book.new.handle.value (status_numbered result) }
    ensures untold { book.old.handle.value ≡ None → used.new ≡ used.old }
{
    let Some(session) = book.take() else {
        return Status::NotOpen.number();
    };
    let status = session.used_area(sheet, used);
    book.put(session);
    status.number()
}

/// What the filled cells of a block show: the cells and their texts, each in a room.
#[unsafe(no_mangle)]
pub extern "C" fn fz_values(
    book: &mut Book,
    sheet: u32,
    top: u32,
    left: u32,
    bottom: u32,
    right: u32,
    rows: &mut [CellRow],
    texts: &mut [u8],
    sizes: &mut ListSizes,
) -> u8
    ensures does { Over (Finds (values_cause (record { sheet = sheet; top = top; left = left; bottom = bottom; right = right })) (λ d. fits (value_rows (record { sheet = sheet; top = top; left = left; bottom = bottom; right = right }) d) rows.old && fits (value_texts (record { sheet = sheet; top = top; left = left; bottom = bottom; right = right }) d) texts.old)) book.old.handle.value book.new.handle.value (status_numbered result) }
    ensures rows { Over (λ old new status. Wrote (value_rows (record { sheet = sheet; top = top; left = left; bottom = bottom; right = right })) rows.old rows.new old status) book.old.handle.value book.new.handle.value (status_numbered result) }
    ensures texts { Over (λ old new status. Wrote (value_texts (record { sheet = sheet; top = top; left = left; bottom = bottom; right = right })) texts.old texts.new old status) book.old.handle.value book.new.handle.value (status_numbered result) }
    ensures told { Over (λ old new status. Told (λ d. list_sizes (value_rows (record { sheet = sheet; top = top; left = left; bottom = bottom; right = right }) d) (value_texts (record { sheet = sheet; top = top; left = left; bottom = bottom; right = right }) d)) sizes.old sizes.new old status) book.old.handle.value book.new.handle.value (status_numbered result) }
    ensures no_rows { book.old.handle.value ≡ None → rows.new ≡ rows.old }
    ensures no_texts { book.old.handle.value ≡ None → texts.new ≡ texts.old }
    ensures untold { book.old.handle.value ≡ None → sizes.new ≡ sizes.old }
{
    let Some(mut session) = book.take() else {
        return Status::NotOpen.number();
    };
    let status = session.values(
        Block {
            sheet,
            top,
            left,
            bottom,
            right,
        },
        rows,
        texts,
        sizes,
    );
    book.put(session);
    status.number()
}

/// The texts that give the filled cells of a block their contents.
#[unsafe(no_mangle)]
pub extern "C" fn fz_contents(
    book: &mut Book,
    sheet: u32,
    top: u32,
    left: u32,
    bottom: u32,
    right: u32,
    rows: &mut [CellRow],
    texts: &mut [u8],
    sizes: &mut ListSizes,
) -> u8
    ensures does { Over (Finds (cause (op.copy (record { sheet = sheet; top = top; left = left; bottom = bottom; right = right }))) (λ d. fits (content_rows (record { sheet = sheet; top = top; left = left; bottom = bottom; right = right }) d) rows.old && fits (content_texts (record { sheet = sheet; top = top; left = left; bottom = bottom; right = right }) d) texts.old)) book.old.handle.value book.new.handle.value (status_numbered result) }
    ensures rows { Over (λ old new status. Wrote (content_rows (record { sheet = sheet; top = top; left = left; bottom = bottom; right = right })) rows.old rows.new old status) book.old.handle.value book.new.handle.value (status_numbered result) }
    ensures texts { Over (λ old new status. Wrote (content_texts (record { sheet = sheet; top = top; left = left; bottom = bottom; right = right })) texts.old texts.new old status) book.old.handle.value book.new.handle.value (status_numbered result) }
    ensures told { Over (λ old new status. Told (λ d. list_sizes (content_rows (record { sheet = sheet; top = top; left = left; bottom = bottom; right = right }) d) (content_texts (record { sheet = sheet; top = top; left = left; bottom = bottom; right = right }) d)) sizes.old sizes.new old status) book.old.handle.value book.new.handle.value (status_numbered result) }
    ensures no_rows { book.old.handle.value ≡ None → rows.new ≡ rows.old }
    ensures no_texts { book.old.handle.value ≡ None → texts.new ≡ texts.old }
    ensures untold { book.old.handle.value ≡ None → sizes.new ≡ sizes.old }
{
    let Some(mut session) = book.take() else {
        return Status::NotOpen.number();
    };
    let status = session.contents(
        Block {
            sheet,
            top,
            left,
            bottom,
            right,
        },
        rows,
        texts,
        sizes,
    );
    book.put(session);
    status.number()
}
