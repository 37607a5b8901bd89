// Questions whose answers are values, texts and links.
ghost use Rattle.std.specs.Prelude.{◌≡◌, ◌&&◌, IsUtf8, None, length};
ghost use Rattle.book_model.specs.Answers.{content_text, dependents_of, formula_of, name_value_of, precedents_of, tried_value, value_of};
ghost use Rattle.book_model.specs.Operation as op;
ghost use Rattle.cell_value.specs.Scalar.{shown_text};
ghost use Rattle.engine_face.specs.Links.{link_counts, link_rows, link_words};
ghost use Rattle.engine_face.specs.Session.{AsksFor, Told, Wrote};
ghost use Rattle.engine_face.specs.Shown.{fits, shown_value, text_or_none, value_text};
ghost use Rattle.engine_face.specs.Status.{status_numbered};
ghost use Rattle.engine_face.specs.declared.status.Status.TheVariants.{NotUtf8};
ghost use Rattle.engine_c.specs.Calls.{Over};

use crate::book::Book;
use cell_addr::Place;
use engine_face::{LinkCounts, LinkRow, Shown, Status};

/// What a cell shows: of a text its bytes in the room.
#[unsafe(no_mangle)]
pub extern "C" fn fz_value(
    book: &mut Book,
    sheet: u32,
    row: u32,
    col: u32,
    room: &mut [u8],
    shown: &mut Shown,
) -> u8
    ensures does { Over (AsksFor (op.value (record { sheet = sheet; row = row; col = col })) (λ d. fits (value_text (value_of d (record { sheet = sheet; row = row; col = col }))) room.old)) book.old.handle.value book.new.handle.value (status_numbered result) }
    ensures wrote { Over (λ old new status. Wrote (λ d. value_text (value_of d (record { sheet = sheet; row = row; col = col }))) room.old room.new old status) book.old.handle.value book.new.handle.value (status_numbered result) }
    ensures told { Over (λ old new status. Told (λ d. shown_value (value_of d (record { sheet = sheet; row = row; col = col }))) shown.old shown.new old status) book.old.handle.value book.new.handle.value (status_numbered result) }
    ensures unwritten { book.old.handle.value ≡ None → room.new ≡ room.old }
    ensures untold { book.old.handle.value ≡ None → shown.new ≡ shown.old }
{
    let Some(mut session) = book.take() else {
        return Status::NotOpen.number();
    };
    let status = session.value(Place { sheet, row, col }, room, shown);
    book.put(session);
    status.number()
}

/// What a person sees of what a cell shows.
#[unsafe(no_mangle)]
pub extern "C" fn fz_value_text(
    book: &mut Book,
    sheet: u32,
    row: u32,
    col: u32,
    room: &mut [u8],
    needed: &mut usize,
) -> u8
    ensures does { Over (AsksFor (op.value (record { sheet = sheet; row = row; col = col })) (λ d. fits (shown_text (value_of d (record { sheet = sheet; row = row; col = col }))) room.old)) book.old.handle.value book.new.handle.value (status_numbered result) }
    ensures wrote { Over (λ old new status. Wrote (λ d. shown_text (value_of d (record { sheet = sheet; row = row; col = col }))) room.old room.new old status) book.old.handle.value book.new.handle.value (status_numbered result) }
    ensures told { Over (λ old new status. Told (λ d. length (shown_text (value_of d (record { sheet = sheet; row = row; col = col })))) needed.old needed.new old status) book.old.handle.value book.new.handle.value (status_numbered result) }
    ensures unwritten { book.old.handle.value ≡ None → room.new ≡ room.old }
    ensures untold { book.old.handle.value ≡ None → needed.new ≡ needed.old }
{
    let Some(mut session) = book.take() else {
        return Status::NotOpen.number();
    };
    let status = session.value_text(Place { sheet, row, col }, room, needed);
    book.put(session);
    status.number()
}

/// What a name shows that the word finds on the sheet.
#[unsafe(no_mangle)]
pub extern "C" fn fz_name_value(
    book: &mut Book,
    name: &[u8],
    sheet: u32,
    room: &mut [u8],
    shown: &mut Shown,
) -> u8
    ensures does { IsUtf8 name.now → Over (AsksFor (op.name_value name.now sheet) (λ d. fits (value_text (name_value_of d name.now sheet)) room.old)) book.old.handle.value book.new.handle.value (status_numbered result) }
    ensures wrote { IsUtf8 name.now → Over (λ old new status. Wrote (λ d. value_text (name_value_of d name.now sheet)) room.old room.new old status) book.old.handle.value book.new.handle.value (status_numbered result) }
    ensures told { IsUtf8 name.now → Over (λ old new status. Told (λ d. shown_value (name_value_of d name.now sheet)) shown.old shown.new old status) book.old.handle.value book.new.handle.value (status_numbered result) }
    ensures unwritten { IsUtf8 name.now → book.old.handle.value ≡ None → room.new ≡ room.old }
    ensures untold { IsUtf8 name.now → book.old.handle.value ≡ None → shown.new ≡ shown.old }
    ensures no_name { ¬ (IsUtf8 name.now) → status_numbered result ≡ NotUtf8 }
    ensures no_name_left { ¬ (IsUtf8 name.now) → book.new.handle.value ≡ book.old.handle.value }
{
    let Ok(name) = str::from_utf8(name) else {
        return Status::NotUtf8.number();
    };
    let Some(mut session) = book.take() else {
        return Status::NotOpen.number();
    };
    let status = session.name_value(name, sheet, room, shown);
    book.put(session);
    status.number()
}

/// What the formula of the text would show in the first cell of the sheet.
#[unsafe(no_mangle)]
pub extern "C" fn fz_try(
    book: &mut Book,
    sheet: u32,
    text: &[u8],
    room: &mut [u8],
    shown: &mut Shown,
) -> u8
    ensures does { IsUtf8 text.now → Over (AsksFor (op.try_formula sheet text.now) (λ d. fits (value_text (tried_value d sheet text.now)) room.old)) book.old.handle.value book.new.handle.value (status_numbered result) }
    ensures wrote { IsUtf8 text.now → Over (λ old new status. Wrote (λ d. value_text (tried_value d sheet text.now)) room.old room.new old status) book.old.handle.value book.new.handle.value (status_numbered result) }
    ensures told { IsUtf8 text.now → Over (λ old new status. Told (λ d. shown_value (tried_value d sheet text.now)) shown.old shown.new old status) book.old.handle.value book.new.handle.value (status_numbered result) }
    ensures unwritten { IsUtf8 text.now → book.old.handle.value ≡ None → room.new ≡ room.old }
    ensures untold { IsUtf8 text.now → book.old.handle.value ≡ None → shown.new ≡ shown.old }
    ensures no_text { ¬ (IsUtf8 text.now) → status_numbered result ≡ NotUtf8 }
    ensures no_text_left { ¬ (IsUtf8 text.now) → book.new.handle.value ≡ book.old.handle.value }
{
    let Ok(text) = str::from_utf8(text) else {
        return Status::NotUtf8.number();
    };
    let Some(mut session) = book.take() else {
        return Status::NotOpen.number();
    };
    let status = session.try_formula(sheet, text, room, shown);
    book.put(session);
    status.number()
}

/// The text of a cell's formula; no bytes where the cell has none.
#[unsafe(no_mangle)]
pub extern "C" fn fz_formula(
    book: &mut Book,
    sheet: u32,
    row: u32,
    col: u32,
    room: &mut [u8],
    needed: &mut usize,
) -> u8
    ensures does { Over (AsksFor (op.formula (record { sheet = sheet; row = row; col = col })) (λ d. fits (text_or_none (formula_of d (record { sheet = sheet; row = row; col = col }))) room.old)) book.old.handle.value book.new.handle.value (status_numbered result) }
    ensures wrote { Over (λ old new status. Wrote (λ d. text_or_none (formula_of d (record { sheet = sheet; row = row; col = col }))) room.old room.new old status) book.old.handle.value book.new.handle.value (status_numbered result) }
    ensures told { Over (λ old new status. Told (λ d. length (text_or_none (formula_of d (record { sheet = sheet; row = row; col = col })))) needed.old needed.new old status) book.old.handle.value book.new.handle.value (status_numbered result) }
    ensures unwritten { book.old.handle.value ≡ None → room.new ≡ room.old }
    ensures untold { book.old.handle.value ≡ None → needed.new ≡ needed.old }
{
    let Some(mut session) = book.take() else {
        return Status::NotOpen.number();
    };
    let status = session.formula(Place { sheet, row, col }, room, needed);
    book.put(session);
    status.number()
}

/// The text that gives a cell its content.
#[unsafe(no_mangle)]
pub extern "C" fn fz_content(
    book: &mut Book,
    sheet: u32,
    row: u32,
    col: u32,
    room: &mut [u8],
    needed: &mut usize,
) -> u8
    ensures does { Over (AsksFor (op.content (record { sheet = sheet; row = row; col = col })) (λ d. fits (content_text d (record { sheet = sheet; row = row; col = col })) room.old)) book.old.handle.value book.new.handle.value (status_numbered result) }
    ensures wrote { Over (λ old new status. Wrote (λ d. content_text d (record { sheet = sheet; row = row; col = col })) room.old room.new old status) book.old.handle.value book.new.handle.value (status_numbered result) }
    ensures told { Over (λ old new status. Told (λ d. length (content_text d (record { sheet = sheet; row = row; col = col }))) needed.old needed.new old status) book.old.handle.value book.new.handle.value (status_numbered result) }
    ensures unwritten { book.old.handle.value ≡ None → room.new ≡ room.old }
    ensures untold { book.old.handle.value ≡ None → needed.new ≡ needed.old }
{
    let Some(mut session) = book.take() else {
        return Status::NotOpen.number();
    };
    let status = session.content(Place { sheet, row, col }, room, needed);
    book.put(session);
    status.number()
}

/// What a cell's formula needs: the links and the words of their names, each in a room.
#[unsafe(no_mangle)]
pub extern "C" fn fz_precedents(
    book: &mut Book,
    sheet: u32,
    row: u32,
    col: u32,
    rows: &mut [LinkRow],
    words: &mut [u8],
    counts: &mut LinkCounts,
) -> u8
    ensures does { Over (AsksFor (op.precedents (record { sheet = sheet; row = row; col = col })) (λ d. fits (link_rows 0 (precedents_of d (record { sheet = sheet; row = row; col = col }))) rows.old && fits (link_words (precedents_of d (record { sheet = sheet; row = row; col = col }))) words.old)) book.old.handle.value book.new.handle.value (status_numbered result) }
    ensures rows { Over (λ old new status. Wrote (λ d. link_rows 0 (precedents_of d (record { sheet = sheet; row = row; col = col }))) rows.old rows.new old status) book.old.handle.value book.new.handle.value (status_numbered result) }
    ensures words { Over (λ old new status. Wrote (λ d. link_words (precedents_of d (record { sheet = sheet; row = row; col = col }))) words.old words.new old status) book.old.handle.value book.new.handle.value (status_numbered result) }
    ensures told { Over (λ old new status. Told (λ d. link_counts (precedents_of d (record { sheet = sheet; row = row; col = col }))) counts.old counts.new old status) book.old.handle.value book.new.handle.value (status_numbered result) }
    ensures no_rows { book.old.handle.value ≡ None → rows.new ≡ rows.old }
    ensures no_words { book.old.handle.value ≡ None → words.new ≡ words.old }
    ensures untold { book.old.handle.value ≡ None → counts.new ≡ counts.old }
{
    let Some(mut session) = book.take() else {
        return Status::NotOpen.number();
    };
    let status = session.precedents(Place { sheet, row, col }, rows, words, counts);
    book.put(session);
    status.number()
}

/// The cells and names whose formulas need a cell.
#[unsafe(no_mangle)]
pub extern "C" fn fz_dependents(
    book: &mut Book,
    sheet: u32,
    row: u32,
    col: u32,
    rows: &mut [LinkRow],
    words: &mut [u8],
    counts: &mut LinkCounts,
) -> u8
    ensures does { Over (AsksFor (op.dependents (record { sheet = sheet; row = row; col = col })) (λ d. fits (link_rows 0 (dependents_of d (record { sheet = sheet; row = row; col = col }))) rows.old && fits (link_words (dependents_of d (record { sheet = sheet; row = row; col = col }))) words.old)) book.old.handle.value book.new.handle.value (status_numbered result) }
    ensures rows { Over (λ old new status. Wrote (λ d. link_rows 0 (dependents_of d (record { sheet = sheet; row = row; col = col }))) rows.old rows.new old status) book.old.handle.value book.new.handle.value (status_numbered result) }
    ensures words { Over (λ old new status. Wrote (λ d. link_words (dependents_of d (record { sheet = sheet; row = row; col = col }))) words.old words.new old status) book.old.handle.value book.new.handle.value (status_numbered result) }
    ensures told { Over (λ old new status. Told (λ d. link_counts (dependents_of d (record { sheet = sheet; row = row; col = col }))) counts.old counts.new old status) book.old.handle.value book.new.handle.value (status_numbered result) }
    ensures no_rows { book.old.handle.value ≡ None → rows.new ≡ rows.old }
    ensures no_words { book.old.handle.value ≡ None → words.new ≡ words.old }
    ensures untold { book.old.handle.value ≡ None → counts.new ≡ counts.old }
{
    let Some(mut session) = book.take() else {
        return Status::NotOpen.number();
    };
    let status = session.dependents(Place { sheet, row, col }, rows, words, counts);
    book.put(session);
    status.number()
}
