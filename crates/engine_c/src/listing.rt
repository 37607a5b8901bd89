// Names that are listed, their texts, and what the text of a formula is, uses, and where it goes wrong.
ghost use Rattle.std.specs.Prelude.{◌≡◌, ◌&&◌, IsUtf8, None, length, true};
ghost use Rattle.book_model.specs.Operation as op;
ghost use Rattle.book_model.specs.Refusals.{cause};
ghost use Rattle.book_engine.specs.Formulas.{text_cause, untold_cause};
ghost use Rattle.engine_face.specs.Areas.{SaysWrong};
ghost use Rattle.engine_face.specs.Lists.{all_rows, all_words, list_sizes, text_of_formula, text_of_name, used_rows, used_words};
ghost use Rattle.engine_face.specs.Session.{Finds, Tells, Told, Wrote, scope_of};
ghost use Rattle.engine_face.specs.Shown.{fits};
ghost use Rattle.engine_face.specs.Status.{status_numbered};
ghost use Rattle.engine_face.specs.declared.status.Status.TheVariants.{NotUtf8};
ghost use Rattle.engine_c.specs.Calls.{Over};

use crate::book::Book;
use engine_face::{ListSizes, NameRow, Status, WrongPart};

/// All names: the names and their words, each in a room.
#[unsafe(no_mangle)]
pub extern "C" fn fz_names(
    book: &mut Book,
    rows: &mut [NameRow],
    words: &mut [u8],
    sizes: &mut ListSizes,
) -> u8
    ensures does { Over (Finds (λ d. None) (λ d. fits (all_rows d) rows.old && fits (all_words d) words.old)) book.old.handle.value book.new.handle.value (status_numbered result) }
    ensures rows { Over (λ old new status. Wrote all_rows rows.old rows.new old status) book.old.handle.value book.new.handle.value (status_numbered result) }
    ensures words { Over (λ old new status. Wrote all_words words.old words.new old status) book.old.handle.value book.new.handle.value (status_numbered result) }
    ensures told { Over (λ old new status. Told (λ d. list_sizes (all_rows d) (all_words d)) sizes.old sizes.new old status) book.old.handle.value book.new.handle.value (status_numbered result) }
    ensures no_rows { book.old.handle.value ≡ None → rows.new ≡ rows.old }
    ensures no_words { book.old.handle.value ≡ None → words.new ≡ words.old }
    ensures untold { book.old.handle.value ≡ None → sizes.new ≡ sizes.old }
{
    let Some(session) = book.take() else {
        return Status::NotOpen.number();
    };
    let status = session.names(rows, words, sizes);
    book.put(session);
    status.number()
}

/// The text of the formula of a scope's own name.
#[unsafe(no_mangle)]
pub extern "C" fn fz_name_text(
    book: &mut Book,
    name: &[u8],
    scope: u32,
    room: &mut [u8],
    needed: &mut usize,
) -> u8
    ensures does { IsUtf8 name.now → Over (Finds (cause (op.remove_name name.now (scope_of scope))) (λ d. fits (text_of_name (scope_of scope) name.now d) room.old)) book.old.handle.value book.new.handle.value (status_numbered result) }
    ensures wrote { IsUtf8 name.now → Over (λ old new status. Wrote (text_of_name (scope_of scope) name.now) room.old room.new old status) book.old.handle.value book.new.handle.value (status_numbered result) }
    ensures told { IsUtf8 name.now → Over (λ old new status. Told (λ d. length (text_of_name (scope_of scope) name.now d)) needed.old needed.new old status) book.old.handle.value book.new.handle.value (status_numbered result) }
    ensures unwritten { book.old.handle.value ≡ None → room.new ≡ room.old }
    ensures untold { book.old.handle.value ≡ None → needed.new ≡ needed.old }
    ensures no_name { ¬ (IsUtf8 name.now) → status_numbered result ≡ NotUtf8 }
    ensures no_name_left { ¬ (IsUtf8 name.now) → book.new.handle.value ≡ book.old.handle.value }
    ensures no_name_unwritten { ¬ (IsUtf8 name.now) → room.new ≡ room.old }
    ensures no_name_untold { ¬ (IsUtf8 name.now) → needed.new ≡ needed.old }
{
    let Ok(name) = str::from_utf8(name) else {
        return Status::NotUtf8.number();
    };
    let Some(mut session) = book.take() else {
        return Status::NotOpen.number();
    };
    let status = session.name_text(name, scope, room, needed);
    book.put(session);
    status.number()
}

/// The canonical text of the formula of a text.
#[unsafe(no_mangle)]
pub extern "C" fn fz_normal_text(
    book: &mut Book,
    sheet: u32,
    text: &[u8],
    room: &mut [u8],
    needed: &mut usize,
) -> u8
    ensures does { IsUtf8 text.now → Over (Finds (λ d. text_cause d.book sheet text.now) (λ d. fits (text_of_formula sheet text.now d) room.old)) book.old.handle.value book.new.handle.value (status_numbered result) }
    ensures wrote { IsUtf8 text.now → Over (λ old new status. Wrote (text_of_formula sheet text.now) room.old room.new old status) book.old.handle.value book.new.handle.value (status_numbered result) }
    ensures told { IsUtf8 text.now → Over (λ old new status. Told (λ d. length (text_of_formula sheet text.now d)) needed.old needed.new old status) book.old.handle.value book.new.handle.value (status_numbered result) }
    ensures unwritten { book.old.handle.value ≡ None → room.new ≡ room.old }
    ensures untold { book.old.handle.value ≡ None → needed.new ≡ needed.old }
    ensures no_text { ¬ (IsUtf8 text.now) → status_numbered result ≡ NotUtf8 }
    ensures no_text_left { ¬ (IsUtf8 text.now) → book.new.handle.value ≡ book.old.handle.value }
    ensures no_text_unwritten { ¬ (IsUtf8 text.now) → room.new ≡ room.old }
    ensures no_text_untold { ¬ (IsUtf8 text.now) → needed.new ≡ needed.old }
{
    let Ok(text) = str::from_utf8(text) else {
        return Status::NotUtf8.number();
    };
    let Some(mut session) = book.take() else {
        return Status::NotOpen.number();
    };
    let status = session.normal_text(sheet, text, room, needed);
    book.put(session);
    status.number()
}

/// Where a text stops being a formula.
#[unsafe(no_mangle)]
pub extern "C" fn fz_parse_error(
    book: &mut Book,
    sheet: u32,
    text: &[u8],
    part: &mut WrongPart,
) -> u8
    ensures does { IsUtf8 text.now → Over (Finds (λ d. untold_cause d.book sheet text.now) (λ d. true)) book.old.handle.value book.new.handle.value (status_numbered result) }
    ensures told { IsUtf8 text.now → Over (λ old new status. Tells (λ d. SaysWrong text.now) part.old part.new old status) book.old.handle.value book.new.handle.value (status_numbered result) }
    ensures untold { book.old.handle.value ≡ None → part.new ≡ part.old }
    ensures no_text { ¬ (IsUtf8 text.now) → status_numbered result ≡ NotUtf8 }
    ensures no_text_left { ¬ (IsUtf8 text.now) → book.new.handle.value ≡ book.old.handle.value }
    ensures no_text_untold { ¬ (IsUtf8 text.now) → part.new ≡ part.old }
{
    let Ok(text) = str::from_utf8(text) else {
        return Status::NotUtf8.number();
    };
    let Some(session) = book.take() else {
        return Status::NotOpen.number();
    };
    let status = session.parse_error(sheet, text, part);
    book.put(session);
    status.number()
}

/// The words that the formula of a text uses as names, of which no scope is told.
#[unsafe(no_mangle)]
pub extern "C" fn fz_names_in(
    book: &mut Book,
    sheet: u32,
    text: &[u8],
    rows: &mut [NameRow],
    words: &mut [u8],
    sizes: &mut ListSizes,
) -> u8
    ensures does { IsUtf8 text.now → Over (Finds (λ d. text_cause d.book sheet text.now) (λ d. fits (used_rows sheet text.now d) rows.old && fits (used_words sheet text.now d) words.old)) book.old.handle.value book.new.handle.value (status_numbered result) }
    ensures rows { IsUtf8 text.now → Over (λ old new status. Wrote (used_rows sheet text.now) rows.old rows.new old status) book.old.handle.value book.new.handle.value (status_numbered result) }
    ensures words { IsUtf8 text.now → Over (λ old new status. Wrote (used_words sheet text.now) words.old words.new old status) book.old.handle.value book.new.handle.value (status_numbered result) }
    ensures told { IsUtf8 text.now → Over (λ old new status. Told (λ d. list_sizes (used_rows sheet text.now d) (used_words sheet text.now d)) sizes.old sizes.new old status) book.old.handle.value book.new.handle.value (status_numbered result) }
    ensures no_rows { book.old.handle.value ≡ None → rows.new ≡ rows.old }
    ensures no_words { book.old.handle.value ≡ None → words.new ≡ words.old }
    ensures untold { book.old.handle.value ≡ None → sizes.new ≡ sizes.old }
    ensures no_text { ¬ (IsUtf8 text.now) → status_numbered result ≡ NotUtf8 }
    ensures no_text_left { ¬ (IsUtf8 text.now) → book.new.handle.value ≡ book.old.handle.value }
    ensures no_text_rows { ¬ (IsUtf8 text.now) → rows.new ≡ rows.old }
    ensures no_text_words { ¬ (IsUtf8 text.now) → words.new ≡ words.old }
    ensures no_text_untold { ¬ (IsUtf8 text.now) → sizes.new ≡ sizes.old }
{
    let Ok(text) = str::from_utf8(text) else {
        return Status::NotUtf8.number();
    };
    let Some(mut session) = book.take() else {
        return Status::NotOpen.number();
    };
    let status = session.names_in(sheet, text, rows, words, sizes);
    book.put(session);
    status.number()
}
