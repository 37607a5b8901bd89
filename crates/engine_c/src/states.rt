// What a workbook is in, and its list of sheets.
ghost use Rattle.std.specs.Prelude.{◌≡◌, IsUtf8, None, is_none, is_some, false, length, option_map, slice_get, true, unwrap_or, ⊤};
ghost use Rattle.cell_addr.specs.Sheets.{id_in, name_in};
ghost use Rattle.book_engine.specs.Engine.{is_nothing};
ghost use Rattle.book_model.specs.Operation as op;
ghost use Rattle.book_model.specs.Refusals.{cause};
ghost use Rattle.book_model.specs.Workbook.{State};
ghost use Rattle.engine_face.specs.Change.{TellsCause, operation_told};
ghost use Rattle.engine_face.specs.Session.{NameFits, NameTold, Stands};
ghost use Rattle.engine_face.specs.Status.{status_numbered};
ghost use Rattle.engine_face.specs.declared.status.Status.TheVariants.{NotOpen, NotUtf8};
ghost use Rattle.engine_c.specs.Calls.{Of};

use crate::book::Book;
use cell_addr::NO_SHEET;
use engine_face::{ChangeRow, Status};

/// Whether undo would be accepted now; false where nothing is open, as for each such question.
#[unsafe(no_mangle)]
pub extern "C" fn fz_can_undo(book: &mut Book) -> bool
    ensures answer { Of (λ session. (d : State) → Stands session d → result ≡ is_none (cause op.undo d)) (result ≡ false) book.old.handle.value }
    ensures left { book.new.handle.value ≡ book.old.handle.value }
{
    let Some(session) = book.take() else {
        return false;
    };
    let answer = session.can_undo();
    book.put(session);
    answer
}

/// Whether redo would be accepted now.
#[unsafe(no_mangle)]
pub extern "C" fn fz_can_redo(book: &mut Book) -> bool
    ensures answer { Of (λ session. (d : State) → Stands session d → result ≡ is_none (cause op.redo d)) (result ≡ false) book.old.handle.value }
    ensures left { book.new.handle.value ≡ book.old.handle.value }
{
    let Some(session) = book.take() else {
        return false;
    };
    let answer = session.can_redo();
    book.put(session);
    answer
}

/// Whether a batch is open.
#[unsafe(no_mangle)]
pub extern "C" fn fz_has_batch(book: &mut Book) -> bool
    ensures answer { Of (λ session. (d : State) → Stands session d → result ≡ is_some d.batch) (result ≡ false) book.old.handle.value }
    ensures left { book.new.handle.value ≡ book.old.handle.value }
{
    let Some(session) = book.take() else {
        return false;
    };
    let answer = session.has_batch();
    book.put(session);
    answer
}

/// Whether the computation of values is suspended.
#[unsafe(no_mangle)]
pub extern "C" fn fz_is_suspended(book: &mut Book) -> bool
    ensures answer { Of (λ session. (d : State) → Stands session d → result ≡ d.suspended) (result ≡ false) book.old.handle.value }
    ensures left { book.new.handle.value ≡ book.old.handle.value }
{
    let Some(session) = book.take() else {
        return false;
    };
    let answer = session.is_suspended();
    book.put(session);
    answer
}

/// Whether nothing waits to be pasted; true where nothing is open.
#[unsafe(no_mangle)]
pub extern "C" fn fz_is_clipboard_empty(book: &mut Book) -> bool
    ensures answer { Of (λ session. (d : State) → Stands session d → result ≡ is_nothing d.clip) (result ≡ true) book.old.handle.value }
    ensures left { book.new.handle.value ≡ book.old.handle.value }
{
    let Some(session) = book.take() else {
        return true;
    };
    let answer = session.is_clipboard_empty();
    book.put(session);
    answer
}

/// Why the change of these numbers, this name and this text would be refused now: the number of the refusal, or 0.
#[unsafe(no_mangle)]
pub extern "C" fn fz_cause(
    book: &mut Book,
    change: &ChangeRow,
    name: &[u8],
    text: &[u8],
    refusal: &mut u8,
) -> u8
    ensures does { IsUtf8 name.now → IsUtf8 text.now → Of (λ session. TellsCause (operation_told change.now name.now text.now) refusal.old refusal.new session (status_numbered result)) (status_numbered result ≡ NotOpen) book.old.handle.value }
    ensures no_name { ¬ (IsUtf8 name.now) → status_numbered result ≡ NotUtf8 }
    ensures no_name_untold { ¬ (IsUtf8 name.now) → refusal.new ≡ refusal.old }
    ensures no_text { ¬ (IsUtf8 text.now) → status_numbered result ≡ NotUtf8 }
    ensures no_text_untold { ¬ (IsUtf8 text.now) → refusal.new ≡ refusal.old }
    ensures closed { book.old.handle.value ≡ None → refusal.new ≡ refusal.old }
    ensures left { book.new.handle.value ≡ book.old.handle.value }
{
    let (Ok(name), Ok(text)) = (str::from_utf8(name), str::from_utf8(text)) else {
        return Status::NotUtf8.number();
    };
    let Some(session) = book.take() else {
        return Status::NotOpen.number();
    };
    let status = session.cause(change, name, text, refusal);
    book.put(session);
    status.number()
}

/// How many sheets there are; 0 where nothing is open.
#[unsafe(no_mangle)]
pub extern "C" fn fz_sheet_count(book: &mut Book) -> usize
    ensures answer { Of (λ session. (d : State) → Stands session d → result ≡ length d.book.sheets) (result ≡ 0) book.old.handle.value }
    ensures left { book.new.handle.value ≡ book.old.handle.value }
{
    let Some(session) = book.take() else {
        return 0;
    };
    let answer = session.sheet_count();
    book.put(session);
    answer
}

/// The number of the sheet at this place of the list, counted from 0, or the number that no sheet has.
#[unsafe(no_mangle)]
pub extern "C" fn fz_sheet_at(book: &mut Book, index: usize) -> u32
    ensures answer { Of (λ session. (d : State) → Stands session d → result ≡ unwrap_or (option_map (λ s. s.0) (slice_get d.book.sheets index)) NO_SHEET) (result ≡ NO_SHEET) book.old.handle.value }
    ensures left { book.new.handle.value ≡ book.old.handle.value }
{
    let Some(session) = book.take() else {
        return NO_SHEET;
    };
    let answer = session.sheet_at(index);
    book.put(session);
    answer
}

/// The number of the sheet of this name, in any case of its ASCII letters, or the number that no sheet has.
#[unsafe(no_mangle)]
pub extern "C" fn fz_sheet_id(book: &mut Book, name: &[u8]) -> u32
    ensures answer { IsUtf8 name.now → Of (λ session. (d : State) → Stands session d → result ≡ unwrap_or (id_in d.book.sheets name.now) NO_SHEET) (result ≡ NO_SHEET) book.old.handle.value }
    ensures no_name { ¬ (IsUtf8 name.now) → result ≡ NO_SHEET }
    ensures left { book.new.handle.value ≡ book.old.handle.value }
{
    let Ok(name) = str::from_utf8(name) else {
        return NO_SHEET;
    };
    let Some(session) = book.take() else {
        return NO_SHEET;
    };
    let answer = session.sheet_id(name);
    book.put(session);
    answer
}

/// The name of the sheet of this number, in the room.
#[unsafe(no_mangle)]
pub extern "C" fn fz_sheet_name(
    book: &mut Book,
    sheet: u32,
    room: &mut [u8],
    needed: &mut usize,
) -> u8
    ensures wrote { Of (λ session. (d : State) → Stands session d → NameFits (name_in d.book.sheets sheet) room.old room.new (status_numbered result)) (room.new ≡ room.old) book.old.handle.value }
    ensures told { Of (λ session. (d : State) → Stands session d → NameTold (name_in d.book.sheets sheet) needed.old needed.new) (needed.new ≡ needed.old) book.old.handle.value }
    ensures closed { Of (λ session. ⊤) (status_numbered result ≡ NotOpen) book.old.handle.value }
    ensures left { book.new.handle.value ≡ book.old.handle.value }
{
    let Some(session) = book.take() else {
        return Status::NotOpen.number();
    };
    let status = session.sheet_name(sheet, room, needed);
    book.put(session);
    status.number()
}
