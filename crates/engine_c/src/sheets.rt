// Sheets, and their numbers and names.
ghost use Rattle.std.specs.Prelude.{◌≡◌, IsUtf8, None};
ghost use Rattle.shift_core.specs.declared.shift.Shift.TheVariants as shifts;
ghost use Rattle.book_model.specs.Operation as op;
ghost use Rattle.engine_face.specs.Session.{Asks, Told};
ghost use Rattle.engine_face.specs.Status.{status_numbered};
ghost use Rattle.engine_face.specs.declared.status.Status.TheVariants.{NotUtf8};
ghost use Rattle.engine_c.specs.Calls.{Over};

use crate::book::Book;
use engine_face::Status;

/// Adds a sheet at the end of the list, and tells its number.
#[unsafe(no_mangle)]
pub extern "C" fn fz_add_sheet(book: &mut Book, name: &[u8], number: &mut u32) -> u8
    ensures does { IsUtf8 name.now → Over (Asks (op.add_sheet name.now)) book.old.handle.value book.new.handle.value (status_numbered result) }
    ensures told { IsUtf8 name.now → Over (λ old new status. Told (λ d. d.next_sheet) number.old number.new old status) book.old.handle.value book.new.handle.value (status_numbered result) }
    ensures untold { IsUtf8 name.now → book.old.handle.value ≡ None → number.new ≡ number.old }
    ensures no_name { ¬ (IsUtf8 name.now) → status_numbered result ≡ NotUtf8 }
    ensures no_name_left { ¬ (IsUtf8 name.now) → book.new.handle.value ≡ book.old.handle.value }
{
    let Ok(name) = str::from_utf8(name) else {
        return Status::NotUtf8.number();
    };
    let Some(mut session) = book.take() else {
        return Status::NotOpen.number();
    };
    let status = session.add_sheet(name, number);
    book.put(session);
    status.number()
}

/// Drops a sheet with its cells and the names of its scope.
#[unsafe(no_mangle)]
pub extern "C" fn fz_drop_sheet(book: &mut Book, sheet: u32) -> u8
    ensures { Over (Asks (op.structural (shifts.DropSheet sheet))) book.old.handle.value book.new.handle.value (status_numbered result) }
{
    let Some(mut session) = book.take() else {
        return Status::NotOpen.number();
    };
    let status = session.drop_sheet(sheet);
    book.put(session);
    status.number()
}

/// Gives a sheet another name.
#[unsafe(no_mangle)]
pub extern "C" fn fz_rename_sheet(book: &mut Book, sheet: u32, name: &[u8]) -> u8
    ensures does { IsUtf8 name.now → Over (Asks (op.rename_sheet sheet name.now)) book.old.handle.value book.new.handle.value (status_numbered result) }
    ensures no_name { ¬ (IsUtf8 name.now) → status_numbered result ≡ NotUtf8 }
    ensures no_name_left { ¬ (IsUtf8 name.now) → book.new.handle.value ≡ book.old.handle.value }
{
    let Ok(name) = str::from_utf8(name) else {
        return Status::NotUtf8.number();
    };
    let Some(mut session) = book.take() else {
        return Status::NotOpen.number();
    };
    let status = session.rename_sheet(sheet, name);
    book.put(session);
    status.number()
}

/// Empties the cells of a sheet.
#[unsafe(no_mangle)]
pub extern "C" fn fz_clear_sheet(book: &mut Book, sheet: u32) -> u8
    ensures { Over (Asks (op.clear_sheet sheet)) book.old.handle.value book.new.handle.value (status_numbered result) }
{
    let Some(mut session) = book.take() else {
        return Status::NotOpen.number();
    };
    let status = session.clear_sheet(sheet);
    book.put(session);
    status.number()
}
