// Named expressions.
ghost use Rattle.std.specs.Prelude.{◌≡◌, IsUtf8};
ghost use Rattle.book_model.specs.Operation as op;
ghost use Rattle.engine_face.specs.Session.{Asks, scope_of};
ghost use Rattle.engine_face.specs.Status.{status_numbered};
ghost use Rattle.engine_face.specs.declared.status.Status.TheVariants.{NotUtf8};
ghost use Rattle.engine_c.specs.Calls.{Over};

use crate::book::Book;
use engine_face::Status;

/// Adds a name with the formula of the text, in the scope of a sheet or of the whole workbook.
#[unsafe(no_mangle)]
pub extern "C" fn fz_add_name(book: &mut Book, name: &[u8], scope: u32, text: &[u8]) -> u8
    ensures does { IsUtf8 name.now → IsUtf8 text.now → Over (Asks (op.add_name name.now (scope_of scope) text.now)) book.old.handle.value book.new.handle.value (status_numbered result) }
    ensures no_name { ¬ (IsUtf8 name.now) → status_numbered result ≡ NotUtf8 }
    ensures no_name_left { ¬ (IsUtf8 name.now) → book.new.handle.value ≡ book.old.handle.value }
    ensures no_text { ¬ (IsUtf8 text.now) → status_numbered result ≡ NotUtf8 }
    ensures no_text_left { ¬ (IsUtf8 text.now) → book.new.handle.value ≡ book.old.handle.value }
{
    let (Ok(name), Ok(text)) = (str::from_utf8(name), str::from_utf8(text)) else {
        return Status::NotUtf8.number();
    };
    let Some(mut session) = book.take() else {
        return Status::NotOpen.number();
    };
    let status = session.add_name(name, scope, text);
    book.put(session);
    status.number()
}

/// Gives a name of the scope another formula.
#[unsafe(no_mangle)]
pub extern "C" fn fz_change_name(book: &mut Book, name: &[u8], scope: u32, text: &[u8]) -> u8
    ensures does { IsUtf8 name.now → IsUtf8 text.now → Over (Asks (op.change_name name.now (scope_of scope) text.now)) book.old.handle.value book.new.handle.value (status_numbered result) }
    ensures no_name { ¬ (IsUtf8 name.now) → status_numbered result ≡ NotUtf8 }
    ensures no_name_left { ¬ (IsUtf8 name.now) → book.new.handle.value ≡ book.old.handle.value }
    ensures no_text { ¬ (IsUtf8 text.now) → status_numbered result ≡ NotUtf8 }
    ensures no_text_left { ¬ (IsUtf8 text.now) → book.new.handle.value ≡ book.old.handle.value }
{
    let (Ok(name), Ok(text)) = (str::from_utf8(name), str::from_utf8(text)) else {
        return Status::NotUtf8.number();
    };
    let Some(mut session) = book.take() else {
        return Status::NotOpen.number();
    };
    let status = session.change_name(name, scope, text);
    book.put(session);
    status.number()
}

/// Takes a name of the scope away.
#[unsafe(no_mangle)]
pub extern "C" fn fz_remove_name(book: &mut Book, name: &[u8], scope: u32) -> u8
    ensures does { IsUtf8 name.now → Over (Asks (op.remove_name name.now (scope_of scope))) book.old.handle.value book.new.handle.value (status_numbered result) }
    ensures no_name { ¬ (IsUtf8 name.now) → status_numbered result ≡ NotUtf8 }
    ensures no_name_left { ¬ (IsUtf8 name.now) → book.new.handle.value ≡ book.old.handle.value }
{
    let Ok(name) = str::from_utf8(name) else {
        return Status::NotUtf8.number();
    };
    let Some(mut session) = book.take() else {
        return Status::NotOpen.number();
    };
    let status = session.remove_name(name, scope);
    book.put(session);
    status.number()
}
