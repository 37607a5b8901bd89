// What is copied, cut and pasted.
ghost use Rattle.std.specs.Prelude.{◌≡◌};
ghost use Rattle.book_model.specs.Operation as op;
ghost use Rattle.engine_face.specs.Session.{Asks, Clears};
ghost use Rattle.engine_face.specs.Status.{status_numbered};
ghost use Rattle.engine_face.specs.declared.status.Status.TheVariants.{Done};
ghost use Rattle.engine_c.specs.Calls.{Over};

use crate::book::Book;
use cell_addr::{Block, Place};
use engine_face::Status;

/// Copies a block, which then waits to be pasted.
#[unsafe(no_mangle)]
pub extern "C" fn fz_copy(
    book: &mut Book,
    sheet: u32,
    top: u32,
    left: u32,
    bottom: u32,
    right: u32,
) -> u8
    ensures { Over (Asks (op.copy (record { sheet = sheet; top = top; left = left; bottom = bottom; right = right }))) book.old.handle.value book.new.handle.value (status_numbered result) }
{
    let Some(mut session) = book.take() else {
        return Status::NotOpen.number();
    };
    let status = session.copy(Block {
        sheet,
        top,
        left,
        bottom,
        right,
    });
    book.put(session);
    status.number()
}

/// Cuts a block, which is moved where it is pasted.
#[unsafe(no_mangle)]
pub extern "C" fn fz_cut(
    book: &mut Book,
    sheet: u32,
    top: u32,
    left: u32,
    bottom: u32,
    right: u32,
) -> u8
    ensures { Over (Asks (op.cut (record { sheet = sheet; top = top; left = left; bottom = bottom; right = right }))) book.old.handle.value book.new.handle.value (status_numbered result) }
{
    let Some(mut session) = book.take() else {
        return Status::NotOpen.number();
    };
    let status = session.cut(Block {
        sheet,
        top,
        left,
        bottom,
        right,
    });
    book.put(session);
    status.number()
}

/// Pastes what waits, its first cell at a place.
#[unsafe(no_mangle)]
pub extern "C" fn fz_paste(book: &mut Book, sheet: u32, row: u32, col: u32) -> u8
    ensures { Over (Asks (op.paste (record { sheet = sheet; row = row; col = col }))) book.old.handle.value book.new.handle.value (status_numbered result) }
{
    let Some(mut session) = book.take() else {
        return Status::NotOpen.number();
    };
    let status = session.paste(Place { sheet, row, col });
    book.put(session);
    status.number()
}

/// Empties the clipboard.
#[unsafe(no_mangle)]
pub extern "C" fn fz_clear_clipboard(book: &mut Book) -> u8
    ensures does { Over (λ old new status. Clears old new) book.old.handle.value book.new.handle.value (status_numbered result) }
    ensures done { Over (λ old new status. status ≡ Done) book.old.handle.value book.new.handle.value (status_numbered result) }
{
    let Some(mut session) = book.take() else {
        return Status::NotOpen.number();
    };
    session.clear_clipboard();
    book.put(session);
    Status::Done.number()
}
