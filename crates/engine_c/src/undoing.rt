// Steps of undo, batches, suspended evaluation, and idle time.
ghost use Rattle.std.specs.Prelude.{◌≡◌, None};
ghost use Rattle.book_model.specs.Operation as op;
ghost use Rattle.engine_face.specs.Session.{Asks, AsksAlways, Forgets, SettledTold, Settles, Stays};
ghost use Rattle.engine_face.specs.Status.{status_numbered};
ghost use Rattle.engine_face.specs.declared.status.Status.TheVariants.{Done};
ghost use Rattle.engine_c.specs.Calls.{Over};

use crate::book::Book;
use engine_face::Status;

/// Takes the newest step back.
#[unsafe(no_mangle)]
pub extern "C" fn fz_undo(book: &mut Book) -> u8
    ensures { Over (Asks op.undo) book.old.handle.value book.new.handle.value (status_numbered result) }
{
    let Some(mut session) = book.take() else {
        return Status::NotOpen.number();
    };
    let status = session.undo();
    book.put(session);
    status.number()
}

/// Does the step again that was taken back last.
#[unsafe(no_mangle)]
pub extern "C" fn fz_redo(book: &mut Book) -> u8
    ensures { Over (Asks op.redo) book.old.handle.value book.new.handle.value (status_numbered result) }
{
    let Some(mut session) = book.take() else {
        return Status::NotOpen.number();
    };
    let status = session.redo();
    book.put(session);
    status.number()
}

/// Opens a batch, whose changes are one step.
#[unsafe(no_mangle)]
pub extern "C" fn fz_begin(book: &mut Book) -> u8
    ensures { Over (Asks op.begin) book.old.handle.value book.new.handle.value (status_numbered result) }
{
    let Some(mut session) = book.take() else {
        return Status::NotOpen.number();
    };
    let status = session.begin();
    book.put(session);
    status.number()
}

/// Closes the batch.
#[unsafe(no_mangle)]
pub extern "C" fn fz_commit(book: &mut Book) -> u8
    ensures { Over (Asks op.commit) book.old.handle.value book.new.handle.value (status_numbered result) }
{
    let Some(mut session) = book.take() else {
        return Status::NotOpen.number();
    };
    let status = session.commit();
    book.put(session);
    status.number()
}

/// Stops the computation of values.
#[unsafe(no_mangle)]
pub extern "C" fn fz_suspend(book: &mut Book) -> u8
    ensures does { Over (λ old new status. AsksAlways op.suspend old new) book.old.handle.value book.new.handle.value (status_numbered result) }
    ensures done { Over (λ old new status. status ≡ Done) book.old.handle.value book.new.handle.value (status_numbered result) }
{
    let Some(mut session) = book.take() else {
        return Status::NotOpen.number();
    };
    session.suspend();
    book.put(session);
    Status::Done.number()
}

/// Lets the computation of values go on.
#[unsafe(no_mangle)]
pub extern "C" fn fz_resume(book: &mut Book) -> u8
    ensures does { Over (λ old new status. AsksAlways op.resume old new) book.old.handle.value book.new.handle.value (status_numbered result) }
    ensures done { Over (λ old new status. status ≡ Done) book.old.handle.value book.new.handle.value (status_numbered result) }
{
    let Some(mut session) = book.take() else {
        return Status::NotOpen.number();
    };
    session.resume();
    book.put(session);
    Status::Done.number()
}

/// Forgets the steps that can be undone and done again.
#[unsafe(no_mangle)]
pub extern "C" fn fz_clear_history(book: &mut Book) -> u8
    ensures does { Over (λ old new status. Forgets old new) book.old.handle.value book.new.handle.value (status_numbered result) }
    ensures done { Over (λ old new status. status ≡ Done) book.old.handle.value book.new.handle.value (status_numbered result) }
{
    let Some(mut session) = book.take() else {
        return Status::NotOpen.number();
    };
    session.clear_history();
    book.put(session);
    Status::Done.number()
}

/// Spends idle time on formulas that lag behind, and tells 1 where none is left, else 0.
#[unsafe(no_mangle)]
pub extern "C" fn fz_settle_idle(book: &mut Book, budget: u64, none_left: &mut u32) -> u8
    ensures stays { Over (λ old new status. Stays old new) book.old.handle.value book.new.handle.value (status_numbered result) }
    ensures does { Over (Settles budget) book.old.handle.value book.new.handle.value (status_numbered result) }
    ensures told { Over (λ old new status. SettledTold new none_left.old none_left.new status) book.old.handle.value book.new.handle.value (status_numbered result) }
    ensures untold { book.old.handle.value ≡ None → none_left.new ≡ none_left.old }
{
    let Some(mut session) = book.take() else {
        return Status::NotOpen.number();
    };
    let status = session.settle_idle(budget, none_left);
    book.put(session);
    status.number()
}
