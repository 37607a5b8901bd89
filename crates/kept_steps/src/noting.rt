// What an operation changed becomes a step, or a part of the open batch.
ghost use Rattle.std.specs.Prelude.{◌≡◌, ◌∷◌, [], ◌<◌, IfOk, OnOk, vec_capacity, vec_len};
ghost use Rattle.kept_book.specs.Kept.{change_of};
ghost use Rattle.kept_steps.specs.internal.Noted.{Adds, Closes, HasRoom, Notes, SameBatch};

use crate::entry::Entry;
use kept_book::Part;
use std::alloc::{AllocError, Global};
use undo_book::UndoBook;

// Makes room for what the next operation changes, and answers an empty list with room for it.
pub(crate) fn room(alloc: Global, batch: &mut Option<Entry>) -> Result<Vec<Part>, AllocError>
    ensures list { IfOk result (λ room. (room.items ≡ []) × (vec_len room < vec_capacity room)) }
    ensures room { OnOk result (HasRoom batch.new) }
    ensures batch { SameBatch batch.old batch.new }
{
    if let Some(entry) = batch {
        entry.parts.reserve(1)?;
    }
    Vec::with_capacity(alloc, 1)
}

// Notes what an operation changed. Nothing can be done again afterwards.
pub(crate) fn note(
    steps: &mut UndoBook<Entry>,
    batch: &mut Option<Entry>,
    room: Vec<Part>,
    part: Part,
)
    requires empty { room.items ≡ [] }
    requires list { vec_len room < vec_capacity room }
    requires room { HasRoom batch.old }
    ensures { Notes (change_of part) batch.old steps.old batch.new steps.new }
{
    match batch {
        Some(entry) => {
            entry.parts.push_reserved(part);
            steps.forget_undone();
        }
        None => push_step(steps, room, part),
    }
}

// Adds what an operation changed as a step.
fn push_step(steps: &mut UndoBook<Entry>, mut parts: Vec<Part>, part: Part)
    requires empty { parts.items ≡ [] }
    requires list { vec_len parts < vec_capacity parts }
    ensures { Adds (change_of part ∷ []) steps.old steps.new }
{
    parts.push_reserved(part);
    steps.push(Entry { parts });
}

// Adds what a batch changed as a step, where it changed anything.
pub(crate) fn close(steps: &mut UndoBook<Entry>, batch: Option<Entry>)
    ensures { Closes batch steps.old steps.new }
{
    if let Some(entry) = batch {
        if !entry.parts.is_empty() {
            steps.push(entry);
        }
    }
}
