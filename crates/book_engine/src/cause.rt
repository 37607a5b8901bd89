// Whether a call would be refused, and why, asked beforehand.
ghost use Rattle.std.specs.Prelude.{◌≡◌, ⊤, IfOk, None, Option, is_none, is_some};
ghost use Rattle.book_model.specs.Operation as op;
ghost use Rattle.book_model.specs.Refusals.{cause};
ghost use Rattle.book_model.specs.Workbook.{State};
ghost use Rattle.book_model.specs.declared.refusal.Refusal.{Refusal as RefusalSeen};
ghost use Rattle.session_questions.specs.Turns.{Answered};
ghost use Rattle.book_engine.specs.Cause.{operation_of};
ghost use Rattle.session_questions.specs.Seen.{Fits, clip_of, state_of, with_clipboard};

use crate::engine::Engine;
use book_model::Refusal;
use calc_eval::Customs;
use cell_addr::{Block, Place};
use clip_board::Clip;
use session_questions::{Parts, Stop, Waiting};
use shift_core::Shift;
use std::alloc::AllocError;

/// A call that [`Engine::cause`] is asked about: each one that changes a workbook, and those of the clipboard, of batches and of
/// steps that can be refused.
#[derive(Clone, Copy, Debug)]
pub enum Change<'a> {
    /// [`Engine::set`].
    Set {
        at: Place,
        text: &'a str,
    },
    /// [`Engine::clear`].
    Clear {
        area: Block,
    },
    /// Rows or columns that are put in, deleted or moved, a moved block, a dropped sheet.
    Structural(Shift),
    /// [`Engine::add_sheet`].
    AddSheet {
        name: &'a str,
    },
    /// [`Engine::rename_sheet`].
    RenameSheet {
        sheet: u32,
        name: &'a str,
    },
    /// [`Engine::clear_sheet`].
    ClearSheet {
        sheet: u32,
    },
    /// [`Engine::add_name`].
    AddName {
        name: &'a str,
        scope: Option<u32>,
        text: &'a str,
    },
    /// [`Engine::change_name`].
    ChangeName {
        name: &'a str,
        scope: Option<u32>,
        text: &'a str,
    },
    /// [`Engine::remove_name`].
    RemoveName {
        name: &'a str,
        scope: Option<u32>,
    },
    /// [`Engine::copy`].
    Copy {
        area: Block,
    },
    /// [`Engine::cut`].
    Cut {
        area: Block,
    },
    /// [`Engine::paste`] of what waits now.
    Paste {
        at: Place,
    },
    /// [`Engine::begin`].
    Begin,
    /// [`Engine::commit`].
    Commit,
    /// [`Engine::undo`].
    Undo,
    /// [`Engine::redo`].
    Redo,
}

#[tactic(auto, unfolding(crate::specs::Engine::StandsFor))]
impl<C: Customs> Engine<C> {
    ghost use Rattle.book_engine.specs.Engine.{StandsFor};

    /// Why the call would be refused now: the first cause of its line in the table of refusals, by the very tests that the call
    /// makes. `None` where it would be accepted, which it is unless there is no memory for it. Nothing changes, no step comes, and an
    /// open batch stays.
    ///
    /// Costs what those tests cost: look-ups; of the text of a name its reading; of rows and columns that are put in what
    /// [`Engine::insert_rows`] looks at before it does anything; of a paste after a copy the copied cells and the filled ones of the
    /// block there. Errs for want of memory, which only the last one and a name's text take.
    pub fn cause(&self, change: &Change<'_>) -> Result<Option<Refusal>, AllocError>
        ensures { (d : State) → StandsFor C.customs self.now d → IfOk result (λ why. why ≡ cause (operation_of change.now) d) }
    {
        why(check(&self.parts, &self.waiting, change))
    }
}

// Why a test stopped, if it did.
fn why(end: Result<(), Stop>) -> Result<Option<Refusal>, AllocError>
    ensures { (cause : Option RefusalSeen) → Answered cause (λ x. ⊤) end → IfOk result (λ why. why ≡ cause) }
{
    match end {
        Ok(()) => Ok(None),
        Err(Stop::Refused(refusal)) => Ok(Some(refusal)),
        Err(Stop::NoMemory) => Err(AllocError),
    }
}

// Tests whether the call is refused, where this waits to be pasted.
fn check(parts: &Parts, waiting: &Waiting, change: &Change<'_>) -> Result<(), Stop>
    requires { Fits parts.now }
    ensures { Answered (cause (operation_of change.now) (with_clipboard (clip_of waiting.now.clip) (state_of parts.now))) (λ x. ⊤) result }
{
    match change {
        Change::Set { at, text } => parts.check_set(*at, text)?,
        Change::Structural(s) => parts.check_structural(s)?,
        Change::Clear { area } | Change::Copy { area } | Change::Cut { area } => {
            parts.check_clear(*area)?;
        }
        Change::AddSheet { name } => parts.check_add(name)?,
        Change::RenameSheet { sheet, name } => parts.check_rename(*sheet, name)?,
        Change::ClearSheet { sheet } => parts.check_sheet(*sheet)?,
        Change::AddName { name, scope, text } => parts.check_added(name, *scope, text)?,
        Change::ChangeName { name, scope, text } => parts.check_changed(name, *scope, text)?,
        Change::RemoveName { name, scope } => parts.check_known_name(name, *scope)?,
        Change::Paste { at } => check_waiting(parts, waiting, *at)?,
        Change::Begin => parts.check_begin()?,
        Change::Commit => parts.check_commit()?,
        Change::Undo => parts.check_undo()?,
        Change::Redo => parts.check_redo()?,
    }
    Ok(())
}

// Where what waits is pasted.
fn check_waiting(parts: &Parts, waiting: &Waiting, at: Place) -> Result<(), Stop>
    requires { Fits parts.now }
    ensures { Answered (cause (op.paste at) (with_clipboard (clip_of waiting.now.clip) (state_of parts.now))) (λ x. ⊤) result }
{
    match &waiting.clip {
        Clip::Nothing => return Err(Stop::Refused(Refusal::NothingToPaste)),
        Clip::Copied(area, cells) => parts.check_copied(*area, cells.items(), at)?,
        Clip::Cut(area) => parts.check_structural(&Shift::MoveBlock {
            source: *area,
            to: at,
        })?,
    }
    Ok(())
}
