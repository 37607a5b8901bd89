// What a session is in: its sheets, its steps, its batch and its clipboard.
ghost use Rattle.std.specs.Prelude.{◌≡◌, is_none, is_some, length, option_map, slice_get};
ghost use Rattle.book_model.specs.Operation as op;
ghost use Rattle.book_model.specs.Refusals.{cause};
ghost use Rattle.book_model.specs.Workbook.{State};
ghost use Rattle.book_engine.specs.Engine.{is_nothing};

use crate::engine::Engine;
use calc_eval::Customs;
use clip_board::Clip;

#[tactic(auto, unfolding(crate::specs::Engine::StandsFor))]
impl<C: Customs> Engine<C> {
    ghost use Rattle.book_engine.specs.Engine.{StandsFor};

    /// How many sheets there are.
    pub fn sheet_count(&self) -> usize
        ensures { (d : State) → StandsFor C.customs self.now d → result ≡ length d.book.sheets }
    {
        self.parts.session.book.names.len()
    }

    /// The number of the sheet at this place of the list, counted from 0; `None` where the list is shorter.
    pub fn sheet_at(&self, index: usize) -> Option<u32>
        ensures { (d : State) → StandsFor C.customs self.now d → result ≡ option_map (λ s. s.0) (slice_get d.book.sheets index) }
    {
        self.parts.session.book.names.sheet_at(index)
    }

    /// Whether [`Engine::undo`] would be accepted now: there is a step, and no batch is open.
    pub fn can_undo(&self) -> bool
        ensures { (d : State) → StandsFor C.customs self.now d → result ≡ is_none (cause op.undo d) }
    {
        self.parts.check_undo().is_ok()
    }

    /// Whether [`Engine::redo`] would be accepted now: a step was undone, and no batch is open.
    pub fn can_redo(&self) -> bool
        ensures { (d : State) → StandsFor C.customs self.now d → result ≡ is_none (cause op.redo d) }
    {
        self.parts.check_redo().is_ok()
    }

    /// Whether a batch is open.
    pub fn has_batch(&self) -> bool
        ensures { (d : State) → StandsFor C.customs self.now d → result ≡ is_some d.batch }
    {
        self.parts.session.batch.is_some()
    }

    /// Whether the computation of values is suspended by [`Engine::suspend`]; an open batch refuses values too.
    pub fn is_suspended(&self) -> bool
        ensures { (d : State) → StandsFor C.customs self.now d → result ≡ d.suspended }
    {
        self.parts.session.suspended
    }

    /// Whether nothing waits to be pasted.
    pub fn is_clipboard_empty(&self) -> bool
        ensures { (d : State) → StandsFor C.customs self.now d → result ≡ is_nothing d.clip }
    {
        match &self.waiting.clip {
            Clip::Nothing => true,
            Clip::Copied(_, _) | Clip::Cut(_) => false,
        }
    }
}
