// What a session is in, its sheets and their names.
ghost use Rattle.std.specs.Prelude.{◌≡◌, is_none, is_some, length, option_map, slice_get, unwrap_or};
ghost use Rattle.cell_addr.specs.Sheets.{id_in, name_in};
ghost use Rattle.cell_addr.specs.declared.place.TheConstants.{NO_SHEET};
ghost use Rattle.book_engine.specs.Engine.{is_nothing};
ghost use Rattle.book_model.specs.Operation as op;
ghost use Rattle.book_model.specs.Refusals.{cause};
ghost use Rattle.book_model.specs.Workbook.{State};

use crate::room::tell;
use crate::session::Session;
use crate::status::Status;
use book_model::Refusal;
use cell_addr::NO_SHEET;

impl Session {
    ghost use Rattle.engine_face.specs.Session.{NameFits, NameTold, Stands};

    /// Whether undo would be accepted now, as [`Engine::can_undo`].
    pub fn can_undo(&self) -> bool
        ensures { (d : State) → Stands self.now d → result ≡ is_none (cause op.undo d) }
    {
        self.engine.can_undo()
    }

    /// Whether redo would be accepted now, as [`Engine::can_redo`].
    pub fn can_redo(&self) -> bool
        ensures { (d : State) → Stands self.now d → result ≡ is_none (cause op.redo d) }
    {
        self.engine.can_redo()
    }

    /// Whether a batch is open, as [`Engine::has_batch`].
    pub fn has_batch(&self) -> bool
        ensures { (d : State) → Stands self.now d → result ≡ is_some d.batch }
    {
        self.engine.has_batch()
    }

    /// Whether the computation of values is suspended, as [`Engine::is_suspended`].
    pub fn is_suspended(&self) -> bool
        ensures { (d : State) → Stands self.now d → result ≡ d.suspended }
    {
        self.engine.is_suspended()
    }

    /// Whether nothing waits to be pasted, as [`Engine::is_clipboard_empty`].
    pub fn is_clipboard_empty(&self) -> bool
        ensures { (d : State) → Stands self.now d → result ≡ is_nothing d.clip }
    {
        self.engine.is_clipboard_empty()
    }

    /// How many sheets there are, as [`Engine::sheet_count`].
    pub fn sheet_count(&self) -> usize
        ensures { (d : State) → Stands self.now d → result ≡ length d.book.sheets }
    {
        self.engine.sheet_count()
    }

    /// The number of the sheet at this place of the list, as [`Engine::sheet_at`]; [`NO_SHEET`] where the list is shorter.
    pub fn sheet_at(&self, index: usize) -> u32
        ensures { (d : State) → Stands self.now d → result ≡ unwrap_or (option_map (λ s. s.0) (slice_get d.book.sheets index)) NO_SHEET }
    {
        self.engine.sheet_at(index).unwrap_or(NO_SHEET)
    }

    /// The number of the sheet of this name, as [`Engine::sheet_id`]; [`NO_SHEET`] where no sheet has it.
    pub fn sheet_id(&self, name: &str) -> u32
        ensures { (d : State) → Stands self.now d → result ≡ unwrap_or (id_in d.book.sheets name.now) NO_SHEET }
    {
        self.engine.sheet_id(name).unwrap_or(NO_SHEET)
    }

    /// The name of the sheet of this number, as [`Engine::sheet_name`]: refused with `NoSheet` where there is none.
    pub fn sheet_name(&self, sheet: u32, room: &mut [u8], needed: &mut usize) -> Status
        ensures wrote { (d : State) → Stands self.now d → NameFits (name_in d.book.sheets sheet) room.old room.new result }
        ensures told { (d : State) → Stands self.now d → NameTold (name_in d.book.sheets sheet) needed.old needed.new }
    {
        match self.engine.sheet_name(sheet) {
            Some(name) => tell(name.as_bytes(), room, needed),
            None => Status::Refused(Refusal::NoSheet),
        }
    }
}
