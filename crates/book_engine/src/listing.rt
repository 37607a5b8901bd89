// Named expressions that are listed, and their texts.
ghost use Rattle.std.specs.Prelude.{◌≡◌, IfOk, Some};
ghost use Rattle.book_values.specs.Names.{key_of};
ghost use Rattle.book_model.specs.Operation as op;
ghost use Rattle.book_model.specs.Refusals.{cause};
ghost use Rattle.book_model.specs.Workbook.{State};
ghost use Rattle.session_questions.specs.Areas.{entries_of, name_text_of};
ghost use Rattle.session_questions.specs.Turns.{Answered};

use crate::engine::Engine;
use calc_eval::Customs;
use cell_addr::Text;
use session_questions::{NameEntry, Stop, name_text, names_listed};
use std::alloc::AllocError;

#[tactic(auto, unfolding(crate::specs::Engine::StandsFor))]
impl<C: Customs> Engine<C> {
    ghost use Rattle.book_engine.specs.Engine.{StandsFor};
    ghost use Rattle.book_engine.specs.Kept.{KeepsLine, KeepsValues};

    /// All named expressions: those of the whole workbook, then those of each sheet by its number, which is the order of the list
    /// of sheets; within a scope by the bytes of the names in capitals. Costs the sorting of them.
    pub fn names_listed(&self) -> Result<Vec<NameEntry>, AllocError>
        ensures { IfOk result (λ list. (d : State) → StandsFor C.customs self.now d → list.items ≡ entries_of d.book) }
    {
        names_listed(&self.parts)
    }

    /// The canonical text of the expression of the scope's own name, in any case of its ASCII letters: what [`Engine::add_name`] and
    /// [`Engine::change_name`] can be given. Costs what [`Engine::formula`] does, and a look-up of the name.
    ///
    /// # Errors
    /// `NoSheet` for a scope that doesn't exist, `NoSuchName` where the scope hasn't the name.
    pub fn name_text(&mut self, name: &str, scope: Option<u32>) -> Result<Text, Stop>
        ensures answered { (d : State) → StandsFor C.customs self.old d → Answered (cause (op.remove_name name.now scope) d) (λ text. name_text_of d.book (key_of scope name.now) ≡ Some text) result }
        ensures stays { (d : State) → StandsFor C.customs self.old d → StandsFor C.customs self.new d }
        ensures line { KeepsLine self.old self.new }
        ensures values { KeepsValues self.old self.new }
    {
        name_text(&mut self.parts, name, scope)
    }
}
