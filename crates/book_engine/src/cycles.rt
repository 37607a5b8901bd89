// Which cells are on a cycle.
ghost use Rattle.std.specs.Prelude.{◌≡◌};
ghost use Rattle.book_model.specs.Operation as op;
ghost use Rattle.book_model.specs.Refusals.{cause};
ghost use Rattle.book_model.specs.Workbook.{State};
ghost use Rattle.session_questions.specs.Areas.{cyclic_on_sheet};
ghost use Rattle.session_questions.specs.Turns.{Answered};

use crate::engine::Engine;
use calc_eval::Customs;
use cell_addr::Place;
use session_questions::{Stop, on_cycle};

#[tactic(auto, unfolding(crate::specs::Engine::StandsFor))]
impl<C: Customs> Engine<C> {
    ghost use Rattle.book_engine.specs.Calls.{Stays};
    ghost use Rattle.book_engine.specs.Engine.{StandsFor};
    ghost use Rattle.book_engine.specs.Kept.{KeepsLine};

    /// The cells of a sheet that are on a cycle, row by row: those whose needs lead back to them, so that they show `#CYCLE!` by
    /// themselves. A cell that only reads one of these isn't among them. It is answered while values are suspended too, and nothing is
    /// worked out.
    ///
    /// Costs about the filled cells of the sheet and the links of all that these lead to; before it, once, the links of the formulas
    /// that changed since a value or links were read, which are all where none were.
    ///
    /// # Errors
    /// `NoSheet`.
    pub fn on_cycle(&mut self, sheet: u32) -> Result<Vec<Place>, Stop>
        ensures answered { (d : State) → StandsFor C.customs self.old d → Answered (cause (op.clear_sheet sheet) d) (λ places. places.items ≡ cyclic_on_sheet sheet d) result }
        ensures stays { Stays C.customs self.old self.new }
        ensures line { KeepsLine self.old self.new }
    {
        on_cycle(&mut self.parts, sheet)
    }
}
