// What the filled cells of a block show, read together.
ghost use Rattle.std.specs.Prelude.{◌≡◌, ◌≤◌, OnOk};
ghost use Rattle.book_model.specs.Workbook.{State};
ghost use Rattle.session_questions.specs.Refreshed.{IsUnmarked};
ghost use Rattle.session_questions.specs.Areas.{values_cause, values_in_block};
ghost use Rattle.session_questions.specs.Turns.{Answered};

use crate::engine::Engine;
use calc_eval::Customs;
use cell_addr::{Block, Place};
use cell_value::Scalar;
use session_questions::{Stop, values};
use std::alloc::Global;
use std::sync::ledger::Ledger;
use steps::Steps;

#[tactic(auto, unfolding(crate::specs::Engine::StandsFor))]
impl<C: Customs> Engine<C> {
    ghost use Rattle.book_engine.specs.Calls.{Stays};
    ghost use Rattle.book_engine.specs.Engine.{StandsFor};
    ghost use Rattle.book_engine.specs.Kept.{KeepsLine, WorksOut, values_kept};

    /// The filled cells of a block with what they show, row by row. What the changes since the last read of a value reach is worked
    /// out first. Then it costs what [`Engine::filled`] does, and for each formula a look-up: a cell that holds a number, a truth value
    /// or a text shows that, which costs no more than to copy it.
    ///
    /// # Errors
    /// `Suspended` where the computation is suspended or a batch is open, `NoSheet`, `Outside` where the block isn't within the limits
    /// of a sheet.
    pub fn values<L: Ledger>(
        &mut self,
        alloc: Global,
        area: Block,
        steps: &mut Steps<L>,
    ) -> Result<Vec<(Place, Scalar)>, Stop>
        ensures answered { (d : State) → StandsFor C.customs self.old d → Answered (values_cause area d) (λ list. list.items ≡ values_in_block area d) result }
        ensures stays { Stays C.customs self.old self.new }
        ensures line { KeepsLine self.old self.new }
        ensures unmarked { OnOk result (IsUnmarked (values_kept self.new)) }
        ensures least { steps.old ≤ steps.new }
        ensures most { WorksOut C.customs self.old steps.old steps.new }
    {
        values(&mut self.parts, alloc, area, &self.customs, self.day, steps)
    }
}
