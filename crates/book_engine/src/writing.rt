// Many cells that are given what texts say, all of them or none.
ghost use Rattle.book_model.specs.Changes.{HaveDistinctPlaces};
ghost use Rattle.book_model.specs.Operation as op;
ghost use Rattle.session_questions.specs.Touched.{is_place_of};
ghost use Rattle.session_questions.specs.Turns.{NoAnswer};

use crate::engine::Engine;
use calc_eval::Customs;
use cell_addr::{Place, Text};
use session_questions::Stop;

#[tactic(auto, unfolding(crate::specs::Engine::StandsFor))]
impl<C: Customs> Engine<C> {
    ghost use Rattle.book_engine.specs.Engine.{Does};
    ghost use Rattle.book_engine.specs.Kept.{KeepsInUse, MarksCells};

    /// Gives each of these cells the content that its text says, as one change: one step of undo, which lists what these cells
    /// held. No cell is listed twice. Where one text is refused all cells stay as they were. Costs the lengths of the texts, and
    /// for each cell the logarithm of the number of filled cells.
    ///
    /// # Errors
    /// `NoSheet`, `Outside` where a place isn't within the limits of a sheet, of the first place that has one of them; then
    /// `TextLimit` where a text has more than 8,192 bytes, and `CellLimit` where more than 1,000,000 cells would be filled.
    pub fn write_all(&mut self, cells: &[(Place, Text)]) -> Result<(), Stop>
        requires distinct { HaveDistinctPlaces cells.now }
        ensures does { Does C.customs (op.write_all cells.now) NoAnswer self.old self.new result }
        ensures kept { KeepsInUse self.old self.new }
        ensures marks { MarksCells (is_place_of (λ e. e.0) cells.now) self.old self.new }
    {
        self.parts.write_all(cells)?;
        self.waiting.clear_cut();
        Ok(())
    }
}
