// What is asked of cells and areas: kinds of cells, filled places, and how far a sheet is used.
ghost use Rattle.std.specs.Prelude.{◌≡◌};
ghost use Rattle.std.specs.FinMap as fin;
ghost use Rattle.book_model.specs.Operation as op;
ghost use Rattle.book_model.specs.Refusals.{cause};
ghost use Rattle.book_model.specs.Workbook.{State};
ghost use Rattle.session_questions.specs.Areas.{IsUsedArea, filled_in_block, filled_on_sheet, kind_of};
ghost use Rattle.session_questions.specs.Turns.{Answered};

use crate::engine::Engine;
use calc_eval::Customs;
use cell_addr::{Block, Place};
use session_questions::{Kind, Stop, cell_kind, filled, filled_in, used_area};

#[tactic(auto, unfolding(crate::specs::Engine::StandsFor))]
impl<C: Customs> Engine<C> {
    ghost use Rattle.book_engine.specs.Engine.{StandsFor};

    /// What kind of content a cell has. Costs a look-up.
    ///
    /// # Errors
    /// `NoSheet`, `Outside` where the place isn't within the limits of a sheet.
    pub fn kind(&self, at: Place) -> Result<Kind, Stop>
        ensures { (d : State) → StandsFor C.customs self.now d → Answered (cause (op.content at) d) (λ kind. kind ≡ kind_of (fin.get d.book.cells at)) result }
    {
        cell_kind(&self.parts, at)
    }

    /// The filled places of a block, row by row. Costs about their number and that of the block's rows that hold any cell.
    ///
    /// # Errors
    /// `NoSheet`, `Outside` where the block isn't within the limits of a sheet.
    pub fn filled(&self, area: Block) -> Result<Vec<Place>, Stop>
        ensures { (d : State) → StandsFor C.customs self.now d → Answered (cause (op.copy area) d) (λ places. places.items ≡ filled_in_block area d.book) result }
    {
        filled(&self.parts, area)
    }

    /// The filled places of a sheet, row by row. Costs about their number and that of the rows that hold any cell.
    ///
    /// # Errors
    /// `NoSheet`.
    pub fn filled_in(&self, sheet: u32) -> Result<Vec<Place>, Stop>
        ensures { (d : State) → StandsFor C.customs self.now d → Answered (cause (op.clear_sheet sheet) d) (λ places. places.items ≡ filled_on_sheet sheet d.book) result }
    {
        filled_in(&self.parts, sheet)
    }

    /// The least block that holds all filled cells of a sheet; `None` where it has none. Costs what [`Engine::filled_in`] does, its
    /// memory too.
    ///
    /// # Errors
    /// `NoSheet`.
    pub fn used_area(&self, sheet: u32) -> Result<Option<Block>, Stop>
        ensures { (d : State) → StandsFor C.customs self.now d → Answered (cause (op.clear_sheet sheet) d) (IsUsedArea sheet d.book) result }
    {
        used_area(&self.parts, sheet)
    }
}
