// Cells that are given a number, a truth value or a text, as it is.
ghost use Rattle.cell_addr.specs.Place.{same_place};
ghost use Rattle.cell_value.specs.Scalar.{truth_text};
ghost use Rattle.fix_num.specs.Text.{text_of};
ghost use Rattle.book_model.specs.Content.{text_given};
ghost use Rattle.book_model.specs.Operation as op;
ghost use Rattle.session_questions.specs.Turns.{NoAnswer};

use crate::engine::Engine;
use calc_eval::Customs;
use cell_addr::Place;
use fix_num::Fixed;
use session_questions::Stop;

#[tactic(auto, unfolding(crate::specs::Engine::StandsFor))]
impl<C: Customs> Engine<C> {
    ghost use Rattle.book_engine.specs.Engine.{Does};
    ghost use Rattle.book_engine.specs.Kept.{KeepsInUse, MarksCells};

    /// Gives a cell a number, as [`Engine::set`] does with the number's text, which is neither made nor read. Costs look-ups, with
    /// the logarithm of the number of filled cells.
    ///
    /// # Errors
    /// `NoSheet`, `Outside` where the place isn't within the limits of a sheet, `CellLimit` where more than 1,000,000 cells
    /// would be filled; the first that holds.
    pub fn set_number(&mut self, at: Place, number: Fixed) -> Result<(), Stop>
        ensures does { Does C.customs (op.set at (text_of number)) NoAnswer self.old self.new result }
        ensures kept { KeepsInUse self.old self.new }
        ensures marks { MarksCells (same_place at) self.old self.new }
    {
        self.parts.set_number(at, number)?;
        self.waiting.clear_cut();
        Ok(())
    }

    /// Gives a cell a truth value, likewise. Its errors are those of [`Engine::set_number`].
    pub fn set_truth(&mut self, at: Place, truth: bool) -> Result<(), Stop>
        ensures does { Does C.customs (op.set at (truth_text truth)) NoAnswer self.old self.new result }
        ensures kept { KeepsInUse self.old self.new }
        ensures marks { MarksCells (same_place at) self.old self.new }
    {
        self.parts.set_truth(at, truth)?;
        self.waiting.clear_cut();
        Ok(())
    }

    /// Gives a cell this text, whatever it looks like: `007` stays three characters, `=A1` is no formula, and an apostrophe in front is
    /// part of it. It does what [`Engine::set`] does with the text that [`Engine::content`] answers then, in which an apostrophe
    /// stands in front where the text needs one. The text is copied once and isn't read; one of just 8,192 bytes is read, since the
    /// apostrophe counts.
    ///
    /// # Errors
    /// `NoSheet`, `Outside` where the place isn't within the limits of a sheet, `TextLimit` where the text with the apostrophe that
    /// it needs has more than 8,192 bytes, `CellLimit` where more than 1,000,000 cells would be filled; the first that holds.
    pub fn set_text(&mut self, at: Place, text: &str) -> Result<(), Stop>
        ensures does { Does C.customs (op.set at (text_given text.now)) NoAnswer self.old self.new result }
        ensures kept { KeepsInUse self.old self.new }
        ensures marks { MarksCells (same_place at) self.old self.new }
    {
        self.parts.set_text(at, text)?;
        self.waiting.clear_cut();
        Ok(())
    }
}
