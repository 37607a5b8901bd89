// Formulas as such, which no cell holds: their canonical texts, the names that they use, and where their texts go wrong.
ghost use Rattle.std.specs.Prelude.{◌≡◌, Some};
ghost use Rattle.book_model.specs.Workbook.{State};
ghost use Rattle.session_questions.specs.Turns.{Answered};
ghost use Rattle.session_questions.specs.Formulas.{TellsWrong, names_used_of, normal_text_of, text_cause, untold_cause};

use crate::engine::Engine;
use calc_eval::Customs;
use cell_addr::Text;
use formula_parse::TextSpan;
use session_questions::{Stop, names_in, normal_text, wrong_span};

#[tactic(auto, unfolding(crate::specs::Engine::StandsFor))]
impl<C: Customs> Engine<C> {
    ghost use Rattle.book_engine.specs.Engine.{StandsFor};
    ghost use Rattle.book_engine.specs.Kept.{KeepsAll, KeepsLine, KeepsValues};

    /// The canonical text of the formula that the text spells on the sheet: what [`Engine::formula`] answers of a cell of the
    /// sheet that is given the text. No cell is touched, and it is answered while values are suspended too. Costs about the bytes of
    /// both texts.
    ///
    /// # Errors
    /// `NoSheet`, `TextLimit` past 8,192 bytes, `BadFormula` where the text is no formula; the first that holds.
    pub fn normal_text(&mut self, sheet: u32, text: &str) -> Result<Text, Stop>
        ensures answered { (d : State) → StandsFor C.customs self.old d → Answered (text_cause d.book sheet text.now) (λ shown. normal_text_of d.book sheet text.now ≡ Some shown) result }
        ensures stays { (d : State) → StandsFor C.customs self.old d → StandsFor C.customs self.new d }
        ensures line { KeepsLine self.old self.new }
        ensures kept { KeepsAll self.old self.new }
        ensures values { KeepsValues self.old self.new }
    {
        normal_text(&mut self.parts, sheet, text)
    }

    /// The names that the formula of the text uses, in capitals, in the order of the formula, each once; whether or not there are such
    /// named expressions. Of a word that is listed the sheet's own name is meant where it has one, and else the whole workbook's.
    /// Costs about the bytes of the text, and each word is compared with those listed before it. It is answered while values are
    /// suspended too.
    ///
    /// # Errors
    /// Those of [`Engine::normal_text`].
    pub fn names_in(&mut self, sheet: u32, text: &str) -> Result<Vec<Text>, Stop>
        ensures answered { (d : State) → StandsFor C.customs self.old d → Answered (text_cause d.book sheet text.now) (λ words. names_used_of d.book sheet text.now ≡ Some words.items) result }
        ensures stays { (d : State) → StandsFor C.customs self.old d → StandsFor C.customs self.new d }
        ensures line { KeepsLine self.old self.new }
        ensures kept { KeepsAll self.old self.new }
        ensures values { KeepsValues self.old self.new }
    {
        names_in(&mut self.parts, sheet, text)
    }

    /// Where a text stops being a formula: the part of it, in bytes, that is its first token at which no formula goes on; `None`
    /// where it is a formula. At the text's end the part has no bytes: the text is but the front of formulas. A text that doesn't
    /// begin with `=` is wrong as a whole, and where no token begins, as at a quote that isn't closed, the rest of the text is
    /// ([`parse_error`]). So an application can mark what its user types, as it is typed. Costs about the bytes of the text, and takes
    /// no memory; it is answered while values are suspended too.
    ///
    /// # Errors
    /// `NoSheet`, `TextLimit` past 8,192 bytes; the first that holds.
    pub fn parse_error(&self, sheet: u32, text: &str) -> Result<Option<TextSpan>, Stop>
        ensures { (d : State) → StandsFor C.customs self.now d → Answered (untold_cause d.book sheet text.now) (TellsWrong text.now) result }
    {
        wrong_span(&self.parts, sheet, text)
    }
}
