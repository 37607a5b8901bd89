// Cells that are given a number, a truth value or a text, as it is.
ghost use Rattle.std.specs.Prelude.{◌≡◌, IfOk, List, length, nat_lt, ℕ};
ghost use Rattle.cell_addr.specs.Place.{same_place};
ghost use Rattle.cell_value.specs.Scalar.{truth_text};
ghost use Rattle.fix_num.specs.Text.{text_of};
ghost use Rattle.book_model.specs.Content.{text_given};
ghost use Rattle.book_model.specs.Operation as op;
ghost use Rattle.book_model.specs.Refusals.{first_cause};
ghost use Rattle.book_model.specs.declared.limits.TheConstants.{MAX_TEXT};
ghost use Rattle.session_values.specs.Touched.{AreTouched};
ghost use Rattle.session_operations.specs.Seen.{Fits, ValuesFollowStill, state_of};
ghost use Rattle.session_operations.specs.Turns.{IsCause, NoAnswer, Turns};
ghost use Rattle.session_operations.specs.internal.Giving.{Says, of_given};

use crate::checks::is_outside;
use crate::parts::Parts;
use crate::stop::Stop;
use book_model::{ContentText, MAX_TEXT, Refusal, text_given};
use cell_addr::{Place, Text};
use fix_num::Fixed;
use std::alloc::{AllocError, Global};

impl Parts {
    ghost use Rattle.kept_steps.specs.Kept.{KeepsInUse};

    /// Gives a cell a number, as [`Parts::set`] does with the number's text, which is neither made nor read. Costs look-ups, with
    /// the logarithm of the number of filled cells.
    ///
    /// # Errors
    /// `NoSheet`, `Outside` where the place isn't within the limits of a sheet, `CellLimit` where more than 1,000,000 cells would
    /// be filled; the first that holds.
    pub fn set_number(&mut self, at: Place, number: Fixed) -> Result<(), Stop>
        requires { Fits self.old }
        ensures turns { Turns (op.set at (text_of number)) NoAnswer (state_of self.old) (state_of self.new) result }
        ensures fits { Fits self.new }
        ensures kept { KeepsInUse self.old.session self.new.session.book.lazy }
        ensures follow { ValuesFollowStill self.old self.new }
        ensures touched { AreTouched (same_place at) self.old.values.values self.new.values.values }
    {
        let _size = number.size();
        self.give(at, ContentText::Number(number), false)
    }

    /// Gives a cell a truth value, likewise.
    ///
    /// # Errors
    /// Those of [`Parts::set_number`].
    pub fn set_truth(&mut self, at: Place, truth: bool) -> Result<(), Stop>
        requires { Fits self.old }
        ensures turns { Turns (op.set at (truth_text truth)) NoAnswer (state_of self.old) (state_of self.new) result }
        ensures fits { Fits self.new }
        ensures kept { KeepsInUse self.old.session self.new.session.book.lazy }
        ensures follow { ValuesFollowStill self.old self.new }
        ensures touched { AreTouched (same_place at) self.old.values.values self.new.values.values }
    {
        self.give(at, ContentText::Truth(truth), false)
    }

    /// Gives a cell this text, whatever it looks like, as [`Parts::set`] does with the text that gives it. Costs about its length,
    /// and look-ups.
    ///
    /// # Errors
    /// `NoSheet`, `Outside` where the place isn't within the limits of a sheet, `TextLimit` where the text with the apostrophe that
    /// it needs has more than 8,192 bytes, `CellLimit` where more than 1,000,000 cells would be filled; the first that holds.
    pub fn set_text(&mut self, at: Place, text: &str) -> Result<(), Stop>
        requires { Fits self.old }
        ensures turns { Turns (op.set at (text_given text.now)) NoAnswer (state_of self.old) (state_of self.new) result }
        ensures fits { Fits self.new }
        ensures kept { KeepsInUse self.old.session self.new.session.book.lazy }
        ensures follow { ValuesFollowStill self.old self.new }
        ensures touched { AreTouched (same_place at) self.old.values.values self.new.values.values }
    {
        let alloc = self.session.book.alloc;
        let long = is_long(alloc, text)?;
        let copy = Text::from_str(alloc, text)?;
        self.give(at, ContentText::Text(copy), long)
    }

    // Gives a cell a content. `long` says whether the text that gives it is too long to be given to a cell.
    fn give(&mut self, at: Place, content: ContentText, long: bool) -> Result<(), Stop>
        requires fits { Fits self.old }
        requires says { (text : List ℕ) × Says content long text }
        ensures turns { (text : List ℕ) → Says content long text → Turns (op.set at text) NoAnswer (state_of self.old) (state_of self.new) result }
        ensures fits { Fits self.new }
        ensures kept { KeepsInUse self.old.session self.new.session.book.lazy }
        ensures follow { ValuesFollowStill self.old self.new }
        ensures touched { AreTouched (same_place at) self.old.values.values self.new.values.values }
    {
        self.check_given(at, long)?;
        self.values.touch(at)?;
        self.session.fill_content(at, content)?;
        Ok(())
    }

    // Where a cell is given a content that isn't empty, by a text that is too long or isn't.
    fn check_given(&self, at: Place, long: bool) -> Result<(), Refusal>
        ensures { IsCause result (first_cause (of_given (state_of self.now) at long)) }
    {
        if !self.has_sheet(at.sheet) {
            return Err(Refusal::NoSheet);
        }
        if is_outside(at) {
            return Err(Refusal::Outside);
        }
        if long {
            return Err(Refusal::TextLimit);
        }
        if self.is_full_without(at) {
            return Err(Refusal::CellLimit);
        }
        Ok(())
    }
}

// Whether the text that gives a text is too long to be given to a cell. It has an apostrophe more than that where it needs one.
fn is_long(alloc: Global, text: &str) -> Result<bool, AllocError>
    ensures { IfOk result (λ long. long ≡ nat_lt MAX_TEXT (length (text_given text.now))) }
{
    if text.len() != MAX_TEXT {
        return Ok(text.len() > MAX_TEXT);
    }
    let given = text_given(alloc, text)?;
    Ok(given.as_str().len() > MAX_TEXT)
}
