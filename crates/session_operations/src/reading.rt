// What cells show and hold.
ghost use Rattle.std.specs.Prelude.{◌≡◌, ◌≤◌, None, false, IfOk, OnOk, option_copied, option_map};
ghost use Rattle.std.specs.FinMap as fin;
ghost use Rattle.book_values.specs.Workbook.{content_tree};
ghost use Rattle.book_model.specs.Answers.{content_text, first_cell, formula_of, name_value_of, tried_value, value_of};
ghost use Rattle.book_model.specs.Operation as op;
ghost use Rattle.book_model.specs.Content.{content_shown, formula_shown};
ghost use Rattle.name_table.specs.Listed.{listed};
ghost use Rattle.kept_book.specs.Frame.{numbered_at};
ghost use Rattle.kept_book.specs.Kept.{KeepsElsewhere, at_of};
ghost use Rattle.kept_book.specs.Stored.{content_of};
ghost use Rattle.session_values.specs.Following.{AreShowing};
ghost use Rattle.session_values.specs.Refreshed.{IsUnmarked};
ghost use Rattle.session_operations.specs.Kept.{TriesOutIn, WorksOutIn};
ghost use Rattle.session_operations.specs.Seen.{with_rules};
ghost use Rattle.session_operations.specs.Seen.{Fits, ValuesFollow, ValuesFollowStill, state_of};
ghost use Rattle.session_operations.specs.internal.Contents.{holds_formula};
ghost use Rattle.session_operations.specs.Turns.{Turns};

use crate::naming::read_tree;
use crate::parts::Parts;
use crate::stop::Stop;
use book_model::text_given;
use calc_eval::Customs;
use cell_addr::{Place, Text};
use cell_value::Scalar;
use formula_print::print;
use formula_tree::Home;
use grid_store::Cell;
use kept_steps::Session;
use std::alloc::AllocError;
use std::sync::ledger::Ledger;
use steps::Steps;

impl Parts {
    /// What a cell shows. What the changes since the last read of a value reach is worked out first, or the whole workbook where
    /// nothing is kept; then it costs a look-up.
    ///
    /// # Errors
    /// `Suspended` where the computation is suspended or a batch is open, `NoSheet`, `Outside` where the place isn't within the
    /// limits of a sheet; the first that holds.
    pub fn value<C: Customs, L: Ledger>(
        &mut self,
        at: Place,
        customs: &C,
        day: i32,
        steps: &mut Steps<L>,
    ) -> Result<Scalar, Stop>
        requires fits { Fits self.old }
        requires follow { ValuesFollow (C.customs customs.now) day self.old }
        ensures turns { Turns (op.value at) (λ d scalar. scalar ≡ value_of d at) (with_rules (C.customs customs.now) day (state_of self.old)) (with_rules (C.customs customs.now) day (state_of self.new)) result }
        ensures fits { Fits self.new }
        ensures line { self.new.session.book.lazy.line ≡ self.old.session.book.lazy.line }
        ensures follow { ValuesFollow (C.customs customs.now) day self.new }
        ensures unmarked { OnOk result (IsUnmarked self.new.values.values) }
        ensures least { steps.old ≤ steps.new }
        ensures most { WorksOutIn (C.customs customs.now) day self.old steps.old steps.new }
    {
        self.check_value(at)?;
        self.refresh(customs, day, steps)?;
        let scalar = self.values.shown(self.session.book.alloc, at)?;
        Ok(scalar)
    }

    /// What a name shows that the word finds on the sheet: the sheet's own, else that of the whole workbook. Costs what
    /// [`Parts::value`] does, and a look-up of the word.
    ///
    /// # Errors
    /// `Suspended`, `NoSheet`, `NoSuchName` where neither scope has the name; the first that holds.
    pub fn name_value<C: Customs, L: Ledger>(
        &mut self,
        name: &str,
        sheet: u32,
        customs: &C,
        day: i32,
        steps: &mut Steps<L>,
    ) -> Result<Scalar, Stop>
        requires fits { Fits self.old }
        requires follow { ValuesFollow (C.customs customs.now) day self.old }
        ensures turns { Turns (op.name_value name.now sheet) (λ d scalar. scalar ≡ name_value_of d name.now sheet) (with_rules (C.customs customs.now) day (state_of self.old)) (with_rules (C.customs customs.now) day (state_of self.new)) result }
        ensures fits { Fits self.new }
        ensures line { self.new.session.book.lazy.line ≡ self.old.session.book.lazy.line }
        ensures follow { ValuesFollow (C.customs customs.now) day self.new }
        ensures unmarked { OnOk result (IsUnmarked self.new.values.values) }
        ensures least { steps.old ≤ steps.new }
        ensures most { WorksOutIn (C.customs customs.now) day self.old steps.old steps.new }
    {
        self.check_name_value(name, sheet)?;
        self.refresh(customs, day, steps)?;
        let Parts { session, values } = self;
        let scalar = values.named(session, name, sheet)?;
        Ok(scalar)
    }

    /// What the formula of a text would show in the first cell of the sheet; nothing of it is kept. Costs what [`Parts::value`]
    /// does, and the steps of the formula.
    ///
    /// # Errors
    /// `Suspended`, `NoSheet`, `TextLimit` past 8,192 bytes, `BadFormula` where the text is no formula; the first that holds.
    pub fn try_formula<C: Customs, L: Ledger>(
        &mut self,
        sheet: u32,
        text: &str,
        customs: &C,
        day: i32,
        steps: &mut Steps<L>,
    ) -> Result<Scalar, Stop>
        requires fits { Fits self.old }
        requires follow { ValuesFollow (C.customs customs.now) day self.old }
        ensures turns { Turns (op.try_formula sheet text.now) (λ d scalar. scalar ≡ tried_value d sheet text.now) (with_rules (C.customs customs.now) day (state_of self.old)) (with_rules (C.customs customs.now) day (state_of self.new)) result }
        ensures fits { Fits self.new }
        ensures line { self.new.session.book.lazy.line ≡ self.old.session.book.lazy.line }
        ensures follow { ValuesFollow (C.customs customs.now) day self.new }
        ensures unmarked { OnOk result (IsUnmarked self.new.values.values) }
        ensures least { steps.old ≤ steps.new }
        ensures most { TriesOutIn (C.customs customs.now) day self.old sheet text.now steps.old steps.new }
    {
        self.check_on_sheet(sheet)?;
        let home = Home::Cell(first_cell(sheet));
        let Session { pool, book, .. } = &mut self.session;
        let tree = read_tree(book.alloc, pool, &book.names, home, text)?;
        self.refresh(customs, day, steps)?;
        let Parts { session, values } = self;
        let scalar = values.tried(session, &tree, home, customs, day, steps)?;
        Ok(scalar)
    }

    /// Brings what is kept of values up to date: works out what the changes since the last read reach, or the whole workbook where
    /// nothing is kept. Errs for want of memory.
    pub fn refresh<C: Customs, L: Ledger>(
        &mut self,
        customs: &C,
        day: i32,
        steps: &mut Steps<L>,
    ) -> Result<(), AllocError>
        requires fits { Fits self.old }
        requires follow { ValuesFollow (C.customs customs.now) day self.old }
        ensures shows { OnOk result (AreShowing (C.customs customs.now) day self.new.session self.new.values.values) }
        ensures state { state_of self.new ≡ state_of self.old }
        ensures line { self.new.session.book.lazy.line ≡ self.old.session.book.lazy.line }
        ensures follow { ValuesFollow (C.customs customs.now) day self.new }
        ensures unmarked { OnOk result (IsUnmarked self.new.values.values) }
        ensures least { steps.old ≤ steps.new }
        ensures most { WorksOutIn (C.customs customs.now) day self.old steps.old steps.new }
    {
        let Parts { session, values } = self;
        values.refresh(session, customs, day, steps)
    }

    /// The canonical text of a cell's formula, or the kept text of an unreadable one; `None` where the cell has none. The formula
    /// is taken along the line to the cursor, and printed.
    ///
    /// # Errors
    /// `NoSheet`, `Outside` where the place isn't within the limits of a sheet.
    pub fn formula(&mut self, at: Place) -> Result<Option<Text>, Stop>
        requires { Fits self.old }
        ensures turns { Turns (op.formula at) (λ d text. text ≡ formula_of d at) (state_of self.old) (state_of self.new) result }
        ensures fits { Fits self.new }
        ensures kept { KeepsElsewhere at self.old.session.book self.new.session.book }
        ensures line { self.new.session.book.lazy.line ≡ self.old.session.book.lazy.line }
        ensures follow { ValuesFollowStill self.old self.new }
        ensures values { self.new.values ≡ self.old.values }
    {
        self.check_place(at)?;
        let text = self.formula_text(at)?;
        Ok(text)
    }

    /// The text that gives a cell its content, when [`Parts::set`] is given it. Costs what [`Parts::formula`] does.
    ///
    /// # Errors
    /// `NoSheet`, `Outside`.
    pub fn content(&mut self, at: Place) -> Result<Text, Stop>
        requires { Fits self.old }
        ensures turns { Turns (op.content at) (λ d text. text ≡ content_text d at) (state_of self.old) (state_of self.new) result }
        ensures fits { Fits self.new }
        ensures kept { KeepsElsewhere at self.old.session.book self.new.session.book }
        ensures line { self.new.session.book.lazy.line ≡ self.old.session.book.lazy.line }
        ensures follow { ValuesFollowStill self.old self.new }
        ensures values { self.new.values ≡ self.old.values }
    {
        self.check_place(at)?;
        let text = self.content_text(at)?;
        Ok(text)
    }

    // The text of a cell's formula, if it has one.
    #[tactic(auto, using(crate::proofs::Following::follow_reads))]
    fn formula_text(&mut self, at: Place) -> Result<Option<Text>, AllocError>
        requires { Fits self.old }
        ensures text { IfOk result (λ text. text ≡ formula_of (state_of self.old) at) }
        ensures state { state_of self.new ≡ state_of self.old }
        ensures kept { KeepsElsewhere at self.old.session.book self.new.session.book }
        ensures line { self.new.session.book.lazy.line ≡ self.old.session.book.lazy.line }
        ensures follow { ValuesFollowStill self.old self.new }
        ensures values { self.new.values ≡ self.old.values }
    {
        let Some(tree) = self.session.formula(at)? else {
            return self.unreadable_text(at);
        };
        let book = &self.session.book;
        let text = print(book.alloc, &tree, Home::Cell(at), &book.names)?;
        Ok(Some(text))
    }

    // The text of an unreadable formula, in a cell whose formula has no tree.
    fn unreadable_text(&self, at: Place) -> Result<Option<Text>, AllocError>
        requires { content_tree (fin.get (state_of self.now).book.cells at) ≡ None }
        ensures { IfOk result (λ text. text ≡ formula_of (state_of self.now) at) }
    {
        self.unreadable_in(at, self.session.book.grid.cell(at))
    }

    // The text of an unreadable formula, in a cell at the place that holds no formula with a tree.
    fn unreadable_in(&self, at: Place, cell: Option<&Cell>) -> Result<Option<Text>, AllocError>
        requires { holds_formula (option_copied cell) ≡ false }
        ensures { IfOk result (λ text. text ≡ formula_shown (listed self.now.session.book.names) at.sheet (option_map (content_of (numbered_at (at_of self.now.session.book) self.now.session.book.lazy.line.cursor)) (option_copied cell.entry))) }
    {
        match cell {
            Some(Cell::Broken(text)) => Ok(Some(text.copy(self.session.book.alloc)?)),
            Some(Cell::Formula(_)) => unreachable!(),
            Some(Cell::Number(_) | Cell::Truth(_) | Cell::Text(_)) | None => Ok(None),
        }
    }

    // The text that gives a cell its content.
    #[tactic(auto, using(crate::proofs::Following::follow_reads))]
    fn content_text(&mut self, at: Place) -> Result<Text, AllocError>
        requires { Fits self.old }
        ensures text { IfOk result (λ text. text ≡ content_text (state_of self.old) at) }
        ensures state { state_of self.new ≡ state_of self.old }
        ensures kept { KeepsElsewhere at self.old.session.book self.new.session.book }
        ensures line { self.new.session.book.lazy.line ≡ self.old.session.book.lazy.line }
        ensures follow { ValuesFollowStill self.old self.new }
        ensures values { self.new.values ≡ self.old.values }
    {
        let Some(tree) = self.session.formula(at)? else {
            return self.plain_text(at);
        };
        let book = &self.session.book;
        print(book.alloc, &tree, Home::Cell(at), &book.names)
    }

    // The text that gives a cell its content, which is no formula with a tree.
    fn plain_text(&self, at: Place) -> Result<Text, AllocError>
        requires { content_tree (fin.get (state_of self.now).book.cells at) ≡ None }
        ensures { IfOk result (λ text. text ≡ content_text (state_of self.now) at) }
    {
        self.plain_in(at, self.session.book.grid.cell(at))
    }

    // The text that gives a cell at the place its content, which is no formula with a tree.
    fn plain_in(&self, at: Place, cell: Option<&Cell>) -> Result<Text, AllocError>
        requires { holds_formula (option_copied cell) ≡ false }
        ensures { IfOk result (λ text. text ≡ content_shown (listed self.now.session.book.names) at.sheet (option_map (content_of (numbered_at (at_of self.now.session.book) self.now.session.book.lazy.line.cursor)) (option_copied cell.entry))) }
    {
        let alloc = self.session.book.alloc;
        match cell {
            None => Text::from_str(alloc, ""),
            Some(Cell::Number(number)) => Ok(Text::new(number.text(alloc)?)),
            Some(Cell::Truth(truth)) => Scalar::Truth(*truth).shown(alloc),
            Some(Cell::Text(text)) => text_given(alloc, text.as_str()),
            Some(Cell::Formula(_)) => unreachable!(),
            Some(Cell::Broken(text)) => text.copy(alloc),
        }
    }
}

/// The first cell of the sheet.
pub fn first_cell(sheet: u32) -> Place
    ensures { result ≡ first_cell sheet }
{
    Place {
        sheet,
        row: 0,
        col: 0,
    }
}
