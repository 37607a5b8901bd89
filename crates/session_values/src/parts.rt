// What is kept of a session's values over the parts of a step, one after the other.
ghost use Rattle.std.specs.Prelude.{◌≡◌, ◌↔◌, IfSome, IsTrue, None, OnOk, Some, is_some};
ghost use Rattle.cell_addr.specs.declared.place.TheConstants.{NO_SHEET as no_sheet};
ghost use Rattle.shift_core.specs.Form.{form_of};
ghost use Rattle.shift_core.specs.declared.form.Form.TheVariants.{Cells, Sheet};
ghost use Rattle.shift_core.specs.Opposite.{opposite_of};
ghost use Rattle.shift_core.specs.Sound.{IsSound};
ghost use Rattle.kept_book.specs.Change.{shift_of};
ghost use Rattle.kept_book.specs.Kept.{change_of, changes_of, line_of, name_change};
ghost use Rattle.kept_steps.specs.Turned.{AreOfCells};
ghost use Rattle.session_values.specs.Following.{words_in};
ghost use Rattle.session_values.specs.Naming.{MarksTurn, turn_of};
ghost use Rattle.session_values.specs.Parts.{FollowsPartBack, FollowsPartForth, FollowsPartsBack, FollowsPartsForth, FollowsTurnIn, IsOnLines, MarksPartBack, MarksPartForth, MarksPartsBack, MarksPartsForth};

use crate::listing::{cell_nodes, moved_places, scope_nodes, sheet_nodes};
use crate::naming::NameTurn;
use crate::touching::is_of_cells;
use crate::values::SessionValues;
use cell_addr::{Block, NO_SHEET, Place};
use kept_book::{NameChange, Part};
use kept_steps::{Session, name_alone};
use name_table::NameKey;
use shift_core::{Form, Shift};
use std::alloc::AllocError;

/// Whether each part of a step is a change of cells alone. Costs the number of parts.
pub fn are_of_cells(parts: &[Part]) -> bool
    ensures { IsTrue result ↔ AreOfCells (changes_of parts.now) }
{
    let mut left = parts;
    'parts: while let [part, rest @ ..] = left {
        if !is_of_cells(part) {
            return false;
        }
        left = rest;
    }
    true
}

impl SessionValues {
    /// Takes what is kept along with the parts of a step of the session that is taken back, the last one first: cells that a part
    /// lists are marked, a structural operation is followed back, and of a change of one name what it touches is marked. What
    /// follows the workbook after the step follows the one before it then.
    ///
    /// Over a move of a block that has more places than the workbook has filled cells, and where there is no memory for it, nothing is
    /// kept any more. Costs for each part what [`SessionValues::touch_cells`], [`SessionValues::take_back`] or
    /// [`SessionValues::name_turned`] does; for a moved block the number of its places, empty ones too.
    pub fn parts_turned_back(&mut self, session: &Session, parts: &[Part])
        ensures follows { FollowsPartsBack (line_of session.now.book) (words_in session.now) (changes_of parts.now) self.old.values self.new.values }
        ensures marks { MarksPartsBack session.now (changes_of parts.now) self.old.values self.new.values }
    {
        for index in (0..parts.len()).rev() {
            self.part_turned_back(session, &parts[index]);
        }
    }

    /// Takes what is kept along with the parts of a step of the session that is done again, the first one first, likewise; a sheet
    /// that a part drops is followed too. What follows the workbook before the step follows the one after it then.
    ///
    /// Over a move of such a block, and where there is no memory for it, nothing is kept any more. Costs likewise; for a dropped sheet
    /// what [`SessionValues::shift`] does, and the number of all words that names ever had.
    pub fn parts_turned_forth(&mut self, session: &Session, parts: &[Part])
        ensures follows { FollowsPartsForth (line_of session.now.book) (words_in session.now) (changes_of parts.now) self.old.values self.new.values }
        ensures marks { MarksPartsForth session.now (changes_of parts.now) self.old.values self.new.values }
    {
        'parts: for part in parts {
            self.part_turned_forth(session, part);
        }
    }

    // Takes what is kept along with one part that is taken back.
    fn part_turned_back(&mut self, session: &Session, part: &Part)
        ensures follows { FollowsPartBack (line_of session.now.book) (words_in session.now) (change_of part.now) self.old.values self.new.values }
        ensures marks { MarksPartBack session.now (change_of part.now) self.old.values self.new.values }
    {
        match self.part_back(session, part) {
            Ok(()) => (),
            Err(_) => self.forget(),
        }
    }

    // Takes what is kept along with one part that is done again.
    fn part_turned_forth(&mut self, session: &Session, part: &Part)
        ensures follows { FollowsPartForth (line_of session.now.book) (words_in session.now) (change_of part.now) self.old.values self.new.values }
        ensures marks { MarksPartForth session.now (change_of part.now) self.old.values self.new.values }
    {
        match self.part_forth(session, part) {
            Ok(()) => (),
            Err(_) => self.forget(),
        }
    }

    // The same; errs for want of memory.
    fn part_back(&mut self, session: &Session, part: &Part) -> Result<(), AllocError>
        ensures follows { OnOk result (FollowsPartBack (line_of session.now.book) (words_in session.now) (change_of part.now) self.old.values self.new.values) }
        ensures marks { OnOk result (MarksPartBack session.now (change_of part.now) self.old.values self.new.values) }
    {
        match session.operation_in(part) {
            Some(s) => self.operation_back(session, &s, part),
            None => self.change_back(session, part),
        }
    }

    fn part_forth(&mut self, session: &Session, part: &Part) -> Result<(), AllocError>
        ensures follows { OnOk result (FollowsPartForth (line_of session.now.book) (words_in session.now) (change_of part.now) self.old.values self.new.values) }
        ensures marks { OnOk result (MarksPartForth session.now (change_of part.now) self.old.values self.new.values) }
    {
        match session.operation_in(part) {
            Some(s) => self.operation_forth(session, &s, part),
            None => self.change_forth(session, part),
        }
    }

    // Over a part with this operation that is taken back.
    fn operation_back(
        &mut self,
        session: &Session,
        s: &Shift,
        part: &Part,
    ) -> Result<(), AllocError>
        requires sound { IsSound s.now }
        requires operation { shift_of (line_of session.now.book) (change_of part.now) ≡ Some s.now }
        ensures follows { OnOk result (FollowsPartBack (line_of session.now.book) (words_in session.now) (change_of part.now) self.old.values self.new.values) }
        ensures marks { OnOk result (MarksPartBack session.now (change_of part.now) self.old.values self.new.values) }
    {
        match s.form() {
            Form::Lines { .. } => self.lines_back(session, s, part),
            Form::Cells { source, to } => self.block_back(session, s, source, to, part),
            Form::Sheet { sheet } => self.sheet_back(session, s, sheet, part),
        }
    }

    // Over one that moves a block of cells, which goes back.
    fn block_back(
        &mut self,
        session: &Session,
        s: &Shift,
        source: Block,
        to: Place,
        part: &Part,
    ) -> Result<(), AllocError>
        requires sound { IsSound s.now }
        requires form { form_of s.now ≡ Cells source to }
        requires operation { shift_of (line_of session.now.book) (change_of part.now) ≡ Some s.now }
        ensures follows { OnOk result (FollowsPartBack (line_of session.now.book) (words_in session.now) (change_of part.now) self.old.values self.new.values) }
        ensures marks { OnOk result (MarksPartBack session.now (change_of part.now) self.old.values self.new.values) }
    {
        let (Some(back), Some(moved)) = (s.opposite(), moved_places(session, source, to)?) else {
            self.forget();
            return Ok(());
        };
        let removed = cell_nodes(session.book.alloc, part.replaced.items())?;
        self.take_back(s, &back, moved.items(), removed.items())
    }

    // Over one that drops a sheet, which comes back.
    fn sheet_back(
        &mut self,
        session: &Session,
        s: &Shift,
        sheet: u32,
        part: &Part,
    ) -> Result<(), AllocError>
        requires sound { IsSound s.now }
        requires form { form_of s.now ≡ Sheet sheet }
        requires operation { shift_of (line_of session.now.book) (change_of part.now) ≡ Some s.now }
        ensures follows { OnOk result (FollowsPartBack (line_of session.now.book) (words_in session.now) (change_of part.now) self.old.values self.new.values) }
        ensures marks { OnOk result (MarksPartBack session.now (change_of part.now) self.old.values self.new.values) }
    {
        if sheet == NO_SHEET {
            self.forget();
            return Ok(());
        }
        let nodes = sheet_nodes(session, sheet, part.replaced.items())?;
        self.bring_back(nodes.items())
    }

    // Over one on lines.
    fn lines_back(&mut self, session: &Session, s: &Shift, part: &Part) -> Result<(), AllocError>
        requires sound { IsSound s.now }
        requires operation { shift_of (line_of session.now.book) (change_of part.now) ≡ Some s.now }
        ensures follows { OnOk result (FollowsPartBack (line_of session.now.book) (words_in session.now) (change_of part.now) self.old.values self.new.values) }
        ensures marks { OnOk result (MarksPartBack session.now (change_of part.now) self.old.values self.new.values) }
    {
        let Some(back) = lines_opposite(s) else {
            self.forget();
            return Ok(());
        };
        let removed = cell_nodes(session.book.alloc, part.replaced.items())?;
        self.take_back(s, &back, &[], removed.items())
    }

    // Over one that is done again.
    fn operation_forth(
        &mut self,
        session: &Session,
        s: &Shift,
        part: &Part,
    ) -> Result<(), AllocError>
        requires sound { IsSound s.now }
        requires operation { shift_of (line_of session.now.book) (change_of part.now) ≡ Some s.now }
        ensures follows { OnOk result (FollowsPartForth (line_of session.now.book) (words_in session.now) (change_of part.now) self.old.values self.new.values) }
        ensures marks { OnOk result (MarksPartForth session.now (change_of part.now) self.old.values self.new.values) }
    {
        match s.form() {
            Form::Lines { .. } => self.shift(s, &[]),
            Form::Cells { source, to } => self.block_forth(session, s, source, to, part),
            Form::Sheet { sheet } => self.sheet_forth(session, s, sheet, part),
        }
    }

    // Over one that moves a block of cells and is done again.
    fn block_forth(
        &mut self,
        session: &Session,
        s: &Shift,
        source: Block,
        to: Place,
        part: &Part,
    ) -> Result<(), AllocError>
        requires sound { IsSound s.now }
        requires form { form_of s.now ≡ Cells source to }
        requires operation { shift_of (line_of session.now.book) (change_of part.now) ≡ Some s.now }
        ensures follows { OnOk result (FollowsPartForth (line_of session.now.book) (words_in session.now) (change_of part.now) self.old.values self.new.values) }
        ensures marks { OnOk result (MarksPartForth session.now (change_of part.now) self.old.values self.new.values) }
    {
        let Some(moved) = moved_places(session, source, to)? else {
            self.forget();
            return Ok(());
        };
        self.shift(s, moved.items())
    }

    // Over one that drops a sheet and is done again.
    fn sheet_forth(
        &mut self,
        session: &Session,
        s: &Shift,
        sheet: u32,
        part: &Part,
    ) -> Result<(), AllocError>
        requires sound { IsSound s.now }
        requires form { form_of s.now ≡ Sheet sheet }
        requires operation { shift_of (line_of session.now.book) (change_of part.now) ≡ Some s.now }
        ensures follows { OnOk result (FollowsPartForth (line_of session.now.book) (words_in session.now) (change_of part.now) self.old.values self.new.values) }
        ensures marks { OnOk result (MarksPartForth session.now (change_of part.now) self.old.values self.new.values) }
    {
        if sheet == NO_SHEET {
            self.forget();
            return Ok(());
        }
        let names = scope_nodes(session, sheet)?;
        self.shift(s, names.items())
    }

    // Over a part without an operation that is taken back.
    fn change_back(&mut self, session: &Session, part: &Part) -> Result<(), AllocError>
        requires { shift_of (line_of session.now.book) (change_of part.now) ≡ None }
        ensures follows { OnOk result (FollowsPartBack (line_of session.now.book) (words_in session.now) (change_of part.now) self.old.values self.new.values) }
        ensures marks { OnOk result (MarksPartBack session.now (change_of part.now) self.old.values self.new.values) }
    {
        match name_alone(part) {
            Some(name) => {
                let turn = turn_back(&name);
                self.name_turned_in(session, &name, turn);
                Ok(())
            }
            None => self.touch_part(part),
        }
    }

    // Over one that is done again.
    fn change_forth(&mut self, session: &Session, part: &Part) -> Result<(), AllocError>
        requires { shift_of (line_of session.now.book) (change_of part.now) ≡ None }
        ensures follows { OnOk result (FollowsPartForth (line_of session.now.book) (words_in session.now) (change_of part.now) self.old.values self.new.values) }
        ensures marks { OnOk result (MarksPartForth session.now (change_of part.now) self.old.values self.new.values) }
    {
        match name_alone(part) {
            Some(name) => {
                let turn = turn_forth(&name);
                self.name_turned_in(session, &name, turn);
                Ok(())
            }
            None => self.touch_part(part),
        }
    }

    // Over a change of this name, by what it does to the name.
    fn name_turned_in(&mut self, session: &Session, name: &NameChange, turn: NameTurn)
        ensures follows { FollowsTurnIn (name_change name.now).0 turn (words_in session.now) self.old.values self.new.values }
        ensures marks { MarksTurn (name_change name.now).0 turn session.now self.old.values self.new.values }
    {
        if is_no_sheet(name.scope) {
            self.forget();
            return;
        }
        let key = NameKey {
            scope: name.scope,
            word: name.word,
        };
        self.name_turned(session, key, turn);
    }
}

// What becomes of a name whose change is taken back.
fn turn_back(name: &NameChange) -> NameTurn
    ensures { result ≡ turn_of (is_some name.now.after) (is_some name.now.before) }
{
    NameTurn::of(name.after.is_some(), name.before.is_some())
}

// What becomes of a name whose change is done again.
fn turn_forth(name: &NameChange) -> NameTurn
    ensures { result ≡ turn_of (is_some name.now.before) (is_some name.now.after) }
{
    NameTurn::of(name.before.is_some(), name.after.is_some())
}

// Whether a scope is the number of no sheet, which no name has.
fn is_no_sheet(scope: Option<u32>) -> bool
    ensures { IsTrue result ↔ (scope ≡ Some no_sheet) }
{
    match scope {
        Some(sheet) => sheet == NO_SHEET,
        None => false,
    }
}

// Whether an operation is one on lines.
fn is_on_lines(s: &Shift) -> bool
    ensures { IsTrue result ↔ IsOnLines (form_of s.now) }
{
    match s.form() {
        Form::Lines { .. } => true,
        Form::Cells { .. } => false,
        Form::Sheet { .. } => false,
    }
}

// The operation on lines that takes one back; `None`, where none does.
fn lines_opposite(s: &Shift) -> Option<Shift>
    requires { IsSound s.now }
    ensures opposite { IfSome result (λ back. opposite_of s.now ≡ Some back) }
    ensures lines { IfSome result (λ back. IsOnLines (form_of back)) }
{
    let back = s.opposite()?;
    if is_on_lines(&back) { Some(back) } else { None }
}
