// Steps back and forth, along which goes what is kept of values.
ghost use Rattle.std.specs.Prelude.{◌≡◌, false, is_some, IfSome, None, OnErr, OnOk, Some};
ghost use Rattle.cell_addr.specs.declared.place.TheConstants.{NO_SHEET as no_sheet};
ghost use Rattle.book_model.specs.Operation as op;
ghost use Rattle.book_model.specs.Refusals.{cause};
ghost use Rattle.book_model.specs.Session.{done};
ghost use Rattle.kept_book.specs.Kept.{line_of, name_change};
ghost use Rattle.kept_steps.specs.Turned.{AreOfCells, is_listed, name_of, operation_of, to_redo, to_undo};
ghost use Rattle.lazy_store.specs.Store.{KeepsAll};
ghost use Rattle.recalc_core.specs.Shifted.{drops_scope};
ghost use Rattle.session_values.specs.Naming.{turn_of};
ghost use Rattle.session_values.specs.Parts.{MarksPartsBack, MarksPartsForth};
ghost use Rattle.session_values.specs.Touched.{AreTouched, AreTouchedAtMost, IsStepMarked};
ghost use Rattle.shift_core.specs.Form.{form_of};
ghost use Rattle.shift_core.specs.Opposite.{opposite_of};
ghost use Rattle.shift_core.specs.Sound.{IsSound};
ghost use Rattle.session_operations.specs.Kept.{KeepsLineIn, MarksAlong, MarksRedoneIn, MarksReturned, MarksUndoneIn};
ghost use Rattle.session_operations.specs.Seen.{Fits, ValuesFollowStill, state_of};
ghost use Rattle.session_operations.specs.internal.Opposites.{with_opposite_of};

use crate::parts::Parts;
use kept_book::NameChange;
use kept_steps::Session;
use name_table::NameKey;
use session_values::{NameTurn, SessionValues, are_of_cells, restored_by, touched_by};
use shift_core::Shift;
use std::alloc::AllocError;

impl Parts {
    // Takes the newest step back. What is kept of values goes along: at once, where the step is one structural operation that has an
    // opposite, one change of a name, or changes of cells alone; else part by part, as far as each part is an operation on lines, a
    // dropped sheet, a change of one name or one of cells alone. Over any other part nothing is kept any more.
    pub(crate) fn step_back(&mut self) -> Result<(), AllocError>
        requires fits { Fits self.old }
        requires closed { self.old.session.batch ≡ None }
        requires accepted { cause op.undo (state_of self.old) ≡ None }
        ensures ok { OnOk result (state_of self.new ≡ done op.undo (state_of self.old)) }
        ensures err { OnErr result (state_of self.new ≡ state_of self.old) }
        ensures line_err { OnErr result (KeepsLineIn self.old.session self.new.session) }
        ensures kept { KeepsAll self.old.session.book.lazy self.new.session.book.lazy }
        ensures follow { ValuesFollowStill self.old self.new }
        ensures marks { OnOk result (MarksUndoneIn self.old.session self.old.values.values self.new.values.values) }
    {
        match with_opposite(self.session.operation_undone()) {
            Some((s, back)) => self.operation_back(&s, &back),
            None => self.change_back(),
        }
    }

    // Takes a step back that is this operation.
    fn operation_back(&mut self, s: &Shift, back: &Shift) -> Result<(), AllocError>
        requires fits { Fits self.old }
        requires closed { self.old.session.batch ≡ None }
        requires accepted { cause op.undo (state_of self.old) ≡ None }
        requires operation { operation_of (line_of self.old.session.book) (to_undo self.old.session) ≡ Some s.now }
        requires opposite { opposite_of s.now ≡ Some back.now }
        ensures ok { OnOk result (state_of self.new ≡ done op.undo (state_of self.old)) }
        ensures err { OnErr result (state_of self.new ≡ state_of self.old) }
        ensures line_err { OnErr result (KeepsLineIn self.old.session self.new.session) }
        ensures kept { KeepsAll self.old.session.book.lazy self.new.session.book.lazy }
        ensures follow { ValuesFollowStill self.old self.new }
        ensures marks { OnOk result (MarksReturned s.now back.now (to_undo self.old.session) self.old.values.values self.new.values.values) }
    {
        let touched = touched_by(&self.session, back)?;
        let restored = restored_by(&self.session)?;
        self.values
            .take_back(s, back, touched.items(), restored.items())?;
        match self.session.undo() {
            Ok(()) => Ok(()),
            Err(error) => {
                self.values.forget();
                Err(error)
            }
        }
    }

    // Takes a step back that is no such operation.
    fn change_back(&mut self) -> Result<(), AllocError>
        requires { self.old.session.batch ≡ None }
        ensures ok { OnOk result (state_of self.new ≡ done op.undo (state_of self.old)) }
        ensures err { OnErr result (state_of self.new ≡ state_of self.old) }
        ensures line_err { OnErr result (KeepsLineIn self.old.session self.new.session) }
        ensures kept { KeepsAll self.old.session.book.lazy self.new.session.book.lazy }
        ensures follow { ValuesFollowStill self.old self.new }
        ensures marks { AreOfCells (to_undo self.old.session) → AreTouched (is_listed (to_undo self.old.session)) self.old.values.values self.new.values.values }
        ensures parts { OnOk result (¬ AreOfCells (to_undo self.old.session) → MarksPartsBack self.old.session (to_undo self.old.session) self.old.values.values self.new.values.values) }
    {
        if let Some(name) = self.session.name_undone() {
            return self.name_back(&name);
        }
        if are_of_cells(self.session.parts_undone()) {
            return self.cells_back();
        }
        self.parts_back()
    }

    // Takes a step back that is this change of a name.
    fn name_back(&mut self, name: &NameChange) -> Result<(), AllocError>
        requires closed { self.old.session.batch ≡ None }
        requires name { name_of (to_undo self.old.session) ≡ Some (name_change name.now) }
        ensures ok { OnOk result (state_of self.new ≡ done op.undo (state_of self.old)) }
        ensures err { OnErr result (state_of self.new ≡ state_of self.old) }
        ensures line_err { OnErr result (KeepsLineIn self.old.session self.new.session) }
        ensures kept { KeepsAll self.old.session.book.lazy self.new.session.book.lazy }
        ensures follow { ValuesFollowStill self.old self.new }
        ensures marks { AreOfCells (to_undo self.old.session) → AreTouched (is_listed (to_undo self.old.session)) self.old.values.values self.new.values.values }
        ensures parts { OnOk result (MarksPartsBack self.old.session (to_undo self.old.session) self.old.values.values self.new.values.values) }
    {
        self.session.undo()?;
        self.values
            .name_turned(&self.session, key_of(name), turn_back(name));
        Ok(())
    }

    // Takes a step back that is changes of cells alone.
    fn cells_back(&mut self) -> Result<(), AllocError>
        requires { self.old.session.batch ≡ None }
        ensures ok { OnOk result (state_of self.new ≡ done op.undo (state_of self.old)) }
        ensures err { OnErr result (state_of self.new ≡ state_of self.old) }
        ensures line_err { OnErr result (KeepsLineIn self.old.session self.new.session) }
        ensures kept { KeepsAll self.old.session.book.lazy self.new.session.book.lazy }
        ensures follow { ValuesFollowStill self.old self.new }
        ensures marks { AreOfCells (to_undo self.old.session) → AreTouched (is_listed (to_undo self.old.session)) self.old.values.values self.new.values.values }
    {
        touch_undone(&self.session, &mut self.values)?;
        self.session.undo()
    }

    // Takes a step back that is anything else.
    fn parts_back(&mut self) -> Result<(), AllocError>
        requires closed { self.old.session.batch ≡ None }
        requires more { ¬ AreOfCells (to_undo self.old.session) }
        ensures ok { OnOk result (state_of self.new ≡ done op.undo (state_of self.old)) }
        ensures err { OnErr result (state_of self.new ≡ state_of self.old) }
        ensures line_err { OnErr result (KeepsLineIn self.old.session self.new.session) }
        ensures kept { KeepsAll self.old.session.book.lazy self.new.session.book.lazy }
        ensures follow { ValuesFollowStill self.old self.new }
        ensures marks { AreOfCells (to_undo self.old.session) → AreTouched (is_listed (to_undo self.old.session)) self.old.values.values self.new.values.values }
        ensures parts { OnOk result (MarksPartsBack self.old.session (to_undo self.old.session) self.old.values.values self.new.values.values) }
    {
        self.values
            .parts_turned_back(&self.session, self.session.parts_undone());
        match self.session.undo() {
            Ok(()) => Ok(()),
            Err(error) => {
                self.values.forget();
                Err(error)
            }
        }
    }

    // Does the step again that was taken back last, likewise.
    pub(crate) fn step_forth(&mut self) -> Result<(), AllocError>
        requires fits { Fits self.old }
        requires closed { self.old.session.batch ≡ None }
        ensures ok { OnOk result (state_of self.new ≡ done op.redo (state_of self.old)) }
        ensures err { OnErr result (state_of self.new ≡ state_of self.old) }
        ensures line_err { OnErr result (KeepsLineIn self.old.session self.new.session) }
        ensures kept { KeepsAll self.old.session.book.lazy self.new.session.book.lazy }
        ensures follow { ValuesFollowStill self.old self.new }
        ensures marks { OnOk result (MarksRedoneIn self.old.session self.old.values.values self.new.values.values) }
    {
        match with_opposite(self.session.operation_redone()) {
            Some((s, _)) => self.operation_forth(&s),
            None => self.change_forth(),
        }
    }

    // Does a step again that is this operation.
    fn operation_forth(&mut self, s: &Shift) -> Result<(), AllocError>
        requires fits { Fits self.old }
        requires closed { self.old.session.batch ≡ None }
        requires operation { operation_of (line_of self.old.session.book) (to_redo self.old.session) ≡ Some s.now }
        requires names { drops_scope (form_of s.now) no_sheet ≡ false }
        ensures ok { OnOk result (state_of self.new ≡ done op.redo (state_of self.old)) }
        ensures err { OnErr result (state_of self.new ≡ state_of self.old) }
        ensures line_err { OnErr result (KeepsLineIn self.old.session self.new.session) }
        ensures kept { KeepsAll self.old.session.book.lazy self.new.session.book.lazy }
        ensures follow { ValuesFollowStill self.old self.new }
        ensures marks { OnOk result (MarksAlong s.now self.old.values.values self.new.values.values) }
    {
        let touched = touched_by(&self.session, s)?;
        self.values.shift(s, touched.items())?;
        match self.session.redo() {
            Ok(()) => Ok(()),
            Err(error) => {
                self.values.forget();
                Err(error)
            }
        }
    }

    // Does a step again that is no such operation.
    fn change_forth(&mut self) -> Result<(), AllocError>
        requires { self.old.session.batch ≡ None }
        ensures ok { OnOk result (state_of self.new ≡ done op.redo (state_of self.old)) }
        ensures err { OnErr result (state_of self.new ≡ state_of self.old) }
        ensures line_err { OnErr result (KeepsLineIn self.old.session self.new.session) }
        ensures kept { KeepsAll self.old.session.book.lazy self.new.session.book.lazy }
        ensures follow { ValuesFollowStill self.old self.new }
        ensures marks { AreOfCells (to_redo self.old.session) → AreTouched (is_listed (to_redo self.old.session)) self.old.values.values self.new.values.values }
        ensures parts { OnOk result (¬ AreOfCells (to_redo self.old.session) → MarksPartsForth self.old.session (to_redo self.old.session) self.old.values.values self.new.values.values) }
    {
        if let Some(name) = self.session.name_redone() {
            return self.name_forth(&name);
        }
        if are_of_cells(self.session.parts_redone()) {
            return self.cells_forth();
        }
        self.parts_forth()
    }

    // Does a step again that is this change of a name.
    fn name_forth(&mut self, name: &NameChange) -> Result<(), AllocError>
        requires closed { self.old.session.batch ≡ None }
        requires name { name_of (to_redo self.old.session) ≡ Some (name_change name.now) }
        ensures ok { OnOk result (state_of self.new ≡ done op.redo (state_of self.old)) }
        ensures err { OnErr result (state_of self.new ≡ state_of self.old) }
        ensures line_err { OnErr result (KeepsLineIn self.old.session self.new.session) }
        ensures kept { KeepsAll self.old.session.book.lazy self.new.session.book.lazy }
        ensures follow { ValuesFollowStill self.old self.new }
        ensures marks { AreOfCells (to_redo self.old.session) → AreTouched (is_listed (to_redo self.old.session)) self.old.values.values self.new.values.values }
        ensures parts { OnOk result (MarksPartsForth self.old.session (to_redo self.old.session) self.old.values.values self.new.values.values) }
    {
        self.session.redo()?;
        self.values
            .name_turned(&self.session, key_of(name), turn_forth(name));
        Ok(())
    }

    // Does a step again that is changes of cells alone.
    fn cells_forth(&mut self) -> Result<(), AllocError>
        requires { self.old.session.batch ≡ None }
        ensures ok { OnOk result (state_of self.new ≡ done op.redo (state_of self.old)) }
        ensures err { OnErr result (state_of self.new ≡ state_of self.old) }
        ensures line_err { OnErr result (KeepsLineIn self.old.session self.new.session) }
        ensures kept { KeepsAll self.old.session.book.lazy self.new.session.book.lazy }
        ensures follow { ValuesFollowStill self.old self.new }
        ensures marks { AreOfCells (to_redo self.old.session) → AreTouched (is_listed (to_redo self.old.session)) self.old.values.values self.new.values.values }
    {
        touch_redone(&self.session, &mut self.values)?;
        self.session.redo()
    }

    // Does a step again that is anything else.
    fn parts_forth(&mut self) -> Result<(), AllocError>
        requires closed { self.old.session.batch ≡ None }
        requires more { ¬ AreOfCells (to_redo self.old.session) }
        ensures ok { OnOk result (state_of self.new ≡ done op.redo (state_of self.old)) }
        ensures err { OnErr result (state_of self.new ≡ state_of self.old) }
        ensures line_err { OnErr result (KeepsLineIn self.old.session self.new.session) }
        ensures kept { KeepsAll self.old.session.book.lazy self.new.session.book.lazy }
        ensures follow { ValuesFollowStill self.old self.new }
        ensures marks { AreOfCells (to_redo self.old.session) → AreTouched (is_listed (to_redo self.old.session)) self.old.values.values self.new.values.values }
        ensures parts { OnOk result (MarksPartsForth self.old.session (to_redo self.old.session) self.old.values.values self.new.values.values) }
    {
        self.values
            .parts_turned_forth(&self.session, self.session.parts_redone());
        match self.session.redo() {
            Ok(()) => Ok(()),
            Err(error) => {
                self.values.forget();
                Err(error)
            }
        }
    }
}

// The operation, with the one that takes it back; `None` where there is none, or none takes it back.
fn with_opposite(s: Option<Shift>) -> Option<(Shift, Shift)>
    requires { IfSome s IsSound }
    ensures both { result ≡ with_opposite_of s }
    ensures operation { IfSome result (λ both. s ≡ Some both.0) }
    ensures opposite { IfSome result (λ both. opposite_of both.0 ≡ Some both.1) }
{
    let s = s?;
    let back = s.opposite()?;
    Some((s, back))
}

// What a name stands under that a step lists.
fn key_of(name: &NameChange) -> NameKey
    ensures { result ≡ (name_change name.now).0 }
{
    NameKey {
        scope: name.scope,
        word: name.word,
    }
}

// What becomes of a name whose change is taken back.
fn turn_back(name: &NameChange) -> NameTurn
    ensures { result ≡ turn_of (is_some name.now.after) (is_some name.now.before) }
{
    NameTurn::of(name.after.is_some(), name.before.is_some())
}

// What becomes of a name whose change is done again.
fn turn_forth(name: &NameChange) -> NameTurn
    ensures { result ≡ turn_of (is_some name.now.before) (is_some name.now.after) }
{
    NameTurn::of(name.before.is_some(), name.after.is_some())
}

// Marks the cells of the step that is going to be taken back.
fn touch_undone(session: &Session, values: &mut SessionValues) -> Result<(), AllocError>
    ensures touched { AreTouchedAtMost (is_listed (to_undo session.now)) values.old.values values.new.values }
    ensures cells { AreOfCells (to_undo session.now) → AreTouched (is_listed (to_undo session.now)) values.old.values values.new.values }
    ensures marked { OnOk result (IsStepMarked (to_undo session.now) values.new.values) }
{
    match session.steps.done().back() {
        Some(step) => values.touch_step(step),
        None => Ok(()),
    }
}

// Marks the cells of the step that is going to be done again.
fn touch_redone(session: &Session, values: &mut SessionValues) -> Result<(), AllocError>
    ensures touched { AreTouchedAtMost (is_listed (to_redo session.now)) values.old.values values.new.values }
    ensures cells { AreOfCells (to_redo session.now) → AreTouched (is_listed (to_redo session.now)) values.old.values values.new.values }
    ensures marked { OnOk result (IsStepMarked (to_redo session.now) values.new.values) }
{
    match session.steps.undone().last() {
        Some(step) => values.touch_step(step),
        None => Ok(()),
    }
}
