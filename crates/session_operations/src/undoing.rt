// Steps that can be undone and redone, batches of changes, and suspension.
ghost use Rattle.std.specs.Prelude.{◌≡◌, [], true, false, OnErr, OnOk};
ghost use Rattle.book_model.specs.Operation as op;
ghost use Rattle.book_model.specs.Refusals.{cause};
ghost use Rattle.lazy_store.specs.Store.{KeepsAll};
ghost use Rattle.session_operations.specs.Turns.{IsCause, NoAnswer, Turns};
ghost use Rattle.session_operations.specs.Kept.{KeepsLineIn, MarksRedoneIn, MarksUndoneIn};
ghost use Rattle.session_operations.specs.Seen.{Fits, ValuesFollowStill, state_of};

use crate::parts::Parts;
use crate::stop::Stop;
use book_model::Refusal;

impl Parts {
    /// Opens a batch: the changes until [`Parts::commit`] are one step. Costs nothing.
    ///
    /// # Errors
    /// `BatchOpen`.
    pub fn begin(&mut self) -> Result<(), Stop>
        requires { Fits self.old }
        ensures turns { Turns op.begin NoAnswer (state_of self.old) (state_of self.new) result }
        ensures fits { Fits self.new }
        ensures kept { KeepsAll self.old.session.book.lazy self.new.session.book.lazy }
        ensures follow { ValuesFollowStill self.old self.new }
        ensures values { self.new.values ≡ self.old.values }
    {
        self.check_begin()?;
        self.session.begin();
        Ok(())
    }

    /// Closes the batch; where a change came in it, it is a step. Costs what a step does that is forgotten for it.
    ///
    /// # Errors
    /// `NoBatch`.
    pub fn commit(&mut self) -> Result<(), Stop>
        requires { Fits self.old }
        ensures turns { Turns op.commit NoAnswer (state_of self.old) (state_of self.new) result }
        ensures fits { Fits self.new }
        ensures kept { KeepsAll self.old.session.book.lazy self.new.session.book.lazy }
        ensures follow { ValuesFollowStill self.old self.new }
        ensures values { self.new.values ≡ self.old.values }
    {
        self.check_commit()?;
        self.session.commit();
        Ok(())
    }

    /// Forgets the steps that can be undone and done again. The workbook stays, and an open batch. Costs what the steps list.
    pub fn clear_history(&mut self)
        requires { Fits self.old }
        ensures state { state_of self.new ≡ record (state_of self.old) { undo = []; redo = [] } }
        ensures fits { Fits self.new }
        ensures kept { KeepsAll self.old.session.book.lazy self.new.session.book.lazy }
        ensures line { self.new.session.book.lazy.line ≡ self.old.session.book.lazy.line }
        ensures follow { ValuesFollowStill self.old self.new }
        ensures values { self.new.values ≡ self.old.values }
    {
        self.session.forget_steps();
    }

    /// Stops the computation of values. Costs nothing.
    pub fn suspend(&mut self)
        requires { Fits self.old }
        ensures turns { state_of self.new ≡ record (state_of self.old) { suspended = true } }
        ensures fits { Fits self.new }
        ensures kept { KeepsAll self.old.session.book.lazy self.new.session.book.lazy }
        ensures follow { ValuesFollowStill self.old self.new }
        ensures values { self.new.values ≡ self.old.values }
    {
        self.session.suspend();
    }

    /// Lets the computation of values go on. Costs nothing.
    pub fn resume(&mut self)
        requires { Fits self.old }
        ensures turns { state_of self.new ≡ record (state_of self.old) { suspended = false } }
        ensures fits { Fits self.new }
        ensures kept { KeepsAll self.old.session.book.lazy self.new.session.book.lazy }
        ensures follow { ValuesFollowStill self.old self.new }
        ensures values { self.new.values ≡ self.old.values }
    {
        self.session.resume();
    }

    /// Why [`Parts::begin`] would be refused now, if it would: the first cause that holds. Costs nothing.
    pub fn check_begin(&self) -> Result<(), Refusal>
        ensures { IsCause result (cause op.begin (state_of self.now)) }
    {
        if self.session.batch.is_some() {
            return Err(Refusal::BatchOpen);
        }
        Ok(())
    }

    /// Why [`Parts::commit`] would be refused now, if it would: the first cause that holds. Costs nothing.
    pub fn check_commit(&self) -> Result<(), Refusal>
        ensures { IsCause result (cause op.commit (state_of self.now)) }
    {
        if self.session.batch.is_none() {
            return Err(Refusal::NoBatch);
        }
        Ok(())
    }

    /// Why [`Parts::undo`] would be refused now, if it would: the first cause that holds. Costs nothing.
    pub fn check_undo(&self) -> Result<(), Refusal>
        ensures { IsCause result (cause op.undo (state_of self.now)) }
    {
        if self.session.batch.is_some() {
            return Err(Refusal::BatchOpen);
        }
        if self.session.steps.done().is_empty() {
            return Err(Refusal::NothingToUndo);
        }
        Ok(())
    }

    /// Why [`Parts::redo`] would be refused now, if it would: the first cause that holds. Costs nothing.
    pub fn check_redo(&self) -> Result<(), Refusal>
        ensures { IsCause result (cause op.redo (state_of self.now)) }
    {
        if self.session.batch.is_some() {
            return Err(Refusal::BatchOpen);
        }
        if self.session.steps.undone().is_empty() {
            return Err(Refusal::NothingToRedo);
        }
        Ok(())
    }

    /// Goes back to the workbook from before the last step; what is kept of values goes back with it, as far as its changes can be
    /// followed. Costs the cells, names and sheets that the step changed, each with the logarithm of the number of those that there
    /// are, and the lines that its operations edited.
    ///
    /// # Errors
    /// `BatchOpen`, `NothingToUndo`.
    pub fn undo(&mut self) -> Result<(), Stop>
        requires { Fits self.old }
        ensures turns { Turns op.undo NoAnswer (state_of self.old) (state_of self.new) result }
        ensures line_err { OnErr result (KeepsLineIn self.old.session self.new.session) }
        ensures fits { Fits self.new }
        ensures kept { KeepsAll self.old.session.book.lazy self.new.session.book.lazy }
        ensures follow { ValuesFollowStill self.old self.new }
        ensures marks { OnOk result (MarksUndoneIn self.old.session self.old.values.values self.new.values.values) }
    {
        self.check_undo()?;
        self.step_back()?;
        Ok(())
    }

    /// Goes forward again, after an undo, to the workbook from after the step; costs what [`Parts::undo`] does.
    ///
    /// # Errors
    /// `BatchOpen`, `NothingToRedo`.
    pub fn redo(&mut self) -> Result<(), Stop>
        requires { Fits self.old }
        ensures turns { Turns op.redo NoAnswer (state_of self.old) (state_of self.new) result }
        ensures line_err { OnErr result (KeepsLineIn self.old.session self.new.session) }
        ensures fits { Fits self.new }
        ensures kept { KeepsAll self.old.session.book.lazy self.new.session.book.lazy }
        ensures follow { ValuesFollowStill self.old self.new }
        ensures marks { OnOk result (MarksRedoneIn self.old.session self.old.values.values self.new.values.values) }
    {
        self.check_redo()?;
        self.step_forth()?;
        Ok(())
    }
}
