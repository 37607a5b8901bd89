// Steps that are undone and done again, batches of changes, and suspension.
ghost use Rattle.std.specs.Prelude.{◌≡◌, None, [], true, false, OnOk, OnErr};
ghost use Rattle.lazy_store.specs.Store.{KeepsAll};
ghost use Rattle.name_table.specs.Named.{words_of};
ghost use Rattle.shift_line.specs.Track.{with_spare};
ghost use Rattle.book_model.specs.Session.{closed, opened, redone, undone};
ghost use Rattle.kept_book.specs.Kept.{frame_of, line_of};
ghost use Rattle.kept_book.specs.Walk.{back_all, forth_all};

use crate::entry::Entry;
use crate::noting::close;
use crate::session::Session;
use std::alloc::AllocError;

impl Session {
    ghost use Rattle.kept_steps.specs.Parts.{Turns};
    ghost use Rattle.kept_steps.specs.Session.{state_of};
    ghost use Rattle.kept_steps.specs.Turned.{AreOfCells, DifferAmong, ListsLost, Operates, RenamesBack, RenamesForth, is_listed, to_redo, to_undo};

    /// Opens a batch: the changes until [`Session::commit`] are one step. None is open.
    pub fn begin(&mut self)
        requires { self.old.batch ≡ None }
        ensures state { state_of self.new ≡ opened (state_of self.old) }
        ensures book { self.new.book ≡ self.old.book }
    {
        self.batch = Some(Entry {
            parts: Vec::new(self.book.alloc),
        });
    }

    /// Closes the batch; where a change came in it, it is a step.
    pub fn commit(&mut self)
        ensures state { state_of self.new ≡ closed (state_of self.old).batch (state_of self.old) }
        ensures book { self.new.book ≡ self.old.book }
    {
        close(&mut self.steps, self.batch.take());
    }

    /// Forgets the steps that can be undone and those that can be done again. An open batch stays, with its changes. No formula is
    /// touched, and the line keeps its operations. Costs what the steps list.
    pub fn forget_steps(&mut self)
        ensures state { state_of self.new ≡ record (state_of self.old) { undo = []; redo = [] } }
        ensures book { self.new.book ≡ self.old.book }
    {
        self.steps.clear();
    }

    /// Stops the computation of values.
    pub fn suspend(&mut self)
        ensures state { state_of self.new ≡ record (state_of self.old) { suspended = true } }
        ensures book { self.new.book ≡ self.old.book }
    {
        self.suspended = true;
    }

    /// Lets the computation of values go on.
    pub fn resume(&mut self)
        ensures state { state_of self.new ≡ record (state_of self.old) { suspended = false } }
        ensures book { self.new.book ≡ self.old.book }
    {
        self.suspended = false;
    }

    /// Takes the newest step back, if there is one; no batch is open. No formula is touched, and the line keeps its operations.
    /// Where the step has no operation and lists no name, no other cell changes than those that it lists, and no name. Where it is
    /// one structural operation ([`Session::operation_undone`]), that makes the workbook before this call of the one after it, and the
    /// step lists each cell that it loses. Where it is one change of a name ([`Session::name_undone`]), that name alone has another
    /// formula. Where it is several changes, so it is of each of them, from one workbook between them to the next. For want of
    /// memory the session is as it was.
    ///
    /// Costs the cells, names and sheets that the step lists, and what taking its operations back costs the grid; where it changed a
    /// sheet, the number of sheets too.
    pub fn undo(&mut self) -> Result<(), AllocError>
        requires closed { self.old.batch ≡ None }
        ensures ok { OnOk result (state_of self.new ≡ undone (state_of self.old).undo (state_of self.old)) }
        ensures err { OnErr result (state_of self.new ≡ state_of self.old) }
        ensures frame { OnOk result (frame_of self.new.book ≡ back_all (line_of self.old.book) (to_undo self.old) (frame_of self.old.book)) }
        ensures others { OnOk result (AreOfCells (to_undo self.old) → DifferAmong (is_listed (to_undo self.old)) (state_of self.old).book (state_of self.new).book) }
        ensures operation { OnOk result (Operates (line_of self.old.book) (to_undo self.old) (state_of self.new).book (state_of self.old).book) }
        ensures lost { OnOk result (ListsLost (line_of self.old.book) (to_undo self.old) (state_of self.new).book) }
        ensures name { OnOk result (RenamesBack (words_of self.old.book.names) (to_undo self.old) (state_of self.old).book (state_of self.new).book) }
        ensures parts { OnOk result (Turns (line_of self.old.book) (words_of self.old.book.names) (to_undo self.old) (state_of self.new).book (state_of self.old).book) }
        ensures words { words_of self.new.book.names ≡ words_of self.old.book.names }
        ensures line { OnOk result (self.new.book.lazy.line ≡ record self.old.book.lazy.line { cursor = self.new.book.lazy.line.cursor }) }
        ensures line_err { OnErr result (self.new.book.lazy.line ≡ with_spare self.new.book.lazy.line.spare self.old.book.lazy.line) }
        ensures kept { KeepsAll self.old.book.lazy self.new.book.lazy }
    {
        if let Some(entry) = self.steps.done().back() {
            self.book.back(&entry.parts)?;
            self.steps.step_back();
        }
        Ok(())
    }

    /// Does the step again that was undone last, if there is one; no batch is open. As [`Session::undo`] otherwise.
    pub fn redo(&mut self) -> Result<(), AllocError>
        requires closed { self.old.batch ≡ None }
        ensures ok { OnOk result (state_of self.new ≡ redone (state_of self.old).redo (state_of self.old)) }
        ensures err { OnErr result (state_of self.new ≡ state_of self.old) }
        ensures frame { OnOk result (frame_of self.new.book ≡ forth_all (line_of self.old.book) (to_redo self.old) (frame_of self.old.book)) }
        ensures others { OnOk result (AreOfCells (to_redo self.old) → DifferAmong (is_listed (to_redo self.old)) (state_of self.old).book (state_of self.new).book) }
        ensures operation { OnOk result (Operates (line_of self.old.book) (to_redo self.old) (state_of self.old).book (state_of self.new).book) }
        ensures lost { OnOk result (ListsLost (line_of self.old.book) (to_redo self.old) (state_of self.old).book) }
        ensures name { OnOk result (RenamesForth (words_of self.old.book.names) (to_redo self.old) (state_of self.old).book (state_of self.new).book) }
        ensures parts { OnOk result (Turns (line_of self.old.book) (words_of self.old.book.names) (to_redo self.old) (state_of self.old).book (state_of self.new).book) }
        ensures words { words_of self.new.book.names ≡ words_of self.old.book.names }
        ensures line { OnOk result (self.new.book.lazy.line ≡ record self.old.book.lazy.line { cursor = self.new.book.lazy.line.cursor }) }
        ensures line_err { OnErr result (self.new.book.lazy.line ≡ with_spare self.new.book.lazy.line.spare self.old.book.lazy.line) }
        ensures kept { KeepsAll self.old.book.lazy self.new.book.lazy }
    {
        if let Some(entry) = self.steps.undone().last() {
            self.book.forth(&entry.parts)?;
            self.steps.step_forward();
        }
        Ok(())
    }
}
