// The engine, and its calls.
ghost use Rattle.std.specs.Prelude.{◌≡◌, ◌≤◌, [], All, IfOk, OnErr, OnOk, length, option_map};
ghost use Rattle.cell_addr.specs.Place.{covers, same_place};
ghost use Rattle.cell_addr.specs.Sheets.{id_in, name_in};
ghost use Rattle.shift_core.specs.declared.shift.Shift.TheVariants as shifts;
ghost use Rattle.dep_graph.specs.Nodes.{items_of};
ghost use Rattle.formula_tree.specs.Relative.{relative};
ghost use Rattle.book_model.specs.Answers.{content_text, dependents_of, formula_of, name_value_of, precedents_of, tried_value, value_of};
ghost use Rattle.book_model.specs.Clipboard.{nothing};
ghost use Rattle.book_model.specs.Given.{CanBegin, given_sheets, session_given};
ghost use Rattle.book_model.specs.Operation as op;
ghost use Rattle.book_model.specs.Workbook.{State, first_sheet};
ghost use Rattle.book_model.specs.Sound.{IsLinkInside};
ghost use Rattle.book_model.specs.declared.limits.TheConstants.{MAX_UNDO};
ghost use Rattle.session_questions.specs.Seen.{Fits, ValuesFollow, with_clipboard};
ghost use Rattle.session_questions.specs.Refreshed.{IsUnmarked};
ghost use Rattle.book_engine.specs.internal.FitsProp.{fits-prop};
ghost use Rattle.book_engine.specs.internal.FollowProp.{follow-prop};

use book_model::{BookSheet, Refusal};
use calc_eval::Customs;
use cell_addr::{Block, Place, SheetNames, Text};
use cell_value::Scalar;
use clip_board::Clip;
use dep_graph::Nodes;
use formula_tree::Link;
use kept_steps::Entry;
use lazy_store::Stored;
use session_questions::{Parts, Stop, Waiting, dependents, precedents};
use shift_core::Shift;
use shift_line::Line;
use std::alloc::{AllocError, Global};
use std::sync::ledger::Ledger;
use steps::Steps;
use undo_book::UndoBook;

/// A workbook of several sheets, with all calls that change it and ask about it.
///
/// Rows and columns are counted from 0. A call that is refused, or that wants memory, leaves the workbook as it was.
///
/// Values are kept from one read to the next. The first read of a value works the whole workbook out. A change marks what it
/// touches, and the next read works out what the marks reach, each cell and name once, in an order in which each comes after what it
/// needs; nothing is worked out before that. A change of cells and a paste mark these cells; a structural operation takes along what
/// is kept, and marks the formulas that it bends or that ask where a reference is, the cells of a moved block and of where it goes,
/// and the names of a dropped sheet; a name that gets another formula is marked, with one that is removed each formula that used it,
/// and with one that is added each formula that uses its word where that found none. Undo and redo of changes of cells mark these, of
/// a change of a name what that touches, and of a structural operation they take back or along what is kept; where a dropped sheet comes back,
/// its cells and names are marked, and each formula that had lost a reference; a step of several such changes they follow one after
/// the other. Of a block that was moved among other changes all places are marked, or, where these are more than the workbook's filled
/// cells, the next read works the whole workbook out. Each change, undo and redo says by a clause, `marks`, `left` or `values`, which
/// marks there are after it.
pub struct Engine<C: Customs> {
    pub(crate) parts: Parts,
    pub(crate) waiting: Waiting,
    pub(crate) customs: C,
    pub(crate) day: i32,
    ghost fits: { Fits parts } by { fits-prop parts },
    ghost follow: { ValuesFollow (C.customs customs) day parts } by { follow-prop (C.customs customs) day parts },
}

// Written out, so that whoever drops an engine calls one function.
impl<C: Customs> Drop for Engine<C> {
    fn drop(self) {
        let Engine {
            parts: _parts,
            waiting: _waiting,
            customs: _customs,
            day: _,
        } = self;
    }
}

impl<C: Customs> Engine<C> {
    // What it consists of.
    pub(crate) fn into_fields(self) -> (Parts, Waiting, C, i32)
        ensures parts { result.0 ≡ self.parts }
        ensures waiting { result.1 ≡ self.waiting }
        ensures customs { result.2 ≡ self.customs }
        ensures day { result.3 ≡ self.day }
    {
        let Engine {
            parts,
            waiting,
            customs,
            day,
        } = self;
        (parts, waiting, customs, day)
    }
}

#[tactic(auto, unfolding(crate::specs::Engine::StandsFor))]
impl<C: Customs> Engine<C> {
    ghost use Rattle.book_engine.specs.Engine.{Does, DoesAlways, StandsFor};
    ghost use Rattle.session_questions.specs.Turns.{NoAnswer};
    ghost use Rattle.book_engine.specs.Kept.{GoesOn, KeepsAll, KeepsAtPaste, KeepsAtShift, KeepsEarlier, KeepsElsewhere, KeepsInUse, KeepsLine, KeepsValues, LeavesLine, MarksCells, MarksNameAdded, MarksNameChanged, MarksNameRemoved, MarksOperation, MarksPaste, MarksRedone, MarksUndone, TriesOut, WorksOut, book_kept, marks_kept, merged_kept, stored_by, values_kept};
    ghost use Rattle.session_questions.specs.Kept.{whole_sheet};

    /// The engine of a workbook with these sheets, numbered from 0 in their order, and these texts in their cells. All
    /// formulas are read when all sheets are there. At most `limit` steps can be undone, which is at most 1,000. Formulas
    /// call the custom functions of the registry, and TODAY is the day of this serial number.
    pub fn build(
        alloc: Global,
        books: &[BookSheet],
        limit: u16,
        registry: C,
        day: i32,
    ) -> Result<Engine<C>, AllocError>
        requires can { CanBegin (given_sheets books.now) }
        requires limit { limit ≤ MAX_UNDO }
        ensures { IfOk result (λ engine. StandsFor C.customs engine (session_given limit (C.customs registry) day (given_sheets books.now))) }
    {
        let parts = Parts::build(alloc, books, limit)?;
        Ok(Engine {
            parts,
            waiting: Waiting::nothing(),
            customs: registry,
            day,
        })
    }

    /// Gives a cell the content that the text says: nothing, a formula, a number, a truth value or a text. A formula that
    /// has no tree is kept as its text.
    ///
    /// # Errors
    /// `NoSheet`, `Outside` where the place isn't within the limits of a sheet, `TextLimit` past 8,192 bytes, `CellLimit`
    /// where more than 1,000,000 cells would be filled; the first that holds.
    pub fn set(&mut self, at: Place, text: &str) -> Result<(), Stop>
        ensures does { Does C.customs (op.set at text.now) NoAnswer self.old self.new result }
        ensures kept { KeepsInUse self.old self.new }
        ensures marks { MarksCells (same_place at) self.old self.new }
    {
        self.parts.set(at, text)?;
        self.waiting.clear_cut();
        Ok(())
    }

    /// Empties the cells of a block.
    ///
    /// # Errors
    /// `NoSheet`, `Outside` where the block isn't within the limits of a sheet.
    pub fn clear(&mut self, area: Block) -> Result<(), Stop>
        ensures does { Does C.customs (op.clear area) NoAnswer self.old self.new result }
        ensures kept { KeepsEarlier self.old self.new }
        ensures marks { MarksCells (covers area) self.old self.new }
    {
        self.parts.clear(area)?;
        self.waiting.clear_cut();
        Ok(())
    }

    // Does a structural operation, after which no block is cut.
    fn structural(&mut self, s: Shift) -> Result<(), Stop>
        ensures does { Does C.customs (op.structural s) NoAnswer self.old self.new result }
        ensures line { OnOk result (GoesOn s self.old self.new) }
        ensures line_err { LeavesLine result self.old self.new }
        ensures kept { KeepsAtShift self.old self.new }
        ensures marks { OnOk result (MarksOperation s self.old self.new) }
    {
        self.parts.structural(&s)?;
        self.waiting.clear_cut();
        Ok(())
    }

    /// Puts so many rows before a row of the sheet.
    ///
    /// # Errors
    /// `NoSheet`, `BadSpan` for no rows, `Outside` where the row isn't on the sheet, `SizeLimit` where a filled cell would
    /// be pushed off the sheet.
    pub fn insert_rows(&mut self, sheet: u32, at: u32, count: u32) -> Result<(), Stop>
        ensures does { Does C.customs (op.structural (shifts.InsertRows sheet at count)) NoAnswer self.old self.new result }
        ensures line { OnOk result (GoesOn (shifts.InsertRows sheet at count) self.old self.new) }
        ensures line_err { LeavesLine result self.old self.new }
        ensures kept { KeepsAtShift self.old self.new }
        ensures marks { OnOk result (MarksOperation (shifts.InsertRows sheet at count) self.old self.new) }
    {
        self.structural(Shift::InsertRows { sheet, at, count })
    }

    /// Deletes so many rows of the sheet from a row on, with their cells.
    ///
    /// # Errors
    /// `NoSheet`, `BadSpan` for no rows, `Outside` where the rows end behind the sheet.
    pub fn delete_rows(&mut self, sheet: u32, at: u32, count: u32) -> Result<(), Stop>
        ensures does { Does C.customs (op.structural (shifts.DeleteRows sheet at count)) NoAnswer self.old self.new result }
        ensures line { OnOk result (GoesOn (shifts.DeleteRows sheet at count) self.old self.new) }
        ensures line_err { LeavesLine result self.old self.new }
        ensures kept { KeepsAtShift self.old self.new }
        ensures marks { OnOk result (MarksOperation (shifts.DeleteRows sheet at count) self.old self.new) }
    {
        self.structural(Shift::DeleteRows { sheet, at, count })
    }

    /// Puts so many columns before a column of the sheet. Its errors are those of [`Engine::insert_rows`].
    pub fn insert_cols(&mut self, sheet: u32, at: u32, count: u32) -> Result<(), Stop>
        ensures does { Does C.customs (op.structural (shifts.InsertCols sheet at count)) NoAnswer self.old self.new result }
        ensures line { OnOk result (GoesOn (shifts.InsertCols sheet at count) self.old self.new) }
        ensures line_err { LeavesLine result self.old self.new }
        ensures kept { KeepsAtShift self.old self.new }
        ensures marks { OnOk result (MarksOperation (shifts.InsertCols sheet at count) self.old self.new) }
    {
        self.structural(Shift::InsertCols { sheet, at, count })
    }

    /// Deletes so many columns of the sheet from a column on. Its errors are those of [`Engine::delete_rows`].
    pub fn delete_cols(&mut self, sheet: u32, at: u32, count: u32) -> Result<(), Stop>
        ensures does { Does C.customs (op.structural (shifts.DeleteCols sheet at count)) NoAnswer self.old self.new result }
        ensures line { OnOk result (GoesOn (shifts.DeleteCols sheet at count) self.old self.new) }
        ensures line_err { LeavesLine result self.old self.new }
        ensures kept { KeepsAtShift self.old self.new }
        ensures marks { OnOk result (MarksOperation (shifts.DeleteCols sheet at count) self.old self.new) }
    {
        self.structural(Shift::DeleteCols { sheet, at, count })
    }

    /// Moves so many rows of the sheet from a row on to before another row.
    ///
    /// # Errors
    /// `NoSheet`, `BadSpan` for no rows, `Outside` where the rows or the row before which they come lie behind the sheet,
    /// `BadSpan` where they would stay.
    pub fn move_rows(&mut self, sheet: u32, from: u32, count: u32, before: u32) -> Result<(), Stop>
        ensures does { Does C.customs (op.structural (shifts.MoveRows sheet from count before)) NoAnswer self.old self.new result }
        ensures line { OnOk result (GoesOn (shifts.MoveRows sheet from count before) self.old self.new) }
        ensures line_err { LeavesLine result self.old self.new }
        ensures kept { KeepsAtShift self.old self.new }
        ensures marks { OnOk result (MarksOperation (shifts.MoveRows sheet from count before) self.old self.new) }
    {
        self.structural(Shift::MoveRows {
            sheet,
            from,
            count,
            before,
        })
    }

    /// Moves so many columns of the sheet from a column on to before another one. Its errors are those of
    /// [`Engine::move_rows`].
    pub fn move_cols(&mut self, sheet: u32, from: u32, count: u32, before: u32) -> Result<(), Stop>
        ensures does { Does C.customs (op.structural (shifts.MoveCols sheet from count before)) NoAnswer self.old self.new result }
        ensures line { OnOk result (GoesOn (shifts.MoveCols sheet from count before) self.old self.new) }
        ensures line_err { LeavesLine result self.old self.new }
        ensures kept { KeepsAtShift self.old self.new }
        ensures marks { OnOk result (MarksOperation (shifts.MoveCols sheet from count before) self.old self.new) }
    {
        self.structural(Shift::MoveCols {
            sheet,
            from,
            count,
            before,
        })
    }

    /// Moves the cells of a block to the block of the same size that begins at a place. They replace what stood there, and
    /// leave the rest of their own block empty.
    ///
    /// # Errors
    /// `NoSheet` where one of the two sheets doesn't exist, `Outside` where one of the two blocks isn't within the limits of
    /// a sheet, `BadSpan` where they are the same.
    pub fn move_block(&mut self, source: Block, to: Place) -> Result<(), Stop>
        ensures does { Does C.customs (op.structural (shifts.MoveBlock source to)) NoAnswer self.old self.new result }
        ensures line { OnOk result (GoesOn (shifts.MoveBlock source to) self.old self.new) }
        ensures line_err { LeavesLine result self.old self.new }
        ensures kept { KeepsAtShift self.old self.new }
        ensures marks { OnOk result (MarksOperation (shifts.MoveBlock source to) self.old self.new) }
    {
        self.structural(Shift::MoveBlock { source, to })
    }

    /// Adds a sheet at the end of the list, and answers its number. A number is never given to another new sheet.
    ///
    /// # Errors
    /// `SheetNameInvalid` unless the name has 1 to 100 bytes and no control character, `SheetNameTaken` where a sheet has
    /// it, in some case of its ASCII letters, `SheetLimit` where all 1,024 numbers are used.
    pub fn add_sheet(&mut self, name: &str) -> Result<u32, Stop>
        ensures does { Does C.customs (op.add_sheet name.now) (λ d number. number ≡ d.next_sheet) self.old self.new result }
        ensures kept { KeepsAll self.old self.new }
        ensures values { KeepsValues self.old self.new }
    {
        let number = self.parts.add_sheet(name)?;
        self.waiting.clear_cut();
        Ok(number)
    }

    /// Drops a sheet with its cells. References to it are lost.
    ///
    /// # Errors
    /// `NoSheet`.
    pub fn drop_sheet(&mut self, sheet: u32) -> Result<(), Stop>
        ensures does { Does C.customs (op.structural (shifts.DropSheet sheet)) NoAnswer self.old self.new result }
        ensures line { OnOk result (GoesOn (shifts.DropSheet sheet) self.old self.new) }
        ensures line_err { LeavesLine result self.old self.new }
        ensures kept { KeepsAtShift self.old self.new }
        ensures marks { OnOk result (MarksOperation (shifts.DropSheet sheet) self.old self.new) }
    {
        self.structural(Shift::DropSheet { sheet })
    }

    /// Gives a sheet another name. Formulas keep pointing at it.
    ///
    /// # Errors
    /// `NoSheet`, `SheetNameInvalid`, `SheetNameTaken` where another sheet has it, as for [`Engine::add_sheet`].
    pub fn rename_sheet(&mut self, sheet: u32, name: &str) -> Result<(), Stop>
        ensures does { Does C.customs (op.rename_sheet sheet name.now) NoAnswer self.old self.new result }
        ensures kept { KeepsAll self.old self.new }
        ensures values { KeepsValues self.old self.new }
    {
        self.parts.rename_sheet(sheet, name)?;
        self.waiting.clear_cut();
        Ok(())
    }

    /// Empties the cells of a sheet.
    ///
    /// # Errors
    /// `NoSheet`.
    pub fn clear_sheet(&mut self, sheet: u32) -> Result<(), Stop>
        ensures does { Does C.customs (op.clear_sheet sheet) NoAnswer self.old self.new result }
        ensures kept { KeepsEarlier self.old self.new }
        ensures marks { MarksCells (covers (whole_sheet sheet)) self.old self.new }
    {
        self.parts.clear_sheet(sheet)?;
        self.waiting.clear_cut();
        Ok(())
    }

    /// Adds a name with the formula of the text: in the scope of a sheet, or of the whole workbook where there is none. Every
    /// reference of it has both `$`, and in a name of the whole workbook its sheet. Marks the name, each formula that uses its
    /// word where that found no name, and each that used the whole workbook's name of the word; or nothing is kept any more.
    ///
    /// # Errors
    /// `NoSheet` for a scope that doesn't exist, `NameInvalid` where the word isn't of the form of a name
    /// ([`book_model::is_name`]), `NameTaken` where the scope has the name, in some case of its ASCII letters, `TextLimit`
    /// past 8,192 bytes, `BadFormula` where the text is no formula, `RelativeAddress` where a reference lacks a `$` or its
    /// sheet; the first that holds.
    pub fn add_name(&mut self, name: &str, scope: Option<u32>, text: &str) -> Result<(), Stop>
        ensures does { Does C.customs (op.add_name name.now scope text.now) NoAnswer self.old self.new result }
        ensures kept { KeepsInUse self.old self.new }
        ensures marks { OnOk result (MarksNameAdded scope name.now self.old self.new) }
        ensures left { OnErr result (KeepsValues self.old self.new) }
    {
        self.parts.add_name(name, scope, text)?;
        self.waiting.clear_cut();
        Ok(())
    }

    /// Gives a name of the scope another formula. Marks the name alone; or nothing is kept any more.
    ///
    /// # Errors
    /// `NoSheet`, `NoSuchName` where the scope hasn't the name, and `TextLimit`, `BadFormula` and `RelativeAddress` as for
    /// [`Engine::add_name`].
    pub fn change_name(&mut self, name: &str, scope: Option<u32>, text: &str) -> Result<(), Stop>
        ensures does { Does C.customs (op.change_name name.now scope text.now) NoAnswer self.old self.new result }
        ensures kept { KeepsInUse self.old self.new }
        ensures marks { OnOk result (MarksNameChanged scope name.now self.old self.new) }
        ensures left { OnErr result (KeepsValues self.old self.new) }
    {
        self.parts.change_name(name, scope, text)?;
        self.waiting.clear_cut();
        Ok(())
    }

    /// Takes a name of the scope away. Marks the name, and each formula that used it; or nothing is kept any more.
    ///
    /// # Errors
    /// `NoSheet`, `NoSuchName`.
    pub fn remove_name(&mut self, name: &str, scope: Option<u32>) -> Result<(), Stop>
        ensures does { Does C.customs (op.remove_name name.now scope) NoAnswer self.old self.new result }
        ensures kept { KeepsInUse self.old self.new }
        ensures marks { OnOk result (MarksNameRemoved scope name.now self.old self.new) }
        ensures left { OnErr result (KeepsValues self.old self.new) }
    {
        self.parts.remove_name(name, scope)?;
        self.waiting.clear_cut();
        Ok(())
    }

    /// Copies a block: what its cells hold waits to be pasted, until something else is copied or cut. Later changes don't
    /// reach it. It is no step. Costs about the filled cells of the block.
    ///
    /// # Errors
    /// `NoSheet`, `Outside` where the block isn't within the limits of a sheet.
    pub fn copy(&mut self, area: Block) -> Result<(), Stop>
        ensures does { Does C.customs (op.copy area) NoAnswer self.old self.new result }
        ensures values { KeepsValues self.old self.new }
    {
        self.waiting = self.parts.copied(area)?;
        Ok(())
    }

    /// Cuts a block, which is moved where it is pasted; the next change ends that. It is no step. Its errors are those of
    /// [`Engine::copy`].
    pub fn cut(&mut self, area: Block) -> Result<(), Stop>
        ensures does { Does C.customs (op.cut area) NoAnswer self.old self.new result }
        ensures kept { KeepsAll self.old self.new }
        ensures values { KeepsValues self.old self.new }
    {
        self.parts.check_clear(area)?;
        self.waiting = Waiting::cut(area);
        Ok(())
    }

    /// Empties the clipboard: neither a copy nor a cut waits to be pasted any more. It is no step, and no open batch refuses it. Costs
    /// the cells that were copied.
    pub fn clear_clipboard(&mut self)
        ensures clears { (d : State) → StandsFor C.customs self.old d → StandsFor C.customs self.new (with_clipboard nothing d) }
        ensures line { KeepsLine self.old self.new }
        ensures kept { KeepsAll self.old self.new }
        ensures values { KeepsValues self.old self.new }
    {
        self.waiting = Waiting::nothing();
    }

    /// Pastes what waits, its first cell at a place. After a copy each cell of the block there holds what the copied one
    /// held, or nothing, and formulas are as far from what they name as before; after a cut the block is moved, and nothing
    /// waits then. Marks cells of the block there, or keeps nothing any more; after a cut marks what [`Engine::move_block`] does.
    /// Costs the copied cells and the filled ones of the block there, each with the logarithm of the number of filled cells.
    ///
    /// # Errors
    /// `NothingToPaste`; then after a copy `NoSheet`, `Outside` where the block there isn't within the limits of a sheet,
    /// `CellLimit` where more than 1,000,000 cells would be filled, and after a cut those of [`Engine::move_block`].
    pub fn paste(&mut self, at: Place) -> Result<(), Stop>
        ensures does { Does C.customs (op.paste at) NoAnswer self.old self.new result }
        ensures kept { KeepsAtPaste self.old.waiting.clip self.old self.new }
        ensures marks { OnOk result (MarksPaste self.old.waiting.clip at self.old self.new) }
    {
        if let Some(source) = self.waiting.cut_area() {
            return self.move_block(source, at);
        }
        let waiting = &self.waiting;
        match &waiting.clip {
            Clip::Copied(area, cells) => self.parts.paste(*area, cells.items(), at),
            Clip::Nothing | Clip::Cut(_) => Err(Stop::Refused(Refusal::NothingToPaste)),
        }
    }

    /// Opens a batch: the changes until [`Engine::commit`] are one step.
    ///
    /// # Errors
    /// `BatchOpen`.
    pub fn begin(&mut self) -> Result<(), Stop>
        ensures does { Does C.customs op.begin NoAnswer self.old self.new result }
        ensures kept { KeepsAll self.old self.new }
        ensures values { KeepsValues self.old self.new }
    {
        self.parts.begin()
    }

    /// Closes the batch. Without a change in it there is no step.
    ///
    /// # Errors
    /// `NoBatch`.
    pub fn commit(&mut self) -> Result<(), Stop>
        ensures does { Does C.customs op.commit NoAnswer self.old self.new result }
        ensures kept { KeepsAll self.old self.new }
        ensures values { KeepsValues self.old self.new }
    {
        self.parts.commit()
    }

    /// Stops the computation of values, until [`Engine::resume`]. Once more changes nothing.
    pub fn suspend(&mut self)
        ensures does { DoesAlways C.customs op.suspend self.old self.new }
        ensures kept { KeepsAll self.old self.new }
        ensures values { KeepsValues self.old self.new }
    {
        self.parts.suspend();
    }

    /// Lets the computation of values go on. Once more changes nothing.
    pub fn resume(&mut self)
        ensures does { DoesAlways C.customs op.resume self.old self.new }
        ensures kept { KeepsAll self.old self.new }
        ensures values { KeepsValues self.old self.new }
    {
        self.parts.resume();
    }

    /// Goes back to the whole workbook from before the last step. No formula is touched. Costs the cells, names and sheets that
    /// the step changed, each with the logarithm of the number of those that there are, and the lines that its operations edited;
    /// where the step changed a sheet, the number of sheets too. Neither the filled cells nor the names are copied.
    ///
    /// Where the step is one structural operation that has an opposite, what is kept of values goes back with it: marked are the
    /// cells that come back, the formulas that it may have bent, those that ask where a reference is or have lost one, and the
    /// cells of a block that goes back and of where that goes. Where it changed cells alone, these are marked, and where it is one
    /// change of a name, what that change touches. Where it is several changes, it is so with each of them, the last one first,
    /// where each is an operation on lines, a change of one name or of cells alone; after any other step nothing is kept any more.
    ///
    /// # Errors
    /// `BatchOpen`, `NothingToUndo`.
    pub fn undo(&mut self) -> Result<(), Stop>
        ensures does { Does C.customs op.undo NoAnswer self.old self.new result }
        ensures line_err { OnErr result (KeepsLine self.old self.new) }
        ensures kept { KeepsAll self.old self.new }
        ensures marks { OnOk result (MarksUndone self.old self.new) }
    {
        self.parts.undo()?;
        self.waiting.clear_cut();
        Ok(())
    }

    /// Goes forward again to the whole workbook from after the step that was undone last; a change ends that. Costs what
    /// [`Engine::undo`] does. Where the step is one structural operation that has an opposite, marks what that call does; where it
    /// changed cells alone, these; where it is one change of a name, what that change touches; where it is several of these, on
    /// lines, each of them, the first one first; after any other step nothing is kept any more.
    ///
    /// # Errors
    /// `BatchOpen`, `NothingToRedo`.
    pub fn redo(&mut self) -> Result<(), Stop>
        ensures does { Does C.customs op.redo NoAnswer self.old self.new result }
        ensures line_err { OnErr result (KeepsLine self.old self.new) }
        ensures kept { KeepsAll self.old self.new }
        ensures marks { OnOk result (MarksRedone self.old self.new) }
    {
        self.parts.redo()?;
        self.waiting.clear_cut();
        Ok(())
    }

    /// Forgets the steps that can be undone and those that can be done again: until the next change there is nothing to undo or redo.
    /// The workbook stays, what waits to be pasted too, and an open batch, whose changes still become one step. Costs what the
    /// steps list.
    pub fn clear_history(&mut self)
        ensures clears { (d : State) → StandsFor C.customs self.old d → StandsFor C.customs self.new (record d { undo = []; redo = [] }) }
        ensures line { KeepsLine self.old self.new }
        ensures kept { KeepsAll self.old self.new }
        ensures values { KeepsValues self.old self.new }
    {
        self.parts.clear_history();
    }

    /// What a cell shows. Costs a look-up where nothing changed since the last read of a value; else what the changes since then
    /// reach is worked out first, or the whole workbook where nothing is kept.
    ///
    /// # Errors
    /// `Suspended` where the computation is suspended or a batch is open, `NoSheet`, `Outside`.
    pub fn value<L: Ledger>(&mut self, at: Place, steps: &mut Steps<L>) -> Result<Scalar, Stop>
        ensures does { Does C.customs (op.value at) (λ d scalar. scalar ≡ value_of d at) self.old self.new result }
        ensures line { KeepsLine self.old self.new }
        ensures unmarked { OnOk result (IsUnmarked (values_kept self.new)) }
        ensures least { steps.old ≤ steps.new }
        ensures most { WorksOut C.customs self.old steps.old steps.new }
    {
        self.parts.value(at, &self.customs, self.day, steps)
    }

    /// What a name shows that the word finds on the sheet, in any case of its ASCII letters: the sheet's own, else that of
    /// the whole workbook. Costs what [`Engine::value`] does, and a look-up of the word.
    ///
    /// # Errors
    /// `Suspended`, `NoSheet`, `NoSuchName` where neither scope has the name.
    pub fn name_value<L: Ledger>(
        &mut self,
        name: &str,
        sheet: u32,
        steps: &mut Steps<L>,
    ) -> Result<Scalar, Stop>
        ensures does { Does C.customs (op.name_value name.now sheet) (λ d scalar. scalar ≡ name_value_of d name.now sheet) self.old self.new result }
        ensures line { KeepsLine self.old self.new }
        ensures unmarked { OnOk result (IsUnmarked (values_kept self.new)) }
        ensures least { steps.old ≤ steps.new }
        ensures most { WorksOut C.customs self.old steps.old steps.new }
    {
        self.parts
            .name_value(name, sheet, &self.customs, self.day, steps)
    }

    /// What the formula of the text would show in the first cell of the sheet. Nothing of it is kept. Costs what
    /// [`Engine::value`] does, and the steps of the formula.
    ///
    /// # Errors
    /// `Suspended`, `NoSheet`, `TextLimit` past 8,192 bytes, `BadFormula` where the text is no formula.
    pub fn try_formula<L: Ledger>(
        &mut self,
        sheet: u32,
        text: &str,
        steps: &mut Steps<L>,
    ) -> Result<Scalar, Stop>
        ensures does { Does C.customs (op.try_formula sheet text.now) (λ d scalar. scalar ≡ tried_value d sheet text.now) self.old self.new result }
        ensures line { KeepsLine self.old self.new }
        ensures unmarked { OnOk result (IsUnmarked (values_kept self.new)) }
        ensures least { steps.old ≤ steps.new }
        ensures most { TriesOut C.customs self.old sheet text.now steps.old steps.new }
    {
        self.parts
            .try_formula(sheet, text, &self.customs, self.day, steps)
    }

    /// The canonical text of a cell's formula, or the kept text of an unreadable one; `None` where the cell has none.
    ///
    /// # Errors
    /// `NoSheet`, `Outside`.
    pub fn formula(&mut self, at: Place) -> Result<Option<Text>, Stop>
        ensures does { Does C.customs (op.formula at) (λ d text. text ≡ formula_of d at) self.old self.new result }
        ensures line { KeepsLine self.old self.new }
        ensures kept { KeepsElsewhere at self.old self.new }
        ensures values { KeepsValues self.old self.new }
    {
        self.parts.formula(at)
    }

    /// The text that gives a cell its content, when [`Engine::set`] is given it.
    ///
    /// # Errors
    /// `NoSheet`, `Outside`.
    pub fn content(&mut self, at: Place) -> Result<Text, Stop>
        ensures does { Does C.customs (op.content at) (λ d text. text ≡ content_text d at) self.old self.new result }
        ensures line { KeepsLine self.old self.new }
        ensures kept { KeepsElsewhere at self.old self.new }
        ensures values { KeepsValues self.old self.new }
    {
        self.parts.content(at)
    }

    /// What a cell's formula needs, in whatever branch: its references and ranges, and the names that its words find, in the
    /// order of the formula, each once. A whole range, as `A:C`, is its block. A reference or range that is itself the
    /// argument of ROW, COLUMN, ROWS or COLUMNS is none of them; a name is. Costs about the nodes of the formula, and each
    /// link is compared with those listed before it.
    ///
    /// # Errors
    /// `NoSheet`, `Outside`.
    pub fn precedents(&mut self, at: Place) -> Result<Vec<Link>, Stop>
        ensures does { Does C.customs (op.precedents at) (λ d links. links.items ≡ precedents_of d at) self.old self.new result }
        ensures line { KeepsLine self.old self.new }
        ensures inside { IfOk result (λ links. All IsLinkInside links.items) }
        ensures kept { KeepsElsewhere at self.old self.new }
        ensures values { KeepsValues self.old self.new }
    {
        precedents(&mut self.parts, at)
    }

    /// The cells and then the names whose formulas need a cell by a reference or a range of their own: cells by the number
    /// of their sheet, row and column, names of the whole workbook before those of each sheet, by the bytes of their words
    /// in capitals. Costs the sorting of its answer, about the number of links to the cell and to the ranges that cover it,
    /// and the links of the formulas that changed since a value or dependents were read; where no values are kept, those of
    /// all formulas.
    ///
    /// # Errors
    /// `NoSheet`, `Outside`.
    pub fn dependents(&mut self, at: Place) -> Result<Vec<Link>, Stop>
        ensures does { Does C.customs (op.dependents at) (λ d links. links.items ≡ dependents_of d at) self.old self.new result }
        ensures line { KeepsLine self.old self.new }
        ensures inside { IfOk result (λ links. All IsLinkInside links.items) }
    {
        dependents(&mut self.parts, at)
    }

    /// The number of the sheet of this name, in any case of its ASCII letters.
    pub fn sheet_id(&self, name: &str) -> Option<u32>
        ensures { (d : State) → StandsFor C.customs self.now d → result ≡ id_in d.book.sheets name.now }
    {
        self.parts.session.book.names.id_of(name)
    }

    /// The first sheet of the list.
    pub fn first_sheet(&self) -> Option<u32>
        ensures { (d : State) → StandsFor C.customs self.now d → result ≡ first_sheet d.book }
    {
        self.parts.session.book.names.sheet_at(0)
    }

    /// The name of the sheet of this number.
    pub fn sheet_name(&self, id: u32) -> Option<&Text>
        ensures { (d : State) → StandsFor C.customs self.now d → option_map (λ name. name.now) result ≡ name_in d.book.sheets id }
    {
        self.parts.session.book.names.name_of(id)
    }

    /// The steps that can be undone and redone.
    pub fn entries(&self) -> &UndoBook<Entry>
        ensures done { (d : State) → StandsFor C.customs self.now d → length result.now.done ≡ length d.undo }
        ensures undone { (d : State) → StandsFor C.customs self.now d → length result.now.undone ≡ length d.redo }
        ensures limit { (d : State) → StandsFor C.customs self.now d → result.now.limit ≡ d.limit }
    {
        &self.parts.session.steps
    }

    /// The formula of a cell as it is kept, without taking it along: the position of the line as of which it is, and its home
    /// and tree there. `None` where the cell holds no formula that has a tree.
    pub fn stored(&self, at: Place) -> Option<Stored<'_>>
        ensures { option_map (λ s. (s.position, (s.home, relative s.tree.now.value))) result ≡ stored_by self.now at }
    {
        self.parts.session.book.stored(at)
    }

    /// The line of structural operations that formulas follow when they are read, with the position of the cursor.
    pub fn line(&self) -> &Line
        ensures { result.now ≡ (book_kept self.now).lazy.line }
    {
        self.parts.session.book.lazy.line()
    }

    /// The marks: what was touched since the kept values were worked out, each cell and name once. `None` where nothing is kept, so
    /// that the next read of a value works the whole workbook out.
    pub fn marks(&self) -> Option<&Nodes>
        ensures { option_map (λ nodes. items_of nodes.now) result ≡ marks_kept self.now }
    {
        let values = self.parts.values.values.as_ref()?;
        Some(values.marks())
    }

    /// How many cells were merged for summaries of ranges since values are kept; 0 where nothing is kept. The count stays at the
    /// greatest number of 64 bits.
    pub fn merged(&self) -> u64
        ensures { result ≡ merged_kept self.now }
    {
        match &self.parts.values.values {
            Some(values) => values.merged(),
            None => 0,
        }
    }
}
