// Why operations are refused.
ghost use Rattle.std.specs.Prelude.{◌≡◌, ◌+◌, ◌&&◌, ◌∷◌, [], not, is_none, is_some, option_map, nat_le, nat_lt};
ghost use Rattle.cell_addr.specs.Place.{IsBlockInside};
ghost use Rattle.std.specs.FinMap as map;
ghost use Rattle.std.specs.List.{list_any};
ghost use Rattle.cell_addr.specs.Sheets.{AreSheets, same_name};
ghost use Rattle.book_model.specs.Changes.{with_content};
ghost use Rattle.shift_core.specs.Form.{form_of};
ghost use Rattle.book_model.specs.Operation as op;
ghost use Rattle.book_model.specs.Refusals.{at_place, cause, first_cause, is_block_outside, is_outside, is_suspended, is_taken, of_edit, of_form, on_sheet, pushes_off};
ghost use Rattle.book_model.specs.Names.{is_name};
ghost use Rattle.book_model.specs.Workbook.{has_name, has_scope, has_sheet};
ghost use Rattle.book_model.specs.declared.refusal.Refusal.TheVariants as refusals;
ghost use Rattle.book_values.specs.Names.{found, key_of};
ghost use Rattle.session_operations.specs.Seen.{Fits, state_of};
ghost use Rattle.session_operations.specs.Turns.{IsCause};
ghost use Rattle.book_model.specs.Workbook.{State};
ghost use Rattle.shift_core.specs.Carried.{destination};
ghost use Rattle.shift_core.specs.declared.edit.Edit.TheVariants.{Delete, Insert, Move};
ghost use Rattle.shift_core.specs.declared.form.Form.{Form};
ghost use Rattle.shift_core.specs.declared.form.Form.TheVariants.{Cells, Lines};
ghost use Rattle.cell_addr.specs.Axis.{limit_of};

use crate::parts::Parts;
use book_model::{MAX_CELLS, MAX_SHEETS, MAX_TEXT, Refusal, is_name, is_sheet_name};
use cell_addr::{Axis, Block, COLS, Place, ROWS, SheetNames};
use shift_core::{Edit, Form, Shift};

impl Parts {
    // Whether there is a sheet of this number.
    pub(crate) fn has_sheet(&self, sheet: u32) -> bool
        ensures { result ≡ has_sheet (state_of self.now).book sheet }
    {
        self.session.book.names.name_of(sheet).is_some()
    }

    /// `NoSheet` where there is no sheet of this number. Costs a look-up.
    pub fn check_sheet(&self, sheet: u32) -> Result<(), Refusal>
        ensures { IsCause result (first_cause (on_sheet (state_of self.now) sheet)) }
    {
        if !self.has_sheet(sheet) {
            return Err(Refusal::NoSheet);
        }
        Ok(())
    }

    /// `NoSheet`, `Outside` where the place isn't within the limits of a sheet; the first that holds, if one does. Costs a look-up.
    pub fn check_place(&self, at: Place) -> Result<(), Refusal>
        ensures { IsCause result (first_cause (at_place (state_of self.now) at)) }
    {
        if !self.has_sheet(at.sheet) {
            return Err(Refusal::NoSheet);
        }
        if is_outside(at) {
            return Err(Refusal::Outside);
        }
        Ok(())
    }

    // Where a value is asked for.
    pub(crate) fn check_value(&self, at: Place) -> Result<(), Refusal>
        ensures { IsCause result (cause (op.value at) (state_of self.now)) }
    {
        if self.session.suspended || self.session.batch.is_some() {
            return Err(Refusal::Suspended);
        }
        self.check_place(at)
    }

    // Where a name's value, or that of a formula, is asked for on a sheet.
    pub(crate) fn check_on_sheet(&self, sheet: u32) -> Result<(), Refusal>
        ensures { IsCause result (first_cause ((is_suspended (state_of self.now), refusals.Suspended) ∷ on_sheet (state_of self.now) sheet)) }
    {
        if self.session.suspended || self.session.batch.is_some() {
            return Err(Refusal::Suspended);
        }
        self.check_sheet(sheet)
    }

    // Where a name's value is asked for.
    pub(crate) fn check_name_value(&self, name: &str, sheet: u32) -> Result<(), Refusal>
        ensures { IsCause result (cause (op.name_value name.now sheet) (state_of self.now)) }
    {
        self.check_on_sheet(sheet)?;
        if !self.finds(name, sheet) {
            return Err(Refusal::NoSuchName);
        }
        Ok(())
    }

    // Whether the word finds a name on the sheet.
    fn finds(&self, name: &str, sheet: u32) -> bool
        ensures { result ≡ is_some (found (map.entries (state_of self.now).book.names) name.now sheet) }
    {
        self.scope_finding(name, sheet).is_some()
    }

    // The scope of the name that the word finds on the sheet: the sheet's own, or one of the whole workbook.
    pub fn scope_finding(&self, name: &str, sheet: u32) -> Option<Option<u32>>
        ensures { option_map (λ scope. key_of scope name.now) result ≡ found (map.entries (state_of self.now).book.names) name.now sheet }
    {
        if self.has_name(name, Some(sheet)) {
            return Some(Some(sheet));
        }
        if self.has_name(name, None) {
            return Some(None);
        }
        None
    }

    // Where a name is added, before its text is looked at.
    pub(crate) fn check_new_name(&self, name: &str, scope: Option<u32>) -> Result<(), Refusal>
        ensures { IsCause result (first_cause ((not (has_scope (state_of self.now).book scope), refusals.NoSheet) ∷ (not (is_name name.now), refusals.NameInvalid) ∷ (has_name (state_of self.now).book (key_of scope name.now), refusals.NameTaken) ∷ [])) }
    {
        if !self.has_scope(scope) {
            return Err(Refusal::NoSheet);
        }
        if !is_name(name) {
            return Err(Refusal::NameInvalid);
        }
        if self.has_name(name, scope) {
            return Err(Refusal::NameTaken);
        }
        Ok(())
    }

    /// Why the scope's own name can't be changed or removed: `NoSheet` for a scope that doesn't exist, `NoSuchName` where the scope
    /// hasn't the name. Costs look-ups.
    pub fn check_known_name(&self, name: &str, scope: Option<u32>) -> Result<(), Refusal>
        ensures { IsCause result (first_cause ((not (has_scope (state_of self.now).book scope), refusals.NoSheet) ∷ (not (has_name (state_of self.now).book (key_of scope name.now)), refusals.NoSuchName) ∷ [])) }
    {
        if !self.has_scope(scope) {
            return Err(Refusal::NoSheet);
        }
        if !self.has_name(name, scope) {
            return Err(Refusal::NoSuchName);
        }
        Ok(())
    }

    /// Whether there is such a scope: the whole workbook, or a sheet. Costs a look-up.
    pub fn has_scope(&self, scope: Option<u32>) -> bool
        ensures { result ≡ has_scope (state_of self.now).book scope }
    {
        match scope {
            Some(sheet) => self.has_sheet(sheet),
            None => true,
        }
    }

    // Whether the scope has a name of this word.
    fn has_name(&self, name: &str, scope: Option<u32>) -> bool
        ensures { result ≡ has_name (state_of self.now).book (key_of scope name.now) }
    {
        let names = &self.session.book.names;
        match names.known(name) {
            Some(word) => names.holder(scope, word).is_some(),
            None => false,
        }
    }

    /// Why the cells of a block can't be emptied, copied or cut: `NoSheet`, `Outside` where the block isn't within the limits of a
    /// sheet. Costs a look-up.
    pub fn check_clear(&self, area: Block) -> Result<(), Refusal>
        ensures { IsCause result (cause (op.clear area) (state_of self.now)) }
    {
        if !self.has_sheet(area.sheet) {
            return Err(Refusal::NoSheet);
        }
        if is_block_outside(area) {
            return Err(Refusal::Outside);
        }
        Ok(())
    }

    /// Why [`Parts::set`] would be refused now, if it would: the first cause that holds. Costs look-ups; the text isn't read.
    pub fn check_set(&self, at: Place, text: &str) -> Result<(), Refusal>
        requires { Fits self.now }
        ensures { IsCause result (cause (op.set at text.now) (state_of self.now)) }
    {
        if !self.has_sheet(at.sheet) {
            return Err(Refusal::NoSheet);
        }
        if is_outside(at) {
            return Err(Refusal::Outside);
        }
        if text.len() > MAX_TEXT {
            return Err(Refusal::TextLimit);
        }
        if self.overfills(at, text) {
            return Err(Refusal::CellLimit);
        }
        Ok(())
    }

    // Whether the text would fill more cells than a workbook may have.
    fn overfills(&self, at: Place, text: &str) -> bool
        requires { Fits self.now }
        ensures { result ≡ nat_lt MAX_CELLS (map.len (with_content at text.now (state_of self.now).book).cells) }
    {
        if text.is_empty() {
            return false;
        }
        self.is_full_without(at)
    }

    // Whether the workbook is full and the cell empty.
    pub(crate) fn is_full_without(&self, at: Place) -> bool
        ensures { result ≡ (is_none (map.get (state_of self.now).book.cells at) && nat_le MAX_CELLS (map.len (state_of self.now).book.cells)) }
    {
        self.session.book.grid.filled() >= MAX_CELLS && self.session.book.grid.cell(at).is_none()
    }

    /// Why [`Parts::structural`] would be refused now, if it would: the first cause that holds. Costs look-ups, and where lines are
    /// put in, a look at the last lines of the sheet.
    pub fn check_structural(&self, s: &Shift) -> Result<(), Refusal>
        ensures { IsCause result (cause (op.structural s.now) (state_of self.now)) }
    {
        match s.form() {
            Form::Lines { sheet, axis, edit } => self.check_lines(s, sheet, axis, edit),
            Form::Cells { source, to } => self.check_cells(source, to),
            Form::Sheet { sheet } => self.check_sheet(sheet),
        }
    }

    // Where lines of a sheet are edited.
    fn check_lines(&self, s: &Shift, sheet: u32, axis: Axis, edit: Edit) -> Result<(), Refusal>
        requires { form_of s.now ≡ Lines sheet axis edit }
        ensures { IsCause result (first_cause (of_form (state_of self.now) (Lines sheet axis edit))) }
    {
        if !self.has_sheet(sheet) {
            return Err(Refusal::NoSheet);
        }
        self.check_edit(s, sheet, axis, edit)
    }

    // Where lines are edited, on a sheet that there is.
    fn check_edit(&self, s: &Shift, sheet: u32, axis: Axis, edit: Edit) -> Result<(), Refusal>
        requires { form_of s.now ≡ Lines sheet axis edit }
        ensures { IsCause result (first_cause (of_edit (state_of self.now) (Lines sheet axis edit) edit (limit_of axis))) }
    {
        match edit {
            Edit::Insert { at, count } => self.check_insert(s, sheet, axis, at, count),
            Edit::Delete { at, count } => check_delete(axis, at, count),
            Edit::Move {
                from,
                count,
                before,
            } => check_move(axis, from, count, before),
        }
    }

    // Where lines are inserted, on a sheet that there is.
    fn check_insert(
        &self,
        s: &Shift,
        sheet: u32,
        axis: Axis,
        at: u32,
        count: u32,
    ) -> Result<(), Refusal>
        requires { form_of s.now ≡ Lines sheet axis (Insert at count) }
        ensures { IsCause result (first_cause (of_edit (state_of self.now) (Lines sheet axis (Insert at count)) (Insert at count) (limit_of axis))) }
    {
        if count == 0 {
            return Err(Refusal::BadSpan);
        }
        if at >= axis.limit() {
            return Err(Refusal::Outside);
        }
        if self.pushes_off(s, sheet, axis, at, count) {
            return Err(Refusal::SizeLimit);
        }
        Ok(())
    }

    // Whether the insert pushes a filled cell off the sheet.
    fn pushes_off(&self, s: &Shift, sheet: u32, axis: Axis, at: u32, count: u32) -> bool
        requires { form_of s.now ≡ Lines sheet axis (Insert at count) }
        ensures { result ≡ pushes_off (Lines sheet axis (Insert at count)) (state_of self.now).book }
    {
        self.session.book.grid.pushed_off(s)
    }

    // Where a block of cells is moved.
    fn check_cells(&self, source: Block, to: Place) -> Result<(), Refusal>
        ensures { IsCause result (first_cause (of_form (state_of self.now) (Cells source to))) }
    {
        if !self.has_sheet(source.sheet) || !self.has_sheet(to.sheet) {
            return Err(Refusal::NoSheet);
        }
        if is_block_outside(source) || ends_outside(source, to) {
            return Err(Refusal::Outside);
        }
        if source.sheet == to.sheet && source.top == to.row && source.left == to.col {
            return Err(Refusal::BadSpan);
        }
        Ok(())
    }

    /// Why [`Parts::add_sheet`] would be refused now, if it would: the first cause that holds. Costs a look-up.
    pub fn check_add(&self, name: &str) -> Result<(), Refusal>
        ensures { IsCause result (cause (op.add_sheet name.now) (state_of self.now)) }
    {
        if !is_sheet_name(name) {
            return Err(Refusal::SheetNameInvalid);
        }
        if self.is_named(name) {
            return Err(Refusal::SheetNameTaken);
        }
        if self.session.next_sheet >= MAX_SHEETS {
            return Err(Refusal::SheetLimit);
        }
        Ok(())
    }

    /// Why [`Parts::rename_sheet`] would be refused now, if it would: the first cause that holds. Costs look-ups.
    pub fn check_rename(&self, sheet: u32, name: &str) -> Result<(), Refusal>
        requires { Fits self.now }
        ensures { IsCause result (cause (op.rename_sheet sheet name.now) (state_of self.now)) }
    {
        if !self.has_sheet(sheet) {
            return Err(Refusal::NoSheet);
        }
        if !is_sheet_name(name) {
            return Err(Refusal::SheetNameInvalid);
        }
        if self.is_taken(sheet, name) {
            return Err(Refusal::SheetNameTaken);
        }
        Ok(())
    }

    // Whether a sheet has the name.
    fn is_named(&self, name: &str) -> bool
        ensures { result ≡ list_any (λ s. same_name s.1 name.now) (state_of self.now).book.sheets }
    {
        self.session.book.names.id_of(name).is_some()
    }

    // Whether another sheet has the name.
    fn is_taken(&self, sheet: u32, name: &str) -> bool
        requires { AreSheets (state_of self.now).book.sheets }
        ensures { result ≡ is_taken (state_of self.now).book sheet name.now }
    {
        match self.session.book.names.id_of(name) {
            Some(other) => other != sheet,
            None => false,
        }
    }
}

// Where lines are deleted, on a sheet that there is.
fn check_delete(axis: Axis, at: u32, count: u32) -> Result<(), Refusal>
    ensures { (d : State) (f : Form) → IsCause result (first_cause (of_edit d f (Delete at count) (limit_of axis))) }
{
    if count == 0 {
        return Err(Refusal::BadSpan);
    }
    if is_past(at, count, axis.limit()) {
        return Err(Refusal::Outside);
    }
    Ok(())
}

// Where lines are moved, on a sheet that there is.
fn check_move(axis: Axis, from: u32, count: u32, before: u32) -> Result<(), Refusal>
    ensures { (d : State) (f : Form) → IsCause result (first_cause (of_edit d f (Move from count before) (limit_of axis))) }
{
    if count == 0 {
        return Err(Refusal::BadSpan);
    }
    if is_past(from, count, axis.limit()) || before > axis.limit() {
        return Err(Refusal::Outside);
    }
    if from <= before && before as u64 <= from as u64 + count as u64 {
        return Err(Refusal::BadSpan);
    }
    Ok(())
}

// Whether so many lines from a line on end past the limit.
fn is_past(at: u32, count: u32, limit: u32) -> bool
    ensures { result ≡ nat_lt limit (at + count) }
{
    at as u64 + count as u64 > limit as u64
}

// Whether the place isn't within the limits of a sheet.
pub(crate) fn is_outside(at: Place) -> bool
    ensures { result ≡ is_outside at }
{
    at.row >= ROWS || at.col >= COLS
}

// Whether the block isn't within the limits of a sheet, its ends in order.
fn is_block_outside(area: Block) -> bool
    ensures { result ≡ is_block_outside area }
{
    !area.inside()
}

// Whether the block of the size of another one, which is inside, ends outside a sheet where it begins at the place.
pub(crate) fn ends_outside(source: Block, to: Place) -> bool
    requires { IsBlockInside source }
    ensures { result ≡ is_block_outside (destination source to) }
{
    is_past(to.row, source.bottom - source.top + 1, ROWS)
        || is_past(to.col, source.right - source.left + 1, COLS)
}
