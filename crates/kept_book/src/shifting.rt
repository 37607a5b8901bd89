// Structural operations: they go on the line, and the cells move.
ghost use Rattle.std.specs.Prelude.{◌≡◌, ◌<◌, ◌≤◌, [], ℕ, Some, None, IfOk, OnOk, OnErr, map, vec_capacity, vec_len};
ghost use Rattle.cell_addr.specs.Sheets.{AreSheets};
ghost use Rattle.formula_tree.specs.Pooled.{held};
ghost use Rattle.lazy_store.specs.Holders.{IsFront};
ghost use Rattle.lazy_store.specs.Store.{AreReturned, KeepsBehind, kept_in, spare_in};
ghost use Rattle.name_table.specs.Listed.{listed};
ghost use Rattle.name_table.specs.Named.{KeepsNames, names_of, words_of};
ghost use Rattle.shift_core.specs.Form.{form_of};
ghost use Rattle.shift_core.specs.Maps.{AreInside};
ghost use Rattle.shift_core.specs.Sound.{IsSound};
ghost use Rattle.shift_line.specs.Track.{pushed, with_spare};
ghost use Rattle.book_model.specs.Changes.{sheets_left, shifted};
ghost use Rattle.kept_book.specs.Change.{HaveSlots, names_with, sheets_with};
ghost use Rattle.kept_book.specs.Ids.{AreLive};
ghost use Rattle.kept_book.specs.Kept.{IsStanding, Makes, SameBook, change_of, name_change, sheet_change, workbook};
ghost use Rattle.kept_book.specs.internal.Dropped.{AreGone, PushesOn, ids_left};

use crate::book::Book;
use crate::part::{NameChange, Part, SheetChange};
use cell_addr::SheetNames;
use formula_tree::Pool;
use grid_store::CellList;
use lazy_store::Lazy;
use name_table::Names;
use shift_core::{Form, Shift};
use std::alloc::{AllocError, Global};

impl Book {
    /// Does a structural operation, and answers what it removed. It goes on the line at the cursor, in place of what is
    /// beyond, and the cells move; formulas follow when they are read. A formula that is kept as of a position up to the
    /// cursor isn't touched; after an undo those beyond it come back to it, and those that came beyond it are dropped.
    /// Where the cursor is the greatest position, that is want of memory too. For want of memory the workbook is as it was.
    ///
    /// Costs what the grid's operation does; after an undo what [`Lazy::return_born`] does too.
    pub fn shift(&mut self, pool: &mut Pool, s: &Shift) -> Result<Part, AllocError>
        requires sound { IsSound s.now }
        requires inside { AreInside (workbook self.old).cells }
        requires stand { IsStanding self.old }
        ensures ok { OnOk result (workbook self.new ≡ shifted s.now (workbook self.old)) }
        ensures makes { IfOk result (λ part. Makes self.old self.new (change_of part)) }
        ensures line { OnOk result (self.new.lazy.line ≡ with_spare self.new.lazy.line.spare (pushed s.now self.old.lazy.line)) }
        ensures err { OnErr result (SameBook self.old self.new) }
        ensures kept { KeepsBehind self.old.lazy.line.cursor self.old.lazy self.new.lazy }
        ensures next { self.new.next_id ≡ self.old.next_id }
        ensures pool { IsFront (held pool.old) (held pool.new) }
    {
        let from = self.lazy.line().cursor();
        if from == u64::MAX {
            return Err(AllocError);
        }
        let written = CellList::new(self.alloc)?;
        let names = names_left(self.alloc, &self.names, s)?;
        let room = Vec::with_capacity(self.alloc, 1)?;
        self.lazy.return_born(pool)?;
        self.lazy.reserve(1)?;
        let replaced = self.grid.apply(s)?;
        push(&mut self.lazy, pool, *s);
        leave_names(&mut self.names, &names);
        let sheets = leave_sheet(&mut self.names, s, room);
        Ok(Part {
            from,
            to: from + 1,
            replaced,
            written,
            names,
            sheets,
        })
    }
}

// Puts an operation on the line, for which there is room.
fn push(lazy: &mut Lazy, pool: &mut Pool, s: Shift)
    requires sound { IsSound s }
    requires cursor { lazy.old.line.cursor < u64.MAX }
    requires returned { AreReturned lazy.old.line.cursor lazy.old }
    requires room { 0 < spare_in lazy.old }
    ensures line { lazy.new.line ≡ with_spare lazy.new.line.spare (pushed s lazy.old.line) }
    ensures standings { PushesOn s lazy.old.line.cursor lazy.old lazy.new }
    ensures kept { KeepsBehind lazy.old.line.cursor lazy.old lazy.new }
    ensures fewer { (id : ℕ) → kept_in lazy.old id ≡ None → kept_in lazy.new id ≡ None }
    ensures live { AreLive lazy.old → AreLive lazy.new }
    ensures pool { IsFront (held pool.old) (held pool.new) }
{
    lazy.forget_beyond();
    match lazy.shift(pool, s) {
        Ok(()) => (),
        Err(_) => unreachable!(),
    }
}

// The names that go with a dropped sheet.
fn names_left(alloc: Global, names: &Names, s: &Shift) -> Result<Vec<NameChange>, AllocError>
    ensures { IfOk result (λ left. map name_change left.items ≡ ids_left (form_of s.now) (names_of names.now)) }
{
    let mut left = Vec::new(alloc);
    if let Form::Sheet { sheet } = s.form() {
        let list = names.listed(Some(sheet))?;
        for (word, id) in list.items() {
            left.push(NameChange {
                scope: Some(sheet),
                word: *word,
                before: Some(*id),
                after: None,
            })?;
        }
    }
    Ok(left)
}

// Takes names away.
fn leave_names(names: &mut Names, left: &[NameChange])
    requires { AreGone (map name_change left.now) }
    ensures names { names_of names.new ≡ names_with (λ x. x.1) (map name_change left.now) (names_of names.old) }
    ensures words { words_of names.new ≡ words_of names.old }
    ensures sheets { listed names.new ≡ listed names.old }
{
    for index in (0..left.len()).rev() {
        let change = &left[index];
        names.remove(change.scope, change.word);
    }
}

// Takes a dropped sheet out of the list, and answers where it stood.
fn leave_sheet(names: &mut Names, s: &Shift, room: Vec<SheetChange>) -> Vec<SheetChange>
    requires empty { room.items ≡ [] }
    requires room { vec_len room < vec_capacity room }
    ensures sheets { listed names.new ≡ sheets_left (form_of s.now) (listed names.old) }
    ensures back { sheets_with (λ x. x.0) (map sheet_change result.items) (listed names.new) ≡ listed names.old }
    ensures forth { sheets_with (λ x. x.1) (map sheet_change result.items) (listed names.old) ≡ listed names.new }
    ensures returns { HaveSlots (λ x. x.0) (map sheet_change result.items) (listed names.new) }
    ensures repeats { HaveSlots (λ x. x.1) (map sheet_change result.items) (listed names.old) }
    ensures names { KeepsNames names.old names.new }
{
    let mut sheets = room;
    proper(&*names);
    if let Form::Sheet { sheet } = s.form() {
        if let Some(before) = names.remove_sheet(sheet) {
            sheets.push_reserved(SheetChange {
                id: sheet,
                before: Some(before),
                after: None,
            });
        }
    }
    sheets
}

// No sheet of a list stands twice.
pub(crate) fn proper<S: SheetNames>(sheets: &S)
    ensures { AreSheets (S.sheets sheets.now) }
{}
