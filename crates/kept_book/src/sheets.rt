// The list of sheets.
ghost use Rattle.std.specs.Prelude.{◌≡◌, [], Some, IfOk, OnOk, OnErr, IsSome};
ghost use Rattle.cell_addr.specs.Sheets.{name_in};
ghost use Rattle.grid_store.specs.Grid.{items_of};
ghost use Rattle.name_table.specs.Listed.{listed};
ghost use Rattle.name_table.specs.SheetLists.{CanJoin, IsFree, index_in};
ghost use Rattle.book_model.specs.Changes.{renamed, with_sheet};
ghost use Rattle.kept_book.specs.Kept.{IsStanding, Makes, SameBook, change_of, workbook};
ghost use Rattle.kept_book.specs.internal.Naming.{sheet_changed};

use crate::book::Book;
use crate::part::{Part, SheetChange};
use cell_addr::{SheetNames, Text};
use grid_store::CellList;
use std::alloc::{AllocError, Global};

impl Book {
    /// Adds a sheet at the end of the list, where the number and the name are new, and answers what that changed. No formula
    /// is touched. For want of memory the workbook is as it was. Costs the length of the name.
    pub fn add_sheet(&mut self, number: u32, name: &str) -> Result<Part, AllocError>
        requires joins { CanJoin number name.now (listed self.old.names) }
        requires stand { IsStanding self.old }
        ensures ok { OnOk result (workbook self.new ≡ with_sheet number name.now (workbook self.old)) }
        ensures makes { IfOk result (λ part. Makes self.old self.new (change_of part)) }
        ensures replaced { IfOk result (λ part. items_of part.replaced ≡ []) }
        ensures written { IfOk result (λ part. items_of part.written ≡ []) }
        ensures err { OnErr result (SameBook self.old self.new) }
        ensures lazy { self.new.lazy ≡ self.old.lazy }
        ensures next { self.new.next_id ≡ self.old.next_id }
    {
        let index = self.names.len();
        let after = Text::from_str(self.alloc, name)?;
        let part = self.sheet_part(SheetChange {
            id: number,
            before: None,
            after: Some((index, after)),
        })?;
        self.names.add_sheet(index, number, name)?;
        Ok(part)
    }

    /// Gives a listed sheet another name, which no other sheet has, and answers what that changed. No formula is touched. For
    /// want of memory the workbook is as it was. Costs the lengths of the names and the number of sheets.
    pub fn rename_sheet(&mut self, sheet: u32, name: &str) -> Result<Part, AllocError>
        requires listed { IsSome (name_in (listed self.old.names) sheet) }
        requires free { IsFree sheet name.now (listed self.old.names) }
        requires stand { IsStanding self.old }
        ensures ok { OnOk result (workbook self.new ≡ renamed sheet name.now (workbook self.old)) }
        ensures makes { IfOk result (λ part. Makes self.old self.new (change_of part)) }
        ensures replaced { IfOk result (λ part. items_of part.replaced ≡ []) }
        ensures written { IfOk result (λ part. items_of part.written ≡ []) }
        ensures err { OnErr result (SameBook self.old self.new) }
        ensures lazy { self.new.lazy ≡ self.old.lazy }
        ensures next { self.new.next_id ≡ self.old.next_id }
    {
        let index = self.index_of(sheet);
        let before = self.name_of(sheet)?;
        let after = Text::from_str(self.alloc, name)?;
        let part = self.sheet_part(SheetChange {
            id: sheet,
            before: Some((index, before)),
            after: Some((index, after)),
        })?;
        self.names.rename(sheet, name)?;
        Ok(part)
    }

    // The part of a change of one sheet.
    fn sheet_part(&self, change: SheetChange) -> Result<Part, AllocError>
        ensures { IfOk result (λ part. change_of part ≡ sheet_changed self.now.lazy.line.cursor change) }
    {
        let position = self.lazy.line().cursor();
        let mut sheets = Vec::with_capacity(self.alloc, 1)?;
        sheets.push_reserved(change);
        Ok(Part {
            from: position,
            to: position,
            replaced: CellList::new(self.alloc)?,
            written: CellList::new(self.alloc)?,
            names: Vec::new(self.alloc),
            sheets,
        })
    }

    // Where a listed sheet stands in the list.
    fn index_of(&self, sheet: u32) -> usize
        requires { IsSome (name_in (listed self.now.names) sheet) }
        ensures { Some result ≡ index_in sheet (listed self.now.names) }
    {
        for index in 0..self.names.len() {
            if self.names.sheet_at(index) == Some(sheet) {
                return index;
            }
        }
        unreachable!()
    }

    // A copy of the name of a listed sheet.
    fn name_of(&self, sheet: u32) -> Result<Text, AllocError>
        requires { IsSome (name_in (listed self.now.names) sheet) }
        ensures { IfOk result (λ name. Some name ≡ name_in (listed self.now.names) sheet) }
    {
        match self.names.name_of(sheet) {
            Some(name) => name.copy(self.alloc),
            None => unreachable!(),
        }
    }
}
