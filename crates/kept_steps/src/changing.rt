// Changes of a session: each is a step, or part of the open batch, and ends what could be done again.
ghost use Rattle.std.specs.Prelude.{◌≡◌, ◌≢◌, ◌==◌, ◌+◌, ◌<◌, OnOk, OnErr, IfOk, IsSome, Some, option_map};
ghost use Rattle.std.specs.List.{All};
ghost use Rattle.cell_addr.specs.Place.{IsBlockInside, IsInside, covers};
ghost use Rattle.cell_addr.specs.Sheets.{name_in};
ghost use Rattle.cell_addr.specs.declared.place.TheConstants.{NO_SHEET};
ghost use Rattle.name_table.specs.Listed.{listed};
ghost use Rattle.name_table.specs.Named.{words_of};
ghost use Rattle.name_table.specs.SheetLists.{CanJoin, IsFree};
ghost use Rattle.shift_core.specs.Carried as carrying;
ghost use Rattle.shift_core.specs.Maps.{AreInside};
ghost use Rattle.shift_core.specs.Sound.{IsSound};
ghost use Rattle.shift_line.specs.Track.{with_spare};
ghost use Rattle.book_values.specs.Names.{key_of};
ghost use Rattle.book_model.specs.Changes.{HaveDistinctPlaces, emptied, renamed, shifted, with_content, with_contents, with_copy, with_given_content, with_name, with_sheet};
ghost use Rattle.book_model.specs.Session.{changed};
ghost use Rattle.kept_book.specs.Copied.{IsCopied, contents_copied};
ghost use Rattle.kept_book.specs.Formula.{IsProperIn, tree_in_scope};
ghost use Rattle.kept_book.specs.Ids.{KeepsBelow};
ghost use Rattle.kept_book.specs.Kept.{IsMore};

use crate::noting::{note, room};
use crate::session::Session;
use book_model::ContentText;
use cell_addr::{Block, Place, Text};
use clip_board::CopyItem;
use formula_tree::Tree;
use shift_core::Shift;
use std::alloc::AllocError;

impl Session {
    ghost use Rattle.kept_steps.specs.Kept.{GoesOn, KeepsAtShift, KeepsInUse, StaysOrSettles};
    ghost use Rattle.kept_steps.specs.Session.{state_of};

    /// Gives a cell the content that a text says. No other formula of the session's workbooks is touched. For want of memory
    /// the session is as it was. Costs what [`kept_book::Book::fill`] does.
    ///
    /// Where since the last time as many formulas came as were left then, and at least [`crate::LEAST_GROWTH`], those that
    /// neither the workbook nor a step lists are dropped first. That costs the number of formulas, the filled cells, and what the
    /// steps list.
    pub fn fill(&mut self, at: Place, text: &str) -> Result<(), AllocError>
        requires inside { IsInside at }
        ensures ok { OnOk result (state_of self.new ≡ changed (with_content at text.now (state_of self.old).book) (state_of self.old)) }
        ensures err { OnErr result (state_of self.new ≡ state_of self.old) }
        ensures words { IsMore (words_of self.old.book.names) (words_of self.new.book.names) }
        ensures line { self.new.book.lazy.line ≡ with_spare self.new.book.lazy.line.spare self.old.book.lazy.line }
        ensures kept { KeepsInUse self.old self.new.book.lazy }
    {
        self.sweep_where_due()?;
        let room = room(self.book.alloc, &mut self.batch)?;
        let part = self.book.fill(&mut self.pool, at, text)?;
        note(&mut self.steps, &mut self.batch, room, part);
        Ok(())
    }

    /// Gives a cell a content, or empties it, likewise. Costs what [`kept_book::Book::fill_content`] does, where no formulas are dropped.
    pub fn fill_content(&mut self, at: Place, content: ContentText) -> Result<(), AllocError>
        requires inside { IsInside at }
        ensures ok { OnOk result (state_of self.new ≡ changed (with_given_content at content (state_of self.old).book) (state_of self.old)) }
        ensures err { OnErr result (state_of self.new ≡ state_of self.old) }
        ensures words { IsMore (words_of self.old.book.names) (words_of self.new.book.names) }
        ensures line { self.new.book.lazy.line ≡ with_spare self.new.book.lazy.line.spare self.old.book.lazy.line }
        ensures kept { KeepsInUse self.old self.new.book.lazy }
    {
        self.sweep_where_due()?;
        let room = room(self.book.alloc, &mut self.batch)?;
        let part = self.book.fill_content(&mut self.pool, at, content)?;
        note(&mut self.steps, &mut self.batch, room, part);
        Ok(())
    }

    /// Gives cells the contents that texts say, each of them another cell, likewise. Costs what [`kept_book::Book::fill_all`] does, where
    /// no formulas are dropped.
    pub fn fill_all(&mut self, cells: &[(Place, Text)]) -> Result<(), AllocError>
        requires inside { All (λ e. IsInside e.0) cells.now }
        requires distinct { HaveDistinctPlaces cells.now }
        ensures ok { OnOk result (state_of self.new ≡ changed (with_contents cells.now (state_of self.old).book) (state_of self.old)) }
        ensures err { OnErr result (state_of self.new ≡ state_of self.old) }
        ensures words { IsMore (words_of self.old.book.names) (words_of self.new.book.names) }
        ensures line { self.new.book.lazy.line ≡ with_spare self.new.book.lazy.line.spare self.old.book.lazy.line }
        ensures kept { KeepsInUse self.old self.new.book.lazy }
    {
        self.sweep_where_due()?;
        let room = room(self.book.alloc, &mut self.batch)?;
        let part = self.book.fill_all(&mut self.pool, cells)?;
        note(&mut self.steps, &mut self.batch, room, part);
        Ok(())
    }

    /// Empties the cells of a block, likewise.
    pub fn clear(&mut self, area: Block) -> Result<(), AllocError>
        requires inside { AreInside (state_of self.old).book.cells }
        ensures ok { OnOk result (state_of self.new ≡ changed (emptied (covers area) (state_of self.old).book) (state_of self.old)) }
        ensures err { OnErr result (state_of self.new ≡ state_of self.old) }
        ensures words { IsMore (words_of self.old.book.names) (words_of self.new.book.names) }
        ensures line { self.new.book.lazy.line ≡ with_spare self.new.book.lazy.line.spare self.old.book.lazy.line }
        ensures kept { KeepsBelow self.old.book.next_id self.old.book.lazy self.new.book.lazy }
    {
        let room = room(self.book.alloc, &mut self.batch)?;
        let part = self.book.clear(area)?;
        note(&mut self.steps, &mut self.batch, room, part);
        Ok(())
    }

    /// Empties the cells of a sheet, likewise.
    pub fn clear_sheet(&mut self, sheet: u32) -> Result<(), AllocError>
        requires inside { AreInside (state_of self.old).book.cells }
        ensures ok { OnOk result (state_of self.new ≡ changed (emptied (λ p. p.sheet == sheet) (state_of self.old).book) (state_of self.old)) }
        ensures err { OnErr result (state_of self.new ≡ state_of self.old) }
        ensures words { IsMore (words_of self.old.book.names) (words_of self.new.book.names) }
        ensures line { self.new.book.lazy.line ≡ with_spare self.new.book.lazy.line.spare self.old.book.lazy.line }
        ensures kept { KeepsBelow self.old.book.next_id self.old.book.lazy self.new.book.lazy }
    {
        let room = room(self.book.alloc, &mut self.batch)?;
        let part = self.book.clear_sheet(sheet)?;
        note(&mut self.steps, &mut self.batch, room, part);
        Ok(())
    }

    /// Gives the cells of the block of an area's size that begins at a place what the copied cells of the area held there, likewise.
    pub fn paste(
        &mut self,
        area: Block,
        cells: &[(Place, CopyItem)],
        at: Place,
    ) -> Result<(), AllocError>
        requires block { IsBlockInside area }
        requires there { IsBlockInside (carrying.destination area at) }
        requires copied { All IsCopied cells.now }
        requires inside { AreInside (state_of self.old).book.cells }
        ensures ok { OnOk result (state_of self.new ≡ changed (with_copy area (contents_copied cells.now) at (state_of self.old).book) (state_of self.old)) }
        ensures err { OnErr result (state_of self.new ≡ state_of self.old) }
        ensures words { IsMore (words_of self.old.book.names) (words_of self.new.book.names) }
        ensures line { self.new.book.lazy.line ≡ with_spare self.new.book.lazy.line.spare self.old.book.lazy.line }
        ensures kept { KeepsInUse self.old self.new.book.lazy }
    {
        self.sweep_where_due()?;
        let room = room(self.book.alloc, &mut self.batch)?;
        let part = self.book.paste(&mut self.pool, area, cells, at)?;
        note(&mut self.steps, &mut self.batch, room, part);
        Ok(())
    }

    /// Does a structural operation: it goes on the line at the cursor, in place of those beyond it. A formula that is kept as of
    /// a position up to the cursor isn't touched. Where at least [`crate::LEAST_SETTLED`] operations of the line lie before
    /// the base, the oldest position on which a step or the open batch rests, they are forgotten first: formulas of the
    /// session's workbooks that are kept as of a position before the base come to it, those that no workbook has may be
    /// dropped, and no other one is touched. No other call forgets operations.
    ///
    /// For want of memory the session is as it was, though the line may have been settled, and formulas that were kept beyond
    /// the cursor may have come back to it. Costs what [`kept_book::Book::shift`] does; where it settles, also the number of
    /// formulas and the filled cells, what the steps list, and for each formula before the base the operations that it is
    /// taken over, twice.
    pub fn structural(&mut self, s: &Shift) -> Result<(), AllocError>
        requires sound { IsSound s.now }
        requires inside { AreInside (state_of self.old).book.cells }
        ensures ok { OnOk result (state_of self.new ≡ changed (shifted s.now (state_of self.old).book) (state_of self.old)) }
        ensures err { OnErr result (state_of self.new ≡ state_of self.old) }
        ensures words { IsMore (words_of self.old.book.names) (words_of self.new.book.names) }
        ensures line { OnOk result (GoesOn s.now self.old self.new.book.lazy) }
        ensures line_err { OnErr result (StaysOrSettles self.old self.new.book.lazy) }
        ensures kept { KeepsAtShift self.old self.new.book.lazy }
    {
        self.settle_where_due()?;
        let room = room(self.book.alloc, &mut self.batch)?;
        let part = self.book.shift(&mut self.pool, s)?;
        note(&mut self.steps, &mut self.batch, room, part);
        Ok(())
    }

    /// Adds a sheet with the next number at the end of the list, and answers the number. No formula is touched. For want of
    /// memory the session is as it was.
    pub fn add_sheet(&mut self, name: &str) -> Result<u32, AllocError>
        requires joins { CanJoin self.old.next_sheet name.now (listed self.old.book.names) }
        requires room { self.old.next_sheet < u32.MAX }
        ensures ok { OnOk result (state_of self.new ≡ record (changed (with_sheet self.old.next_sheet name.now (state_of self.old).book) (state_of self.old)) { next_sheet = self.old.next_sheet + 1 }) }
        ensures number { IfOk result (λ number. number ≡ self.old.next_sheet) }
        ensures err { OnErr result (state_of self.new ≡ state_of self.old) }
        ensures words { IsMore (words_of self.old.book.names) (words_of self.new.book.names) }
        ensures lazy { self.new.book.lazy ≡ self.old.book.lazy }
    {
        let room = room(self.book.alloc, &mut self.batch)?;
        let number = self.next_sheet;
        let part = self.book.add_sheet(number, name)?;
        note(&mut self.steps, &mut self.batch, room, part);
        self.next_sheet = number + 1;
        Ok(number)
    }

    /// Gives a listed sheet another name, which no other sheet has. No formula is touched. For want of memory the session is as
    /// it was.
    pub fn rename_sheet(&mut self, sheet: u32, name: &str) -> Result<(), AllocError>
        requires listed { IsSome (name_in (listed self.old.book.names) sheet) }
        requires free { IsFree sheet name.now (listed self.old.book.names) }
        ensures ok { OnOk result (state_of self.new ≡ changed (renamed sheet name.now (state_of self.old).book) (state_of self.old)) }
        ensures err { OnErr result (state_of self.new ≡ state_of self.old) }
        ensures words { IsMore (words_of self.old.book.names) (words_of self.new.book.names) }
        ensures lazy { self.new.book.lazy ≡ self.old.book.lazy }
    {
        let room = room(self.book.alloc, &mut self.batch)?;
        let part = self.book.rename_sheet(sheet, name)?;
        note(&mut self.steps, &mut self.batch, room, part);
        Ok(())
    }

    /// Gives a name of a scope a tree, or takes the name away where there is none. The scope is a sheet's number or the whole
    /// workbook. No other formula is touched. For want of memory the session is as it was.
    pub fn name(
        &mut self,
        scope: Option<u32>,
        word: &str,
        tree: Option<Tree>,
    ) -> Result<(), AllocError>
        requires scope { scope ≢ Some NO_SHEET }
        requires proper { IsProperIn scope tree }
        ensures ok { OnOk result (state_of self.new ≡ changed (with_name (key_of scope word.now) (option_map (tree_in_scope scope) tree) (state_of self.old).book) (state_of self.old)) }
        ensures err { OnErr result (state_of self.new ≡ state_of self.old) }
        ensures words { IsMore (words_of self.old.book.names) (words_of self.new.book.names) }
        ensures line { self.new.book.lazy.line ≡ with_spare self.new.book.lazy.line.spare self.old.book.lazy.line }
        ensures kept { KeepsInUse self.old self.new.book.lazy }
    {
        self.sweep_where_due()?;
        let room = room(self.book.alloc, &mut self.batch)?;
        let part = self.book.name(scope, word, tree)?;
        note(&mut self.steps, &mut self.batch, room, part);
        Ok(())
    }
}
