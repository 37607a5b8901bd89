// Named expressions that are added, changed and removed.
ghost use Rattle.std.specs.Prelude.{◌≡◌, ◌≢◌, ◌<◌, Some, length, [], IfOk, OnOk, OnErr, option_map};
ghost use Rattle.grid_store.specs.Grid.{items_of};
ghost use Rattle.formula_tree.specs.declared.reference.Home.TheVariants as homes;
ghost use Rattle.shift_line.specs.Track.{with_spare};
ghost use Rattle.book_values.specs.Names.{key_of};
ghost use Rattle.book_values.specs.Workbook.{scope_sheet};
ghost use Rattle.book_model.specs.Changes.{with_name};
ghost use Rattle.lazy_store.specs.Store.{KeepsAll};
ghost use Rattle.name_table.specs.Listed.{listed};
ghost use Rattle.name_table.specs.Named.{names_of, words_of};
ghost use Rattle.name_table.specs.Scopes as table;
ghost use Rattle.kept_book.specs.Change.{with_id};
ghost use Rattle.kept_book.specs.Formula.{IsProperIn, tree_in_scope};
ghost use Rattle.kept_book.specs.Ids.{KeepsBelow};
ghost use Rattle.kept_book.specs.Kept.{IsStanding, Makes, SameBook, change_of, workbook};
ghost use Rattle.kept_book.specs.internal.Naming.{Gives};

use crate::book::Book;
use crate::part::{NameChange, Part};
use crate::writing::{insert, next};
use cell_addr::NO_SHEET;
use formula_tree::{Home, Tree};
use grid_store::CellList;
use std::alloc::{AllocError, Global};

impl Book {
    /// Gives the scope's own name of a word a tree, or takes the name away, and answers what that changed. The scope is a sheet's
    /// number or the whole workbook. Every formula from before is kept as it was. For want of memory the workbook is as it was, but for a word that may be known then. Costs
    /// the length of the word and the logarithm of the number of names.
    pub fn name(
        &mut self,
        scope: Option<u32>,
        word: &str,
        tree: Option<Tree>,
    ) -> Result<Part, AllocError>
        requires scope { scope ≢ Some NO_SHEET }
        requires proper { IsProperIn scope tree }
        requires stand { IsStanding self.old }
        ensures ok { OnOk result (workbook self.new ≡ with_name (key_of scope word.now) (option_map (tree_in_scope scope) tree) (workbook self.old)) }
        ensures makes { IfOk result (λ part. Makes self.old self.new (change_of part)) }
        ensures replaced { IfOk result (λ part. items_of part.replaced ≡ []) }
        ensures written { IfOk result (λ part. items_of part.written ≡ []) }
        ensures err { OnErr result (SameBook self.old self.new) }
        ensures line { self.new.lazy.line ≡ with_spare self.new.lazy.line.spare self.old.lazy.line }
        ensures kept { KeepsBelow self.old.next_id self.old.lazy self.new.lazy }
    {
        let position = self.lazy.line().cursor();
        let replaced = CellList::new(self.alloc)?;
        let written = CellList::new(self.alloc)?;
        let mut names = Vec::with_capacity(self.alloc, 1)?;
        let word = self.names.word(word)?;
        let before = self.names.holder(scope, word);
        let after = self.give(scope, word, tree)?;
        names.push_reserved(NameChange {
            scope,
            word,
            before,
            after,
        });
        Ok(Part {
            from: position,
            to: position,
            replaced,
            written,
            names,
            sheets: Vec::new(self.alloc),
        })
    }

    // Gives a name of a known word a tree, and answers its id; or takes the name away.
    fn give(
        &mut self,
        scope: Option<u32>,
        word: u64,
        tree: Option<Tree>,
    ) -> Result<Option<u64>, AllocError>
        requires known { word < length (words_of self.old.names) }
        requires proper { IsProperIn scope tree }
        ensures names { IfOk result (λ id. names_of self.new.names ≡ with_id (table.key_of scope word) id (names_of self.old.names)) }
        ensures gives { IfOk result (λ id. Gives self.old.next_id scope tree id self.old.lazy self.new.lazy) }
        ensures names_err { OnErr result (names_of self.new.names ≡ names_of self.old.names) }
        ensures lazy_err { OnErr result (KeepsAll self.old.lazy self.new.lazy) }
        ensures line { self.new.lazy.line ≡ with_spare self.new.lazy.line.spare self.old.lazy.line }
        ensures words { words_of self.new.names ≡ words_of self.old.names }
        ensures sheets { listed self.new.names ≡ listed self.old.names }
        ensures grid { self.new.grid ≡ self.old.grid }
    {
        let Some(tree) = tree else {
            self.names.remove(scope, word);
            return Ok(None);
        };
        let id = self.next_id;
        let next = next(id)?;
        self.lazy.reserve(1)?;
        self.names.add(scope, word, id)?;
        insert(&mut self.lazy, id, home_in(scope), tree);
        self.next_id = next;
        Ok(Some(id))
    }
}

/// Where the formula of a name in the scope stands: on the scope's sheet, or on none for the whole workbook.
pub fn home_in(scope: Option<u32>) -> Home
    ensures { result ≡ homes.Name (scope_sheet scope) }
{
    Home::Name {
        sheet: scope.unwrap_or(NO_SHEET),
    }
}
