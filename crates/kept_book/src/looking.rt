// Formulas that are looked up: as they are kept, or as of the cursor.
ghost use Rattle.std.specs.Prelude.{◌≡◌, ◌↔◌, ◌∷◌, true, None, Some, IfOk, OnOk, option_map};
ghost use Rattle.std.specs.FinMap as map;
ghost use Rattle.formula_tree.specs.Pooled.{held};
ghost use Rattle.formula_tree.specs.Relative.{relative};
ghost use Rattle.lazy_store.specs.Holders.{IsFront};
ghost use Rattle.lazy_store.specs.Store.{AreCaughtUp, GoOnWithin, MovesLagging, StayOrComeTo, position_in};
ghost use Rattle.name_table.specs.Named.{names_of, words_of};
ghost use Rattle.name_table.specs.Scopes.{key_of};
ghost use Rattle.book_values.specs.Names.{Key};
ghost use Rattle.book_values.specs.Workbook.{content_tree};
ghost use Rattle.grid_store.specs.Grid.{cells_of};
ghost use Rattle.kept_book.specs.Formula.{tree_at, tree_in_scope};
ghost use Rattle.kept_book.specs.Frame.{home_at, named_at};
ghost use Rattle.kept_book.specs.Kept.{IsStanding, KeepsElsewhere, KeepsOtherNames, SameBook, at_of, id_of, stored_at_place, workbook};

use crate::book::Book;
use cell_addr::Place;
use formula_tree::{Pool, Tree};
use grid_store::Cell;
use lazy_store::Stored;
use std::alloc::AllocError;

impl Book {
    /// The formula of a cell as it is kept, without catching up: the position as of which it is, and its home and tree
    /// there. `None` exactly where the cell holds no formula.
    pub fn stored(&self, at: Place) -> Option<Stored<'_>>
        ensures { option_map (λ s. (s.position, (s.home, relative s.tree.now.value))) result ≡ stored_at_place self.now at }
    {
        let id = self.id(at)?;
        self.lazy.stored(id)
    }

    // The id of the formula of a cell, if it holds one.
    fn id(&self, at: Place) -> Option<u64>
        ensures { result ≡ id_of (map.get (cells_of self.now.grid) at) }
    {
        match self.grid.cell(at) {
            Some(Cell::Formula(id)) => Some(*id),
            _ => None,
        }
    }

    /// The tree of the formula that a cell holds, taken to the cursor; `None` exactly where the cell holds no formula that
    /// has one. Costs the operations between the cursor and the position as of which the formula is kept, each about the
    /// nodes of its tree.
    pub fn formula(&mut self, pool: &mut Pool, at: Place) -> Result<Option<Tree>, AllocError>
        requires stand { IsStanding self.old }
        ensures tree { IfOk result (λ tree. option_map (tree_at at) tree ≡ content_tree (map.get (workbook self.old).cells at)) }
        ensures same { SameBook self.old self.new }
        ensures line { self.new.lazy.line ≡ self.old.lazy.line }
        ensures grid { self.new.grid ≡ self.old.grid }
        ensures names { self.new.names ≡ self.old.names }
        ensures next { self.new.next_id ≡ self.old.next_id }
        ensures kept { KeepsElsewhere at self.old self.new }
        ensures position { OnOk result (option_map (λ s. s.0) (stored_at_place self.new at) ≡ option_map (λ id. self.old.lazy.line.cursor) (id_of (map.get (cells_of self.old.grid) at))) }
        ensures pool { IsFront (held pool.old) (held pool.new) }
    {
        match self.id(at) {
            Some(id) => Ok(Some(self.lazy.read(pool, id)?)),
            None => Ok(None),
        }
    }

    /// The tree of the scope's own name of the word, taken to the cursor; `None` exactly where the scope has none. Costs as
    /// `formula` does.
    pub fn named(
        &mut self,
        pool: &mut Pool,
        scope: Option<u32>,
        word: u64,
    ) -> Result<Option<Tree>, AllocError>
        requires stand { IsStanding self.old }
        ensures tree { IfOk result (λ tree. option_map (tree_in_scope scope) tree ≡ option_map (named_at (at_of self.old) self.old.lazy.line.cursor) (map.get (names_of self.old.names) (key_of scope word))) }
        ensures same { SameBook self.old self.new }
        ensures line { self.new.lazy.line ≡ self.old.lazy.line }
        ensures grid { self.new.grid ≡ self.old.grid }
        ensures names { self.new.names ≡ self.old.names }
        ensures next { self.new.next_id ≡ self.old.next_id }
        ensures kept { KeepsOtherNames (key_of scope word) self.old self.new }
        ensures pool { IsFront (held pool.old) (held pool.new) }
    {
        match self.names.holder(scope, word) {
            Some(id) => Ok(Some(self.lazy.read(pool, id)?)),
            None => Ok(None),
        }
    }

    /// Takes formulas that are kept as of a position before the cursor to it, as far as the budget of operations goes: those of the
    /// workbook, and others that have a standing there. The answer is whether none is left. Costs what
    /// [`lazy_store::Lazy::catch_up`] does.
    pub fn catch_up(&mut self, pool: &mut Pool, budget: u64) -> Result<bool, AllocError>
        ensures same { SameBook self.old self.new }
        ensures line { self.new.lazy.line ≡ self.old.lazy.line }
        ensures grid { self.new.grid ≡ self.old.grid }
        ensures names { self.new.names ≡ self.old.names }
        ensures next { self.new.next_id ≡ self.old.next_id }
        ensures others { MovesLagging self.old.lazy.line.cursor self.old.lazy self.new.lazy }
        ensures placed { OnOk result (StayOrComeTo self.old.lazy.line.cursor self.old.lazy self.new.lazy) }
        ensures budget { OnOk result (GoOnWithin budget self.old.lazy self.new.lazy) }
        ensures all { IfOk result (λ all. (all ≡ true) ↔ AreCaughtUp self.new.lazy) }
        ensures pool { IsFront (held pool.old) (held pool.new) }
    {
        self.lazy.catch_up(pool, budget)
    }
}
