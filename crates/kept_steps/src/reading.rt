// Formulas that are read, or catch up: each is taken to the cursor, and the session stays.
ghost use Rattle.std.specs.Prelude.{◌≡◌, ◌↔◌, true, IfOk, OnOk, option_map};
ghost use Rattle.std.specs.FinMap as map;
ghost use Rattle.std.specs.List.{All};
ghost use Rattle.cell_addr.specs.Place.{covers};
ghost use Rattle.cell_addr.specs.declared.place.Place.{Place as PlaceSeen};
ghost use Rattle.clip_board.specs.Clips.{items_of};
ghost use Rattle.grid_store.specs.Grid.{cells_of};
ghost use Rattle.lazy_store.specs.Store.{AreCaughtUp, GoOnWithin, MovesLagging, StayOrComeTo};
ghost use Rattle.name_table.specs.Named.{names_of};
ghost use Rattle.name_table.specs.Scopes.{key_of};
ghost use Rattle.book_values.specs.Book.{Content};
ghost use Rattle.book_values.specs.Workbook.{content_tree};
ghost use Rattle.kept_book.specs.Copied.{IsCopied, IsHeld, contents_copied};
ghost use Rattle.kept_book.specs.Formula.{tree_at, tree_in_scope};
ghost use Rattle.kept_book.specs.Frame.{named_at};
ghost use Rattle.kept_book.specs.Kept.{KeepsElsewhere, KeepsOtherNames, SameBook, at_of, id_of, stored_at_place};

use crate::session::Session;
use cell_addr::{Block, Place};
use clip_board::CopyList;
use formula_tree::Tree;
use std::alloc::AllocError;

impl Session {
    ghost use Rattle.kept_steps.specs.Reads.{Reads};
    ghost use Rattle.kept_steps.specs.Session.{state_of};

    /// The tree of the formula that a cell holds; `None` exactly where it holds no formula that has one. Costs what
    /// [`kept_book::Book::formula`] does.
    pub fn formula(&mut self, at: Place) -> Result<Option<Tree>, AllocError>
        ensures tree { IfOk result (λ tree. option_map (tree_at at) tree ≡ content_tree (map.get (state_of self.old).book.cells at)) }
        ensures state { state_of self.new ≡ state_of self.old }
        ensures same { SameBook self.old.book self.new.book }
        ensures reads { Reads self.old self.new }
        ensures kept { KeepsElsewhere at self.old.book self.new.book }
        ensures position { OnOk result (option_map (λ s. s.0) (stored_at_place self.new.book at) ≡ option_map (λ id. self.old.book.lazy.line.cursor) (id_of (map.get (cells_of self.old.book.grid) at))) }
    {
        self.book.formula(&mut self.pool, at)
    }

    /// The tree of the scope's own name of the word; `None` exactly where the scope has none.
    pub fn named(&mut self, scope: Option<u32>, word: u64) -> Result<Option<Tree>, AllocError>
        ensures tree { IfOk result (λ tree. option_map (tree_in_scope scope) tree ≡ option_map (named_at (at_of self.old.book) self.old.book.lazy.line.cursor) (map.get (names_of self.old.book.names) (key_of scope word))) }
        ensures state { state_of self.new ≡ state_of self.old }
        ensures same { SameBook self.old.book self.new.book }
        ensures reads { Reads self.old self.new }
        ensures kept { KeepsOtherNames (key_of scope word) self.old.book self.new.book }
    {
        self.book.named(&mut self.pool, scope, word)
    }

    /// What the filled cells of a block hold, each formula by its tree.
    pub fn copied_cells(&mut self, area: Block) -> Result<CopyList, AllocError>
        requires held { (p : PlaceSeen) (x : Content) → map.get (state_of self.old).book.cells p ≡ Some x → IsHeld p x }
        ensures contents { IfOk result (λ list. contents_copied (items_of list) ≡ map.retain_keys (state_of self.old).book.cells (covers area)) }
        ensures copied { IfOk result (λ list. All IsCopied (items_of list)) }
        ensures state { state_of self.new ≡ state_of self.old }
        ensures same { SameBook self.old.book self.new.book }
    {
        self.book.copied_cells(&mut self.pool, area)
    }

    /// Takes formulas of the session's workbooks that are kept as of a position before the cursor to it, as far as the budget of
    /// operations goes, where they have a standing there. The answer is whether none is left. Costs what
    /// [`kept_book::Book::catch_up`] does.
    pub fn catch_up(&mut self, budget: u64) -> Result<bool, AllocError>
        ensures state { state_of self.new ≡ state_of self.old }
        ensures same { SameBook self.old.book self.new.book }
        ensures line { self.new.book.lazy.line ≡ self.old.book.lazy.line }
        ensures names { self.new.book.names ≡ self.old.book.names }
        ensures others { MovesLagging self.old.book.lazy.line.cursor self.old.book.lazy self.new.book.lazy }
        ensures placed { OnOk result (StayOrComeTo self.old.book.lazy.line.cursor self.old.book.lazy self.new.book.lazy) }
        ensures budget { OnOk result (GoOnWithin budget self.old.book.lazy self.new.book.lazy) }
        ensures all { IfOk result (λ all. (all ≡ true) ↔ AreCaughtUp self.new.book.lazy) }
    {
        self.book.catch_up(&mut self.pool, budget)
    }
}
