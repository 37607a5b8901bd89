// Cells that are copied.
ghost use Rattle.std.specs.Prelude.{◌≡◌, IfOk, IfSome, option_map};
ghost use Rattle.std.specs.List.{All};
ghost use Rattle.std.specs.FinMap as map;
ghost use Rattle.cell_addr.specs.Place.{covers};
ghost use Rattle.cell_addr.specs.declared.place.Place.{Place as PlaceSeen};
ghost use Rattle.book_values.specs.Book.{Content};
ghost use Rattle.clip_board.specs.Clips.{items_of};
ghost use Rattle.kept_book.specs.Copied.{IsCopied, IsHeld, content_copied, contents_copied};
ghost use Rattle.kept_book.specs.Kept.{IsStanding, SameBook, workbook};

use crate::book::Book;
use cell_addr::{Block, Place};
use clip_board::{CopyItem, CopyList};
use formula_tree::Pool;
use std::alloc::AllocError;

impl Book {
    /// What the filled cells of a block hold, their formulas taken to the cursor. Each cell lies within the limits of a sheet,
    /// and its tree is proper. The workbook stays, at every position. Costs the filled cells of the block, its rows that
    /// hold any cell, and what reading the formulas costs.
    pub fn copied_cells(&mut self, pool: &mut Pool, area: Block) -> Result<CopyList, AllocError>
        requires held { (p : PlaceSeen) (x : Content) → map.get (workbook self.old).cells p ≡ Some x → IsHeld p x }
        requires stand { IsStanding self.old }
        ensures contents { IfOk result (λ list. contents_copied (items_of list) ≡ map.retain_keys (workbook self.old).cells (covers area)) }
        ensures copied { IfOk result (λ list. All IsCopied (items_of list)) }
        ensures same { SameBook self.old self.new }
    {
        let filled = self.grid.listed(area)?;
        let mut list = CopyList::new(self.alloc)?;
        'cells: for (at, _) in filled.items() {
            if let Some(item) = self.copied_item(pool, *at)? {
                list.push(*at, item)?;
            }
        }
        Ok(list)
    }

    // What a cell holds, if it is filled.
    fn copied_item(&mut self, pool: &mut Pool, at: Place) -> Result<Option<CopyItem>, AllocError>
        requires held { (p : PlaceSeen) (x : Content) → map.get (workbook self.old).cells p ≡ Some x → IsHeld p x }
        requires stand { IsStanding self.old }
        ensures content { IfOk result (λ item. option_map (content_copied at) item ≡ map.get (workbook self.old).cells at) }
        ensures copied { IfOk result (λ item. IfSome item (λ i. IsCopied (at, i))) }
        ensures same { SameBook self.old self.new }
    {
        if let Some(tree) = self.formula(pool, at)? {
            return Ok(Some(CopyItem::Formula(tree)));
        }
        match self.grid.cell(at) {
            Some(cell) => Ok(Some(CopyItem::Kept(cell.copied(self.alloc)?))),
            None => Ok(None),
        }
    }
}
