// Copied cells that are pasted.
ghost use Rattle.std.specs.Prelude.{◌≡◌, ◌++◌, true, [], IfOk, OnOk, OnErr, filter_map, map as each};
ghost use Rattle.std.specs.List.{All};
ghost use Rattle.std.specs.FinMap as map;
ghost use Rattle.cell_addr.specs.Place.{IsBlockInside, IsInside, covers};
ghost use Rattle.grid_store.specs.Grid.{cells_of, items_of, within};
ghost use Rattle.name_table.specs.Listed.{listed};
ghost use Rattle.shift_core.specs.Carried as carrying;
ghost use Rattle.shift_core.specs.Maps.{AreInside};
ghost use Rattle.shift_line.specs.Track.{with_spare};
ghost use Rattle.book_model.specs.Changes.{entry_pasted, pasted_content, with_copy};
ghost use Rattle.kept_book.specs.Copied.{IsCopied, content_copied, contents_copied, entry_copied};
ghost use Rattle.kept_book.specs.Ids.{KeepsBelow};
ghost use Rattle.kept_book.specs.Kept.{IsStanding, Makes, SameBook, change_of, workbook};

use crate::book::Book;
use crate::part::Part;
use cell_addr::{Block, Place};
use clip_board::{CopyItem, pasted};
use formula_tree::{Home, Pool};
use name_table::Names;
use shift_core::{carried_place, destination};
use std::alloc::{AllocError, Global};

impl Book {
    /// Pastes the copied cells of a block to the block of its size that begins at a place, which holds nothing else then, and
    /// answers what that changed. Every formula from before is kept as it was. For want of memory the workbook is as it was.
    /// Costs the copied cells and those that stood there, each with the logarithm of the number of filled cells, and the
    /// nodes of the trees.
    pub fn paste(
        &mut self,
        pool: &mut Pool,
        area: Block,
        cells: &[(Place, CopyItem)],
        at: Place,
    ) -> Result<Part, AllocError>
        requires block { IsBlockInside area }
        requires there { IsBlockInside (carrying.destination area at) }
        requires copied { All IsCopied cells.now }
        requires inside { AreInside (workbook self.old).cells }
        requires stand { IsStanding self.old }
        ensures ok { OnOk result (workbook self.new ≡ with_copy area (contents_copied cells.now) at (workbook self.old)) }
        ensures makes { IfOk result (λ part. Makes self.old self.new (change_of part)) }
        ensures replaced { IfOk result (λ part. items_of part.replaced ≡ map.entries (within (carrying.destination area at) (cells_of self.old.grid))) }
        ensures written { IfOk result (λ part. All (λ e. covers (carrying.destination area at) e.0 ≡ true) (items_of part.written)) }
        ensures err { OnErr result (SameBook self.old self.new) }
        ensures line { self.new.lazy.line ≡ with_spare self.new.lazy.line.spare self.old.lazy.line }
        ensures kept { KeepsBelow self.old.next_id self.old.lazy self.new.lazy }
    {
        let replaced = self.grid.listed(destination(area, at))?;
        let given = items_pasted(self.alloc, pool, &self.names, area, cells, at)?;
        self.write(replaced, given)
    }
}

// What copied cells of a block give to the cells that they come to.
fn items_pasted(
    alloc: Global,
    pool: &mut Pool,
    sheets: &Names,
    area: Block,
    cells: &[(Place, CopyItem)],
    at: Place,
) -> Result<Vec<(Place, CopyItem)>, AllocError>
    requires there { IsBlockInside (carrying.destination area at) }
    requires copied { All IsCopied cells.now }
    ensures entries { IfOk result (λ r. each entry_copied r.items ≡ filter_map (λ e. entry_pasted (listed sheets.now) area at (entry_copied e)) cells.now) }
    ensures copied { IfOk result (λ r. All IsCopied r.items) }
    ensures there { IfOk result (λ r. All (λ e. covers (carrying.destination area at) e.0 ≡ true) r.items) }
{
    let mut list = Vec::new(alloc);
    for (from, item) in cells {
        if area.holds(*from) {
            let to = carried_place(area, at, *from);
            let pasted = item_pasted(alloc, pool, sheets, *from, item, to)?;
            list.push((to, pasted))?;
        }
    }
    Ok(list)
}

// What a copied cell gives to the cell that it comes to.
fn item_pasted(
    alloc: Global,
    pool: &mut Pool,
    sheets: &Names,
    from: Place,
    item: &CopyItem,
    to: Place,
) -> Result<CopyItem, AllocError>
    requires copied { IsCopied (from, item.now) }
    requires to { IsInside to }
    ensures content { IfOk result (λ r. content_copied to r ≡ pasted_content (listed sheets.now) from to (content_copied from item.now)) }
    ensures copied { IfOk result (λ r. IsCopied (to, r)) }
{
    match item {
        CopyItem::Kept(cell) => Ok(CopyItem::Kept(cell.copied(alloc)?)),
        CopyItem::Formula(tree) => {
            let (home, there) = (Home::Cell(from), Home::Cell(to));
            let tree = pasted(alloc, pool, tree, home, there, sheets)?;
            Ok(CopyItem::Formula(tree))
        }
    }
}
