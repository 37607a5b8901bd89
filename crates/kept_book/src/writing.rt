// Cells that are emptied and given something else to hold.
ghost use Rattle.std.specs.Prelude.{◌≡◌, ◌≤◌, ◌<◌, ◌+◌, None, Some, map, length, IfOk, OnOk, OnErr};
ghost use Rattle.std.specs.List.{All};
ghost use Rattle.grid_store.specs.Grid.{AreListedInside, cells_of, items_of, without_places};
ghost use Rattle.formula_tree.specs.Reference.{IsHomeInside};
ghost use Rattle.formula_tree.specs.Relative.{relative};
ghost use Rattle.formula_tree.specs.StandsFor.{at_home};
ghost use Rattle.lazy_store.specs.Kept.{fresh};
ghost use Rattle.lazy_store.specs.Store.{KeepsOthers, kept_in, spare_in};
ghost use Rattle.tree_rewrite.specs.References.{FitsSheets};
ghost use Rattle.shift_line.specs.Track.{with_spare};
ghost use Rattle.kept_book.specs.Change.{places_of};
ghost use Rattle.kept_book.specs.Copied.{IsCopied, entry_copied};
ghost use Rattle.kept_book.specs.Ids.{AreBelow, KeepsBelow};
ghost use Rattle.kept_book.specs.Kept.{IsStanding, Makes, SameBook, change_of, workbook};
ghost use Rattle.kept_book.specs.internal.Cells.{cells_given, trees_given, with_cells, with_given};
ghost use Rattle.kept_book.specs.internal.Writing.{AreReplaced, CanStand, Inserts};

use crate::book::Book;
use crate::part::Part;
use crate::passing::copied;
use cell_addr::Place;
use clip_board::CopyItem;
use formula_tree::{Home, Tree};
use grid_store::{Cell, CellList};
use lazy_store::Lazy;
use std::alloc::{AllocError, Global};

// What is given to cells: the cells, formulas by their ids, and the trees of these with their places, in the order of ids.
#[derive(Drop)]
struct NumberedCells {
    cells: CellList<Cell>,
    trees: Vec<(Place, Tree)>,
}

impl Book {
    // Empties the cells that are listed as what is replaced, and gives cells what is given; of two at one place the first
    // counts. What stood at a place that is given something is listed. For want of memory the workbook is as it was. Costs
    // the cells of both lists, each with the logarithm of the number of filled cells.
    pub(crate) fn write(
        &mut self,
        replaced: CellList<Cell>,
        given: Vec<(Place, CopyItem)>,
    ) -> Result<Part, AllocError>
        requires given { All IsCopied given.items }
        requires inside { AreListedInside (items_of replaced) }
        requires replaced { AreReplaced (cells_of self.old.grid) (items_of replaced) (map (λ e. e.0) given.items) }
        requires stand { IsStanding self.old }
        ensures ok { OnOk result (workbook self.new ≡ with_cells (with_given (map entry_copied given.items) (without_places (places_of (items_of replaced)) (workbook self.old).cells)) (workbook self.old)) }
        ensures makes { IfOk result (λ part. Makes self.old self.new (change_of part)) }
        ensures replaced { IfOk result (λ part. items_of part.replaced ≡ items_of replaced) }
        ensures written { IfOk result (λ part. places_of (items_of part.written) ≡ map (λ e. e.0) given.items) }
        ensures err { OnErr result (SameBook self.old self.new) }
        ensures line { self.new.lazy.line ≡ with_spare self.new.lazy.line.spare self.old.lazy.line }
        ensures kept { KeepsBelow self.old.next_id self.old.lazy self.new.lazy }
        ensures next { self.old.next_id ≤ self.new.next_id }
    {
        let position = self.lazy.line().cursor();
        let names = Vec::new(self.alloc);
        let sheets = Vec::new(self.alloc);
        let given = numbered(self.alloc, self.next_id, given)?;
        let written = copied(self.alloc, &given.cells)?;
        let emptied = replaced.places(self.alloc)?;
        self.lazy.reserve(given.trees.len())?;
        self.grid.exchange(&emptied, given.cells)?;
        self.next_id = insert_all(&mut self.lazy, self.next_id, given.trees);
        Ok(Part {
            from: position,
            to: position,
            replaced,
            written,
            names,
            sheets,
        })
    }
}

// What is given, formulas under ids from this one on.
fn numbered(
    alloc: Global,
    first: u64,
    given: Vec<(Place, CopyItem)>,
) -> Result<NumberedCells, AllocError>
    ensures cells { IfOk result (λ r. items_of r.cells ≡ cells_given first given.items) }
    ensures trees { IfOk result (λ r. r.trees.items ≡ trees_given given.items) }
    ensures room { IfOk result (λ r. first + length r.trees.items ≤ u64.MAX) }
{
    let mut id = first;
    let mut cells = CellList::new(alloc)?;
    let mut trees = Vec::new(alloc);
    for (at, item) in given {
        match item {
            CopyItem::Kept(cell) => cells.push(at, cell)?,
            CopyItem::Formula(tree) => {
                cells.push(at, Cell::Formula(id))?;
                trees.push((at, tree))?;
                id = next(id)?;
            }
        }
    }
    Ok(NumberedCells { cells, trees })
}

// The next id; none is left behind the greatest.
pub(crate) fn next(id: u64) -> Result<u64, AllocError>
    ensures { IfOk result (λ n. n ≡ id + 1) }
{
    match id.checked_add(1) {
        Some(next) => Ok(next),
        None => Err(AllocError),
    }
}

// Keeps formulas of cells, under ids from this one on, and answers the id behind the last. There is room for them.
fn insert_all(lazy: &mut Lazy, first: u64, trees: Vec<(Place, Tree)>) -> u64
    requires below { AreBelow first lazy.old }
    requires stand { All CanStand trees.items }
    requires room { length trees.items ≤ spare_in lazy.old }
    requires ids { first + length trees.items ≤ u64.MAX }
    ensures next { result ≡ first + length trees.items }
    ensures inserts { Inserts first trees.items lazy.old lazy.new }
    ensures below { AreBelow result lazy.new }
{
    let mut id = first;
    for (at, tree) in trees {
        insert(lazy, id, Home::Cell(at), tree);
        id += 1;
    }
    id
}

// Keeps a formula under an id, for which there is room.
pub(crate) fn insert(lazy: &mut Lazy, id: u64, home: Home, tree: Tree)
    requires new { kept_in lazy.old id ≡ None }
    requires home { IsHomeInside home }
    requires fits { FitsSheets (at_home home (relative tree.value)) }
    requires room { 0 < spare_in lazy.old }
    ensures kept { kept_in lazy.new id ≡ Some (fresh lazy.old.line.cursor home (relative tree.value)) }
    ensures others { KeepsOthers id lazy.old lazy.new }
    ensures line { lazy.new.line ≡ lazy.old.line }
    ensures spare { spare_in lazy.old ≤ spare_in lazy.new + 1 }
{
    match lazy.insert(id, home, tree) {
        Ok(()) => (),
        Err(_) => unreachable!(),
    }
}
