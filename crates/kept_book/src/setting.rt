// Cells that are given what a text says, or emptied.
ghost use Rattle.std.specs.Prelude.{◌≡◌, ◌==◌, ◌++◌, ◌∷◌, [], None, Some, IfOk, OnOk, OnErr, IfSome, filter_map, map as each, option_map};
ghost use Rattle.std.specs.List.{All, cons_option};
ghost use Rattle.std.specs.FinMap as map;
ghost use Rattle.cell_addr.specs.Place.{IsInside, covers};
ghost use Rattle.grid_store.specs.Grid.{cells_of, items_of, within};
ghost use Rattle.name_table.specs.Listed.{listed};
ghost use Rattle.shift_core.specs.Maps.{AreInside};
ghost use Rattle.shift_line.specs.Track.{with_spare};
ghost use Rattle.book_model.specs.Changes.{HaveDistinctPlaces, emptied, with_content, with_contents, with_given_content};
ghost use Rattle.book_model.specs.Content.{content_given, tree_given};
ghost use Rattle.kept_book.specs.Change.{places_of};
ghost use Rattle.kept_book.specs.Copied.{IsCopied, IsPlain, content_copied, entry_copied};
ghost use Rattle.kept_book.specs.Formula.{IsFormula, tree_at};
ghost use Rattle.kept_book.specs.Ids.{KeepsBelow};
ghost use Rattle.kept_book.specs.Kept.{IsStanding, Makes, SameBook, change_of, workbook};
ghost use Rattle.kept_book.specs.Stored.{content_of};
ghost use Rattle.kept_book.specs.internal.Cells.{entry_given, listed_at, stood_at, with_content_at};

use crate::book::Book;
use crate::part::Part;
use book_model::{ContentText, read_content};
use cell_addr::{Block, COLS, Place, ROWS, Text};
use clip_board::CopyItem;
use formula_parse::{ParseError, parse};
use formula_tree::{Home, Pool, Tree};
use grid_store::{Cell, CellList, Grid};
use name_table::Names;
use std::alloc::{AllocError, Global};

impl Book {
    /// Gives a cell the content that a text says, and answers what that changed. Every other formula is kept as it was, but
    /// the one that the cell held, which isn't touched either. For want of memory the workbook is as it was. Costs about
    /// the length of the text, with the logarithm of the number of filled cells.
    pub fn fill(&mut self, pool: &mut Pool, at: Place, text: &str) -> Result<Part, AllocError>
        requires inside { IsInside at }
        requires stand { IsStanding self.old }
        ensures ok { OnOk result (workbook self.new ≡ with_content at text.now (workbook self.old)) }
        ensures makes { IfOk result (λ part. Makes self.old self.new (change_of part)) }
        ensures replaced { IfOk result (λ part. items_of part.replaced ≡ listed_at at (map.get (cells_of self.old.grid) at)) }
        ensures written { IfOk result (λ part. All (λ e. e.0 ≡ at) (items_of part.written)) }
        ensures err { OnErr result (SameBook self.old self.new) }
        ensures line { self.new.lazy.line ≡ with_spare self.new.lazy.line.spare self.old.lazy.line }
        ensures kept { KeepsBelow self.old.next_id self.old.lazy self.new.lazy }
    {
        let content = read_content(self.alloc, text)?;
        let part = self.fill_content(pool, at, content)?;
        Ok(part)
    }

    /// Gives a cell a content, or empties it, and answers what that changed, likewise. Costs about the length of a formula's text,
    /// and of another content nothing for its length, with the logarithm of the number of filled cells.
    pub fn fill_content(
        &mut self,
        pool: &mut Pool,
        at: Place,
        content: ContentText,
    ) -> Result<Part, AllocError>
        requires inside { IsInside at }
        requires stand { IsStanding self.old }
        ensures ok { OnOk result (workbook self.new ≡ with_given_content at content (workbook self.old)) }
        ensures makes { IfOk result (λ part. Makes self.old self.new (change_of part)) }
        ensures replaced { IfOk result (λ part. items_of part.replaced ≡ listed_at at (map.get (cells_of self.old.grid) at)) }
        ensures written { IfOk result (λ part. All (λ e. e.0 ≡ at) (items_of part.written)) }
        ensures err { OnErr result (SameBook self.old self.new) }
        ensures line { self.new.lazy.line ≡ with_spare self.new.lazy.line.spare self.old.lazy.line }
        ensures kept { KeepsBelow self.old.next_id self.old.lazy self.new.lazy }
    {
        match item_given(self.alloc, pool, &self.names, at, content)? {
            Some(CopyItem::Kept(cell)) => self.put_plain(at, cell),
            item => self.put_item(at, item),
        }
    }

    // Gives a cell a thing, or empties it.
    fn put_item(&mut self, at: Place, item: Option<CopyItem>) -> Result<Part, AllocError>
        requires inside { IsInside at }
        requires copied { IfSome item (λ x. IsCopied (at, x)) }
        requires stand { IsStanding self.old }
        ensures ok { OnOk result (workbook self.new ≡ with_content_at at (option_map (content_copied at) item) (workbook self.old)) }
        ensures makes { IfOk result (λ part. Makes self.old self.new (change_of part)) }
        ensures replaced { IfOk result (λ part. items_of part.replaced ≡ listed_at at (map.get (cells_of self.old.grid) at)) }
        ensures written { IfOk result (λ part. All (λ e. e.0 ≡ at) (items_of part.written)) }
        ensures err { OnErr result (SameBook self.old self.new) }
        ensures line { self.new.lazy.line ≡ with_spare self.new.lazy.line.spare self.old.lazy.line }
        ensures kept { KeepsBelow self.old.next_id self.old.lazy self.new.lazy }
    {
        let given = given(self.alloc, at, item)?;
        let replaced = replaced_at(self.alloc, &self.grid, at)?;
        let part = self.write(replaced, given)?;
        Ok(part)
    }

    // Gives a cell something that is no formula: only the lists that the part keeps are made. These come first, so that want of
    // memory leaves the cell as it was.
    fn put_plain(&mut self, at: Place, cell: Cell) -> Result<Part, AllocError>
        requires inside { IsInside at }
        requires plain { IsPlain cell }
        requires stand { IsStanding self.old }
        ensures ok { OnOk result (workbook self.new ≡ with_content_at at (Some (content_of (λ n. None) cell)) (workbook self.old)) }
        ensures makes { IfOk result (λ part. Makes self.old self.new (change_of part)) }
        ensures replaced { IfOk result (λ part. items_of part.replaced ≡ listed_at at (map.get (cells_of self.old.grid) at)) }
        ensures written { IfOk result (λ part. items_of part.written ≡ (at, cell) ∷ []) }
        ensures err { OnErr result (SameBook self.old self.new) }
        ensures lazy { self.new.lazy ≡ self.old.lazy }
    {
        let position = self.lazy.line().cursor();
        let names = Vec::new(self.alloc);
        let sheets = Vec::new(self.alloc);
        let held = replaced_at(self.alloc, &self.grid, at)?;
        let mut written = CellList::new(self.alloc)?;
        written.push(at, cell.copied(self.alloc)?)?;
        self.grid.put(at, cell)?;
        Ok(Part {
            from: position,
            to: position,
            replaced: held,
            written,
            names,
            sheets,
        })
    }

    /// Gives cells the contents that texts say, each of them another cell, and answers what that changed. Every other formula is kept
    /// as it was, but those that the cells held, which aren't touched either. For want of memory the workbook is as it was. Costs
    /// about the lengths of the texts, and for each cell the logarithm of the number of filled cells.
    pub fn fill_all(&mut self, pool: &mut Pool, cells: &[(Place, Text)]) -> Result<Part, AllocError>
        requires inside { All (λ e. IsInside e.0) cells.now }
        requires distinct { HaveDistinctPlaces cells.now }
        requires stand { IsStanding self.old }
        ensures ok { OnOk result (workbook self.new ≡ with_contents cells.now (workbook self.old)) }
        ensures makes { IfOk result (λ part. Makes self.old self.new (change_of part)) }
        ensures replaced { IfOk result (λ part. items_of part.replaced ≡ filter_map (stood_at (cells_of self.old.grid)) cells.now) }
        ensures written { IfOk result (λ part. places_of (items_of part.written) ≡ each (λ e. e.0) (filter_map (entry_given (workbook self.old).sheets) cells.now)) }
        ensures err { OnErr result (SameBook self.old self.new) }
        ensures line { self.new.lazy.line ≡ with_spare self.new.lazy.line.spare self.old.lazy.line }
        ensures kept { KeepsBelow self.old.next_id self.old.lazy self.new.lazy }
    {
        let given = given_all(self.alloc, pool, &self.names, cells)?;
        let replaced = replaced_all(self.alloc, &self.grid, cells)?;
        let part = self.write(replaced, given)?;
        Ok(part)
    }

    /// Empties the cells of a block, and answers what that changed. Every formula is kept as it was. For want of memory the
    /// workbook is as it was. Costs the filled cells of the block, and its rows that hold any cell.
    pub fn clear(&mut self, area: Block) -> Result<Part, AllocError>
        requires inside { AreInside (workbook self.old).cells }
        requires stand { IsStanding self.old }
        ensures ok { OnOk result (workbook self.new ≡ emptied (covers area) (workbook self.old)) }
        ensures makes { IfOk result (λ part. Makes self.old self.new (change_of part)) }
        ensures replaced { IfOk result (λ part. items_of part.replaced ≡ map.entries (within area (cells_of self.old.grid))) }
        ensures written { IfOk result (λ part. items_of part.written ≡ []) }
        ensures err { OnErr result (SameBook self.old self.new) }
        ensures line { self.new.lazy.line ≡ with_spare self.new.lazy.line.spare self.old.lazy.line }
        ensures kept { KeepsBelow self.old.next_id self.old.lazy self.new.lazy }
    {
        let replaced = self.grid.listed(area)?;
        let part = self.write(replaced, Vec::new(self.alloc))?;
        Ok(part)
    }

    /// Empties the cells of a sheet, and answers what that changed, likewise.
    pub fn clear_sheet(&mut self, sheet: u32) -> Result<Part, AllocError>
        requires inside { AreInside (workbook self.old).cells }
        requires stand { IsStanding self.old }
        ensures ok { OnOk result (workbook self.new ≡ emptied (λ p. p.sheet == sheet) (workbook self.old)) }
        ensures makes { IfOk result (λ part. Makes self.old self.new (change_of part)) }
        ensures replaced { IfOk result (λ part. items_of part.replaced ≡ map.entries (map.retain_keys (cells_of self.old.grid) (λ p. p.sheet == sheet))) }
        ensures written { IfOk result (λ part. items_of part.written ≡ []) }
        ensures err { OnErr result (SameBook self.old self.new) }
        ensures line { self.new.lazy.line ≡ with_spare self.new.lazy.line.spare self.old.lazy.line }
        ensures kept { KeepsBelow self.old.next_id self.old.lazy self.new.lazy }
    {
        let part = self.clear(Block {
            sheet,
            top: 0,
            left: 0,
            bottom: ROWS - 1,
            right: COLS - 1,
        })?;
        Ok(part)
    }
}

// What is given to a cell, as a list.
fn given(
    alloc: Global,
    at: Place,
    item: Option<CopyItem>,
) -> Result<Vec<(Place, CopyItem)>, AllocError>
    requires { IfSome item (λ x. IsCopied (at, x)) }
    ensures entries { IfOk result (λ r. each entry_copied r.items ≡ cons_option (option_map (λ x. (at, x)) (option_map (content_copied at) item)) []) }
    ensures copied { IfOk result (λ r. All IsCopied r.items) }
    ensures there { IfOk result (λ r. All (λ e. e.0 ≡ at) r.items) }
{
    let mut list = Vec::with_capacity(alloc, 1)?;
    if let Some(item) = item {
        list.push_reserved((at, item));
    }
    Ok(list)
}

// What a content gives to a cell, if anything.
fn item_given(
    alloc: Global,
    pool: &mut Pool,
    sheets: &Names,
    at: Place,
    content: ContentText,
) -> Result<Option<CopyItem>, AllocError>
    requires { IsInside at }
    ensures content { IfOk result (λ r. option_map (content_copied at) r ≡ content_given (listed sheets.now) at.sheet content) }
    ensures copied { IfOk result (λ r. IfSome r (λ item. IsCopied (at, item))) }
{
    match content {
        ContentText::Clear => Ok(None),
        ContentText::Number(number) => Ok(Some(CopyItem::Kept(Cell::Number(number)))),
        ContentText::Truth(truth) => Ok(Some(CopyItem::Kept(Cell::Truth(truth)))),
        ContentText::Text(text) => Ok(Some(CopyItem::Kept(Cell::Text(text)))),
        ContentText::Formula(text) => {
            match read_formula(alloc, pool, sheets, at, text.as_str())? {
                Some(tree) => Ok(Some(CopyItem::Formula(tree))),
                None => Ok(Some(CopyItem::Kept(Cell::Broken(text)))),
            }
        }
    }
}

// The tree of a text in a cell; `None` where it has none.
fn read_formula(
    alloc: Global,
    pool: &mut Pool,
    sheets: &Names,
    at: Place,
    text: &str,
) -> Result<Option<Tree>, AllocError>
    requires { IsInside at }
    ensures tree { IfOk result (λ r. option_map (tree_at at) r ≡ tree_given (listed sheets.now) at.sheet text.now) }
    ensures proper { IfOk result (λ r. IfSome r (λ tree. IsFormula at (tree_at at tree))) }
{
    match parse(alloc, pool, text, Home::Cell(at), sheets) {
        Ok(tree) => Ok(Some(tree)),
        Err(ParseError::Bad) => Ok(None),
        Err(ParseError::NoMemory) => Err(AllocError),
    }
}

// What the cell at a place holds, as a list.
fn replaced_at(alloc: Global, grid: &Grid<Cell>, at: Place) -> Result<CellList<Cell>, AllocError>
    ensures { IfOk result (λ list. items_of list ≡ listed_at at (map.get (cells_of grid.now) at)) }
{
    let mut list = CellList::new(alloc)?;
    if let Some(cell) = grid.cell(at) {
        list.push(at, cell.copied(alloc)?)?;
    }
    Ok(list)
}

// What texts give to cells.
fn given_all(
    alloc: Global,
    pool: &mut Pool,
    sheets: &Names,
    cells: &[(Place, Text)],
) -> Result<Vec<(Place, CopyItem)>, AllocError>
    requires { All (λ e. IsInside e.0) cells.now }
    ensures entries { IfOk result (λ r. each entry_copied r.items ≡ filter_map (entry_given (listed sheets.now)) cells.now) }
    ensures copied { IfOk result (λ r. All IsCopied r.items) }
{
    let mut list = Vec::new(alloc);
    for (at, text) in cells {
        push_given(alloc, pool, sheets, *at, text.as_str(), &mut list)?;
    }
    Ok(list)
}

// Adds what a text gives to a cell, if anything.
fn push_given(
    alloc: Global,
    pool: &mut Pool,
    sheets: &Names,
    at: Place,
    text: &str,
    list: &mut Vec<(Place, CopyItem)>,
) -> Result<(), AllocError>
    requires { IsInside at }
    ensures entries { OnOk result (each entry_copied list.new.items ≡ each entry_copied list.old.items ++ cons_option (entry_given (listed sheets.now) (at, text.now)) []) }
    ensures copied { OnOk result (All IsCopied list.old.items → All IsCopied list.new.items) }
{
    let content = read_content(alloc, text)?;
    if let Some(item) = item_given(alloc, pool, sheets, at, content)? {
        list.push((at, item))?;
    }
    Ok(())
}

// What the cells at these places hold.
fn replaced_all(
    alloc: Global,
    grid: &Grid<Cell>,
    cells: &[(Place, Text)],
) -> Result<CellList<Cell>, AllocError>
    ensures { IfOk result (λ list. items_of list ≡ filter_map (stood_at (cells_of grid.now)) cells.now) }
{
    let mut list = CellList::new(alloc)?;
    for (at, _) in cells {
        push_replaced(alloc, grid, *at, &mut list)?;
    }
    Ok(list)
}

// Adds what the cell at a place holds.
fn push_replaced(
    alloc: Global,
    grid: &Grid<Cell>,
    at: Place,
    list: &mut CellList<Cell>,
) -> Result<(), AllocError>
    ensures { OnOk result (items_of list.new ≡ items_of list.old ++ listed_at at (map.get (cells_of grid.now) at)) }
{
    if let Some(cell) = grid.cell(at) {
        list.push(at, cell.copied(alloc)?)?;
    }
    Ok(())
}
