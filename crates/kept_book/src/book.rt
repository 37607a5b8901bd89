// The workbook as it is kept, and what it holds.
ghost use Rattle.kept_book.specs.Ids.{AreBelow, AreLive};
ghost use Rattle.kept_book.specs.internal.Props.{are_below-prop, are_live-prop};

use grid_store::{Cell, Grid};
use lazy_store::Lazy;
use name_table::Names;
use std::alloc::{AllocError, Global};

/// A workbook: the formulas along the line, each under an id; the filled cells, and the sheets, words and names, with the
/// ids of their formulas; and the id that the next formula gets.
#[derive(Drop)]
pub struct Book {
    pub alloc: Global,
    pub lazy: Lazy,
    pub grid: Grid<Cell>,
    pub names: Names,
    pub next_id: u64,
    pub ghost fresh: { AreBelow next_id lazy } by { are_below-prop next_id lazy },
    pub ghost live: { AreLive lazy } by { are_live-prop lazy },
}

impl Book {
    ghost use Rattle.std.specs.Prelude.{◌≡◌, ℕ, [], None, IfOk, option_map};
    ghost use Rattle.std.specs.FinMap as map;
    ghost use Rattle.formula_tree.specs.Relative.{relative};
    ghost use Rattle.kept_book.specs.Kept.{IsStanding, stored_at_place, workbook};

    /// A workbook without sheets.
    pub fn new(alloc: Global) -> Result<Book, AllocError>
        ensures book { IfOk result (λ book. workbook book ≡ record { sheets = []; cells = map.empty; names = map.empty }) }
        ensures stand { IfOk result IsStanding }
        ensures line { IfOk result (λ book. (book.lazy.line.shifts ≡ []) × (book.lazy.line.first ≡ 0) × (book.lazy.line.cursor ≡ 0)) }
    {
        Ok(Book {
            alloc,
            lazy: Lazy::new(alloc)?,
            grid: Grid::new(alloc)?,
            names: Names::new(alloc)?,
            next_id: 0,
        })
    }
}
