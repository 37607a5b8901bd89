// Pages of cells and names, over which formulas are worked out.
ghost use Rattle.std.specs.Prelude.{◌≡◌, ◌+◌, ◌≤◌, IfOk, option_map, true};
ghost use Rattle.cell_value.specs.Summary.{IsBounded, summary_of};
ghost use Rattle.cell_value.specs.declared.scalar.Scalar.TheVariants.{Empty};
ghost use Rattle.calc_eval.specs.Named.{named_by};
ghost use Rattle.function_cases.specs.Page.{named_in, shown_in};

use calc_eval::{NameView, ShownCells, View, area_of, summary_of};
use cell_addr::{Block, Place, Text, same_folded};
use cell_value::{Area, Scalar, Summary};
use formula_tree::{Home, Tree};
use std::alloc::{AllocError, Global};
use std::sync::ledger::Ledger;
use steps::Steps;

/// A filled cell of a page.
#[derive(Drop)]
pub struct Cell {
    pub at: Place,
    pub value: Scalar,
}

/// A named expression of a page.
#[derive(Drop)]
pub struct Name {
    pub word: Text,
    pub value: Scalar,
    pub tree: Tree,
    pub home: Home,
}

/// The cells of a page. Of two at one place the first counts.
#[derive(Drop)]
pub struct PageCells {
    cells: Vec<Cell>,
    empty: Scalar,

    // What other places show.
    ghost is_empty: { empty ≡ Empty },
}

impl PageCells {
    /// No cells.
    pub(crate) fn new(alloc: Global) -> PageCells {
        PageCells {
            cells: Vec::new(alloc),
            empty: Scalar::Empty,
        }
    }

    /// Puts a cell behind the others.
    pub(crate) fn push(&mut self, cell: Cell) -> Result<(), AllocError> {
        self.cells.push(cell)?;
        Ok(())
    }
}

impl ShownCells for PageCells {
    ghost shown = { λ page. shown_in page.cells.items };

    fn value(&self, at: Place) -> &Scalar {
        'cells: for cell in &self.cells {
            if cell.at == at {
                return &cell.value;
            }
        }
        &self.empty
    }
}

/// A page: its cells, its names, and the serial number of its day.
#[derive(Drop)]
pub struct Page {
    pub cells: PageCells,
    pub names: Vec<Name>,
    pub day: i32,
}

impl View for Page {
    ghost world = { λ page. record { shown = shown_in page.cells.cells.items; named = λ word sheet. named_in page.names.items word; today = page.day } };

    fn scalar(&self, at: Place) -> &Scalar {
        self.cells.value(at)
    }

    fn area(&self, alloc: Global, block: Block) -> Result<Area, AllocError> {
        area_of(alloc, &self.cells, block)
    }

    fn summary<L: Ledger>(
        &mut self,
        alloc: Global,
        block: Block,
        _steps: &mut Steps<L>,
    ) -> Result<Summary, AllocError> {
        summary_of(alloc, &self.cells, block)
    }

    fn name(&self, word: &str, _sheet: u32) -> Option<NameView> {
        first_named(&self.names, word)
    }

    fn day(&self) -> i32 {
        self.day
    }
}

// The first of the names that the word finds, in any case of its letters.
fn first_named<'a>(names: &'a [Name], word: &str) -> Option<NameView<'a>>
    ensures { option_map named_by result ≡ named_in names.now word.now }
{
    'names: for name in names {
        if same_folded(name.word.as_str(), word) {
            return Some(NameView {
                value: &name.value,
                tree: &name.tree,
                home: name.home,
            });
        }
    }
    None
}
