// A page that rows are given to, and the values of formulas over it.
ghost use Rattle.formula_tree.specs.Reference.{IsHomeInside};

use crate::page::{Cell, Name, Page, PageCells};
use calc_eval::eval;
use cell_addr::{OneSheet, Place, Text, read_address};
use cell_value::{FaultKind, Scalar};
use custom_fn::Registry;
use fix_num::Fixed;
use formula_parse::{ParseError, parse};
use formula_tree::{Home, Pool, Tree};
use std::alloc::{AllocError, Global};
use std::sync::ledger::Ledger;
use steps::Steps;

// The serial number of 29 February 2024.
const DAY: i32 = 45_351;

// The cell whose formulas the cases are: E5.
const HOME: Home = Home::Cell(Place {
    sheet: 0,
    row: 4,
    col: 4,
});

// The home of the names: Sheet1.
const NAMES: Home = Home::Name { sheet: 0 };

/// A page, and what its formulas are read with.
pub(crate) struct FormulaPage {
    alloc: Global,
    page: Page,
    pool: Pool,
    sheets: OneSheet,
}

// Written out, so that whoever drops one calls one function.
impl Drop for FormulaPage {
    fn drop(self) {
        let FormulaPage {
            alloc: _,
            page: _page,
            pool: _pool,
            sheets: _sheets,
        } = self;
    }
}

impl FormulaPage {
    /// An empty page.
    pub(crate) fn new(alloc: Global) -> Result<FormulaPage, AllocError> {
        Ok(FormulaPage {
            alloc,
            page: Page {
                cells: PageCells::new(alloc),
                names: Vec::new(alloc),
                day: DAY,
            },
            pool: Pool::new(alloc)?,
            sheets: OneSheet {
                name: Text::from_str(alloc, "Sheet1")?,
            },
        })
    }

    /// The value of the formula in the cell E5; `None` where the text is no formula.
    pub(crate) fn value<L: Ledger>(
        &mut self,
        formula: &str,
        registry: &Registry,
        steps: &mut Steps<L>,
    ) -> Result<Option<Scalar>, AllocError> {
        let Some(tree) = self.tree(HOME, formula)? else {
            return Ok(None);
        };
        let value = eval(self.alloc, &tree, HOME, &mut self.page, registry, steps)?;
        Ok(Some(value))
    }

    /// Gives the page a cell's value or a name's formula; whether the row has that form.
    pub(crate) fn give<L: Ledger>(
        &mut self,
        head: &str,
        text: &str,
        registry: &Registry,
        steps: &mut Steps<L>,
    ) -> Result<bool, AllocError> {
        match read_address(head.as_bytes()) {
            Some((row, col)) => {
                self.give_cell(Place { sheet: 0, row, col }, text)?;
                Ok(true)
            }
            None => self.give_name(head, text, registry, steps),
        }
    }

    // Gives the page the value of a cell.
    fn give_cell(&mut self, at: Place, text: &str) -> Result<(), AllocError> {
        let value = constant(self.alloc, text)?;
        self.page.cells.push(Cell { at, value })
    }

    // Gives the page a name; whether the text is a formula.
    fn give_name<L: Ledger>(
        &mut self,
        word: &str,
        formula: &str,
        registry: &Registry,
        steps: &mut Steps<L>,
    ) -> Result<bool, AllocError> {
        let Some(tree) = self.tree(NAMES, formula)? else {
            return Ok(false);
        };
        let value = eval(self.alloc, &tree, NAMES, &mut self.page, registry, steps)?;
        let word = Text::from_str(self.alloc, word)?;
        self.page.names.push(Name {
            word,
            value,
            tree,
            home: NAMES,
        })?;
        Ok(true)
    }

    // The tree of a formula at the home, which is inside; `None` where the text is no formula.
    fn tree(&mut self, home: Home, formula: &str) -> Result<Option<Tree>, AllocError>
        requires { IsHomeInside home }
    {
        match parse(self.alloc, &mut self.pool, formula, home, &self.sheets) {
            Ok(tree) => Ok(Some(tree)),
            Err(ParseError::Bad) => Ok(None),
            Err(ParseError::NoMemory) => Err(AllocError),
        }
    }
}

// The value that a cell is given: a number, a truth value, a fault, or else the text.
fn constant(alloc: Global, text: &str) -> Result<Scalar, AllocError> {
    if let Ok(number) = Fixed::from_text(text) {
        return Ok(Scalar::Number(number));
    }
    if let Some(fault) = FaultKind::named(text) {
        return Ok(Scalar::Fault(fault));
    }
    match text {
        "TRUE" => Ok(Scalar::Truth(true)),
        "FALSE" => Ok(Scalar::Truth(false)),
        _ => Ok(Scalar::Text(Text::from_str(alloc, text)?)),
    }
}
