// Formulas read into a pool, and what was read.
ghost use Rattle.std.specs.Prelude.{IfOk, IfSome};
ghost use Rattle.formula_tree.specs.Reference.{IsHomeInside};
ghost use Rattle.formula_tree.specs.Relative.{relative};
ghost use Rattle.formula_tree.specs.StandsFor.{ArePlacesInside, at_home};
ghost use Rattle.tree_rewrite.specs.References.{FitsSheets};

use crate::show::show;
use cell_addr::{OneSheet, Place, Text};
use formula_parse::{ParseError, parse, parse_error};
use formula_print::print;
use formula_tree::{Home, Pool, Tree, depth, to_absolute};
use std::alloc::{AllocError, Global};
use std::fmt::Write;

/// The tree of a formula at the home and its canonical text, where this sheet is listed; `none` for both where the
/// text spells no tree. The home lies within the limits of a sheet.
pub(crate) fn texts_of(
    alloc: Global,
    sheet: &str,
    home: Home,
    text: &str,
) -> Result<String, AllocError>
    requires { IsHomeInside home }
{
    let mut reading = Reading::new(alloc, sheet)?;
    reading.texts(home, text)
}

/// The levels of the tree of a formula at the home, or 0 where the text spells none. The home lies within the
/// limits of a sheet.
pub(crate) fn levels_of(
    alloc: Global,
    sheet: &str,
    home: Home,
    text: &str,
) -> Result<u32, AllocError>
    requires { IsHomeInside home }
{
    let mut reading = Reading::new(alloc, sheet)?;
    reading.levels(home, text)
}

/// Where a text goes wrong: at which byte, and how many bytes the wrong token has; `nowhere` where it is a formula.
pub(crate) fn wrong_place(alloc: Global, text: &str) -> Result<String, AllocError> {
    match parse_error(text) {
        Some(span) => format!(in alloc; "at {}, length {}", span.at, span.length),
        None => String::from_str(alloc, "nowhere"),
    }
}

/// How many trees a column of so many formulas leaves in the pool. Those that would stand beyond the sheet's last row
/// aren't read.
pub(crate) fn column_trees(
    alloc: Global,
    sheet: &str,
    first: Place,
    rows: u32,
    text: &str,
) -> Result<usize, AllocError> {
    let mut reading = Reading::new(alloc, sheet)?;
    'rows: for line in 0..rows {
        let at = Place {
            row: first.row.saturating_add(line),
            ..first
        };
        reading.read_row(at, text)?;
    }
    Ok(reading.pool.len())
}

// The text with the number for each `…`.
fn with_number(alloc: Global, text: &str, number: u64) -> Result<String, AllocError> {
    let mut numbered = String::new(alloc);
    'characters: for character in text.chars() {
        match character {
            '…' => write!(numbered, "{number}")?,
            other => numbered.push(other)?,
        }
    }
    Ok(numbered)
}

/// The tree of a formula at the home, with every reference as the place that it names.
pub(crate) fn shown(alloc: Global, tree: &Tree, home: Home) -> Result<String, AllocError> {
    let mut shown = String::new(alloc);
    show(alloc, &mut shown, &to_absolute(alloc, tree, home)?)?;
    Ok(shown)
}

/// Where formulas are read: the sheet that they may name, and the pool of their trees.
#[derive(Drop)]
pub struct Reading {
    alloc: Global,
    sheets: OneSheet,
    pub pool: Pool,
}

impl Reading {
    /// A reading into an empty pool, where the sheet of this name has the number 0.
    pub(crate) fn new(alloc: Global, sheet: &str) -> Result<Reading, AllocError> {
        Ok(Reading {
            alloc,
            sheets: OneSheet {
                name: Text::from_str(alloc, sheet)?,
            },
            pool: Pool::new(alloc)?,
        })
    }

    /// The tree of a formula at the home, or `None` where the text spells none. The home lies within the limits
    /// of a sheet, and so do the tree's places.
    pub(crate) fn read(&mut self, home: Home, text: &str) -> Result<Option<Tree>, AllocError>
        requires { IsHomeInside home }
        ensures places { IfOk result (λ found. IfSome found (λ tree. ArePlacesInside (at_home home (relative tree.value)))) }
        ensures fits { IfOk result (λ found. IfSome found (λ tree. FitsSheets (at_home home (relative tree.value)))) }
    {
        match parse(self.alloc, &mut self.pool, text, home, &self.sheets) {
            Ok(tree) => Ok(Some(tree)),
            Err(ParseError::Bad) => Ok(None),
            Err(ParseError::NoMemory) => Err(AllocError),
        }
    }

    // The texts of the tree of a formula at the home, which lies within the limits of a sheet.
    fn texts(&mut self, home: Home, text: &str) -> Result<String, AllocError>
        requires { IsHomeInside home }
    {
        match self.read(home, text)? {
            Some(tree) => self.texts_of_tree(&tree, home),
            None => String::from_str(self.alloc, "none, printed none"),
        }
    }

    // A tree at the home and its canonical text; its places lie within the limits of a sheet.
    fn texts_of_tree(&self, tree: &Tree, home: Home) -> Result<String, AllocError>
        requires { ArePlacesInside (at_home home (relative tree.now.value)) }
    {
        let mut texts = shown(self.alloc, tree, home)?;
        let printed = print(self.alloc, tree, home, &self.sheets)?;
        texts.push_str(", printed ")?;
        texts.push_str(printed.as_str())?;
        Ok(texts)
    }

    // The levels of the tree of a formula at the home, which lies within the limits of a sheet.
    fn levels(&mut self, home: Home, text: &str) -> Result<u32, AllocError>
        requires { IsHomeInside home }
    {
        match self.read(home, text)? {
            Some(tree) => Ok(depth(&tree)),
            None => Ok(0),
        }
    }

    // Reads the formula of a row of a column, where the row is on the sheet.
    fn read_row(&mut self, at: Place, text: &str) -> Result<(), AllocError> {
        if !at.inside() {
            return Ok(());
        }
        let text = with_number(self.alloc, text, u64::from(at.row) + 1)?;
        let _tree = self.read(Home::Cell(at), &text)?;
        Ok(())
    }
}
