// Formulas read for a store.
ghost use Rattle.std.specs.Prelude.{IfOk, IfSome};
ghost use Rattle.formula_tree.specs.Reference.{IsHomeInside};
ghost use Rattle.formula_tree.specs.Relative.{relative};
ghost use Rattle.formula_tree.specs.StandsFor.{at_home};
ghost use Rattle.tree_rewrite.specs.References.{FitsSheets};

use cell_addr::{OneSheet, Text};
use formula_parse::{ParseError, parse};
use formula_tree::{Home, Pool, Tree};
use std::alloc::{AllocError, Global};

// The sheet with the number 0, as formulas of other sheets name it.
const FIRST_SHEET: &str = "One";

/// The tree of a formula at the home, in a workbook whose sheet 0 is named; `None` where the text spells none. The home lies
/// within the limits of a sheet.
pub(crate) fn read_tree(
    alloc: Global,
    pool: &mut Pool,
    home: Home,
    text: &str,
) -> Result<Option<Tree>, AllocError>
    requires { IsHomeInside home }
    ensures { IfOk result (λ found. IfSome found (λ tree. FitsSheets (at_home home (relative tree.value)))) }
{
    let sheets = OneSheet {
        name: Text::from_str(alloc, FIRST_SHEET)?,
    };
    match parse(alloc, pool, text, home, &sheets) {
        Ok(tree) => Ok(Some(tree)),
        Err(ParseError::Bad) => Ok(None),
        Err(ParseError::NoMemory) => Err(AllocError),
    }
}
