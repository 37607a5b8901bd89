// The trees of formulas' texts.
ghost use Rattle.std.specs.Prelude.{◌≡◌, ◌<◌, ◌≤◌, Some, None, IfOk, IsErrOf};
ghost use Rattle.std.specs.Option.{option_map};
ghost use Rattle.cell_addr.specs.Sheets.{id_in};
ghost use Rattle.formula_tree.specs.Term.{Term, depth_of};
ghost use Rattle.formula_tree.specs.Reference.{sheet_of, IsHomeInside};
ghost use Rattle.formula_tree.specs.Grammar.{SpellsText};
ghost use Rattle.formula_tree.specs.Reader.{tree_of_text, max_levels};
ghost use Rattle.formula_tree.specs.Relative.{relative};
ghost use Rattle.formula_tree.specs.StandsFor.{StandsFor, at_home};
ghost use Rattle.formula_tree.specs.declared.reference.Corner.{Corner};

use crate::reader::tree_of;
use cell_addr::{SheetNames, strip_prefix};
use formula_tree::{Home, Pool, Tree};
use std::alloc::{AllocError, Global};
use thiserror::Error;

/// Why a text could not be read as a formula.
#[derive(Clone, Copy, PartialEq, Eq, Debug, Error)]
pub enum ParseError {
    /// The text spells no tree, or one of more than 64 levels.
    #[error("the text is no formula")]
    Bad,
    /// There was no memory for the tree.
    #[error("there is no memory for the tree")]
    NoMemory,
}

impl From<AllocError> for ParseError {
    ghost use Rattle.std.specs.Prelude.{◌≡◌};
    ghost use Rattle.formula_parse.specs.declared.formula.ParseError.TheVariants as errors;

    ghost from_gives = { λ e r. r ≡ errors.NoMemory };

    fn from(_: AllocError) -> ParseError {
        ParseError::NoMemory
    }
}

/// The tree that the text spells, for a formula at this home, shared by the pool. The home lies within the
/// limits of a sheet.
///
/// `Bad` exactly where no tree of at most 64 levels has this spelling: the text doesn't begin with `=`, or
/// what follows isn't in the grammar, or nests deeper. A reference to a sheet that isn't listed is the
/// fault `#REF!`. Each byte is read a bounded number of times.
pub fn parse<S: SheetNames>(
    alloc: Global,
    pool: &mut Pool,
    text: &str,
    home: Home,
    sheets: &S,
) -> Result<Tree, ParseError>
    requires { IsHomeInside home }
    ensures read { IfOk result (λ tree. (t : Term Corner) × StandsFor tree home t
        × (tree_of_text (sheet_of home) (id_in (S.sheets sheets.now)) text.now ≡ Some t)) }
    ensures spelt { IfOk result (λ tree. (t : Term Corner) × StandsFor tree home t
        × SpellsText (sheet_of home) (id_in (S.sheets sheets.now)) text.now t × (depth_of t ≤ max_levels)) }
    ensures bad { IsErrOf result ParseError.Bad
        → tree_of_text (sheet_of home) (id_in (S.sheets sheets.now)) text.now ≡ None }
    ensures unspelt { IsErrOf result ParseError.Bad → (t : Term Corner)
        → SpellsText (sheet_of home) (id_in (S.sheets sheets.now)) text.now t → max_levels < depth_of t }
{
    let Some(tree) = read_tree(alloc, text, home, sheets)? else {
        return Err(ParseError::Bad);
    };
    let shared = pool.share(tree)?;
    Ok(shared)
}

// The tree that the text spells, for a formula at this home; `None` where it spells none of at most 64
// levels.
fn read_tree<S: SheetNames>(
    alloc: Global,
    text: &str,
    home: Home,
    sheets: &S,
) -> Result<Option<Tree>, AllocError>
    requires { IsHomeInside home }
    ensures { IfOk result (λ found. option_map (λ tree. at_home home (relative tree.value)) found ≡ tree_of_text (sheet_of home) (id_in (S.sheets sheets.now)) text.now) }
{
    let Some(formula) = strip_prefix(text, '=') else {
        return Ok(None);
    };
    let found = tree_of(alloc, home, sheets, formula)?;
    Ok(found)
}
