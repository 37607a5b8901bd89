// Engines on the heap, so that who drops one calls one function.
ghost use Rattle.std.specs.Prelude.{◌≤◌};
ghost use Rattle.book_model.specs.Given.{CanBegin, given_sheets};
ghost use Rattle.book_model.specs.declared.limits.TheConstants.{MAX_UNDO};

use book_engine::Engine;
use book_model::BookSheet;
use calc_eval::Customs;
use std::alloc::{AllocError, Global};

// The engine of these sheets, of which so many steps can be undone, with these custom functions.
pub(crate) fn begun<C: Customs>(
    alloc: Global,
    books: &[BookSheet],
    limit: u16,
    customs: C,
) -> Result<Box<Engine<C>>, AllocError>
    requires can { CanBegin (given_sheets books.now) }
    requires limit { limit ≤ MAX_UNDO }
{
    let engine = Engine::build(alloc, books, limit, customs, 0)?;
    Ok(Box::new(alloc, engine)?)
}

// One without sheets.
pub(crate) fn built<C: Customs>(
    alloc: Global,
    limit: u16,
    customs: C,
) -> Result<Box<Engine<C>>, AllocError>
    requires { limit ≤ MAX_UNDO }
{
    begun(alloc, &[], limit, customs)
}
