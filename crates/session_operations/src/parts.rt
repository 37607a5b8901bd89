// What an engine keeps of its session, and of its values.
ghost use Rattle.std.specs.Prelude.{◌≡◌, ◌≤◌, ℤ, [], IfOk, List, ℕ, pos};
ghost use Rattle.custom_fn.specs.declared.rule.Rule.{Rule};
ghost use Rattle.book_model.specs.Given.{CanBegin, given_sheets, session_given};
ghost use Rattle.book_model.specs.declared.limits.TheConstants.{MAX_UNDO};
ghost use Rattle.session_operations.specs.Seen.{Fits, ValuesFollow, state_of};

use book_model::BookSheet;
use kept_steps::Session;
use session_values::SessionValues;
use std::alloc::{AllocError, Global};

/// The session of an engine: the workbook along its line, with the steps that can be undone and redone; and what is kept of the
/// values of the workbook.
#[derive(Drop)]
pub struct Parts {
    pub session: Session,
    pub values: SessionValues,
}

impl Parts {
    /// The session of a workbook with these sheets, numbered from 0 in their order, and these texts in their cells, of which so
    /// many steps can be undone. Of its values nothing is kept yet. Costs the lengths of the texts, and for each the logarithm of
    /// the number of filled cells.
    pub fn build(alloc: Global, books: &[BookSheet], limit: u16) -> Result<Parts, AllocError>
        requires can { CanBegin (given_sheets books.now) }
        requires limit { limit ≤ MAX_UNDO }
        ensures state { IfOk result (λ parts. state_of parts ≡ session_given limit [] (pos 0) (given_sheets books.now)) }
        ensures fits { IfOk result Fits }
        ensures follow { IfOk result (λ parts. (customs : List (List ℕ × Rule)) (today : ℤ) → ValuesFollow customs today parts) }
    {
        Ok(Parts {
            session: Session::build(alloc, books, limit)?,
            values: SessionValues::nothing(),
        })
    }
}
