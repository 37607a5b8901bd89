// Which cells are on a cycle.
ghost use Rattle.std.specs.Prelude.{◌≡◌, ℕ, ℤ, IfOk, List, filter};
ghost use Rattle.cell_addr.specs.declared.place.Place.{Place as PlaceSeen};
ghost use Rattle.custom_fn.specs.declared.rule.Rule.{Rule};
ghost use Rattle.value_network.specs.Network.{cyclic};
ghost use Rattle.book_values.specs.Values.{network};
ghost use Rattle.book_values.specs.Workbook as nodes;
ghost use Rattle.book_model.specs.Operation as op;
ghost use Rattle.book_model.specs.Refusals.{cause};
ghost use Rattle.kept_steps.specs.Reads.{Reads};
ghost use Rattle.session_operations.specs.Following.{book_of};
ghost use Rattle.session_questions.specs.Areas.{cyclic_on_sheet};
ghost use Rattle.session_operations.specs.Turns.{Answered};
ghost use Rattle.session_operations.specs.Seen.{Fits, ValuesFollow, ValuesFollowStill, state_of, with_rules};

use crate::areas;
use cell_addr::Place;
use session_operations::{Parts, Stop};
use std::alloc::AllocError;

/// The cells of a sheet that are on a cycle, row by row, whatever the custom functions and the day. Nothing is worked out.
///
/// Costs about the filled cells of the sheet and the links of all that these lead to; before it, once, the links of the formulas
/// that changed since a value or links were read, which are all where none were.
///
/// # Errors
/// `NoSheet`.
pub fn on_cycle(parts: &mut Parts, sheet: u32) -> Result<Vec<Place>, Stop>
    requires fits { Fits parts.old }
    requires follow { (customs : List (List ℕ × Rule)) × (today : ℤ) × ValuesFollow customs today parts.old }
    ensures answered { (customs : List (List ℕ × Rule)) (today : ℤ) → Answered (cause (op.clear_sheet sheet) (state_of parts.old)) (λ places. places.items ≡ cyclic_on_sheet sheet (with_rules customs today (state_of parts.old))) result }
    ensures state { state_of parts.new ≡ state_of parts.old }
    ensures fits { Fits parts.new }
    ensures line { parts.new.session.book.lazy.line ≡ parts.old.session.book.lazy.line }
    ensures follow { ValuesFollowStill parts.old parts.new }
{
    let places = areas::filled_in(parts, sheet)?;
    let found = cyclic_among(parts, &places)?;
    Ok(found)
}

// Those of the places that are on a cycle.
fn cyclic_among(parts: &mut Parts, places: &[Place]) -> Result<Vec<Place>, AllocError>
    requires fits { Fits parts.old }
    requires follow { (customs : List (List ℕ × Rule)) × (today : ℤ) × ValuesFollow customs today parts.old }
    ensures found { IfOk result (λ found. (customs : List (List ℕ × Rule)) (today : ℤ) → found.items ≡ filter (λ p. cyclic (network (book_of parts.old.session) customs today) (nodes.place p)) places.now) }
    ensures reads { Reads parts.old.session parts.new.session }
    ensures follow { ValuesFollowStill parts.old parts.new }
{
    let Parts { session, values } = parts;
    values.on_cycle(session, places)
}
