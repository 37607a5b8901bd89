// Whole ranges over structural operations, as they are filed.
ghost use Rattle.std.specs.Prelude.{◌≡◌, IsTrue};
ghost use Rattle.cell_addr.specs.Whole.{IsWholeInside, whole_block};
ghost use Rattle.shift_core.specs.Form.{form_of};
ghost use Rattle.touch_index.specs.Handed.{HasAsManyLines};
ghost use Rattle.dep_graph.specs.internal.Wholes.{fresh_whole};

use cell_addr::Whole;
use shift_core::{Shift, runs_across};
use touch_index::{fresh_part, hands_on};

// Whether both whole ranges are within their sheets and, where the operation moves lines, have the same number of them:
// if the ends of the second have the lines that those of the first had, it has all its lines but deleted ones, and besides
// only those that an insert puts in.
pub(crate) fn hands_on_whole(s: &Shift, before: Whole, after: Whole) -> bool
    ensures here { IsTrue result → IsWholeInside before }
    ensures there { IsTrue result → IsWholeInside after }
    ensures count { IsTrue result → HasAsManyLines (form_of s.now) (whole_block before) (whole_block after) }
{
    before.inside() && after.inside() && hands_on(s, before.block(), after.block())
}

// The part of a whole range that is on lines which an insert along its axis puts between others, where the range is what
// the operation makes of one.
pub(crate) fn fresh_whole(s: &Shift, after: Whole) -> Option<Whole>
    ensures { result ≡ fresh_whole (form_of s.now) after }
{
    if runs_across(s, after) {
        None
    } else {
        Some(fresh_part(s, after.block())?.whole(after.axis))
    }
}
