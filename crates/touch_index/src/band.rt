// The lines that an edit touches.
ghost use Rattle.std.specs.Prelude.{◌≡◌, ◌≤◌, ◌<◌};
ghost use Rattle.cell_addr.specs.Axis.{limit_of};
ghost use Rattle.shift_core.specs.Lines.{IsSoundEdit};
ghost use Rattle.touch_index.specs.internal.Bands.{gap_of, lost_span, started_span};

use cell_addr::Span;
use shift_core::Edit;

// The lines that an edit of `limit` lines loses; a move loses none.
pub(crate) fn lost(edit: Edit, limit: u32) -> Option<Span>
    requires { IsSoundEdit limit edit }
    ensures { result ≡ lost_span limit edit }
{
    match edit {
        Edit::Move { .. } => None,
        _ => Some(started(edit, limit)),
    }
}

// The lines on which a block begins that an edit of `limit` lines touches, unless it has a line before them.
pub(crate) fn started(edit: Edit, limit: u32) -> Span
    requires { IsSoundEdit limit edit }
    ensures { result ≡ started_span limit edit }
{
    match edit {
        Edit::Insert { at, count } => Span {
            first: at.max(limit.saturating_sub(count)),
            last: limit - 1,
        },
        Edit::Delete { at, count } => Span {
            first: at,
            last: at + count - 1,
        },
        Edit::Move {
            from,
            count,
            before,
        } => Span {
            first: from.min(before),
            last: (from + count).max(before) - 1,
        },
    }
}

// The line before which an insert puts others, and else the first that the edit touches.
pub(crate) fn gap(edit: Edit) -> u32
    ensures { result ≡ gap_of edit }
{
    match edit {
        Edit::Insert { at, .. } => at,
        Edit::Delete { at, .. } => at,
        Edit::Move { from, before, .. } => from.min(before),
    }
}
