// The two ways of a structural operation.
ghost use Rattle.std.specs.Prelude.{◌≡◌, ℕ, ◌<◌, is_none};
ghost use Rattle.grid_store.specs.internal.Ways.{line_goes, span_has};
ghost use Rattle.shift_core.specs.Lines.{line_after_delete, line_after_insert};

use cell_addr::Span;
use shift_core::Edit;

// Forth as an operation is done, or back as it is taken back.
#[derive(Clone, Copy, PartialEq, Eq, Debug)]
pub(crate) enum Going {
    Forth,
    Back,
}

// Of `limit` lines, those that the edit loses on this way.
pub(crate) fn lost_lines(way: Going, edit: Edit, limit: u32) -> Option<Span>
    ensures lost { (line : ℕ) → line < limit → span_has result line ≡ is_none (line_goes way limit edit line) }
{
    match (way, edit) {
        (Going::Forth, Edit::Insert { at, count }) => pushed_lines(at, count, limit),
        (Going::Back, Edit::Delete { at, count }) => pushed_lines(at, count, limit),
        (Going::Forth, Edit::Delete { at, count }) => deleted_lines(at, count, limit),
        (Going::Back, Edit::Insert { at, count }) => deleted_lines(at, count, limit),
        _ => None,
    }
}

// The lines that are pushed off the end as `count` lines come before the line `at`.
fn pushed_lines(at: u32, count: u32, limit: u32) -> Option<Span>
    ensures { (line : ℕ) → line < limit → span_has result line ≡ is_none (line_after_insert limit at count line) }
{
    let first = at.max(limit.saturating_sub(count));
    if first < limit {
        Some(Span {
            first,
            last: limit - 1,
        })
    } else {
        None
    }
}

// The `count` lines from `at`, as far as there are so many.
fn deleted_lines(at: u32, count: u32, limit: u32) -> Option<Span>
    ensures { (line : ℕ) → line < limit → span_has result line ≡ is_none (line_after_delete at count line) }
{
    if at < limit && 0 < count {
        Some(Span {
            first: at,
            last: at + (count - 1).min(limit - 1 - at),
        })
    } else {
        None
    }
}
