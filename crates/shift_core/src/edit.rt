// Edits of the lines along one axis, and what they do to the number of a line and to the ends of a block.
ghost use Rattle.std.specs.Prelude.{◌≡◌, ◌+◌, ◌^◌, ◌<◌, ◌≤◌, ◌↔◌, IsTrue};
ghost use Rattle.std.specs.Option.{option_map_or};
ghost use Rattle.shift_core.specs.Lines.{IsApart, IsSoundDelete, is_among, line_after_insert, line_after_delete, line_after_move};
ghost use Rattle.shift_core.specs.declared.edit.Edit.TheVariants.{Move};
ghost use Rattle.shift_core.specs.Spans.{Displaces, pushed_line, old_start, first_left, end_left, span_after_insert, span_after_delete, span_after_move};

use cell_addr::Span;

/// An edit of a sheet's lines along one axis, its rows or its columns. Lines are counted from 0.
#[derive(Clone, Copy, PartialEq, Eq, Debug)]
pub enum Edit {
    /// Puts `count` lines before the line `at`; lines pushed off the sheet's end are lost.
    Insert { at: u32, count: u32 },
    /// Deletes `count` lines from `at`; those after them close up.
    Delete { at: u32, count: u32 },
    /// Takes `count` lines from `from` and puts them before the line `before`.
    Move { from: u32, count: u32, before: u32 },
}

impl Edit {
    ghost use Rattle.shift_core.specs.Form.{opposite};
    ghost use Rattle.shift_core.specs.Lines.{IsSoundEdit, line_after, line_before};
    ghost use Rattle.shift_core.specs.Opposite.{edit_back};
    ghost use Rattle.shift_core.specs.Spans.{PushesOff, span_after, span_before};
    ghost use Rattle.shift_core.specs.internal.Edits.{MovesSoundly, EndFits};

    // Whether the edit fits `limit` lines and isn't without effect.
    pub(crate) fn is_sound(self, limit: u32) -> bool
        ensures { IsTrue result ↔ IsSoundEdit limit self }
    {
        match self {
            Edit::Insert { at, count } => 0 < count && at < limit,
            Edit::Delete { at, count } => has_lines(limit, at, count),
            Edit::Move {
                from,
                count,
                before,
            } => {
                has_lines(limit, from, count)
                    && before <= limit
                    && (before < from || from + count < before)
            }
        }
    }

    // The edit that puts the lines back.
    pub(crate) fn opposite(self) -> Edit
        requires { EndFits self }
        ensures { result ≡ opposite self }
    {
        match self {
            Edit::Insert { at, count } => Edit::Delete { at, count },
            Edit::Delete { at, count } => Edit::Insert { at, count },
            Edit::Move {
                from,
                count,
                before,
            } => {
                if from + count < before {
                    Edit::Move {
                        from: before - count,
                        count,
                        before: from,
                    }
                } else {
                    Edit::Move {
                        from: before,
                        count,
                        before: from + count,
                    }
                }
            }
        }
    }

    // The edit of `limit` lines that takes this one back: of inserted lines it deletes those that there are.
    pub(crate) fn back(self, limit: u32) -> Edit
        requires { IsSoundEdit limit self }
        ensures { result ≡ edit_back limit self }
    {
        match self {
            Edit::Insert { at, count } => Edit::Delete {
                at,
                count: count.min(limit - at),
            },
            _ => self.opposite(),
        }
    }

    /// Where the edit moves a line of the sheet's `limit` lines along its axis; `None` where the line is lost: deleted, or
    /// pushed off the sheet's end. The edit is sound there. Takes no memory, and always costs the same.
    #[inline(always)]
    pub fn line_after(self, limit: u32, line: u32) -> Option<u32>
        requires { IsSoundEdit limit self }
        ensures { result ≡ line_after limit self line }
    {
        self.moved_line(limit, line)
    }

    // The same of an edit that need only be sound if it is a move.
    #[inline(always)]
    fn moved_line(self, limit: u32, line: u32) -> Option<u32>
        requires { MovesSoundly limit self }
        ensures { result ≡ line_after limit self line }
    {
        match self {
            Edit::Insert { at, count } => after_insert(limit, at, count, line),
            Edit::Delete { at, count } => after_delete(at, count, line),
            Edit::Move {
                from,
                count,
                before,
            } => Some(after_move(from, count, before, line)),
        }
    }

    // Which line of `limit` lines the edit moved to `line`; None where there was none.
    pub(crate) fn line_before(self, limit: u32, line: u32) -> Option<u32>
        requires { MovesSoundly limit self }
        ensures { result ≡ line_before limit self line }
    {
        self.opposite().moved_line(limit, line)
    }

    /// Where the edit moves the ends of a block on the sheet's `limit` lines along its axis; `None` where the block is lost:
    /// all of it deleted, or its first line pushed off the sheet's end. The edit is sound there. Takes no memory, and
    /// always costs the same.
    #[inline(always)]
    pub fn span_after(self, limit: u32, span: Span) -> Option<Span>
        requires { IsSoundEdit limit self }
        ensures { result ≡ span_after limit self span }
    {
        match self {
            Edit::Insert { at, count } => span_after_insert(limit, at, count, span),
            Edit::Delete { at, count } => span_after_delete(at, count, span),
            Edit::Move {
                from,
                count,
                before,
            } => span_after_move(from, count, before, span),
        }
    }

    /// Which ends of a block the edit moved to those of `span`; `None` where one of them was nowhere: an inserted line, or
    /// one that came from beyond the sheet's end. The edit is sound there. Takes no memory, and always costs the same.
    #[inline(always)]
    pub fn span_before(self, limit: u32, span: Span) -> Option<Span>
        requires { IsSoundEdit limit self }
        ensures { result ≡ span_before limit self span }
    {
        match self {
            Edit::Move { .. } => self.opposite().span_after(limit, span),
            _ => {
                let first = self.line_before(limit, span.first)?;
                let last = self.line_before(limit, span.last)?;
                Some(Span { first, last })
            }
        }
    }

    // Whether the edit is a move that displaces a line from the first to the last.
    pub(crate) fn displaces(self, limit: u32, span: Span) -> bool
        requires { IsSoundEdit limit self }
        ensures { IsTrue result ↔ Displaces self span }
    {
        match self {
            Edit::Move {
                from,
                count,
                before,
            } => move_displaces(from, count, before, span),
            _ => false,
        }
    }

    // Whether the edit is an insert that pushes the last line off the `limit` lines.
    pub(crate) fn pushes_off(self, limit: u32, span: Span) -> bool
        ensures { IsTrue result ↔ PushesOff limit self span }
    {
        match self {
            Edit::Insert { at, count } => {
                limit <= span.last || at <= span.last && limit - span.last <= count
            }
            _ => false,
        }
    }
}

// Whether `limit` lines have `count` lines from `start`, and these are some.
fn has_lines(limit: u32, start: u32, count: u32) -> bool
    ensures { IsTrue result ↔ IsSoundDelete limit start count }
{
    0 < count && count <= limit && start <= limit - count
}

// Whether the line is one of the `count` lines from `start`.
fn is_among(start: u32, count: u32, line: u32) -> bool
    ensures { result ≡ is_among start count line }
{
    start <= line && line - start < count
}

// Where a line stands after `count` lines were put before the line `start`.
fn after_insert(limit: u32, start: u32, count: u32, line: u32) -> Option<u32>
    ensures { result ≡ line_after_insert limit start count line }
{
    if line < start {
        Some(line)
    } else if count < limit && line < limit - count {
        Some(line + count)
    } else {
        None
    }
}

// Where a line stands after `count` lines from `start` were deleted.
fn after_delete(start: u32, count: u32, line: u32) -> Option<u32>
    ensures { result ≡ line_after_delete start count line }
{
    if line < start {
        Some(line)
    } else if line - start < count {
        None
    } else {
        Some(line - count)
    }
}

// Where a line stands after `count` lines from `start` were moved to stand before the line `before`.
fn after_move(start: u32, count: u32, before: u32, line: u32) -> u32
    requires room { start + count < 2 ^ 32 }
    requires apart { IsApart start count before }
    ensures { result ≡ line_after_move start count before line }
{
    let end = start + count;
    if end < before {
        if is_among(start, count, line) {
            line - start + (before - count)
        } else if end <= line && line < before {
            line - count
        } else {
            line
        }
    } else if is_among(start, count, line) {
        line - start + before
    } else if before <= line && line < start {
        line + count
    } else {
        line
    }
}

// The ends after `count` lines were put before the line `start`.
fn span_after_insert(limit: u32, start: u32, count: u32, span: Span) -> Option<Span>
    requires { start < limit }
    ensures { result ≡ span_after_insert limit start count span }
{
    let first = after_insert(limit, start, count, span.first)?;
    let last = after_insert(limit, start, count, span.last).unwrap_or(limit - 1);
    Some(Span {
        first,
        last: last.min(limit - 1),
    })
}

// The ends after `count` lines from `start` were deleted.
fn span_after_delete(start: u32, count: u32, span: Span) -> Option<Span>
    requires { start + count < 2 ^ 32 }
    ensures { result ≡ span_after_delete start count span }
{
    let first = first_kept(start, count, span.first);
    let last = last_kept(start, count, span.last)?;
    if first <= last {
        Some(Span { first, last })
    } else {
        None
    }
}

// The ends after `count` lines from `start` were moved to stand before the line `before`.
fn span_after_move(start: u32, count: u32, before: u32, span: Span) -> Option<Span>
    requires some { 0 < count }
    requires room { start + count < 2 ^ 32 }
    requires apart { IsApart start count before }
    ensures { result ≡ span_after_move start count before span }
{
    if is_among(start, count, span.first) && is_among(start, count, span.last) {
        Some(Span {
            first: after_move(start, count, before, span.first),
            last: after_move(start, count, before, span.last),
        })
    } else {
        let first = first_moved(start, count, before, span.first);
        let last = last_moved(start, count, before, span.last)?;
        if first <= last {
            Some(Span { first, last })
        } else {
            None
        }
    }
}

// Whether a line from the first to the last is displaced by a move of `count` lines from `start` to `before`.
fn move_displaces(start: u32, count: u32, before: u32, span: Span) -> bool
    requires some { 0 < count }
    requires room { start + count < 2 ^ 32 }
    requires apart { IsApart start count before }
    ensures { IsTrue result ↔ Displaces (Move start count before) span }
{
    let end = start + count;
    let first = span.first.max(start.min(before));
    first <= span.last && first < end.max(before)
}

// The first line that a deletion leaves of a block that began at `line`.
fn first_kept(start: u32, count: u32, line: u32) -> u32
    ensures { result ≡ first_left start count line }
{
    if line < start {
        line
    } else if line - start < count {
        start
    } else {
        line - count
    }
}

// The last line that a deletion leaves of a block that ended at `line`; None where that is before line 0.
fn last_kept(start: u32, count: u32, line: u32) -> Option<u32>
    ensures { option_map_or (λ last. last + 1) result 0 ≡ end_left start count line }
{
    if line < start {
        Some(line)
    } else if line - start < count {
        start.checked_sub(1)
    } else {
        Some(line - count)
    }
}

// Where the first line of a block goes in a move, unless the whole block is moved.
fn first_moved(start: u32, count: u32, before: u32, line: u32) -> u32
    requires room { start + count < 2 ^ 32 }
    requires apart { IsApart start count before }
    ensures { result ≡ first_left (old_start start count before) count (pushed_line before count line) }
{
    let end = start + count;
    if line < before.min(start) || line >= before.max(end) {
        line
    } else if end < before {
        first_kept(start, count, line)
    } else if line < start {
        line + count
    } else {
        end
    }
}

// Where the last line of a block goes in a move, unless the whole block is moved; None where that is before line 0.
fn last_moved(start: u32, count: u32, before: u32, line: u32) -> Option<u32>
    requires room { start + count < 2 ^ 32 }
    requires some { 0 < count }
    requires apart { IsApart start count before }
    ensures { option_map_or (λ last. last + 1) result 0 ≡ end_left (old_start start count before) count (pushed_line before count line) }
{
    let end = start + count;
    if line < before.min(start) || line >= before.max(end) {
        Some(line)
    } else if end < before {
        last_kept(start, count, line)
    } else if line < start {
        Some(line + count)
    } else {
        Some(end - 1)
    }
}
