// What is left of a sheet's lists, and how places, blocks and whole ranges go by the edits there.
ghost use Rattle.std.specs.Prelude.{◌≡◌, ◌<◌, ◌≤◌, ◌↔◌, ◌∷◌, ℕ, true, IfSome, IsTrue, MatchOption};
ghost use Rattle.cell_addr.specs.declared.axis.Span.{Span};
ghost use Rattle.cell_addr.specs.Axis.{limit_of};
ghost use Rattle.cell_addr.specs.Place.{IsBlockInside};
ghost use Rattle.shift_core.specs.Lines.{IsSoundEdit, is_among};
ghost use Rattle.sheet_shifts.specs.internal.Going.{AreSoundEdits, CarriesEnds, CarriesSpan, IsPast, TakesLine, TakesWhole, Walks, is_left};

use crate::entry::Entry;
use cell_addr::{Axis, Block, COLS, Place, ROWS, Span};
use shift_core::{Edit, Shift};

// What is left of a sheet's lists: the edits of its rows, those of its columns, and the other operations that meet it.
#[derive(Clone, Copy)]
pub(crate) struct Left<'a> {
    pub(crate) rows: &'a [Entry<Edit>],
    pub(crate) cols: &'a [Entry<Edit>],
    pub(crate) others: &'a [Entry<Shift>],
}

impl<'a> Left<'a> {
    ghost use Rattle.sheet_shifts.specs.internal.Left.{AreSoundLeft, WalksArea, WalksPlace};

    // Where the edits in front of the index take the place, and what is left then; None where one of them loses it.
    #[inline(always)]
    pub(crate) fn place_over(self, to: usize, p: Place) -> Option<(Place, Left<'a>)>
        requires { AreSoundLeft self }
        ensures { IfSome result (λ r. WalksPlace to self.entry p r.0 r.1) }
    {
        let (row, rows) = line_over(self.rows, to, ROWS, p.row)?;
        let (col, cols) = line_over(self.cols, to, COLS, p.col)?;
        Some((Place { row, col, ..p }, Left { rows, cols, ..self }))
    }

    // Where they take the block, or as its block the whole range along an axis, each of them giving it back, and what is
    // left then; None where one of them doesn't.
    #[inline(always)]
    pub(crate) fn area_over(
        self,
        to: usize,
        lines: Option<Axis>,
        b: Block,
    ) -> Option<(Block, Left<'a>)>
        requires sound { AreSoundLeft self }
        requires inside { IsBlockInside b }
        ensures walks { IfSome result (λ r. WalksArea lines to self.entry b r.0 r.1) }
        ensures inside { IfSome result (λ r. IsBlockInside r.0) }
    {
        let (down, rows) = ends_over(lines, Axis::Rows, self.rows, to, b.span(Axis::Rows))?;
        let (across, cols) = ends_over(lines, Axis::Cols, self.cols, to, b.span(Axis::Cols))?;
        let moved = Block {
            top: down.first,
            left: across.first,
            bottom: down.last,
            right: across.last,
            ..b
        };
        Some((moved, Left { rows, cols, ..self }))
    }
}

// The first operation of a list, if it stands in front of the index, and those behind it.
#[inline(always)]
pub(crate) fn first_before<T: Copy>(
    list: &[Entry<T>],
    to: usize,
) -> Option<(&Entry<T>, &[Entry<T>])>
    ensures { MatchOption result (IsPast to list.now) (λ r. (list.now ≡ r.0.now ∷ r.1.now) × (r.0.now.index < to)) }
{
    let (entry, rest) = list.split_first()?;
    if entry.index < to {
        Some((entry, rest))
    } else {
        None
    }
}

// Where the edits in front of the index take the line, and those that are left; None where one of them loses it.
#[inline(always)]
fn line_over<'a>(
    edits: &'a [Entry<Edit>],
    to: usize,
    limit: u32,
    line: u32,
) -> Option<(u32, &'a [Entry<Edit>])>
    requires { AreSoundEdits limit edits.now }
    ensures { IfSome result (λ r. Walks (TakesLine limit) to edits.now line r.0 r.1.now) }
{
    let mut at = line;
    let mut left = edits;
    'edits: while let Some((entry, rest)) = first_before(left, to) {
        at = entry.what.line_after(limit, at)?;
        left = rest;
    }
    Some((at, left))
}

// Where the edits along an axis take the ends of a block or of a whole range, each of them giving these back, and those
// that are left; None where one doesn't. A whole range along the other axis they leave.
#[inline(always)]
fn ends_over<'a>(
    lines: Option<Axis>,
    axis: Axis,
    edits: &'a [Entry<Edit>],
    to: usize,
    span: Span,
) -> Option<(Span, &'a [Entry<Edit>])>
    requires sound { AreSoundEdits (limit_of axis) edits.now }
    requires order { span.first ≤ span.last }
    requires within { span.last < limit_of axis }
    ensures walks { IfSome result (λ r. Walks (CarriesEnds (is_left lines axis) (limit_of axis)) to edits.now span r.0 r.1.now) }
    ensures stays { IfSome result (λ r. (r.0.first ≤ r.0.last) × (r.0.last < limit_of axis)) }
{
    if leaves(axis, lines) {
        Some((span, behind_all(edits, to)))
    } else {
        span_over(edits, to, axis.limit(), span)
    }
}

// Whether these are whole lines along the other axis, which an edit along this one leaves.
#[inline(always)]
fn leaves(axis: Axis, lines: Option<Axis>) -> bool
    ensures { result ≡ is_left lines axis }
{
    match lines {
        None => false,
        Some(along) => along == axis.across(),
    }
}

// The edits that aren't in front of the index.
#[inline(always)]
fn behind_all(edits: &[Entry<Edit>], to: usize) -> &[Entry<Edit>]
    ensures { (limit : ℕ) (span : Span) → Walks (CarriesEnds true limit) to edits.now span span result.now }
{
    let mut left = edits;
    'edits: while let Some((_, rest)) = first_before(left, to) {
        left = rest;
    }
    left
}

// Where they take the ends of a block, each of them giving these back, and those that are left; None where one doesn't.
#[inline(always)]
fn span_over<'a>(
    edits: &'a [Entry<Edit>],
    to: usize,
    limit: u32,
    span: Span,
) -> Option<(Span, &'a [Entry<Edit>])>
    requires sound { AreSoundEdits limit edits.now }
    requires order { span.first ≤ span.last }
    requires within { span.last < limit }
    ensures walks { IfSome result (λ r. Walks (CarriesSpan limit) to edits.now span r.0 r.1.now) }
    ensures stays { IfSome result (λ r. (r.0.first ≤ r.0.last) × (r.0.last < limit)) }
{
    let mut at = span;
    let mut left = edits;
    'edits: while let Some((entry, rest)) = first_before(left, to) {
        at = carried_span(entry.what, limit, at)?;
        left = rest;
    }
    Some((at, left))
}

// Where the edit takes the ends of a block, if it gives them back.
#[inline(always)]
fn carried_span(edit: Edit, limit: u32, span: Span) -> Option<Span>
    requires sound { IsSoundEdit limit edit }
    requires order { span.first ≤ span.last }
    requires within { span.last < limit }
    ensures carries { IfSome result (CarriesSpan limit edit span) }
    ensures stays { IfSome result (λ t. (t.first ≤ t.last) × (t.last < limit)) }
{
    if !takes_whole(edit, span) {
        return None;
    }
    let first = edit.line_after(limit, span.first)?;
    let last = edit.line_after(limit, span.last)?;
    Some(Span { first, last })
}

// Whether the edit, if it is a move, takes both ends of a block or neither.
#[inline(always)]
fn takes_whole(edit: Edit, span: Span) -> bool
    ensures { IsTrue result ↔ TakesWhole edit span }
{
    match edit {
        Edit::Move { from, count, .. } => {
            takes(from, count, span.first) == takes(from, count, span.last)
        }
        _ => true,
    }
}

// Whether a move of `count` lines from `start` takes the line.
#[inline(always)]
fn takes(start: u32, count: u32, line: u32) -> bool
    ensures { result ≡ is_among start count line }
{
    start <= line && line - start < count
}
