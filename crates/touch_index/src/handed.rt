// What an operation leaves of a block whose corners keep their lines.
ghost use Rattle.std.specs.Prelude.{◌≡◌, ℕ, Some, IsTrue, OnOk};
ghost use Rattle.cell_addr.specs.Axis.{span_of};
ghost use Rattle.cell_addr.specs.Place.{IsBlockInside};
ghost use Rattle.cell_addr.specs.declared.axis.Span.{Span};
ghost use Rattle.cell_addr.specs.declared.place.Block.{Block};
ghost use Rattle.place_lines.specs.Spots.{number_of, table_along};
ghost use Rattle.place_lines.specs.declared.lines.PlaceLines.{PlaceLines};
ghost use Rattle.shift_core.specs.Form.{IsWithin, form_of};
ghost use Rattle.touch_index.specs.Handed.{AreAsMany, HasAsManyLines, IsHandedOn, fresh_lines, fresh_part};

use crate::index::TouchIndex;
use cell_addr::{Axis, Block, Span};
use place_lines::PlaceLines;
use shift_core::{Edit, Form, Shift};
use std::alloc::AllocError;

impl TouchIndex {
    ghost use Rattle.touch_index.specs.Kept.{Grows, KeepsBlock, goes_on};

    /// Keeps a block under its number over an operation that leaves the lines of its corners: only lines that an insert puts
    /// in between are new to it. What was kept is kept still, also where there is no memory. Costs, for an insert into the
    /// block, about the logarithm of the number of lines that it puts in, and else nothing.
    pub fn hand_on(
        &mut self,
        lines: &PlaceLines,
        s: &Shift,
        after: Block,
        number: usize,
    ) -> Result<(), AllocError>
        ensures grown { Grows self.old self.new }
        ensures kept { OnOk result ((old : PlaceLines) (b : Block) → IsHandedOn (form_of s.now) old lines.now b after → KeepsBlock self.old old b number → KeepsBlock self.new lines.now after number) }
    {
        match s.form() {
            Form::Lines { sheet, axis, edit } => {
                if sheet == after.sheet {
                    self.add_fresh(lines, axis, edit, after, number)
                } else {
                    Ok(())
                }
            }
            Form::Cells { .. } => Ok(()),
            Form::Sheet { .. } => Ok(()),
        }
    }

    // Keeps the lines along the axis that an insert puts into a block of its sheet.
    fn add_fresh(
        &mut self,
        lines: &PlaceLines,
        axis: Axis,
        edit: Edit,
        after: Block,
        number: usize,
    ) -> Result<(), AllocError>
        ensures grown { Grows self.old self.new }
        ensures added { OnOk result ((band : Span) (position : ℕ) → fresh_lines edit (span_of axis after) ≡ Some band → IsWithin band position → IsTrue (goes_on axis self.new after.sheet (number_of (table_along axis lines.now after.sheet) position) number)) }
    {
        match fresh_lines(edit, after.span(axis)) {
            Some(span) => self.add_span(lines, axis, after.sheet, span, number),
            None => Ok(()),
        }
    }
}

/// The part of a block that is on lines which an insert puts between others, where the block is what the operation makes of
/// one.
pub fn fresh_part(s: &Shift, block: Block) -> Option<Block>
    ensures { result ≡ fresh_part (form_of s.now) block }
{
    match s.form() {
        Form::Lines { sheet, axis, edit } if block.sheet == sheet => {
            let span = fresh_lines(edit, block.span(axis))?;
            Some(block.with_span(axis, span))
        }
        _ => None,
    }
}

// The lines that an insert puts between others, of those that a block has then.
fn fresh_lines(edit: Edit, lines: Span) -> Option<Span>
    ensures { result ≡ fresh_lines edit lines }
{
    match edit {
        Edit::Insert { at, count } if lines.first < at && at <= lines.last => Some(Span {
            first: at,
            last: at.saturating_add(count.saturating_sub(1)).min(lines.last),
        }),
        _ => None,
    }
}

/// Whether both blocks are within their sheets and, where the operation moves lines, have the same number of them: if the
/// corners of the second have the lines that those of the first had, it has all its lines but deleted ones, and besides only
/// those that an insert puts in.
pub fn hands_on(s: &Shift, before: Block, after: Block) -> bool
    ensures here { IsTrue result → IsBlockInside before }
    ensures there { IsTrue result → IsBlockInside after }
    ensures count { IsTrue result → HasAsManyLines (form_of s.now) before after }
{
    before.inside() && after.inside() && has_as_many_lines(s, before, after)
}

// Whether the blocks have the same number of lines, where the operation moves some.
fn has_as_many_lines(s: &Shift, before: Block, after: Block) -> bool
    ensures { IsTrue result → HasAsManyLines (form_of s.now) before after }
{
    match s.form() {
        Form::Lines { axis, edit, .. } => are_as_many(edit, before.span(axis), after.span(axis)),
        _ => true,
    }
}

// Whether there are as many lines, where the edit moves some.
fn are_as_many(edit: Edit, before: Span, after: Span) -> bool
    ensures { IsTrue result → AreAsMany edit before after }
{
    match edit {
        Edit::Move { .. } => {
            after.last.saturating_sub(after.first) == before.last.saturating_sub(before.first)
        }
        _ => true,
    }
}
