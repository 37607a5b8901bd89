// The three forms of structural operations, and what each does to places and blocks.
ghost use Rattle.std.specs.Prelude.{◌≡◌, ◌↔◌, IsTrue};
ghost use Rattle.shift_core.specs.Bent.{HaveOtherSizes};
ghost use Rattle.shift_core.specs.Opposite.{shift_of};
ghost use Rattle.shift_core.specs.declared.form.Form.TheVariants.{Lines};
ghost use Rattle.shift_core.specs.Tables.{by_line, by_span};

use crate::cells;
use crate::edit::Edit;
use crate::shift::Shift;
use cell_addr::{Axis, Block, Place, Span};

/// What a structural operation works on: the lines of a sheet along one axis, a block of cells, or a sheet.
#[derive(Clone, Copy, PartialEq, Eq, Debug)]
pub enum Form {
    /// Edits the rows or the columns of a sheet.
    Lines { sheet: u32, axis: Axis, edit: Edit },
    /// Moves the cells of `source` so that they begin at `to`, over what stands there.
    Cells { source: Block, to: Place },
    /// Drops the sheet with all of its cells.
    Sheet { sheet: u32 },
}

impl Form {
    ghost use Rattle.shift_core.specs.Bent.{BendsBlock, CutsBlock, MeetsDisplaced};
    ghost use Rattle.shift_core.specs.Opposite.{form_back, shift_of};
    ghost use Rattle.shift_core.specs.Sound.{IsSoundForm};
    ghost use Rattle.shift_core.specs.Tables.{place_moved, block_moved, place_returned, block_returned};

    // Whether the operation fits a sheet and isn't without effect.
    pub(crate) fn is_sound(self) -> bool
        ensures { IsTrue result ↔ IsSoundForm self }
    {
        match self {
            Form::Lines { axis, edit, .. } => edit.is_sound(axis.limit()),
            Form::Cells { source, to } => cells::is_sound(source, to),
            Form::Sheet { .. } => true,
        }
    }

    // The form of the operation that takes this one back; None where a sheet is dropped.
    pub(crate) fn opposite(self) -> Option<Form>
        requires { IsSoundForm self }
        ensures { result ≡ form_back self }
    {
        match self {
            Form::Lines { sheet, axis, edit } => Some(Form::Lines {
                sheet,
                axis,
                edit: edit.back(axis.limit()),
            }),
            Form::Cells { source, to } => {
                let (source, to) = cells::turned(source, to);
                Some(Form::Cells { source, to })
            }
            Form::Sheet { .. } => None,
        }
    }

    /// The operation of the form: [`Shift::form`] gives the form back.
    pub fn shift(self) -> Shift
        ensures { result ≡ shift_of self }
    {
        match self {
            Form::Lines { sheet, axis, edit } => on_axis(sheet, axis, edit),
            Form::Cells { source, to } => Shift::MoveBlock { source, to },
            Form::Sheet { sheet } => Shift::DropSheet { sheet },
        }
    }

    // Where the operation moves the place; None where it is lost.
    #[inline(always)]
    pub(crate) fn moved_place(self, p: Place) -> Option<Place>
        requires { IsSoundForm self }
        ensures { result ≡ place_moved self p }
    {
        match self {
            Form::Lines { sheet, axis, edit } => {
                on_line(sheet, axis, p, edit.line_after(axis.limit(), p.line(axis)))
            }
            Form::Cells { source, to } => cells::moved_place(source, to, p),
            Form::Sheet { sheet } => { if p.sheet == sheet { None } else { Some(p) } }
        }
    }

    // Where the operation moves the block; None where it is lost.
    #[inline(always)]
    pub(crate) fn moved_block(self, b: Block) -> Option<Block>
        requires { IsSoundForm self }
        ensures { result ≡ block_moved self b }
    {
        match self {
            Form::Lines { sheet, axis, edit } => {
                on_span(sheet, axis, b, edit.span_after(axis.limit(), b.span(axis)))
            }
            Form::Cells { source, to } => cells::moved_block(source, to, b),
            Form::Sheet { sheet } => { if b.sheet == sheet { None } else { Some(b) } }
        }
    }

    // Which place the operation moved to `p`; None where there was none.
    #[inline(always)]
    pub(crate) fn back_place(self, p: Place) -> Option<Place>
        requires { IsSoundForm self }
        ensures { result ≡ place_returned self p }
    {
        match self {
            Form::Lines { sheet, axis, edit } => {
                on_line(sheet, axis, p, edit.line_before(axis.limit(), p.line(axis)))
            }
            Form::Cells { source, to } => cells::back_place(source, to, p),
            Form::Sheet { .. } => self.moved_place(p),
        }
    }

    // Which block had the ends that the operation moved to those of `b`; None where one of them was nowhere.
    #[inline(always)]
    pub(crate) fn back_block(self, b: Block) -> Option<Block>
        requires { IsSoundForm self }
        ensures { result ≡ block_returned self b }
    {
        match self {
            Form::Lines { sheet, axis, edit } => {
                on_span(sheet, axis, b, edit.span_before(axis.limit(), b.span(axis)))
            }
            Form::Cells { source, to } => cells::back_block(source, to, b),
            Form::Sheet { .. } => self.moved_block(b),
        }
    }

    // Whether the operation does more to the block than carry it along as it is.
    pub(crate) fn bends(self, b: Block) -> bool
        requires { IsSoundForm self }
        ensures { IsTrue result ↔ BendsBlock self b }
    {
        match self.moved_block(b) {
            Some(after) => have_other_sizes(b, after) || self.displaces(b),
            None => true,
        }
    }

    // Whether the block meets a row or column that a move of rows or columns displaces.
    fn displaces(self, b: Block) -> bool
        requires { IsSoundForm self }
        ensures { IsTrue result ↔ MeetsDisplaced self b }
    {
        match self {
            Form::Lines { sheet, axis, edit } => {
                b.sheet == sheet && edit.displaces(axis.limit(), b.span(axis))
            }
            _ => false,
        }
    }

    // Whether an insert pushes the block's end past the last row or column.
    pub(crate) fn cuts(self, b: Block) -> bool
        ensures { IsTrue result ↔ CutsBlock self b }
    {
        match self {
            Form::Lines { sheet, axis, edit } => {
                b.sheet == sheet && edit.pushes_off(axis.limit(), b.span(axis))
            }
            _ => false,
        }
    }
}

// Whether the blocks have other heights or other widths.
fn have_other_sizes(a: Block, b: Block) -> bool
    ensures { IsTrue result ↔ HaveOtherSizes a b }
{
    a.bottom.saturating_sub(a.top) != b.bottom.saturating_sub(b.top)
        || a.right.saturating_sub(a.left) != b.right.saturating_sub(b.left)
}

// The place with another line, or none, where it is on the sheet.
fn on_line(sheet: u32, axis: Axis, p: Place, line: Option<u32>) -> Option<Place>
    ensures { result ≡ by_line sheet axis (λ _. line) p }
{
    if p.sheet == sheet {
        Some(p.with_line(axis, line?))
    } else {
        Some(p)
    }
}

// The block with other ends, or none, where it is on the sheet.
fn on_span(sheet: u32, axis: Axis, b: Block, span: Option<Span>) -> Option<Block>
    ensures { result ≡ by_span sheet axis (λ _. span) b }
{
    if b.sheet == sheet {
        Some(b.with_span(axis, span?))
    } else {
        Some(b)
    }
}

// The edit of a sheet's lines as an operation.
fn on_axis(sheet: u32, axis: Axis, edit: Edit) -> Shift
    ensures { result ≡ shift_of (Lines sheet axis edit) }
{
    match (axis, edit) {
        (Axis::Rows, Edit::Insert { at, count }) => Shift::InsertRows { sheet, at, count },
        (Axis::Rows, Edit::Delete { at, count }) => Shift::DeleteRows { sheet, at, count },
        (
            Axis::Rows,
            Edit::Move {
                from,
                count,
                before,
            },
        ) => Shift::MoveRows {
            sheet,
            from,
            count,
            before,
        },
        (Axis::Cols, Edit::Insert { at, count }) => Shift::InsertCols { sheet, at, count },
        (Axis::Cols, Edit::Delete { at, count }) => Shift::DeleteCols { sheet, at, count },
        (
            Axis::Cols,
            Edit::Move {
                from,
                count,
                before,
            },
        ) => Shift::MoveCols {
            sheet,
            from,
            count,
            before,
        },
    }
}
