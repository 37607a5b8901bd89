// The structural operations of a sheet, and what they do to places and blocks.
ghost use Rattle.std.specs.Prelude.{◌≡◌, ◌↔◌, IsTrue};
ghost use Rattle.shift_core.specs.Sound.{IsSound};
ghost use Rattle.shift_core.specs.Bent.{IsBent, IsCut};
ghost use Rattle.shift_core.specs.Tables.{place_after, block_after, place_before, block_before};

use crate::edit::Edit;
use crate::form::Form;
use cell_addr::{Axis, Block, Place};

/// A structural operation of a workbook. Lines are counted from 0; a sheet is named by its number.
#[derive(Clone, Copy, PartialEq, Eq, Debug)]
pub enum Shift {
    /// Puts `count` rows before the row `at`; rows pushed off the sheet's end are lost.
    InsertRows {
        sheet: u32,
        at: u32,
        count: u32,
    },
    /// Deletes `count` rows from `at`; those after them close up.
    DeleteRows {
        sheet: u32,
        at: u32,
        count: u32,
    },
    /// Puts `count` columns before the column `at`; columns pushed off the sheet's end are lost.
    InsertCols {
        sheet: u32,
        at: u32,
        count: u32,
    },
    /// Deletes `count` columns from `at`; those after them close up.
    DeleteCols {
        sheet: u32,
        at: u32,
        count: u32,
    },
    /// Takes `count` rows from `from` and puts them before the row `before`.
    MoveRows {
        sheet: u32,
        from: u32,
        count: u32,
        before: u32,
    },
    /// Takes `count` columns from `from` and puts them before the column `before`.
    MoveCols {
        sheet: u32,
        from: u32,
        count: u32,
        before: u32,
    },
    /// Moves the cells of `source` so that they begin at `to`, over what stands there.
    MoveBlock {
        source: Block,
        to: Place,
    },
    /// Drops the sheet with all of its cells.
    DropSheet {
        sheet: u32,
    },
}

impl Shift {
    ghost use Rattle.shift_core.specs.Form.{form_of};

    /// The operation by what it works on: an edit of lines along an axis, cells, or a sheet.
    #[inline(always)]
    pub fn form(&self) -> Form
        ensures { result ≡ form_of self.now }
    {
        let lines = |sheet, axis, edit| Form::Lines { sheet, axis, edit };
        let moved = |from, count, before| Edit::Move {
            from,
            count,
            before,
        };
        match *self {
            Shift::InsertRows { sheet, at, count } => {
                lines(sheet, Axis::Rows, Edit::Insert { at, count })
            }
            Shift::DeleteRows { sheet, at, count } => {
                lines(sheet, Axis::Rows, Edit::Delete { at, count })
            }
            Shift::InsertCols { sheet, at, count } => {
                lines(sheet, Axis::Cols, Edit::Insert { at, count })
            }
            Shift::DeleteCols { sheet, at, count } => {
                lines(sheet, Axis::Cols, Edit::Delete { at, count })
            }
            Shift::MoveRows {
                sheet,
                from,
                count,
                before,
            } => lines(sheet, Axis::Rows, moved(from, count, before)),
            Shift::MoveCols {
                sheet,
                from,
                count,
                before,
            } => lines(sheet, Axis::Cols, moved(from, count, before)),
            Shift::MoveBlock { source, to } => Form::Cells { source, to },
            Shift::DropSheet { sheet } => Form::Sheet { sheet },
        }
    }
}

impl Shift {
    ghost use Rattle.shift_core.specs.Opposite.{opposite_of};
    ghost use Rattle.shift_core.specs.Sound.{IsSound};

    /// The operation that takes this one back; None where a sheet is dropped, since no operation brings one back.
    ///
    /// Inserted lines are deleted, as far as the sheet has them; for deleted ones as many are inserted; moved lines and
    /// cells are moved back. By it places of the sheet go as [`back_place`] says; what the operation lost doesn't come back.
    pub fn opposite(&self) -> Option<Shift>
        requires { IsSound self.now }
        ensures { result ≡ opposite_of self.now }
    {
        Some(self.form().opposite()?.shift())
    }
}

/// Whether the operation fits a sheet and isn't without effect.
///
/// A count is positive. An insert begins inside the sheet, and its count has no other limit. The
/// lines of a deletion or a move end at the sheet's end at most, and so does `before`, which isn't
/// between `from` and `from + count`, both included. The source and the destination of a block that
/// is moved are inside and differ.
pub fn sound(s: &Shift) -> bool
    ensures { IsTrue result ↔ IsSound s.now }
{
    s.form().is_sound()
}

/// Where the operation moves the place; None where it is lost.
#[inline(always)]
pub fn moved_place(s: &Shift, p: Place) -> Option<Place>
    requires { IsSound s.now }
    ensures { result ≡ place_after s.now p }
{
    s.form().moved_place(p)
}

/// Where the operation moves the block; None where it is lost.
#[inline(always)]
pub fn moved_block(s: &Shift, b: Block) -> Option<Block>
    requires { IsSound s.now }
    ensures { result ≡ block_after s.now b }
{
    s.form().moved_block(b)
}

/// Which place the operation moved to `p`; None where there was none.
#[inline(always)]
pub fn back_place(s: &Shift, p: Place) -> Option<Place>
    requires { IsSound s.now }
    ensures { result ≡ place_before s.now p }
{
    s.form().back_place(p)
}

/// Which block had the ends that the operation moved to those of `b`; None where one of them was nowhere.
#[inline(always)]
pub fn back_block(s: &Shift, b: Block) -> Option<Block>
    requires { IsSound s.now }
    ensures { result ≡ block_before s.now b }
{
    s.form().back_block(b)
}

/// Whether the operation does more to the block than carry it along as it is: the block is lost, its
/// size changes, or it meets a row or column that a move of rows or columns displaces.
pub fn is_bent(s: &Shift, b: Block) -> bool
    requires { IsSound s.now }
    ensures { IsTrue result ↔ IsBent s.now b }
{
    s.form().bends(b)
}

/// Whether an insert pushes the block's end past the last row or column, where it is cut.
pub fn is_cut(s: &Shift, b: Block) -> bool
    ensures { IsTrue result ↔ IsCut s.now b }
{
    s.form().cuts(b)
}
