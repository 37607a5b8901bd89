// Structural operations.
ghost use Rattle.std.specs.Prelude.{◌≡◌, ◌<◌};

use crate::draws::Draws;
use shift_core::Shift;

// More than the lines that an operation takes.
const COUNT: u32 = 4;

impl Draws {
    ghost use Rattle.draws.specs.Shifts.{IsShiftNear};
    ghost use Rattle.draws.specs.declared.shifts.TheConstants.{COUNT};

    /// An operation on lines near the corner, on cells there or on one of the sheets. It may be one that doesn't fit its
    /// sheet, as one on no lines.
    pub fn shift(&mut self) -> Shift
        ensures shift { IsShiftNear self.old.from result }
        ensures corner { self.new.from ≡ self.old.from }
    {
        let (sheet, count) = (self.sheet(), self.below(COUNT));
        match self.below(20) {
            0..6 => self.insert(sheet, count),
            6..12 => self.delete(sheet, count),
            12..16 => self.move_lines(sheet, count),
            16..19 => Shift::MoveBlock {
                source: self.block(),
                to: self.place(),
            },
            _ => Shift::DropSheet { sheet },
        }
    }

    // Rows put in mostly, and else columns.
    fn insert(&mut self, sheet: u32, count: u32) -> Shift
        requires sheet { sheet < 2 }
        requires count { count < COUNT }
        ensures shift { IsShiftNear self.old.from result }
        ensures corner { self.new.from ≡ self.old.from }
    {
        if self.below(3) == 0 {
            Shift::InsertCols {
                sheet,
                at: self.col(),
                count,
            }
        } else {
            Shift::InsertRows {
                sheet,
                at: self.row(),
                count,
            }
        }
    }

    // Rows taken out mostly, and else columns.
    fn delete(&mut self, sheet: u32, count: u32) -> Shift
        requires sheet { sheet < 2 }
        requires count { count < COUNT }
        ensures shift { IsShiftNear self.old.from result }
        ensures corner { self.new.from ≡ self.old.from }
    {
        if self.below(3) == 0 {
            Shift::DeleteCols {
                sheet,
                at: self.col(),
                count,
            }
        } else {
            Shift::DeleteRows {
                sheet,
                at: self.row(),
                count,
            }
        }
    }

    // Rows moved, or columns.
    fn move_lines(&mut self, sheet: u32, count: u32) -> Shift
        requires sheet { sheet < 2 }
        requires count { count < COUNT }
        ensures shift { IsShiftNear self.old.from result }
        ensures corner { self.new.from ≡ self.old.from }
    {
        if self.below(2) == 0 {
            Shift::MoveRows {
                sheet,
                from: self.row(),
                count,
                before: self.row(),
            }
        } else {
            Shift::MoveCols {
                sheet,
                from: self.col(),
                count,
                before: self.col(),
            }
        }
    }
}
