// Aligned rectangles of cells.
ghost use Rattle.std.specs.Prelude.{◌≡◌, ◌↔◌, IsTrue};
ghost use Rattle.block_slots.specs.Slots.{has_cell, size_of, slot_at};

use crate::segment::Segment;

/// A rectangle of cells: a segment of rows by a segment of columns.
#[derive(Clone, Copy, PartialEq, Eq, PartialOrd, Ord, Debug)]
pub struct Slot {
    pub rows: Segment,
    pub cols: Segment,
}

/// How large a slot is: 2 to the level of its rows by 2 to the level of its columns.
#[derive(Clone, Copy, PartialEq, Eq, PartialOrd, Ord, Debug)]
pub struct Size {
    pub row_level: u32,
    pub col_level: u32,
}

impl Slot {
    /// The slot's size.
    pub fn size(self) -> Size
        ensures { result ≡ size_of self }
    {
        Size {
            row_level: self.rows.level,
            col_level: self.cols.level,
        }
    }

    /// Whether the cell is in the slot: exactly where the slot is that of its size at the cell.
    pub fn has(self, row: u64, col: u64) -> bool
        ensures cells { result ≡ has_cell self row col }
        ensures at { IsTrue result ↔ (slot_at (size_of self) row col ≡ self) }
    {
        self.rows.has(row) && self.cols.has(col)
    }
}

impl Size {
    /// The one slot of this size that has the cell.
    pub fn slot_at(self, row: u64, col: u64) -> Slot
        ensures { result ≡ slot_at self row col }
    {
        Slot {
            rows: Segment::at(self.row_level, row),
            cols: Segment::at(self.col_level, col),
        }
    }
}
