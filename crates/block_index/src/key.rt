// Under what numbers are filed.
ghost use Rattle.std.specs.Prelude.{◌≡◌};
ghost use Rattle.block_index.specs.internal.Keys.{key_of, key_size};

use block_slots::{Size, Slot};

// A slot of the cells of a sheet, by the levels and the indexes of its segments. The rows come last, along which slots
// follow one another in most sheets, so that their keys are near one another.
#[derive(Clone, Copy, PartialEq, Eq, Hash, Debug)]
pub(crate) struct SlotKey {
    sheet: u32,
    col_level: u32,
    col_index: u64,
    row_level: u32,
    row_index: u64,
}

impl SlotKey {
    // The key of a slot of a sheet.
    pub(crate) fn of(sheet: u32, slot: Slot) -> SlotKey
        ensures { result ≡ key_of sheet slot }
    {
        SlotKey {
            sheet,
            col_level: slot.cols.level,
            col_index: slot.cols.index,
            row_level: slot.rows.level,
            row_index: slot.rows.index,
        }
    }

    // The size of the slot.
    pub(crate) fn size(self) -> Size
        ensures { result ≡ key_size self }
    {
        Size {
            row_level: self.row_level,
            col_level: self.col_level,
        }
    }
}
