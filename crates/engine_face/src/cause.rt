// Whether a change would be refused, and why, asked by numbers, a name and a text.
ghost use Rattle.std.specs.Prelude.{◌≡◌, option_map};
ghost use Rattle.book_engine.specs.Cause.{operation_of};
ghost use Rattle.engine_face.specs.Change.{TellsCause, block_told, cause_number, operation_told, place_told, shift_told, target_told};

use crate::session::{Session, scope_of};
use crate::status::Status;
use book_engine::Change;
use book_model::Refusal;
use cell_addr::{Block, Place};
use shift_core::Shift;

/// A change that is asked about, as numbers. What its kind doesn't need says nothing.
#[repr(C)]
#[derive(Clone, Copy)]
pub struct ChangeRow {
    /// 1 to 23: a cell that is set, a block that is cleared, rows put in, deleted, moved, columns put in, deleted, moved, a block
    /// moved, a sheet dropped, added, renamed, cleared, a name added, changed, removed, a block copied, cut, a paste, begin, commit,
    /// undo, redo.
    pub kind: u32,
    /// The sheet; of a name its scope.
    pub sheet: u32,
    /// The row of a place, the first one of a block, or where rows are put in, deleted or moved from.
    pub row: u32,
    /// The column, likewise.
    pub col: u32,
    /// The last row of a block.
    pub last_row: u32,
    /// Its last column.
    pub last_col: u32,
    /// How many rows or columns.
    pub count: u32,
    /// The sheet to which a block is moved.
    pub to_sheet: u32,
    /// The row to which a block is moved, or before which rows are.
    pub to_row: u32,
    /// The column, likewise.
    pub to_col: u32,
}

impl Session {
    /// Why the change would be refused now, as [`Engine::cause`]: tells the number of the refusal, or 0 where it would be
    /// accepted. `BadChange` where no change has the number.
    ///
    /// [`Engine::cause`]: book_engine::Engine::cause
    pub fn cause(&self, change: &ChangeRow, name: &str, text: &str, refusal: &mut u8) -> Status
        ensures { TellsCause (operation_told change.now name.now text.now) refusal.old refusal.new self.now result }
    {
        let Some(change) = change.told(name, text) else {
            return Status::BadChange;
        };
        match self.engine.cause(&change) {
            Ok(cause) => {
                *refusal = cause_number(cause);
                Status::Done
            }
            Err(_) => Status::NoMemory,
        }
    }
}

// The number of a cause; 0 where there is none.
fn cause_number(cause: Option<Refusal>) -> u8
    ensures { result ≡ cause_number cause }
{
    match cause {
        Some(refusal) => refusal.number(),
        None => 0,
    }
}

impl ChangeRow {
    // The place that the change is about.
    fn place(&self) -> Place
        ensures { result ≡ place_told self.now }
    {
        Place {
            sheet: self.sheet,
            row: self.row,
            col: self.col,
        }
    }

    // The block that it is about.
    fn block(&self) -> Block
        ensures { result ≡ block_told self.now }
    {
        Block {
            sheet: self.sheet,
            top: self.row,
            left: self.col,
            bottom: self.last_row,
            right: self.last_col,
        }
    }

    // The place to which it moves a block.
    fn target(&self) -> Place
        ensures { result ≡ target_told self.now }
    {
        Place {
            sheet: self.to_sheet,
            row: self.to_row,
            col: self.to_col,
        }
    }

    // The structural operation that it is.
    fn shift(&self) -> Option<Shift>
        ensures { result ≡ shift_told self.now }
    {
        let (sheet, count) = (self.sheet, self.count);
        let (row, col) = (self.row, self.col);
        let shift = match self.kind {
            3 => Shift::InsertRows {
                sheet,
                at: row,
                count,
            },
            4 => Shift::DeleteRows {
                sheet,
                at: row,
                count,
            },
            5 => Shift::MoveRows {
                sheet,
                from: row,
                count,
                before: self.to_row,
            },
            6 => Shift::InsertCols {
                sheet,
                at: col,
                count,
            },
            7 => Shift::DeleteCols {
                sheet,
                at: col,
                count,
            },
            8 => Shift::MoveCols {
                sheet,
                from: col,
                count,
                before: self.to_col,
            },
            9 => Shift::MoveBlock {
                source: self.block(),
                to: self.target(),
            },
            10 => Shift::DropSheet { sheet },
            _ => return None,
        };
        Some(shift)
    }

    // The change that the numbers tell, with this name and this text.
    fn told<'a>(&self, name: &'a str, text: &'a str) -> Option<Change<'a>>
        ensures { option_map operation_of result ≡ operation_told self.now name.now text.now }
    {
        let (sheet, scope) = (self.sheet, scope_of(self.sheet));
        let (at, area) = (self.place(), self.block());
        let change = match self.kind {
            1 => Change::Set { at, text },
            2 => Change::Clear { area },
            11 => Change::AddSheet { name },
            12 => Change::RenameSheet { sheet, name },
            13 => Change::ClearSheet { sheet },
            14 => Change::AddName { name, scope, text },
            15 => Change::ChangeName { name, scope, text },
            16 => Change::RemoveName { name, scope },
            17 => Change::Copy { area },
            18 => Change::Cut { area },
            19 => Change::Paste { at },
            20 => Change::Begin,
            21 => Change::Commit,
            22 => Change::Undo,
            23 => Change::Redo,
            _ => Change::Structural(self.shift()?),
        };
        Some(change)
    }
}
