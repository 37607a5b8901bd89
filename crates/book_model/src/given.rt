// The sheets that a session begins with.
ghost use Rattle.std.specs.Prelude.{◌≡◌, [], ◌∷◌, ◌++◌, IfOk, OnOk, OnErr};

use cell_addr::Text;
use std::alloc::{AllocError, Global};

/// A cell and the text that it is given. Row and column are counted from 0.
#[derive(Drop, Debug)]
pub struct BookCell {
    pub row: u32,
    pub col: u32,
    pub text: Text,
}

/// The cells of a sheet, with their texts.
#[derive(Drop, Debug)]
pub struct BookCells {
    list: Vec<BookCell>,
}

/// A sheet: its name, and the cells that it begins with.
#[derive(Drop, Debug)]
pub struct BookSheet {
    pub name: Text,
    pub cells: BookCells,
}

impl BookCells {
    /// No cells.
    pub fn new(alloc: Global) -> Result<BookCells, AllocError>
        ensures { IfOk result (λ cells. cells.list.items ≡ []) }
    {
        Ok(BookCells {
            list: Vec::new(alloc),
        })
    }

    /// Puts a cell at the end. Where there is no memory the list stays as it was.
    pub fn push(&mut self, item: BookCell) -> Result<(), AllocError>
        ensures ok { OnOk result (self.new.list.items ≡ self.old.list.items ++ item ∷ []) }
        ensures err { OnErr result (self.new.list.items ≡ self.old.list.items) }
    {
        self.list.push(item)?;
        Ok(())
    }

    /// The cells, in order.
    pub fn items(&self) -> &[BookCell]
        ensures { result.now ≡ self.now.list.items }
    {
        self.list.as_slice()
    }
}
