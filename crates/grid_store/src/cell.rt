// What a filled cell holds.
ghost use Rattle.std.specs.Prelude.{◌≡◌, IfOk};

use crate::duplicate::Duplicate;
use cell_addr::Text;
use fix_num::Fixed;
use std::alloc::{AllocError, Global};

/// What a filled cell holds.
#[derive(Drop, Debug)]
pub enum Cell {
    /// A number.
    Number(Fixed),
    /// A truth value.
    Truth(bool),
    /// A text.
    Text(Text),
    /// The number of the holder of a formula.
    Formula(u64),
    /// The text of a formula that has no tree.
    Broken(Text),
}

impl Cell {
    /// An equal cell.
    pub fn copied(&self, alloc: Global) -> Result<Cell, AllocError>
        ensures { IfOk result (λ copy. copy ≡ self.now) }
    {
        match self {
            Cell::Number(number) => Ok(Cell::Number(*number)),
            Cell::Truth(truth) => Ok(Cell::Truth(*truth)),
            Cell::Text(text) => Ok(Cell::Text(text.copy(alloc)?)),
            Cell::Formula(holder) => Ok(Cell::Formula(*holder)),
            Cell::Broken(text) => Ok(Cell::Broken(text.copy(alloc)?)),
        }
    }
}

impl Duplicate for Cell {
    fn duplicate(&self, alloc: Global) -> Result<Cell, AllocError> {
        self.copied(alloc)
    }
}
