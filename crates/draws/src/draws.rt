// Numbers, places and blocks.
ghost use Rattle.std.specs.Prelude.{◌≡◌, ◌<◌, ◌≤◌};
ghost use Rattle.cell_addr.specs.Axis.{limit_of};

use crate::corner::{COLS_DRAWN, Corner, ROWS_DRAWN};
use cell_addr::{Axis, Block, Place, Whole};
use rand_core::Rng;
use rand_pcg::Pcg32;

// How many rows and columns a block has at most.
const BLOCK_ROWS: u32 = 6;

const BLOCK_COLS: u32 = 3;

// Which of the generator's streams is drawn from.
const STREAM: u64 = 0;

/// A generator of numbers, and the corner near which places are drawn.
#[derive(Drop)]
pub struct Draws {
    generator: Pcg32,
    from: Place,
}

impl Draws {
    ghost use Rattle.draws.specs.Draws.{BeginsNear, IsAmong, IsCorner, IsNear};
    ghost use Rattle.draws.specs.declared.corner.TheConstants.{COLS_DRAWN, ROWS_DRAWN};

    /// The draws of a seed, near a corner.
    pub fn new(seed: u64, corner: Corner) -> Draws
        ensures { IsCorner corner result.from }
    {
        Draws {
            generator: Pcg32::new(seed, STREAM),
            from: corner.place(),
        }
    }

    /// A number below the limit.
    pub fn below(&mut self, limit: u32) -> u32
        requires { 0 < limit }
        ensures below { result < limit }
        ensures corner { self.new.from ≡ self.old.from }
    {
        self.generator.next_u32() % limit
    }

    /// The first sheet mostly, and else the second.
    pub fn sheet(&mut self) -> u32
        ensures sheet { result < 2 }
        ensures corner { self.new.from ≡ self.old.from }
    {
        if self.below(4) == 0 { 1 } else { 0 }
    }

    /// A row near the corner.
    pub fn row(&mut self) -> u32
        ensures row { IsAmong self.old.from.row ROWS_DRAWN result }
        ensures corner { self.new.from ≡ self.old.from }
    {
        self.from.row.saturating_add(self.below(ROWS_DRAWN))
    }

    /// A column near the corner.
    pub fn col(&mut self) -> u32
        ensures col { IsAmong self.old.from.col COLS_DRAWN result }
        ensures corner { self.new.from ≡ self.old.from }
    {
        self.from.col.saturating_add(self.below(COLS_DRAWN))
    }

    /// A place near the corner, on either sheet.
    pub fn place(&mut self) -> Place
        ensures place { IsNear self.old.from result }
        ensures corner { self.new.from ≡ self.old.from }
    {
        Place {
            sheet: self.sheet(),
            row: self.row(),
            col: self.col(),
        }
    }

    /// A block that begins near the corner and may end outside the sheet. Many begin at one row, as those of growing sums
    /// do.
    pub fn block(&mut self) -> Block
        ensures block { BeginsNear self.old.from result }
        ensures corner { self.new.from ≡ self.old.from }
    {
        let first = self.place();
        let (height, width) = (self.below(BLOCK_ROWS), self.below(BLOCK_COLS));
        let top = if self.below(2) == 0 {
            self.from.row
        } else {
            first.row
        };
        Block {
            sheet: first.sheet,
            top,
            left: first.col,
            bottom: top.saturating_add(height),
            right: first.col.saturating_add(width),
        }
    }

    /// All rows or all columns from one near the corner to another. They end on the sheet.
    pub fn whole(&mut self) -> Whole
        ensures sheet { result.sheet < 2 }
        ensures last { result.last < limit_of result.axis }
        ensures corner { self.new.from ≡ self.old.from }
    {
        let axis = if self.below(2) == 0 {
            Axis::Rows
        } else {
            Axis::Cols
        };
        let whole = self.block().whole(axis);
        Whole {
            last: whole.last.min(axis.limit() - 1),
            ..whole
        }
    }
}
