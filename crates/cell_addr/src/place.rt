// Places and blocks, and the limits of a sheet.
ghost use Rattle.std.specs.Prelude.{◌≡◌, ◌<◌, ◌≤◌, ◌↔◌, IsTrue};
ghost use Rattle.cell_addr.specs.Place.{IsInside, IsBlockInside, Covers, CoverOne, CoversAllOf, covers, height, width};
ghost use Rattle.cell_addr.specs.internal.Blocks.{IsInOrder, Overlap, Encloses};

/// How many rows a sheet has. This project's own limit.
pub const ROWS: u32 = 1_048_576;

/// How many columns a sheet has: the last one is ZZZ. This project's own limit.
pub const COLS: u32 = 18_278;

/// A number that no sheet has.
pub const NO_SHEET: u32 = u32::MAX;

/// One cell: its sheet's number, its row and its column, both counted from 0.
#[derive(Clone, Copy, PartialEq, Eq, PartialOrd, Ord, Debug)]
pub struct Place {
    pub sheet: u32,
    pub row: u32,
    pub col: u32,
}

/// A rectangle of cells on one sheet, by its first and last row and column, counted from 0.
#[derive(Clone, Copy, PartialEq, Eq, Debug)]
pub struct Block {
    pub sheet: u32,
    pub top: u32,
    pub left: u32,
    pub bottom: u32,
    pub right: u32,
}

impl Place {
    /// Whether the place is within the limits of a sheet.
    pub fn inside(self) -> bool
        ensures { IsTrue result ↔ IsInside self }
    {
        self.row < ROWS && self.col < COLS
    }
}

impl Block {
    /// Whether both corners are within the limits of a sheet, and the ends in order.
    pub fn inside(self) -> bool
        ensures { IsTrue result ↔ IsBlockInside self }
    {
        self.top <= self.bottom
            && self.bottom < ROWS
            && self.left <= self.right
            && self.right < COLS
    }

    /// How many rows the block has: none where its last row stands before the first.
    pub fn height(self) -> u64
        ensures { result ≡ height self }
    {
        (u64::from(self.bottom) + 1).saturating_sub(u64::from(self.top))
    }

    /// How many columns the block has: none where its last column stands before the first.
    pub fn width(self) -> u64
        ensures { result ≡ width self }
    {
        (u64::from(self.right) + 1).saturating_sub(u64::from(self.left))
    }

    /// Whether the block covers the place.
    pub fn holds(self, p: Place) -> bool
        ensures covers { IsTrue result ↔ Covers self p }
        ensures test { result ≡ covers self p }
    {
        self.sheet == p.sheet
            && self.top <= p.row
            && p.row <= self.bottom
            && self.left <= p.col
            && p.col <= self.right
    }

    /// Whether both blocks cover some place. A block whose ends are out of order covers none.
    pub fn meets(self, b: Block) -> bool
        ensures { IsTrue result ↔ CoverOne self b }
    {
        self.overlaps(b)
    }

    /// Whether the block covers each place that `b` covers; so it does where `b` covers none.
    pub fn contains(self, b: Block) -> bool
        ensures { IsTrue result ↔ CoversAllOf self b }
    {
        !b.in_order() || self.encloses(b)
    }

    // Whether the ends are in order, so that the block covers a place.
    fn in_order(self) -> bool
        ensures { IsTrue result ↔ IsInOrder self }
    {
        self.top <= self.bottom && self.left <= self.right
    }

    // Whether the rows and the columns of both blocks overlap, on one sheet.
    fn overlaps(self, b: Block) -> bool
        ensures { IsTrue result ↔ Overlap self b }
    {
        self.sheet == b.sheet
            && self.top.max(b.top) <= self.bottom.min(b.bottom)
            && self.left.max(b.left) <= self.right.min(b.right)
    }

    // Whether the ends of `b` lie within this block's.
    fn encloses(self, b: Block) -> bool
        ensures { IsTrue result ↔ Encloses self b }
    {
        self.sheet == b.sheet
            && self.top <= b.top
            && b.bottom <= self.bottom
            && self.left <= b.left
            && b.right <= self.right
    }
}
