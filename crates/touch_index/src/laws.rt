// What holds of cells and blocks that aren't touched.
ghost use Rattle.touch_index.specs.Handed.{BlocksAreHandedOn};
ghost use Rattle.touch_index.specs.Laws.{KeptBlocksStay, KeptCellsStay, UntouchedBlocksStay, UntouchedCellsStay};

/// A cell of the sheet that an operation doesn't touch is somewhere afterwards, and has the spot that it had.
pub fn untouched_cells_stay()
    ensures { UntouchedCellsStay }
{}

/// A kept cell that an operation doesn't touch is kept where it is then.
pub fn kept_cells_stay()
    ensures { KeptCellsStay }
{}

/// A block of the sheet that an operation doesn't touch is somewhere afterwards, and has the area that it had.
pub fn untouched_blocks_stay()
    ensures { UntouchedBlocksStay }
{}

/// A kept block that an operation doesn't touch is kept where it is then.
pub fn kept_blocks_stay()
    ensures { KeptBlocksStay }
{}

/// Where an operation leaves the lines of a block's corners, the block covers then just the places with the spots that it
/// covered before, and those that an insert puts in.
pub fn blocks_are_handed_on()
    ensures { BlocksAreHandedOn }
{}
