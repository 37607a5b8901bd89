// What goes along with formulas, as laws.
ghost use Rattle.carried_terms.specs.Laws.{CarriedMeansSame, CellsGoAlong, KeptBlocksFollow, NeedsFollow, StillGoesAlong};

/// A formula of which all goes along means the same afterwards.
pub fn carried_means_same()
    ensures { CarriedMeansSame }
{}

/// A block of the same size whose places show the same, offset by offset, has the same cells.
pub fn cells_go_along()
    ensures { CellsGoAlong }
{}

/// A formula whose references follow mentions then exactly the places to which those that it mentioned went, and the same
/// names.
pub fn needs_follow()
    ensures { NeedsFollow }
{}

/// A block that a sound operation neither bends nor cuts nor tears keeps its size, and its places their offsets in it.
pub fn kept_blocks_follow()
    ensures { KeptBlocksFollow }
{}

/// All of a formula that a sound operation carries along as it is goes along, where places show the same where they are then
/// and its words find names that agree; and its references follow.
pub fn still_goes_along()
    ensures { StillGoesAlong }
{}
