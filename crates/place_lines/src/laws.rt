// What holds of spots over structural operations.
ghost use Rattle.place_lines.specs.Laws.{KnownSpotsWereThere, PlacesKeepTheirSpots, SpotsReturn, UnbentBlocksKeepTheirSpots};

/// Each place has a spot of its own, under which it is found, and so has each block its area.
pub fn spots_return()
    ensures { SpotsReturn }
{}

/// A place has, after an operation, either the spot that some place had before, or one that none had before.
pub fn known_spots_were_there()
    ensures { KnownSpotsWereThere }
{}

/// Unless the operation is a move of cells, a place within its sheet that it moves keeps its spot.
pub fn places_keep_their_spots()
    ensures { PlacesKeepTheirSpots }
{}

/// Unless the operation is a move of cells, a block within its sheet that it neither bends nor cuts keeps its area, and
/// covers the same spots afterwards.
pub fn unbent_blocks_keep_their_spots()
    ensures { UnbentBlocksKeepTheirSpots }
{}
