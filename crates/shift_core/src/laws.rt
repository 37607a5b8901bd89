// What the tables of moved places, blocks and whole ranges have in common, as laws over every operation.
ghost use Rattle.shift_core.specs.Laws.{PlacesComeBack, PlacesGoForth, NoTwoMeet, PlacesStayInside, BlocksStayInside, BlocksCoverWhatMoves, BlocksAreLostWithTheirPlaces, MovedBlocksEndAtTheirLines, OneCellsMoveAlike, OppositesAreSound, OppositesGoBack, PlacesGoByOpposites, UnbentBlocksComeBack, UnbentBlocksGoByOpposites, UnbentBlocksKeepOffsets, WholesStayInside, WholesMoveAsBlocks, LostWholesAreBent, UnbentWholesKeepOffsets, UnbentWholesComeBack, UnbentWholesGoByOpposites};
ghost use Rattle.shift_core.specs.Maps.{MovedEntriesAreFound, MovedEntriesStayInside, LostEntriesRestore};

/// A place of the sheet that isn't lost comes back to where it was.
pub fn places_come_back()
    ensures { PlacesComeBack }
{}

/// What a place of the sheet came from goes there.
pub fn places_go_forth()
    ensures { PlacesGoForth }
{}

/// No two places of the sheet move to one.
pub fn no_two_meet()
    ensures { NoTwoMeet }
{}

/// Places of the sheet move to places of the sheet, and came from places of the sheet.
pub fn places_stay_inside()
    ensures { PlacesStayInside }
{}

/// Blocks of the sheet move to blocks of the sheet, and came from blocks of the sheet.
pub fn blocks_stay_inside()
    ensures { BlocksStayInside }
{}

/// Over an insert, a deletion or a dropped sheet, a block covers the places that its places move to
/// and the lines that are inserted between them, and no others.
pub fn blocks_cover_what_moves()
    ensures { BlocksCoverWhatMoves }
{}

/// Over an insert, a deletion or a dropped sheet, a block is lost exactly where each of its places is.
pub fn blocks_are_lost_with_their_places()
    ensures { BlocksAreLostWithTheirPlaces }
{}

/// A move of rows or columns loses no block. One that isn't wholly among the moved lines ends where
/// its outermost lines that aren't moved stand then.
pub fn moved_blocks_end_at_their_lines()
    ensures { MovedBlocksEndAtTheirLines }
{}

/// A place and the block of that place move alike.
pub fn one_cells_move_alike()
    ensures { OneCellsMoveAlike }
{}

/// Unless a block of cells is moved, the places of a block that is neither bent nor cut at the
/// sheet's end keep their offsets in it.
pub fn unbent_blocks_keep_offsets()
    ensures { UnbentBlocksKeepOffsets }
{}

/// Over every sound operation, a block that is neither bent nor cut at the sheet's end comes back to where it was.
pub fn unbent_blocks_come_back()
    ensures { UnbentBlocksComeBack }
{}

/// Over an edit of lines, places go back by the opposite edit.
pub fn opposites_go_back()
    ensures { OppositesGoBack }
{}

/// The operation that takes a sound one back is sound.
pub fn opposites_are_sound()
    ensures { OppositesAreSound }
{}

/// By the opposite of a sound operation, places of the sheet go as they go back by the operation.
pub fn places_go_by_opposites()
    ensures { PlacesGoByOpposites }
{}

/// By the opposite of a sound operation, a block that was neither bent nor cut goes to where it was, neither bent nor cut.
pub fn unbent_blocks_go_by_opposites()
    ensures { UnbentBlocksGoByOpposites }
{}

/// Whole ranges of the sheet move to whole ranges of the sheet, and came from whole ranges of the sheet.
pub fn wholes_stay_inside()
    ensures { WholesStayInside }
{}

/// Unless lines across it are edited on its sheet, a whole range goes, and came from, where its block does.
pub fn wholes_move_as_blocks()
    ensures { WholesMoveAsBlocks }
{}

/// A whole range that is lost is bent.
pub fn lost_wholes_are_bent()
    ensures { LostWholesAreBent }
{}

/// Unless a block of cells is moved, the places of a whole range that isn't bent keep their offsets in it.
pub fn unbent_wholes_keep_offsets()
    ensures { UnbentWholesKeepOffsets }
{}

/// Over every sound operation, a whole range that isn't bent comes back to where it was.
pub fn unbent_wholes_come_back()
    ensures { UnbentWholesComeBack }
{}

/// By the opposite of a sound operation, a whole range that wasn't bent goes to where it was, and isn't bent.
pub fn unbent_wholes_go_by_opposites()
    ensures { UnbentWholesGoByOpposites }
{}

/// In a moved map, a place of the sheet has the entry of the place that it came from. `X` is the type of what the places have.
pub fn moved_entries_are_found<X>()
    ensures { MovedEntriesAreFound X }
{}

/// The places of a moved map are on the sheet where those of the map before were.
pub fn moved_entries_stay_inside<X>()
    ensures { MovedEntriesStayInside X }
{}

/// The lost entries and the moved map give the map from before.
pub fn lost_entries_restore<X>()
    ensures { LostEntriesRestore X }
{}
