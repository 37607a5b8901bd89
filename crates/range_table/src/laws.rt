// What keeps kept summaries right, and how many cells are merged. The functions do nothing: what each ensures is the law.
ghost use Rattle.range_table.specs.Laws.{FewCellsAreMerged, KeptBlocksTakeTheirCells, TouchedTablesStayRight};

/// Kept summaries that are right stay so where one place gets another value and is touched.
pub fn touched_tables_stay_right()
    ensures { TouchedTablesStayRight }
{}

/// Never more cells are merged for a block than it has, none where its summary is kept, no more than its width where that
/// of the block without its last row is kept, and at least those of its last row that aren't empty where its own isn't.
pub fn few_cells_are_merged()
    ensures { FewCellsAreMerged }
{}

/// Over a sound operation, a block that keeps its summary takes its cells along, each to the same offset in the block that it
/// moves to.
pub fn kept_blocks_take_their_cells()
    ensures { KeptBlocksTakeTheirCells }
{}
