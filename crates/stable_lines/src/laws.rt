// What holds of every table of lines.
ghost use Rattle.stable_lines.specs.Laws.{PositionsReturn};

/// Each position of the sheet has a line, no line stands at two positions, and where a line stands its position has it.
pub fn positions_return()
    ensures { PositionsReturn }
{}
