// What holds of all segments.
ghost use Rattle.block_slots.specs.Laws.{SegmentsAreAligned};

/// A segment's lines are as many as 2 to its level, and begin at a multiple of that number.
pub fn segments_are_aligned()
    ensures { SegmentsAreAligned }
{}
