// Aligned runs of lines.
ghost use Rattle.std.specs.Prelude.{◌≡◌, ◌↔◌, IsTrue};
ghost use Rattle.block_slots.specs.Segments.{has_line, segment_at};

/// The lines that give `index` when their number is divided by 2 to the `level`: a power of two of them, from
/// a multiple of that power on.
#[derive(Clone, Copy, PartialEq, Eq, PartialOrd, Ord, Debug)]
pub struct Segment {
    pub level: u32,
    pub index: u64,
}

impl Segment {
    /// The one segment of the level that has the line.
    #[tactic(auto, using(crate::proofs::Halves::shr_past))]
    pub fn at(level: u32, line: u64) -> Segment
        ensures { result ≡ segment_at level line }
    {
        if level < u64::BITS {
            Segment {
                level,
                index: line >> level,
            }
        } else {
            Segment { level, index: 0 }
        }
    }

    /// Whether the line is one of the segment's: exactly where the segment is that of its level at the line.
    pub fn has(self, line: u64) -> bool
        ensures lines { result ≡ has_line self line }
        ensures at { IsTrue result ↔ (segment_at self.level line ≡ self) }
    {
        Segment::at(self.level, line).index == self.index
    }
}
