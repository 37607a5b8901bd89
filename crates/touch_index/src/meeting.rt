// The blocks that have cells in common with one.
ghost use Rattle.std.specs.Prelude.{◌≡◌, IfOk};

use crate::index::TouchIndex;
use crate::touched::find_on;
use cell_addr::{Axis, Block};
use place_lines::PlaceLines;
use std::alloc::AllocError;

impl TouchIndex {
    ghost use Rattle.touch_index.specs.Kept.{FindsMeeting};

    /// The numbers of all kept blocks of the sheet that have a cell in common with this one, and maybe others; a number may
    /// stand several times. So where a block of cells is moved, what is found neither where they were nor where they go
    /// is left whole.
    ///
    /// Costs a search for each run of the rows or of the columns of the block, whichever are fewer, a look-up for each
    /// size of slots in use, and what is found: the blocks that begin on these lines, and those that go on over the
    /// first of them. Errs for want of memory.
    pub fn meeting(&self, lines: &PlaceLines, block: Block) -> Result<Vec<usize>, AllocError>
        ensures { IfOk result (λ found. FindsMeeting self.now lines.now block found.items) }
    {
        self.meeting_along(lines, narrower(block), block)
    }

    // The same, by the lines of the block along the axis.
    fn meeting_along(
        &self,
        lines: &PlaceLines,
        axis: Axis,
        block: Block,
    ) -> Result<Vec<usize>, AllocError>
        ensures { IfOk result (λ found. FindsMeeting self.now lines.now block found.items) }
    {
        let span = block.span(axis);
        let mut found = Vec::new(self.alloc);
        find_on(
            &self.firsts,
            &mut found,
            self.alloc,
            lines,
            axis,
            block.sheet,
            span,
        )?;
        self.find_over(&mut found, lines, axis, block.sheet, span.first)?;
        Ok(found)
    }
}

// The axis along which the block has fewer lines.
fn narrower(block: Block) -> Axis {
    let height = block.bottom.saturating_sub(block.top);
    let width = block.right.saturating_sub(block.left);
    if height <= width {
        Axis::Rows
    } else {
        Axis::Cols
    }
}
