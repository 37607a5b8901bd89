// The slots that hold cells, of ranges and of whole ranges.
ghost use Rattle.std.specs.Prelude.{◌≡◌, ◌<◌, ◌++◌, ℕ, true, IfOk, OnOk};
ghost use Rattle.needs_order.specs.Needs.{has};
ghost use Rattle.dep_graph.specs.internal.Files.{filed_at, slot_total, slots_on, slots_over};
ghost use Rattle.dep_graph.specs.internal.Wholes.{column_of, is_line, is_on_sheet, number_on, slots_along};

use crate::arrows::add_behind;
use crate::files::Files;
use cell_addr::Axis;
use place_lines::LineSpot;
use std::alloc::{AllocError, Global};

// The first number that no line of a sheet has, 2 to the 63rd: from it on numbers stand for positions past a sheet's end.
const PAST_LINES: u64 = 9_223_372_036_854_775_808;

impl Files {
    // The filings under a slot.
    pub(crate) fn filed(&self, slot: usize) -> &[usize]
        requires { slot < slot_total self.now }
        ensures { result.now ≡ filed_at self.now slot }
    {
        let count = self.index.len();
        if slot < count {
            self.index.filed(slot)
        } else {
            self.wholes.filed(slot - count)
        }
    }

    // The slots that hold a spot: those of ranges, and behind them those of whole ranges along both axes.
    pub(crate) fn slots_at(&self, spot: LineSpot) -> Result<Vec<usize>, AllocError>
        ensures slots { IfOk result (λ slots. slots.items ≡ slots_over self.now spot) }
        ensures inside { (s : ℕ) → has s (slots_over self.now spot) ≡ true → s < slot_total self.now }
    {
        let mut slots = self.index.slots_at(spot.sheet, spot.row, spot.col)?;
        self.add_along(&mut slots, Axis::Rows, spot)?;
        self.add_along(&mut slots, Axis::Cols, spot)?;
        Ok(slots)
    }

    // Adds the slots of whole ranges along an axis that hold a spot, as they are numbered.
    fn add_along(
        &self,
        slots: &mut Vec<usize>,
        axis: Axis,
        spot: LineSpot,
    ) -> Result<(), AllocError>
        ensures { OnOk result (slots.new.items ≡ slots.old.items ++ slots_on self.now axis spot) }
    {
        let along = self.slots_along(axis, spot)?;
        add_behind(slots, self.index.len(), &along)
    }

    // The slots of whole ranges along an axis that hold a spot.
    fn slots_along(&self, axis: Axis, spot: LineSpot) -> Result<Vec<usize>, AllocError>
        ensures { IfOk result (λ slots. slots.items ≡ slots_along axis self.now.wholes spot) }
    {
        if is_on_sheet(axis, spot) {
            self.wholes
                .slots_at(spot.sheet, number_on(axis, spot), column_of(axis))
        } else {
            Ok(Vec::new(self.alloc))
        }
    }
}

// Whether the spot is on a line of the sheet across the axis.
fn is_on_sheet(axis: Axis, spot: LineSpot) -> bool
    ensures { result ≡ is_on_sheet axis spot }
{
    number_on(axis.across(), spot) < PAST_LINES
}

// The number of a spot's line along an axis.
fn number_on(axis: Axis, spot: LineSpot) -> u64
    ensures { result ≡ number_on axis spot }
{
    match axis {
        Axis::Rows => spot.row,
        Axis::Cols => spot.col,
    }
}

// The column that has the lines of the whole ranges along an axis as its rows.
pub(crate) fn column_of(axis: Axis) -> u64
    ensures { result ≡ column_of axis }
{
    match axis {
        Axis::Rows => 0,
        Axis::Cols => 1,
    }
}
