// Cells of lists and of steps, marked before they change.
ghost use Rattle.std.specs.Prelude.{◌↔◌, ◌∷◌, [], IsTrue, OnOk};
ghost use Rattle.kept_book.specs.Kept.{change_of};
ghost use Rattle.kept_steps.specs.Fits.{changes_in};
ghost use Rattle.kept_steps.specs.Turned.{AreOfCells, IsOfCells, is_listed};
ghost use Rattle.session_values.specs.Touched.{AreMarkedIn, AreTouched, AreTouchedAtMost, IsStepMarked, is_place_of};

use crate::values::SessionValues;
use cell_addr::Place;
use kept_book::Part;
use kept_steps::Entry;
use std::alloc::AllocError;

impl SessionValues {
    /// Marks each cell of a list that is going to change, where anything is kept. For want of memory some of them are marked, which
    /// does no harm. Costs a look-up or two for each.
    pub fn touch_cells<V>(&mut self, cells: &[(Place, V)]) -> Result<(), AllocError>
        ensures touched { AreTouched (is_place_of (λ e. e.0) cells.now) self.old.values self.new.values }
        ensures marked { OnOk result (AreMarkedIn self.new.values (is_place_of (λ e. e.0) cells.now)) }
    {
        'cells: for cell in cells {
            self.touch(cell.0)?;
        }
        Ok(())
    }

    /// Marks the cells that a step changes, before it is taken back or done again; where it changes more than cells, nothing is
    /// kept any more. For want of memory some of them are marked, which does no harm. Costs a look-up or two for each.
    pub fn touch_step(&mut self, step: &Entry) -> Result<(), AllocError>
        ensures touched { AreTouchedAtMost (is_listed (changes_in step.now)) self.old.values self.new.values }
        ensures cells { AreOfCells (changes_in step.now) → AreTouched (is_listed (changes_in step.now)) self.old.values self.new.values }
        ensures marked { OnOk result (IsStepMarked (changes_in step.now) self.new.values) }
    {
        'parts: for part in &step.parts {
            self.touch_part(part)?;
        }
        Ok(())
    }

    // Marks the cells of a part, likewise.
    pub(crate) fn touch_part(&mut self, part: &Part) -> Result<(), AllocError>
        ensures touched { AreTouchedAtMost (is_listed (change_of part.now ∷ [])) self.old.values self.new.values }
        ensures cells { IsOfCells (change_of part.now) → AreTouched (is_listed (change_of part.now ∷ [])) self.old.values self.new.values }
        ensures marked { OnOk result (IsStepMarked (change_of part.now ∷ []) self.new.values) }
    {
        if !is_of_cells(part) {
            self.forget();
            return Ok(());
        }
        self.touch_cells(part.replaced.items())?;
        self.touch_cells(part.written.items())
    }
}

// Whether a part has no operation, and lists no name.
pub(crate) fn is_of_cells(part: &Part) -> bool
    ensures { IsTrue result ↔ IsOfCells (change_of part.now) }
{
    part.from == part.to && part.names.is_empty()
}
