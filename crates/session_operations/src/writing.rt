// Many cells that are given what texts say, all of them or none.
ghost use Rattle.std.specs.Prelude.{◌≡◌, ⊤, IfOk, is_some, length, nat_lt};
ghost use Rattle.std.specs.FinMap as map;
ghost use Rattle.std.specs.List.{list_any};
ghost use Rattle.book_model.specs.Changes.{HaveDistinctPlaces, with_contents};
ghost use Rattle.book_model.specs.Operation as op;
ghost use Rattle.book_model.specs.Refusals.{at_cells, cause, first_cause};
ghost use Rattle.book_model.specs.declared.limits.TheConstants.{MAX_TEXT};
ghost use Rattle.session_values.specs.Touched.{AreTouched, is_place_of};
ghost use Rattle.session_operations.specs.Turns.{Answered, IsCause, NoAnswer, Turns};
ghost use Rattle.session_operations.specs.Seen.{Fits, ValuesFollowStill, state_of};
ghost use Rattle.session_operations.specs.internal.Giving.{counted};

use crate::parts::Parts;
use crate::stop::Stop;
use book_model::{MAX_CELLS, MAX_TEXT, Refusal};
use cell_addr::{Place, Text};
use std::alloc::AllocError;

impl Parts {
    ghost use Rattle.kept_steps.specs.Kept.{KeepsInUse};

    /// Gives each of these cells the content that its text says, as one step, and marks them: all of them, or none. No cell is
    /// listed twice. Costs the lengths of the texts, and for each cell the logarithm of the number of filled cells.
    ///
    /// # Errors
    /// `NoSheet`, `Outside` where the place isn't within the limits of a sheet, of the first place that has one of them; then
    /// `TextLimit` where a text has more than 8,192 bytes, and `CellLimit` where more than 1,000,000 cells would be filled.
    pub fn write_all(&mut self, cells: &[(Place, Text)]) -> Result<(), Stop>
        requires fits { Fits self.old }
        requires distinct { HaveDistinctPlaces cells.now }
        ensures turns { Turns (op.write_all cells.now) NoAnswer (state_of self.old) (state_of self.new) result }
        ensures fits { Fits self.new }
        ensures kept { KeepsInUse self.old.session self.new.session.book.lazy }
        ensures follow { ValuesFollowStill self.old self.new }
        ensures touched { AreTouched (is_place_of (λ e. e.0) cells.now) self.old.values.values self.new.values.values }
    {
        self.check_write_all(cells)?;
        self.values.touch_cells(cells)?;
        self.session.fill_all(cells)?;
        Ok(())
    }

    // Where texts are given to cells.
    fn check_write_all(&self, cells: &[(Place, Text)]) -> Result<(), Stop>
        requires fits { Fits self.now }
        requires distinct { HaveDistinctPlaces cells.now }
        ensures { Answered (cause (op.write_all cells.now) (state_of self.now)) (λ x. ⊤) result }
    {
        self.check_places(cells)?;
        if has_long(cells) {
            return Err(Stop::Refused(Refusal::TextLimit));
        }
        let filled = self.filled_with(cells)?;
        if filled > MAX_CELLS {
            return Err(Stop::Refused(Refusal::CellLimit));
        }
        Ok(())
    }

    // Where places are asked for, one after the other.
    fn check_places(&self, cells: &[(Place, Text)]) -> Result<(), Refusal>
        ensures { IsCause result (first_cause (at_cells (state_of self.now).book cells.now)) }
    {
        for (at, _) in cells {
            self.check_place(*at)?;
        }
        Ok(())
    }

    // How many cells are filled once the cells have what the texts say.
    fn filled_with(&self, cells: &[(Place, Text)]) -> Result<u64, AllocError>
        requires fits { Fits self.now }
        requires distinct { HaveDistinctPlaces cells.now }
        ensures { IfOk result (λ count. count ≡ map.len (with_contents cells.now (state_of self.now).book).cells) }
    {
        let mut count = self.session.book.grid.filled();
        for (at, text) in cells {
            count = counted(count, self.is_filled(*at), text.as_str().is_empty())?;
        }
        Ok(count)
    }

    // Whether the cell is filled.
    fn is_filled(&self, at: Place) -> bool
        ensures { result ≡ is_some (map.get (state_of self.now).book.cells at) }
    {
        self.session.book.grid.cell(at).is_some()
    }
}

// How many cells are filled after one, which was filled before or wasn't, was emptied or filled; none is left behind the greatest
// number.
fn counted(count: u64, filled: bool, emptied: bool) -> Result<u64, AllocError>
    ensures { IfOk result (λ n. n ≡ counted filled emptied count) }
{
    match (filled, emptied) {
        (true, true) => Ok(count.saturating_sub(1)),
        (false, false) => match count.checked_add(1) {
            Some(more) => Ok(more),
            None => Err(AllocError),
        },
        (true, false) | (false, true) => Ok(count),
    }
}

// Whether one of the texts is too long to be given to a cell.
fn has_long(cells: &[(Place, Text)]) -> bool
    ensures { result ≡ list_any (λ e. nat_lt MAX_TEXT (length e.1)) cells.now }
{
    cells.iter().any(|cell| cell.1.as_str().len() > MAX_TEXT)
}
