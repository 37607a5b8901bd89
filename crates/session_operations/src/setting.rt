// Cells that are filled and emptied.
ghost use Rattle.std.specs.Prelude.{◌≡◌, OnOk};
ghost use Rattle.cell_addr.specs.Place.{covers, same_place};
ghost use Rattle.book_model.specs.Operation as op;
ghost use Rattle.kept_book.specs.Ids.{KeepsBelow};
ghost use Rattle.kept_steps.specs.Kept.{KeepsInUse};
ghost use Rattle.session_operations.specs.Turns.{NoAnswer, Turns};
ghost use Rattle.session_operations.specs.Seen.{Fits, ValuesFollowStill, state_of};
ghost use Rattle.session_values.specs.Touched.{AreTouched, AreTouchedAtMost};
ghost use Rattle.session_operations.specs.Kept.{whole_sheet};
ghost use Rattle.session_operations.specs.internal.Touched.{AreFilledMarked};

use crate::parts::Parts;
use crate::stop::Stop;
use cell_addr::{Block, COLS, Place, ROWS};
use kept_steps::Session;
use session_values::SessionValues;
use std::alloc::AllocError;

impl Parts {
    /// Gives a cell the content that a text says, and marks the cell: nothing, a formula, a number, a truth value or a text. A
    /// formula that has no tree is kept as its text. Costs about the length of the text, and the logarithm of the number of filled
    /// cells.
    ///
    /// # Errors
    /// `NoSheet`, `Outside` where the place isn't within the limits of a sheet, `TextLimit` past 8,192 bytes, `CellLimit` where
    /// more than 1,000,000 cells would be filled; the first that holds.
    pub fn set(&mut self, at: Place, text: &str) -> Result<(), Stop>
        requires { Fits self.old }
        ensures turns { Turns (op.set at text.now) NoAnswer (state_of self.old) (state_of self.new) result }
        ensures fits { Fits self.new }
        ensures kept { KeepsInUse self.old.session self.new.session.book.lazy }
        ensures follow { ValuesFollowStill self.old self.new }
        ensures touched { AreTouched (same_place at) self.old.values.values self.new.values.values }
    {
        self.check_set(at, text)?;
        self.values.touch(at)?;
        self.session.fill(at, text)?;
        Ok(())
    }

    /// Empties the cells of a block, and marks those that were filled. Costs about their number and that of the block's rows that
    /// hold any cell.
    ///
    /// # Errors
    /// `NoSheet`, `Outside` where the block isn't within the limits of a sheet.
    pub fn clear(&mut self, area: Block) -> Result<(), Stop>
        requires { Fits self.old }
        ensures turns { Turns (op.clear area) NoAnswer (state_of self.old) (state_of self.new) result }
        ensures fits { Fits self.new }
        ensures kept { KeepsBelow self.old.session.book.next_id self.old.session.book.lazy self.new.session.book.lazy }
        ensures follow { ValuesFollowStill self.old self.new }
        ensures touched { AreTouched (covers area) self.old.values.values self.new.values.values }
    {
        self.check_clear(area)?;
        touch_filled(&self.session, &mut self.values, area)?;
        self.session.clear(area)?;
        Ok(())
    }

    /// Empties the cells of a sheet, likewise.
    ///
    /// # Errors
    /// `NoSheet`.
    pub fn clear_sheet(&mut self, sheet: u32) -> Result<(), Stop>
        requires { Fits self.old }
        ensures turns { Turns (op.clear_sheet sheet) NoAnswer (state_of self.old) (state_of self.new) result }
        ensures fits { Fits self.new }
        ensures kept { KeepsBelow self.old.session.book.next_id self.old.session.book.lazy self.new.session.book.lazy }
        ensures follow { ValuesFollowStill self.old self.new }
        ensures touched { AreTouched (covers (whole_sheet sheet)) self.old.values.values self.new.values.values }
    {
        self.check_sheet(sheet)?;
        touch_filled(&self.session, &mut self.values, whole_sheet(sheet))?;
        self.session.clear_sheet(sheet)?;
        Ok(())
    }
}

// Marks the filled cells of a block, which are going to change.
pub(crate) fn touch_filled(
    session: &Session,
    values: &mut SessionValues,
    area: Block,
) -> Result<(), AllocError>
    ensures touched { AreTouched (covers area) values.old.values values.new.values }
    ensures marked { OnOk result (AreFilledMarked area session.now values.new.values) }
{
    let filled = session.book.grid.listed_refs(area)?;
    values.touch_cells(&filled)
}

// Marks the filled cells of a block, which have changed; where there is no memory for it, nothing is kept any more.
pub(crate) fn touch_filled_or_forget(session: &Session, values: &mut SessionValues, area: Block)
    ensures touched { AreTouchedAtMost (covers area) values.old.values values.new.values }
    ensures marked { AreFilledMarked area session.now values.new.values }
{
    match touch_filled(session, values, area) {
        Ok(()) => {}
        Err(_) => values.forget(),
    }
}

/// All places of a sheet.
pub fn whole_sheet(sheet: u32) -> Block
    ensures { result ≡ whole_sheet sheet }
{
    Block {
        sheet,
        top: 0,
        left: 0,
        bottom: ROWS - 1,
        right: COLS - 1,
    }
}
