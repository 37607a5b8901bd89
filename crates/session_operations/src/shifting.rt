// Structural operations.
ghost use Rattle.std.specs.Prelude.{OnOk};
ghost use Rattle.book_model.specs.Operation as op;
ghost use Rattle.kept_steps.specs.Kept.{GoesOn, KeepsAtShift};
ghost use Rattle.session_operations.specs.Turns.{NoAnswer, Turns};
ghost use Rattle.session_operations.specs.Kept.{LeavesLineIn, MarksAlong};
ghost use Rattle.session_operations.specs.Seen.{Fits, ValuesFollowStill, state_of};

use crate::parts::Parts;
use crate::stop::Stop;
use session_values::touched_by;
use shift_core::Shift;

impl Parts {
    /// Does a structural operation, which every formula follows when it is read next, and takes along what is kept of values, with
    /// marks where it bends or touches something. Costs the lines that it edits and the cells that it removes, and what of the kept
    /// values it touches.
    ///
    /// # Errors
    /// `NoSheet`, `BadSpan` where no lines are meant or they would stay, `Outside` where they, or the block, or where it goes,
    /// aren't within the limits of a sheet, `SizeLimit` where a filled cell would be pushed off the sheet; the first that holds.
    pub fn structural(&mut self, s: &Shift) -> Result<(), Stop>
        requires { Fits self.old }
        ensures turns { Turns (op.structural s.now) NoAnswer (state_of self.old) (state_of self.new) result }
        ensures fits { Fits self.new }
        ensures line { OnOk result (GoesOn s.now self.old.session self.new.session.book.lazy) }
        ensures line_err { LeavesLineIn result self.old.session self.new.session }
        ensures kept { KeepsAtShift self.old.session self.new.session.book.lazy }
        ensures follow { ValuesFollowStill self.old self.new }
        ensures marks { OnOk result (MarksAlong s.now self.old.values.values self.new.values.values) }
    {
        self.check_structural(s)?;
        let touched = touched_by(&self.session, s)?;
        self.values.shift(s, touched.items())?;
        match self.session.structural(s) {
            Ok(()) => Ok(()),
            Err(error) => {
                self.values.forget();
                Err(Stop::from(error))
            }
        }
    }
}
