// What is kept of a session's values over a structural operation.
ghost use Rattle.std.specs.Prelude.{◌≡◌, ℕ, None, OnErr, OnOk, Some};
ghost use Rattle.shift_core.specs.Opposite.{opposite_of};
ghost use Rattle.shift_core.specs.Sound.{IsSound};
ghost use Rattle.session_values.specs.Shifting.{FollowsSheetBack, FollowsShift, FollowsShiftBack, MarksSheetBack, MarksShift, MarksShiftBack};

use crate::values::SessionValues;
use dep_graph::Node;
use shift_core::Shift;
use std::alloc::AllocError;

impl SessionValues {
    /// Takes what is kept along with a structural operation that is going to be done, where these nodes are listed before it: each
    /// filled cell of a block that it moves and of where that goes, and each name of a dropped sheet, as
    /// [`touched_by`](crate::touched_by) lists them. What followed the workbook before the operation follows the one after it.
    ///
    /// Errs for want of memory, and then nothing is kept any more. Costs what [`Values::shift`](kept_values::Values::shift) does;
    /// nothing, where nothing is kept.
    pub fn shift(&mut self, s: &Shift, touched: &[Node]) -> Result<(), AllocError>
        requires { IsSound s.now }
        ensures follows { OnOk result (FollowsShift s.now touched.now self.old.values self.new.values) }
        ensures marks { OnOk result (MarksShift s.now touched.now self.old.values self.new.values) }
        ensures err { OnErr result (self.new.values ≡ None) }
    {
        match self.go_along(s, touched) {
            Ok(()) => Ok(()),
            Err(error) => {
                self.forget();
                Err(error)
            }
        }
    }

    // Takes what is kept along; for want of memory only a part of it.
    fn go_along(&mut self, s: &Shift, touched: &[Node]) -> Result<(), AllocError>
        requires { IsSound s.now }
        ensures follows { OnOk result (FollowsShift s.now touched.now self.old.values self.new.values) }
        ensures marks { OnOk result (MarksShift s.now touched.now self.old.values self.new.values) }
    {
        match &mut self.values {
            Some(values) => values.shift(s, touched),
            None => Ok(()),
        }
    }

    /// Takes what is kept back along a structural operation that is going to be taken back by its opposite, where these nodes are
    /// listed before that: each filled cell of a block that goes back and of where that goes, as
    /// [`touched_by`](crate::touched_by) lists them for the opposite; and where `removed` are the cells that the operation had
    /// removed, as [`restored_by`](crate::restored_by) lists them. What followed the workbook after the operation follows the one
    /// before it.
    ///
    /// Errs for want of memory, and then nothing is kept any more. Costs what [`Values::take_back`](kept_values::Values::take_back)
    /// does; nothing, where nothing is kept.
    pub fn take_back(
        &mut self,
        s: &Shift,
        back: &Shift,
        touched: &[Node],
        removed: &[Node],
    ) -> Result<(), AllocError>
        requires sound { IsSound s.now }
        requires opposite { opposite_of s.now ≡ Some back.now }
        ensures follows { OnOk result (FollowsShiftBack s.now back.now touched.now removed.now self.old.values self.new.values) }
        ensures marks { OnOk result (MarksShiftBack s.now back.now touched.now removed.now self.old.values self.new.values) }
        ensures err { OnErr result (self.new.values ≡ None) }
    {
        match self.go_back(s, back, touched, removed) {
            Ok(()) => Ok(()),
            Err(error) => {
                self.forget();
                Err(error)
            }
        }
    }

    // Takes what is kept back; for want of memory only a part of it.
    fn go_back(
        &mut self,
        s: &Shift,
        back: &Shift,
        touched: &[Node],
        removed: &[Node],
    ) -> Result<(), AllocError>
        requires sound { IsSound s.now }
        requires opposite { opposite_of s.now ≡ Some back.now }
        ensures follows { OnOk result (FollowsShiftBack s.now back.now touched.now removed.now self.old.values self.new.values) }
        ensures marks { OnOk result (MarksShiftBack s.now back.now touched.now removed.now self.old.values self.new.values) }
    {
        match &mut self.values {
            Some(values) => values.take_back(s, back, touched, removed),
            None => Ok(()),
        }
    }

    // Takes what is kept back over a dropped sheet that is going to come back, where these nodes are listed: each cell and each name
    // of the sheet that comes back. For want of memory only some of it is marked.
    pub(crate) fn bring_back(&mut self, nodes: &[Node]) -> Result<(), AllocError>
        ensures follows { OnOk result ((sheet : ℕ) → FollowsSheetBack sheet nodes.now self.old.values self.new.values) }
        ensures marks { OnOk result (MarksSheetBack nodes.now self.old.values self.new.values) }
    {
        match &mut self.values {
            Some(values) => values.bring_back(nodes),
            None => Ok(()),
        }
    }
}
