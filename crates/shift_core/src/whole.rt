// What structural operations do to whole ranges.
ghost use Rattle.std.specs.Prelude.{◌≡◌, ◌↔◌, IsTrue};
ghost use Rattle.shift_core.specs.Form.{form_of};
ghost use Rattle.shift_core.specs.Sound.{IsSound};
ghost use Rattle.shift_core.specs.Wholes.{runs_across, whole_after, whole_before, IsWholeBent};

use crate::form::Form;
use crate::shift::Shift;
use cell_addr::Whole;

/// Where the operation moves the whole range; None where it is lost. An edit of rows leaves all columns from one
/// to another, and one of columns all rows; otherwise the range goes where its block does.
pub fn moved_whole(s: &Shift, w: Whole) -> Option<Whole>
    requires { IsSound s.now }
    ensures { result ≡ whole_after s.now w }
{
    s.form().moved_whole(w)
}

/// Which whole range had the ends that the operation moved to those of `w`; None where one of them was nowhere.
pub fn back_whole(s: &Shift, w: Whole) -> Option<Whole>
    requires { IsSound s.now }
    ensures { result ≡ whole_before s.now w }
{
    s.form().back_whole(w)
}

/// Whether the operation does more to the whole range than carry its cells along as they are: lines across it are
/// edited on its sheet, or its block is lost, of another size, displaced in part or cut at the last row or column.
pub fn bends_whole(s: &Shift, w: Whole) -> bool
    requires { IsSound s.now }
    ensures { IsTrue result ↔ IsWholeBent s.now w }
{
    s.form().bends_whole(w)
}

/// Whether the operation edits rows, on any sheet, and the range is one of columns, or the other way round: it leaves
/// the range.
pub fn runs_across(s: &Shift, w: Whole) -> bool
    ensures { result ≡ runs_across (form_of s.now) w }
{
    s.form().runs_across(w)
}

impl Form {
    ghost use Rattle.shift_core.specs.Sound.{IsSoundForm};
    ghost use Rattle.shift_core.specs.Wholes.{whole_moved, whole_returned, MeetsAcross, BendsWhole};

    // Where the operation moves the whole range; None where it is lost.
    fn moved_whole(self, w: Whole) -> Option<Whole>
        requires { IsSoundForm self }
        ensures { result ≡ whole_moved self w }
    {
        if self.runs_across(w) {
            Some(w)
        } else {
            Some(self.moved_block(w.block())?.whole(w.axis))
        }
    }

    // Which whole range had the ends that the operation moved to those of `w`; None where one of them was nowhere.
    fn back_whole(self, w: Whole) -> Option<Whole>
        requires { IsSoundForm self }
        ensures { result ≡ whole_returned self w }
    {
        if self.runs_across(w) {
            Some(w)
        } else {
            Some(self.back_block(w.block())?.whole(w.axis))
        }
    }

    // Whether the operation does more to the whole range than carry its cells along as they are.
    fn bends_whole(self, w: Whole) -> bool
        requires { IsSoundForm self }
        ensures { IsTrue result ↔ BendsWhole self w }
    {
        let block = w.block();
        self.meets_across(w) || self.bends(block) || self.cuts(block)
    }

    // Whether the operation edits lines across the whole range, on its sheet.
    fn meets_across(self, w: Whole) -> bool
        ensures { IsTrue result ↔ MeetsAcross self w }
    {
        match self {
            Form::Lines { sheet, axis, .. } => w.sheet == sheet && w.axis == axis.across(),
            _ => false,
        }
    }

    // Whether the operation edits lines of the other axis, on any sheet.
    fn runs_across(self, w: Whole) -> bool
        ensures { result ≡ runs_across self w }
    {
        match self {
            Form::Lines { axis, .. } => w.axis == axis.across(),
            _ => false,
        }
    }
}
