// The probe of an operation.
ghost use Rattle.std.specs.Prelude.{◌≡◌};
ghost use Rattle.shift_core.specs.Lines.{IsSoundEdit};
ghost use Rattle.shift_core.specs.Sound.{IsSound};
ghost use Rattle.shift_core.specs.declared.edit.Edit.TheVariants.{Move};
ghost use Rattle.restored_values.specs.Probes as probes;

use shift_core::{Edit, Form, Shift};

/// The operation that bends, as it stands afterwards, whatever range, whole or not, this one bends and doesn't lose, and else only what
/// is near, or whole ranges across which this one edits lines; None where this one moves cells or drops a sheet, which bends only
/// what it loses. The probe is never done.
pub fn probe(s: &Shift) -> Option<Shift>
    requires { IsSound s.now }
    ensures { result ≡ probes.probe_of s.now }
{
    match s.form() {
        Form::Lines { sheet, axis, edit } => {
            let edit = edit_probe(axis.limit(), edit);
            Some(Form::Lines { sheet, axis, edit }.shift())
        }
        Form::Cells { .. } | Form::Sheet { .. } => None,
    }
}

// The probe of an edit of `limit` lines.
fn edit_probe(limit: u32, edit: Edit) -> Edit
    requires { IsSoundEdit limit edit }
    ensures { result ≡ probes.edit_probe limit edit }
{
    match edit {
        Edit::Insert { at, .. } => Edit::Insert { at, count: 1 },
        Edit::Delete { at, .. } => one_moved(at.max(1), at.max(1) - 1),
        Edit::Move {
            from,
            count,
            before,
        } => {
            if from + count < before {
                one_moved(from.saturating_sub(1), before)
            } else {
                one_moved((from + count).min(limit - 1), before)
            }
        }
    }
}

// The move of one line.
fn one_moved(from: u32, before: u32) -> Edit
    ensures { result ≡ Move from 1 before }
{
    Edit::Move {
        from,
        count: 1,
        before,
    }
}
