// Which operation or which change of a name a step is that can be undone or done again, and a part of one.
ghost use Rattle.std.specs.Prelude.{◌≡◌, IfSome, option_map};
ghost use Rattle.shift_core.specs.Sound.{IsSound};
ghost use Rattle.shift_line.specs.Track.{shift_at};
ghost use Rattle.kept_book.specs.Change.{shift_of};
ghost use Rattle.kept_book.specs.Kept.{change_of, changes_of, line_of, name_change};
ghost use Rattle.kept_steps.specs.Turned.{lists_names_alone, name_alone, name_of, operation_of, replaced_of};

use crate::session::Session;
use cell_addr::Place;
use grid_store::Cell;
use kept_book::{NameChange, Part};
use shift_core::Shift;
use shift_line::Line;

impl Session {
    ghost use Rattle.kept_steps.specs.Turned.{to_redo, to_undo};

    /// The parts of the step that [`Session::undo`] takes back; none, where there is no step.
    pub fn parts_undone(&self) -> &[Part]
        ensures { changes_of result.now ≡ to_undo self.now }
    {
        match self.steps.done().back() {
            Some(entry) => &entry.parts,
            None => &[],
        }
    }

    /// The parts of the step that [`Session::redo`] does again, likewise.
    pub fn parts_redone(&self) -> &[Part]
        ensures { changes_of result.now ≡ to_redo self.now }
    {
        match self.steps.undone().last() {
            Some(entry) => &entry.parts,
            None => &[],
        }
    }

    /// The structural operation that [`Session::undo`] takes back, where the step is one; `None` for any other step, and where there is
    /// none.
    pub fn operation_undone(&self) -> Option<Shift>
        ensures { result ≡ operation_of (line_of self.now.book) (to_undo self.now) }
    {
        operation_of(self.book.lazy.line(), self.parts_undone())
    }

    /// The operation that [`Session::redo`] does again, likewise.
    pub fn operation_redone(&self) -> Option<Shift>
        ensures { result ≡ operation_of (line_of self.now.book) (to_redo self.now) }
    {
        operation_of(self.book.lazy.line(), self.parts_redone())
    }

    /// The name that [`Session::undo`] gives the formula from before the step, where the step is one change of a name and of nothing
    /// else; `None` for any other step, and where there is none.
    pub fn name_undone(&self) -> Option<NameChange>
        ensures { option_map name_change result ≡ name_of (to_undo self.now) }
    {
        name_of(self.parts_undone())
    }

    /// The name that [`Session::redo`] gives the formula from after the step, likewise.
    pub fn name_redone(&self) -> Option<NameChange>
        ensures { option_map name_change result ≡ name_of (to_redo self.now) }
    {
        name_of(self.parts_redone())
    }

    /// The operation of one part of a step, if it has one.
    pub fn operation_in(&self, part: &Part) -> Option<Shift>
        ensures operation { result ≡ shift_of (line_of self.now.book) (change_of part.now) }
        ensures sound { IfSome result IsSound }
    {
        shift_of(self.book.lazy.line(), part)
    }

    /// The cells that the step lists as replaced or removed which [`Session::undo`] takes back, with their places before the step;
    /// `None` where it isn't one change, and where there is none.
    pub fn cells_removed(&self) -> Option<&[(Place, Cell)]>
        ensures { option_map (λ cells. cells.now) result ≡ replaced_of (to_undo self.now) }
    {
        replaced_of(self.parts_undone())
    }

    /// The cells that the step lists so which [`Session::redo`] does again, likewise.
    pub fn cells_removed_again(&self) -> Option<&[(Place, Cell)]>
        ensures { option_map (λ cells. cells.now) result ≡ replaced_of (to_redo self.now) }
    {
        replaced_of(self.parts_redone())
    }
}

// The cells that a step of one change lists as replaced.
fn replaced_of(parts: &[Part]) -> Option<&[(Place, Cell)]>
    ensures { option_map (λ cells. cells.now) result ≡ replaced_of (changes_of parts.now) }
{
    match parts {
        [part] => Some(part.replaced.items()),
        _ => None,
    }
}

// The name of a step that is one change of a name and of nothing else.
fn name_of(parts: &[Part]) -> Option<NameChange>
    ensures { option_map name_change result ≡ name_of (changes_of parts.now) }
{
    match parts {
        [part] => name_alone(part),
        _ => None,
    }
}

/// The name that a part of a step changes, where the part has no operation and lists nothing else.
pub fn name_alone(part: &Part) -> Option<NameChange>
    ensures { option_map name_change result ≡ name_alone (change_of part.now) }
{
    if part.from < part.to || !lists_names_alone(part) {
        return None;
    }
    match part.names.as_slice() {
        [name] => Some(*name),
        _ => None,
    }
}

// Whether a part lists no cell and no sheet.
fn lists_names_alone(part: &Part) -> bool
    ensures { result ≡ lists_names_alone (change_of part.now) }
{
    part.replaced.items().is_empty() && part.written.items().is_empty() && part.sheets.is_empty()
}

// The operation of a step that is one.
fn operation_of(line: &Line, parts: &[Part]) -> Option<Shift>
    ensures { result ≡ operation_of (shift_at line.now) (changes_of parts.now) }
{
    match parts {
        [part] => shift_of(line, part),
        _ => None,
    }
}

// The operation of a part that has one.
fn shift_of(line: &Line, part: &Part) -> Option<Shift>
    ensures { result ≡ shift_of (shift_at line.now) (change_of part.now) }
{
    if part.from < part.to {
        line.at(part.from)
    } else {
        None
    }
}
