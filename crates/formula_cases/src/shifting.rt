// Formulas taken over structural operations and back.
ghost use Rattle.std.specs.Prelude.{◌≡◌, ◌≢◌, ◌↔◌, None, IfSome, IsTrue};
ghost use Rattle.cell_addr.specs.Place.{IsInside};
ghost use Rattle.formula_tree.specs.Reference.{IsHomeInside};
ghost use Rattle.formula_tree.specs.Relative.{relative};
ghost use Rattle.formula_tree.specs.StandsFor.{at_home};
ghost use Rattle.shift_core.specs.Sound.{IsSound};
ghost use Rattle.tree_rewrite.specs.References.{FitsSheets};
ghost use Rattle.tree_rewrite.specs.Rewritten.{home_after, home_before};

use crate::reading::{Reading, shown};
use cell_addr::Place;
use formula_tree::{Home, Tree};
use shift_core::{Shift, back_place, moved_place, sound};
use std::alloc::{AllocError, Global};
use tree_rewrite::{backward, forward, loses};

/// What becomes of a formula of the cell over the operation and back, in words; why there is nothing to tell
/// where the operation isn't sound, the cell is lost, or the text spells no tree.
pub(crate) fn shifted(
    alloc: Global,
    sheet: &str,
    cell: Place,
    text: &str,
    shift: &Shift,
) -> Result<String, AllocError>
    requires { IsInside cell }
{
    if !is_home_kept(cell, shift) {
        return String::from_str(alloc, "not sound, or the cell is lost");
    }
    let mut reading = Reading::new(alloc, sheet)?;
    match reading.read(Home::Cell(cell), text)? {
        Some(tree) => passed(alloc, &mut reading, &tree, Home::Cell(cell), shift),
        None => String::from_str(alloc, "no tree"),
    }
}

// Whether the operation is sound, and leaves a cell somewhere.
fn is_home_kept(cell: Place, shift: &Shift) -> bool
    ensures { IsTrue result → IsSound shift.now × (home_after shift.now (Home.Cell cell) ≢ None) }
{
    sound(shift) && moved_place(shift, cell).is_some()
}

// What becomes of a tree over the operation and back.
fn passed(
    alloc: Global,
    reading: &mut Reading,
    tree: &Tree,
    home: Home,
    shift: &Shift,
) -> Result<String, AllocError>
    requires sound { IsSound shift.now }
    requires home { IsHomeInside home }
    requires fits { FitsSheets (at_home home (relative tree.now.value)) }
    requires kept { home_after shift.now home ≢ None }
{
    let (after, then) = forward(alloc, &mut reading.pool, tree, home, shift)?;
    let Some(at) = cell_with_origin(then, shift) else {
        return String::from_str(alloc, "from nowhere");
    };
    let (back, again) = backward(alloc, &mut reading.pool, &after, then, shift)?;
    let lost = loses(tree, home, shift);
    let after = shown(alloc, &after, then)?;
    let back = shown(alloc, &back, again)?;
    format!(in alloc;
        "{} at {} {} {}, back {}, lost {}",
        after, at.sheet, at.row, at.col, back, lost
    )
}

// The cell of a home that came from another one; `None` where it is none.
fn cell_with_origin(home: Home, shift: &Shift) -> Option<Place>
    requires { IsSound shift.now }
    ensures { IfSome result (λ at. home_before shift.now home ≢ None) }
{
    match home {
        Home::Cell(at) if back_place(shift, at).is_some() => Some(at),
        _ => None,
    }
}
