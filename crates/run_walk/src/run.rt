// Places, blocks, whole ranges and homes over runs of operations.
ghost use Rattle.std.specs.Prelude.{◌≡◌, ◌≤◌, length, take};
ghost use Rattle.shift_core.specs.Carried.{first_place, last_place};
ghost use Rattle.run_walk.specs.Run.{AreSound, area_back, area_over, home_back, home_over, place_back, place_over};

use cell_addr::{Axis, Block, Place};
use formula_tree::Home;
use shift_core::{Shift, back_place, moved_place};
use tree_rewrite::{back_area, moved_area};

// So many operations from the front of the run.
pub(crate) fn front(run: &[Shift], count: usize) -> &[Shift]
    requires { count ≤ length run.now }
    ensures items { result.now ≡ take count run.now }
    ensures count { length result.now ≡ count }
    ensures sound { AreSound run.now → AreSound result.now }
{
    &run[..count]
}

// Where the operations take the place, one after the other; None where one of them loses it.
pub(crate) fn place_over(run: &[Shift], p: Place) -> Option<Place>
    requires { AreSound run.now }
    ensures { result ≡ place_over run.now p }
{
    let mut at = p;
    'run: for s in run {
        at = moved_place(s, at)?;
    }
    Some(at)
}

// Where they take the block, or as its block the whole range along an axis; None where one of them loses it.
pub(crate) fn area_over(run: &[Shift], lines: Option<Axis>, b: Block) -> Option<Block>
    requires { AreSound run.now }
    ensures { result ≡ area_over run.now lines b }
{
    let mut at = b;
    'run: for s in run {
        at = moved_area(s, lines, at)?;
    }
    Some(at)
}

/// Where the operations take the home, one after the other; None where one of them loses it. They are sound. Costs
/// about their number, and nothing for the home of a name.
pub fn home_over(run: &[Shift], home: Home) -> Option<Home>
    requires { AreSound run.now }
    ensures { result ≡ home_over run.now home }
{
    match home {
        Home::Cell(at) => Some(Home::Cell(place_over(run, at)?)),
        Home::Name { .. } => Some(home),
    }
}

// Where the place was before the operations, from the last one back to the first; None where it came from nowhere.
pub(crate) fn place_back(run: &[Shift], p: Place) -> Option<Place>
    requires { AreSound run.now }
    ensures { result ≡ place_back run.now p }
{
    let mut at = p;
    'run: for index in (0..run.len()).rev() {
        at = back_place(&run[index], at)?;
    }
    Some(at)
}

// Where the block, or the whole range, was before them; None where one of its ends came from nowhere.
pub(crate) fn area_back(run: &[Shift], lines: Option<Axis>, b: Block) -> Option<Block>
    requires { AreSound run.now }
    ensures { result ≡ area_back run.now lines b }
{
    let mut at = b;
    'run: for index in (0..run.len()).rev() {
        at = back_area(&run[index], lines, at)?;
    }
    Some(at)
}

/// Where the home was before the operations, from the last one back to the first; None where it came from nowhere. They
/// are sound. Costs about their number, and nothing for the home of a name.
pub fn home_back(run: &[Shift], home: Home) -> Option<Home>
    requires { AreSound run.now }
    ensures { result ≡ home_back run.now home }
{
    match home {
        Home::Cell(at) => Some(Home::Cell(place_back(run, at)?)),
        Home::Name { .. } => Some(home),
    }
}

// The corner of the block with the least row and column.
pub(crate) fn first_place(b: Block) -> Place
    ensures { result ≡ first_place b }
{
    Place {
        sheet: b.sheet,
        row: b.top,
        col: b.left,
    }
}

// The corner with the greatest row and column.
pub(crate) fn last_place(b: Block) -> Place
    ensures { result ≡ last_place b }
{
    Place {
        sheet: b.sheet,
        row: b.bottom,
        col: b.right,
    }
}
