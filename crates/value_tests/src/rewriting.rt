ghost use Rattle.std.specs.Prelude.{◌≢◌, None, IfOk, IsTrue};
ghost use Rattle.formula_tree.specs.Reference.{IsHomeInside};
ghost use Rattle.formula_tree.specs.Relative.{relative};
ghost use Rattle.formula_tree.specs.Seen.{seen};
ghost use Rattle.formula_tree.specs.StandsFor.{at_home};
ghost use Rattle.shift_core.specs.Sound.{IsSound};
ghost use Rattle.tree_rewrite.specs.References.{FitsSheets};
ghost use Rattle.tree_rewrite.specs.Rewritten.{home_after, home_before};

use cell_addr::{NO_SHEET, Place};
use formula_tree::{Corner, Home, Plain, Pool, Tree};
use shift_core::{Shift, back_place, moved_place, sound};
use std::alloc::{AllocError, Global};
use std::test::Fail;
use tree_rewrite::{backward, forward, loses};

// The place of B6, which the formulas name.
const NAMED: Place = Place {
    sheet: 0,
    row: 5,
    col: 1,
};

// A home that is no cell's.
const NAME: Home = Home::Name { sheet: NO_SHEET };

const TWO_AT_NAMED: Shift = Shift::InsertRows {
    sheet: 0,
    at: 5,
    count: 2,
};

const THREE_ABOVE: Shift = Shift::InsertRows {
    sheet: 0,
    at: 0,
    count: 3,
};

const OTHER_DROPPED: Shift = Shift::DropSheet { sheet: 1 };

// A reference to B6 with a `$` at its row.
fn reference() -> Plain
    ensures { FitsSheets (seen result) }
{
    Plain::Cell(Corner {
        at: NAMED,
        row_fixed: true,
        col_fixed: false,
    })
}

// The shared tree of a formula.
fn shared(pool: &mut Pool, tree: &Plain, home: Home) -> Result<Tree, AllocError>
    requires fits { FitsSheets (seen tree.now) }
    requires home { IsHomeInside home }
    ensures { IfOk result (λ t. FitsSheets (at_home home (relative t.value))) }
{
    pool.intern(tree, home)
}

// Whether the home is a cell's, which came from another one.
fn is_formula_with_origin(home: Home, s: &Shift) -> bool
    requires { IsSound s.now }
    ensures { IsTrue result → home_before s.now home ≢ None }
{
    match home {
        Home::Cell(at) => back_place(s, at).is_some(),
        Home::Name { .. } => false,
    }
}

// Whether the operation makes another tree of this one, which then comes back as it was, and so does its home.
fn returns(
    alloc: Global,
    pool: &mut Pool,
    tree: &Tree,
    home: Home,
    s: &Shift,
) -> Result<bool, AllocError>
    requires sound { IsSound s.now }
    requires home { IsHomeInside home }
    requires fits { FitsSheets (at_home home (relative tree.now.value)) }
    requires kept { home_after s.now home ≢ None }
{
    let (after, there) = forward(alloc, pool, tree, home, s)?;
    if Tree::ptr_eq(&after, tree) || !is_formula_with_origin(there, s) {
        return Ok(false);
    }
    let (before, again) = backward(alloc, pool, &after, there, s)?;
    Ok(Tree::ptr_eq(&before, tree) && again == home)
}

// Whether the tree of a formula of the cell changes over the operation, and comes back as it was.
fn comes_back(alloc: Global, pool: &mut Pool, cell: Place, s: &Shift) -> Result<bool, AllocError> {
    if !sound(s) || !cell.inside() || moved_place(s, cell).is_none() {
        return Ok(false);
    }
    let here = Home::Cell(cell);
    let tree = shared(pool, &reference(), here)?;
    let is_kept = !loses(&tree, here, s);
    Ok(is_kept && returns(alloc, pool, &tree, here, s)?)
}

#[test]
fn a_formula_comes_back(rt: HostRuntime) -> Result<(), Fail> {
    let cell = Place {
        sheet: 0,
        row: 20,
        col: 5,
    };
    let mut pool = Pool::new(rt.alloc())?;
    assert!(rt; comes_back(rt.alloc(), &mut pool, cell, &TWO_AT_NAMED)?);
    Ok(())
}

// Whether the operation leaves the tree and its home as they are, and loses nothing of it.
fn stays(
    alloc: Global,
    pool: &mut Pool,
    tree: &Tree,
    home: Home,
    s: &Shift,
) -> Result<bool, AllocError>
    requires sound { IsSound s.now }
    requires home { IsHomeInside home }
    requires fits { FitsSheets (at_home home (relative tree.now.value)) }
    requires kept { home_after s.now home ≢ None }
{
    let (same, there) = forward(alloc, pool, tree, home, s)?;
    Ok(there == home && Tree::ptr_eq(&same, tree) && !loses(&same, there, s))
}

// Whether the first operation makes another tree of that of a name, whose home stays, and the second leaves all as it is.
fn changes_and_stays(
    alloc: Global,
    pool: &mut Pool,
    first: &Shift,
    second: &Shift,
) -> Result<bool, AllocError> {
    if !sound(first) || !sound(second) {
        return Ok(false);
    }
    let tree = shared(pool, &reference(), NAME)?;
    let (after, home) = forward(alloc, pool, &tree, NAME, first)?;
    let is_changed = home == NAME && !Tree::ptr_eq(&after, &tree) && pool.len() == 2;
    Ok(is_changed && stays(alloc, pool, &after, home, second)? && pool.len() == 2)
}

// Rows above both the name's tree and the place that it names: the place moves, and the home stays. Then a sheet is
// dropped that has nothing of it.
#[test]
fn trees_that_stay_are_kept(rt: HostRuntime) -> Result<(), Fail> {
    let alloc = rt.alloc();
    let mut pool = Pool::new(alloc)?;
    assert!(rt; changes_and_stays(alloc, &mut pool, &THREE_ABOVE, &OTHER_DROPPED)?);
    Ok(())
}
