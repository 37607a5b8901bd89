// Ways over a run of operations.
ghost use Rattle.std.specs.Prelude.{◌≡◌, ◌≤◌, List, Some, IfSome, length, take};
ghost use Rattle.run_walk.specs.Run.{AreSound, IsCarriedOver, area_over, home_over, place_over};
ghost use Rattle.shift_core.specs.declared.shift.Shift.{Shift};

use crate::run;
use crate::run::front;
use cell_addr::{Axis, Block, Place};
use formula_tree::Home;
use shift_core::Shift;

/// How places, blocks and whole ranges go over a run of operations, for whoever takes many formulas over the same run. A
/// way may leave out operations that it knows to leave one of these alone; where it doesn't tell, the operations are taken one
/// after the other.
pub trait Way {
    // The operations.
    ghost shifts: { Self → List Shift };

    /// The operations, in order.
    fn run(&self) -> &[Shift]
        ensures { result.now ≡ shifts self.now };

    /// Where the first `count` operations take the place; `None` where one of them loses it, or the way doesn't tell.
    fn place(&self, count: usize, p: Place) -> Option<Place>
        requires sound { AreSound (shifts self.now) }
        requires within { count ≤ length (shifts self.now) }
        ensures { IfSome result (λ to. place_over (take count (shifts self.now)) p ≡ Some to) };

    /// Where the first `count` operations take the block, or as its block the whole range along an axis, if each of them
    /// gives it back; `None` where one of them doesn't, or the way doesn't tell.
    fn carried(&self, count: usize, lines: Option<Axis>, b: Block) -> Option<Block>
        requires sound { AreSound (shifts self.now) }
        requires within { count ≤ length (shifts self.now) }
        ensures over { IfSome result (λ to. area_over (take count (shifts self.now)) lines b ≡ Some to) }
        ensures back { IfSome result (λ to. IsCarriedOver (take count (shifts self.now)) lines b) };
}

/// The way over a run that takes all operations one after the other, for a single formula.
#[derive(Clone, Copy)]
pub struct Steps<'a> {
    run: &'a [Shift],
}

impl<'a> Steps<'a> {
    /// The way over the run.
    pub fn over(run: &'a [Shift]) -> Steps<'a>
        ensures { result.run.now ≡ run.now }
    {
        Steps { run }
    }
}

impl<'a> Way for Steps<'a> {
    ghost shifts = { λ w. w.run.now };

    fn run(&self) -> &[Shift] {
        self.run
    }

    fn place(&self, _count: usize, _p: Place) -> Option<Place> {
        None
    }

    fn carried(&self, _count: usize, _lines: Option<Axis>, _b: Block) -> Option<Block> {
        None
    }
}

// Where the first `count` operations of the way take the place; None where one of them loses it.
pub(crate) fn place_by<W: Way>(way: &W, count: usize, p: Place) -> Option<Place>
    requires sound { AreSound (W.shifts way.now) }
    requires within { count ≤ length (W.shifts way.now) }
    ensures { result ≡ place_over (take count (W.shifts way.now)) p }
{
    match way.place(count, p) {
        Some(to) => Some(to),
        None => run::place_over(front(way.run(), count), p),
    }
}

// Where they take the block, or the whole range; None where one of them loses it.
pub(crate) fn area_by<W: Way>(way: &W, count: usize, lines: Option<Axis>, b: Block) -> Option<Block>
    requires sound { AreSound (W.shifts way.now) }
    requires within { count ≤ length (W.shifts way.now) }
    ensures { result ≡ area_over (take count (W.shifts way.now)) lines b }
{
    match way.carried(count, lines, b) {
        Some(to) => Some(to),
        None => run::area_over(front(way.run(), count), lines, b),
    }
}

// Where they take the home; None where one of them loses it.
pub(crate) fn home_by<W: Way>(way: &W, count: usize, home: Home) -> Option<Home>
    requires sound { AreSound (W.shifts way.now) }
    requires within { count ≤ length (W.shifts way.now) }
    ensures { result ≡ home_over (take count (W.shifts way.now)) home }
{
    match home {
        Home::Cell(at) => Some(Home::Cell(place_by(way, count, at)?)),
        Home::Name { .. } => Some(home),
    }
}
