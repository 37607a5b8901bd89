// Where places and blocks go over a run of operations, in either direction.
ghost use Rattle.std.specs.Prelude.{◌≡◌, ◌≤◌, length, take};
ghost use Rattle.run_walk.specs.Run.{AreSound};
ghost use Rattle.run_walk.specs.internal.Walked.{area_along, place_along};

use crate::run::{area_back, front, place_back};
use crate::way::{Way, area_by, place_by};
use cell_addr::{Axis, Block, Place};
use tree_rewrite::Direction;

// Where the first `count` operations of the way take a place; None where it is lost, or came from nowhere.
pub(crate) fn place_along<W: Way>(
    direction: Direction,
    way: &W,
    count: usize,
    p: Place,
) -> Option<Place>
    requires sound { AreSound (W.shifts way.now) }
    requires within { count ≤ length (W.shifts way.now) }
    ensures { result ≡ place_along direction (take count (W.shifts way.now)) p }
{
    match direction {
        Direction::Forward => place_by(way, count, p),
        Direction::Backward => place_back(front(way.run(), count), p),
    }
}

// Where they take a block, or as its block a whole range along an axis; None where it is lost, or an end of it came
// from nowhere.
pub(crate) fn area_along<W: Way>(
    direction: Direction,
    way: &W,
    count: usize,
    lines: Option<Axis>,
    b: Block,
) -> Option<Block>
    requires sound { AreSound (W.shifts way.now) }
    requires within { count ≤ length (W.shifts way.now) }
    ensures { result ≡ area_along direction (take count (W.shifts way.now)) lines b }
{
    match direction {
        Direction::Forward => area_by(way, count, lines, b),
        Direction::Backward => area_back(front(way.run(), count), lines, b),
    }
}
