// Operations from the front of a run that lose nothing of a tree.
ghost use Rattle.std.specs.Prelude.{◌≡◌, ◌≢◌, ◌≤◌, None, Some, IfSome, length, take};
ghost use Rattle.formula_tree.specs.Reference.{base_of, corner_at};
ghost use Rattle.formula_tree.specs.Relative.{relative, relative_list};
ghost use Rattle.formula_tree.specs.StandsFor.{at_home};
ghost use Rattle.formula_tree.specs.Term.{each_corner_all, shaped, whole};
ghost use Rattle.formula_tree.specs.Whole.{first_ref, last_ref};
ghost use Rattle.run_walk.specs.Run.{AreSound, IsCarriedOver, NoneLoses, place_over};
ghost use Rattle.run_walk.specs.internal.Freed.{AllFit, NoneLosesOfAll};
ghost use Rattle.tree_rewrite.specs.References.{FitsSheets};

use crate::areas::carried_area;
use crate::run::front;
use crate::way::{Steps, Way};
use cell_addr::{Axis, Block, Place};
use formula_tree::{Corner, Home, Node, Part, Ref, SheetPart, Tree, TreeList};
use shift_core::{Shift, moved_place};

// How many operations are looked at first.
const AHEAD: usize = 16;

// How many times as many next, where those lose nothing.
const FURTHER: usize = 4;

/// How many operations from the front of the run lose nothing of the formula's tree, one after the other: up to the
/// first of which [`tree_rewrite::loses`] says that it does.
///
/// The operations are sound, and the references, blocks and whole ranges of the tree lie within the limits of a sheet. Takes
/// no memory. Costs about the nodes of the tree times the answer, or times 16 where that is less: an operation that loses
/// something early keeps it from looking at those far behind.
pub fn free_run(tree: &Tree, home: Home, run: &[Shift]) -> usize
    requires sound { AreSound run.now }
    requires fits { FitsSheets (at_home home (relative tree.now.value)) }
    ensures within { result ≤ length run.now }
    ensures free { NoneLoses (take result run.now) (at_home home (relative tree.now.value)) }
{
    free_by(tree, home, &Steps::over(run))
}

/// The same of the operations of the way. For each reference, block or whole range it costs what the way does where that tells, and
/// else the operations.
pub fn free_by<W: Way>(tree: &Tree, home: Home, way: &W) -> usize
    requires sound { AreSound (W.shifts way.now) }
    requires fits { FitsSheets (at_home home (relative tree.now.value)) }
    ensures within { result ≤ length (W.shifts way.now) }
    ensures free { NoneLoses (take result (W.shifts way.now)) (at_home home (relative tree.now.value)) }
{
    let count = way.run().len();
    let mut ahead = AHEAD;
    'ahead: while ahead < count {
        let free = free_of(tree, home, way, ahead);
        if free < ahead {
            return free;
        }
        ahead = ahead.saturating_mul(FURTHER);
    }
    free_of(tree, home, way, count)
}

// The same, where the first `count` operations are looked at.
#[cycle(free)]
fn free_of<W: Way>(tree: &Node, home: Home, way: &W, count: usize) -> usize
    requires sound { AreSound (W.shifts way.now) }
    requires count { count ≤ length (W.shifts way.now) }
    requires fits { FitsSheets (at_home home (relative tree.now)) }
    ensures within { result ≤ count }
    ensures free { NoneLoses (take result (W.shifts way.now)) (at_home home (relative tree.now)) }
{
    match tree {
        Node::Number(_) | Node::Text(_) | Node::Truth(_) | Node::Fault(_) | Node::Name(_) => count,
        Node::Cell(reference) => free_of_place(way, count, reference.at(home).at),
        Node::Area(first, last) => { free_of_area(way, count, None, first.at(home), last.at(home)) }
        Node::WholeRows(sheet, first, last) => {
            free_of_whole(way, count, Axis::Rows, *sheet, (*first, *last), home)
        }
        Node::WholeCols(sheet, first, last) => {
            free_of_whole(way, count, Axis::Cols, *sheet, (*first, *last), home)
        }
        Node::Prefix(_, part) => free_of(part, home, way, count),
        Node::Percent(part) => free_of(part, home, way, count),
        Node::Paren(part) => free_of(part, home, way, count),
        Node::Binary(_, left, right) => {
            let free = free_of(left, home, way, count);
            free_of(right, home, way, free)
        }
        Node::Call(_, list) => free_of_all(list, home, way, count),
    }
}

// How many operations lose nothing of any of the arguments.
#[cycle(free)]
fn free_of_all<W: Way>(list: &TreeList, home: Home, way: &W, count: usize) -> usize
    requires sound { AreSound (W.shifts way.now) }
    requires count { count ≤ length (W.shifts way.now) }
    requires fits { AllFit (each_corner_all (corner_at (base_of home)) (relative_list list.now)) }
    ensures within { result ≤ count }
    ensures free { NoneLosesOfAll (take result (W.shifts way.now)) (each_corner_all (corner_at (base_of home)) (relative_list list.now)) }
{
    let mut free = count;
    'arguments: for argument in list.items() {
        free = free_of(argument, home, way, free);
    }
    free
}

// How many of the first `count` operations don't lose the place.
fn free_of_place<W: Way>(way: &W, count: usize, p: Place) -> usize
    requires sound { AreSound (W.shifts way.now) }
    requires count { count ≤ length (W.shifts way.now) }
    ensures within { result ≤ count }
    ensures free { place_over (take result (W.shifts way.now)) p ≢ None }
{
    match way.place(count, p) {
        Some(_) => count,
        None => steps_of_place(front(way.run(), count), p),
    }
}

// The same, one operation after the other.
fn steps_of_place(run: &[Shift], p: Place) -> usize
    requires { AreSound run.now }
    ensures within { result ≤ length run.now }
    ensures free { place_over (take result run.now) p ≢ None }
{
    let mut at = p;
    'run: for (index, s) in run.iter().enumerate() {
        let Some(next) = moved_place(s, at) else {
            return index;
        };
        at = next;
    }
    run.len()
}

// How many of the first `count` operations give a whole range back, by the parts of its first and of its last line.
fn free_of_whole<W: Way>(
    way: &W,
    count: usize,
    axis: Axis,
    sheet: SheetPart,
    parts: (Part, Part),
    home: Home,
) -> usize
    requires sound { AreSound (W.shifts way.now) }
    requires count { count ≤ length (W.shifts way.now) }
    ensures within { result ≤ count }
    ensures free { NoneLoses (take result (W.shifts way.now)) (whole axis (corner_at (base_of home) (first_ref axis sheet parts.0)) (corner_at (base_of home) (last_ref axis sheet parts.1))) }
{
    let first = Ref::first_of(axis, sheet, parts.0).at(home);
    let last = Ref::last_of(axis, sheet, parts.1).at(home);
    free_of_area(way, count, Some(axis), first, last)
}

// How many give the block between the corners back, or the whole range along an axis. One between corners of two sheets
// never comes back.
fn free_of_area<W: Way>(
    way: &W,
    count: usize,
    lines: Option<Axis>,
    first: Corner,
    last: Corner,
) -> usize
    requires sound { AreSound (W.shifts way.now) }
    requires count { count ≤ length (W.shifts way.now) }
    ensures within { result ≤ count }
    ensures free { NoneLoses (take result (W.shifts way.now)) (shaped lines first last) }
{
    if first.at.sheet != last.at.sheet {
        return 0;
    }
    free_of_block(way, count, lines, first.block_to(last))
}

// How many of the first `count` operations give the block back, or as its block the whole range.
fn free_of_block<W: Way>(way: &W, count: usize, lines: Option<Axis>, b: Block) -> usize
    requires sound { AreSound (W.shifts way.now) }
    requires count { count ≤ length (W.shifts way.now) }
    ensures within { result ≤ count }
    ensures free { IsCarriedOver (take result (W.shifts way.now)) lines b }
{
    match way.carried(count, lines, b) {
        Some(_) => count,
        None => steps_of_block(front(way.run(), count), lines, b),
    }
}

// The same, one operation after the other.
fn steps_of_block(run: &[Shift], lines: Option<Axis>, b: Block) -> usize
    requires { AreSound run.now }
    ensures within { result ≤ length run.now }
    ensures free { IsCarriedOver (take result run.now) lines b }
{
    let mut at = b;
    'run: for (index, s) in run.iter().enumerate() {
        let Some(next) = carried_area(s, lines, at) else {
            return index;
        };
        at = next;
    }
    run.len()
}
