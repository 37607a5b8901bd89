// Numbers at spots, in the order of their rows and of their columns.
ghost use Rattle.std.specs.Prelude.{◌≡◌, ◌<◌, ◌≤◌, ℕ, true, false, IfOk, OnOk, OnErr};
ghost use Rattle.std.specs.BTreeMap.Range.{IsLeBy};
ghost use Rattle.std.specs.BTreeSet.{contains};
ghost use Rattle.cell_addr.specs.declared.axis.Axis.{Axis};
ghost use Rattle.place_lines.specs.Spots.{in_runs};
ghost use Rattle.place_lines.specs.declared.spot.LineSpot.{LineSpot};
ghost use Rattle.needs_order.specs.Needs.{has};
ghost use Rattle.touch_index.specs.declared.point.Point.{Point};
ghost use Rattle.touch_index.specs.internal.Points.{StillFound, has_point, is_between, line_in, line_over, point_along, point_cmp};

use crate::point::Point;
use cell_addr::Axis;
use place_lines::LineSpot;
use std::alloc::{AllocError, Global};
use std::collections::BTreeSet;
use std::ops::Range;

// Numbers at spots, each kept by its row and by its column.
pub(crate) struct Points {
    by_rows: BTreeSet<Point>,
    by_cols: BTreeSet<Point>,
}

// Written out, so that whoever drops one calls one function.
impl Drop for Points {
    fn drop(self) {
        let Points {
            by_rows: _by_rows,
            by_cols: _by_cols,
        } = self;
    }
}

impl Points {
    // No numbers.
    pub(crate) fn new(alloc: Global) -> Points
        ensures { (spot : LineSpot) (n : ℕ) → has_point result spot n ≡ false }
    {
        Points {
            by_rows: BTreeSet::new(alloc),
            by_cols: BTreeSet::new(alloc),
        }
    }

    // Keeps the number at the spot. Where there is no memory, nothing else is kept that wasn't.
    pub(crate) fn add(&mut self, spot: LineSpot, number: usize) -> Result<(), AllocError>
        ensures grown { (at : LineSpot) (n : ℕ) → has_point self.old at n ≡ true → has_point self.new at n ≡ true }
        ensures added { OnOk result (has_point self.new spot number ≡ true) }
    {
        self.by_rows.insert(point(spot, Axis::Rows, number))?;
        self.by_cols.insert(point(spot, Axis::Cols, number))?;
        Ok(())
    }

    // The points in the order of their lines along the axis.
    fn along(&self, axis: Axis) -> &BTreeSet<Point>
        ensures { (spot : LineSpot) (n : ℕ) → has_point self.now spot n ≡ true → contains point_cmp result.now (point_along axis spot n) ≡ true }
    {
        match axis {
            Axis::Rows => &self.by_rows,
            Axis::Cols => &self.by_cols,
        }
    }

    // Finds the numbers at the spots of a sheet whose lines along the axis are in these runs.
    pub(crate) fn find_on(
        &self,
        found: &mut Vec<usize>,
        axis: Axis,
        sheet: u32,
        runs: &[Range<u64>],
    ) -> Result<(), AllocError>
        ensures still { OnOk result (StillFound found.old.items found.new.items) }
        ensures found { OnOk result ((spot : LineSpot) (n : ℕ) → has_point self.now spot n ≡ true → spot.sheet ≡ sheet → in_runs runs.now (line_in axis spot) ≡ true → has n found.new.items ≡ true) }
    {
        let points = self.along(axis);
        'runs: for run in runs {
            find_lines(points, found, sheet, run.start, run.end)?;
        }
        Ok(())
    }

    // Finds the numbers at the spots of a sheet whose lines along the axis are in these runs, and along the other in the others.
    pub(crate) fn find_in(
        &self,
        found: &mut Vec<usize>,
        axis: Axis,
        sheet: u32,
        runs: &[Range<u64>],
        others: &[Range<u64>],
    ) -> Result<(), AllocError>
        ensures still { OnOk result (StillFound found.old.items found.new.items) }
        ensures found { OnOk result ((spot : LineSpot) (n : ℕ) → has_point self.now spot n ≡ true → spot.sheet ≡ sheet → in_runs runs.now (line_in axis spot) ≡ true → in_runs others.now (line_over axis spot) ≡ true → has n found.new.items ≡ true) }
    {
        let points = self.along(axis);
        'runs: for run in runs {
            find_run(points, found, sheet, run.start..run.end, others)?;
        }
        Ok(())
    }
}

// The point of a number at a spot.
fn point(spot: LineSpot, axis: Axis, number: usize) -> Point
    ensures { result ≡ point_along axis spot number }
{
    match axis {
        Axis::Rows => Point {
            sheet: spot.sheet,
            line: spot.row,
            across: spot.col,
            number,
        },
        Axis::Cols => Point {
            sheet: spot.sheet,
            line: spot.col,
            across: spot.row,
            number,
        },
    }
}

// Finds the numbers of the points on the lines of a sheet from the first to before the end.
fn find_lines(
    points: &BTreeSet<Point>,
    found: &mut Vec<usize>,
    sheet: u32,
    first: u64,
    end: u64,
) -> Result<(), AllocError>
    ensures still { OnOk result (StillFound found.old.items found.new.items) }
    ensures found { OnOk result ((p : Point) → contains point_cmp points.now p ≡ true → p.sheet ≡ sheet → first ≤ p.line → p.line < end → has p.number found.new.items ≡ true) }
{
    if first < end {
        find_between(
            points,
            found,
            Point::first_of(sheet, first, 0),
            Point::first_of(sheet, end, 0),
        )
    } else {
        Ok(())
    }
}

// Finds the numbers of the points on the lines of a run and, of the other axis, on one of these runs.
fn find_run(
    points: &BTreeSet<Point>,
    found: &mut Vec<usize>,
    sheet: u32,
    run: Range<u64>,
    across: &[Range<u64>],
) -> Result<(), AllocError>
    ensures still { OnOk result (StillFound found.old.items found.new.items) }
    ensures found { OnOk result ((p : Point) → contains point_cmp points.now p ≡ true → p.sheet ≡ sheet → run.start ≤ p.line → p.line < run.end → in_runs across.now p.across ≡ true → has p.number found.new.items ≡ true) }
{
    'lines: for line in run.start..run.end {
        find_across(points, found, sheet, line, across)?;
    }
    Ok(())
}

// Finds the numbers of the points on a line and, of the other axis, on one of these runs.
fn find_across(
    points: &BTreeSet<Point>,
    found: &mut Vec<usize>,
    sheet: u32,
    line: u64,
    across: &[Range<u64>],
) -> Result<(), AllocError>
    ensures still { OnOk result (StillFound found.old.items found.new.items) }
    ensures found { OnOk result ((p : Point) → contains point_cmp points.now p ≡ true → p.sheet ≡ sheet → p.line ≡ line → in_runs across.now p.across ≡ true → has p.number found.new.items ≡ true) }
{
    'runs: for run in across {
        find_part(points, found, sheet, line, run.start, run.end)?;
    }
    Ok(())
}

// Finds the numbers of the points on a line and, of the other axis, on those from the first to before the end.
fn find_part(
    points: &BTreeSet<Point>,
    found: &mut Vec<usize>,
    sheet: u32,
    line: u64,
    first: u64,
    end: u64,
) -> Result<(), AllocError>
    ensures still { OnOk result (StillFound found.old.items found.new.items) }
    ensures found { OnOk result ((p : Point) → contains point_cmp points.now p ≡ true → p.sheet ≡ sheet → p.line ≡ line → first ≤ p.across → p.across < end → has p.number found.new.items ≡ true) }
{
    if first < end {
        find_between(
            points,
            found,
            Point::first_of(sheet, line, first),
            Point::first_of(sheet, line, end),
        )
    } else {
        Ok(())
    }
}

// Finds the numbers of the points from the first to before the end.
fn find_between(
    points: &BTreeSet<Point>,
    found: &mut Vec<usize>,
    first: Point,
    end: Point,
) -> Result<(), AllocError>
    requires { IsLeBy point_cmp first end }
    ensures still { OnOk result (StillFound found.old.items found.new.items) }
    ensures found { OnOk result ((p : Point) → contains point_cmp points.now p ≡ true → is_between first end p ≡ true → has p.number found.new.items ≡ true) }
{
    for point in points.range(first..end) {
        found.push(point.number)?;
    }
    Ok(())
}
