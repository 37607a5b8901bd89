// Which item of a line of cells a look-up takes.
ghost use Rattle.std.specs.Prelude.{◌≡◌, ◌<◌, ◌+◌, ◌^◌, false, IfSome};
ghost use Rattle.func_look.specs.Lookups.{first_column, first_row};
ghost use Rattle.cell_value.specs.Scalar.{is_empty};
ghost use Rattle.func_look.specs.Taken.{sought, taken};
ghost use Rattle.func_look.specs.internal.Search.{is_end, line_values, taken_at, takes};

use cell_value::{Area, Scalar};
use fix_num::Fixed;
use func_args::order_in_kind;
use std::cmp::Ordering;

/// How a look-up takes an item.
#[derive(Clone, Copy, PartialEq, Eq, Debug)]
pub(crate) enum Mode {
    /// The first item that is equal.
    Exact,
    /// The last item before the first one that is greater.
    Rising,
    /// The last item before the first one that is less.
    Falling,
}

// A line of an area's cells: so many of them, of which each stands so much further on than the one
// before it, from the first cell on.
#[derive(Clone, Copy, Debug)]
struct Line {
    step: u64,
    count: u64,
}

// The place among all cells, from 0, of the item that the look-up takes.
pub(crate) fn taken_of_all(mode: Mode, value: &Scalar, area: &Area) -> Option<u64>
    ensures taken { result ≡ taken mode (sought value.now) area.now.values }
    ensures within { IfSome result (λ at. at + 1 < 2 ^ 64) }
{
    let line = Line {
        step: 1,
        count: area.size(),
    };
    found(mode, value, area, line)
}

// The row of the item that the look-up takes in the first column.
pub(crate) fn taken_of_column(mode: Mode, value: &Scalar, area: &Area) -> Option<u32>
    ensures taken { result ≡ taken mode (sought value.now) (first_column area.now) }
    ensures within { IfSome result (λ at. at < area.now.rows) }
{
    let line = Line {
        step: u64::from(area.cols()),
        count: u64::from(area.rows()),
    };
    match found(mode, value, area, line) {
        Some(at) => Some(at as u32),
        None => None,
    }
}

// The column of the item that the look-up takes in the first row.
pub(crate) fn taken_of_row(mode: Mode, value: &Scalar, area: &Area) -> Option<u32>
    ensures taken { result ≡ taken mode (sought value.now) (first_row area.now) }
    ensures within { IfSome result (λ at. at < area.now.cols) }
{
    let line = Line {
        step: 1,
        count: u64::from(area.cols()),
    };
    match found(mode, value, area, line) {
        Some(at) => Some(at as u32),
        None => None,
    }
}

// The place in the line, from 0, of the item that the look-up takes. An empty value is looked up as 0.
fn found(mode: Mode, value: &Scalar, area: &Area, line: Line) -> Option<u64>
    requires { 0 < line.step }
    ensures taken { result ≡ taken mode (sought value.now) (line_values area.now.values line) }
    ensures within { IfSome result (λ at. at < line.count) }
{
    if value.is_empty() {
        taken(mode, &Scalar::Number(Fixed::ZERO), area, line)
    } else {
        taken(mode, value, area, line)
    }
}

// The place of the item that the look-up of a value takes.
fn taken(mode: Mode, sought: &Scalar, area: &Area, line: Line) -> Option<u64>
    requires step { 0 < line.step }
    requires sought { is_empty sought.now ≡ false }
    ensures taken { result ≡ taken mode sought.now (line_values area.now.values line) }
    ensures within { IfSome result (λ at. at < line.count) }
{
    let mut last = None;
    'cells: for cell in area.filled() {
        if cell.index % line.step != 0 || cell.index / line.step >= line.count {
            continue;
        }
        match order_in_kind(&cell.value, sought) {
            None => continue,
            Some(order) => {
                last = taken_at(mode, last, cell.index / line.step, order);
                if is_end(mode, order) {
                    return last;
                }
            }
        }
    }
    last
}

// What is taken after an item at this place that compares so.
fn taken_at(mode: Mode, last: Option<u64>, at: u64, order: Ordering) -> Option<u64>
    ensures { result ≡ taken_at mode last at order }
{
    if takes(mode, order) { Some(at) } else { last }
}

// Whether an item that compares so is taken, as long as no better one follows.
fn takes(mode: Mode, order: Ordering) -> bool
    ensures { result ≡ takes mode order }
{
    match mode {
        Mode::Exact => order.is_eq(),
        Mode::Rising => order.is_le(),
        Mode::Falling => order.is_ge(),
    }
}

// Whether the look-up ends at an item that compares so.
fn is_end(mode: Mode, order: Ordering) -> bool
    ensures { result ≡ is_end mode order }
{
    match mode {
        Mode::Exact => order.is_eq(),
        Mode::Rising => order.is_gt(),
        Mode::Falling => order.is_lt(),
    }
}
