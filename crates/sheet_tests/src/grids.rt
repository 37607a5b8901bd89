// Cells over structural operations, as the tables of moved places have them, reckoned by hand.
ghost use Rattle.shift_core.specs.Sound.{IsSound};

use cell_addr::{Block, Place, Text};
use cell_value::Scalar;
use fix_num::Fixed;
use grid_store::{Cell, CellList, Grid};
use shift_core::{Shift, sound};
use std::alloc::{AllocError, Global};

pub(crate) type Spot = (u32, u32, u32);

// The place of a sheet, a row and a column.
fn place(at: Spot) -> Place {
    Place {
        sheet: at.0,
        row: at.1,
        col: at.2,
    }
}

// Puts a cell at each place, which holds the number of its place in the list.
pub(crate) fn fill(grid: &mut Grid<Cell>, places: &[Spot]) -> Result<(), AllocError> {
    for (number, at) in places.iter().enumerate() {
        let at = place(*at);
        if at.inside() {
            grid.put(at, Cell::Formula(number as u64))?;
        }
    }
    Ok(())
}

// Whether the grid has these cells, each with this number, and no others.
pub(crate) fn has(grid: &Grid<Cell>, cells: &[(Spot, u64)]) -> bool {
    let all = cells.iter().all(|cell| stands(grid, cell.0, cell.1));
    all && grid.filled() == cells.len() as u64
}

// Whether the cell with the number is at the place.
fn stands(grid: &Grid<Cell>, at: Spot, number: u64) -> bool {
    match grid.cell(place(at)) {
        Some(Cell::Formula(held)) => *held == number,
        _ => false,
    }
}

// Whether the list has these places, in order.
fn lists(list: &CellList<Cell>, places: &[Spot]) -> bool {
    let mut rest = places;
    for (at, _) in list.items() {
        match rest {
            [first, others @ ..] if place(*first) == *at => rest = others,
            _ => return false,
        }
    }
    rest.is_empty()
}

pub(crate) const FILLED: [Spot; 7] = [
    (0, 0, 0),
    (0, 3, 1),
    (0, 3, 2),
    (0, 4, 0),
    (0, 9, 5),
    (0, 1_048_575, 18_277),
    (1, 3, 1),
];

pub(crate) const AS_FILLED: [(Spot, u64); 7] = [
    ((0, 0, 0), 0),
    ((0, 3, 1), 1),
    ((0, 3, 2), 2),
    ((0, 4, 0), 3),
    ((0, 9, 5), 4),
    ((0, 1_048_575, 18_277), 5),
    ((1, 3, 1), 6),
];

// An operation, the cells after it, and the places of the removed ones.
pub(crate) type Operation = (Shift, &'static [(Spot, u64)], &'static [Spot]);

pub(crate) const OPERATIONS: &[Operation] = &[
    (
        Shift::DeleteRows {
            sheet: 0,
            at: 3,
            count: 2,
        },
        &[
            ((0, 0, 0), 0),
            ((0, 7, 5), 4),
            ((0, 1_048_573, 18_277), 5),
            ((1, 3, 1), 6),
        ],
        &[(0, 3, 1), (0, 3, 2), (0, 4, 0)],
    ),
    (
        Shift::InsertRows {
            sheet: 0,
            at: 4,
            count: 3,
        },
        &[
            ((0, 0, 0), 0),
            ((0, 3, 1), 1),
            ((0, 3, 2), 2),
            ((0, 7, 0), 3),
            ((0, 12, 5), 4),
            ((1, 3, 1), 6),
        ],
        &[(0, 1_048_575, 18_277)],
    ),
    (
        Shift::MoveRows {
            sheet: 0,
            from: 3,
            count: 1,
            before: 10,
        },
        &[
            ((0, 0, 0), 0),
            ((0, 3, 0), 3),
            ((0, 8, 5), 4),
            ((0, 9, 1), 1),
            ((0, 9, 2), 2),
            ((0, 1_048_575, 18_277), 5),
            ((1, 3, 1), 6),
        ],
        &[],
    ),
    (
        Shift::InsertCols {
            sheet: 0,
            at: 2,
            count: 4,
        },
        &[
            ((0, 0, 0), 0),
            ((0, 3, 1), 1),
            ((0, 3, 6), 2),
            ((0, 4, 0), 3),
            ((0, 9, 9), 4),
            ((1, 3, 1), 6),
        ],
        &[(0, 1_048_575, 18_277)],
    ),
    (
        Shift::DeleteCols {
            sheet: 0,
            at: 0,
            count: 2,
        },
        &[
            ((0, 3, 0), 2),
            ((0, 9, 3), 4),
            ((0, 1_048_575, 18_275), 5),
            ((1, 3, 1), 6),
        ],
        &[(0, 0, 0), (0, 3, 1), (0, 4, 0)],
    ),
    (
        Shift::MoveCols {
            sheet: 0,
            from: 1,
            count: 2,
            before: 0,
        },
        &[
            ((0, 0, 2), 0),
            ((0, 3, 0), 1),
            ((0, 3, 1), 2),
            ((0, 4, 2), 3),
            ((0, 9, 5), 4),
            ((0, 1_048_575, 18_277), 5),
            ((1, 3, 1), 6),
        ],
        &[],
    ),
    (
        Shift::MoveBlock {
            source: Block {
                sheet: 0,
                top: 3,
                left: 0,
                bottom: 4,
                right: 1,
            },
            to: Place {
                sheet: 0,
                row: 3,
                col: 1,
            },
        },
        &[
            ((0, 0, 0), 0),
            ((0, 3, 2), 1),
            ((0, 4, 1), 3),
            ((0, 9, 5), 4),
            ((0, 1_048_575, 18_277), 5),
            ((1, 3, 1), 6),
        ],
        &[(0, 3, 2)],
    ),
    (
        Shift::DropSheet { sheet: 1 },
        &[
            ((0, 0, 0), 0),
            ((0, 3, 1), 1),
            ((0, 3, 2), 2),
            ((0, 4, 0), 3),
            ((0, 9, 5), 4),
            ((0, 1_048_575, 18_277), 5),
        ],
        &[(1, 3, 1)],
    ),
];

// Takes the operation back. Whether the grid has its cells again.
fn goes_back(
    grid: &mut Grid<Cell>,
    shift: &Shift,
    removed: CellList<Cell>,
) -> Result<bool, AllocError>
    requires { IsSound shift.now }
{
    if !removed.inside() {
        return Ok(false);
    }
    grid.put_back(shift, removed)?;
    Ok(has(grid, &AS_FILLED))
}

// Does the operation and takes it back. Whether the right cells move, and the right ones are removed.
fn is_done(grid: &mut Grid<Cell>, operation: &Operation) -> Result<bool, AllocError>
    requires { IsSound operation.now.0 }
{
    let (shift, cells, places) = operation;
    let removed = grid.apply(shift)?;
    let is_right = has(grid, cells) && lists(&removed, places);
    Ok(is_right && goes_back(grid, shift, removed)?)
}

// The same, and whether a copy of the grid stays as it is.
fn is_done_beside_copy(grid: &mut Grid<Cell>, operation: &Operation) -> Result<bool, AllocError>
    requires { IsSound operation.now.0 }
{
    let copy = grid.copied()?;
    Ok(is_done(grid, operation)? && has(&copy, &AS_FILLED))
}

// The same in a new grid.
fn is_done_in_new(alloc: Global, operation: &Operation) -> Result<bool, AllocError> {
    let mut grid = Grid::new(alloc)?;
    fill(&mut grid, &FILLED)?;
    Ok(sound(&operation.0) && is_done_beside_copy(&mut grid, operation)?)
}

#[test]
fn operations_are_done_and_taken_back(rt: HostRuntime) -> Result<(), AllocError> {
    for operation in OPERATIONS {
        assert!(rt; is_done_in_new(rt.alloc(), operation)?);
    }
    Ok(())
}

const ROW_IN_FIRST: Shift = Shift::InsertRows {
    sheet: 0,
    at: 10,
    count: 1,
};

const ROW_IN_SECOND: Shift = Shift::InsertRows {
    sheet: 1,
    at: 10,
    count: 1,
};

const LOWER_ROWS: Block = Block {
    sheet: 0,
    top: 3,
    left: 0,
    bottom: 1_048_575,
    right: 5,
};

const IN_LOWER_ROWS: [Spot; 4] = [(0, 3, 1), (0, 3, 2), (0, 4, 0), (0, 9, 5)];

// Whether the cells of the lower rows are listed.
fn are_listed(grid: &Grid<Cell>) -> Result<bool, AllocError> {
    let list = grid.listed(LOWER_ROWS)?;
    Ok(lists(&list, &IN_LOWER_ROWS))
}

const SEEN_IN_LOWER_ROWS: [(Spot, u64); 4] = [
    ((0, 3, 1), 1),
    ((0, 3, 2), 2),
    ((0, 4, 0), 3),
    ((0, 9, 5), 4),
];

// Whether these are the cells with their numbers, in order.
fn sees(cells: &[(Place, &Cell)], expected: &[(Spot, u64)]) -> bool {
    let mut rest = expected;
    for (at, cell) in cells {
        match rest {
            [(spot, number), others @ ..] if place(*spot) == *at && holds(cell, *number) => {
                rest = others
            }
            _ => return false,
        }
    }
    rest.is_empty()
}

// Whether the cell holds the number.
fn holds(cell: &Cell, number: u64) -> bool {
    match cell {
        Cell::Formula(held) => *held == number,
        _ => false,
    }
}

// Whether the cells of the lower rows are listed by reference.
fn are_seen(grid: &Grid<Cell>) -> Result<bool, AllocError> {
    let cells = grid.listed_refs(LOWER_ROWS)?;
    Ok(sees(&cells, &SEEN_IN_LOWER_ROWS))
}

// Takes the cells of the lower rows out. Whether they are listed, and the others stay.
fn are_cleared(grid: &mut Grid<Cell>) -> Result<bool, AllocError> {
    let list = grid.clear(LOWER_ROWS)?;
    Ok(lists(&list, &IN_LOWER_ROWS) && grid.filled() == 3)
}

// Takes the first cell out, and none off the sheet. Whether the others stay.
fn is_taken(grid: &mut Grid<Cell>) -> bool {
    let is_out = grid.take(place((0, 0, 0))).is_some();
    is_out && grid.take(place((0, 1_048_576, 0))).is_none() && grid.filled() == 2
}

// Whether the grid lists its cells and is emptied of them.
fn is_emptied(grid: &mut Grid<Cell>) -> Result<bool, AllocError> {
    let is_pushed = grid.pushed_off(&ROW_IN_FIRST) && !grid.pushed_off(&ROW_IN_SECOND);
    Ok(is_pushed && are_seen(grid)? && are_listed(grid)? && are_cleared(grid)? && is_taken(grid))
}

#[test]
fn cells_are_filled_listed_and_emptied(rt: HostRuntime) -> Result<(), AllocError> {
    let mut grid = Grid::new(rt.alloc())?;
    fill(&mut grid, &FILLED)?;
    assert!(rt; is_emptied(&mut grid)?);
    Ok(())
}

const ROWS_OUT: Shift = Shift::DeleteRows {
    sheet: 0,
    at: 2,
    count: 2,
};

// Puts a value at the place, if it is on a sheet.
fn put_value(grid: &mut Grid<Scalar>, at: Spot, value: Scalar) -> Result<(), AllocError> {
    let at = place(at);
    if at.inside() {
        grid.put(at, value)?;
    }
    Ok(())
}

// Deletes rows. Whether the value above them stays and the one in them is handed out.
fn are_values_carried(grid: &mut Grid<Scalar>, shift: &Shift) -> Result<bool, AllocError>
    requires { IsSound shift.now }
{
    let removed = grid.apply(shift)?;
    let first = grid.cell(place((0, 1, 1)));
    Ok(is_text(first, "ab") && removed.items().len() == 1 && grid.filled() == 1)
}

// Whether the value is this text.
fn is_text(value: Option<&Scalar>, expected: &str) -> bool {
    match value {
        Some(Scalar::Text(text)) => text.as_str() == expected,
        _ => false,
    }
}

#[test]
fn values_are_carried(rt: HostRuntime) -> Result<(), AllocError> {
    let text = Text::from_str(rt.alloc(), "ab")?;
    let mut grid = Grid::new(rt.alloc())?;
    put_value(&mut grid, (0, 1, 1), Scalar::Text(text))?;
    put_value(&mut grid, (0, 3, 1), Scalar::Truth(true))?;
    assert!(rt; sound(&ROWS_OUT) && are_values_carried(&mut grid, &ROWS_OUT)?);
    Ok(())
}

// Whether the copy of a cell has the text.
fn copy_has(alloc: Global, cell: &Cell, expected: &str) -> Result<bool, AllocError> {
    match cell.copied(alloc)? {
        Cell::Text(text) => Ok(text.as_str() == expected),
        _ => Ok(false),
    }
}

// Whether the list's one cell has a copy with the text.
fn one_has(alloc: Global, list: &CellList<Cell>, expected: &str) -> Result<bool, AllocError> {
    match list.items() {
        [(_, cell)] => copy_has(alloc, cell, expected),
        _ => Ok(false),
    }
}

// Whether a number's copy is a number.
fn number_is_copied(alloc: Global) -> Result<bool, AllocError> {
    match Cell::Number(Fixed::ONE).copied(alloc)? {
        Cell::Number(_) => Ok(true),
        _ => Ok(false),
    }
}

#[test]
fn cells_are_copied(rt: HostRuntime) -> Result<(), AllocError> {
    let text = Text::from_str(rt.alloc(), "ab")?;
    let mut list = CellList::new(rt.alloc())?;
    list.push(place((0, 1, 1)), Cell::Text(text))?;
    assert!(rt; one_has(rt.alloc(), &list, "ab")?);
    assert!(rt; number_is_copied(rt.alloc())?);
    Ok(())
}
