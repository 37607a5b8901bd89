// How long a grid takes over a hundred thousand edits of its lines, and over single ones beside many cells.
use cell_addr::{Block, Place};
use cell_value::Scalar;
use fix_num::Fixed;
use grid_store::Grid;
use shift_core::{Shift, sound};
use std::alloc::{AllocError, Global};
use std::io;
use std::time::Instant;

// How many columns are filled of each row.
const FILLED_COLS: u32 = 100;

// By how many lines two edits that follow one another lie apart.
const APART: u32 = 7_919;

// What is done again and again, at places that lie apart.
#[derive(Clone, Copy)]
enum Edits {
    // A row is put in, and the next time one is deleted, among so many.
    Rows(u32),
    // A row is moved, among so many.
    Moves(u32),
    // A column is put in, and the next time deleted.
    Columns,
    // A block of 10 by 10 cells is moved.
    Blocks,
}

// The edits with what they are, how many cells are filled, how many stretches of edits are done, and how long each is.
const CASES: [(Edits, &'static str, u32, u32, u32); 8] = [
    (
        Edits::Rows(10_000),
        "rows put in and deleted",
        10_000,
        10,
        10_000,
    ),
    (Edits::Moves(10_000), "rows moved", 10_000, 10, 10_000),
    (
        Edits::Columns,
        "columns put in and deleted",
        10_000,
        1,
        1_000,
    ),
    (
        Edits::Columns,
        "columns put in and deleted",
        100_000,
        1,
        1_000,
    ),
    (
        Edits::Columns,
        "columns put in and deleted",
        1_000_000,
        1,
        1_000,
    ),
    (Edits::Blocks, "blocks of 10 by 10 moved", 10_000, 1, 1_000),
    (Edits::Blocks, "blocks of 10 by 10 moved", 100_000, 1, 1_000),
    (
        Edits::Blocks,
        "blocks of 10 by 10 moved",
        1_000_000,
        1,
        1_000,
    ),
];

/// Times all cases, and prints a line for each stretch of edits.
pub(crate) fn run(rt: &HostRuntime) -> io::Result<bool> {
    'cases: for &(edits, name, cells, stretches, length) in &CASES {
        let mut grid = filled(rt.alloc(), cells)?;
        time_stretches(rt, &mut grid, (edits, name, cells, stretches, length))?;
    }
    Ok(true)
}

// Times the stretches of a case over its grid, and prints a line for each.
fn time_stretches(
    rt: &HostRuntime,
    grid: &mut Grid<Scalar>,
    case: (Edits, &str, u32, u32, u32),
) -> io::Result<()> {
    let (edits, name, cells, stretches, length) = case;
    'stretches: for stretch in 0..stretches {
        let from = stretch.wrapping_mul(length);
        let time = time_stretch(rt, grid, edits, from, length)?;
        println!(rt; "{cells} cells, {name}, from {from} on: {time} ns")?;
    }
    Ok(())
}

// How many nanoseconds an edit takes, over so many from that of a number on.
fn time_stretch(
    rt: &HostRuntime,
    grid: &mut Grid<Scalar>,
    edits: Edits,
    from: u32,
    length: u32,
) -> io::Result<u128> {
    let start = Instant::now(rt)?;
    edits.apply(grid, from, length)?;
    Ok(start.elapsed(rt)?.as_nanos() / u128::from(length.max(1)))
}

// A grid of so many cells, row by row.
fn filled(alloc: Global, cells: u32) -> Result<Grid<Scalar>, AllocError> {
    let mut grid = Grid::new(alloc)?;
    'cells: for number in 0..cells {
        let at = Place {
            sheet: 0,
            row: number / FILLED_COLS,
            col: number % FILLED_COLS,
        };
        if at.inside() {
            grid.put(at, Scalar::from(Fixed::from_int(1)))?;
        }
    }
    Ok(grid)
}

impl Edits {
    // Does so many edits, from that of a number on.
    fn apply(self, grid: &mut Grid<Scalar>, from: u32, count: u32) -> Result<(), AllocError> {
        'edits: for number in from..from.saturating_add(count) {
            let s = self.operation(number);
            if sound(&s) {
                grid.apply(&s)?;
            }
        }
        Ok(())
    }

    // The edit of a number.
    fn operation(self, number: u32) -> Shift {
        let apart = number.wrapping_mul(APART);
        match self {
            Edits::Rows(rows) => in_or_out(number, apart % rows.max(1)),
            Edits::Moves(rows) => Shift::MoveRows {
                sheet: 0,
                from: apart % rows.max(1),
                count: 1,
                before: number.wrapping_mul(APART + 2) % rows.max(1),
            },
            Edits::Columns => column_in_or_out(
                number,
                (number / 2).wrapping_mul(APART) % FILLED_COLS,
            ),
            Edits::Blocks => block_moved(
                number,
                (number / 2).wrapping_mul(APART) % (FILLED_COLS - 10),
            ),
        }
    }
}

// Every other time a row is put in, else one is deleted.
fn in_or_out(number: u32, at: u32) -> Shift {
    if number % 2 == 0 {
        Shift::InsertRows {
            sheet: 0,
            at,
            count: 1,
        }
    } else {
        Shift::DeleteRows {
            sheet: 0,
            at,
            count: 1,
        }
    }
}

// Every other time a column is put in, which the next time is deleted.
fn column_in_or_out(number: u32, at: u32) -> Shift {
    if number % 2 == 0 {
        Shift::InsertCols {
            sheet: 0,
            at,
            count: 1,
        }
    } else {
        Shift::DeleteCols {
            sheet: 0,
            at,
            count: 1,
        }
    }
}

// Every other time a block is moved down, which the next time is moved back.
fn block_moved(number: u32, left: u32) -> Shift {
    let (from, to) = if number % 2 == 0 { (10, 40) } else { (40, 10) };
    Shift::MoveBlock {
        source: Block {
            sheet: 0,
            top: from,
            left,
            bottom: from.saturating_add(9),
            right: left.saturating_add(9),
        },
        to: Place {
            sheet: 0,
            row: to,
            col: left,
        },
    }
}
