// Stores that are timed.

use crate::onward::Onward;
use crate::reading::read_tree;
use cell_addr::{Place, ROWS};
use formula_tree::{Home, Pool};
use lazy_store::Lazy;
use shift_core::Shift;
use std::alloc::{AllocError, Global};
use std::io;
use std::time::Instant;

// The row after the last one of a block that loses rows at its end, as the text below has it.
const BLOCK_ROWS: u32 = 30_000;

const BLOCK: &str = "=SUM(B1:B30000)";

const FIRST_CELL: Place = Place {
    sheet: 0,
    row: 0,
    col: 0,
};

/// Times a store of so many formulas over so many operations, and prints what each part took, in nanoseconds: putting the
/// formulas in, the operations, reading one formula over all of them; and, with one formula that loses something over each
/// operation, reading it over all of them and back. Whether both numbers are given, and the formulas could be read.
pub(crate) fn run(rt: &HostRuntime, formulas: &str, operations: Option<u32>) -> io::Result<bool> {
    let (Ok(formulas), Some(operations)) = (formulas.parse::<u64>(), operations) else {
        return Ok(false);
    };
    time_both(rt, formulas, u64::from(operations))
}

// Times a store of so many formulas, and one of a single formula; whether both could be read.
fn time_both(rt: &HostRuntime, formulas: u64, operations: u64) -> io::Result<bool> {
    let mut pool = Pool::new(rt.alloc())?;
    time_stores(rt, &mut pool, formulas, operations)
}

// The same, with a pool of their trees.
fn time_stores(
    rt: &HostRuntime,
    pool: &mut Pool,
    formulas: u64,
    operations: u64,
) -> io::Result<bool> {
    let many = time_many(rt, pool, formulas, operations)?;
    let one = time_one(rt, pool, operations)?;
    Ok(many && one)
}

// Times a store of so many formulas; whether one of them could be read.
fn time_many(
    rt: &HostRuntime,
    pool: &mut Pool,
    formulas: u64,
    operations: u64,
) -> io::Result<bool> {
    let mut many = Onward::new(rt.alloc())?;
    time_calls(rt, &mut many, pool, formulas, operations)?;
    let mut store = many.into_store();
    time_read(rt, "read", &mut store, pool)
}

// Fills a store and puts operations on its line, and prints how long each of both took.
fn time_calls(
    rt: &HostRuntime,
    store: &mut Onward,
    pool: &mut Pool,
    formulas: u64,
    operations: u64,
) -> io::Result<()> {
    let start = Instant::now(rt)?;
    fill(rt.alloc(), store, pool, formulas)?;
    println!(rt; "formulas {}", start.elapsed(rt)?.as_nanos())?;
    let start = Instant::now(rt)?;
    insert_rows(store, pool, operations)?;
    println!(rt; "operations {}", start.elapsed(rt)?.as_nanos())
}

// Times a store of one formula that loses something over each operation; whether it could be read.
fn time_one(rt: &HostRuntime, pool: &mut Pool, operations: u64) -> io::Result<bool> {
    let mut one = Onward::new(rt.alloc())?;
    lose_rows(rt.alloc(), &mut one, pool, operations)?;
    let mut store = one.into_store();
    time_both_ways(rt, &mut store, pool)
}

// Reads the formula under the id 0 at the last position and then at the first; whether it could be read at both.
fn time_both_ways(rt: &HostRuntime, store: &mut Lazy, pool: &mut Pool) -> io::Result<bool> {
    let on = time_read(rt, "losing", store, pool)?;
    to_first(store);
    let back = time_read(rt, "back", store, pool)?;
    Ok(on && back)
}

// Reads the formula under the id 0, and prints how long that took; whether it could be read.
fn time_read(rt: &HostRuntime, name: &str, store: &mut Lazy, pool: &mut Pool) -> io::Result<bool> {
    let cursor = store.line().cursor();
    if store.is_live(0) != Some(true) || store.tree_at(pool, 0, cursor)?.is_none() {
        return Ok(false);
    }
    let start = Instant::now(rt)?;
    let _tree = store.read(pool, 0)?;
    println!(rt; "{name} {}", start.elapsed(rt)?.as_nanos())?;
    Ok(true)
}

// Moves the cursor to the first position.
fn to_first(store: &mut Lazy) {
    let (first, last) = (store.line().first(), store.line().last());
    if first <= last {
        store.move_cursor(first);
    }
}

// Puts so many formulas into a store, each in a cell of its own.
fn fill(
    alloc: Global,
    store: &mut Onward,
    pool: &mut Pool,
    formulas: u64,
) -> Result<(), AllocError> {
    'formulas: for id in 0..formulas {
        let row = (id % u64::from(ROWS)) as u32;
        let col = u32::try_from(id / u64::from(ROWS)).unwrap_or(u32::MAX);
        put(
            alloc,
            store,
            pool,
            id,
            Place { sheet: 0, row, col },
            "=$B$5",
        )?;
    }
    Ok(())
}

// Puts the formula that the text spells in a cell into a store.
fn put(
    alloc: Global,
    store: &mut Onward,
    pool: &mut Pool,
    id: u64,
    cell: Place,
    text: &str,
) -> Result<(), AllocError> {
    if !cell.inside() {
        return Ok(());
    }
    match read_tree(alloc, pool, Home::Cell(cell), text)? {
        Some(tree) => store.insert(id, Home::Cell(cell), tree),
        None => Ok(()),
    }
}

// Puts one row before row 2, so many times.
fn insert_rows(store: &mut Onward, pool: &mut Pool, operations: u64) -> Result<(), AllocError> {
    'operations: for _ in 0..operations {
        store.shift(
            pool,
            Shift::InsertRows {
                sheet: 0,
                at: 1,
                count: 1,
            },
        )?;
    }
    Ok(())
}

// Puts a formula into a store, with a block that loses its last row over each of so many operations.
fn lose_rows(
    alloc: Global,
    store: &mut Onward,
    pool: &mut Pool,
    operations: u64,
) -> Result<(), AllocError> {
    put(alloc, store, pool, 0, FIRST_CELL, BLOCK)?;
    'operations: for gone in 1..=operations {
        if let Some(at) = last_row(gone) {
            store.shift(
                pool,
                Shift::DeleteRows {
                    sheet: 0,
                    at,
                    count: 1,
                },
            )?;
        }
    }
    Ok(())
}

// The row that goes as the one of this number, counted from 1: the last one that the block has left.
fn last_row(gone: u64) -> Option<u32> {
    BLOCK_ROWS.checked_sub(u32::try_from(gone).ok()?)
}
