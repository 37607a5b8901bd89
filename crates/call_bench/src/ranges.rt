// How long kept summaries take: of growing, rolling and single blocks, and over rows that are put in.
ghost use Rattle.std.specs.Prelude.{◌≡◌, ◌++◌, OnOk};
ghost use Rattle.cell_addr.specs.Place.{IsBlockInside};
ghost use Rattle.range_table.specs.Cells.{nonempty, row_values, seen_values};
ghost use Rattle.range_table.specs.Ranges.{table_of};
ghost use Rattle.range_table.specs.Table.{AreFolds};

use cell_addr::{Block, Place};
use cell_value::Scalar;
use fix_num::Fixed;
use range_table::{ListedCells, Ranges, add_nonempty};
use shift_core::{Shift, sound};
use std::alloc::{AllocError, Global};
use std::io;
use std::sync::ledger::Ledger;
use std::time::Instant;
use steps::Steps;

// Cells that all have one value.
#[derive(Drop)]
struct Alike {
    alloc: Global,
    value: Scalar,
}

impl Alike {
    // The value of a place.
    fn value_at(&self, _at: Place) -> &Scalar
        ensures { result.now ≡ self.now.value }
    {
        &self.value
    }

    // Adds the values of one row of a block, unless they are empty.
    fn list_row<'a>(
        &'a self,
        b: Block,
        row: u32,
        list: &mut Vec<&'a Scalar>,
    ) -> Result<(), AllocError>
        requires { IsBlockInside b }
        ensures { OnOk result (seen_values list.new.items ≡ seen_values list.old.items ++ nonempty (row_values (λ at. self.now.value) b row)) }
    {
        'cols: for col in b.left..b.right + 1 {
            let at = Place {
                sheet: b.sheet,
                row,
                col,
            };
            add_nonempty(self.value_at(at), list)?;
        }
        Ok(())
    }
}

impl ListedCells for Alike {
    ghost values = { λ cells at. cells.value };

    fn value(&self, at: Place) -> &Scalar {
        self.value_at(at)
    }

    fn listed(&self, b: Block) -> Result<Vec<&Scalar>, AllocError> {
        let mut list = Vec::new(self.alloc);
        'rows: for row in b.top..b.bottom + 1 {
            self.list_row(b, row, &mut list)?;
        }
        Ok(list)
    }

    fn filled(&self) -> u64 {
        u64::MAX
    }
}

// Such cells, and the summaries that are kept of them.
#[derive(Drop)]
struct Summed {
    cells: Alike,
    ranges: Ranges,
    ghost right: { AreFolds (λ at. cells.value) (table_of ranges).kept },
}

impl Summed {
    fn new(alloc: Global) -> Result<Summed, AllocError> {
        Ok(Summed {
            cells: Alike {
                alloc,
                value: Scalar::from(Fixed::from_int(1)),
            },
            ranges: Ranges::new(alloc)?,
        })
    }

    // Asks for the summary of a block, where it is on the sheet.
    fn ask<L: Ledger>(&mut self, b: Block, steps: &mut Steps<L>) -> Result<(), AllocError> {
        if b.inside() {
            self.ranges.summary(b, &self.cells, steps)?;
        }
        Ok(())
    }

    // Asks for the sums of the first rows of a column, of one more each time.
    fn ask_prefixes<L: Ledger>(
        &mut self,
        rows: u32,
        steps: &mut Steps<L>,
    ) -> Result<(), AllocError> {
        'rows: for bottom in 0..rows {
            self.ask(column(0, 0, bottom), steps)?;
        }
        Ok(())
    }

    // Puts a row in.
    fn insert(&mut self, at: u32) -> Result<(), AllocError> {
        let shift = Shift::InsertRows {
            sheet: 0,
            at,
            count: 1,
        };
        if sound(&shift) {
            self.ranges.shift(&shift)?;
        }
        Ok(())
    }
}

// Rows of a column.
fn column(col: u32, top: u32, bottom: u32) -> Block {
    Block {
        sheet: 0,
        top,
        left: col,
        bottom,
        right: col,
    }
}

// What is timed.
#[derive(Clone, Copy)]
enum Case {
    // The sums of the first rows, one more each time.
    Prefixes(u32),
    // The sums of so many rows, from each of so many rows on.
    Rolling(u32, u32),
    // The sum of so many columns of so many cells.
    Columns(u32, u32),
    // So many rows put in at places that lie apart, among so many sums of first rows.
    Inserts(u32, u32),
}

const CASES: [(Case, &'static str); 6] = [
    (Case::Prefixes(1_000), "prefix sums of 1,000 rows"),
    (Case::Prefixes(10_000), "prefix sums of 10,000 rows"),
    (Case::Prefixes(40_000), "prefix sums of 40,000 rows"),
    (
        Case::Rolling(1_001, 10_000),
        "10,000 rolling sums over 1,001 rows",
    ),
    (Case::Columns(200, 5_000), "200 columns of 5,000 cells"),
    (
        Case::Inserts(100, 10_000),
        "100 rows put in among 10,000 prefix sums",
    ),
];

/// Times all cases, and prints a line for each.
pub(crate) fn run<L: Ledger>(rt: &HostRuntime, steps: &mut Steps<L>) -> io::Result<bool> {
    'cases: for &(case, shows) in &CASES {
        let mut summed = Summed::new(rt.alloc())?;
        let time = time_case(rt, &mut summed, case, steps)?;
        let merged = summed.ranges.merged();
        println!(rt; "{shows}: {time} microseconds, {merged} cells merged in all")?;
    }
    Ok(true)
}

// How many microseconds a case takes.
fn time_case<L: Ledger>(
    rt: &HostRuntime,
    summed: &mut Summed,
    case: Case,
    steps: &mut Steps<L>,
) -> io::Result<u128> {
    if let Case::Inserts(_, rows) = case {
        summed.ask_prefixes(rows, steps)?;
    }
    let start = Instant::now(rt)?;
    ask_for(summed, case, steps)?;
    Ok(start.elapsed(rt)?.as_micros())
}

// Asks for what a case asks for.
fn ask_for<L: Ledger>(
    summed: &mut Summed,
    case: Case,
    steps: &mut Steps<L>,
) -> Result<(), AllocError> {
    match case {
        Case::Prefixes(rows) => summed.ask_prefixes(rows, steps),
        Case::Rolling(rows, from) => roll(summed, rows, from, steps),
        Case::Columns(columns, rows) => ask_columns(summed, columns, rows, steps),
        Case::Inserts(times, rows) => insert_apart(summed, times, rows),
    }
}

// Asks for the sums of so many rows from each row on.
fn roll<L: Ledger>(
    summed: &mut Summed,
    rows: u32,
    from: u32,
    steps: &mut Steps<L>,
) -> Result<(), AllocError> {
    'from: for top in 0..from {
        let last = top.saturating_add(rows).saturating_sub(1);
        summed.ask(column(0, top, last), steps)?;
    }
    Ok(())
}

// Asks for the sum of each column.
fn ask_columns<L: Ledger>(
    summed: &mut Summed,
    columns: u32,
    rows: u32,
    steps: &mut Steps<L>,
) -> Result<(), AllocError> {
    'columns: for col in 0..columns {
        summed.ask(column(col, 0, rows.saturating_sub(1)), steps)?;
    }
    Ok(())
}

// Puts rows in at places that lie apart, the last ones first.
fn insert_apart(summed: &mut Summed, times: u32, rows: u32) -> Result<(), AllocError> {
    'times: for time in 0..times {
        let at = rows.saturating_sub((rows / 100).saturating_mul(time));
        summed.insert(at)?;
    }
    Ok(())
}
