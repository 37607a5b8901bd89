// Levels that are read one after the other, and a table that is put on them.
ghost use Rattle.std.specs.Prelude.{◌≡◌, ◌<◌, ◌+◌, ◌-◌, ◌∷◌, ℕ, true, min, IfOk, IfSome, is_some, option_and_then};
ghost use Rattle.stable_lines.specs.Runs.{image};
ghost use Rattle.stable_lines.specs.internal.Levels.{IsLed, all_runs, back_through, runs_of, through};
ghost use Rattle.stable_lines.specs.internal.Tables.{IsFound, is_table};

use crate::composed::composed;
use crate::level::Level;
use crate::run::{Run, image, run_with};
use std::alloc::{AllocError, Global};
use std::rc::Rc;

// Levels from the nearest to the farthest.
pub(crate) type Far = Rc<Vec<Level>>;

// A level has at least so many times the runs of the one before it.
const GROWTH: usize = 8;

// Where the levels lead, one after the other.
pub(crate) fn through(far: &[Level], number: u64) -> Option<u64>
    ensures { result ≡ through (all_runs far.now) number }
{
    match far.split_first() {
        Some((level, farther)) => through(farther, image(level.runs(), number)?),
        None => Some(number),
    }
}

// Where they lead from the farthest to the nearest.
pub(crate) fn back_through(far: &[Level], number: u64) -> Option<u64>
    ensures { result ≡ back_through (all_runs far.now) number }
{
    match far.split_first() {
        Some((level, farther)) => image(level.runs(), back_through(farther, number)?),
        None => Some(number),
    }
}

// The levels with a table before them, composed with those that don't have several times its runs.
pub(crate) fn deepened(alloc: Global, table: Vec<Run>, far: &[Level]) -> Result<Far, AllocError>
    requires table { is_table 0 table.items ≡ true }
    ensures { IfOk result (λ new. (x : ℕ) → through (all_runs new.value.items) x ≡ option_and_then (through (all_runs far.now)) (image table.items x)) }
{
    match far.split_first() {
        Some((nearest, farther)) if are_few(nearest.runs(), &table) => {
            let merged = composed(alloc, &table, nearest.runs())?;
            deepened(alloc, merged, farther)
        }
        _ => with_level(alloc, table, far),
    }
}

// The levels with a table behind their nearest, composed in the same way.
pub(crate) fn deepened_back(
    alloc: Global,
    table: Vec<Run>,
    far: &[Level],
) -> Result<Far, AllocError>
    requires table { is_table 0 table.items ≡ true }
    ensures { IfOk result (λ new. (x : ℕ) → back_through (all_runs new.value.items) x ≡ option_and_then (image table.items) (back_through (all_runs far.now) x)) }
{
    match far.split_first() {
        Some((nearest, farther)) if are_few(nearest.runs(), &table) => {
            let merged = composed(alloc, nearest.runs(), &table)?;
            deepened_back(alloc, merged, farther)
        }
        _ => with_level(alloc, table, far),
    }
}

// Whether a level has fewer runs than several times those of the table.
fn are_few(level: &[Run], table: &[Run]) -> bool {
    level.len() / GROWTH < table.len()
}

// The levels with a table as the nearest.
fn with_level(alloc: Global, table: Vec<Run>, far: &[Level]) -> Result<Far, AllocError>
    requires { is_table 0 table.items ≡ true }
    ensures { IfOk result (λ new. all_runs new.value.items ≡ table.items ∷ all_runs far.now) }
{
    let mut levels = Vec::new(alloc);
    levels.push(Level::new(alloc, table)?)?;
    for level in far {
        levels.push(level.clone()?)?;
    }
    Ok(Rc::new(alloc, levels)?)
}

// The lines that a run leads to by the levels, as far as they follow one another; None where the first leads nowhere.
pub(crate) fn led(far: &[Level], run: Run) -> Option<Run>
    requires some { 0 < run.count }
    requires sum { run.to + run.count < 18446744073709551616 }
    ensures some { is_some result ≡ is_some (through (all_runs far.now) run.to) }
    ensures led { IfSome result (IsLed (all_runs far.now) run) }
    ensures sum { IfSome result (λ led. led.to + led.count < 18446744073709551616) }
{
    match far.split_first() {
        Some((level, farther)) => {
            let next = run_with(level.runs(), run.to)?;
            led(farther, part_from(next, run))
        }
        None => Some(run),
    }
}

// The part of the next run that a run leads to, under the numbers of the run.
pub(crate) fn part_from(next: Run, run: Run) -> Run
    requires { IsFound next run.to }
    ensures from { result.from ≡ run.from }
    ensures to { result.to ≡ next.to + (run.to - next.from) }
    ensures count { result.count ≡ min (next.count - (run.to - next.from)) run.count }
{
    let passed = run.to - next.from;
    Run {
        from: run.from,
        to: next.to + passed,
        count: (next.count - passed).min(run.count),
    }
}
