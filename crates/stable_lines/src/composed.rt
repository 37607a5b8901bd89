// Tables read one after the other, and tables with one more run.
ghost use Rattle.std.specs.Prelude.{◌≡◌, ◌++◌, ◌∷◌, [], true, ◌<◌, ◌≤◌, ◌+◌, ◌↔◌, IfOk, IsTrue, OnOk};
ghost use Rattle.stable_lines.specs.declared.run.Run.{Run};
ghost use Rattle.stable_lines.specs.internal.Turns.{IsTurn, swaps, turned_back, whole};
ghost use Rattle.stable_lines.specs.internal.Tables.{after_run, are_fit, composed, fits, is_table, part};

use crate::run::{Run, parted};
use crate::turn::Turn;
use std::alloc::{AllocError, Global};

// The lines at the `limit` positions of a sheet once they and the fresh ones behind them took a turn.
pub(crate) fn new_lines(
    alloc: Global,
    lines: &[Run],
    limit: u64,
    fresh: Run,
    turn: Turn,
) -> Result<Vec<Run>, AllocError>
    requires turn { IsTurn turn }
    requires limit { limit < 4294967296 }
    requires lines { is_table 0 (lines.now ++ fresh ∷ []) ≡ true }
    requires back { are_fit (composed (whole limit ∷ []) (swaps (turned_back turn))) ≡ true }
    ensures { IfOk result (λ table. table.items ≡ composed (composed (whole limit ∷ []) (swaps (turned_back turn))) (lines.now ++ fresh ∷ [])) }
{
    let sheet = [whole(limit)];
    let back = composed(alloc, &sheet, &turn.back().swaps())?;
    let longer = with_run(alloc, lines, fresh)?;
    composed(alloc, &back, &longer)
}

// Where the lines of a sheet stand, within its `limit` positions, once they and the fresh ones behind them took a turn.
pub(crate) fn new_positions(
    alloc: Global,
    positions: &[Run],
    limit: u64,
    fresh: Run,
    turn: Turn,
) -> Result<Vec<Run>, AllocError>
    requires turn { IsTurn turn }
    requires limit { limit < 4294967296 }
    requires positions { are_fit (positions.now ++ fresh ∷ []) ≡ true }
    requires forth { is_table 0 (composed (swaps turn) (whole limit ∷ [])) ≡ true }
    ensures { IfOk result (λ table. table.items ≡ composed (positions.now ++ fresh ∷ []) (composed (swaps turn) (whole limit ∷ []))) }
{
    let sheet = [whole(limit)];
    let forth = composed(alloc, &turn.swaps(), &sheet)?;
    let longer = with_run(alloc, positions, fresh)?;
    composed(alloc, &longer, &forth)
}

// The positions of a sheet as they are.
pub(crate) fn whole(limit: u64) -> Run
    ensures { result ≡ whole limit }
{
    Run {
        from: 0,
        to: 0,
        count: limit,
    }
}

// The table that leads where `second` leads from where `first` leads. Costs a search of `second` for each run of `first`,
// and the runs of the answer.
pub(crate) fn composed(alloc: Global, first: &[Run], second: &[Run]) -> Result<Vec<Run>, AllocError>
    requires first { are_fit first.now ≡ true }
    requires second { is_table 0 second.now ≡ true }
    ensures { IfOk result (λ table. table.items ≡ composed first.now second.now) }
{
    let mut table = Vec::new(alloc);
    for run in first {
        push_after(&mut table, *run, ending_behind(second, run.to))?;
    }
    Ok(table)
}

// The table from a run on in front of which each ends at the number or before it. By halving, the first run that ends
// behind the number is the one.
fn ending_behind(table: &[Run], number: u64) -> &[Run]
    requires { is_table 0 table.now ≡ true }
    ensures table { is_table 0 result.now ≡ true }
    ensures same { (run : Run) → number ≤ run.to → after_run run result.now ≡ after_run run table.now }
{
    let mut rest = table;
    let mut open = table.len();
    while open > 0 {
        let half = open / 2;
        match parted(rest, half) {
            Some((_, run, behind)) if ends_by(run, number) => {
                rest = behind;
                open -= half + 1;
            }
            _ => open = half,
        }
    }
    rest
}

// Whether the run ends at the number or before it.
fn ends_by(run: Run, number: u64) -> bool
    ensures { IsTrue result ↔ (run.from + run.count ≤ number) }
{
    run.from <= number && run.count <= number - run.from
}

// Adds the parts of `second` that the run leads to.
fn push_after(table: &mut Vec<Run>, run: Run, second: &[Run]) -> Result<(), AllocError>
    requires run { fits run ≡ true }
    requires second { is_table 0 second.now ≡ true }
    ensures { OnOk result (table.new.items ≡ table.old.items ++ after_run run second.now) }
{
    let end = run.to + run.count;
    for next in second {
        if end <= next.from {
            return Ok(());
        }
        if let Some(part) = part(run, *next) {
            table.push(part)?;
        }
    }
    Ok(())
}

// The part of the second run that the first leads to, by the numbers of the first.
fn part(run: Run, next: Run) -> Option<Run>
    requires run { fits run ≡ true }
    requires next { fits next ≡ true }
    ensures { result ≡ part run next }
{
    let start = run.to.max(next.from);
    let end = (run.to + run.count).min(next.from + next.count);
    if start < end {
        Some(Run {
            from: run.from + (start - run.to),
            to: next.to + (start - next.from),
            count: end - start,
        })
    } else {
        None
    }
}

// The table with a run behind it.
pub(crate) fn with_run(alloc: Global, table: &[Run], last: Run) -> Result<Vec<Run>, AllocError>
    ensures { IfOk result (λ longer. longer.items ≡ table.now ++ last ∷ []) }
{
    let mut longer = table.to_vec(alloc)?;
    longer.push(last)?;
    Ok(longer)
}
