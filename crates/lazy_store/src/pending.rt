// The operations between a position of the line and a later one.
ghost use Rattle.std.specs.Prelude.{◌≡◌, ◌≤◌, ◌-◌, ℕ, ⊤, MatchOption, IfOk, IfSome, length, drop};
ghost use Rattle.shift_line.specs.Track.{IsRun, Track, last};
ghost use Rattle.lazy_store.specs.internal.Pending.{IsListed, shifts_of};

use cell_addr::{Axis, Block, Place};
use run_walk::{Steps, Way};
use sheet_shifts::{Ahead, SheetShifts};
use shift_core::Shift;
use shift_line::Line;
use std::alloc::{AllocError, Global};

// The operations of the line from a position on, listed by sheets for whoever takes many formulas along.
#[derive(Drop)]
pub(crate) struct Listed {
    pub(crate) first: u64,
    pub(crate) lists: SheetShifts,
}

impl Listed {
    // The operations between two positions.
    pub(crate) fn of(alloc: Global, line: &Line, from: u64, to: u64) -> Result<Listed, AllocError>
        requires { from ≤ to }
        ensures { IfOk result (λ l. IsListed line.now to l) }
    {
        let run = operations(alloc, line, from, to)?;
        let lists = SheetShifts::of(alloc, run)?;
        Ok(Listed { first: from, lists })
    }

    // The way over them from the position on; None where none of them is there.
    fn ahead(&self, from: u64) -> Option<Ahead<'_>>
        ensures run { (line : Track) (to : ℕ) → IsListed line to self.now → IfSome result (λ w. IsRun line from (drop w.from w.lists.now.run.items)) }
        ensures within { (line : Track) (to : ℕ) → IsListed line to self.now → IfSome result (λ w. length (drop w.from w.lists.now.run.items) ≤ to - from) }
    {
        if from < self.first || self.lists.run().len() as u64 <= from - self.first {
            return None;
        }
        let skipped = (from - self.first) as usize;
        Some(Ahead::of(&self.lists, skipped))
    }
}

// The operations between two positions, as many as there are.
fn operations(alloc: Global, line: &Line, from: u64, to: u64) -> Result<Vec<Shift>, AllocError>
    requires { from ≤ to }
    ensures run { IfOk result (λ run. IsRun line.now from run.items) }
    ensures within { IfOk result (λ run. length run.items ≤ to - from) }
{
    let mut run = Vec::new(alloc);
    'operations: for position in from..to {
        let Some(s) = line.at(position) else {
            return Ok(run);
        };
        run.push(s)?;
    }
    Ok(run)
}

// Operations that a formula is to be taken over, and the way over them.
#[derive(Clone, Copy)]
pub(crate) enum Pending<'a> {
    Listed(Ahead<'a>),
    Plain(Steps<'a>),
}

impl<'a> Way for Pending<'a> {
    ghost shifts = { λ w. shifts_of w };

    fn run(&self) -> &[Shift] {
        match self {
            Pending::Listed(way) => way.run(),
            Pending::Plain(way) => way.run(),
        }
    }

    fn place(&self, count: usize, p: Place) -> Option<Place> {
        match self {
            Pending::Listed(way) => way.place(count, p),
            Pending::Plain(way) => way.place(count, p),
        }
    }

    fn carried(&self, count: usize, lines: Option<Axis>, b: Block) -> Option<Block> {
        match self {
            Pending::Listed(way) => way.carried(count, lines, b),
            Pending::Plain(way) => way.carried(count, lines, b),
        }
    }
}

// The operations from one position up to another one, as many as are at hand; by the list where it has them.
pub(crate) fn between<'a>(
    line: &'a Line,
    listed: Option<&'a Listed>,
    from: u64,
    to: u64,
) -> Pending<'a>
    requires { MatchOption listed ⊤ (λ l. IsListed line.now to l.now) }
    ensures run { IsRun line.now from (shifts_of result) }
    ensures within { length (shifts_of result) ≤ to - from }
{
    match ahead_in(listed, from) {
        Some(way) => Pending::Listed(way),
        None => Pending::Plain(Steps::over(line.run_from(from, to))),
    }
}

// The way over listed operations from the position on, where they are listed and there is one.
fn ahead_in<'a>(listed: Option<&'a Listed>, from: u64) -> Option<Ahead<'a>>
    ensures run { (line : Track) (to : ℕ) → MatchOption listed.entry ⊤ (λ l. IsListed line to l.now) → IfSome result (λ w. IsRun line from (drop w.from w.lists.now.run.items)) }
    ensures within { (line : Track) (to : ℕ) → MatchOption listed.entry ⊤ (λ l. IsListed line to l.now) → IfSome result (λ w. length (drop w.from w.lists.now.run.items) ≤ to - from) }
{
    match listed {
        Some(listed) => listed.ahead(from),
        None => None,
    }
}
