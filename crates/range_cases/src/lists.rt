// Lists of calls that are drawn, on kept summaries beside what is worked out plainly.
use crate::both::Both;
use crate::plain::Expected;
use crate::values::value;
use cell_addr::Block;
use cell_value::Summary;
use draws::{Corner, Draws};
use shift_core::{moved_block, sound};
use std::alloc::{AllocError, Global};
use std::fmt;
use std::sync::ledger::Ledger;
use steps::Steps;

// How many calls a list has.
const CALLS: u32 = 400;

// How many lists are drawn at each corner, and how many long ones besides, of so many calls: over these, tables of lines are merged.
const LISTS: u64 = 12;

const LONG_LISTS: u64 = 2;

const LONG_CALLS: u32 = 2_000;

// How many summaries a growing block and a rolling one have.
const GROWTH: u32 = 8;

const ROLLS: u32 = 6;

// One call in so many asks for the summary of whole rows or columns, of which the plain model looks at every cell.
const SELDOM: u32 = 1_300;

// More than the blocks that a list keeps.
const MANY: u32 = 100_000;

// How many calls were made, and how many summaries or counts differed from what they should be.
#[derive(Clone, Copy, Default)]
pub(crate) struct Tally {
    values: u64,
    shifts: u64,
    summaries: u64,
    kept: u64,
    copies: u64,
    pub(crate) differ: u64,
}

impl fmt::Display for Tally {
    fn fmt<W: fmt::Write>(&self, f: &mut fmt::Formatter<W>) -> fmt::Result {
        write!(
            f,
            "{} values, {} operations, {} copies, ",
            self.values, self.shifts, self.copies
        )?;
        write!(
            f,
            "{} summaries, of which {} were kept, {} differ",
            self.summaries, self.kept, self.differ
        )
    }
}

// A list under way.
#[derive(Drop)]
struct List {
    alloc: Global,
    both: Both,
    expected: Expected,
    draws: Draws,
    tally: Tally,
}

// What comes of lists whose places are drawn near a corner.
pub(crate) fn lists<L: Ledger>(
    alloc: Global,
    corner: Corner,
    steps: &mut Steps<L>,
) -> Result<Tally, AllocError> {
    let mut tally = Tally::default();
    'seeds: for seed in 0..LISTS + LONG_LISTS {
        let calls = if seed < LISTS { CALLS } else { LONG_CALLS };
        let mut list = List {
            alloc,
            both: Both::new(alloc)?,
            expected: Expected::new(alloc),
            draws: Draws::new(seed, corner),
            tally,
        };
        list.run(calls, steps)?;
        tally = list.tally;
    }
    Ok(tally)
}

impl List {
    // Makes so many calls.
    fn run<L: Ledger>(&mut self, calls: u32, steps: &mut Steps<L>) -> Result<(), AllocError> {
        'calls: for _ in 0..calls {
            self.call(steps)?;
        }
        Ok(())
    }

    // Makes one call, or a few that belong together.
    fn call<L: Ledger>(&mut self, steps: &mut Steps<L>) -> Result<(), AllocError> {
        if self.draws.below(SELDOM) == 0 {
            let whole = self.draws.whole();
            return self.ask(whole.block(), steps);
        }
        match self.draws.below(20) {
            0..4 => self.put(),
            4..9 => self.shift(steps),
            9..12 => {
                let block = self.draws.block();
                self.ask(block, steps)
            }
            12..16 => self.ask_again(steps),
            16..18 => self.grow(steps),
            18 => self.roll(steps),
            _ => self.copy(),
        }
    }

    // Gives a place a value.
    fn put(&mut self) -> Result<(), AllocError> {
        let at = self.draws.place();
        let value = value(&mut self.draws, self.alloc)?;
        if self.both.put(at, value)? {
            self.expected.touch(at);
            self.tally.values = self.tally.values.saturating_add(1);
        }
        Ok(())
    }

    // Does an operation, where it fits, and asks for the summary of a block that was kept, where it is now.
    fn shift<L: Ledger>(&mut self, steps: &mut Steps<L>) -> Result<(), AllocError> {
        let shift = self.draws.shift();
        if !sound(&shift) {
            return Ok(());
        }
        let kept = self.kept();
        self.both.shift(&shift)?;
        self.expected.shift(&shift)?;
        self.tally.shifts = self.tally.shifts.saturating_add(1);
        match kept.and_then(|block| moved_block(&shift, block)) {
            Some(after) => self.ask(after, steps),
            None => Ok(()),
        }
    }

    // One of the blocks whose summaries should be kept.
    fn kept(&mut self) -> Option<Block> {
        self.expected.any(self.draws.below(MANY))
    }

    // Asks for the summary of a block that should be kept.
    fn ask_again<L: Ledger>(&mut self, steps: &mut Steps<L>) -> Result<(), AllocError> {
        match self.kept() {
            Some(block) => self.ask(block, steps),
            None => Ok(()),
        }
    }

    // Goes on with a copy.
    fn copy(&mut self) -> Result<(), AllocError> {
        let same = self.both.go_on_with_a_copy()?;
        self.tally.copies = self.tally.copies.saturating_add(1);
        self.compare(same);
        Ok(())
    }

    // Asks for the summaries of a block that grows row by row.
    fn grow<L: Ledger>(&mut self, steps: &mut Steps<L>) -> Result<(), AllocError> {
        let first = self.draws.block();
        'growth: for more in 0..GROWTH {
            let block = Block {
                bottom: first.bottom.saturating_add(more),
                ..first
            };
            self.ask(block, steps)?;
        }
        Ok(())
    }

    // Asks for the summaries of a block that rolls down row by row.
    fn roll<L: Ledger>(&mut self, steps: &mut Steps<L>) -> Result<(), AllocError> {
        let first = self.draws.block();
        'rolls: for by in 0..ROLLS {
            let block = Block {
                top: first.top.saturating_add(by),
                bottom: first.bottom.saturating_add(by),
                ..first
            };
            self.ask(block, steps)?;
        }
        Ok(())
    }

    // Asks for the summary of a block on the sheet: it is to be the plain one, and no more and no fewer cells are to be merged
    // than those that aren't in a kept summary and aren't empty.
    fn ask<L: Ledger>(&mut self, b: Block, steps: &mut Steps<L>) -> Result<(), AllocError> {
        let Some((summary, merged)) = self.both.summary(b, steps)? else {
            return Ok(());
        };
        let left = self.expected.to_merge(b)?;
        self.tally.summaries = self.tally.summaries.saturating_add(1);
        if left.is_none() {
            self.tally.kept = self.tally.kept.saturating_add(1);
        }
        let expected = self.both.plain_count(left);
        let same = self.is_plain(b, summary);
        self.compare(same && merged == expected);
        Ok(())
    }

    // Whether the summary of a block is the plain one.
    fn is_plain(&self, b: Block, summary: Summary) -> bool {
        summary == self.both.plain_summary(b)
    }

    // Counts a difference.
    fn compare(&mut self, same: bool) {
        if !same {
            self.tally.differ = self.tally.differ.saturating_add(1);
        }
    }
}
